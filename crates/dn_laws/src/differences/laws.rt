// Laws of first differences.
ghost use Rattle.std.specs.Prelude.{◌≡◌, ◌↔◌};
ghost use Rattle.dn_instance.specs.Instances.{Instance};
ghost use Rattle.dn_instance.specs.Sameness.{IsSame};
ghost use Rattle.dn_instance.specs.Validity.{IsValid};
ghost use Rattle.dn_compare.specs.FirstDifference.{IsFirstDifference};
ghost use Rattle.dn_instance.specs.State.Turned.{turned};
ghost use Rattle.dn_instance.specs.declared.verdict.Verdict.{Verdict};

/// Two instances have at most one first difference.
pub fn one_verdict()
    ensures { (I J : Instance) (v w : Verdict) → IsFirstDifference I J v → IsFirstDifference I J w → v ≡ w }
{}

/// Any two valid instances have a first difference.
pub fn some_verdict()
    ensures { (I J : Instance) → IsValid I → IsValid J → (v : Verdict) × IsFirstDifference I J v }
{}

/// The first difference depends only on which problems the instances are.
pub fn by_meaning()
    ensures { (I I' J J' : Instance) (v : Verdict) → IsSame I I' → IsSame J J'
        → IsFirstDifference I J v → IsFirstDifference I' J' v }
{}

/// The first difference in the other order is the same one with left and right exchanged.
pub fn turned_sides()
    ensures { (I J : Instance) (v : Verdict) → IsFirstDifference I J v → IsFirstDifference J I (turned v) }
{}

/// The first difference is `Same` if and only if the instances are the same problem.
pub fn same_exactly()
    ensures { (I J : Instance) → IsFirstDifference I J Verdict.Same ↔ IsSame I J }
{}
