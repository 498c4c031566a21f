// Walks and distances in `sp` graphs that mean the same.
ghost use Rattle.std.specs.Prelude.{◌↔◌, ℤ, List};
ghost use Rattle.dn_arc_theory.specs.declared.arc.LengthArc.{LengthArc};
ghost use Rattle.dn_arc_theory.specs.Meanings.{SameLength};
ghost use Rattle.dn_instance.specs.Instances.{Graph};
ghost use Rattle.dn_instance.specs.Sameness.{SameGraph};
ghost use Rattle.dn_answers.specs.Walks.{IsWalk, HasMatchingWalk, HasWalkWithin, IsDistance};

/// If two graphs mean the same, then for each walk of one, the other has a walk along the same ordered pairs that is no
/// longer.
pub fn same_walks()
    ensures { (G H : Graph LengthArc) → SameGraph SameLength G H → (u v : ℤ) (walk : List ((ℤ × ℤ) × LengthArc))
        → IsWalk G u v walk → HasMatchingWalk H u v walk }
{}

/// If two graphs mean the same, then walks between two nodes keep within the same bounds on their length, and distances
/// are the same. So the same nodes are reached; and if cycles of negative length make walks between two nodes shorter
/// than every bound in one graph, they do so in the other.
pub fn same_distances()
    ensures bounds { (G H : Graph LengthArc) → SameGraph SameLength G H → (u v bound : ℤ)
        → HasWalkWithin G u v bound ↔ HasWalkWithin H u v bound }
    ensures distances { (G H : Graph LengthArc) → SameGraph SameLength G H → (u v d : ℤ)
        → IsDistance G u v d ↔ IsDistance H u v d }
{}
