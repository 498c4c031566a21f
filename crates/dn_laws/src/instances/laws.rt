// Laws of texts and instances.
ghost use Rattle.std.specs.Prelude.{◌≡◌, ◌⊎◌, ◌<◌, ◌-◌, ◌^◌, ℕ, ℤ, List, ◌∷◌, ◌++◌, length, map, true};
ghost use Rattle.std.specs.List.{AllByRecursion};
ghost use Rattle.std.specs.List.Sorted.{IsPermutation, IsStrictlySortedBy};
ghost use Rattle.std.specs.Ordering.{nat_cmp};
ghost use Rattle.dn_line.specs.Pieces.{lines};
ghost use Rattle.dn_line.specs.State.Ranks.{code_rank};
ghost use Rattle.dn_line.specs.Words.{is_blank, words};
ghost use Rattle.dn_line.specs.declared.code.Code.{Code};
ghost use Rattle.dn_line.specs.declared.line.Line.{Line};
ghost use Rattle.dn_line.specs.declared.word.Word.{Word};
ghost use Rattle.dn_arc_theory.specs.declared.arc.LengthArc.{LengthArc};
ghost use Rattle.dn_arc_theory.specs.declared.arc.CapArc.{CapArc};
ghost use Rattle.dn_arc_theory.specs.declared.arc.CostArc.{CostArc};
ghost use Rattle.dn_arc_theory.specs.Meanings.{SameLength, SameTotal, SameCurve};
ghost use Rattle.dn_instance.specs.declared.refusal.Place.{Place};
ghost use Rattle.dn_instance.specs.declared.refusal.Place.TheVariants as Places;
ghost use Rattle.dn_instance.specs.State.Helds.{Parsed, IsHeld};
ghost use Rattle.dn_instance.specs.Instances.{Instance};
ghost use Rattle.dn_instance.specs.State.Parts.{AreParts, AreSame};
ghost use Rattle.dn_instance.specs.Sameness.{IsSame, SameGraph};
ghost use Rattle.dn_instance.specs.TextFaults.{is_too_long, line_tests, end_tests};
ghost use Rattle.dn_instance.specs.Texts.{Reads, IsFirstFault, IsFirstFaultAt};
ghost use Rattle.dn_instance.specs.Readers.{ended};
ghost use Rattle.dn_instance.specs.Validity.{IsValid};
ghost use Rattle.dn_laws.specs.State.Contents.{IsArcLine, kept_words};

/// A text reads as at most one instance.
pub fn one_reading()
    ensures { (t : List ℕ) (I J : Instance) → Reads t I → Reads t J → I ≡ J }
{}

/// A text has at most one first fault: one place, and one code there.
pub fn one_first_fault()
    ensures place { (t : List ℕ) (p q : Place) (c d : Code) → IsFirstFault t p c → IsFirstFault t q d → p ≡ q }
    ensures code { (t : List ℕ) (p q : Place) (c d : Code) → IsFirstFault t p c → IsFirstFault t q d → c ≡ d }
{}

/// Comments and empty lines change nothing: texts whose other lines have words with the same meanings, in the same
/// order, read as the same instance, if they have at most 2^63-2 lines. Nor does it matter how many blanks, tabs and
/// CRs stand before, between and behind words.
pub fn words_alone()
    ensures lines { (t u : List ℕ) (I : Instance) → kept_words t ≡ kept_words u → length (lines u) < 2 ^ 63 - 1
        → Reads t I → Reads u I }
    ensures blanks { (l m : List ℕ) (b : ℕ) → is_blank b ≡ true → words (l ++ b ∷ m) ≡ words l ++ words m }
{}

/// The order of the arc lines does not matter: two texts that read as instances, and that are alike but for the order
/// of the arc lines at their ends, comments and empty lines apart, pose the same problem.
pub fn arc_lines_in_any_order()
    ensures { (t u : List ℕ) (head arcs other : List (List Word)) (I J : Instance) → kept_words t ≡ head ++ arcs
        → kept_words u ≡ head ++ other → IsPermutation arcs other → AllByRecursion IsArcLine arcs → Reads t I
        → Reads u J → IsSame I J }
{}

/// Bytes behind a line with the first fault change nothing: if one of the complete lines of a text has its first fault,
/// this is the first fault of each text that begins with these bytes.
pub fn after_a_fault()
    ensures { (t u : List ℕ) (n : ℕ) (c : Code) → IsFirstFaultAt (ended t) n c
        → IsFirstFault (t ++ u) (Places.Line n) c }
{}

/// Ranks strictly increase along the tests of a line, and from there along those of the end of a text. So of two
/// faults, the one with the lower rank is checked first.
pub fn ranks()
    ensures { (n : ℕ) (before items : List Line) (ws : List Word) → IsStrictlySortedBy nat_cmp
        (map (λ t. code_rank t.0) ((Code.TooLong, is_too_long n) ∷ (line_tests before ws ++ end_tests items))) }
{}

/// A text reads as an instance if and only if it has no first fault.
pub fn accepted_or_faulty()
    ensures either { (t : List ℕ) → ((I : Instance) × Reads t I) ⊎ ((p : Place) × (c : Code) × IsFirstFault t p c) }
    ensures not_both { (t : List ℕ) (I : Instance) (p : Place) (c : Code) → Reads t I → IsFirstFault t p c → ⊥ }
{}

/// The instance that a text reads as is valid.
pub fn valid_reading()
    ensures { (t : List ℕ) (I : Instance) → Reads t I → IsValid I }
{}

/// Being the same problem is an equivalence.
pub fn same_instance()
    ensures reflexive { (I : Instance) → IsSame I I }
    ensures symmetric { (I J : Instance) → IsSame I J → IsSame J I }
    ensures transitive { (I J K : Instance) → IsSame I J → IsSame J K → IsSame I K }
{}

/// The order of its arcs does not matter to a graph.
pub fn any_order()
    ensures lengths { (nodes : ℤ) (xs ys : List ((ℤ × ℤ) × LengthArc)) → IsPermutation xs ys
        → SameGraph SameLength (record { nodes = nodes; arcs = xs }) (record { nodes = nodes; arcs = ys }) }
    ensures capacities { (nodes : ℤ) (xs ys : List ((ℤ × ℤ) × CapArc)) → IsPermutation xs ys
        → SameGraph SameTotal (record { nodes = nodes; arcs = xs }) (record { nodes = nodes; arcs = ys }) }
    ensures costs { (nodes : ℤ) (xs ys : List ((ℤ × ℤ) × CostArc)) → IsPermutation xs ys
        → SameGraph SameCurve (record { nodes = nodes; arcs = xs }) (record { nodes = nodes; arcs = ys }) }
{}

/// Two graph problems that are made of parts are the same problem, if each part of one is the same problem as the part
/// at its position of the other.
pub fn in_parts()
    ensures { (I J : Instance) (parts others : List Instance) → AreParts parts I → AreParts others J
        → AreSame parts others → IsSame I J }
{}

/// All instances that a parsed instance represents are the same problem.
pub fn one_held_meaning()
    ensures { (h : Parsed) (I J : Instance) → IsHeld h I → IsHeld h J → IsSame I J }
{}
