// Laws of canonical texts.
ghost use Rattle.std.specs.Prelude.{◌≡◌, ◌↔◌, ℕ, ◌-◌, ◌<◌, ◌≤◌, ◌^◌, ℤ, List, ◌++◌, length};
ghost use Rattle.std.specs.List.{AllByRecursion, sum_by};
ghost use Rattle.dn_line.specs.Pieces.{lines};
ghost use Rattle.dn_arc_theory.specs.declared.arc.CapArc.{CapArc};
ghost use Rattle.dn_arc_theory.specs.declared.arc.CostArc.{CostArc};
ghost use Rattle.dn_instance.specs.Instances.{Graph, Instance, MinCostFlow, MaxFlow, size_of};
ghost use Rattle.dn_instance.specs.State.Parts.{AreParts};
ghost use Rattle.dn_instance.specs.Sameness.{IsSame};
ghost use Rattle.dn_instance.specs.Texts.{Reads};
ghost use Rattle.dn_instance.specs.Validity.{IsValid, AreSupplies, AreTerminals};
ghost use Rattle.dn_canon.specs.CanonInstances.{IsCanonInstanceOf};
ghost use Rattle.dn_canon.specs.State.CanonReadings.{ReadsTwice};
ghost use Rattle.dn_canon.specs.CanonTexts.{IsCanonOf, IsTooLarge};
ghost use Rattle.dn_canon.specs.State.PartCanons.{HasCanonParts, AreRanges, arc_rows, gathered_rows, head_rows};
ghost use Rattle.dn_canon.specs.Prints.{print, rows};
ghost use Rattle.dn_sink.specs.Rows.{text_of};

use dn_bundle::Form;

/// Each valid instance has exactly one canonical text in each form. By `valid_reading`, each instance that a text reads
/// as is valid.
pub fn canonical_text(form: Form)
    ensures some { (I : Instance) → IsValid I → (t : List ℕ) × IsCanonOf form t I }
    ensures one { (I : Instance) (t u : List ℕ) → IsCanonOf form t I → IsCanonOf form u I → t ≡ u }
{}

/// An instance has a canonical text of too many lines if and only if its canonical instance has so many arcs or items.
pub fn too_large(form: Form)
    ensures { (I J : Instance) → IsCanonInstanceOf form J I → IsTooLarge form I ↔ (2 ^ 63 ≤ size_of J) }
{}

/// Canonical texts of the same form are equal if and only if their instances are the same problem.
pub fn same_bytes(form: Form)
    ensures { (t u : List ℕ) (I J : Instance) → IsCanonOf form t I → IsCanonOf form u J
        → (t ≡ u) ↔ IsSame I J }
{}

/// A canonical text of at most 2^63-2 lines reads as exactly one instance. This is the same problem, and the text is
/// its only canonical text.
pub fn twice(form: Form)
    ensures { (t : List ℕ) (I : Instance) → length (lines t) < 2 ^ 63 - 1 → IsCanonOf form t I
        → (J : Instance) × ReadsTwice form t I J }
{}

/// The instance that a canonical text of I reads as is the canonical instance of I.
pub fn canonical_reading(form: Form)
    ensures { (t : List ℕ) (I J : Instance) → IsCanonOf form t I → Reads t J → IsCanonInstanceOf form J I }
{}

/// Writing a problem in one form, reading that text back, and writing it in the other form gives the same bytes as
/// writing the problem in the other form at once.
pub fn crossed(from: Form, to: Form)
    ensures { (t u v : List ℕ) (I J : Instance) → IsCanonOf from t I → Reads t J
        → IsCanonOf to u I → IsCanonOf to v J → u ≡ v }
{}

/// Chunks: a graph problem that is made of parts, and one that is made of the canonical instances of these parts, are
/// the same problem. If the parts are valid, the one is valid if and only if the other is. So a text may be cut between
/// its arc lines, and each chunk be canonicalised after the head of the whole. The arc lines of the results, one result
/// after another, have the canonical text of the whole, byte for byte. The chunks may be in another form than the
/// whole.
pub fn in_chunks(from: Form, to: Form)
    ensures whole { (I : Instance) (c : HasCanonParts from I) → (W : Instance) × AreParts c.canons W }
    ensures same { (I W : Instance) (c : HasCanonParts from I) → AreParts c.canons W → IsSame I W }
    ensures valid { (I W : Instance) (c : HasCanonParts from I) → AreParts c.canons W → AllByRecursion IsValid c.parts
        → IsValid I ↔ IsValid W }
    ensures bytes { (t u : List ℕ) (I W : Instance) (c : HasCanonParts from I) → AreParts c.canons W
        → IsCanonOf to t I → IsCanonOf to u W → t ≡ u }
{}

/// Ranges: if each SRC of a part is below each SRC of all later parts, the canonical instance of a graph problem is
/// made of the canonical instances of its parts. So the canonical text of the whole is its head, with the sum of the
/// counts of the canonical texts of the parts, and then the arc lines of these texts, one part after another.
pub fn in_ranges(form: Form)
    ensures canon { (I J : Instance) (c : HasCanonParts form I) → AreRanges c.parts
        → AreParts c.canons J ↔ IsCanonInstanceOf form J I }
    ensures text { (t : List ℕ) (I : Instance) (c : HasCanonParts form I) → AreRanges c.parts
        → IsCanonOf form t I ↔ (t ≡ text_of (gathered_rows I c.canons)) }
    ensures parts { (I : Instance) (c : HasCanonParts form I)
        → AllByRecursion (λ C. rows C ≡ head_rows (size_of C) C ++ arc_rows C) c.canons }
    ensures count { (I J : Instance) (c : HasCanonParts form I) → AreParts c.canons J
        → size_of J ≡ sum_by size_of c.canons }
{}

/// The canonical arcs of a graph problem do not depend on its supplies or terminals. So a part may be canonicalised
/// with other supplies or terminals.
pub fn any_head(form: Form)
    ensures supplies { (s t : List (ℤ × ℤ)) (G H : Graph CostArc) → AreSupplies G.nodes t
        → IsCanonInstanceOf form (MinCostFlow s H) (MinCostFlow s G)
        → IsCanonInstanceOf form (MinCostFlow t H) (MinCostFlow t G) }
    ensures terminals { (a b s t : ℤ) (G H : Graph CapArc) → AreTerminals G.nodes s t
        → IsCanonInstanceOf form (MaxFlow a b H) (MaxFlow a b G)
        → IsCanonInstanceOf form (MaxFlow s t H) (MaxFlow s t G) }
{}

/// A valid instance whose printed text has at most 2^63-2 lines is what that text reads as, and no other valid instance
/// has that text.
pub fn printing()
    ensures read { (I : Instance) → IsValid I → length (lines (print I)) < 2 ^ 63 - 1 → Reads (print I) I }
    ensures one { (I J : Instance) → IsValid I → IsValid J → print I ≡ print J → I ≡ J }
{}
