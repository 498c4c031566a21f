// What the arc lines of a text are to its items. Each law is the contract of a function that does nothing.
ghost use Rattle.std.specs.Prelude.{◌≡◌, ℕ, List, [], ◌∷◌, ◌++◌, None};
ghost use Rattle.dn_line.specs.Pieces.{lines};
ghost use Rattle.dn_instance.specs.Instances.{Instance};
ghost use Rattle.dn_instance.specs.Texts.{IsClean, Reads, items_of};
ghost use Rattle.dn_arc_lines.specs.State.ArcLines.{arc_lines, arc_lines_from, arcs_among, arcs_in, fault_from, without_lines};

/// In lines without a fault no line has a fault by itself, and the arc lines are the arcs among the items, in order.
pub fn arcs_among_items()
    ensures fine { (ls : List (List ℕ)) → IsClean ls → fault_from None 0 ls ≡ None }
    ensures arcs { (ls : List (List ℕ)) → IsClean ls
        → without_lines (arc_lines_from None 0 ls) ≡ arcs_among (items_of ls) }
{}

/// In a text that reads as an instance no line has a fault by itself, and with an LF at its end its arc lines are the
/// arcs of the instance, in the order of the text.
pub fn arcs_of_text()
    ensures fine { (t : List ℕ) (I : Instance) → Reads t I → fault_from None 0 (lines t) ≡ None }
    ensures arcs { (t : List ℕ) (I : Instance) → Reads t I
        → without_lines (arc_lines (t ++ 10 ∷ [])) ≡ arcs_in I }
{}

/// With an LF at its end a text has the arc lines of all its lines, also of a last line without an LF.
pub fn all_lines()
    ensures { (t : List ℕ) → arc_lines (t ++ 10 ∷ []) ≡ arc_lines_from None 0 (lines t) }
{}
