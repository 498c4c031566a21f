// Worked lines and texts of rows.
ghost use Rattle.std.specs.Prelude.{◌≡◌, [], ◌∷◌, codes};
ghost use Rattle.dn_sink.specs.Rows.{line_text, text_of};

/// Lines of three words, of one word, and of none.
pub fn worked_lines()
    ensures three { line_text (codes "a" ∷ codes "12" ∷ codes "-3" ∷ []) ≡ codes "a 12 -3\n" }
    ensures one { line_text (codes "same" ∷ []) ≡ codes "same\n" }
    ensures none { line_text [] ≡ codes "\n" }
{}

/// A text of two lines, and one of none.
pub fn worked_texts()
    ensures two { text_of ((codes "p" ∷ codes "sp" ∷ []) ∷ (codes "a" ∷ []) ∷ []) ≡ codes "p sp\na\n" }
    ensures none { text_of [] ≡ [] }
{}
