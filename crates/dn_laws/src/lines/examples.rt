// Worked lines, at the limits of the definitions.
ghost use Rattle.std.specs.Prelude.{◌≡◌, [], ◌∷◌, ◌++◌, codes, pos, negsuc, true, false};
ghost use Rattle.dn_line.specs.Pieces.{lines};
ghost use Rattle.dn_line.specs.Words.{words, said_words, is_skip};
ghost use Rattle.dn_line.specs.State.LineReads.{line_read};

use dn_line::{Code, Kind, Letter, Line};

/// Only LF ends a line, and the last line may lack it.
pub fn lines_of_texts()
    ensures ended { lines (codes "a" ++ 10 ∷ codes "b" ++ 10 ∷ []) ≡ codes "a" ∷ codes "b" ∷ [] }
    ensures unended { lines (codes "a" ++ 10 ∷ codes "b") ≡ codes "a" ∷ codes "b" ∷ [] }
    ensures blank { lines (10 ∷ 13 ∷ 10 ∷ []) ≡ [] ∷ (13 ∷ []) ∷ [] }
{}

/// Spaces, tabs and CR are blanks anywhere in a line.
pub fn words_of_lines()
    ensures { words (9 ∷ codes "a  1" ++ 13 ∷ codes "2" ++ 9 ∷ 32 ∷ 13 ∷ []) ≡ codes "a" ∷ codes "1" ∷ codes "2" ∷ [] }
{}

/// A line without a word is skipped, and so is a line whose first word begins with `c`.
pub fn skipped()
    ensures comment { is_skip (said_words (codes "c")) ≡ true }
    ensures longer { is_skip (said_words (codes " cab 1")) ≡ true }
    ensures blank { is_skip (said_words (32 ∷ 9 ∷ 13 ∷ [])) ≡ true }
    ensures upper { is_skip (said_words (codes "C")) ≡ false }
{}

/// Names of problems: whole words, in lower case.
pub fn problem_names()
    ensures third_word { line_read None (codes "p aux sp") ≡ Err Code.UnknownProblem }
    ensures lower_case { line_read None (codes "p SP 0 0") ≡ Err Code.UnknownProblem }
    ensures whole_word { line_read None (codes "pp sp 0 0") ≡ Err Code.BadLine }
    ensures companion { line_read None (codes "p aux sp co 2") ≡ Ok (Line.Aux Kind.Co (pos 2)) }
    ensures graph { line_read None (codes "p min 3 +02") ≡ Ok (Line.Graph Kind.Min (pos 3) (pos 2)) }
{}

/// `NotANumber` comes before `OutOfRange`, even if the number out of range is in an earlier field.
pub fn numbers_first()
    ensures problem { line_read None (codes "p sp 9223372036854775808 x") ≡ Err Code.NotANumber }
    ensures arc { line_read (Some Kind.Sp) (codes "a 9223372036854775808 2 x") ≡ Err Code.NotANumber }
    ensures range { line_read (Some Kind.Sp) (codes "a 1 2 9223372036854775808") ≡ Err Code.OutOfRange }
    ensures count { line_read (Some Kind.Sp) (codes "a x 9223372036854775808") ≡ Err Code.FieldCount }
{}

/// A number below 0 is a fault of a count, LOW or CAP, but not of a COST or a FLOW.
pub fn below_zero()
    ensures low { line_read (Some Kind.Min) (codes "a 1 2 -1 3 0") ≡ Err Code.Negative }
    ensures cost { line_read (Some Kind.Min) (codes "a 1 2 0 3 -4")
        ≡ Ok (Line.MinArc (pos 1) (pos 2) (pos 0) (pos 3) (negsuc 3)) }
    ensures flow { line_read (Some Kind.Min) (codes "n 1 -4") ≡ Ok (Line.Supply (pos 1) (negsuc 3)) }
{}

/// The terminals of a `max` text, and lines that this kind does not have.
pub fn terminals()
    ensures neither { line_read (Some Kind.Max) (codes "n 0 x") ≡ Err Code.BadTerminal }
    ensures longer { line_read (Some Kind.Max) (codes "n 1 st") ≡ Err Code.BadTerminal }
    ensures sink { line_read (Some Kind.Max) (codes "n 1 t") ≡ Ok (Line.Terminal (pos 1) Letter.T) }
    ensures letter { line_read (Some Kind.Max) (codes "s 1") ≡ Err Code.WrongLine }
    ensures early { line_read None (codes "n 1 t") ≡ Err Code.EarlyLine }
{}
