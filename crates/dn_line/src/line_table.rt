// The table of lines: the fields of each line, and where they begin.
ghost use Rattle.std.specs.Prelude.{◌≡◌, ◌∷◌, map, MatchOption, IfSome, Some, true};
ghost use Rattle.dn_line.specs.LineTable.{fields_of, named, counts, after_name};
ghost use Rattle.dn_line.specs.State.LineStates.{is_clear};
ghost use Rattle.dn_line.specs.State.Rows.{AreNumeric, HasFields, letter_byte};
ghost use Rattle.dn_line.specs.State.RowItems.{after_head, fields_at};
ghost use Rattle.dn_line.specs.Words.{tail};

use crate::kind::Kind;
use crate::line::Head;
use crate::word::{Field, Keyword, Word};

// Returns the kind that the words after `p` begin with the name of.
pub(crate) fn named(words: &[Word]) -> Option<Kind>
    ensures { result ≡ named (map (λ w. w.keyword) words.now) }
{
    match words {
        [first, rest @ ..] => match first.keyword {
            Some(Keyword::Min) => Some(Kind::Min),
            Some(Keyword::Max) => Some(Kind::Max),
            Some(Keyword::Sp) => Some(Kind::Sp),
            Some(Keyword::Aux) => companion_named(rest),
            _ => None,
        },
        [] => None,
    }
}

// Returns the fields of the line that this kind has for this letter.
fn fields_of(kind: Kind, letter: Keyword) -> Option<&'static [Field]>
    ensures { MatchOption result (fields_of kind letter ≡ None) (λ fs. fields_of kind letter ≡ Some fs.now) }
{
    match (kind, letter) {
        (Kind::Min, Keyword::N) => Some(&[Field::Number, Field::Number]),
        (Kind::Min, Keyword::A) => Some(&[
            Field::Number,
            Field::Number,
            Field::Natural,
            Field::Natural,
            Field::Number,
        ]),
        (Kind::Max, Keyword::N) => Some(&[Field::Number, Field::Terminal]),
        (Kind::Max, Keyword::A) => Some(&[Field::Number, Field::Number, Field::Natural]),
        (Kind::Sp, Keyword::A) => Some(&[Field::Number, Field::Number, Field::Number]),
        (Kind::Ss, Keyword::S) => Some(&[Field::Number]),
        (Kind::P2p, Keyword::Q) => Some(&[Field::Number, Field::Number]),
        (Kind::Co, Keyword::V) => Some(&[Field::Number, Field::Number, Field::Number]),
        _ => None,
    }
}

// Returns the fields of a line with this head, in a text of this kind.
pub(crate) fn fields_at(known: Option<Kind>, head: Head) -> Option<&'static [Field]>
    ensures { MatchOption result (fields_at head known ≡ None) (λ fields. fields_at head known ≡ Some fields.now) }
{
    match (head, known) {
        (Head::Problem(kind), _) => Some(counts(kind)),
        (Head::Node, Some(kind)) => fields_of(kind, Keyword::N),
        (Head::Arc, Some(kind)) => fields_of(kind, Keyword::A),
        (Head::Source, Some(kind)) => fields_of(kind, Keyword::S),
        (Head::Query, Some(kind)) => fields_of(kind, Keyword::Q),
        (Head::Point, Some(kind)) => fields_of(kind, Keyword::V),
        _ => None,
    }
}

// Returns the fields of the line that this kind has for this letter, if all of them are numbers.
pub(crate) fn number_fields(kind: Kind, letter: u8) -> Option<&'static [Field]>
    ensures fields { IfSome result (λ fields. HasFields kind letter fields.now) }
    ensures clear { IfSome result (λ fields. is_clear letter ≡ true) }
    ensures numeric { IfSome result (λ fields. AreNumeric fields.now) }
{
    let fields = fields_of(kind, letter_keyword(letter)?)?;
    if are_numeric(fields) {
        Some(fields)
    } else {
        None
    }
}

// Returns the keyword that this letter of a line after the problem line is.
fn letter_keyword(letter: u8) -> Option<Keyword>
    ensures { IfSome result (λ key. letter_byte key ≡ Some letter) }
{
    match letter {
        b'a' => Some(Keyword::A),
        b'n' => Some(Keyword::N),
        b's' => Some(Keyword::S),
        b'q' => Some(Keyword::Q),
        b'v' => Some(Keyword::V),
        _ => None,
    }
}

// Whether each of these fields is of a number.
fn are_numeric(fields: &[Field]) -> bool
    ensures { result ≡ true → AreNumeric fields.now }
{
    for field in fields {
        if let Field::Terminal = field {
            return false;
        }
    }
    true
}

// Returns the fields of a problem line, which follow the name of its kind.
fn counts(kind: Kind) -> &'static [Field]
    ensures { result.now ≡ counts kind }
{
    match kind {
        Kind::Min | Kind::Max | Kind::Sp => &[Field::Natural, Field::Natural],
        Kind::Ss | Kind::P2p | Kind::Co => &[Field::Natural],
    }
}

// Returns the words that fill the fields of a line with this head.
pub(crate) fn after_head(head: Head, words: &[Word]) -> &[Word]
    ensures { result.now ≡ after_head head words.now }
{
    match head {
        Head::Problem(kind) => after_name(kind, tail(words)),
        _ => tail(words),
    }
}

// Returns the words after the first.
fn tail(words: &[Word]) -> &[Word]
    ensures { result.now ≡ tail words.now }
{
    match words {
        [_, rest @ ..] => rest,
        [] => &[],
    }
}

// Returns the words after the name of the kind.
fn after_name(kind: Kind, words: &[Word]) -> &[Word]
    ensures { result.now ≡ after_name kind words.now }
{
    match (kind, words) {
        (Kind::Min | Kind::Max | Kind::Sp, [_, rest @ ..]) => rest,
        (Kind::Ss | Kind::P2p | Kind::Co, [_, _, _, rest @ ..]) => rest,
        _ => &[],
    }
}

// Returns the kind that the words after `aux` begin with the name of.
fn companion_named(words: &[Word]) -> Option<Kind>
    ensures { result ≡ named (Some Keyword.Aux ∷ map (λ w. w.keyword) words.now) }
{
    match words {
        [first, second, ..] => match (first.keyword, second.keyword) {
            (Some(Keyword::Sp), Some(Keyword::Ss)) => Some(Kind::Ss),
            (Some(Keyword::Sp), Some(Keyword::P2p)) => Some(Kind::P2p),
            (Some(Keyword::Sp), Some(Keyword::Co)) => Some(Kind::Co),
            _ => None,
        },
        _ => None,
    }
}
