// Reads a line of a letter and numbers in plain spelling in one pass.
ghost use Rattle.std.specs.Prelude.{◌≡◌, ◌≤◌, ℕ, IfSome, true, length, slice_get};
ghost use Rattle.std.proofs.Common.{rules};
ghost use Rattle.dn_line.specs.State.LineStates.{is_clear};
ghost use Rattle.dn_line.specs.State.Rows.{AreNatural, AreNumeric, BeginsWithRow, FieldsFit, HasNumbers, field_fits, row_numbers};

use crate::numbers::{
    after_blanks, after_line_end, after_plain_end, after_space, any_front, before_by_marks,
    last_front, marked_before, marked_front, number_before,
};
use crate::word::Field;
use dn_num::marks_of;

/// The numbers of a line, in their order. A number that the line does not have is 0. A terminal counts as a number: 0
/// for `s`, and 1 for `t`.
#[derive(Clone, Copy, PartialEq, Eq)]
pub struct Row {
    /// The first number.
    pub first: i64,
    /// The second number.
    pub second: i64,
    /// The third number.
    pub third: i64,
    /// The fourth number.
    pub fourth: i64,
    /// The fifth number.
    pub fifth: i64,
}

// The row of a line without numbers.
pub(crate) const NO_ROW: Row = Row {
    first: 0,
    second: 0,
    third: 0,
    fourth: 0,
    fifth: 0,
};

// A row, and the bytes after its line.
#[derive(Clone, Copy)]
pub(crate) struct RowBefore<'a> {
    pub(crate) row: Row,
    pub(crate) rest: &'a [u8],
}

// A count of numbers that a line can have.
pub(crate) trait Width {
    // The count.
    ghost count: { ℕ };

    // Reads this many numbers that fit these fields, and the LF after them, if there is one space between the numbers,
    // and each, except for the last of five, has at most eight digits. Returns none for other bytes, for too few, and
    // always for one number or two.
    #[inline(always)]
    fn read_short<'a>(fields: &[Field], bytes: &'a [u8]) -> Option<RowBefore<'a>>
        requires count { length fields.now ≡ count }
        requires numeric { AreNumeric fields.now }
        ensures numbers { IfSome result (λ r. HasNumbers count bytes.now r.row r.rest.now) }
        ensures fit { IfSome result (λ r. FieldsFit fields.now (row_numbers count r.row)) }
    {
        None
    }

    // A row has room for this many numbers.
    ghost few: { (1 ≤ count) × (count ≤ 5) };
}

// One number.
pub(crate) struct One;

impl Width for One {
    ghost count = { 1 };

    ghost few = { Prim.search rules };
}

// Two numbers.
pub(crate) struct Two;

impl Width for Two {
    ghost count = { 2 };

    ghost few = { Prim.search rules };
}

// Three numbers.
pub(crate) struct Three;

impl Width for Three {
    ghost count = { 3 };

    ghost few = { Prim.search rules };

    #[inline(always)]
    fn read_short<'a>(_fields: &[Field], bytes: &'a [u8]) -> Option<RowBefore<'a>> {
        // A number of digits alone fits any field of a number.
        let found = short_three(bytes)?;
        Some(found)
    }
}

// Five numbers.
pub(crate) struct Five;

impl Width for Five {
    ghost count = { 5 };

    ghost few = { Prim.search rules };

    #[inline(always)]
    fn read_short<'a>(fields: &[Field], bytes: &'a [u8]) -> Option<RowBefore<'a>> {
        fitting(fields, short_five(bytes)?)
    }
}

// The least number of bytes that `short_row` reads from: a letter, a space, and the bytes that are marked.
const SHORT_LINE: usize = 2 + SHORT_THREE;

// Reads the line that begins these bytes, if it is this letter and short numbers that fit these fields, with one space
// between them. Returns none for any other line, and for too few bytes.
#[inline(always)]
pub(crate) fn short_row<'a, N: Width>(
    letter: u8,
    fields: &[Field],
    bytes: &'a [u8],
) -> Option<RowBefore<'a>>
    requires clear { is_clear letter ≡ true }
    requires count { length fields.now ≡ N.count }
    requires numeric { AreNumeric fields.now }
    ensures { IfSome result (λ r. BeginsWithRow letter fields.now bytes.now r.row r.rest.now) }
{
    if bytes.len() < SHORT_LINE {
        return None;
    }
    let [first, after_letter @ ..] = bytes else {
        return None;
    };
    if letter != *first {
        return None;
    }
    let found = N::read_short(fields, after_space(after_letter)?)?;
    Some(found)
}

// Reads the line that begins these bytes, if it is plain: this letter and numbers that fit these fields, with blanks
// between them, no number with a `+`, and an LF at its end. Returns none for any other line, whether or not that line
// has a fault. Within its caller it would take registers from the reading of short lines. It is compiled for each `N`,
// for which the number of fields is a constant.
#[inline(never)]
pub(crate) fn any_row<'a, N: Width>(
    letter: u8,
    fields: &[Field],
    bytes: &'a [u8],
) -> Option<RowBefore<'a>>
    requires clear { is_clear letter ≡ true }
    requires count { length fields.now ≡ N.count }
    requires numeric { AreNumeric fields.now }
    ensures { IfSome result (λ r. BeginsWithRow letter fields.now bytes.now r.row r.rest.now) }
{
    let [first, after_letter @ ..] = bytes else {
        return None;
    };
    if *first != letter {
        return None;
    }
    let found = numbers(fields.len(), after_blanks(after_letter)?)?;
    let fitting = fitting(fields, found)?;
    Some(fitting)
}

// Reads this many numbers of any length, with blanks between them, and the LF after them.
#[inline(always)]
fn numbers(count: usize, bytes: &[u8]) -> Option<RowBefore<'_>>
    requires some { 1 ≤ count }
    requires few { count ≤ 5 }
    ensures { IfSome result (λ r. HasNumbers count bytes.now r.row r.rest.now) }
{
    let mut all = [0i64; 5];
    let mut rest = bytes;
    let last = count - 1;
    for i in 0..last {
        let front = number_before(rest)?;
        all[i] = front.number;
        rest = front.rest;
    }
    let front = any_front(rest)?;
    all[last] = front.number;
    let [first, second, third, fourth, fifth] = all;
    Some(RowBefore {
        row: Row {
            first,
            second,
            third,
            fourth,
            fifth,
        },
        rest: after_line_end(front.rest)?,
    })
}

// How many bytes are marked at once. Three numbers of one to eight digits, with one byte for the blank after each of
// the first two and two bytes for the line end, have at most 28. So eight bytes can be read at each number.
const SHORT_THREE: usize = 32;

// Reads three numbers of one to eight digits each, with one space between them and LF or CR LF after them. Returns none
// for any other bytes, and for fewer bytes than `SHORT_THREE`.
#[inline(always)]
fn short_three(bytes: &[u8]) -> Option<RowBefore<'_>>
    ensures numbers { IfSome result (λ r. HasNumbers 3 bytes.now r.row r.rest.now) }
    ensures naturals { IfSome result (λ r. AreNatural 3 r.row) }
{
    if bytes.len() < SHORT_THREE {
        return None;
    }
    let first = marked_before(bytes, marks_of(bytes))?;
    let second = marked_before(first.rest, first.marks)?;
    let third = marked_front(second.rest, second.marks)?;
    Some(RowBefore {
        row: Row {
            first: first.number,
            second: second.number,
            third: third.number,
            ..NO_ROW
        },
        rest: after_plain_end(third.rest)?,
    })
}

// The greatest length of a line of four numbers of one to eight digits and one more number, with one byte for the blank
// after each of the first four and eight bytes to read at the last.
const SHORT_FIVE: usize = 44;

// Reads four numbers of one to eight digits and one more number, with one space between them. Returns none for any
// other bytes, and for fewer bytes than `SHORT_FIVE`.
#[inline(always)]
fn short_five(bytes: &[u8]) -> Option<RowBefore<'_>>
    ensures { IfSome result (λ r. HasNumbers 5 bytes.now r.row r.rest.now) }
{
    if bytes.len() < SHORT_FIVE {
        return None;
    }
    let first = marked_before(bytes, marks_of(bytes))?;
    let second = marked_before(first.rest, first.marks)?;
    let third = marked_before(second.rest, second.marks)?;
    let fourth = before_by_marks(third.rest, third.marks)?;
    let fifth = last_front(fourth.rest)?;
    Some(RowBefore {
        row: Row {
            first: first.number,
            second: second.number,
            third: third.number,
            fourth: fourth.number,
            fifth: fifth.number,
        },
        rest: after_line_end(fifth.rest)?,
    })
}

// Returns these numbers if each fits its field.
#[inline(always)]
fn fitting<'a>(fields: &[Field], found: RowBefore<'a>) -> Option<RowBefore<'a>>
    requires few { length fields.now ≤ 5 }
    requires numeric { AreNumeric fields.now }
    ensures row { IfSome result (λ r. r.row ≡ found.entry.row) }
    ensures rest { IfSome result (λ r. r.rest.now ≡ found.entry.rest.now) }
    ensures fit { IfSome result (λ r. FieldsFit fields.now (row_numbers (length fields.now) r.row)) }
{
    if fit(fields, &found.row) {
        Some(found)
    } else {
        None
    }
}

// Whether each number fits its field, in a row of as many numbers as fields.
#[inline(always)]
fn fit(fields: &[Field], row: &Row) -> bool
    requires few { length fields.now ≤ 5 }
    requires numeric { AreNumeric fields.now }
    ensures { result ≡ true → FieldsFit fields.now (row_numbers (length fields.now) row.now) }
{
    let first = fits(fields, 0, &row.first);
    let second = fits(fields, 1, &row.second);
    let third = fits(fields, 2, &row.third);
    let fourth = fits(fields, 3, &row.fourth);
    let fifth = fits(fields, 4, &row.fifth);
    first && second && third && fourth && fifth
}

// Whether the number fits the field at `i`, or there is no such field. A number that is at least 0 fits any field.
#[inline(always)]
fn fits(fields: &[Field], i: usize, number: &i64) -> bool
    requires { AreNumeric fields.now }
    ensures { result ≡ field_fits (slice_get fields.now i) number.now }
{
    if 0 <= *number {
        return true;
    }
    match fields.get(i) {
        Some(Field::Natural) => false,
        _ => true,
    }
}
