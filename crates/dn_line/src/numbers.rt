// Reads the numbers of a line, the blanks between them, and the end of the line.
ghost use Rattle.std.specs.Prelude.{◌≡◌, ◌+◌, ◌<◌, ◌≤◌, pos, ◌≤ℤ◌, IfSome, length, drop};
ghost use Rattle.dn_num.specs.State.Marks.{AreMarks};
ghost use Rattle.dn_line.specs.State.Numbers.{AreBlanks, AreSomeBlanks, IsLineEnd, IsNumberBefore, IsNumberFront};

use crate::piece::{after, is_blank};
use dn_num::{Marks, marked_number, number_front, short_number};

// A number, and the bytes after it.
#[derive(Clone, Copy)]
pub(crate) struct NumberFront<'a> {
    pub(crate) number: i64,
    pub(crate) rest: &'a [u8],
}

// Returns the bytes after any leading blanks.
#[inline(always)]
fn past_blanks(bytes: &[u8]) -> &[u8]
    ensures { AreBlanks bytes.now result.now }
{
    for (i, byte) in bytes.iter().enumerate() {
        if !is_blank(*byte) {
            return &bytes[i..];
        }
    }
    &[]
}

// Returns the bytes after the leading blanks, or none if there is no blank.
#[inline(always)]
pub(crate) fn after_blanks(bytes: &[u8]) -> Option<&[u8]>
    ensures { IfSome result (λ rest. AreSomeBlanks bytes.now rest.now) }
{
    match bytes {
        [byte, rest @ ..] if is_blank(*byte) => Some(past_blanks(rest)),
        _ => None,
    }
}

// Returns the bytes after any leading blanks and the LF that follows them, or none if no LF follows.
pub(crate) fn after_line_end(bytes: &[u8]) -> Option<&[u8]>
    ensures { IfSome result (λ rest. IsLineEnd bytes.now rest.now) }
{
    match past_blanks(bytes) {
        [b'\n', rest @ ..] => Some(rest),
        _ => None,
    }
}

// Returns the bytes after a leading space, or none if there is no space.
#[inline(always)]
pub(crate) fn after_space(bytes: &[u8]) -> Option<&[u8]>
    requires { 0 < length bytes.now }
    ensures gap { IfSome result (λ rest. AreSomeBlanks bytes.now rest.now) }
    ensures rest { IfSome result (λ rest. rest.now ≡ drop 1 bytes.now) }
    ensures within { IfSome result (λ rest. length bytes.now ≤ length rest.now + 1) }
{
    if bytes[0] == b' ' {
        Some(after(bytes, 0))
    } else {
        None
    }
}

// Returns the bytes after a leading LF or CR LF, or none if there is neither.
#[inline(always)]
pub(crate) fn after_plain_end(bytes: &[u8]) -> Option<&[u8]>
    requires { 1 < length bytes.now }
    ensures { IfSome result (λ rest. IsLineEnd bytes.now rest.now) }
{
    if bytes[0] == b'\n' {
        Some(after(bytes, 0))
    } else if bytes[0] == b'\r' && bytes[1] == b'\n' {
        Some(after(bytes, 1))
    } else {
        None
    }
}

// Reads the number of one to eight digits at the beginning, or of the first eight digits if there are more. Returns
// none if there is no digit.
#[inline(always)]
pub(crate) fn short_front(bytes: &[u8]) -> Option<NumberFront<'_>>
    requires { 8 ≤ length bytes.now }
    ensures number { IfSome result (λ n. IsNumberFront bytes.now n.number n.rest.now) }
    ensures some { IfSome result (λ n. pos 0 ≤ℤ n.number) }
    ensures within { IfSome result (λ n. length bytes.now ≤ length n.rest.now + 8) }
{
    let short = short_number(bytes, 0)?;
    Some(NumberFront {
        number: short.number as i64,
        rest: &bytes[short.used..],
    })
}

// Reads the number of one to eight digits at the beginning, and the space after it.
#[inline(always)]
pub(crate) fn short_before(bytes: &[u8]) -> Option<NumberFront<'_>>
    requires { 9 ≤ length bytes.now }
    ensures number { IfSome result (λ n. IsNumberBefore bytes.now n.number n.rest.now) }
    ensures some { IfSome result (λ n. pos 0 ≤ℤ n.number) }
    ensures within { IfSome result (λ n. length bytes.now ≤ length n.rest.now + 9) }
{
    let front = short_front(bytes)?;
    Some(NumberFront {
        number: front.number,
        rest: after_space(front.rest)?,
    })
}

// A number, the bytes after it, and the marks of those bytes.
#[derive(Clone, Copy)]
pub(crate) struct MarkedFront<'a> {
    pub(crate) number: i64,
    pub(crate) rest: &'a [u8],
    pub(crate) marks: Marks,
}

// Reads the marked number of one to eight digits at the beginning, and the space after it.
#[inline(always)]
pub(crate) fn marked_before(bytes: &[u8], marks: Marks) -> Option<MarkedFront<'_>>
    requires marks { AreMarks bytes.now marks }
    requires room { 9 ≤ length bytes.now }
    requires few { marks.from ≤ 23 }
    ensures number { IfSome result (λ n. IsNumberBefore bytes.now n.number n.rest.now) }
    ensures some { IfSome result (λ n. pos 0 ≤ℤ n.number) }
    ensures within { IfSome result (λ n. length bytes.now ≤ length n.rest.now + 9) }
    ensures marks { IfSome result (λ n. AreMarks n.rest.now n.marks) }
    ensures from { IfSome result (λ n. n.marks.from ≤ marks.from + 9) }
{
    let marked = marked_number(bytes, marks)?;
    let rest = after_space(&bytes[marked.used..])?;
    Some(MarkedFront {
        number: marked.number as i64,
        rest,
        marks: marked.next,
    })
}

// Reads the number of one to eight digits at the beginning, and the space after it. The marks find its end if they are
// sure to reach so far.
#[inline(always)]
pub(crate) fn before_by_marks(bytes: &[u8], marks: Marks) -> Option<NumberFront<'_>>
    requires marks { AreMarks bytes.now marks }
    requires room { 9 ≤ length bytes.now }
    ensures number { IfSome result (λ n. IsNumberBefore bytes.now n.number n.rest.now) }
    ensures some { IfSome result (λ n. pos 0 ≤ℤ n.number) }
    ensures within { IfSome result (λ n. length bytes.now ≤ length n.rest.now + 9) }
{
    if 23 < marks.from {
        return short_before(bytes);
    }
    let marked = marked_before(bytes, marks)?;
    Some(NumberFront {
        number: marked.number,
        rest: marked.rest,
    })
}

// Reads the marked number of one to eight digits at the beginning.
#[inline(always)]
pub(crate) fn marked_front(bytes: &[u8], marks: Marks) -> Option<NumberFront<'_>>
    requires marks { AreMarks bytes.now marks }
    requires room { 8 ≤ length bytes.now }
    requires few { marks.from ≤ 23 }
    ensures number { IfSome result (λ n. IsNumberFront bytes.now n.number n.rest.now) }
    ensures some { IfSome result (λ n. pos 0 ≤ℤ n.number) }
    ensures within { IfSome result (λ n. length bytes.now ≤ length n.rest.now + 8) }
{
    let marked = marked_number(bytes, marks)?;
    Some(NumberFront {
        number: marked.number as i64,
        rest: &bytes[marked.used..],
    })
}

// Reads the number at the beginning.
pub(crate) fn any_front(bytes: &[u8]) -> Option<NumberFront<'_>>
    ensures { IfSome result (λ n. IsNumberFront bytes.now n.number n.rest.now) }
{
    let front = number_front(bytes)?;
    Some(NumberFront {
        number: front.number,
        rest: &bytes[front.used..],
    })
}

// Reads the number at the beginning, and the blanks after it, at least one.
#[inline(always)]
pub(crate) fn number_before(bytes: &[u8]) -> Option<NumberFront<'_>>
    ensures { IfSome result (λ n. IsNumberBefore bytes.now n.number n.rest.now) }
{
    if 8 <= bytes.len()
        && let Some(short) = short_front(bytes)
        && let Some(rest) = after_blanks(short.rest)
    {
        return Some(NumberFront {
            number: short.number,
            rest,
        });
    }
    let front = any_front(bytes)?;
    Some(NumberFront {
        number: front.number,
        rest: after_blanks(front.rest)?,
    })
}

// Reads the number at the beginning. It tries a short number first.
#[inline(always)]
pub(crate) fn last_front(bytes: &[u8]) -> Option<NumberFront<'_>>
    requires { 8 ≤ length bytes.now }
    ensures { IfSome result (λ n. IsNumberFront bytes.now n.number n.rest.now) }
{
    match short_front(bytes) {
        Some(front) => Some(front),
        None => any_front(bytes),
    }
}
