// Finds the ends of several short numbers at once, by a mask of 32 bytes.
ghost use Rattle.std.specs.Prelude.{◌≡◌, ◌+◌, ◌<◌, ◌≤◌, length, take, drop, pos, Ok, IfSome};
ghost use Rattle.dn_num.specs.Number.{number_read};
ghost use Rattle.dn_num.specs.State.Marks.{AreMarks};

use crate::short::word_of;
use crate::value::value;
use std::simd::prelude::*;

/// Which of 32 bytes are not digits, as far as they are left.
#[derive(Clone, Copy)]
pub struct Marks {
    /// A bit for each byte, which is set if the byte is left and not a digit.
    pub others: u64,
    /// How many of the bytes were read.
    pub from: usize,
}

/// A number of one to eight digits at the beginning of marked bytes.
#[derive(Clone, Copy)]
pub struct Marked {
    /// The number.
    pub number: u64,
    /// The count of its digits.
    pub used: usize,
    /// The marks of the bytes after it and one more byte.
    pub next: Marks,
}

/// Marks the first 32 bytes.
#[inline(always)]
pub fn marks_of(bytes: &[u8]) -> Marks
    requires { 32 ≤ length bytes.now }
    ensures marks { AreMarks bytes.now result }
    ensures from { result.from ≡ 0 }
{
    let digits = u8x32::from_slice(bytes) - u8x32::splat(b'0');
    Marks {
        others: digits.simd_gt(u8x32::splat(9)).to_bitmask(),
        from: 0,
    }
}

/// Returns the number that the digits at the beginning of marked bytes spell. Returns none if there is no digit, if
/// there are more than eight, and if no marked byte follows them.
#[inline(always)]
pub fn marked_number(bytes: &[u8], marks: Marks) -> Option<Marked>
    requires marks { AreMarks bytes.now marks }
    requires room { 8 ≤ length bytes.now }
    requires few { marks.from ≤ 23 }
    ensures read { IfSome result (λ s. number_read (take s.used bytes.now) ≡ Ok (pos s.number)) }
    ensures some { IfSome result (λ s. 0 < s.used) }
    ensures within { IfSome result (λ s. s.used ≤ 8) }
    ensures bound { IfSome result (λ s. s.number < 100000000) }
    ensures next { IfSome result (λ s. AreMarks (drop (s.used + 1) bytes.now) s.next) }
    ensures from { IfSome result (λ s. s.next.from ≡ marks.from + s.used + 1) }
{
    let end = marks.others.trailing_zeros() as usize;
    // Without a bit, `end` is 64, so `used` is more than eight.
    let used = end.wrapping_sub(marks.from);
    if used < 1 || 8 < used {
        return None;
    }
    let number = value(word_of(bytes, 0, used));
    let others = marks.others & marks.others.wrapping_sub(1);
    Some(Marked {
        number,
        used,
        next: Marks {
            others,
            from: end + 1,
        },
    })
}
