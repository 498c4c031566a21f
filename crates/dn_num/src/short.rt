// Short numbers at a place in longer bytes.
ghost use Rattle.std.specs.Prelude.{◌≡◌, ◌+◌, ◌-◌, ◌*◌, ◌<◌, ◌≤◌, ◌++◌, length, take, IfSome, replicate};
ghost use Rattle.std.specs.Simd.Lanes.{chunk, number_l};
ghost use Rattle.dn_num.specs.State.Lanes.{IsShortAt};

use crate::count::digits_at;
use crate::value::value;

/// A number of one to eight digits, and how many digits it has.
#[derive(Clone, Copy)]
pub struct Short {
    /// The number.
    pub number: u64,
    /// The count of its digits.
    pub used: usize,
}

// Returns the next eight bytes as a word, the first byte in the lowest lane.
#[inline(always)]
fn word_at(bytes: &[u8], at: usize) -> u64
    requires { at + 8 ≤ length bytes.now }
    ensures { result ≡ number_l 256 (chunk at 8 bytes.now) }
{
    u64::from_le_bytes([
        bytes[at],
        bytes[at + 1],
        bytes[at + 2],
        bytes[at + 3],
        bytes[at + 4],
        bytes[at + 5],
        bytes[at + 6],
        bytes[at + 7],
    ])
}

// Returns the first `n` of the next eight bytes in the highest lanes of a word. The lower lanes are 0.
#[inline(always)]
pub(crate) fn word_of(bytes: &[u8], at: usize, n: usize) -> u64
    requires room { at + 8 ≤ length bytes.now }
    requires some { 0 < n }
    requires most { n ≤ 8 }
    ensures { result ≡ number_l 256 (replicate (8 - n) 0 ++ take n (chunk at 8 bytes.now)) }
{
    word_at(bytes, at) << (64 - 8 * n)
}

/// Returns the number that the digits at this place spell, or that the first eight of them spell if there are more.
/// Returns none if there is no digit.
#[inline(always)]
pub fn short_number(bytes: &[u8], at: usize) -> Option<Short>
    requires { at + 8 ≤ length bytes.now }
    ensures read { IfSome result (IsShortAt bytes.now at) }
    ensures some { IfSome result (λ s. 0 < s.used) }
    ensures within { IfSome result (λ s. s.used ≤ 8) }
    ensures bound { IfSome result (λ s. s.number < 100000000) }
{
    let used = digits_at(bytes, at);
    if used == 0 {
        return None;
    }
    Some(Short {
        number: value(word_of(bytes, at, used)),
        used,
    })
}
