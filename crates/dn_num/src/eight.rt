// The digits of a number below 10^8, one in each byte of a word, the first digit in the lowest byte.
ghost use Rattle.std.specs.Prelude.{◌≡◌, ℕ, List, ◌+◌, ◌<◌, ◌≤◌, length};
ghost use Rattle.std.specs.Simd.Lanes.{Each1, chunk, number_l};
ghost use Rattle.dn_num.specs.State.Digits.{four_digits, eight_digits, zeros_before, codes_of};
ghost use Rattle.dn_num.specs.State.Lanes.{OfDigits};

use crate::fours::FOURS;

// Returns the next four bytes as a word, the first byte in the lowest lane.
#[inline(always)]
fn word_at(bytes: &[u8], at: usize) -> u32
    requires { at + 4 ≤ length bytes.now }
    ensures { result ≡ number_l 256 (chunk at 4 bytes.now) }
{
    u32::from_le_bytes([bytes[at], bytes[at + 1], bytes[at + 2], bytes[at + 3]])
}

// Returns the character codes of the four digits of a number.
#[inline(always)]
fn four(number: u32) -> u32
    requires { number < 10000 }
    ensures { result ≡ number_l 256 (codes_of (four_digits number)) }
{
    word_at(&FOURS, number as usize * 4)
}

// Returns the character codes of the eight digits of a number, with leading zeros.
#[inline(always)]
pub(crate) fn codes(number: u32) -> u64
    requires { number < 100000000 }
    ensures { result ≡ number_l 256 (codes_of (eight_digits number)) }
{
    u64::from(four(number / 10_000)) + (u64::from(four(number % 10_000)) << 32)
}

// Returns the values of eight digits, given their character codes.
#[inline(always)]
pub(crate) fn digits(codes: u64) -> u64
    ensures { (ds : List ℕ) → length ds ≡ 8 → Each1 (λ d. d < 10) ds → codes ≡ number_l 256 (codes_of ds)
        → result ≡ number_l 256 ds }
{
    codes.wrapping_sub(0x3030_3030_3030_3030)
}

// Counts the leading zeros of eight digits. The last digit does not count as a leading zero.
#[inline(always)]
pub(crate) fn zeros(word: u64) -> u32
    ensures { OfDigits word (λ digits. result ≡ zeros_before digits) }
{
    word.wrapping_add(1 << 56).trailing_zeros() / 8
}
