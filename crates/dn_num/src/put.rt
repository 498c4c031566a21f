// Writes the text of a number at a place in longer bytes. This takes 75 instructions a number; by a table of two digits
// it would take 120, and by the standard library 324.
ghost use Rattle.std.specs.Prelude.{◌≡◌, ℕ, List, ◌+◌, ◌<◌, ◌≤◌, ◌++◌, length, take};
ghost use Rattle.std.specs.Fmt.{decimal, signed_decimal};
ghost use Rattle.std.specs.Simd.Lanes.{Each1, number_l};
ghost use Rattle.dn_num.specs.State.Digits.{codes_of, eight_digits};

use crate::eight::{codes, digits, zeros};
use std::simd::prelude::*;

// The least number of more than eight digits.
const EIGHT: u64 = 100_000_000;

// Writes a word of up to eight bytes.
#[inline(always)]
fn put_word(bytes: &mut [u8], at: usize, word: u64)
    requires { at + 8 ≤ length bytes.old }
    ensures { (cs : List ℕ) → length cs ≤ 8 → Each1 (λ c. c < 256) cs → word ≡ number_l 256 cs
        → take (at + length cs) bytes.new ≡ take at bytes.old ++ cs }
{
    u64x1::splat(word)
        .to_le_bytes()
        .copy_to_slice(&mut bytes[at..]);
}

// Writes the shortest text of a number below 10^8, and returns where it ends.
#[inline(always)]
fn put_short(bytes: &mut [u8], at: usize, number: u32) -> usize
    requires few { number < 100000000 }
    requires room { at + 8 ≤ length bytes.old }
    ensures text { take result bytes.new ≡ take at bytes.old ++ decimal number }
    ensures end { result ≡ at + length (decimal number) }
    ensures within { result ≤ at + 8 }
{
    let codes = codes(number);
    let zeros = zeros(digits(codes));
    put_word(bytes, at, codes >> (8 * zeros));
    at + 8 - zeros as usize
}

// Writes the eight digits of a number below 10^8, with leading zeros, and returns where they end.
#[inline(always)]
fn put_eight(bytes: &mut [u8], at: usize, number: u32) -> usize
    requires few { number < 100000000 }
    requires room { at + 8 ≤ length bytes.old }
    ensures text { take result bytes.new ≡ take at bytes.old ++ codes_of (eight_digits number) }
    ensures end { result ≡ at + 8 }
{
    put_word(bytes, at, codes(number));
    at + 8
}

// Writes the shortest text of a number that is not negative, and returns where it ends.
fn put_decimal(bytes: &mut [u8], at: usize, number: u64) -> usize
    requires { at + 24 ≤ length bytes.old }
    ensures text { take result bytes.new ≡ take at bytes.old ++ decimal number }
    ensures end { result ≡ at + length (decimal number) }
{
    if number < EIGHT {
        return put_short(bytes, at, number as u32);
    }
    let next = put_decimal(bytes, at, number / EIGHT);
    put_eight(bytes, next, (number % EIGHT) as u32)
}

// Writes the shortest text of any number, and returns where it ends.
#[inline(never)]
fn put_signed(bytes: &mut [u8], at: usize, number: &i64) -> usize
    requires { at + 25 ≤ length bytes.old }
    ensures text { take result bytes.new ≡ take at bytes.old ++ signed_decimal number.now }
    ensures end { result ≡ at + length (signed_decimal number.now) }
{
    if *number < 0 {
        bytes[at] = b'-';
        put_decimal(bytes, at + 1, number.unsigned_abs())
    } else {
        put_decimal(bytes, at, number.unsigned_abs())
    }
}

/// Writes the shortest text of a number at this place, and returns where it ends. Up to 25 bytes from this place on may
/// change, including bytes after the text.
#[inline(always)]
pub fn put_number(bytes: &mut [u8], at: usize, number: &i64) -> usize
    requires { at + 25 ≤ length bytes.old }
    ensures text { take result bytes.new ≡ take at bytes.old ++ signed_decimal number.now }
    ensures end { result ≡ at + length (signed_decimal number.now) }
    ensures within { result ≤ at + 20 }
{
    if 0 <= *number && *number < EIGHT as i64 {
        put_short(bytes, at, *number as u32)
    } else {
        put_signed(bytes, at, number)
    }
}
