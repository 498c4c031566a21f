// Computes the number that eight digits in one word spell, the first digit in the lowest byte.
ghost use Rattle.std.specs.Prelude.{◌≡◌, ℕ, List, [], ◌∷◌, ◌+◌, ◌*◌, ◌%◌, ◌<◌, length, map};
ghost use Rattle.std.specs.Simd.Lanes.{Each1, number_l};
ghost use Rattle.dn_num.specs.State.Lanes.{OfBytes, OfDigits, OfPairs, joined, places};

// Returns the values of eight digits, given their character codes.
#[inline(always)]
fn values(word: u64) -> u64
    ensures { OfBytes word (λ codes. result ≡ number_l 256 (map (λ code. code % 16) codes)) }
{
    word & 0x0F0F_0F0F_0F0F_0F0F
}

// Joins each two digits into a number below 100.
#[inline(always)]
fn pairs(word: u64) -> u64
    ensures { OfDigits word (λ digits. result ≡ number_l 65536 (joined 10 digits)) }
{
    word.wrapping_mul(10).wrapping_add(word >> 8) & 0x00FF_00FF_00FF_00FF
}

// Joins each two pairs into a number below 10000.
#[inline(always)]
fn fours(word: u64) -> u64
    ensures { OfPairs word (λ pairs. result ≡ number_l 4294967296 (joined 100 pairs)) }
{
    word.wrapping_mul(100).wrapping_add(word >> 16) & 0x0000_FFFF_0000_FFFF
}

// Joins two numbers of four digits into one of eight.
#[inline(always)]
fn eight(word: u64) -> u64
    ensures { (a b : ℕ) → a < 10000 → b < 10000 → word ≡ number_l 4294967296 (a ∷ b ∷ [])
        → result ≡ a * 10000 + b }
{
    word.wrapping_mul(10000).wrapping_add(word >> 32) & 0xFFFF_FFFF
}

// Returns the number that eight digits spell. Zero bytes at the beginning count as the digit 0.
#[inline(always)]
pub(crate) fn value(word: u64) -> u64
    ensures { OfBytes word (λ ds. Each1 (λ d. d % 16 < 10) ds → result ≡ places (map (λ d. d % 16) ds)) }
{
    eight(fours(pairs(values(word))))
}
