// Laws of number texts.
ghost use Rattle.std.specs.Prelude.{◌≡◌, ℕ, ℤ, List, Ok, ◌↔◌, IsTrue, IsFalse, FitsSigned};
ghost use Rattle.std.specs.Int.{w64};
ghost use Rattle.std.specs.Fmt.{signed_decimal};
ghost use Rattle.dn_num.specs.Number.{fits, number_read};
ghost use Rattle.dn_num.specs.State.NumberTexts.{NumberText, ShortestText};

use dn_num::NumFault;

/// A number text spells only one number.
pub fn one_number()
    ensures { (b : List ℕ) (m n : ℤ) → NumberText b m → NumberText b n → m ≡ n }
{}

/// `number_read` returns a number if and only if the bytes are a number text of this number and it is in range. It
/// returns `NotANumber` if and only if they are no number text, and `OutOfRange` if and only if they are a number text
/// of a number out of range.
pub fn reading()
    ensures ok { (b : List ℕ) (n : ℤ) → (number_read b ≡ Ok n) ↔ (NumberText b n × IsTrue (fits n)) }
    ensures not_a_number { (b : List ℕ) → (number_read b ≡ Err NumFault.NotANumber) ↔ ((n : ℤ) → ¬ NumberText b n) }
    ensures out_of_range { (b : List ℕ)
        → (number_read b ≡ Err NumFault.OutOfRange) ↔ ((n : ℤ) × (NumberText b n × IsFalse (fits n))) }
{}

/// The range is the range of `i64`.
pub fn range()
    ensures { (n : ℤ) → IsTrue (fits n) ↔ FitsSigned w64 n }
{}

/// A number in range has exactly one shortest text: the decimal that the standard library writes. That text reads as
/// the number.
pub fn shortest()
    ensures text { (n : ℤ) → IsTrue (fits n) → ShortestText (signed_decimal n) n }
    ensures only { (b : List ℕ) (n : ℤ) → IsTrue (fits n) → ShortestText b n → b ≡ signed_decimal n }
    ensures read { (n : ℤ) → IsTrue (fits n) → number_read (signed_decimal n) ≡ Ok n }
{}
