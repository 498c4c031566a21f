// Worked number texts, at the limits of the definition.
ghost use Rattle.std.specs.Prelude.{◌≡◌, pos, negsuc, codes, []};
ghost use Rattle.dn_num.specs.Number.{number_read};

use dn_num::NumFault;

/// A sign and leading zeros are allowed, and zero has no sign; the least number is -2^63.
pub fn values()
    ensures plus { number_read (codes "+007") ≡ Ok (pos 7) }
    ensures minus_zero { number_read (codes "-0") ≡ Ok (pos 0) }
    ensures greatest { number_read (codes "9223372036854775807") ≡ Ok (pos 9223372036854775807) }
    ensures least { number_read (codes "-9223372036854775808") ≡ Ok (negsuc 9223372036854775807) }
{}

/// A number text has digits, and only digits after its sign, however great the number that its first digits spell.
pub fn no_numbers()
    ensures empty { number_read [] ≡ Err NumFault.NotANumber }
    ensures sign { number_read (codes "+") ≡ Err NumFault.NotANumber }
    ensures fraction { number_read (codes "1.5") ≡ Err NumFault.NotANumber }
    ensures letter { number_read (codes "99999999999999999999x") ≡ Err NumFault.NotANumber }
{}

/// The number above the greatest one, and the one below the least.
pub fn past_the_range()
    ensures above { number_read (codes "9223372036854775808") ≡ Err NumFault.OutOfRange }
    ensures below { number_read (codes "-9223372036854775809") ≡ Err NumFault.OutOfRange }
{}
