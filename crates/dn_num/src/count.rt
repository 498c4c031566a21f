// Counts the digits at the beginning of the next eight bytes.
ghost use Rattle.std.specs.Prelude.{◌≡◌, ◌+◌, ◌≤◌, length};
ghost use Rattle.std.specs.Simd.Lanes.{chunk};
ghost use Rattle.std.specs.List.{prefix_len};
ghost use Rattle.dn_num.specs.Number.{is_digit};

use std::simd::prelude::*;

#[inline(always)]
pub(crate) fn digits_at(bytes: &[u8], at: usize) -> usize
    requires { at + 8 ≤ length bytes.now }
    ensures count { result ≡ prefix_len is_digit (chunk at 8 bytes.now) }
    ensures within { result ≤ 8 }
{
    let digits = u8x8::from_slice(&bytes[at..]) - u8x8::splat(b'0');
    let others = digits.simd_gt(u8x8::splat(9)).to_bitmask();
    if others == 0 {
        8
    } else {
        others.trailing_zeros() as usize
    }
}
