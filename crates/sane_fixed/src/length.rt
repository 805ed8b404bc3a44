ghost use Rattle.std.specs.Prelude.{◌≡◌, ◌≤◌, ◌-ℤ◌};
ghost use Rattle.sane_fixed.specs.Length.{px_of};

use crate::fixed::Fixed;

/// The whole dots in a length of `length` mm at `resolution` dots per inch (0 to 1200), none in a
/// negative length.
pub fn px(length: Fixed, resolution: u32) -> u32
    requires { resolution ≤ 1200 }
    /// `px` is the whole dots of a length at a resolution of at most 1,200.
    ensures { result ≡ px_of length.0 resolution }
{
    if length.0 < 0 {
        0
    } else {
        (length.0 as u64 * u64::from(resolution) * 10 / (254 * 65536)) as u32
    }
}

/// The whole dots of the length `to - from`, which need not fit a `Fixed`.
pub fn px_between(from: Fixed, to: Fixed, resolution: u32) -> u32
    requires { resolution ≤ 1200 }
    /// `px_between` is the dots of a difference of two lengths, which need not fit a word.
    ensures { result ≡ px_of (to.0 -ℤ from.0) resolution }
{
    let length = i64::from(to.0) - i64::from(from.0);
    if length < 0 {
        0
    } else {
        (length as u64 * u64::from(resolution) * 10 / (254 * 65536)) as u32
    }
}
