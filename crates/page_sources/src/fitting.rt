//! Whether the samples of a row are within the greatest value.

ghost use Rattle.std.specs.Prelude.{◌≡◌, ◌≤◌, ◌<◌, ◌+◌, ◌*◌, ℕ, true, false, length, slice_index, MatchBool};
ghost use Rattle.netpbm.specs.Pnm.{sample_bytes};
ghost use Rattle.netpbm.specs.Raster.{NoneAbove, SomeAbove};

use crate::eights::greatest_of;
use crate::uppers_fit::uppers_fit;
use netpbm::{none_above, number_at};

/// Whether none of eight numbers is above the greatest.
#[inline(always)]
fn all_within(most: u16, numbers: [u16; 8]) -> bool
    ensures within { result ≡ true → (i : ℕ) → i < 8 → slice_index numbers i ≤ most }
    ensures above { result ≡ false → (i : ℕ) × (i < 8) × (most < slice_index numbers i) }
{
    let mut within = true;
    for i in 0..8 {
        within &= numbers[i] <= most;
    }
    within
}

/// Whether no number of two bytes is above the greatest; those of eights by the greatest of each lane.
fn words_fit(maxval: u32, bytes: &[u8], count: usize) -> bool
    requires two { 256 ≤ maxval }
    requires most { maxval < 65536 }
    requires size { length bytes.now ≡ count * sample_bytes maxval }
    ensures { MatchBool result
        (NoneAbove maxval bytes.now count) (SomeAbove maxval bytes.now count) }
{
    let eights = count / 8;
    let mut fit = all_within(maxval as u16, greatest_of(bytes, eights));
    for i in 8 * eights..count {
        fit &= number_at(maxval, bytes, i, count) <= maxval;
    }
    fit
}

/// Whether no number of so many is above the greatest.
pub fn all_fit(maxval: u32, bytes: &[u8], count: usize) -> bool
    requires { length bytes.now ≡ count * sample_bytes maxval }
    ensures { MatchBool result
        (NoneAbove maxval bytes.now count) (SomeAbove maxval bytes.now count) }
{
    match maxval {
        256..=65534 if maxval % 256 == 255 => uppers_fit(maxval, bytes, count),
        256..=65534 => words_fit(maxval, bytes, count),
        _ => none_above(maxval, bytes, count),
    }
}
