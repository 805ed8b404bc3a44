//! Whether numbers of two bytes are within a greatest value whose lower byte is 255: their upper bytes alone tell.

ghost use Rattle.std.specs.Prelude.{◌≡◌, ◌≤◌, ◌<◌, ◌+◌, ◌*◌, ◌/◌, ◌%◌, ◌⊎◌, ℕ, true, false, length, slice_index, MatchBool};
ghost use Rattle.netpbm.specs.Pnm.{sample_bytes};
ghost use Rattle.netpbm.specs.Raster.{NoneAbove, SomeAbove};

use netpbm::number_at;
use std::simd::prelude::*;
use vector_lanes::bytes::{greater, listed, sixteen};

/// The greatest bytes of so many sixteens, one of each lane.
fn greatest_of(bytes: &[u8], sixteens: usize) -> [u8; 16]
    requires { 16 * sixteens ≤ length bytes.now }
    ensures most { (i : ℕ) → i < 16 * sixteens
        → slice_index bytes.now i ≤ slice_index result (i % 16) }
    ensures one { (k : ℕ) → k < 16 → 0 < slice_index result k → (n : ℕ) × (n < sixteens)
        × (slice_index result k ≡ slice_index bytes.now (16 * n + k)) }
{
    let mut greatest = u8x16::splat(0);
    for n in 0..sixteens {
        greatest = greater(greatest, sixteen(bytes, 16 * n));
    }
    listed(greatest)
}

/// Whether none of eight upper bytes, each before a lower one, is above the greatest.
#[inline(always)]
fn all_within(most: u8, bytes: [u8; 16]) -> bool
    ensures within { result ≡ true → (i : ℕ) → i < 8 → slice_index bytes (2 * i) ≤ most }
    ensures above { result ≡ false → (i : ℕ) × (i < 8) × (most < slice_index bytes (2 * i)) }
{
    let mut within = true;
    for i in 0..8 {
        within &= bytes[2 * i] <= most;
    }
    within
}

/// Whether every number of two bytes is at most a greatest value whose lower byte is 255. It takes eights at once, by the
/// greatest of each lane of bytes, which need no turning for that.
pub fn uppers_fit(maxval: u32, bytes: &[u8], count: usize) -> bool
    requires two { 256 ≤ maxval }
    requires most { maxval < 65536 }
    requires last { maxval % 256 ≡ 255 }
    requires size { length bytes.now ≡ count * sample_bytes maxval }
    ensures { MatchBool result
        (NoneAbove maxval bytes.now count) (SomeAbove maxval bytes.now count) }
{
    let eights = count / 8;
    let mut fit = all_within((maxval / 256) as u8, greatest_of(bytes, eights));
    for i in 8 * eights..count {
        fit &= number_at(maxval, bytes, i, count) <= maxval;
    }
    fit
}
