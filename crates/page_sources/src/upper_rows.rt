//! The upper bytes of the samples of a row, which are all that a line of depth 1 or 8 shows of them.

ghost use Rattle.std.specs.Prelude.{◌≡◌, ◌≤◌, ◌<◌, ◌+◌, ◌*◌, ◌/◌, ◌^◌, ℕ, length, slice_index, IfSome};
ghost use Rattle.netpbm.specs.Pnm.{number_in, sample_bytes};
ghost use Rattle.netpbm.specs.Raster.{NoneAbove};

use crate::eights::{scaled, word};
use crate::scaling::{ByteScaling, Scaling};
use std::simd::prelude::*;
use vector_lanes::words::{numbers_at, raised, upper_bytes};

/// What a number up to a greatest value above 255 is to be multiplied by, so that its upper byte is that of its sample. There
/// is such a factor where the greatest value has no zero among its bits; a product by it carries nothing.
fn factor_of(maxval: u32) -> Option<u16>
    ensures fits { IfSome result (λ f. (v : ℕ) → v ≤ maxval → v * f < 2 ^ 16) }
    ensures upper { IfSome result (λ f. (v : ℕ) → v ≤ maxval
        → v * f / 256 ≡ v * 65535 / maxval / 256) }
{
    match maxval {
        511 => Some(128),
        1023 => Some(64),
        2047 => Some(32),
        4095 => Some(16),
        8191 => Some(8),
        16383 => Some(4),
        32767 => Some(2),
        65535 => Some(1),
        _ => None,
    }
}

/// Writes the upper bytes of the samples of numbers of a byte each.
fn put_bytes(maxval: u32, bytes: &[u8], part: &mut [u8])
    requires maxval { 1 ≤ maxval }
    requires byte { maxval < 256 }
    requires size { length bytes.now ≡ length part.old }
    requires limit { (j : ℕ) → j < length bytes.now → slice_index bytes.now j ≤ maxval }
    ensures { (j : ℕ) → j < length part.old
        → slice_index part.new j ≡ slice_index bytes.now j * 65535 / maxval / 256 }
{
    let scaling = ByteScaling::new(maxval);
    for j in 0..part.len() {
        part[j] = (scaling.apply(bytes[j]) / 256) as u8;
    }
}

/// Writes the upper bytes of numbers of two bytes, each times a factor; eight at once, since the bytes of one are turned in as
/// many steps as those of eight.
fn put_products(factor: u16, bytes: &[u8], part: &mut [u8])
    requires size { length bytes.now ≡ 2 * length part.old }
    requires limit { (j : ℕ) → j < length part.old → (256 * slice_index bytes.now (2 * j)
        + slice_index bytes.now (2 * j + 1)) * factor < 2 ^ 16 }
    ensures { (j : ℕ) → j < length part.old → slice_index part.new j
        ≡ (256 * slice_index bytes.now (2 * j) + slice_index bytes.now (2 * j + 1)) * factor / 256 }
{
    let eights = part.len() / 8;
    for n in 0..eights {
        let samples = raised(numbers_at(bytes, 16 * n), factor);
        upper_bytes(samples).copy_to_slice(&mut part[8 * n..]);
    }
    for j in 8 * eights..part.len() {
        part[j] = (word(bytes, j) * factor / 256) as u8;
    }
}

/// Writes the upper bytes of the samples of numbers of two bytes each; eight at once, as where there is a factor.
fn put_scaled(maxval: u32, bytes: &[u8], part: &mut [u8])
    requires maxval { 1 ≤ maxval }
    requires most { maxval ≤ 65535 }
    requires size { length bytes.now ≡ 2 * length part.old }
    requires limit { (j : ℕ) → j < length part.old
        → 256 * slice_index bytes.now (2 * j) + slice_index bytes.now (2 * j + 1) ≤ maxval }
    ensures { (j : ℕ) → j < length part.old → slice_index part.new j
        ≡ (256 * slice_index bytes.now (2 * j) + slice_index bytes.now (2 * j + 1))
        * 65535 / maxval / 256 }
{
    let scaling = Scaling::new(maxval);
    let eights = part.len() / 8;
    for n in 0..eights {
        let samples = scaled(&scaling, numbers_at(bytes, 16 * n));
        upper_bytes(samples).copy_to_slice(&mut part[8 * n..]);
    }
    for j in 8 * eights..part.len() {
        part[j] = (scaling.apply(u32::from(word(bytes, j))) / 256) as u8;
    }
}

/// Writes the upper bytes of the samples of numbers of two bytes each, in the way that the greatest value allows.
fn put_words(maxval: u32, bytes: &[u8], part: &mut [u8])
    requires maxval { 1 ≤ maxval }
    requires most { maxval ≤ 65535 }
    requires size { length bytes.now ≡ 2 * length part.old }
    requires limit { (j : ℕ) → j < length part.old
        → 256 * slice_index bytes.now (2 * j) + slice_index bytes.now (2 * j + 1) ≤ maxval }
    ensures { (j : ℕ) → j < length part.old → slice_index part.new j
        ≡ (256 * slice_index bytes.now (2 * j) + slice_index bytes.now (2 * j + 1))
        * 65535 / maxval / 256 }
{
    match factor_of(maxval) {
        Some(factor) => put_products(factor, bytes, part),
        None => put_scaled(maxval, bytes, part),
    }
}

/// Writes the upper bytes of the samples that the numbers of a row show, from the `at`-th on. Bytes up to 255 are these
/// themselves.
pub fn put_upper_bytes(maxval: u32, bytes: &[u8], at: usize, part: &mut [u8])
    requires maxval { 1 ≤ maxval }
    requires most { maxval ≤ 65535 }
    requires size { (at + length part.old) * sample_bytes maxval ≤ length bytes.now }
    requires limit { NoneAbove maxval bytes.now (at + length part.old) }
    ensures { (i : ℕ) → i < length part.old → slice_index part.new i
        ≡ number_in maxval bytes.now (at + i) * 65535 / maxval / 256 }
{
    let end = at + part.len();
    match maxval {
        255 => part.copy_from_slice(&bytes[at..end]),
        0..=254 => put_bytes(maxval, &bytes[at..end], part),
        _ => put_words(maxval, &bytes[2 * at..2 * end], part),
    }
}
