//! Every third number of a row of a page file: of a row in color, those of one channel, as they stand in the file.

ghost use Rattle.std.specs.Prelude.{◌≡◌, ◌≤◌, ◌<◌, ◌+◌, ◌*◌, ◌%◌, ℕ, length, slice_index};

use std::simd::prelude::*;
use vector_lanes::bytes::sixteen;

/// Every third of the 48 bytes from byte `at` on.
#[inline(always)]
fn third_bytes(bytes: &[u8], at: usize) -> u8x16
    requires { at + 48 ≤ length bytes.now }
    ensures size { length result ≡ 16 }
    ensures each { (i : ℕ) → i < 16
        → slice_index result i ≡ slice_index bytes.now (at + 3 * i) }
{
    // In their sixteens no two of them stand at the same place, so that they are chosen first and then moved at once.
    let chosen = sixteen(bytes, at)
        .shuffle(
            sixteen(bytes, at + 16),
            [0, 1, 18, 3, 4, 21, 6, 7, 24, 9, 10, 27, 12, 13, 30, 15],
        )
        .shuffle(
            sixteen(bytes, at + 32),
            [0, 17, 2, 3, 20, 5, 6, 23, 8, 9, 26, 11, 12, 29, 14, 15],
        );
    chosen.swizzle([0, 3, 6, 9, 12, 15, 2, 5, 8, 11, 14, 1, 4, 7, 10, 13])
}

/// Both bytes of every third of the 24 numbers from byte `at` on.
#[inline(always)]
fn third_words(bytes: &[u8], at: usize) -> u8x16
    requires { at + 48 ≤ length bytes.now }
    ensures size { length result ≡ 16 }
    ensures first { (i : ℕ) → i < 8
        → slice_index result (2 * i) ≡ slice_index bytes.now (at + 6 * i) }
    ensures second { (i : ℕ) → i < 8
        → slice_index result (2 * i + 1) ≡ slice_index bytes.now (at + 6 * i + 1) }
{
    // As those of a byte each.
    let chosen = sixteen(bytes, at)
        .shuffle(
            sixteen(bytes, at + 16),
            [0, 1, 18, 19, 4, 5, 6, 7, 24, 25, 10, 11, 12, 13, 30, 31],
        )
        .shuffle(
            sixteen(bytes, at + 32),
            [0, 1, 2, 3, 20, 21, 6, 7, 8, 9, 26, 27, 12, 13, 14, 15],
        );
    chosen.swizzle([0, 1, 6, 7, 12, 13, 2, 3, 8, 9, 14, 15, 4, 5, 10, 11])
}

/// Writes every third byte from byte `at` on; sixteen at once, since one takes as long as these.
pub fn put_third_bytes(bytes: &[u8], at: usize, part: &mut [u8])
    requires { at + 3 * length part.old ≤ length bytes.now + 2 }
    ensures { (i : ℕ) → i < length part.old
        → slice_index part.new i ≡ slice_index bytes.now (at + 3 * i) }
{
    let sixteens = part.len().saturating_sub(1) / 16;
    for n in 0..sixteens {
        third_bytes(bytes, at + 48 * n).copy_to_slice(&mut part[16 * n..]);
    }
    for i in 16 * sixteens..part.len() {
        part[i] = bytes[at + 3 * i];
    }
}

/// Writes both bytes of every third number of two bytes from byte `at` on; eight at once, since one takes as long as these.
pub fn put_third_words(bytes: &[u8], at: usize, part: &mut [u8])
    requires even { length part.old % 2 ≡ 0 }
    requires inside { at + 3 * length part.old ≤ length bytes.now + 4 }
    ensures first { (x : ℕ) → 2 * x < length part.old
        → slice_index part.new (2 * x) ≡ slice_index bytes.now (at + 6 * x) }
    ensures second { (x : ℕ) → 2 * x < length part.old
        → slice_index part.new (2 * x + 1) ≡ slice_index bytes.now (at + 6 * x + 1) }
{
    let eights = part.len().saturating_sub(2) / 16;
    for n in 0..eights {
        third_words(bytes, at + 48 * n).copy_to_slice(&mut part[16 * n..]);
    }
    for x in 8 * eights..part.len() / 2 {
        part[2 * x] = bytes[at + 6 * x];
        part[2 * x + 1] = bytes[at + 6 * x + 1];
    }
}
