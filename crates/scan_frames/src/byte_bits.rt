//! Bits of a row of bytes, sixteen dots at once.

ghost use Rattle.std.specs.Prelude.{◌≡◌, ◌≤◌, ◌<◌, ◌+◌, ◌-◌, ◌*◌, ◌/◌, ◌%◌, ◌^◌, ℕ, length, slice_index};
ghost use Rattle.scan_frames.specs.Inside.{black, black_in, blacks_in};

use std::simd::prelude::*;

/// The sixteen bytes from `at` on, the last of each eight first.
#[inline(always)]
fn mirrored(bytes: &[u8], at: usize) -> u8x16
    requires { at + 16 ≤ length bytes.now }
    ensures size { length result ≡ 16 }
    ensures each { (i : ℕ) → i < 16
        → slice_index result i ≡ slice_index bytes.now (at + 8 * (i / 8) + (7 - i % 8)) }
{
    u8x16::from_slice(&bytes[at..]).swizzle([7, 6, 5, 4, 3, 2, 1, 0, 15, 14, 13, 12, 11, 10, 9, 8])
}

/// Which of sixteen bytes are black, the first as the least significant bit.
#[inline(always)]
fn black_lanes(bytes: u8x16) -> u64
    requires { length bytes ≡ 16 }
    ensures limit { result < 65536 }
    ensures each { (i : ℕ) → i < 16 → result / 2 ^ i % 2 ≡ black (slice_index bytes i) }
{
    bytes.simd_lt(u8x16::splat(128)).to_bitmask()
}

/// The bits of sixteen bytes, those of the first eight as the lower byte.
#[inline(always)]
fn sixteen_bits(bytes: &[u8], n: usize) -> u64
    requires { 16 * n + 16 ≤ length bytes.now }
    ensures limit { result < 65536 }
    ensures lower { result % 256 ≡ blacks_in bytes.now (2 * n) }
    ensures upper { result / 256 ≡ blacks_in bytes.now (2 * n + 1) }
{
    black_lanes(mirrored(bytes, 16 * n))
}

/// The bit of a byte, zero behind the last.
#[tactic(auto, unfolding(crate::specs::Inside::black_in))]
fn bit(bytes: &[u8], x: usize) -> u8
    ensures value { result ≡ black_in bytes.now x }
    ensures limit { result ≤ 1 }
{
    if x < bytes.len() && bytes[x] < 128 {
        1
    } else {
        0
    }
}

/// The bits of eight bytes, zero behind the last.
#[tactic(auto, using(crate::proofs::ByteRows::blacks_behind), unfolding(crate::specs::Inside::blacks_in))]
fn eight_bits(bytes: &[u8], b: usize) -> u8
    ensures { result ≡ blacks_in bytes.now b }
{
    if b > bytes.len() / 8 {
        return 0;
    }
    let mut byte = 0u8;
    for j in 0..8 {
        byte = 2 * byte + bit(bytes, 8 * b + j);
    }
    byte
}

/// Puts a bit for each byte, one where it is black, and zeros behind them. Sixteen are compared at once, which has no
/// branch.
pub fn put_bits_of(bytes: &[u8], line: &mut [u8])
    ensures { (b : ℕ) → b < length line.old → slice_index line.new b ≡ blacks_in bytes.now b }
{
    let sixteens = (bytes.len() / 16).min(line.len() / 2);
    for n in 0..sixteens {
        let bits = sixteen_bits(bytes, n);
        line[2 * n] = (bits % 256) as u8;
        line[2 * n + 1] = (bits / 256) as u8;
    }
    for b in 2 * sixteens..line.len() {
        line[b] = eight_bits(bytes, b);
    }
}
