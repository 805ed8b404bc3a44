//! Eight numbers of a page file at once: of two bytes each, the more significant first.

ghost use Rattle.std.specs.Prelude.{◌≡◌, ◌≤◌, ◌<◌, ◌+◌, ◌*◌, ◌/◌, ◌%◌, ◌⊎◌, ℕ, length, slice_index};

use crate::scaling::Scaling;
use std::simd::prelude::*;
use vector_lanes::words::{greater, listed, numbers_at, ones_below, products, upper_halves};

/// The number of two bytes at place `i`.
pub fn word(bytes: &[u8], i: usize) -> u16
    requires { 2 * i + 1 < length bytes.now }
    ensures { result ≡ 256 * slice_index bytes.now (2 * i) + slice_index bytes.now (2 * i + 1) }
{
    256 * u16::from(bytes[2 * i]) + u16::from(bytes[2 * i + 1])
}

/// Eight numbers up to a greatest value as numbers up to 65,535. Each is multiplied by parts of two bytes, since as many
/// lanes of two bytes are worked on at once as of four in two steps; what these lose is carried.
#[inline(always)]
pub fn scaled(scaling: &Scaling, numbers: u16x8) -> u16x8
    requires size { length numbers ≡ 8 }
    requires limit { (i : ℕ) → i < 8 → slice_index numbers i ≤ scaling.now }
    ensures size { length result ≡ 8 }
    ensures each { (i : ℕ) → i < 8
        → slice_index result i ≡ slice_index numbers i * 65535 / scaling.now }
{
    let parts = scaling.parts();
    let rest = upper_halves(products(numbers, parts.lower));
    let sums = numbers * u16x8::splat(parts.middle) + rest;
    let carried = upper_halves(products(numbers, parts.middle)) + ones_below(sums, rest);
    numbers * u16x8::splat(parts.upper) + carried
}

/// The greatest numbers of so many eights, one of each lane: so one comparison is made of each lane, and not of each number.
pub fn greatest_of(bytes: &[u8], eights: usize) -> [u16; 8]
    requires { 16 * eights ≤ length bytes.now }
    ensures most { (i : ℕ) → i < 8 * eights
        → 256 * slice_index bytes.now (2 * i) + slice_index bytes.now (2 * i + 1)
        ≤ slice_index result (i % 8) }
    ensures one { (l : ℕ) → l < 8 → 0 < slice_index result l → (i : ℕ) × (i < 8 * eights)
        × (slice_index result l
        ≡ 256 * slice_index bytes.now (2 * i) + slice_index bytes.now (2 * i + 1)) }
{
    let mut greatest = u16x8::splat(0);
    for n in 0..eights {
        greatest = greater(greatest, numbers_at(bytes, 16 * n));
    }
    listed(greatest)
}

/// The eight numbers from byte `at` on.
#[inline(always)]
pub fn eight_numbers(bytes: &[u8], at: usize) -> [u16; 8]
    requires { at + 16 ≤ length bytes.now }
    ensures { (i : ℕ) → i < 8 → slice_index result i
        ≡ 256 * slice_index bytes.now (at + 2 * i) + slice_index bytes.now (at + 2 * i + 1) }
{
    listed(numbers_at(bytes, at))
}

/// The eight numbers from byte `at` on, as numbers up to 65,535.
#[inline(always)]
pub fn eight_scaled(scaling: &Scaling, bytes: &[u8], at: usize) -> [u16; 8]
    requires inside { at + 16 ≤ length bytes.now }
    requires limit { (i : ℕ) → i < 8
        → 256 * slice_index bytes.now (at + 2 * i) + slice_index bytes.now (at + 2 * i + 1)
        ≤ scaling.now }
    ensures { (i : ℕ) → i < 8 → slice_index result i
        ≡ (256 * slice_index bytes.now (at + 2 * i) + slice_index bytes.now (at + 2 * i + 1))
        * 65535 / scaling.now }
{
    listed(scaled(scaling, numbers_at(bytes, at)))
}
