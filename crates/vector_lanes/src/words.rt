//! Eight numbers of two bytes each at once.

ghost use Rattle.std.specs.Prelude.{◌≡◌, ◌≤◌, ◌<◌, ◌+◌, ◌*◌, ◌/◌, ◌%◌, ◌^◌, ◌⊎◌, ℕ, length, slice_index};

use std::simd::prelude::*;

/// The numbers from byte `at` on, the lower byte of each first.
#[inline(always)]
pub fn loaded(bytes: &[u8], at: usize) -> u16x8
    requires { at + 16 ≤ length bytes.now }
    ensures size { length result ≡ 8 }
    ensures lower { (i : ℕ) → i < 8
        → slice_index result i % 256 ≡ slice_index bytes.now (at + 2 * i) }
    ensures upper { (i : ℕ) → i < 8
        → slice_index result i / 256 ≡ slice_index bytes.now (at + 2 * i + 1) }
{
    u16x8::from_le_bytes(u8x16::from_slice(&bytes[at..]))
}

/// The same numbers, the two bytes of each turned round.
#[inline(always)]
pub fn turned(numbers: u16x8) -> u16x8
    requires { length numbers ≡ 8 }
    ensures size { length result ≡ 8 }
    ensures lower { (i : ℕ) → i < 8 → slice_index result i % 256 ≡ slice_index numbers i / 256 }
    ensures upper { (i : ℕ) → i < 8 → slice_index result i / 256 ≡ slice_index numbers i % 256 }
{
    numbers * u16x8::splat(256) + (numbers >> u16x8::splat(8))
}

/// The numbers from byte `at` on, the more significant byte of each first.
#[inline(always)]
pub fn numbers_at(bytes: &[u8], at: usize) -> u16x8
    requires { at + 16 ≤ length bytes.now }
    ensures size { length result ≡ 8 }
    ensures each { (i : ℕ) → i < 8 → slice_index result i
        ≡ 256 * slice_index bytes.now (at + 2 * i) + slice_index bytes.now (at + 2 * i + 1) }
{
    turned(loaded(bytes, at))
}

/// What eight lanes hold.
#[inline(always)]
pub fn listed(numbers: u16x8) -> [u16; 8]
    requires { length numbers ≡ 8 }
    ensures { (i : ℕ) → i < 8 → slice_index result i ≡ slice_index numbers i }
{
    let mut eight = [0u16; 8];
    numbers.copy_to_slice(&mut eight);
    eight
}

/// The upper byte of each.
#[inline(always)]
pub fn upper_bytes(numbers: u16x8) -> u8x8
    requires { length numbers ≡ 8 }
    ensures size { length result ≡ 8 }
    ensures each { (i : ℕ) → i < 8 → slice_index result i ≡ slice_index numbers i / 256 }
{
    let bytes: u8x16 = numbers.to_le_bytes();
    bytes.swizzle([1, 3, 5, 7, 9, 11, 13, 15])
}

/// The bytes of all, the lower of each before its upper.
#[inline(always)]
pub fn bytes_of(numbers: u16x8) -> u8x16
    requires { length numbers ≡ 8 }
    ensures size { length result ≡ 16 }
    ensures lower { (i : ℕ) → i < 8
        → slice_index result (2 * i) ≡ slice_index numbers i % 256 }
    ensures upper { (i : ℕ) → i < 8
        → slice_index result (2 * i + 1) ≡ slice_index numbers i / 256 }
{
    numbers.to_le_bytes()
}

/// Of each lane the greater number.
#[inline(always)]
pub fn greater(numbers: u16x8, others: u16x8) -> u16x8
    requires numbers { length numbers ≡ 8 }
    requires others { length others ≡ 8 }
    ensures size { length result ≡ 8 }
    ensures first { (i : ℕ) → i < 8 → slice_index numbers i ≤ slice_index result i }
    ensures second { (i : ℕ) → i < 8 → slice_index others i ≤ slice_index result i }
    ensures one { (i : ℕ) → i < 8 → (slice_index result i ≡ slice_index numbers i)
        ⊎ (slice_index result i ≡ slice_index others i) }
{
    numbers.simd_max(others)
}

/// Eight numbers, each times a factor.
#[inline(always)]
pub fn raised(numbers: u16x8, factor: u16) -> u16x8
    requires size { length numbers ≡ 8 }
    requires limit { (i : ℕ) → i < 8 → slice_index numbers i * factor < 2 ^ 16 }
    ensures size { length result ≡ 8 }
    ensures each { (i : ℕ) → i < 8 → slice_index result i ≡ slice_index numbers i * factor }
{
    numbers * u16x8::splat(factor)
}

/// Eight numbers, each times a factor.
#[inline(always)]
pub fn products(numbers: u16x8, factor: u16) -> u32x8
    requires { length numbers ≡ 8 }
    ensures size { length result ≡ 8 }
    ensures each { (i : ℕ) → i < 8 → slice_index result i ≡ slice_index numbers i * factor }
{
    numbers.cast::<u32>() * u32x8::splat(u32::from(factor))
}

/// The upper halves of eight numbers of four bytes.
#[inline(always)]
pub fn upper_halves(numbers: u32x8) -> u16x8
    requires { length numbers ≡ 8 }
    ensures size { length result ≡ 8 }
    ensures each { (i : ℕ) → i < 8 → slice_index result i ≡ slice_index numbers i / 65536 }
{
    (numbers >> u32x8::splat(16)).cast::<u16>()
}

/// One in each lane whose number is below the other, else none.
#[inline(always)]
pub fn ones_below(numbers: u16x8, others: u16x8) -> u16x8
    requires numbers { length numbers ≡ 8 }
    requires others { length others ≡ 8 }
    ensures size { length result ≡ 8 }
    ensures below { (i : ℕ) → i < 8 → slice_index numbers i < slice_index others i
        → slice_index result i ≡ 1 }
    ensures other { (i : ℕ) → i < 8 → slice_index others i ≤ slice_index numbers i
        → slice_index result i ≡ 0 }
{
    numbers
        .simd_lt(others)
        .select(u16x8::splat(1), u16x8::splat(0))
}
