//! Sixteen bytes at once.

ghost use Rattle.std.specs.Prelude.{◌≡◌, ◌≤◌, ◌<◌, ◌+◌, ◌⊎◌, ℕ, length, slice_index};

use std::simd::prelude::*;

/// The sixteen bytes from byte `at` on.
#[inline(always)]
pub fn sixteen(bytes: &[u8], at: usize) -> u8x16
    requires { at + 16 ≤ length bytes.now }
    ensures size { length result ≡ 16 }
    ensures each { (i : ℕ) → i < 16 → slice_index result i ≡ slice_index bytes.now (at + i) }
{
    u8x16::from_slice(&bytes[at..])
}

/// What sixteen lanes hold.
#[inline(always)]
pub fn listed(bytes: u8x16) -> [u8; 16]
    requires { length bytes ≡ 16 }
    ensures { (i : ℕ) → i < 16 → slice_index result i ≡ slice_index bytes i }
{
    let mut sixteen = [0u8; 16];
    bytes.copy_to_slice(&mut sixteen);
    sixteen
}

/// Of each of sixteen lanes the greater byte.
#[inline(always)]
pub fn greater(bytes: u8x16, others: u8x16) -> u8x16
    requires bytes { length bytes ≡ 16 }
    requires others { length others ≡ 16 }
    ensures size { length result ≡ 16 }
    ensures first { (i : ℕ) → i < 16 → slice_index bytes i ≤ slice_index result i }
    ensures second { (i : ℕ) → i < 16 → slice_index others i ≤ slice_index result i }
    ensures one { (i : ℕ) → i < 16 → (slice_index result i ≡ slice_index bytes i)
        ⊎ (slice_index result i ≡ slice_index others i) }
{
    bytes.simd_max(others)
}
