//! Eight dots of a row at once.

ghost use Rattle.std.specs.Prelude.{◌≡◌, ◌≤◌, ◌<◌, ◌+◌, ◌*◌, ◌/◌, ◌%◌, ◌^◌, ℕ, length, slice_index};
ghost use Rattle.netpbm.specs.FileText.{binary};
ghost use Rattle.scan_frames.specs.Line.{half};
ghost use Rattle.scan_frames.specs.Inside.{HasSample, dark, darks_from, sum_from};

use crate::setup::Packing;
use sane_fixed::ByteOrder;
use std::simd::prelude::*;
use vector_lanes::words::{bytes_of, products, turned, upper_bytes};

/// For eight bits that stand as `mixed` has their dots: the same bits, the leftmost dot's as the most significant.
const LEFTMOST_FIRST: [u8; 256] = [
    0, 128, 16, 144, 2, 130, 18, 146, 64, 192, 80, 208, 66, 194, 82, 210, 8, 136, 24, 152, 10, 138,
    26, 154, 72, 200, 88, 216, 74, 202, 90, 218, 1, 129, 17, 145, 3, 131, 19, 147, 65, 193, 81,
    209, 67, 195, 83, 211, 9, 137, 25, 153, 11, 139, 27, 155, 73, 201, 89, 217, 75, 203, 91, 219,
    32, 160, 48, 176, 34, 162, 50, 178, 96, 224, 112, 240, 98, 226, 114, 242, 40, 168, 56, 184, 42,
    170, 58, 186, 104, 232, 120, 248, 106, 234, 122, 250, 33, 161, 49, 177, 35, 163, 51, 179, 97,
    225, 113, 241, 99, 227, 115, 243, 41, 169, 57, 185, 43, 171, 59, 187, 105, 233, 121, 249, 107,
    235, 123, 251, 4, 132, 20, 148, 6, 134, 22, 150, 68, 196, 84, 212, 70, 198, 86, 214, 12, 140,
    28, 156, 14, 142, 30, 158, 76, 204, 92, 220, 78, 206, 94, 222, 5, 133, 21, 149, 7, 135, 23,
    151, 69, 197, 85, 213, 71, 199, 87, 215, 13, 141, 29, 157, 15, 143, 31, 159, 77, 205, 93, 221,
    79, 207, 95, 223, 36, 164, 52, 180, 38, 166, 54, 182, 100, 228, 116, 244, 102, 230, 118, 246,
    44, 172, 60, 188, 46, 174, 62, 190, 108, 236, 124, 252, 110, 238, 126, 254, 37, 165, 53, 181,
    39, 167, 55, 183, 101, 229, 117, 245, 103, 231, 119, 247, 45, 173, 61, 189, 47, 175, 63, 191,
    109, 237, 125, 253, 111, 239, 127, 255,
];

/// One sample of each of eight dots that lie one beside the other, from sample `at` on.
#[inline(always)]
fn eight(row: &[u16], at: usize) -> u16x8
    requires { at + 32 ≤ length row.now }
    ensures size { length result ≡ 8 }
    ensures each { (i : ℕ) → i < 8 → slice_index result i ≡ slice_index row.now (at + 3 * i) }
{
    u16x32::from_slice(&row[at..]).swizzle([0, 3, 6, 9, 12, 15, 18, 21])
}

/// How many eights of so many dots, from sample `at` of a row on, can be taken at once.
pub fn eights(row: &[u16], at: usize, dots: usize) -> usize
    requires { at ≤ length row.now }
    ensures dots { 8 * result ≤ dots }
    ensures room { (n : ℕ) → n < result → at + 24 * n + 32 ≤ length row.now }
{
    let rest = (row.len() - at).saturating_sub(8) / 24;
    rest.min(dots / 8)
}

/// Puts the upper bytes of one sample of each of so many eights of dots, from sample `at` on.
pub fn put_eights(row: &[u16], at: usize, eights: usize, line: &mut [u8])
    requires row { (n : ℕ) → n < eights → at + 24 * n + 32 ≤ length row.now }
    requires line { 8 * eights ≤ length line.old }
    ensures here { (x : ℕ)
        → x < 8 * eights → slice_index line.new x ≡ slice_index row.now (at + 3 * x) / 256 }
    ensures behind { (j : ℕ) → 8 * eights ≤ j → slice_index line.new j ≡ slice_index line.old j }
{
    for n in 0..eights {
        upper_bytes(eight(row, at + 24 * n)).copy_to_slice(&mut line[8 * n..]);
    }
}

/// One sample of each of eight dots that lie one beside the other, from sample `at` on: dot `3 * i % 8` in lane `i`.
#[inline(always)]
fn mixed(row: &[u16], at: usize) -> u16x8
    requires { at + 32 ≤ length row.now }
    ensures size { length result ≡ 8 }
    ensures each { (i : ℕ) → i < 8
        → slice_index result i ≡ slice_index row.now (at + 3 * (3 * i % 8)) }
{
    // In this order each lane is the same lane of a load of eight, so that no sample is moved.
    u16x32::from_slice(&row[at..]).swizzle([0, 9, 18, 3, 12, 21, 6, 15])
}

/// Which of eight samples are below half of the greatest, the first as the least significant bit.
#[inline(always)]
fn dark_lanes(samples: u16x8) -> u64
    requires { length samples ≡ 8 }
    ensures limit { result < 256 }
    ensures each { (i : ℕ) → i < 8 → result / 2 ^ i % 2 ≡ dark (slice_index samples i) }
{
    samples.simd_lt(u16x8::splat(32768)).to_bitmask()
}

/// The bits of eight lanes in the order of their dots, the leftmost as the most significant.
#[inline(always)]
fn leftmost_first(lanes: u64) -> u8
    requires { lanes < 256 }
    ensures { result ≡ binary (λ j. lanes / 2 ^ (3 * j % 8) % 2) 8 }
{
    LEFTMOST_FIRST[lanes as usize]
}

/// The bits of eight dots that lie one beside the other, one where a dot's sample from `at` on is dark.
#[inline(always)]
fn dark_byte(row: &[u16], at: usize) -> u8
    requires { at + 32 ≤ length row.now }
    ensures { result ≡ darks_from row.now at }
{
    leftmost_first(dark_lanes(mixed(row, at)))
}

/// Puts the bits of so many eights of dots, from sample `at` on.
pub fn put_darks(row: &[u16], at: usize, eights: usize, line: &mut [u8])
    requires row { (n : ℕ) → n < eights → at + 24 * n + 32 ≤ length row.now }
    requires line { eights ≤ length line.old }
    ensures here { (b : ℕ) → b < eights
        → slice_index line.new b ≡ darks_from row.now (at + 24 * b) }
    ensures behind { (j : ℕ) → eights ≤ j → slice_index line.new j ≡ slice_index line.old j }
{
    for b in 0..eights {
        line[b] = dark_byte(row, at + 24 * b);
    }
}

/// The weighted sums of eight dots that lie one beside the other, from sample `at` on.
#[inline(always)]
fn sums_of(row: &[u16], at: usize) -> u32x8
    requires { at + 34 ≤ length row.now }
    ensures size { length result ≡ 8 }
    ensures each { (i : ℕ) → i < 8 → slice_index result i ≡ sum_from row.now (at + 3 * i) }
{
    let red = products(eight(row, at), 299);
    let green = products(eight(row, at + 1), 587);
    let blue = products(eight(row, at + 2), 114);
    red + green + blue
}

/// Eight sums, each divided by 2048.
#[inline(always)]
fn shortened(sums: u32x8) -> u16x8
    requires size { length sums ≡ 8 }
    requires limit { (i : ℕ) → i < 8 → slice_index sums i ≤ 65535000 }
    ensures size { length result ≡ 8 }
    ensures each { (i : ℕ) → i < 8 → slice_index result i ≡ slice_index sums i / 2048 }
{
    (sums >> u32x8::splat(11)).cast::<u16>()
}

/// Eight numbers, each divided by 125.
#[inline(always)]
fn divided(numbers: u16x8) -> u8x8
    requires size { length numbers ≡ 8 }
    requires limit { (i : ℕ) → i < 8 → slice_index numbers i < 32000 }
    ensures size { length result ≡ 8 }
    ensures each { (i : ℕ) → i < 8 → slice_index result i ≡ slice_index numbers i / 125 }
{
    (numbers / u16x8::splat(125)).cast::<u8>()
}

/// The upper bytes of the grays of eight sums.
#[inline(always)]
fn upper_grays(sums: u32x8) -> u8x8
    requires size { length sums ≡ 8 }
    requires limit { (i : ℕ) → i < 8 → slice_index sums i ≤ 65535000 }
    ensures size { length result ≡ 8 }
    ensures each { (i : ℕ) → i < 8 → slice_index result i ≡ slice_index sums i / 1000 / 256 }
{
    // 1000 * 256 is 2048 * 125: so the longer division is one of numbers of two bytes.
    divided(shortened(sums))
}

/// The upper bytes of the grays of eight dots that lie one beside the other, from sample `at` on.
#[inline(always)]
fn grays_of(row: &[u16], at: usize) -> u8x8
    requires { at + 34 ≤ length row.now }
    ensures size { length result ≡ 8 }
    ensures each { (i : ℕ) → i < 8
        → slice_index result i ≡ sum_from row.now (at + 3 * i) / 1000 / 256 }
{
    upper_grays(sums_of(row, at))
}

/// Puts the upper bytes of the grays of so many eights of dots, from sample `at` on.
pub fn put_sum_eights(row: &[u16], at: usize, eights: usize, line: &mut [u8])
    requires row { (n : ℕ) → n < eights → at + 24 * n + 34 ≤ length row.now }
    requires line { 8 * eights ≤ length line.old }
    ensures here { (x : ℕ) → x < 8 * eights
        → slice_index line.new x ≡ sum_from row.now (at + 3 * x) / 1000 / 256 }
    ensures behind { (j : ℕ) → 8 * eights ≤ j → slice_index line.new j ≡ slice_index line.old j }
{
    for n in 0..eights {
        grays_of(row, at + 24 * n).copy_to_slice(&mut line[8 * n..]);
    }
}

/// Eight samples whose lower bytes are those that stand first in the order.
#[inline(always)]
fn first_lower(order: ByteOrder, samples: u16x8) -> u16x8
    requires { length samples ≡ 8 }
    ensures size { length result ≡ 8 }
    ensures first { (i : ℕ) → i < 8
        → slice_index result i % 256 ≡ half order 0 (slice_index samples i) }
    ensures second { (i : ℕ) → i < 8
        → slice_index result i / 256 ≡ half order 1 (slice_index samples i) }
{
    match order {
        ByteOrder::Little => samples,
        ByteOrder::Big => turned(samples),
    }
}

/// Puts the two bytes of one sample of each of so many eights of dots, from sample `at` on.
pub fn put_word_eights(order: ByteOrder, row: &[u16], at: usize, eights: usize, line: &mut [u8])
    requires row { (n : ℕ) → n < eights → at + 24 * n + 32 ≤ length row.now }
    requires line { 16 * eights ≤ length line.old }
    ensures here { (x : ℕ) → x < 8 * eights
        → HasSample Packing.Words order line.new x (slice_index row.now (at + 3 * x)) }
    ensures behind { (j : ℕ) → 16 * eights ≤ j → slice_index line.new j ≡ slice_index line.old j }
{
    for n in 0..eights {
        let samples = first_lower(order, eight(row, at + 24 * n));
        bytes_of(samples).copy_to_slice(&mut line[16 * n..]);
    }
}
