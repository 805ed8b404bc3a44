//! Samples of two bytes in a line.

ghost use Rattle.std.specs.Prelude.{◌≡◌, ◌≤◌, ◌<◌, ◌+◌, ◌*◌, ℕ, IfSome, length, slice_index};
ghost use Rattle.scan_frames.specs.Inside.{HasSample, AreInRow, IsRunFrom, StaysFrom};

use crate::lanes::{eights, put_word_eights};
use crate::setup::Packing;
use sane_fixed::ByteOrder;

/// Puts sample `i` of two bytes into a line.
pub fn put_word(order: ByteOrder, line: &mut [u8], i: usize, v: u16)
    requires room { 2 * i + 2 ≤ length line.old }
    ensures here { HasSample Packing.Words order line.new i v }
    ensures before { (j : ℕ) → j < 2 * i → slice_index line.new j ≡ slice_index line.old j }
    ensures behind { (j : ℕ) → 2 * i + 2 ≤ j → slice_index line.new j ≡ slice_index line.old j }
{
    let (first, second) = match order {
        ByteOrder::Little => (v % 256, v / 256),
        ByteOrder::Big => (v / 256, v % 256),
    };
    line[2 * i] = first as u8;
    line[2 * i + 1] = second as u8;
}

/// Puts one channel's samples of all places as they are, two bytes each.
fn put_place_words(order: ByteOrder, k: u32, row: &[u16], places: &[u32], line: &mut [u8])
    requires channel { k < 3 }
    requires places { AreInRow places.now row.now }
    requires room { 2 * length places.now ≤ length line.old }
    ensures here { (x : ℕ) → x < length places.now
        → HasSample Packing.Words order line.new x
        (slice_index row.now (3 * slice_index places.now x + k)) }
    ensures behind { StaysFrom (2 * length places.now) line.old line.new }
{
    for (x, place) in places.iter().enumerate() {
        put_word(order, line, x, row[3 * *place as usize + k as usize]);
    }
}

/// The same, eight dots at once where the places lie one beside the other from `first` on.
fn put_run_words(
    order: ByteOrder,
    k: u32,
    row: &[u16],
    first: usize,
    places: &[u32],
    line: &mut [u8],
)
    requires channel { k < 3 }
    requires run { IsRunFrom first places.now }
    requires places { AreInRow places.now row.now }
    requires room { 2 * length places.now ≤ length line.old }
    ensures here { (x : ℕ) → x < length places.now
        → HasSample Packing.Words order line.new x
        (slice_index row.now (3 * slice_index places.now x + k)) }
    ensures behind { StaysFrom (2 * length places.now) line.old line.new }
{
    if places.is_empty() {
        return;
    }
    let at = 3 * first + k as usize;
    let eights = eights(row, at, places.len());
    put_word_eights(order, row, at, eights, line);
    for x in 8 * eights..places.len() {
        put_word(order, line, x, row[at + 3 * x]);
    }
}

/// The same, in the way that the places allow.
pub fn put_channel_words(
    order: ByteOrder,
    k: u32,
    first: Option<u32>,
    row: &[u16],
    places: &[u32],
    line: &mut [u8],
)
    requires channel { k < 3 }
    requires run { IfSome first (λ f. IsRunFrom f places.now) }
    requires places { AreInRow places.now row.now }
    requires room { 2 * length places.now ≤ length line.old }
    ensures here { (x : ℕ) → x < length places.now
        → HasSample Packing.Words order line.new x
        (slice_index row.now (3 * slice_index places.now x + k)) }
    ensures behind { StaysFrom (2 * length places.now) line.old line.new }
{
    match first {
        Some(first) => put_run_words(order, k, row, first as usize, places, line),
        None => put_place_words(order, k, row, places, line),
    }
}

/// Puts samples as they are, two bytes each.
pub fn put_samples(order: ByteOrder, samples: &[u16], line: &mut [u8])
    requires few { length samples.now ≤ 262144 }
    requires room { 2 * length samples.now ≤ length line.old }
    ensures here { (i : ℕ) → i < length samples.now
        → HasSample Packing.Words order line.new i (slice_index samples.now i) }
    ensures behind { (j : ℕ)
        → 2 * length samples.now ≤ j → slice_index line.new j ≡ slice_index line.old j }
{
    // The order is asked outside of the loops, so that each is one of many bytes at once.
    match order {
        ByteOrder::Little => {
            for (i, sample) in samples.iter().enumerate() {
                line[2 * i] = (*sample % 256) as u8;
                line[2 * i + 1] = (*sample / 256) as u8;
            }
        }
        ByteOrder::Big => {
            for (i, sample) in samples.iter().enumerate() {
                line[2 * i] = (*sample / 256) as u8;
                line[2 * i + 1] = (*sample % 256) as u8;
            }
        }
    }
}
