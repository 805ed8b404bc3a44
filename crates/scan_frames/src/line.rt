//! The bytes of a line.

ghost use Rattle.std.specs.Prelude.{◌≡◌, ◌≤◌, ◌<◌, ◌+◌, ◌*◌, ◌/◌, ◌^◌, ℕ, [], true, false, IfSome, length, slice_index, slice_index_or};
ghost use Rattle.page_picture.specs.Columns.{place_at};
ghost use Rattle.page_picture.specs.Shows.{channels_within};
ghost use Rattle.page_picture.specs.Tone.{brightness};
ghost use Rattle.scan_frames.specs.Line.{packing_of};
ghost use Rattle.scan_frames.specs.Frames.{channel_in, format_at};
ghost use Rattle.scan_frames.specs.Tables.{AreComposed};
ghost use Rattle.scan_frames.specs.Inside.{IsPlain, IsSame, HasPlaces, HasPlacesAsBytes, HasSample, IsGrayRow, bit_in, bits_in, sample_end, gray_in, line_shown, sample_in_row, AreInRow, IsRunFrom, StaysFrom};
ghost use Rattle.scan_frames.specs.Samples.{HasZeros};

use crate::byte_words::{put_channel_words, put_samples, put_word};
use crate::gray_rows::is_gray;
use crate::lanes::{eights, put_darks, put_eights, put_sum_eights};
use crate::pass::{channel_in, channels_within, format_at};
use crate::setup::{Packing, Setup, packing_of};
use page_picture::{ColumnMap, Mode, Scene, in_channel, toned};
use sane_fixed::{ByteOrder, FrameFormat};

/// How the samples of a frame stand in its bytes.
#[derive(Clone, Copy)]
struct Layout {
    packing: Packing,
    order: ByteOrder,
    format: FrameFormat,
}

/// The gray of a place in a row.
fn gray(row: &[u16], place: u32) -> u16
    requires { 3 * place + 2 < length row.now }
    ensures { result ≡ gray_in row.now place }
{
    let at = 3 * place as usize;
    let red = u32::from(row[at]);
    let green = u32::from(row[at + 1]);
    let blue = u32::from(row[at + 2]);
    ((299 * red + 587 * green + 114 * blue) / 1000) as u16
}

/// The brightness of a place in a row.
fn light(mode: Mode, row: &[u16], place: u32, k: u32) -> u16
    requires place { 3 * place + 2 < length row.now }
    requires channel { k < 3 }
    ensures { result ≡ brightness mode (λ i. slice_index row.now (3 * place + i)) k }
{
    match mode {
        Mode::Gray => gray(row, place),
        Mode::Color => row[3 * place as usize + k as usize],
    }
}

/// Puts sample `i` into a line.
fn put(layout: Layout, line: &mut [u8], i: usize, v: u16)
    requires room { sample_end layout.packing (i + 1) ≤ length line.old }
    requires fits { layout.packing ≡ Packing.Bytes → v < 256 }
    ensures here { HasSample layout.packing layout.order line.new i v }
    ensures before { (j u : ℕ) → j < i → HasSample layout.packing layout.order line.old j u
        → HasSample layout.packing layout.order line.new j u }
    ensures behind { (j : ℕ)
        → sample_end layout.packing (i + 1) ≤ j → slice_index line.new j ≡ slice_index line.old j }
{
    match layout.packing {
        Packing::Bits => {}
        Packing::Bytes => {
            line[i] = v as u8;
        }
        Packing::Words => put_word(layout.order, line, i, v),
    }
}

/// Puts the samples of one place, the first as sample `first`.
fn put_place(scene: &Scene, layout: Layout, row: &[u16], place: u32, first: usize, line: &mut [u8])
    requires packing { layout.packing ≡ packing_of scene.now.depth }
    requires place { 3 * place + 2 < length row.now }
    requires few { first ≤ 2 ^ 32 }
    requires room { sample_end layout.packing (first + channels_within layout.format)
        ≤ length line.old }
    ensures here { (k : ℕ)
        → k < channels_within layout.format → HasSample layout.packing layout.order line.new
        (first + k) (sample_in_row scene.now row.now place (channel_in layout.format k)) }
    ensures before { (j u : ℕ) → j < first → HasSample layout.packing layout.order line.old j u
        → HasSample layout.packing layout.order line.new j u }
    ensures behind { (j : ℕ) → sample_end layout.packing (first + channels_within layout.format) ≤ j
        → slice_index line.new j ≡ slice_index line.old j }
{
    for k in 0..channels_within(layout.format) {
        let channel = channel_in(layout.format, k);
        let seen = light(scene.mode, row, place, channel);
        let v = in_channel(scene, channel, toned(scene.depth, &scene.gamma, seen));
        put(layout, line, first + k as usize, v);
    }
}

/// Puts the samples of all places in red, green and blue, a byte each, by a table for each channel.
fn put_colors(tables: &[[u8; 256]; 3], row: &[u16], places: &[u32], line: &mut [u8])
    requires places { AreInRow places.now row.now }
    requires room { 3 * length places.now ≤ length line.old }
    ensures here { (x k : ℕ) → x < length places.now
        → k < 3 → slice_index line.new (3 * x + k) ≡ slice_index (slice_index_or tables.now k [])
        (slice_index row.now (3 * slice_index places.now x + k) / 256) }
    ensures behind { StaysFrom (3 * length places.now) line.old line.new }
{
    let [red, green, blue] = tables;
    for (x, place) in places.iter().enumerate() {
        let at = 3 * *place as usize;
        line[3 * x] = red[usize::from(row[at] / 256)];
        line[3 * x + 1] = green[usize::from(row[at + 1] / 256)];
        line[3 * x + 2] = blue[usize::from(row[at + 2] / 256)];
    }
}

/// Whether a table leaves each byte as it is.
pub fn is_same(table: &[u8; 256]) -> bool
    ensures same { result ≡ true → IsSame table.now }
    ensures other { result ≡ false → IsSame table.now → ⊥ }
{
    // It goes on behind the first that it changes, so that it takes many bytes at once.
    let mut same = true;
    for v in 0..256usize {
        same &= table[v] == v as u8;
    }
    same
}

/// Whether the tables leave each sample's upper byte as it is.
pub fn is_plain(tables: &[[u8; 256]; 3]) -> bool
    ensures plain { result ≡ true → IsPlain tables.now }
    ensures other { result ≡ false → IsPlain tables.now → ⊥ }
{
    let [red, green, blue] = tables;
    is_same(red) && (is_same(green) && is_same(blue))
}

/// Puts the upper bytes of samples.
fn put_upper(samples: &[u16], line: &mut [u8])
    requires room { length samples.now ≤ length line.old }
    ensures here { (j : ℕ)
        → j < length samples.now → slice_index line.new j ≡ slice_index samples.now j / 256 }
    ensures behind { (j : ℕ)
        → length samples.now ≤ j → slice_index line.new j ≡ slice_index line.old j }
{
    for (j, sample) in samples.iter().enumerate() {
        line[j] = (*sample / 256) as u8;
    }
}

/// Puts the samples of all places in red, green and blue, a byte each. It looks nothing up if the tables change nothing and the
/// places lie side by side from `first` on.
fn put_rgb(
    tables: &[[u8; 256]; 3],
    first: Option<u32>,
    row: &[u16],
    places: &[u32],
    line: &mut [u8],
)
    requires places { AreInRow places.now row.now }
    requires run { IfSome first (λ f. IsRunFrom f places.now) }
    requires few { length places.now ≤ 65536 }
    requires room { 3 * length places.now ≤ length line.old }
    ensures here { (x k : ℕ) → x < length places.now
        → k < 3 → slice_index line.new (3 * x + k) ≡ slice_index (slice_index_or tables.now k [])
        (slice_index row.now (3 * slice_index places.now x + k) / 256) }
    ensures behind { StaysFrom (3 * length places.now) line.old line.new }
{
    if let Some(first) = first {
        let start = 3 * first as usize;
        let end = start + 3 * places.len();
        if end <= row.len() && is_plain(tables) {
            return put_upper(&row[start..end], line);
        }
    }
    put_colors(tables, row, places, line)
}

/// Puts the samples of all places in one channel, a byte each, by its table.
fn put_color(table: &[u8; 256], k: u32, row: &[u16], places: &[u32], line: &mut [u8])
    requires channel { k < 3 }
    requires places { AreInRow places.now row.now }
    requires room { length places.now ≤ length line.old }
    ensures here { (x : ℕ) → x < length places.now → slice_index line.new x
        ≡ slice_index table.now (slice_index row.now (3 * slice_index places.now x + k) / 256) }
    ensures behind { StaysFrom (length places.now) line.old line.new }
{
    for (x, place) in places.iter().enumerate() {
        let seen = row[3 * *place as usize + k as usize];
        line[x] = table[usize::from(seen / 256)];
    }
}

/// Puts the upper bytes of one channel's samples of all places, which lie one beside the other from `first` on.
fn put_run_upper(k: u32, row: &[u16], first: usize, places: &[u32], line: &mut [u8])
    requires channel { k < 3 }
    requires run { IsRunFrom first places.now }
    requires places { AreInRow places.now row.now }
    requires room { length places.now ≤ length line.old }
    ensures here { (x : ℕ) → x < length places.now
        → slice_index line.new x ≡ slice_index row.now (3 * slice_index places.now x + k) / 256 }
    ensures behind { StaysFrom (length places.now) line.old line.new }
{
    if places.is_empty() {
        return;
    }
    let at = 3 * first + k as usize;
    let eights = eights(row, at, places.len());
    put_eights(row, at, eights, line);
    for x in 8 * eights..places.len() {
        line[x] = (row[3 * (first + x) + k as usize] / 256) as u8;
    }
}

/// The same as `put_color`, where the places lie one beside the other from `first` on.
fn put_run(table: &[u8; 256], k: u32, row: &[u16], first: usize, places: &[u32], line: &mut [u8])
    requires channel { k < 3 }
    requires run { IsRunFrom first places.now }
    requires places { AreInRow places.now row.now }
    requires room { length places.now ≤ length line.old }
    ensures here { (x : ℕ) → x < length places.now → slice_index line.new x
        ≡ slice_index table.now (slice_index row.now (3 * slice_index places.now x + k) / 256) }
    ensures behind { StaysFrom (length places.now) line.old line.new }
{
    if is_same(table) {
        return put_run_upper(k, row, first, places, line);
    }
    for x in 0..places.len() {
        let seen = row[3 * (first + x) + k as usize];
        line[x] = table[usize::from(seen / 256)];
    }
}

/// The same, without a look-up of the place where there is a `first` from which on the places lie one beside the other.
fn put_channel(
    table: &[u8; 256],
    k: u32,
    first: Option<u32>,
    row: &[u16],
    places: &[u32],
    line: &mut [u8],
)
    requires channel { k < 3 }
    requires run { IfSome first (λ f. IsRunFrom f places.now) }
    requires places { AreInRow places.now row.now }
    requires room { length places.now ≤ length line.old }
    ensures here { (x : ℕ) → x < length places.now → slice_index line.new x
        ≡ slice_index table.now (slice_index row.now (3 * slice_index places.now x + k) / 256) }
    ensures behind { StaysFrom (length places.now) line.old line.new }
{
    match first {
        Some(first) => put_run(table, k, row, first as usize, places, line),
        None => put_color(table, k, row, places, line),
    }
}

/// Puts the samples of all places in red, green and blue as they are, two bytes each.
fn put_words(layout: Layout, row: &[u16], places: &[u32], line: &mut [u8])
    requires packing { layout.packing ≡ Packing.Words }
    requires places { AreInRow places.now row.now }
    requires few { length places.now ≤ 65536 }
    requires room { 6 * length places.now ≤ length line.old }
    ensures here { (x k : ℕ) → x < length places.now → k < 3 → HasSample Packing.Words
        layout.order line.new (3 * x + k) (slice_index row.now (3 * slice_index places.now x + k)) }
    ensures behind { (j : ℕ)
        → 6 * length places.now ≤ j → slice_index line.new j ≡ slice_index line.old j }
{
    for (x, place) in places.iter().enumerate() {
        let at = 3 * *place as usize;
        put(layout, line, 3 * x, row[at]);
        put(layout, line, 3 * x + 1, row[at + 1]);
        put(layout, line, 3 * x + 2, row[at + 2]);
    }
}

/// The same as `put_words`, without a look-up where there is a `first` from which on the places lie one beside the other.
fn put_row_words(layout: Layout, first: Option<u32>, row: &[u16], places: &[u32], line: &mut [u8])
    requires packing { layout.packing ≡ Packing.Words }
    requires run { IfSome first (λ f. IsRunFrom f places.now) }
    requires places { AreInRow places.now row.now }
    requires few { length places.now ≤ 65536 }
    requires room { 6 * length places.now ≤ length line.old }
    ensures here { (x k : ℕ) → x < length places.now → k < 3 → HasSample Packing.Words
        layout.order line.new (3 * x + k) (slice_index row.now (3 * slice_index places.now x + k)) }
    ensures behind { (j : ℕ)
        → 6 * length places.now ≤ j → slice_index line.new j ≡ slice_index line.old j }
{
    if let Some(first) = first {
        let start = 3 * first as usize;
        let end = start + 3 * places.len();
        if end <= row.len() {
            return put_samples(layout.order, &row[start..end], line);
        }
    }
    put_words(layout, row, places, line)
}

/// Puts the grays of all places, two bytes each; of a gray row they are the samples of its first channel, without a sum.
#[tactic(auto, using(crate::proofs::Grays::gray_of_even))]
fn put_gray_words(
    order: ByteOrder,
    first: Option<u32>,
    row: &[u16],
    places: &[u32],
    line: &mut [u8],
)
    requires run { IfSome first (λ f. IsRunFrom f places.now) }
    requires places { AreInRow places.now row.now }
    requires room { 2 * length places.now ≤ length line.old }
    ensures here { (x : ℕ) → x < length places.now
        → HasSample Packing.Words order line.new x (gray_in row.now (slice_index places.now x)) }
    ensures behind { StaysFrom (2 * length places.now) line.old line.new }
{
    if is_gray(row) {
        return put_channel_words(order, 0, first, row, places, line);
    }
    for (x, place) in places.iter().enumerate() {
        put_word(order, line, x, gray(row, *place));
    }
}

/// Puts the samples of all places in color, a byte each.
fn put_bytes(
    scene: &Scene,
    tables: &[[u8; 256]; 3],
    layout: Layout,
    first: Option<u32>,
    row: &[u16],
    places: &[u32],
    line: &mut [u8],
)
    requires tables { AreComposed scene.now tables.now }
    requires run { IfSome first (λ f. IsRunFrom f places.now) }
    requires packing { packing_of scene.now.depth ≡ Packing.Bytes }
    requires color { scene.now.mode ≡ Mode.Color }
    requires places { AreInRow places.now row.now }
    requires few { length places.now ≤ 65536 }
    requires room { channels_within layout.format * length places.now ≤ length line.old }
    ensures here { HasPlacesAsBytes scene.now layout.format row.now places.now line.new }
    ensures behind { (j : ℕ) → channels_within layout.format * length places.now ≤ j
        → slice_index line.new j ≡ slice_index line.old j }
{
    match layout.format {
        FrameFormat::Rgb => put_rgb(tables, first, row, places, line),
        // A picture in color has no gray frame; the one channel of such a frame would be the first.
        FrameFormat::Gray | FrameFormat::Red => put_channel(
            &tables[0], 0, first, row, places, line,
        ),
        FrameFormat::Green => put_channel(&tables[1], 1, first, row, places, line),
        FrameFormat::Blue => put_channel(&tables[2], 2, first, row, places, line),
    }
}

/// Puts the samples of all places, one by one.
fn put_each(scene: &Scene, layout: Layout, row: &[u16], places: &[u32], line: &mut [u8])
    requires packing { layout.packing ≡ packing_of scene.now.depth }
    requires places { AreInRow places.now row.now }
    requires few { length places.now ≤ 65536 }
    requires room { sample_end layout.packing (channels_within layout.format * length places.now)
        ≤ length line.old }
    ensures here { HasPlaces scene.now layout row.now places.now line.new }
    ensures behind { (j : ℕ)
        → sample_end layout.packing (channels_within layout.format * length places.now) ≤ j
        → slice_index line.new j ≡ slice_index line.old j }
{
    let step = channels_within(layout.format) as usize;
    for (x, place) in places.iter().enumerate() {
        put_place(scene, layout, row, *place, step * x, line);
    }
}

/// Puts the samples of all places.
fn put_all(
    scene: &Scene,
    layout: Layout,
    first: Option<u32>,
    row: &[u16],
    places: &[u32],
    line: &mut [u8],
)
    requires packing { layout.packing ≡ packing_of scene.now.depth }
    requires run { IfSome first (λ f. IsRunFrom f places.now) }
    requires places { AreInRow places.now row.now }
    requires few { length places.now ≤ 65536 }
    requires room { sample_end layout.packing (channels_within layout.format * length places.now)
        ≤ length line.old }
    ensures here { HasPlaces scene.now layout row.now places.now line.new }
    ensures behind { (j : ℕ)
        → sample_end layout.packing (channels_within layout.format * length places.now) ≤ j
        → slice_index line.new j ≡ slice_index line.old j }
{
    match (layout.packing, layout.format, scene.mode) {
        (Packing::Words, FrameFormat::Rgb, Mode::Color) => {
            put_row_words(layout, first, row, places, line)
        }
        (Packing::Words, FrameFormat::Gray, Mode::Gray) => {
            put_gray_words(layout.order, first, row, places, line)
        }
        (Packing::Words, FrameFormat::Red | FrameFormat::Green | FrameFormat::Blue, Mode::Color) =>
            {
                let k = channel_in(layout.format, 0);
                put_channel_words(layout.order, k, first, row, places, line)
            }
        _ => put_each(scene, layout, row, places, line),
    }
}

/// Puts the samples of all places in gray, a byte each, by the gray sum of each.
fn put_sums(table: &[u8; 256], row: &[u16], places: &[u32], line: &mut [u8])
    requires places { AreInRow places.now row.now }
    requires room { length places.now ≤ length line.old }
    ensures here { (x : ℕ) → x < length places.now → slice_index line.new x
        ≡ slice_index table.now (gray_in row.now (slice_index places.now x) / 256) }
    ensures behind { StaysFrom (length places.now) line.old line.new }
{
    for (x, place) in places.iter().enumerate() {
        line[x] = table[gray(row, *place) as usize / 256];
    }
}

/// Puts the upper bytes of the grays of all places, which lie one beside the other from `first` on.
fn put_upper_sums(row: &[u16], first: usize, places: &[u32], line: &mut [u8])
    requires run { IsRunFrom first places.now }
    requires places { AreInRow places.now row.now }
    requires room { length places.now ≤ length line.old }
    ensures here { (x : ℕ) → x < length places.now
        → slice_index line.new x ≡ gray_in row.now (slice_index places.now x) / 256 }
    ensures behind { StaysFrom (length places.now) line.old line.new }
{
    if places.is_empty() {
        return;
    }
    let at = 3 * first;
    let eights = eights(row, at + 2, places.len());
    put_sum_eights(row, at, eights, line);
    for x in 8 * eights..places.len() {
        line[x] = (gray(row, places[x]) / 256) as u8;
    }
}

/// The same as `put_sums`, eight dots at once where the table changes nothing and the places lie one beside the other.
fn put_row_sums(table: &[u8; 256], first: Option<u32>, row: &[u16], places: &[u32], line: &mut [u8])
    requires run { IfSome first (λ f. IsRunFrom f places.now) }
    requires places { AreInRow places.now row.now }
    requires room { length places.now ≤ length line.old }
    ensures here { (x : ℕ) → x < length places.now
        → slice_index line.new x
        ≡ slice_index table.now (gray_in row.now (slice_index places.now x) / 256) }
    ensures behind { StaysFrom (length places.now) line.old line.new }
{
    match first {
        Some(first) if is_same(table) => put_upper_sums(row, first as usize, places, line),
        _ => put_sums(table, row, places, line),
    }
}

/// Puts the samples of all places in gray, a byte each; of a gray row they are those of its first channel, without a sum.
#[tactic(auto, using(crate::proofs::Grays::gray_of_even))]
fn put_grays(table: &[u8; 256], first: Option<u32>, row: &[u16], places: &[u32], line: &mut [u8])
    requires places { AreInRow places.now row.now }
    requires run { IfSome first (λ f. IsRunFrom f places.now) }
    requires few { length places.now ≤ 65536 }
    requires room { length places.now ≤ length line.old }
    ensures here { (x : ℕ) → x < length places.now → slice_index line.new x
        ≡ slice_index table.now (gray_in row.now (slice_index places.now x) / 256) }
    ensures behind { StaysFrom (length places.now) line.old line.new }
{
    if is_gray(row) {
        put_channel(table, 0, first, row, places, line)
    } else {
        put_row_sums(table, first, row, places, line)
    }
}

/// The bit of a column, zero behind the last.
#[tactic(auto, unfolding(crate::specs::Inside::bit_in))]
fn bit(scene: &Scene, row: &[u16], places: &[u32], channel: u32, x: usize) -> u8
    requires depth { packing_of scene.now.depth ≡ Packing.Bits }
    requires channel { channel < 3 }
    requires places { AreInRow places.now row.now }
    ensures value { result ≡ bit_in scene.now row.now places.now channel x }
    ensures limit { result ≤ 1 }
{
    if x < places.len() {
        let seen = light(scene.mode, row, places[x], channel);
        in_channel(scene, channel, toned(scene.depth, &scene.gamma, seen)) as u8
    } else {
        0
    }
}

/// The byte of eight columns, the leftmost as its most significant bit.
#[tactic(auto, unfolding(crate::specs::Inside::bits_in))]
fn packed(scene: &Scene, row: &[u16], places: &[u32], channel: u32, b: usize) -> u8
    requires depth { packing_of scene.now.depth ≡ Packing.Bits }
    requires channel { channel < 3 }
    requires places { AreInRow places.now row.now }
    requires few { b ≤ 65536 }
    ensures { result ≡ bits_in scene.now row.now places.now channel b }
{
    let mut byte = 0u8;
    for j in 0..8 {
        byte = 2 * byte + bit(scene, row, places, channel, 8 * b + j);
    }
    byte
}

/// The bit of a column in gray.
#[tactic(auto, unfolding(crate::specs::Inside::bit_in))]
fn gray_bit(scene: &Scene, row: &[u16], places: &[u32], channel: u32, x: usize) -> u8
    requires depth { packing_of scene.now.depth ≡ Packing.Bits }
    requires gray { scene.now.mode ≡ Mode.Gray }
    requires places { AreInRow places.now row.now }
    requires inside { x < length places.now }
    ensures value { result ≡ bit_in scene.now row.now places.now channel x }
    ensures limit { result ≤ 1 }
{
    let entry = scene.gamma[gray(row, places[x]) as usize / 256];
    if entry < 128 { 1 } else { 0 }
}

/// The byte of eight columns in gray, the leftmost as its most significant bit.
#[tactic(auto, unfolding(crate::specs::Inside::bits_in))]
fn packed_grays(scene: &Scene, row: &[u16], places: &[u32], channel: u32, b: usize) -> u8
    requires depth { packing_of scene.now.depth ≡ Packing.Bits }
    requires gray { scene.now.mode ≡ Mode.Gray }
    requires places { AreInRow places.now row.now }
    requires few { b ≤ 65536 }
    requires inside { 8 * b + 8 ≤ length places.now }
    ensures { result ≡ bits_in scene.now row.now places.now channel b }
{
    let mut byte = 0u8;
    for j in 0..8 {
        byte = 2 * byte + gray_bit(scene, row, places, channel, 8 * b + j);
    }
    byte
}

/// Puts the bits of all places, and zeros behind them, by the sum or the sample of each.
fn put_any_bits(scene: &Scene, row: &[u16], places: &[u32], channel: u32, line: &mut [u8])
    requires depth { packing_of scene.now.depth ≡ Packing.Bits }
    requires channel { channel < 3 }
    requires places { AreInRow places.now row.now }
    requires few { length line.old ≤ 65536 }
    ensures { (b : ℕ) → b < length line.old
        → slice_index line.new b ≡ bits_in scene.now row.now places.now channel b }
{
    let whole = match scene.mode {
        Mode::Gray => places.len() / 8,
        Mode::Color => 0,
    };
    for b in 0..line.len() {
        line[b] = if b < whole {
            packed_grays(scene, row, places, channel, b)
        } else {
            packed(scene, row, places, channel, b)
        };
    }
}

/// The bit of a column in gray, of a gray row whose places lie one beside the other from `first` on.
#[tactic(auto, using(crate::proofs::Grays::gray_of_even), unfolding(crate::specs::Inside::bit_in))]
fn run_bit(scene: &Scene, row: &[u16], first: usize, places: &[u32], channel: u32, x: usize) -> u8
    requires depth { packing_of scene.now.depth ≡ Packing.Bits }
    requires gray { scene.now.mode ≡ Mode.Gray }
    requires even { IsGrayRow row.now }
    requires run { IsRunFrom first places.now }
    requires places { AreInRow places.now row.now }
    requires inside { x < length places.now }
    ensures value { result ≡ bit_in scene.now row.now places.now channel x }
    ensures limit { result ≤ 1 }
{
    let entry = scene.gamma[usize::from(row[3 * (first + x)] / 256)];
    if entry < 128 { 1 } else { 0 }
}

/// The byte of eight such columns, the leftmost as its most significant bit.
#[tactic(auto, unfolding(crate::specs::Inside::bits_in))]
fn packed_run(
    scene: &Scene,
    row: &[u16],
    first: usize,
    places: &[u32],
    channel: u32,
    b: usize,
) -> u8
    requires depth { packing_of scene.now.depth ≡ Packing.Bits }
    requires gray { scene.now.mode ≡ Mode.Gray }
    requires even { IsGrayRow row.now }
    requires run { IsRunFrom first places.now }
    requires places { AreInRow places.now row.now }
    requires few { b ≤ 65536 }
    requires inside { 8 * b + 8 ≤ length places.now }
    ensures { result ≡ bits_in scene.now row.now places.now channel b }
{
    let mut byte = 0u8;
    for j in 0..8 {
        byte = 2 * byte + run_bit(scene, row, first, places, channel, 8 * b + j);
    }
    byte
}

/// Puts the bits of eights of such places where the gamma table leaves each byte as it is, and tells how many bytes.
fn put_same_eights(
    scene: &Scene,
    row: &[u16],
    first: usize,
    places: &[u32],
    channel: u32,
    line: &mut [u8],
) -> usize
    requires depth { packing_of scene.now.depth ≡ Packing.Bits }
    requires gray { scene.now.mode ≡ Mode.Gray }
    requires even { IsGrayRow row.now }
    requires run { IsRunFrom first places.now }
    requires places { AreInRow places.now row.now }
    ensures line { result ≤ length line.old }
    ensures dots { 8 * result ≤ length places.now }
    ensures here { (b : ℕ) → b < result
        → slice_index line.new b ≡ bits_in scene.now row.now places.now channel b }
{
    if places.is_empty() || !is_same(&scene.gamma) {
        return 0;
    }
    let dots = eights(row, 3 * first, places.len());
    let bytes = dots.min(line.len());
    put_darks(row, 3 * first, bytes, line);
    bytes
}

/// Puts the bits of all such places, and zeros behind them.
fn put_run_bits(
    scene: &Scene,
    row: &[u16],
    first: usize,
    places: &[u32],
    channel: u32,
    line: &mut [u8],
)
    requires depth { packing_of scene.now.depth ≡ Packing.Bits }
    requires gray { scene.now.mode ≡ Mode.Gray }
    requires even { IsGrayRow row.now }
    requires run { IsRunFrom first places.now }
    requires channel { channel < 3 }
    requires places { AreInRow places.now row.now }
    requires few { length line.old ≤ 65536 }
    ensures { (b : ℕ) → b < length line.old
        → slice_index line.new b ≡ bits_in scene.now row.now places.now channel b }
{
    let whole = places.len() / 8;
    let eights = put_same_eights(scene, row, first, places, channel, line);
    for b in eights..line.len() {
        line[b] = if b < whole {
            packed_run(scene, row, first, places, channel, b)
        } else {
            packed(scene, row, places, channel, b)
        };
    }
}

/// Puts the bits of all places, and zeros behind them. A gray row whose places lie one beside the other has no sums.
fn put_bits(
    scene: &Scene,
    first: Option<u32>,
    row: &[u16],
    places: &[u32],
    channel: u32,
    line: &mut [u8],
)
    requires depth { packing_of scene.now.depth ≡ Packing.Bits }
    requires run { IfSome first (λ f. IsRunFrom f places.now) }
    requires channel { channel < 3 }
    requires places { AreInRow places.now row.now }
    requires few { length line.old ≤ 65536 }
    ensures { (b : ℕ) → b < length line.old
        → slice_index line.new b ≡ bits_in scene.now row.now places.now channel b }
{
    if let (Mode::Gray, Some(first)) = (scene.mode, first) {
        if is_gray(row) {
            return put_run_bits(scene, row, first as usize, places, channel, line);
        }
    }
    put_any_bits(scene, row, places, channel, line)
}

/// Writes the line of a pass that a row shows.
pub fn make_line(
    setup: &Setup,
    pass: u32,
    tables: &[[u8; 256]; 3],
    columns: &ColumnMap,
    row: &[u16],
    line: &mut [u8],
)
    requires tables { AreComposed setup.now.scene tables.now }
    requires row { length row.now ≡ 3 * columns.now.width + 3 }
    requires few { columns.now.count ≤ 65536 }
    requires short { length line.old ≤ 1048576 }
    requires bits { packing_of setup.now.scene.depth ≡ Packing.Bits → length line.old ≤ 65536 }
    requires room { sample_end (packing_of setup.now.scene.depth)
        (channels_within (format_at setup.now pass) * columns.now.count) ≤ length line.old }
    requires zeros { HasZeros (packing_of setup.now.scene.depth)
        (channels_within (format_at setup.now pass) * columns.now.count) line.old }
    ensures zeros { HasZeros (packing_of setup.now.scene.depth)
        (channels_within (format_at setup.now pass) * columns.now.count) line.new }
    ensures bytes { line.new
        ≡ line_shown setup.now pass row.now columns.now (length line.old) }
{
    let format = format_at(setup, pass);
    let layout = Layout {
        packing: packing_of(setup.scene.depth),
        order: setup.order,
        format,
    };
    let places = columns.places();
    match layout.packing {
        Packing::Bits => {
            let channel = channel_in(format, 0);
            put_bits(&setup.scene, columns.run(), row, places, channel, line)
        }
        Packing::Bytes => {
            match setup.scene.mode {
                Mode::Gray => put_grays(&setup.scene.gamma, columns.run(), row, places, line),
                Mode::Color => {
                    put_bytes(
                        &setup.scene,
                        tables,
                        layout,
                        columns.run(),
                        row,
                        places,
                        line,
                    )
                }
            }
        }
        Packing::Words => put_all(&setup.scene, layout, columns.run(), row, places, line),
    }
}
