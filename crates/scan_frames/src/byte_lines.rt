//! Lines made of the bytes of a row, so that no samples stand between a page's file and them.

ghost use Rattle.std.specs.Prelude.{◌≡◌, ◌≤◌, ◌<◌, ◌+◌, ◌*◌, ℕ, Ok, true, false, length, slice_index, IfSome, OnOk, OnErr};
ghost use Rattle.page_picture.specs.Columns.{columns_of};
ghost use Rattle.page_picture.specs.Shows.{channels_within};
ghost use Rattle.page_picture.specs.Source.{Fails, bytes_in};
ghost use Rattle.scan_frames.specs.Line.{packing_of};
ghost use Rattle.scan_frames.specs.Frames.{bytes_per_line, format_at};
ghost use Rattle.scan_frames.specs.Inside.{PutsGrays, PutsColors, PutsGrayBits, PutsChannel, ShowsChannel, MakesOfRow, sample_end};
ghost use Rattle.scan_frames.specs.Samples.{HasZeros};
ghost use Rattle.scan_frames.specs.Tables.{AreComposed};

use crate::byte_bits::put_bits_of;
use crate::line::{is_plain, is_same};
use crate::pass::{channel_in, channels_within, format_at};
use crate::setup::{Packing, Setup, packing_of};
use page_picture::{ByteRows, ColumnMap, Mode, SampleBytes, SourceFault};
use sane_fixed::{ByteOrder, FrameFormat};

/// Makes of each byte what a table has for it.
fn apply_table(table: &[u8; 256], line: &mut [u8])
    ensures { (x : ℕ) → x < length line.old
        → slice_index line.new x ≡ slice_index table.now (slice_index line.old x) }
{
    if is_same(table) {
        return;
    }
    for x in 0..line.len() {
        line[x] = table[usize::from(line[x])];
    }
}

/// Puts the places of the next row from `first` on in gray, a byte each, by a table. False where the source has no bytes
/// of them; nothing was done then.
fn put_gray_bytes<S: ByteRows>(
    source: &mut S,
    table: &[u8; 256],
    first: u32,
    line: &mut [u8],
) -> Result<bool, SourceFault>
    requires { first + length line.old ≤ (S.source source.old).page.width }
    ensures put { result ≡ Ok true
        → PutsGrays (S.source source.old) table.now first (S.source source.new) line.new }
    ensures none { result ≡ Ok false → (S.source source.new ≡ S.source source.old)
        × (line.new ≡ line.old) }
    ensures failed { OnErr result (Fails (S.source source.old) (S.source source.new)) }
{
    if !source.next_bytes(Mode::Gray, first, line)? {
        return Ok(false);
    }
    apply_table(table, line);
    Ok(true)
}

/// Puts the places of the next row from `first` on in color, three bytes each.
fn put_color_bytes<S: ByteRows>(
    source: &mut S,
    first: u32,
    line: &mut [u8],
) -> Result<bool, SourceFault>
    requires { 3 * first + length line.old ≤ 3 * (S.source source.old).page.width }
    ensures put { result ≡ Ok true
        → PutsColors (S.source source.old) first (S.source source.new) line.new }
    ensures none { result ≡ Ok false → (S.source source.new ≡ S.source source.old)
        × (line.new ≡ line.old) }
    ensures failed { OnErr result (Fails (S.source source.old) (S.source source.new)) }
{
    source.next_bytes(Mode::Color, first, line)
}

/// Puts `count` places of the next row from `first` on in gray, a bit each, by a table, and zeros behind them. False where
/// the source has no bytes of them; nothing was done then.
fn put_gray_bits<S: ByteRows>(
    source: &mut S,
    table: &[u8; 256],
    first: u32,
    count: usize,
    line: &mut [u8],
) -> Result<bool, SourceFault>
    requires { first + count ≤ (S.source source.old).page.width }
    ensures put { result ≡ Ok true → PutsGrayBits (S.source source.old) table.now first count
        (S.source source.new) line.new }
    ensures none { result ≡ Ok false → (S.source source.new ≡ S.source source.old)
        × (line.new ≡ line.old) }
    ensures failed { OnErr result (Fails (S.source source.old) (S.source source.new)) }
{
    // The limits of a page.
    let _size = source.size();
    let mut room = [0u8; 16384];
    let grays = &mut room[..count];
    if !put_gray_bytes(source, table, first, grays)? {
        return Ok(false);
    }
    put_bits_of(grays, line);
    Ok(true)
}

/// The channel of the page whose bytes a line of a pass of one color shows as they are: at depth 8 if no table changes them, at
/// depth 16 if the upper byte of a sample comes first.
fn channel_shown(setup: &Setup, pass: u32, tables: &[[u8; 256]; 3]) -> Option<(SampleBytes, u32)>
    ensures { IfSome result (λ shown. ShowsChannel setup.now pass tables.now shown.0 shown.1) }
{
    let format = format_at(setup, pass);
    if channels_within(format) != 1 {
        return None;
    }
    let channel = channel_in(format, 0);
    match (setup.scene.mode, packing_of(setup.scene.depth), setup.order) {
        (Mode::Color, Packing::Bytes, _) if is_same(&tables[channel as usize]) => {
            Some((SampleBytes::Upper, channel))
        }
        (Mode::Color, Packing::Words, ByteOrder::Big) => Some((SampleBytes::Both, channel)),
        _ => None,
    }
}

/// Puts the bytes of one channel of `count` places of the next row from `first` on. False where the source has none of them;
/// nothing was done then.
fn put_channel_bytes<S: ByteRows>(
    source: &mut S,
    which: SampleBytes,
    channel: u32,
    first: u32,
    count: usize,
    line: &mut [u8],
) -> Result<bool, SourceFault>
    requires channel { channel < 3 }
    requires within { first + count ≤ (S.source source.old).page.width }
    requires room { bytes_in which * count ≤ length line.old }
    ensures put { result ≡ Ok true → PutsChannel (S.source source.old)
        (record { which = which; channel = channel; first = first }) count
        (S.source source.new) line.new }
    ensures none { result ≡ Ok false → (S.source source.new ≡ S.source source.old)
        × (line.new ≡ line.old) }
    ensures failed { OnErr result (Fails (S.source source.old) (S.source source.new)) }
    ensures behind { (j : ℕ) → bytes_in which * count ≤ j
        → slice_index line.new j ≡ slice_index line.old j }
{
    // The limits of a page.
    let _size = source.size();
    let end = match which {
        SampleBytes::Upper => count,
        SampleBytes::Both => 2 * count,
    };
    source.next_channel(which, channel, first, &mut line[..end])
}

/// Makes a line of the bytes of the next row, if it shows just these: its places lie side by side on the page, and in color no
/// table changes them. Otherwise, or if the source has none, it is false and nothing was done.
pub fn byte_line<S: ByteRows>(
    source: &mut S,
    setup: &Setup,
    pass: u32,
    tables: &[[u8; 256]; 3],
    columns: &ColumnMap,
    line: &mut [u8],
) -> Result<bool, SourceFault>
    requires tables { AreComposed setup.now.scene tables.now }
    requires columns { columns.now ≡ columns_of setup.now.scene
        (S.source source.old).page.width (S.source source.old).page.dpi }
    requires few { columns.now.count ≤ 65536 }
    requires size { length line.old ≡ bytes_per_line setup.now pass }
    requires room { sample_end (packing_of setup.now.scene.depth)
        (channels_within (format_at setup.now pass) * columns.now.count) ≤ length line.old }
    requires zeros { HasZeros (packing_of setup.now.scene.depth)
        (channels_within (format_at setup.now pass) * columns.now.count) line.old }
    ensures zeros { OnOk result (HasZeros (packing_of setup.now.scene.depth)
        (channels_within (format_at setup.now pass) * columns.now.count) line.new) }
    ensures made { result ≡ Ok true
        → MakesOfRow (S.source source.old) setup.now pass (S.source source.new) line.new }
    ensures none { result ≡ Ok false → (S.source source.new ≡ S.source source.old)
        × (line.new ≡ line.old) }
    ensures failed { OnErr result (Fails (S.source source.old) (S.source source.new)) }
{
    let Some(first) = columns.run() else {
        return Ok(false);
    };
    let count = columns.places().len();
    match (
        packing_of(setup.scene.depth),
        setup.scene.mode,
        format_at(setup, pass),
    ) {
        (Packing::Bytes, Mode::Gray, _) => {
            put_gray_bytes(source, &setup.scene.gamma, first, &mut line[..count])
        }
        (Packing::Bytes, Mode::Color, FrameFormat::Rgb) if is_plain(tables) => {
            put_color_bytes(source, first, &mut line[..3 * count])
        }
        (Packing::Bits, Mode::Gray, _) => {
            put_gray_bits(source, &setup.scene.gamma, first, count, line)
        }
        _ => match channel_shown(setup, pass, tables) {
            Some((which, channel)) => {
                put_channel_bytes(source, which, channel, first, count, line)
            }
            None => Ok(false),
        },
    }
}
