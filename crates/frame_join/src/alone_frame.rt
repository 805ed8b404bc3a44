ghost use Rattle.std.specs.Prelude.{ℕ, ◌≡◌, ◌≤◌, ◌<◌, ◌+◌, ◌*◌, ◌%◌, true, length, slice_index};
ghost use Rattle.frame_join.specs.AloneFrame.{is_shaped, is_depth, is_alone, is_alone_format, is_known, lines_in, most_lines, row_bytes, AloneParts};
ghost use Rattle.frame_join.specs.FrameFile.{place_in, trimmed_byte, header_alone};
ghost use Rattle.page_picture.specs.Extent.{is_side};

use netpbm::{Header, PnmFormat};
use page_picture::greatest;
use sane_fixed::{ByteOrder, FrameFormat, Params};

/// How many bytes the samples of a row have.
pub(crate) fn row_size(params: &Params) -> usize
    requires width { params.now.pixels_per_line ≤ 65536 }
    requires depth { params.now.depth ≤ 16 }
    ensures value { result ≡ row_bytes params.now }
{
    let width = params.pixels_per_line as usize;
    if params.depth == 1 {
        return width.div_ceil(8);
    }
    let channels = match params.format {
        FrameFormat::Rgb => 3,
        FrameFormat::Gray | FrameFormat::Red | FrameFormat::Green | FrameFormat::Blue => 1,
    };
    width * channels * (params.depth as usize / 8)
}

/// Where a byte of a row of the file stands in the frame's line.
pub(crate) fn place_in(order: ByteOrder, depth: u32, column: usize) -> usize
    requires { column < 1048576 }
    ensures { result ≡ place_in order depth column }
{
    match order {
        ByteOrder::Big => column,
        ByteOrder::Little if depth != 16 => column,
        ByteOrder::Little if column % 2 == 0 => column + 1,
        ByteOrder::Little => column - 1,
    }
}

/// Puts the bytes of a row of two bytes a sample, the less significant first, as they stand in the file from column
/// `from` on.
pub(crate) fn put_turned(row: &[u8], from: usize, buf: &mut [u8])
    requires even { length row.now % 2 ≡ 0 }
    requires few { length row.now ≤ 1048576 }
    requires place { from + length buf.old ≤ length row.now }
    ensures { (i : ℕ) → i < length buf.old
        → slice_index buf.new i ≡ slice_index row.now (place_in ByteOrder.Little 16 (from + i)) }
{
    if buf.is_empty() {
        return;
    }
    let first = from % 2;
    if first == 1 {
        buf[0] = row[from - 1];
    }
    let pairs = (buf.len() - first) / 2;
    for k in 0..pairs {
        let i = first + 2 * k;
        buf[i] = row[from + i + 1];
        buf[i + 1] = row[from + i];
    }
    let last = first + 2 * pairs;
    if last < buf.len() {
        buf[last] = row[from + last + 1];
    }
}

/// The byte without the bits past the row's end.
pub(crate) fn trimmed_byte(width: u32, depth: u32, column: usize, byte: u8) -> u8
    requires column { column < 1048576 }
    requires inside { depth ≡ 1 → 8 * column < width }
    ensures { result ≡ trimmed_byte width depth column byte }
{
    if depth != 1 {
        return byte;
    }
    let past = (8 * (column + 1)).saturating_sub(width as usize);
    byte >> past << past
}

/// Puts the bytes of a row of bits from column `from` on, without the bits past the row's end.
pub(crate) fn put_trimmed(row: &[u8], width: u32, from: usize, buf: &mut [u8])
    requires few { length row.now ≤ 1048576 }
    requires inside { 8 * length row.now < width + 8 }
    requires place { from + length buf.old ≤ length row.now }
    ensures { (i : ℕ) → i < length buf.old
        → slice_index buf.new i ≡ trimmed_byte width 1 (from + i) (slice_index row.now (from + i)) }
{
    for i in 0..buf.len() {
        buf[i] = trimmed_byte(width, 1, from + i, row[from + i]);
    }
}

/// The depths of a frame; rows of bits are gray.
fn is_depth(format: FrameFormat, depth: u32) -> bool
    ensures { result ≡ is_depth format depth }
{
    match format {
        FrameFormat::Gray => depth == 1 || (depth == 8 || depth == 16),
        FrameFormat::Rgb | FrameFormat::Red | FrameFormat::Green | FrameFormat::Blue => {
            depth == 8 || depth == 16
        }
    }
}

pub(crate) fn is_side(n: u32) -> bool
    ensures { result ≡ is_side n }
{
    1 <= n && n <= 65536
}

/// Whether the depth and the width are admitted, and a line has room for its samples.
pub(crate) fn is_shaped(params: &Params) -> bool
    ensures { result ≡ is_shaped params.now }
{
    is_depth(params.format, params.depth)
        && (is_side(params.pixels_per_line)
            && (row_size(params) <= params.bytes_per_line as usize
                && params.bytes_per_line <= 1048576))
}

pub(crate) fn is_alone_format(format: FrameFormat) -> bool
    ensures { result ≡ is_alone_format format }
{
    match format {
        FrameFormat::Gray | FrameFormat::Rgb => true,
        FrameFormat::Red | FrameFormat::Green | FrameFormat::Blue => false,
    }
}

pub(crate) fn is_known(lines: Option<u32>) -> bool
    ensures { result ≡ is_known lines }
{
    match lines {
        Some(lines) => is_side(lines),
        None => false,
    }
}

/// Whether a frame of these parameters is a picture of known height.
#[tactic(auto, using(crate::proofs::FrameLaws::alone_parts))]
pub(crate) fn is_alone(params: &Params) -> bool
    ensures value { result ≡ is_alone params.now }
    ensures parts { result ≡ true → AloneParts params.now }
{
    is_alone_format(params.format)
        && (params.last_frame && (is_known(params.lines) && is_shaped(params)))
}

/// The most lines that a frame may have.
pub(crate) fn most_lines(lines: Option<u32>) -> u32
    ensures { result ≡ most_lines lines }
{
    match lines {
        Some(lines) => lines,
        None => 65536,
    }
}

/// The number of lines; 0 where it is not known.
pub(crate) fn lines_in(lines: Option<u32>) -> u32
    ensures { result ≡ lines_in lines }
{
    match lines {
        Some(lines) => lines,
        None => 0,
    }
}

/// The header of the file of a frame.
pub(crate) fn header_alone(params: &Params) -> Header
    ensures { result ≡ header_alone params.now }
{
    let format = match params.format {
        FrameFormat::Rgb => PnmFormat::Ppm,
        FrameFormat::Gray if params.depth == 1 => PnmFormat::Pbm,
        FrameFormat::Gray | FrameFormat::Red | FrameFormat::Green | FrameFormat::Blue => {
            PnmFormat::Pgm
        }
    };
    Header {
        format,
        width: params.pixels_per_line,
        height: lines_in(params.lines),
        maxval: greatest(params.depth),
    }
}
