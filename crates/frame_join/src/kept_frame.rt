ghost use Rattle.std.specs.Prelude.{◌≡◌, ◌<◌, ◌/◌, true, Some};
ghost use Rattle.frame_join.specs.AloneFrame.{ShapeParts};
ghost use Rattle.frame_join.specs.KeptFrame.{is_unknown, is_open_ended, color_number, is_pass, is_pass_that, same_order, is_alike};
ghost use Rattle.frame_join.specs.ColorPlanes.{all_colors};
ghost use Rattle.frame_join.specs.FrameHistory.{is_full_at};
ghost use Rattle.frame_join.specs.Pixels.{is_kept, pixel_params};

use crate::alone_frame::{is_alone_format, is_known, is_shaped, is_side, lines_in, row_size};
use sane_fixed::{ByteOrder, FrameFormat, Params};

pub(crate) fn is_unknown(lines: Option<u32>) -> bool
    ensures { result ≡ is_unknown lines }
{
    match lines {
        Some(_) => false,
        None => true,
    }
}

/// Whether a frame of these parameters is a picture whose height its end tells.
pub(crate) fn is_open_ended(params: &Params) -> bool
    ensures { result ≡ is_open_ended params.now }
{
    is_alone_format(params.format)
        && (params.last_frame && (is_unknown(params.lines) && is_shaped(params)))
}

/// The number of a color; 3 for what is none.
pub(crate) fn color_number(format: FrameFormat) -> u32
    ensures { result ≡ color_number format }
{
    match format {
        FrameFormat::Gray | FrameFormat::Rgb => 3,
        FrameFormat::Red => 0,
        FrameFormat::Green => 1,
        FrameFormat::Blue => 2,
    }
}

/// Whether a frame of these parameters is one color of a picture of known height.
fn is_pass(params: &Params) -> bool
    ensures { result ≡ is_pass params.now }
{
    !is_alone_format(params.format) && (is_known(params.lines) && is_shaped(params))
}

/// Whether frames of these parameters are kept until the picture is whole.
pub(crate) fn is_kept(params: &Params) -> bool
    ensures { result ≡ is_kept params.now }
{
    is_open_ended(params) || is_pass(params)
}

/// The parameters of what is kept of a frame: of a line just the bytes that show pixels.
pub(crate) fn pixel_params(params: &Params) -> Params
    ensures { result ≡ pixel_params params.now }
{
    if !is_kept(params) {
        return *params;
    }
    Params {
        bytes_per_line: row_size(params) as u32,
        ..*params
    }
}

/// The same, and whether it is the last of the picture's frames or not.
pub(crate) fn is_pass_that(last: bool, params: &Params) -> bool
    ensures { result ≡ is_pass_that last params.now }
{
    is_pass(params)
        && if last {
            params.last_frame
        } else {
            !params.last_frame
        }
}

fn same_order(order: ByteOrder, other: ByteOrder) -> bool
    ensures { result ≡ same_order order other }
{
    match (order, other) {
        (ByteOrder::Little, ByteOrder::Little) | (ByteOrder::Big, ByteOrder::Big) => true,
        (ByteOrder::Little, ByteOrder::Big) | (ByteOrder::Big, ByteOrder::Little) => false,
    }
}

/// Whether two frames have one width, one number of lines, one depth and one byte order.
pub(crate) fn is_alike(p: &Params, order: ByteOrder, q: &Params, other: ByteOrder) -> bool
    ensures { result ≡ is_alike p.now order q.now other }
{
    p.pixels_per_line == q.pixels_per_line
        && (lines_in(p.lines) == lines_in(q.lines)
            && (p.depth == q.depth && same_order(order, other)))
}

/// Whether so many bytes are all lines of a frame.
pub(crate) fn is_full(params: &Params, size: usize) -> bool
    requires { 0 < params.now.bytes_per_line }
    ensures { result ≡ is_full_at params.now.lines params.now.bytes_per_line size }
{
    let line = params.bytes_per_line as usize;
    match params.lines {
        Some(lines) => size == lines as usize * line,
        None => {
            let lines = size / line;
            1 <= lines && lines <= 65536 && size == lines * line
        }
    }
}

/// The parameters of a frame whose height is told by its bytes.
pub(crate) fn with_known_height(params: &Params, size: usize) -> Params
    requires some { 0 < params.now.bytes_per_line }
    requires most { is_full_at params.now.lines params.now.bytes_per_line size ≡ true }
    requires unknown { is_unknown params.now.lines ≡ true }
    ensures { result ≡ record params.now { lines = Some (size / params.now.bytes_per_line) } }
{
    Params {
        lines: Some((size / params.bytes_per_line as usize) as u32),
        ..*params
    }
}

/// The parameters of a frame of all three colors, in the place of one of a color.
pub(crate) fn all_colors(params: &Params) -> Params
    requires { ShapeParts params.now }
    ensures { result ≡ all_colors params.now }
{
    let colors = Params {
        format: FrameFormat::Rgb,
        last_frame: true,
        ..*params
    };
    Params {
        bytes_per_line: row_size(&colors) as u32,
        ..colors
    }
}
