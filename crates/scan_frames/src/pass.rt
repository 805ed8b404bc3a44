//! What the frame of a pass is, before its bytes.

ghost use Rattle.std.specs.Prelude.{◌≡◌, ◌≤◌, ◌<◌, is_some, IfSome};
ghost use Rattle.page_picture.specs.Shows.{channels_within};
ghost use Rattle.scan_frames.specs.Frames.{IsSetup, takes_colors, last_pass, nth_color, color_at, format_at, channel_in, bytes_per_line, width_of, height_of, has_picture, lines_in_params, params_at, params_without};

use crate::setup::{Packing, PassOrder, Setup, packing_of};
use page_picture::{DeviceKind, Mode, PageSource, extent_at};
use sane_fixed::{FrameFormat, Params};

/// Whether the colors are taken one by one, in three passes.
fn takes_colors(kind: DeviceKind, mode: Mode) -> bool
    ensures { result ≡ takes_colors kind mode }
{
    match kind {
        DeviceKind::Flatbed | DeviceKind::Hand | DeviceKind::Feeder => false,
        DeviceKind::ThreePass => match mode {
            Mode::Gray => false,
            Mode::Color => true,
        },
    }
}

/// The number of the last pass, from 0: a three-pass scanner takes three in color, all else is one.
pub fn last_pass(setup: &Setup) -> u32
    ensures { result ≡ last_pass setup.now }
{
    let three = takes_colors(setup.scene.kind, setup.scene.mode);
    if three { 2 } else { 0 }
}

/// The first, second or third of three.
fn nth_color(first: FrameFormat, second: FrameFormat, third: FrameFormat, pass: u32) -> FrameFormat
    ensures { result ≡ nth_color first second third pass }
{
    match pass {
        0 => first,
        1 => second,
        _ => third,
    }
}

/// The color of a pass.
fn color_at(order: PassOrder, pass: u32) -> FrameFormat
    ensures { result ≡ color_at order pass }
{
    let (red, green, blue) = (FrameFormat::Red, FrameFormat::Green, FrameFormat::Blue);
    match order {
        PassOrder::Rgb => nth_color(red, green, blue, pass),
        PassOrder::Rbg => nth_color(red, blue, green, pass),
        PassOrder::Gbr => nth_color(green, blue, red, pass),
        PassOrder::Grb => nth_color(green, red, blue, pass),
        PassOrder::Brg => nth_color(blue, red, green, pass),
        PassOrder::Bgr => nth_color(blue, green, red, pass),
    }
}

/// The format of a pass's frame.
pub fn format_at(setup: &Setup, pass: u32) -> FrameFormat
    ensures { result ≡ format_at setup.now pass }
{
    if takes_colors(setup.scene.kind, setup.scene.mode) {
        return color_at(setup.passes, pass);
    }
    match setup.scene.mode {
        Mode::Gray => FrameFormat::Gray,
        Mode::Color => FrameFormat::Rgb,
    }
}

/// The channels that stand side by side in a frame of the format.
pub fn channels_within(format: FrameFormat) -> u32
    ensures { result ≡ channels_within format }
{
    match format {
        FrameFormat::Rgb => 3,
        FrameFormat::Gray | FrameFormat::Red | FrameFormat::Green | FrameFormat::Blue => 1,
    }
}

/// The picture's channel that stands as number `k` in a frame of the format.
pub fn channel_in(format: FrameFormat, k: u32) -> u32
    requires { k < channels_within format }
    ensures value { result ≡ channel_in format k }
    ensures limit { result < 3 }
{
    match format {
        FrameFormat::Gray | FrameFormat::Rgb => k,
        FrameFormat::Red => 0,
        FrameFormat::Green => 1,
        FrameFormat::Blue => 2,
    }
}

/// The bytes of a line of a pass's frame.
pub fn bytes_per_line(setup: &Setup, pass: u32) -> usize
    requires known { setup.now.scene.resolution ≤ 1200 }
    requires loss { setup.now.loss ≤ 64 }
    ensures { result ≡ bytes_per_line setup.now pass }
{
    let pixels = setup.scene.across() as usize + setup.loss as usize;
    let channels = channels_within(format_at(setup, pass)) as usize;
    match packing_of(setup.scene.depth) {
        Packing::Bits => (pixels + 7) / 8,
        Packing::Bytes => channels * pixels,
        Packing::Words => 2 * (channels * pixels),
    }
}

/// The sides of the picture on the page of a source, 1 to 65,536 each; `None` where there is no picture.
pub fn sides<S: PageSource>(source: &S, setup: &Setup) -> Option<(u32, u32)>
    requires { setup.now.scene.resolution ≤ 1200 }
    ensures some { is_some result ≡ has_picture setup.now (S.source source.now).page }
    ensures value { IfSome result (λ size. size
        ≡ (width_of setup.now, height_of setup.now (S.source source.now).page)) }
{
    let (_, height) = source.size();
    extent_at(height, source.dpi(), &setup.scene)
}

/// Whether the options mean a picture on the page of a source.
pub fn has_picture<S: PageSource>(source: &S, setup: &Setup) -> bool
    requires { setup.now.scene.resolution ≤ 1200 }
    ensures { result ≡ has_picture setup.now (S.source source.now).page }
{
    sides(source, setup).is_some()
}

/// What is told of the frame of a pass (SANE Standard 1.06, "sane_get_parameters"): 0 pixels, lines and bytes where
/// there is no picture.
pub fn params<S: PageSource>(source: &S, setup: &Setup, pass: u32) -> Params
    requires { IsSetup setup.now }
    /// A pass is told as the definition has it, with 0 for pixels, lines and bytes if there is no picture.
    /// Carried by: `params`, `params_without`, `has_picture`
    ensures { result ≡ params_at setup.now (S.source source.now).page pass }
{
    let last_frame = last_pass(setup) == pass;
    match sides(source, setup) {
        Some((width, height)) => {
            Params {
                format: format_at(setup, pass),
                last_frame,
                bytes_per_line: bytes_per_line(setup, pass) as u32,
                pixels_per_line: width,
                lines: lines_in_params(setup.scene.kind, height),
                depth: setup.scene.depth,
            }
        }
        None => params_without(setup, pass),
    }
}

/// What is told of the frame of a pass where there is no picture: 0 pixels, lines and bytes.
pub fn params_without(setup: &Setup, pass: u32) -> Params
    ensures { result ≡ params_without setup.now pass }
{
    Params {
        format: format_at(setup, pass),
        last_frame: last_pass(setup) == pass,
        bytes_per_line: 0,
        pixels_per_line: 0,
        lines: Some(0),
        depth: setup.scene.depth,
    }
}

/// The lines that are told before the end: a hand scanner does not know them.
fn lines_in_params(kind: DeviceKind, lines: u32) -> Option<u32>
    ensures { result ≡ lines_in_params kind lines }
{
    match kind {
        DeviceKind::Flatbed | DeviceKind::ThreePass | DeviceKind::Feeder => Some(lines),
        DeviceKind::Hand => None,
    }
}
