ghost use Rattle.std.specs.Prelude.{◌≡◌, ◌≤◌, ◌<◌, ◌*◌, ◌^◌, length, MatchBool};
ghost use Rattle.netpbm.specs.Pnm.{number_in, sample_bytes};
ghost use Rattle.netpbm.specs.Raster.{SomeAbove, NoneAbove, sample_count, raster_size};

use crate::format::{Header, PnmFormat};

/// The number at place `i` of a raster of `count` numbers up to `maxval`: a byte, or two, the more
/// significant first.
pub fn number_at(maxval: u32, raster: &[u8], i: usize, count: usize) -> u32
    requires size { length raster.now ≡ count * sample_bytes maxval }
    requires inside { i < count }
    ensures value { result ≡ number_in maxval raster.now i }
    ensures limit { result < 2 ^ 16 }
{
    if maxval < 256 {
        u32::from(raster[i])
    } else {
        256 * u32::from(raster[2 * i]) + u32::from(raster[2 * i + 1])
    }
}

/// Whether no byte is above the greatest.
fn bytes_fit(maxval: u32, raster: &[u8], count: usize) -> bool
    requires byte { maxval < 256 }
    requires size { length raster.now ≡ count * sample_bytes maxval }
    ensures { MatchBool result
        (NoneAbove maxval raster.now count) (SomeAbove maxval raster.now count) }
{
    // It goes on behind the first that does not fit, so that it takes many bytes at once.
    let most = maxval as u8;
    let mut fit = true;
    for i in 0..raster.len() {
        fit &= raster[i] <= most;
    }
    fit
}

/// Whether no number of two bytes is above the greatest.
fn words_fit(maxval: u32, raster: &[u8], count: usize) -> bool
    requires two { 256 ≤ maxval }
    requires most { maxval < 65536 }
    requires size { length raster.now ≡ count * sample_bytes maxval }
    ensures { MatchBool result
        (NoneAbove maxval raster.now count) (SomeAbove maxval raster.now count) }
{
    let most = maxval as u16;
    let mut fit = true;
    for i in 0..raster.len() / 2 {
        let number = 256 * u16::from(raster[2 * i]) + u16::from(raster[2 * i + 1]);
        fit &= number <= most;
    }
    fit
}

/// Whether no number of the raster is above the greatest.
pub fn none_above(maxval: u32, raster: &[u8], count: usize) -> bool
    requires { length raster.now ≡ count * sample_bytes maxval }
    ensures { MatchBool result
        (NoneAbove maxval raster.now count) (SomeAbove maxval raster.now count) }
{
    // No byte is above 255, and no two bytes are above 65,535.
    match maxval {
        255 | 65535.. => true,
        0..=254 => bytes_fit(maxval, raster, count),
        _ => words_fit(maxval, raster, count),
    }
}

/// How many samples a header of grays or colors tells of.
pub fn sample_count(header: &Header) -> usize
    requires width { header.now.width ≤ 65536 }
    requires height { header.now.height ≤ 65536 }
    ensures { result ≡ sample_count header.now }
{
    let places = header.width as usize * header.height as usize;
    match header.format {
        PnmFormat::Pbm | PnmFormat::Pgm => places,
        PnmFormat::Ppm => places * 3,
    }
}

/// How many bytes the raster has after a header.
pub fn raster_size(header: &Header) -> usize
    requires width { header.now.width ≤ 65536 }
    requires height { header.now.height ≤ 65536 }
    ensures { result ≡ raster_size header.now }
{
    let width = header.width as usize;
    let height = header.height as usize;
    let bytes = if header.maxval < 256 { 1 } else { 2 };
    match header.format {
        PnmFormat::Pbm => width.div_ceil(8) * height,
        PnmFormat::Pgm => width * height * bytes,
        PnmFormat::Ppm => width * height * 3 * bytes,
    }
}
