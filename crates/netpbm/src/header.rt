ghost use Rattle.std.specs.Prelude.{◌≡◌, ◌≤◌, option_map, false, IfSome, IfNone, List, ℕ};
ghost use Rattle.netpbm.specs.Pnm.{is_white, ends_comment, Begins};
ghost use Rattle.netpbm.specs.declared.format.Header.{Header};
ghost use Rattle.netpbm.specs.HeaderReading.{format_of, after_filler, number_at, field_at, end_at, maxval_at, header_at};

use crate::format::{Header, PnmFormat};
use sane_fixed::{digit_count, value_of_digits};

/// Whether a byte is white space: space, tab, line feed, carriage return, vertical tab or form feed.
pub fn is_white(b: u8) -> bool
    ensures { result ≡ is_white b }
{
    b == b' ' || b == b'\t' || b == b'\n' || b == b'\r' || b == 11 || b == 12
}

/// Whether a byte ends a comment: line feed or carriage return.
pub fn ends_comment(b: u8) -> bool
    ensures { result ≡ ends_comment b }
{
    b == b'\n' || b == b'\r'
}

/// The format that the first two bytes tell.
pub fn format_of(text: &[u8]) -> Option<PnmFormat>
    ensures { result ≡ format_of text.now }
{
    match text {
        [b'P', b'4', ..] => Some(PnmFormat::Pbm),
        [b'P', b'5', ..] => Some(PnmFormat::Pgm),
        [b'P', b'6', ..] => Some(PnmFormat::Ppm),
        _ => None,
    }
}

/// What follows the white space and the comments at the front.
fn after_filler(bytes: &[u8]) -> &[u8]
    ensures { result.now ≡ after_filler false bytes.now }
{
    let mut in_comment = false;
    for (i, b) in bytes.iter().enumerate() {
        if in_comment {
            in_comment = !ends_comment(*b);
        } else if !is_white(*b) {
            if *b != b'#' {
                return &bytes[i..];
            }
            in_comment = true;
        }
    }
    &[]
}

/// A number of 1 to 10 digits at the front, and what follows it.
#[tactic(auto, unfolding(crate::specs::HeaderReading::number_at))]
fn number(bytes: &[u8]) -> Option<(u64, &[u8])>
    ensures { option_map (λ f. (f.0, f.1.now)) result ≡ number_at bytes.now }
{
    let count = digit_count(bytes);
    if 1 <= count && count <= 10 {
        let (digits, rest) = bytes.split_at(count);
        Some((value_of_digits(digits), rest))
    } else {
        None
    }
}

/// A gap and a number at the front, and what follows them.
#[tactic(auto, unfolding(crate::specs::HeaderReading::field_at))]
fn field(bytes: &[u8]) -> Option<(u64, &[u8])>
    ensures { option_map (λ f. (f.0, f.1.now)) result ≡ field_at bytes.now }
{
    match bytes {
        [b, rest @ ..] if is_white(*b) => number(after_filler(rest)),
        _ => None,
    }
}

/// The greatest value at the front, and what follows it.
#[tactic(auto, unfolding(crate::specs::HeaderReading::maxval_at))]
fn maxval(format: PnmFormat, bytes: &[u8]) -> Option<(u64, &[u8])>
    ensures { option_map (λ f. (f.0, f.1.now)) result ≡ maxval_at format bytes.now }
{
    match format {
        PnmFormat::Pbm => Some((1, bytes)),
        PnmFormat::Pgm | PnmFormat::Ppm => field(bytes),
    }
}

/// What follows the white space byte that ends a header.
#[tactic(auto, unfolding(crate::specs::HeaderReading::end_at))]
fn after_end(bytes: &[u8]) -> Option<&[u8]>
    ensures { option_map (λ rest. rest.now) result ≡ end_at bytes.now }
{
    match bytes {
        [b, rest @ ..] if is_white(*b) => Some(rest),
        _ => None,
    }
}

/// The header at the front, and the bytes after it.
#[tactic(auto, unfolding(crate::specs::HeaderReading::header_at))]
fn header(text: &[u8]) -> Option<(Header, &[u8])>
    ensures { option_map (λ f. (f.0, f.1.now)) result ≡ header_at text.now }
{
    let format = format_of(text)?;
    let (width, rest) = field(&text[2..])?;
    let (height, rest) = field(rest)?;
    let (maxval, rest) = maxval(format, rest)?;
    let raster = after_end(rest)?;
    if 1 <= width
        && width <= 65536
        && 1 <= height
        && height <= 65536
        && 1 <= maxval
        && maxval <= 65535
    {
        let header = Header {
            format,
            width: width as u32,
            height: height as u32,
            maxval: maxval as u32,
        };
        Some((header, raster))
    } else {
        None
    }
}

/// The header that a text begins with, and the bytes after it; `None` where it begins with none.
pub fn read_header(text: &[u8]) -> Option<(Header, &[u8])>
    /// `read_header` finds the header of the grammar, comments and all, and `None` exactly where there is none.
    ensures found { IfSome result (λ f. Begins text.now f.0 f.1.now) }
    ensures none { IfNone result ((h : Header) (raster : List ℕ) → Begins text.now h raster → ⊥) }
    // The same as a computation, for proofs that go on from it.
    ensures value { option_map (λ f. (f.0, f.1.now)) result ≡ header_at text.now }
{
    header(text)
}
