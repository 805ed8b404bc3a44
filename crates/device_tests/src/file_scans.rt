//! A page in a file is scanned as the same page in memory, though its bytes go into the lines as they stand where they can.

use crate::calls::{BR_X, BR_Y, DEPTH, Fill, MM, MODE, Plain, RESOLUTION, read_all, set};
use config_pages::{HostInputs, page_source};
use device_api::Device;
use page_sources::Source;
use sane_fixed::{ByteOrder, Status};
use std::alloc::Global;
use std::fs;
use std::test::Fail;
use testing::{flatbed, source, three_pass};

/// The number of the option `tl-x`.
const TL_X: u32 = 4;

/// A mode, a depth and a gamma table; a three-pass scanner takes 8 for a depth of 1.
const SETTINGS: &[(&[u8], i32, Fill)] = &[
    (b"Gray", 1, Fill::Places),
    (b"Gray", 1, Fill::Inverted),
    (b"Gray", 8, Fill::Places),
    (b"Gray", 8, Fill::Inverted),
    (b"Gray", 16, Fill::Places),
    (b"Color", 8, Fill::Places),
    (b"Color", 16, Fill::Places),
];

/// A kind of page file, its greatest value, the bytes of a dot, and the greatest upper byte of a sample in it.
const KINDS: &[(&str, u32, usize, usize)] = &[
    ("P5", 255, 1, 255),
    ("P5", 1000, 2, 2),
    ("P6", 255, 3, 255),
    ("P6", 65535, 6, 255),
];

/// Widths about those of eights and sixteens of dots.
const WIDTHS: &[i32] = &[2, 7, 8, 9, 15, 16, 17, 18, 33, 50];

/// A page file of two rows of noise.
fn file(
    alloc: Global,
    (kind, maxval, size, most): (&str, u32, usize, usize),
    width: i32,
) -> Result<Vec<u8>, Fail> {
    let head = format!(in alloc; "{kind}\n{width} 2\n{maxval}\n")?;
    let mut text = Vec::from_slice(alloc, head.as_bytes())?;
    let count = size
        .saturating_mul(2)
        .saturating_mul(usize::try_from(width)?);
    for i in 0..count {
        let noise = i.wrapping_mul(40503) / 16 % 256;
        let byte = if i % 2 == 0 { noise.min(most) } else { noise };
        text.push((byte % 256) as u8)?;
    }
    Ok(text)
}

/// What the frames of a scan give, at 26 dots per inch, where a mm is one dot: two lines up to so many mm, the first dot left
/// out where that is an even number.
fn picture<D: Device>(
    alloc: Global,
    device: &mut D,
    width: i32,
    table: u32,
    (mode, depth, fill): (&'static [u8], i32, Fill),
) -> Option<Vec<u8>> {
    device.reset();
    let left = if width % 2 == 0 { MM } else { 0 };
    for (n, asked) in [
        (RESOLUTION, Plain::Int(26)),
        (TL_X, Plain::Fixed(left)),
        (BR_X, Plain::Fixed(width.saturating_mul(MM))),
        (BR_Y, Plain::Fixed(2 * MM)),
        (MODE, Plain::Text(mode)),
        (table, Plain::Table(fill, 256)),
        (DEPTH, Plain::Int(depth)),
    ] {
        set(alloc, device, n, asked)?.ok()?;
    }
    let mut all = Vec::new(alloc);
    for _pass in 0..3u32 {
        device.start(alloc).ok()?;
        let (bytes, _, status) = read_all(alloc, device)?;
        all.extend_from_slice(&bytes).ok()?;
        if device.at_rest() {
            return if status == Status::Eof {
                Some(all)
            } else {
                None
            };
        }
    }
    None
}

/// Whether two scanners of a kind give the same pictures; their gamma table has that number.
fn are_alike<D: Device>(
    alloc: Global,
    one: Option<D>,
    other: Option<D>,
    width: i32,
    table: u32,
) -> Option<bool> {
    let (Some(mut one), Some(mut other)) = (one, other) else {
        return None;
    };
    for setting in SETTINGS {
        let wanted = picture(alloc, &mut one, width, table, *setting)?;
        if picture(alloc, &mut other, width, table, *setting)? != wanted {
            return Some(false);
        }
    }
    Some(true)
}

/// Whether scanners of a page in a file do as those of the same page in memory.
fn are_scanned_alike(
    alloc: Global,
    in_file: (Source, Source),
    in_memory: (Source, Source),
    width: i32,
) -> bool {
    let order = ByteOrder::Big;
    let one = flatbed(alloc, b"a", in_file.0, order);
    let other = flatbed(alloc, b"a", in_memory.0, order);
    let are_flatbeds = are_alike(alloc, one, other, width, 8);
    let one = three_pass(alloc, b"a", in_file.1, order);
    let other = three_pass(alloc, b"a", in_memory.1, order);
    let are_passes = are_alike(alloc, one, other, width, 9);
    are_flatbeds == Some(true) && are_passes == Some(true)
}

#[test]
fn pages_in_files(rt: HostRuntime) -> Result<(), Fail> {
    let mut inputs = HostInputs { rt: &rt };
    for &kind in KINDS {
        for &width in WIDTHS {
            let text = file(rt.alloc(), kind, width)?;
            fs::write(&rt, "page.pnm", &text)?;
            let one = page_source(rt.alloc(), &mut inputs, b"page.pnm", 26)
                .ok()
                .expect(&rt, "a page");
            let other = page_source(rt.alloc(), &mut inputs, b"page.pnm", 26)
                .ok()
                .expect(&rt, "a page");
            let same = source(rt.alloc(), &text, 26).expect(&rt, "a page");
            let again = source(rt.alloc(), &text, 26).expect(&rt, "a page");
            let alike = are_scanned_alike(rt.alloc(), (one, other), (same, again), width);
            assert!(rt; alike, "{width} dots");
        }
    }
    Ok(())
}
