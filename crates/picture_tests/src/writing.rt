ghost use Rattle.std.specs.Prelude.{◌≡◌};

use page_picture::{DeviceKind, Mode, Scene};
use page_sources::read_page;
use pnm_writer::{PlainFault, PnmFault, read_pnm, scan_plain};
use sane_fixed::Fixed;
use std::alloc::{AllocError, Global};
use std::test::Fail;

/// A file of the writer: its first line, and what follows the comment.
pub fn written(alloc: Global, kind: &[u8], rest: &[u8]) -> Result<Vec<u8>, AllocError> {
    let mut file = Vec::from_slice(alloc, kind)?;
    file.extend_from_slice(b"\n# SANE data follows\n")?;
    file.extend_from_slice(rest)?;
    Ok(file)
}

fn mm(n: i32) -> Fixed {
    Fixed(n.saturating_mul(65536))
}

/// A flatbed's scene with a window from the upper edge: its left, right and lower edge.
fn scene(mode: Mode, depth: u32, resolution: u32, window: (i32, i32, i32)) -> Scene
    ensures { result.resolution ≡ resolution }
{
    let (left, right, lower) = window;
    let mut gamma = [0u8; 256];
    for i in 0..256 {
        gamma[i] = i as u8;
    }
    Scene {
        kind: DeviceKind::Flatbed,
        mode,
        depth,
        resolution,
        tl_x: mm(left),
        tl_y: mm(0),
        br_x: mm(right),
        br_y: mm(lower),
        gamma,
        channel_gamma: [gamma; 3],
    }
}

#[test]
fn white_margin_beyond_the_page(rt: HostRuntime) -> Result<(), Fail> {
    let page = read_page(rt.alloc(), BLACK, 50)?;
    let file = scan_plain(rt.alloc(), &page, &scene(Mode::Gray, 8, 50, (0, 80, 100)))?;
    let mut wanted = written(rt.alloc(), b"P5", b"157 196\n255\n\x00")?;
    for _ in 0..30_771 {
        wanted.push(255)?;
    }
    assert!(rt; file == wanted);
    Ok(())
}

const BLACK: &[u8] = b"P5\n1 1\n255\n\x00";

const THREE: &[u8] = b"P5\n3 1\n255\n\x01\x02\x03";

const RED: &[u8] = b"P6\n1 1\n255\n\xFF\x00\x00";

/// A page, a mode, a depth, a window's left and right edge, and the file.
const SCANS: &[(&[u8], Mode, u32, i32, i32, &[u8], &[u8])] = &[
    (BLACK, Mode::Gray, 8, 0, 2, b"P5", b"2 1\n255\n\x00\xFF"),
    (BLACK, Mode::Gray, 1, 0, 2, b"P4", b"2 1\n\x80"),
    (THREE, Mode::Gray, 8, 1, 3, b"P5", b"2 1\n255\n\x02\x03"),
    (RED, Mode::Gray, 8, 0, 1, b"P5", b"1 1\n255\n\x4C"),
    (RED, Mode::Gray, 16, 0, 1, b"P5", b"1 1\n65535\n\x4C\x8A"),
    (RED, Mode::Gray, 1, 0, 1, b"P4", b"1 1\n\x80"),
    (RED, Mode::Color, 8, 0, 1, b"P6", b"1 1\n255\n\xFF\0\0"),
];

#[test]
fn scans_of_a_line(rt: HostRuntime) -> Result<(), Fail> {
    for &(page, mode, depth, left, right, kind, rest) in SCANS {
        let page = read_page(rt.alloc(), page, 26)?;
        let file = scan_plain(rt.alloc(), &page, &scene(mode, depth, 26, (left, right, 1)))?;
        assert!(rt; file == written(rt.alloc(), kind, rest)?);
    }
    let page = read_page(rt.alloc(), RED, 26)?;
    let none = scan_plain(rt.alloc(), &page, &scene(Mode::Color, 1, 26, (0, 1, 1)));
    assert!(rt; none.err() == Some(PlainFault::NoPicture));
    Ok(())
}

/// Texts, and why they are no picture.
const REFUSED: &[(&[u8], PnmFault)] = &[
    // The file of one gray sample without its last byte, and with one more.
    (b"P5\n# SANE data follows\n1 1\n255\n", PnmFault::Short),
    (
        b"P5\n# SANE data follows\n1 1\n255\n\x0A\x00",
        PnmFault::Trailing,
    ),
    (b"P5\n0 1\n255\n", PnmFault::BadHeader),
    (b"P5\n1 1\n10\n\x0B", PnmFault::SampleTooLarge),
    (b"P5\n1 1\n300\n\x01\x2D", PnmFault::SampleTooLarge),
    // The first fault in the order of the tests.
    (b"P5\n2 1\n10\n\x0B", PnmFault::Short),
    (b"P5\n1 1\n10\n\x0B\x0B", PnmFault::Trailing),
    (b"", PnmFault::BadMagic),
    (b"P3\n1 1\n255\n0", PnmFault::BadMagic),
    (b"P4", PnmFault::BadHeader),
    (b"P5\n1 1\n255", PnmFault::BadHeader),
    (b"P5\n1 65537\n255\n\x00", PnmFault::BadHeader),
    (b"P5\n1 1\n0\n\x00", PnmFault::BadHeader),
    (b"P5\n1 1\n65536\n\x00\x00", PnmFault::BadHeader),
    (b"P5\n1 00000000001\n255\n\x00", PnmFault::BadHeader),
    // A comment stands behind white space alone, and ends.
    (b"P5\n1# no gap\n 1\n255\n\x00", PnmFault::BadHeader),
    (b"P5#\n1 1 255\n\x00", PnmFault::BadHeader),
    (b"P5\n1 1\n#never ended", PnmFault::BadHeader),
    (b"P4\n9 2\n\x80\x80\x00", PnmFault::Short),
    (b"P6\n1 1\n255\n\x00\x00\x00\x00", PnmFault::Trailing),
];

/// A text, and its picture's width, height, channels, greatest value and samples.
const PICTURES: &[(&[u8], (u32, u32, u32, u32), &[u16])] = &[
    // Nine bits a row: two bytes, filled with bits that are no part of the picture.
    (
        b"P4\n9 2\n\x80\xFF\x41\x7F",
        (9, 2, 1, 1),
        &[1, 0, 0, 0, 0, 0, 0, 0, 1, 0, 1, 0, 0, 0, 0, 0, 1, 0],
    ),
    (
        b"P6\n3 1\n7\n\x01\x02\x03\x04\x05\x06\x07\x00\x01",
        (3, 1, 3, 7),
        &[1, 2, 3, 4, 5, 6, 7, 0, 1],
    ),
    // A comment in every gap, white space of every kind, and samples of two bytes.
    (
        b"P6\n#a\n# b\r 2\t#\n1\n\x0B#c 9\n\x0C300 \x00\x01\x00\x02\x00\x03\x01\x2C\x00\x00\x00\xFF",
        (2, 1, 3, 300),
        &[1, 2, 3, 300, 0, 255],
    ),
];

#[test]
fn pictures_of_texts(rt: HostRuntime) -> Result<(), Fail> {
    for (text, fault) in REFUSED {
        assert!(rt; read_pnm(rt.alloc(), text).err() == Some(*fault));
    }
    for (text, size, samples) in PICTURES {
        let picture = read_pnm(rt.alloc(), text)?;
        let told = (
            picture.width,
            picture.height,
            picture.channels,
            picture.maxval,
        );
        assert!(rt; told == *size);
        assert!(rt; picture.samples.as_slice() == *samples);
    }
    Ok(())
}
