ghost use Rattle.std.specs.Prelude.{◌<◌};

use crate::writing::written;
use frame_join::{FrameJoin, JoinFault, PnmOut};
use sane_fixed::{ByteOrder, FrameFormat, Params};
use std::alloc::Global;
use std::test::Fail;

/// A frame's format, whether it is the last, its depth, bytes and pixels of a line, and lines.
type Shape = (FrameFormat, bool, u32, u32, u32, Option<u32>);

/// A frame and its bytes.
type Sent = (Shape, &'static [u8]);

fn params((format, last_frame, depth, bytes_per_line, pixels_per_line, lines): Shape) -> Params {
    Params {
        format,
        last_frame,
        bytes_per_line,
        pixels_per_line,
        lines,
        depth,
    }
}

/// Adds what may go out.
fn pull_all(out: &mut PnmOut, join: &mut FrameJoin, file: &mut Vec<u8>) -> Result<(), Fail> {
    let mut buf = [0u8; 7];
    for _ in 0..100 {
        let n = out.pull(join, &mut buf);
        if n == 0 {
            break;
        }
        file.extend_from_slice(&buf[..n])?;
    }
    Ok(())
}

/// The file of frames whose bytes come in pieces.
fn file_of(alloc: Global, frames: &[Sent], order: ByteOrder, piece: usize) -> Result<Vec<u8>, Fail>
    requires { 0 < piece }
{
    let mut join = FrameJoin::new(alloc);
    let mut out = PnmOut::new();
    let mut file = Vec::new(alloc);
    for (shape, payload) in frames {
        join.begin(alloc, &params(*shape), order);
        for bytes in payload.chunks(piece) {
            join.feed(bytes);
            pull_all(&mut out, &mut join, &mut file)?;
        }
        let _ = join.end();
        pull_all(&mut out, &mut join, &mut file)?;
    }
    Ok(file)
}

/// Two places of three colors, 16 bits a sample.
const WIDE: Shape = (FrameFormat::Rgb, true, 16, 12, 2, Some(1));

/// A color of two places and a line of 16 bits, and its bytes; red is the last of three.
const RED: Sent = ((FrameFormat::Red, true, 16, 4, 2, Some(1)), b"\0\x01\0\x04");

const GREEN: Sent = (
    (FrameFormat::Green, false, 16, 4, 2, Some(1)),
    b"\0\x02\0\x05",
);

const BLUE_SHAPE: Shape = (FrameFormat::Blue, false, 16, 4, 2, Some(1));

const BLUE: Sent = (BLUE_SHAPE, b"\0\x03\x01\0");

/// A line of gray, of a picture whose height is not known.
const ROLLED: Shape = (FrameFormat::Gray, true, 8, 1, 1, None);

/// Two lines of gray.
const GRAYS: Shape = (FrameFormat::Gray, true, 8, 1, 1, Some(2));

/// Two lines of a color.
const COLORS: Shape = (FrameFormat::Rgb, true, 8, 3, 1, Some(2));

/// Frames, their byte order, and the file of the picture.
const FILES: &[(&[Sent], ByteOrder, &[u8], &[u8])] = &[
    // Two colors and three lost pixels.
    (
        &[(
            (FrameFormat::Rgb, true, 8, 15, 2, Some(1)),
            b"\x01\x02\x03\x04\x05\x06\0\0\0\0\0\0\0\0\0",
        )],
        ByteOrder::Little,
        b"P6",
        b"2 1\n255\n\x01\x02\x03\x04\x05\x06",
    ),
    (
        &[(WIDE, b"\0\x01\0\x02\0\x03\0\x04\0\x05\x01\0")],
        ByteOrder::Big,
        b"P6",
        SIXTEEN,
    ),
    (
        &[(WIDE, b"\x01\0\x02\0\x03\0\x04\0\x05\0\0\x01")],
        ByteOrder::Little,
        b"P6",
        SIXTEEN,
    ),
    // Nine bits a row: two bytes of the file, where the frame has three; filled with zeros.
    (
        &[(
            (FrameFormat::Gray, true, 1, 3, 9, Some(2)),
            b"\x80\xFF\xFF\x41\x7F\0",
        )],
        ByteOrder::Little,
        b"P4",
        b"9 2\n\x80\x80\x41\x00",
    ),
    // One row of colors, whose height is known at the end.
    (
        &[((FrameFormat::Rgb, true, 8, 4, 1, None), b"\x01\x02\x03\0")],
        ByteOrder::Big,
        b"P6",
        b"1 1\n255\n\x01\x02\x03",
    ),
    // Each color has lines of another length.
    (
        &[
            (
                (FrameFormat::Green, false, 8, 2, 1, Some(2)),
                b"\x02\0\x05\0",
            ),
            ((FrameFormat::Red, false, 8, 1, 1, Some(2)), b"\x01\x04"),
            (
                (FrameFormat::Blue, true, 8, 3, 1, Some(2)),
                b"\x03\0\0\x06\0\0",
            ),
        ],
        ByteOrder::Big,
        b"P6",
        b"1 2\n255\n\x01\x02\x03\x04\x05\x06",
    ),
    (&[BLUE, GREEN, RED], ByteOrder::Big, b"P6", SIXTEEN),
    // What comes behind the whole picture changes nothing.
    (
        &[(ROLLED, b"\x01"), BLUE],
        ByteOrder::Big,
        b"P5",
        b"1 1\n255\n\x01",
    ),
];

const SIXTEEN: &[u8] = b"2 1\n65535\n\0\x01\0\x02\0\x03\0\x04\0\x05\x01\0";

#[test]
fn frames_in_pieces(rt: HostRuntime) -> Result<(), Fail> {
    for (frames, order, kind, rest) in FILES {
        for piece in [1, 2, 5, 100] {
            let file = file_of(rt.alloc(), frames, *order, piece)?;
            assert!(rt; file == written(rt.alloc(), kind, rest)?);
        }
    }
    Ok(())
}

/// Ten rows of 324 bits, the first of each black.
fn black_column(alloc: Global) -> Result<Vec<u8>, Fail> {
    let mut rows = Vec::new(alloc);
    for i in 0..410u32 {
        rows.push(if i % 41 == 0 { 0x80 } else { 0 })?;
    }
    Ok(rows)
}

#[test]
fn height_known_at_the_end(rt: HostRuntime) -> Result<(), Fail> {
    let rows = black_column(rt.alloc())?;
    let mut join = FrameJoin::new(rt.alloc());
    let shape = (FrameFormat::Gray, true, 1, 41, 324, None);
    join.begin(rt.alloc(), &params(shape), ByteOrder::Little);
    let mut file = Vec::new(rt.alloc());
    let mut out = PnmOut::new();
    join.feed(&rows);
    pull_all(&mut out, &mut join, &mut file)?;
    assert!(rt; file.is_empty());
    assert!(rt; join.end() == Ok(true));
    pull_all(&mut out, &mut join, &mut file)?;
    let mut wanted = written(rt.alloc(), b"P4", b"324 10\n")?;
    wanted.extend_from_slice(&rows)?;
    assert!(rt; file == wanted);
    Ok(())
}

/// What comes of two lines of gray, and how many bytes of the file have gone out behind each piece.
const TWO_ROWS: &[(&[u8], usize)] = &[(b"", 31), (b"\x07", 32), (b"\x09", 32)];

#[test]
fn last_row_waits_for_the_end(rt: HostRuntime) -> Result<(), Fail> {
    let mut join = FrameJoin::new(rt.alloc());
    let mut out = PnmOut::new();
    let mut file = Vec::new(rt.alloc());
    assert!(rt; join.end() == Ok(false));
    join.begin(rt.alloc(), &params(GRAYS), ByteOrder::Big);
    for (piece, size) in TWO_ROWS {
        join.feed(piece);
        pull_all(&mut out, &mut join, &mut file)?;
        assert!(rt; file.len() == *size);
    }
    assert!(rt; join.end() == Ok(true));
    pull_all(&mut out, &mut join, &mut file)?;
    assert!(rt; file == written(rt.alloc(), b"P5", b"1 2\n255\n\x07\x09")?);
    Ok(())
}

/// A frame, bytes that are none of it, and its fault.
const FAULTS: &[(Shape, &[u8], JoinFault)] = &[
    (COLORS, b"\x01\x02\x03\x04\x05\x06\x07", JoinFault::Long),
    (COLORS, b"\x01\x02\x03\x04\x05", JoinFault::Short),
    (BLUE_SHAPE, b"\0\x01\0", JoinFault::Short),
    (BLUE_SHAPE, b"\0\x01\0\x04\0", JoinFault::Long),
    // No line at all, and a line and a part of one.
    (ROLLED_BY_TWO, b"", JoinFault::Short),
    (ROLLED_BY_TWO, b"\x01\x02\x03", JoinFault::Short),
];

const ROLLED_BY_TWO: Shape = (FrameFormat::Gray, true, 8, 2, 2, None);

#[test]
fn faults_of_frames(rt: HostRuntime) {
    for (shape, bytes, fault) in FAULTS {
        let mut join = FrameJoin::new(rt.alloc());
        join.begin(rt.alloc(), &params(*shape), ByteOrder::Big);
        join.feed(bytes);
        assert!(rt; join.end() == Err(*fault));
        // It stands for good.
        join.begin(rt.alloc(), &params(*shape), ByteOrder::Big);
        assert!(rt; join.fault() == Some(*fault) && join.end() == Err(*fault));
        assert!(rt; PnmOut::new().pull(&mut join, &mut [0u8; 64]) == 0);
    }
}

#[test]
fn most_rows(rt: HostRuntime) {
    let mut join = FrameJoin::new(rt.alloc());
    join.begin(rt.alloc(), &params(ROLLED), ByteOrder::Big);
    for _ in 0..16 {
        join.feed(&[7u8; 4096]);
    }
    assert!(rt; join.fault() == None);
    join.feed(b"\x07");
    assert!(rt; join.fault() == Some(JoinFault::Long));
}

const FIRST: &[Shape] = &[
    (FrameFormat::Gray, true, 8, 1_048_576, 1, Some(65536)),
    (FrameFormat::Rgb, true, 16, 393_216, 65536, Some(1)),
    (FrameFormat::Gray, true, 1, 2, 9, Some(1)),
];

const NO_FIRST: &[Shape] = &[
    // Of another depth, too short a line, of no place or too many, of no line or too many, too long a line, not the last.
    (FrameFormat::Rgb, true, 1, 3, 1, Some(2)),
    (FrameFormat::Gray, true, 4, 3, 1, Some(2)),
    (FrameFormat::Gray, true, 8, 1, 2, Some(1)),
    (FrameFormat::Gray, true, 16, 3, 2, Some(1)),
    (FrameFormat::Gray, true, 1, 1, 9, Some(1)),
    (FrameFormat::Gray, true, 8, 1, 0, Some(1)),
    (FrameFormat::Gray, true, 8, 65537, 65537, Some(1)),
    (FrameFormat::Gray, true, 8, 1, 1, Some(0)),
    (FrameFormat::Gray, true, 8, 1, 1, Some(65537)),
    (FrameFormat::Gray, true, 8, 1_048_577, 1, Some(1)),
    (FrameFormat::Gray, false, 8, 1, 1, Some(1)),
    // A color of unknown height, the last of three, of one bit, and too short a line.
    (FrameFormat::Red, false, 16, 4, 2, None),
    (FrameFormat::Red, true, 16, 4, 2, Some(1)),
    (FrameFormat::Red, false, 1, 4, 2, Some(1)),
    (FrameFormat::Red, false, 16, 3, 2, Some(1)),
];

/// What comes behind blue: another width, height or depth, blue again, the last too early, a picture by itself, and a
/// color of unknown height.
const NO_SECOND: &[Shape] = &[
    (FrameFormat::Green, false, 16, 4, 1, Some(1)),
    (FrameFormat::Green, false, 16, 4, 2, Some(2)),
    (FrameFormat::Green, false, 8, 4, 2, Some(1)),
    (FrameFormat::Blue, false, 16, 4, 2, Some(1)),
    (FrameFormat::Green, true, 16, 4, 2, Some(1)),
    (FrameFormat::Gray, true, 16, 4, 2, Some(1)),
    (FrameFormat::Rgb, true, 16, 12, 2, Some(1)),
    (FrameFormat::Green, false, 16, 4, 2, None),
];

/// What comes behind blue and green: red that is not told to be the last, and other colors.
const NO_THIRD: &[Shape] = &[
    (FrameFormat::Red, false, 16, 4, 2, Some(1)),
    (FrameFormat::Green, true, 16, 4, 2, Some(1)),
    (FrameFormat::Gray, true, 16, 4, 2, Some(1)),
];

/// What stands once a frame begins behind others.
fn fault_behind(
    alloc: Global,
    frames: &[Sent],
    shape: Shape,
    order: ByteOrder,
) -> Option<JoinFault> {
    let mut join = FrameJoin::new(alloc);
    for (before, payload) in frames {
        join.begin(alloc, &params(*before), ByteOrder::Big);
        join.feed(payload);
        let _ = join.end();
    }
    join.begin(alloc, &params(shape), order);
    join.fault()
}

/// Whether each of these is refused behind these frames.
fn are_refused(alloc: Global, frames: &[Sent], shapes: &[Shape]) -> bool {
    for shape in shapes {
        if fault_behind(alloc, frames, *shape, ByteOrder::Big) != Some(JoinFault::Shape) {
            return false;
        }
    }
    true
}

#[test]
fn shapes_of_frames(rt: HostRuntime) {
    let alloc = rt.alloc();
    for shape in FIRST {
        assert!(rt; fault_behind(alloc, &[], *shape, ByteOrder::Big) == None);
    }
    assert!(rt; are_refused(alloc, &[], NO_FIRST));
    assert!(rt; are_refused(alloc, &[BLUE], NO_SECOND));
    assert!(rt; are_refused(alloc, &[BLUE, GREEN], NO_THIRD));
    let other_order = fault_behind(alloc, &[BLUE], GREEN.0, ByteOrder::Little);
    assert!(rt; other_order == Some(JoinFault::Shape));
    // A frame begins inside another.
    let mut join = FrameJoin::new(alloc);
    for _ in 0..2 {
        join.begin(alloc, &params(GRAYS), ByteOrder::Big);
    }
    assert!(rt; join.fault() == Some(JoinFault::Shape));
}
