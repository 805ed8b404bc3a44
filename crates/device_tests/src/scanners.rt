//! Scanners of each kind on pages in memory.

use crate::calls::{BR_X, BR_Y, Call, DEPTH, Fill, MM, MODE, Plain, RESOLUTION, expect_each};
use device_api::Device;
use sane_fixed::{ByteOrder, FrameFormat, Info, Status};
use testing::{dots, failing_source, feeder, flatbed, hand_scanner, source, three_pass};

const GAMMA_TABLE: u32 = 8;

const PPL_LOSS: u32 = 9;

const READ_LIMIT_SIZE: u32 = 10;

const READ_RETURN_VALUE: u32 = 11;

const RED_GAMMA_TABLE: u32 = 12;

const INEXACT: u32 = Info::INEXACT + Info::RELOAD_PARAMS;

const RELOAD: u32 = Info::RELOAD_OPTIONS + Info::RELOAD_PARAMS;

const START: Call = Call::Start(Ok(()));

const COLOR: Plain = Plain::Text(b"Color");

const INVERTED: Plain = Plain::Table(Fill::Inverted, 256);

const HALVES: Plain = Plain::Table(Fill::Halves, 256);

/// A black place, one of gray 10, a red one, two grays one below the other, and two places of color.
const BLACK: &[u8] = b"P5\n1 1\n255\n\x00";

const GRAY: &[u8] = b"P5\n1 1\n255\n\x0A";

const RED: &[u8] = b"P6\n1 1\n255\n\xFF\x00\x00";

const GRAYS: &[u8] = b"P5\n1 2\n255\n\x07\x09";

const COLORS: &[u8] = b"P6\n2 1\n255\n\x01\x02\x03\x04\x05\x06";

const COLOR_DOT: &[u8] = b"P6\n1 1\n255\n\x0A\x0B\x0C";

/// 80 by 100 mm at 50 dots per inch, all but one place white.
const MARGIN: &[Call] = &[
    Call::Is(b"flatbed:0", b"Flatbed", b"flatbed scanner"),
    Call::AtRest(true),
    Call::Tells((FrameFormat::Gray, true, 157, 157, Some(196), 8)),
    Call::ScanRuns(1, &[(0, 1), (255, 30_771)]),
];

const HALF_SEEN: &[Call] = &[
    Call::Window(2, 1),
    Call::Scan(&[0x00, 0xFF], true),
    Call::Set(DEPTH, Plain::Int(1)),
    Call::Scan(&[0x80], true),
];

const LOSSES: &[Call] = &[
    Call::Window(2, 1),
    Call::Set(MODE, COLOR),
    Call::Gives(PPL_LOSS, Plain::Int(65), Plain::Int(64), INEXACT),
    Call::Set(PPL_LOSS, Plain::Int(3)),
    Call::Gives(READ_LIMIT_SIZE, Plain::Int(0), Plain::Int(1), Info::INEXACT),
    START,
    Call::Tells((FrameFormat::Rgb, true, 15, 2, Some(1), 8)),
    Call::Frame(
        15,
        &[1, 2, 3, 4, 5, 6, 0, 0, 0, 0, 0, 0, 0, 0, 0],
        Status::Eof,
    ),
];

const TABLES: &[Call] = &[
    Call::Window(1, 1),
    Call::Has(GAMMA_TABLE, Plain::Table(Fill::Places, 256)),
    Call::Refuses(
        GAMMA_TABLE,
        Plain::Table(Fill::Inverted, 255),
        Status::Inval,
    ),
    Call::Has(GAMMA_TABLE, Plain::Table(Fill::Places, 256)),
    Call::Gives(
        GAMMA_TABLE,
        Plain::But(Fill::Inverted, 10, 300),
        Plain::But(Fill::Inverted, 10, 255),
        Info::INEXACT,
    ),
    Call::Scan(&[0xFF], true),
    Call::Gives(GAMMA_TABLE, INVERTED, INVERTED, 0),
    Call::Scan(&[0xF5], true),
    // At depth 16 the option is inactive, and its words are kept.
    Call::Gives(DEPTH, Plain::Int(16), Plain::Int(16), RELOAD),
    Call::Refuses(GAMMA_TABLE, INVERTED, Status::Inval),
    Call::Hides(GAMMA_TABLE),
    Call::Scan(&[0x0A, 0x0A], true),
    Call::Set(DEPTH, Plain::Int(8)),
    Call::Has(GAMMA_TABLE, INVERTED),
];

/// The channel's table has the entry for the gamma table's entry, in color at depth 8 alone.
const CHANNEL_TABLES: &[Call] = &[
    Call::Window(1, 1),
    Call::Refuses(RED_GAMMA_TABLE, HALVES, Status::Inval),
    Call::Gives(MODE, COLOR, COLOR, RELOAD),
    Call::Gives(RED_GAMMA_TABLE, HALVES, HALVES, 0),
    Call::Scan(&[0x05, 0x0B, 0x0C], true),
    Call::Set(GAMMA_TABLE, INVERTED),
    Call::Scan(&[0x7A, 0xF4, 0xF3], true),
];

/// A table that is not linear, white from 128 on, is put to the gray sum, and not to the colors before it.
const AFTER_THE_SUM: &[Call] = &[
    Call::Window(1, 1),
    Call::Set(GAMMA_TABLE, Plain::Table(Fill::Steps, 256)),
    Call::Scan(&[0x00], true),
];

const ONE_RED_PLACE: &[Call] = &[
    Call::Window(1, 1),
    Call::Scan(&[0x4C], true),
    Call::Set(DEPTH, Plain::Int(16)),
    Call::Scan(&[0x4C, 0x8A], true),
    Call::Set(DEPTH, Plain::Int(1)),
    Call::Scan(&[0x80], true),
    Call::Set(MODE, COLOR),
    Call::Start(Err(Status::Inval)),
    Call::AtRest(true),
    Call::Tells((FrameFormat::Rgb, true, 0, 0, Some(0), 1)),
    Call::Set(DEPTH, Plain::Int(16)),
    Call::Scan(&[0xFF, 0xFF, 0, 0, 0, 0], true),
];

const FIRST_READS: &[Call] = &[
    Call::Window(1, 1),
    Call::Set(READ_RETURN_VALUE, Plain::Text(b"SANE_STATUS_EOF")),
    START,
    Call::Frame(0, &[], Status::Eof),
    Call::Set(READ_RETURN_VALUE, Plain::Text(b"SANE_STATUS_JAMMED")),
    START,
    Call::Read(Err(Status::Jammed)),
    Call::AtRest(true),
    Call::Read(Err(Status::Inval)),
    // Two names begin so.
    Call::Refuses(
        READ_RETURN_VALUE,
        Plain::Text(b"SANE_STATUS_NO"),
        Status::Inval,
    ),
    Call::Gives(
        READ_RETURN_VALUE,
        Plain::Text(b"d"),
        Plain::Text(b"Default"),
        Info::INEXACT,
    ),
    Call::Scan(&[0x0A], true),
];

const UNDER_WAY: &[Call] = &[
    Call::Window(1, 2),
    Call::Set(READ_LIMIT_SIZE, Plain::Int(1)),
    START,
    Call::Start(Err(Status::DeviceBusy)),
    Call::Refuses(DEPTH, Plain::Int(1), Status::DeviceBusy),
    // What refuses also at rest comes after the busy one.
    Call::Refuses(99, Plain::Int(1), Status::DeviceBusy),
    Call::Has(DEPTH, Plain::Int(8)),
    Call::Read(Ok(1)),
    Call::Load(GRAY, false),
    Call::Frame(1, &[9], Status::Eof),
    Call::Load(GRAY, true),
    Call::Scan(&[0x0A, 0xFF], true),
];

const CANCELLED: &[Call] = &[
    Call::Window(1, 2),
    Call::Cancel,
    Call::Read(Err(Status::Inval)),
    START,
    Call::Read(Ok(2)),
    Call::Cancel,
    Call::AtRest(true),
    Call::Read(Err(Status::Cancelled)),
    Call::Scan(&[7, 9], true),
    START,
    Call::Reset,
    Call::AtRest(true),
    Call::Read(Err(Status::Inval)),
    Call::Has(RESOLUTION, Plain::Int(50)),
];

const NEAREST: &[Call] = &[
    Call::Gives(BR_X, Plain::Fixed(0x508000), Plain::Fixed(81 * MM), INEXACT),
    Call::Gives(
        BR_X,
        Plain::Fixed(80 * MM),
        Plain::Fixed(80 * MM),
        Info::RELOAD_PARAMS,
    ),
    Call::Gives(
        BR_X,
        Plain::Fixed(250 * MM),
        Plain::Fixed(200 * MM),
        INEXACT,
    ),
    Call::Gives(DEPTH, Plain::Int(4), Plain::Int(1), INEXACT),
    Call::Gives(DEPTH, Plain::Int(12), Plain::Int(8), INEXACT),
    Call::Gives(MODE, Plain::Text(b"gr"), Plain::Text(b"Gray"), INEXACT),
    Call::Refuses(MODE, Plain::Text(b"SANE"), Status::Inval),
    Call::Refuses(RESOLUTION, Plain::Flag(true), Status::Inval),
    Call::Refuses(15, Plain::Int(1), Status::Inval),
    Call::Refuses(0, Plain::Int(1), Status::Inval),
];

/// Rows of a page at half and at twice the resolution, and rows of which some serve two lines; white below a page.
const TWICE: &[Call] = &[Call::Window(1, 4), Call::Scan(&[7, 7, 9, 9], true)];

const SKIPPED: &[Call] = &[Call::Window(1, 2), Call::Scan(&[1, 3], true)];

const SOME_TWICE: &[Call] = &[
    Call::Window(1, 8),
    Call::Scan(&[1, 1, 2, 2, 3, 4, 4, 255], true),
];

const FOUR: &[u8] = b"P5\n1 4\n255\n\x01\x02\x03\x04";

/// A page, its dots per inch, and calls of a flatbed on it.
const FLATBEDS: &[(&[u8], u32, (&str, &[Call]))] = &[
    (BLACK, 50, ("margin", MARGIN)),
    (BLACK, 26, ("half seen", HALF_SEEN)),
    (COLORS, 26, ("losses", LOSSES)),
    (GRAY, 26, ("tables", TABLES)),
    (COLOR_DOT, 26, ("channel tables", CHANNEL_TABLES)),
    (RED, 26, ("after the sum", AFTER_THE_SUM)),
    (RED, 26, ("one red place", ONE_RED_PLACE)),
    (GRAY, 26, ("first reads", FIRST_READS)),
    (GRAYS, 26, ("under way", UNDER_WAY)),
    (GRAYS, 26, ("cancelled", CANCELLED)),
    (BLACK, 26, ("nearest", NEAREST)),
    (GRAYS, 13, ("twice", TWICE)),
    (FOUR, 52, ("skipped", SKIPPED)),
    (FOUR, 17, ("some twice", SOME_TWICE)),
];

#[test]
fn flatbeds(rt: HostRuntime) {
    let alloc = rt.alloc();
    for &(file, dpi, calls) in FLATBEDS {
        let page = source(alloc, file, dpi).expect(&rt, "a page");
        let mut flatbed = flatbed(alloc, b"flatbed:0", page, ByteOrder::Big).expect(&rt, "memory");
        expect_each(&rt, alloc, &mut flatbed, calls);
        drop(flatbed);
    }
}

/// In a box it is the same scanner; the lower byte of a sample first.
const BOXED: &[Call] = &[
    Call::Window(1, 1),
    Call::Set(DEPTH, Plain::Int(16)),
    Call::Scan(&[0x8A, 0x4C], true),
];

#[test]
fn a_box(rt: HostRuntime) {
    let alloc = rt.alloc();
    let page = source(alloc, RED, 26).expect(&rt, "a page");
    let flatbed = flatbed(alloc, b"flatbed:0", page, ByteOrder::Little).expect(&rt, "memory");
    let mut device: Box<dyn Device> = Box::new(alloc, flatbed).expect(&rt, "a box");
    expect_each(&rt, alloc, &mut device, ("boxed", BOXED));
}

const REFUSED_START: &[Call] = &[
    Call::Window(1, 2),
    Call::Start(Err(Status::IoError)),
    Call::AtRest(true),
    Call::Scan(&[7, 9], true),
];

/// A read that wants a row which fails gives nothing, also of the lines before it.
const FAILED: &[Call] = &[
    Call::Window(1, 2),
    START,
    Call::Frame(0, &[], Status::IoError),
    Call::AtRest(true),
    Call::Scan(&[7, 9], true),
];

const FAILED_LATER: &[Call] = &[
    Call::Window(1, 2),
    Call::Set(READ_LIMIT_SIZE, Plain::Int(1)),
    START,
    Call::Frame(1, &[7], Status::IoError),
    Call::AtRest(true),
    Call::Scan(&[7, 9], true),
];

/// No row after the last is asked for, also where the window is taller.
const NOT_FAILED: &[Call] = &[
    Call::Window(1, 5),
    START,
    Call::Frame(1, &[7, 9, 255, 255, 255], Status::Eof),
    Call::AtRest(true),
];

/// A scan of two rows makes one rewind and two calls of `next_row`: the call of the page that fails, and what comes of it.
const FAILURES: &[(u64, (&str, &[Call]))] = &[
    (1, ("refused start", REFUSED_START)),
    (2, ("failed at once", FAILED)),
    (3, ("failed", FAILED)),
    (3, ("failed later", FAILED_LATER)),
    (4, ("not failed", NOT_FAILED)),
    (5, ("never failed", NOT_FAILED)),
];

#[test]
fn a_source_fails_at_each_call(rt: HostRuntime) {
    let alloc = rt.alloc();
    for &(call, calls) in FAILURES {
        let page = failing_source(alloc, GRAYS, 26, call).expect(&rt, "a page");
        let mut flatbed = flatbed(alloc, b"flatbed:0", page, ByteOrder::Big).expect(&rt, "memory");
        expect_each(&rt, alloc, &mut flatbed, calls);
        drop(flatbed);
    }
}

/// A hand scanner is 110 mm wide, and goes down the page.
const HAND: &[Call] = &[
    Call::Is(b"hand:0", b"Hand", b"handheld scanner"),
    Call::Has(4, Plain::Flag(true)),
    Call::Refuses(4, Plain::Flag(false), Status::Inval),
    Call::Gives(RESOLUTION, Plain::Int(125), Plain::Int(100), INEXACT),
    Call::Gives(RESOLUTION, Plain::Int(5000), Plain::Int(300), INEXACT),
    Call::Gives(
        RESOLUTION,
        Plain::Int(150),
        Plain::Int(150),
        Info::RELOAD_PARAMS,
    ),
    Call::Set(RESOLUTION, Plain::Int(75)),
    Call::Set(DEPTH, Plain::Int(1)),
    Call::Tells((FrameFormat::Gray, true, 41, 324, None, 1)),
    Call::ScanRuns(10, &[(0x80, 1), (0, 40)]),
];

#[test]
fn a_hand_scanner(rt: HostRuntime) {
    let alloc = rt.alloc();
    let page = source(alloc, b"P5\n1 10\n255\n\0\0\0\0\0\0\0\0\0\0", 75).expect(&rt, "a page");
    let mut hand = hand_scanner(alloc, b"hand:0", page, ByteOrder::Big).expect(&rt, "memory");
    expect_each(&rt, alloc, &mut hand, ("hand", HAND));
    drop(hand);
}

const THREE_PASS_ORDER: u32 = 8;

/// A three-pass scanner's numbers of the gamma tables.
const THREE_PASS_TABLE: u32 = 9;

const THREE_PASS_RED_TABLE: u32 = 10;

const BUSY: Call = Call::Refuses(DEPTH, Plain::Int(8), Status::DeviceBusy);

const PASSES: &[Call] = &[
    Call::Is(b"threepass:0", b"ThreePass", b"flatbed scanner"),
    Call::Tells((FrameFormat::Gray, true, 157, 157, Some(196), 8)),
    Call::Hides(THREE_PASS_ORDER),
    Call::Refuses(THREE_PASS_ORDER, Plain::Text(b"BGR"), Status::Inval),
    Call::Window(2, 1),
    Call::Gives(MODE, COLOR, COLOR, RELOAD),
    Call::Set(DEPTH, Plain::Int(16)),
    Call::Refuses(THREE_PASS_ORDER, Plain::Text(b"B"), Status::Inval),
    Call::Gives(
        THREE_PASS_ORDER,
        Plain::Text(b"bg"),
        Plain::Text(b"BGR"),
        INEXACT,
    ),
    // Nothing can be set between passes, and no page put in.
    START,
    Call::Tells((FrameFormat::Blue, false, 4, 2, Some(1), 16)),
    Call::Frame(1, &[0, 3, 1, 0], Status::Eof),
    BUSY,
    Call::Load(GRAY, false),
    Call::Read(Err(Status::Inval)),
    START,
    Call::Tells((FrameFormat::Green, false, 4, 2, Some(1), 16)),
    Call::Frame(1, &[0, 2, 0, 5], Status::Eof),
    BUSY,
    Call::Load(GRAY, false),
    Call::AtRest(false),
    START,
    Call::Tells((FrameFormat::Red, true, 4, 2, Some(1), 16)),
    Call::Frame(1, &[0, 1, 0, 4], Status::Eof),
    Call::AtRest(true),
    Call::Set(THREE_PASS_ORDER, Plain::Text(b"GBR")),
    Call::Scan(&[0, 2, 0, 5], false),
    Call::Tells((FrameFormat::Green, false, 4, 2, Some(1), 16)),
    Call::Cancel,
    Call::Read(Err(Status::Cancelled)),
];

/// The channel's table has the entry for the gamma table's entry; at depth 16 no channel has a table.
const PASS_TABLES: &[Call] = &[
    Call::Load(COLOR_DOT, true),
    Call::Refuses(THREE_PASS_RED_TABLE, HALVES, Status::Inval),
    Call::Set(THREE_PASS_ORDER, Plain::Text(b"RGB")),
    Call::Set(DEPTH, Plain::Int(8)),
    Call::Set(BR_X, Plain::Fixed(MM)),
    Call::Set(THREE_PASS_TABLE, INVERTED),
    Call::Set(THREE_PASS_RED_TABLE, HALVES),
    START,
    Call::Frame(1, &[0x7A], Status::Eof),
    START,
    Call::Frame(1, &[0xF4], Status::Eof),
    START,
    Call::Frame(1, &[0xF3], Status::Eof),
    Call::AtRest(true),
];

#[test]
fn a_three_pass_scanner(rt: HostRuntime) {
    let alloc = rt.alloc();
    let file = b"P6\n2 1\n65535\n\0\x01\0\x02\0\x03\0\x04\0\x05\x01\0";
    let page = source(alloc, file, 26).expect(&rt, "a page");
    let name = b"threepass:0";
    let mut scanner = three_pass(alloc, name, page, ByteOrder::Big).expect(&rt, "memory");
    expect_each(&rt, alloc, &mut scanner, ("passes", PASSES));
    expect_each(&rt, alloc, &mut scanner, ("tables", PASS_TABLES));
    drop(scanner);
}

const NO_PAGE: Call = Call::Start(Err(Status::NoDocs));

const ONE_AFTER_ANOTHER: &[Call] = &[
    Call::Is(b"feeder:0", b"Feeder", b"sheetfed scanner"),
    Call::Window(1, 1),
    // A reset at rest keeps the tray, and a cancel there does nothing.
    Call::Reset,
    Call::Cancel,
    Call::Window(1, 1),
    Call::Scan(&[7], true),
    // In the middle of a scan both let go of the page under way.
    START,
    Call::Reset,
    Call::Read(Err(Status::Inval)),
    START,
    Call::Cancel,
    Call::Read(Err(Status::Cancelled)),
    Call::Window(1, 1),
    Call::Scan(&[11], true),
    NO_PAGE,
    Call::AtRest(true),
    // A window of no place is told only where there is a page.
    Call::Window(0, 1),
    NO_PAGE,
    Call::Tells((FrameFormat::Gray, true, 0, 0, Some(0), 8)),
    Call::Load(GRAY, true),
    Call::Start(Err(Status::Inval)),
    Call::Window(1, 1),
    Call::Tells((FrameFormat::Gray, true, 1, 1, Some(1), 8)),
    Call::Scan(&[10], true),
];

/// A page that is under way stays in the tray.
const FULL: &[Call] = &[
    Call::Window(1, 1),
    Call::Load(GRAY, true),
    Call::Load(GRAY, false),
    START,
    Call::Load(GRAY, false),
    Call::Frame(1, &[1], Status::Eof),
    Call::Load(GRAY, true),
    Call::Scan(&[2], true),
];

const FIFTEEN: &[u8] = &[1, 2, 3, 4, 5, 6, 7, 8, 9, 10, 11, 12, 13, 14, 15];

/// The grays of the pages in a tray, and calls of a feeder with it.
const FEEDERS: &[(&[u8], (&str, &[Call]))] = &[
    (&[7, 8, 9, 11], ("one after another", ONE_AFTER_ANOTHER)),
    (FIFTEEN, ("full", FULL)),
];

#[test]
fn feeders(rt: HostRuntime) {
    let alloc = rt.alloc();
    for &(grays, calls) in FEEDERS {
        let pages = dots(alloc, grays).expect(&rt, "pages");
        let mut feeder = feeder(alloc, b"feeder:0", pages, ByteOrder::Big).expect(&rt, "memory");
        expect_each(&rt, alloc, &mut feeder, calls);
    }
}
