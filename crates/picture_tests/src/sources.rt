ghost use Rattle.std.specs.Prelude.{◌≡◌};

use page_picture::{ColumnMap, DeviceKind, Mode, PageSource, Scene, SourceFault};
use page_sources::{OpenFault, PageFault, PnmPage, Rereadable, Source, read_page};
use sane_fixed::Fixed;
use std::alloc::Global;
use std::fs::File;
use std::io::{Cursor, Read, Seek, SeekFrom};
use std::process::Abort;
use std::test::Fail;
use std::{fs, io};

/// Both rows of a page of two columns and two rows; no row comes after them.
fn both_rows<S: PageSource>(source: &mut S) -> Result<([u16; 6], [u16; 6]), SourceFault>
    requires { (S.source source.old).page.width ≡ 2 }
{
    let mut first = [0u16; 6];
    let mut second = [0u16; 6];
    let mut none = [0u16; 6];
    if !source.next_row(&mut first)? {
        return Err(SourceFault);
    }
    if !source.next_row(&mut second)? {
        return Err(SourceFault);
    }
    if source.next_row(&mut none)? {
        return Err(SourceFault);
    }
    Ok((first, second))
}

const GRAYS: &[u8] = b"P5\n2 2\n255\n\x00\xff\x33\x66";

/// The rows of `GRAYS`: v * 65535 / 255 is v * 257.
const GRAY_ROWS: ([u16; 6], [u16; 6]) = (
    [0, 0, 0, 65535, 65535, 65535],
    [13107, 13107, 13107, 26214, 26214, 26214],
);

fn opened<'a>(rt: &impl Abort, alloc: Global, text: &'a [u8]) -> PnmPage<Cursor<&'a [u8]>> {
    match PnmPage::open(alloc, Cursor::new(text), 50) {
        Ok(page) => page,
        Err((fault, _)) => panic!(rt; "{fault:?} at {text:?}"),
    }
}

/// Texts of 2 x 2 places, and their rows.
const FILES: &[(&[u8], ([u16; 6], [u16; 6]))] = &[
    (GRAYS, GRAY_ROWS),
    // White space of every kind, and comments where they may stand.
    (
        b"P5\t# P6 9 9\n#\r 2\x0c\x0b2 #1\n 255\r\x00\xff\x33\x66",
        GRAY_ROWS,
    ),
    (
        b"P5 2 2 1000 \x01\xf4\x00\x01\x03\xe7\x03\xe8",
        (
            [32767, 32767, 32767, 65, 65, 65],
            [65469, 65469, 65469, 65535, 65535, 65535],
        ),
    ),
    (
        b"P6 2 2 15 \x00\x01\x02\x03\x04\x05\x0f\x00\x00\x00\x0f\x00",
        (
            [0, 4369, 8738, 13107, 17476, 21845],
            [65535, 0, 0, 0, 65535, 0],
        ),
    ),
    (
        b"P6\n2 2\n65535\n\x00\x01\x00\x02\x00\x03\x00\x04\x00\x05\x00\x06\x01\x00\x00\x00\x00\x00\x00\x00\x00\x00\xff\xff",
        ([1, 2, 3, 4, 5, 6], [256, 0, 0, 0, 0, 65535]),
    ),
];

/// Both rows of a page are these, and again after a rewind.
fn expect_twice<S: PageSource>(rt: &impl Abort, source: &mut S, rows: &([u16; 6], [u16; 6])) {
    for _ in 0..2 {
        source.rewind().expect(rt, "a rewind");
        assert!(rt; source.size() == (2, 2));
        assert!(rt; both_rows(source).expect(rt, "rows") == *rows);
    }
}

#[test]
fn rows_of_page_files(rt: HostRuntime) {
    for (text, rows) in FILES {
        let mut page = opened(&rt, rt.alloc(), text);
        assert!(rt; page.dpi() == 50);
        assert!(rt; page.size() == (2, 2));
        assert!(rt; both_rows(&mut page).expect(&rt, "rows") == *rows);
        expect_twice(&rt, &mut page, rows);
        assert!(rt; page.failures() == 0);
        drop(page);
        let whole = read_page(rt.alloc(), text, 50).expect(&rt, "a page");
        assert!(rt; (whole.width(), whole.height()) == (2, 2));
        assert!(rt; whole.row(0) == rows.0.as_slice());
        assert!(rt; whole.row(1) == rows.1.as_slice());
        drop(whole);
    }
}

/// Texts, dots per inch, and why they are no page.
const REFUSED: &[(&[u8], u32, PageFault)] = &[
    (b"P4\n1 1\n\x80", 50, PageFault::BadMagic),
    (b"P", 50, PageFault::BadMagic),
    (b"", 50, PageFault::BadMagic),
    (GRAYS, 0, PageFault::BadDpi),
    (GRAYS, 1201, PageFault::BadDpi),
    (b"P5\n0 1\n255\n", 50, PageFault::BadHeader),
    (b"P5\n16385 1\n255\n", 50, PageFault::BadHeader),
    (b"P5\n1 1\n65536\n", 50, PageFault::BadHeader),
    (b"P5\n12345678901 1\n255\n\x00", 50, PageFault::BadHeader),
    (b"P5\n1 1\n255", 50, PageFault::BadHeader),
    (b"P51 1\n255\n\x00", 50, PageFault::BadHeader),
    (b"P5 #1 1\r1", 50, PageFault::BadHeader),
    (b"P5\n3 1\n255\n\x01\x02", 50, PageFault::Short),
    (b"P5\n1 1\n256\n\x00", 50, PageFault::Short),
    (b"P5\n1 1\n10\n\x0b", 50, PageFault::SampleTooLarge),
    (b"P5\n1 1\n256\n\x01\x01", 50, PageFault::SampleTooLarge),
    // Two at once: the one that is tested first.
    (b"P4", 0, PageFault::BadDpi),
    (b"P7\n0 0\n255\n", 50, PageFault::BadMagic),
    (b"P5\n2 1\n10\n\x0b", 50, PageFault::Short),
    (b"P5\n1 1\n10\n\x0b\x00", 50, PageFault::Trailing),
];

#[test]
fn refused_files(rt: HostRuntime) {
    for (text, dpi, fault) in REFUSED {
        let Err((refused, _)) = PnmPage::open(rt.alloc(), Cursor::new(*text), *dpi) else {
            panic!(rt; "{text:?} is opened");
        };
        assert!(rt; refused == OpenFault::Page(*fault));
        let Err(refused) = read_page(rt.alloc(), text, *dpi) else {
            panic!(rt; "{text:?} is read");
        };
        assert!(rt; refused == *fault);
    }
}

#[test]
fn a_file_cut_short(rt: HostRuntime) {
    fs::write(&rt, "page.pgm", GRAYS).expect(&rt, "a file");
    let file = File::open(&rt, "page.pgm").expect(&rt, "a file");
    let page = match PnmPage::open(rt.alloc(), file, 50) {
        Ok(page) => page,
        Err((fault, _)) => panic!(rt; "{fault:?}"),
    };
    let mut source = Source::Pnm(page);
    assert!(rt; source.size() == (2, 2));
    assert!(rt; both_rows(&mut source).expect(&rt, "rows") == GRAY_ROWS);
    expect_twice(&rt, &mut source, &GRAY_ROWS);
    fs::write(&rt, "page.pgm", &GRAYS[..14]).expect(&rt, "a file");
    source.rewind().expect(&rt, "a rewind");
    assert!(rt; source.size() == (2, 2));
    assert!(rt; both_rows(&mut source).is_err());
    assert!(rt; source.failures() == 1);
    assert!(rt; source.size() == (2, 2));
    // The rows are lost until a rewind.
    fs::write(&rt, "page.pgm", GRAYS).expect(&rt, "a file");
    assert!(rt; both_rows(&mut source).is_err());
    assert!(rt; source.failures() == 2);
    expect_twice(&rt, &mut source, &GRAY_ROWS);
    assert!(rt; source.failures() == 2);
    drop(source);
}

/// A reader that gives three bytes at a time and fails at one of its calls, counted from 1.
#[derive(Drop)]
struct Faulty<'a> {
    bytes: Cursor<&'a [u8]>,
    calls: u64,
    fails_at: u64,
    kind: io::ErrorKind,
}

impl Faulty<'_> {
    fn count_call(&mut self) -> io::Result<()> {
        self.calls = self.calls.saturating_add(1);
        if self.calls == self.fails_at {
            return Err(io::Error::from(self.kind));
        }
        Ok(())
    }
}

impl Read for Faulty<'_> {
    fn read(&mut self, buf: &mut [u8]) -> io::Result<usize> {
        self.count_call()?;
        let most = buf.len().min(3);
        self.bytes.read(&mut buf[..most])
    }
}

impl Seek for Faulty<'_> {
    fn seek(&mut self, to: SeekFrom) -> io::Result<u64> {
        self.count_call()?;
        self.bytes.seek(to)
    }
}

impl Rereadable for Faulty<'_> {
    fn read_on(&mut self, buf: &mut [u8]) -> io::Result<usize> {
        self.read(buf)
    }

    fn start_from(&mut self, place: u64) -> io::Result<()> {
        self.seek(SeekFrom::Start(place))?;
        Ok(())
    }
}

/// Opens `GRAYS` over a reader of which a call fails, and reads it twice. It tells where the failure came: 0 while
/// opening, 1 at a row, 2 at the rewind, 3 nowhere.
fn place_of_failure(
    rt: &impl Abort,
    alloc: Global,
    fails_at: u64,
    kind: io::ErrorKind,
) -> Result<usize, SourceFault> {
    let reader = Faulty {
        bytes: Cursor::new(GRAYS),
        calls: 0,
        fails_at,
        kind,
    };
    let mut page = match PnmPage::open(alloc, reader, 50) {
        Err((fault, _)) => {
            assert!(rt; fault == OpenFault::Device);
            return Ok(0);
        }
        Ok(page) => page,
    };
    assert!(rt; page.size() == (2, 2));
    let mut place = 3;
    if both_rows(&mut page).is_err() {
        place = 1;
    }
    if page.rewind().is_err() {
        place = 2;
        assert!(rt; page.size() == (2, 2));
        assert!(rt; both_rows(&mut page).is_err(), "the rows are lost");
        page.rewind()?;
    }
    assert!(rt; page.failures() == [1, 1, 2, 0][place]);
    assert!(rt; page.size() == (2, 2));
    assert!(rt; both_rows(&mut page)? == GRAY_ROWS);
    Ok(place)
}

#[test]
fn each_call_of_the_reader_fails_in_turn(rt: HostRuntime) -> Result<(), Fail> {
    for kind in [io::ErrorKind::Other, io::ErrorKind::Interrupted] {
        let mut places = [0u32; 4];
        for fails_at in 1..14u64 {
            let place = place_of_failure(&rt, rt.alloc(), fails_at, kind)?;
            if let Some(count) = places.get_mut(place) {
                *count = count.saturating_add(1);
            }
        }
        // Opening: to the start, four reads of the header, to the raster, two reads for its four bytes, of which this reader
        // gives three at once, one at its end, and to the raster again. Then two reads for its rows, and a rewind.
        assert!(rt; places == [10, 2, 1, 0]);
    }
    Ok(())
}

/// A window of four dots, from so many mm on, at 26 dots per inch, where 1 mm has one dot.
fn window(left: i32) -> Scene
    ensures { result.resolution ≡ 26 }
{
    Scene {
        kind: DeviceKind::Flatbed,
        mode: Mode::Gray,
        depth: 8,
        resolution: 26,
        tl_x: Fixed(left.saturating_mul(65536)),
        tl_y: Fixed(0),
        br_x: Fixed(left.saturating_add(4).saturating_mul(65536)),
        br_y: Fixed(65536),
        gamma: [0; 256],
        channel_gamma: [[0; 256]; 3],
    }
}

#[test]
fn columns_of_windows(rt: HostRuntime) -> Result<(), Fail> {
    for (left, width, dpi, columns, run) in [
        // Each column of a page at 13 dots per inch is seen twice, and of one at 52 every second.
        (0, 2, 13, [Some(0), Some(0), Some(1), Some(1)], None),
        (0, 5, 52, [Some(0), Some(2), Some(4), None], None),
        (2, 6, 26, [Some(2), Some(3), Some(4), Some(5)], Some(2)),
    ] {
        let map = ColumnMap::new(rt.alloc(), &window(left), width, dpi)?;
        assert!(rt; map.places().len() == 4);
        let seen = [map.at(0), map.at(1), map.at(2), map.at(3)];
        assert!(rt; seen == columns);
        assert!(rt; map.run() == run);
    }
    Ok(())
}
