//! Jobs on scanners of this machine.

mod batches;
mod reports;

use crate::common::{ONE_PLACE, SETTING, SHORT, SINK, job};
use crate::outputs::{Disk, Full};
use byte_output::{OutputTally, put};
use device_api::Device;
use local_job::run_local;
use option_desc::Value;
use page_picture::DeviceKind;
use page_sources::Source;
use pnm_writer::read_pnm;
use sane_fixed::{ByteOrder, Status};
use scan_job::{Outcome, Task, Why};
use std::alloc::Global;
use std::process::Abort;
use testing::{AnyScanner, Over, failing_source, how};

/// A scanner on a page.
#[derive(Clone, Copy)]
struct Place {
    kind: DeviceKind,
    order: ByteOrder,
    dpi: u32,
    page: &'static [u8],
}

impl Place {
    /// The scanner with these pages.
    fn with(&self, alloc: Global, pages: Vec<Source>) -> Option<AnyScanner> {
        testing::scanner(alloc, self.kind, b"flatbed:0", pages, self.order)
    }

    /// The scanner on its page, which fails at the call of that number; none is 0.
    fn failing(&self, alloc: Global, call: u64) -> Option<AnyScanner> {
        let mut pages = Vec::new(alloc);
        let page = failing_source(alloc, self.page, self.dpi, call);
        pages.push(page?).ok()?;
        self.with(alloc, pages)
    }

    /// The scanner on its page.
    fn made(&self, rt: &impl Abort, alloc: Global) -> AnyScanner {
        self.failing(alloc, 0).expect(rt, "a scanner")
    }
}

const TWO_ROWS: &[u8] = b"P5\n1 2\n255\n\x07\x09";

/// The settings that show the two-row page as it is, and its whole file, of 33 bytes.
const ONE_BY_TWO: &str = "resolution=26 br-x=1 br-y=2";

const TWO_ROWS_FILE: &[u8] = b"P5\n# SANE data follows\n1 2\n255\n\x07\x09";

const FLATBED: Place = Place {
    kind: DeviceKind::Flatbed,
    order: ByteOrder::Big,
    dpi: 26,
    page: TWO_ROWS,
};

const HAND: Place = Place {
    kind: DeviceKind::Hand,
    dpi: 75,
    ..FLATBED
};

const THREE_PASS: Place = Place {
    kind: DeviceKind::ThreePass,
    page: COLORS,
    ..FLATBED
};

/// What a job of these settings comes to, and what it writes, where the device is at rest behind it.
fn run(
    alloc: Global,
    device: &mut dyn Device,
    line: &str,
    task: Task,
) -> Option<(Outcome, Vec<u8>)> {
    let mut file = Vec::new(alloc);
    let given = testing::job(alloc, b"flatbed:0", line, task)?;
    let outcome = run_local(alloc, device, &given, &mut file);
    drop(given);
    if device.at_rest() {
        Some((outcome, file))
    } else {
        None
    }
}

/// Whether a scan with these settings is done, and this is the file that it writes.
fn writes(alloc: Global, device: &mut dyn Device, line: &str, whole: &[u8]) -> bool {
    let Some((outcome, file)) = run(alloc, device, line, Task::Scan) else {
        return false;
    };
    let is_so = how(&outcome) == Over::Done && file.as_slice() == whole;
    drop(outcome);
    is_so
}

/// Whether a job with these settings ends so, and the output has no whole file.
fn ends(alloc: Global, device: &mut dyn Device, line: &str, task: Task, over: Over) -> bool {
    let Some((outcome, file)) = run(alloc, device, line, task) else {
        return false;
    };
    let read = read_pnm(alloc, &file);
    let is_so = how(&outcome) == over && read.is_err();
    drop((outcome, read));
    is_so
}

/// Whether the device has that resolution.
fn has_resolution(alloc: Global, device: &dyn Device, dpi: i32) -> bool {
    match device.get(alloc, 3) {
        Ok(value) => value == Value::Int(dpi),
        Err(_) => false,
    }
}

/// A color page of two places, two bytes a sample, and its file.
const COLORS: &[u8] = b"P6\n2 1\n65535\n\x00\x01\x00\x02\x00\x03\x00\x04\x00\x05\x01\x00";

const COLORS_FILE: &[u8] =
    b"P6\n# SANE data follows\n2 1\n65535\n\x00\x01\x00\x02\x00\x03\x00\x04\x00\x05\x01\x00";

/// A page, the settings of a scan of it, and its file.
type Scan = (&'static [u8], &'static str, &'static [u8]);

/// Scans by a flatbed; a place off the page is white.
const BY_FLATBED: &[Scan] = &[
    (
        b"P5\n1 1\n255\n\x00",
        "resolution=26 br-x=2 br-y=1",
        b"P5\n# SANE data follows\n2 1\n255\n\x00\xFF",
    ),
    (
        b"P5\n1 1\n255\n\x00",
        "resolution=26 br-x=2 br-y=1 depth=1",
        b"P4\n# SANE data follows\n2 1\n\x80",
    ),
    (
        b"P6\n1 1\n255\n\xFF\x00\x00",
        ONE_PLACE,
        b"P5\n# SANE data follows\n1 1\n255\n\x4C",
    ),
    (
        b"P6\n1 1\n255\n\xFF\x00\x00",
        "resolution=26 br-x=1 br-y=1 depth=16",
        b"P5\n# SANE data follows\n1 1\n65535\n\x4C\x8A",
    ),
];

#[test]
fn scans_by_a_flatbed(rt: HostRuntime) {
    for (page, settings, file) in BY_FLATBED {
        let mut it = FLATBED;
        it.page = *page;
        let mut device = it.made(&rt, rt.alloc());
        assert!(&rt;
            writes(rt.alloc(), &mut *device, settings, file),
            "{settings}"
        );
        drop(device);
    }
}

/// A scanner, settings, the whole file, and how many calls of the page's source a scan makes: of two rows a rewind and two rows,
/// and in three passes of one row three rewinds and three rows.
const SOURCES: &[(Place, &str, &[u8], u64)] = &[
    (FLATBED, ONE_BY_TWO, TWO_ROWS_FILE, 3),
    (
        THREE_PASS,
        "mode=Color depth=16 three-pass-order=GBR resolution=26 br-x=2 br-y=1",
        COLORS_FILE,
        6,
    ),
];

/// A source that fails at one of these leaves no whole file, and the next scan is whole; a fault behind the last is not met.
#[test]
fn pages_that_fail(rt: HostRuntime) {
    let alloc = rt.alloc();
    for (it, settings, file, calls) in SOURCES {
        for call in 1..=calls.saturating_add(2) {
            let mut device = it.failing(alloc, call).expect(&rt, "a scanner");
            if call <= *calls {
                assert!(&rt; ends(alloc, &mut *device, settings, Task::Scan, FAILED));
            }
            if call != calls.saturating_add(1) {
                assert!(&rt; writes(alloc, &mut *device, settings, file));
            }
            drop(device);
        }
    }
}

/// The text of a table of so many words, of which place i holds 255 - i, or the half of i, rounded down.
fn table(rt: &impl Abort, alloc: Global, count: i32, is_halved: bool) -> String {
    let mut out = String::new(alloc);
    for i in 0..count {
        let comma = if i > 0 { "," } else { "" };
        let word = if is_halved {
            i / 2
        } else {
            255i32.saturating_sub(i)
        };
        let text = format!(in alloc; "{comma}{word}").expect(rt, "memory");
        out.push_str(text.as_str()).expect(rt, "memory");
    }
    out
}

/// A page's sample is looked up in the gamma table first, and in the color's own table behind it; a table of another number of words
/// than the option has is refused, and in gray that of a color.
#[test]
fn gamma_tables(rt: HostRuntime) {
    let alloc = rt.alloc();
    let short = table(&rt, alloc, 255, false);
    let whole = table(&rt, alloc, 256, false);
    let halves = table(&rt, alloc, 256, true);
    let short = format!(in alloc; "gamma-table={short}").expect(&rt, "memory");
    let red = format!(in alloc; "red-gamma-table={halves}").expect(&rt, "memory");
    let gamma = format!(in alloc; "{ONE_PLACE} gamma-table={whole}").expect(&rt, "memory");
    let both = format!(in alloc; "mode=Color {gamma} {red}").expect(&rt, "memory");
    let mut it = FLATBED;
    it.page = b"P5\n1 1\n255\n\x0a";
    let mut device = it.made(&rt, alloc);
    for refused in [&short, &red] {
        assert!(&rt; ends(alloc, &mut *device, refused, Task::Scan, ANSWER));
    }
    let file = b"P5\n# SANE data follows\n1 1\n255\n\xF5";
    assert!(&rt; writes(alloc, &mut *device, &gamma, file));
    let file = b"P5\n# SANE data follows\n1 1\n255\n\x0A";
    assert!(&rt; writes(alloc, &mut *device, ONE_PLACE, file));
    drop(device);
    for mut it in [FLATBED, THREE_PASS] {
        it.page = b"P6\n1 1\n255\n\x0A\x0B\x0C";
        let mut device = it.made(&rt, alloc);
        let file = b"P6\n# SANE data follows\n1 1\n255\n\x7A\xF4\xF3";
        assert!(&rt; writes(alloc, &mut *device, &both, file));
        drop(device);
    }
}

const ANSWER: Over = Over::Ended(Status::Inval, Why::Answer);

const JAMMED: Over = Over::Ended(Status::Jammed, Why::Answer);

const FAILED: Over = Over::Ended(Status::IoError, Why::Answer);

const NO_MEM: Over = Over::Ended(Status::NoMem, Why::Answer);

/// Settings and a task, and how the job ends: what the first read of a frame answers in the place of its bytes; settings that are
/// not put; no dot; and no job of one file.
const ENDINGS: &[(&str, Task, Over)] = &[
    ("read-return-value=SANE_STATUS_EOF", Task::Scan, SHORT),
    ("read-return-value=SANE_STATUS_JAMMED", Task::Scan, JAMMED),
    ("read-return-value=SANE_STATUS_NO_MEM", Task::Scan, NO_MEM),
    ("contrast=1", Task::Scan, SETTING),
    ("resolution=fine", Task::Scan, SETTING),
    // A list of texts that has none that begins so; and at depth 16 the option is inactive.
    ("mode=SANE", Task::Show, ANSWER),
    ("depth=16 gamma-table=0", Task::Scan, ANSWER),
    // No scanner has colors at depth 1, and at 25 dots per inch a mm is less than one dot.
    ("mode=Color depth=1", Task::Scan, ANSWER),
    ("resolution=25 br-x=1 br-y=1", Task::Scan, ANSWER),
    ("", Task::Batch(1), SETTING),
    // What comes after the last setting that was put is not put.
    (
        "resolution=100 contrast=1 resolution=200",
        Task::Scan,
        SETTING,
    ),
];

#[test]
fn jobs_that_end(rt: HostRuntime) {
    let alloc = rt.alloc();
    let mut device = FLATBED.made(&rt, alloc);
    for (settings, task, over) in ENDINGS {
        assert!(&rt;
            ends(alloc, &mut *device, settings, *task, *over),
            "{settings}"
        );
    }
    assert!(&rt; has_resolution(alloc, &*device, 100));
    drop(device);
}

/// The second job sees 80 by 100 mm at 50 dots per inch: white but for the first place.
#[test]
fn settings_are_kept_for_their_own_job(rt: HostRuntime) {
    let alloc = rt.alloc();
    let it = Place {
        dpi: 50,
        page: b"P5\n1 1\n255\n\x00",
        ..FLATBED
    };
    let mut device = it.made(&rt, alloc);
    let (first, _) = run(alloc, &mut *device, "resolution=100", Task::SetOnly).expect(&rt, "a run");
    assert!(&rt; how(&first) == Over::Done && has_resolution(alloc, &*device, 100));
    let (second, file) = run(alloc, &mut *device, "", Task::Scan).expect(&rt, "a run");
    assert!(&rt; how(&second) == Over::Done && has_resolution(alloc, &*device, 50));
    let (head, raster) = file.split_at(file.len().min(35));
    assert!(&rt; head == b"P5\n# SANE data follows\n157 196\n255\n".as_slice());
    assert!(&rt; raster.len() == 30_772 && raster.first() == Some(&0));
    assert!(&rt; raster.iter().filter(|b| **b == 255).count() == 30_771);
    drop((first, second));
    drop(device);
}

/// An output that fails, or takes nothing, after each byte: no byte is written behind that.
#[test]
fn outputs_that_fail(rt: HostRuntime) {
    let alloc = rt.alloc();
    let mut device = FLATBED.made(&rt, alloc);
    let scan = job(&rt, alloc, ONE_BY_TWO, Task::Scan);
    for room in 0..=33 {
        for full in [Full::Fails, Full::FailsOnce, Full::TakesNothing] {
            let mut out = Disk::new(alloc, room, 3, full);
            let outcome = run_local(alloc, &mut *device, &scan, &mut out);
            assert!(&rt; how(&outcome) == if room < 33 { SINK } else { Over::Done });
            assert!(&rt; TWO_ROWS_FILE.get(..room) == Some(out.taken.as_slice()));
            assert!(&rt; device.at_rest());
            drop((outcome, out));
        }
    }
    drop(scan);
    drop(device);
}

/// How often an output is interrupted, and whether it takes what is put then.
const TOO_OFTEN: &[(u32, bool)] = &[(2, true), (1, true), (1, false), (0, true)];

/// Interrupted writes are counted over all that is put, and a failure stays noted.
#[test]
fn interrupted_too_often(rt: HostRuntime) {
    let mut outputs = OutputTally::with_again(3);
    let mut has_failed = false;
    for (interrupts, takes) in TOO_OFTEN {
        let mut out = Disk::new(rt.alloc(), 12, *interrupts, Full::Fails);
        assert!(&rt; put(&mut out, b"twelve bytes", &mut outputs) == *takes);
        has_failed |= !*takes;
        assert!(&rt; outputs.has_failed() == has_failed);
        drop(out);
    }
}
