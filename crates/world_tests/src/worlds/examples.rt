//! The worked examples of worlds whose calls promise, run to their bytes.

use super::*;
use page_picture::Page;
use page_sources::read_page;
use sane_fixed::Text;
use scan_world::{scan_beside, scan_once, scan_with_another};
use worked_worlds::{
    NoFile, list_both, scan_both_surely, scan_no_page, scan_of_taken_out, scan_pages, scan_surely,
    scan_with_password, scan_with_wrong_password, show_options,
};

/// A device's name, a page of one dot, 7, the users of these lines, and the job.
pub fn parts(
    rt: &impl Abort,
    alloc: Global,
    name: &[u8],
    lines: &[u8],
    asked: &Asked,
) -> (Text, Page, Users, Job) {
    let name = text(alloc, name).expect(rt, "a name");
    let users = Users::parse(alloc, lines).expect(rt, "users");
    let job = job(alloc, asked).expect(rt, "a job");
    (name, dot(rt, alloc, SEVEN_DOT), users, job)
}

fn dot(rt: &impl Abort, alloc: Global, file: &[u8]) -> Page {
    read_page(alloc, file, 26).expect(rt, "a page")
}

/// The other flatbed's page fails as soon as it is read; and a client that asks for a device that another one has is told so.
#[test]
fn one_client_scans_a_dot(rt: HostRuntime) {
    let alloc = rt.alloc();
    let (name, page, users, asked) = parts(&rt, alloc, FLATBED.name, b"", &SCAN_DOT);
    let alone = scan_once(alloc, name, page, users, asked).expect(&rt, "a file");
    assert!(rt; alone.as_slice() == SEVEN);
    let (name, page, users, asked) = parts(&rt, alloc, FLATBED.name, b"", &SCAN_DOT);
    let other_name = text(alloc, b"flatbed:1").expect(&rt, "a name");
    let other = testing::failing_source(alloc, SEVEN_DOT, 26, 1).expect(&rt, "another page");
    let beside = scan_with_another(alloc, name, page, other_name, other, users, asked);
    assert!(rt; beside.expect(&rt, "a file").as_slice() == SEVEN);
    let (name, page, users, first) = parts(&rt, alloc, FLATBED.name, b"", &SCAN_DOT);
    let second = job(alloc, &SHOW).expect(&rt, "a job");
    let shared = scan_beside(alloc, name, page, users, first, second);
    let (file, was_busy) = shared.expect(&rt, "a file");
    assert!(rt; file.as_slice() == SEVEN && was_busy);
}

/// A scan at the defaults, and one of a feeder's pages.
const PLAIN: Asked = Asked {
    settings: "",
    ..SCAN_DOT
};

const FED: Asked = Asked {
    device: b"feeder:0",
    ..PLAIN
};

const LIST: Asked = Asked {
    device: b"",
    task: Task::List,
    ..PLAIN
};

/// The password of the job, and another one.
const RIGHT: &[u8] = b"user:bc:flatbed\n";

const WRONG: &[u8] = b"user:cb:flatbed\n";

/// A list of two flatbeds, options shown, one that was taken out, and an empty tray.
#[test]
fn one_client_is_told(rt: HostRuntime) {
    let alloc = rt.alloc();
    let (name, page, users, asked) = parts(&rt, alloc, FLATBED.name, b"", &LIST);
    let other = text(alloc, b"flatbed:1").expect(&rt, "a name");
    let other_page = dot(&rt, alloc, NINE_DOT);
    assert!(rt; list_both(alloc, name, page, other, other_page, users, asked));
    let (name, page, users, asked) = parts(&rt, alloc, FLATBED.name, b"", &SHOW);
    assert!(rt; show_options(alloc, name, page, users, asked));
    let (name, page, users, asked) = parts(&rt, alloc, FLATBED.name, b"", &PLAIN);
    let taken = text(alloc, FLATBED.name).expect(&rt, "a name");
    assert!(rt; scan_of_taken_out(alloc, name, page, taken, users, asked));
    let (name, page, users, asked) = parts(&rt, alloc, b"feeder:0", b"", &FED);
    drop(page);
    assert!(rt; scan_no_page(alloc, name, users, asked));
}

#[test]
fn one_client_has_a_password(rt: HostRuntime) {
    let alloc = rt.alloc();
    let (name, page, users, asked) = parts(&rt, alloc, FLATBED.name, RIGHT, &PLAIN);
    assert!(rt; scan_with_password(alloc, name, page, users, asked));
    let (name, page, users, asked) = parts(&rt, alloc, FLATBED.name, WRONG, &PLAIN);
    assert!(rt; scan_with_wrong_password(alloc, name, page, users, asked));
    let (name, page, users, asked) = parts(&rt, alloc, FLATBED.name, RIGHT, &PLAIN);
    match scan_surely(alloc, name, page, users, asked) {
        Ok(file) => assert!(rt; is_at_defaults(&file, 7)),
        Err(_) => panic!(rt; "no file"),
    }
}

/// At the defaults a file of 157 by 196 dots, of which the four that show the page's one dot have this byte, and all others
/// are white.
fn is_at_defaults(file: &[u8], byte: u8) -> bool {
    let (head, raster) = file.split_at(file.len().min(35));
    let mut is_so = head == b"P5\n# SANE data follows\n157 196\n255\n".as_slice();
    is_so &= raster.len() == 30_772;
    for (at, dot) in raster.iter().enumerate() {
        let is_shown = at % 157 < 2 && at < 314;
        is_so &= *dot == if is_shown { byte } else { 255 };
    }
    is_so
}

/// What two pages of a feeder, whose backend the users guard, come to in a batch of that many.
fn both_dots(rt: &impl Abort, alloc: Global, count: u32) -> Result<(Vec<u8>, Vec<u8>), NoFile> {
    let batch = Asked {
        task: Task::Batch(count),
        ..FED
    };
    let (name, first, users, asked) = parts(rt, alloc, FED.device, b"user:bc:feeder\n", &batch);
    scan_both_surely(alloc, name, first, dot(rt, alloc, NINE_DOT), users, asked)
}

/// A batch of one leaves the other page in the tray.
#[test]
fn one_client_scans_two_pages(rt: HostRuntime) {
    let alloc = rt.alloc();
    let batch = Asked {
        settings: ONE_DOT,
        task: Task::Batch(2),
        ..FED
    };
    let (name, first, users, asked) = parts(&rt, alloc, FED.device, b"", &batch);
    let files = scan_pages(alloc, name, first, dot(&rt, alloc, NINE_DOT), users, asked);
    let (first, second) = files.expect(&rt, "two files");
    assert!(rt; first.as_slice() == SEVEN && second.as_slice() == NINE);
    match both_dots(&rt, alloc, 2) {
        Ok((first, second)) => {
            assert!(rt; is_at_defaults(&first, 7) && is_at_defaults(&second, 9));
        }
        Err(_) => panic!(rt; "no files"),
    }
    match both_dots(&rt, alloc, 1) {
        Ok(_) => panic!(rt; "two files"),
        Err(why) => assert!(rt; why == NoFile::TooFewPages),
    }
}
