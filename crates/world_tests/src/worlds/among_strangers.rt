//! A job among strangers, run to its bytes.

use super::examples::parts;
use super::*;
use worked_strangers::{NoScan, is_busy_among_strangers, scan_among_strangers};

/// A job that names another device.
const OTHER: Asked = Asked {
    device: b"flatbed:1",
    ..SCAN_DOT
};

/// The users and the job, and the file of the scan of a dot among strangers, or why there is none: a job that names another
/// device is not done, and strangers do not have one that a line of the users guards.
const SCANNED: &[(&[u8], Asked, Result<&[u8], NoScan>)] = &[
    (b"", SCAN_DOT, Ok(SEVEN)),
    (b"", OTHER, Err(NoScan::NotDone)),
    (b"user:bc:flatbed\n", SCAN_DOT, Err(NoScan::NotHeard)),
];

#[test]
fn one_client_scans_a_dot_among_strangers(rt: HostRuntime) {
    let alloc = rt.alloc();
    for (users, asked, wanted) in SCANNED {
        let (name, page, users, job) = parts(&rt, alloc, FLATBED.name, users, asked);
        let scanned = scan_among_strangers(alloc, name, page, users, job);
        match (&scanned, wanted) {
            (Ok(file), Ok(wanted)) => assert!(rt; file.as_slice() == *wanted),
            (Err(why), Err(wanted)) => assert!(rt; why == wanted),
            _ => panic!(rt; "another end"),
        }
        drop(scanned);
    }
}

#[test]
fn one_client_finds_a_strangers_flatbed_busy(rt: HostRuntime) {
    let (name, page, users, job) = parts(&rt, rt.alloc(), FLATBED.name, b"", &SCAN_DOT);
    assert!(rt; is_busy_among_strangers(rt.alloc(), name, page, users, job));
}
