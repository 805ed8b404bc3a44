//! Batches: pages scanned one after another, each to an output of its own.

use super::{FLATBED, Place};
use crate::common::{ONE_PLACE, SETTING};
use crate::outputs::Rack;
use device_api::Device;
use local_job::run_local_batch;
use page_picture::DeviceKind;
use sane_fixed::Status;
use scan_job::{Task, Why};
use std::alloc::Global;
use testing::{Over, dots, how};

const FEEDER: Place = Place {
    kind: DeviceKind::Feeder,
    ..FLATBED
};

const SEVEN: &[u8] = b"P5\n# SANE data follows\n1 1\n255\n\x07";

const EIGHT: &[u8] = b"P5\n# SANE data follows\n1 1\n255\n\x08";

const NINE: &[u8] = b"P5\n# SANE data follows\n1 1\n255\n\x09";

/// Whether a job on that shelf stands so, and the device is at rest.
fn ends(
    alloc: Global,
    device: &mut dyn Device,
    line: &str,
    task: Task,
    rack: &mut Rack,
) -> Option<Over> {
    let given = testing::job(alloc, b"feeder:0", line, task)?;
    let outcome = run_local_batch(alloc, device, &given, rack);
    let over = how(&outcome);
    drop((given, outcome));
    if device.at_rest() { Some(over) } else { None }
}

const NO_DOCS: Over = Over::Ended(Status::NoDocs, Why::Answer);

/// Jobs at one feeder of the pages 7, 8, 9 and 7, one after another: what is left is a batch of its own, and where nothing is there
/// is no page; a batch of no page, or of too many, is refused.
const JOBS: &[(Task, &[&[u8]], Over)] = &[
    (Task::List, &[], Over::Done),
    (Task::Show, &[], Over::Done),
    (Task::SetOnly, &[], Over::Done),
    (Task::Batch(0), &[], SETTING),
    (Task::Batch(17), &[], SETTING),
    (Task::Scan, &[SEVEN], Over::Done),
    (Task::Batch(1), &[EIGHT], Over::Done),
    (Task::Batch(16), &[NINE, SEVEN], Over::Done),
    (Task::Batch(16), &[], NO_DOCS),
    (Task::Scan, &[], NO_DOCS),
];

#[test]
fn pages_of_a_tray(rt: HostRuntime) {
    let alloc = rt.alloc();
    let pages = dots(alloc, &[7, 8, 9, 7]).expect(&rt, "pages");
    let mut device = FEEDER.with(alloc, pages).expect(&rt, "a feeder");
    for (task, files, over) in JOBS {
        let mut rack = Rack::new(alloc, usize::MAX, 0, 0);
        let found = ends(alloc, &mut *device, ONE_PLACE, *task, &mut rack);
        assert!(&rt; found == Some(*over) && rack.holds(files));
        assert!(&rt; rack.opens as usize == files.len());
        drop(rack);
    }
    drop(device);
}
