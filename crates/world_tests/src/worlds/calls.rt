//! A run of one job over connections, made call by call.

use super::jobs::{ONE_BY_TWO, ROWS, ROWS_FILE, Worked};
use super::*;
use worked_run::run_once;

/// A task, its settings, and the file that goes out, or that there is no run to Done.
const RUNS: &[(Task, &str, Option<&[u8]>)] = &[
    (Task::Scan, ONE_BY_TWO, Some(ROWS_FILE)),
    (Task::SetOnly, ONE_BY_TWO, Some(b"")),
    (Task::Show, "", Some(b"")),
    (Task::List, "", Some(b"")),
    // A job that ends otherwise, and a batch.
    (Task::Scan, "mode=Cyan", None),
    (Task::Batch(1), ONE_BY_TWO, None),
];

/// The job runs at a daemon of the scanner, and this file goes out, or it is not Done.
fn expect_run(rt: &impl Abort, alloc: Global, it: &Worked, file: Option<&[u8]>) {
    let mut daemon = daemon_of(rt, alloc, &[it.scanner], StringSize::OfText);
    let asked = job(alloc, &it.asked()).expect(rt, "a job");
    let told = run_once(alloc, &mut daemon, asked);
    match (&told, file) {
        (Some((_, bytes)), Some(file)) => assert!(rt; bytes.as_slice() == file),
        (None, None) => {}
        _ => panic!(rt; "another end"),
    }
    drop(told);
    drop(daemon);
}

#[test]
fn runs_call_by_call(rt: HostRuntime) {
    for (task, settings, file) in RUNS {
        let it = Worked {
            settings: *settings,
            task: *task,
            ..ROWS
        };
        expect_run(&rt, rt.alloc(), &it, *file);
    }
}
