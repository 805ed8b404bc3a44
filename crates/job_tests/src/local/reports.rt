//! What is told of settings.

use super::{FLATBED, HAND, run};
use option_desc::Value;
use sane_fixed::Info;
use scan_job::{Outcome, Report, Task};

/// What a setting was asked to be and was given as, as words of the wire.
fn words_of(report: &Report) -> Option<(i32, i32)> {
    match (&report.asked, &report.given) {
        (Value::Fixed(asked), Value::Fixed(given)) => Some((asked.0, given.0)),
        (Value::Int(asked), Value::Int(given)) => Some((*asked, *given)),
        _ => None,
    }
}

/// A setting, and the words by which it is asked for and given; it is inexact just where these differ.
type Given = (&'static str, i32, i32);

const BY_FLATBED: &[Given] = &[
    ("br-x=80.5", 0x508000, 0x510000),
    ("br-x=80", 0x500000, 0x500000),
    ("br-x=250", 0xfa0000, 0xc80000),
    ("depth=4", 4, 1),
    ("depth=12", 12, 8),
];

const BY_HAND: &[Given] = &[
    ("resolution=125", 125, 100),
    ("resolution=5000", 5000, 300),
    ("resolution=150", 150, 150),
];

/// The one report of a job.
fn report_of(outcome: &Outcome) -> Option<&Report> {
    match outcome {
        Outcome::Done(reports) => reports.settings.as_slice().first(),
        _ => None,
    }
}

#[test]
fn rounded_values(rt: HostRuntime) {
    let alloc = rt.alloc();
    for (it, rows) in [(&FLATBED, BY_FLATBED), (&HAND, BY_HAND)] {
        let mut device = it.made(&rt, alloc);
        for (line, asked, given) in rows {
            let (outcome, _) = run(alloc, &mut *device, line, Task::SetOnly).expect(&rt, "a run");
            let report = report_of(&outcome).expect(&rt, "a report");
            let inexact = if asked == given { 0 } else { Info::INEXACT };
            assert!(&rt; line.as_bytes().starts_with(report.name.as_bytes()));
            assert!(&rt; words_of(report) == Some((*asked, *given)));
            assert!(&rt; report.info.0 == inexact | Info::RELOAD_PARAMS);
            drop(outcome);
        }
        drop(device);
    }
}
