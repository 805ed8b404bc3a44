//! What the tests of all jobs begin with.

use sane_fixed::{Status, Text};
use scan_job::{Job, Task, Why};
use std::alloc::Global;
use std::process::Abort;
use testing::Over;

/// The settings that show a page of one place as it is.
pub const ONE_PLACE: &str = "resolution=26 br-x=1 br-y=1";

pub const LOST: Over = Over::Ended(Status::IoError, Why::Lost);

pub const SINK: Over = Over::Ended(Status::IoError, Why::Sink);

pub const SHORT: Over = Over::Ended(Status::IoError, Why::Short);

/// Settings, or a job that is none.
pub const SETTING: Over = Over::Ended(Status::Inval, Why::Setting);

pub fn text(rt: &impl Abort, alloc: Global, bytes: &[u8]) -> Text {
    testing::text(alloc, bytes).expect(rt, "a text")
}

/// A job of `user`, whose password is `bc`, with the settings of a line as `depth=8 mode=Gray`.
pub fn job(rt: &impl Abort, alloc: Global, settings: &str, task: Task) -> Job {
    testing::job(alloc, b"flatbed:0", settings, task).expect(rt, "a job")
}
