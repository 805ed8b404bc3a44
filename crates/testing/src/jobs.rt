use crate::text;
use sane_fixed::{Status, Text};
use scan_job::{Job, Outcome, Task, Why};
use std::alloc::Global;

/// The settings of a line as `depth=8 mode=Gray`, in their order.
fn settings_of(alloc: Global, line: &str) -> Option<Vec<(Text, Text)>> {
    let mut settings = Vec::new(alloc);
    for word in line.split(' ') {
        if let Some((name, value)) = word.split_once('=') {
            let setting = (
                text(alloc, name.as_bytes())?,
                text(alloc, value.as_bytes())?,
            );
            settings.push(setting).ok()?;
        }
    }
    Some(settings)
}

/// A job of `user`, whose password is `bc`, with the settings of a line as `depth=8 mode=Gray`.
pub fn job(alloc: Global, device: &[u8], line: &str, task: Task) -> Option<Job> {
    Some(Job {
        user: text(alloc, b"user")?,
        password: text(alloc, b"bc")?,
        device: text(alloc, device)?,
        settings: settings_of(alloc, line)?,
        task,
    })
}

/// How a job stands.
#[derive(Clone, Copy, Debug, PartialEq, Eq)]
pub enum Over {
    Running,
    Done,
    Ended(Status, Why),
}

/// How a job of that outcome stands.
pub fn how(outcome: &Outcome) -> Over {
    match outcome {
        Outcome::Running => Over::Running,
        Outcome::Done(_) => Over::Done,
        Outcome::Ended(status, why) => Over::Ended(*status, *why),
    }
}
