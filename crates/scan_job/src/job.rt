ghost use Rattle.std.specs.Prelude.{◌↔◌, IsTrue, All};
ghost use Rattle.scan_job.specs.JobSize.{IsJobText};

use sane_fixed::Text;
use thiserror::Error;

/// What a job is to do.
#[derive(Clone, Copy, Debug, PartialEq, Eq)]
pub enum Task {
    /// List the devices.
    List,
    /// Show the device's options, after the settings.
    Show,
    /// Put the settings, and no more.
    SetOnly,
    /// Put the settings, and scan to a Netpbm file.
    Scan,
    /// Put the settings, and scan at most so many pages of a feeder, 1 to 16, each to a Netpbm file of its own.
    Batch(u32),
}

/// The most pages of a batch.
pub const MOST_PAGES: u32 = 16;

impl Task {
    ghost use Rattle.std.specs.Prelude.{◌↔◌, IsTrue};
    ghost use Rattle.scan_job.specs.JobSize.{HasCount, IsBatch};

    /// Whether it scans pages to a file each.
    pub fn is_batch(self) -> bool
        ensures { IsTrue result ↔ IsBatch self }
    {
        match self {
            Task::Batch(_) => true,
            Task::List | Task::Show | Task::SetOnly | Task::Scan => false,
        }
    }

    /// Whether a batch is one of 1 to 16 pages. Any other task has no count to be tested.
    pub fn has_count(self) -> bool
        ensures { IsTrue result ↔ HasCount self }
    {
        match self {
            Task::Batch(count) => 1 <= count && count <= MOST_PAGES,
            Task::List | Task::Show | Task::SetOnly | Task::Scan => true,
        }
    }
}

/// Why a job is refused.
#[derive(Clone, Copy, Debug, PartialEq, Eq, Error)]
pub enum JobFault {
    /// More than 64 settings.
    #[error("more than 64 settings")]
    TooManySettings = 1,
    /// A text of more than 1,023 bytes.
    #[error("a text of more than 1,023 bytes")]
    TextTooLong = 2,
    /// No memory for what the job begins with.
    #[error("out of memory")]
    NoMem = 3,
    /// A batch of no page, or of more than 16.
    #[error("a batch of no page, or of more than 16")]
    BadCount = 4,
}

const _: () = prove!(JobFault::TooManySettings as u32 == 1);

const _: () = prove!(JobFault::TextTooLong as u32 == 2);

const _: () = prove!(JobFault::NoMem as u32 == 3);

const _: () = prove!(JobFault::BadCount as u32 == 4);

/// A job for a scanner. Its texts have at most 1,023 bytes, and it has at most 64 settings.
#[derive(Drop)]
pub struct Job {
    /// The user and the password, where the device wants them.
    pub user: Text,
    pub password: Text,
    /// The device's name.
    pub device: Text,
    /// Names of options and what they are to be set to, in the order in which they are put.
    pub settings: Vec<(Text, Text)>,
    pub task: Task,
}

/// The most settings of a job.
pub const MOST_SETTINGS: usize = 64;

/// The most bytes of a text of a job.
pub const LONGEST_TEXT: usize = 1023;

impl Job {
    ghost use Rattle.std.specs.Prelude.{◌↔◌, IsTrue};
    ghost use Rattle.scan_job.specs.JobSize.{HasJobFault, HasJobSize};

    /// Whether the job has at most 64 settings, and no text of more than 1,023 bytes.
    pub fn has_size(&self) -> bool
        /// How large a job may be, and which fault of its size comes first.
        /// Carried by: `Job::has_size`, `Job::fault`
        ensures { IsTrue result ↔ HasJobSize self.now }
    {
        self.settings.len() <= MOST_SETTINGS
            && is_short(&self.user)
            && is_short(&self.password)
            && is_short(&self.device)
            && are_short(&self.settings)
    }

    /// Why the job is refused, out of memory aside: the first of too many settings, a text that is too long, and
    /// a batch's count.
    pub fn fault(&self) -> Option<JobFault>
        ensures { HasJobFault self.now result }
    {
        if self.settings.len() > MOST_SETTINGS {
            Some(JobFault::TooManySettings)
        } else if !self.has_size() {
            Some(JobFault::TextTooLong)
        } else if !self.task.has_count() {
            Some(JobFault::BadCount)
        } else {
            None
        }
    }
}

fn is_short(text: &Text) -> bool
    ensures { IsTrue result ↔ IsJobText text.now }
{
    text.as_bytes().len() <= LONGEST_TEXT
}

fn are_short(settings: &[(Text, Text)]) -> bool
    ensures { IsTrue result
        ↔ All (λ setting. IsJobText setting.0 × IsJobText setting.1) settings.now }
{
    settings
        .iter()
        .all(|(name, text)| is_short(name) && is_short(text))
}
