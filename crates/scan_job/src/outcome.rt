use crate::report::Reports;
use sane_fixed::Status;

/// Why a job ended with a status.
#[derive(Clone, Copy, Debug, PartialEq, Eq)]
pub enum Why {
    /// A device or a daemon answered so.
    Answer,
    /// The job was cancelled.
    Cancelled,
    /// A connection was lost, or cannot be made.
    Lost,
    /// An answer or a frame is not as it may be.
    Malformed,
    /// A frame ended before its last byte.
    Short,
    /// A frame has more bytes than were told.
    Long,
    /// A setting names no option or does not read; the job is too large; or there is no such device.
    Setting,
    /// A plain password was asked for.
    Plain,
    /// There was no memory.
    Memory,
    /// The output failed or cannot be made.
    Sink,
}

impl Why {
    ghost use Rattle.std.specs.Prelude.{◌≡◌};
    ghost use Rattle.scan_job.specs.Why.{why_word};

    /// The word for it in scanimage's line of an ending.
    pub fn word(self) -> &'static str
        /// The words of endings.
        ensures { result.now ≡ why_word self }
    {
        match self {
            Why::Answer => "answer",
            Why::Cancelled => "cancelled",
            Why::Lost => "lost",
            Why::Malformed => "malformed",
            Why::Short => "short",
            Why::Long => "long",
            Why::Setting => "setting",
            Why::Plain => "plain password asked",
            Why::Memory => "memory",
            Why::Sink => "output",
        }
    }
}

/// How far a job is. Once it is done or ended, that never changes.
#[derive(Drop)]
pub enum Outcome {
    Running,
    Done(Reports),
    Ended(Status, Why),
}
