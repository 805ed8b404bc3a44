ghost use Rattle.std.specs.Prelude.{◌≡◌, ◌<◌, length};
ghost use Rattle.page_sources.specs.SourceView.{source_state};
ghost use Rattle.scan_frames.specs.Frames.{IsSetup};
ghost use Rattle.scan_frames.specs.PassReading.{IsFrame};
ghost use Rattle.device_api.specs.State.{after_read_status, reported_pass};
ghost use Rattle.virtual_scanner.specs.Phases.{IsStill, pass_to_start, phase_of};
ghost use Rattle.virtual_scanner.specs.Answers.{AnswersRead};

use page_sources::Source;
use sane_fixed::Status;
use scan_frames::{FrameRows, Setup, last_pass};

/// Where a scan is.
#[derive(Drop)]
pub enum At {
    /// At rest; whether the last scan was cancelled.
    Rest(bool),
    /// So many passes have ended, and the next has not begun.
    Between(u32),
    Reading(FrameRows),
}

impl At {
    /// The pass that a start begins; `None` while a frame is read.
    pub fn pass_to_start(&self) -> Option<u32>
        ensures { result ≡ pass_to_start (phase_of self.now) }
    {
        match self {
            At::Rest(_) => Some(0),
            At::Between(ended) => Some(*ended),
            At::Reading(_) => None,
        }
    }

    /// The pass whose frame was started last; at rest, the first.
    pub fn reported_pass(&self) -> u32
        ensures { result ≡ reported_pass (phase_of self.now) }
    {
        match self {
            At::Rest(_) => 0,
            At::Between(ended) => ended.saturating_sub(1),
            At::Reading(frame) => frame.pass(),
        }
    }
}

/// Where a scan is after a frame of that pass that ended with the status: `Eof` lets the next pass come, if there is one.
pub fn after(setup: &Setup, pass: u32, status: Status) -> At
    ensures phase { phase_of result ≡ after_read_status setup.now pass status }
    ensures still { IsStill result }
{
    if status == Status::Eof && pass < last_pass(setup) {
        At::Between(pass + 1)
    } else {
        At::Rest(false)
    }
}

/// Answers a read in a frame: what the options tell in place of its first bytes, or the next bytes.
pub fn answer_read(
    frame: &mut FrameRows,
    source: &mut Source,
    setup: &Setup,
    buf: &mut [u8],
) -> Result<usize, Status>
    requires setup { IsSetup setup.now }
    requires frame { IsFrame (source_state source.old) setup.now frame.old }
    requires buf { 0 < length buf.old }
    ensures { AnswersRead setup.now
        (record { source = source_state source.old; frame = frame.old }) result
        (record { source = source_state source.new; frame = frame.new }) buf.new }
{
    if frame.is_new() {
        if let Some(status) = setup.told {
            return Err(status);
        }
    }
    Ok(frame.read(source, setup, buf)?)
}
