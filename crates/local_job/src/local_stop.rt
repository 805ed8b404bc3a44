ghost use Rattle.std.specs.Prelude.{◌≡◌};
ghost use Rattle.local_job.specs.LocalStops.{bad_setting, stop_by_status};
ghost use Rattle.local_job.specs.Inside.{read_refused, stop_of_join, malformed_frames};

use frame_join::JoinFault;
use sane_fixed::Status;
use scan_job::{Stop, Why};

/// A setting names no option or does not read.
pub fn bad_setting() -> Stop
    ensures { result ≡ bad_setting }
{
    Stop {
        status: Status::Inval,
        why: Why::Setting,
    }
}

/// What the device answered ended the job; out of memory in the device is out of memory.
pub fn stop_by_status(status: Status) -> Stop
    ensures { result ≡ stop_by_status status }
{
    match status {
        Status::NoMem => Stop::no_memory(),
        _ => Stop {
            status,
            why: Why::Answer,
        },
    }
}

/// What a read answered ended the job. It takes no memory, so out of memory too is what it answered.
pub fn read_refused(status: Status) -> Stop
    ensures { result ≡ read_refused status }
{
    Stop {
        status,
        why: Why::Answer,
    }
}

/// What was told is not as it may be.
pub fn malformed_frames() -> Stop
    ensures { result ≡ malformed_frames }
{
    Stop {
        status: Status::IoError,
        why: Why::Malformed,
    }
}

/// The frames make no picture.
pub fn stop_of_join(fault: JoinFault) -> Stop
    ensures { result ≡ stop_of_join fault }
{
    let why = match fault {
        JoinFault::Shape => Why::Malformed,
        JoinFault::Long => Why::Long,
        JoinFault::Short => Why::Short,
        JoinFault::NoMem => return Stop::no_memory(),
    };
    Stop {
        status: Status::IoError,
        why,
    }
}
