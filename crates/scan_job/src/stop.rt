ghost use Rattle.std.specs.Prelude.{◌≡◌};
ghost use Rattle.scan_job.specs.Stops.{no_memory};

use crate::outcome::Why;
use sane_fixed::{NoMem, Status};
use std::alloc::{AllocError, AllocFailed};

/// How a job ended before it was done.
#[derive(Clone, Copy, Debug, PartialEq, Eq)]
pub struct Stop {
    pub status: Status,
    pub why: Why,
}

impl Stop {
    ghost use Rattle.std.specs.Prelude.{◌≡◌};
    ghost use Rattle.scan_job.specs.Stops.{no_memory, failed_output};

    /// There was no memory.
    pub fn no_memory() -> Stop
        ensures { result ≡ no_memory }
    {
        Stop {
            status: Status::NoMem,
            why: Why::Memory,
        }
    }

    /// The output failed, or took nothing.
    pub fn failed_output() -> Stop
        ensures { result ≡ failed_output }
    {
        Stop {
            status: Status::IoError,
            why: Why::Sink,
        }
    }
}

impl From<NoMem> for Stop {
    ghost from_gives = { λ _ stop. stop ≡ no_memory };

    fn from(_: NoMem) -> Self {
        Stop::no_memory()
    }
}

impl<T: Drop> From<AllocFailed<T>> for Stop {
    ghost from_gives = { λ _ stop. stop ≡ no_memory };

    fn from(_: AllocFailed<T>) -> Self {
        Stop::no_memory()
    }
}

impl From<AllocError> for Stop {
    ghost from_gives = { λ _ stop. stop ≡ no_memory };

    fn from(_: AllocError) -> Self {
        Stop::no_memory()
    }
}
