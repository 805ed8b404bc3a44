use sane_fixed::Status;
use thiserror::Error;

/// Why no frame was begun.
#[derive(Clone, Copy, Debug, PartialEq, Eq, Error)]
pub enum BeginFault {
    /// The options mean no picture on the page.
    #[error("the options mean no picture on the page")]
    NoPicture,
    /// The page source did not go back to its first row.
    #[error("the page source did not go back to its first row")]
    SourceFailed,
    #[error("out of memory")]
    NoMem,
}

/// Why a read gave no byte.
#[derive(Clone, Copy, Debug, PartialEq, Eq, Error)]
pub enum ReadEnd {
    /// All bytes of the frame were given.
    #[error("the frame is at its end")]
    End,
    /// The page source did not give the next row.
    #[error("the page source did not give the next row")]
    SourceFailed,
}

impl From<BeginFault> for Status {
    ghost use Rattle.std.specs.Prelude.{◌≡◌};
    ghost use Rattle.scan_frames.specs.StatusOf.{begin_status};

    ghost from_gives = { λ fault status. status ≡ begin_status fault };

    fn from(fault: BeginFault) -> Self {
        match fault {
            BeginFault::NoPicture => Status::Inval,
            BeginFault::SourceFailed => Status::IoError,
            BeginFault::NoMem => Status::NoMem,
        }
    }
}

impl From<ReadEnd> for Status {
    ghost use Rattle.std.specs.Prelude.{◌≡◌};
    ghost use Rattle.scan_frames.specs.StatusOf.{end_status};

    ghost from_gives = { λ end status. status ≡ end_status end };

    fn from(end: ReadEnd) -> Self {
        match end {
            ReadEnd::End => Status::Eof,
            ReadEnd::SourceFailed => Status::IoError,
        }
    }
}
