use sane_fixed::NoMem;
use std::alloc::AllocFailed;
use text_lines::LimitFault;
use thiserror::Error;

/// Why a line of a users file is refused, in the order of the tests.
#[derive(Clone, Copy, Debug, PartialEq, Eq, Error)]
#[error("{text}", text = self.text())]
pub enum LineReason {
    /// The file has more than 256 lines.
    TooMany = 1,
    /// The line has more than 256 bytes.
    TooLong = 2,
    /// A byte is not one of 20 to 7E (hexadecimal).
    BadByte = 3,
    /// The line has not exactly two colons.
    Colons = 4,
    /// The user or the backend is empty.
    EmptyField = 5,
    /// There was no memory.
    NoMem = 6,
}

const _: () = prove!(LineReason::TooMany as u32 == 1);

const _: () = prove!(LineReason::TooLong as u32 == 2);

const _: () = prove!(LineReason::BadByte as u32 == 3);

const _: () = prove!(LineReason::Colons as u32 == 4);

const _: () = prove!(LineReason::EmptyField as u32 == 5);

const _: () = prove!(LineReason::NoMem as u32 == 6);

/// The first line that is refused, counted from 1, and why.
#[derive(Clone, Copy, Debug, PartialEq, Eq, Error)]
#[error("line {line}: {reason}")]
pub struct LineFault {
    pub line: u32,
    pub reason: LineReason,
}

impl LineReason {
    ghost use Rattle.std.specs.Prelude.{◌≡◌};
    ghost use Rattle.md5_auth.specs.Reasons.{reason_text};

    /// The text of the reason.
    pub fn text(self) -> &'static str
        ensures { result.now ≡ reason_text self }
    {
        match self {
            LineReason::TooMany => "too many lines",
            LineReason::TooLong => "line too long",
            LineReason::BadByte => "bad byte",
            LineReason::Colons => "wrong number of fields",
            LineReason::EmptyField => "empty field",
            LineReason::NoMem => "out of memory",
        }
    }
}

impl From<LimitFault> for LineReason {
    ghost use Rattle.std.specs.Prelude.{◌≡◌};
    ghost use Rattle.md5_auth.specs.Reasons.{limit_reason};

    ghost from_gives = { λ fault reason. reason ≡ limit_reason fault };

    fn from(fault: LimitFault) -> Self {
        match fault {
            LimitFault::TooMany => LineReason::TooMany,
            LimitFault::TooLong => LineReason::TooLong,
        }
    }
}

impl From<NoMem> for LineReason {
    ghost use Rattle.std.specs.Prelude.{◌≡◌};
    ghost use Rattle.md5_auth.specs.declared.line_fault.LineReason.TheVariants.{NoMem as OutOfMemory};

    ghost from_gives = { λ _ reason. reason ≡ OutOfMemory };

    fn from(_: NoMem) -> Self {
        LineReason::NoMem
    }
}

impl<T: Drop> From<AllocFailed<T>> for LineReason {
    ghost use Rattle.std.specs.Prelude.{◌≡◌};
    ghost use Rattle.md5_auth.specs.declared.line_fault.LineReason.TheVariants.{NoMem as OutOfMemory};

    ghost from_gives = { λ _ reason. reason ≡ OutOfMemory };

    fn from(_: AllocFailed<T>) -> Self {
        LineReason::NoMem
    }
}
