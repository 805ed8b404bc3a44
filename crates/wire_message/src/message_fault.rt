use thiserror::Error;
use wire_format::Fault;

/// Why a message is neither read nor written.
#[derive(Clone, Copy, Debug, PartialEq, Eq, Error)]
pub enum WireFault {
    /// No procedure has this code, or it has no reply.
    #[error("no procedure has this code")]
    BadCode = 1,
    /// A word or byte that nothing is spelled by; a value that has no spelling.
    #[error("nothing is spelled so")]
    BadValue = 2,
    /// A limit is passed.
    #[error("longer than the wire allows")]
    TooLong = 3,
    /// No memory for the message.
    #[error("out of memory")]
    NoMem = 4,
}

const _: () = prove!(WireFault::BadCode as u32 == 1);

const _: () = prove!(WireFault::BadValue as u32 == 2);

const _: () = prove!(WireFault::TooLong as u32 == 3);

const _: () = prove!(WireFault::NoMem as u32 == 4);

impl From<Fault> for WireFault {
    ghost use Rattle.std.specs.Prelude.{◌≡◌};
    ghost use Rattle.wire_message.specs.Faults.{wire_fault};

    ghost from_gives = { λ fault e. e ≡ wire_fault fault };

    fn from(fault: Fault) -> WireFault {
        match fault {
            Fault::BadCode => WireFault::BadCode,
            Fault::BadValue => WireFault::BadValue,
            Fault::TooLong => WireFault::TooLong,
        }
    }
}
