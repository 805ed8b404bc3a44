//! Why reading or writing stops.

ghost use Rattle.std.specs.Prelude.{◌≡◌};

use std::alloc::{AllocError, AllocFailed};
use thiserror::Error;

/// What stands where no spelling can.
#[derive(Clone, Copy, Debug, PartialEq, Eq, Error)]
pub enum Fault {
    /// No message has this code.
    #[error("no message has this code")]
    BadCode = 1,
    /// A word or byte that nothing is spelled by.
    #[error("nothing is spelled so")]
    BadValue = 2,
    /// A length past its limit.
    #[error("longer than its limit")]
    TooLong = 3,
}

const _: () = prove!(Fault::BadCode as u32 == 1);

const _: () = prove!(Fault::BadValue as u32 == 2);

const _: () = prove!(Fault::TooLong as u32 == 3);

/// The bytes that are wanted at the least: there is no value before so many more have come, and until
/// then there is a fault only at a byte below `least`.
#[derive(Clone, Copy, Debug, PartialEq, Eq)]
pub struct MissingBytes {
    /// How many, 1 at the least.
    pub count: usize,
    pub least: u8,
}

/// Why reading stops before a value.
#[derive(Clone, Copy, Debug, PartialEq, Eq, Error)]
pub enum ReadStop {
    /// The bytes end inside a value.
    #[error("the bytes end inside a value")]
    More(MissingBytes),
    #[error("{0}")]
    Bad(Fault),
}

/// Why a reader gives no value.
#[derive(Debug, Drop, Error)]
pub enum ReadError {
    /// No memory for the value.
    #[error("out of memory")]
    Memory,
    #[error("{0}")]
    Stop(ReadStop),
}

impl From<AllocError> for ReadError {
    ghost use Rattle.wire_format.specs.declared.fault.ReadError.TheVariants.{Memory};

    ghost from_gives = { λ _ e. e ≡ Memory };

    fn from(_: AllocError) -> ReadError {
        ReadError::Memory
    }
}

impl<T: Drop> From<AllocFailed<T>> for ReadError {
    ghost use Rattle.wire_format.specs.declared.fault.ReadError.TheVariants.{Memory};

    ghost from_gives = { λ _ e. e ≡ Memory };

    fn from(_: AllocFailed<T>) -> ReadError {
        ReadError::Memory
    }
}

/// Why a writer ends. What it wrote before stands.
#[derive(Clone, Copy, Debug, PartialEq, Eq, Error)]
pub enum WriteError {
    /// No memory for more bytes.
    #[error("out of memory")]
    Memory,
    /// Nothing spells the value.
    #[error("nothing spells the value")]
    Unspelled,
}

impl From<AllocError> for WriteError {
    ghost use Rattle.wire_format.specs.declared.fault.WriteError.TheVariants.{Memory};

    ghost from_gives = { λ _ e. e ≡ Memory };

    fn from(_: AllocError) -> WriteError {
        WriteError::Memory
    }
}

impl<T: Drop> From<AllocFailed<T>> for WriteError {
    ghost use Rattle.wire_format.specs.declared.fault.WriteError.TheVariants.{Memory};

    ghost from_gives = { λ _ e. e ≡ Memory };

    fn from(_: AllocFailed<T>) -> WriteError {
        WriteError::Memory
    }
}
