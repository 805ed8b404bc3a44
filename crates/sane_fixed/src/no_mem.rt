use crate::status::Status;
use std::alloc::{AllocError, AllocFailed};
use thiserror::Error;

/// Out of memory.
#[derive(Clone, Copy, Debug, PartialEq, Eq, Error)]
#[error("out of memory")]
pub struct NoMem;

impl From<AllocError> for NoMem {
    fn from(_: AllocError) -> Self {
        NoMem
    }
}

impl<T: Drop> From<AllocFailed<T>> for NoMem {
    fn from(_: AllocFailed<T>) -> Self {
        NoMem
    }
}

impl From<NoMem> for Status {
    ghost use Rattle.std.specs.Prelude.{◌≡◌};
    ghost use Rattle.sane_fixed.specs.declared.status.Status.TheVariants.{NoMem as WantOfMemory};

    ghost from_gives = { λ _ status. status ≡ WantOfMemory };

    fn from(_: NoMem) -> Self {
        Status::NoMem
    }
}

impl From<AllocError> for Status {
    ghost use Rattle.std.specs.Prelude.{◌≡◌};
    ghost use Rattle.sane_fixed.specs.declared.status.Status.TheVariants.{NoMem as WantOfMemory};

    ghost from_gives = { λ _ status. status ≡ WantOfMemory };

    fn from(_: AllocError) -> Self {
        Status::NoMem
    }
}

impl<T: Drop> From<AllocFailed<T>> for Status {
    ghost use Rattle.std.specs.Prelude.{◌≡◌};
    ghost use Rattle.sane_fixed.specs.declared.status.Status.TheVariants.{NoMem as WantOfMemory};

    ghost from_gives = { λ _ status. status ≡ WantOfMemory };

    fn from(_: AllocFailed<T>) -> Self {
        Status::NoMem
    }
}
