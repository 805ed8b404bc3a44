use thiserror::Error;

/// Why no world is made.
#[derive(Clone, Copy, Debug, PartialEq, Eq, Error)]
pub enum WorldFault {
    /// Two devices have one name.
    #[error("same name twice")]
    SameName = 1,
    /// More than sixteen devices were handed in.
    #[error("more than 16 devices")]
    TooManyDevices = 2,
    /// More than eight jobs were handed in.
    #[error("more than 8 jobs")]
    TooManyJobs = 3,
    /// A client refuses a job.
    #[error("a job is refused")]
    BadJob = 4,
    #[error("out of memory")]
    NoMem = 5,
}

const _: () = prove!(WorldFault::SameName as u32 == 1);

const _: () = prove!(WorldFault::TooManyDevices as u32 == 2);

const _: () = prove!(WorldFault::TooManyJobs as u32 == 3);

const _: () = prove!(WorldFault::BadJob as u32 == 4);

const _: () = prove!(WorldFault::NoMem as u32 == 5);
