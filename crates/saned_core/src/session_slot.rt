//! A session's place among those that stand, and what it holds.

use crate::replies::Replies;
use saned_requests::Session;
use thiserror::Error;
use wire_codec::Decoder;

/// A session, of all that were opened.
#[derive(Clone, Copy, Debug, PartialEq, Eq)]
pub struct SessionId {
    /// How many were opened before it.
    pub(crate) number: u64,
}

/// Why no session is opened. Its room is there from the start, so `NoMem` never comes.
#[derive(Clone, Copy, Debug, Error, PartialEq, Eq)]
pub enum OpenFault {
    /// Eight sessions stand, or 2^64-1 were opened.
    #[error("no further session")]
    Full = 1,
    #[error("out of memory")]
    NoMem = 2,
}

const _: () = prove!(OpenFault::Full as u32 == 1);

const _: () = prove!(OpenFault::NoMem as u32 == 2);

/// What became of a session that was fed.
#[derive(Clone, Copy, Debug, PartialEq, Eq)]
pub enum Fed {
    Standing,
    Over,
    /// Out of memory ended it in this call.
    Starved,
}

/// Where a session's frame is.
#[derive(Clone, Copy, Debug, PartialEq, Eq)]
pub enum FrameState {
    /// There is none.
    Quiet,
    /// It waits for its connection.
    Waiting,
    Streaming,
    /// Its end record is still to be sent.
    Ending,
}

/// What a turn of a data connection wrote.
#[derive(Clone, Copy, Debug, PartialEq, Eq)]
pub enum DataStep {
    Idle,
    /// So many bytes: one whole record.
    Bytes(usize),
    /// So many bytes: the end record, behind which the connection is closed.
    Last(usize),
}

/// A session that stands: it goes on, or it is over and some of its replies wait.
pub struct SessionSlot<D> {
    pub number: u64,
    /// What came and was not answered yet; of no meaning where the session is over.
    pub input: Decoder,
    pub replies: Replies,
    pub session: Option<Session<D>>,
}
