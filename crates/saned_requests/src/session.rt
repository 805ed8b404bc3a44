use dispatch::Lease;
use sane_fixed::Text;

/// The frame of a session, and the device word that it is read from.
#[derive(Clone, Copy, Debug, PartialEq, Eq)]
pub enum DataPhase {
    Quiet,
    Waiting(usize),
    Streaming(usize),
    Ending,
}

/// An OPEN that waits for its AUTHORIZE.
#[derive(Drop)]
pub struct AwaitedAuthorization {
    pub name: Text,
    pub resource: Text,
}

/// How long a string value is in a reply: as its text with a NUL, or as its option's size, filled up with zero bytes.
#[derive(Clone, Copy, Debug, PartialEq, Eq)]
pub enum StringSize {
    OfText,
    OfOption,
}

/// A session that goes on.
///
/// **session (`Session`)**: its port; whether it was greeted; what its four device words stand for, each a lease or nothing; the
/// OPEN that awaits AUTHORIZE, if any; where its frame is. A frame is quiet, or waits for a connection, streams, or is to be
/// ended; these three are of a device word.
pub struct Session<D> {
    /// Where its data connections are accepted.
    pub port: u16,
    /// How string values are sent to it.
    pub strings: StringSize,
    /// Whether its INIT was answered.
    pub greeted: bool,
    /// What it holds, by device word.
    pub held: [Option<Lease<D>>; 4],
    pub awaited: Option<AwaitedAuthorization>,
    pub transfer: DataPhase,
}
