//! The calls, and what each of them answers.

ghost use Rattle.std.specs.Prelude.{◌≡◌, [], ◌∷◌, List, ℕ, Option, None, IfOk, IfSome, if◌then◌else◌, length};
ghost use Rattle.socket_calls.specs.SocketCall.{SocketCall, with_socket_calls, listening_call, listening_port, arrival_call, line_call};
ghost use Rattle.socket_calls.specs.SocketCall.SocketCall.{Peeks, BeginsTable, Takes, Closes, EndsListening};

use std::io::{self, Read, Write};
use std::net::SocketAddrV4;

/// A listener, and the port of this machine at which it listens.
#[derive(Drop)]
pub struct ListeningAt<L> {
    pub(crate) listener: L,
    pub(crate) port: u16,
}

impl<L> ListeningAt<L> {
    ghost use Rattle.socket_calls.specs.SocketCall.{listening_port};

    /// The port.
    pub fn port(&self) -> u16
        /// A listener's port is the one at which it listens.
        ensures { result ≡ listening_port self.now }
    {
        self.port
    }
}

/// A connection that came, and both its ends where they are known and of IPv4.
#[derive(Drop)]
pub struct Arrival<W> {
    pub stream: W,
    pub peer: Option<SocketAddrV4>,
    pub ours: Option<SocketAddrV4>,
}

/// What a connection's peer has done, as nothing was read of it yet.
#[derive(Clone, Copy, Debug, PartialEq, Eq)]
pub enum Peeked {
    /// Nothing: it waits.
    Nothing,
    /// It ended its side: it closed it, or only means to read.
    End,
    /// It spoke.
    Speech,
    /// The connection is broken.
    Break,
}

/// Sockets of the system on 127.0.0.1, whose calls never wait, and its table of sockets.
///
/// Each call on the system's sockets is told with what it came to, and the number of a connection that comes is how many calls
/// were made before.
/// Carried by: `SocketCalls`
pub trait SocketCalls {
    type Listener: Drop;
    /// A connection that came and that nobody took. It can be looked at and closed, but neither read nor written.
    type Waiting: Drop;
    /// A connection that was taken.
    type Conn: Read + Write + Drop;

    /// All calls so far with what they came to, the newest first, where they are told.
    ghost calls: { Self → Option (List SocketCall) } = { λ _. None };

    /// A connection's number in that list.
    ghost number: { Self.Waiting → ℕ } = { λ _. 0 };

    /// The same, of one that was taken.
    ghost taken_number: { Self.Conn → ℕ } = { λ _. 0 };

    /// Listens at that port, or where it is 0 at any that is free.
    fn listen(&mut self, port: u16) -> io::Result<ListeningAt<Self::Listener>>
        ensures { calls self.new
            ≡ with_socket_calls (listening_call port result ∷ []) (calls self.old) };

    /// The next connection that waits at a listener; none where nobody does for now.
    fn accept(
        &mut self,
        at: &ListeningAt<Self::Listener>,
    ) -> io::Result<Option<Arrival<Self::Waiting>>>
        ensures told { calls self.new
            ≡ with_socket_calls (arrival_call number (listening_port at.now) result ∷ [])
            (calls self.old) }
        ensures fresh { IfOk result (λ came. IfSome came (λ it. IfSome (calls self.old)
            (λ past. number it.stream ≡ length past))) };

    /// What a connection's peer has done so far.
    fn peek(&mut self, stream: &Self::Waiting) -> Peeked
        ensures { calls self.new
            ≡ with_socket_calls (Peeks (number stream.now) result ∷ []) (calls self.old) };

    /// Begins to read the table of sockets at its start, where the system tells one.
    fn begin_table(&mut self) -> bool
        ensures { calls self.new ≡ with_socket_calls (BeginsTable result ∷ []) (calls self.old) };

    /// Reads the table's next line, without its end; tells whether there is one that can be read.
    fn next_line(&mut self, line: &mut Vec<u8>) -> bool
        ensures { calls self.new
            ≡ with_socket_calls (line_call result line.new.items ∷ []) (calls self.old) };

    /// Takes a connection, to read and to write it.
    fn take(&mut self, stream: Self::Waiting) -> Self::Conn
        ensures told { calls self.new
            ≡ with_socket_calls (Takes (number stream) ∷ []) (calls self.old) }
        ensures number { taken_number result ≡ number stream };

    /// Closes a connection that nobody took.
    fn close(&mut self, stream: Self::Waiting)
        ensures { calls self.new
            ≡ with_socket_calls (Closes (number stream) ∷ []) (calls self.old) };

    /// Listens there no longer.
    fn end_listening(&mut self, at: ListeningAt<Self::Listener>)
        ensures { calls self.new
            ≡ with_socket_calls (EndsListening (listening_port at) ∷ []) (calls self.old) };
}
