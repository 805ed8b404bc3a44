//! Connections that never wait, and whence they come.

ghost use Rattle.std.specs.Prelude.{◌≡◌, ◌≤◌, ◌<◌, ℕ, Option, None, Some, IfSome, is_some, [], length};
ghost use Rattle.saned_serve.specs.ConnectionTraces.{ConnectionTrace, MovesWithin, after_read, after_write, IsTrace};
ghost use Rattle.saned_serve.specs.ListenerTraces.{ListenerTrace, with_notice, IsForgotten};
ghost use Rattle.saned_serve.specs.ListenerTraces.Notice.{Asked, Port, Dialed, Shut, Back};

/// What a call on a socket came to.
#[derive(Clone, Copy, Debug, PartialEq, Eq)]
pub enum Got {
    /// So many bytes moved, at least one.
    Moved(usize),
    /// None did, for now.
    Nothing,
    /// The connection is lost, or its input is at its end.
    Lost,
}

/// A connection whose calls come back at once.
///
/// What sockets and listeners promise.
/// Carried by: `Socket`, `Listeners`
pub trait Socket {
    /// All calls of it so far with what they came to, the newest first, where it tells them.
    ghost history: { Self → Option ConnectionTrace } = { λ _. None };

    /// Reads to the start of the buffer, at most as many bytes as it has.
    fn read(&mut self, buf: &mut [u8]) -> Got
        ensures within { MovesWithin result (length buf.new) }
        ensures told { history self.new ≡ after_read result buf.new (history self.old) };

    /// Writes a front of the bytes.
    fn write(&mut self, buf: &[u8]) -> Got
        ensures within { MovesWithin result (length buf.now) }
        ensures told { history self.new ≡ after_write result buf.now (history self.old) };
}

/// Whence a daemon's connections come, and where they go back to. A connection that is not handed
/// back is an error of its owner, so `Conn` has no `Drop`.
pub trait Listeners {
    type Conn: Socket;

    /// All that it was asked, the newest first, where it tells it.
    ghost trace: { Self → Option ListenerTrace } = { λ _. None };

    /// The next control connection, where one is there.
    fn accept(&mut self) -> Option<Self::Conn>
        ensures told { trace self.new ≡ with_notice (Asked (is_some result)) (trace self.old) }
        ensures fresh { IfSome result (λ conn. IsTrace (Self.Conn.history conn) []) };

    /// A new port that waits for data connections.
    fn open_data(&mut self) -> Option<u16>
        ensures { trace self.new ≡ with_notice (Port result) (trace self.old) };

    /// A frame begins that will wait at that port, and nobody was told so yet: connections there
    /// that their peers have ended by now are of no frame. What takes connections only as they are
    /// dialled has none such, and does nothing.
    fn forget_ended(&mut self, port: u16)
        ensures { IsForgotten port (trace self.old) (trace self.new) }
    {
        let _ = port;
    }

    /// A connection at such a port, where one is there.
    fn accept_data(&mut self, port: u16) -> Option<Self::Conn>
        ensures told { trace self.new
            ≡ with_notice (Dialed port (is_some result)) (trace self.old) }
        ensures fresh { IfSome result (λ conn. IsTrace (Self.Conn.history conn) []) };

    /// No further connection is awaited at that port.
    fn close_data(&mut self, port: u16)
        ensures { trace self.new ≡ with_notice (Shut port) (trace self.old) };

    /// Takes a connection back, and closes it.
    fn close(&mut self, conn: Self::Conn)
        ensures { trace self.new ≡ with_notice (Back (Self.Conn.history conn)) (trace self.old) };
}
