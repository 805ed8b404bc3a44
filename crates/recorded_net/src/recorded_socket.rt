ghost use Rattle.std.specs.Prelude.{◌≡◌, [], Some, length};
ghost use Rattle.saned_serve.specs.ConnectionTraces.{MovesWithin, after_read, after_write};

use crate::made_calls::MadeCalls;
use saned_serve::{Got, Socket};

/// A connection, and its calls since it was put here.
#[derive(Drop)]
pub struct RecordedSocket<S> {
    socket: S,
    made: MadeCalls,
}

impl<S> RecordedSocket<S> {
    /// A connection of which nothing is recorded yet.
    pub fn new(socket: S) -> RecordedSocket<S>
        /// A new record of a connection tells no call.
        /// Carried by: `socket`, `made` of `RecordedSocket::new`
        ensures socket { result.socket ≡ socket }
        ensures made { result.made.calls ≡ [] }
    {
        RecordedSocket {
            socket,
            made: MadeCalls::none(),
        }
    }

    /// The connection alone.
    pub fn into_inner(self) -> S
        /// The connection comes back out of its record as it is.
        ensures { result ≡ self.socket }
    {
        self.into_parts().0
    }

    /// The connection alone, and the record.
    pub(crate) fn into_parts(self) -> (S, MadeCalls)
        ensures socket { result.0 ≡ self.socket }
        ensures made { result.1 ≡ self.made }
    {
        let RecordedSocket { socket, made } = self;
        (socket, made)
    }
}

impl<S: Socket> Socket for RecordedSocket<S> {
    ghost history = { λ s. Some s.made.calls };

    fn read(&mut self, buf: &mut [u8]) -> Got
        /// A recorded connection tells each call on it, with what the connection's own call came to.
        /// Carried by: `told`, `inner` of `read` and of `write` of `RecordedSocket`
        ensures within { MovesWithin result (length buf.new) }
        ensures told { Some self.new.made.calls
            ≡ after_read result buf.new (Some self.old.made.calls) }
        ensures inner { S.history self.new.socket
            ≡ after_read result buf.new (S.history self.old.socket) }
    {
        let got = self.socket.read(buf);
        self.made.note_read(&got, buf);
        got
    }

    fn write(&mut self, buf: &[u8]) -> Got
        ensures within { MovesWithin result (length buf.now) }
        ensures told { Some self.new.made.calls
            ≡ after_write result buf.now (Some self.old.made.calls) }
        ensures inner { S.history self.new.socket
            ≡ after_write result buf.now (S.history self.old.socket) }
    {
        let got = self.socket.write(buf);
        self.made.note_write(&got, buf);
        got
    }
}
