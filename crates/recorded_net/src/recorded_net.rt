ghost use Rattle.std.specs.Prelude.{◌≡◌, [], ◌∷◌, IfSome, Some, is_some};
ghost use Rattle.saned_serve.specs.ConnectionTraces.{IsTrace};
ghost use Rattle.saned_serve.specs.ListenerTraces.{IsForgotten, with_notice};
ghost use Rattle.saned_serve.specs.ListenerTraces.Notice.{Asked, Port, Dialed, Shut, Back};
ghost use Rattle.recorded_net.specs.ListenerCalls.{trace_of_calls};

use crate::asked_calls::{AskedCalls, Occurrence};
use crate::nets_back::NetsBack;
use crate::recorded_socket::RecordedSocket;
use saned_serve::Listeners;

/// Listeners, and their calls since they were put here.
#[derive(Drop)]
pub struct RecordedNet<L> {
    net: L,
    pub asked: AskedCalls,
}

impl<L> RecordedNet<L> {
    /// Listeners of which nothing is recorded yet.
    pub fn new(net: L) -> RecordedNet<L>
        /// A new record of listeners tells no call.
        /// Carried by: `net`, `asked` of `RecordedNet::new`
        ensures net { result.net ≡ net }
        ensures asked { result.asked.calls ≡ [] }
    {
        RecordedNet {
            net,
            asked: AskedCalls::none(),
        }
    }

    /// The listeners alone, which go back: their calls are noted.
    pub fn go_back(self, back: &mut NetsBack) -> L
        /// The listeners come back out of their record as they are, and what it told is noted.
        /// Carried by: `net`, `noted` of `go_back`
        ensures net { result ≡ self.net }
        ensures noted { back.new.nets ≡ self.asked.calls ∷ back.old.nets }
    {
        let RecordedNet { net, asked } = self;
        back.note(&asked);
        net
    }
}

impl<L: Listeners> Listeners for RecordedNet<L> {
    type Conn = RecordedSocket<L::Conn>;

    ghost trace = { λ n. trace_of_calls n.asked.calls };

    fn accept(&mut self) -> Option<RecordedSocket<L::Conn>>
        /// Recorded listeners tell each call on them, with what the listeners' own call came to. The connections that they give
        /// tell their calls, and no call was made on them.
        /// Carried by: `told`, `fresh`, `inner`, `inner_fresh` of `RecordedNet`
        ensures told { trace_of_calls self.new.asked.calls
            ≡ with_notice (Asked (is_some result)) (trace_of_calls self.old.asked.calls) }
        ensures fresh { IfSome result (λ conn. conn.made.calls ≡ []) }
        ensures inner { L.trace self.new.net
            ≡ with_notice (Asked (is_some result)) (L.trace self.old.net) }
        ensures inner_fresh { IfSome result (λ conn. IsTrace (L.Conn.history conn.socket) []) }
    {
        match self.net.accept() {
            Some(conn) => {
                self.asked.note(&Occurrence::Asked(true));
                Some(RecordedSocket::new(conn))
            }
            None => {
                self.asked.note(&Occurrence::Asked(false));
                None
            }
        }
    }

    fn open_data(&mut self) -> Option<u16>
        ensures told { trace_of_calls self.new.asked.calls
            ≡ with_notice (Port result) (trace_of_calls self.old.asked.calls) }
        ensures inner { L.trace self.new.net ≡ with_notice (Port result) (L.trace self.old.net) }
    {
        let port = self.net.open_data();
        self.asked.note(&Occurrence::Port(port));
        port
    }

    fn forget_ended(&mut self, port: u16)
        ensures told { IsForgotten port (trace_of_calls self.old.asked.calls)
            (trace_of_calls self.new.asked.calls) }
        ensures inner { IsForgotten port (L.trace self.old.net) (L.trace self.new.net) }
    {
        self.net.forget_ended(port);
        self.asked.note(&Occurrence::Forgot(port));
    }

    fn accept_data(&mut self, port: u16) -> Option<RecordedSocket<L::Conn>>
        ensures told { trace_of_calls self.new.asked.calls
            ≡ with_notice (Dialed port (is_some result)) (trace_of_calls self.old.asked.calls) }
        ensures fresh { IfSome result (λ conn. conn.made.calls ≡ []) }
        ensures inner { L.trace self.new.net
            ≡ with_notice (Dialed port (is_some result)) (L.trace self.old.net) }
        ensures inner_fresh { IfSome result (λ conn. IsTrace (L.Conn.history conn.socket) []) }
    {
        match self.net.accept_data(port) {
            Some(conn) => {
                self.asked.note(&Occurrence::Dialed(port, true));
                Some(RecordedSocket::new(conn))
            }
            None => {
                self.asked.note(&Occurrence::Dialed(port, false));
                None
            }
        }
    }

    fn close_data(&mut self, port: u16)
        ensures told { trace_of_calls self.new.asked.calls
            ≡ with_notice (Shut port) (trace_of_calls self.old.asked.calls) }
        ensures inner { L.trace self.new.net ≡ with_notice (Shut port) (L.trace self.old.net) }
    {
        self.net.close_data(port);
        self.asked.note(&Occurrence::Shut(port));
    }

    fn close(&mut self, conn: RecordedSocket<L::Conn>)
        ensures told { trace_of_calls self.new.asked.calls
            ≡ with_notice (Back (Some conn.made.calls)) (trace_of_calls self.old.asked.calls) }
        ensures inner { L.trace self.new.net
            ≡ with_notice (Back (L.Conn.history conn.socket)) (L.trace self.old.net) }
    {
        let (conn, made) = conn.into_parts();
        self.asked.note_back(&made);
        self.net.close(conn);
    }
}
