ghost use Rattle.std.specs.Prelude.{◌≡◌, ◌≤◌, ◌==◌, ◌↔◌, ◌⊎◌, if◌then◌else◌, is_some, [], None, Some, IfOk, IfErr, IfSome, IsTrue};
ghost use Rattle.std.specs.Option.{option_map};
ghost use Rattle.std.specs.Result.{result_ok};
ghost use Rattle.std.specs.IoError.{error_kind};
ghost use Rattle.saned_serve.specs.ConnectionTraces.{MovesWithin, IsTrace};
ghost use Rattle.saned_serve.specs.ListenerTraces.{IsForgotten, with_notice};
ghost use Rattle.saned_serve.specs.ListenerTraces.Notice.{Asked, Port, Dialed, Shut, Back};
ghost use Rattle.saned_cli.specs.NetViews.{Accepts, DialsFrame, TakesOrCloses, Forgets, IsBoundAt, IsForFrame, OpensPort, ShutsPort};
ghost use Rattle.saned_cli.specs.Inside.{HasAccepted, HasAskedOwner, HasListened};
ghost use Rattle.socket_calls.specs.SocketCall.{listening_port};

use crate::data_port::DataPort;
use crate::data_ports::PortRange;
use crate::kept_ports::{end_at, forget_at, taken_at};
use crate::pace::Pace;
use crate::table_reading::owner_of_peer;
use saned_serve::{Got, Listeners, Socket};
use socket_calls::{Arrival, ListeningAt, SocketCalls};
use std::alloc::Global;
use std::io;
use std::io::{ErrorKind, Read, Write};
use std::marker::Model;
use std::rc::Rc;
use std::time::Clock;

/// As many data ports as there are sessions.
const MOST_PORTS: usize = 8;

/// While bytes move, so many accepts in a row are left out: the system makes a socket before it finds that nobody waits.
const MOST_LEFT_OUT: u32 = 15;

/// Connections on 127.0.0.1 that never wait for a peer. If nothing moves for long each turn naps. While bytes move the system is
/// asked for a new connection in one accept of sixteen, and in the next behind a look at a data port: a stranger who dials one
/// without end makes turns long.
#[derive(Drop)]
pub struct LocalNet<S: SocketCalls + Drop, R: Clock + Drop> {
    alloc: Global,
    sockets: S,
    control: ListeningAt<S::Listener>,
    data_ports: Vec<DataPort<S::Listener, S::Waiting>>,
    /// The ports of which data ports are; any that is free, where none are named.
    range: Option<PortRange>,
    /// The user who owns the control connection that came last, where the system tells him.
    owner: Option<u32>,
    /// How many accepts in a row were left out.
    left_out: u32,
    pace: Rc<Pace<R>>,
}

/// A connection on 127.0.0.1 whose calls never wait, but for the naps of a net at rest.
#[derive(Drop)]
pub struct LocalSocket<C, R: Clock + Drop> {
    conn: C,
    pace: Rc<Pace<R>>,
}

/// Whether a call that failed may be made again.
fn is_for_now(e: &io::Error) -> bool
    ensures { IsTrue result ↔ (error_kind e.now ≡ ErrorKind.WouldBlock)
        ⊎ (error_kind e.now ≡ ErrorKind.Interrupted) }
{
    matches!(e.kind(), ErrorKind::WouldBlock | ErrorKind::Interrupted)
}

/// The first of these ports that is free; of all, where none are named.
fn listen_within<S: SocketCalls>(
    sockets: &mut S,
    range: Option<PortRange>,
) -> io::Result<ListeningAt<S::Listener>>
    ensures { HasListened range (S.calls sockets.old) (S.calls sockets.new)
        (option_map listening_port (result_ok result)) }
{
    let Some(PortRange { first, last }) = range else {
        return sockets.listen(0);
    };
    for port in first..last {
        if let Ok(listener) = sockets.listen(port) {
            return Ok(listener);
        }
    }
    sockets.listen(last)
}

/// The next connection that waits at a listener.
fn next_comer<S: SocketCalls>(
    sockets: &mut S,
    at: &ListeningAt<S::Listener>,
) -> Option<Arrival<S::Waiting>>
    ensures { HasAccepted S.number (listening_port at.now) (S.calls sockets.old) result
        (S.calls sockets.new) }
{
    match sockets.accept(at) {
        Ok(comer) => comer,
        Err(_) => None,
    }
}

/// The user who owns the other end of a connection that came, where the system tells him.
fn owner_of_comer<S: SocketCalls>(
    alloc: Global,
    sockets: &mut S,
    it: &Arrival<S::Waiting>,
) -> Option<u32>
    ensures { HasAskedOwner it.now.peer it.now.ours
        (S.calls sockets.old) result (S.calls sockets.new) }
{
    owner_of_peer(alloc, sockets, it.peer, it.ours)
}

/// The connection, taken. Where there is no memory for its share of the pace it is closed.
fn socket_of<S: SocketCalls, R: Clock + Drop>(
    sockets: &mut S,
    pace: &Rc<Pace<R>>,
    stream: S::Waiting,
) -> Option<LocalSocket<S::Conn, R>>
    ensures { TakesOrCloses (S.calls sockets.old) (S.calls sockets.new) (Some (S.number stream))
        (option_map (λ socket. S.taken_number socket.conn) result) }
{
    match Rc::clone(pace) {
        Ok(pace) => {
            let conn = sockets.take(stream);
            Some(LocalSocket { conn, pace })
        }
        Err(_) => {
            sockets.close(stream);
            None
        }
    }
}

impl<S: SocketCalls + Drop, R: Clock + Drop> Model for LocalNet<S, R> {
    ghost use Rattle.std.specs.Prelude.{map, vec_capacity};
    ghost use Rattle.socket_calls.specs.SocketCall.{listening_port};
    ghost use Rattle.saned_cli.specs.Guarding.{EachKeepsHis, port_view};
    ghost use Rattle.saned_cli.specs.NetViews.{NetView};

    ghost Value = { NetView };

    ghost view = { λ n. record { calls = S.calls n.sockets; control = listening_port n.control; owner = n.owner; range = n.range; left_out = n.left_out; room = vec_capacity n.data_ports; ports = map (port_view S.number) n.data_ports.items } };

    ghost invariant = { λ n. EachKeepsHis (S.calls n.sockets) (map (port_view S.number) n.data_ports.items) };
}

impl<S: SocketCalls + Drop, R: Clock + Drop> LocalNet<S, R> {
    /// Listens at that port, or where it is 0 at any that is free, and rests by that clock.
    pub fn bind(mut sockets: S, rt: R, alloc: Global, port: u16) -> io::Result<LocalNet<S, R>>
        /// One listener is asked for at the port of control connections. There is no data port yet, and room for eight.
        ensures { IfOk result (IsBoundAt port (S.calls sockets)) }
    {
        let data_ports = Vec::with_capacity(alloc, MOST_PORTS)?;
        let control = sockets.listen(port)?;
        let pace = Pace::new(alloc, rt)?;
        Ok(LocalNet {
            alloc,
            sockets,
            control,
            data_ports,
            range: None,
            owner: None,
            left_out: 0,
            pace,
        })
    }

    /// With data ports of these alone, where some are named.
    pub fn with_data_ports(mut self, range: Option<PortRange>) -> LocalNet<S, R>
        /// Listeners keep the data ports that are named for them, and change in nothing else.
        ensures { result ≡ record self { range = range } }
    {
        self.range = range;
        self
    }

    /// The port of control connections.
    pub fn port(&self) -> u16
        /// The port that is told is the one of control connections.
        ensures { result ≡ self.now.control }
    {
        self.control.port()
    }
}

/// What a call on a stream came to, which moved at most so many bytes.
fn how(outcome: io::Result<usize>, most: usize) -> Got
    requires { IfOk outcome (λ n. n ≤ most) }
    /// What a call on a stream came to is told by its kind: bytes, nothing where it would wait or was interrupted,
    /// and else a loss.
    ensures within { MovesWithin result most }
    ensures moved { IfOk outcome (λ n. result ≡ (if n == 0 then Got.Lost else Got.Moved n)) }
    ensures would_wait { IfErr outcome (λ e. error_kind e ≡ ErrorKind.WouldBlock
        → result ≡ Got.Nothing) }
    ensures interrupted { IfErr outcome (λ e. error_kind e ≡ ErrorKind.Interrupted
        → result ≡ Got.Nothing) }
    ensures lost { IfErr outcome (λ e. ¬ (error_kind e ≡ ErrorKind.WouldBlock)
        → ¬ (error_kind e ≡ ErrorKind.Interrupted) → result ≡ Got.Lost) }
{
    match outcome {
        Ok(0) => Got::Lost,
        Ok(n) => Got::Moved(n),
        Err(e) if is_for_now(&e) => Got::Nothing,
        Err(_) => Got::Lost,
    }
}

/// A call moved nothing. In a turn the listeners make one such call, and each connection: they all share the pace.
fn rest<R: Clock + Drop>(pace: &Rc<Pace<R>>) {
    pace.rest(Rc::strong_count(pace));
}

impl<C, R: Clock + Drop> LocalSocket<C, R> {
    fn note(&self, got: Got) {
        match got {
            Got::Nothing => rest(&self.pace),
            Got::Moved(_) | Got::Lost => self.pace.quicken(),
        }
    }
}

impl<C: Read + Write, R: Clock + Drop> Socket for LocalSocket<C, R> {
    fn read(&mut self, buf: &mut [u8]) -> Got {
        let got = how(self.conn.read(buf), buf.len());
        self.note(got);
        got
    }

    fn write(&mut self, buf: &[u8]) -> Got {
        let got = how(self.conn.write(buf), buf.len());
        self.note(got);
        got
    }
}

impl<S: SocketCalls + Drop, R: Clock + Drop> Listeners for LocalNet<S, R> {
    type Conn = LocalSocket<S::Conn, R>;

    fn accept(&mut self) -> Option<LocalSocket<S::Conn, R>>
        /// Behind the accept of a control connection a whole reading of the table of sockets is made for its two ends. The owner
        /// is whom that reading names, or none if it names none. The listeners leave out at most fifteen accepts in a row, and
        /// none behind a look at a data port.
        ensures asked { Accepts self.old self.new
            (option_map (λ socket. S.taken_number socket.conn) result) }
        ensures told { None ≡ with_notice (Asked (is_some result)) None }
        ensures fresh { IfSome result (λ _. IsTrace None []) }
    {
        self.owner = None;
        if self.pace.has_moved() && self.left_out < MOST_LEFT_OUT {
            self.left_out += 1;
            return None;
        }
        self.left_out = 0;
        let Some(it) = next_comer(&mut self.sockets, &self.control) else {
            rest(&self.pace);
            return None;
        };
        self.pace.quicken();
        self.owner = owner_of_comer(self.alloc, &mut self.sockets, &it);
        socket_of(&mut self.sockets, &self.pace, it.stream)
    }

    // `serve` asks for a session's data port next behind its control connection, as `Opens` of the journal has it: so the port
    // is of the user who owns the connection that came last.
    fn open_data(&mut self) -> Option<u16>
        /// A data port is of the user who owns the control connection that came last. The listeners ask for the ports that are
        /// named, in their order, until they have one, or for any port if none are named. They ask for none only if there is no
        /// room for one more.
        ensures port { OpensPort self.old self.new result }
        ensures told { None ≡ with_notice (Port result) None }
    {
        let owner = self.owner.take();
        if self.data_ports.len() >= self.data_ports.capacity() {
            return None;
        }
        let Ok(at) = listen_within(&mut self.sockets, self.range) else {
            return None;
        };
        let port = at.port();
        self.data_ports.push_reserved(DataPort {
            at,
            owner,
            standing: None,
            ended: None,
        });
        Some(port)
    }

    fn forget_ended(&mut self, port: u16)
        /// Where those that have ended at a port are forgotten, one look is made, and behind it the port keeps none that has
        /// ended its side. Each other connection that the port kept or that came is closed, or kept still. The look asks until
        /// nobody waits, or 512 times; where there is no memory it asks for none.
        ensures left { Forgets port self.old self.new }
        ensures told { IsForgotten port None None }
    {
        self.left_out = MOST_LEFT_OUT;
        forget_at(self.alloc, &mut self.sockets, &mut self.data_ports, port);
    }

    fn accept_data(&mut self, port: u16) -> Option<LocalSocket<S::Conn, R>>
        /// If a port is of a user, a frame takes only a connection that came to that port and of which a later whole reading of
        /// the table has a line of a socket of his. If it is of none, it takes any that came.
        ensures his { IfSome result (λ socket. IsForFrame port self.old.ports
            (S.taken_number socket.conn) self.new.calls) }
        ensures told { None ≡ with_notice (Dialed port (is_some result)) None }
        ensures fresh { IfSome result (λ _. IsTrace None []) }
        /// Of those that are his a frame takes the newest that waited when it was looked at, and else the newest that had ended
        /// its side. A look makes at most 512 accepts and one reading, and takes no other connection. Each other connection that
        /// the port kept or that came is closed.
        ensures newest { DialsFrame port self.old self.new
            (option_map (λ socket. S.taken_number socket.conn) result) }
    {
        self.left_out = MOST_LEFT_OUT;
        let Some(stream) = taken_at(self.alloc, &mut self.sockets, &mut self.data_ports, port)
        else {
            return None;
        };
        self.pace.quicken();
        socket_of(&mut self.sockets, &self.pace, stream)
    }

    fn close_data(&mut self, port: u16)
        /// A port that is closed is listened at no longer, and what it keeps is closed. Where there is no port of that number
        /// nothing is done.
        ensures shuts { ShutsPort port self.old self.new }
        ensures told { None ≡ with_notice (Shut port) None }
    {
        end_at(&mut self.sockets, &mut self.data_ports, port);
    }

    fn close(&mut self, conn: LocalSocket<S::Conn, R>)
        /// Nothing else is done where a connection is handed back.
        ensures same { self.new ≡ self.old }
        ensures told { None ≡ with_notice (Back None) None }
    {
        drop(conn);
    }
}
