//! Turn after turn, until enough sessions left or nothing moves.

ghost use Rattle.std.specs.Prelude.{◌≡◌, ◌≢◌, ◌≤◌, ◌<◌, ◌+◌, Bool, true, false, List, [], Option, All, length, if◌then◌else◌};
ghost use Rattle.saned_core.specs.DaemonStates.{Core, core};
ghost use Rattle.saned_serve.specs.ListenerTraces.{ListenerTrace};
ghost use Rattle.saned_serve.specs.Serving.{HasServed, lent, most_turns};
ghost use Rattle.saned_serve.specs.Inside.{HasRooms, GoesRound, TakesAllTurns, serving};
ghost use Rattle.saned_serve.specs.Journal.{LoopAction, has_asked, most_sessions};

use crate::Listeners;
use crate::link_slots::{LinkSlot, close_all, link_slots, turn_at, welcome};
use device_api::Device;
use saned_core::Daemon;
use std::alloc::Global;

/// What a turn came to: whether something moved, and how many sessions left.
#[derive(Clone, Copy)]
struct TurnResult {
    has_moved: bool,
    left: u64,
}

/// One accept while a slot is empty, and one turn of each session.
fn take_turn<D: Device, L: Listeners>(
    alloc: Global,
    daemon: &mut Daemon<D>,
    net: &mut L,
    slots: &mut [LinkSlot<L::Conn>],
) -> TurnResult
    requires len { length slots.old ≡ most_sessions }
    requires roomed { All HasRooms slots.old }
    ensures roomed { All HasRooms slots.new }
    ensures turned { GoesRound L.Conn.history
        (serving (lent D.state L.trace daemon.old net.old) 0 slots.old) result
        (serving (lent D.state L.trace daemon.new net.new) 0 slots.new) }
    ensures few { result.left ≤ length slots.old }
{
    let mut has_moved = welcome(alloc, daemon, net, slots);
    let mut left = 0u64;
    for i in 0..slots.len() {
        let visit = turn_at(alloc, daemon, net, slots, i);
        has_moved |= visit.has_moved;
        left += u64::from(visit.has_left);
    }
    TurnResult { has_moved, left }
}

/// Why `serve` ended.
#[derive(Clone, Copy, Debug, PartialEq, Eq)]
pub enum ServeEnd {
    /// As many sessions left as it was to serve.
    Sessions,
    /// Nothing moved in as many turns as it was to wait.
    Idle,
    /// It took 2^40 turns.
    Turns,
    /// There was no memory before the first accept.
    NoMem,
}

const MOST_TURNS: u64 = 1_099_511_627_776;

/// How many turns in a row nothing moved in, once one more was taken.
fn idle_after(idle: u64, has_moved: bool) -> u64
    requires { idle < most_turns }
    ensures { result ≡ (if has_moved then 0 else idle + 1) }
{
    if has_moved { 0 } else { idle + 1 }
}

fn take_turns<D: Device, L: Listeners>(
    alloc: Global,
    daemon: &mut Daemon<D>,
    net: &mut L,
    slots: &mut [LinkSlot<L::Conn>],
    sessions: u64,
    idle_turns: u64,
) -> ServeEnd
    requires len { length slots.old ≡ most_sessions }
    requires roomed { All HasRooms slots.old }
    ensures ran { TakesAllTurns L.Conn.history
        (record { sessions = sessions; idle_turns = idle_turns })
        (serving (lent D.state L.trace daemon.old net.old) 0 slots.old) result
        (serving (lent D.state L.trace daemon.new net.new) 0 slots.new) }
    ensures memory { result ≢ ServeEnd.NoMem }
{
    let mut all_left = 0u64;
    let mut idle = 0u64;
    for _turn in 0..MOST_TURNS {
        let turned = take_turn(alloc, daemon, net, slots);
        all_left += turned.left;
        if sessions > 0 && all_left >= sessions {
            return ServeEnd::Sessions;
        }
        idle = idle_after(idle, turned.has_moved);
        if idle >= idle_turns {
            return ServeEnd::Idle;
        }
    }
    ServeEnd::Turns
}

/// Serves a daemon's sessions over connections that never wait. In a turn it accepts one connection, while fewer than eight
/// sessions stand. Then, for each session, it reads once and feeds that, if none of its replies wait; writes replies once; takes
/// the data connection if a frame waits for one; and writes of one record. What a write did not take goes first in the next turn.
/// It closes a connection once it is lost, or once its session is over and its replies are written, and then counts the session.
/// It ends with the first turn after which so many sessions are counted (0: no such end), after so many turns in a row in which
/// nothing moved, or after 2^40 turns, and hands every connection back. It takes all memory of its own before the first accept.
/// `NoMem` comes only there, and then nothing was done.
pub fn serve<D: Device, L: Listeners>(
    alloc: Global,
    daemon: &mut Daemon<D>,
    net: &mut L,
    sessions: u64,
    idle_turns: u64,
) -> ServeEnd
    /// There is one list, in order, of each call of the daemon, of a connection and of the listeners, and of the end
    /// of each turn.
    ///
    /// The daemon behind it is what its calls make of the one before, and each connection's own list, as it is handed
    /// back, and the listeners' are what it has of them.
    ///
    /// A session is fed what its connection brings, 1 to 4,096 bytes, at once, whole and in order. The connection is read, into
    /// 4,096 bytes, only when the daemon's replies are all written.
    ///
    /// Each write offers all that waits of the session's replies, or of its record, and nothing more is taken before. A record is
    /// taken into 65,483 bytes, and none behind the end record.
    ///
    /// Listeners are asked to forget the connections that have ended at a port only where a frame begins with a
    /// piece, at its session's port and before a reply is taken.
    ///
    /// A data connection is awaited if a frame waits, at the session's own port. It is handed back when its end record is
    /// written, when it was found lost and the daemon was told so, or with the session.
    ///
    /// A session is left, its port closed and its connection handed back, only where that connection was found lost,
    /// or the session is over and all its replies are written.
    ///
    /// In each turn an accept is asked for, once, where fewer than eight sessions stand as it is asked, and none
    /// where eight stand. A connection that gets no port or no session goes back, and its port is closed.
    ///
    /// In a turn each connection is read at most once and then written at most once, and then one data connection is
    /// awaited or one record offered, at most.
    ///
    /// A turn ends only if each session that stands was read or written in it, was not found lost, and, if it is over, had a
    /// reply. Its data connection was offered a record or there was none; without one, no frame waited, or nobody came to its
    /// port.
    ///
    /// The turns end when as many sessions left as were to be served, fewer than eight more; else when nothing moved in as many
    /// turns in a row as were to be waited; else after 2^40. Behind them sessions are left and connections handed back, until
    /// none stands, and nothing else is done.
    ensures served { HasServed (record { sessions = sessions; idle_turns = idle_turns })
        (lent D.state L.trace daemon.old net.old)
        (lent D.state L.trace daemon.new net.new) result }
    /// Where there is no memory before the first accept, nothing was done.
    ///
    /// It returns, after at most 2^40 turns.
    /// Carried by: termination of `serve`
    ensures memory { result ≡ ServeEnd.NoMem → (daemon.new ≡ daemon.old)
        × (L.trace net.new ≡ L.trace net.old) }
{
    let mut slots: Vec<LinkSlot<L::Conn>> = match link_slots(alloc) {
        Ok(slots) => slots,
        Err(_) => return ServeEnd::NoMem,
    };
    let end = take_turns(
        alloc,
        daemon,
        net,
        slots.as_mut_slice(),
        sessions,
        idle_turns,
    );
    close_all(daemon, net, slots);
    end
}
