//! The slots of sessions: who comes, who goes, and one turn of each.

ghost use Rattle.std.specs.Prelude.{◌≡◌, ◌≤◌, ◌<◌, ◌+◌, ℕ, Bool, true, false, List, Option, None, Some, length, IsSome, IsTrue, IfSome, IfOk, All, []};
ghost use Rattle.saned_core.specs.DaemonStates.{Core, core};
ghost use Rattle.saned_serve.specs.ListenerTraces.{ListenerTrace};
ghost use Rattle.saned_serve.specs.Serving.{lent};
ghost use Rattle.saned_serve.specs.Inside.{KeepsSession, Empties, IsToBeLeft, IsNewLink, Greets, LeadsOn, ClosesBehind, HasRooms, link_at, none_left, of_visit, serving, visited};
ghost use Rattle.saned_serve.specs.Journal.{LoopAction, has_stopped, has_asked, most_sessions};

use crate::Listeners;
use crate::link::{Rooms, SessionLink, converse, leave, part};
use crate::pending::PendingBytes;
use device_api::Device;
use saned_core::{Daemon, SessionId};
use std::alloc::{AllocError, Global};

/// A place for one session, and its room while none stands there.
pub struct LinkSlot<C> {
    pub link: Option<SessionLink<C>>,
    pub rooms: Option<Rooms>,
}

/// What a turn of one slot came to.
#[derive(Clone, Copy)]
pub struct Visit {
    pub has_moved: bool,
    pub has_left: bool,
}

/// As many sessions as a daemon takes.
const MOST_SESSIONS: usize = 8;

fn rooms_for(alloc: Global) -> Result<Vec<Rooms>, AllocError>
    ensures { IfOk result (λ all. length all.items ≡ most_sessions) }
{
    let mut all = Vec::with_capacity(alloc, MOST_SESSIONS)?;
    for _ in 0..MOST_SESSIONS {
        all.push(Rooms {
            replies: PendingBytes::new(alloc)?,
            records: PendingBytes::new(alloc)?,
        })?;
    }
    Ok(all)
}

/// Eight empty slots. All the memory that serving takes is taken here.
pub fn link_slots<C>(alloc: Global) -> Result<Vec<LinkSlot<C>>, AllocError>
    ensures empty { IfOk result (λ slots. (i : ℕ) → link_at slots.items i ≡ None) }
    ensures len { IfOk result (λ slots. length slots.items ≡ most_sessions) }
    ensures roomed { IfOk result (λ slots. All HasRooms slots.items) }
{
    let mut rooms = rooms_for(alloc)?;
    let mut slots = Vec::with_capacity(alloc, MOST_SESSIONS)?;
    for _i in 0..MOST_SESSIONS {
        slots.push_reserved(LinkSlot {
            link: None,
            rooms: rooms.pop(),
        });
    }
    Ok(slots)
}

fn serve_slot<D: Device, L: Listeners>(
    alloc: Global,
    daemon: &mut Daemon<D>,
    net: &mut L,
    slot: &mut LinkSlot<L::Conn>,
) -> Visit
    ensures keeps { KeepsSession L.Conn.history
        (visited (lent D.state L.trace daemon.old net.old) slot.old.link) result.has_moved
        (visited (lent D.state L.trace daemon.new net.new) slot.new.link) }
    ensures left { IsToBeLeft result.has_left slot.new.link }
    ensures roomed { HasRooms slot.old → HasRooms slot.new }
{
    match &mut slot.link {
        None => Visit {
            has_moved: false,
            has_left: false,
        },
        Some(link) => {
            let has_moved = converse(alloc, daemon, net, link);
            Visit {
                has_moved,
                has_left: link.is_done,
            }
        }
    }
}

fn vacate<D: Device, L: Listeners>(
    daemon: &mut Daemon<D>,
    net: &mut L,
    slot: &mut LinkSlot<L::Conn>,
)
    ensures none { slot.new.link ≡ None }
    ensures roomed { HasRooms slot.old → HasRooms slot.new }
    ensures empties { Empties L.Conn.history (lent D.state L.trace daemon.old net.old) slot.old.link
        (lent D.state L.trace daemon.new net.new) }
{
    if let Some(link) = slot.link.take() {
        let rooms = leave(daemon, net, link);
        slot.rooms = Some(rooms);
    }
}

/// One turn of the session at a slot, which leaves it where it is done.
pub fn turn_at<D: Device, L: Listeners>(
    alloc: Global,
    daemon: &mut Daemon<D>,
    net: &mut L,
    slots: &mut [LinkSlot<L::Conn>],
    i: usize,
) -> Visit
    requires inside { i < length slots.old }
    requires roomed { All HasRooms slots.old }
    ensures went { LeadsOn L.Conn.history true
        (serving (lent D.state L.trace daemon.old net.old) i slots.old)
        (of_visit result) (serving (lent D.state L.trace daemon.new net.new) (i + 1) slots.new) }
    ensures roomed { All HasRooms slots.new }
{
    let slot = &mut slots[i];
    let visit = serve_slot(alloc, daemon, net, slot);
    if visit.has_left {
        vacate(daemon, net, slot);
    }
    visit
}

/// One accept, for a slot that is empty. A connection that gets no session is handed back. Tells whether one came.
fn greet<D: Device, L: Listeners>(
    alloc: Global,
    daemon: &mut Daemon<D>,
    net: &mut L,
    slot: &mut LinkSlot<L::Conn>,
) -> bool
    requires none { slot.old.link ≡ None }
    requires roomed { HasRooms slot.old }
    ensures roomed { HasRooms slot.new }
    ensures greets { Greets L.Conn.history (lent D.state L.trace daemon.old net.old) result
        (lent D.state L.trace daemon.new net.new) slot.new.link }
{
    let Some(rooms) = slot.rooms.take() else {
        return false;
    };
    let Some(conn) = net.accept() else {
        slot.rooms = Some(rooms);
        return false;
    };
    let Some(port) = net.open_data() else {
        net.close(conn);
        slot.rooms = Some(rooms);
        return true;
    };
    let Ok(id) = daemon.open_session(alloc, port) else {
        net.close_data(port);
        net.close(conn);
        slot.rooms = Some(rooms);
        return true;
    };
    put_in_slot(net, &mut slot.link, rooms, conn, id, port);
    true
}

/// Puts a new session onto an empty slot.
fn put_in_slot<L: Listeners>(
    net: &mut L,
    place: &mut Option<SessionLink<L::Conn>>,
    rooms: Rooms,
    conn: L::Conn,
    id: SessionId,
    port: u16,
)
    requires { place.old ≡ None }
    ensures sits { IsNewLink conn id port place.new }
    ensures net { L.trace net.new ≡ L.trace net.old }
{
    let Rooms {
        mut replies,
        mut records,
    } = rooms;
    replies.clear();
    records.clear();
    let link = SessionLink {
        conn,
        id,
        port,
        is_over: false,
        is_done: false,
        replies,
        records,
        image: None,
        is_last: false,
    };
    if let Some(other) = place.replace(link) {
        let _ = part(net, other);
    }
}

fn greet_at<D: Device, L: Listeners>(
    alloc: Global,
    daemon: &mut Daemon<D>,
    net: &mut L,
    slots: &mut [LinkSlot<L::Conn>],
    i: usize,
) -> bool
    requires inside { i < length slots.old }
    requires none { link_at slots.old i ≡ None }
    requires len { length slots.old ≡ most_sessions }
    requires roomed { All HasRooms slots.old }
    ensures roomed { All HasRooms slots.new }
    ensures went { LeadsOn L.Conn.history false
        (serving (lent D.state L.trace daemon.old net.old) 0 slots.old)
        (none_left result) (serving (lent D.state L.trace daemon.new net.new) 0 slots.new) }
{
    let slot = &mut slots[i];
    greet(alloc, daemon, net, slot)
}

/// One accept, at the first slot that is empty. Tells whether a connection came.
pub fn welcome<D: Device, L: Listeners>(
    alloc: Global,
    daemon: &mut Daemon<D>,
    net: &mut L,
    slots: &mut [LinkSlot<L::Conn>],
) -> bool
    requires len { length slots.old ≡ most_sessions }
    requires roomed { All HasRooms slots.old }
    ensures roomed { All HasRooms slots.new }
    ensures went { LeadsOn L.Conn.history false
        (serving (lent D.state L.trace daemon.old net.old) 0 slots.old)
        (none_left result) (serving (lent D.state L.trace daemon.new net.new) 0 slots.new) }
{
    for i in 0..slots.len() {
        if slots[i].link.is_none() {
            return greet_at(alloc, daemon, net, slots, i);
        }
    }
    false
}

/// Lets an empty slot go.
fn dismiss<L: Listeners>(net: &mut L, slot: LinkSlot<L::Conn>)
    requires { slot.link ≡ None }
    ensures { L.trace net.new ≡ L.trace net.old }
{
    let LinkSlot { link, rooms: _ } = slot;
    if let Some(other) = link {
        let _ = part(net, other);
    }
}

/// Ends all sessions, and hands all connections back.
pub fn close_all<D: Device, L: Listeners>(
    daemon: &mut Daemon<D>,
    net: &mut L,
    mut slots: Vec<LinkSlot<L::Conn>>,
)
    ensures { ClosesBehind L.Conn.history
        (serving (lent D.state L.trace daemon.old net.old) 0 slots.items)
        (lent D.state L.trace daemon.new net.new) }
{
    while let Some(mut slot) = slots.pop() {
        vacate(daemon, net, &mut slot);
        dismiss(net, slot);
    }
    slots.destroy_empty();
}
