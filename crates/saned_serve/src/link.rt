//! One session's connections, and one turn of them.

ghost use Rattle.std.specs.Prelude.{◌≡◌, ◌≤◌, ℕ, Bool, true, false, not, ◌||◌, ◌&&◌, Option, None, Some, [], length, IsSome};
ghost use Rattle.saned_core.specs.DaemonStates.{Core, core, frame_in, session_of, is_waiting as waits};
ghost use Rattle.saned_serve.specs.ListenerTraces.{ListenerTrace, with_notice};
ghost use Rattle.saned_serve.specs.ListenerTraces.Notice.{Back};
ghost use Rattle.saned_serve.specs.SessionActions.{ends_session};
ghost use Rattle.saned_serve.specs.Serving.{lent};
ghost use Rattle.saned_serve.specs.Inside.{fed_to, JournalGoesOn, Attends, SendsRecords, LeavesSession, hung_up, session_turn};
ghost use Rattle.saned_serve.specs.Inside.TurnPhase.{Due, Filled, Heard, Ready, Spoken, Dialed, Loaded, Shown};

use crate::pending::{PendingBytes, is_end};
use crate::{Got, Listeners, Socket};
use device_api::Device;
use saned_core::{Daemon, Fed, FrameState, SessionId};
use std::alloc::Global;

/// The most bytes of replies that are taken at once.
pub const MOST_REPLY: usize = 4096;

/// The most bytes of a record, its length among them. So many go over loopback as one packet, whose 65,535 bytes are these
/// and 52 of headers; the rest of a longer one would go as a packet of its own.
pub const MOST_RECORD: usize = 65_483;

/// A session with its control connection, its data port and the data connection of its frame.
pub struct SessionLink<C> {
    pub conn: C,
    pub id: SessionId,
    pub port: u16,
    pub is_over: bool,
    /// Its control connection is lost, or its session is over and all its replies are written.
    pub is_done: bool,
    pub replies: PendingBytes<MOST_REPLY>,
    pub records: PendingBytes<MOST_RECORD>,
    pub image: Option<C>,
    /// The end record was taken.
    pub is_last: bool,
}

/// The most that is read and fed in a turn.
const PIECE: usize = 4096;

/// Whether a session is over once a piece was fed to it.
fn over_after(was_over: bool, fed: Fed) -> bool
    ensures { result ≡ (was_over || ends_session fed) }
{
    match fed {
        Fed::Standing => was_over,
        Fed::Over | Fed::Starved => true,
    }
}

fn is_waiting<D: Device>(daemon: &Daemon<D>, id: SessionId) -> bool
    ensures { result ≡ waits (frame_in (session_of (core D.state daemon.now) id.number)) }
{
    match daemon.frame(id) {
        FrameState::Waiting => true,
        FrameState::Quiet | FrameState::Streaming | FrameState::Ending => false,
    }
}

/// Whether a frame waits that did not.
fn has_begun(was_waiting: bool, is_waiting: bool) -> bool
    ensures { result ≡ (not was_waiting && is_waiting) }
{
    !was_waiting && is_waiting
}

/// Feeds a piece to the session. When a frame begins with that, a connection at its data port that has ended was left behind by
/// an earlier frame or a stranger: the client of this frame learns of it only by the answer to START.
fn attend<D: Device, L: Listeners>(
    alloc: Global,
    daemon: &mut Daemon<D>,
    net: &mut L,
    link: &mut SessionLink<L::Conn>,
    piece: &[u8],
)
    requires { length piece.now ≤ 4096 }
    ensures link { link.new ≡ record link.old { is_over = link.new.is_over } }
    ensures attends { Attends link.old.id.number link.old.port piece.now
        (fed_to (lent D.state L.trace daemon.old net.old) link.old.is_over)
        (fed_to (lent D.state L.trace daemon.new net.new) link.new.is_over) }
{
    let was_waiting = is_waiting(daemon, link.id);
    let fed = daemon.feed(alloc, link.id, piece);
    link.is_over = over_after(link.is_over, fed);
    if has_begun(was_waiting, is_waiting(daemon, link.id)) {
        net.forget_ended(link.port);
    }
}

/// One read of the control connection, fed to the session. Tells whether something moved.
fn hear<D: Device, L: Listeners>(
    alloc: Global,
    daemon: &mut Daemon<D>,
    net: &mut L,
    link: &mut SessionLink<L::Conn>,
) -> bool
    requires { link.old.replies ≡ [] }
    ensures { JournalGoesOn L.Conn.history
        (session_turn Filled (core D.state daemon.old) (L.trace net.old) link.old) result
        (session_turn Heard (core D.state daemon.new) (L.trace net.new) link.new) }
{
    let mut room = [0u8; PIECE];
    match link.conn.read(&mut room) {
        Got::Moved(n) => {
            attend(alloc, daemon, net, link, &room[..n]);
            true
        }
        Got::Nothing => false,
        Got::Lost => {
            link.is_done = true;
            true
        }
    }
}

/// Takes replies where none wait.
fn fill_replies<D: Device, C: Socket>(daemon: &mut Daemon<D>, link: &mut SessionLink<C>)
    ensures first { (n : Option ListenerTrace) → JournalGoesOn C.history
        (session_turn Due (core D.state daemon.old) n link.old) false
        (session_turn Filled (core D.state daemon.new) n link.new) }
    ensures again { (n : Option ListenerTrace) → JournalGoesOn C.history
        (session_turn Heard (core D.state daemon.old) n link.old) false
        (session_turn Ready (core D.state daemon.new) n link.new) }
{
    if link.replies.is_empty() {
        link.replies.take_reply(daemon, link.id);
    }
}

/// One read of the control connection when no replies wait. Else the replies to a client that asks on and on and reads none would
/// pile up without end. Tells whether something moved.
fn listen<D: Device, L: Listeners>(
    alloc: Global,
    daemon: &mut Daemon<D>,
    net: &mut L,
    link: &mut SessionLink<L::Conn>,
) -> bool
    ensures { JournalGoesOn L.Conn.history
        (session_turn Due (core D.state daemon.old) (L.trace net.old) link.old) result
        (session_turn Heard (core D.state daemon.new) (L.trace net.new) link.new) }
{
    fill_replies(daemon, link);
    if link.replies.is_empty() {
        hear(alloc, daemon, net, link)
    } else {
        false
    }
}

/// A session that is over is done once none of its replies wait.
fn finish<C>(link: &mut SessionLink<C>)
    ensures { link.new ≡ record link.old { is_done = link.old.is_done || link.old.is_over } }
{
    if link.is_over {
        link.is_done = true;
    }
}

/// One write of the replies that wait.
fn send_replies<C: Socket>(link: &mut SessionLink<C>) -> bool
    ensures { (d : Core) (n : Option ListenerTrace)
        → JournalGoesOn C.history (session_turn Ready d n link.old) result
        (session_turn Spoken d n link.new) }
{
    if link.replies.is_empty() {
        finish(link);
        return false;
    }
    match link.replies.write_to(&mut link.conn) {
        Got::Moved(_) => true,
        Got::Nothing => false,
        Got::Lost => {
            link.is_done = true;
            true
        }
    }
}

/// One write of replies, which are taken from the daemon where none wait.
fn speak<D: Device, C: Socket>(daemon: &mut Daemon<D>, link: &mut SessionLink<C>) -> bool
    ensures { (n : Option ListenerTrace) → JournalGoesOn C.history
        (session_turn Heard (core D.state daemon.old) n link.old) result
        (session_turn Spoken (core D.state daemon.new) n link.new) }
{
    fill_replies(daemon, link);
    send_replies(link)
}

/// Hands the data connection back.
fn hang_up<L: Listeners>(net: &mut L, link: &mut SessionLink<L::Conn>)
    ensures net { L.trace net.new ≡ hung_up L.Conn.history link.old.image (L.trace net.old) }
    ensures link { link.new ≡ record link.old { image = None } }
{
    if let Some(conn) = link.image.take() {
        net.close(conn);
    }
}

/// Takes the data connection of a frame that waits for it.
fn dial<D: Device, L: Listeners>(
    daemon: &mut Daemon<D>,
    net: &mut L,
    link: &mut SessionLink<L::Conn>,
) -> bool
    ensures { JournalGoesOn L.Conn.history
        (session_turn Spoken (core D.state daemon.old) (L.trace net.old) link.old) result
        (session_turn Dialed (core D.state daemon.new) (L.trace net.new) link.new) }
{
    if link.image.is_some() {
        return false;
    }
    let FrameState::Waiting = daemon.frame(link.id) else {
        return false;
    };
    let Some(conn) = net.accept_data(link.port) else {
        return false;
    };
    if !daemon.data_connected(link.id) {
        // A frame waits, so this never comes; the types want the connection handed back.
        net.close(conn);
        return true;
    }
    link.records.clear();
    link.is_last = false;
    if let Some(other) = link.image.replace(conn) {
        net.close(other);
    }
    true
}

/// Takes a record where none waits.
fn fill_records<D: Device, C: Socket>(daemon: &mut Daemon<D>, link: &mut SessionLink<C>)
    requires { IsSome link.old.image }
    ensures { (n : Option ListenerTrace) → JournalGoesOn C.history
        (session_turn Dialed (core D.state daemon.old) n link.old) false
        (session_turn Loaded (core D.state daemon.new) n link.new) }
{
    if link.records.is_empty() {
        let step = link.records.take_record(daemon, link.id);
        link.is_last = is_end(step);
    }
}

/// One write of the record that waits.
fn send_records<C: Socket>(link: &mut SessionLink<C>) -> Got
    ensures { SendsRecords C.history result link.old link.new }
{
    match &mut link.image {
        Some(conn) if !link.records.is_empty() => link.records.write_to(conn),
        _ => Got::Nothing,
    }
}

/// One record. The data connection is handed back after the end record, or where it is lost.
fn show<D: Device, L: Listeners>(
    daemon: &mut Daemon<D>,
    net: &mut L,
    link: &mut SessionLink<L::Conn>,
) -> bool
    ensures { JournalGoesOn L.Conn.history
        (session_turn Dialed (core D.state daemon.old) (L.trace net.old) link.old) result
        (session_turn Shown (core D.state daemon.new) (L.trace net.new) link.new) }
{
    if link.image.is_none() {
        return false;
    }
    fill_records(daemon, link);
    match send_records(link) {
        Got::Nothing => false,
        Got::Moved(_) => {
            if link.is_last && link.records.is_empty() {
                hang_up(net, link);
            }
            true
        }
        Got::Lost => {
            daemon.data_lost(link.id);
            hang_up(net, link);
            true
        }
    }
}

/// One turn of a session: a read, a write, its data connection and a record. Tells whether something moved.
pub fn converse<D: Device, L: Listeners>(
    alloc: Global,
    daemon: &mut Daemon<D>,
    net: &mut L,
    link: &mut SessionLink<L::Conn>,
) -> bool
    ensures { JournalGoesOn L.Conn.history
        (session_turn Due (core D.state daemon.old) (L.trace net.old) link.old) result
        (session_turn Shown (core D.state daemon.new) (L.trace net.new) link.new) }
{
    let has_heard = listen(alloc, daemon, net, link);
    let has_spoken = speak(daemon, link);
    let has_dialed = dial(daemon, net, link);
    let has_shown = show(daemon, net, link);
    has_heard | has_spoken | has_dialed | has_shown
}

/// Room for what waits on a session's two connections.
#[derive(Drop)]
pub struct Rooms {
    pub replies: PendingBytes<MOST_REPLY>,
    pub records: PendingBytes<MOST_RECORD>,
}

/// Hands the control connection back.
pub fn part<L: Listeners>(net: &mut L, link: SessionLink<L::Conn>) -> Rooms
    requires { link.image ≡ None }
    ensures { L.trace net.new ≡ with_notice (Back (L.Conn.history link.conn)) (L.trace net.old) }
{
    let SessionLink {
        conn,
        id: _,
        port: _,
        is_over: _,
        is_done: _,
        replies,
        records,
        image,
        is_last: _,
    } = link;
    match image {
        None => {
            net.close(conn);
            Rooms { replies, records }
        }
        Some(other) => {
            net.close(other);
            net.close(conn);
            Rooms { replies, records }
        }
    }
}

/// Ends a session and hands its connections back.
pub fn leave<D: Device, L: Listeners>(
    daemon: &mut Daemon<D>,
    net: &mut L,
    mut link: SessionLink<L::Conn>,
) -> Rooms
    ensures { LeavesSession L.Conn.history (lent D.state L.trace daemon.old net.old) link
        (lent D.state L.trace daemon.new net.new) }
{
    hang_up(net, &mut link);
    net.close_data(link.port);
    daemon.end_session(link.id);
    part(net, link)
}
