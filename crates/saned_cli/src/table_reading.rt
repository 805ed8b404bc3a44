//! Readings of the system's table of sockets: who owns the other end of a connection, and which connections a user has.

ghost use Rattle.std.specs.Prelude.{◌≡◌, ◌∷◌, ◌++◌, [], ℕ, List, Option, map};
ghost use Rattle.std.specs.declared.net.socket_addr.SocketAddrV4.{SocketAddrV4 as AnEnd};
ghost use Rattle.saned_cli.specs.TableReadings.{NamesOwner, is_of_peer};
ghost use Rattle.saned_cli.specs.Inside.{HasAskedOwner, HasMarked, HasReadOwner, IsSeenIn, marked_by, marked_by_line};

use crate::socket_table::{end_text, has_own_end, is_between, is_socket_to, own_text, owner_in};
use itoa::Buffer;
use socket_calls::SocketCalls;
use std::alloc::Global;
use std::net::SocketAddrV4;

/// So many lines are read at most, so that a reading ends.
const MOST_LINES: usize = 1_000_000;

/// Which of the lines so far are of the peer's end of a connection.
#[derive(Clone, Copy)]
pub enum LinesSeen {
    Never,
    /// One line is, of a socket that this user owns, or that nobody has any more.
    Once(Option<u32>),
    /// More than one are, so that none tells the owner.
    Often,
}

/// A connection that was just made, the other end of it, and whether the table told that the session's user has that.
#[derive(Drop)]
pub struct Newcomer<W> {
    pub stream: W,
    pub peer: Option<SocketAddrV4>,
    pub is_his: bool,
}

/// The same, with one more line.
fn seen_after(seen: LinesSeen, line: &[u8], peer: SocketAddrV4, ours: SocketAddrV4) -> LinesSeen
    ensures { (lines : List (List ℕ)) → IsSeenIn lines peer ours seen
        → IsSeenIn (lines ++ line.now ∷ []) peer ours result }
{
    if !is_between(line, peer, ours) {
        return seen;
    }
    match seen {
        LinesSeen::Never => LinesSeen::Once(owner_in(line)),
        LinesSeen::Once(_) | LinesSeen::Often => LinesSeen::Often,
    }
}

/// The owner, where all lines of a reading were seen.
fn owner_seen(seen: LinesSeen) -> Option<u32>
    ensures { (lines : List (List ℕ)) → (peer ours : AnEnd) → IsSeenIn lines peer ours seen
        → NamesOwner lines peer ours result }
{
    match seen {
        LinesSeen::Never | LinesSeen::Often => None,
        LinesSeen::Once(owner) => owner,
    }
}

/// The user who owns the peer's end of a connection, by the table as it now is.
fn owner_told<S: SocketCalls>(
    alloc: Global,
    sockets: &mut S,
    peer: SocketAddrV4,
    ours: SocketAddrV4,
) -> Option<u32>
    ensures { HasReadOwner peer ours (S.calls sockets.old) result (S.calls sockets.new) }
{
    if !sockets.begin_table() {
        return None;
    }
    let mut line = Vec::new(alloc);
    let mut seen = LinesSeen::Never;
    for _i in 0..MOST_LINES {
        if !sockets.next_line(&mut line) {
            return owner_seen(seen);
        }
        seen = seen_after(seen, line.as_slice(), peer, ours);
    }
    owner_seen(seen)
}

/// The same of a connection whose ends may not be known.
pub fn owner_of_peer<S: SocketCalls>(
    alloc: Global,
    sockets: &mut S,
    peer: Option<SocketAddrV4>,
    ours: Option<SocketAddrV4>,
) -> Option<u32>
    ensures { HasAskedOwner peer ours (S.calls sockets.old) result (S.calls sockets.new) }
{
    let peer = peer?;
    let ours = ours?;
    owner_told(alloc, sockets, peer, ours)
}

/// Whether a line is of a socket whose own end is that.
fn is_of_peer(peer: Option<SocketAddrV4>, line: &[u8]) -> bool
    ensures { result ≡ is_of_peer peer line.now }
{
    match peer {
        Some(peer) => has_own_end(&end_text(peer), line),
        None => false,
    }
}

/// Marks the newcomers whose end is that of a line.
fn mark<W>(newcomers: &mut [Newcomer<W>], line: &[u8])
    ensures { newcomers.new ≡ map (marked_by line.now) newcomers.old }
{
    for newcomer in newcomers.iter_mut() {
        newcomer.is_his |= is_of_peer(newcomer.peer, line);
    }
}

/// The same, where the line is of a socket of that user's which is connected to our end.
fn mark_by_line<W>(newcomers: &mut [Newcomer<W>], ours: &[u8], user: &[u8], line: &[u8])
    ensures { newcomers.new ≡ map (marked_by_line ours.now user.now line.now) newcomers.old }
{
    if is_socket_to(ours, user, line) {
        mark(newcomers, line);
    }
}

/// Marks the newcomers to a port whose end is that user's, by the table as it now is.
pub fn mark_those_of<S: SocketCalls>(
    alloc: Global,
    sockets: &mut S,
    port: u16,
    user: u32,
    newcomers: &mut [Newcomer<S::Waiting>],
)
    ensures { HasMarked port user (S.calls sockets.old) newcomers.old newcomers.new
        (S.calls sockets.new) }
{
    if !sockets.begin_table() {
        return;
    }
    let mut digits = Buffer::new();
    let user = digits.format(user).as_bytes();
    let ours = own_text(port);
    let mut line = Vec::new(alloc);
    for _i in 0..MOST_LINES {
        if !sockets.next_line(&mut line) {
            return;
        }
        mark_by_line(newcomers, &ours, user, line.as_slice());
    }
}
