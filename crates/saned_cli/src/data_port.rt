//! A port that waits for data connections.

ghost use Rattle.std.specs.Prelude.{◌≡◌, ◌∷◌, [], Some, None, Option, IfSome};
ghost use Rattle.std.specs.Option.{option_map};
ghost use Rattle.socket_calls.specs.SocketCall.{listening_port, with_socket_calls};
ghost use Rattle.saned_cli.specs.Guarding.{IsHis, WhereTold, port_view};
ghost use Rattle.saned_cli.specs.Inside.{HasLooked, HasMarkedFor, HaveCome, KeepsHisIn, LooksOnce, admitted_numbers, is_let_in, newcomer_numbers, without_standing};
ghost use Rattle.saned_cli.specs.Guarding.{closing, ending_of};
ghost use Rattle.saned_cli.specs.Guarding.{ForgetsEnded, GivesNewest, numbers_of, port_and_calls};

use crate::table_reading::{Newcomer, mark_those_of};
use socket_calls::{Arrival, ListeningAt, Peeked, SocketCalls};
use std::alloc::Global;

/// At most so many connections are taken at once, by one reading of the table of sockets: so a stranger who dials without end
/// costs one reading a look, and keeps no other session waiting for long. Who comes later is left to the next look.
const MOST_AT_ONCE: usize = 512;

/// A port that waits for data connections.
#[derive(Drop)]
pub struct DataPort<L, W> {
    pub at: ListeningAt<L>,
    /// The user who owns the session's control connection, where the system tells him.
    pub owner: Option<u32>,
    /// The newest connection that stands both ways.
    pub standing: Option<W>,
    /// The newest whose peer ended its side: it closed it, or only means to read, as SANE's own clients do. Nothing but a
    /// write tells the two apart.
    pub ended: Option<W>,
}

/// Puts a connection into its place, where an older one is closed.
fn put_in_place<S: SocketCalls>(sockets: &mut S, place: &mut Option<S::Waiting>, stream: S::Waiting)
    ensures placed { option_map S.number place.new ≡ Some (S.number stream) }
    ensures closed { S.calls sockets.new
        ≡ with_socket_calls (closing (option_map S.number place.old)) (S.calls sockets.old) }
{
    if let Some(older) = place.replace(stream) {
        sockets.close(older);
    }
}

/// Keeps a connection by what its peer has done: one that is broken, or whose peer speaks, is closed.
fn keep<S: SocketCalls>(
    sockets: &mut S,
    it: &mut DataPort<S::Listener, S::Waiting>,
    stream: S::Waiting,
)
    ensures { HasLooked (S.number stream ∷ []) (S.number stream ∷ [])
        (port_and_calls S.number it.old (S.calls sockets.old))
        (port_and_calls S.number it.new (S.calls sockets.new)) }
{
    match sockets.peek(&stream) {
        Peeked::Nothing => put_in_place(sockets, &mut it.standing, stream),
        Peeked::End => put_in_place(sockets, &mut it.ended, stream),
        // Where only a daemon speaks, a peer that does is no client.
        Peeked::Speech | Peeked::Break => sockets.close(stream),
    }
}

/// The first of the connections that wait.
fn newcomers<S: SocketCalls>(
    alloc: Global,
    sockets: &mut S,
    at: &ListeningAt<S::Listener>,
) -> Vec<Newcomer<S::Waiting>>
    ensures { HaveCome S.number (listening_port at.now) (S.calls sockets.old) result.items
        (S.calls sockets.new) }
{
    // The room comes first, so that nobody is lost who could not be kept.
    let Ok(mut made) = Vec::with_capacity(alloc, MOST_AT_ONCE) else {
        return Vec::new(alloc);
    };
    for _i in 0..MOST_AT_ONCE {
        let Ok(Some(Arrival { stream, peer, .. })) = sockets.accept(at) else {
            return made;
        };
        made.push_reserved(Newcomer {
            stream,
            peer,
            is_his: false,
        });
    }
    made
}

/// Whether a newcomer is kept: where the port is of a user, only his.
fn is_let_in(owner: Option<u32>, is_his: bool) -> bool
    ensures { result ≡ is_let_in owner is_his }
{
    match owner {
        None => true,
        Some(_) => is_his,
    }
}

/// Keeps those of the newcomers that are the session's user's, and where he is not known all of them; the others are closed.
fn admit<S: SocketCalls>(
    sockets: &mut S,
    it: &mut DataPort<S::Listener, S::Waiting>,
    newcomers: Vec<Newcomer<S::Waiting>>,
)
    ensures { HasLooked (newcomer_numbers S.number newcomers.items)
        (admitted_numbers S.number it.old.owner newcomers.items)
        (port_and_calls S.number it.old (S.calls sockets.old))
        (port_and_calls S.number it.new (S.calls sockets.new)) }
{
    for Newcomer { stream, is_his, .. } in newcomers {
        if is_let_in(it.owner, is_his) {
            keep(sockets, it, stream);
        } else {
            sockets.close(stream);
        }
    }
}

/// Looks once more at the connection that stands.
fn look_again<S: SocketCalls>(sockets: &mut S, it: &mut DataPort<S::Listener, S::Waiting>)
    ensures { HasLooked (numbers_of (option_map S.number it.old.standing))
        (numbers_of (option_map S.number it.old.standing))
        (without_standing (port_and_calls S.number it.old (S.calls sockets.old)))
        (port_and_calls S.number it.new (S.calls sockets.new)) }
{
    let Some(stream) = it.standing.take() else {
        return;
    };
    keep(sockets, it, stream);
}

/// Marks the newcomers that are the user's, where the port is of one.
fn mark_his<S: SocketCalls>(
    alloc: Global,
    sockets: &mut S,
    port: u16,
    owner: Option<u32>,
    newcomers: &mut [Newcomer<S::Waiting>],
)
    ensures { HasMarkedFor port owner (S.calls sockets.old) newcomers.old newcomers.new
        (S.calls sockets.new) }
{
    let Some(user) = owner else {
        return;
    };
    mark_those_of(alloc, sockets, port, user, newcomers);
}

/// Looks at the connection that stands, and takes the first that wait.
fn look<S: SocketCalls>(alloc: Global, sockets: &mut S, it: &mut DataPort<S::Listener, S::Waiting>)
    requires { KeepsHisIn (port_and_calls S.number it.old (S.calls sockets.old)) }
    ensures looks { LooksOnce
        (port_and_calls S.number it.old (S.calls sockets.old))
        (port_and_calls S.number it.new (S.calls sockets.new)) }
    ensures his { KeepsHisIn (port_and_calls S.number it.new (S.calls sockets.new)) }
{
    look_again(sockets, it);
    let mut made = newcomers(alloc, sockets, &it.at);
    if made.is_empty() {
        return;
    }
    mark_his(alloc, sockets, it.at.port(), it.owner, made.as_mut_slice());
    admit(sockets, it, made);
}

/// Closes the connections that their peers have ended.
pub fn forget_ended<S: SocketCalls>(
    alloc: Global,
    sockets: &mut S,
    it: &mut DataPort<S::Listener, S::Waiting>,
)
    requires { KeepsHisIn (port_and_calls S.number it.old (S.calls sockets.old)) }
    ensures forgets { ForgetsEnded
        (port_and_calls S.number it.old (S.calls sockets.old))
        (port_and_calls S.number it.new (S.calls sockets.new)) }
    ensures his { KeepsHisIn (port_and_calls S.number it.new (S.calls sockets.new)) }
{
    look(alloc, sockets, it);
    let Some(stream) = it.ended.take() else {
        return;
    };
    sockets.close(stream);
}

/// The connection that a frame takes; the others are closed.
pub fn taken<S: SocketCalls>(
    alloc: Global,
    sockets: &mut S,
    it: &mut DataPort<S::Listener, S::Waiting>,
) -> Option<S::Waiting>
    requires { KeepsHisIn (port_and_calls S.number it.old (S.calls sockets.old)) }
    ensures gives { GivesNewest
        (port_and_calls S.number it.old (S.calls sockets.old))
        (port_and_calls S.number it.new (S.calls sockets.new))
        (option_map S.number result) }
    ensures his { IfSome result (λ stream. WhereTold
        (IsHis (listening_port it.old.at) it.old.owner (S.number stream))
        (S.calls sockets.new)) }
{
    look(alloc, sockets, it);
    let ended = it.ended.take();
    let Some(standing) = it.standing.take() else {
        return ended;
    };
    close_older(sockets, ended);
    Some(standing)
}

/// Closes a connection, where there is one.
fn close_older<S: SocketCalls>(sockets: &mut S, older: Option<S::Waiting>)
    ensures { S.calls sockets.new
        ≡ with_socket_calls (closing (option_map S.number older)) (S.calls sockets.old) }
{
    if let Some(older) = older {
        sockets.close(older);
    }
}

/// Closes the port, and the connections that it keeps.
pub fn end<S: SocketCalls>(sockets: &mut S, it: DataPort<S::Listener, S::Waiting>)
    ensures { S.calls sockets.new ≡ with_socket_calls (ending_of (port_view S.number it))
        (S.calls sockets.old) }
{
    let DataPort {
        at,
        standing,
        ended,
        ..
    } = it;
    close_older(sockets, standing);
    close_older(sockets, ended);
    sockets.end_listening(at);
}
