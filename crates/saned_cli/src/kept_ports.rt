//! The data ports of all sessions.

ghost use Rattle.std.specs.Prelude.{◌≡◌, IfNone, IfSome, map, vec_capacity};
ghost use Rattle.std.specs.Option.{option_map};
ghost use Rattle.saned_cli.specs.Guarding.{port_view};
ghost use Rattle.saned_cli.specs.NetViews.{IsForFrame};
ghost use Rattle.saned_cli.specs.Inside.{EachKeepsHisIn, EndsAmong, ForgetsAmong, GivesAmong, HasNoPlace, IsPlaceAmong, ports_and_calls};

use crate::data_port::{DataPort, end, forget_ended, taken};
use socket_calls::SocketCalls;
use std::alloc::Global;

/// The place of the data port of that number.
fn place<L, W>(ports: &[DataPort<L, W>], port: u16) -> Option<usize>
    ensures some { IfSome result (IsPlaceAmong port ports.now) }
    ensures none { IfNone result (HasNoPlace port ports.now) }
{
    for (at, it) in ports.iter().enumerate() {
        if it.at.port() == port {
            return Some(at);
        }
    }
    None
}

/// Closes the connections at a port that their peers have ended.
pub fn forget_at<S: SocketCalls>(
    alloc: Global,
    sockets: &mut S,
    ports: &mut Vec<DataPort<S::Listener, S::Waiting>>,
    port: u16,
)
    requires { EachKeepsHisIn (ports_and_calls S.number ports.old.items (S.calls sockets.old)) }
    ensures forgets { ForgetsAmong port
        (ports_and_calls S.number ports.old.items (S.calls sockets.old))
        (ports_and_calls S.number ports.new.items (S.calls sockets.new)) }
    ensures keeps { EachKeepsHisIn
        (ports_and_calls S.number ports.new.items (S.calls sockets.new)) }
    ensures room { vec_capacity ports.new ≡ vec_capacity ports.old }
{
    let Some(at) = place(ports.as_slice(), port) else {
        return;
    };
    forget_ended(alloc, sockets, &mut ports[at]);
}

/// The connection at a port that a frame takes.
pub fn taken_at<S: SocketCalls>(
    alloc: Global,
    sockets: &mut S,
    ports: &mut Vec<DataPort<S::Listener, S::Waiting>>,
    port: u16,
) -> Option<S::Waiting>
    requires { EachKeepsHisIn (ports_and_calls S.number ports.old.items (S.calls sockets.old)) }
    ensures gives { GivesAmong port
        (ports_and_calls S.number ports.old.items (S.calls sockets.old))
        (ports_and_calls S.number ports.new.items (S.calls sockets.new))
        (option_map S.number result) }
    ensures his { IfSome result (λ stream. IsForFrame port
        (map (port_view S.number) ports.old.items) (S.number stream) (S.calls sockets.new)) }
    ensures keeps { EachKeepsHisIn
        (ports_and_calls S.number ports.new.items (S.calls sockets.new)) }
    ensures room { vec_capacity ports.new ≡ vec_capacity ports.old }
{
    let at = place(ports.as_slice(), port)?;
    taken(alloc, sockets, &mut ports[at])
}

/// Closes a port, and the connections that it keeps.
pub fn end_at<S: SocketCalls>(
    sockets: &mut S,
    ports: &mut Vec<DataPort<S::Listener, S::Waiting>>,
    port: u16,
)
    requires { EachKeepsHisIn (ports_and_calls S.number ports.old.items (S.calls sockets.old)) }
    ensures ends { EndsAmong port
        (ports_and_calls S.number ports.old.items (S.calls sockets.old))
        (ports_and_calls S.number ports.new.items (S.calls sockets.new)) }
    ensures keeps { EachKeepsHisIn
        (ports_and_calls S.number ports.new.items (S.calls sockets.new)) }
    ensures room { vec_capacity ports.new ≡ vec_capacity ports.old }
{
    let Some(at) = place(ports.as_slice(), port) else {
        return;
    };
    let it = ports.remove(at);
    end(sockets, it);
}
