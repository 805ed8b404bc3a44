//! Bytes in pieces to the requests of a session, and its replies to bytes.

ghost use Rattle.std.specs.Prelude.{◌≡◌, None, IfNone, IfSome, option_map};
ghost use Rattle.dispatch.specs.Table.{table};
ghost use Rattle.saned_requests.specs.Holding.{seen_session};
ghost use Rattle.saned_requests.specs.RequestAnswers.{request_context};
ghost use Rattle.saned_core.specs.DaemonStates.{session_in, session_let_go};
ghost use Rattle.saned_core.specs.Feeding.{no_input, IsUnsaid};
ghost use Rattle.saned_core.specs.Inside.{FeedsPlace, FeedsReplies, place_state, IsSaid, SaidAs};

use crate::replies::Replies;
use crate::session_slot::{Fed, SessionSlot};
use device_api::Device;
use dispatch::Registry;
use md5_auth::{Challenger, Users};
use saned_requests::{RequestAnswer, Session, answer, let_go};
use std::alloc::Global;
use std::mem;
use wire_codec::{Decoder, Reply, WireFault, encode_reply};

/// Puts a reply behind those that wait. One that passes the limits of the wire ends the session.
fn say(alloc: Global, replies: &mut Replies, reply: &Reply) -> Fed
    ensures said { result ≡ Fed.Standing → IsSaid reply.now replies.old replies.new }
    ensures unsaid { result ≡ Fed.Over → (replies.new ≡ replies.old) × IsUnsaid reply.now }
{
    match encode_reply(alloc, reply) {
        Ok(bytes) => match replies.push(bytes.as_slice()) {
            Ok(()) => Fed::Standing,
            Err(_) => Fed::Starved,
        },
        Err(WireFault::NoMem) => Fed::Starved,
        Err(WireFault::TooLong) => Fed::Over,
        Err(WireFault::BadValue) => Fed::Over,
        Err(WireFault::BadCode) => Fed::Over,
    }
}

/// Puts what is said behind the replies that wait.
fn say_all(alloc: Global, replies: &mut Replies, said: RequestAnswer) -> Fed
    ensures { SaidAs said replies.old result replies.new }
{
    match said {
        RequestAnswer::One(reply) => say(alloc, replies, &reply),
        RequestAnswer::Two(first, second) => match say(alloc, replies, &first) {
            Fed::Standing => say(alloc, replies, &second),
            Fed::Over => Fed::Over,
            Fed::Starved => Fed::Starved,
        },
        RequestAnswer::Last(None) => Fed::Over,
        RequestAnswer::Last(Some(reply)) => match say(alloc, replies, &reply) {
            Fed::Standing => Fed::Over,
            Fed::Over => Fed::Over,
            Fed::Starved => Fed::Starved,
        },
    }
}

/// Answers each request that is whole with the piece. What is not `Standing` is still to be let go.
fn feed_session<D: Device>(
    alloc: Global,
    input: &mut Decoder,
    session: &mut Session<D>,
    replies: &mut Replies,
    registry: &mut Registry<D>,
    users: &Users,
    challenger: &mut Challenger,
    piece: &[u8],
) -> Fed
    ensures context { FeedsReplies result
        (record {
          users = users.now;
          context = request_context D.state session.old registry.old challenger.old;
          before = input.old.rest;
          piece = piece.now;
        }) replies.old
        (record {
          context = request_context D.state session.new registry.new challenger.new;
          rest = input.new.rest;
          text = replies.new;
        }) }
    ensures fault { result ≡ Fed.Standing → input.new.fault ≡ None }
{
    match input.feed(piece) {
        Ok(()) => {}
        Err(_) => return Fed::Starved,
    }
    loop {
        let request = match input.next_request(alloc) {
            Ok(Some(request)) => request,
            Ok(None) => return Fed::Standing,
            Err(WireFault::NoMem) => return Fed::Starved,
            Err(WireFault::BadCode) => return Fed::Over,
            Err(WireFault::BadValue) => return Fed::Over,
            Err(WireFault::TooLong) => return Fed::Over,
        };
        let said = match answer(alloc, session, registry, users, challenger, request) {
            Ok(said) => said,
            Err(_) => return Fed::Starved,
        };
        match say_all(alloc, replies, said) {
            Fed::Standing => {}
            Fed::Over => return Fed::Over,
            Fed::Starved => return Fed::Starved,
        }
    }
}

/// Ends the session of a slot: its leases go back, and what came and was not answered is dropped.
fn close<D: Device>(alloc: Global, slot: &mut SessionSlot<D>, registry: &mut Registry<D>)
    ensures slot { slot.new ≡ record slot.old { input = no_input; session = None } }
    ensures registry { table D.state registry.new ≡ session_let_go (table D.state registry.old)
        (option_map (seen_session D.state) slot.old.session) }
{
    slot.input = Decoder::new(alloc);
    match mem::replace(&mut slot.session, None) {
        None => {}
        Some(session) => let_go(registry, session),
    }
}

/// Feeds the session of a place, if one goes on there.
pub fn feed_place<D: Device>(
    alloc: Global,
    place: &mut Option<SessionSlot<D>>,
    registry: &mut Registry<D>,
    users: &Users,
    challenger: &mut Challenger,
    piece: &[u8],
) -> Option<Fed>
    ensures none { IfNone result (session_in place.old ≡ None) }
    ensures place { IfNone result (place.new ≡ place.old) }
    ensures registry { IfNone result (registry.new ≡ registry.old) }
    ensures challenger { IfNone result (challenger.new ≡ challenger.old) }
    ensures fed { IfSome result (λ fed. FeedsPlace users.now
        (place_state D.state place.old registry.old challenger.old) piece.now fed
        (place_state D.state place.new registry.new challenger.new)) }
{
    let Some(slot) = place else {
        return None;
    };
    let Some(session) = &mut slot.session else {
        return None;
    };
    let fed = feed_session(
        alloc,
        &mut slot.input,
        session,
        &mut slot.replies,
        registry,
        users,
        challenger,
        piece,
    );
    match fed {
        Fed::Standing => {}
        Fed::Over => close(alloc, slot, registry),
        Fed::Starved => {
            close(alloc, slot, registry);
            slot.replies.clear();
        }
    }
    Some(fed)
}
