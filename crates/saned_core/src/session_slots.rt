//! One slot of many, by its number.

ghost use Rattle.std.specs.Prelude.{not, ◌==◌, ◌⊎◌, ◌++◌, take, drop, None, ◌<◌, slice_index_or, slice_set, ◌≡◌, ◌≤◌, length, option_map, option_and_then, IfSome, IfNone, position};
ghost use Rattle.dispatch.specs.Table.{table};
ghost use Rattle.saned_requests.specs.Holding.{seen_session};
ghost use Rattle.saned_core.specs.DaemonStates.{all_slots_taken, with_session_slot, new_session_slot, after_reply_bytes, after_taken, no_more, replies_in, session_let_go, kept_if_open, is_slot_number, session_slot_of, on_session_slot, on_session, frame_in, frame_state_of, is_waiting, after_connected, after_lost, seen_session_slot, seen_session_slots, session_in};
ghost use Rattle.saned_core.specs.Inside.{is_vacant, IsFirstSlot, IsMissing, FeedsAmong, slots_state};
ghost use Rattle.saned_core.specs.Turns.{TurnsSlots};

use crate::data::{data_phase_connected, lose, state_of, turn};
use crate::feeding::feed_place;
use crate::replies::Replies;
use crate::session_giving_back::give_back_slot;
use crate::session_slot::{DataStep, Fed, FrameState, SessionSlot};
use device_api::Device;
use dispatch::Registry;
use md5_auth::{Challenger, Users};
use saned_requests::{DataPhase, Session, StringSize};
use std::alloc::Global;
use std::mem;
use wire_codec::Decoder;

/// Whether the slot has the number.
fn is_slot_number<D>(slot: &Option<SessionSlot<D>>, number: u64) -> bool
    ensures { result ≡ is_slot_number number slot.now }
{
    match slot {
        Some(slot) => slot.number == number,
        None => false,
    }
}

/// The place of the session of that number.
pub fn find<D>(slots: &[Option<SessionSlot<D>>], number: u64) -> Option<usize>
    ensures found { IfSome result (IsFirstSlot number slots.now) }
    ensures none { IfNone result (IsMissing number slots.now) }
{
    let place = position_of(slots, number);
    match place {
        Some(k) => Some(k),
        None => None,
    }
}

fn position_of<D>(slots: &[Option<SessionSlot<D>>], number: u64) -> Option<usize>
    ensures { result ≡ position (is_slot_number number) slots.now }
{
    slots.iter().position(
        |slot: &Option<SessionSlot<D>>| -> bool
            ensures { result ≡ is_slot_number number slot.now }
        { is_slot_number(slot, number) },
    )
}

/// Where the frame of a slot is.
fn frame_state_of<D: Device>(slot: &Option<SessionSlot<D>>) -> FrameState
    ensures { result ≡ frame_in (session_in (option_map (seen_session_slot D.state) slot.now)) }
{
    match slot {
        Some(slot) => match &slot.session {
            Some(session) => state_of(session.transfer),
            None => FrameState::Quiet,
        },
        None => FrameState::Quiet,
    }
}

/// Where the session's frame is.
pub fn frame_at<D: Device>(slots: &[Option<SessionSlot<D>>], number: u64) -> FrameState
    ensures { result
        ≡ frame_in (session_in (session_slot_of (seen_session_slots D.state slots.now) number)) }
{
    match find(slots, number) {
        Some(k) => frame_state_of(&slots[k]),
        None => FrameState::Quiet,
    }
}

fn has_waiting<D: Device>(slot: &Option<SessionSlot<D>>) -> bool
    ensures { result
        ≡ not (length (replies_in (option_map (seen_session_slot D.state) slot.now)) == 0) }
{
    match slot {
        Some(slot) => !slot.replies.is_empty(),
        None => false,
    }
}

/// Whether replies of a session wait.
pub fn replies_wait<D: Device>(slots: &[Option<SessionSlot<D>>], number: u64) -> bool
    ensures { result ≡ not
        (length (replies_in (session_slot_of (seen_session_slots D.state slots.now) number)) == 0) }
{
    match find(slots, number) {
        Some(k) => has_waiting(&slots[k]),
        None => false,
    }
}

/// A connection for the frame of a session that waits for one.
fn connect_session<D>(session: &mut Session<D>) -> bool
    ensures answer { result ≡ is_waiting (frame_state_of session.old.transfer) }
    ensures after { session.new ≡ after_connected session.old }
{
    let waits = state_of(session.transfer) == FrameState::Waiting;
    session.transfer = data_phase_connected(session.transfer);
    waits
}

fn connect<D: Device>(slot: &mut Option<SessionSlot<D>>) -> bool
    ensures answer { result
        ≡ is_waiting (frame_in (session_in (option_map (seen_session_slot D.state) slot.old))) }
    ensures after { option_map (seen_session_slot D.state) slot.new ≡ option_and_then
        (on_session after_connected) (option_map (seen_session_slot D.state) slot.old) }
{
    if let Some(slot) = slot {
        if let Some(session) = &mut slot.session {
            return connect_session(session);
        }
    }
    false
}

/// The data connection of the session of that number is made; tells whether a frame waited for it.
pub fn connect_at<D: Device>(slots: &mut [Option<SessionSlot<D>>], number: u64) -> bool
    ensures answer { result ≡ is_waiting
        (frame_in (session_in (session_slot_of (seen_session_slots D.state slots.old) number))) }
    ensures after { seen_session_slots D.state slots.new ≡ on_session_slot
        (on_session after_connected) number (seen_session_slots D.state slots.old) }
{
    match find(slots, number) {
        Some(k) => connect(&mut slots[k]),
        None => false,
    }
}

/// The data connection of a slot is lost.
fn lose_slot<D: Device>(slot: &mut Option<SessionSlot<D>>)
    ensures { option_map (seen_session_slot D.state) slot.new ≡ option_and_then
        (on_session after_lost) (option_map (seen_session_slot D.state) slot.old) }
{
    if let Some(slot) = slot {
        if let Some(session) = &mut slot.session {
            lose(session);
        }
    }
}

/// The data connection of the session of that number is lost.
pub fn lose_at<D: Device>(slots: &mut [Option<SessionSlot<D>>], number: u64)
    ensures { seen_session_slots D.state slots.new
        ≡ on_session_slot (on_session after_lost) number (seen_session_slots D.state slots.old) }
{
    if let Some(k) = find(slots, number) {
        lose_slot(&mut slots[k]);
    }
}

/// One turn of the data connection of the session of that number.
pub fn turn_at<D: Device>(
    slots: &mut [Option<SessionSlot<D>>],
    number: u64,
    buf: &mut [u8],
) -> DataStep
    requires { 8 ≤ length buf.old }
    ensures { TurnsSlots number (seen_session_slots D.state slots.old) result
        (seen_session_slots D.state slots.new) buf.new }
{
    let Some(k) = find(slots, number) else {
        return DataStep::Idle;
    };
    match &mut slots[k] {
        Some(slot) => match &mut slot.session {
            Some(session) => turn(session, buf),
            None => DataStep::Idle,
        },
        None => DataStep::Idle,
    }
}

/// Puts a slot into a place, and gives the one that was there.
fn swap_slot<D>(
    slots: &mut [Option<SessionSlot<D>>],
    k: usize,
    slot: Option<SessionSlot<D>>,
) -> Option<SessionSlot<D>>
    requires { k < length slots.old }
    ensures old { (d : _) → result ≡ slice_index_or slots.old k d }
    ensures new { slots.new ≡ slice_set slots.old k slot }
{
    mem::replace(&mut slots[k], slot)
}

/// The slot, as long as its session goes on or replies wait.
fn kept_if_open<D>(slot: Option<SessionSlot<D>>) -> Option<SessionSlot<D>>
    ensures { result ≡ option_and_then kept_if_open slot }
{
    match slot {
        None => None,
        Some(slot) => {
            let SessionSlot {
                number,
                input,
                replies,
                session,
            } = slot;
            match session {
                Some(session) => Some(SessionSlot {
                    number,
                    input,
                    replies,
                    session: Some(session),
                }),
                None => {
                    if replies.is_empty() {
                        None
                    } else {
                        Some(SessionSlot {
                            number,
                            input,
                            replies,
                            session: None,
                        })
                    }
                }
            }
        }
    }
}

/// Frees the place of a slot that no longer stands.
fn settle<D: Device>(registry: &mut Registry<D>, slots: &mut [Option<SessionSlot<D>>], k: usize)
    requires { k < length slots.old }
    ensures registry { table D.state registry.new ≡ table D.state registry.old }
    ensures slots { (d : _) → slots.new
        ≡ slice_set slots.old k (option_and_then kept_if_open (slice_index_or slots.old k d)) }
{
    let slot = swap_slot(slots, k, None);
    let slot = kept_if_open(slot);
    let gone = swap_slot(slots, k, slot);
    give_back_slot(registry, gone);
}

/// Ends a session: its place is free, and its leases go back.
pub fn end_at<D: Device>(
    registry: &mut Registry<D>,
    slots: &mut [Option<SessionSlot<D>>],
    number: u64,
)
    ensures registry { table D.state registry.new ≡ session_let_go (table D.state registry.old)
        (session_in (session_slot_of (seen_session_slots D.state slots.old) number)) }
    ensures slots { seen_session_slots D.state slots.new
        ≡ on_session_slot no_more number (seen_session_slots D.state slots.old) }
{
    if let Some(k) = find(slots, number) {
        let slot = swap_slot(slots, k, None);
        give_back_slot(registry, slot);
    }
}

/// Takes replies of a slot.
fn take_slot<D: Device>(slot: &mut Option<SessionSlot<D>>, buf: &mut [u8]) -> usize
    ensures within { result ≤ length buf.old }
    ensures all { result ≤ length (replies_in (option_map (seen_session_slot D.state) slot.old)) }
    ensures most { (result ≡ length buf.old)
        ⊎ (result ≡ length (replies_in (option_map (seen_session_slot D.state) slot.old))) }
    ensures bytes { buf.new ≡ take result
        (replies_in (option_map (seen_session_slot D.state) slot.old)) ++ drop result buf.old }
    ensures rest { option_map (seen_session_slot D.state) slot.new
        ≡ option_map (after_reply_bytes result) (option_map (seen_session_slot D.state) slot.old) }
{
    match slot {
        Some(slot) => slot.replies.take(buf),
        None => 0,
    }
}

/// Takes replies of the session of that number.
pub fn take_at<D: Device>(
    registry: &mut Registry<D>,
    slots: &mut [Option<SessionSlot<D>>],
    number: u64,
    buf: &mut [u8],
) -> usize
    ensures within { result ≤ length buf.old }
    ensures all { result
        ≤ length (replies_in (session_slot_of (seen_session_slots D.state slots.old) number)) }
    ensures most { (result ≡ length buf.old) ⊎ (result
        ≡ length (replies_in (session_slot_of (seen_session_slots D.state slots.old) number))) }
    ensures bytes { buf.new
        ≡ take result (replies_in (session_slot_of (seen_session_slots D.state slots.old) number))
        ++ drop result buf.old }
    ensures slots { seen_session_slots D.state slots.new
        ≡ on_session_slot (after_taken result) number (seen_session_slots D.state slots.old) }
    ensures registry { table D.state registry.new ≡ table D.state registry.old }
{
    match find(slots, number) {
        Some(k) => {
            let count = take_slot(&mut slots[k], buf);
            settle(registry, slots, k);
            count
        }
        None => 0,
    }
}

fn is_vacant<D>(slot: &Option<SessionSlot<D>>) -> bool
    ensures { result ≡ is_vacant slot.now }
{
    match slot {
        Some(_) => false,
        None => true,
    }
}

/// The first free place.
fn free_place<D>(slots: &[Option<SessionSlot<D>>]) -> Option<usize>
    ensures place { result ≡ position is_vacant slots.now }
    ensures within { IfSome result (λ k. k < length slots.now) }
{
    let place = vacant_place(slots);
    match place {
        Some(k) => Some(k),
        None => None,
    }
}

fn vacant_place<D>(slots: &[Option<SessionSlot<D>>]) -> Option<usize>
    ensures { result ≡ position is_vacant slots.now }
{
    slots.iter().position(
        |slot: &Option<SessionSlot<D>>| -> bool
            ensures { result ≡ is_vacant slot.now }
        { is_vacant(slot) },
    )
}

/// Puts a session into the first free place, and says whether there was one.
pub fn put_in_first_slot<D: Device>(
    registry: &mut Registry<D>,
    slots: &mut [Option<SessionSlot<D>>],
    alloc: Global,
    strings: StringSize,
    number: u64,
    port: u16,
) -> bool
    ensures answer { result ≡ not (all_slots_taken (seen_session_slots D.state slots.old)) }
    ensures slots { seen_session_slots D.state slots.new ≡ with_session_slot
        (seen_session_slots D.state slots.old) (new_session_slot strings number port) }
    ensures registry { table D.state registry.new ≡ table D.state registry.old }
{
    let Some(k) = free_place(slots) else {
        return false;
    };
    let slot = new_slot(alloc, strings, number, port);
    let vacant = swap_slot(slots, k, Some(slot));
    give_back_slot(registry, vacant);
    true
}

/// A session that was just opened.
fn new_slot<D: Device>(alloc: Global, strings: StringSize, number: u64, port: u16) -> SessionSlot<D>
    ensures { seen_session_slot D.state result ≡ new_session_slot strings number port }
{
    SessionSlot {
        number,
        input: Decoder::new(alloc),
        replies: Replies::new(alloc),
        session: Some(Session {
            port,
            strings,
            greeted: false,
            held: [None, None, None, None],
            awaited: None,
            transfer: DataPhase::Quiet,
        }),
    }
}

/// Feeds the session of that number.
pub fn feed_at<D: Device>(
    alloc: Global,
    registry: &mut Registry<D>,
    slots: &mut [Option<SessionSlot<D>>],
    users: &Users,
    challenger: &mut Challenger,
    number: u64,
    piece: &[u8],
) -> Fed
    ensures { FeedsAmong number
        (slots_state D.state users.now slots.old registry.old challenger.old) piece.now result
        (slots_state D.state users.now slots.new registry.new challenger.new) }
{
    let Some(k) = find(slots, number) else {
        return Fed::Over;
    };
    match feed_place(alloc, &mut slots[k], registry, users, challenger, piece) {
        Some(fed) => {
            settle(registry, slots, k);
            fed
        }
        None => Fed::Over,
    }
}
