//! Another page for a device that is leased.

ghost use Rattle.std.specs.Prelude.{◌≡◌, ◌<◌, true, IfErr, IfSome, IfNone, length, option_map, position};
ghost use Rattle.std.specs.List.{list_any};
ghost use Rattle.page_picture.specs.Source.{SourceState};
ghost use Rattle.dispatch.specs.Table.{seen_lease, without_return};
ghost use Rattle.saned_requests.specs.Holding.{seen_held};
ghost use Rattle.saned_core.specs.DaemonStates.{seen_session_slot, seen_session_slots};
ghost use Rattle.saned_core.specs.Loading.{first_answer_of, on_first, held_load, held_with, holds, is_lease_named, lease_load, lease_with, slot_load_answer, slot_with_page};
ghost use Rattle.saned_core.specs.Inside.{IsFirstOf, IsNoneOf};

use crate::session_slot::SessionSlot;
use device_api::Device;
use dispatch::Lease;
use page_picture::PageSource;
use page_sources::Source;
use sane_fixed::Status;

/// Whether a word stands for the device of that name.
fn is_lease_named<D: Device>(lease: &Option<Lease<D>>, name: &[u8]) -> bool
    ensures { result ≡ is_lease_named name.now (option_map (seen_lease D.state) lease.now) }
{
    match lease {
        Some(lease) => lease.device.info().name.as_bytes() == name,
        None => false,
    }
}

fn place_of_word<D: Device>(held: &[Option<Lease<D>>], name: &[u8]) -> Option<usize>
    ensures { result ≡ position (λ lease.
        is_lease_named name.now (option_map (seen_lease D.state) lease)) held.now }
{
    held.iter().position(
        |lease: &Option<Lease<D>>| -> bool
            ensures { result
                ≡ is_lease_named name.entry.now (option_map (seen_lease D.state) lease.now) }
        { is_lease_named(lease, name) },
    )
}

/// The first word that stands for the device of that name.
fn word_of<D: Device>(held: &[Option<Lease<D>>], name: &[u8]) -> Option<usize>
    ensures found { IfSome result (IsFirstOf (λ lease.
        is_lease_named name.now (option_map (seen_lease D.state) lease)) held.now) }
    ensures none { IfNone result (IsNoneOf (λ lease.
        is_lease_named name.now (option_map (seen_lease D.state) lease)) held.now) }
{
    let place = place_of_word(held, name);
    match place {
        Some(k) => Some(k),
        None => None,
    }
}

/// Whether some word stands for the device of that name.
fn is_held<D: Device>(held: &[Option<Lease<D>>], name: &[u8]) -> bool
    ensures { result ≡ list_any (is_lease_named name.now) (seen_held D.state held.now) }
{
    match word_of(held, name) {
        Some(_) => true,
        None => false,
    }
}

/// Whether a session holds the device of that name.
fn holds<D: Device>(slot: &Option<SessionSlot<D>>, name: &[u8]) -> bool
    ensures { result ≡ holds name.now (option_map (seen_session_slot D.state) slot.now) }
{
    if let Some(slot) = slot {
        if let Some(session) = &slot.session {
            return is_held(&session.held, name);
        }
    }
    false
}

fn place_of_slot<D: Device>(slots: &[Option<SessionSlot<D>>], name: &[u8]) -> Option<usize>
    ensures { result ≡ position (λ slot.
        holds name.now (option_map (seen_session_slot D.state) slot)) slots.now }
{
    slots.iter().position(
        |slot: &Option<SessionSlot<D>>| -> bool
            ensures { result
                ≡ holds name.entry.now (option_map (seen_session_slot D.state) slot.now) }
        { holds(slot, name) },
    )
}

/// The first session that holds the device of that name.
pub fn holder<D: Device>(slots: &[Option<SessionSlot<D>>], name: &[u8]) -> Option<usize>
    ensures found { IfSome result (IsFirstOf (λ slot.
        holds name.now (option_map (seen_session_slot D.state) slot)) slots.now) }
    ensures none { IfNone result (IsNoneOf (λ slot.
        holds name.now (option_map (seen_session_slot D.state) slot)) slots.now) }
{
    let place = place_of_slot(slots, name);
    match place {
        Some(k) => Some(k),
        None => None,
    }
}

fn load_lease<D: Device>(lease: &mut Option<Lease<D>>, page: Source) -> Result<(), (Status, Source)>
    ensures answer { without_return result
        ≡ lease_load (option_map (seen_lease D.state) lease.old) }
    ensures after { option_map (seen_lease D.state) lease.new ≡ lease_with
        (⟦<Source as PageSource>⟧.source page) (option_map (seen_lease D.state) lease.old) }
    ensures given_back { IfErr result (λ e. e.1 ≡ page) }
{
    match lease {
        Some(lease) => match lease.device.load(page) {
            Ok(()) => Ok(()),
            Err(page) => Err((Status::DeviceBusy, page)),
        },
        None => Err((Status::Inval, page)),
    }
}

fn load_held<D: Device>(
    held: &mut [Option<Lease<D>>],
    name: &[u8],
    page: Source,
) -> Result<(), (Status, Source)>
    ensures answer { without_return result ≡ held_load name.now (seen_held D.state held.old) }
    ensures after { seen_held D.state held.new
        ≡ held_with name.now (⟦<Source as PageSource>⟧.source page) (seen_held D.state held.old) }
    ensures given_back { IfErr result (λ e. e.1 ≡ page) }
{
    match word_of(held, name) {
        Some(k) => load_lease(&mut held[k], page),
        None => Err((Status::Inval, page)),
    }
}

/// Another page for the device of that name, which a session holds.
pub fn load_into_slot<D: Device>(
    slot: &mut Option<SessionSlot<D>>,
    name: &[u8],
    page: Source,
) -> Result<(), (Status, Source)>
    ensures answer { without_return result
        ≡ slot_load_answer name.now (option_map (seen_session_slot D.state) slot.old) }
    ensures after { option_map (seen_session_slot D.state) slot.new ≡ slot_with_page name.now
        (⟦<Source as PageSource>⟧.source page) (option_map (seen_session_slot D.state) slot.old) }
    ensures given_back { IfErr result (λ e. e.1 ≡ page) }
{
    if let Some(slot) = slot {
        if let Some(session) = &mut slot.session {
            return load_held(&mut session.held, name, page);
        }
    }
    Err((Status::Inval, page))
}

/// The same, for the session at place `k`, the first that holds the device.
pub fn load_at<D: Device>(
    slots: &mut [Option<SessionSlot<D>>],
    k: usize,
    name: &[u8],
    page: Source,
) -> Result<(), (Status, Source)>
    requires { IsFirstOf (λ slot.
        holds name.now (option_map (seen_session_slot D.state) slot)) slots.old k }
    ensures answer { (other : _) → without_return result ≡ first_answer_of (holds name.now)
        (slot_load_answer name.now) (seen_session_slots D.state slots.old) other }
    ensures after { seen_session_slots D.state slots.new
        ≡ on_first (holds name.now) (slot_with_page name.now (⟦<Source as PageSource>⟧.source page))
        (seen_session_slots D.state slots.old) }
    ensures held { list_any (holds name.now) (seen_session_slots D.state slots.old) ≡ true }
    ensures given_back { IfErr result (λ e. e.1 ≡ page) }
{
    load_into_slot(&mut slots[k], name, page)
}
