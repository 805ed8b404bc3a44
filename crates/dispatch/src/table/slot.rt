ghost use Rattle.std.specs.Prelude.{◌≡◌, OnSome, IfNone, position, length, ◌<◌};
ghost use Rattle.dispatch.specs.Table.{device_in, held_at, with_slot, is_named, is_out, awaits, find_name};

use crate::table::place::{Place, Slot};
use std::mem;

/// Takes the device out, if it is in.
pub fn take_out<D: Drop>(slot: &mut Slot<D>) -> Option<D>
    ensures device { result ≡ device_in slot.old }
    ensures out { OnSome result (slot.new ≡ Slot.Out) }
    ensures same { IfNone result (slot.new ≡ slot.old) }
{
    match mem::replace(slot, Slot::Out) {
        Slot::In(device) => Some(device),
        other => {
            *slot = other;
            None
        }
    }
}

/// Whether the place is listed under the name.
pub fn is_named<D>(place: &Place<D>, name: &[u8]) -> bool
    ensures { result ≡ is_named name.now place.now }
{
    match &place.slot {
        Slot::Gone => false,
        _ => place.info.name.as_bytes() == name,
    }
}

/// The place that is listed under the name.
pub fn find_name<D>(places: &[Place<D>], name: &[u8]) -> Option<usize>
    ensures { result ≡ find_name name.now places.now }
{
    places.iter().position(|place| is_named(place, name))
}

/// Whether nothing stands in the slot while its device is leased.
fn is_out<D>(slot: &Slot<D>) -> bool
    ensures { result ≡ is_out slot.now }
{
    match slot {
        Slot::Out => true,
        _ => false,
    }
}

/// Whether the device of a place is out, and has that name.
#[tactic(auto, unfolding(crate::specs::Table::awaits))]
pub fn awaits<D>(places: &[Place<D>], k: usize, name: &[u8]) -> bool
    ensures { result ≡ awaits name.now k places.now }
{
    match places.get(k) {
        Some(place) => is_out(&place.slot) && place.info.name.as_bytes() == name,
        None => false,
    }
}

/// Takes the device out of a place, if it is in.
pub fn take_from<D: Drop>(places: &mut Vec<Place<D>>, k: usize) -> Option<D>
    requires { k < length places.old.items }
    ensures device { result ≡ held_at places.old.items k }
    ensures out { OnSome result (places.new.items ≡ with_slot places.old.items k Slot.Out) }
    ensures same { IfNone result (places.new.items ≡ places.old.items) }
    ensures count { length places.new.items ≡ length places.old.items }
{
    take_out(&mut places[k].slot)
}

/// Puts something into a place.
pub fn put_into<D: Drop>(places: &mut Vec<Place<D>>, k: usize, slot: Slot<D>)
    requires { k < length places.old.items }
    ensures items { places.new.items ≡ with_slot places.old.items k slot }
    ensures count { length places.new.items ≡ length places.old.items }
{
    places[k].slot = slot;
}
