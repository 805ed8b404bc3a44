//! Leases that go back to the table.

ghost use Rattle.std.specs.Prelude.{◌≡◌, option_map};
ghost use Rattle.dispatch.specs.Table.{table};
ghost use Rattle.saned_core.specs.DaemonStates.{seen_session_slot, session_in, session_let_go};

use crate::session_slot::SessionSlot;
use device_api::Device;
use dispatch::{Registry, RetiredTable};
use saned_requests::{drop_session, let_go};

/// Ends the session of a slot, if it goes on.
pub fn give_back_slot<D: Device>(registry: &mut Registry<D>, slot: Option<SessionSlot<D>>)
    ensures { table D.state registry.new ≡ session_let_go (table D.state registry.old)
        (session_in (option_map (seen_session_slot D.state) slot)) }
{
    match slot {
        None => {}
        Some(slot) => {
            let SessionSlot {
                number: _,
                input: _input,
                replies: _replies,
                session,
            } = slot;
            match session {
                None => {}
                Some(session) => let_go(registry, session),
            }
        }
    }
}

/// Drops what a slot holds together with the table.
fn drop_slot<D: Drop>(retired: &RetiredTable, slot: Option<SessionSlot<D>>) {
    match slot {
        None => {}
        Some(slot) => {
            let SessionSlot {
                number: _,
                input: _input,
                replies: _replies,
                session,
            } = slot;
            match session {
                None => {}
                Some(session) => drop_session(retired, session),
            }
        }
    }
}

/// Drops what all slots hold together with the table, for a daemon that is dropped.
pub fn drop_slots<D: Drop>(retired: &RetiredTable, slots: [Option<SessionSlot<D>>; 8]) {
    let [a, b, c, d, e, f, g, h] = slots;
    drop_slot(retired, a);
    drop_slot(retired, b);
    drop_slot(retired, c);
    drop_slot(retired, d);
    drop_slot(retired, e);
    drop_slot(retired, f);
    drop_slot(retired, g);
    drop_slot(retired, h);
}
