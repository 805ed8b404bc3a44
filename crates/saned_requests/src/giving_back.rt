//! Leases that go back to the table.

ghost use Rattle.std.specs.Prelude.{◌≡◌, option_map};
ghost use Rattle.dispatch.specs.Table.{table, seen_lease};
ghost use Rattle.saned_requests.specs.Holding.{with_lease_back, given_back, seen_held};

use crate::session::Session;
use device_api::Device;
use dispatch::{Lease, Registry, RetiredTable};

/// Gives back what a device word stands for, if it stands for anything.
pub fn give_back<D: Device>(registry: &mut Registry<D>, word: Option<Lease<D>>)
    ensures { table D.state registry.new
        ≡ with_lease_back (table D.state registry.old) (option_map (seen_lease D.state) word) }
{
    match word {
        None => {}
        Some(lease) => registry.give_back(lease),
    }
}

/// Gives back all that a session holds.
fn give_back_all<D: Device>(registry: &mut Registry<D>, held: [Option<Lease<D>>; 4])
    ensures { table D.state registry.new
        ≡ given_back (table D.state registry.old) (seen_held D.state held) }
{
    let [a, b, c, d] = held;
    give_back(registry, a);
    give_back(registry, b);
    give_back(registry, c);
    give_back(registry, d);
}

/// Ends a session: all its leases go back.
pub fn let_go<D: Device>(registry: &mut Registry<D>, session: Session<D>)
    ensures { table D.state registry.new
        ≡ given_back (table D.state registry.old) (seen_held D.state session.held) }
{
    let Session {
        port: _,
        strings: _,
        greeted: _,
        held,
        awaited: _awaited,
        transfer: _,
    } = session;
    give_back_all(registry, held);
}

/// Drops what a device word stands for together with the table.
fn drop_word<D: Drop>(retired: &RetiredTable, word: Option<Lease<D>>) {
    match word {
        None => {}
        Some(lease) => retired.drop_lease(lease),
    }
}

/// Drops all that a session holds together with the table.
fn drop_all<D: Drop>(retired: &RetiredTable, held: [Option<Lease<D>>; 4]) {
    let [a, b, c, d] = held;
    drop_word(retired, a);
    drop_word(retired, b);
    drop_word(retired, c);
    drop_word(retired, d);
}

/// Drops what a session of a daemon that is dropped holds, together with the table.
pub fn drop_session<D: Drop>(retired: &RetiredTable, session: Session<D>) {
    let Session {
        port: _,
        strings: _,
        greeted: _,
        held,
        awaited: _awaited,
        transfer: _,
    } = session;
    drop_all(retired, held);
}
