use sane_fixed::ByteOrder;
use saned_cli::{DaemonOptions, DaemonOptionsFault, PortRange, read_options};
use saned_requests::StringSize;
use std::alloc::Global;
use std::process::Abort;
use std::test::Fail;

/// What the words behind the program's name give, which are split at spaces.
fn options(
    rt: &impl Abort,
    alloc: Global,
    line: &str,
) -> Result<DaemonOptions, DaemonOptionsFault> {
    let mut words = Vec::new(alloc);
    for word in line.split(' ') {
        let word = String::from_str(alloc, word).expect(rt, "memory");
        words.push(word).expect(rt, "memory");
    }
    read_options(alloc, words.as_slice())
}

#[test]
fn defaults(rt: HostRuntime) -> Result<(), Fail> {
    let found = options(&rt, rt.alloc(), "saned --config -")?;
    assert!(rt; found.config.as_str() == "-" && found.port == 6566);
    assert!(rt; found.users.is_none() && found.seed.is_none() && found.data_ports.is_none());
    assert!(rt; found.byte_order == ByteOrder::Little && found.strings == StringSize::OfText);
    assert!(rt; found.sessions == 0 && found.idle_turns == 10_000_000);
    Ok(())
}

const ALL: &str =
    "saned --idle-turns 1 --pad-strings --sessions=1000000000 --byte-order big --port 65535 --seed x --users u --config c --data-ports 1-65535";

#[test]
fn all_options(rt: HostRuntime) -> Result<(), Fail> {
    let found = options(&rt, rt.alloc(), ALL)?;
    let (Some(users), Some(seed)) = (&found.users, &found.seed) else {
        panic!(rt; "no users, or no seed")
    };
    assert!(rt; users.as_str() == "u" && seed.as_str() == "x" && found.config.as_str() == "c");
    assert!(rt; found.port == 65_535 && found.byte_order == ByteOrder::Big);
    assert!(rt; found.sessions == 1_000_000_000 && found.idle_turns == 1);
    let ports = PortRange {
        first: 1,
        last: 65_535,
    };
    assert!(rt; found.strings == StringSize::OfOption && found.data_ports == Some(ports));
    Ok(())
}
