//! The system's table of sockets, as it is written, and who owns one; and ports that are named.

use saned_cli::{
    Listeners, LocalNet, PortRange, SOCKET_TABLE, SystemSockets, is_among, owner_of, sockets_of,
};
use std::net::{Ipv4Addr, SocketAddr, SocketAddrV4, TcpListener};
use std::test::Fail;

/// Lines as Linux writes them, of a socket that waits for connections, of both ends of one, of one whose process has ended, of one
/// that was shut, and of one that is connected to another port.
const TABLE: &str = concat!(
    "  sl  local_address rem_address   st tx_queue rx_queue tr tm->when retrnsmt   uid  timeout inode                                                     \n",
    "   0: 0100007F:19A6 00000000:0000 0A 00000000:00000000 00:00000000 00000000     0        0 21433 1 0000000031415926 100 0 0 10 0                     \n",
    "   1: 0100007F:19A6 0100007F:D431 01 00000000:00000000 00:00000000 00000000     0        0 21440 1 0000000031415926 20 4 30 10 -1                    \n",
    "   2: 0100007F:D431 0100007F:19A6 01 00000000:00000000 00:00000000 00000000  1000        0 21439 1 0000000031415926 20 4 24 10 -1                    \n",
    "   3: 0100007F:D432 0100007F:19A6 05 00000000:00000000 02:00000AF3 00000000     0        0 0 2 0000000031415926 20 4 24 10 -1                         \n",
    "   4: 0100007F:D433 0100007F:19A6 05 00000000:00000000 00:00000000 00000000  1001        0 21500 1 0000000031415926 20 4 24 10 -1                    \n",
    "   5: 0200007F:D434 0100007F:19A6 01 00000000:00000000 00:00000000 00000000     0        0 21501 1 0000000031415926 20 4 24 10 -1                    \n",
    "   6: 0100007F:D435 0100007F:2710 01 00000000:00000000 00:00000000 00000000  1000        0 21502 1 0000000031415926 20 4 24 10 -1                    \n",
);

fn end(last: u8, port: u16) -> SocketAddrV4 {
    SocketAddrV4::new(Ipv4Addr::new(127, 0, 0, last), port)
}

/// The last number of an address, a port there, and the user who owns that end of a connection to ours.
const OWNERS: &[(u8, u16, Option<u32>)] = &[
    (1, 0xD431, Some(1000)),
    // Its process has ended.
    (1, 0xD432, None),
    // It was shut, as SANE's own clients do.
    (1, 0xD433, Some(1001)),
    // That port is at another address.
    (1, 0xD434, None),
    (2, 0xD434, Some(0)),
    // That end is connected to another port.
    (1, 0xD435, None),
    // The end of the daemon itself.
    (1, 0x19A6, None),
];

#[test]
fn owners_by_a_table(rt: HostRuntime) -> Result<(), Fail> {
    let (table, ours) = (TABLE.as_bytes(), end(1, 6566));
    for (last, port, owner) in OWNERS {
        let peer = end(*last, *port);
        assert!(rt; owner_of(table, peer, ours) == *owner);
        for user in [0, 1000, 1001] {
            let sockets = sockets_of(rt.alloc(), table, ours, user)?;
            assert!(rt; is_among(sockets.as_slice(), peer) == (*owner == Some(user)));
        }
    }
    Ok(())
}

/// Data ports are the free ones of those that are named, the least first; where none is free there is none.
#[test]
fn ports_that_are_named(rt: HostRuntime) -> Result<(), Fail> {
    let taken = TcpListener::bind(&rt, SocketAddr::from((Ipv4Addr::LOCALHOST, 0)))?;
    let first = taken.local_addr()?.port();
    if first > 65_533 {
        return Ok(());
    }
    let ports = PortRange {
        first,
        last: first + 2,
    };
    let sockets = SystemSockets::new(rt, rt.alloc(), SOCKET_TABLE);
    let mut net = LocalNet::bind(sockets, rt, rt.alloc(), 0)?.with_data_ports(Some(ports));
    let Some(one) = net.open_data() else {
        return Ok(());
    };
    assert!(rt; first < one && one <= ports.last);
    if let Some(other) = net.open_data() {
        assert!(rt; one < other && other <= ports.last);
    }
    assert!(rt; net.open_data().is_none());
    net.close_data(one);
    assert!(rt; net.open_data() == Some(one));
    Ok(())
}
