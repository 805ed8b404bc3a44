//! Connections to a host that are made before they are asked for, over loopback.

use net_backend::Dial;
use scanimage_cli::{HostDial, address_of};
use std::alloc::Global;
use std::io::{Read, Write};
use std::net::{Ipv4Addr, SocketAddr, TcpListener, TcpStream};
use std::process::Abort;
use std::test::Fail;

/// Who listens on this machine, without waiting, and at which port.
fn listener(rt: &HostRuntime) -> Result<(TcpListener, u16), Fail> {
    let listener = TcpListener::bind(rt, SocketAddr::from((Ipv4Addr::LOCALHOST, 0)))?;
    listener.set_nonblocking(true)?;
    let port = listener.local_addr()?.port();
    Ok((listener, port))
}

/// Those to this machine.
fn dial<'a>(end: &impl Abort, rt: &'a HostRuntime, is_first: bool) -> HostDial<'a> {
    let address = address_of(b"127.0.0.1").expect(end, "an address");
    let mut dial = HostDial::new(rt);
    dial.turn_to(address, is_first);
    dial
}

/// Says that byte on the connection that came, and ends it.
fn say(listener: &TcpListener, byte: &[u8]) -> Result<(), Fail> {
    let (mut peer, _) = listener.accept()?;
    peer.write_all(byte)?;
    Ok(())
}

/// All that comes on a connection.
fn heard(alloc: Global, conn: &mut TcpStream) -> Result<Vec<u8>, Fail> {
    let mut bytes = Vec::new(alloc);
    conn.read_to_end(&mut bytes)?;
    Ok(bytes)
}

/// The connection is there as soon as its port is told, and is the one that is handed over; behind it another is made.
#[test]
fn handed_over(rt: HostRuntime) -> Result<(), Fail> {
    let (listener, port) = listener(&rt)?;
    let mut dial = dial(&rt, &rt, true);
    dial.prepare(port);
    say(&listener, b"1")?;
    let mut conn = dial.dial(port).expect(&rt, "the connection");
    assert!(&rt; listener.accept().is_err());
    assert!(&rt; heard(rt.alloc(), &mut conn)?.as_slice() == b"1".as_slice());
    let mut next = dial.dial(port).expect(&rt, "another");
    say(&listener, b"2")?;
    assert!(&rt; heard(rt.alloc(), &mut next)?.as_slice() == b"2".as_slice());
    drop(dial);
    Ok(())
}

/// Where another port is asked for, the connection that is held is closed, and one to that port is made.
#[test]
fn another_port(rt: HostRuntime) -> Result<(), Fail> {
    let (told, at) = listener(&rt)?;
    let (wanted, port) = listener(&rt)?;
    let mut dial = dial(&rt, &rt, true);
    dial.prepare(at);
    let (mut peer, _) = told.accept()?;
    let mut conn = dial.dial(port).expect(&rt, "a connection");
    say(&wanted, b"2")?;
    assert!(&rt; heard(rt.alloc(), &mut conn)?.as_slice() == b"2".as_slice());
    assert!(&rt; heard(rt.alloc(), &mut peer)?.is_empty());
    drop(dial);
    Ok(())
}

/// Where nobody listens none is held, and one that is made and never asked for is closed with what makes them.
#[test]
fn never_asked_for(rt: HostRuntime) -> Result<(), Fail> {
    let (listener, port) = listener(&rt)?;
    let mut dial = dial(&rt, &rt, true);
    dial.prepare(port);
    let (mut peer, _) = listener.accept()?;
    drop(dial);
    assert!(&rt; heard(rt.alloc(), &mut peer)?.is_empty());
    drop(listener);
    let mut late = self::dial(&rt, &rt, true);
    late.prepare(port);
    assert!(&rt; late.dial(port).is_err());
    drop(late);
    Ok(())
}

/// Where they are not to be made first, none is made before it is asked for.
#[test]
fn not_made_first(rt: HostRuntime) -> Result<(), Fail> {
    let (listener, port) = listener(&rt)?;
    let mut dial = dial(&rt, &rt, false);
    dial.prepare(port);
    assert!(&rt; listener.accept().is_err());
    let mut conn = dial.dial(port).expect(&rt, "a connection");
    say(&listener, b"1")?;
    assert!(&rt; heard(rt.alloc(), &mut conn)?.as_slice() == b"1".as_slice());
    drop(dial);
    Ok(())
}
