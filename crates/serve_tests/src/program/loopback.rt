//! Sockets of the system: the clients connect and speak before the daemon takes its first turn.

use dispatch::Registry;
use md5_auth::Users;
use saned_cli::{Got, Listeners, LocalNet, SOCKET_TABLE, ServeEnd, Socket, SystemSockets, serve};
use saned_core::Daemon;
use std::alloc::Global;
use std::io::{self, Read, Write};
use std::net::{Ipv4Addr, Shutdown, SocketAddr, TcpStream};
use std::process::Abort;
use std::test::Fail;

/// INIT, GET_DEVICES and EXIT, and INIT's reply and a list of no devices.
const SAID: &[u8] = b"\0\0\0\0\x01\0\0\x03\0\0\0\x05user\0\0\0\0\x01\0\0\0\x0a";

const REPLIES: &[u8] = b"\0\0\0\0\x01\0\0\x03\0\0\0\0\0\0\0\x01\0\0\0\x01";

/// A daemon without devices.
fn daemon(rt: &impl Abort, alloc: Global) -> Daemon {
    let Ok(registry) = Registry::new(alloc, Vec::new(alloc)) else {
        panic!(rt; "no registry")
    };
    let users = Users::parse(alloc, b"").expect(rt, "users");
    Daemon::new(registry, users, [0; 32])
}

/// Listeners over the system's own sockets.
type SystemNet = LocalNet<SystemSockets<HostRuntime>, HostRuntime>;

/// Listeners at that port, where the system's table of sockets is that file.
fn bound(rt: HostRuntime, port: u16, table: &str) -> io::Result<SystemNet> {
    LocalNet::bind(
        SystemSockets::new(rt, rt.alloc(), table),
        rt,
        rt.alloc(),
        port,
    )
}

/// That port of this machine.
fn at(port: u16) -> SocketAddr {
    SocketAddr::from((Ipv4Addr::LOCALHOST, port))
}

/// A client, one who goes, and a stranger are three sessions; and where nobody comes the daemon is idle: its naps begin after 64
/// turns. Its port is no other's.
#[test]
fn clients_on_loopback(rt: HostRuntime) -> Result<(), Fail> {
    let alloc = rt.alloc();
    let mut net = bound(rt, 0, SOCKET_TABLE)?;
    let port = net.port();
    assert!(rt; bound(rt, port, SOCKET_TABLE).is_err());
    let mut first = TcpStream::connect(&rt, at(port))?;
    first.write_all(SAID)?;
    drop(TcpStream::connect(&rt, at(port))?);
    let mut stranger = TcpStream::connect(&rt, at(port))?;
    stranger.write_all(b"GET / HTTP/1.0\r\n\r\n")?;
    let mut daemon = daemon(&rt, alloc);
    let end = serve(alloc, &mut daemon, &mut net, 3, 1000);
    assert!(rt; end == ServeEnd::Sessions);
    let mut replies = Vec::new(alloc);
    first.read_to_end(&mut replies)?;
    assert!(rt; replies.as_slice() == REPLIES);
    assert!(rt; serve(alloc, &mut daemon, &mut net, 0, 100) == ServeEnd::Idle);
    drop(daemon);
    Ok(())
}

/// The frame's connection at that port takes a byte, which is all that this client reads.
fn expect_byte(
    rt: &impl Abort,
    alloc: Global,
    net: &mut SystemNet,
    port: u16,
    client: &mut TcpStream,
) -> Result<(), Fail> {
    let Some(mut conn) = net.accept_data(port) else {
        panic!(rt; "no connection")
    };
    assert!(rt; conn.write(b"x") == Got::Moved(1));
    net.close(conn);
    let mut bytes = Vec::new(alloc);
    client.read_to_end(&mut bytes)?;
    assert!(rt; bytes.as_slice() == b"x".as_slice());
    Ok(())
}

/// One is left behind before a frame begins; then one came early and stands, and a stranger's ended behind it.
#[test]
fn connections_that_have_ended(rt: HostRuntime) -> Result<(), Fail> {
    let mut net = bound(rt, 0, SOCKET_TABLE)?;
    let port = net.open_data().expect(&rt, "a data port");
    drop(TcpStream::connect(&rt, at(port))?);
    net.forget_ended(port);
    assert!(rt; net.accept_data(port).is_none());
    let mut early = TcpStream::connect(&rt, at(port))?;
    net.forget_ended(port);
    drop(TcpStream::connect(&rt, at(port))?);
    expect_byte(&rt, rt.alloc(), &mut net, port, &mut early)
}

/// A client never speaks on a data connection, so that who does is none.
#[test]
fn connections_that_speak(rt: HostRuntime) -> Result<(), Fail> {
    let mut net = bound(rt, 0, SOCKET_TABLE)?;
    let port = net.open_data().expect(&rt, "a data port");
    let mut client = TcpStream::connect(&rt, at(port))?;
    let mut stranger = TcpStream::connect(&rt, at(port))?;
    stranger.write_all(b"x")?;
    net.forget_ended(port);
    expect_byte(&rt, rt.alloc(), &mut net, port, &mut client)
}

/// An older connection has no byte.
#[test]
fn newest_connection(rt: HostRuntime) -> Result<(), Fail> {
    let mut net = bound(rt, 0, SOCKET_TABLE)?;
    let port = net.open_data().expect(&rt, "a data port");
    let mut older = TcpStream::connect(&rt, at(port))?;
    let mut newer = TcpStream::connect(&rt, at(port))?;
    expect_byte(&rt, rt.alloc(), &mut net, port, &mut newer)?;
    let mut bytes = Vec::new(rt.alloc());
    older.read_to_end(&mut bytes)?;
    assert!(rt; bytes.is_empty());
    Ok(())
}

/// SANE's own clients end their side of a data connection as soon as it is made.
#[test]
fn client_that_only_reads(rt: HostRuntime) -> Result<(), Fail> {
    let mut net = bound(rt, 0, SOCKET_TABLE)?;
    let port = net.open_data().expect(&rt, "a data port");
    let mut client = TcpStream::connect(&rt, at(port))?;
    client.shutdown(Shutdown::Write)?;
    expect_byte(&rt, rt.alloc(), &mut net, port, &mut client)
}

/// The client of a session's data port, behind its control connection, takes a byte.
fn expect_client(rt: HostRuntime, net: &mut SystemNet, end: &impl Abort) -> Result<(), Fail> {
    let _control = TcpStream::connect(&rt, at(net.port()))?;
    let Some(control) = net.accept() else {
        panic!(end; "no control connection")
    };
    let port = net.open_data().expect(end, "a data port");
    net.close(control);
    let mut client = TcpStream::connect(&rt, at(port))?;
    expect_byte(end, rt.alloc(), net, port, &mut client)
}

/// The one who asks for a frame is who reads this test's own connections, by the system's own table; and where there is no table
/// whoever comes is taken.
#[test]
fn client_of_the_same_user(rt: HostRuntime) -> Result<(), Fail> {
    let mut net = bound(rt, 0, SOCKET_TABLE)?;
    expect_client(rt, &mut net, &rt)?;
    let mut blind = bound(rt, 0, "/no/such/table")?;
    expect_client(rt, &mut blind, &rt)
}
