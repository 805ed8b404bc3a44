ghost use Rattle.std.specs.Prelude.{◌≡◌, None, IfSome};
ghost use Rattle.std.specs.declared.net.ipv4_addr.Ipv4Addr.{Ipv4Addr as Address};
ghost use Rattle.scanimage_cli.specs.Host.{IsAddressOf};

use crate::hosts::{HostPoint, Hosts};
use net_backend::{Dial, DialFault};
use std::net::{Ipv4Addr, SocketAddr, TcpStream};

/// The address of a host: an IPv4 address, or `localhost`, which is 127.0.0.1. No other name is known.
pub fn address_of(host: &[u8]) -> Option<Ipv4Addr>
    /// The address of a host is 127.0.0.1 for `localhost`, that of the text of an IPv4 address, and none of any other text.
    /// Carried by: `known`, `unknown` of `address_of`: `IsAddressOf`
    ensures known { IfSome result (IsAddressOf host.now) }
    ensures unknown { result ≡ None → (address : Address) → ¬ (IsAddressOf host.now address) }
{
    if host == b"localhost".as_slice() {
        return Some(Ipv4Addr::LOCALHOST);
    }
    Ipv4Addr::parse_ascii(host).ok()
}

/// The connections to a host, over TCP. Each waits for the host.
#[derive(Drop)]
pub struct HostDial<'a> {
    rt: &'a HostRuntime,
    address: Ipv4Addr,
    /// Whether a data connection is made as soon as its port is known.
    is_first: bool,
    /// One that was made so, with its port, and was not asked for yet.
    held: Option<(u16, TcpStream)>,
}

impl<'a> HostDial<'a> {
    ghost use Rattle.std.specs.Prelude.{◌≡◌, None, IfSome, true, false};
    ghost use Rattle.scanimage_cli.specs.Host.{held_for};

    /// Those to this machine, until another host is dialled.
    pub fn new(rt: &'a HostRuntime) -> HostDial<'a>
        ensures { result.held ≡ None }
    {
        HostDial {
            rt,
            address: Ipv4Addr::LOCALHOST,
            is_first: false,
            held: None,
        }
    }

    /// From here on connections go to that host. One that is held is closed.
    pub fn turn_to(&mut self, address: Ipv4Addr, is_first: bool)
        /// Connections are made to the host that was dialled last, in the way that was wanted of it; none is made at first, and
        /// before they are asked for only where that is wanted.
        /// Carried by: `turned` of `HostDial::turn_to`, `off` of the private `hold`
        ensures turned { self.new ≡ record self.old {
          address = address;
          is_first = is_first;
          held = None;
        } }
    {
        self.address = address;
        self.is_first = is_first;
        self.held = None;
    }

    fn connect(&self, port: u16) -> Result<TcpStream, DialFault> {
        let place = SocketAddr::from((self.address, port));
        TcpStream::connect(self.rt, place).map_err(|_| DialFault)
    }

    /// Makes the data connection at that port, where it is to be made first, and holds it. One that was held is closed.
    fn hold(&mut self, port: u16)
        ensures off { self.old.is_first ≡ false → self.new ≡ self.old }
        ensures kept { self.new ≡ record self.old { held = self.new.held } }
        ensures port { self.old.is_first ≡ true → IfSome self.new.held (λ held. held.0 ≡ port) }
    {
        if !self.is_first {
            return;
        }
        self.held = match self.connect(port) {
            Ok(conn) => Some((port, conn)),
            Err(_) => None,
        };
    }

    /// The connection to that port that is held, if one is; one to another port is closed.
    fn take_held(&mut self, port: u16) -> Option<TcpStream>
        ensures taken { result ≡ held_for port self.old.held }
        ensures left { self.new ≡ record self.old { held = None } }
    {
        let (at, conn) = self.held.take()?;
        if at == port { Some(conn) } else { None }
    }
}

impl Dial for HostDial<'_> {
    type Conn = TcpStream;

    fn prepare(&mut self, port: u16) {
        self.hold(port);
    }

    fn dial(&mut self, port: u16) -> Result<TcpStream, DialFault> {
        match self.take_held(port) {
            Some(conn) => Ok(conn),
            None => self.connect(port),
        }
    }
}

impl Hosts for HostDial<'_> {
    type Control = TcpStream;

    fn control(&mut self, at: HostPoint) -> Result<TcpStream, DialFault> {
        self.turn_to(at.address, at.is_first);
        self.connect(at.port)
    }
}
