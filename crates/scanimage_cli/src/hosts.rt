use net_backend::{Dial, DialFault};
use std::io::{Read, Write};
use std::net::Ipv4Addr;

/// Where a control connection is made to, and whether data connections to that host are made as soon as their port is known,
/// as SANE's own daemon wants it.
#[derive(Clone, Copy, Drop)]
pub struct HostPoint {
    pub address: Ipv4Addr,
    pub port: u16,
    pub is_first: bool,
}

/// The hosts that the program can dial. Its data connections go to the host that it dialled last.
pub trait Hosts: Dial {
    ghost use Rattle.std.specs.Prelude.{◌≡◌};
    ghost use Rattle.std.specs.Io.KnownBytes.{prepend_known};
    ghost use Rattle.std.specs.Result.{is_ok};
    ghost use Rattle.scanimage_cli.specs.Host.{host_entry};

    type Control: Read + Write + Drop;

    /// The control connection to that port of the host of that address, which waits for the host.
    fn control(&mut self, at: HostPoint) -> Result<Self::Control, DialFault>
        /// Which address and port a control connection is asked for at is told, with its way of data connections, and whether it
        /// was made.
        ensures { Self.ports self.new
            ≡ prepend_known (host_entry at (is_ok result)) (Self.ports self.old) };
}
