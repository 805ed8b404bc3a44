//! What makes a daemon's listeners.

use crate::data_ports::PortRange;
use crate::local::LocalNet;
use saned_serve::Listeners;
use socket_calls::{SOCKET_TABLE, SystemSockets};
use std::io;

/// Listeners that were just made, and the port at which control connections come.
#[derive(Drop)]
pub struct BoundNet<N> {
    pub net: N,
    pub port: u16,
}

/// What makes a daemon's listeners.
pub trait Ports {
    ghost use Rattle.std.specs.Prelude.{◌≡◌, List, Option, None, IfOk};
    ghost use Rattle.recorded_net.specs.NetsBack.{BackNets, IsUnasked, with_back};
    ghost use Rattle.saned_cli.specs.PortsAsked.{PortAsked, asked_port, with_asked};
    ghost use Rattle.saned_cli.specs.Binding.{bind_answer};

    type Net: Listeners + Drop;

    /// Each port that was asked for, the newest first, where they are told.
    ghost asked: { Self → Option (List PortAsked) } = { λ _. None };

    /// What each set of listeners had told as it went back, the newest first, where that is told.
    ghost back: { Self → BackNets } = { λ _. None };

    /// Listens for control connections at that port, or where it is 0 at any that is free. Data ports are of those that are named.
    fn bind(&mut self, port: u16, data_ports: Option<PortRange>) -> io::Result<BoundNet<Self::Net>>
        /// Each port that is asked for is told, with the data ports that are named, and the port that is had or the kind of fault.
        /// Listeners that tell what they were asked were asked for nothing yet.
        ensures told { asked self.new
            ≡ with_asked (asked_port port data_ports (bind_answer result)) (asked self.old) }
        ensures kept { back self.new ≡ back self.old }
        ensures fresh { IfOk result (λ bound. IsUnasked (Self.Net.trace bound.net)) };

    /// Takes listeners back, and closes them.
    fn close(&mut self, net: Self::Net)
        /// What listeners had told is told as they go back.
        ensures kept { asked self.new ≡ asked self.old }
        ensures told { back self.new ≡ with_back (Self.Net.trace net) (back self.old) };
}

/// The system's own, on 127.0.0.1, which tell nothing.
#[derive(Drop)]
pub struct SystemPorts<'a> {
    pub rt: &'a HostRuntime,
}

impl Ports for SystemPorts<'_> {
    type Net = LocalNet<SystemSockets<HostRuntime>, HostRuntime>;

    fn bind(
        &mut self,
        port: u16,
        data_ports: Option<PortRange>,
    ) -> io::Result<BoundNet<Self::Net>> {
        let alloc = self.rt.alloc();
        let sockets = SystemSockets::new(*self.rt, alloc, SOCKET_TABLE);
        let net = LocalNet::bind(sockets, *self.rt, alloc, port)?.with_data_ports(data_ports);
        let port = net.port();
        Ok(BoundNet { net, port })
    }

    fn close(&mut self, net: Self::Net) {
        drop(net);
    }
}
