ghost use Rattle.std.specs.Prelude.{◌≡◌, [], IfOk, OnErr, Some};
ghost use Rattle.std.specs.Io.KnownBytes.{prepend_known};
ghost use Rattle.std.specs.Result.{is_ok};
ghost use Rattle.net_jobs.specs.Links.{DialBrings, IsPrepared, with_port};
ghost use Rattle.scanimage_cli.specs.Host.{host_entry};

use crate::host_notes::{HostNote, HostNotes, PortNote};
use crate::hosts::{HostPoint, Hosts};
use net_backend::{Dial, DialFault};

/// Hosts, and the connections that were asked for since they were put here.
#[derive(Drop)]
pub struct RecordedHosts<H> {
    hosts: H,
    notes: HostNotes,
}

impl<H> RecordedHosts<H> {
    /// Hosts of which nothing is recorded yet.
    pub fn new(hosts: H) -> RecordedHosts<H>
        /// Of hosts, when their record begins, no connection is told.
        /// Carried by: `hosts`, `ports` of `RecordedHosts::new`
        ensures hosts { result.hosts ≡ hosts }
        ensures ports { result.notes.ports ≡ [] }
    {
        RecordedHosts {
            hosts,
            notes: HostNotes::none(),
        }
    }
}

impl<H: Dial> Dial for RecordedHosts<H> {
    type Conn = H::Conn;

    ghost ports = { λ r. Some r.notes.ports };

    ghost prepared = { λ r. H.prepared r.hosts };

    ghost coming = { λ r. H.coming r.hosts };

    fn prepare(&mut self, port: u16)
        /// What recorded hosts tell is the calls that were made on the hosts: each port that a data connection was asked for at, and
        /// each control connection, with whether it was made.
        /// Carried by: `inner` of `prepare`, `asked`, `inner` of `dial`, `called`, `inner` of `control` of `RecordedHosts`
        ensures told { IsPrepared port (H.prepared self.old.hosts) (H.prepared self.new.hosts) }
        ensures ports { Some self.new.notes.ports ≡ Some self.old.notes.ports }
        ensures coming { H.coming self.new.hosts ≡ H.coming self.old.hosts }
        ensures inner { H.ports self.new.hosts ≡ H.ports self.old.hosts }
    {
        self.hosts.prepare(port);
    }

    fn dial(&mut self, port: u16) -> Result<H::Conn, DialFault>
        ensures asked { Some self.new.notes.ports ≡ with_port port (Some self.old.notes.ports) }
        ensures brings { IfOk result (λ conn. DialBrings
            (H.coming self.old.hosts) (H.coming self.new.hosts) (H.Conn.remaining conn)) }
        ensures none { OnErr result (H.coming self.new.hosts ≡ H.coming self.old.hosts) }
        ensures kept { H.prepared self.new.hosts ≡ H.prepared self.old.hosts }
        ensures inner { H.ports self.new.hosts ≡ with_port port (H.ports self.old.hosts) }
    {
        self.notes.note_port(&PortNote { port });
        self.hosts.dial(port)
    }
}

impl<H: Hosts> Hosts for RecordedHosts<H> {
    type Control = H::Control;

    fn control(&mut self, at: HostPoint) -> Result<H::Control, DialFault>
        ensures called { Some self.new.notes.ports
            ≡ prepend_known (host_entry at (is_ok result)) (Some self.old.notes.ports) }
        ensures inner { H.ports self.new.hosts
            ≡ prepend_known (host_entry at (is_ok result)) (H.ports self.old.hosts) }
    {
        let control = self.hosts.control(at);
        self.notes.note_host(&HostNote {
            at,
            is_made: control.is_ok(),
        });
        control
    }
}
