ghost use Rattle.std.specs.Prelude.{◌≡◌, [], ◌∷◌, IfOk, Some};
ghost use Rattle.recorded_net.specs.ListenerCalls.{trace_of_calls};
ghost use Rattle.recorded_net.specs.NetsBack.{IsUnasked, back_nets, with_back};
ghost use Rattle.saned_cli.specs.PortsAsked.{asked_port, with_asked};
ghost use Rattle.saned_cli.specs.Binding.{bind_answer};

use crate::bind_notes::{BindNote, BindNotes};
use crate::data_ports::PortRange;
use crate::ports::{BoundNet, Ports};
use recorded_net::{NetsBack, RecordedNet};
use std::io::{self, ErrorKind};

/// What makes listeners, the ports that were asked for since it was put here, and the calls of the listeners that went back.
#[derive(Drop)]
pub struct RecordedPorts<P> {
    ports: P,
    notes: BindNotes,
    pub back: NetsBack,
}

impl<P> RecordedPorts<P> {
    /// Ports of which nothing is recorded yet.
    pub fn new(ports: P) -> RecordedPorts<P>
        /// Of ports, when their record begins, none is told, and no listeners went back.
        /// Carried by: `ports`, `asked`, `back` of `RecordedPorts::new`
        ensures ports { result.ports ≡ ports }
        ensures asked { result.notes.asked ≡ [] }
        ensures back { result.back.nets ≡ [] }
    {
        RecordedPorts {
            ports,
            notes: BindNotes::none(),
            back: NetsBack::none(),
        }
    }
}

/// The port that is had, or the kind of fault.
fn answer_of<N>(bound: &io::Result<BoundNet<N>>) -> Result<u16, ErrorKind>
    ensures { result ≡ bind_answer bound.now }
{
    match bound {
        Ok(bound) => Ok(bound.port),
        Err(e) => Err(e.kind()),
    }
}

impl<P: Ports> Ports for RecordedPorts<P> {
    type Net = RecordedNet<P::Net>;

    ghost asked = { λ r. Some r.notes.asked };

    ghost back = { λ r. back_nets r.back.nets };

    fn bind(
        &mut self,
        port: u16,
        data_ports: Option<PortRange>,
    ) -> io::Result<BoundNet<RecordedNet<P::Net>>>
        /// What recorded ports tell is the calls that were made on the ports: each port that was asked for, with its data ports and
        /// what came of it. The listeners are recorded from then on.
        /// Carried by: `told`, `inner`, `fresh` of `bind` of `RecordedPorts`
        ensures told { Some self.new.notes.asked
            ≡ with_asked (asked_port port data_ports (bind_answer result))
            (Some self.old.notes.asked) }
        ensures kept { back_nets self.new.back.nets ≡ back_nets self.old.back.nets }
        ensures fresh { IfOk result (λ bound. bound.net.asked.calls ≡ []) }
        ensures inner { P.asked self.new.ports
            ≡ with_asked (asked_port port data_ports (bind_answer result))
            (P.asked self.old.ports) }
    {
        let bound = self.ports.bind(port, data_ports);
        self.notes.note(&BindNote {
            port,
            data_ports,
            answer: answer_of(&bound),
        });
        match bound {
            Ok(BoundNet { net, port }) => Ok(BoundNet {
                net: RecordedNet::new(net),
                port,
            }),
            Err(fault) => Err(fault),
        }
    }

    fn close(&mut self, net: RecordedNet<P::Net>)
        /// Recorded ports tell all calls of the listeners that go back, which the ports take back.
        /// Carried by: `told`, `inner` of `close` of `RecordedPorts`
        ensures kept { Some self.new.notes.asked ≡ Some self.old.notes.asked }
        ensures told { back_nets self.new.back.nets
            ≡ with_back (trace_of_calls net.asked.calls) (back_nets self.old.back.nets) }
        ensures inner { P.back self.new.ports
            ≡ with_back (P.Net.trace net.net) (P.back self.old.ports) }
    {
        let net = net.go_back(&mut self.back);
        self.ports.close(net);
    }
}
