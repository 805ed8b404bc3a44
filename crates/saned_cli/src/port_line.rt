ghost use Rattle.std.specs.Prelude.{◌≡◌, false};
ghost use Rattle.saned_cli.specs.Binding.{TellsLine, port_line};

use crate::ending_lines::write_line;
use byte_output::OutputTally;
use itoa::Buffer;
use std::io::Write;

/// An output of the daemon, and what became of the calls on it.
#[derive(Drop)]
pub struct DaemonOutput<W> {
    pub to: W,
    pub tally: OutputTally,
}

impl<W> DaemonOutput<W> {
    /// An output that was not written to yet.
    pub fn new(to: W) -> DaemonOutput<W>
        /// Of an output, when its calls begin to be noted, none has failed.
        /// Carried by: `to`, `failed` of `DaemonOutput::new`
        ensures to { result.to ≡ to }
        ensures failed { result.tally.failed ≡ false }
    {
        DaemonOutput {
            to,
            tally: OutputTally::new(),
        }
    }
}

/// What the daemon reads, where its listeners come from, and what it writes to.
#[derive(Drop)]
pub struct DaemonStreams<I, P, O, E> {
    pub inputs: I,
    pub ports: P,
    pub out: DaemonOutput<O>,
    pub err: DaemonOutput<E>,
}

/// Writes the line that tells the port.
pub fn tell_port<W: Write>(out: &mut DaemonOutput<W>, port: u16)
    /// The line `port N` is written, or a front of it if the output fails, which is noted.
    ensures { TellsLine (port_line port) out.new.tally.failed
        (W.contents out.old.to) (W.contents out.new.to) }
{
    let mut digits = Buffer::new();
    write_line(out, b"port ", digits.format(port).as_bytes());
}
