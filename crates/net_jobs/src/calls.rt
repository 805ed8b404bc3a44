//! The calls on the connections of a job, and what they came to.
//!
//! The clauses of `Read` and `Write` do not tell that a call failed. So only the methods below call a connection of a job, or ask
//! for one. Each makes one call and notes its result. The contracts of the loop bind a loss that it tells its client to these
//! notes.
ghost use Rattle.std.specs.Prelude.{◌≡◌, ◌<◌, ◌+◌, ◌^◌, true, false, length, None, Some, IfOk, OnErr};
ghost use Rattle.std.specs.Io.{ReadsAtMost, WritesAtMost};
ghost use Rattle.std.specs.Io.KnownBytes.{ReadConsumes, WriteAppends};
ghost use Rattle.net_jobs.specs.Inside.{loss_by_read};

use crate::dial::{Dial, DialFault};
use byte_output::{OutputTally, fails_to_write};
use std::io::{self, ErrorKind, Read, Write};

/// The most reads of a job, with the interrupted calls on its control connection that are made again; and the most turns
/// of its loop.
const MOST_CALLS: u64 = 1 << 40;

/// Why nothing more is read of a connection.
#[derive(Clone, Copy, Debug, PartialEq, Eq)]
pub enum Loss {
    /// A read failed.
    ReadFailed,
    /// The stream is at its end.
    StreamEnded,
    /// The connection could not be made.
    DialFailed,
    /// All reads that a job may make are made, or all turns of its loop.
    UsedUp,
}

/// How many calls a job may still make, and what became of those that it made.
#[derive(Drop)]
pub struct CallTally {
    reads: u64,
    turns: u64,
    pub(crate) output: OutputTally,
    loss: Option<Loss>,
    write_failed: bool,
}

/// What a read that gave this comes to.
fn loss_by_read(got: &io::Result<usize>) -> Option<Loss>
    ensures { result ≡ loss_by_read got.now }
{
    match got {
        Ok(0) => Some(Loss::StreamEnded),
        Ok(_) => None,
        Err(e) if e.kind() == ErrorKind::Interrupted => None,
        Err(_) => Some(Loss::ReadFailed),
    }
}

impl CallTally {
    ghost use Rattle.byte_output.specs.Writes.{fails_to_write};
    ghost use Rattle.net_jobs.specs.Inside.{loss_by_read, loss_by_dial};
    ghost use Rattle.net_jobs.specs.Links.{DialBrings, with_port};

    /// Before the first call on a connection.
    pub fn new(output: OutputTally) -> CallTally
        ensures { result
            ≡ record {
              reads = 2 ^ 40;
              turns = 2 ^ 40;
              output = output;
              loss = None;
              write_failed = false;
            } }
    {
        CallTally {
            reads: MOST_CALLS,
            turns: MOST_CALLS,
            output,
            loss: None,
            write_failed: false,
        }
    }

    /// What became of the calls on the outputs.
    pub fn into_output(self) -> OutputTally
        ensures { result ≡ self.output }
    {
        self.output
    }

    /// Takes a turn of the loop, if one is left.
    pub fn take_turn(&mut self) -> bool
        ensures turns { result ≡ true → self.new.turns + 1 ≡ self.old.turns }
        ensures taken { result ≡ true → self.new ≡ record self.old { turns = self.new.turns } }
        ensures none_left { result ≡ false → self.old.turns ≡ 0 }
        ensures used_up { result ≡ false → self.new ≡ record self.old { loss = Some Loss.UsedUp } }
    {
        if self.turns == 0 {
            self.loss = Some(Loss::UsedUp);
            return false;
        }
        self.turns -= 1;
        true
    }

    /// Takes a read, if one is left.
    pub fn take_read(&mut self) -> bool
        ensures reads { result ≡ true → self.new.reads + 1 ≡ self.old.reads }
        ensures taken { result ≡ true → self.new ≡ record self.old { reads = self.new.reads } }
        ensures none_left { result ≡ false → self.old.reads ≡ 0 }
        ensures used_up { result ≡ false → self.new ≡ record self.old { loss = Some Loss.UsedUp } }
    {
        if self.reads == 0 {
            self.loss = Some(Loss::UsedUp);
            return false;
        }
        self.reads -= 1;
        true
    }

    /// Takes a read for a write that was interrupted and is to be made again; where none is left it has failed.
    pub fn take_again(&mut self) -> bool
        ensures reads { result ≡ true → self.new.reads + 1 ≡ self.old.reads }
        ensures taken { result ≡ true → self.new ≡ record self.old { reads = self.new.reads } }
        ensures none_left { result ≡ false → self.old.reads ≡ 0 }
        ensures failed { result ≡ false → self.new ≡ record self.old { write_failed = true } }
    {
        if self.reads == 0 {
            self.write_failed = true;
            return false;
        }
        self.reads -= 1;
        true
    }

    /// Reads once, of a connection of which no read has failed yet.
    pub fn read<R: Read>(&mut self, stream: &mut R, piece: &mut [u8]) -> io::Result<usize>
        requires held { self.old.loss ≡ None }
        // Into no room nothing is read, which would be noted as the stream's end.
        requires room { 0 < length piece.old }
        ensures bound { ReadsAtMost result piece.new }
        ensures bytes { ReadConsumes
            (R.remaining stream.old) (R.remaining stream.new) result piece.new }
        ensures told { self.new ≡ record self.old { loss = loss_by_read result } }
    {
        let got = stream.read(piece);
        self.loss = loss_by_read(&got);
        got
    }

    /// Writes once, where no write has failed yet.
    pub fn write<W: Write>(&mut self, stream: &mut W, bytes: &[u8]) -> io::Result<usize>
        requires up { self.old.write_failed ≡ false }
        // Of nothing a stream takes nothing, which would be noted as a failure.
        requires some { 0 < length bytes.now }
        ensures bound { WritesAtMost result bytes.now }
        ensures bytes { WriteAppends
            (W.contents stream.old) (W.contents stream.new) result bytes.now }
        ensures told { self.new ≡ record self.old { write_failed = fails_to_write result } }
    {
        let took = stream.write(bytes);
        self.write_failed = fails_to_write(&took);
        took
    }

    /// Asks for a data connection at that port, where none is lost yet.
    pub fn dial<D: Dial>(&mut self, dial: &mut D, port: u16) -> Result<D::Conn, DialFault>
        requires { self.old.loss ≡ None }
        ensures asked { D.ports dial.new ≡ with_port port (D.ports dial.old) }
        ensures brings { IfOk result
            (λ conn. DialBrings (D.coming dial.old) (D.coming dial.new) (D.Conn.remaining conn)) }
        ensures none { OnErr result (D.coming dial.new ≡ D.coming dial.old) }
        ensures kept { D.prepared dial.new ≡ D.prepared dial.old }
        ensures told { self.new ≡ record self.old { loss = loss_by_dial result } }
    {
        let made = dial.dial(port);
        if made.is_err() {
            self.loss = Some(Loss::DialFailed);
        }
        made
    }

    /// Whether a write to the control connection has failed.
    pub fn has_write_failed(&self) -> bool
        ensures { result ≡ self.now.write_failed }
    {
        self.write_failed
    }
}
