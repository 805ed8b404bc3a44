//! The calls on outputs, and what they came to.
//!
//! The clauses of `Write` do not tell that a write failed. Those of `Shelf` do not tell that an output was refused, unless the
//! shelf tells of itself. So a job calls its outputs by the methods below alone. Each makes one call and notes its result. The
//! contracts above bind a job that ends for its output to these notes.
ghost use Rattle.std.specs.Prelude.{◌≡◌, ◌<◌, ◌+◌, ◌^◌, ◌||◌, not, true, false, length, IfOk};
ghost use Rattle.std.specs.Result.{is_err};
ghost use Rattle.std.specs.Io.{WritesAtMost};
ghost use Rattle.std.specs.Io.KnownBytes.{WriteAppends};
ghost use Rattle.scan_job.specs.Shelves.{OpensOutput, Shelves, IsEmpty, IsNewOutput};
ghost use Rattle.byte_output.specs.Writes.{fails_to_write};

use scan_job::{Shelf, ShelfFault};
use std::io::{self, ErrorKind, Write};

/// How often an interrupted write is made again at most, in all that a job or a list writes.
pub const MOST_AGAIN: u64 = 1 << 40;

/// How often an interrupted write may still be made again, and whether an output failed.
#[derive(Drop)]
pub struct OutputTally {
    again: u64,
    failed: bool,
}

/// Whether a write that gave this failed: one that was interrupted may be made again, and one of which nothing is taken
/// has failed.
pub fn fails_to_write(took: &io::Result<usize>) -> bool
    ensures { result ≡ fails_to_write took.now }
{
    match took {
        Ok(n) => *n == 0,
        Err(e) => e.kind() != ErrorKind::Interrupted,
    }
}

impl OutputTally {
    /// Before the first call.
    pub fn new() -> OutputTally
        ensures { result ≡ record { again = 2 ^ 40; failed = false } }
    {
        OutputTally::with_again(MOST_AGAIN)
    }

    /// Before the first call, where so many interrupted writes may be made again.
    pub fn with_again(again: u64) -> OutputTally
        ensures { result ≡ record { again = again; failed = false } }
    {
        OutputTally {
            again,
            failed: false,
        }
    }

    /// Whether an output failed.
    pub fn has_failed(&self) -> bool
        ensures { result ≡ self.now.failed }
    {
        self.failed
    }

    /// Writes once.
    pub(crate) fn write<W: Write>(&mut self, to: &mut W, bytes: &[u8]) -> io::Result<usize>
        // Of nothing a writer takes nothing, which would be noted as a failure.
        requires { 0 < length bytes.now }
        // As the one call.
        ensures bound { WritesAtMost result bytes.now }
        ensures bytes { WriteAppends (W.contents to.old) (W.contents to.new) result bytes.now }
        /// Only the call that failed notes a failed output. That is a write that took nothing or gave an error other than an
        /// interruption, an interrupted write that may not be made again, a shelf that gave no output, or a shelf that refused
        /// one.
        /// Carried by: `told` of `write`, of `open`, of `close`; `failed` of `take_again`
        ensures told { self.new ≡ record self.old {
          failed = fails_to_write result || self.old.failed;
        } }
    {
        let took = to.write(bytes);
        self.failed = fails_to_write(&took) || self.failed;
        took
    }

    /// Lets a write that was interrupted be made again; where none may be any more it has failed.
    pub fn take_again(&mut self) -> bool
        ensures again { result ≡ true → self.new.again + 1 ≡ self.old.again }
        ensures taken { result ≡ true → self.new ≡ record self.old { again = self.new.again } }
        ensures none_left { result ≡ false → self.old.again ≡ 0 }
        ensures failed { result ≡ false → self.new ≡ record self.old { failed = true } }
    {
        if self.again == 0 {
            self.failed = true;
            return false;
        }
        self.again -= 1;
        true
    }

    /// Asks a shelf for the output of that number.
    pub fn open<S: Shelf>(&mut self, shelf: &mut S, k: u32) -> Result<S::Out, ShelfFault>
        ensures stock { OpensOutput (S.stock shelf.old) k (S.stock shelf.new) }
        ensures empty { IfOk result (λ out. IsEmpty (S.Out.contents out)) }
        ensures new { IfOk result (λ out. IsNewOutput (S.stock shelf.new) (S.Out.contents out)) }
        ensures told { self.new ≡ record self.old { failed = is_err result || self.old.failed } }
    {
        let made = shelf.open(k);
        self.failed = made.is_err() || self.failed;
        made
    }

    /// Gives a shelf an output back. Says whether it kept it.
    pub fn close<S: Shelf>(&mut self, shelf: &mut S, out: S::Out) -> bool
        ensures stock { Shelves
            (S.stock shelf.old) (S.Out.contents out) result (S.stock shelf.new) }
        ensures told { self.new ≡ record self.old { failed = not result || self.old.failed } }
    {
        let is_kept = shelf.close(out).is_ok();
        self.failed = !is_kept || self.failed;
        is_kept
    }
}
