ghost use Rattle.std.specs.Prelude.{◌≡◌, [], Some, IfOk};
ghost use Rattle.std.specs.Result.{is_ok};
ghost use Rattle.scan_job.specs.Shelves.{OpensOutput, Shelves, IsEmpty, IsNewOutput};
ghost use Rattle.recorded.specs.Names.{stock_of};

use crate::recorded::Recorded;
use crate::returned_outputs::{ReturnedOutputs, TakenBack};
use scan_job::{Shelf, ShelfFault};

/// A shelf, and the outputs that it was given back since it was put here.
#[derive(Drop)]
pub struct RecordedShelf<S> {
    shelf: S,
    /// The number that was asked for last.
    number: u32,
    returned: ReturnedOutputs,
}

impl<S> RecordedShelf<S> {
    /// A shelf of which nothing is recorded yet.
    pub fn new(shelf: S) -> RecordedShelf<S>
        /// A new record of a shelf tells no output.
        /// Carried by: `shelf`, `number`, `returned` of `RecordedShelf::new`
        ensures shelf { result.shelf ≡ shelf }
        ensures number { result.number ≡ 0 }
        ensures returned { result.returned.outputs ≡ [] }
    {
        RecordedShelf {
            shelf,
            number: 0,
            returned: ReturnedOutputs::none(),
        }
    }

    /// The shelf alone.
    pub fn into_inner(self) -> S
        /// The shelf comes back out of its record as it is.
        ensures { result ≡ self.shelf }
    {
        let RecordedShelf { shelf, .. } = self;
        shelf
    }
}

impl<S: Shelf> Shelf for RecordedShelf<S> {
    type Out = Recorded<S::Out>;

    ghost stock = { λ s. Some (stock_of s.number s.returned.outputs) };

    fn open(&mut self, k: u32) -> Result<Recorded<S::Out>, ShelfFault>
        /// A recorded shelf tells what its one call asked the shelf for: the output of that number, and the outputs given back to
        /// it, kept or refused.
        /// Carried by: `stock`, `inner` of `open` and of `close` of `RecordedShelf`
        ensures stock { OpensOutput (Some (stock_of self.old.number self.old.returned.outputs)) k
            (Some (stock_of self.new.number self.new.returned.outputs)) }
        ensures empty { IfOk result (λ out. IsEmpty (Some out.taken.text)) }
        ensures told { IfOk result (λ out. IsNewOutput
            (Some (stock_of self.new.number self.new.returned.outputs)) (Some out.taken.text)) }
        ensures inner { OpensOutput (S.stock self.old.shelf) k (S.stock self.new.shelf) }
        ensures inner_empty { IfOk result (λ out. IsEmpty (S.Out.contents out.writer)) }
    {
        self.number = k;
        match self.shelf.open(k) {
            Ok(out) => Ok(Recorded::new(out)),
            Err(fault) => Err(fault),
        }
    }

    fn close(&mut self, out: Recorded<S::Out>) -> Result<(), ShelfFault>
        ensures stock { Shelves (Some (stock_of self.old.number self.old.returned.outputs))
            (Some out.taken.text) (is_ok result)
            (Some (stock_of self.new.number self.new.returned.outputs)) }
        ensures inner { Shelves (S.stock self.old.shelf) (S.Out.contents out.writer) (is_ok result)
            (S.stock self.new.shelf) }
    {
        let (out, taken) = out.into_parts();
        let answer = self.shelf.close(out);
        self.returned.note(&TakenBack {
            number: self.number,
            is_kept: answer.is_ok(),
            taken,
        });
        answer
    }
}
