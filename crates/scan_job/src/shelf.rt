use std::io::Write;
use thiserror::Error;

/// An output that cannot be made, or that fails as it is taken back.
#[derive(Clone, Copy, Debug, PartialEq, Eq, Error)]
#[error("the output failed or cannot be made")]
pub struct ShelfFault;

/// Where the files of a batch go, each to an output of its own.
pub trait Shelf {
    type Out: Write;

    // What was put on the shelf, where it is known.
    ghost stock: { Self → Option Stock } = { λ _. None };

    ghost use Rattle.std.specs.Prelude.{Option, None, IfOk};
    ghost use Rattle.std.specs.Result.{is_ok};
    ghost use Rattle.scan_job.specs.Shelves.{Stock, OpensOutput, Shelves, IsEmpty, IsNewOutput};

    /// The output of the batch's file of that number, from 1. It is asked for at the file's first byte.
    fn open(&mut self, k: u32) -> Result<Self::Out, ShelfFault>
        /// What a shelf of outputs promises, where it tells what it was given back: each output with its number, its
        /// bytes, and whether the shelf kept it or refused it.
        /// Carried by: `Shelf`: `stock` of `open`, of `close`
        ensures stock { OpensOutput (stock self.old) k (stock self.new) }
        ensures empty { IfOk result (λ out. IsEmpty (Self.Out.contents out)) }
        ensures told { IfOk result (λ out. IsNewOutput (stock self.new) (Self.Out.contents out)) };

    /// Takes an output back, after its file's last byte or as the job ends, or refuses it. Its buffers are flushed here.
    fn close(&mut self, out: Self::Out) -> Result<(), ShelfFault>
        ensures stock { Shelves
            (stock self.old) (Self.Out.contents out) (is_ok result) (stock self.new) };
}
