ghost use Rattle.std.specs.Prelude.{◌≡◌, ◌++◌, OnOk, map};
ghost use Rattle.std.specs.List.{concat};
ghost use Rattle.scanimage_cli.specs.Printing.{TakesOrFails};

use local_job::{OutputTally, put};
use sane_fixed::NoMem;
use std::io::Write;

/// Adds the pieces, one after another. The only error is out of memory.
pub fn add_all(line: &mut Vec<u8>, pieces: &[&[u8]]) -> Result<(), NoMem>
    ensures { OnOk result (line.new.items
        ≡ line.old.items ++ concat (map (λ piece. piece.now) pieces.now)) }
{
    for piece in pieces {
        line.extend_from_slice(*piece)?;
    }
    Ok(())
}

/// Writes the pieces, one after another, as far as the writer takes them.
pub fn put_pieces<W: Write>(to: &mut W, pieces: &[&[u8]], outputs: &mut OutputTally)
    ensures { TakesOrFails (W.contents to.old) (W.contents to.new)
        (concat (map (λ piece. piece.now) pieces.now)) outputs.new.failed }
{
    for piece in pieces {
        if !put(to, *piece, outputs) {
            return;
        }
    }
}
