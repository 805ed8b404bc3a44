ghost use Rattle.std.specs.Prelude.{◌≡◌, [], true, OnOk, OnErr, IfErr, IsOk};
ghost use Rattle.std.specs.Io.KnownBytes.{Appends};
ghost use Rattle.scanimage_cli.specs.Printing.{TakesOrFails};

use crate::ending::Ending;
use crate::printed::Printout;
use local_job::{OutputTally, put};
use sane_fixed::Status;
use scan_job::Why;
use std::io::Write;

/// Prints a list or a table.
pub fn print<W: Write>(to: &mut W, lines: &[u8], outputs: &mut OutputTally) -> Result<(), Ending>
    /// What is to be printed is printed whole, or the output failed.
    /// Carried by: `whole`, `failed` of `print`
    ensures whole { OnOk result (Appends (W.contents to.old) (W.contents to.new) lines.now) }
    ensures failed { IfErr result (λ ending. ending ≡ Ending.Ended Status.IoError Why.Sink) }
    // No output fails for nothing, and where one does that is noted.
    ensures nothing { lines.now ≡ [] → IsOk result }
    ensures output { OnErr result (outputs.new.failed ≡ true) }
{
    if put(to, lines, outputs) {
        Ok(())
    } else {
        Err(Ending::failed_output())
    }
}

/// Prints what a job tells, its table first. Lines that standard error does not take are lost, and no more.
pub fn print_all<O: Write, E: Write>(
    out: &mut O,
    err: &mut E,
    printed: &Printout,
    outputs: &mut OutputTally,
) -> Result<(), Ending>
    /// The table of a job that is done is printed whole.
    /// Carried by: `table`, `failed` of `print_all`
    ensures table { OnOk result
        (Appends (O.contents out.old) (O.contents out.new) printed.now.table.items) }
    ensures failed { IfErr result (λ ending. ending ≡ Ending.Ended Status.IoError Why.Sink) }
    // No output fails where there is no table, and where one does that is noted.
    ensures nothing { printed.now.table.items ≡ [] → IsOk result }
    ensures output { OnErr result (outputs.new.failed ≡ true) }
    /// Behind it the lines of the rounded settings are printed on standard error, all of them unless that failed; where
    /// the table is not printed none are.
    /// Carried by: `rounded`, `silent` of `print_all`: `TakesOrFails`
    ensures rounded { OnOk result (TakesOrFails (E.contents err.old)
        (E.contents err.new) printed.now.rounded.items outputs.new.failed) }
    ensures silent { OnErr result (E.contents err.new ≡ E.contents err.old) }
{
    print(out, &printed.table, outputs)?;
    let _ = put(err, &printed.rounded, outputs);
    Ok(())
}
