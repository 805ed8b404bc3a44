ghost use Rattle.std.specs.Prelude.{◌≡◌, true, IfOk, IfErr, OnErr};
ghost use Rattle.device_api.specs.State.{is_at_rest};
ghost use Rattle.scanimage_cli.specs.Doing.{DoesJob, EndsJob, DoesBatch, EndsBatch};
ghost use Rattle.scanimage_cli.specs.Ending.{IsFailure, IsOfJob, IsOfOutput};
ghost use Rattle.local_job.specs.LocalPages.{with_shelf};
ghost use Rattle.local_job.specs.LocalRun.{LeavesNoFile, ChangesDevice, with_file};

use crate::ending::Ending;
use crate::printed::Printout;
use device_api::Device;
use local_job::{OutputTally, run_local_batch_with, run_local_with};
use scan_job::{Job, Shelf};
use std::alloc::Global;
use std::io::Write;

/// Does a job on a scanner and gives what is to be printed of it, which is there before its file is begun. A job that ends
/// otherwise, or an output that fails, leaves no whole file.
pub fn do_job<W: Write>(
    alloc: Global,
    device: &mut dyn Device,
    job: &Job,
    output: &mut W,
    outputs: &mut OutputTally,
) -> Result<Printout, Ending>
    /// `do_job` gives what is to be printed just when the job is done. An output that tells its bytes then took the whole file of
    /// the picture that the settings in force mean on the scanner's page (if the page's source is steady), or, of a job that is
    /// no scan, nothing.
    /// Carried by: `done` of `do_job`: `DoesJob`
    ///
    /// What is to be printed is the list or the table of the job's reports, and a line for each setting that was
    /// rounded, and no more.
    /// Carried by: `done` of `do_job`: `Prints`
    ensures done { IfOk result (λ printed.
        DoesJob job.now (with_file (state device.old) (W.contents output.old))
        (with_file (state device.new) (W.contents output.new)) printed) }
    /// Where it gives an ending instead, an output that tells its bytes took no whole file.
    ensures no_file { OnErr result (LeavesNoFile (W.contents output.old) (W.contents output.new)) }
    /// That ending is the status and the why with which the job stopped, neither GOOD nor EOF, for a reason that
    /// `run_local_with` names; and the scanner is at rest in each case.
    /// Carried by: `ended`, `rest` of `do_job`
    ensures ended { IfErr result
        (λ ending. EndsJob (state device.old) job.now (state device.new) ending) }
    /// That a job on a scanner ended for its output is told only where a call on the output failed.
    /// Carried by: `output` of `do_job`, `do_batch`
    ensures output { IfErr result (λ ending. IsOfOutput ending → outputs.new.failed ≡ true) }
    // Its exit status is not 0.
    ensures failed { IfErr result IsFailure }
    // It is a status and its cause.
    ensures told { IfErr result IsOfJob }
    // Of the scanner only options, phase and count of failures changed, and a feeder let go of a page.
    ensures runs { ChangesDevice (state device.old) (state device.new) }
    ensures rest { is_at_rest (state device.new).phase ≡ true }
{
    let name = job.device.as_bytes();
    let task = job.task;
    let done = run_local_with(alloc, device, job, output, outputs, |reports| {
        Printout::of(alloc, b"", name, task, reports)
    });
    match done {
        Ok((_, printed)) => Ok(printed),
        Err(stop) => Err(Ending::of(stop)),
    }
}

/// Does a job on a scanner whose pages go to a shelf, and gives what is to be printed of it, which is there before its first
/// page is scanned. Pages that were scanned keep their files, also where the job ends otherwise.
pub fn do_batch<S: Shelf>(
    alloc: Global,
    device: &mut dyn Device,
    job: &Job,
    shelf: &mut S,
    outputs: &mut OutputTally,
) -> Result<Printout, Ending>
    /// `do_batch` keeps the same of a batch and the shelf that its pages go to: what is to be printed comes only
    /// where the shelf kept every page.
    /// Carried by: `done`, `ended`, `rest` of `do_batch`
    ensures done { IfOk result (λ printed.
        DoesBatch job.now (with_shelf (state device.old) (S.stock shelf.old))
        (with_shelf (state device.new) (S.stock shelf.new)) printed) }
    ensures ended { IfErr result (λ ending.
        EndsBatch job.now (with_shelf (state device.old) (S.stock shelf.old))
        (with_shelf (state device.new) (S.stock shelf.new)) ending) }
    ensures output { IfErr result (λ ending. IsOfOutput ending → outputs.new.failed ≡ true) }
    // Its exit status is not 0.
    ensures failed { IfErr result IsFailure }
    // It is a status and its cause.
    ensures told { IfErr result IsOfJob }
    ensures rest { is_at_rest (state device.new).phase ≡ true }
{
    let name = job.device.as_bytes();
    let task = job.task;
    let done = run_local_batch_with(alloc, device, job, shelf, outputs, |reports| {
        Printout::of(alloc, b"", name, task, reports)
    });
    match done {
        Ok((_, printed)) => Ok(printed),
        Err(stop) => Err(Ending::of(stop)),
    }
}
