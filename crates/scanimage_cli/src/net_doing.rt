ghost use Rattle.std.specs.Prelude.{◌≡◌, true, IfOk, IfErr, OnErr};
ghost use Rattle.scan_job.specs.FileOutputs.{StopsShort};
ghost use Rattle.scanimage_cli.specs.CallStreams.{dialled, held, passed};
ghost use Rattle.scanimage_cli.specs.DeviceList.{net_prefix};
ghost use Rattle.scanimage_cli.specs.NetDoing.{NetBatchEnds, NetBatchIsDone, NetJobEnds, NetJobIsDone};
ghost use Rattle.scanimage_cli.specs.Ending.{IsFailure, IsOfJob, IsOfOutput};

use crate::device_listing::net_prefix;
use crate::ending::Ending;
use crate::printed::Printout;
use local_job::OutputTally;
use net_backend::{Dial, run_batch_with, run_job_with};
use sane_fixed::{NoMem, Text};
use scan_job::{Job, Shelf};
use std::alloc::Global;
use std::io::{Read, Write};

/// What stands before the names of that host's devices, and the name of the job's device there.
fn names_answered(alloc: Global, host: &[u8], job: &Job) -> Result<(Vec<u8>, Text), NoMem>
    ensures prefix { IfOk result (λ names. names.0.items ≡ net_prefix host.now) }
    ensures device { IfOk result (λ names. names.1 ≡ job.now.device) }
{
    Ok((net_prefix(alloc, host)?, job.device.try_clone(alloc)?))
}

/// Does a job of one file on a daemon of that host, over a control connection and the data connections that are dialed. Gives
/// what is to be printed of it, which is there before the last bytes of its file go out. A job that ends otherwise, or an output
/// that fails, leaves no whole file.
pub fn do_net_job<C: Read + Write, D: Dial, W: Write>(
    alloc: Global,
    host: &[u8],
    job: Job,
    control: &mut C,
    dial: &mut D,
    output: &mut W,
    outputs: &mut OutputTally,
) -> Result<Printout, Ending>
    /// `do_net_job` gives what is to be printed just when the job is done by the client's rules, for the replies that it read and
    /// the frames that came. An output that tells its bytes then took the whole file of the picture that these frames show.
    /// Carried by: `done` of `do_net_job`: `NetJobIsDone`, `DoesNetJob`
    ensures done { IfOk result (NetJobIsDone host.now job
        (passed C.remaining C.contents control.old control.new)
        (dialled D.ports D.prepared D.coming dial.old dial.new)
        (held W.contents output.old output.new)) }
    /// If it gives an ending instead, no front of what an output took that tells its bytes is a whole file. The ending is the
    /// status and the why with which the job stopped, never GOOD, whatever the daemon says.
    /// Carried by: `no_file`, `ended` of `do_net_job`
    ensures no_file { OnErr result (StopsShort (W.contents output.old) (W.contents output.new)) }
    ensures ended { IfErr result (NetJobEnds job
        (passed C.remaining C.contents control.old control.new)
        (dialled D.ports D.prepared D.coming dial.old dial.new)
        (held W.contents output.old output.new)) }
    /// That a job over the net ended for its output is told only where a call on the output failed.
    /// Carried by: `output` of `do_net_job`, `do_net_batch`
    ensures output { IfErr result (λ ending. IsOfOutput ending → outputs.new.failed ≡ true) }
    // Its exit status is not 0.
    ensures failed { IfErr result IsFailure }
    // It is a status and its cause.
    ensures told { IfErr result IsOfJob }
{
    let Ok((prefix, device)) = names_answered(alloc, host, &job) else {
        return Err(Ending::no_memory());
    };
    let task = job.task;
    let done = run_job_with(alloc, job, control, dial, output, outputs, |reports| {
        Printout::of(alloc, prefix.as_slice(), device.as_bytes(), task, reports)
    });
    match done {
        Ok((_, printed)) => Ok(printed),
        Err(stop) => Err(Ending::of(stop)),
    }
}

/// Does a job whose pages go to a shelf on a daemon of that host, as `do_net_job` does one of one file. Pages that were
/// scanned keep their files, also where the job ends otherwise.
pub fn do_net_batch<C: Read + Write, D: Dial, S: Shelf>(
    alloc: Global,
    host: &[u8],
    job: Job,
    control: &mut C,
    dial: &mut D,
    shelf: &mut S,
    outputs: &mut OutputTally,
) -> Result<Printout, Ending>
    /// `do_net_batch` keeps the same of a batch and its shelf, which kept every page.
    /// Carried by: `done`, `ended` of `do_net_batch`
    ensures done { IfOk result (NetBatchIsDone host.now job
        (passed C.remaining C.contents control.old control.new)
        (dialled D.ports D.prepared D.coming dial.old dial.new)
        (held S.stock shelf.old shelf.new)) }
    ensures ended { IfErr result (NetBatchEnds job
        (passed C.remaining C.contents control.old control.new)
        (dialled D.ports D.prepared D.coming dial.old dial.new)
        (held S.stock shelf.old shelf.new)) }
    ensures output { IfErr result (λ ending. IsOfOutput ending → outputs.new.failed ≡ true) }
    // Its exit status is not 0.
    ensures failed { IfErr result IsFailure }
    // It is a status and its cause.
    ensures told { IfErr result IsOfJob }
{
    let Ok((prefix, device)) = names_answered(alloc, host, &job) else {
        return Err(Ending::no_memory());
    };
    let task = job.task;
    let done = run_batch_with(alloc, job, control, dial, shelf, outputs, |reports| {
        Printout::of(alloc, prefix.as_slice(), device.as_bytes(), task, reports)
    });
    match done {
        Ok((_, printed)) => Ok(printed),
        Err(stop) => Err(Ending::of(stop)),
    }
}
