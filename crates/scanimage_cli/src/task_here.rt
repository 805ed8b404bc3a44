ghost use Rattle.std.specs.Prelude.{◌≡◌, true, IfOk, IfErr, OnOk, OnErr};
ghost use Rattle.dispatch.specs.Table.{listed_infos};
ghost use Rattle.scanimage_cli.specs.Programs.{DoesPlanned, EndsWellHere, EndsWithNone, IsDeviceNamed, asked_here, scanner_table, seen_outputs};
ghost use Rattle.scanimage_cli.specs.CallStreams.{held};
ghost use Rattle.scanimage_cli.specs.Causes.{EndsPlanned, FailsHere, IsUnnamed};
ghost use Rattle.scanimage_cli.specs.JobOutputs.{LeavesNone, job_outputs};
ghost use Rattle.scanimage_cli.specs.Ending.{IsFailure, IsOfJob, IsOfOutput};

use crate::device_listing::device_list;
use crate::doing::{do_batch, do_job};
use crate::ending::Ending;
use crate::outputs::{JobFiles, Outputs};
use crate::planning::{Destination, JobPlan};
use crate::printed::Printout;
use crate::printing::{print, print_all};
use device_api::Device;
use dispatch::Registry;
use local_job::OutputTally;
use recorded::NamedOutput;
use sane_fixed::{Status, Text};
use scan_job::{Job, Shelf, Task, Why};
use std::alloc::Global;
use std::io::Write;
use virtual_scanner::Scanner;

/// Does a job whose file goes where it is to go.
fn run_job<O: Write, N: NamedOutput, S: Shelf>(
    alloc: Global,
    device: &mut dyn Device,
    job: &Job,
    destination: Destination,
    out: &mut O,
    files: &mut JobFiles<N, S>,
    outputs: &mut OutputTally,
) -> Result<Printout, Ending>
    ensures done { IfOk result (DoesPlanned destination job.now (state device.old, state device.new)
        (job_outputs (O.contents out.old) (N.contents files.old.named) (S.stock files.old.shelf))
        (job_outputs (O.contents out.new) (N.contents files.new.named) (S.stock files.new.shelf))) }
    ensures no_file { OnErr result (LeavesNone destination
        (job_outputs (O.contents out.old) (N.contents files.old.named) (S.stock files.old.shelf))
        (job_outputs (O.contents out.new) (N.contents files.new.named) (S.stock files.new.shelf))) }
    ensures output { IfErr result (λ ending. IsOfOutput ending → outputs.new.failed ≡ true) }
    ensures failed { IfErr result IsFailure }
    // It is a status and its cause.
    ensures told { IfErr result IsOfJob }
    // It is that of the job, for a reason that a job on the device has.
    ensures ended { IfErr result
        (EndsPlanned destination job.now (state device.old, state device.new)
        (job_outputs (O.contents out.old) (N.contents files.old.named) (S.stock files.old.shelf))
        (job_outputs (O.contents out.new) (N.contents files.new.named) (S.stock files.new.shelf))) }
{
    match destination {
        Destination::StandardOutput => do_job(alloc, device, job, out, outputs),
        Destination::Path(path) => {
            files.named.begin(path);
            do_job(alloc, device, job, &mut files.named, outputs)
        }
        Destination::Folder => do_batch(alloc, device, job, &mut files.shelf, outputs),
    }
}

/// The name of the device that is asked for: that of the first one where none is named.
fn device_name(
    alloc: Global,
    registry: &Registry<Scanner>,
    named: Option<Text>,
) -> Result<Text, Ending>
    ensures named { IfOk result
        (IsDeviceNamed named (listed_infos (scanner_table registry.now))) }
    ensures spares { IfErr result (λ ending. ¬ IsOfOutput ending) }
    ensures failed { IfErr result IsFailure }
    // It is a status and its cause.
    ensures told { IfErr result IsOfJob }
    ensures unnamed { IfErr result
        (IsUnnamed named (listed_infos (scanner_table registry.now))) }
{
    if let Some(name) = named {
        return Ok(name);
    }
    let Ok(devices) = registry.list(alloc) else {
        return Err(Ending::no_memory());
    };
    match devices.first() {
        Some(first) => match first.name.try_clone(alloc) {
            Ok(name) => Ok(name),
            Err(_) => Err(Ending::no_memory()),
        },
        None => Err(Ending::Ended(Status::Inval, Why::Setting)),
    }
}

/// Does what is asked for on one of the devices: on that of this name, or on the first.
pub fn run_task<O: Write, E: Write, N: NamedOutput, S: Shelf>(
    alloc: Global,
    registry: &mut Registry<Scanner>,
    device: Option<Text>,
    plan: JobPlan,
    password: Text,
    outputs: &mut Outputs<O, E, N, S>,
) -> Result<(), Ending>
    /// If what is asked for here ends well, it is done. A list of devices is printed; or the job of the plan is done as `do_job`
    /// or `do_batch` says, on the device that is named, or on the first. Its file goes where the plan has it go, its table is
    /// printed behind it, and its rounded settings on standard error.
    /// Carried by: `done` of `run_task`: `EndsWellHere`, `IsDoneHere`
    ensures done { OnOk result
        (EndsWellHere (scanner_table registry.old) (asked_here device plan password)
        (held (seen_outputs O.contents E.contents N.contents S.stock) outputs.old outputs.new)) }
    /// If it does not, no front of what the output of a scan's file took is a whole file, if it tells its bytes, and no other
    /// output was touched. A batch leaves its finished pages alone, and a task without a file touches none.
    /// Carried by: `no_file` of `run_task`: `EndsWithNone`, `LeavesNoneOfPlan`
    ensures no_file { OnErr result (EndsWithNone plan
        (held (seen_outputs O.contents E.contents N.contents S.stock) outputs.old outputs.new)) }
    /// That it ended for an output is told only where it is noted, by then or before, that a call on one failed.
    /// Carried by: `output` of `run_task`, `run_net_task`
    ensures output { IfErr result
        (λ ending. IsOfOutput ending → outputs.new.tally.failed ≡ true) }
    // Nothing is printed on standard error then.
    ensures silent { OnErr result (E.contents outputs.new.err ≡ E.contents outputs.old.err) }
    /// No ending of any of its parts has the exit status 0.
    ensures failed { IfErr result IsFailure }
    /// What is asked for that does not end well is told by a status and its cause, and not as a bad command line.
    /// Carried by: `told` of `run_task`, `run_net_task`
    ensures told { IfErr result IsOfJob }
    /// An ending has its cause: want of memory, for a list, a name or a device that is there, or no such device, before a job was
    /// begun; a job that was begun on that device, and stopped for a reason that such a job has; or a list or table that was not
    /// taken.
    /// Carried by: `ended` of `run_task`: `FailsHere`, `EndsHere`
    ensures ended { IfErr result
        (FailsHere (scanner_table registry.old) (asked_here device plan password)
        (held (seen_outputs O.contents E.contents N.contents S.stock) outputs.old outputs.new)) }
{
    if plan.task == Task::List {
        let Ok(devices) = registry.list(alloc) else {
            return Err(Ending::no_memory());
        };
        let Ok(lines) = device_list(alloc, &[], &devices) else {
            return Err(Ending::no_memory());
        };
        return print(&mut outputs.out, &lines, &mut outputs.tally);
    }
    let device = device_name(alloc, registry, device)?;
    let JobPlan {
        user,
        settings,
        task,
        destination,
    } = plan;
    let job = Job {
        user,
        password,
        device,
        settings,
        task,
    };
    let Ok(scanner) = registry.unplug(job.device.as_bytes()) else {
        return Err(Ending::Ended(Status::Inval, Why::Setting));
    };
    // In a box it is told which device a job on any device has.
    let Ok(scanner) = Box::new(alloc, scanner) else {
        return Err(Ending::no_memory());
    };
    let mut device: Box<dyn Device> = scanner;
    outputs.has_begun = true;
    let printed = run_job(
        alloc,
        &mut *device,
        &job,
        destination,
        &mut outputs.out,
        &mut outputs.files,
        &mut outputs.tally,
    )?;
    let (out, err) = (&mut outputs.out, &mut outputs.err);
    print_all(out, err, &printed, &mut outputs.tally)
}
