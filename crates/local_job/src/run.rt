ghost use Rattle.std.specs.Prelude.{◌≡◌, ◌≢◌, ◌↔◌, IsTrue, true, Ok, IfOk, IfErr, OnErr};
ghost use Rattle.std.specs.Fn.{FnOnceReturnsAt};
ghost use Rattle.sane_fixed.specs.declared.status.Status.TheVariants.{Good, Eof};
ghost use Rattle.device_api.specs.State.{is_at_rest, after_reset};
ghost use Rattle.scan_job.specs.Outcomes.{IfDone, IfEnded, IsOver};
ghost use Rattle.local_job.specs.FrameReading.{IsRefusal};
ghost use Rattle.scan_job.specs.Stops.{no_memory};
ghost use Rattle.scan_job.specs.declared.outcome.Why.TheVariants.{Sink};
ghost use Rattle.local_job.specs.LocalRun.{settings_put, devices_reported, options_reported, IsDone, IsEndedBy, IsTakenJob, LeavesNoFile, ChangesDevice, with_file};
ghost use Rattle.local_job.specs.Inside.{KeepsPages};

use crate::local_stop::bad_setting;
use crate::option_showing::show_options;
use crate::scan::scan_picture;
use crate::settings::put_settings;
use byte_output::OutputTally;
use device_api::{Device, DeviceInfo};
use option_desc::{Descriptor, Value};
use sane_fixed::{NoMem, Text};
use scan_job::{ItemList, Job, Outcome, Reports, Stop, Task};
use std::alloc::Global;
use std::io::Write;

/// The settings that a task puts.
pub fn settings_put(task: Task, settings: &[(Text, Text)]) -> &[(Text, Text)]
    ensures { result.now ≡ settings_put task settings.now }
{
    match task {
        Task::List => &[],
        Task::Show | Task::SetOnly | Task::Scan | Task::Batch(_) => settings,
    }
}

/// The devices that a task reports.
pub fn devices_reported(
    alloc: Global,
    task: Task,
    device: &dyn Device,
) -> Result<ItemList<DeviceInfo>, Stop>
    ensures told { IfOk result (λ devices. devices
        ≡ devices_reported task (state device.now).info) }
    ensures memory { IfErr result (λ stop. stop ≡ no_memory) }
{
    let mut devices = Vec::new(alloc);
    if task == Task::List {
        devices.push(device.info().try_clone(alloc)?)?;
    }
    Ok(ItemList::from_vec(devices))
}

/// The options that a task reports.
pub fn options_reported(
    alloc: Global,
    task: Task,
    device: &dyn Device,
) -> Result<ItemList<(Descriptor, Option<Value>)>, Stop>
    ensures told { IfOk result (λ options. options
        ≡ options_reported task (state device.now).setup) }
    ensures memory { IfErr result (λ stop. stop ≡ no_memory) }
{
    match task {
        Task::Show => show_options(alloc, device),
        Task::List | Task::SetOnly | Task::Scan | Task::Batch(_) => {
            Ok(ItemList::from_vec(Vec::new(alloc)))
        }
    }
}

/// Whether a job's size is one that is taken, and it has one file at most.
fn is_taken(job: &Job) -> bool
    ensures { IsTrue result ↔ IsTakenJob job.now }
{
    !job.task.is_batch() && job.has_size()
}

/// Does a job on a scanner that was reset. What is to be told is made of the reports before the file is begun.
fn do_job<W: Write, T: Drop, F: FnOnce(&Reports) -> Result<T, NoMem> + Drop>(
    alloc: Global,
    device: &mut dyn Device,
    job: &Job,
    out: &mut W,
    outputs: &mut OutputTally,
    tell: F,
) -> Result<(Reports, T), Stop>
    requires reset { state device.old ≡ after_reset (state device.old) }
    requires tell { F.IsAlwaysCallable tell }
    ensures done { IfOk result
        (λ done. IsDone job.now (with_file (state device.old) (W.contents out.old))
        (with_file (state device.new) (W.contents out.new)) done.0) }
    ensures told { IfOk result (λ done. FnOnceReturnsAt F.FnOnce tell done.0 (Ok done.1)) }
    ensures no_file { OnErr result (LeavesNoFile (W.contents out.old) (W.contents out.new)) }
    ensures refusal { IfErr result (λ stop. IsRefusal stop) }
    ensures output { IfErr result (λ stop. stop.why ≡ Sink → outputs.new.failed ≡ true) }
    ensures stop { IfErr result
        (λ stop. IsEndedBy (state device.old) job.now (state device.new) stop) }
    ensures runs { KeepsPages (state device.old) (state device.new) }
{
    if !is_taken(job) {
        return Err(bad_setting());
    }
    let settings = put_settings(alloc, device, settings_put(job.task, &job.settings))?;
    let devices = devices_reported(alloc, job.task, &*device)?;
    let options = options_reported(alloc, job.task, &*device)?;
    let reports = Reports {
        settings,
        devices,
        options,
    };
    let told = tell(&reports)?;
    if job.task == Task::Scan {
        scan_picture(alloc, device, out, outputs)?;
    }
    Ok((reports, told))
}

/// Does a job as `run_local` does it, and makes of its reports what is to be told of it, by `tell`. That comes before the first
/// byte of the file, so a job without memory for telling leaves no file. Gives the reports, what was made of them, and what
/// became of the calls on its output.
pub fn run_local_with<W: Write, T: Drop, F: FnOnce(&Reports) -> Result<T, NoMem> + Drop>(
    alloc: Global,
    device: &mut dyn Device,
    job: &Job,
    out: &mut W,
    outputs: &mut OutputTally,
    tell: F,
) -> Result<(Reports, T), Stop>
    requires { F.IsAlwaysCallable tell }
    /// Where `run_local_with` answers Done its settings are in force, each reported with its option's kind, what its
    /// text reads as, the admitted value nearest to that, and INEXACT just where they differ.
    ///
    /// A scan's output then took the whole file of a picture. It is exactly the meaning of the settings' scene on the
    /// scanner's page where the page's source is steady.
    ///
    /// A list told the scanner and ignored the settings. A show told each option, with its value if it is active, can be read and
    /// has one. These, and settings alone, wrote nothing.
    ///
    /// The scanner is left at rest, not cancelled, with the options of the settings.
    /// Carried by: `done`, `rest` of `run_local_with`
    ensures done { IfOk result
        (λ done. IsDone job.now (with_file (state device.old) (W.contents out.old))
        (with_file (state device.new) (W.contents out.new)) done.0) }
    ensures told { IfOk result (λ done. FnOnceReturnsAt F.FnOnce tell done.0 (Ok done.1)) }
    /// Any other ending has a status other than GOOD and EOF, and no front of what the output took is a whole file.
    ensures no_file { OnErr result (LeavesNoFile (W.contents out.old) (W.contents out.new)) }
    ensures refusal { IfErr result (λ stop. IsRefusal stop) }
    /// A job ends for its output only if a failed write is noted. So with a new tally, a page that cannot be read is not told so,
    /// and no status that `read-return-value` names is.
    ensures output { IfErr result (λ stop. stop.why ≡ Sink → outputs.new.failed ≡ true) }
    /// A job too large ends with INVAL (setting).
    /// Carried by: `stop` of `run_local_with`: `size` of `IsEndedBy`
    ///
    /// A setting that fails ends the job with its own status and why, and settings that mean no picture with INVAL
    /// (answer); both may also end for lack of memory.
    /// Carried by: `stop` of `run_local_with`: `setting`, `no_picture` of `IsEndedBy`
    ///
    /// With its settings in force, a task other than a scan ends otherwise for lack of memory alone.
    ///
    /// A scan on a feeder whose tray is empty ends with NO_DOCS (answer), or for lack of memory.
    ///
    /// A scan of a picture ends otherwise for lack of memory, for its output, as short where `read-return-value` says EOF, or
    /// with what `read-return-value` names. It ends with IO_ERROR if a failure of the page's source was counted in the job.
    ///
    /// A batch is no such job: it ends with INVAL (setting).
    /// Carried by: `stop` of `run_local_with`: `size` of `IsEndedBy`
    ensures stop { IfErr result
        (λ stop. IsEndedBy (state device.old) job.now (state device.new) stop) }
    /// The pages are those of before, but that a feeder lets go of the page that was scanned, and the reset at the
    /// beginning of one under way.
    /// Carried by: `runs` of `run_local_with`
    ensures runs { ChangesDevice (state device.old) (state device.new) }
    ensures rest { is_at_rest (state device.new).phase ≡ true }
{
    device.reset();
    let done = do_job(alloc, device, job, out, outputs, tell);
    device.cancel();
    done
}

/// Does a job on a scanner of this machine: resets it, puts each setting, does the task, and cancels it
/// at the end. A scan's file goes to the output, which is not flushed. A batch, which has more than one file, is refused.
///
/// The clauses on a `Write` do not tell a failed write, and this call keeps its tally to itself. So `run_local_with`, which it
/// calls with a new tally, promises that a job ends for its output only behind a failed write.
pub fn run_local<W: Write>(
    alloc: Global,
    device: &mut dyn Device,
    job: &Job,
    out: &mut W,
) -> Outcome
    // It is done, or has ended.
    ensures over { IsOver result }
    // As `run_local_with`.
    ensures done { IfDone result (λ reports.
        IsDone job.now (with_file (state device.old) (W.contents out.old))
        (with_file (state device.new) (W.contents out.new)) reports) }
    ensures ended { IfEnded result (λ status why. (status ≢ Good)
        × (status ≢ Eof) × LeavesNoFile (W.contents out.old) (W.contents out.new)) }
    ensures stop { IfEnded result (λ status why. IsEndedBy (state device.old) job.now
        (state device.new) (record { status = status; why = why })) }
    ensures runs { ChangesDevice (state device.old) (state device.new) }
    ensures rest { is_at_rest (state device.new).phase ≡ true }
{
    let mut outputs = OutputTally::new();
    match run_local_with(alloc, device, job, out, &mut outputs, |_| Ok(())) {
        Ok((reports, ())) => Outcome::Done(reports),
        Err(stop) => Outcome::Ended(stop.status, stop.why),
    }
}
