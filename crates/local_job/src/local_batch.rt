ghost use Rattle.std.specs.Prelude.{◌≡◌, ◌≢◌, ◌↔◌, true, None, Ok, IsTrue, IfOk, IfErr};
ghost use Rattle.std.specs.Fn.{FnOnceReturnsAt};
ghost use Rattle.sane_fixed.specs.declared.status.Status.TheVariants.{Good, Eof};
ghost use Rattle.device_api.specs.State.{is_at_rest, after_reset};
ghost use Rattle.scan_job.specs.JobSize.{HasJobFault};
ghost use Rattle.scan_job.specs.Outcomes.{IfDone, IfEnded, IsOver};
ghost use Rattle.local_job.specs.FrameReading.{IsRefusal};
ghost use Rattle.scan_job.specs.declared.outcome.Why.TheVariants.{Sink};
ghost use Rattle.local_job.specs.LocalBatch.{pages_of_task, IsBatchDone, IsBatchEndedBy};
ghost use Rattle.local_job.specs.LocalPages.{with_shelf};

use crate::local_stop::bad_setting;
use crate::pages::scan_pages;
use crate::run::{devices_reported, options_reported, settings_put};
use crate::settings::put_settings;
use byte_output::OutputTally;
use device_api::Device;
use sane_fixed::NoMem;
use scan_job::{Job, Outcome, Reports, Shelf, Stop, Task};
use std::alloc::Global;

/// How many pages a task scans at most.
fn pages_of_task(task: Task) -> u32
    ensures { result ≡ pages_of_task task }
{
    match task {
        Task::List | Task::Show | Task::SetOnly => 0,
        Task::Scan => 1,
        Task::Batch(count) => count,
    }
}

/// Whether a job has a size, and a batch a count, that are taken.
fn is_taken(job: &Job) -> bool
    ensures { IsTrue result ↔ HasJobFault job.now None }
{
    job.has_size() && job.task.has_count()
}

/// Does a job on a scanner that was reset. What is to be told is made of the reports before the first page is scanned.
fn do_batch<S: Shelf, T: Drop, F: FnOnce(&Reports) -> Result<T, NoMem> + Drop>(
    alloc: Global,
    device: &mut dyn Device,
    job: &Job,
    shelf: &mut S,
    outputs: &mut OutputTally,
    tell: F,
) -> Result<(Reports, T), Stop>
    requires reset { state device.old ≡ after_reset (state device.old) }
    requires tell { F.IsAlwaysCallable tell }
    ensures done { IfOk result (λ done.
        IsBatchDone job.now (with_shelf (state device.old) (S.stock shelf.old))
        (with_shelf (state device.new) (S.stock shelf.new)) done.0) }
    ensures told { IfOk result (λ done. FnOnceReturnsAt F.FnOnce tell done.0 (Ok done.1)) }
    ensures stop { IfErr result (λ stop.
        IsBatchEndedBy job.now (with_shelf (state device.old) (S.stock shelf.old))
        (with_shelf (state device.new) (S.stock shelf.new)) stop) }
    ensures refusal { IfErr result (λ stop. IsRefusal stop) }
    ensures output { IfErr result (λ stop. stop.why ≡ Sink → outputs.new.failed ≡ true) }
{
    if !is_taken(job) {
        return Err(bad_setting());
    }
    let settings = put_settings(alloc, device, settings_put(job.task, &job.settings))?;
    let devices = devices_reported(alloc, job.task, &*device)?;
    let options = options_reported(alloc, job.task, &*device)?;
    let reports = Reports {
        settings,
        devices,
        options,
    };
    let told = tell(&reports)?;
    scan_pages(alloc, device, pages_of_task(job.task), shelf, outputs)?;
    Ok((reports, told))
}

/// Does a job as `run_local_batch` does it, and makes of its reports what is to be told of it, by `tell`, before its first
/// page is scanned. Gives the reports and what was made of them, and what became of the calls on its outputs.
pub fn run_local_batch_with<S: Shelf, T: Drop, F: FnOnce(&Reports) -> Result<T, NoMem> + Drop>(
    alloc: Global,
    device: &mut dyn Device,
    job: &Job,
    shelf: &mut S,
    outputs: &mut OutputTally,
    tell: F,
) -> Result<(Reports, T), Stop>
    requires { F.IsAlwaysCallable tell }
    /// When `run_local_batch_with` is Done, its pages are those of the tray in their order, each scanned with the settings in
    /// force. Each file is whole. Where its page's source is steady, it is of the meaning on that page.
    ///
    /// The shelf kept them all, in order and numbered from 1; as many as were asked for, or fewer, at least one,
    /// where no page was left.
    /// Carried by: `done` of `run_local_batch_with`: `AreScanned`
    ensures done { IfOk result (λ done.
        IsBatchDone job.now (with_shelf (state device.old) (S.stock shelf.old))
        (with_shelf (state device.new) (S.stock shelf.new)) done.0) }
    ensures told { IfOk result (λ done. FnOnceReturnsAt F.FnOnce tell done.0 (Ok done.1)) }
    /// Any other ending leaves the files of the finished pages, and at most one output more, which took no whole file. It has its
    /// cause as a scan's, or the shelf refused the last page's output.
    /// Carried by: `stop`, `refusal` of `run_local_batch_with`: `RefusesLast`, `EndsBehind`
    ensures stop { IfErr result (λ stop.
        IsBatchEndedBy job.now (with_shelf (state device.old) (S.stock shelf.old))
        (with_shelf (state device.new) (S.stock shelf.new)) stop) }
    ensures refusal { IfErr result (λ stop. IsRefusal stop) }
    /// A batch ends for its output only where it is noted, by then or before, that one failed: a write to it, or the
    /// shelf gave none, or refused it.
    ensures output { IfErr result (λ stop. stop.why ≡ Sink → outputs.new.failed ≡ true) }
    ensures rest { is_at_rest (state device.new).phase ≡ true }
{
    device.reset();
    let done = do_batch(alloc, device, job, shelf, outputs, tell);
    device.cancel();
    done
}

/// Does a job on a scanner of this machine: resets it, puts each setting, does the task, and cancels it at the end. A
/// batch scans page after page, each to an output of the shelf: until it has as many as it asks for, or, behind at least
/// one, until no page is left. A page that was scanned keeps its file, whatever ends the job. A scan is a batch of one
/// page, which must be there, and other tasks ask the shelf for nothing.
///
/// As of `run_local`, that a batch ends for its output only where one failed is promised by `run_local_batch_with`, which it
/// calls with a new tally.
pub fn run_local_batch<S: Shelf>(
    alloc: Global,
    device: &mut dyn Device,
    job: &Job,
    shelf: &mut S,
) -> Outcome
    // It is done, or has ended.
    ensures over { IsOver result }
    // As `run_local_batch_with`.
    ensures done { IfDone result (λ reports.
        IsBatchDone job.now (with_shelf (state device.old) (S.stock shelf.old))
        (with_shelf (state device.new) (S.stock shelf.new)) reports) }
    ensures ended { IfEnded result (λ status why. (status ≢ Good) × (status ≢ Eof)) }
    ensures stop { IfEnded result (λ status why.
        IsBatchEndedBy job.now (with_shelf (state device.old) (S.stock shelf.old))
        (with_shelf (state device.new) (S.stock shelf.new))
        (record { status = status; why = why })) }
    // The scanner is at rest.
    ensures rest { is_at_rest (state device.new).phase ≡ true }
{
    let mut outputs = OutputTally::new();
    match run_local_batch_with(alloc, device, job, shelf, &mut outputs, |_| Ok(())) {
        Ok((reports, ())) => Outcome::Done(reports),
        Err(stop) => Outcome::Ended(stop.status, stop.why),
    }
}
