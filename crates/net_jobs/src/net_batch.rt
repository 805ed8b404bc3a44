ghost use Rattle.std.specs.Prelude.{◌≡◌, true, Ok, IfOk, IfErr};
ghost use Rattle.std.specs.Fn.{FnOnceReturnsAt};
ghost use Rattle.scan_job.specs.declared.outcome.Why.TheVariants.{Sink};
ghost use Rattle.scan_job.specs.Outcomes.{IfDone, IsOver};
ghost use Rattle.net_jobs.specs.Inside.{closed_as};
ghost use Rattle.net_jobs.specs.Batches.{RunsBatch, StopsBatch};
ghost use Rattle.net_jobs.specs.Links.{views_of};
ghost use Rattle.net_jobs.specs.RunPromises.{IfReports, IfStops, stream_views, streams};

use crate::dial::Dial;
use crate::running::{run_to, stop_of_fault};
use crate::sink::{ShelfSink, put_back};
use byte_output::OutputTally;
use sane_fixed::NoMem;
use scan_job::{Job, Outcome, Reports, Shelf, Stop};
use std::alloc::Global;
use std::io::{Read, Write};

/// How a job is over whose last output was given back, or refused.
fn closed<T: Drop>(done: Result<(Reports, T), Stop>, is_taken: bool) -> Result<(Reports, T), Stop>
    ensures { result ≡ closed_as done is_taken }
{
    match done {
        Ok(done) => {
            if is_taken {
                Ok(done)
            } else {
                Err(Stop::failed_output())
            }
        }
        Err(stop) => Err(stop),
    }
}

/// Does a job as `run_batch` does it, and makes of its reports what is to be told of it, by `tell`: before the last bytes of its
/// last file go out. Gives the reports and what was made of them, and what became of the calls on its outputs.
pub fn run_batch_with<C, D, S, T, F>(
    alloc: Global,
    job: Job,
    control: &mut C,
    dial: &mut D,
    shelf: &mut S,
    outputs: &mut OutputTally,
    tell: F,
) -> Result<(Reports, T), Stop>
where
    C: Read + Write,
    D: Dial,
    S: Shelf,
    T: Drop,
    F: FnOnce(&Reports) -> Result<T, NoMem> + Drop,
    requires { F.IsAlwaysCallable tell }
    /// `run_batch_with` keeps the same of the control and data connections, whatever the shelf.
    /// Carried by: `done`, `ended` of `run_batch_with`
    ///
    /// When it is Done, the shelf kept one output for each page, in their order and numbered from 1, each with the whole file of
    /// the picture that the page's frames show. It was given back no other.
    /// Carried by: `done` of `run_batch_with`: `outputs` of `BatchDone`
    ///
    /// They are at most as many as the batch may scan, one of a scan, and none of any other job.
    ensures done { IfReports result (RunsBatch
        (stream_views (views_of C.remaining C.contents D.ports D.prepared) D.coming S.stock) job
        (streams control.old dial.old shelf.old) (streams control.new dial.new shelf.new)) }
    // A job that is refused, or finds no memory for its buffers, touches no stream and no shelf.
    /// Where it ends otherwise the pages before have whole files, and at most one more output stands, which took no
    /// whole file.
    ///
    /// The shelf kept the output of each of these pages, but for one that it refused, which was the last and ended
    /// the batch as its output's.
    /// Carried by: `ended` of `run_batch_with`: `shelf` of `BatchEnded`
    ensures ended { IfErr result (StopsBatch
        (stream_views (views_of C.remaining C.contents D.ports D.prepared) D.coming S.stock) job
        (streams control.old dial.old shelf.old) (streams control.new dial.new shelf.new)) }
    /// A batch ends for its output only where it is noted, by then or before, that one failed: a write to it, or the
    /// shelf gave none, or refused it.
    ensures output { IfErr result (λ stop. stop.why ≡ Sink → outputs.new.failed ≡ true) }
    ensures told { IfOk result (λ done. FnOnceReturnsAt F.FnOnce tell done.0 (Ok done.1)) }
{
    if let Some(fault) = job.fault() {
        return Err(stop_of_fault(fault));
    }
    let mut sink = ShelfSink { under: None };
    let done = run_to(alloc, job, control, dial, shelf, &mut sink, outputs, tell);
    let ShelfSink { under } = sink;
    let is_taken = put_back(shelf, under, outputs);
    closed(done, is_taken)
}

/// Does a job over a control connection, the data connections that are dialed, and the outputs of its files. It asks for an
/// output at a file's first byte, and gives it back after the last, or as the job ends. A refused output ends the job as
/// `output`, unless it has ended otherwise. It reads the connections as `run_job` does.
///
/// As of `run_job`, that a batch ends for its output only where one failed is promised by `run_batch_with`, which it calls
/// with a new tally.
pub fn run_batch<C: Read + Write, D: Dial, S: Shelf>(
    alloc: Global,
    job: Job,
    control: &mut C,
    dial: &mut D,
    shelf: &mut S,
) -> Outcome
    ensures over { IsOver result }
    // As `run_batch_with`.
    ensures done { IfDone result (RunsBatch
        (stream_views (views_of C.remaining C.contents D.ports D.prepared) D.coming S.stock) job
        (streams control.old dial.old shelf.old) (streams control.new dial.new shelf.new)) }
    // A job that is refused, or finds no memory for its buffers, touches no stream and no shelf.
    ensures ended { IfStops result (StopsBatch
        (stream_views (views_of C.remaining C.contents D.ports D.prepared) D.coming S.stock) job
        (streams control.old dial.old shelf.old) (streams control.new dial.new shelf.new)) }
{
    let mut outputs = OutputTally::new();
    match run_batch_with(alloc, job, control, dial, shelf, &mut outputs, |_| Ok(())) {
        Ok((reports, ())) => Outcome::Done(reports),
        Err(stop) => Outcome::Ended(stop.status, stop.why),
    }
}
