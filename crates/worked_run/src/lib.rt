//! A run of one job over connections, made call by call: a daemon and a client of the job in turn. What they do stands for acts of a
//! server and steps of a job's loop, which meet every premise of the laws on loops.
#![tactic(auto)]

mod turns;

ghost use Rattle.std.specs.Prelude.{◌≡◌, IfSome, List, [], ◌∷◌};
ghost use Rattle.device_api.specs.State.{DeviceState};
ghost use Rattle.saned_core.specs.DaemonStates.{core};
ghost use Rattle.programs_refine.specs.Keeping.{AreFit};
ghost use Rattle.programs_refine.specs.Programs.{HasOpenedNone};
ghost use Rattle.worked_run.specs.DoneRuns.{IsDoneRun, IsKeptRun};

use device_api::Device;
use net_client::Client;
use programs_refine::programs_keep_all;
use saned_core::Daemon;
use scan_job::{Job, Outcome, Reports};
use std::alloc::Global;
use turns::{is_scan, open_session, run_to_end};

/// Runs a job to its end at a daemon of which nothing was asked yet, and answers what is to be told of it and its file. None of a
/// batch, where a request, its replies or a record has more than 4,096 bytes, or where the job is not Done.
pub fn run_once<D: Device>(
    alloc: Global,
    daemon: &mut Daemon<D>,
    job: Job,
) -> Option<(Reports, Vec<u8>)>
    /// There are runs to Done. If a job of any kind but a batch is run so, the calls of daemon and client are acts of a server
    /// and steps of a job's loop that meet all premises of `programs_keep_all`. In them that job is Done with these reports and
    /// that file went out.
    ensures done { IfSome result (λ told. HasOpenedNone (core D.state daemon.old)
        → IsDoneRun job (core D.state daemon.old) told.0 told.1.items) }
    /// So all of that is kept, over devices of which a world is made. If the job is a scan, and the pages that came for its
    /// device are steady, that file is exactly the picture that its settings mean on the page of its start.
    ensures kept { IfSome result (λ told. (devices : List DeviceState)
        → AreFit devices (job ∷ []) (core D.state daemon.old)
        → IsKeptRun devices job (core D.state daemon.old) told.0 told.1.items) }
{
    programs_keep_all();
    let scan = is_scan(job.task)?;
    let Ok(mut client) = Client::new(alloc, job) else {
        return None;
    };
    let id = open_session(alloc, daemon)?;
    let mut file = Vec::new(alloc);
    if !run_to_end(alloc, daemon, id, &mut client, scan, &mut file) {
        return None;
    }
    match client.into_outcome() {
        Outcome::Done(reports) => Some((reports, file)),
        Outcome::Running | Outcome::Ended(_, _) => None,
    }
}
