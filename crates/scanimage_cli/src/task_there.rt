ghost use Rattle.std.specs.Prelude.{◌≡◌, true, IfOk, IfErr, OnOk, OnErr};
ghost use Rattle.scanimage_cli.specs.Programs.{EndsWellThere, EndsWithNone, RanThere, asked_there, seen_outputs};
ghost use Rattle.scanimage_cli.specs.CallStreams.{held};
ghost use Rattle.scanimage_cli.specs.Causes.{EndsNetPlanned, FailsThere, IsUnconnected};
ghost use Rattle.scanimage_cli.specs.Host.{IsHostCalled, dials_between, remote_at};
ghost use Rattle.scanimage_cli.specs.JobOutputs.{LeavesNone, job_outputs};
ghost use Rattle.scanimage_cli.specs.NetDoing.{host_job};
ghost use Rattle.scanimage_cli.specs.Ending.{IsFailure, IsOfJob, IsOfOutput};

use crate::ending::Ending;
use crate::host::address_of;
use crate::hosts::{HostPoint, Hosts};
use crate::net_doing::{do_net_batch, do_net_job};
use crate::outputs::{JobFiles, Outputs};
use crate::planning::{Destination, JobPlan, Remote};
use crate::printed::Printout;
use crate::printing::print_all;
use local_job::OutputTally;
use recorded::NamedOutput;
use sane_fixed::Text;
use scan_job::{Job, Shelf};
use std::alloc::Global;
use std::io::Write;

/// The control connection to the host and the port that are asked.
fn connection<H: Hosts>(
    hosts: &mut H,
    host: &[u8],
    port: u16,
    dial_first: bool,
) -> Result<H::Control, Ending>
    ensures called { OnOk result (IsHostCalled (remote_at host.now port dial_first) true
        (H.ports hosts.old) (H.ports hosts.new)) }
    ensures spares { IfErr result (λ ending. ¬ IsOfOutput ending) }
    ensures failed { IfErr result IsFailure }
    // It is a status and its cause.
    ensures told { IfErr result IsOfJob }
    ensures unconnected { IfErr result (IsUnconnected (remote_at host.now port dial_first)
        (H.ports hosts.old) (H.ports hosts.new)) }
{
    let Some(address) = address_of(host) else {
        return Err(Ending::ending_of_loss());
    };
    let at = HostPoint {
        address,
        port,
        is_first: dial_first,
    };
    match hosts.control(at) {
        Ok(control) => Ok(control),
        Err(_) => Err(Ending::ending_of_loss()),
    }
}

/// Does a job over connections to its host, its file where it is to go.
fn run_job<H: Hosts, O: Write, N: NamedOutput, S: Shelf>(
    alloc: Global,
    host: &[u8],
    job: Job,
    destination: Destination,
    hosts: &mut H,
    control: H::Control,
    out: &mut O,
    files: &mut JobFiles<N, S>,
    outputs: &mut OutputTally,
) -> Result<Printout, Ending>
    ensures ran { IfOk result (RanThere (host_job host.now job) destination
        (dials_between (H.ports hosts.old) (H.ports hosts.new))
        (job_outputs (O.contents out.old) (N.contents files.old.named) (S.stock files.old.shelf))
        (job_outputs (O.contents out.new) (N.contents files.new.named) (S.stock files.new.shelf))) }
    ensures no_file { OnErr result (LeavesNone destination
        (job_outputs (O.contents out.old) (N.contents files.old.named) (S.stock files.old.shelf))
        (job_outputs (O.contents out.new) (N.contents files.new.named) (S.stock files.new.shelf))) }
    ensures output { IfErr result (λ ending. IsOfOutput ending → outputs.new.failed ≡ true) }
    ensures failed { IfErr result IsFailure }
    // It is a status and its cause.
    ensures told { IfErr result IsOfJob }
    // It is that of the job, for a reason that a job at a host has.
    ensures ended { IfErr result (EndsNetPlanned job
        (dials_between (H.ports hosts.old) (H.ports hosts.new))) }
{
    let mut stream = control;
    let stream = &mut stream;
    match destination {
        Destination::StandardOutput => { do_net_job(alloc, host, job, stream, hosts, out, outputs) }
        Destination::Path(path) => {
            files.named.begin(path);
            let named = &mut files.named;
            do_net_job(alloc, host, job, stream, hosts, named, outputs)
        }
        Destination::Folder => {
            let shelf = &mut files.shelf;
            do_net_batch(alloc, host, job, stream, hosts, shelf, outputs)
        }
    }
}

/// Does what is asked for on the daemon of a host, with the device of that name there.
pub fn run_net_task<H: Hosts, O: Write, E: Write, N: NamedOutput, S: Shelf>(
    alloc: Global,
    hosts: &mut H,
    remote: Remote,
    plan: JobPlan,
    password: Text,
    outputs: &mut Outputs<O, E, N, S>,
) -> Result<(), Ending>
    /// If a job over the net ends well, it is the one that the plan has for that host, port and device, done by the client's
    /// rules over one control connection to that host and port. Its file goes where the plan has it go. Behind it its list or
    /// table is printed, and its rounded settings on standard error.
    /// Carried by: `done` of `run_net_task`: `EndsWellThere`, `IsDoneThere`
    ensures done { OnOk result (EndsWellThere (asked_there remote plan password)
        (held H.ports hosts.old hosts.new)
        (held (seen_outputs O.contents E.contents N.contents S.stock) outputs.old outputs.new)) }
    /// If it does not, no front of what the output of a scan's file took is a whole file, if it tells its bytes, and no other
    /// output was touched. A batch leaves its finished pages alone, and a task without a file touches none.
    /// Carried by: `no_file` of `run_net_task`: `EndsWithNone`, `LeavesNoneOfPlan`
    ensures no_file { OnErr result (EndsWithNone plan
        (held (seen_outputs O.contents E.contents N.contents S.stock) outputs.old outputs.new)) }
    ensures output { IfErr result
        (λ ending. IsOfOutput ending → outputs.new.tally.failed ≡ true) }
    // Nothing is printed on standard error then.
    ensures silent { OnErr result (E.contents outputs.new.err ≡ E.contents outputs.old.err) }
    /// No ending of any of its parts has the exit status 0.
    ensures failed { IfErr result IsFailure }
    // It is a status and its cause.
    ensures told { IfErr result IsOfJob }
    /// An ending has its cause: a job that is too large or a host without an address, before a connection was asked for; a
    /// control connection that was not made; a job that was begun over one, and stopped for a reason that its replies, frames
    /// and moves show; or a list or table that was not taken. Before a job is begun no memory is wanted.
    /// Carried by: `ended` of `run_net_task`: `FailsThere`, `EndsThere`
    ensures ended { IfErr result (FailsThere (asked_there remote plan password)
        (held H.ports hosts.old hosts.new)
        (held (seen_outputs O.contents E.contents N.contents S.stock) outputs.old outputs.new)) }
{
    let JobPlan {
        user,
        settings,
        task,
        destination,
    } = plan;
    let Remote {
        host,
        port,
        dial_first,
        device,
    } = remote;
    let host = host.as_bytes();
    let job = Job {
        user,
        password,
        device,
        settings,
        task,
    };
    // Such a job does not even ask for a connection.
    if let Some(ending) = Ending::of_refused(&job) {
        return Err(ending);
    }
    let control = connection(hosts, host, port, dial_first)?;
    outputs.has_begun = true;
    let printed = run_job(
        alloc,
        host,
        job,
        destination,
        hosts,
        control,
        &mut outputs.out,
        &mut outputs.files,
        &mut outputs.tally,
    )?;
    let (out, err) = (&mut outputs.out, &mut outputs.err);
    print_all(out, err, &printed, &mut outputs.tally)
}
