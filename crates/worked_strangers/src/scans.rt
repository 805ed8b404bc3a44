//! A job among strangers, to its end.

ghost use Rattle.std.specs.Prelude.{◌≡◌, ◌≢◌, IfOk, Err, Some, false, true};
ghost use Rattle.sane_fixed.specs.declared.status.Status.TheVariants.{DeviceBusy};
ghost use Rattle.scan_job.specs.declared.job.Task.TheVariants as tasks;
ghost use Rattle.scan_job.specs.declared.outcome.Outcome.TheVariants.{Done, Ended};
ghost use Rattle.scan_job.specs.declared.outcome.Why.TheVariants.{Answer};
ghost use Rattle.scan_job.specs.declared.report.Reports.{Reports};
ghost use Rattle.event_world.specs.Worlds.{IsFitJob, seen_world};
ghost use Rattle.virtual_scanner.specs.Scanners.{scanner_state};
ghost use Rattle.event_world.specs.declared.world_fault.WorldFault.TheVariants as faults;
ghost use Rattle.scan_world.specs.Calls.{outcome_at};
ghost use Rattle.scan_world.specs.Examples.{IsScanOf};
ghost use Rattle.worked_strangers.specs.Histories.{BusyAmong, IsNotDone, ScannedAmong, UnscannedAmong};

use crate::below::what_stands_below;
use crate::visits::{daemon_on, lose_and_stay, take_among_strangers};
use event_world::{EventWorld, WorldFault};
use md5_auth::Users;
use net_backend::{Job, Outcome, Why};
use page_picture::Page;
use sane_fixed::{Status, Text};
use std::alloc::Global;
use thiserror::Error;
use virtual_scanner::Scanner;
use worked_worlds::{copied, one_job};

/// Why there is no file.
#[derive(Clone, Copy, Debug, PartialEq, Eq, Error)]
pub enum NoScan {
    #[error("out of memory")]
    NoMem,
    #[error("the strangers were not heard so")]
    NotHeard,
    #[error("the job is refused")]
    BadJob,
    #[error("the job is not done")]
    NotDone,
}

/// What it is told as that there is no world of a job.
fn no_scan(fault: WorldFault) -> NoScan
    ensures refused { result ≡ NoScan.BadJob → fault ≢ faults.NoMem }
    ensures begun { result ≢ NoScan.NotDone }
{
    match fault {
        WorldFault::NoMem => NoScan::NoMem,
        WorldFault::SameName
        | WorldFault::TooManyDevices
        | WorldFault::TooManyJobs
        | WorldFault::BadJob => NoScan::BadJob,
    }
}

/// Whether the world's one job is done.
fn is_done(world: &EventWorld<Scanner>) -> bool
    ensures done { let w = seen_world scanner_state world.now in
        result ≡ true → (reports : Reports) × (outcome_at w 0 ≡ Some (Done reports)) }
    ensures other { let w = seen_world scanner_state world.now in
        result ≡ false → IsNotDone w }
{
    match world.outcome(0) {
        Some(Outcome::Done(_)) => true,
        Some(Outcome::Running) | Some(Outcome::Ended(_, _)) | None => false,
    }
}

/// Whether it was answered DEVICE_BUSY.
fn was_busy(world: &EventWorld<Scanner>) -> bool
    ensures { let w = seen_world scanner_state world.now in
        result ≡ true → outcome_at w 0 ≡ Some (Ended DeviceBusy Answer) }
{
    match world.outcome(0) {
        Some(Outcome::Ended(Status::DeviceBusy, Why::Answer)) => true,
        Some(_) | None => false,
    }
}

/// Scans on a flatbed with this page, behind strangers who came, and answers the file. One says garbage, another one takes the
/// flatbed and is lost, and a third one stays to the end.
pub fn scan_among_strangers(
    alloc: Global,
    name: Text,
    page: Page,
    users: Users,
    job: Job,
) -> Result<Vec<u8>, NoScan>
    /// There is such a history of a new world: a stranger's session was fed garbage and ended, another one had the flatbed and
    /// was lost, a third one greeted, and stood to the end. The job is done, with this file.
    ensures scanned { IfOk result (λ file. ScannedAmong name page users job file.items) }
    /// Where it scans, that file is of the picture that its settings mean on that very page.
    ensures meant { IfOk result
        (λ file. job.task ≡ tasks.Scan → IsScanOf page job file.items) }
    /// It is refused only where no client takes it.
    ensures bad_job { result ≡ Err NoScan.BadJob → ¬ IsFitJob job }
    /// If the job is not done, there is such a history up to where it has no move left, and no file of it is whole.
    ensures not_done { result ≡ Err NoScan.NotDone → UnscannedAmong name page users job }
{
    what_stands_below();
    let Ok(asked) = name.try_clone(alloc) else {
        return Err(NoScan::NoMem);
    };
    let Some(mut daemon) = daemon_on(alloc, name, page, users) else {
        return Err(NoScan::NoMem);
    };
    let Some(second) = take_among_strangers(alloc, &mut daemon, &asked) else {
        return Err(NoScan::NotHeard);
    };
    if !lose_and_stay(alloc, &mut daemon, second) {
        return Err(NoScan::NotHeard);
    }
    let Some(jobs) = one_job(alloc, job) else {
        return Err(NoScan::NoMem);
    };
    let mut world = match EventWorld::beside_daemon(alloc, daemon, jobs) {
        Ok(world) => world,
        Err((fault, _daemon)) => return Err(no_scan(fault)),
    };
    world.run_all();
    if !is_done(&world) {
        return Err(NoScan::NotDone);
    }
    let Some(file) = world.file(0) else {
        return Err(NoScan::NoMem);
    };
    let Some(copy) = copied(alloc, file) else {
        return Err(NoScan::NoMem);
    };
    Ok(copy)
}

/// The same job while a stranger has the flatbed, to its end. Whether it was answered DEVICE_BUSY.
pub fn is_busy_among_strangers(
    alloc: Global,
    name: Text,
    page: Page,
    users: Users,
    job: Job,
) -> bool
    /// There is a history of a new world in which a stranger has the flatbed as the job asks and to the end. The job ended as
    /// answered DEVICE_BUSY, and no file of it is whole.
    ensures { result ≡ true → BusyAmong name page users job }
{
    what_stands_below();
    let Ok(asked) = name.try_clone(alloc) else {
        return false;
    };
    let Some(mut daemon) = daemon_on(alloc, name, page, users) else {
        return false;
    };
    let Some(_second) = take_among_strangers(alloc, &mut daemon, &asked) else {
        return false;
    };
    let Some(jobs) = one_job(alloc, job) else {
        return false;
    };
    let Ok(mut world) = EventWorld::beside_daemon(alloc, daemon, jobs) else {
        return false;
    };
    world.run_all();
    was_busy(&world)
}
