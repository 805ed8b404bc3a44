//! A batch of two pages that surely gives both files.

ghost use Rattle.std.specs.Prelude.{◌≡◌, ◌⊎◌, IfErr, IfOk};
ghost use Rattle.worked_worlds.specs.Worked.{HasBrokenOff, IsFedScanOf, IsPlainBatch, feeder_of_two};

use crate::ends::{End, end_of};
use crate::surely::{NoFile, no_file};
use crate::tray::{feeder_on, first_files};
use crate::worlds::{one_box, one_job};
use md5_auth::Users;
use net_backend::Job;
use page_picture::Page;
use sane_fixed::Text;
use scan_world::{World, a_plain_job_is_clear};
use std::alloc::Global;

/// A batch on a feeder with these two pages, over the net, and both files.
pub fn scan_both_surely(
    alloc: Global,
    name: Text,
    first: Page,
    second: Page,
    users: Users,
    job: Job,
) -> Result<(Vec<u8>, Vec<u8>), NoFile>
    /// The first file is of the picture that the job's settings mean on the first page.
    ensures first_file { IfOk result (λ files. IsFedScanOf first job files.0.items) }
    /// The second file is of the picture that they mean on the second page.
    ensures second_file { IfOk result (λ files. IsFedScanOf second job files.1.items) }
    /// There are both for a batch of two that names the feeder, if its settings can be in force there and mean a picture on each
    /// page, and its password is right if a line of the users names its backend. Else memory ran out, or the session of the job
    /// broke off, which its next move told.
    /// Carried by: `err` of `scan_both_surely`: `IsPlainBatch`, `HasBrokenOff`
    ensures err { IfErr result (λ why. IsPlainBatch name first second users job
        → (why ≡ NoFile.NoMem)
        ⊎ ((why ≡ NoFile.BrokenOff) × HasBrokenOff (feeder_of_two name first second) users job)) }
{
    a_plain_job_is_clear();
    let Some(feeder) = feeder_on(alloc, name, first, second) else {
        return Err(NoFile::NoMem);
    };
    let Ok(scanner) = Box::new(alloc, feeder) else {
        return Err(NoFile::NoMem);
    };
    let Some(devices) = one_box(alloc, scanner) else {
        return Err(NoFile::NoMem);
    };
    let Some(jobs) = one_job(alloc, job) else {
        return Err(NoFile::NoMem);
    };
    let mut world = match World::new(alloc, devices, users, [0; 32], jobs) {
        Ok(world) => world,
        Err((fault, _)) => return Err(no_file(fault)),
    };
    world.run_all();
    match end_of(&world) {
        End::Done => {}
        End::OutOfMemory => return Err(NoFile::NoMem),
        End::Other => return Err(NoFile::BrokenOff),
    }
    if world.finished(0) < 2 {
        return Err(NoFile::TooFewPages);
    }
    let Some(files) = first_files(alloc, &world) else {
        return Err(NoFile::NoMem);
    };
    Ok(files)
}
