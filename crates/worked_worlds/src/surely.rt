//! A scan that surely gives a file.

ghost use Rattle.std.specs.Prelude.{◌≡◌, ◌⊎◌, IfErr, IfOk, [], ◌∷◌};
ghost use Rattle.scan_job.specs.declared.job.Task.TheVariants as tasks;
ghost use Rattle.event_world.specs.declared.world_fault.WorldFault.TheVariants as faults;
ghost use Rattle.scan_world.specs.Examples.{IsScanOf};
ghost use Rattle.worked_worlds.specs.Worked.{HasBrokenOff, IsPlainScan, flatbed_with};

use crate::ends::{End, end_of};
use crate::worlds::{copied, flatbed_on, one_box, one_job};
use md5_auth::Users;
use net_backend::Job;
use page_picture::Page;
use sane_fixed::Text;
use scan_world::{World, WorldFault, a_plain_job_is_clear};
use std::alloc::Global;
use thiserror::Error;

/// Why there is no file.
#[derive(Clone, Copy, Debug, PartialEq, Eq, Error)]
pub enum NoFile {
    #[error("out of memory")]
    NoMem,
    #[error("a client refuses the job")]
    BadJob,
    #[error("the session broke off")]
    BrokenOff,
    #[error("fewer than two pages were finished")]
    TooFewPages,
}

/// What a refusal of the world comes to.
pub(crate) fn no_file(fault: WorldFault) -> NoFile
    ensures { fault ≡ faults.NoMem → result ≡ NoFile.NoMem }
{
    match fault {
        WorldFault::NoMem => NoFile::NoMem,
        WorldFault::SameName
        | WorldFault::TooManyDevices
        | WorldFault::TooManyJobs
        | WorldFault::BadJob => NoFile::BadJob,
    }
}

/// Scans on a flatbed with this page, over the net, and answers the file.
pub fn scan_surely(
    alloc: Global,
    name: Text,
    page: Page,
    users: Users,
    job: Job,
) -> Result<Vec<u8>, NoFile>
    /// The file is of the picture that the job's settings mean on that very page.
    ensures ok { IfOk result (λ bytes. job.task ≡ tasks.Scan → IsScanOf page job bytes.items) }
    /// There is one for a job that names the flatbed, if its settings can be in force there and mean a picture on its page, and
    /// its password is right if a line of the users names its backend. Else memory ran out, or the session of the job broke off,
    /// which its next move told.
    /// Carried by: `err` of `scan_surely`: `IsPlainScan`, `HasBrokenOff`
    ensures err { IfErr result (λ why. IsPlainScan name page users job → (why ≡ NoFile.NoMem)
        ⊎ ((why ≡ NoFile.BrokenOff) × HasBrokenOff (flatbed_with name page ∷ []) users job)) }
{
    a_plain_job_is_clear();
    let Some(flatbed) = flatbed_on(alloc, name, page) else {
        return Err(NoFile::NoMem);
    };
    let Ok(scanner) = Box::new(alloc, flatbed) else {
        return Err(NoFile::NoMem);
    };
    let Some(devices) = one_box(alloc, scanner) else {
        return Err(NoFile::NoMem);
    };
    let Some(jobs) = one_job(alloc, job) else {
        return Err(NoFile::NoMem);
    };
    let mut world = match World::new(alloc, devices, users, [0; 32], jobs) {
        Ok(world) => world,
        Err((fault, _)) => return Err(no_file(fault)),
    };
    world.run_all();
    match end_of(&world) {
        End::Done => {}
        End::OutOfMemory => return Err(NoFile::NoMem),
        End::Other => return Err(NoFile::BrokenOff),
    }
    let Some(file) = world.file(0) else {
        return Err(NoFile::NoMem);
    };
    let Some(copy) = copied(alloc, file) else {
        return Err(NoFile::NoMem);
    };
    Ok(copy)
}
