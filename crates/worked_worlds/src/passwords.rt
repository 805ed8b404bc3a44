//! Scans of a device that a line of the users guards, with the right password and with a wrong one.

ghost use Rattle.std.specs.Prelude.{◌≡◌, true, [], ◌∷◌};
ghost use Rattle.scan_job.specs.declared.job.Task.TheVariants as tasks;
ghost use Rattle.worked_worlds.specs.Worked.{IsDisallowed, LedFrom, WasPassed, flatbed_with};

use crate::ends::{is_done, was_denied};
use crate::worlds::{flatbed_on, one_box, one_job};
use md5_auth::Users;
use net_backend::Job;
use page_picture::Page;
use sane_fixed::Text;
use scan_world::World;
use std::alloc::Global;

/// Scans on a flatbed whose backend these users may guard. Whether the job is done.
pub fn scan_with_password(alloc: Global, name: Text, page: Page, users: Users, job: Job) -> bool
    /// A scan that is done of a device which a line of the users guards was of a user and password that are allowed for
    /// a challenge.
    ensures { result ≡ true → job.task ≡ tasks.Scan
        → WasPassed (flatbed_with name page ∷ []) users job }
{
    let Some(flatbed) = flatbed_on(alloc, name, page) else {
        return false;
    };
    let Ok(scanner) = Box::new(alloc, flatbed) else {
        return false;
    };
    let Some(devices) = one_box(alloc, scanner) else {
        return false;
    };
    let Some(jobs) = one_job(alloc, job) else {
        return false;
    };
    let Ok(mut world) = World::new(alloc, devices, users, [0; 32], jobs) else {
        return false;
    };
    world.run_all();
    is_done(&world)
}

/// Scans on a flatbed whose backend these users may guard. Whether that was answered ACCESS_DENIED.
pub fn scan_with_wrong_password(
    alloc: Global,
    name: Text,
    page: Page,
    users: Users,
    job: Job,
) -> bool
    /// A job without settings that is answered ACCESS_DENIED was one that the users do not allow, for the challenge that was sent.
    ensures { result ≡ true → job.settings.items ≡ []
        → (from : LedFrom (flatbed_with name page ∷ []) users job)
        × IsDisallowed from.history from.world 0 job }
{
    let Some(flatbed) = flatbed_on(alloc, name, page) else {
        return false;
    };
    let Ok(scanner) = Box::new(alloc, flatbed) else {
        return false;
    };
    let Some(devices) = one_box(alloc, scanner) else {
        return false;
    };
    let Some(jobs) = one_job(alloc, job) else {
        return false;
    };
    let Ok(mut world) = World::new(alloc, devices, users, [0; 32], jobs) else {
        return false;
    };
    world.run_all();
    was_denied(&world)
}
