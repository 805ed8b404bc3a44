//! A show.

ghost use Rattle.std.specs.Prelude.{◌≡◌, true, [], ◌∷◌};
ghost use Rattle.scan_job.specs.declared.job.Task.TheVariants as tasks;
ghost use Rattle.worked_worlds.specs.Worked.{ShowsOptions, flatbed_with};

use crate::ends::is_done;
use crate::worlds::{flatbed_on, one_box, one_job};
use md5_auth::Users;
use net_backend::Job;
use page_picture::Page;
use sane_fixed::Text;
use scan_world::World;
use std::alloc::Global;

/// Shows the options of a flatbed. Whether the job is done.
pub fn show_options(alloc: Global, name: Text, page: Page, users: Users, job: Job) -> bool
    /// A show of a flatbed that is done tells its options as the job's settings put them in force from its defaults on.
    ensures { result ≡ true → job.task ≡ tasks.Show
        → ShowsOptions (flatbed_with name page ∷ []) users job }
{
    let Some(flatbed) = flatbed_on(alloc, name, page) else {
        return false;
    };
    let Ok(scanner) = Box::new(alloc, flatbed) else {
        return false;
    };
    let Some(devices) = one_box(alloc, scanner) else {
        return false;
    };
    let Some(jobs) = one_job(alloc, job) else {
        return false;
    };
    let Ok(mut world) = World::new(alloc, devices, users, [0; 32], jobs) else {
        return false;
    };
    world.run_all();
    is_done(&world)
}
