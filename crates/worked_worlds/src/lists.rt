//! A list.

ghost use Rattle.std.specs.Prelude.{◌≡◌, true, [], ◌∷◌};
ghost use Rattle.scan_job.specs.declared.job.Task.TheVariants as tasks;
ghost use Rattle.worked_worlds.specs.Worked.{ListsAll, flatbed_with};

use crate::ends::is_done;
use crate::worlds::{flatbed_on, one_box, one_job};
use md5_auth::Users;
use net_backend::Job;
use page_picture::Page;
use sane_fixed::Text;
use scan_world::{World, all_are_listed};
use std::alloc::Global;

/// Lists two flatbeds. Whether the job is done.
pub fn list_both(
    alloc: Global,
    name: Text,
    page: Page,
    other_name: Text,
    other_page: Page,
    users: Users,
    job: Job,
) -> bool
    /// A list of two flatbeds that is done tells both, once, in their order.
    ensures { result ≡ true → job.task ≡ tasks.List
        → ListsAll (flatbed_with name page ∷ flatbed_with other_name other_page ∷ []) users job }
{
    all_are_listed();
    let Some(flatbed) = flatbed_on(alloc, name, page) else {
        return false;
    };
    let Ok(scanner) = Box::new(alloc, flatbed) else {
        return false;
    };
    let Some(other_flatbed) = flatbed_on(alloc, other_name, other_page) else {
        return false;
    };
    let Ok(other) = Box::new(alloc, other_flatbed) else {
        return false;
    };
    let Some(mut devices) = one_box(alloc, scanner) else {
        return false;
    };
    if devices.push(other).is_err() {
        return false;
    }
    let Some(jobs) = one_job(alloc, job) else {
        return false;
    };
    let Ok(mut world) = World::new(alloc, devices, users, [0; 32], jobs) else {
        return false;
    };
    world.run_all();
    is_done(&world)
}
