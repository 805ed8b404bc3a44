//! A scan of a device that is taken out.

ghost use Rattle.std.specs.Prelude.{◌≡◌, ◌≢◌, IfSome, None, true, [], ◌∷◌};
ghost use Rattle.page_picture.specs.Meaning.{meaning_of};
ghost use Rattle.page_picture.specs.declared.scene.DeviceKind.TheVariants.{Flatbed};
ghost use Rattle.device_api.specs.Values.{defaults};
ghost use Rattle.sane_fixed.specs.declared.byte_order.ByteOrder.TheVariants.{Little};
ghost use Rattle.event_world.specs.declared.event.Event.TheVariants.{Unplug};
ghost use Rattle.worked_worlds.specs.Worked.{WasUnlisted, flatbed_with};

use crate::ends::was_invalid;
use crate::worlds::{flatbed_on, one_box, one_job};
use md5_auth::Users;
use net_backend::Job;
use page_picture::Page;
use sane_fixed::Text;
use scan_world::{Event, World};
use std::alloc::Global;

/// The device of that name is taken out.
fn taken_out(alloc: Global, name: Text) -> Option<Vec<Event>>
    ensures { IfSome result (λ events. events.items ≡ Unplug name ∷ []) }
{
    let mut events = Vec::new(alloc);
    if events.push(Event::Unplug(name)).is_err() {
        return None;
    }
    Some(events)
}

/// Scans on a flatbed that is taken out before, by its name. Whether that was answered INVAL.
pub fn scan_of_taken_out(
    alloc: Global,
    name: Text,
    page: Page,
    taken: Text,
    users: Users,
    job: Job,
) -> bool
    /// A job without settings on a flatbed whose page means a picture at its defaults, and which was taken out, is answered INVAL
    /// since that was not listed as the job asked for it.
    ensures { result ≡ true → job.settings.items ≡ [] → job.device ≡ name
        → meaning_of page (defaults Flatbed Little).scene ≢ None
        → WasUnlisted (flatbed_with name page ∷ []) users job }
{
    let Some(flatbed) = flatbed_on(alloc, name, page) else {
        return false;
    };
    let Ok(scanner) = Box::new(alloc, flatbed) else {
        return false;
    };
    let Some(devices) = one_box(alloc, scanner) else {
        return false;
    };
    let Some(events) = taken_out(alloc, taken) else {
        return false;
    };
    let Some(jobs) = one_job(alloc, job) else {
        return false;
    };
    let Ok(mut world) = World::new(alloc, devices, users, [0; 32], jobs) else {
        return false;
    };
    world.run(events);
    world.run_all();
    was_invalid(&world)
}
