//! What worlds of one job are made of.

ghost use Rattle.std.specs.Prelude.{◌≡◌, IfSome, [], ◌∷◌};
ghost use Rattle.worked_worlds.specs.Worked.{flatbed_with};

use device_api::Device;
use flatbed_dev::Flatbed;
use net_backend::Job;
use page_picture::Page;
use page_sources::{MemoryPage, Source};
use sane_fixed::{ByteOrder, Text};
use std::alloc::Global;

/// A flatbed of that name with this page in memory; `None` where memory runs out.
pub fn flatbed_on(alloc: Global, name: Text, page: Page) -> Option<Flatbed>
    /// What worked worlds are made of: a flatbed of that name with that page in memory; one job, and no other; the same
    /// bytes once more. Each is none where memory runs out.
    /// Carried by: `flatbed_on`, `one_job`, `copied`
    ensures { IfSome result (λ flatbed. flatbed ≡ flatbed_with name page) }
{
    Flatbed::new(
        alloc,
        name,
        Source::Memory(MemoryPage::new(page)),
        ByteOrder::Little,
    )
    .ok()
}

/// One box.
pub(crate) fn one_box(alloc: Global, device: Box<dyn Device>) -> Option<Vec<Box<dyn Device>>>
    ensures { IfSome result (λ boxes. boxes.items ≡ device ∷ []) }
{
    let mut boxes = Vec::new(alloc);
    if boxes.push(device).is_err() {
        return None;
    }
    Some(boxes)
}

/// The bytes, once more; `None` where memory runs out.
pub fn copied(alloc: Global, bytes: &[u8]) -> Option<Vec<u8>>
    ensures { IfSome result (λ copy. copy.items ≡ bytes.now) }
{
    let mut copy = Vec::new(alloc);
    if copy.extend_from_slice(bytes).is_err() {
        return None;
    }
    Some(copy)
}

/// One job; `None` where memory runs out.
pub fn one_job(alloc: Global, job: Job) -> Option<Vec<Job>>
    ensures { IfSome result (λ jobs. jobs.items ≡ job ∷ []) }
{
    let mut jobs = Vec::new(alloc);
    if jobs.push(job).is_err() {
        return None;
    }
    Some(jobs)
}
