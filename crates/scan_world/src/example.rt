//! Worked examples: from the box of a scanner with a page in memory to the bytes of a file.

ghost use Rattle.std.specs.Prelude.{◌≡◌, IfSome, true};
ghost use Rattle.scan_job.specs.declared.job.Task.TheVariants as tasks;
ghost use Rattle.scan_job.specs.declared.outcome.Outcome.TheVariants as outcomes;
ghost use Rattle.event_world.specs.JobEvents.{is_done};
ghost use Rattle.scan_world.specs.Examples.{HasExplanation, IsScanOf, until_busy};

use crate::world::World;
use device_api::Device;
use event_world::Event;
use flatbed_dev::Flatbed;
use md5_auth::Users;
use net_backend::{Job, Outcome, Why};
use page_picture::Page;
use page_sources::{MemoryPage, Source};
use sane_fixed::{ByteOrder, Status, Text};
use std::alloc::Global;

/// The events by which the first client opens the device, and then the second one is told that it is busy.
fn both_ask(alloc: Global) -> Option<Vec<Event>>
    ensures { IfSome result (λ events. events.items ≡ until_busy) }
{
    let events = [
        Event::Connect(0),
        Event::ToDaemon(0, 4096),
        Event::ToClient(0, 4096),
        Event::ToDaemon(0, 4096),
        Event::Connect(1),
        Event::ToDaemon(1, 4096),
        Event::ToClient(1, 4096),
        Event::ToDaemon(1, 4096),
        Event::ToClient(1, 4096),
    ];
    match Vec::from_array(alloc, events) {
        Ok(events) => Some(events),
        Err(_) => None,
    }
}

fn is_done(outcome: &Outcome) -> bool
    ensures { result ≡ is_done outcome.now }
{
    match outcome {
        Outcome::Done(_) => true,
        Outcome::Running | Outcome::Ended(_, _) => false,
    }
}

/// Whether the job ended as told that its device is busy.
fn is_busy(outcome: &Outcome) -> bool
    ensures { result ≡ true → outcome.now ≡ outcomes.Ended Status.DeviceBusy Why.Answer }
{
    matches!(outcome, Outcome::Ended(Status::DeviceBusy, Why::Answer))
}

/// Does one scan on a flatbed with this page, over the net: next moves until no client runs. Where the scan is done, its bytes
/// are the file of the picture that the job's settings mean on this very page.
pub fn scan_once(alloc: Global, name: Text, page: Page, users: Users, job: Job) -> Option<Vec<u8>>
    /// From a box with a page in memory to the bytes of a file: these are of the picture that the job's settings mean
    /// on that very page.
    ensures { IfSome result (λ bytes. job.task ≡ tasks.Scan → IsScanOf page job bytes.items) }
{
    let source = Source::Memory(MemoryPage::new(page));
    let Ok(flatbed) = Flatbed::new(alloc, name, source, ByteOrder::Little) else {
        return None;
    };
    let Ok(scanner) = Box::new(alloc, flatbed) else {
        return None;
    };
    let mut devices: Vec<Box<dyn Device>> = Vec::new(alloc);
    if devices.push(scanner).is_err() {
        return None;
    }
    let mut jobs = Vec::new(alloc);
    if jobs.push(job).is_err() {
        return None;
    }
    let Ok(mut world) = World::new(alloc, devices, users, [0; 32], jobs) else {
        return None;
    };
    world.run_all();
    if !is_done(world.outcome(0)?) {
        return None;
    }
    let mut bytes = Vec::new(alloc);
    if bytes.extend_from_slice(world.file(0)?).is_err() {
        return None;
    }
    Some(bytes)
}

/// Does one scan on a flatbed with this page as `scan_once` does, beside another flatbed with a page of whatever source: that takes
/// nothing from a job that names the first.
pub fn scan_with_another(
    alloc: Global,
    name: Text,
    page: Page,
    other_name: Text,
    other_source: Source,
    users: Users,
    job: Job,
) -> Option<Vec<u8>>
    /// So it is beside another box whose page is of whatever source, for a job that names the first.
    ensures { IfSome result
        (λ bytes. job.device ≡ name → job.task ≡ tasks.Scan → IsScanOf page job bytes.items) }
{
    let source = Source::Memory(MemoryPage::new(page));
    let Ok(flatbed) = Flatbed::new(alloc, name, source, ByteOrder::Little) else {
        return None;
    };
    let Ok(scanner) = Box::new(alloc, flatbed) else {
        return None;
    };
    let Ok(other_flatbed) = Flatbed::new(alloc, other_name, other_source, ByteOrder::Little) else {
        return None;
    };
    let Ok(other) = Box::new(alloc, other_flatbed) else {
        return None;
    };
    let mut devices: Vec<Box<dyn Device>> = Vec::new(alloc);
    if devices.push(scanner).is_err() {
        return None;
    }
    if devices.push(other).is_err() {
        return None;
    }
    let mut jobs = Vec::new(alloc);
    if jobs.push(job).is_err() {
        return None;
    }
    let Ok(mut world) = World::new(alloc, devices, users, [0; 32], jobs) else {
        return None;
    };
    world.run_all();
    if !is_done(world.outcome(0)?) {
        return None;
    }
    let mut bytes = Vec::new(alloc);
    if bytes.extend_from_slice(world.file(0)?).is_err() {
        return None;
    }
    Some(bytes)
}

/// Two clients want one flatbed with this page, and the second asks while the first one has it. Answers the file of the first
/// one's scan, and whether the second ended as told that the device is busy: then its cause is in the table.
pub fn scan_beside(
    alloc: Global,
    name: Text,
    page: Page,
    users: Users,
    first: Job,
    second: Job,
) -> Option<(Vec<u8>, bool)>
    /// So it is where a second client asks for the device meanwhile; where it ends as told that it is busy, its cause
    /// is in the table.
    /// Carried by: `scanned`, `busy` of `scan_beside`
    ensures scanned { IfSome result
        (λ both. first.task ≡ tasks.Scan → IsScanOf page first both.0.items) }
    ensures busy { IfSome result (λ both. both.1 ≡ true → HasExplanation first second) }
{
    let source = Source::Memory(MemoryPage::new(page));
    let Ok(flatbed) = Flatbed::new(alloc, name, source, ByteOrder::Little) else {
        return None;
    };
    let Ok(scanner) = Box::new(alloc, flatbed) else {
        return None;
    };
    let mut devices: Vec<Box<dyn Device>> = Vec::new(alloc);
    if devices.push(scanner).is_err() {
        return None;
    }
    let mut jobs = Vec::new(alloc);
    if jobs.push(first).is_err() {
        return None;
    }
    if jobs.push(second).is_err() {
        return None;
    }
    let Ok(mut world) = World::new(alloc, devices, users, [0; 32], jobs) else {
        return None;
    };
    world.run(both_ask(alloc)?);
    world.run_all();
    let was_busy = is_busy(world.outcome(1)?);
    if !is_done(world.outcome(0)?) {
        return None;
    }
    let mut bytes = Vec::new(alloc);
    if bytes.extend_from_slice(world.file(0)?).is_err() {
        return None;
    }
    Some((bytes, was_busy))
}
