//! Scans on a feeder: with an empty tray, and a batch of two pages.

ghost use Rattle.std.specs.Prelude.{◌≡◌, IfSome, true, List, [], ◌∷◌, map};
ghost use Rattle.page_sources.specs.SourceView.{source_state};
ghost use Rattle.page_picture.specs.Page.{PageView};
ghost use Rattle.device_api.specs.State.{DeviceState};
ghost use Rattle.event_world.specs.Worlds.{seen_world};
ghost use Rattle.scan_world.specs.Endings.{HadNoPage};
ghost use Rattle.worked_worlds.specs.Inside.{IsKeptPage};
ghost use Rattle.worked_worlds.specs.Worked.{AreScans, LedFrom, feeder_with, memory_source};

use crate::ends::had_no_docs;
use crate::worlds::{copied, one_box, one_job};
use device_api::Device;
use flatbed_dev::Feeder;
use md5_auth::Users;
use net_backend::Job;
use page_picture::Page;
use page_sources::{MemoryPage, Source};
use sane_fixed::{ByteOrder, Text};
use scan_world::World;
use std::alloc::Global;

/// Scans on a feeder with an empty tray. Whether that was answered NO_DOCS.
pub fn scan_no_page(alloc: Global, name: Text, users: Users, job: Job) -> bool
    /// A job without settings on a feeder with an empty tray is answered NO_DOCS since the device that it had had no page, as it
    /// asked for its first start.
    ensures { result ≡ true → job.settings.items ≡ []
        → (from : LedFrom (feeder_with name [] ∷ []) users job)
        × HadNoPage from.history from.world 0 job 0 }
{
    let Ok(feeder) = Feeder::new(alloc, name, Vec::new(alloc), ByteOrder::Little) else {
        return false;
    };
    let Ok(scanner) = Box::new(alloc, feeder) else {
        return false;
    };
    let Some(devices) = one_box(alloc, scanner) else {
        return false;
    };
    let Some(jobs) = one_job(alloc, job) else {
        return false;
    };
    let Ok(mut world) = World::new(alloc, devices, users, [0; 32], jobs) else {
        return false;
    };
    world.run_all();
    had_no_docs(&world)
}

/// These pages, from memory.
fn both_pages(alloc: Global, first: Page, second: Page) -> Option<Vec<Source>>
    ensures { IfSome result (λ pages. map source_state pages.items
        ≡ memory_source first ∷ memory_source second ∷ []) }
{
    let pages = [
        Source::Memory(MemoryPage::new(first)),
        Source::Memory(MemoryPage::new(second)),
    ];
    Vec::from_array(alloc, pages).ok()
}

/// A feeder of that name with these two pages in memory.
pub(crate) fn feeder_on(alloc: Global, name: Text, first: Page, second: Page) -> Option<Feeder>
    ensures { IfSome result (λ feeder. feeder ≡ feeder_with name (first ∷ second ∷ [])) }
{
    let pages = both_pages(alloc, first, second)?;
    Feeder::new(alloc, name, pages, ByteOrder::Little).ok()
}

/// The files of the first two pages that the job finished, where both are there.
pub(crate) fn first_files(alloc: Global, world: &World) -> Option<(Vec<u8>, Vec<u8>)>
    ensures { let w = seen_world ⟦<Box<dyn Device> as Device>⟧.state world.now.inner in
        IfSome result (λ files. IsKeptPage w 1 files.0.items × IsKeptPage w 2 files.1.items) }
{
    let first = copied(alloc, world.file_at(0, 1)?)?;
    let second = copied(alloc, world.file_at(0, 2)?)?;
    Some((first, second))
}

/// A batch on a feeder with these two pages. The files of its first two pages, where it finished both.
pub fn scan_pages(
    alloc: Global,
    name: Text,
    first: Page,
    second: Page,
    users: Users,
    job: Job,
) -> Option<(Vec<u8>, Vec<u8>)>
    /// The files of the first two pages of a batch on a feeder are scans of the job, the second one of a start that it asked for
    /// as one page was finished.
    ensures { IfSome result (λ files. AreScans
        (feeder_with name (first ∷ second ∷ []) ∷ []) users job files.0.items files.1.items) }
{
    let feeder = feeder_on(alloc, name, first, second)?;
    let Ok(scanner) = Box::new(alloc, feeder) else {
        return None;
    };
    let devices = one_box(alloc, scanner)?;
    let jobs = one_job(alloc, job)?;
    let Ok(mut world) = World::new(alloc, devices, users, [0; 32], jobs) else {
        return None;
    };
    world.run_all();
    first_files(alloc, &world)
}
