//! A batch of two pages on a feeder with three of one gray dot, whose files are told byte by byte.

ghost use Rattle.std.specs.Prelude.{◌≡◌, IfErr, IfOk, IfSome, [], ◌∷◌};
ghost use Rattle.page_sources.specs.SourceView.{source_state};
ghost use Rattle.event_world.specs.Worlds.{seen_world};
ghost use Rattle.worked_worlds.specs.DotFiles.{CameOff, dot_file, feeder_of_three, one_dot};
ghost use Rattle.worked_worlds.specs.Inside.{HasNotTwo, HasTwoFiles};
ghost use Rattle.worked_worlds.specs.Worked.{memory_source};

use crate::dots::{a_dot_is_one_byte, dot_job, dot_page, nobody, text_of};
use crate::ends::{End, end_of};
use crate::surely::{NoFile, no_file};
use crate::tray::first_files;
use crate::worlds::{one_box, one_job};
use device_api::Device;
use flatbed_dev::Feeder;
use net_backend::Task;
use page_sources::{MemoryPage, Source};
use sane_fixed::ByteOrder;
use scan_world::{World, a_plain_job_is_clear};
use std::alloc::Global;

/// A page of one gray dot, from memory.
fn dot_source(alloc: Global, gray: u8) -> Option<Source>
    ensures { IfSome result (λ page. source_state page ≡ memory_source (one_dot gray)) }
{
    let page = dot_page(alloc, gray)?;
    Some(Source::Memory(MemoryPage::new(page)))
}

/// A feeder with three pages of one gray dot.
fn dot_feeder(alloc: Global, first: u8, second: u8, third: u8) -> Option<Feeder>
    ensures { IfSome result (λ feeder. feeder ≡ feeder_of_three first second third) }
{
    let pages = [
        dot_source(alloc, first)?,
        dot_source(alloc, second)?,
        dot_source(alloc, third)?,
    ];
    let pages = Vec::from_array(alloc, pages).ok()?;
    Feeder::new(
        alloc,
        text_of(alloc, b"feeder:0")?,
        pages,
        ByteOrder::Little,
    )
    .ok()
}

/// The files of a batch that is done with two pages.
fn two_files(alloc: Global, world: &World) -> Result<(Vec<u8>, Vec<u8>), NoFile>
    ensures ok { let w = seen_world ⟦<Box<dyn Device> as Device>⟧.state world.now.inner in
        IfOk result (λ files. HasTwoFiles w files.0.items files.1.items) }
    ensures err { let w = seen_world ⟦<Box<dyn Device> as Device>⟧.state world.now.inner in
        IfErr result (HasNotTwo w) }
{
    match end_of(world) {
        End::Done => {}
        End::OutOfMemory => return Err(NoFile::NoMem),
        End::Other => return Err(NoFile::BrokenOff),
    }
    if world.finished(0) != 2 {
        return Err(NoFile::TooFewPages);
    }
    let Some(files) = first_files(alloc, world) else {
        return Err(NoFile::NoMem);
    };
    Ok(files)
}

/// Scans a batch of two pages on a feeder with three of one gray dot, over the net, and answers its two files.
pub fn scan_two_of_three(
    alloc: Global,
    first: u8,
    second: u8,
    third: u8,
) -> Result<(Vec<u8>, Vec<u8>), NoFile>
    /// A batch of two pages on a feeder with three of one gray dot gives two such files, of the first page's gray and of
    /// the second one's, and finishes no third.
    /// Carried by: `first`, `second`, `err` of `scan_two_of_three`: `dot_file`
    ensures first { IfOk result (λ files. files.0.items ≡ dot_file first) }
    ensures second { IfOk result (λ files. files.1.items ≡ dot_file second) }
    ensures err { IfErr result (CameOff (feeder_of_three first second third ∷ [])) }
{
    a_plain_job_is_clear();
    a_dot_is_one_byte();
    let Some(feeder) = dot_feeder(alloc, first, second, third) else {
        return Err(NoFile::NoMem);
    };
    let Ok(scanner) = Box::new(alloc, feeder) else {
        return Err(NoFile::NoMem);
    };
    let Some(devices) = one_box(alloc, scanner) else {
        return Err(NoFile::NoMem);
    };
    let Some(job) = dot_job(alloc, b"feeder:0", Task::Batch(2)) else {
        return Err(NoFile::NoMem);
    };
    let Some(jobs) = one_job(alloc, job) else {
        return Err(NoFile::NoMem);
    };
    let Some(users) = nobody(alloc) else {
        return Err(NoFile::NoMem);
    };
    let mut world = match World::new(alloc, devices, users, [0; 32], jobs) {
        Ok(world) => world,
        Err((fault, _)) => return Err(no_file(fault)),
    };
    world.run_all();
    two_files(alloc, &world)
}
