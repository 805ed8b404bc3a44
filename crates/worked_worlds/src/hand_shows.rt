//! A show of a hand scanner, whose table is told option by option.

ghost use Rattle.std.specs.Prelude.{◌≡◌, IfErr, IfOk, IfSome, [], ◌∷◌, codes, map};
ghost use Rattle.event_world.specs.Worlds.{seen_world};
ghost use Rattle.worked_worlds.specs.DotFiles.{CameOff, one_dot};
ghost use Rattle.worked_worlds.specs.HandTable.{IsHandShow, hand_settings, hand_table, hand_with, shown_by_name};
ghost use Rattle.worked_worlds.specs.Inside.{HasNoFile, TellsTable};

use crate::dots::{dot_page, nobody, setting, text_of};
use crate::ends::{End, end_at};
use crate::surely::{NoFile, no_file};
use crate::worlds::{one_box, one_job};
use device_api::Device;
use hand_dev::HandScanner;
use net_backend::{Job, Outcome, Task};
use option_desc::{Descriptor, Value};
use page_sources::{MemoryPage, Source};
use sane_fixed::{ByteOrder, Text};
use scan_world::World;
use std::alloc::Global;

/// An option, as a show tells it.
#[derive(Drop)]
pub struct ShownOption {
    pub name: Text,
    /// What it says, where that can be read.
    pub value: Option<Value>,
}

/// A hand scanner with a page of one gray dot.
fn hand_on(alloc: Global, gray: u8) -> Option<HandScanner>
    ensures { IfSome result (λ hand. hand ≡ hand_with (codes "hand:0") (one_dot gray)) }
{
    let name = text_of(alloc, b"hand:0")?;
    let page = Source::Memory(MemoryPage::new(dot_page(alloc, gray)?));
    HandScanner::new(alloc, name, page, ByteOrder::Little).ok()
}

/// A job that shows its options behind one setting.
fn hand_job(alloc: Global) -> Option<Job>
    ensures { IfSome result (λ job. IsHandShow job) }
{
    let settings = [setting(alloc, b"resolution", b"160")?];
    Some(Job {
        user: text_of(alloc, b"")?,
        password: text_of(alloc, b"")?,
        device: text_of(alloc, b"hand:0")?,
        settings: Vec::from_array(alloc, settings).ok()?,
        task: Task::Show,
    })
}

/// The value, once more.
fn value_again(alloc: Global, value: &Option<Value>) -> Option<Option<Value>>
    ensures { IfSome result (λ again. again ≡ value.now) }
{
    match value {
        Some(value) => {
            let again = value.try_clone(alloc).ok()?;
            Some(Some(again))
        }
        None => Some(None),
    }
}

/// The options, each by its name.
fn by_name(alloc: Global, options: &[(Descriptor, Option<Value>)]) -> Option<Vec<ShownOption>>
    ensures { IfSome result (λ table. table.items ≡ map shown_by_name options.now) }
{
    let mut table = Vec::new(alloc);
    for (option, value) in options {
        let name = option.name.try_clone(alloc).ok()?;
        let value = value_again(alloc, value)?;
        table.push(ShownOption { name, value }).ok()?;
    }
    Some(table)
}

/// What the one job tells of options, where it is done.
fn table_of(alloc: Global, world: &World) -> Result<Vec<ShownOption>, NoFile>
    ensures ok { let w = seen_world ⟦<Box<dyn Device> as Device>⟧.state world.now.inner in
        IfOk result (λ table. TellsTable w table.items) }
    ensures err { let w = seen_world ⟦<Box<dyn Device> as Device>⟧.state world.now.inner in
        IfErr result (HasNoFile w 0) }
{
    match end_at(world, 0) {
        End::Done => {}
        End::OutOfMemory => return Err(NoFile::NoMem),
        End::Other => return Err(NoFile::BrokenOff),
    }
    let Some(Outcome::Done(reports)) = world.outcome(0) else {
        return Err(NoFile::NoMem);
    };
    let Some(table) = by_name(alloc, reports.options.as_slice()) else {
        return Err(NoFile::NoMem);
    };
    Ok(table)
}

/// Shows the options of a hand scanner over the net, behind a resolution of 160 dots per inch, and answers what each says.
pub fn show_hand(alloc: Global, gray: u8) -> Result<Vec<ShownOption>, NoFile>
    /// A show over the net of a hand scanner whose resolution is set to 160 tells exactly five options, in this order: how
    /// many there are, 5; mode, Gray; depth, 8; resolution, 150, the nearest that it has; and hand-scanner, yes.
    /// Carried by: `ok` of `show_hand`: `hand_table`
    ensures ok { IfOk result (λ table. table.items ≡ hand_table) }
    /// It tells them, but where memory ran out, or the session of the job broke off.
    /// Carried by: `err` of `show_hand`: `CameOff`
    ensures err { IfErr result
        (CameOff (hand_with (codes "hand:0") (one_dot gray) ∷ [])) }
{
    let Some(hand) = hand_on(alloc, gray) else {
        return Err(NoFile::NoMem);
    };
    let Ok(scanner) = Box::new(alloc, hand) else {
        return Err(NoFile::NoMem);
    };
    let Some(devices) = one_box(alloc, scanner) else {
        return Err(NoFile::NoMem);
    };
    let Some(job) = hand_job(alloc) else {
        return Err(NoFile::NoMem);
    };
    let Some(jobs) = one_job(alloc, job) else {
        return Err(NoFile::NoMem);
    };
    let Some(users) = nobody(alloc) else {
        return Err(NoFile::NoMem);
    };
    let mut world = match World::new(alloc, devices, users, [0; 32], jobs) {
        Ok(world) => world,
        Err((fault, _)) => return Err(no_file(fault)),
    };
    world.run_all();
    table_of(alloc, &world)
}
