//! Scans of pages of one gray dot, whose files are told byte by byte.

ghost use Rattle.std.specs.Prelude.{◌≡◌, ◌⊎◌, IfErr, IfOk, IfSome, [], ◌∷◌, codes};
ghost use Rattle.event_world.specs.Worlds.{seen_world};
ghost use Rattle.worked_worlds.specs.DotFiles.{CameOff, DotIsOneByte, FedDotIsOneByte, IsDotJob, both_dots, dot_file, dot_settings, one_dot};
ghost use Rattle.worked_worlds.specs.Inside.{AreDotJobs, HasDoneFile, HasNoFile};
ghost use Rattle.worked_worlds.specs.Worked.{feeder_of_two, flatbed_with};

use crate::both::scan_both_surely;
use crate::ends::{End, end_at};
use crate::surely::{NoFile, no_file, scan_surely};
use crate::worlds::{copied, flatbed_on, one_box, one_job};
use device_api::Device;
use flatbed_dev::Flatbed;
use md5_auth::Users;
use net_backend::{Job, Task};
use page_picture::Page;
use sane_fixed::Text;
use scan_world::World;
use std::alloc::Global;

/// What is written for a page of one gray dot.
#[tactic(none)]
pub fn a_dot_is_one_byte()
    /// A scan by the settings of 26 dots per inch and a window of 1 by 1 mm of a page of one gray dot, at 26 dots per
    /// inch, is exactly the file `P5`, `# SANE data follows`, `1 1`, `255`, a line each, and that gray as one byte: on a
    /// flatbed, and on a feeder.
    /// Carried by: `flatbed`, `feeder` of `a_dot_is_one_byte`: `dot_file`
    ensures flatbed { DotIsOneByte }
    ensures feeder { FedDotIsOneByte }
{}

/// The text of these bytes.
pub(crate) fn text_of(alloc: Global, bytes: &[u8]) -> Option<Text>
    ensures { IfSome result (λ text. text ≡ bytes.now) }
{
    Text::new(alloc, bytes).ok()
}

/// A page of one gray dot, at 26 dots per inch.
pub(crate) fn dot_page(alloc: Global, gray: u8) -> Option<Page>
    ensures { IfSome result (λ page. page ≡ one_dot gray) }
{
    let sample = u16::from(gray) * 257;
    let samples = Vec::from_array(alloc, [sample, sample, sample]).ok()?;
    Some(Page::new(1, 1, 26, samples))
}

/// No users.
pub(crate) fn nobody(alloc: Global) -> Option<Users>
    ensures { IfSome result (λ users. users ≡ []) }
{
    match Users::parse(alloc, b"") {
        Ok(users) => Some(users),
        Err(_) => None,
    }
}

/// A setting of that name to that text.
pub(crate) fn setting(alloc: Global, name: &[u8], text: &[u8]) -> Option<(Text, Text)>
    ensures { IfSome result (λ pair. pair ≡ (name.now, text.now)) }
{
    let name = text_of(alloc, name)?;
    let text = text_of(alloc, text)?;
    Some((name, text))
}

/// The settings for a window of 1 by 1 mm at 26 dots per inch.
fn one_dot_settings(alloc: Global) -> Option<Vec<(Text, Text)>>
    ensures { IfSome result (λ settings. settings.items ≡ dot_settings) }
{
    let settings = [
        setting(alloc, b"resolution", b"26")?,
        setting(alloc, b"br-x", b"1")?,
        setting(alloc, b"br-y", b"1")?,
    ];
    Vec::from_array(alloc, settings).ok()
}

/// A job of these settings for a device of that name.
pub(crate) fn dot_job(alloc: Global, name: &[u8], task: Task) -> Option<Job>
    ensures { IfSome result (λ job. IsDotJob name.now task job) }
{
    Some(Job {
        user: text_of(alloc, b"")?,
        password: text_of(alloc, b"")?,
        device: text_of(alloc, name)?,
        settings: one_dot_settings(alloc)?,
        task,
    })
}

/// Scans one gray dot on a flatbed, over the net, and answers the file.
pub fn scan_one_dot(alloc: Global, gray: u8) -> Result<Vec<u8>, NoFile>
    /// A scan over the net of one gray dot, 1 by 1 mm at 26 dots per inch, gives a file that is exactly `P5`, `# SANE data
    /// follows`, `1 1`, `255`, a line each, and that gray as one byte.
    ensures ok { IfOk result (λ file. file.items ≡ dot_file gray) }
    /// There is one, but where memory ran out, or the session of the job broke off.
    /// Carried by: `err` of `scan_one_dot`: `CameOff`
    ensures err { IfErr result
        (CameOff (flatbed_with (codes "flatbed:0") (one_dot gray) ∷ [])) }
{
    a_dot_is_one_byte();
    let Some(name) = text_of(alloc, b"flatbed:0") else {
        return Err(NoFile::NoMem);
    };
    let Some(page) = dot_page(alloc, gray) else {
        return Err(NoFile::NoMem);
    };
    let Some(users) = nobody(alloc) else {
        return Err(NoFile::NoMem);
    };
    let Some(job) = dot_job(alloc, b"flatbed:0", Task::Scan) else {
        return Err(NoFile::NoMem);
    };
    scan_surely(alloc, name, page, users, job)
}

/// Scans a batch of two gray dots on a feeder, over the net, and answers both files.
pub fn scan_dots(alloc: Global, first: u8, second: u8) -> Result<(Vec<u8>, Vec<u8>), NoFile>
    /// A batch of two pages of one gray dot each gives two such files: the first of the first page's gray, the second of
    /// the second one's.
    /// Carried by: `first`, `second` of `scan_dots`: `dot_file`
    ensures first { IfOk result (λ files. files.0.items ≡ dot_file first) }
    ensures second { IfOk result (λ files. files.1.items ≡ dot_file second) }
    /// There are both, but where memory ran out, or the session of the job broke off.
    /// Carried by: `err` of `scan_dots`: `CameOff`
    ensures err { IfErr result
        (CameOff (feeder_of_two (codes "feeder:0") (one_dot first) (one_dot second))) }
{
    a_dot_is_one_byte();
    let Some(name) = text_of(alloc, b"feeder:0") else {
        return Err(NoFile::NoMem);
    };
    let Some(page) = dot_page(alloc, first) else {
        return Err(NoFile::NoMem);
    };
    let Some(other_page) = dot_page(alloc, second) else {
        return Err(NoFile::NoMem);
    };
    let Some(users) = nobody(alloc) else {
        return Err(NoFile::NoMem);
    };
    let Some(job) = dot_job(alloc, b"feeder:0", Task::Batch(2)) else {
        return Err(NoFile::NoMem);
    };
    scan_both_surely(alloc, name, page, other_page, users, job)
}

/// A flatbed of that name with a page of one gray dot.
fn dot_flatbed(alloc: Global, name: &[u8], gray: u8) -> Option<Flatbed>
    ensures { IfSome result (λ flatbed. flatbed ≡ flatbed_with name.now (one_dot gray)) }
{
    flatbed_on(alloc, text_of(alloc, name)?, dot_page(alloc, gray)?)
}

/// A job for each of two flatbeds.
fn dot_jobs(alloc: Global) -> Option<Vec<Job>>
    ensures { IfSome result (λ jobs. AreDotJobs jobs.items) }
{
    let first = dot_job(alloc, b"flatbed:0", Task::Scan)?;
    let second = dot_job(alloc, b"flatbed:1", Task::Scan)?;
    let mut jobs = one_job(alloc, first)?;
    if jobs.push(second).is_err() {
        return None;
    }
    Some(jobs)
}

/// The file of job i, where it is done.
fn file_of(alloc: Global, world: &World, i: usize) -> Result<Vec<u8>, NoFile>
    ensures ok { let w = seen_world ⟦<Box<dyn Device> as Device>⟧.state world.now.inner in
        IfOk result (λ file. HasDoneFile w i file.items) }
    ensures err { let w = seen_world ⟦<Box<dyn Device> as Device>⟧.state world.now.inner in
        IfErr result (HasNoFile w i) }
{
    match end_at(world, i) {
        End::Done => {}
        End::OutOfMemory => return Err(NoFile::NoMem),
        End::Other => return Err(NoFile::BrokenOff),
    }
    let Some(file) = world.file(i) else {
        return Err(NoFile::NoMem);
    };
    let Some(copy) = copied(alloc, file) else {
        return Err(NoFile::NoMem);
    };
    Ok(copy)
}

/// The files of the first two jobs, where both are done.
fn both_files(alloc: Global, world: &World) -> Result<(Vec<u8>, Vec<u8>), NoFile>
    ensures ok { let w = seen_world ⟦<Box<dyn Device> as Device>⟧.state world.now.inner in
        IfOk result (λ files. HasDoneFile w 0 files.0.items × HasDoneFile w 1 files.1.items) }
    ensures err { let w = seen_world ⟦<Box<dyn Device> as Device>⟧.state world.now.inner in
        IfErr result (λ why. HasNoFile w 0 why ⊎ HasNoFile w 1 why) }
{
    let first = file_of(alloc, world, 0)?;
    let second = file_of(alloc, world, 1)?;
    Ok((first, second))
}

/// Scans one gray dot on each of two flatbeds, over the net, each by a job of its own, and answers both files.
pub fn scan_two_dots(alloc: Global, first: u8, second: u8) -> Result<(Vec<u8>, Vec<u8>), NoFile>
    /// So two jobs at once, each of which scans one gray dot on a flatbed of its own, give two such files, each of the gray
    /// of its own page.
    /// Carried by: `first`, `second` of `scan_two_dots`: `dot_file`
    ensures first { IfOk result (λ files. files.0.items ≡ dot_file first) }
    ensures second { IfOk result (λ files. files.1.items ≡ dot_file second) }
    /// There are both, but where memory ran out, or the session of a job broke off.
    /// Carried by: `err` of `scan_two_dots`: `CameOff`
    ensures err { IfErr result (CameOff (both_dots first second)) }
{
    a_dot_is_one_byte();
    let Some(flatbed) = dot_flatbed(alloc, b"flatbed:0", first) else {
        return Err(NoFile::NoMem);
    };
    let Ok(scanner) = Box::new(alloc, flatbed) else {
        return Err(NoFile::NoMem);
    };
    let Some(other_flatbed) = dot_flatbed(alloc, b"flatbed:1", second) else {
        return Err(NoFile::NoMem);
    };
    let Ok(other) = Box::new(alloc, other_flatbed) else {
        return Err(NoFile::NoMem);
    };
    let Some(mut devices) = one_box(alloc, scanner) else {
        return Err(NoFile::NoMem);
    };
    if devices.push(other).is_err() {
        return Err(NoFile::NoMem);
    }
    let Some(jobs) = dot_jobs(alloc) else {
        return Err(NoFile::NoMem);
    };
    let Some(users) = nobody(alloc) else {
        return Err(NoFile::NoMem);
    };
    let mut world = match World::new(alloc, devices, users, [0; 32], jobs) {
        Ok(world) => world,
        Err((fault, _)) => return Err(no_file(fault)),
    };
    world.run_all();
    both_files(alloc, &world)
}
