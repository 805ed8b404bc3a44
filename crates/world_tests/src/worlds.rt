use device_api::Device;
use dispatch::Registry;
use event_world::{Event, EventWorld};
use md5_auth::Users;
use net_backend::{Job, Outcome, Reports, Task, Why};
use option_desc::Value;
use page_picture::DeviceKind;
use pnm_writer::read_pnm;
use sane_fixed::{ByteOrder, Info, Status};
use saned_core::Daemon;
use saned_requests::StringSize;
use std::alloc::Global;
use std::process::Abort;
use testing::{AnyScanner, Over, source, text};

mod among_strangers;
mod calls;
mod examples;
mod jobs;
mod losses;
mod memory;
mod noise;
mod records;
mod sharing;
mod strings;
mod uses;

/// A scanner, and its pages.
#[derive(Clone, Copy)]
struct Scanner {
    kind: DeviceKind,
    name: &'static [u8],
    order: ByteOrder,
    dpi: u32,
    pages: &'static [&'static [u8]],
}

/// A job of `user`, whose password is `bc`.
#[derive(Clone, Copy)]
struct Asked {
    device: &'static [u8],
    settings: &'static str,
    task: Task,
}

/// What is done to a world, or must hold in it. A job is named by its place.
#[derive(Clone, Copy)]
enum Step {
    /// So many next moves of a job, each delivery of so many bytes at most.
    Moves(usize, u64, usize),
    /// All next moves of a job.
    AllOf(usize),
    /// Next moves of the first job until the next one is the so manyth delivery on its data connection, or there is none; and
    /// the same byte by byte.
    UntilData(u64),
    UntilByte(u64),
    /// Next moves of all jobs by turns, until none has one.
    All,
    /// What a client has said comes to the daemon.
    ToDaemon(usize),
    Lose(usize),
    LoseImage(usize),
    Cancel(usize),
    Load(&'static [u8], &'static [u8]),
    Unplug(&'static [u8]),
    /// So a job stands, and no growth was refused.
    Is(usize, Over),
    /// That a job shows.
    Shows(usize, Shown),
}

/// What a job shows.
#[derive(Clone, Copy)]
enum Shown {
    /// The file under way.
    File(&'static [u8]),
    /// The file under way, or what becomes of it where there is no memory.
    FileIfMemory(&'static [u8]),
    /// A file under way that is not whole.
    NoWholeFile,
    /// So many bytes of this file are under way.
    Front(&'static [u8], usize),
    /// A proper front of this file is under way.
    FrontOf(&'static [u8]),
    /// A whole file of so many columns and rows.
    Extent(u32, u32),
    /// The files of the finished pages of a batch.
    Pages(&'static [&'static [u8]]),
    /// What is told of it, once it is done.
    Told(Told),
}

/// What is told of a job that is done.
#[derive(Clone, Copy)]
enum Told {
    /// The devices that it lists.
    Names(&'static [&'static [u8]]),
    /// An option, and the number that it shows.
    Number(&'static [u8], i32),
    /// What its one setting asked for and was given, in words of the wire; it is inexact just where these differ.
    Given(i32, i32),
    /// What its one setting was given, which is not what it asked for.
    GivenWord(&'static [u8]),
}

/// More next moves than a job here has.
const EVERY: u64 = 1 << 20;

/// The most bytes of a delivery.
const AT_ONCE: usize = 4096;

const LOST: Over = Over::Ended(Status::IoError, Why::Lost);

const CANCELLED: Over = Over::Ended(Status::Cancelled, Why::Cancelled);

const BUSY: Over = Over::Ended(Status::DeviceBusy, Why::Answer);

/// Pages of one gray dot, and their files.
const SEVEN_DOT: &[u8] = b"P5\n1 1\n255\n\x07";

const SEVEN: &[u8] = b"P5\n# SANE data follows\n1 1\n255\n\x07";

const NINE_DOT: &[u8] = b"P5\n1 1\n255\n\x09";

const NINE: &[u8] = b"P5\n# SANE data follows\n1 1\n255\n\x09";

/// A flatbed on a page of one gray dot, and a job that shows its options.
const FLATBED: Scanner = Scanner {
    kind: DeviceKind::Flatbed,
    name: b"flatbed:0",
    order: ByteOrder::Little,
    dpi: 26,
    pages: &[SEVEN_DOT],
};

const SHOW: Asked = Asked {
    device: b"flatbed:0",
    settings: "",
    task: Task::Show,
};

/// A window of 1 by 1 mm at 26 dots per inch, which is one dot, and a job that scans it.
const ONE_DOT: &str = "resolution=26 br-x=1 br-y=1";

const SCAN_DOT: Asked = Asked {
    settings: ONE_DOT,
    task: Task::Scan,
    ..SHOW
};

const NO_SEED: [u8; 32] = [0; 32];

/// The scanner.
fn made(rt: &impl Abort, alloc: Global, it: &Scanner) -> AnyScanner {
    let mut pages = Vec::new(alloc);
    for file in it.pages {
        let Some(page) = source(alloc, file, it.dpi) else {
            panic!(rt; "no scanner");
        };
        pages.push(page).expect(rt, "memory");
    }
    match testing::scanner(alloc, it.kind, it.name, pages, it.order) {
        Some(scanner) => scanner,
        None => panic!(rt; "no scanner"),
    }
}

fn job(alloc: Global, asked: &Asked) -> Option<Job> {
    testing::job(alloc, asked.device, asked.settings, asked.task)
}

fn all_jobs(alloc: Global, asked: &[Asked]) -> Option<Vec<Job>> {
    let mut jobs = Vec::new(alloc);
    for it in asked {
        jobs.push(job(alloc, it)?).ok()?;
    }
    Some(jobs)
}

/// A daemon of these scanners and no users, of which nothing was asked yet.
fn daemon_of(rt: &impl Abort, alloc: Global, scanners: &[Scanner], strings: StringSize) -> Daemon {
    let mut devices: Vec<Box<dyn Device>> = Vec::new(alloc);
    for it in scanners {
        devices.push(made(rt, alloc, it)).expect(rt, "memory");
    }
    let registry = match Registry::new(alloc, devices) {
        Ok(registry) => registry,
        Err(_) => panic!(rt; "no registry"),
    };
    let users = Users::parse(alloc, b"").expect(rt, "users");
    Daemon::with_strings(registry, users, strings, NO_SEED)
}

/// A world of these scanners, users and jobs.
fn world_of(
    rt: &impl Abort,
    alloc: Global,
    scanners: &[Scanner],
    users: &[u8],
    asked: &[Asked],
) -> EventWorld {
    let mut devices: Vec<Box<dyn Device>> = Vec::new(alloc);
    for it in scanners {
        devices.push(made(rt, alloc, it)).expect(rt, "memory");
    }
    let (Ok(users), Some(jobs)) = (Users::parse(alloc, users), all_jobs(alloc, asked)) else {
        panic!(rt; "no world");
    };
    match EventWorld::new(alloc, devices, users, NO_SEED, jobs) {
        Ok(world) => world,
        Err(_) => panic!(rt; "no world"),
    }
}

/// An event happens, where it can.
fn happens(rt: &impl Abort, alloc: Global, world: &mut EventWorld, event: Event) {
    let mut events = Vec::new(alloc);
    events.push(event).expect(rt, "memory");
    world.run(events);
}

/// The event, its delivery of so many bytes at most.
fn within(event: Event, most: usize) -> Event {
    match event {
        Event::ToDaemon(i, n) => Event::ToDaemon(i, n.min(most)),
        Event::ToClient(i, n) => Event::ToClient(i, n.min(most)),
        Event::DataToClient(i, n) => Event::DataToClient(i, n.min(most)),
        event => event,
    }
}

/// So many next moves of a job, but none from the so manyth delivery of data on. Says how many it had.
fn moves(
    rt: &impl Abort,
    alloc: Global,
    world: &mut EventWorld,
    (i, count, most): (usize, u64, usize),
    until: u64,
) -> u64 {
    let mut left = until;
    for made in 0..count {
        let Some(event) = world.next_move(i) else {
            return made;
        };
        if let Event::DataToClient(_, _) = event {
            left = left.saturating_sub(1);
        }
        if left == 0 {
            drop(event);
            return made;
        }
        happens(rt, alloc, world, within(event, most));
    }
    count
}

/// The event that a step is, if it is one.
fn event_of(alloc: Global, step: Step) -> Option<Event> {
    match step {
        Step::ToDaemon(i) => Some(Event::ToDaemon(i, AT_ONCE)),
        Step::Lose(i) => Some(Event::LoseControl(i)),
        Step::LoseImage(i) => Some(Event::LoseImage(i)),
        Step::Cancel(i) => Some(Event::Cancel(i)),
        Step::Load(name, page) => Some(Event::Load(text(alloc, name)?, source(alloc, page, 26)?)),
        Step::Unplug(name) => Some(Event::Unplug(text(alloc, name)?)),
        _ => None,
    }
}

/// What is done, or what must hold, in a world that stands. Says how many moves were made.
fn act(rt: &impl Abort, alloc: Global, world: &mut EventWorld, step: Step) -> u64 {
    match step {
        Step::Moves(i, count, most) => {
            return moves(rt, alloc, world, (i, count, most), u64::MAX);
        }
        Step::AllOf(i) => return moves(rt, alloc, world, (i, EVERY, AT_ONCE), u64::MAX),
        Step::UntilData(count) => {
            return moves(rt, alloc, world, (0, EVERY, AT_ONCE), count);
        }
        Step::UntilByte(count) => return moves(rt, alloc, world, (0, EVERY, 1), count),
        Step::All => world.run_all(),
        Step::Is(i, over) => {
            assert!(rt; how(world, i) == Some(over) && !world.starved(i), "job {i}");
        }
        Step::Shows(i, shown) => assert!(rt; is_shown(alloc, world, i, shown), "job {i}"),
        step => {
            let event = event_of(alloc, step).expect(rt, "an event");
            happens(rt, alloc, world, event);
        }
    }
    0
}

/// A world of these scanners and jobs, and what is done to it, step by step. Says how many moves were made.
fn play(
    rt: &impl Abort,
    alloc: Global,
    scanners: &[Scanner],
    users: &[u8],
    asked: &[Asked],
    steps: &[Step],
) -> u64 {
    let mut world = world_of(rt, alloc, scanners, users, asked);
    let made = act_all(rt, alloc, &mut world, steps);
    drop(world);
    made
}

fn act_all(rt: &impl Abort, alloc: Global, world: &mut EventWorld, steps: &[Step]) -> u64 {
    let mut made = 0u64;
    for step in steps {
        made = made.saturating_add(act(rt, alloc, world, *step));
    }
    made
}

fn how(world: &EventWorld, i: usize) -> Option<Over> {
    Some(testing::how(world.outcome(i)?))
}

/// Whether a job shows this.
fn is_shown(alloc: Global, world: &EventWorld, i: usize, shown: Shown) -> bool {
    let file = world.file(i);
    match shown {
        Shown::File(whole) => file == Some(whole),
        Shown::FileIfMemory(whole) => memory::is_done_or_wanting(alloc, world, i, whole),
        Shown::NoWholeFile => file.is_some() && !is_whole(alloc, file),
        Shown::Front(whole, count) => file.is_some() && file == whole.get(..count),
        Shown::FrontOf(whole) => is_front(file, whole),
        Shown::Extent(width, height) => extent(alloc, file) == Some((width, height)),
        Shown::Pages(files) => are_pages(world, i, files),
        Shown::Told(told) => match world.outcome(i) {
            Some(Outcome::Done(reports)) => is_told(reports, told),
            _ => false,
        },
    }
}

fn is_front(file: Option<&[u8]>, whole: &[u8]) -> bool {
    match file {
        Some(file) => whole.starts_with(file) && file.len() < whole.len(),
        None => false,
    }
}

/// Whether there is a file, and it is whole.
fn is_whole(alloc: Global, file: Option<&[u8]>) -> bool {
    extent(alloc, file).is_some()
}

/// The columns and rows of a whole file.
fn extent(alloc: Global, file: Option<&[u8]>) -> Option<(u32, u32)> {
    let picture = read_pnm(alloc, file?).ok()?;
    let extent = (picture.width, picture.height);
    drop(picture);
    Some(extent)
}

fn are_pages(world: &EventWorld, i: usize, files: &[&[u8]]) -> bool {
    let mut are_so = world.finished(i) as usize == files.len();
    for (k, file) in (1u32..).zip(files) {
        are_so &= world.file_at(i, k) == Some(*file);
    }
    are_so
}

fn is_told(reports: &Reports, told: Told) -> bool {
    match told {
        Told::Names(names) => are_listed(reports, names),
        Told::Number(name, number) => match value_of(reports, name) {
            Some(Value::Int(given)) => *given == number,
            _ => false,
        },
        Told::Given(_, _) | Told::GivenWord(_) => is_given(reports, told),
    }
}

fn are_listed(reports: &Reports, names: &[&[u8]]) -> bool {
    let devices = reports.devices.as_slice();
    devices.len() == names.len()
        && devices
            .iter()
            .zip(names)
            .all(|(device, name)| device.name.as_bytes() == *name)
}

/// The value that an option is shown with.
fn value_of<'a>(reports: &'a Reports, name: &[u8]) -> Option<&'a Value> {
    for (option, value) in reports.options.as_slice() {
        if option.name.as_bytes() == name {
            return value.as_ref();
        }
    }
    None
}

/// Whether the one setting of a job was given so.
fn is_given(reports: &Reports, told: Told) -> bool {
    let [report] = reports.settings.as_slice() else {
        return false;
    };
    let is_inexact = report.info.0 & Info::INEXACT != 0;
    match (told, &report.asked, &report.given) {
        (Told::Given(from, to), Value::Fixed(asked), Value::Fixed(given)) => {
            (asked.0, given.0) == (from, to) && is_inexact == (from != to)
        }
        (Told::Given(from, to), Value::Int(asked), Value::Int(given)) => {
            (*asked, *given) == (from, to) && is_inexact == (from != to)
        }
        (Told::GivenWord(word), _, Value::Text(given)) => is_inexact && given.as_bytes() == word,
        _ => false,
    }
}
