//! Events of all kinds at random, and what holds behind them.

use super::losses::{COLORS, SCAN, THREE_PASS, WHOLE};
use super::sharing::{BLACK, BLACK_FILE, FED, FEEDER};
use super::*;

/// How many events a world sees, and how many worlds there are.
const EVENTS: u64 = 2_000;

const WORLDS: u64 = 50;

/// Numbers that follow one another by a fixed rule (xorshift).
#[derive(Drop)]
struct Dice {
    seed: u64,
}

impl Dice {
    /// A number below the bound.
    fn below(&mut self, bound: u64) -> u64 {
        let mut seed = self.seed;
        seed ^= seed << 13;
        seed ^= seed >> 7;
        seed ^= seed << 17;
        self.seed = seed;
        seed.checked_rem(bound).unwrap_or(0)
    }
}

/// Three scans in three passes, three of a flatbed, and a batch and a scan at a feeder.
const ASKED: &[Asked] = &[
    SCAN,
    SCAN,
    SCAN,
    SCAN_DOT,
    SCAN_DOT,
    SCAN_DOT,
    Asked {
        task: Task::Batch(3),
        ..FED
    },
    FED,
];

/// The jobs of one device, and the files of the pages that are laid into it.
const DEVICES: &[(&[usize], &[&[u8]])] = &[
    (&[0, 1, 2], &[WHOLE, BLACK_FILE]),
    (&[3, 4, 5], &[SEVEN, NINE]),
    (&[6, 7], &[SEVEN, NINE]),
];

/// The batch has files of its own.
const BATCH: usize = 6;

/// Something that may happen to a job, most often its next move.
fn some_event(world: &EventWorld, dice: &mut Dice) -> Event {
    let i = dice.below(8) as usize;
    let size = dice.below(300) as usize;
    match dice.below(2_000) {
        0 => Event::LoseControl(i),
        1 => Event::LoseImage(i),
        2 => Event::Cancel(i),
        3..=49 => Event::ToDaemon(i, size),
        50..=99 => Event::ToClient(i, size),
        100..=149 => Event::DataToClient(i, size),
        150..=199 => Event::DataTurn(i),
        200..=249 => Event::DataConnect(i),
        _ => match world.next_move(i) {
            Some(event) => within(event, size.saturating_add(1)),
            None => Event::Connect(i),
        },
    }
}

/// A page is laid into a device, or now and then the device is taken out.
fn shift(alloc: Global, dice: &mut Dice) -> Option<Event> {
    let (name, pages): (_, [&[u8]; 2]) = match dice.below(2) {
        0 => (THREE_PASS.name, [BLACK, COLORS]),
        _ => (FLATBED.name, [SEVEN_DOT, NINE_DOT]),
    };
    let name = text(alloc, name)?;
    if dice.below(16) == 0 {
        return Some(Event::Unplug(name));
    }
    let [one, other] = pages;
    let page = if dice.below(2) == 0 { one } else { other };
    Some(Event::Load(name, source(alloc, page, 26)?))
}

/// Whether a job ends only for a reason that these events give.
fn is_named(over: Over) -> bool {
    match over {
        Over::Running | Over::Done => true,
        Over::Ended(Status::DeviceBusy | Status::Inval | Status::NoDocs, why) => {
            why == Why::Answer
        }
        over => over == LOST || over == CANCELLED,
    }
}

/// Whether a frame of the job is open, so that it holds its device.
fn has_frame(world: &EventWorld, i: usize) -> bool {
    match world.next_move(i) {
        Some(Event::DataConnect(_) | Event::DataTurn(_) | Event::DataToClient(_, _)) => true,
        _ => false,
    }
}

/// Whether a job that is done left the file of a page, each finished page of a batch is one, and no other job has a whole
/// file.
fn has_right_files(alloc: Global, world: &EventWorld, i: usize, pages: &[&[u8]]) -> bool {
    let is_over_so = match world.file(i) {
        Some(file) if i != BATCH && how(world, i) == Some(Over::Done) => pages.contains(&file),
        file => file.is_some() && !is_whole(alloc, file),
    };
    let mut are_right = is_over_so;
    for k in 1..=world.finished(i) {
        are_right &= match world.file_at(i, k) {
            Some(file) => pages.contains(&file),
            None => false,
        };
    }
    are_right
}

/// What holds of all jobs behind every event. Says how many are done.
fn expect_promises(rt: &impl Abort, alloc: Global, world: &EventWorld) -> u64 {
    let mut done = 0u64;
    for (jobs, pages) in DEVICES {
        let mut frames = 0u32;
        for i in *jobs {
            let over = how(world, *i).expect(rt, "a job");
            assert!(rt; is_named(over) && !world.starved(*i), "job {i}: {over:?}");
            assert!(rt;
                has_right_files(alloc, world, *i, pages),
                "job {i}: {over:?}"
            );
            frames = frames.saturating_add(has_frame(world, *i) as u32);
            done = done.saturating_add((over == Over::Done) as u64);
        }
        assert!(rt; frames <= 1);
    }
    done
}

/// Random events; then all jobs run to their ends. Says how many are done.
fn noise(rt: &impl Abort, alloc: Global, world: &mut EventWorld, seed: u64) -> u64 {
    let mut dice = Dice { seed };
    for k in 0..EVENTS {
        if k % 50 == 49 {
            let event = shift(alloc, &mut dice).expect(rt, "an event");
            happens(rt, alloc, world, event);
        }
        let event = some_event(world, &mut dice);
        happens(rt, alloc, world, event);
        if k % 10 == 0 {
            expect_promises(rt, alloc, world);
        }
    }
    world.run_all();
    for i in 0..ASKED.len() {
        assert!(rt; world.moves_left(i) == 0 && how(world, i) != Some(Over::Running));
    }
    expect_promises(rt, alloc, world)
}

/// Eight jobs at three scanners: whatever happens in whatever order, each ends, by a status that names why; a job that is done
/// has its page's file, and no other has a whole one; and a device has one holder.
#[test]
fn random_events(rt: HostRuntime) {
    let mut done = 0u64;
    for world in 1..=WORLDS {
        let seed = world.wrapping_mul(0x9e37_79b9_7f4a_7c15);
        let scanners = [THREE_PASS, FLATBED, FEEDER];
        let mut world = world_of(&rt, rt.alloc(), &scanners, b"", ASKED);
        done = done.saturating_add(noise(&rt, rt.alloc(), &mut world, seed));
        drop(world);
    }
    assert!(rt; WORLDS < done && done < WORLDS * 8);
}
