//! Jobs beside daemons of both sizes of string values.

use super::*;

/// A job of a setting that its text names by its front, which shows all options behind it, and one that scans.
const ASKED: &[Asked] = &[
    Asked {
        settings: "mode=gr",
        ..SHOW
    },
    Asked {
        device: b"flatbed:1",
        settings: "mode=Color resolution=26 br-x=1 br-y=1",
        task: Task::Scan,
    },
];

const TWO: &[Scanner] = &[
    FLATBED,
    Scanner {
        name: b"flatbed:1",
        ..FLATBED
    },
];

const COLOR_FILE: &[u8] = b"P6\n# SANE data follows\n1 1\n255\n\x07\x07\x07";

const STEPS: &[Step] = &[
    Step::All,
    Step::Shows(0, Shown::Told(Told::GivenWord(b"Gray"))),
    Step::Shows(1, Shown::File(COLOR_FILE)),
];

type Refused = (event_world::WorldFault, Daemon);

/// The clients of these jobs beside a daemon of two flatbeds.
fn beside(rt: &impl Abort, alloc: Global, strings: StringSize) -> Result<EventWorld, Refused> {
    let asked = all_jobs(alloc, ASKED).expect(rt, "jobs");
    EventWorld::beside_daemon(alloc, daemon_of(rt, alloc, TWO, strings), asked)
}

/// Texts that a daemon fills up are what they are to its clients.
#[test]
fn texts_are_read_alike(rt: HostRuntime) {
    for strings in [StringSize::OfText, StringSize::OfOption] {
        let Ok(mut world) = beside(&rt, rt.alloc(), strings) else {
            panic!(&rt; "no world")
        };
        act_all(&rt, rt.alloc(), &mut world, STEPS);
        drop(world);
    }
}
