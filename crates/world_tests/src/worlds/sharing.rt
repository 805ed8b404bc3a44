//! Clients that want one device, pages that are laid in, and a feeder's batch.

use super::losses::{SCAN, THREE_PASS, WHOLE};
use super::*;

const NO_DOCS: Over = Over::Ended(Status::NoDocs, Why::Answer);

/// A scan at 100 dots per inch.
const WIDE: Asked = Asked {
    settings: "resolution=100",
    ..SCAN_DOT
};

/// The defaults are shown.
const AT_DEFAULTS: Step = Step::Shows(2, Shown::Told(Told::Number(b"resolution", 50)));

/// While one client's frame is open another one finds the device held, and behind its loss a third finds the defaults, by
/// next moves of one and another. By turns of all the first is done: 80 by 100 mm at 100 dots per inch.
const ONE_DEVICE: &[&[Step]] = &[
    &[
        Step::UntilData(3),
        Step::AllOf(1),
        Step::Is(1, BUSY),
        Step::Is(0, Over::Running),
        Step::Lose(0),
        Step::Is(0, LOST),
        Step::Shows(0, Shown::NoWholeFile),
        Step::AllOf(2),
        Step::Is(2, Over::Done),
        AT_DEFAULTS,
    ],
    &[
        Step::All,
        Step::Is(0, Over::Done),
        Step::Shows(0, Shown::Told(Told::Given(100, 100))),
        Step::Shows(0, Shown::Extent(314, 393)),
        Step::Is(1, BUSY),
        Step::Is(2, BUSY),
    ],
];

#[test]
fn two_clients_want_one_device(rt: HostRuntime) {
    for steps in ONE_DEVICE {
        let asked = [WIDE, WIDE, SHOW];
        play(&rt, rt.alloc(), &[FLATBED], b"", &asked, steps);
    }
}

/// Black, and its file: a color file of two black dots of 16 bits.
pub const BLACK: &[u8] = b"P6\n2 1\n65535\n\0\0\0\0\0\0\0\0\0\0\0\0";

pub const BLACK_FILE: &[u8] = b"P6\n# SANE data follows\n2 1\n65535\n\0\0\0\0\0\0\0\0\0\0\0\0";

/// Behind the second delivery of data: the first frame of a scan in three passes is over, and the second not begun.
const BETWEEN: Step = Step::Moves(0, 1, AT_ONCE);

/// While a device is held between two frames no page is laid into it, and it is not taken out; once its holder is lost,
/// both happen.
const BETWEEN_FRAMES: &[&[Step]] = &[
    &[
        Step::UntilData(2),
        BETWEEN,
        Step::Load(b"threepass:0", BLACK),
        Step::Unplug(b"threepass:0"),
        Step::AllOf(0),
        Step::Is(0, Over::Done),
        Step::Shows(0, Shown::File(WHOLE)),
        Step::Lose(0),
        Step::AllOf(1),
        Step::Is(1, Over::Done),
        Step::Shows(1, Shown::File(WHOLE)),
    ],
    &[
        Step::UntilData(2),
        BETWEEN,
        Step::Lose(0),
        Step::Is(0, LOST),
        Step::Load(b"threepass:0", BLACK),
        Step::AllOf(1),
        Step::Is(1, Over::Done),
        Step::Shows(1, Shown::File(BLACK_FILE)),
        Step::Lose(1),
        Step::Unplug(b"threepass:0"),
        Step::AllOf(2),
        Step::Is(2, Over::Ended(Status::Inval, Why::Answer)),
    ],
];

#[test]
fn pages_laid_in_between_frames(rt: HostRuntime) {
    for steps in BETWEEN_FRAMES {
        let asked = [SCAN, SCAN, SCAN];
        play(&rt, rt.alloc(), &[THREE_PASS], b"", &asked, steps);
    }
}

/// A feeder of two pages, and a scan at it.
pub const FEEDER: Scanner = Scanner {
    kind: DeviceKind::Feeder,
    name: b"feeder:0",
    pages: &[SEVEN_DOT, NINE_DOT],
    ..FLATBED
};

pub const FED: Asked = Asked {
    device: b"feeder:0",
    ..SCAN_DOT
};

/// A batch, and two scans at the same feeder.
const AT_FEEDER: &[Asked] = &[
    Asked {
        task: Task::Batch(16),
        ..FED
    },
    FED,
    FED,
];

const BOTH_PAGES: Step = Step::Shows(0, Shown::Pages(&[SEVEN, NINE]));

const FIRST_PAGE: Step = Step::Shows(0, Shown::Pages(&[SEVEN]));

/// A feeder's batch of two pages: whole, with another client's OPEN between them and the empty tray behind; and lost between
/// them, which leaves the second page in the tray.
const BATCHES: &[&[Step]] = &[
    &[
        Step::UntilData(2),
        BETWEEN,
        Step::AllOf(1),
        Step::Is(1, BUSY),
        Step::Moves(0, EVERY, 1),
        Step::Is(0, Over::Done),
        BOTH_PAGES,
        Step::Lose(0),
        Step::AllOf(2),
        Step::Is(2, NO_DOCS),
        Step::Shows(2, Shown::NoWholeFile),
    ],
    &[
        Step::UntilData(2),
        BETWEEN,
        Step::Lose(0),
        Step::Is(0, LOST),
        FIRST_PAGE,
        Step::AllOf(2),
        Step::Is(2, Over::Done),
        Step::Shows(2, Shown::File(NINE)),
    ],
];

/// How a batch is cut off in its second page, how it ends by that, how a second client ends then, and what is done behind that:
/// it holds the feeder until EXIT is heard or its connection is lost. A scan that finds no page holds it too, until it is lost.
const CUT_OFF: &[(Step, Over, Over, Step)] = &[
    (Step::Cancel(0), CANCELLED, BUSY, Step::ToDaemon(0)),
    (Step::Cancel(0), CANCELLED, BUSY, Step::Lose(0)),
    (Step::LoseImage(0), LOST, BUSY, Step::Lose(0)),
    (Step::Lose(0), LOST, NO_DOCS, Step::Lose(1)),
];

/// The first page stays finished, and the tray is left empty.
#[test]
fn batches_at_a_feeder(rt: HostRuntime) {
    let alloc = rt.alloc();
    for steps in BATCHES {
        play(&rt, alloc, &[FEEDER], b"", AT_FEEDER, steps);
    }
    for until in [Step::UntilData(3), Step::UntilData(4), Step::UntilByte(15)] {
        for (by, over, second, behind) in CUT_OFF {
            let front = Step::Shows(0, Shown::FrontOf(NINE));
            let cut = [until, Step::Is(0, Over::Running), *by, Step::Is(0, *over)];
            let others = [
                Step::AllOf(1),
                Step::Is(1, *second),
                *behind,
                Step::AllOf(2),
            ];
            let mut world = world_of(&rt, alloc, &[FEEDER], b"", AT_FEEDER);
            act_all(&rt, alloc, &mut world, &cut);
            act_all(&rt, alloc, &mut world, &[FIRST_PAGE, front]);
            act_all(&rt, alloc, &mut world, &others);
            act_all(
                &rt,
                alloc,
                &mut world,
                &[Step::Is(2, NO_DOCS), FIRST_PAGE, front],
            );
            drop(world);
        }
    }
}
