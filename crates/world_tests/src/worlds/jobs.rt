//! One job and one daemon: the worked jobs, whole and byte by byte.

use super::losses::{PASSES, THREE_PASS, WHOLE};
use super::*;

/// A job on one scanner, how it ends, and what it shows then.
#[derive(Clone, Copy)]
pub struct Worked {
    pub scanner: Scanner,
    pub users: &'static [u8],
    pub settings: &'static str,
    pub task: Task,
    pub over: Over,
    pub shown: Shown,
}

impl Worked {
    /// The job that it asks for.
    pub fn asked(&self) -> Asked {
        Asked {
            device: self.scanner.name,
            settings: self.settings,
            task: self.task,
        }
    }
}

pub const DOT_FILE: &[u8] = b"P5\n# SANE data follows\n1 1\n255\n\x0a";

/// One dot of two.
pub const ONE_OF_TWO: Worked = Worked {
    scanner: Scanner {
        pages: &[b"P5\n2 1\n255\n\x0a\xc8"],
        ..FLATBED
    },
    users: b"",
    settings: ONE_DOT,
    task: Task::Scan,
    over: Over::Done,
    shown: Shown::File(DOT_FILE),
};

/// A color file of two dots, as `ppl-loss` leaves them.
pub const LOST_DOTS_FILE: &[u8] = b"P6\n# SANE data follows\n2 1\n255\n\x01\x02\x03\x04\x05\x06";

/// Two dots in color and three lost ones, a byte a read.
pub const LOST_DOTS: Worked = Worked {
    scanner: Scanner {
        name: b"flatbed:1",
        pages: &[b"P6\n2 1\n255\n\x01\x02\x03\x04\x05\x06"],
        ..FLATBED
    },
    settings: "mode=Color resolution=26 br-x=2 br-y=1 ppl-loss=3 read-limit-size=1",
    shown: Shown::File(LOST_DOTS_FILE),
    ..ONE_OF_TWO
};

/// Three passes, in the order BGR, of a big-endian scanner.
pub const THREE_PASSES: Worked = Worked {
    scanner: THREE_PASS,
    settings: PASSES,
    shown: Shown::File(WHOLE),
    ..ONE_OF_TWO
};

const HAND: Scanner = Scanner {
    kind: DeviceKind::Hand,
    name: b"hand:0",
    order: ByteOrder::Little,
    dpi: 75,
    pages: &[b"P5\n1 10\n255\n\0\0\0\0\0\0\0\0\0\0"],
};

/// A picture of 324 by 10 bits: the first of each row of 41 bytes is black.
pub const BY_HAND_FILE: &[u8] = b"P4\n# SANE data follows\n324 10\n\
    \x80\0\0\0\0\0\0\0\0\0\0\0\0\0\0\0\0\0\0\0\0\0\0\0\0\0\0\0\0\0\0\0\0\0\0\0\0\0\0\0\0\
    \x80\0\0\0\0\0\0\0\0\0\0\0\0\0\0\0\0\0\0\0\0\0\0\0\0\0\0\0\0\0\0\0\0\0\0\0\0\0\0\0\0\
    \x80\0\0\0\0\0\0\0\0\0\0\0\0\0\0\0\0\0\0\0\0\0\0\0\0\0\0\0\0\0\0\0\0\0\0\0\0\0\0\0\0\
    \x80\0\0\0\0\0\0\0\0\0\0\0\0\0\0\0\0\0\0\0\0\0\0\0\0\0\0\0\0\0\0\0\0\0\0\0\0\0\0\0\0\
    \x80\0\0\0\0\0\0\0\0\0\0\0\0\0\0\0\0\0\0\0\0\0\0\0\0\0\0\0\0\0\0\0\0\0\0\0\0\0\0\0\0\
    \x80\0\0\0\0\0\0\0\0\0\0\0\0\0\0\0\0\0\0\0\0\0\0\0\0\0\0\0\0\0\0\0\0\0\0\0\0\0\0\0\0\
    \x80\0\0\0\0\0\0\0\0\0\0\0\0\0\0\0\0\0\0\0\0\0\0\0\0\0\0\0\0\0\0\0\0\0\0\0\0\0\0\0\0\
    \x80\0\0\0\0\0\0\0\0\0\0\0\0\0\0\0\0\0\0\0\0\0\0\0\0\0\0\0\0\0\0\0\0\0\0\0\0\0\0\0\0\
    \x80\0\0\0\0\0\0\0\0\0\0\0\0\0\0\0\0\0\0\0\0\0\0\0\0\0\0\0\0\0\0\0\0\0\0\0\0\0\0\0\0\
    \x80\0\0\0\0\0\0\0\0\0\0\0\0\0\0\0\0\0\0\0\0\0\0\0\0\0\0\0\0\0\0\0\0\0\0\0\0\0\0\0\0";

/// A black column of ten dots by hand, on a scanner that is 110 mm wide.
pub const BY_HAND: Worked = Worked {
    scanner: HAND,
    settings: "depth=1",
    shown: Shown::File(BY_HAND_FILE),
    ..ONE_OF_TWO
};

/// A gray file of two dots.
pub const PAIR_FILE: &[u8] = b"P5\n# SANE data follows\n2 1\n255\n\xaa\xbb";

/// Two dots in a row.
pub const PAIR: Worked = Worked {
    scanner: Scanner {
        pages: &[b"P5\n2 1\n255\n\xaa\xbb"],
        ..FLATBED
    },
    settings: "resolution=26 br-x=2 br-y=1",
    shown: Shown::File(PAIR_FILE),
    ..ONE_OF_TWO
};

/// Of 33 bytes.
pub const ROWS_FILE: &[u8] = b"P5\n# SANE data follows\n1 2\n255\n\x07\x09";

/// The settings that show a page of two rows of a dot as it is.
pub const ONE_BY_TWO: &str = "resolution=26 br-x=1 br-y=2";

/// Two rows of a dot.
pub const ROWS: Worked = Worked {
    scanner: Scanner {
        pages: &[b"P5\n1 2\n255\n\x07\x09"],
        ..FLATBED
    },
    settings: ONE_BY_TWO,
    shown: Shown::File(ROWS_FILE),
    ..ONE_OF_TWO
};

/// Two rows of a dot, a byte a read.
pub const ROW_BY_ROW: Worked = Worked {
    settings: "resolution=26 br-x=1 br-y=2 read-limit-size=1",
    ..ROWS
};

/// A window that begins behind the page's first dot.
const WINDOW: Worked = Worked {
    scanner: Scanner {
        pages: &[b"P5\n3 1\n255\n\x01\x02\x03"],
        ..FLATBED
    },
    settings: "resolution=26 tl-x=1 br-x=3 br-y=1",
    shown: Shown::File(b"P5\n# SANE data follows\n2 1\n255\n\x02\x03"),
    ..ONE_OF_TWO
};

const SHOWS: Worked = Worked {
    settings: "",
    task: Task::Show,
    shown: Shown::Told(Told::Number(b"resolution", 50)),
    ..ONE_OF_TWO
};

const LISTS: Worked = Worked {
    task: Task::List,
    shown: Shown::Told(Told::Names(&[b"flatbed:0"])),
    ..SHOWS
};

/// A length that is given as another.
const PUT: Worked = Worked {
    settings: "br-x=80.5",
    task: Task::SetOnly,
    shown: Shown::Told(Told::Given(0x508000, 0x510000)),
    ..SHOWS
};

/// The password of `user` is `bc`.
const ALLOWED: Worked = Worked {
    users: b"user:bc:flatbed\n",
    ..SHOWS
};

const DENIED: Worked = Worked {
    users: b"user:cb:flatbed\n",
    over: Over::Ended(Status::AccessDenied, Why::Answer),
    shown: Shown::File(b""),
    ..SHOWS
};

const SHORT: Worked = Worked {
    settings: "read-return-value=SANE_STATUS_EOF",
    over: Over::Ended(Status::IoError, Why::Short),
    shown: Shown::NoWholeFile,
    ..ONE_OF_TWO
};

const JAMMED: Worked = Worked {
    settings: "read-return-value=SANE_STATUS_JAMMED",
    over: Over::Ended(Status::Jammed, Why::Answer),
    ..SHORT
};

/// At 25 dots per inch a window of 1 mm has no dot.
const NO_PICTURE: Worked = Worked {
    settings: "resolution=25 br-x=1 br-y=1",
    over: Over::Ended(Status::Inval, Why::Answer),
    ..SHORT
};

/// Scans that are done, lists, options shown, settings, passwords, and jobs that end otherwise.
const JOBS: &[Worked] = &[
    ONE_OF_TWO,
    LOST_DOTS,
    THREE_PASSES,
    BY_HAND,
    WINDOW,
    PAIR,
    ROWS,
    ROW_BY_ROW,
    LISTS,
    SHOWS,
    PUT,
    ALLOWED,
    DENIED,
    SHORT,
    JAMMED,
    NO_PICTURE,
];

/// Each ends so, and shows that, whole and byte by byte.
#[test]
fn one_job(rt: HostRuntime) {
    for it in JOBS {
        for first in [Step::All, Step::Moves(0, EVERY, 1)] {
            let steps = [first, Step::Is(0, it.over), Step::Shows(0, it.shown)];
            play_one(&rt, rt.alloc(), it, &steps);
        }
    }
}

/// Steps of one of these jobs.
pub fn play_one(rt: &impl Abort, alloc: Global, it: &Worked, steps: &[Step]) {
    play(rt, alloc, &[it.scanner], it.users, &[it.asked()], steps);
}

/// Steps of one world of four jobs, each at a scanner of its own.
pub fn play_four(rt: &impl Abort, alloc: Global, steps: &[Step]) {
    let scanners = [ONE_OF_TWO.scanner, HAND, THREE_PASS, LOST_DOTS.scanner];
    let asked = [
        ONE_OF_TWO.asked(),
        BY_HAND.asked(),
        THREE_PASSES.asked(),
        LOST_DOTS.asked(),
    ];
    play(rt, alloc, &scanners, b"", &asked, steps);
}

const BY_TURNS: &[Step] = &[
    Step::All,
    Step::Is(0, Over::Done),
    Step::Shows(0, Shown::File(DOT_FILE)),
    Step::Is(1, Over::Done),
    Step::Shows(1, Shown::File(BY_HAND_FILE)),
    Step::Is(2, Over::Done),
    Step::Shows(2, Shown::File(WHOLE)),
    Step::Is(3, Over::Done),
    Step::Shows(3, Shown::File(LOST_DOTS_FILE)),
];

/// Four jobs that move by turns are all done.
#[test]
fn jobs_by_turns(rt: HostRuntime) {
    play_four(&rt, rt.alloc(), BY_TURNS);
}
