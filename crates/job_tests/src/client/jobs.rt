use super::*;

/// The descriptors of a resolution, of br-x, and of br-x behind six other options.
const RESOLUTION: &[u8] =
    b"\0\0\0\x01\0\0\0\0\0\0\0\x0bresolution\0\0\0\0\0\0\0\0\0\0\0\0\x01\0\0\0\0\0\0\0\x04\0\0\0\x05\0\0\0\0";

const BR_X: &[u8] =
    b"\0\0\0\x01\0\0\0\0\0\0\0\x05br-x\0\0\0\0\0\0\0\0\0\0\0\0\x02\0\0\0\0\0\0\0\x04\0\0\0\x05\0\0\0\0";

const SEVENTH: &[u8] =
    b"\0\0\0\x07\0\0\0\0\0\0\0\x02o\0\0\0\0\0\0\0\0\0\0\0\0\x02\0\0\0\0\0\0\0\x04\0\0\0\x04\0\0\0\0\0\0\0\0\0\0\0\x02o\0\0\0\0\0\0\0\0\0\0\0\0\x02\0\0\0\0\0\0\0\x04\0\0\0\x04\0\0\0\0\0\0\0\0\0\0\0\x02o\0\0\0\0\0\0\0\0\0\0\0\0\x02\0\0\0\0\0\0\0\x04\0\0\0\x04\0\0\0\0\0\0\0\0\0\0\0\x02o\0\0\0\0\0\0\0\0\0\0\0\0\x02\0\0\0\0\0\0\0\x04\0\0\0\x04\0\0\0\0\0\0\0\0\0\0\0\x02o\0\0\0\0\0\0\0\0\0\0\0\0\x02\0\0\0\0\0\0\0\x04\0\0\0\x04\0\0\0\0\0\0\0\0\0\0\0\x02o\0\0\0\0\0\0\0\0\0\0\0\0\x02\0\0\0\0\0\0\0\x04\0\0\0\x04\0\0\0\0\0\0\0\0\0\0\0\x05br-x\0\0\0\0\0\0\0\0\0\0\0\0\x02\0\0\0\0\0\0\0\x04\0\0\0\x05\0\0\0\0";

/// A worked job: what comes, of which so many parts, and what comes of it.
#[derive(Clone, Copy)]
pub(super) struct Worked<'a> {
    pub task: Task,
    pub settings: &'static str,
    script: &'a [Comes<'a>],
    parts: usize,
    /// How many parts come before each frame's reply to START; its parameters and its data come behind that.
    pub frames: &'static [usize],
    pub files: &'static [u8],
    /// What is sent last.
    sent: &'static [u8],
}

impl Worked<'_> {
    /// The bytes of the first so many parts.
    pub fn bytes(&self, parts: usize) -> usize {
        let mut total = 0usize;
        for comes in self.script.iter().take(parts.min(self.parts)) {
            total = total.saturating_add(comes.bytes().len());
        }
        total
    }

    /// What a client makes of the first `most` bytes, in pieces of that size.
    pub fn begun(&self, rt: &impl Abort, alloc: Global, size: usize, most: usize) -> Played {
        let mut played = Played::new(rt, alloc, self.settings, self.task);
        let script = self.script.get(..self.parts).unwrap_or(self.script);
        played.hears_all(rt, script, size, most);
        played
    }
}

/// The reply to START at port 40001, big-endian.
const BIG: &[u8] = b"\0\0\0\0\0\0\x9c\x41\0\0\x43\x21\0\0\0\0";

/// Three colors one after another.
pub(super) const COLORS: &[Comes<'static>] = &[
    Comes::Control(GREETED),
    Comes::Control(OPENED),
    Comes::Control(NO_OPTIONS),
    Comes::Control(BIG),
    Comes::Control(b"\0\0\0\0\0\0\0\x04\0\0\0\0\0\0\0\x04\0\0\0\x02\0\0\0\x01\0\0\0\x10"),
    Comes::Data(b"\0\0\0\x04\0\x03\x01\0\xff\xff\xff\xff\x05"),
    Comes::Control(BIG),
    Comes::Control(b"\0\0\0\0\0\0\0\x03\0\0\0\0\0\0\0\x04\0\0\0\x02\0\0\0\x01\0\0\0\x10"),
    Comes::Data(b"\0\0\0\x04\0\x02\0\x05\xff\xff\xff\xff\x05"),
    Comes::Control(BIG),
    Comes::Control(b"\0\0\0\0\0\0\0\x02\0\0\0\x01\0\0\0\x04\0\0\0\x02\0\0\0\x01\0\0\0\x10"),
    Comes::Data(b"\0\0\0\x04\0\x01\0\x04\xff\xff\xff\xff\x05"),
];

/// A line with lost pixels.
const LOST_DOTS: &[Comes<'static>] = &[
    Comes::Control(GREETED),
    Comes::Control(OPENED),
    Comes::Control(NO_OPTIONS),
    Comes::Control(STARTED),
    Comes::Control(b"\0\0\0\0\0\0\0\x01\0\0\0\x01\0\0\0\x0f\0\0\0\x02\0\0\0\x01\0\0\0\x08"),
    Comes::Data(
        b"\0\0\0\x01\x01\0\0\0\x01\x02\0\0\0\x01\x03\0\0\0\x01\x04\0\0\0\x01\x05\0\0\0\x01\x06\0\0\0\0\0\0\0\x09\0\0\0\0\0\0\0\0\0\xff\xff\xff\xff\x05",
    ),
];

/// A frame of unknown height.
const UNKNOWN: &[Comes<'static>] = &[
    Comes::Control(GREETED),
    Comes::Control(OPENED),
    Comes::Control(NO_OPTIONS),
    Comes::Control(STARTED),
    Comes::Control(b"\0\0\0\0\0\0\0\0\0\0\0\x01\0\0\0\x02\0\0\0\x09\xff\xff\xff\xff\0\0\0\x01"),
    Comes::Data(b"\0\0\0\x03\x80\0\x80\0\0\0\x01\0\xff\xff\xff\xff\x05"),
];

/// Two pages of a feeder, and then none.
pub(super) const PAGES: &[Comes<'static>] = &[
    Comes::Control(GREETED),
    Comes::Control(OPENED),
    Comes::Control(NO_OPTIONS),
    Comes::Control(STARTED),
    Comes::Control(ONE_GRAY),
    Comes::Data(b"\0\0\0\x01\x07\xff\xff\xff\xff\x05"),
    Comes::Control(STARTED),
    Comes::Control(ONE_GRAY),
    Comes::Data(b"\0\0\0\x01\x09\xff\xff\xff\xff\x05"),
    Comes::Control(b"\0\0\0\x07\0\0\0\0\0\0\x12\x34\0\0\0\0"),
];

/// A device that asks for a digest, which is answered.
pub(super) const ASKS: &[Comes<'static>] = &[
    Comes::Control(GREETED),
    Comes::Control(b"\0\0\0\0\0\0\0\0\0\0\0\x0eflatbed$MD5$a\0"),
    Comes::Control(b"\0\0\0\0"),
    Comes::Control(OPENED),
    Comes::Control(NO_OPTIONS),
];

/// A list of no device, with the NULL pointer at its end and without.
const LISTED: &[Comes<'static>] = &[
    Comes::Control(GREETED),
    Comes::Control(b"\0\0\0\0\0\0\0\x01\0\0\0\x01"),
];

pub(super) const LISTED_BARE: &[Comes<'static>] = &[
    Comes::Control(GREETED),
    Comes::Control(b"\0\0\0\0\0\0\0\0"),
];

/// What is sent last: CLOSE and EXIT, behind GET_PARAMETERS or, of a feeder that is empty, START.
const SCANNED: &[u8] = b"\0\0\0\x06\0\0\0\x02\0\0\0\x03\0\0\0\x02\0\0\0\x0a";

const EMPTY: &[u8] = b"\0\0\0\x07\0\0\0\x02\0\0\0\x03\0\0\0\x02\0\0\0\x0a";

const LIST_SENT: &[u8] = b"\0\0\0\0\x01\0\0\x03\0\0\0\x05user\0\0\0\0\x01\0\0\0\x0a";

/// The digest of the challenge and the password, and what follows.
const DIGEST_SENT: &[u8] =
    b"\0\0\0\x09\0\0\0\x0eflatbed$MD5$a\0\0\0\0\x05user\0\0\0\0\x26$MD5$900150983cd24fb0d6963f7d28e17f72\0\0\0\0\x04\0\0\0\x02\0\0\0\x03\0\0\0\x02\0\0\0\x0a";

const PAGES_FILES: &[u8] =
    b"P5\n# SANE data follows\n1 1\n255\n\x07P5\n# SANE data follows\n1 1\n255\n\x09";

const GRAY: &[u8] = b"P5\n# SANE data follows\n1 1\n255\n\x0a";

const COLORS_FILE: &[u8] =
    b"P6\n# SANE data follows\n2 1\n65535\n\0\x01\0\x02\0\x03\0\x04\0\x05\x01\0";

const LOST_FILE: &[u8] = b"P6\n# SANE data follows\n2 1\n255\n\x01\x02\x03\x04\x05\x06";

const UNKNOWN_FILE: &[u8] = b"P4\n# SANE data follows\n9 2\n\x80\0\x80\0";

/// A scan of one gray pixel.
const ONE: Worked<'static> = Worked {
    task: Task::Scan,
    settings: "",
    script: SCAN,
    parts: usize::MAX,
    frames: &[3],
    files: GRAY,
    sent: SCANNED,
};

/// A job without frames and files.
const ASKED: Worked<'static> = Worked {
    task: Task::SetOnly,
    script: ASKS,
    frames: &[],
    files: b"",
    sent: DIGEST_SENT,
    ..ONE
};

const LIST: Worked<'static> = Worked {
    task: Task::List,
    script: LISTED,
    sent: LIST_SENT,
    ..ASKED
};

const BATCH: Worked<'static> = Worked {
    task: Task::Batch(16),
    script: PAGES,
    frames: &[3, 6],
    files: PAGES_FILES,
    sent: EMPTY,
    ..ONE
};

/// One gray pixel, three colors one after another, a line with lost pixels, a frame of unknown height, each page of a batch as a
/// file of its own, lists, and a resource that asks for a digest.
pub(super) const WORKED: &[Worked<'static>] = &[
    ONE,
    Worked {
        script: COLORS,
        frames: &[3, 6, 9],
        files: COLORS_FILE,
        ..ONE
    },
    Worked {
        script: LOST_DOTS,
        files: LOST_FILE,
        ..ONE
    },
    Worked {
        script: UNKNOWN,
        files: UNKNOWN_FILE,
        ..ONE
    },
    BATCH,
    Worked {
        task: Task::Batch(2),
        parts: 9,
        sent: SCANNED,
        ..BATCH
    },
    LIST,
    Worked {
        script: LISTED_BARE,
        ..LIST
    },
    ASKED,
    // The seventh option is put as 80.5 and given as 81; behind RELOAD_OPTIONS the descriptors are asked for again; and an option
    // is shown.
    Worked {
        settings: PUT,
        script: PUTS,
        sent: PUT_SENT,
        ..ASKED
    },
    Worked {
        settings: PUT,
        script: RELOADS,
        sent: RELOAD_SENT,
        ..ASKED
    },
    Worked {
        task: Task::Show,
        script: SHOWS,
        sent: SHOW_SENT,
        ..ASKED
    },
];

/// Whole and byte by byte each is done, with these files, and sent this last.
#[test]
fn worked_jobs(rt: HostRuntime) {
    for worked in WORKED {
        for size in SIZES {
            let played = worked.begun(&rt, rt.alloc(), *size, usize::MAX);
            assert!(&rt; played.over() == Over::Done && played.sent.ends_with(worked.sent));
            assert!(&rt; played.files.as_slice() == worked.files);
            drop(played);
        }
    }
}

/// The settings of those jobs, and what they send last: a SET to 80.5, CLOSE and EXIT.
pub(super) const PUT: &str = "br-x=80.5";

/// The replies to that, without RELOAD_OPTIONS and with it.
const GIVEN: &[u8] = b"\0\0\0\0\0\0\0\x05\0\0\0\x02\0\0\0\x04\0\0\0\x01\0\x51\0\0\0\0\0\0";

const RELOADED: &[u8] = b"\0\0\0\0\0\0\0\x07\0\0\0\x02\0\0\0\x04\0\0\0\x01\0\x51\0\0\0\0\0\0";

/// The reply to a GET of a resolution, and what the job that shows it sends last.
const SHOWN: &[u8] = b"\0\0\0\0\0\0\0\0\0\0\0\x01\0\0\0\x04\0\0\0\x01\0\0\0\x32\0\0\0\0";

const SHOW_SENT: &[u8] =
    b"\0\0\0\x05\0\0\0\x02\0\0\0\0\0\0\0\0\0\0\0\x01\0\0\0\x04\0\0\0\x01\0\0\0\0\0\0\0\x03\0\0\0\x02\0\0\0\x0a";

pub(super) const PUTS: &[Comes<'static>] = &[
    Comes::Control(GREETED),
    Comes::Control(OPENED),
    Comes::Control(SEVENTH),
    Comes::Control(GIVEN),
];

const RELOADS: &[Comes<'static>] = &[
    Comes::Control(GREETED),
    Comes::Control(OPENED),
    Comes::Control(BR_X),
    Comes::Control(RELOADED),
    Comes::Control(BR_X),
];

pub(super) const SHOWS: &[Comes<'static>] = &[
    Comes::Control(GREETED),
    Comes::Control(OPENED),
    Comes::Control(RESOLUTION),
    Comes::Control(SHOWN),
];

const PUT_SENT: &[u8] =
    b"\0\0\0\x05\0\0\0\x02\0\0\0\x06\0\0\0\x01\0\0\0\x02\0\0\0\x04\0\0\0\x01\0\x50\x80\0\0\0\0\x03\0\0\0\x02\0\0\0\x0a";

const RELOAD_SENT: &[u8] = b"\0\0\0\x04\0\0\0\x02\0\0\0\x03\0\0\0\x02\0\0\0\x0a";

/// A device that asks for a plain password.
const ASKS_PLAIN: &[Comes<'static>] = &[
    Comes::Control(GREETED),
    Comes::Control(b"\0\0\0\0\0\0\0\0\0\0\0\x02a\0"),
];

#[test]
fn a_plain_password(rt: HostRuntime) {
    let mut played = Played::new(&rt, rt.alloc(), "", Task::SetOnly);
    played.hears_all(&rt, ASKS_PLAIN, 1, usize::MAX);
    assert!(&rt; played.over() == Over::Ended(Status::AccessDenied, Why::Plain));
    drop(played);
}
