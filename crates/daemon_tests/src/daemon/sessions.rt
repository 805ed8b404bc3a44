//! Worked sessions by raw messages, byte by byte.

use super::*;

/// A session behind its greeting: what comes and is answered, and what then ends it, each in a session of its own.
#[derive(Clone, Copy)]
struct Worked {
    users: &'static [u8],
    strings: StringSize,
    exchanges: &'static [Exchange],
    ends: &'static [Exchange],
}

const PLAIN: Worked = Worked {
    users: b"",
    strings: StringSize::OfText,
    exchanges: &[],
    ends: &[],
};

/// An AUTHORIZE, and what it is answered: ann's password is `bc`.
const CHALLENGED: Exchange = (
    OPEN,
    b"\0\0\0\0\0\0\0\0\0\0\0\x2dflatbed$MD5$ade0b876903df1a0e56a5d4028bd8653\0",
);

const ALLOWED: Exchange = (
    b"\0\0\0\x09\0\0\0\x2dflatbed$MD5$ade0b876903df1a0e56a5d4028bd8653\0\0\0\0\x04ann\0\0\0\0\x26$MD5$0310242a44f9fb28f6385c9800ec1aa1\0",
    b"\0\0\0\0\0\0\0\0\0\0\0\0\0\0\0\0",
);

const DENIED: &[u8] = b"\0\0\0\0\0\0\0\x0b\0\0\0\0\0\0\0\0";

/// The digest of another challenge.
const OTHER_DIGEST: &[u8] =
    b"\0\0\0\x09\0\0\0\x2dflatbed$MD5$ade0b876903df1a0e56a5d4028bd8653\0\0\0\0\x04ann\0\0\0\0\x26$MD5$900150983cd24fb0d6963f7d28e17f72\0";

/// A second greeting is answered alike, one of another major ends the session, and so do what spells nothing (no code is 11, no
/// action 2, and no string has 1,025 bytes), an AUTHORIZE that is not awaited, and EXIT.
const GREETINGS: Worked = Worked {
    exchanges: &[GREETING],
    ends: &[
        (
            b"\0\0\0\0\x02\0\0\x03\0\0\0\x05user\0",
            b"\0\0\0\x04\x01\0\0\x03",
        ),
        (b"\0\0\0\x0b", b""),
        (b"\0\0\0\x05\0\0\0\0\0\0\0\x06\0\0\0\x02", b""),
        (b"\0\0\0\x02\0\0\x04\x01", b""),
        (b"\0\0\0\x09\0\0\0\0\0\0\0\0\0\0\0\0", b""),
        (b"\0\0\0\x0a", b""),
    ],
    ..PLAIN
};

/// While AUTHORIZE is awaited another request ends the session; behind it none is awaited.
const ASKED_FIRST: Worked = Worked {
    users: b"ann:bc:flatbed\n",
    exchanges: &[CHALLENGED],
    ends: &[(INIT, b""), (OPEN, b"")],
    ..PLAIN
};

const OPENED_THEN: Worked = Worked {
    exchanges: &[CHALLENGED, ALLOWED],
    ends: &[(OTHER_DIGEST, b"")],
    ..ASKED_FIRST
};

const DENIED_THEN: Worked = Worked {
    exchanges: &[CHALLENGED, (OTHER_DIGEST, DENIED)],
    ends: &[],
    ..ASKED_FIRST
};

/// Four words; the least free one is given, and a name is not looked up where there is none.
const FIVE_OPENS: Worked = Worked {
    exchanges: &[
        (OPEN, OPENED),
        (OPEN, BUSY),
        (
            b"\0\0\0\x02\0\0\0\x0aflatbed:1\0",
            b"\0\0\0\0\0\0\0\x01\0\0\0\0",
        ),
        (
            b"\0\0\0\x02\0\0\0\x0aflatbed:2\0",
            b"\0\0\0\0\0\0\0\x02\0\0\0\0",
        ),
        (
            b"\0\0\0\x02\0\0\0\x0aflatbed:3\0",
            b"\0\0\0\0\0\0\0\x03\0\0\0\0",
        ),
        (
            b"\0\0\0\x02\0\0\0\x0aflatbed:4\0",
            b"\0\0\0\x01\0\0\0\0\0\0\0\0",
        ),
        (b"\0\0\0\x03\0\0\0\x02", NOTHING),
        (
            b"\0\0\0\x02\0\0\0\x0aflatbed:4\0",
            b"\0\0\0\0\0\0\0\x02\0\0\0\0",
        ),
    ],
    ..PLAIN
};

/// Requests of the word 9, which no session has.
const NO_LEASE: Worked = Worked {
    exchanges: &[
        (
            b"\0\0\0\x07\0\0\0\x09",
            b"\0\0\0\x04\0\0\0\0\0\0\x12\x34\0\0\0\0",
        ),
        (
            b"\0\0\0\x05\0\0\0\x09\0\0\0\x06\0\0\0\x01\0\0\0\x02\0\0\0\x04\0\0\0\x01\0\x50\x80\0",
            b"\0\0\0\x04\0\0\0\0\0\0\0\x02\0\0\0\x04\0\0\0\x01\0\x50\x80\0\0\0\0\0",
        ),
        (
            b"\0\0\0\x06\0\0\0\x09",
            b"\0\0\0\x04\0\0\0\0\0\0\0\0\0\0\0\0\0\0\0\0\0\0\0\0\0\0\0\0",
        ),
    ],
    ..PLAIN
};

/// br-x as an INT, and mode as SANE, which no string of its list matches.
const AS_INT: Exchange = (
    b"\0\0\0\x05\0\0\0\0\0\0\0\x06\0\0\0\x01\0\0\0\x01\0\0\0\x04\0\0\0\x01\0\0\0\x50",
    b"\0\0\0\x04\0\0\0\0\0\0\0\x01\0\0\0\x04\0\0\0\x01\0\0\0\x50\0\0\0\0",
);

const SANE: &[u8] = b"\0\0\0\x05\0\0\0\0\0\0\0\x01\0\0\0\x01\0\0\0\x03\0\0\0\x05\0\0\0\x05SANE\0";

/// A value of another type is refused, also where the device scans; a GET looks at no type.
const VALUES: Worked = Worked {
    exchanges: &[
        (OPEN, OPENED),
        // br-x, a FIXED, of 80.5 is put as 81; and a GET of it, as if it were a text
        (
            b"\0\0\0\x05\0\0\0\0\0\0\0\x06\0\0\0\x01\0\0\0\x02\0\0\0\x04\0\0\0\x01\0\x50\x80\0",
            b"\0\0\0\0\0\0\0\x05\0\0\0\x02\0\0\0\x04\0\0\0\x01\0\x51\0\0\0\0\0\0",
        ),
        (
            b"\0\0\0\x05\0\0\0\0\0\0\0\x06\0\0\0\0\0\0\0\x03\0\0\0\x03\0\0\0\x03gr\0",
            b"\0\0\0\0\0\0\0\0\0\0\0\x02\0\0\0\x04\0\0\0\x01\0\x51\0\0\0\0\0\0",
        ),
        AS_INT,
        (
            SANE,
            b"\0\0\0\x04\0\0\0\0\0\0\0\x03\0\0\0\x05\0\0\0\x05SANE\0\0\0\0\0",
        ),
        // resolution 26, br-x 1, br-y 1; and the parameters behind START
        (
            b"\0\0\0\x05\0\0\0\0\0\0\0\x03\0\0\0\x01\0\0\0\x01\0\0\0\x04\0\0\0\x01\0\0\0\x1a\0\0\0\x05\0\0\0\0\0\0\0\x06\0\0\0\x01\0\0\0\x02\0\0\0\x04\0\0\0\x01\0\x01\0\0\0\0\0\x05\0\0\0\0\0\0\0\x07\0\0\0\x01\0\0\0\x02\0\0\0\x04\0\0\0\x01\0\x01\0\0",
            b"\0\0\0\0\0\0\0\x04\0\0\0\x01\0\0\0\x04\0\0\0\x01\0\0\0\x1a\0\0\0\0\0\0\0\0\0\0\0\x04\0\0\0\x02\0\0\0\x04\0\0\0\x01\0\x01\0\0\0\0\0\0\0\0\0\0\0\0\0\x04\0\0\0\x02\0\0\0\x04\0\0\0\x01\0\x01\0\0\0\0\0\0",
        ),
        (START, STARTED),
        (
            b"\0\0\0\x06\0\0\0\0",
            b"\0\0\0\0\0\0\0\0\0\0\0\x01\0\0\0\x01\0\0\0\x01\0\0\0\x01\0\0\0\x08",
        ),
        AS_INT,
        (
            SANE,
            b"\0\0\0\x03\0\0\0\0\0\0\0\x03\0\0\0\x05\0\0\0\x05SANE\0\0\0\0\0",
        ),
        (START, START_BUSY),
    ],
    ..PLAIN
};

/// mode, a text of 6 bytes, set to `gr`.
const SET_MODE: &[u8] = b"\0\0\0\x05\0\0\0\0\0\0\0\x01\0\0\0\x01\0\0\0\x03\0\0\0\x03\0\0\0\x03gr\0";

/// A string value's size and length in a reply are those of its text with a NUL, or those of its option.
const TEXTS: Worked = Worked {
    exchanges: &[
        (OPEN, OPENED),
        (
            SET_MODE,
            b"\0\0\0\0\0\0\0\x05\0\0\0\x03\0\0\0\x05\0\0\0\x05Gray\0\0\0\0\0",
        ),
    ],
    ..PLAIN
};

const FILLED: Worked = Worked {
    strings: StringSize::OfOption,
    exchanges: &[
        (OPEN, OPENED),
        (
            SET_MODE,
            b"\0\0\0\0\0\0\0\x05\0\0\0\x03\0\0\0\x06\0\0\0\x06Gray\0\0\0\0\0\0",
        ),
    ],
    ..PLAIN
};

const SESSIONS: &[Worked] = &[
    GREETINGS,
    ASKED_FIRST,
    OPENED_THEN,
    DENIED_THEN,
    FIVE_OPENS,
    NO_LEASE,
    VALUES,
    TEXTS,
    FILLED,
];

/// A session has heard and answered all exchanges; then this may end it, behind which it is over.
fn expect_worked(rt: &impl Abort, alloc: Global, worked: &Worked, end: Option<Exchange>) {
    let mut daemon = flatbeds(rt, alloc, worked.users, worked.strings);
    let id = session(rt, alloc, &mut daemon);
    expect_each(rt, alloc, &mut daemon, id, worked.exchanges);
    if let Some(end) = end {
        expect_fed(rt, alloc, &mut daemon, id, end, Fed::Over);
        assert!(rt; daemon.feed(alloc, id, &[0]) == Fed::Over);
        assert!(rt; daemon.take_reply(id, &mut [0; 64]) == 0usize);
    }
    drop(daemon);
}

#[test]
fn worked_sessions(rt: HostRuntime) {
    for worked in SESSIONS {
        expect_worked(&rt, rt.alloc(), worked, None);
        for end in worked.ends {
            expect_worked(&rt, rt.alloc(), worked, Some(*end));
        }
    }
}
