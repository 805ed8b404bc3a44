use super::*;

const MALFORMED: Over = Over::Ended(Status::IoError, Why::Malformed);

const REFUSED: Over = Over::Ended(Status::IoError, Why::Answer);

/// A red frame that is the last.
const RED_ALONE: &[u8] = b"\0\0\0\0\0\0\0\x02\0\0\0\x01\0\0\0\x01\0\0\0\x01\0\0\0\x01\0\0\0\x08";

/// Behind how many parts of a scan something else comes, what comes, and how the scan ends by it.
type Strange = (usize, &'static [u8], Over);

/// Replies that no daemon of ours sends: before a frame is asked for, where one is, and as its data.
const STRANGERS: &[Strange] = &[
    (0, b"\0\0\0\x0c\x01\0\0\x03", MALFORMED),
    (0, b"\0\0\0\x09\x01\0\0\x03", REFUSED),
    (1, b"\0\0\0\0\0\0\0\0\0\0\0\x01b", MALFORMED),
    (2, b"\0\0\0\x01\0\0\0\x01", MALFORMED),
    (3, b"\0\0\0\0\0\x01\0\0\0\0\x12\x34\0\0\0\0", MALFORMED),
    (3, b"\0\0\0\x04\0\0\0\0\0\0\x12\x34\0\0\0\x02a\0", MALFORMED),
    (4, RED_ALONE, MALFORMED),
    (5, b"\xff\xff\xff\xff\0", MALFORMED),
    (5, b"\xff\xff\xff\xff\x0c", MALFORMED),
    (5, b"\xff\xff\xff\xff\x05", SHORT),
    (5, b"\0\0\0\x02\x01\x02\xff\xff\xff\xff\x05", LONG),
];

const LONG: Over = Over::Ended(Status::IoError, Why::Long);

/// How a scan ends of which these parts come, and then these bytes; it leaves no whole file.
fn expect_end(rt: &impl Abort, alloc: Global, before: &[Comes<'_>], last: Comes<'_>, over: Over) {
    for size in SIZES {
        let mut played = Played::new(rt, alloc, "", Task::Scan);
        played.hears_all(rt, before, *size, usize::MAX);
        played.hears(rt, last, *size, usize::MAX);
        assert!(rt; played.over() == over && played.files.len() < 32);
        drop(played);
    }
}

#[test]
fn strange_replies(rt: HostRuntime) {
    for (parts, bytes, over) in STRANGERS {
        let before = SCAN.get(..*parts).expect(&rt, "parts of the scan");
        let last = if *parts == 5 {
            Comes::Data(bytes)
        } else {
            Comes::Control(bytes)
        };
        expect_end(&rt, rt.alloc(), before, last, *over);
    }
}

/// A scan of gray lines of unknown number, as far as its data.
const OPEN_ENDED: &[Comes<'static>] = &[
    Comes::Control(GREETED),
    Comes::Control(OPENED),
    Comes::Control(NO_OPTIONS),
    Comes::Control(STARTED),
    Comes::Control(b"\0\0\0\0\0\0\0\0\0\0\0\x01\0\0\0\x01\0\0\0\x01\xff\xff\xff\xff\0\0\0\x08"),
];

/// No line at all of an unknown number of lines is short.
#[test]
fn no_line_at_all(rt: HostRuntime) {
    let end = Comes::Data(b"\xff\xff\xff\xff\x05");
    expect_end(&rt, rt.alloc(), OPEN_ENDED, end, SHORT);
}

/// The next of a row of numbers without rule.
fn next(seed: u64) -> u64 {
    seed.wrapping_mul(6364136223846793005)
        .wrapping_add(1442695040888963407)
}

/// The bytes of a part come one at a time, the one at that place as another.
fn come_changed(client: &mut Client, comes: Comes<'_>, place: u64, byte: u8) {
    connect(client, comes);
    let mut at = 0u64;
    for b in comes.bytes() {
        let sent = [if at == place { byte } else { *b }];
        feed(client, comes, &sent);
        at = at.saturating_add(1);
    }
}

/// Whether a job that is done leaves a file of one pixel, of depth 8 or 1, and any other not the scan's.
fn is_no_wrong_file(played: &Played) -> bool {
    let file = &played.files;
    if played.over() != Over::Done {
        return !file.ends_with(b"\n1 1\n255\n\x0a");
    }
    (file.len() == 32 && file.starts_with(b"P5\n# SANE data follows\n1 1\n255\n"))
        || (file.len() == 28 && file.starts_with(b"P4\n# SANE data follows\n1 1\n"))
}

/// Ten thousand peers, each of which changes a byte of a scan.
#[test]
fn a_peer_that_answers_anything(rt: HostRuntime) {
    let mut seed = 0x5eed_u64;
    for _ in 0..10_000 {
        seed = next(seed);
        let mut place = (seed >> 33) % 78;
        seed = next(seed);
        let byte = ((seed >> 33) % 256) as u8;
        let mut played = Played::new(&rt, rt.alloc(), "", Task::Scan);
        for comes in SCAN {
            come_changed(&mut played.client, *comes, place, byte);
            played.drain(&rt);
            place = place.wrapping_sub(comes.bytes().len() as u64);
        }
        assert!(&rt; is_no_wrong_file(&played));
        drop(played);
    }
}
