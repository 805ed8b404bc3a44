//! Jobs over streams in memory that end, fail, are interrupted and move little.

use crate::common::{LOST, SETTING, SINK, job};
use crate::outputs::{Disk, Full, Rack};
use net_jobs::{Dial, DialFault, run_batch, run_job};
use scan_job::{Outcome, Task};
use std::alloc::Global;
use std::collections::VecDeque;
use std::io::{self, ErrorKind, Read, Write};
use std::process::Abort;
use testing::{Over, how};

/// A control connection whose peer has said everything beforehand. Every other call is interrupted.
#[derive(Drop)]
struct PeerText {
    input: VecDeque<u8>,
    output: Vec<u8>,
    /// How many bytes it takes before it fails.
    most: usize,
    /// How many bytes it says at once.
    at_once: usize,
    calls: u64,
}

impl PeerText {
    fn is_interrupted(&mut self) -> bool {
        self.calls = self.calls.saturating_add(1);
        self.calls % 2 == 1
    }
}

impl Read for PeerText {
    fn read(&mut self, buf: &mut [u8]) -> io::Result<usize> {
        if self.is_interrupted() {
            return Err(io::Error::from(ErrorKind::Interrupted));
        }
        let n = buf.len().min(self.at_once);
        self.input.read(&mut buf[..n])
    }
}

impl Write for PeerText {
    fn write(&mut self, buf: &[u8]) -> io::Result<usize> {
        if self.is_interrupted() {
            return Err(io::Error::from(ErrorKind::Interrupted));
        }
        if self.output.len() >= self.most {
            return Ok(0);
        }
        let n = buf.len().min(self.most - self.output.len()).min(7);
        self.output.write(&buf[..n])
    }

    fn flush(&mut self) -> io::Result<()> {
        self.output.flush()
    }
}

/// The data of each frame, in their order.
#[derive(Drop)]
struct Frames {
    frames: VecDeque<VecDeque<u8>>,
    /// The ports that it was told to prepare, and those that it was asked for.
    prepared: Vec<u16>,
    asked: Vec<u16>,
}

impl Dial for Frames {
    type Conn = VecDeque<u8>;

    fn prepare(&mut self, port: u16) {
        let _ = self.prepared.push(port);
    }

    fn dial(&mut self, port: u16) -> Result<VecDeque<u8>, DialFault> {
        let _ = self.asked.push(port);
        self.frames.pop_front().ok_or(DialFault)
    }
}

/// The replies to INIT, OPEN (device word 2), GET_OPTION_DESCRIPTORS (no option), and to START and GET_PARAMETERS.
const OPENED: &[u8] = b"\0\0\0\0\x01\0\0\x03\0\0\0\0\0\0\0\x02\0\0\0\0\0\0\0\0";

const ONE_GRAY: &[u8] =
    b"\0\0\0\0\0\0\x9c\x41\0\0\x12\x34\0\0\0\0\0\0\0\0\0\0\0\0\0\0\0\x01\0\0\0\x01\0\0\0\x01\0\0\0\x01\0\0\0\x08";

const NO_PAGE: &[u8] = b"\0\0\0\x07\0\0\0\0\0\0\x12\x34\0\0\0\0";

const ASKED: &[u8] =
    b"\0\0\0\0\x01\0\0\x03\0\0\0\x05user\0\0\0\0\x02\0\0\0\x0aflatbed:0\0\0\0\0\x04\0\0\0\x02\0\0\0\x07\0\0\0\x02\0\0\0\x06\0\0\0\x02\0\0\0\x03\0\0\0\x02\0\0\0\x0a";

/// The data of two pages of one place, and their files, of 32 bytes.
const DATA: &[&[u8]] = &[
    b"\0\0\0\x01\x07\xff\xff\xff\xff\x05",
    b"\0\0\0\x01\x09\xff\xff\xff\xff\x05",
];

const FILES: &[&[u8]] = &[
    b"P5\n# SANE data follows\n1 1\n255\n\x07",
    b"P5\n# SANE data follows\n1 1\n255\n\x09",
];

/// A peer that says these parts.
fn peer(rt: &impl Abort, alloc: Global, parts: &[&[u8]]) -> PeerText {
    let input = testing::joined(alloc, parts).expect(rt, "memory");
    PeerText {
        input: VecDeque::from(input),
        output: Vec::new(alloc),
        most: usize::MAX,
        at_once: usize::MAX,
        calls: 0,
    }
}

fn streams(rt: &impl Abort, alloc: Global, data: &[&[u8]]) -> Frames {
    let mut frames = VecDeque::new(alloc);
    for bytes in data {
        let stream = Vec::from_slice(alloc, bytes).expect(rt, "memory");
        let pushed = frames.push_back(VecDeque::from(stream));
        pushed.expect(rt, "memory");
    }
    Frames {
        frames,
        prepared: Vec::new(alloc),
        asked: Vec::new(alloc),
    }
}

/// How many bytes of the replies to a scan come, how many of its requests are taken, and how many of its file.
type Limits = (usize, usize, usize);

const MAX: usize = usize::MAX;

/// A scan of one place within these limits ends so, or is done, and asks for no more than a scan does. Says how long its file
/// is, which is a front of the whole one.
fn expect(
    rt: &impl Abort,
    alloc: Global,
    data: &[&[u8]],
    (heard, asked, most): Limits,
    over: Over,
) -> usize {
    let mut control = peer(rt, alloc, &[OPENED, ONE_GRAY]);
    control.input.truncate(heard);
    control.most = asked;
    let mut dial = streams(rt, alloc, data);
    let mut out = Disk::new(alloc, most, 0, Full::FailsOnce);
    let given = job(rt, alloc, "", Task::Scan);
    let outcome = run_job(alloc, given, &mut control, &mut dial, &mut out);
    let said = control.output.as_slice();
    assert!(rt; how(&outcome) == over && ASKED.starts_with(said));
    assert!(rt; over != Over::Done || said.len() == ASKED.len().min(asked));
    assert!(rt; FILES[0].starts_with(out.taken.as_slice()));
    let length = out.taken.len();
    drop((outcome, out, control, dial));
    length
}

/// Replies, requests and data that end after each byte, and no data connection at all: the scan is lost and leaves no whole
/// file, but where only CLOSE and EXIT are not taken, behind which the file is whole.
#[test]
fn streams_that_end(rt: HostRuntime) {
    let alloc = rt.alloc();
    let data = DATA.get(..1).expect(&rt, "data");
    assert!(&rt; expect(&rt, alloc, data, (MAX, MAX, MAX), Over::Done) == 32);
    for heard in 0..68usize {
        assert!(&rt; expect(&rt, alloc, data, (heard, MAX, MAX), LOST) < 32);
    }
    for asked in 0..ASKED.len() {
        let is_lost = asked < ASKED.len().saturating_sub(12);
        let over = if is_lost { LOST } else { Over::Done };
        assert!(&rt; (expect(&rt, alloc, data, (MAX, asked, MAX), over) < 32) == is_lost);
    }
    for count in 0..10usize {
        let cut = [DATA[0].get(..count).expect(&rt, "a front")];
        assert!(&rt; expect(&rt, alloc, &cut, (MAX, MAX, MAX), LOST) < 32);
    }
    assert!(&rt; expect(&rt, alloc, &[], (MAX, MAX, MAX), LOST) < 32);
}

/// The ports of the frames of two pages.
const PORTS: &[u16] = &[40001, 40001];

/// What two pages of a feeder, and then none, come to, each reply only behind its request; each frame's port is told once
/// before its connection is asked for.
fn feed(rt: &impl Abort, alloc: Global, rack: &mut Rack, count: u32) -> Outcome {
    let mut control = peer(rt, alloc, &[OPENED, ONE_GRAY, ONE_GRAY, NO_PAGE]);
    control.at_once = 1;
    let mut dial = streams(rt, alloc, DATA);
    let batch = job(rt, alloc, "", Task::Batch(count));
    let outcome = run_batch(alloc, batch, &mut control, &mut dial, rack);
    let (asked, told) = (dial.asked.as_slice(), dial.prepared.as_slice());
    assert!(rt; PORTS.starts_with(asked));
    assert!(rt; PORTS.starts_with(told) && (asked == told || how(&outcome) != Over::Done));
    drop((control, dial));
    outcome
}

/// An output that takes so many bytes and then fails, for each number, of a scan and of a batch, which asks for no other.
#[test]
fn outputs_that_fail(rt: HostRuntime) {
    let alloc = rt.alloc();
    let data = DATA.get(..1).expect(&rt, "data");
    for most in 0..32usize {
        assert!(&rt; expect(&rt, alloc, data, (MAX, MAX, most), SINK) == most);
        let mut rack = Rack::new(alloc, most, 0, 0);
        let outcome = feed(&rt, alloc, &mut rack, 2);
        assert!(&rt; how(&outcome) == SINK && rack.opens == 1);
        let front = FILES[0].get(..most).expect(&rt, "a front");
        assert!(&rt; rack.holds(&[front]));
        drop(outcome);
        drop(rack);
    }
}

/// The most pages of a batch, the numbers of the output that is not opened and of that which is not taken back, how many
/// files come of it, and how it ends.
type Batch = (u32, u32, usize, usize, Over);

/// Batches that are done; an output that cannot be made, and one that is not taken back; and a batch of too many pages.
const BATCHES: &[Batch] = &[
    (16, 0, 0, 2, Over::Done),
    (2, 0, 0, 2, Over::Done),
    (1, 0, 0, 1, Over::Done),
    (2, 1, 0, 0, SINK),
    (2, 2, 0, 1, SINK),
    (2, 0, 1, 1, SINK),
    (2, 0, 2, 2, SINK),
    (17, 0, 0, 0, SETTING),
];

#[test]
fn batches_over_streams(rt: HostRuntime) {
    let alloc = rt.alloc();
    for (count, never_opens, never_takes, files, over) in BATCHES {
        let mut rack = Rack::new(alloc, usize::MAX, *never_opens, *never_takes);
        let outcome = feed(&rt, alloc, &mut rack, *count);
        assert!(&rt; how(&outcome) == *over);
        assert!(&rt; rack.holds(FILES.get(..*files).expect(&rt, "files")));
        drop(outcome);
        drop(rack);
    }
}
