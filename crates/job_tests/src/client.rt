use crate::common::{LOST, SHORT, job, text};
use net_client::{Client, Link};
use sane_fixed::Status;
use scan_job::{JobFault, Task, Why};
use std::alloc::Global;
use std::process::Abort;
use testing::{Over, how};

mod cut;
mod jobs;
mod statuses;
mod strangers;

/// What comes, and on which connection.
#[derive(Clone, Copy)]
enum Comes<'a> {
    Control(&'a [u8]),
    /// A data connection is made, and this comes.
    Data(&'a [u8]),
}

impl<'a> Comes<'a> {
    fn bytes(&self) -> &'a [u8] {
        match self {
            Comes::Control(bytes) | Comes::Data(bytes) => bytes,
        }
    }
}

/// What a client made of it.
#[derive(Drop)]
struct Played {
    client: Client,
    sent: Vec<u8>,
    /// The files, one behind the other.
    files: Vec<u8>,
}

/// The reply to INIT, and that to OPEN with the device word 2.
const GREETED: &[u8] = b"\0\0\0\0\x01\0\0\x03";

const OPENED: &[u8] = b"\0\0\0\0\0\0\0\x02\0\0\0\0";

/// The reply to START at port 40001, little-endian.
const STARTED: &[u8] = b"\0\0\0\0\0\0\x9c\x41\0\0\x12\x34\0\0\0\0";

/// Parameters of one gray pixel at depth 8, and its data.
const ONE_GRAY: &[u8] = b"\0\0\0\0\0\0\0\0\0\0\0\x01\0\0\0\x01\0\0\0\x01\0\0\0\x01\0\0\0\x08";

const ONE_BYTE: &[u8] = b"\0\0\0\x01\x0a\xff\xff\xff\xff\x05";

/// The descriptors of no option.
const NO_OPTIONS: &[u8] = b"\0\0\0\0";

/// The most bytes of a piece: all come at once, or one by one.
const SIZES: &[usize] = &[usize::MAX, 1];

/// A scan without settings, of one gray pixel.
const SCAN: &[Comes<'static>] = &[
    Comes::Control(GREETED),
    Comes::Control(OPENED),
    Comes::Control(NO_OPTIONS),
    Comes::Control(STARTED),
    Comes::Control(ONE_GRAY),
    Comes::Data(ONE_BYTE),
];

/// Adds the first bytes of a room.
fn add(rt: &impl Abort, list: &mut Vec<u8>, room: &[u8], count: usize) {
    let bytes = room.get(..count).expect(rt, "bytes of the room");
    list.extend_from_slice(bytes).expect(rt, "memory");
}

/// Bytes come on the connection of that part.
fn feed(client: &mut Client, comes: Comes<'_>, bytes: &[u8]) {
    match comes {
        Comes::Control(_) => client.feed_control(bytes),
        Comes::Data(_) => client.feed_data(bytes),
    }
}

/// The data connection is made, if the part is of one.
fn connect(client: &mut Client, comes: Comes<'_>) {
    if let Comes::Data(_) = comes {
        client.data_opened();
    }
}

impl Played {
    /// A client to which nothing has happened.
    fn new(rt: &impl Abort, alloc: Global, settings: &str, task: Task) -> Played {
        match Client::new(alloc, job(rt, alloc, settings, task)) {
            Ok(client) => Played {
                client,
                sent: Vec::new(alloc),
                files: Vec::new(alloc),
            },
            Err(_) => panic!(rt; "no job that is taken"),
        }
    }

    fn over(&self) -> Over {
        how(self.client.outcome())
    }

    /// Takes what is to go out, and the bytes of the file.
    fn drain(&mut self, rt: &impl Abort) {
        let mut room = [0; 16];
        for _ in 0..1000 {
            let sent = self.client.take_out(&mut room);
            add(rt, &mut self.sent, &room, sent);
            let given = self.client.take_file(&mut room);
            add(rt, &mut self.files, &room, given);
            if sent == 0 && given == 0 {
                return;
            }
        }
    }

    /// Bytes come in pieces of that size, the first `most` of them at most. Says how many came.
    fn hears(&mut self, rt: &impl Abort, comes: Comes<'_>, size: usize, most: usize) -> usize {
        if most == 0 {
            return 0;
        }
        connect(&mut self.client, comes);
        let bytes = comes.bytes();
        let bytes = bytes.get(..most).unwrap_or(bytes);
        for piece in bytes.chunks(size.max(1)) {
            feed(&mut self.client, comes, piece);
            self.drain(rt);
        }
        bytes.len()
    }

    /// The first `most` bytes of all that comes, in pieces of that size.
    fn hears_all(&mut self, rt: &impl Abort, script: &[Comes<'_>], size: usize, most: usize) {
        self.drain(rt);
        let mut left = most;
        for comes in script {
            let came = self.hears(rt, *comes, size, left);
            left = left.saturating_sub(came);
        }
    }
}

/// How many settings a job has, of how many bytes each, its task, and its fault.
const SIZES_OF_JOBS: &[(usize, usize, Task, Option<JobFault>)] = &[
    (64, 1023, Task::Batch(16), None),
    (65, 1024, Task::Batch(0), Some(JobFault::TooManySettings)),
    (1, 1024, Task::Batch(0), Some(JobFault::TextTooLong)),
    (1, 1023, Task::Batch(17), Some(JobFault::BadCount)),
];

const LONG: &[u8] = &[b'a'; 1024];

/// A client refuses what is no job, in the order of the faults, and gives it back.
#[test]
fn jobs_at_their_limits(rt: HostRuntime) {
    let alloc = rt.alloc();
    for (count, bytes, task, fault) in SIZES_OF_JOBS {
        let value = LONG.get(..*bytes).expect(&rt, "a value");
        let mut job = job(&rt, alloc, "", *task);
        for _ in 0..*count {
            let setting = (text(&rt, alloc, b"mode"), text(&rt, alloc, value));
            job.settings.push(setting).expect(&rt, "memory");
        }
        match (Client::new(alloc, job), fault) {
            (Ok(client), None) => drop(client),
            (Err((found, back)), Some(fault)) => {
                assert!(&rt; found == *fault && back.settings.len() == *count);
                drop(back);
            }
            _ => panic!(&rt; "another end"),
        }
    }
}
