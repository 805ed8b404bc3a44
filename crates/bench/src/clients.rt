//! Scans over the net, client and daemon in one process and bytes in memory between them.

ghost use Rattle.std.specs.Prelude.{◌≤◌};

use crate::tell;
use dispatch::Registry;
use flatbed_dev::Flatbed;
use md5_auth::Users;
use net_backend::{Client, Job, Outcome, Task};
use page_picture::Page;
use page_sources::{MemoryPage, Source};
use sane_fixed::{ByteOrder, Text};
use saned_core::{Daemon, DataStep, SessionId};
use std::alloc::{AllocError, Global};
use std::mem;
use std::time::Instant;

/// The bytes of a piece of data, and of the file.
const PIECE: usize = 65536;

/// The bytes of a piece of requests.
const REQUESTS: usize = 4096;

/// The most turns of a loop, which none of them needs.
const TURNS: u64 = 1 << 32;

/// The next of a row of numbers without rule.
fn next(seed: u64) -> u64 {
    seed.wrapping_mul(6364136223846793005)
        .wrapping_add(1442695040888963407)
}

/// Writes samples without rule, from a fixed seed; those of a gray dot are the same.
fn fill(samples: &mut [u16], is_gray: bool) {
    let mut seed = 0x5eed_u64;
    for dot in samples.chunks_mut(3) {
        seed = next(seed);
        for sample in dot.iter_mut() {
            if !is_gray {
                seed = next(seed);
            }
            *sample = ((seed >> 33) % 65536) as u16;
        }
    }
}

/// A square page of noise, in gray or in color.
fn page(alloc: Global, side: u32, is_gray: bool) -> Result<Page, AllocError>
    requires some { 1 ≤ side }
    requires most { side ≤ 16384 }
{
    let mut samples = vec![in alloc; 0u16; side as usize * side as usize * 3]?;
    fill(samples.as_mut_slice(), is_gray);
    Ok(Page::new(side, side, 1200, samples))
}

/// A buffer of a piece.
fn buffer(alloc: Global) -> Result<Vec<u8>, AllocError> {
    vec![in alloc; 0u8; PIECE]
}

/// A daemon of one flatbed with a square page.
fn daemon(alloc: Global, side: u32, is_gray: bool) -> Option<Daemon<Flatbed>>
    requires some { 1 ≤ side }
    requires most { side ≤ 16384 }
{
    let source = Source::Memory(MemoryPage::new(page(alloc, side, is_gray).ok()?));
    let name = Text::new(alloc, b"flatbed:0").ok()?;
    let flatbed = Flatbed::new(alloc, name, source, ByteOrder::Big).ok()?;
    let mut devices = Vec::new(alloc);
    devices.push(flatbed).ok()?;
    match Registry::new(alloc, devices) {
        Ok(registry) => {
            let users = Users::parse(alloc, b"").ok()?;
            Some(Daemon::new(registry, users, [0; 32]))
        }
        Err(_) => None,
    }
}

/// A scan of a square of that side.
fn job<'x>(alloc: Global, mode: &'x [u8], side: &'x [u8]) -> Option<Job> {
    let mut settings = Vec::new(alloc);
    for (name, value) in [
        (b"mode".as_slice(), mode),
        (b"resolution", b"1200"),
        (b"br-x", side),
        (b"br-y", side),
    ] {
        let setting = (Text::new(alloc, name).ok()?, Text::new(alloc, value).ok()?);
        settings.push(setting).ok()?;
    }
    Some(Job {
        settings,
        user: Text::new(alloc, b"user").ok()?,
        password: Text::new(alloc, b"").ok()?,
        device: Text::new(alloc, b"flatbed:0").ok()?,
        task: Task::Scan,
    })
}

/// What the client asks goes to the daemon, and what that replies to the client.
fn exchange(
    alloc: Global,
    daemon: &mut Daemon<Flatbed>,
    id: SessionId,
    client: &mut Client,
    room: &mut [u8],
) {
    let mut requests = [0u8; REQUESTS];
    let asked = client.take_out(&mut requests);
    let _ = daemon.feed(alloc, id, &requests[..asked]);
    for _ in 0..TURNS {
        let count = daemon.take_reply(id, room);
        if count == 0 {
            return;
        }
        client.feed_control(&room[..count]);
    }
}

/// Takes what there is of the file, and says how many bytes that were.
fn drain(client: &mut Client, room: &mut [u8]) -> u64 {
    let mut total = 0u64;
    for _ in 0..TURNS {
        let count = client.take_file(room);
        if count == 0 {
            break;
        }
        total = total.saturating_add(count as u64);
    }
    total
}

/// The records of a frame go to the client, to their end. Says how many bytes of the file came.
fn stream(
    daemon: &mut Daemon<Flatbed>,
    id: SessionId,
    client: &mut Client,
    piece: &mut [u8],
    room: &mut [u8],
) -> u64 {
    let mut total = 0u64;
    for _ in 0..TURNS {
        // The piece has room for more than the eight bytes that a turn wants.
        if !client.is_receiving() || piece.len() < 8 {
            break;
        }
        // What a turn wrote is never more than the piece.
        match daemon.data_turn(id, piece) {
            DataStep::Idle => break,
            DataStep::Bytes(n) | DataStep::Last(n) => {
                client.feed_data(&piece[..n.min(piece.len())]);
            }
        }
        total = total.saturating_add(drain(client, room));
    }
    total
}

/// Connects the data of a frame that waits for it.
fn connect(daemon: &mut Daemon<Flatbed>, id: SessionId, client: &mut Client) {
    if client.data_wanted().is_some() && daemon.data_connected(id) {
        client.data_opened();
    }
}

/// A scan, until the client asks no more. Says how many bytes its file had, if it is done.
fn scan(
    alloc: Global,
    daemon: &mut Daemon<Flatbed>,
    job: Job,
    piece: &mut [u8],
    room: &mut [u8],
) -> Option<u64> {
    let id = daemon.open_session(alloc, 40001).ok()?;
    let Ok(mut client) = Client::new(alloc, job) else {
        return None;
    };
    let mut total = 0u64;
    for _ in 0..TURNS {
        if !client.has_out() {
            break;
        }
        exchange(alloc, daemon, id, &mut client, room);
        connect(daemon, id, &mut client);
        total = total.saturating_add(stream(daemon, id, &mut client, piece, room));
    }
    let is_done = matches!(client.outcome(), Outcome::Done(_));
    drop(client);
    daemon.end_session(id);
    if is_done { Some(total) } else { None }
}

/// Copies so many bytes, a piece at a time, to and fro.
fn copy(to: &mut Vec<u8>, from: &mut Vec<u8>, bytes: u64) -> Result<(), AllocError> {
    for _ in 0..bytes / PIECE as u64 {
        to.clear();
        to.extend_from_slice(from.as_slice())?;
        mem::swap(to, from);
    }
    Ok(())
}

/// So many scans of a square of noise of that length, and copies of as many bytes.
pub fn run(rt: &HostRuntime, mode: &str, length: &str, count: u32) -> anyhow::Result<()> {
    let alloc = rt.alloc();
    let side = length.parse::<u32>().unwrap_or(1).clamp(1, 200) * 12000 / 254;
    let mut piece = buffer(alloc)?;
    let mut room = buffer(alloc)?;
    let Some(mut daemon) = daemon(alloc, side, mode == "Gray") else {
        return Ok(());
    };
    let start = Instant::now(rt)?;
    let mut bytes = 0u64;
    for _ in 0..count {
        let Some(job) = job(alloc, mode.as_bytes(), length.as_bytes()) else {
            return Ok(());
        };
        let (piece, room) = (piece.as_mut_slice(), room.as_mut_slice());
        if let Some(n) = scan(alloc, &mut daemon, job, piece, room) {
            println!(rt; "{mode}: a file of {n} bytes")?;
            bytes = bytes.saturating_add(n);
        }
    }
    tell(rt, "client and daemon", bytes, start.elapsed(rt)?)?;
    let start = Instant::now(rt)?;
    copy(&mut piece, &mut room, bytes)?;
    tell(rt, "as many bytes copied", bytes, start.elapsed(rt)?)
}
