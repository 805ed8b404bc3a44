use super::jobs::{WORKED, Worked};
use super::*;

/// Whether a frame stands behind so many bytes: its data has not ended, and so many of the replies before it came.
fn is_in_frame(worked: &Worked<'_>, most: usize, replies: usize) -> bool {
    worked.frames.iter().any(|frame| {
        let begins = worked.bytes(frame.saturating_add(replies));
        begins <= most && most < worked.bytes(frame.saturating_add(3))
    })
}

const CANCELLED: Over = Over::Ended(Status::Cancelled, Why::Cancelled);

/// Behind so many bytes a connection is lost, or the job cancelled: the client then sends this, and the job stands so. One that
/// ends has no whole file.
fn expect_cut(
    rt: &impl Abort,
    alloc: Global,
    (worked, most): (&Worked<'_>, usize),
    link: Option<Link>,
    (over, last): (Over, &[u8]),
) {
    let mut played = worked.begun(rt, alloc, 1, most);
    let sent = played.sent.len();
    match link {
        Some(link) => played.client.link_lost(link),
        None => played.client.cancel(),
    }
    played.drain(rt);
    assert!(rt; played.over() == over && played.sent.get(sent..) == Some(last));
    let is_whole = worked.task == Task::Scan && played.files.len() >= worked.files.len();
    assert!(rt; !is_whole || over == Over::Done);
    drop(played);
}

/// A cancel sends CANCEL within a frame, and EXIT; behind a loss nothing more is sent, and that of the data counts within a
/// frame.
fn expect_cuts(rt: &impl Abort, alloc: Global, worked: &Worked<'_>, most: usize) {
    let it = (worked, most);
    if most >= worked.bytes(usize::MAX) {
        for link in [None, Some(Link::Control), Some(Link::Image)] {
            expect_cut(rt, alloc, it, link, (Over::Done, b""));
        }
        return;
    }
    let cancelled: (Over, &[u8]) = if is_in_frame(worked, most, 1) {
        (CANCELLED, b"\0\0\0\x08\0\0\0\x02\0\0\0\x0a")
    } else {
        (CANCELLED, b"\0\0\0\x0a")
    };
    expect_cut(rt, alloc, it, None, cancelled);
    expect_cut(rt, alloc, it, Some(Link::Control), (LOST, b""));
    let is_lost = is_in_frame(worked, most, 2);
    let over = if is_lost { LOST } else { Over::Running };
    expect_cut(rt, alloc, it, Some(Link::Image), (over, b""));
}

/// A cancel, and a loss of each connection, behind each byte of each worked job.
#[test]
fn cancels_and_losses(rt: HostRuntime) {
    for worked in WORKED {
        for most in 0..=worked.bytes(usize::MAX) {
            expect_cuts(&rt, rt.alloc(), worked, most);
        }
    }
}
