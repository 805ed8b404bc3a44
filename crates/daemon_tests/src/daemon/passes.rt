//! A whole scan in three passes through the daemon.

use super::*;
use testing::source;

/// CONTROL_OPTION that puts a value of four bytes or a text.
fn request(alloc: Global, option: u8, value: &[u8]) -> Option<Vec<u8>> {
    let mut sent = Vec::new(alloc);
    sent.extend_from_slice(b"\0\0\0\x05\0\0\0\0\0\0\0").ok()?;
    sent.push(option).ok()?;
    sent.extend_from_slice(b"\0\0\0\x01").ok()?;
    sent.extend_from_slice(value).ok()?;
    Some(sent)
}

/// What it is answered.
fn reply(alloc: Global, value: &[u8], status: u8, info: u8) -> Option<Vec<u8>> {
    let mut told = Vec::new(alloc);
    told.extend_from_slice(&[0, 0, 0, status, 0, 0, 0, info])
        .ok()?;
    told.extend_from_slice(value).ok()?;
    told.extend_from_slice(b"\0\0\0\0").ok()?;
    Some(told)
}

/// A value of four bytes or a text is put, and so answered.
fn set(
    rt: &impl Abort,
    alloc: Global,
    daemon: &mut Daemon,
    id: SessionId,
    (option, value, status, info): (u8, &[u8], u8, u8),
) {
    let sent = request(alloc, option, value).expect(rt, "memory");
    let wanted = reply(alloc, value, status, info).expect(rt, "memory");
    assert!(rt; sent.len() < 4096);
    assert!(rt; daemon.feed(alloc, id, sent.as_slice()) == Fed::Standing);
    let mut buf = [0; 256];
    let count = daemon.take_reply(id, &mut buf);
    assert!(rt; &buf[..count] == wanted.as_slice());
}

/// A frame: its START, its parameters behind the status, and its records.
fn frame(
    rt: &impl Abort,
    alloc: Global,
    daemon: &mut Daemon,
    id: SessionId,
    exchanges: &[Exchange],
    payload: &[u8],
) {
    expect_each(rt, alloc, daemon, id, exchanges);
    assert!(rt; daemon.data_connected(id));
    turns(rt, daemon, id, DataStep::Bytes(payload.len()), payload);
    let end = b"\xff\xff\xff\xff\x05";
    turns(rt, daemon, id, DataStep::Last(5), end);
    turns(rt, daemon, id, DataStep::Idle, b"");
    assert!(rt; daemon.frame(id) == FrameState::Quiet);
}

const ASK: &[u8] = b"\0\0\0\x06\0\0\0\0";

/// Options of a scan of two dots in color, in the order BGR: the option, its value, and what is told.
const IN_COLOR: &[(u8, &[u8], u8)] = &[
    (1, b"\0\0\0\x03\0\0\0\x06\0\0\0\x06Color\0", 6),
    (2, b"\0\0\0\x01\0\0\0\x04\0\0\0\x01\0\0\0\x10", 6),
    (8, b"\0\0\0\x03\0\0\0\x04\0\0\0\x04BGR\0", 4),
    (3, b"\0\0\0\x01\0\0\0\x04\0\0\0\x01\0\0\0\x1a", 4),
    (6, b"\0\0\0\x02\0\0\0\x04\0\0\0\x01\0\x02\0\0", 4),
    (7, b"\0\0\0\x02\0\0\0\x04\0\0\0\x01\0\x01\0\0", 4),
];

/// Its three frames: the parameters, and the record.
const FRAMES: &[(&[u8], &[u8])] = &[
    (
        b"\0\0\0\0\0\0\0\x04\0\0\0\0\0\0\0\x04\0\0\0\x02\0\0\0\x01\0\0\0\x10",
        b"\0\0\0\x04\0\x03\x01\0",
    ),
    (
        b"\0\0\0\0\0\0\0\x03\0\0\0\0\0\0\0\x04\0\0\0\x02\0\0\0\x01\0\0\0\x10",
        b"\0\0\0\x04\0\x02\0\x05",
    ),
    (
        b"\0\0\0\0\0\0\0\x02\0\0\0\x01\0\0\0\x04\0\0\0\x02\0\0\0\x01\0\0\0\x10",
        b"\0\0\0\x04\0\x01\0\x04",
    ),
];

const OPEN_PASSES: &[u8] = b"\0\0\0\x02\0\0\0\x0cthreepass:0\0";

const STARTED_BIG: &[u8] = b"\0\0\0\0\0\0\x9c\x41\0\0\x43\x21\0\0\0\0";

const COLORS: &[u8] = b"P6\n2 1\n65535\n\0\x01\0\x02\0\x03\0\x04\0\x05\x01\0";

/// A daemon of the three-pass scanner.
fn passes(rt: &impl Abort, alloc: Global) -> Daemon {
    let mut pages = Vec::new(alloc);
    let page = source(alloc, COLORS, 26).expect(rt, "a page");
    pages.push(page).expect(rt, "memory");
    let kind = DeviceKind::ThreePass;
    let device = scanner(alloc, kind, b"threepass:0", pages, ByteOrder::Big);
    let mut devices: Vec<Box<dyn Device>> = Vec::new(alloc);
    devices
        .push(device.expect(rt, "a device"))
        .expect(rt, "memory");
    daemon_of(rt, alloc, devices, b"", StringSize::OfText)
}

/// Three frames in the order that was set. Between them no option is set and no page is loaded, and afterwards both are.
#[test]
fn three_passes(rt: HostRuntime) {
    let alloc = rt.alloc();
    let mut daemon = passes(&rt, alloc);
    let id = session(&rt, alloc, &mut daemon);
    expect_each(&rt, alloc, &mut daemon, id, &[(OPEN_PASSES, OPENED)]);
    for &(option, value, info) in IN_COLOR {
        set(&rt, alloc, &mut daemon, id, (option, value, 0, info));
    }
    let mut left = 3u32;
    for &(params, payload) in FRAMES {
        left = left.saturating_sub(1);
        let exchanges = [(START, STARTED_BIG), (ASK, params)];
        frame(&rt, alloc, &mut daemon, id, &exchanges, payload);
        let (status, info) = if left == 0 { (0, 6) } else { (3, 0) };
        let depth = b"\0\0\0\x01\0\0\0\x04\0\0\0\x01\0\0\0\x08";
        set(&rt, alloc, &mut daemon, id, (2, depth, status, info));
        let page = source(alloc, COLORS, 26).expect(&rt, "a page");
        assert!(&rt; daemon.load(b"threepass:0", page).is_ok() == (left == 0));
        assert!(&rt; daemon.unplug(b"threepass:0").is_err());
    }
    drop(daemon);
}
