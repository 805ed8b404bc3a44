use device_api::Device;
use dispatch::Registry;
use md5_auth::Users;
use page_picture::DeviceKind;
use sane_fixed::ByteOrder;
use saned_core::{Daemon, DataStep, Fed, FrameState, OpenFault, SessionId};
use saned_requests::StringSize;
use std::alloc::Global;
use std::process::Abort;
use testing::{dots, scanner};

mod passes;
mod sessions;

const NAMES: &[&[u8]] = &[
    b"flatbed:0",
    b"flatbed:1",
    b"flatbed:2",
    b"flatbed:3",
    b"flatbed:4",
];

/// A daemon of these devices and users.
fn daemon_of(
    rt: &impl Abort,
    alloc: Global,
    devices: Vec<Box<dyn Device>>,
    users: &[u8],
    strings: StringSize,
) -> Daemon {
    let registry = match Registry::new(alloc, devices) {
        Ok(registry) => registry,
        Err(_) => panic!(rt; "no registry"),
    };
    let users = Users::parse(alloc, users).expect(rt, "users");
    Daemon::with_strings(registry, users, strings, [0; 32])
}

/// A daemon of five flatbeds, each on a page of one place.
fn flatbeds(rt: &impl Abort, alloc: Global, users: &[u8], strings: StringSize) -> Daemon {
    let mut devices: Vec<Box<dyn Device>> = Vec::new(alloc);
    for name in NAMES {
        let page = dots(alloc, &[7]).expect(rt, "a page");
        let flatbed = scanner(alloc, DeviceKind::Flatbed, name, page, ByteOrder::Little);
        devices
            .push(flatbed.expect(rt, "a flatbed"))
            .expect(rt, "memory");
    }
    daemon_of(rt, alloc, devices, users, strings)
}

/// What comes is fed byte by byte, behind which the session stands or is over, and what is answered then is this.
fn expect_fed(
    rt: &impl Abort,
    alloc: Global,
    daemon: &mut Daemon,
    id: SessionId,
    (sent, wanted): Exchange,
    end: Fed,
) {
    let mut fed = Fed::Standing;
    for byte in sent {
        assert!(rt; fed == Fed::Standing);
        fed = daemon.feed(alloc, id, &[*byte]);
    }
    let mut buf = [0; 256];
    let count = daemon.take_reply(id, &mut buf);
    assert!(rt; fed == end && &buf[..count] == wanted);
}

/// What comes, and what is answered.
type Exchange = (&'static [u8], &'static [u8]);

/// One request after another, each with its replies.
fn expect_each(
    rt: &impl Abort,
    alloc: Global,
    daemon: &mut Daemon,
    id: SessionId,
    exchanges: &[Exchange],
) {
    for exchange in exchanges {
        expect_fed(rt, alloc, daemon, id, *exchange, Fed::Standing);
    }
}

/// A turn of the data connection gives this.
fn turns(rt: &impl Abort, daemon: &mut Daemon, id: SessionId, step: DataStep, bytes: &[u8]) {
    let mut buf = [0; 64];
    assert!(rt; daemon.data_turn(id, &mut buf) == step);
    assert!(rt; buf.get(..bytes.len()) == Some(bytes));
}

const INIT: &[u8] = b"\0\0\0\0\x01\0\0\x03\0\0\0\x05user\0";

const GREETING: Exchange = (INIT, b"\0\0\0\0\x01\0\0\x03");

const OPEN: &[u8] = b"\0\0\0\x02\0\0\0\x0aflatbed:0\0";

const OPENED: &[u8] = b"\0\0\0\0\0\0\0\0\0\0\0\0";

const BUSY: &[u8] = b"\0\0\0\x03\0\0\0\0\0\0\0\0";

const NOTHING: &[u8] = b"\0\0\0\0";

/// START, CANCEL and CLOSE of the first word, and what answers a START.
const START: &[u8] = b"\0\0\0\x07\0\0\0\0";

const CANCEL: &[u8] = b"\0\0\0\x08\0\0\0\0";

const CLOSE: &[u8] = b"\0\0\0\x03\0\0\0\0";

const STARTED: &[u8] = b"\0\0\0\0\0\0\x9c\x41\0\0\x12\x34\0\0\0\0";

const START_BUSY: &[u8] = b"\0\0\0\x03\0\0\0\0\0\0\x12\x34\0\0\0\0";

/// A session that was greeted.
fn session(rt: &impl Abort, alloc: Global, daemon: &mut Daemon) -> SessionId {
    let id = daemon.open_session(alloc, 40001).expect(rt, "a session");
    expect_fed(rt, alloc, daemon, id, GREETING, Fed::Standing);
    id
}

/// Who cancels while a frame waits ends it at once, and while it streams leaves its end record; a frame of another word is not
/// touched. The ninth session finds no room, and who ends gives all back.
#[test]
fn eight_sessions_and_one_holder(rt: HostRuntime) {
    let alloc = rt.alloc();
    let mut daemon = flatbeds(&rt, alloc, b"", StringSize::OfText);
    let first = session(&rt, alloc, &mut daemon);
    let second = session(&rt, alloc, &mut daemon);
    expect_each(&rt, alloc, &mut daemon, first, &[(OPEN, OPENED)]);
    expect_each(&rt, alloc, &mut daemon, second, &[(OPEN, BUSY)]);
    for _ in 0..6 {
        session(&rt, alloc, &mut daemon);
    }
    assert!(rt; daemon.open_session(alloc, 1).err() == Some(OpenFault::Full));
    daemon.end_session(first);
    session(&rt, alloc, &mut daemon);
    let other_word = b"\0\0\0\x08\0\0\0\x01";
    expect_each(
        &rt,
        alloc,
        &mut daemon,
        second,
        &[(OPEN, OPENED), (START, STARTED), (other_word, NOTHING)],
    );
    assert!(rt; daemon.frame(second) == FrameState::Waiting);
    expect_each(&rt, alloc, &mut daemon, second, &[(CANCEL, NOTHING)]);
    assert!(rt; daemon.frame(second) == FrameState::Quiet);
    for end in [CANCEL, CLOSE] {
        expect_each(&rt, alloc, &mut daemon, second, &[(START, STARTED)]);
        assert!(rt; daemon.data_connected(second) && !daemon.data_connected(second));
        expect_each(&rt, alloc, &mut daemon, second, &[(end, NOTHING)]);
        assert!(rt; daemon.frame(second) == FrameState::Ending);
        turns(
            &rt,
            &mut daemon,
            second,
            DataStep::Last(5),
            b"\xff\xff\xff\xff\x02",
        );
    }
    drop(daemon);
}
