use super::memory::{MemoryNet, MemorySocket};
use device_api::Device;
use dispatch::Registry;
use md5_auth::Users;
use page_picture::DeviceKind;
use sane_fixed::ByteOrder;
use saned_core::Daemon;
use saned_serve::{ServeEnd, serve};
use std::alloc::Global;
use std::process::Abort;
use testing::{dots, joined, scanner};

/// INIT with version 1.0.3 and the user `user`, GET_DEVICES, OPEN of `flatbed:0`, and EXIT.
const INIT: &[u8] = b"\0\0\0\0\x01\0\0\x03\0\0\0\x05user\0";

const LIST: &[u8] = b"\0\0\0\x01";

const OPEN: &[u8] = b"\0\0\0\x02\0\0\0\x0aflatbed:0\0";

const EXIT: &[u8] = b"\0\0\0\x0a";

/// Resolution 26, br-x 1, br-y 1: one sample.
const ONE_SAMPLE: &[u8] =
    b"\0\0\0\x05\0\0\0\0\0\0\0\x03\0\0\0\x01\0\0\0\x01\0\0\0\x04\0\0\0\x01\0\0\0\x1a\0\0\0\x05\0\0\0\0\0\0\0\x06\0\0\0\x01\0\0\0\x02\0\0\0\x04\0\0\0\x01\0\x01\0\0\0\0\0\x05\0\0\0\0\0\0\0\x07\0\0\0\x01\0\0\0\x02\0\0\0\x04\0\0\0\x01\0\x01\0\0";

/// START of the first word.
const START: &[u8] = b"\0\0\0\x07\0\0\0\0";

/// The replies to `INIT`, to `OPEN`, with the first word or of a device that is leased, to the three settings of `ONE_SAMPLE` and
/// to `START`: port 40,001, little-endian samples.
const INIT_REPLY: &[u8] = b"\0\0\0\0\x01\0\0\x03";

const OPEN_REPLY: &[u8] = b"\0\0\0\0\0\0\0\0\0\0\0\0";

const BUSY_REPLY: &[u8] = b"\0\0\0\x03\0\0\0\0\0\0\0\0";

const SET_REPLIES: &[u8] =
    b"\0\0\0\0\0\0\0\x04\0\0\0\x01\0\0\0\x04\0\0\0\x01\0\0\0\x1a\0\0\0\0\0\0\0\0\0\0\0\x04\0\0\0\x02\0\0\0\x04\0\0\0\x01\0\x01\0\0\0\0\0\0\0\0\0\0\0\0\0\x04\0\0\0\x02\0\0\0\x04\0\0\0\x01\0\x01\0\0\0\0\0\0";

const START_REPLY: &[u8] = b"\0\0\0\0\0\0\x9c\x41\0\0\x12\x34\0\0\0\0";

/// The record of one sample of 7, and the end.
const SAMPLE: &[u8] = b"\0\0\0\x01\x07\xff\xff\xff\xff\x05";

/// A daemon of one flatbed.
fn daemon(rt: &impl Abort, alloc: Global) -> Daemon {
    let page = dots(alloc, &[7]).expect(rt, "a page");
    let little = ByteOrder::Little;
    let flatbed = scanner(alloc, DeviceKind::Flatbed, b"flatbed:0", page, little);
    let mut devices: Vec<Box<dyn Device>> = Vec::new(alloc);
    devices
        .push(flatbed.expect(rt, "a flatbed"))
        .expect(rt, "memory");
    let Ok(registry) = Registry::new(alloc, devices) else {
        panic!(rt; "no registry")
    };
    let users = Users::parse(alloc, b"").expect(rt, "users");
    Daemon::new(registry, users, [0; 32])
}

/// In a box it moves no more.
fn boxed(rt: &impl Abort, alloc: Global, daemon: Daemon) -> Box<Daemon> {
    match Box::new(alloc, daemon) {
        Ok(daemon) => daemon,
        Err(_) => panic!(rt; "no box"),
    }
}

/// A daemon, and the net that it serves.
#[derive(Drop)]
struct Served<R: Abort + Copy + Drop> {
    rt: R,
    alloc: Global,
    daemon: Box<Daemon>,
    net: MemoryNet<R>,
}

impl<R: Abort + Copy + Drop> Served<R> {
    fn new(rt: R, alloc: Global) -> Served<R> {
        Served {
            rt,
            alloc,
            daemon: boxed(&rt, alloc, daemon(&rt, alloc)),
            net: MemoryNet::new(rt, alloc),
        }
    }

    /// A client that sends these messages and takes all that it is sent, which comes next.
    fn client(&mut self, parts: &[&[u8]]) -> &mut MemorySocket {
        let script = joined(self.alloc, parts).expect(&self.rt, "memory");
        let client = MemorySocket::new(self.alloc, script.as_slice(), usize::MAX);
        let client = client.expect(&self.rt, "memory");
        self.net.clients.push(client).expect(&self.rt, "memory");
        self.net.clients.last_mut().expect(&self.rt, "a client")
    }

    /// A data connection that takes so many bytes.
    fn image(&mut self, room: usize) -> &mut MemorySocket {
        let image = MemorySocket::new(self.alloc, b"", room).expect(&self.rt, "memory");
        self.net.images.push(image).expect(&self.rt, "memory");
        self.net.images.last_mut().expect(&self.rt, "an image")
    }

    fn serve(&mut self, sessions: u64, idle_turns: u64) -> ServeEnd {
        serve(
            self.alloc,
            &mut *self.daemon,
            &mut self.net,
            sessions,
            idle_turns,
        )
    }

    /// The connection that came back at that place, of so many, took this.
    fn expect_out(&self, place: usize, count: usize, parts: &[&[u8]]) {
        let wanted = joined(self.alloc, parts).expect(&self.rt, "memory");
        assert!(self.rt; self.net.back.len() == count);
        let back = self.net.back.get(place).expect(&self.rt, "a connection");
        assert!(self.rt; back.out.as_slice() == wanted.as_slice());
    }

    /// That the device is free, and its options at their defaults, a client finds that comes now; each data port was closed.
    fn expect_free(mut self) {
        self.net.images.clear();
        self.client(&[INIT, OPEN, START, EXIT]);
        assert!(self.rt; self.serve(1, 1000) == ServeEnd::Sessions);
        let count = self.net.back.len();
        let replies = [INIT_REPLY, OPEN_REPLY, START_REPLY];
        self.expect_out(count.saturating_sub(1), count, &replies);
        assert!(self.rt; self.net.accepted == count as u64 && self.net.has_closed_all());
    }
}

/// The most that a socket moves in a call.
const ALL: usize = 65_540;

/// The second client's OPEN is answered in a few turns, while the first one's frame is open: of its one record, of 196 lines of
/// 157 bytes, five bytes are taken.
#[test]
fn second_open_is_answered_while_a_frame_is_open(rt: HostRuntime) {
    let mut served = Served::new(rt, rt.alloc());
    served.client(&[INIT, OPEN]);
    served.client(&[INIT, OPEN, START]);
    served.image(5);
    assert!(rt; served.serve(0, 1000) == ServeEnd::Idle);
    assert!(rt; served.net.asked < 10_000 && served.net.accepted == 3);
    served.expect_out(0, 3, &[INIT_REPLY, BUSY_REPLY]);
    served.expect_out(1, 3, &[b"\0\0\x78\x34\x07"]);
    served.expect_out(2, 3, &[INIT_REPLY, OPEN_REPLY, START_REPLY]);
    served.expect_free();
}

/// The most that the sockets move in a call, and how many writes take nothing: all at once, byte by byte, and nothing for a hundred
/// turns.
const SOCKETS: &[(usize, u64)] = &[(ALL, 0), (1, 0), (ALL, 100)];

/// A whole frame of one sample comes; what had ended is forgotten once for it, however many pieces its START came in.
#[test]
fn frames_over_sockets(rt: HostRuntime) {
    for (piece, deaf) in SOCKETS {
        let mut served = Served::new(rt, rt.alloc());
        let client = served.client(&[INIT, OPEN, ONE_SAMPLE, START]);
        client.piece = *piece;
        client.deaf = *deaf;
        let image = served.image(usize::MAX);
        image.piece = *piece;
        image.deaf = *deaf;
        assert!(rt; served.serve(0, 200) == ServeEnd::Idle);
        assert!(rt; served.net.asked < 10_000 && served.net.forgotten == 1);
        served.expect_out(0, 2, &[SAMPLE]);
        let replies = [INIT_REPLY, OPEN_REPLY, SET_REPLIES, START_REPLY];
        served.expect_out(1, 2, &replies);
        served.expect_free();
    }
}

/// Nothing moves in turns 2 to 51: too long.
#[test]
fn idle_turns_are_counted_in_a_row(rt: HostRuntime) {
    let mut served = Served::new(rt, rt.alloc());
    served.client(&[INIT]).deaf = 100;
    assert!(rt; served.serve(0, 50) == ServeEnd::Idle);
    assert!(rt; served.net.asked == 51);
    served.expect_out(0, 1, &[]);
    served.expect_free();
}

#[test]
fn lost_after_each_byte(rt: HostRuntime) {
    let script = joined(rt.alloc(), &[INIT, OPEN, START]).expect(&rt, "memory");
    for k in 0..=script.len() {
        let mut served = Served::new(rt, rt.alloc());
        let client = served.client(&[script.get(..k).unwrap_or(b"")]);
        client.piece = 1;
        client.is_cut = true;
        served.image(5);
        assert!(rt; served.serve(1, 1000) == ServeEnd::Sessions);
        served.expect_free();
    }
}

#[test]
fn data_connection_lost_after_each_byte(rt: HostRuntime) {
    for k in 0..SAMPLE.len() {
        let mut served = Served::new(rt, rt.alloc());
        served.client(&[INIT, OPEN, ONE_SAMPLE, START]);
        served.image(k).is_cut = true;
        assert!(rt; served.serve(0, 100) == ServeEnd::Idle);
        served.expect_out(0, 2, &[SAMPLE.get(..k).unwrap_or(b"")]);
        served.expect_free();
    }
}

/// A data connection that never comes; and of what a client asks that takes no reply no more is read than at once, so its replies
/// stay bounded.
#[test]
fn clients_that_do_nothing(rt: HostRuntime) {
    let mut served = Served::new(rt, rt.alloc());
    served.client(&[INIT, OPEN, START, START]);
    assert!(rt; served.serve(0, 1000) == ServeEnd::Idle);
    assert!(rt; served.net.accepted == 1);
    served.expect_free();
    let mut served = Served::new(rt, rt.alloc());
    let mut script = joined(rt.alloc(), &[INIT]).expect(&rt, "memory");
    for _ in 0..3000 {
        script.extend_from_slice(LIST).expect(&rt, "memory");
    }
    served.client(&[&script]).deaf = u64::MAX;
    assert!(rt; served.serve(0, 1000) == ServeEnd::Idle);
    served.expect_out(0, 1, &[]);
    assert!(rt; served.net.back.iter().all(|back| back.at == 4096));
    served.expect_free();
}

/// The ninth is not taken while eight sessions stand.
#[test]
fn nine_clients(rt: HostRuntime) {
    let mut served = Served::new(rt, rt.alloc());
    for _ in 0..9 {
        served.client(&[INIT]);
    }
    assert!(rt; served.serve(0, 100) == ServeEnd::Idle);
    assert!(rt; served.net.accepted == 8 && served.net.back.len() == 8);
    assert!(rt; served.net.clients.len() == 1);
    drop(served);
}

/// One that stands, one that says what is none, and one that ends are two sessions that are closed; where there is one data port
/// alone another client is not counted.
#[test]
fn sessions_are_counted_when_they_are_closed(rt: HostRuntime) {
    let mut served = Served::new(rt, rt.alloc());
    served.client(&[b"GET / HTTP/1.0\r\n"]);
    served.client(&[INIT, EXIT]);
    served.client(&[INIT]);
    assert!(rt; served.serve(2, 1000) == ServeEnd::Sessions);
    assert!(rt; served.net.back.len() == 3 && served.net.has_closed_all());
    for back in &served.net.back {
        let is_none = back.script.starts_with(b"GET");
        assert!(rt; back.out.as_slice() == if is_none { b"".as_slice() } else { INIT_REPLY });
    }
    drop(served);
    let mut served = Served::new(rt, rt.alloc());
    served.net.ports = 1;
    served.client(&[INIT, EXIT]);
    served.client(&[INIT, EXIT]);
    assert!(rt; served.serve(2, 10) == ServeEnd::Idle);
    served.expect_out(0, 2, &[]);
    served.expect_out(1, 2, &[INIT_REPLY]);
    drop(served);
}
