use crate::messages::{is_read, letters, next, text, words_and_letters};
use constraint::{Range, StringList, WordList};
use option_desc::{Constraint, Descriptor, Value};
use sane_fixed::{
    ByteOrder, Cap, DeviceInfo, Fixed, FrameFormat, Info, Kind, Params, Status, Unit,
};
use std::alloc::Global;
use std::process::Abort;
use std::test::Fail;
use wire_codec::*;
use wire_message::wire_of;

/// Whether a reply is written as these bytes.
fn is_written(alloc: Global, reply: Reply, bytes: &[u8]) -> bool {
    let is_so = match encode_reply(alloc, &reply) {
        Ok(written) => written.as_slice() == bytes,
        Err(_) => false,
    };
    drop(reply);
    is_so
}

/// Whether a reply is written as these bytes, and read from them.
fn is_spelled(alloc: Global, procedure: Procedure, reply: Reply, bytes: &[u8]) -> bool {
    is_written(alloc, reply, bytes) && is_read(alloc, Some(procedure), bytes, bytes)
}

#[test]
fn replies_of_words(rt: HostRuntime) {
    let alloc = rt.alloc();
    let (status, version) = (Status::Good, 0x1000003);
    let init = Reply::Init { status, version };
    assert!(rt; is_spelled(alloc, Procedure::Init, init, b"\0\0\0\0\x01\0\0\x03"));
    assert!(rt; is_spelled(alloc, Procedure::Close, Reply::Close, &[0; 4]));
    assert!(rt; is_spelled(alloc, Procedure::Cancel, Reply::Cancel, &[0; 4]));
    assert!(rt; is_spelled(alloc, Procedure::Authorize, Reply::Authorize, &[0; 4]));
    assert!(rt; encode_reply(alloc, &Reply::Exit).err() == Some(WireFault::BadValue));
}

const PIXEL: Params = Params {
    format: FrameFormat::Gray,
    last_frame: true,
    bytes_per_line: 1,
    pixels_per_line: 1,
    lines: Some(1),
    depth: 8,
};

/// The first frame of a hand scanner, whose lines are not known, and a pass.
const ROLLED: Params = Params {
    lines: None,
    ..PIXEL
};

const PASS: Params = Params {
    format: FrameFormat::Blue,
    last_frame: false,
    ..PIXEL
};

/// What is told of a frame, and its bytes.
const TOLD: &[(Params, &[u8])] = &[
    (
        PIXEL,
        b"\0\0\0\0\0\0\0\0\0\0\0\x01\0\0\0\x01\0\0\0\x01\0\0\0\x01\0\0\0\x08",
    ),
    (
        ROLLED,
        b"\0\0\0\0\0\0\0\0\0\0\0\x01\0\0\0\x01\0\0\0\x01\xff\xff\xff\xff\0\0\0\x08",
    ),
    (
        PASS,
        b"\0\0\0\0\0\0\0\x04\0\0\0\0\0\0\0\x01\0\0\0\x01\0\0\0\x01\0\0\0\x08",
    ),
];

#[test]
fn a_frame_and_its_port(rt: HostRuntime) -> Result<(), Fail> {
    let alloc = rt.alloc();
    for &(params, bytes) in TOLD {
        let status = Status::Good;
        let told = Reply::GetParameters { status, params };
        assert!(rt; is_spelled(alloc, Procedure::GetParameters, told, bytes));
    }
    let start = Reply::Start {
        status: Status::Good,
        port: 40001,
        order: ByteOrder::Little,
        resource: text(&rt, alloc, b""),
    };
    let bytes = b"\0\0\0\0\0\0\x9c\x41\0\0\x12\x34\0\0\0\0";
    assert!(rt; is_spelled(alloc, Procedure::Start, start, bytes));
    let busy = Reply::Start {
        status: Status::DeviceBusy,
        port: 0,
        order: ByteOrder::Big,
        resource: letters(&rt, alloc, 1),
    };
    let bytes = words_and_letters(alloc, &[3, 0, 0x4321], 1)?;
    assert!(rt; is_spelled(alloc, Procedure::Start, busy, &bytes));
    Ok(())
}

/// What is answered to an OPEN, with a resource of so many letters.
fn opened(rt: &impl Abort, alloc: Global, device: u32, count: usize) -> Reply {
    Reply::Open {
        status: Status::Good,
        device,
        resource: letters(rt, alloc, count),
    }
}

#[test]
fn resources(rt: HostRuntime) -> Result<(), Fail> {
    let alloc = rt.alloc();
    assert!(rt; is_spelled(alloc, Procedure::Open, opened(&rt, alloc, 0, 0), &[0; 12]));
    let most = opened(&rt, alloc, u32::MAX, 1023);
    let bytes = words_and_letters(alloc, &[0, u32::MAX], 1023)?;
    assert!(rt; is_spelled(alloc, Procedure::Open, most, &bytes));
    let long = opened(&rt, alloc, 0, 1024);
    assert!(rt; encode_reply(alloc, &long).err() == Some(WireFault::TooLong));
    drop(long);
    Ok(())
}

/// `br-x` was set to 81.
#[test]
fn a_length_that_was_set(rt: HostRuntime) -> Result<(), Fail> {
    let alloc = rt.alloc();
    let set = Reply::ControlOption {
        status: Status::Good,
        info: Info(Info::INEXACT + Info::RELOAD_PARAMS),
        kind: Kind::Fixed,
        value: wire_of(alloc, &Value::Fixed(Fixed(0x510000)))?,
        resource: text(&rt, alloc, b""),
    };
    let bytes = b"\0\0\0\0\0\0\0\x05\0\0\0\x02\0\0\0\x04\0\0\0\x01\0\x51\0\0\0\0\0\0";
    assert!(rt; is_spelled(alloc, Procedure::ControlOption, set, bytes));
    Ok(())
}

fn options(rt: &impl Abort, alloc: Global, constraint: Constraint) -> Reply {
    let option = Descriptor {
        name: text(rt, alloc, b"a"),
        title: text(rt, alloc, b""),
        about: text(rt, alloc, b"bc"),
        kind: Kind::Int,
        unit: Unit::Dpi,
        size: 8,
        caps: Cap(Cap::SOFT_SELECT | Cap::INACTIVE),
        constraint,
    };
    let all = Vec::from_array(alloc, [option]).ok().expect(rt, "memory");
    let descriptors = Array::from_vec(all);
    Reply::GetOptionDescriptors { descriptors }
}

/// That option, without its constraint.
const OPTION: &[u8] =
    b"\0\0\0\x01\0\0\0\0\0\0\0\x02a\0\0\0\0\x01\0\0\0\0\x03bc\0\0\0\0\x01\0\0\0\x04\0\0\0\x08\0\0\0\x21";

/// Whether an option with this constraint is told so.
fn is_told(rt: &impl Abort, alloc: Global, constraint: Constraint, told: &[u8]) -> bool {
    let mut bytes = Vec::from_slice(alloc, OPTION).expect(rt, "memory");
    bytes.extend_from_slice(told).expect(rt, "memory");
    let reply = options(rt, alloc, constraint);
    is_spelled(alloc, Procedure::GetOptionDescriptors, reply, &bytes)
}

#[test]
fn options_of_each_constraint(rt: HostRuntime) -> Result<(), Fail> {
    let alloc = rt.alloc();
    assert!(rt; is_told(&rt, alloc, Constraint::Free, b"\0\0\0\0"));
    let range = Range::new(-1, i32::MAX, 1).ok_or("a range")?;
    let told = b"\0\0\0\x01\0\0\0\0\xff\xff\xff\xff\x7f\xff\xff\xff\0\0\0\x01";
    assert!(rt; is_told(&rt, alloc, Constraint::Span(range), told));
    let list = WordList::new(vec![in alloc; -1, 2]?).ok_or("a list")?;
    let told = b"\0\0\0\x02\0\0\0\x03\0\0\0\x02\xff\xff\xff\xff\0\0\0\x02";
    assert!(rt; is_told(&rt, alloc, Constraint::Words(list), told));
    // An empty text is no NULL string, which ends the list.
    let entries = [text(&rt, alloc, b"b"), text(&rt, alloc, b"")];
    let entries = Vec::from_array(alloc, entries).ok().ok_or("memory")?;
    let list = StringList::new(entries).ok_or("a list")?;
    let told = b"\0\0\0\x03\0\0\0\x03\0\0\0\x02b\0\0\0\0\x01\0\0\0\0\0";
    assert!(rt; is_told(&rt, alloc, Constraint::Strings(list), told));
    Ok(())
}

fn devices_of(devices: Array<DeviceInfo>) -> Reply {
    let status = Status::Good;
    Reply::GetDevices { status, devices }
}

/// So many devices, and one more; its type has another number of letters than all other texts.
fn devices(rt: &impl Abort, alloc: Global, count: u32, each: usize, last: usize) -> Reply {
    let mut all = Vec::new(alloc);
    for i in 0..=count {
        let class = if i == count { last } else { each };
        let device = DeviceInfo {
            name: letters(rt, alloc, each),
            vendor: letters(rt, alloc, each),
            model: letters(rt, alloc, each),
            class: letters(rt, alloc, class),
        };
        all.push(device).ok().expect(rt, "memory");
    }
    devices_of(Array::from_vec(all))
}

/// Two devices, and a NULL pointer.
const TWO_DEVICES: &[u8] =
    b"\0\0\0\0\0\0\0\x03\0\0\0\0\0\0\0\x01\0\0\0\0\x01\0\0\0\0\x01\0\0\0\0\x01\0\0\0\0\0\0\0\0\x01\0\0\0\0\x01\0\0\0\0\x01\0\0\0\0\x03aa\0\0\0\0\x01";

const NO_DEVICES: &[u8] = b"\0\0\0\0\0\0\0\x01\0\0\0\x01";

#[test]
fn lists_of_devices(rt: HostRuntime) {
    let alloc = rt.alloc();
    let none = devices_of(Array::from_vec(Vec::new(alloc)));
    assert!(rt; is_spelled(alloc, Procedure::GetDevices, none, NO_DEVICES));
    // Without the NULL pointer it is read too.
    assert!(rt; is_read(alloc, Some(Procedure::GetDevices), &[0; 8], NO_DEVICES));
    let two = devices(&rt, alloc, 1, 0, 2);
    assert!(rt; is_spelled(alloc, Procedure::GetDevices, two, TWO_DEVICES));
}

/// 254 devices take 4,116 bytes each, the last one 24 and its letters, all else 12.
#[test]
fn the_longest_message(rt: HostRuntime) {
    let alloc = rt.alloc();
    let reply = devices(&rt, alloc, 254, 1023, 7);
    let bytes = encode_reply(alloc, &reply).ok().expect(&rt, "a spelling");
    drop(reply);
    assert!(&rt; bytes.len() == 1048576);
    let mut decoder = Decoder::new(alloc);
    assert!(rt; decoder.feed(&bytes).is_ok());
    let again = next(alloc, &mut decoder, Some(Procedure::GetDevices));
    assert!(rt; again == Ok(Some(bytes)));
    let long = devices(&rt, alloc, 254, 1023, 8);
    assert!(rt; encode_reply(alloc, &long).err() == Some(WireFault::TooLong));
    drop(long);
}
