use crate::messages::{is_read, letters, text, words_and_letters};
use option_desc::{Value, Words};
use sane_fixed::{Fixed, Kind};
use std::alloc::Global;
use std::test::Fail;
use wire_codec::*;
use wire_message::wire_of;

/// Whether a request is written as these bytes, and read from them.
fn is_spelled(alloc: Global, request: Request, bytes: &[u8]) -> bool {
    let is_written = match encode_request(alloc, &request) {
        Ok(written) => written.as_slice() == bytes,
        Err(_) => false,
    };
    drop(request);
    is_written && is_read(alloc, None, bytes, bytes)
}

#[test]
fn requests_of_words(rt: HostRuntime) {
    let alloc = rt.alloc();
    let device = u32::MAX;
    assert!(rt; is_spelled(alloc, Request::GetDevices, b"\0\0\0\x01"));
    let close = Request::Close { device };
    assert!(rt; is_spelled(alloc, close, b"\0\0\0\x03\xff\xff\xff\xff"));
    let options = Request::GetOptionDescriptors { device: 0 };
    assert!(rt; is_spelled(alloc, options, b"\0\0\0\x04\0\0\0\0"));
    let params = Request::GetParameters { device };
    assert!(rt; is_spelled(alloc, params, b"\0\0\0\x06\xff\xff\xff\xff"));
    assert!(rt; is_spelled(alloc, Request::Start { device: 3 }, b"\0\0\0\x07\0\0\0\x03"));
    let cancel = Request::Cancel { device: 1 };
    assert!(rt; is_spelled(alloc, cancel, b"\0\0\0\x08\0\0\0\x01"));
    assert!(rt; is_spelled(alloc, Request::Exit, b"\0\0\0\x0a"));
}

/// The texts of an AUTHORIZE, and its bytes.
const AUTHORIZE: &[(&[u8], &[u8], &[u8], &[u8])] = &[
    (
        b"r",
        b"\xff",
        b"\x01",
        b"\0\0\0\x09\0\0\0\x02r\0\0\0\0\x02\xff\0\0\0\0\x02\x01\0",
    ),
    (b"", b"", b"", b"\0\0\0\x09\0\0\0\0\0\0\0\x01\0\0\0\0\x01\0"),
];

#[test]
fn requests_of_texts(rt: HostRuntime) -> Result<(), Fail> {
    let alloc = rt.alloc();
    let (version, user) = (0x1000003, text(&rt, alloc, b"user"));
    let bytes = b"\0\0\0\0\x01\0\0\x03\0\0\0\x05user\0";
    assert!(rt; is_spelled(alloc, Request::Init { version, user }, bytes));
    let name = text(&rt, alloc, b"");
    assert!(rt; is_spelled(alloc, Request::Open { name }, b"\0\0\0\x02\0\0\0\x01\0"));
    let name = letters(&rt, alloc, 1023);
    let bytes = words_and_letters(alloc, &[2], 1023)?;
    assert!(rt; is_spelled(alloc, Request::Open { name }, &bytes));
    for (resource, user, password, bytes) in AUTHORIZE {
        let request = Request::Authorize {
            resource: text(&rt, alloc, resource),
            user: text(&rt, alloc, user),
            password: text(&rt, alloc, password),
        };
        assert!(rt; is_spelled(alloc, request, bytes));
    }
    Ok(())
}

/// A request about the option 6 of the device 0.
fn about(action: ControlAction, kind: Kind, value: WireValue) -> Request {
    Request::ControlOption {
        device: 0,
        option: 6,
        action,
        kind,
        value,
    }
}

/// `br-x` is set to 80.5.
const SET: &[u8] =
    b"\0\0\0\x05\0\0\0\0\0\0\0\x06\0\0\0\x01\0\0\0\x02\0\0\0\x04\0\0\0\x01\0\x50\x80\0";

const GET: &[u8] =
    b"\0\0\0\x05\0\0\0\0\0\0\0\x06\0\0\0\0\0\0\0\x01\0\0\0\x08\0\0\0\x02\xff\xff\xff\xff\0\0\0\x07";

const GET_TEXT: &[u8] = b"\0\0\0\x05\0\0\0\0\0\0\0\x06\0\0\0\0\0\0\0\x03\0\0\0\x03\0\0\0\x03gr\0";

#[test]
fn values_of_options(rt: HostRuntime) -> Result<(), Fail> {
    let alloc = rt.alloc();
    let length = wire_of(alloc, &Value::Fixed(Fixed(0x508000)))?;
    let set = about(ControlAction::SetValue, Kind::Fixed, length);
    assert!(rt; is_spelled(alloc, set, SET));
    let two = Words::from_vec(vec![in alloc; -1, 7]?);
    let two = wire_of(alloc, &Value::Words(two))?;
    let get = about(ControlAction::GetValue, Kind::Int, two);
    assert!(rt; is_spelled(alloc, get, GET));
    let mode = wire_of(alloc, &Value::Text(text(&rt, alloc, b"gr")))?;
    let get = about(ControlAction::GetValue, Kind::String, mode);
    assert!(rt; is_spelled(alloc, get, GET_TEXT));
    Ok(())
}

/// Why a request is not written, if it is not.
fn refusal(alloc: Global, request: Request) -> Option<WireFault> {
    let refused = encode_request(alloc, &request).err();
    drop(request);
    refused
}

/// A limit that is passed goes before a value that has no spelling.
#[test]
fn requests_that_are_not_written(rt: HostRuntime) -> Result<(), Fail> {
    let alloc = rt.alloc();
    let name = letters(&rt, alloc, 1024);
    assert!(rt; refusal(alloc, Request::Open { name }) == Some(WireFault::TooLong));
    let long = WireValue::Words(Array::from_vec(vec![in alloc; 0u32; 1025]?));
    let button = about(ControlAction::SetValue, Kind::Button, long);
    assert!(rt; refusal(alloc, button) == Some(WireFault::TooLong));
    let most = WireValue::Words(Array::from_vec(vec![in alloc; 0u32; 1024]?));
    let button = about(ControlAction::SetValue, Kind::Button, most);
    assert!(rt; refusal(alloc, button) == Some(WireFault::BadValue));
    Ok(())
}
