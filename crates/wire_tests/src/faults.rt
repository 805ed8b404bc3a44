use crate::messages::next;
use std::alloc::Global;
use wire_codec::*;

/// The fault that comes with the last of these bytes, and is answered by each further call.
fn fault_of(alloc: Global, procedure: Option<Procedure>, bytes: &[u8]) -> Option<WireFault> {
    let mut decoder = Decoder::new(alloc);
    for byte in bytes {
        if next(alloc, &mut decoder, procedure) != Ok(None) || decoder.feed(&[*byte]).is_err() {
            return None;
        }
    }
    let mut told = None;
    for _ in 0..2 {
        let fault = next(alloc, &mut decoder, procedure).err()?;
        if told.is_some() && told != Some(fault) {
            return None;
        }
        told = Some(fault);
    }
    if decoder.feed(&[0]).err() == told {
        told
    } else {
        None
    }
}

/// The bytes of a request up to the first at which none stands, and the fault.
const REQUESTS: &[(&[u8], WireFault)] = &[
    (b"\0\0\0\x0b", WireFault::BadCode),
    // An action 2.
    (
        b"\0\0\0\x05\0\0\0\0\0\0\0\x06\0\0\0\x02",
        WireFault::BadValue,
    ),
    (b"\0\0\0\x02\0\0\x04\x01", WireFault::TooLong),
    // A string without NUL, and one with a NUL before its last byte.
    (b"\0\0\0\x02\0\0\0\x02ab", WireFault::BadValue),
    (b"\0\0\0\x02\0\0\0\x09abc\0", WireFault::BadValue),
];

/// The same of a reply.
const REPLIES: &[(Procedure, &[u8], WireFault)] = &[
    (Procedure::Exit, b"", WireFault::BadCode),
    // A status 12, a port 65,536, and a NULL pointer that is not the last.
    (Procedure::Init, b"\0\0\0\x0c", WireFault::BadValue),
    (Procedure::Start, b"\0\0\0\0\0\x01", WireFault::BadValue),
    (
        Procedure::GetDevices,
        b"\0\0\0\0\0\0\0\x02\0\0\0\x01",
        WireFault::BadValue,
    ),
];

#[test]
fn faults_as_they_come(rt: HostRuntime) {
    for &(bytes, fault) in REQUESTS {
        assert!(rt; fault_of(rt.alloc(), None, bytes) == Some(fault));
    }
    for &(procedure, bytes, fault) in REPLIES {
        assert!(rt; fault_of(rt.alloc(), Some(procedure), bytes) == Some(fault));
    }
}
