use crate::calls::RESOLUTION;
use device_api::Device;
use dispatch::{Registry, RegistryFault, backend_of};
use option_desc::Value;
use sane_fixed::{ByteOrder, Status};
use std::alloc::Global;
use std::process::Abort;
use testing::{dot, flatbed};

/// Flatbeds of these names, behind pointers, as programs have them.
fn flatbeds(alloc: Global, names: &[&[u8]]) -> Option<Vec<Box<dyn Device>>> {
    let mut devices: Vec<Box<dyn Device>> = Vec::new(alloc);
    for name in names {
        let flatbed = flatbed(alloc, name, dot(alloc, 0)?, ByteOrder::Little)?;
        let boxed = Box::new(alloc, flatbed).ok()?;
        devices.push(boxed).ok()?;
    }
    Some(devices)
}

const SEVENTEEN: &[&[u8]] = &[
    b"a", b"b", b"c", b"d", b"e", b"f", b"g", b"h", b"i", b"j", b"k", b"l", b"m", b"n", b"o", b"p",
    b"q",
];

/// Names, and the fault of devices of these.
const REFUSED: &[(&[&[u8]], RegistryFault)] = &[
    (&[b"a", b"b", b"a"], RegistryFault::SameName),
    (SEVENTEEN, RegistryFault::TooMany),
];

#[test]
fn devices_that_are_refused(rt: HostRuntime) {
    for &(names, fault) in REFUSED {
        let devices = flatbeds(rt.alloc(), names).expect(&rt, "devices");
        match Registry::new(rt.alloc(), devices) {
            Ok(_) => panic!(rt; "not refused"),
            Err((why, back)) => assert!(rt; why == fault && back.len() == names.len()),
        }
    }
}

const ZERO: &[u8] = b"flatbed:0";

const ONE: &[u8] = b"flatbed:1";

const TWO: &[u8] = b"flatbed:2";

/// A call of a registry of two devices, and the status that it is refused with, if it is.
#[derive(Clone, Copy)]
enum Call {
    Take(&'static [u8], Status),
    Unplug(&'static [u8], Option<Status>),
    Load(&'static [u8], Option<Status>),
    /// How many devices are listed.
    Count(usize),
}

/// Whether a call is answered so; none for lack of memory.
fn answers<D: Device>(alloc: Global, registry: &mut Registry<D>, call: Call) -> Option<bool> {
    Some(match call {
        Call::Take(name, status) => match registry.take(name) {
            Ok(lease) => {
                registry.give_back(lease);
                false
            }
            Err(why) => why == status,
        },
        Call::Unplug(name, status) => registry.unplug(name).err() == status,
        Call::Load(name, status) => match registry.load(name, dot(alloc, 0)?) {
            Ok(()) => status.is_none(),
            Err((why, _page)) => status == Some(why),
        },
        Call::Count(count) => registry.list(alloc).ok()?.len() == count,
    })
}

fn expect_each<D: Device>(
    rt: &impl Abort,
    alloc: Global,
    registry: &mut Registry<D>,
    calls: &[Call],
) {
    for (i, call) in calls.iter().enumerate() {
        if answers(alloc, registry, *call) != Some(true) {
            panic!(rt; "call {i} is answered otherwise");
        }
    }
}

/// A device that is leased is listed and stays.
const LEASED: &[Call] = &[
    Call::Take(ZERO, Status::DeviceBusy),
    Call::Take(TWO, Status::Inval),
    Call::Unplug(ZERO, Some(Status::DeviceBusy)),
    Call::Load(ZERO, Some(Status::DeviceBusy)),
    Call::Load(ONE, None),
    Call::Count(2),
];

/// A device that is unplugged is listed and found no more.
const UNPLUGGED: &[Call] = &[
    Call::Unplug(TWO, Some(Status::Inval)),
    Call::Unplug(ONE, None),
    Call::Unplug(ONE, Some(Status::Inval)),
    Call::Take(ONE, Status::Inval),
    Call::Load(ONE, Some(Status::Inval)),
    Call::Count(1),
];

/// The first device is at rest and as if new when it is handed out; it is left in the middle of a scan of its own.
fn scan_in<D: Device>(rt: &impl Abort, alloc: Global, registry: &mut Registry<D>, calls: &[Call]) {
    let Ok(mut lease) = registry.take(ZERO) else {
        panic!(rt; "not taken")
    };
    assert!(rt; lease.device.at_rest());
    assert!(rt; lease.device.get(alloc, RESOLUTION) == Ok(Value::Int(50)));
    assert!(rt;
        lease
            .device
            .set(alloc, RESOLUTION, &Value::Int(100))
            .is_ok()
    );
    assert!(rt; lease.device.start(alloc).is_ok());
    assert!(rt; lease.device.read(&mut [0]) == Ok(1) && !lease.device.at_rest());
    expect_each(rt, alloc, registry, calls);
    registry.give_back(lease);
}

#[test]
fn leased_and_unplugged(rt: HostRuntime) {
    let alloc = rt.alloc();
    let devices = flatbeds(alloc, &[ZERO, ONE]).expect(&rt, "devices");
    let mut registry = Registry::new(alloc, devices).ok().expect(&rt, "a registry");
    scan_in(&rt, alloc, &mut registry, LEASED);
    scan_in(&rt, alloc, &mut registry, UNPLUGGED);
    scan_in(&rt, alloc, &mut registry, &[]);
}

/// Names of devices, and those of their backends.
const BACKENDS: &[(&[u8], &[u8])] = &[
    (b"flatbed:0", b"flatbed"),
    (b"net:host:flatbed:0", b"net"),
    (b":0", b""),
    (b"flatbed", b"flatbed"),
];

#[test]
fn names_of_backends(rt: HostRuntime) {
    for (name, backend) in BACKENDS {
        assert!(rt; backend_of(name) == *backend);
    }
}
