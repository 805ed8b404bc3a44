//! Requests and replies (SANE Standard 1.06, "Network Protocol").

use crate::array::Array;
use option_desc::Descriptor;
use sane_fixed::{ByteOrder, DeviceInfo, Info, Kind, Params, Status, Text};

/// The longest message, in bytes.
pub const MESSAGE_LIMIT: usize = 1048576;

/// What is asked for.
#[derive(Clone, Copy, Debug, PartialEq, Eq)]
pub enum Procedure {
    Init = 0,
    GetDevices = 1,
    Open = 2,
    Close = 3,
    GetOptionDescriptors = 4,
    ControlOption = 5,
    GetParameters = 6,
    Start = 7,
    Cancel = 8,
    Authorize = 9,
    Exit = 10,
}

/// What is done with an option.
#[derive(Clone, Copy, Debug, PartialEq, Eq)]
pub enum ControlAction {
    GetValue = 0,
    SetValue = 1,
}

/// An option's value as it travels: words, for BOOL, INT and FIXED, or the bytes of a STRING.
#[derive(Debug, Drop)]
pub enum WireValue {
    Words(Array<u32>),
    Bytes(Array<u8>),
}

/// A request.
#[derive(Debug, Drop)]
pub enum Request {
    /// The version has the major in bits 24 to 31, the minor in 16 to 23, the build in 0 to 15.
    Init {
        version: u32,
        user: Text,
    },
    GetDevices,
    Open {
        name: Text,
    },
    Close {
        device: u32,
    },
    GetOptionDescriptors {
        device: u32,
    },
    ControlOption {
        device: u32,
        option: u32,
        action: ControlAction,
        kind: Kind,
        value: WireValue,
    },
    GetParameters {
        device: u32,
    },
    Start {
        device: u32,
    },
    Cancel {
        device: u32,
    },
    Authorize {
        resource: Text,
        user: Text,
        password: Text,
    },
    Exit,
}

/// A reply. There is none to `Exit`.
#[derive(Debug, Drop)]
pub enum Reply {
    Init {
        status: Status,
        version: u32,
    },
    GetDevices {
        status: Status,
        devices: Array<DeviceInfo>,
    },
    Open {
        status: Status,
        device: u32,
        resource: Text,
    },
    Close,
    GetOptionDescriptors {
        descriptors: Array<Descriptor>,
    },
    ControlOption {
        status: Status,
        info: Info,
        kind: Kind,
        value: WireValue,
        resource: Text,
    },
    GetParameters {
        status: Status,
        params: Params,
    },
    /// The port of the data connection, and the order of its samples' bytes.
    Start {
        status: Status,
        port: u16,
        order: ByteOrder,
        resource: Text,
    },
    Cancel,
    /// The reply to `Open` follows it, as one of its own.
    Authorize,
    Exit,
}
