//! Arrays of a reply that came in part: what was read of them is not read again.

ghost use Rattle.std.specs.Prelude.{◌≡◌, ◌+◌, ◌<◌, ◌≤◌, IfOk, IfErr, IfSome, OnOk, List, ℕ, drop, length};
ghost use Rattle.wire_format.specs.Format.{ReadingFails, Gives};
ghost use Rattle.wire_format.specs.Lawful.{SpellsFront};
ghost use Rattle.wire_message.specs.Message.{message_limit, option_list, reply as reply_format};
ghost use Rattle.wire_codec.specs.Arrays.{ReadsElements, array_end, DevicesBegun, OptionsBegun, ArraysAreReadSoFar};

use crate::message_reading::{NextDescriptor, NextDevice, last_device, with_last};
use crate::word_readers::{status, up_to};
use option_desc::Descriptor;
use sane_fixed::{DeviceInfo, Status};
use std::alloc::Global;
use wire_format::{ReadError, Reader, used_bytes};
use wire_message::{Array, Procedure, Reply};

/// A reader of elements: it takes a spelling of what it gives.
pub(crate) trait Element {
    ghost use Rattle.wire_format.specs.Format.{Format};

    type Value;

    ghost format: { Format Self.Value };

    fn take(alloc: Global, bytes: &[u8]) -> Result<(Self::Value, &[u8]), ReadError>
        ensures read { Gives (λ x. (x.0, x.1.now)) result (format.read bytes.now) }
        ensures taken { IfOk result (λ x. SpellsFront format bytes.now x.1.now x.0) };
}

impl Element for NextDevice {
    ghost use Rattle.wire_message.specs.Message.{next_device};

    type Value = DeviceInfo;

    ghost format = { next_device };

    fn take(alloc: Global, bytes: &[u8]) -> Result<(DeviceInfo, &[u8]), ReadError> {
        NextDevice::read(alloc, bytes)
    }
}

impl Element for NextDescriptor {
    ghost use Rattle.wire_message.specs.Message.{next_descriptor};

    type Value = Descriptor;

    ghost format = { next_descriptor };

    fn take(alloc: Global, bytes: &[u8]) -> Result<(Descriptor, &[u8]), ReadError> {
        NextDescriptor::read(alloc, bytes)
    }
}

/// The elements that were read of an array.
#[derive(Drop)]
pub(crate) struct Elements<T> {
    pub front: Vec<T>,
    /// How many are still to be read like these.
    pub left: u32,
    /// How many bytes of the message were read.
    pub used: usize,
}

/// The devices that were read of a reply.
#[derive(Drop)]
pub(crate) struct Devices {
    pub status: Status,
    /// How many elements the array has, with its end.
    pub count: u32,
    pub elements: Elements<DeviceInfo>,
}

/// The replies that have begun.
#[derive(Drop)]
pub(crate) struct ArraysSoFar {
    pub devices: Option<Devices>,
    pub options: Option<Elements<Descriptor>>,
}

/// None has.
pub(crate) fn none_begun() -> ArraysSoFar
    ensures { (bytes : List ℕ) → ArraysAreReadSoFar bytes result }
{
    ArraysSoFar {
        devices: None,
        options: None,
    }
}

/// What stands behind so many bytes.
fn rest_of_array(bytes: &[u8], count: usize) -> &[u8]
    requires { count ≤ length bytes.now }
    ensures { result.now ≡ drop count bytes.now }
{
    bytes.split_at(count).1
}

/// Reads one more element behind those that were read.
fn read_one<E: Element>(
    alloc: Global,
    elements: &mut Elements<E::Value>,
    bytes: &[u8],
) -> Result<(), ReadError>
where
    E::Value: Drop,
    requires within { elements.old.used ≤ length bytes.now }
    requires left { 0 < elements.old.left }
    ensures on { ReadsElements E.format bytes.now elements.old elements.new }
    ensures ok { OnOk result (elements.new.left + 1 ≡ elements.old.left) }
    ensures err { IfErr result (λ e. ReadingFails e
        (E.format.read (drop elements.new.used bytes.now)) × (0 < elements.new.left)) }
{
    let part = rest_of_array(bytes, elements.used);
    let (value, rest) = E::take(alloc, part)?;
    let count = used_bytes(part, rest);
    elements.front.push(value)?;
    elements.used += count;
    elements.left -= 1;
    Ok(())
}

/// Reads the elements that are left, until one is not there.
fn read_on<E: Element>(
    alloc: Global,
    elements: &mut Elements<E::Value>,
    bytes: &[u8],
) -> Result<(), ReadError>
where
    E::Value: Drop,
    requires { elements.old.used ≤ length bytes.now }
    ensures on { ReadsElements E.format bytes.now elements.old elements.new }
    ensures ok { OnOk result (elements.new.left ≡ 0) }
    ensures err { IfErr result (λ e. ReadingFails e
        (E.format.read (drop elements.new.used bytes.now)) × (0 < elements.new.left)) }
{
    let count = elements.left;
    for _ in 0..count {
        read_one::<E>(alloc, elements, bytes)?;
    }
    Ok(())
}

/// Reads the status of a reply to `GetDevices`, and how many elements its array has.
#[tactic(auto, unfolding(wire_message::specs::Message::reply, wire_message::specs::Message::devices))]
fn begin_devices(alloc: Global, bytes: &[u8]) -> Result<Devices, ReadError>
    requires { length bytes.now ≤ message_limit }
    ensures ok { IfOk result (DevicesBegun bytes.now) }
    ensures err { IfErr result
        (λ e. ReadingFails e ((reply_format Procedure.GetDevices).read bytes.now)) }
{
    let (status, behind_status) = status(bytes)?;
    let (count, rest) = up_to(behind_status, 1024)?;
    let used = used_bytes(bytes, rest);
    Ok(Devices {
        status,
        count,
        elements: Elements {
            front: Vec::new(alloc),
            left: count.saturating_sub(1),
            used,
        },
    })
}

/// What ends an array of so many devices.
fn array_end(
    alloc: Global,
    count: u32,
    bytes: &[u8],
) -> Result<(Option<DeviceInfo>, &[u8]), ReadError>
    ensures { Gives (λ x. (option_list x.0, x.1.now)) result ((array_end count).read bytes.now) }
{
    if count == 0 {
        Ok((None, bytes))
    } else {
        last_device(alloc, bytes)
    }
}

/// Reads on in the devices that have begun, and to the end of the reply.
fn end_devices<'a>(
    alloc: Global,
    mut devices: Devices,
    begun: &mut Option<Devices>,
    bytes: &'a [u8],
) -> Result<(Reply, &'a [u8]), ReadError>
    requires short { length bytes.now ≤ message_limit }
    requires begun { DevicesBegun bytes.now devices }
    ensures kept { IfSome begun.new (DevicesBegun bytes.now) }
    ensures read { Gives (λ x. (x.0, x.1.now)) result
        ((reply_format Procedure.GetDevices).read bytes.now) }
{
    *begun = None;
    match read_on::<NextDevice>(alloc, &mut devices.elements, bytes) {
        Ok(()) => {}
        Err(e) => {
            *begun = Some(devices);
            return Err(e);
        }
    }
    match array_end(
        alloc,
        devices.count,
        rest_of_array(bytes, devices.elements.used),
    ) {
        Ok((last, rest)) => {
            let status = devices.status;
            let devices = with_last(devices.elements.front, last)?;
            Ok((Reply::GetDevices { status, devices }, rest))
        }
        Err(e) => {
            *begun = Some(devices);
            Err(e)
        }
    }
}

/// The reply to `GetDevices`, where what was read of it before is kept.
pub(crate) fn devices_reply<'a>(
    alloc: Global,
    begun: &mut Option<Devices>,
    bytes: &'a [u8],
) -> Result<(Reply, &'a [u8]), ReadError>
    requires short { length bytes.now ≤ message_limit }
    requires begun { IfSome begun.old (DevicesBegun bytes.now) }
    ensures kept { IfSome begun.new (DevicesBegun bytes.now) }
    ensures read { Gives (λ x. (x.0, x.1.now)) result
        ((reply_format Procedure.GetDevices).read bytes.now) }
{
    let devices = match begun.take() {
        Some(devices) => devices,
        None => begin_devices(alloc, bytes)?,
    };
    end_devices(alloc, devices, begun, bytes)
}

/// Reads how many options a reply to `GetOptionDescriptors` tells of.
#[tactic(auto, unfolding(wire_message::specs::Message::reply, wire_message::specs::Message::descriptors))]
fn begin_options(alloc: Global, bytes: &[u8]) -> Result<Elements<Descriptor>, ReadError>
    requires { length bytes.now ≤ message_limit }
    ensures ok { IfOk result (OptionsBegun bytes.now) }
    ensures err { IfErr result
        (λ e. ReadingFails e ((reply_format Procedure.GetOptionDescriptors).read bytes.now)) }
{
    let (left, rest) = up_to(bytes, 1024)?;
    let used = used_bytes(bytes, rest);
    Ok(Elements {
        front: Vec::new(alloc),
        left,
        used,
    })
}

/// Reads on in the options that have begun.
fn end_options<'a>(
    alloc: Global,
    mut elements: Elements<Descriptor>,
    begun: &mut Option<Elements<Descriptor>>,
    bytes: &'a [u8],
) -> Result<(Reply, &'a [u8]), ReadError>
    requires short { length bytes.now ≤ message_limit }
    requires begun { OptionsBegun bytes.now elements }
    ensures kept { IfSome begun.new (OptionsBegun bytes.now) }
    ensures read { Gives (λ x. (x.0, x.1.now)) result
        ((reply_format Procedure.GetOptionDescriptors).read bytes.now) }
{
    *begun = None;
    match read_on::<NextDescriptor>(alloc, &mut elements, bytes) {
        Ok(()) => {
            let rest = rest_of_array(bytes, elements.used);
            let descriptors = Array::from_vec(elements.front);
            Ok((Reply::GetOptionDescriptors { descriptors }, rest))
        }
        Err(e) => {
            *begun = Some(elements);
            Err(e)
        }
    }
}

/// The reply to `GetOptionDescriptors`, where what was read of it before is kept.
pub(crate) fn options_reply<'a>(
    alloc: Global,
    begun: &mut Option<Elements<Descriptor>>,
    bytes: &'a [u8],
) -> Result<(Reply, &'a [u8]), ReadError>
    requires short { length bytes.now ≤ message_limit }
    requires begun { IfSome begun.old (OptionsBegun bytes.now) }
    ensures kept { IfSome begun.new (OptionsBegun bytes.now) }
    ensures read { Gives (λ x. (x.0, x.1.now)) result
        ((reply_format Procedure.GetOptionDescriptors).read bytes.now) }
{
    let elements = match begun.take() {
        Some(elements) => elements,
        None => begin_options(alloc, bytes)?,
    };
    end_options(alloc, elements, begun, bytes)
}
