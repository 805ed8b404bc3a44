//! Replies as bytes: the one way of writing each.

ghost use Rattle.std.specs.Prelude.{◌≡◌, ◌≢◌, ◌↔◌, ◌||◌, Some, IfOk, IfErr};
ghost use Rattle.wire_format.specs.Limit.{limited_format};
ghost use Rattle.wire_format.specs.Writer.{PutsBehind, append_text, write_places};
ghost use Rattle.sane_fixed.specs.Status.{status_code};
ghost use Rattle.constraint.specs.Admitted.{IsRange};
ghost use Rattle.wire_message.specs.Message.{message_limit, reply as reply_format};
ghost use Rattle.wire_writing.specs.WireLimits.{IsBadReply, PassesLimit, reply_passes};
ghost use Rattle.wire_writing.specs.RequestWriting.{code_text, write_string, write_any, write_resource, value_long};
ghost use Rattle.wire_writing.specs.ReplyWriting.{device_text, write_device, write_devices, signed_text, bounds_text, range_text, word_list_text, string_list_text, constraint_long, constraint_text, size_text, kind_text, write_descriptor, write_descriptors, flag_code, lines_text, params_text, order_code, replied_procedure, write_reply};

use crate::request_writing::{
    encode, is_long_string, is_long_value, put_any_word, put_resource, put_string, put_value,
};
use constraint::{Range, StringList, WordList};
use option_desc::{Constraint, Descriptor};
use sane_fixed::{ByteOrder, DeviceInfo, Params, Status, Text};
use std::alloc::Global;
use wire_format::{Encoder, Fault, WriteError, is_any_long, put_all, put_word, put_word_between};
use wire_message::{Array, Reply, WireFault};

// ---- devices

/// A pointer that is not NULL, and its device.
struct NextDevice;

impl Encoder for NextDevice {
    ghost use Rattle.wire_writing.specs.ReplyWriting.{write_device};

    type Value = DeviceInfo;

    ghost writer = { write_device };

    fn is_long(value: &DeviceInfo) -> bool {
        is_long_string(&value.name)
            || is_long_string(&value.vendor)
            || is_long_string(&value.model)
            || is_long_string(&value.class)
    }

    fn put(out: &mut Vec<u8>, value: &DeviceInfo) -> Result<(), WriteError> {
        put_word(out, 0)?;
        put_string(out, &value.name)?;
        put_string(out, &value.vendor)?;
        put_string(out, &value.model)?;
        put_string(out, &value.class)
    }
}

fn are_long_devices(devices: &Array<DeviceInfo>) -> bool
    ensures { result ≡ write_devices.long devices.now }
{
    let devices = devices.as_slice();
    devices.len() > 1023 || is_any_long::<NextDevice>(devices)
}

/// The array of devices, and the NULL pointer that is its last element.
fn put_devices(out: &mut Vec<u8>, devices: &Array<DeviceInfo>) -> Result<(), WriteError>
    ensures { PutsBehind result out.old.items out.new.items (write_devices.text devices.now) }
{
    let devices = devices.as_slice();
    if devices.len() > 1023 {
        return Err(WriteError::Unspelled);
    }
    put_word(out, devices.len() as u32 + 1)?;
    put_all::<NextDevice>(out, devices)?;
    Ok(put_word(out, 1)?)
}

// ---- constraints

#[tactic(auto, unfolding(crate::specs::ReplyWriting::signed_text))]
fn put_signed(out: &mut Vec<u8>, n: i32) -> Result<(), WriteError>
    ensures { PutsBehind result out.old.items out.new.items (signed_text n) }
{
    Ok(put_word(out, n.cast_unsigned())?)
}

struct SignedWord;

impl Encoder for SignedWord {
    ghost use Rattle.wire_writing.specs.ReplyWriting.{write_signed};

    type Value = i32;

    ghost writer = { write_signed };

    fn is_long(value: &i32) -> bool {
        let _value = *value;
        false
    }

    fn put(out: &mut Vec<u8>, value: &i32) -> Result<(), WriteError> {
        put_signed(out, *value)
    }
}

/// A pointer that is not NULL, and the three words.
fn put_bounds(out: &mut Vec<u8>, range: &Range) -> Result<(), WriteError>
    ensures keeps { IsRange range.now }
    ensures puts { PutsBehind result out.old.items out.new.items (bounds_text range.now) }
{
    let (min, max, quant) = (range.min(), range.max(), range.quant());
    put_word(out, 0)?;
    put_signed(out, min)?;
    put_signed(out, max)?;
    put_signed(out, quant)
}

fn put_range(out: &mut Vec<u8>, range: &Range) -> Result<(), WriteError>
    ensures { PutsBehind result out.old.items out.new.items (range_text range.now) }
{
    put_bounds(out, range)
}

/// The array of the words, behind a first word that says how many they are.
fn put_word_list(out: &mut Vec<u8>, list: &WordList) -> Result<(), WriteError>
    ensures { PutsBehind result out.old.items out.new.items (word_list_text list.now) }
{
    let words = list.as_slice();
    put_word(out, words.len() as u32 + 1)?;
    put_word(out, words.len() as u32)?;
    put_all::<SignedWord>(out, words)
}

/// A string of a list.
struct Entry;

impl Encoder for Entry {
    ghost use Rattle.wire_writing.specs.RequestWriting.{write_string};

    type Value = Text;

    ghost writer = { write_string };

    fn is_long(value: &Text) -> bool {
        is_long_string(value)
    }

    fn put(out: &mut Vec<u8>, value: &Text) -> Result<(), WriteError> {
        put_string(out, value)
    }
}

/// The array of the strings, and the NULL string that is its last element.
fn put_string_list(out: &mut Vec<u8>, list: &StringList) -> Result<(), WriteError>
    ensures { PutsBehind result out.old.items out.new.items (string_list_text list.now) }
{
    let entries = list.as_slice();
    put_word(out, entries.len() as u32 + 1)?;
    put_all::<Entry>(out, entries)?;
    Ok(put_word(out, 0)?)
}

fn is_long_constraint(constraint: &Constraint) -> bool
    ensures { result ≡ constraint_long constraint.now }
{
    match constraint {
        Constraint::Free | Constraint::Span(_) => false,
        Constraint::Words(list) => list.as_slice().len() > 1023,
        Constraint::Strings(list) => {
            let entries = list.as_slice();
            entries.len() > 1023 || is_any_long::<Entry>(entries)
        }
    }
}

fn put_constraint(out: &mut Vec<u8>, constraint: &Constraint) -> Result<(), WriteError>
    ensures { PutsBehind result out.old.items out.new.items (constraint_text constraint.now) }
{
    match constraint {
        Constraint::Free => Ok(put_word(out, 0)?),
        Constraint::Span(range) => {
            put_word(out, 1)?;
            put_range(out, range)
        }
        Constraint::Words(list) => {
            put_word(out, 2)?;
            put_word_list(out, list)
        }
        Constraint::Strings(list) => {
            put_word(out, 3)?;
            put_string_list(out, list)
        }
    }
}

// ---- descriptors

/// What stands behind a descriptor's unit.
fn put_size(out: &mut Vec<u8>, descriptor: &Descriptor) -> Result<(), WriteError>
    ensures { PutsBehind result out.old.items out.new.items (size_text descriptor.now) }
{
    put_any_word(out, descriptor.size)?;
    put_any_word(out, descriptor.caps.0)?;
    put_constraint(out, &descriptor.constraint)
}

/// What stands behind a descriptor's three strings.
fn put_kind(out: &mut Vec<u8>, descriptor: &Descriptor) -> Result<(), WriteError>
    ensures { PutsBehind result out.old.items out.new.items (kind_text descriptor.now) }
{
    put_word(out, descriptor.kind.code())?;
    put_word(out, descriptor.unit.code())?;
    put_size(out, descriptor)
}

/// A pointer that is not NULL, and its descriptor.
struct NextDescriptor;

impl Encoder for NextDescriptor {
    ghost use Rattle.wire_writing.specs.ReplyWriting.{write_descriptor};

    type Value = Descriptor;

    ghost writer = { write_descriptor };

    fn is_long(value: &Descriptor) -> bool {
        is_long_string(&value.name)
            || is_long_string(&value.title)
            || is_long_string(&value.about)
            || is_long_constraint(&value.constraint)
    }

    fn put(out: &mut Vec<u8>, value: &Descriptor) -> Result<(), WriteError> {
        put_word(out, 0)?;
        put_string(out, &value.name)?;
        put_string(out, &value.title)?;
        put_string(out, &value.about)?;
        put_kind(out, value)
    }
}

fn are_long_descriptors(descriptors: &Array<Descriptor>) -> bool
    ensures { result ≡ write_descriptors.long descriptors.now }
{
    let descriptors = descriptors.as_slice();
    descriptors.len() > 1024 || is_any_long::<NextDescriptor>(descriptors)
}

fn put_descriptors(out: &mut Vec<u8>, descriptors: &Array<Descriptor>) -> Result<(), WriteError>
    ensures { PutsBehind result out.old.items out.new.items
        (write_descriptors.text descriptors.now) }
{
    let descriptors = descriptors.as_slice();
    if descriptors.len() > 1024 {
        return Err(WriteError::Unspelled);
    }
    put_word(out, descriptors.len() as u32)?;
    put_all::<NextDescriptor>(out, descriptors)
}

// ---- parameters

fn flag_code(flag: bool) -> u32
    ensures { result ≡ flag_code flag }
{
    if flag { 1 } else { 0 }
}

fn put_lines(out: &mut Vec<u8>, lines: Option<u32>) -> Result<(), WriteError>
    ensures { PutsBehind result out.old.items out.new.items (lines_text lines) }
{
    match lines {
        None => Ok(put_word(out, u32::MAX)?),
        Some(lines) => put_word_between(out, lines, 0, u32::MAX - 1, Fault::BadValue),
    }
}

fn put_params(out: &mut Vec<u8>, params: &Params) -> Result<(), WriteError>
    ensures { PutsBehind result out.old.items out.new.items (params_text params.now) }
{
    put_word(out, params.format.code())?;
    put_word(out, flag_code(params.last_frame))?;
    put_any_word(out, params.bytes_per_line)?;
    put_any_word(out, params.pixels_per_line)?;
    put_lines(out, params.lines)?;
    put_any_word(out, params.depth)
}

fn order_code(order: ByteOrder) -> u32
    ensures { result ≡ order_code order }
{
    match order {
        ByteOrder::Little => 0x1234,
        ByteOrder::Big => 0x4321,
    }
}

// ---- replies

fn put_status(out: &mut Vec<u8>, status: Status) -> Result<(), WriteError>
    ensures { PutsBehind result out.old.items out.new.items (code_text (status_code status)) }
{
    Ok(put_word(out, status.code())?)
}

fn is_long_reply(reply: &Reply) -> bool
    ensures { result ≡ write_reply.long reply.now }
{
    match reply {
        Reply::GetDevices { devices, .. } => are_long_devices(devices),
        Reply::Open { resource, .. } | Reply::Start { resource, .. } => is_long_string(resource),
        Reply::GetOptionDescriptors { descriptors } => are_long_descriptors(descriptors),
        Reply::ControlOption {
            value,
            resource,
            ..
        } => is_long_value(value) || is_long_string(resource),
        _ => false,
    }
}

fn put_reply(out: &mut Vec<u8>, reply: &Reply) -> Result<(), WriteError>
    ensures { PutsBehind result out.old.items out.new.items (write_reply.text reply.now) }
{
    match reply {
        Reply::Init { status, version } => {
            put_status(out, *status)?;
            put_any_word(out, *version)
        }
        Reply::GetDevices { status, devices } => {
            put_status(out, *status)?;
            put_devices(out, devices)
        }
        Reply::Open {
            status,
            device,
            resource,
        } => {
            put_status(out, *status)?;
            put_any_word(out, *device)?;
            put_resource(out, resource)
        }
        Reply::GetOptionDescriptors { descriptors } => put_descriptors(out, descriptors),
        Reply::ControlOption {
            status,
            info,
            kind,
            value,
            resource,
        } => {
            put_status(out, *status)?;
            put_any_word(out, info.0)?;
            put_word(out, kind.code())?;
            put_value(out, *kind, value)?;
            put_resource(out, resource)
        }
        Reply::GetParameters { status, params } => {
            put_status(out, *status)?;
            put_params(out, params)
        }
        Reply::Start {
            status,
            port,
            order,
            resource,
        } => {
            put_status(out, *status)?;
            put_word_between(out, u32::from(*port), 0, 65535, Fault::BadValue)?;
            put_word(out, order_code(*order))?;
            put_resource(out, resource)
        }
        Reply::Close | Reply::Cancel | Reply::Authorize => Ok(put_word(out, 0)?),
        Reply::Exit => Err(WriteError::Unspelled),
    }
}

/// Replies.
struct AnyReply;

impl Encoder for AnyReply {
    ghost use Rattle.wire_writing.specs.ReplyWriting.{write_reply};

    type Value = Reply;

    ghost writer = { write_reply };

    fn is_long(value: &Reply) -> bool {
        is_long_reply(value)
    }

    fn put(out: &mut Vec<u8>, value: &Reply) -> Result<(), WriteError> {
        put_reply(out, value)
    }
}

/// The bytes of a reply to the procedure that it answers: its text, `TooLong` exactly where a limit is passed, else
/// `BadValue` exactly where nothing spells it, as that to `Exit`.
pub fn encode_reply(alloc: Global, reply: &Reply) -> Result<Vec<u8>, WireFault>
    ensures ok { IfOk result (λ v. (limited_format message_limit
        (reply_format (replied_procedure reply.now))).spells v.items reply.now) }
    ensures text { IfOk result (λ v. write_reply.text reply.now ≡ Some v.items) }
    ensures long { result ≢ Err WireFault.NoMem → (result ≡ Err WireFault.TooLong)
        ↔ PassesLimit (reply_passes reply.now) (write_reply.text reply.now) }
    ensures bad { IfErr result
        (λ e. e ≢ WireFault.NoMem → e ≢ WireFault.TooLong → IsBadReply reply.now e) }
{
    encode::<AnyReply>(alloc, reply)
}
