//! Messages out of bytes: a function for each format, of the same name.

ghost use Rattle.std.specs.Prelude.{◌≡◌, ◌≤◌, ◌++◌, length, IfOk, IfErr, IsSome, IsNone};
ghost use Rattle.sane_fixed.specs.Text.{IsText};
ghost use Rattle.wire_format.specs.Format.{Gives, places};
ghost use Rattle.wire_codec.specs.Arrays.{ArraysAreReadSoFar};
ghost use Rattle.wire_message.specs.Message.{message_limit, option_list, word, signed_word, text_format_of, string, device, next_device, last_device, range, word_list, entry, last_entry, last_of, last_in, string_list, constraint_of, constraint, descriptor, next_descriptor, words_value, bytes_value, value_of, arguments, request, params, reply};

use crate::begun::{ArraysSoFar, devices_reply, options_reply};
use crate::word_readers::{
    action_at, any_word, at_least, bad, frame_at, from_to, is_set, kind_at, length_from, lines_at,
    order, pointer, procedure_at, status, unit_at, up_to, words_size,
};
use constraint::{Range, StringList, WordList};
use option_desc::{Constraint, Descriptor};
use sane_fixed::{Cap, DeviceInfo, Info, Kind, Params, Text};
use std::alloc::Global;
use wire_format::{Fault, ReadError, Reader, byte_between, places, run, word_between};
use wire_message::{Array, Procedure, Reply, Request, WireValue};

/// The text of bytes none of which is NUL.
fn text(alloc: Global, bytes: &[u8]) -> Result<Text, ReadError>
    requires { IsText bytes.now }
    ensures ok { IfOk result (λ text. text ≡ bytes.now) }
    ensures err { IfErr result (λ e. e ≡ ReadError.Memory) }
{
    match Text::new(alloc, bytes) {
        Ok(text) => Ok(text),
        Err(_) => Err(ReadError::Memory),
    }
}

/// So many bytes: none of them NUL but the last.
#[tactic(auto, unfolding(wire_message::specs::Message::text_format_of))]
pub(crate) fn text_of(alloc: Global, len: u32, bytes: &[u8]) -> Result<(Text, &[u8]), ReadError>
    ensures { Gives (λ x. (x.0, x.1.now)) result ((text_format_of len).read bytes.now) }
{
    if len == 0 {
        let empty = text(alloc, &[])?;
        return Ok((empty, bytes));
    }
    let (letters, rest) = run(bytes, 1, len as usize - 1)?;
    let (_, rest) = byte_between(rest, 0, 0)?;
    let text = text(alloc, letters)?;
    Ok((text, rest))
}

#[tactic(auto, unfolding(wire_message::specs::Message::string))]
pub(crate) fn string(alloc: Global, bytes: &[u8]) -> Result<(Text, &[u8]), ReadError>
    ensures { Gives (λ x. (x.0, x.1.now)) result (string.read bytes.now) }
{
    let (len, rest) = up_to(bytes, 1024)?;
    text_of(alloc, len, rest)
}

// ---- devices

#[tactic(auto, unfolding(wire_message::specs::Message::device))]
fn device(alloc: Global, bytes: &[u8]) -> Result<(DeviceInfo, &[u8]), ReadError>
    ensures { Gives (λ x. (x.0, x.1.now)) result (device.read bytes.now) }
{
    let (name, rest) = string(alloc, bytes)?;
    let (vendor, rest) = string(alloc, rest)?;
    let (model, rest) = string(alloc, rest)?;
    let (class, rest) = string(alloc, rest)?;
    Ok((
        DeviceInfo {
            name,
            vendor,
            model,
            class,
        },
        rest,
    ))
}

/// A pointer that is not NULL, and its device.
pub(crate) struct NextDevice;

impl Reader for NextDevice {
    ghost use Rattle.wire_message.specs.Message.{next_device};

    type Value = DeviceInfo;

    ghost format = { next_device };

    #[tactic(auto, unfolding(wire_message::specs::Message::next_device))]
    fn read(alloc: Global, bytes: &[u8]) -> Result<(DeviceInfo, &[u8]), ReadError> {
        let rest = pointer(bytes)?;
        device(alloc, rest)
    }
}

#[tactic(auto, unfolding(wire_message::specs::Message::last_device))]
pub(crate) fn last_device(
    alloc: Global,
    bytes: &[u8],
) -> Result<(Option<DeviceInfo>, &[u8]), ReadError>
    ensures { Gives (λ x. (option_list x.0, x.1.now)) result (last_device.read bytes.now) }
{
    let (pointer, rest) = any_word(bytes)?;
    if pointer == 0 {
        let (device, rest) = device(alloc, rest)?;
        Ok((Some(device), rest))
    } else {
        Ok((None, rest))
    }
}

/// The front, and the last behind it, if there is one.
pub(crate) fn with_last<T: Drop>(front: Vec<T>, last: Option<T>) -> Result<Array<T>, ReadError>
    ensures ok { IfOk result (λ all. all ≡ front.items ++ option_list last) }
    ensures err { IfErr result (λ e. e ≡ ReadError.Memory) }
{
    let mut all = front;
    if let Some(last) = last {
        all.push(last)?;
    }
    Ok(Array::from_vec(all))
}

// ---- constraints

#[tactic(auto, unfolding(wire_message::specs::Message::range))]
fn range(bytes: &[u8]) -> Result<(Range, &[u8]), ReadError>
    ensures { Gives (λ x. (x.0, x.1.now)) result (range.read bytes.now) }
{
    let rest = pointer(bytes)?;
    let (min, rest) = any_word(rest)?;
    let (max, rest) = at_least(rest, min)?;
    let (quant, rest) = from_to(rest, 0, 0x7fff_ffff)?;
    match Range::new(min.cast_signed(), max.cast_signed(), quant.cast_signed()) {
        Some(range) => Ok((range, rest)),
        None => Err(bad(Fault::BadValue)),
    }
}

struct SignedWord;

impl Reader for SignedWord {
    ghost use Rattle.wire_message.specs.Message.{signed_word};

    type Value = i32;

    ghost format = { signed_word };

    fn read(_alloc: Global, bytes: &[u8]) -> Result<(i32, &[u8]), ReadError> {
        let (word, rest) = any_word(bytes)?;
        Ok((word.cast_signed(), rest))
    }
}

#[tactic(auto, unfolding(wire_message::specs::Message::word_list))]
fn word_list(alloc: Global, bytes: &[u8]) -> Result<(WordList, &[u8]), ReadError>
    ensures { Gives (λ x. (x.0, x.1.now)) result (word_list.read bytes.now) }
{
    let (n, rest) = length_from(bytes, 2)?;
    let (count, rest) = from_to(rest, n - 1, n - 1)?;
    let (words, rest) = places::<SignedWord>(alloc, count, rest)?;
    match WordList::new(words) {
        Some(list) => Ok((list, rest)),
        None => Err(bad(Fault::BadValue)),
    }
}

/// A string of a list, which is not the NULL string.
struct Entry;

impl Reader for Entry {
    ghost use Rattle.wire_message.specs.Message.{entry};

    type Value = Text;

    ghost format = { entry };

    #[tactic(auto, unfolding(wire_message::specs::Message::entry))]
    fn read(alloc: Global, bytes: &[u8]) -> Result<(Text, &[u8]), ReadError> {
        let (len, rest) = length_from(bytes, 1)?;
        text_of(alloc, len, rest)
    }
}

/// A string of a list, passed over: the NUL at its end.
struct PassedEntry;

impl Reader for PassedEntry {
    ghost use Rattle.wire_message.specs.Message.{passed_entry};

    type Value = u8;

    ghost format = { passed_entry };

    #[tactic(auto, unfolding(wire_message::specs::Message::entry, wire_message::specs::Message::text_format_of))]
    fn read(_alloc: Global, bytes: &[u8]) -> Result<(u8, &[u8]), ReadError> {
        let (length, rest) = length_from(bytes, 1)?;
        let (_, rest) = run(rest, 1, length as usize - 1)?;
        byte_between(rest, 0, 0)
    }
}

#[tactic(auto, unfolding(wire_message::specs::Message::last_entry))]
fn last_entry(alloc: Global, bytes: &[u8]) -> Result<(Option<Text>, &[u8]), ReadError>
    ensures { Gives (λ x. (option_list x.0, x.1.now)) result (last_entry.read bytes.now) }
{
    let (len, rest) = up_to(bytes, 1024)?;
    if len == 0 {
        Ok((None, rest))
    } else {
        let (text, rest) = text_of(alloc, len, rest)?;
        Ok((Some(text), rest))
    }
}

/// The last string of an array of so many: that of an array of one is no NULL string, that of the longest is.
#[tactic(auto, unfolding(wire_message::specs::Message::only_entry, wire_message::specs::Message::no_entry))]
fn last_of(alloc: Global, count: u32, bytes: &[u8]) -> Result<(Option<Text>, &[u8]), ReadError>
    ensures one { count ≡ 1 → IfOk result (λ x. IsSome x.0) }
    ensures longest { count ≡ 1024 → IfOk result (λ x. IsNone x.0) }
    ensures read { Gives (λ x. (option_list x.0, x.1.now)) result
        ((last_of (last_in count)).read bytes.now) }
{
    if count == 1 {
        let (only, rest) = Entry::read(alloc, bytes)?;
        return Ok((Some(only), rest));
    }
    if count == 1024 {
        let (_, rest) = from_to(bytes, 0, 0)?;
        return Ok((None, rest));
    }
    last_entry(alloc, bytes)
}

#[tactic(auto, unfolding(wire_message::specs::Message::string_list))]
fn string_list(alloc: Global, bytes: &[u8]) -> Result<(StringList, &[u8]), ReadError>
    ensures { Gives (λ x. (x.0, x.1.now)) result (string_list.read bytes.now) }
{
    let (count, rest) = length_from(bytes, 1)?;
    // Where one is not there yet, no memory is taken for those before it.
    places::<PassedEntry>(alloc, count - 1, rest)?;
    let (front, rest) = places::<Entry>(alloc, count - 1, rest)?;
    let (last, rest) = last_of(alloc, count, rest)?;
    let all = with_last(front, last)?;
    match StringList::new(all.into_vec()) {
        Some(list) => Ok((list, rest)),
        None => Err(bad(Fault::BadValue)),
    }
}

#[tactic(auto, unfolding(wire_message::specs::Message::constraint))]
fn constraint(alloc: Global, bytes: &[u8]) -> Result<(Constraint, &[u8]), ReadError>
    ensures { Gives (λ x. (x.0, x.1.now)) result (constraint.read bytes.now) }
{
    let (kind, rest) = from_to(bytes, 0, 3)?;
    match kind {
        0 => Ok((Constraint::Free, rest)),
        1 => match range(rest) {
            Ok((range, rest)) => Ok((Constraint::Span(range), rest)),
            Err(e) => Err(e),
        },
        2 => {
            let (words, rest) = word_list(alloc, rest)?;
            Ok((Constraint::Words(words), rest))
        }
        _ => {
            let (entries, rest) = string_list(alloc, rest)?;
            Ok((Constraint::Strings(entries), rest))
        }
    }
}

// ---- descriptors

#[tactic(auto, unfolding(wire_message::specs::Message::descriptor))]
fn descriptor(alloc: Global, bytes: &[u8]) -> Result<(Descriptor, &[u8]), ReadError>
    ensures { Gives (λ x. (x.0, x.1.now)) result (descriptor.read bytes.now) }
{
    let (name, rest) = string(alloc, bytes)?;
    let (title, rest) = string(alloc, rest)?;
    let (about, rest) = string(alloc, rest)?;
    let (kind, rest) = from_to(rest, 0, 5)?;
    let (unit, rest) = from_to(rest, 0, 6)?;
    let (size, rest) = any_word(rest)?;
    let (caps, rest) = any_word(rest)?;
    let (constraint, rest) = constraint(alloc, rest)?;
    let descriptor = Descriptor {
        name,
        title,
        about,
        kind: kind_at(kind),
        unit: unit_at(unit),
        size,
        caps: Cap(caps),
        constraint,
    };
    Ok((descriptor, rest))
}

/// A pointer that is not NULL, and its descriptor.
pub(crate) struct NextDescriptor;

impl Reader for NextDescriptor {
    ghost use Rattle.wire_message.specs.Message.{next_descriptor};

    type Value = Descriptor;

    ghost format = { next_descriptor };

    #[tactic(auto, unfolding(wire_message::specs::Message::next_descriptor))]
    fn read(alloc: Global, bytes: &[u8]) -> Result<(Descriptor, &[u8]), ReadError> {
        let rest = pointer(bytes)?;
        descriptor(alloc, rest)
    }
}

// ---- values

struct AnyWord;

impl Reader for AnyWord {
    ghost use Rattle.wire_message.specs.Message.{word};

    type Value = u32;

    ghost format = { word };

    fn read(_alloc: Global, bytes: &[u8]) -> Result<(u32, &[u8]), ReadError> {
        any_word(bytes)
    }
}

#[tactic(auto, unfolding(wire_message::specs::Message::words_value))]
fn words_value(alloc: Global, bytes: &[u8]) -> Result<(WireValue, &[u8]), ReadError>
    ensures { Gives (λ x. (x.0, x.1.now)) result (words_value.read bytes.now) }
{
    let (size, rest) = words_size(bytes)?;
    let (count, rest) = from_to(rest, size / 4, size / 4)?;
    let (words, rest) = places::<AnyWord>(alloc, count, rest)?;
    Ok((WireValue::Words(Array::from_vec(words)), rest))
}

#[tactic(auto, unfolding(wire_message::specs::Message::bytes_value))]
fn bytes_value(alloc: Global, bytes: &[u8]) -> Result<(WireValue, &[u8]), ReadError>
    ensures { Gives (λ x. (x.0, x.1.now)) result (bytes_value.read bytes.now) }
{
    let (size, rest) = up_to(bytes, 1024)?;
    let (count, rest) = from_to(rest, size, size)?;
    let (front, rest) = run(rest, 0, count as usize)?;
    let value = Vec::from_slice(alloc, front)?;
    Ok((WireValue::Bytes(Array::from_vec(value)), rest))
}

pub(crate) fn value_of(
    alloc: Global,
    kind: Kind,
    bytes: &[u8],
) -> Result<(WireValue, &[u8]), ReadError>
    ensures { Gives (λ x. (x.0, x.1.now)) result ((value_of kind).read bytes.now) }
{
    match kind {
        Kind::Bool | Kind::Int | Kind::Fixed => words_value(alloc, bytes),
        Kind::String => bytes_value(alloc, bytes),
        Kind::Button | Kind::Group => Err(bad(Fault::BadValue)),
    }
}

// ---- requests

fn authorize(alloc: Global, bytes: &[u8]) -> Result<(Request, &[u8]), ReadError>
    ensures { Gives (λ x. (x.0, x.1.now)) result ((arguments Procedure.Authorize).read bytes.now) }
{
    let (resource, rest) = string(alloc, bytes)?;
    let (user, rest) = string(alloc, rest)?;
    let (password, rest) = string(alloc, rest)?;
    Ok((
        Request::Authorize {
            resource,
            user,
            password,
        },
        rest,
    ))
}

fn control_option(alloc: Global, bytes: &[u8]) -> Result<(Request, &[u8]), ReadError>
    ensures { Gives (λ x. (x.0, x.1.now)) result
        ((arguments Procedure.ControlOption).read bytes.now) }
{
    let (device, rest) = any_word(bytes)?;
    let (option, rest) = any_word(rest)?;
    let (action, rest) = from_to(rest, 0, 1)?;
    let (kind, rest) = from_to(rest, 0, 3)?;
    let kind = kind_at(kind);
    let (value, rest) = value_of(alloc, kind, rest)?;
    let action = action_at(action);
    Ok((
        Request::ControlOption {
            device,
            option,
            action,
            kind,
            value,
        },
        rest,
    ))
}

/// What stands behind the code of a request.
fn arguments(
    alloc: Global,
    procedure: Procedure,
    bytes: &[u8],
) -> Result<(Request, &[u8]), ReadError>
    ensures { Gives (λ x. (x.0, x.1.now)) result ((arguments procedure).read bytes.now) }
{
    match procedure {
        Procedure::Init => {
            let (version, rest) = any_word(bytes)?;
            let (user, rest) = string(alloc, rest)?;
            Ok((Request::Init { version, user }, rest))
        }
        Procedure::GetDevices => Ok((Request::GetDevices, bytes)),
        Procedure::Open => {
            let (name, rest) = string(alloc, bytes)?;
            Ok((Request::Open { name }, rest))
        }
        Procedure::Close => {
            let (device, rest) = any_word(bytes)?;
            Ok((Request::Close { device }, rest))
        }
        Procedure::GetOptionDescriptors => {
            let (device, rest) = any_word(bytes)?;
            Ok((Request::GetOptionDescriptors { device }, rest))
        }
        Procedure::ControlOption => control_option(alloc, bytes),
        Procedure::GetParameters => {
            let (device, rest) = any_word(bytes)?;
            Ok((Request::GetParameters { device }, rest))
        }
        Procedure::Start => {
            let (device, rest) = any_word(bytes)?;
            Ok((Request::Start { device }, rest))
        }
        Procedure::Cancel => {
            let (device, rest) = any_word(bytes)?;
            Ok((Request::Cancel { device }, rest))
        }
        Procedure::Authorize => authorize(alloc, bytes),
        Procedure::Exit => Ok((Request::Exit, bytes)),
    }
}

/// A request.
#[tactic(auto, unfolding(wire_message::specs::Message::request))]
pub(crate) fn request(alloc: Global, bytes: &[u8]) -> Result<(Request, &[u8]), ReadError>
    ensures { Gives (λ x. (x.0, x.1.now)) result (request.read bytes.now) }
{
    let (code, rest) = word_between(bytes, 0, 10, Fault::BadCode)?;
    arguments(alloc, procedure_at(code), rest)
}

// ---- replies

#[tactic(auto, unfolding(wire_message::specs::Message::params))]
fn params(bytes: &[u8]) -> Result<(Params, &[u8]), ReadError>
    ensures { Gives (λ x. (x.0, x.1.now)) result (params.read bytes.now) }
{
    let (format, rest) = from_to(bytes, 0, 4)?;
    let (last_frame, rest) = any_word(rest)?;
    let (bytes_per_line, rest) = any_word(rest)?;
    let (pixels_per_line, rest) = any_word(rest)?;
    let (lines, rest) = any_word(rest)?;
    let (depth, rest) = any_word(rest)?;
    let params = Params {
        format: frame_at(format),
        last_frame: is_set(last_frame),
        bytes_per_line,
        pixels_per_line,
        lines: lines_at(lines),
        depth,
    };
    Ok((params, rest))
}

#[tactic(auto, unfolding(wire_message::specs::Message::reply))]
fn control_option_reply(alloc: Global, bytes: &[u8]) -> Result<(Reply, &[u8]), ReadError>
    ensures { Gives (λ x. (x.0, x.1.now)) result ((reply Procedure.ControlOption).read bytes.now) }
{
    let (status, rest) = status(bytes)?;
    let (info, rest) = any_word(rest)?;
    let (kind, rest) = from_to(rest, 0, 3)?;
    let kind = kind_at(kind);
    let (value, rest) = value_of(alloc, kind, rest)?;
    let (resource, rest) = string(alloc, rest)?;
    let info = Info(info);
    Ok((
        Reply::ControlOption {
            status,
            info,
            kind,
            value,
            resource,
        },
        rest,
    ))
}

#[tactic(auto, unfolding(wire_message::specs::Message::reply))]
fn start_reply(alloc: Global, bytes: &[u8]) -> Result<(Reply, &[u8]), ReadError>
    ensures { Gives (λ x. (x.0, x.1.now)) result ((reply Procedure.Start).read bytes.now) }
{
    let (status, rest) = status(bytes)?;
    let (port, rest) = from_to(rest, 0, 65535)?;
    let (order, rest) = order(rest)?;
    let (resource, rest) = string(alloc, rest)?;
    let port = port as u16;
    Ok((
        Reply::Start {
            status,
            port,
            order,
            resource,
        },
        rest,
    ))
}

#[tactic(auto, unfolding(wire_message::specs::Message::reply))]
fn init_reply(bytes: &[u8]) -> Result<(Reply, &[u8]), ReadError>
    ensures { Gives (λ x. (x.0, x.1.now)) result ((reply Procedure.Init).read bytes.now) }
{
    let (status, rest) = status(bytes)?;
    let (version, rest) = any_word(rest)?;
    Ok((Reply::Init { status, version }, rest))
}

#[tactic(auto, unfolding(wire_message::specs::Message::reply))]
fn open_reply(alloc: Global, bytes: &[u8]) -> Result<(Reply, &[u8]), ReadError>
    ensures { Gives (λ x. (x.0, x.1.now)) result ((reply Procedure.Open).read bytes.now) }
{
    let (status, rest) = status(bytes)?;
    let (device, rest) = any_word(rest)?;
    let (resource, rest) = string(alloc, rest)?;
    Ok((
        Reply::Open {
            status,
            device,
            resource,
        },
        rest,
    ))
}

#[tactic(auto, unfolding(wire_message::specs::Message::reply))]
fn parameters_reply(bytes: &[u8]) -> Result<(Reply, &[u8]), ReadError>
    ensures { Gives (λ x. (x.0, x.1.now)) result ((reply Procedure.GetParameters).read bytes.now) }
{
    let (status, rest) = status(bytes)?;
    let (params, rest) = params(rest)?;
    Ok((Reply::GetParameters { status, params }, rest))
}

/// The reply to a procedure. What was read of an array before is kept.
#[tactic(auto, unfolding(wire_message::specs::Message::reply))]
pub(crate) fn reply<'a>(
    alloc: Global,
    procedure: Procedure,
    begun: &mut ArraysSoFar,
    bytes: &'a [u8],
) -> Result<(Reply, &'a [u8]), ReadError>
    requires short { length bytes.now ≤ message_limit }
    requires begun { ArraysAreReadSoFar bytes.now begun.old }
    ensures kept { ArraysAreReadSoFar bytes.now begun.new }
    ensures read { Gives (λ x. (x.0, x.1.now)) result ((reply procedure).read bytes.now) }
{
    match procedure {
        Procedure::Init => init_reply(bytes),
        Procedure::GetDevices => devices_reply(alloc, &mut begun.devices, bytes),
        Procedure::Open => open_reply(alloc, bytes),
        Procedure::Close => {
            let (_, rest) = any_word(bytes)?;
            Ok((Reply::Close, rest))
        }
        Procedure::GetOptionDescriptors => options_reply(alloc, &mut begun.options, bytes),
        Procedure::ControlOption => control_option_reply(alloc, bytes),
        Procedure::GetParameters => parameters_reply(bytes),
        Procedure::Start => start_reply(alloc, bytes),
        Procedure::Cancel => {
            let (_, rest) = any_word(bytes)?;
            Ok((Reply::Cancel, rest))
        }
        Procedure::Authorize => {
            let (_, rest) = any_word(bytes)?;
            Ok((Reply::Authorize, rest))
        }
        Procedure::Exit => Err(bad(Fault::BadCode)),
    }
}
