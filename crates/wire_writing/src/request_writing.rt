//! Messages as bytes: the one way of writing each.

ghost use Rattle.std.specs.Prelude.{◌≡◌, ◌≢◌, ◌↔◌, Some, IfOk, IfErr};
ghost use Rattle.wire_format.specs.Limit.{limited_format};
ghost use Rattle.wire_format.specs.Writer.{PutsBehind, append_text, encoding_or_fault, write_limited};
ghost use Rattle.sane_fixed.specs.Kind.{kind_code};
ghost use Rattle.wire_message.specs.Message.{message_limit, request as request_format};
ghost use Rattle.wire_writing.specs.WireLimits.{IsBadRequest, PassesLimit, request_passes};
ghost use Rattle.wire_writing.specs.RequestWriting.{EncodesAs, write_any, write_string, write_resource, value_long, words_text, bytes_text, write_value, action_code, code_text, code_and_word_text, write_request, request_long};

use sane_fixed::{Kind, Text};
use std::alloc::Global;
use wire_format::{
    Encoder, Fault, WriteError, put_all, put_byte_between, put_run, put_word, put_word_between,
};
use wire_message::{Array, ControlAction, MESSAGE_LIMIT, Request, WireFault, WireValue};

/// Any word.
struct AnyWord;

impl Encoder for AnyWord {
    ghost use Rattle.wire_writing.specs.RequestWriting.{write_any};

    type Value = u32;

    ghost writer = { write_any };

    fn is_long(value: &u32) -> bool {
        let _value = *value;
        false
    }

    fn put(out: &mut Vec<u8>, value: &u32) -> Result<(), WriteError> {
        put_any_word(out, *value)
    }
}

pub(crate) fn put_any_word(out: &mut Vec<u8>, n: u32) -> Result<(), WriteError>
    ensures { PutsBehind result out.old.items out.new.items (write_any.text n) }
{
    put_word_between(out, n, 0, u32::MAX, Fault::BadValue)
}

/// Whether a text has more bytes than a string with its NUL may have.
pub(crate) fn is_long_string(text: &Text) -> bool
    ensures { result ≡ write_string.long text.now }
{
    text.as_bytes().len() > 1023
}

#[tactic(auto, unfolding(crate::specs::RequestWriting::write_string))]
pub(crate) fn put_string(out: &mut Vec<u8>, text: &Text) -> Result<(), WriteError>
    ensures { PutsBehind result out.old.items out.new.items (write_string.text text.now) }
{
    let bytes = text.as_bytes();
    if bytes.len() > 1023 {
        return Err(WriteError::Unspelled);
    }
    put_word_between(out, bytes.len() as u32 + 1, 0, 1024, Fault::TooLong)?;
    put_run(out, bytes, 1, bytes.len())?;
    put_byte_between(out, 0, 0, 0)
}

/// Writes a resource: an empty one without its NUL.
pub(crate) fn put_resource(out: &mut Vec<u8>, resource: &Text) -> Result<(), WriteError>
    ensures { PutsBehind result out.old.items out.new.items (write_resource.text resource.now) }
{
    if resource.as_bytes().is_empty() {
        Ok(put_word(out, 0)?)
    } else {
        put_string(out, resource)
    }
}

pub(crate) fn is_long_value(value: &WireValue) -> bool
    ensures { result ≡ value_long value.now }
{
    match value {
        WireValue::Words(words) => words.as_slice().len() > 1024,
        WireValue::Bytes(bytes) => bytes.as_slice().len() > 1024,
    }
}

fn put_words(out: &mut Vec<u8>, words: &Array<u32>) -> Result<(), WriteError>
    ensures { PutsBehind result out.old.items out.new.items
        (words_text (WireValue.Words words.now)) }
{
    let words = words.as_slice();
    if words.len() > 1024 {
        return Err(WriteError::Unspelled);
    }
    put_word(out, words.len() as u32 * 4)?;
    put_word(out, words.len() as u32)?;
    put_all::<AnyWord>(out, words)
}

fn put_bytes(out: &mut Vec<u8>, bytes: &Array<u8>) -> Result<(), WriteError>
    ensures { PutsBehind result out.old.items out.new.items
        (bytes_text (WireValue.Bytes bytes.now)) }
{
    let bytes = bytes.as_slice();
    if bytes.len() > 1024 {
        return Err(WriteError::Unspelled);
    }
    put_word(out, bytes.len() as u32)?;
    put_word(out, bytes.len() as u32)?;
    put_run(out, bytes, 0, bytes.len())
}

/// Writes a value of a kind, which says whether it is words or bytes.
pub(crate) fn put_value(out: &mut Vec<u8>, kind: Kind, value: &WireValue) -> Result<(), WriteError>
    ensures { PutsBehind result out.old.items out.new.items ((write_value kind).text value.now) }
{
    match kind {
        Kind::Bool | Kind::Int | Kind::Fixed => match value {
            WireValue::Words(words) => put_words(out, words),
            WireValue::Bytes(_) => Err(WriteError::Unspelled),
        },
        Kind::String => match value {
            WireValue::Bytes(bytes) => put_bytes(out, bytes),
            WireValue::Words(_) => Err(WriteError::Unspelled),
        },
        Kind::Button | Kind::Group => Err(WriteError::Unspelled),
    }
}

fn put_code_and_word(out: &mut Vec<u8>, code: u32, n: u32) -> Result<(), WriteError>
    ensures { PutsBehind result out.old.items out.new.items (code_and_word_text code n) }
{
    put_word(out, code)?;
    put_any_word(out, n)
}

fn action_code(action: ControlAction) -> u32
    ensures { result ≡ action_code action }
{
    action as u32
}

fn is_long_request(request: &Request) -> bool
    ensures { result ≡ write_request.long request.now }
{
    match request {
        Request::Init { user, .. } => is_long_string(user),
        Request::Open { name } => is_long_string(name),
        Request::ControlOption { value, .. } => is_long_value(value),
        Request::Authorize {
            resource,
            user,
            password,
        } => { is_long_string(resource) || is_long_string(user) || is_long_string(password) }
        _ => false,
    }
}

fn put_authorize(
    out: &mut Vec<u8>,
    resource: &Text,
    user: &Text,
    password: &Text,
) -> Result<(), WriteError>
    ensures { PutsBehind result out.old.items out.new.items
        (append_text (write_resource.text resource.now)
        (append_text (write_string.text user.now) (write_string.text password.now))) }
{
    put_resource(out, resource)?;
    put_string(out, user)?;
    put_string(out, password)
}

fn put_request(out: &mut Vec<u8>, request: &Request) -> Result<(), WriteError>
    ensures { PutsBehind result out.old.items out.new.items (write_request.text request.now) }
{
    match request {
        Request::Init { version, user } => {
            put_code_and_word(out, 0, *version)?;
            put_string(out, user)
        }
        Request::GetDevices => Ok(put_word(out, 1)?),
        Request::Open { name } => {
            put_word(out, 2)?;
            put_string(out, name)
        }
        Request::Close { device } => put_code_and_word(out, 3, *device),
        Request::GetOptionDescriptors { device } => put_code_and_word(out, 4, *device),
        Request::ControlOption {
            device,
            option,
            action,
            kind,
            value,
        } => {
            put_code_and_word(out, 5, *device)?;
            put_any_word(out, *option)?;
            put_word(out, action_code(*action))?;
            put_word(out, kind.code())?;
            put_value(out, *kind, value)
        }
        Request::GetParameters { device } => put_code_and_word(out, 6, *device),
        Request::Start { device } => put_code_and_word(out, 7, *device),
        Request::Cancel { device } => put_code_and_word(out, 8, *device),
        Request::Authorize {
            resource,
            user,
            password,
        } => {
            put_word(out, 9)?;
            put_authorize(out, resource, user, password)
        }
        Request::Exit => Ok(put_word(out, 10)?),
    }
}

/// Requests.
struct AnyRequest;

impl Encoder for AnyRequest {
    ghost use Rattle.wire_writing.specs.RequestWriting.{write_request};

    type Value = Request;

    ghost writer = { write_request };

    fn is_long(value: &Request) -> bool {
        is_long_request(value)
    }

    fn put(out: &mut Vec<u8>, value: &Request) -> Result<(), WriteError> {
        put_request(out, value)
    }
}

/// What is answered of a message.
pub(crate) fn encode<E: Encoder>(alloc: Global, message: &E::Value) -> Result<Vec<u8>, WireFault>
    ensures { EncodesAs (λ v. v.items) result
        (encoding_or_fault (write_limited message_limit E.writer) message.now) }
{
    if E::is_long(message) {
        return Err(WireFault::TooLong);
    }
    let mut out = Vec::new(alloc);
    match E::put(&mut out, message) {
        Ok(()) => {
            if out.len() > MESSAGE_LIMIT {
                Err(WireFault::TooLong)
            } else {
                Ok(out)
            }
        }
        Err(WriteError::Memory) => Err(WireFault::NoMem),
        Err(WriteError::Unspelled) => Err(WireFault::BadValue),
    }
}

/// The bytes of a request: its text, `TooLong` exactly where a limit is passed, else `BadValue` exactly where
/// nothing spells it.
pub fn encode_request(alloc: Global, request: &Request) -> Result<Vec<u8>, WireFault>
    /// A request or reply is written as a spelling of it.
    /// Carried by: `ok`, `text` of `encode_request`, `encode_reply`
    ensures ok { IfOk result
        (λ v. (limited_format message_limit request_format).spells v.items request.now) }
    ensures text { IfOk result (λ v. write_request.text request.now ≡ Some v.items) }
    /// `TooLong` comes exactly where a limit is passed (of a string, an array or the message), said apart from the
    /// writer.
    ensures long { result ≢ Err WireFault.NoMem → (result ≡ Err WireFault.TooLong)
        ↔ PassesLimit (request_passes request.now) (write_request.text request.now) }
    /// Else `BadValue` comes exactly where nothing spells it.
    ensures bad { IfErr result
        (λ e. e ≢ WireFault.NoMem → e ≢ WireFault.TooLong → IsBadRequest request.now e) }
{
    encode::<AnyRequest>(alloc, request)
}
