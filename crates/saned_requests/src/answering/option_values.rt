//! Values of options, as the daemon sends them and as they are asked for.

ghost use Rattle.std.specs.Prelude.{◌≡◌, ◌++◌, ◌∷◌, [], ◌==◌, ◌*◌, ◌-◌, IfOk, IfSome, length, map, option_map, position, replicate};
ghost use Rattle.std.specs.Int.{w32, cast_signed, cast_unsigned};
ghost use Rattle.option_desc.specs.declared.value.Value.TheVariants.{Text as TextOf};
ghost use Rattle.wire_message.specs.WireValues.{text_in};
ghost use Rattle.saned_requests.specs.OptionValues.{filled, sent_as, flag_value_of, flag_in, ints_of, fixed_value_of, words_asked, bytes_asked, asked_of, value_asked};

use crate::session::StringSize;
use option_desc::{Descriptor, Value};
use sane_fixed::{Fixed, Kind, NoMem};
use std::alloc::Global;
use wire_message::{Array, WireValue, signed, text_in, wire_of};

/// A string value with zero bytes behind it, up to that size.
fn filled(size: usize, value: WireValue) -> Result<WireValue, NoMem>
    ensures { IfOk result (λ sent. sent ≡ filled size value) }
{
    match value {
        WireValue::Words(words) => Ok(WireValue::Words(words)),
        WireValue::Bytes(bytes) => {
            let mut bytes = bytes.into_vec();
            if bytes.len() < size {
                bytes.resize(size, 0)?;
            }
            Ok(WireValue::Bytes(Array::from_vec(bytes)))
        }
    }
}

/// A value of an option of that size, as a reply has it.
pub fn sent_as(
    alloc: Global,
    strings: StringSize,
    size: u32,
    value: &Value,
) -> Result<WireValue, NoMem>
    ensures { IfOk result (λ sent. sent ≡ sent_as strings size value.now) }
{
    let sent = wire_of(alloc, value)?;
    match strings {
        StringSize::OfText => Ok(sent),
        StringSize::OfOption => filled(size as usize, sent),
    }
}

fn flag_value_of(word: u32) -> Option<Value>
    ensures { result ≡ flag_value_of word }
{
    match word {
        0 => Some(Value::Flag(false)),
        1 => Some(Value::Flag(true)),
        _ => None,
    }
}

fn flag_in(words: &[u32]) -> Option<Value>
    ensures { result ≡ flag_in words.now }
{
    match words {
        [word] => flag_value_of(*word),
        _ => None,
    }
}

fn ints_of(alloc: Global, words: &[u32]) -> Result<Value, NoMem>
    ensures { IfOk result (λ value. value ≡ ints_of words.now) }
{
    match words {
        [word] => Ok(Value::Int(word.cast_signed())),
        _ => Ok(Value::Words(signed(alloc, words)?)),
    }
}

fn fixed_value_of(alloc: Global, words: &[u32]) -> Result<Value, NoMem>
    ensures { IfOk result (λ value. value ≡ fixed_value_of words.now) }
{
    match words {
        [word] => Ok(Value::Fixed(Fixed(word.cast_signed()))),
        _ => Ok(Value::Words(signed(alloc, words)?)),
    }
}

/// The value of words, by the kind of their option.
fn words_asked(alloc: Global, kind: Kind, words: &[u32]) -> Result<Option<Value>, NoMem>
    ensures { IfOk result (λ asked. asked ≡ words_asked kind words.now) }
{
    match kind {
        Kind::Bool => Ok(flag_in(words)),
        Kind::Int => Ok(Some(ints_of(alloc, words)?)),
        Kind::Fixed => Ok(Some(fixed_value_of(alloc, words)?)),
        Kind::String | Kind::Button | Kind::Group => Ok(None),
    }
}

/// The value of bytes, by the kind of their option.
fn bytes_asked(alloc: Global, kind: Kind, bytes: &[u8]) -> Result<Option<Value>, NoMem>
    ensures { IfOk result (λ asked. asked ≡ bytes_asked kind bytes.now) }
{
    match kind {
        Kind::String => text_in(alloc, bytes),
        Kind::Bool | Kind::Int | Kind::Fixed | Kind::Button | Kind::Group => Ok(None),
    }
}

fn asked_of(alloc: Global, desc: &Descriptor, value: &WireValue) -> Result<Option<Value>, NoMem>
    ensures { IfOk result (λ asked. asked ≡ asked_of desc.now value.now) }
{
    match value {
        WireValue::Words(words) => {
            let words = words.as_slice();
            if words.len() * 4 == desc.size as usize {
                words_asked(alloc, desc.kind, words)
            } else {
                Ok(None)
            }
        }
        WireValue::Bytes(bytes) => bytes_asked(alloc, desc.kind, bytes.as_slice()),
    }
}

/// The value that is asked of an option: none where it is of another type, has words of another number, or spells none.
pub fn value_asked(
    alloc: Global,
    desc: &Descriptor,
    kind: Kind,
    value: &WireValue,
) -> Result<Option<Value>, NoMem>
    ensures { IfOk result (λ asked. asked ≡ value_asked desc.now kind value.now) }
{
    if kind.code() == desc.kind.code() {
        asked_of(alloc, desc, value)
    } else {
        Ok(None)
    }
}
