ghost use Rattle.std.specs.Prelude.{◌≡◌, ◌++◌, ◌∷◌, [], ◌==◌, IfOk, IfSome, length, ◌<◌, map, option_map, position, replicate};
ghost use Rattle.std.specs.Int.{w32, cast_signed, cast_unsigned};
ghost use Rattle.wire_message.specs.Message.{is_set};
ghost use Rattle.option_desc.specs.declared.value.Value.TheVariants.{Words as WordsOf, Text as TextOf};
ghost use Rattle.wire_message.specs.WireValues.{text_in};
ghost use Rattle.constraint.specs.NearestComputed.{only};
ghost use Rattle.client_replies.specs.GivenValues.{words_like, given_like, wire_value_in, blank_value};

use option_desc::Value;
use sane_fixed::{Fixed, Kind, NoMem};
use std::alloc::Global;
use wire_message::{Array, WireValue, one_word, signed, text_in};

fn only(words: &[u32]) -> Option<u32>
    ensures { result ≡ only words.now }
{
    match words {
        [word] => Some(*word),
        _ => None,
    }
}

fn is_set(word: u32) -> bool
    ensures { result ≡ is_set word }
{
    if word == 0 { false } else { true }
}

fn words_like(alloc: Global, sent: &[i32], words: &[u32]) -> Result<Option<Value>, NoMem>
    ensures { IfOk result (λ value. value ≡ words_like sent.now words.now) }
{
    if words.len() == sent.len() {
        Ok(Some(Value::Words(signed(alloc, words)?)))
    } else {
        Ok(None)
    }
}

/// What a reply gives in place of a value: as many words, or a text. `None` where it gives another
/// type or another number of words, or a text without NUL.
pub fn given_like(alloc: Global, sent: &Value, given: &WireValue) -> Result<Option<Value>, NoMem>
    ensures { IfOk result (λ value. value ≡ given_like sent.now given.now) }
{
    match (sent, given) {
        (Value::Flag(_), WireValue::Words(words)) => match only(words.as_slice()) {
            Some(word) => Ok(Some(Value::Flag(is_set(word)))),
            None => Ok(None),
        },
        (Value::Int(_), WireValue::Words(words)) => match only(words.as_slice()) {
            Some(word) => Ok(Some(Value::Int(word.cast_signed()))),
            None => Ok(None),
        },
        (Value::Fixed(_), WireValue::Words(words)) => match only(words.as_slice()) {
            Some(word) => Ok(Some(Value::Fixed(Fixed(word.cast_signed())))),
            None => Ok(None),
        },
        (Value::Words(sent), WireValue::Words(words)) => words_like(
            alloc,
            sent.as_slice(),
            words.as_slice(),
        ),
        (Value::Text(_), WireValue::Bytes(bytes)) => text_in(alloc, bytes.as_slice()),
        _ => Ok(None),
    }
}

/// The same for an option of a kind that has one value.
pub fn wire_value_in(alloc: Global, kind: Kind, given: &WireValue) -> Result<Option<Value>, NoMem>
    ensures { IfOk result (λ value. value ≡ wire_value_in kind given.now) }
{
    match (kind, given) {
        (Kind::Bool, WireValue::Words(words)) => match only(words.as_slice()) {
            Some(word) => Ok(Some(Value::Flag(is_set(word)))),
            None => Ok(None),
        },
        (Kind::Int, WireValue::Words(words)) => match only(words.as_slice()) {
            Some(word) => Ok(Some(Value::Int(word.cast_signed()))),
            None => Ok(None),
        },
        (Kind::Fixed, WireValue::Words(words)) => match only(words.as_slice()) {
            Some(word) => Ok(Some(Value::Fixed(Fixed(word.cast_signed())))),
            None => Ok(None),
        },
        (Kind::String, WireValue::Bytes(bytes)) => text_in(alloc, bytes.as_slice()),
        _ => Ok(None),
    }
}

/// So many bytes 0.
fn zeros(alloc: Global, count: usize) -> Result<WireValue, NoMem>
    ensures { IfOk result (λ value. value ≡ WireValue.Bytes (replicate count 0)) }
{
    Ok(WireValue::Bytes(Array::from_vec(vec![in alloc; 0u8; count]?)))
}

/// What is sent where a value is asked for: a word 0, or as many bytes 0 as the option has, at most
/// 1,024.
pub fn blank_value(alloc: Global, kind: Kind, size: u32) -> Result<WireValue, NoMem>
    ensures { IfOk result (λ value. value ≡ blank_value kind size) }
{
    match kind {
        Kind::String => zeros(alloc, size.min(1024) as usize),
        _ => one_word(alloc, 0),
    }
}
