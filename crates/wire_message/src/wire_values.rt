//! Values of options as they travel (SANE Standard 1.06, "Network Protocol").

ghost use Rattle.std.specs.Prelude.{◌≡◌, ◌++◌, ◌∷◌, [], ◌==◌, IfOk, map, option_map, position};
ghost use Rattle.std.specs.Int.{w32, cast_signed, cast_unsigned};
ghost use Rattle.option_desc.specs.declared.value.Value.TheVariants.{Text as TextOf};
ghost use Rattle.wire_message.specs.WireValues.{wire_of, text_in};

use crate::array::Array;
use crate::message::WireValue;
use option_desc::{Value, Words};
use sane_fixed::{NoMem, Text};
use std::alloc::Global;

/// One word, as it travels. The only error is out of memory.
pub fn one_word(alloc: Global, word: u32) -> Result<WireValue, NoMem>
    ensures { IfOk result (λ value. value ≡ WireValue.Words (word ∷ [])) }
{
    Ok(WireValue::Words(Array::from_vec(vec![in alloc; word]?)))
}

fn unsigned(alloc: Global, words: &[i32]) -> Result<WireValue, NoMem>
    ensures { IfOk result (λ value. value ≡ WireValue.Words (map (cast_unsigned w32) words.now)) }
{
    let mut unsigned = Vec::with_capacity(alloc, words.len())?;
    for word in words {
        unsigned.push(word.cast_unsigned())?;
    }
    Ok(WireValue::Words(Array::from_vec(unsigned)))
}

fn with_nul(alloc: Global, text: &[u8]) -> Result<WireValue, NoMem>
    ensures { IfOk result (λ value. value ≡ WireValue.Bytes (text.now ++ 0 ∷ [])) }
{
    let mut bytes = Vec::from_slice(alloc, text)?;
    bytes.push(0)?;
    Ok(WireValue::Bytes(Array::from_vec(bytes)))
}

/// A value as it is sent: a text with its NUL. The only error is out of memory.
pub fn wire_of(alloc: Global, value: &Value) -> Result<WireValue, NoMem>
    ensures { IfOk result (λ sent. sent ≡ wire_of value.now) }
{
    match value {
        Value::Flag(flag) => one_word(alloc, if *flag { 1 } else { 0 }),
        Value::Int(word) => one_word(alloc, word.cast_unsigned()),
        Value::Fixed(fixed) => one_word(alloc, fixed.0.cast_unsigned()),
        Value::Words(words) => unsigned(alloc, words.as_slice()),
        Value::Text(text) => with_nul(alloc, text.as_bytes()),
    }
}

/// The words of a value, read as signed numbers. The only error is out of memory.
pub fn signed(alloc: Global, words: &[u32]) -> Result<Words, NoMem>
    ensures { IfOk result (λ value. value ≡ map (cast_signed w32) words.now) }
{
    let mut signed = Vec::with_capacity(alloc, words.len())?;
    for word in words {
        signed.push(word.cast_signed())?;
    }
    Ok(Words::from_vec(signed))
}

/// Where the first NUL stands.
fn nul_at(bytes: &[u8]) -> Option<usize>
    ensures { result ≡ position (λ b. b == 0) bytes.now }
{
    bytes.iter().position(|b| *b == 0)
}

/// The text of the bytes, which ends at their first NUL; none where they have no NUL. The only error is out of memory.
pub fn text_in(alloc: Global, bytes: &[u8]) -> Result<Option<Value>, NoMem>
    ensures { IfOk result (λ value. value ≡ option_map (λ text. TextOf text) (text_in bytes.now)) }
{
    let Some(end) = nul_at(bytes) else {
        return Ok(None);
    };
    match Text::new(alloc, &bytes[..end]) {
        Ok(text) => Ok(Some(Value::Text(text))),
        Err(_) => Err(NoMem),
    }
}
