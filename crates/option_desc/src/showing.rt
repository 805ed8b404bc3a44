ghost use Rattle.std.specs.Prelude.{◌≡◌, IfOk, OnOk, Some, All, FitsSigned, map, if◌then◌else◌, codes};
ghost use Rattle.std.specs.Int.{w32};
ghost use Rattle.std.specs.Fmt.{signed_decimal};
ghost use Rattle.std.specs.List.{join_with_byte};
ghost use Rattle.option_desc.specs.Fits.{Fits};
ghost use Rattle.option_desc.specs.Reads.{read_value};
ghost use Rattle.option_desc.specs.ShownText.{word_text, shown_text};

use crate::descriptor::Descriptor;
use crate::value::Value;
use sane_fixed::{Fixed, Kind, NoMem, Text};
use std::alloc::Global;

/// The text of the value, which reads as the value where it fits: `yes` or `no`, a number, numbers joined
/// by commas, or the text itself. The only error is out of memory.
pub fn show_text(alloc: Global, desc: &Descriptor, value: &Value) -> Result<Text, NoMem>
    /// `show_text` writes a value that fits as a text that reads as that value.
    /// Carried by: `reads` of `show_text`
    ensures reads { Fits desc.now value.now
        → IfOk result (λ text. read_value desc.now text ≡ Some value.now) }
    // The same as a computation, for definitions that go on from it.
    ensures value { IfOk result (λ text. text ≡ shown_text desc.now value.now) }
{
    match value {
        Value::Flag(flag) => show_flag(alloc, *flag),
        Value::Int(word) => show_word(alloc, Kind::Int, *word),
        Value::Fixed(fixed) => show_word(alloc, Kind::Fixed, fixed.0),
        Value::Words(words) => show_words(alloc, desc.kind, words.as_slice()),
        Value::Text(text) => text.try_clone(alloc),
    }
}

fn show_flag(alloc: Global, flag: bool) -> Result<Text, NoMem>
    ensures { IfOk result (λ text. text ≡ (if flag then codes "yes" else codes "no")) }
{
    let bytes = if flag {
        b"yes".as_slice()
    } else {
        b"no".as_slice()
    };
    match Text::from_vec(Vec::from_slice(alloc, bytes)?) {
        Ok(text) => Ok(text),
        Err(_) => unreachable!(),
    }
}

fn show_integer(alloc: Global, word: i32) -> Result<Text, NoMem>
    ensures { IfOk result (λ text. text ≡ signed_decimal word) }
{
    let digits = format!(in alloc; "{word}")?;
    match Text::from_vec(digits.into_bytes()) {
        Ok(text) => Ok(text),
        Err(_) => unreachable!(),
    }
}

/// A word by the option's kind.
fn show_word(alloc: Global, kind: Kind, word: i32) -> Result<Text, NoMem>
    ensures { IfOk result (λ text. text ≡ word_text kind word) }
{
    match kind {
        Kind::Fixed => Fixed(word).to_text(alloc),
        _ => show_integer(alloc, word),
    }
}

/// The words joined by commas.
fn show_words(alloc: Global, kind: Kind, words: &[i32]) -> Result<Text, NoMem>
    ensures value { IfOk result
        (λ text. text ≡ join_with_byte 44 (map (word_text kind) words.now)) }
    ensures held { OnOk result (All (FitsSigned w32) words.now) }
{
    let mut joined = Vec::new(alloc);
    for (i, word) in words.iter().enumerate() {
        if i > 0 {
            joined.push(b',')?;
        }
        let shown = show_word(alloc, kind, *word)?;
        joined.extend_from_slice(shown.as_bytes())?;
    }
    match Text::from_vec(joined) {
        Ok(text) => Ok(text),
        Err(_) => unreachable!(),
    }
}
