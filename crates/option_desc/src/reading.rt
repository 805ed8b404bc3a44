ghost use Rattle.std.specs.Prelude.{◌≡◌, ◌↔◌, option_map, is_some, true, IfOk, MatchResult, Some};
ghost use Rattle.sane_fixed.specs.Decimal.{word_of};
ghost use Rattle.sane_fixed.specs.DecimalReading.{sign_at};
ghost use Rattle.option_desc.specs.declared.value.Value.{Value as AnyValue};
ghost use Rattle.option_desc.specs.Reads.{ReadsAsValue, flag_of, integer_of, word_in, words_in, pieces_of, number_of, one_word, text_value_of, read_as, read_value};
ghost use Rattle.option_desc.specs.Representable.{takes_memory};
ghost use Rattle.option_desc.specs.Refuses.{Refuses};

use crate::descriptor::Descriptor;
use crate::value::{Value, Words};
use sane_fixed::{Fixed, Kind, Status, Text, TextFault, digit_count, value_of_digits};
use std::alloc::Global;

/// Whether a `-` stands first, and what follows it.
fn sign(text: &[u8]) -> (bool, &[u8])
    ensures sign { result.0 ≡ (sign_at text.now).0 }
    ensures rest { result.1.now ≡ (sign_at text.now).1 }
{
    match text {
        [b'-', rest @ ..] => (true, rest),
        _ => (false, text),
    }
}

/// The word of that sign, if it fits.
fn word(negative: bool, magnitude: u64) -> Option<i32>
    ensures { result ≡ word_of negative magnitude }
{
    if negative {
        if magnitude <= 2147483648 {
            Some((0 - magnitude as i64) as i32)
        } else {
            None
        }
    } else if magnitude < 2147483648 {
        Some(magnitude as i32)
    } else {
        None
    }
}

/// The integer that an optional `-` and 1 to 10 digits spell, if it fits.
#[tactic(auto, unfolding(crate::specs::Reads::integer_of))]
fn read_integer(text: &[u8]) -> Option<i32>
    ensures { result ≡ integer_of text.now }
{
    let (negative, digits) = sign(text);
    let count = digits.len();
    if digit_count(digits) == count && 1 <= count && count <= 10 {
        word(negative, value_of_digits(digits))
    } else {
        None
    }
}

/// The word that a text spells by the option's kind.
fn read_word(kind: Kind, text: &[u8]) -> Option<i32>
    ensures { result ≡ word_in kind text.now }
{
    match kind {
        Kind::Int => read_integer(text),
        Kind::Fixed => Fixed::parse(text).map(|fixed| fixed.0),
        Kind::Bool => None,
        Kind::String => None,
        Kind::Button => None,
        Kind::Group => None,
    }
}

/// `yes` or `no`.
fn read_flag(text: &[u8]) -> Option<Value>
    ensures { result ≡ flag_of text.now }
{
    if text == b"yes".as_slice() {
        Some(Value::Flag(true))
    } else if text == b"no".as_slice() {
        Some(Value::Flag(false))
    } else {
        None
    }
}

/// Whether each text between commas spells a word.
fn all_read(kind: Kind, text: &[u8]) -> bool
    ensures { result ≡ is_some (words_in kind (pieces_of text.now)) }
{
    for piece in text.split(|b| *b == b',') {
        if read_word(kind, piece).is_none() {
            return false;
        }
    }
    true
}

/// The words between commas; whether all of them read is known before memory is asked for.
fn read_words(alloc: Global, kind: Kind, text: &[u8]) -> Result<Words, Status>
    ensures { MatchResult result
        (λ words. words_in kind (pieces_of text.now) ≡ Some words)
        (λ status. Refuses status (words_in kind (pieces_of text.now))) }
{
    if !all_read(kind, text) {
        return Err(Status::Inval);
    }
    let mut words = Vec::new(alloc);
    for piece in text.split(|b| *b == b',') {
        match read_word(kind, piece) {
            Some(word) => words.push(word)?,
            None => return Err(Status::Inval),
        }
    }
    Ok(Words::from_vec(words))
}

/// One word where the option has 4 bytes, and words joined by commas where it has more.
fn read_number(alloc: Global, kind: Kind, size: u32, text: &[u8]) -> Result<Value, Status>
    ensures answer { MatchResult result
        (λ value. number_of kind size text.now ≡ Some value)
        (λ status. Refuses status (number_of kind size text.now)) }
    ensures memory { result ≡ Err Status.NoMem → (value : AnyValue)
        → number_of kind size text.now ≡ Some value → takes_memory value ≡ true }
{
    if size == 4 {
        let word = read_word(kind, text).ok_or(Status::Inval)?;
        Ok(one_word(kind, word))
    } else if 4 < size {
        Ok(Value::Words(read_words(alloc, kind, text)?))
    } else {
        Err(Status::Inval)
    }
}

/// A word as a value of its own.
fn one_word(kind: Kind, word: i32) -> Value
    ensures { result ≡ one_word kind word }
{
    match kind {
        Kind::Fixed => Value::Fixed(Fixed(word)),
        _ => Value::Int(word),
    }
}

fn read_string(alloc: Global, text: &[u8]) -> Result<Value, Status>
    ensures { MatchResult result
        (λ value. text_value_of text.now ≡ Some value)
        (λ status. Refuses status (text_value_of text.now)) }
{
    match Text::new(alloc, text) {
        Ok(text) => Ok(Value::Text(text)),
        Err(TextFault::Nul) => Err(Status::Inval),
        Err(TextFault::NoMem) => Err(Status::NoMem),
    }
}

/// The value of the option that a text spells: `yes` or `no`; an optional `-` and 1 to 10 digits within
/// 32 bits; a decimal; several of these joined by commas; any text without NUL. `Inval` where it spells
/// none, and `NoMem` for lack of memory.
pub fn read_text(alloc: Global, desc: &Descriptor, text: &[u8]) -> Result<Value, Status>
    /// `read_text` reads exactly the texts of an option's values.
    ensures ok { IfOk result (λ value. ReadsAsValue desc.now text.now value) }
    ensures inval { (result ≡ Err Status.Inval)
        ↔ ((value : AnyValue) → ReadsAsValue desc.now text.now value → ⊥) }
    // The same as a computation, for definitions that go on from it.
    ensures value { MatchResult result
        (λ value. read_value desc.now text.now ≡ Some value)
        (λ status. Refuses status (read_value desc.now text.now)) }
    // One word is read without memory.
    ensures memory { result ≡ Err Status.NoMem → (value : AnyValue)
        → read_value desc.now text.now ≡ Some value → takes_memory value ≡ true }
{
    read_as(alloc, desc.kind, desc.size, text)
}

fn read_as(alloc: Global, kind: Kind, size: u32, text: &[u8]) -> Result<Value, Status>
    ensures answer { MatchResult result
        (λ value. read_as kind size text.now ≡ Some value)
        (λ status. Refuses status (read_as kind size text.now)) }
    ensures memory { result ≡ Err Status.NoMem
        → (value : AnyValue) → read_as kind size text.now ≡ Some value → takes_memory value ≡ true }
{
    match kind {
        Kind::Bool => read_flag(text).ok_or(Status::Inval),
        Kind::Int => read_number(alloc, kind, size, text),
        Kind::Fixed => read_number(alloc, kind, size, text),
        Kind::String => read_string(alloc, text),
        Kind::Button => Err(Status::Inval),
        Kind::Group => Err(Status::Inval),
    }
}
