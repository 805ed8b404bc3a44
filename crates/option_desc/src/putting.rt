ghost use Rattle.std.specs.Prelude.{◌≡◌, ◌↔◌, ◌/◌, ◌==◌, ◌&&◌, nat_lt, length, map, true, IfOk, MatchResult, IsTrue, Some, option_map};
ghost use Rattle.constraint.specs.Nearest.{PlaceByPlace, FlagsDifference};
ghost use Rattle.option_desc.specs.declared.value.Value.{Value as AnyValue};
ghost use Rattle.option_desc.specs.Representable.{takes_memory};
ghost use Rattle.option_desc.specs.Fits.{Fits, fits_of, has_room_for};
ghost use Rattle.option_desc.specs.Put.{Puts, nearest_word, nearest_text, nearest_value, resolve};
ghost use Rattle.option_desc.specs.Refuses.{Refuses};

use crate::descriptor::{Constraint, Descriptor};
use crate::value::{Value, Words};
use sane_fixed::{Fixed, Kind, Status, Text};
use std::alloc::Global;

/// Whether the value is of the option's kind and size. It has as many words as the size says. A text leaves room for a NUL,
/// unless the option has a list of texts.
pub fn fits(desc: &Descriptor, value: &Value) -> bool
    /// `fits` says whether a value has an option's kind and size.
    /// Carried by: `fits`
    ensures fits { IsTrue result ↔ Fits desc.now value.now }
    // The same as a computation, for definitions that go on from it.
    ensures value { result ≡ fits_of desc.now value.now }
{
    match (desc.kind, value) {
        (Kind::Bool, Value::Flag(_)) => desc.size / 4 == 1,
        (Kind::Int, Value::Int(_)) => desc.size == 4,
        (Kind::Fixed, Value::Fixed(_)) => desc.size == 4,
        (Kind::Int, Value::Words(words)) => fits_words(desc.size, words),
        (Kind::Fixed, Value::Words(words)) => fits_words(desc.size, words),
        (Kind::String, Value::Text(text)) => fits_text(desc, text),
        _ => false,
    }
}

fn fits_words(size: u32, words: &Words) -> bool
    ensures { result ≡ (nat_lt 4 size && (length words.now == size / 4)) }
{
    4 < size && words.as_slice().len() == (size / 4) as usize
}

fn fits_text(desc: &Descriptor, text: &Text) -> bool
    ensures { result ≡ has_room_for desc.now.constraint desc.now.size text.now }
{
    match &desc.constraint {
        Constraint::Strings(_) => true,
        _ => text.as_bytes().len() < desc.size as usize,
    }
}

/// The word that the constraint lets stand for one, and whether it differs.
fn nearest_word(constraint: &Constraint, word: i32) -> (i32, bool)
    ensures value { result.0 ≡ nearest_word constraint.now word }
    ensures differs { FlagsDifference result.1 word result.0 }
{
    match constraint {
        Constraint::Span(range) => range.nearest_word(word),
        Constraint::Words(list) => list.nearest_word(word),
        _ => (word, false),
    }
}

/// The same in each place.
fn nearest_words(constraint: &Constraint, words: &mut [i32]) -> bool
    ensures value { words.new ≡ map (nearest_word constraint.now) words.old }
    ensures differs { FlagsDifference result words.old words.new }
{
    match constraint {
        Constraint::Span(range) => range.nearest_words(words),
        Constraint::Words(list) => list.nearest_words(words),
        Constraint::Free => false,
        Constraint::Strings(_) => false,
    }
}

/// The same for a text.
fn nearest_text(alloc: Global, constraint: &Constraint, text: &Text) -> Result<(Text, bool), Status>
    ensures value { MatchResult result
        (λ given. nearest_text constraint.now text.now ≡ Some given.0)
        (λ status. Refuses status (nearest_text constraint.now text.now)) }
    ensures differs { IfOk result (λ given. FlagsDifference given.1 text.now given.0) }
{
    match constraint {
        Constraint::Strings(list) => match list.match_string(text.as_bytes()) {
            Some((place, differs)) => Ok((list.as_slice()[place].try_clone(alloc)?, differs)),
            None => Err(Status::Inval),
        },
        _ => Ok((text.try_clone(alloc)?, false)),
    }
}

/// The value that the constraint lets stand for one, and whether it differs.
fn put_value(alloc: Global, constraint: &Constraint, value: &Value) -> Result<(Value, bool), Status>
    ensures value { MatchResult result
        (λ given. nearest_value constraint.now value.now ≡ Some given.0)
        (λ status. Refuses status (nearest_value constraint.now value.now)) }
    ensures memory { result ≡ Err Status.NoMem → takes_memory value.now ≡ true }
    ensures differs { IfOk result (λ given. FlagsDifference given.1 value.now given.0) }
{
    match value {
        Value::Flag(flag) => Ok((Value::Flag(*flag), false)),
        Value::Int(word) => {
            let (nearest, differs) = nearest_word(constraint, *word);
            Ok((Value::Int(nearest), differs))
        }
        Value::Fixed(fixed) => {
            let (nearest, differs) = nearest_word(constraint, fixed.0);
            Ok((Value::Fixed(Fixed(nearest)), differs))
        }
        Value::Words(words) => {
            let mut words = words.try_clone(alloc)?.into_vec();
            let differs = nearest_words(constraint, &mut words);
            Ok((Value::Words(Words::from_vec(words)), differs))
        }
        Value::Text(text) => {
            let (text, differs) = nearest_text(alloc, constraint, text)?;
            Ok((Value::Text(text), differs))
        }
    }
}

/// The nearest value that the option admits, and whether it differs from `value`. `Inval` where the value
/// does not fit or is matched by no text of the option's list, and `NoMem` for lack of memory.
pub fn put(alloc: Global, desc: &Descriptor, value: &Value) -> Result<(Value, bool), Status>
    /// `put` gives the nearest admitted value, flagged exactly where it differs, and INVAL exactly where the value
    /// does not fit or nothing matches.
    ensures ok { IfOk result (λ given. Puts desc.now value.now given.0) }
    ensures differs { IfOk result (λ given. FlagsDifference given.1 value.now given.0) }
    ensures inval { (result ≡ Err Status.Inval)
        ↔ ((given : AnyValue) → Puts desc.now value.now given → ⊥) }
    // The same as a computation, for definitions that go on from it.
    ensures value { MatchResult result
        (λ given. resolve desc.now value.now ≡ Some given.0)
        (λ status. Refuses status (resolve desc.now value.now)) }
    /// One word is put, read and copied without a growth that may be refused.
    /// Carried by: `memory` of `put`, `read_text`, `Value::try_clone`
    ensures memory { result ≡ Err Status.NoMem → takes_memory value.now ≡ true }
{
    desc.constraint.keeps();
    if !fits(desc, value) {
        return Err(Status::Inval);
    }
    put_value(alloc, &desc.constraint, value)
}
