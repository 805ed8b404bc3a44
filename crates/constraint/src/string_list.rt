ghost use Rattle.std.specs.Prelude.{◌≡◌, slice_get, option_map, IfSome, IfOk};
ghost use Rattle.constraint.specs.Nearest.{FlagsDifference};
ghost use Rattle.constraint.specs.NearestComputed.{begins_with, nearest_entry};

use sane_fixed::{NoMem, Text};
use std::alloc::Global;
use std::marker::Model;

/// The texts that an option may have, 1 to 1,023 of them (SANE Standard 1.06, "Option Descriptors").
/// Contracts see the list.
#[derive(Debug, Drop)]
pub struct StringList {
    entries: Vec<Text>,
}

impl Model for StringList {
    ghost use Rattle.std.specs.Prelude.{List, ℕ, length};
    ghost use Rattle.constraint.specs.Admitted.{HasRoom};

    ghost Value = { List (List ℕ) };

    ghost view = { λ l. l.entries.items };

    ghost invariant = { λ l. HasRoom (length l.entries.items) };
}

/// Whether the entry begins with the text, without regard to ASCII case.
fn begins_with(entry: &[u8], text: &[u8]) -> bool
    ensures { result ≡ begins_with entry.now text.now }
{
    match entry.get(..text.len()) {
        Some(front) => front.eq_ignore_ascii_case(text),
        None => false,
    }
}

/// Equal texts in the same order.
fn copies(alloc: Global, texts: &[Text]) -> Result<Vec<Text>, NoMem>
    ensures { IfOk result (λ copies. copies.items ≡ texts.now) }
{
    let mut copies = Vec::with_capacity(alloc, texts.len())?;
    for text in texts {
        copies.push(text.try_clone(alloc)?)?;
    }
    Ok(copies)
}

/// Which entries so far begin with a text.
#[derive(Clone, Copy)]
enum Beginning {
    Nowhere,
    At(usize),
    Several,
}

impl Beginning {
    ghost use Rattle.constraint.specs.Beginning.{with_place};

    /// The same with one place more.
    fn with(self, place: usize) -> Beginning
        ensures { result ≡ with_place self place }
    {
        match self {
            Beginning::Nowhere => Beginning::At(place),
            _ => Beginning::Several,
        }
    }
}

/// The place of the entry that the text is matched with, in one pass, and whether it differs.
fn match_entry(entries: &[Text], text: &[u8]) -> Option<(usize, bool)>
    ensures value { option_map (λ found. found.0) result ≡ nearest_entry entries.now text.now }
    ensures differs { IfSome result
        (λ found. IfSome (slice_get entries.now found.0) (FlagsDifference found.1 text.now)) }
{
    let mut beginning = Beginning::Nowhere;
    for (i, entry) in entries.iter().enumerate() {
        let entry = entry.as_bytes();
        if entry == text {
            return Some((i, false));
        }
        if begins_with(entry, text) {
            beginning = beginning.with(i);
        }
    }
    match beginning {
        Beginning::Nowhere => None,
        Beginning::At(i) => Some((i, true)),
        Beginning::Several => None,
    }
}

impl StringList {
    ghost use Rattle.std.specs.Prelude.{◌↔◌, ◌<◌, ◌⊎◌, ℕ, length, vec_len, IfNone, IsNone};
    ghost use Rattle.constraint.specs.Admitted.{HasRoom};
    ghost use Rattle.constraint.specs.Nearest.{NearestEntry};

    /// The list of these texts; `None` where there is none, or more than 1,023.
    pub fn new(entries: Vec<Text>) -> Option<StringList>
        ensures some { IfSome result (λ list. list ≡ entries.items) }
        ensures none { IsNone result ↔ ((vec_len entries ≡ 0) ⊎ (1023 < vec_len entries)) }
    {
        if entries.is_empty() || entries.len() > 1023 {
            None
        } else {
            Some(StringList { entries })
        }
    }

    /// The texts in their order.
    pub fn as_slice(&self) -> &[Text]
        ensures value { result.now ≡ self.now }
        ensures keeps { HasRoom (length self.now) }
    {
        self.entries.as_slice()
    }

    /// An equal list. The only error is out of memory.
    pub fn try_clone(&self, alloc: Global) -> Result<StringList, NoMem>
        ensures { IfOk result (λ list. list ≡ self.now) }
    {
        let entries = copies(alloc, self.entries.as_slice())?;
        Ok(StringList { entries })
    }

    /// The place of the entry that matches the text, and whether the entry differs from the text. The first equal entry matches.
    /// Without one, an entry that begins with the text matches if it is the only one, in upper or lower case (ASCII).
    pub fn match_string(&self, text: &[u8]) -> Option<(usize, bool)>
        /// A text is matched with its entry: the first equal one, else the only one that begins with it without
        /// regard to case.
        /// Carried by: `nearest`, `none` of `match_string`
        ensures nearest { IfSome result (λ found. NearestEntry self.now text.now found.0) }
        ensures differs { IfSome result
            (λ found. IfSome (slice_get self.now found.0) (FlagsDifference found.1 text.now)) }
        ensures none { IfNone result ((place : ℕ) → NearestEntry self.now text.now place → ⊥) }
        // The same as a computation, for definitions that go on from it.
        ensures value { option_map (λ found. found.0) result ≡ nearest_entry self.now text.now }
    {
        match_entry(self.entries.as_slice(), text)
    }
}
