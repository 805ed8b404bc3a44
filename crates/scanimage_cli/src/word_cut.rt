ghost use Rattle.std.specs.Prelude.{◌≡◌, ◌<◌, ◌++◌, ◌∷◌, [], Err, Some, None, IfOk, IfErr, IfSome, length, drop, position};
ghost use Rattle.scanimage_cli.specs.Inside.{with_cut_step};
ghost use Rattle.scanimage_cli.specs.WordCut.{pair_part, long_part, other_part, option_part, part_of_word, item_with, cut_step, cut};
ghost use Rattle.text_lines.specs.Words.{is_equals};

use crate::geometry::{Geometry, geometry_named};
use crate::program_option::{ProgramOption, option_named};
use sane_fixed::{Fixed, NoMem, Text};
use std::alloc::Global;
use thiserror::Error;

/// A piece that the words of a command line are cut into.
#[derive(Drop)]
pub enum Item {
    /// An option of the program that stands alone.
    Flag(ProgramOption),
    /// An option of the program and its value.
    Valued(ProgramOption, Text),
    /// A measure of the window.
    Measured(Geometry, Text),
    /// A setting: the option's name and the value.
    Setting(Text, Text),
}

/// What a value is awaited for.
#[derive(Drop)]
pub enum AwaitedValue {
    ForOption(ProgramOption),
    ForMeasure(Geometry),
    ForSetting(Text),
}

/// What a word is that is no value.
#[derive(Drop)]
pub enum WordPart {
    Whole(Item),
    Awaits(AwaitedValue),
    Refused,
}

/// Why words cannot be cut.
#[derive(Clone, Copy, Debug, PartialEq, Eq, Error)]
pub enum SplitFault {
    /// They are no command line of scanimage.
    #[error("bad command line")]
    Bad = 1,
    /// No memory for the pieces.
    #[error("out of memory")]
    NoMem = 2,
}

const _: () = prove!(SplitFault::Bad as u32 == 1);

const _: () = prove!(SplitFault::NoMem as u32 == 2);

impl From<NoMem> for SplitFault {
    ghost use Rattle.std.specs.Prelude.{◌≡◌};
    ghost use Rattle.scanimage_cli.specs.declared.word_cut.SplitFault.TheVariants.{NoMem as Wanting};

    ghost from_gives = { λ _ fault. fault ≡ Wanting };

    fn from(_: NoMem) -> Self {
        SplitFault::NoMem
    }
}

/// A text of these bytes.
fn text_of(alloc: Global, bytes: &[u8]) -> Result<Text, NoMem>
    ensures { IfOk result (λ text. text ≡ bytes.now) }
{
    Text::new(alloc, bytes).map_err(|_| NoMem)
}

/// `--NAME=VALUE`: an option with its value, or a setting.
fn pair_part(
    alloc: Global,
    option: Option<ProgramOption>,
    name: &[u8],
    value: &[u8],
) -> Result<WordPart, NoMem>
    ensures { IfOk result (λ told. told ≡ pair_part option name.now value.now) }
{
    match option {
        Some(option) if option.is_flag() || value.is_empty() => Ok(WordPart::Refused),
        Some(option) => Ok(WordPart::Whole(Item::Valued(option, text_of(alloc, value)?))),
        None if name.is_empty() => Ok(WordPart::Refused),
        None => {
            let name = text_of(alloc, name)?;
            let value = text_of(alloc, value)?;
            Ok(WordPart::Whole(Item::Setting(name, value)))
        }
    }
}

/// What stands behind the two dashes of a word.
fn without_dashes(word: &[u8]) -> &[u8]
    ensures { result.now ≡ drop 2 word.now }
{
    match word {
        [_, _, name @ ..] => name,
        _ => &[],
    }
}

/// Where the first `=` stands.
fn place_of_equals(word: &[u8]) -> Option<usize>
    ensures place { result ≡ position is_equals word.now }
    ensures within { IfSome result (λ at. at < length word.now) }
{
    word.iter().position(|b| *b == b'=')
}

/// A word that begins with `--` and names no option.
#[tactic(auto, unfolding(crate::specs::WordCut::long_part))]
fn long_part(alloc: Global, word: &[u8]) -> Result<WordPart, NoMem>
    ensures { IfOk result (λ told. told ≡ long_part word.now) }
{
    if let Some(at) = place_of_equals(word) {
        let name = &word[..at];
        let value = &word[at + 1..];
        return pair_part(alloc, option_named(name), without_dashes(name), value);
    }
    let name = without_dashes(word);
    if name.is_empty() {
        Ok(WordPart::Refused)
    } else {
        Ok(WordPart::Awaits(AwaitedValue::ForSetting(text_of(alloc, name)?)))
    }
}

/// What a word is that is no value.
#[tactic(auto, unfolding(crate::specs::WordCut::part_of_word))]
fn part_of_word(alloc: Global, word: &[u8]) -> Result<WordPart, NoMem>
    ensures { IfOk result (λ told. told ≡ part_of_word word.now) }
{
    match option_named(word) {
        Some(option) if option.is_flag() => return Ok(WordPart::Whole(Item::Flag(option))),
        Some(option) => return Ok(WordPart::Awaits(AwaitedValue::ForOption(option))),
        None => {}
    }
    match geometry_named(word) {
        Some(geometry) => Ok(WordPart::Awaits(AwaitedValue::ForMeasure(geometry))),
        None if word.starts_with(b"--") => long_part(alloc, word),
        None => Ok(WordPart::Refused),
    }
}

/// The item that a value completes; `None` where the value is refused.
#[tactic(auto, unfolding(crate::specs::WordCut::item_with))]
fn item_with(alloc: Global, awaited: AwaitedValue, value: &Text) -> Result<Option<Item>, NoMem>
    ensures { IfOk result (λ item. item ≡ item_with awaited value.now) }
{
    match awaited {
        AwaitedValue::ForOption(option) => {
            if value.as_bytes().is_empty() {
                return Ok(None);
            }
            Ok(Some(Item::Valued(option, value.try_clone(alloc)?)))
        }
        AwaitedValue::ForMeasure(geometry) => {
            if Fixed::parse(value.as_bytes()).is_none() {
                return Ok(None);
            }
            Ok(Some(Item::Measured(geometry, value.try_clone(alloc)?)))
        }
        AwaitedValue::ForSetting(name) => Ok(Some(Item::Setting(name, value.try_clone(alloc)?))),
    }
}

/// Adds an item; no value is awaited then.
fn add(items: &mut Vec<Item>, item: Item) -> Result<Option<AwaitedValue>, SplitFault>
    ensures added { IfOk result (λ next. (items.new.items ≡ items.old.items ++ item ∷ [])
        × (next ≡ None)) }
    ensures fault { IfErr result (λ fault. fault ≡ SplitFault.NoMem) }
{
    match items.push(item) {
        Ok(()) => Ok(None),
        Err(_) => Err(SplitFault::NoMem),
    }
}

/// Takes one word in, where a value is awaited or not, and says what is awaited then.
#[tactic(auto, unfolding(crate::specs::WordCut::cut_step))]
fn take_word(
    alloc: Global,
    items: &mut Vec<Item>,
    awaited: Option<AwaitedValue>,
    word: &Text,
) -> Result<Option<AwaitedValue>, SplitFault>
    ensures taken { IfOk result (λ next. with_cut_step items.old.items (cut_step awaited word.now)
        ≡ Some (items.new.items, next)) }
    ensures bad { result ≡ Err SplitFault.Bad → cut_step awaited word.now ≡ None }
{
    match awaited {
        Some(awaited) => match item_with(alloc, awaited, word)? {
            Some(item) => add(items, item),
            None => Err(SplitFault::Bad),
        },
        None => match part_of_word(alloc, word.as_bytes())? {
            WordPart::Whole(item) => add(items, item),
            WordPart::Awaits(awaited) => Ok(Some(awaited)),
            WordPart::Refused => Err(SplitFault::Bad),
        },
    }
}

/// The items that the words of a command line are cut into, without the program's name.
pub fn cut(alloc: Global, words: &[Text]) -> Result<Vec<Item>, SplitFault>
    ensures found { IfOk result (λ items. cut words.now ≡ Some items.items) }
    ensures bad { result ≡ Err SplitFault.Bad → cut words.now ≡ None }
{
    let mut items = Vec::new(alloc);
    let mut awaited = None;
    for word in words {
        awaited = take_word(alloc, &mut items, awaited, word)?;
    }
    if awaited.is_none() {
        Ok(items)
    } else {
        Err(SplitFault::Bad)
    }
}
