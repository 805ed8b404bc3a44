ghost use Rattle.std.specs.Prelude.{◌≡◌, ◌++◌, ◌∷◌, [], ◌+ℤ◌, ◌↔◌, true, Some, None, IfOk, IfErr, OnOk, IsSome, IfSome, codes, option_map};
ghost use Rattle.std.specs.List.{filter_map};
ghost use Rattle.scanimage_cli.specs.WordCut.{option_of, is_option, names_option, named_again, repeats_option, program_word, named_setting, long_word, fits_word, with_measure, measures_with, measures_from, no_measures, length_text, start_word, far_text, far_side, setting_of, window_settings, split_of};

use crate::geometry::Geometry;
use crate::program_option::ProgramOption;
use crate::word_cut::{Item, SplitFault, cut};
use sane_fixed::{Fixed, NoMem, Text};
use std::alloc::Global;

/// The words of a command line, split: those of the program, with long names and a value behind `=`,
/// and the settings, names and values, in the order in which they are put.
#[derive(Drop)]
pub struct Split {
    pub program: Vec<Text>,
    pub settings: Vec<(Text, Text)>,
}

/// The last value of each measure of the window.
#[derive(Drop)]
pub struct Measures {
    pub left: Option<Text>,
    pub top: Option<Text>,
    pub width: Option<Text>,
    pub height: Option<Text>,
}

/// The option of the program that a piece is of.
fn option_of(item: &Item) -> Option<ProgramOption>
    ensures { result ≡ option_of item.now }
{
    match item {
        Item::Flag(option) => Some(*option),
        Item::Valued(option, _) => Some(*option),
        Item::Measured(_, _) | Item::Setting(_, _) => None,
    }
}

fn is_option(option: ProgramOption, other: Option<ProgramOption>) -> bool
    ensures { result ≡ is_option option other }
{
    match other {
        Some(other) => option.long_word() == other.long_word(),
        None => false,
    }
}

fn names_option(option: ProgramOption, items: &[Item]) -> bool
    ensures { result ≡ names_option option items.now }
{
    for item in items {
        if is_option(option, option_of(item)) {
            return true;
        }
    }
    false
}

fn named_again(option: Option<ProgramOption>, items: &[Item]) -> bool
    ensures { result ≡ named_again option items.now }
{
    match option {
        Some(option) => names_option(option, items),
        None => false,
    }
}

/// Whether an option of the program stands twice.
fn repeats_option(items: &[Item]) -> bool
    ensures { result ≡ repeats_option items.now }
{
    for (i, item) in items.iter().enumerate() {
        if named_again(option_of(item), &items[i + 1..]) {
            return true;
        }
    }
    false
}

/// `--NAME=VALUE`
fn word_with(alloc: Global, option: ProgramOption, value: &Text) -> Result<Text, NoMem>
    ensures { IfOk result (λ word. word ≡ long_word option ++ 61 ∷ value.now) }
{
    let mut word = Vec::from_slice(alloc, option.long_word().as_bytes())?;
    word.push(b'=')?;
    word.extend_from_slice(value.as_bytes())?;
    Text::from_vec(word).map_err(|_| NoMem)
}

/// The program's word of a piece.
fn program_word(alloc: Global, item: &Item) -> Result<Option<Text>, NoMem>
    ensures { IfOk result (λ word. word ≡ program_word item.now) }
{
    match item {
        Item::Flag(option) => {
            let word = Text::new(alloc, option.long_word().as_bytes()).map_err(|_| NoMem)?;
            Ok(Some(word))
        }
        Item::Valued(option, value) => Ok(Some(word_with(alloc, *option, value)?)),
        Item::Measured(_, _) | Item::Setting(_, _) => Ok(None),
    }
}

/// The words of the program.
fn program_words(alloc: Global, items: &[Item]) -> Result<Vec<Text>, NoMem>
    ensures { IfOk result (λ words. words.items ≡ filter_map program_word items.now) }
{
    let mut words = Vec::new(alloc);
    for item in items {
        if let Some(word) = program_word(alloc, item)? {
            words.push(word)?;
        }
    }
    Ok(words)
}

/// The setting that a piece names.
fn named_setting(alloc: Global, item: &Item) -> Result<Option<(Text, Text)>, NoMem>
    ensures { IfOk result (λ setting. setting ≡ named_setting item.now) }
{
    match item {
        Item::Setting(name, value) => {
            let name = name.try_clone(alloc)?;
            let value = value.try_clone(alloc)?;
            Ok(Some((name, value)))
        }
        Item::Flag(_) | Item::Valued(_, _) | Item::Measured(_, _) => Ok(None),
    }
}

/// The settings that are named.
fn named_settings(alloc: Global, items: &[Item]) -> Result<Vec<(Text, Text)>, NoMem>
    ensures { IfOk result (λ settings. settings.items ≡ filter_map named_setting items.now) }
{
    let mut settings = Vec::new(alloc);
    for item in items {
        if let Some(setting) = named_setting(alloc, item)? {
            settings.push(setting)?;
        }
    }
    Ok(settings)
}

/// Puts a piece's measure in, if it is one.
fn measure(alloc: Global, measures: Measures, item: &Item) -> Result<Measures, NoMem>
    ensures { IfOk result (λ next. next ≡ measures_with measures item.now) }
{
    let Item::Measured(geometry, value) = item else {
        return Ok(measures);
    };
    let value = Some(value.try_clone(alloc)?);
    let Measures {
        left,
        top,
        width,
        height,
    } = measures;
    Ok(match geometry {
        Geometry::Left => Measures {
            left: value,
            top,
            width,
            height,
        },
        Geometry::Top => Measures {
            left,
            top: value,
            width,
            height,
        },
        Geometry::Width => Measures {
            left,
            top,
            width: value,
            height,
        },
        Geometry::Height => Measures {
            left,
            top,
            width,
            height: value,
        },
    })
}

/// The window's measures.
fn measures_of(alloc: Global, items: &[Item]) -> Result<Measures, NoMem>
    ensures { IfOk result (λ measures. measures ≡ measures_from no_measures items.now) }
{
    let mut measures = Measures {
        left: None,
        top: None,
        width: None,
        height: None,
    };
    for item in items {
        measures = measure(alloc, measures, item)?;
    }
    Ok(measures)
}

/// Where the window begins.
fn start_of(start: &Option<Text>) -> Option<Fixed>
    ensures { option_map (λ f. f.0) result ≡ start_word start.now }
{
    match start {
        Some(text) => Fixed::parse(text.as_bytes()),
        None => Some(Fixed(0)),
    }
}

/// The sum of two lengths, where it is one.
fn sum_of(from: Fixed, size: Fixed) -> Option<Fixed>
    ensures fits { IsSome result ↔ (fits_word (from.0 +ℤ size.0) ≡ true) }
    ensures sum { IfSome result (λ sum. sum.0 ≡ from.0 +ℤ size.0) }
{
    let sum = i64::from(from.0) + i64::from(size.0);
    if -2147483648 <= sum && sum <= 2147483647 {
        Some(Fixed(sum as i32))
    } else {
        None
    }
}

/// The text of the far side of the window, from where it begins.
#[tactic(auto, unfolding(crate::specs::WordCut::far_text))]
fn far_text(alloc: Global, start: &Option<Text>, extent: &Text) -> Result<Option<Text>, NoMem>
    ensures { IfOk result (λ text. text ≡ far_text start.now extent.now) }
{
    let Some(from) = start_of(start) else {
        return Ok(None);
    };
    let Some(size) = Fixed::parse(extent.as_bytes()) else {
        return Ok(None);
    };
    match sum_of(from, size) {
        Some(sum) => Ok(Some(sum.to_text(alloc)?)),
        None => Ok(None),
    }
}

/// The far side, where its extent is said; `Bad` where it is no length.
fn far_side(
    alloc: Global,
    start: &Option<Text>,
    extent: &Option<Text>,
) -> Result<Option<Text>, SplitFault>
    ensures found { IfOk result (λ side. far_side start.now extent.now ≡ Some side) }
    ensures bad { result ≡ Err SplitFault.Bad → far_side start.now extent.now ≡ None }
{
    let Some(extent) = extent else {
        return Ok(None);
    };
    match far_text(alloc, start, extent)? {
        Some(text) => Ok(Some(text)),
        None => Err(SplitFault::Bad),
    }
}

/// Adds a setting, where it has a value.
fn add_setting(
    alloc: Global,
    settings: &mut Vec<(Text, Text)>,
    name: &'static str,
    value: Option<Text>,
) -> Result<(), NoMem>
    ensures { OnOk result (settings.new.items ≡ settings.old.items ++ setting_of name.now value) }
{
    if let Some(value) = value {
        let name = Text::new(alloc, name.as_bytes()).map_err(|_| NoMem)?;
        settings.push((name, value))?;
    }
    Ok(())
}

/// Adds the settings that the window's measures make.
#[tactic(auto, unfolding(crate::specs::WordCut::window_settings))]
fn add_window(
    alloc: Global,
    settings: &mut Vec<(Text, Text)>,
    measures: Measures,
) -> Result<(), SplitFault>
    ensures found { OnOk result (option_map (λ window. settings.old.items
        ++ window) (window_settings measures) ≡ Some settings.new.items) }
    ensures bad { result ≡ Err SplitFault.Bad → window_settings measures ≡ None }
{
    let right = far_side(alloc, &measures.left, &measures.width)?;
    let bottom = far_side(alloc, &measures.top, &measures.height)?;
    let Measures { left, top, .. } = measures;
    add_setting(alloc, settings, "tl-x", left)?;
    add_setting(alloc, settings, "tl-y", top)?;
    add_setting(alloc, settings, "br-x", right)?;
    add_setting(alloc, settings, "br-y", bottom)?;
    Ok(())
}

/// Splits the words of a command line, without the program's name, into those of the program and the
/// settings. `Bad` where they are no command line: a word that is no option, a flag with a value, a
/// missing value, an empty name, an empty value of a program's option, such an option twice, a measure
/// that is no decimal number, or a far side that is no 32-bit word. `NoMem` where there is no memory.
#[tactic(auto, unfolding(crate::specs::WordCut::split_of))]
pub fn split_words(alloc: Global, words: &[Text]) -> Result<Split, SplitFault>
    /// `split_words` is the word cut, whole, and `Bad` comes exactly where there is none.
    /// Carried by: `found`, `bad` of `split_words`
    ensures found { IfOk result (λ split. split_of words.now
        ≡ Some (split.program.items, split.settings.items)) }
    ensures bad { result ≡ Err SplitFault.Bad → split_of words.now ≡ None }
{
    let items = cut(alloc, words)?;
    let program = program_words(alloc, items.as_slice())?;
    let mut settings = named_settings(alloc, items.as_slice())?;
    let measures = measures_of(alloc, items.as_slice())?;
    add_window(alloc, &mut settings, measures)?;
    if repeats_option(items.as_slice()) {
        return Err(SplitFault::Bad);
    }
    Ok(Split { program, settings })
}
