ghost use Rattle.std.specs.Prelude.{◌≡◌, ◌++◌, IfOk, OnOk, map, drop, codes, decimal};
ghost use Rattle.std.specs.List.{concat, join_with_byte};
ghost use Rattle.option_desc.specs.ShownText.{word_text};
ghost use Rattle.scanimage_cli.specs.OptionTable.{unit_text, has_number_values, is_vector, steps_text, option_bounds_text, option_range_text, list_text, any_value, numbers_text, texts_text, bound_text, more_text, option_value_text, read_only_text, valued_line, option_line, table_text};
ghost use Rattle.scanimage_cli.specs.Inside.{behind_bars};

use crate::pieces::add_all;
use constraint::Range;
use device_api::has_cap;
use itoa::Buffer;
use option_desc::{Constraint, Descriptor, Value, show_text};
use sane_fixed::{Cap, Fixed, Kind, NoMem, Text, Unit};
use std::alloc::Global;

/// What `scanimage` prints for a unit.
fn unit_text(unit: Unit) -> &'static str
    ensures { result.now ≡ unit_text unit }
{
    match unit {
        Unit::None => "",
        Unit::Pixel => "pel",
        Unit::Bit => "bit",
        Unit::Mm => "mm",
        Unit::Dpi => "dpi",
        Unit::Percent => "%",
        Unit::Microsecond => "us",
    }
}

/// Whether the values of options of this kind are numbers.
fn has_number_values(kind: Kind) -> bool
    ensures { result ≡ has_number_values kind }
{
    match kind {
        Kind::Int | Kind::Fixed => true,
        Kind::Bool | Kind::String | Kind::Button | Kind::Group => false,
    }
}

/// Whether the option is an integer or a fixed number of more than one word.
fn is_vector(desc: &Descriptor) -> bool
    ensures { result ≡ is_vector desc.now }
{
    has_number_values(desc.kind) && desc.size > 4
}

/// One word of an option as it is shown.
fn word_text(alloc: Global, desc: &Descriptor, word: i32) -> Result<Text, NoMem>
    ensures { IfOk result (λ text. text ≡ word_text desc.now.kind word) }
{
    match desc.kind {
        Kind::Fixed => show_text(alloc, desc, &Value::Fixed(Fixed(word))),
        Kind::Bool | Kind::Int | Kind::String | Kind::Button | Kind::Group => {
            show_text(alloc, desc, &Value::Int(word))
        }
    }
}

/// Adds the steps, where not all words are admitted.
fn add_steps(alloc: Global, line: &mut Vec<u8>, desc: &Descriptor, quant: i32) -> Result<(), NoMem>
    ensures { OnOk result (line.new.items ≡ line.old.items ++ steps_text desc.now.kind quant) }
{
    if quant == 0 {
        return Ok(());
    }
    let steps = word_text(alloc, desc, quant)?;
    add_all(line, &[b" (in steps of ", steps.as_bytes(), b")"])
}

/// Adds `MIN..MAX` and the unit.
fn add_bounds(
    alloc: Global,
    line: &mut Vec<u8>,
    desc: &Descriptor,
    range: &Range,
) -> Result<(), NoMem>
    ensures { OnOk result (line.new.items
        ≡ line.old.items ++ option_bounds_text desc.now range.now) }
{
    let least = word_text(alloc, desc, range.min())?;
    let most = word_text(alloc, desc, range.max())?;
    let unit = unit_text(desc.unit).as_bytes();
    add_all(line, &[least.as_bytes(), b"..", most.as_bytes(), unit])
}

/// Adds `MIN..MAX`, the unit, and the steps.
#[tactic(auto, using(crate::proofs::JoinLemmas::added_then))]
fn add_range(
    alloc: Global,
    line: &mut Vec<u8>,
    desc: &Descriptor,
    range: &Range,
) -> Result<(), NoMem>
    ensures { OnOk result (line.new.items
        ≡ line.old.items ++ option_range_text desc.now range.now) }
{
    add_bounds(alloc, line, desc, range)?;
    add_steps(alloc, line, desc, range.quant())?;
    Ok(())
}

/// Adds words, a `|` before each.
fn add_more_words(
    alloc: Global,
    line: &mut Vec<u8>,
    desc: &Descriptor,
    words: &[i32],
) -> Result<(), NoMem>
    ensures { OnOk result (line.new.items
        ≡ line.old.items ++ behind_bars (map (word_text desc.now.kind) words.now)) }
{
    for word in words {
        let text = word_text(alloc, desc, *word)?;
        add_all(line, &[b"|", text.as_bytes()])?;
    }
    Ok(())
}

/// Adds the words joined by `|`.
fn add_joined_words(
    alloc: Global,
    line: &mut Vec<u8>,
    desc: &Descriptor,
    words: &[i32],
) -> Result<(), NoMem>
    ensures { OnOk result (line.new.items
        ≡ line.old.items ++ join_with_byte 124 (map (word_text desc.now.kind) words.now)) }
{
    match words {
        [] => Ok(()),
        [first, more @ ..] => {
            let text = word_text(alloc, desc, *first)?;
            line.extend_from_slice(text.as_bytes())?;
            add_more_words(alloc, line, desc, more)?;
            Ok(())
        }
    }
}

/// Adds the words joined by `|`, and the unit.
fn add_words(
    alloc: Global,
    line: &mut Vec<u8>,
    desc: &Descriptor,
    words: &[i32],
) -> Result<(), NoMem>
    ensures { OnOk result (line.new.items
        ≡ line.old.items ++ list_text desc.now (map (word_text desc.now.kind) words.now)) }
{
    add_joined_words(alloc, line, desc, words)?;
    line.extend_from_slice(unit_text(desc.unit).as_bytes())?;
    Ok(())
}

/// Adds texts, a `|` before each.
fn add_more_texts(line: &mut Vec<u8>, texts: &[Text]) -> Result<(), NoMem>
    ensures { OnOk result (line.new.items ≡ line.old.items ++ behind_bars texts.now) }
{
    for text in texts {
        add_all(line, &[b"|", text.as_bytes()])?;
    }
    Ok(())
}

/// Adds the texts joined by `|`.
fn add_joined_texts(line: &mut Vec<u8>, texts: &[Text]) -> Result<(), NoMem>
    ensures { OnOk result (line.new.items ≡ line.old.items ++ join_with_byte 124 texts.now) }
{
    match texts {
        [] => Ok(()),
        [first, more @ ..] => {
            line.extend_from_slice(first.as_bytes())?;
            add_more_texts(line, more)?;
            Ok(())
        }
    }
}

/// Adds the texts joined by `|`, and the unit.
fn add_texts(line: &mut Vec<u8>, desc: &Descriptor, texts: &[Text]) -> Result<(), NoMem>
    ensures { OnOk result (line.new.items ≡ line.old.items ++ list_text desc.now texts.now) }
{
    add_joined_texts(line, texts)?;
    line.extend_from_slice(unit_text(desc.unit).as_bytes())?;
    Ok(())
}

/// What stands for the values of an option that nothing binds.
fn any_value(kind: Kind) -> &'static str
    ensures { result.now ≡ any_value kind }
{
    match kind {
        Kind::Bool => "yes|no",
        Kind::Int => "<int>",
        Kind::Fixed => "<fixed>",
        Kind::String => "<string>",
        Kind::Button | Kind::Group => "",
    }
}

/// Adds what stands for the values of an option that nothing binds.
fn add_any(line: &mut Vec<u8>, kind: Kind) -> Result<(), NoMem>
    ensures { OnOk result (line.new.items ≡ line.old.items ++ any_value kind) }
{
    line.extend_from_slice(any_value(kind).as_bytes())?;
    Ok(())
}

/// Adds the numbers that the option may have.
fn add_numbers(alloc: Global, line: &mut Vec<u8>, desc: &Descriptor) -> Result<(), NoMem>
    ensures { OnOk result (line.new.items
        ≡ line.old.items ++ numbers_text desc.now desc.now.constraint) }
{
    match &desc.constraint {
        Constraint::Span(range) => add_range(alloc, line, desc, range),
        Constraint::Words(words) => add_words(alloc, line, desc, words.as_slice()),
        Constraint::Free | Constraint::Strings(_) => add_any(line, desc.kind),
    }
}

/// Adds the texts that the option may have.
fn add_strings(line: &mut Vec<u8>, desc: &Descriptor) -> Result<(), NoMem>
    ensures { OnOk result (line.new.items
        ≡ line.old.items ++ texts_text desc.now desc.now.constraint) }
{
    match &desc.constraint {
        Constraint::Strings(texts) => add_texts(line, desc, texts.as_slice()),
        Constraint::Free | Constraint::Span(_) | Constraint::Words(_) => add_any(line, desc.kind),
    }
}

/// Adds the values that the option may have. A constraint of another kind than the values binds nothing.
fn add_bound(alloc: Global, line: &mut Vec<u8>, desc: &Descriptor) -> Result<(), NoMem>
    ensures { OnOk result (line.new.items ≡ line.old.items ++ bound_text desc.now.kind desc.now) }
{
    match desc.kind {
        Kind::Int | Kind::Fixed => add_numbers(alloc, line, desc),
        Kind::String => add_strings(line, desc),
        Kind::Bool | Kind::Button | Kind::Group => add_any(line, desc.kind),
    }
}

/// What stands for so many values.
fn count_text(alloc: Global, count: u32) -> Result<Text, NoMem>
    ensures { IfOk result (λ text. text ≡ decimal count ++ codes " values") }
{
    let mut digits = Buffer::new();
    let mut text = Vec::from_slice(alloc, digits.format(count).as_bytes())?;
    text.extend_from_slice(b" values")?;
    Text::from_vec(text).map_err(|_| NoMem)
}

/// What stands in brackets as the option's value.
fn option_value_text(alloc: Global, desc: &Descriptor, value: &Option<Value>) -> Result<Text, NoMem>
    ensures { IfOk result (λ text. text ≡ option_value_text desc.now value.now) }
{
    if has_cap(desc.caps.0, Cap::INACTIVE) {
        return Text::new(alloc, b"inactive").map_err(|_| NoMem);
    }
    if is_vector(desc) && has_cap(desc.caps.0, Cap::SOFT_DETECT) {
        return count_text(alloc, desc.size / 4);
    }
    match value {
        Some(value) => show_text(alloc, desc, value),
        None => Text::new(alloc, b"unknown").map_err(|_| NoMem),
    }
}

/// What stands behind the values of an option that has several of them.
fn more_text(desc: &Descriptor) -> &'static str
    ensures { result.now ≡ more_text desc.now }
{
    if is_vector(desc) { ",..." } else { "" }
}

/// What stands behind an option that cannot be set.
fn read_only_text(desc: &Descriptor) -> &'static str
    ensures { result.now ≡ read_only_text desc.now }
{
    if has_cap(desc.caps.0, Cap::SOFT_SELECT) {
        ""
    } else {
        " [read-only]"
    }
}

/// Adds the line of an option that has values.
fn add_valued(
    alloc: Global,
    lines: &mut Vec<u8>,
    desc: &Descriptor,
    value: &Option<Value>,
) -> Result<(), NoMem>
    ensures { OnOk result (lines.new.items ≡ lines.old.items ++ valued_line desc.now value.now) }
{
    add_all(lines, &[b"    --", desc.name.as_bytes(), b" "])?;
    add_bound(alloc, lines, desc)?;
    let text = option_value_text(alloc, desc, value)?;
    let more = more_text(desc).as_bytes();
    let read_only = read_only_text(desc).as_bytes();
    add_all(
        lines,
        &[more, b" [", text.as_bytes(), b"]", read_only, b"\n"],
    )
}

/// Adds the line of an option.
fn add_option(
    alloc: Global,
    lines: &mut Vec<u8>,
    desc: &Descriptor,
    value: &Option<Value>,
) -> Result<(), NoMem>
    ensures { OnOk result (lines.new.items ≡ lines.old.items ++ option_line (desc.now, value.now)) }
{
    match desc.kind {
        Kind::Group => add_all(lines, &[b"  ", desc.title.as_bytes(), b":\n"]),
        Kind::Button => add_all(lines, &[b"    --", desc.name.as_bytes(), b"\n"]),
        Kind::Bool | Kind::Int | Kind::Fixed | Kind::String => {
            add_valued(alloc, lines, desc, value)
        }
    }
}

/// All options but the first.
fn behind_first(options: &[(Descriptor, Option<Value>)]) -> &[(Descriptor, Option<Value>)]
    ensures { result.now ≡ drop 1 options.now }
{
    match options {
        [_, more @ ..] => more,
        _ => &[],
    }
}

/// Adds the lines of options.
fn add_options(
    alloc: Global,
    lines: &mut Vec<u8>,
    options: &[(Descriptor, Option<Value>)],
) -> Result<(), NoMem>
    ensures { OnOk result (lines.new.items
        ≡ lines.old.items ++ concat (map option_line options.now)) }
{
    for (desc, value) in options {
        add_option(alloc, lines, desc, value)?;
    }
    Ok(())
}

/// The table of `-A` for the device of that name: its options, but for the number of options, with the
/// values that they may have and the one that they have. The only error is out of memory.
pub fn options_table(
    alloc: Global,
    name: &[u8],
    options: &[(Descriptor, Option<Value>)],
) -> Result<Vec<u8>, NoMem>
    ensures { IfOk result (λ lines. lines.items ≡ table_text name.now options.now) }
{
    let mut lines = Vec::new(alloc);
    add_all(
        &mut lines,
        &[b"All options specific to device `", name, b"':\n"],
    )?;
    add_options(alloc, &mut lines, behind_first(options))?;
    Ok(lines)
}
