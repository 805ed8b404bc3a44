ghost use Rattle.std.specs.Prelude.{◌≡◌, ◌≤◌, ◌≤ℤ◌, pos, length, map, IfOk};
ghost use Rattle.option_desc.specs.declared.descriptor.Constraint.TheVariants.{Span, Words, Strings};
ghost use Rattle.device_api.specs.Options.{choice_text, depths_of, resolutions_of, option_constraint, is_active, caps_of, descriptor_of, descriptors_of};

use crate::choice::Choice;
use crate::scan_option::{ScanOption, options_of};
use constraint::{Range, StringList, WordList};
use option_desc::{Constraint, Descriptor};
use page_picture::{DeviceKind, Mode};
use sane_fixed::{Cap, NoMem, Text};
use scan_frames::Setup;
use std::alloc::Global;

/// The bit of an option that has no meaning at present.
const INACTIVE: u32 = Cap::INACTIVE;

/// 200 mm, and 1 mm, as words of a length.
const BED: i32 = 200 * MM;

const MM: i32 = 65536;

/// Whether the option has a meaning at present. The common gamma table has one except at depth 16. Those of the three channels
/// have one in color at depth 8. The order of passes has one in color.
pub fn is_active(setup: &Setup, option: ScanOption) -> bool
    ensures { result ≡ is_active setup.now option }
{
    match option {
        ScanOption::GammaTable => setup.scene.depth != 16,
        ScanOption::RedGammaTable | ScanOption::GreenGammaTable | ScanOption::BlueGammaTable => {
            matches!(setup.scene.mode, Mode::Color) && setup.scene.depth == 8
        }
        ScanOption::ThreePassOrder => matches!(setup.scene.mode, Mode::Color),
        _ => true,
    }
}

fn caps(setup: &Setup, option: ScanOption) -> u32
    ensures { result ≡ caps_of setup.now option }
{
    if is_active(setup, option) {
        option.caps()
    } else {
        option.caps() + INACTIVE
    }
}

fn text_of(alloc: Global, text: &'static str) -> Result<Text, NoMem>
    ensures { IfOk result (λ own. own ≡ text.now) }
{
    // No text of the tables has a NUL.
    Text::new(alloc, text.as_bytes()).map_err(|_| NoMem)
}

fn words(alloc: Global, words: &[i32]) -> Result<Constraint, NoMem>
    requires some { 1 ≤ length words.now }
    requires most { length words.now ≤ 1023 }
    ensures { IfOk result (λ list. list ≡ Words words.now) }
{
    let words = Vec::from_slice(alloc, words)?;
    Ok(Constraint::Words(WordList::new(words).unwrap()))
}

fn texts_of(alloc: Global, choices: &[Choice]) -> Result<Vec<Text>, NoMem>
    ensures texts { IfOk result (λ texts. texts.items ≡ map choice_text choices.now) }
    ensures count { IfOk result (λ texts. length texts.items ≡ length choices.now) }
{
    let mut texts = Vec::with_capacity(alloc, choices.len())?;
    for choice in choices {
        texts.push(text_of(alloc, choice.text())?)?;
    }
    Ok(texts)
}

/// The list of the texts of some choices.
fn texts(alloc: Global, choices: &[Choice]) -> Result<Constraint, NoMem>
    requires some { 1 ≤ length choices.now }
    requires most { length choices.now ≤ 1023 }
    ensures { IfOk result (λ list. list ≡ Strings (map choice_text choices.now)) }
{
    let texts = texts_of(alloc, choices)?;
    Ok(Constraint::Strings(StringList::new(texts).unwrap()))
}

fn range(min: i32, max: i32, quant: i32) -> Constraint
    requires ordered { min ≤ℤ max }
    requires no_step_back { pos 0 ≤ℤ quant }
    ensures { result ≡ Span (record { min = min; max = max; quant = quant }) }
{
    Constraint::Span(Range::new(min, max, quant).unwrap())
}

fn depths(alloc: Global, kind: DeviceKind) -> Result<Constraint, NoMem>
    ensures { IfOk result (λ list. list ≡ Words (depths_of kind)) }
{
    match kind {
        DeviceKind::Flatbed | DeviceKind::Feeder => words(alloc, &[1, 8, 16]),
        DeviceKind::Hand => words(alloc, &[1, 8]),
        DeviceKind::ThreePass => words(alloc, &[8, 16]),
    }
}

fn resolutions(alloc: Global, kind: DeviceKind) -> Result<Constraint, NoMem>
    ensures { IfOk result (λ constraint. constraint ≡ resolutions_of kind) }
{
    match kind {
        DeviceKind::Hand => words(alloc, &[75, 100, 150, 300]),
        DeviceKind::Flatbed | DeviceKind::ThreePass | DeviceKind::Feeder => Ok(range(1, 1200, 1)),
    }
}

fn constraint(alloc: Global, kind: DeviceKind, option: ScanOption) -> Result<Constraint, NoMem>
    ensures { IfOk result (λ constraint. constraint ≡ option_constraint kind option) }
{
    match option {
        ScanOption::NumOptions => Ok(Constraint::Free),
        ScanOption::Mode => texts(alloc, option.choices()),
        ScanOption::Depth => depths(alloc, kind),
        ScanOption::Resolution => resolutions(alloc, kind),
        ScanOption::TlX => Ok(range(0, BED, MM)),
        ScanOption::TlY => Ok(range(0, BED, MM)),
        ScanOption::BrX => Ok(range(0, BED, MM)),
        ScanOption::BrY => Ok(range(0, BED, MM)),
        ScanOption::GammaTable => Ok(range(0, 255, 1)),
        ScanOption::RedGammaTable => Ok(range(0, 255, 1)),
        ScanOption::GreenGammaTable => Ok(range(0, 255, 1)),
        ScanOption::BlueGammaTable => Ok(range(0, 255, 1)),
        ScanOption::ThreePassOrder => texts(alloc, option.choices()),
        ScanOption::PplLoss => Ok(range(0, 64, 1)),
        ScanOption::ReadLimitSize => Ok(range(1, 65536, 1)),
        ScanOption::ReadReturnValue => texts(alloc, option.choices()),
        ScanOption::HandScanner => Ok(Constraint::Free),
    }
}

/// The descriptor of an option. The only error is out of memory.
#[tactic(auto, unfolding(crate::specs::Options::descriptor_of))]
pub fn descriptor(alloc: Global, setup: &Setup, option: ScanOption) -> Result<Descriptor, NoMem>
    ensures { IfOk result (λ desc. desc ≡ descriptor_of setup.now option) }
{
    Ok(Descriptor {
        name: text_of(alloc, option.name())?,
        title: text_of(alloc, option.title())?,
        about: text_of(alloc, option.title())?,
        kind: option.kind(),
        unit: option.unit(),
        size: option.size(),
        caps: Cap(caps(setup, option)),
        constraint: constraint(alloc, setup.scene.kind, option)?,
    })
}

/// The descriptors of a scanner's options as they stand, in the order of their numbers. The only error is
/// out of memory.
pub fn descriptors(alloc: Global, setup: &Setup) -> Result<Vec<Descriptor>, NoMem>
    /// The option tables are those of the four kinds.
    ensures { IfOk result (λ all. all.items ≡ descriptors_of setup.now) }
{
    let options = options_of(setup.scene.kind);
    let mut all = Vec::with_capacity(alloc, options.len())?;
    for option in options {
        all.push(descriptor(alloc, setup, *option)?)?;
    }
    Ok(all)
}
