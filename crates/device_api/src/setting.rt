ghost use Rattle.std.specs.Prelude.{◌≡◌, ◌≢◌, not, Some, Ok, IfOk, IsOk, OnErr, MatchResult, All, map, length, unsigned_abs};
ghost use Rattle.constraint.specs.Nearest.{FlagsDifference};
ghost use Rattle.option_desc.specs.declared.value.Value.TheVariants.{Words as WordsOf};
ghost use Rattle.option_desc.specs.Put.{resolve};
ghost use Rattle.option_desc.specs.Refuses.{Refuses};
ghost use Rattle.device_api.specs.Options.{choices_of, is_active, descriptor_of};
ghost use Rattle.device_api.specs.Values.{with_number, with_length, with_table, choice_of, with_chosen, with_value, reloads, info_bits, option_set, setup_after};
ghost use Rattle.device_api.specs.ScannerLimits.{IsAllowed};
ghost use Rattle.device_api.specs.AdmittedOptions.{IsAdmitted, IsByte, takes_number, takes_length, takes_words, takes};

use crate::choice::Choice;
use crate::matching::is_matched;
use crate::scan_option::{ScanOption, options_of};
use crate::tables::{descriptor, is_active};
use crate::values::option_with;
use option_desc::{Value, Words, put};
use sane_fixed::{Cap, Fixed, Info, Kind, Status};
use scan_frames::Setup;
use std::alloc::Global;

fn takes_number(option: ScanOption) -> bool
    ensures { result ≡ takes_number option }
{
    matches!(
        option,
        ScanOption::NumOptions
            | ScanOption::Depth
            | ScanOption::Resolution
            | ScanOption::PplLoss
            | ScanOption::ReadLimitSize
    )
}

fn takes_length(option: ScanOption) -> bool
    ensures { result ≡ takes_length option }
{
    matches!(
        option,
        ScanOption::TlX | ScanOption::TlY | ScanOption::BrX | ScanOption::BrY
    )
}

/// Whether the option admits a value near to one. It takes no memory, so that a value which cannot be put
/// is refused as such also where there is none.
fn takes(option: ScanOption, value: &Value) -> bool
    ensures { result ≡ takes option value.now }
{
    match value {
        Value::Flag(_) => matches!(option, ScanOption::HandScanner),
        Value::Int(_) => takes_number(option),
        Value::Fixed(_) => takes_length(option),
        Value::Words(words) => takes_words(option, words),
        Value::Text(text) => is_matched(option.choices(), text.as_bytes()),
    }
}

fn takes_words(option: ScanOption, words: &Words) -> bool
    ensures { result ≡ takes_words option (length words.now) }
{
    match option {
        ScanOption::GammaTable
        | ScanOption::RedGammaTable
        | ScanOption::GreenGammaTable
        | ScanOption::BlueGammaTable => words.as_slice().len() == 256,
        _ => false,
    }
}

/// The admitted value nearest to one, and whether it differs.
fn nearest(
    alloc: Global,
    setup: &Setup,
    option: ScanOption,
    value: &Value,
) -> Result<(Value, bool), Status>
    ensures value { MatchResult result
        (λ given. resolve (descriptor_of setup.now option) value.now ≡ Some given.0)
        (λ status. Refuses status (resolve (descriptor_of setup.now option) value.now)) }
    ensures differs { IfOk result (λ given. FlagsDifference given.1 value.now given.0) }
{
    if !takes(option, value) {
        return Err(Status::Inval);
    }
    let Ok(desc) = descriptor(alloc, setup, option) else {
        return Err(Status::NoMem);
    };
    put(alloc, &desc, value)
}

fn put_number(setup: &mut Setup, option: ScanOption, number: u32)
    ensures { setup.new ≡ with_number setup.old option number }
{
    match option {
        ScanOption::Depth => setup.scene.depth = number,
        ScanOption::Resolution => setup.scene.resolution = number,
        ScanOption::PplLoss => setup.loss = number,
        ScanOption::ReadLimitSize => setup.limit = number,
        _ => {}
    }
}

fn put_length(setup: &mut Setup, option: ScanOption, length: Fixed)
    ensures { setup.new ≡ with_length setup.old option length }
{
    match option {
        ScanOption::TlX => setup.scene.tl_x = length,
        ScanOption::TlY => setup.scene.tl_y = length,
        ScanOption::BrX => setup.scene.br_x = length,
        ScanOption::BrY => setup.scene.br_y = length,
        _ => {}
    }
}

/// The bytes of 256 words of 0 to 255.
fn table_of(words: &[i32]) -> [u8; 256]
    requires size { length words.now ≡ 256 }
    requires bytes { All IsByte words.now }
    ensures { result ≡ map (λ word. unsigned_abs word) words.now }
{
    let mut table = [0; 256];
    for i in 0..256 {
        table[i] = words[i] as u8;
    }
    table
}

fn put_table(setup: &mut Setup, option: ScanOption, words: &Words)
    requires { IsAdmitted setup.old.scene.kind option (WordsOf words.now) }
    ensures { setup.new ≡ with_table setup.old option (map (λ word. unsigned_abs word) words.now) }
{
    let scene = &mut setup.scene;
    let [red, green, blue] = scene.channel_gamma;
    match option {
        ScanOption::GammaTable => scene.gamma = table_of(words.as_slice()),
        ScanOption::RedGammaTable => {
            scene.channel_gamma = [table_of(words.as_slice()), green, blue];
        }
        ScanOption::GreenGammaTable => {
            scene.channel_gamma = [red, table_of(words.as_slice()), blue];
        }
        ScanOption::BlueGammaTable => {
            scene.channel_gamma = [red, green, table_of(words.as_slice())];
        }
        _ => {}
    }
}

/// The first of some choices that has the text.
fn choice_of(choices: &[Choice], text: &[u8]) -> Option<Choice>
    ensures { result ≡ choice_of choices.now text.now }
{
    for choice in choices {
        if choice.text().as_bytes() == text {
            return Some(*choice);
        }
    }
    None
}

fn put_text(setup: &mut Setup, option: ScanOption, text: &[u8])
    ensures { setup.new ≡ with_chosen setup.old (choice_of (choices_of option) text.now) }
{
    match choice_of(option.choices(), text) {
        Some(Choice::Mode(mode)) => setup.scene.mode = mode,
        Some(Choice::Passes(passes)) => setup.passes = passes,
        Some(Choice::ReadStatus(told)) => setup.told = told,
        None => {}
    }
}

/// Puts an admitted value in.
#[tactic(auto, unfolding(crate::specs::Values::with_value))]
fn put_value(setup: &mut Setup, option: ScanOption, value: &Value)
    requires { IsAdmitted setup.old.scene.kind option value.now }
    ensures { setup.new ≡ with_value setup.old option value.now }
{
    match value {
        Value::Flag(_) => {}
        Value::Int(word) => put_number(setup, option, word.unsigned_abs()),
        Value::Fixed(length) => put_length(setup, option, *length),
        Value::Words(words) => put_table(setup, option, words),
        Value::Text(text) => put_text(setup, option, text.as_bytes()),
    }
}

/// Whether a descriptor of one setup differs from that of the other.
fn reloads(old: &Setup, new: &Setup) -> bool
    ensures { result ≡ reloads old.now new.now }
{
    for option in options_of(old.scene.kind) {
        if is_active(old, *option) != is_active(new, *option) {
            return true;
        }
    }
    false
}

fn info(inexact: bool, options: bool, params: bool) -> Info
    ensures { result ≡ info_bits inexact options params }
{
    let inexact = if inexact { Info::INEXACT } else { 0 };
    let options = if options { Info::RELOAD_OPTIONS } else { 0 };
    let params = if params { Info::RELOAD_PARAMS } else { 0 };
    Info(inexact + (options + params))
}

/// Puts the admitted value nearest to `value` into option `n`. Answers that value and its info: `INEXACT` if it differs from
/// `value`, `RELOAD_OPTIONS` if a descriptor changed, `RELOAD_PARAMS` if the parameters of a scan depend on the option. Refuses:
/// `Inval` if there is no such option, it is inactive or cannot be set, the value does not fit, or no text is matched; then
/// `NoMem`. A refused call changes nothing.
#[tactic(auto, unfolding(crate::specs::Values::option_set))]
pub fn set_option(
    alloc: Global,
    setup: &mut Setup,
    n: u32,
    value: &Value,
) -> Result<(Value, Info), Status>
    /// A set gives the nearest admitted value, INEXACT just where it differs, and RELOAD_OPTIONS just where the
    /// descriptors changed; a refused set changes nothing.
    /// Carried by: `set_option`; `same_values_are_equal`, `reload_tells_of_changed_descriptors`
    ensures answer { result ≢ Err Status.NoMem → result ≡ option_set setup.old n value.now }
    ensures memory { result ≡ Err Status.NoMem → IsOk (option_set setup.old n value.now) }
    ensures ok { IfOk result (λ given. setup.new ≡ setup_after setup.old n given.0) }
    ensures err { OnErr result (setup.new ≡ setup.old) }
    ensures allowed { IsAllowed setup.old → IsAllowed setup.new }
{
    let old = *setup;
    let Some(option) = option_with(setup, n, Cap::SOFT_SELECT) else {
        return Err(Status::Inval);
    };
    let (given, differs) = nearest(alloc, setup, option, value)?;
    put_value(setup, option, &given);
    let info = info(differs, reloads(&old, setup), option.bears_on_params());
    Ok((given, info))
}
