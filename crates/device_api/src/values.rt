ghost use Rattle.std.specs.Prelude.{◌≡◌, ◌≢◌, ◌≤◌, ◌&&◌, pos, map, IfOk, IsOk};
ghost use Rattle.option_desc.specs.declared.value.Value.TheVariants.{Text as TextOf, Words as WordsOf};
ghost use Rattle.device_api.specs.ScannerLimits.{IsAllowed};
ghost use Rattle.device_api.specs.Options.{option_at, choice_text, is_active, option_caps};
ghost use Rattle.sane_fixed.specs.Cap.{has_cap};
ghost use Rattle.device_api.specs.Values.{identity, default_resolution, mm, defaults, option_value, option_passing, option_got};

use crate::choice::Choice;
use crate::scan_option::{ScanOption, option_at, options_of};
use crate::tables::is_active;
use option_desc::{Value, Words};
use page_picture::{DeviceKind, Mode, Scene};
use sane_fixed::{ByteOrder, Cap, Fixed, NoMem, Status, Text, has_cap};
use scan_frames::{PassOrder, Setup};
use std::alloc::Global;

/// The table that gives each upper byte itself.
fn identity() -> [u8; 256]
    ensures { result ≡ identity }
{
    let mut table = [0; 256];
    for i in 0..256 {
        table[i] = i as u8;
    }
    table
}

fn default_resolution(kind: DeviceKind) -> u32
    ensures { result ≡ default_resolution kind }
{
    match kind {
        DeviceKind::Hand => 75,
        DeviceKind::Flatbed | DeviceKind::ThreePass | DeviceKind::Feeder => 50,
    }
}

/// What the options of a new scanner say: gray, 8 bits, a window of 80 by 100 mm.
#[tactic(auto, using(crate::proofs::AllowedLaws::defaults_allowed), unfolding(crate::specs::Values::defaults))]
pub fn defaults(kind: DeviceKind, order: ByteOrder) -> Setup
    /// A reset leaves the defaults of the kind.
    /// Carried by: `defaults`, `reset_setup`
    ensures value { result ≡ defaults kind order }
    ensures allowed { IsAllowed result }
{
    Setup {
        scene: Scene {
            kind,
            mode: Mode::Gray,
            depth: 8,
            resolution: default_resolution(kind),
            tl_x: Fixed(0),
            tl_y: Fixed(0),
            br_x: Fixed(80 * 65536),
            br_y: Fixed(100 * 65536),
            gamma: identity(),
            channel_gamma: [identity(), identity(), identity()],
        },
        order,
        passes: PassOrder::Rgb,
        loss: 0,
        limit: 65536,
        told: None,
    }
}

/// Puts all options to their defaults. The kind of scanner and the byte order stay.
pub fn reset_setup(setup: &mut Setup)
    ensures value { setup.new ≡ defaults setup.old.scene.kind setup.old.order }
    ensures allowed { IsAllowed setup.new }
{
    *setup = defaults(setup.scene.kind, setup.order);
}

/// The option of a number, where it is active and has the capability.
pub(crate) fn option_with(setup: &Setup, n: u32, bit: u32) -> Option<ScanOption>
    requires { 1 ≤ bit }
    ensures { result ≡ option_passing (λ o. is_active setup.now o && has_cap (option_caps o) bit)
        (option_at setup.now.scene.kind n) }
{
    let option = option_at(setup.scene.kind, n)?;
    if is_active(setup, option) && has_cap(option.caps(), bit) {
        Some(option)
    } else {
        None
    }
}

fn text_value(alloc: Global, choice: Choice) -> Result<Value, NoMem>
    ensures { IfOk result (λ value. value ≡ TextOf (choice_text choice)) }
{
    let text = Text::new(alloc, choice.text().as_bytes()).map_err(|_| NoMem)?;
    Ok(Value::Text(text))
}

fn table_value(alloc: Global, table: &[u8]) -> Result<Value, NoMem>
    ensures { IfOk result (λ value. value ≡ WordsOf (map (λ b. pos b) table.now)) }
{
    let mut words = Vec::with_capacity(alloc, table.len())?;
    for byte in table {
        words.push(i32::from(*byte))?;
    }
    Ok(Value::Words(Words::from_vec(words)))
}

/// The value of an option. The only error is out of memory.
#[tactic(auto, unfolding(crate::specs::Values::option_value))]
pub fn option_value(alloc: Global, setup: &Setup, option: ScanOption) -> Result<Value, NoMem>
    requires { IsAllowed setup.now }
    ensures { IfOk result (λ value. value ≡ option_value setup.now option) }
{
    let scene = &setup.scene;
    Ok(match option {
        ScanOption::NumOptions => Value::Int(options_of(scene.kind).len() as i32),
        ScanOption::Mode => text_value(alloc, Choice::Mode(scene.mode))?,
        ScanOption::Depth => Value::Int(scene.depth as i32),
        ScanOption::Resolution => Value::Int(scene.resolution as i32),
        ScanOption::TlX => Value::Fixed(scene.tl_x),
        ScanOption::TlY => Value::Fixed(scene.tl_y),
        ScanOption::BrX => Value::Fixed(scene.br_x),
        ScanOption::BrY => Value::Fixed(scene.br_y),
        ScanOption::GammaTable => table_value(alloc, &scene.gamma)?,
        ScanOption::RedGammaTable => table_value(alloc, &scene.channel_gamma[0])?,
        ScanOption::GreenGammaTable => table_value(alloc, &scene.channel_gamma[1])?,
        ScanOption::BlueGammaTable => table_value(alloc, &scene.channel_gamma[2])?,
        ScanOption::ThreePassOrder => text_value(alloc, Choice::Passes(setup.passes))?,
        ScanOption::PplLoss => Value::Int(setup.loss as i32),
        ScanOption::ReadLimitSize => Value::Int(setup.limit as i32),
        ScanOption::ReadReturnValue => text_value(alloc, Choice::ReadStatus(setup.told))?,
        ScanOption::HandScanner => Value::Flag(true),
    })
}

/// The value of option `n`: `Inval` where there is no such option, or it is inactive or cannot be read,
/// and `NoMem`.
#[tactic(auto, unfolding(crate::specs::Values::option_got))]
pub fn get_option(alloc: Global, setup: &Setup, n: u32) -> Result<Value, Status>
    requires { IsAllowed setup.now }
    ensures answer { result ≢ Err Status.NoMem → result ≡ option_got setup.now n }
    ensures memory { result ≡ Err Status.NoMem → IsOk (option_got setup.now n) }
{
    match option_with(setup, n, Cap::SOFT_DETECT) {
        Some(option) => Ok(option_value(alloc, setup, option)?),
        None => Err(Status::Inval),
    }
}
