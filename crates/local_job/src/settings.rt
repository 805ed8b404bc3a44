ghost use Rattle.std.specs.Prelude.{◌≡◌, ◌⊎◌, true, Ok, Err, Some, None, IfOk, IfErr, OnErr, slice_get};
ghost use Rattle.device_api.specs.Options.{descriptors_of};
ghost use Rattle.device_api.specs.State.{is_at_rest, with_setup};
ghost use Rattle.device_api.specs.Values.{option_set, setup_after};
ghost use Rattle.sane_fixed.specs.declared.status.Status.{Status as AnyStatus};
ghost use Rattle.device_api.specs.InForce.{number_named};
ghost use Rattle.local_job.specs.LocalStops.{bad_setting, stop_by_status};
ghost use Rattle.local_job.specs.Inside.{stop_unread, put_one, put_all};
ghost use Rattle.scan_job.specs.Stops.{no_memory};
ghost use Rattle.local_job.specs.FrameReading.{IsRefusal};

use crate::local_stop::{bad_setting, stop_by_status};
use device_api::Device;
use option_desc::{Descriptor, Value, read_text};
use sane_fixed::{Info, Status, Text};
use scan_job::{ItemList, Report, Stop};
use std::alloc::Global;

/// The number of the first option of that name.
fn number_named(descriptors: &[Descriptor], name: &[u8]) -> Option<usize>
    ensures { result ≡ number_named name.now descriptors.now }
{
    descriptors
        .iter()
        .position(|desc| desc.name.as_bytes() == name)
}

/// The option of that name: its number, and its descriptor.
fn find_option(alloc: Global, device: &dyn Device, name: &[u8]) -> Result<(u32, Descriptor), Stop>
    ensures found { IfOk result
        (λ found. (number_named name.now (descriptors_of (state device.now).setup) ≡ Some found.0)
        × (slice_get (descriptors_of (state device.now).setup) found.0 ≡ Some found.1)) }
    ensures refusal { IfErr result (λ stop. IsRefusal stop) }
    ensures none { IfErr result (λ stop. (stop ≡ no_memory) ⊎ ((stop ≡ bad_setting)
        × (number_named name.now (descriptors_of (state device.now).setup) ≡ None))) }
{
    let descriptors = device.descriptors(alloc).map_err(stop_by_status)?;
    let n = number_named(&descriptors, name).ok_or(bad_setting())?;
    let descriptor = descriptors[n].try_clone(alloc)?;
    Ok((n as u32, descriptor))
}

/// A text that does not read ends the job, as does out of memory.
fn stop_unread(status: Status) -> Stop
    ensures { result ≡ stop_unread status }
{
    match status {
        Status::NoMem => Stop::no_memory(),
        _ => bad_setting(),
    }
}

/// Sets the value of an option.
fn set_option(
    alloc: Global,
    device: &mut dyn Device,
    n: u32,
    asked: &Value,
) -> Result<(Value, Info), Stop>
    requires { is_at_rest (state device.old).phase ≡ true }
    ensures set { IfOk result (λ got. (option_set (state device.old).setup n asked.now ≡ Ok got)
        × ((state device.new).setup ≡ setup_after (state device.old).setup n got.0)) }
    ensures stop { IfErr result (λ stop. (stop ≡ no_memory)
        ⊎ ((status : AnyStatus) × (option_set (state device.old).setup n asked.now ≡ Err status)
        × (stop ≡ stop_by_status status))) }
    ensures rest { state device.new ≡ with_setup (state device.old) (state device.new).setup }
    ensures refusal { IfErr result (λ stop. IsRefusal stop) }
{
    match device.set(alloc, n, asked) {
        Ok(got) => Ok(got),
        Err(Status::NoMem) => Err(Stop::no_memory()),
        Err(status) => Err(stop_by_status(status)),
    }
}

/// Finds the option of a setting's name, reads its text, and sets the value.
#[tactic(auto, unfolding(crate::specs::Inside::put_one))]
fn put_setting(
    alloc: Global,
    device: &mut dyn Device,
    setting: &(Text, Text),
) -> Result<Report, Stop>
    requires { is_at_rest (state device.old).phase ≡ true }
    ensures put { IfOk result (λ report. put_one (state device.old).setup setting.now
        ≡ Ok ((state device.new).setup, report)) }
    ensures stop { IfErr result (λ stop. (stop ≡ no_memory)
        ⊎ (put_one (state device.old).setup setting.now ≡ Err stop)) }
    ensures rest { state device.new ≡ with_setup (state device.old) (state device.new).setup }
    ensures refusal { IfErr result (λ stop. IsRefusal stop) }
{
    let (name, text) = setting;
    let (n, descriptor) = find_option(alloc, &*device, name.as_bytes())?;
    let asked = read_text(alloc, &descriptor, text.as_bytes()).map_err(stop_unread)?;
    let name = name.try_clone(alloc)?;
    let (given, info) = set_option(alloc, device, n, &asked)?;
    Ok(Report {
        name,
        kind: descriptor.kind,
        asked,
        given,
        info,
    })
}

/// Puts the settings of a job, each after those before it, and reports each. The first that fails ends
/// the job.
pub fn put_settings(
    alloc: Global,
    device: &mut dyn Device,
    settings: &[(Text, Text)],
) -> Result<ItemList<Report>, Stop>
    requires { is_at_rest (state device.old).phase ≡ true }
    ensures put { IfOk result (λ reports. put_all (state device.old).setup settings.now
        ≡ Ok ((state device.new).setup, reports)) }
    ensures stop { IfErr result (λ stop. (stop ≡ no_memory)
        ⊎ (put_all (state device.old).setup settings.now ≡ Err stop)) }
    ensures rest { state device.new ≡ with_setup (state device.old) (state device.new).setup }
    ensures refusal { IfErr result (λ stop. IsRefusal stop) }
{
    let mut reports = Vec::with_capacity(alloc, settings.len())?;
    for setting in settings {
        reports.push(put_setting(alloc, device, setting)?)?;
    }
    Ok(ItemList::from_vec(reports))
}
