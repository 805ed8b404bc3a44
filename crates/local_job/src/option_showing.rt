ghost use Rattle.std.specs.Prelude.{◌≡◌, Some, slice_get, IfOk, IfErr};
ghost use Rattle.device_api.specs.Options.{descriptors_of};
ghost use Rattle.scan_job.specs.Stops.{no_memory};
ghost use Rattle.local_job.specs.Showing.{options_with_values, value_reported};

use crate::local_stop::stop_by_status;
use device_api::Device;
use option_desc::{Descriptor, Value};
use scan_job::{ItemList, Stop, tells_value};
use std::alloc::Global;

/// The value of an option, where it has one to tell.
fn value_reported(
    alloc: Global,
    device: &dyn Device,
    n: u32,
    desc: &Descriptor,
) -> Result<Option<Value>, Stop>
    requires { slice_get (descriptors_of (state device.now).setup) n ≡ Some desc.now }
    ensures told { IfOk result (λ value. value
        ≡ value_reported (state device.now).setup n desc.now) }
    ensures refusal { IfErr result (λ stop. stop ≡ no_memory) }
{
    if !tells_value(desc) {
        return Ok(None);
    }
    match device.get(alloc, n) {
        Ok(value) => Ok(Some(value)),
        Err(status) => Err(stop_by_status(status)),
    }
}

/// The options as they stand, each with its value where it has one to tell. The only error is want of
/// memory.
pub fn show_options(
    alloc: Global,
    device: &dyn Device,
) -> Result<ItemList<(Descriptor, Option<Value>)>, Stop>
    ensures shown { IfOk result (λ options. options
        ≡ options_with_values (state device.now).setup) }
    ensures refusal { IfErr result (λ stop. stop ≡ no_memory) }
{
    let descriptors = device.descriptors(alloc).map_err(stop_by_status)?;
    let mut options = Vec::with_capacity(alloc, descriptors.len())?;
    for (n, desc) in descriptors.iter().enumerate() {
        let value = value_reported(alloc, device, n as u32, desc)?;
        options.push((desc.try_clone(alloc)?, value))?;
    }
    Ok(ItemList::from_vec(options))
}
