ghost use Rattle.std.specs.Prelude.{◌≡◌, ◌++◌, IfOk, OnOk};
ghost use Rattle.scanimage_cli.specs.DeviceList.{device_line, device_lines, net_prefix};

use device_api::DeviceInfo;
use sane_fixed::NoMem;
use std::alloc::Global;

/// What stands before the names of that host's devices.
pub fn net_prefix(alloc: Global, host: &[u8]) -> Result<Vec<u8>, NoMem>
    ensures { IfOk result (λ prefix. prefix.items ≡ net_prefix host.now) }
{
    let mut prefix = Vec::new(alloc);
    prefix.extend_from_slice(b"net:")?;
    prefix.extend_from_slice(host)?;
    prefix.extend_from_slice(b":")?;
    Ok(prefix)
}

/// Adds the line of a device, with these bytes before its name.
fn add_device(lines: &mut Vec<u8>, prefix: &[u8], info: &DeviceInfo) -> Result<(), NoMem>
    ensures { OnOk result (lines.new.items ≡ lines.old.items ++ device_line prefix.now info.now) }
{
    lines.extend_from_slice(b"device `")?;
    lines.extend_from_slice(prefix)?;
    lines.extend_from_slice(info.name.as_bytes())?;
    lines.extend_from_slice(b"' is a ")?;
    lines.extend_from_slice(info.vendor.as_bytes())?;
    lines.extend_from_slice(b" ")?;
    lines.extend_from_slice(info.model.as_bytes())?;
    lines.extend_from_slice(b" ")?;
    lines.extend_from_slice(info.class.as_bytes())?;
    lines.extend_from_slice(b"\n")?;
    Ok(())
}

/// The lines of `-L`, one for each device, with these bytes before each name: none for devices of this machine. The only
/// error is out of memory.
pub fn device_list(alloc: Global, prefix: &[u8], devices: &[DeviceInfo]) -> Result<Vec<u8>, NoMem>
    /// The text of a list, also over the net, and of an option table.
    /// Carried by: `device_list`, `net_prefix`, `options_table`
    ensures { IfOk result (λ lines. lines.items ≡ device_lines prefix.now devices.now) }
{
    let mut lines = Vec::new(alloc);
    for info in devices {
        add_device(&mut lines, prefix, info)?;
    }
    Ok(lines)
}
