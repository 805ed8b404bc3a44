use crate::no_mem::NoMem;
use crate::text::Text;
use std::alloc::Global;

/// What a scanner is (SANE Standard 1.06, "Device Descriptor Type").
#[derive(Debug, Drop)]
pub struct DeviceInfo {
    /// The name by which the device is opened.
    pub name: Text,
    pub vendor: Text,
    pub model: Text,
    /// The standard's type, as `flatbed scanner`.
    pub class: Text,
}

impl DeviceInfo {
    ghost use Rattle.std.specs.Prelude.{◌≡◌, IfOk};

    /// An equal description. The only error is out of memory.
    pub fn try_clone(&self, alloc: Global) -> Result<DeviceInfo, NoMem>
        ensures { IfOk result (λ copy. copy ≡ self.now) }
    {
        Ok(DeviceInfo {
            name: self.name.try_clone(alloc)?,
            vendor: self.vendor.try_clone(alloc)?,
            model: self.model.try_clone(alloc)?,
            class: self.class.try_clone(alloc)?,
        })
    }
}
