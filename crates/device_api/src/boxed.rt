use crate::device::Device;
use option_desc::{Descriptor, Value};
use page_sources::Source;
use sane_fixed::{ByteOrder, DeviceInfo, Info, Params, Status};
use std::alloc::Global;

/// A boxed scanner is the scanner.
///
/// A box of a device is the device.
/// Carried by: `impl Device for Box<dyn Device>`
impl Device for Box<dyn Device> {
    ghost state = { λ b. (Device-box b).state b.value };

    fn info(&self) -> &DeviceInfo {
        (**self).info()
    }

    fn order(&self) -> ByteOrder {
        (**self).order()
    }

    fn descriptors(&self, alloc: Global) -> Result<Vec<Descriptor>, Status> {
        (**self).descriptors(alloc)
    }

    fn reset(&mut self) {
        (**self).reset()
    }

    fn get(&self, alloc: Global, n: u32) -> Result<Value, Status> {
        (**self).get(alloc, n)
    }

    fn set(&mut self, alloc: Global, n: u32, value: &Value) -> Result<(Value, Info), Status> {
        (**self).set(alloc, n, value)
    }

    fn params(&self) -> Params {
        (**self).params()
    }

    fn start(&mut self, alloc: Global) -> Result<(), Status> {
        (**self).start(alloc)
    }

    fn read(&mut self, buf: &mut [u8]) -> Result<usize, Status> {
        (**self).read(buf)
    }

    fn cancel(&mut self) {
        (**self).cancel()
    }

    fn at_rest(&self) -> bool {
        (**self).at_rest()
    }

    fn load(&mut self, page: Source) -> Result<(), Source> {
        (**self).load(page)
    }
}
