ghost use Rattle.std.specs.Prelude.{◌≡◌, IfOk};

use crate::scanner::VirtualScanner;
use device_api::Device;
use option_desc::{Descriptor, Value};
use page_sources::Source;
use sane_fixed::{ByteOrder, DeviceInfo, Info, NoMem, Params, Status};
use std::alloc::Global;
use std::marker::Model;

/// A virtual scanner behind a pointer, as tables of devices, their leases and sessions hand it on by value. Contracts see a
/// `DeviceState`.
#[derive(Drop)]
pub struct Scanner {
    device: Box<VirtualScanner>,
}

impl Model for Scanner {
    ghost use Rattle.device_api.specs.State.{DeviceState};

    ghost Value = { DeviceState };

    ghost view = { λ s. s.device.value };
}

impl Scanner {
    /// That scanner, behind a pointer; `NoMem` where there is no memory for it.
    pub fn new(alloc: Global, device: VirtualScanner) -> Result<Scanner, NoMem>
        /// A scanner behind a pointer is the scanner, and does what it does.
        /// Carried by: `Scanner::new`, `impl Device for Scanner`
        ensures { IfOk result (λ scanner. scanner ≡ device) }
    {
        match Box::new(alloc, device) {
            Ok(device) => Ok(Scanner { device }),
            Err(_) => Err(NoMem),
        }
    }
}

impl Device for Scanner {
    ghost state = { λ s. s };

    fn info(&self) -> &DeviceInfo {
        self.device.info()
    }

    fn order(&self) -> ByteOrder {
        self.device.order()
    }

    fn descriptors(&self, alloc: Global) -> Result<Vec<Descriptor>, Status> {
        self.device.descriptors(alloc)
    }

    fn reset(&mut self) {
        self.device.reset()
    }

    fn get(&self, alloc: Global, n: u32) -> Result<Value, Status> {
        self.device.get(alloc, n)
    }

    fn set(&mut self, alloc: Global, n: u32, value: &Value) -> Result<(Value, Info), Status> {
        self.device.set(alloc, n, value)
    }

    fn params(&self) -> Params {
        self.device.params()
    }

    fn start(&mut self, alloc: Global) -> Result<(), Status> {
        self.device.start(alloc)
    }

    fn read(&mut self, buf: &mut [u8]) -> Result<usize, Status> {
        self.device.read(buf)
    }

    fn cancel(&mut self) {
        self.device.cancel()
    }

    fn at_rest(&self) -> bool {
        self.device.at_rest()
    }

    fn load(&mut self, page: Source) -> Result<(), Source> {
        self.device.load(page)
    }
}
