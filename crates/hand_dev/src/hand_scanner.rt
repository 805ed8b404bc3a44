ghost use Rattle.std.specs.Prelude.{◌≡◌, IfOk, IfErr};
ghost use Rattle.page_sources.specs.SourceView.{source_state};
ghost use Rattle.page_picture.specs.declared.scene.DeviceKind.TheVariants.{Hand as HandKind};
ghost use Rattle.virtual_scanner.specs.New.{new_scanner};

use device_api::{Device, DeviceInfo};
use option_desc::{Descriptor, Value};
use page_picture::DeviceKind;
use page_sources::Source;
use sane_fixed::{ByteOrder, Info, Params, Status, Text};
use std::alloc::Global;
use std::marker::Model;
use virtual_scanner::VirtualScanner;

/// A hand scanner: gray of 1 and 8 bits and color of 8 bits a sample, 75, 100, 150 or 300 dots per inch, 110 mm wide. It scans as
/// many lines as the page has, and tells their number only at the end. Contracts see a `DeviceState`.
#[derive(Drop)]
pub struct HandScanner {
    scanner: VirtualScanner,
}

impl Model for HandScanner {
    ghost use Rattle.device_api.specs.State.{DeviceState};

    ghost Value = { DeviceState };

    ghost view = { λ d. d.scanner };
}

impl HandScanner {
    /// A hand scanner of that name at rest, its options at their defaults, on the page of a source. The source comes back
    /// for lack of memory.
    pub fn new(alloc: Global, name: Text, source: Source, order: ByteOrder) -> Result<Self, Source>
        /// A hand scanner is a virtual scanner of that kind.
        ensures ok { IfOk result (λ made. made
            ≡ new_scanner HandKind name (source_state source) order) }
        ensures err { IfErr result (λ back. back ≡ source) }
    {
        let scanner = VirtualScanner::new(alloc, DeviceKind::Hand, name, source, order)?;
        Ok(HandScanner { scanner })
    }
}

impl Device for HandScanner {
    ghost state = { λ s. s };

    fn info(&self) -> &DeviceInfo {
        self.scanner.info()
    }

    fn order(&self) -> ByteOrder {
        self.scanner.order()
    }

    fn descriptors(&self, alloc: Global) -> Result<Vec<Descriptor>, Status> {
        self.scanner.descriptors(alloc)
    }

    fn reset(&mut self) {
        self.scanner.reset()
    }

    fn get(&self, alloc: Global, n: u32) -> Result<Value, Status> {
        self.scanner.get(alloc, n)
    }

    fn set(&mut self, alloc: Global, n: u32, value: &Value) -> Result<(Value, Info), Status> {
        self.scanner.set(alloc, n, value)
    }

    fn params(&self) -> Params {
        self.scanner.params()
    }

    fn start(&mut self, alloc: Global) -> Result<(), Status> {
        self.scanner.start(alloc)
    }

    fn read(&mut self, buf: &mut [u8]) -> Result<usize, Status> {
        self.scanner.read(buf)
    }

    fn cancel(&mut self) {
        self.scanner.cancel()
    }

    fn at_rest(&self) -> bool {
        self.scanner.at_rest()
    }

    fn load(&mut self, page: Source) -> Result<(), Source> {
        self.scanner.load(page)
    }
}
