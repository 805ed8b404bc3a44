ghost use Rattle.std.specs.Prelude.{◌≡◌, map, vec_len, IfOk, IfErr};
ghost use Rattle.page_sources.specs.SourceView.{source_state};
ghost use Rattle.page_picture.specs.declared.scene.DeviceKind.TheVariants.{Feeder as FeederKind};
ghost use Rattle.virtual_scanner.specs.New.{new_device};
ghost use Rattle.flatbed_dev.specs.FeederFault.{HasFeederFault};

use device_api::{Device, DeviceInfo};
use option_desc::{Descriptor, Value};
use page_sources::Source;
use sane_fixed::{ByteOrder, Info, Params, Status, Text};
use std::alloc::Global;
use std::marker::Model;
use thiserror::Error;
use virtual_scanner::{TRAY_ROOM, VirtualScanner};

/// Why a feeder is not made.
#[derive(Clone, Copy, Debug, PartialEq, Eq, Error)]
pub enum FeederFault {
    /// More than 16 pages were handed in.
    #[error("more than 16 pages")]
    TooMany = 1,
    #[error("out of memory")]
    NoMem = 2,
}

const _: () = prove!(FeederFault::TooMany as u32 == 1);

const _: () = prove!(FeederFault::NoMem as u32 == 2);

/// A flatbed to which pages are fed from a tray of at most 16, one for each scan. Contracts see a `DeviceState`.
#[derive(Drop)]
pub struct Feeder {
    scanner: VirtualScanner,
}

impl Model for Feeder {
    ghost use Rattle.device_api.specs.State.{DeviceState};

    ghost Value = { DeviceState };

    ghost view = { λ f. f.scanner };
}

impl Feeder {
    /// A feeder of that name at rest, its options at their defaults, with these pages in its tray, the first of which is
    /// scanned first. Where it is refused, or memory runs out, the sources come back.
    pub fn new(
        alloc: Global,
        name: Text,
        pages: Vec<Source>,
        order: ByteOrder,
    ) -> Result<Self, (FeederFault, Vec<Source>)>
        ensures ok { IfOk result (λ feeder. feeder
            ≡ new_device FeederKind name (map source_state pages.items) order) }
        ensures fault { IfErr result (λ e. HasFeederFault e.0 (vec_len pages)) }
        ensures given_back { IfErr result (λ e. e.1.items ≡ pages.items) }
    {
        if pages.len() > TRAY_ROOM {
            return Err((FeederFault::TooMany, pages));
        }
        match VirtualScanner::feeder(alloc, name, pages, order) {
            Ok(scanner) => Ok(Feeder { scanner }),
            Err(pages) => Err((FeederFault::NoMem, pages)),
        }
    }
}

impl Device for Feeder {
    ghost state = { λ s. s };

    fn info(&self) -> &DeviceInfo {
        self.scanner.info()
    }

    fn order(&self) -> ByteOrder {
        self.scanner.order()
    }

    fn descriptors(&self, alloc: Global) -> Result<Vec<Descriptor>, Status> {
        self.scanner.descriptors(alloc)
    }

    fn reset(&mut self) {
        self.scanner.reset()
    }

    fn get(&self, alloc: Global, n: u32) -> Result<Value, Status> {
        self.scanner.get(alloc, n)
    }

    fn set(&mut self, alloc: Global, n: u32, value: &Value) -> Result<(Value, Info), Status> {
        self.scanner.set(alloc, n, value)
    }

    fn params(&self) -> Params {
        self.scanner.params()
    }

    fn start(&mut self, alloc: Global) -> Result<(), Status> {
        self.scanner.start(alloc)
    }

    fn read(&mut self, buf: &mut [u8]) -> Result<usize, Status> {
        self.scanner.read(buf)
    }

    fn cancel(&mut self) {
        self.scanner.cancel()
    }

    fn at_rest(&self) -> bool {
        self.scanner.at_rest()
    }

    fn load(&mut self, page: Source) -> Result<(), Source> {
        self.scanner.load(page)
    }
}
