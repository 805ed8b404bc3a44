ghost use Rattle.std.specs.Prelude.{◌≡◌, ◌≤◌, false, map, vec_len, IfOk, IfErr};
ghost use Rattle.page_sources.specs.SourceView.{source_state};
ghost use Rattle.page_picture.specs.declared.scene.DeviceKind.TheVariants.{Feeder};
ghost use Rattle.device_api.specs.Kinds.{is_feeder};
ghost use Rattle.device_api.specs.State.{goes_to, after_stop, tray_room};
ghost use Rattle.virtual_scanner.specs.New.{device_info_of, new_device, new_scanner};

use crate::at::{At, after};
use crate::tray::{TRAY_ROOM, begin_frame, let_go, params_on, put_page, read_frame, see_limits};
use device_api::{Device, DeviceInfo, defaults, descriptors, get_option, reset_setup, set_option};
use option_desc::{Descriptor, Value};
use page_picture::{DeviceKind, PageSource};
use page_sources::Source;
use sane_fixed::{ByteOrder, Info, Params, Status, Text, TextFault};
use scan_frames::Setup;
use std::alloc::Global;
use std::marker::Model;

/// A virtual scanner: it keeps of its pages the sources alone, and while a frame is read one row and one line. Contracts
/// see a `DeviceState`.
///
/// A scanner of any of the four kinds meets the trait.
/// Carried by: `impl Device for VirtualScanner`
#[derive(Drop)]
pub struct VirtualScanner {
    info: DeviceInfo,
    setup: Setup,
    /// The pages; a feeder's has room for 16.
    tray: Vec<Source>,
    at: At,
}

impl Model for VirtualScanner {
    ghost use Rattle.device_api.specs.State.{DeviceState};

    ghost Value = { DeviceState };

    ghost use Rattle.virtual_scanner.specs.Inside.{ScannerInvariant, view_of};

    ghost view = { view_of };

    ghost invariant = { ScannerInvariant };
}

/// What a virtual scanner is.
fn device_info(alloc: Global, kind: DeviceKind, name: Text) -> Result<DeviceInfo, TextFault>
    ensures { IfOk result (λ info. info ≡ device_info_of kind name) }
{
    Ok(DeviceInfo {
        name,
        vendor: Text::new(alloc, b"Virtual")?,
        model: Text::new(alloc, device_api::model_name(kind))?,
        class: Text::new(alloc, device_api::class_name(kind))?,
    })
}

impl VirtualScanner {
    /// A scanner of that kind and name.
    pub fn new(
        alloc: Global,
        kind: DeviceKind,
        name: Text,
        source: Source,
        order: ByteOrder,
    ) -> Result<Self, Source>
        requires { is_feeder kind ≡ false }
        /// It is made at rest, with its options at their defaults, on the page of a source, which comes back for lack
        /// of memory.
        /// Carried by: `ok`, `err` of `VirtualScanner::new`
        ensures ok { IfOk result (λ scanner. scanner
            ≡ new_scanner kind name (source_state source) order) }
        ensures err { IfErr result (λ back. back ≡ source) }
    {
        let Ok(info) = device_info(alloc, kind, name) else {
            return Err(source);
        };
        // The limits of a page.
        let _size = source.size();
        let mut tray = Vec::new(alloc);
        tray.push(source).map_err(|failed| failed.value)?;
        Ok(VirtualScanner {
            info,
            setup: defaults(kind, order),
            tray,
            at: At::Rest(false),
        })
    }

    /// A feeder of that name at rest, its options at their defaults, with at most 16 pages in its tray. The sources come
    /// back for lack of memory.
    pub fn feeder(
        alloc: Global,
        name: Text,
        pages: Vec<Source>,
        order: ByteOrder,
    ) -> Result<Self, Vec<Source>>
        requires { vec_len pages ≤ tray_room }
        /// A feeder has a tray of at most 16 pages, whose room is reserved as it is made, and lets go of the first
        /// when its scan is over.
        ensures ok { IfOk result (λ scanner. scanner
            ≡ new_device Feeder name (map source_state pages.items) order) }
        ensures err { IfErr result (λ back. back.items ≡ pages.items) }
    {
        let mut tray = pages;
        see_limits(&tray);
        if tray.reserve(TRAY_ROOM - tray.len()).is_err() {
            return Err(tray);
        }
        let Ok(info) = device_info(alloc, DeviceKind::Feeder, name) else {
            return Err(tray);
        };
        Ok(VirtualScanner {
            info,
            setup: defaults(DeviceKind::Feeder, order),
            tray,
            at: At::Rest(false),
        })
    }

    /// Where the scan is over, a feeder lets go of the page that was scanned.
    fn settle(&mut self)
        ensures { self.new ≡ goes_to self.old self.old.phase }
    {
        match self.at {
            At::Rest(_) => let_go(self.setup.scene.kind, &mut self.tray),
            At::Between(_) | At::Reading(_) => {}
        }
    }

    /// No scan is under way after a start that was refused.
    fn stop(&mut self)
        ensures { self.new ≡ after_stop self.old }
    {
        match self.at {
            At::Rest(_) => self.at = At::Rest(false),
            At::Between(_) | At::Reading(_) => {
                self.at = At::Rest(false);
                self.settle();
            }
        }
    }
}

impl Device for VirtualScanner {
    ghost state = { λ s. s };

    fn info(&self) -> &DeviceInfo {
        &self.info
    }

    fn order(&self) -> ByteOrder {
        self.setup.order
    }

    fn descriptors(&self, alloc: Global) -> Result<Vec<Descriptor>, Status> {
        Ok(descriptors(alloc, &self.setup)?)
    }

    fn reset(&mut self) {
        self.cancel();
        reset_setup(&mut self.setup);
        self.at = At::Rest(false);
    }

    fn get(&self, alloc: Global, n: u32) -> Result<Value, Status> {
        get_option(alloc, &self.setup, n)
    }

    fn set(&mut self, alloc: Global, n: u32, value: &Value) -> Result<(Value, Info), Status> {
        match self.at {
            At::Rest(_) => set_option(alloc, &mut self.setup, n, value),
            At::Between(_) | At::Reading(_) => Err(Status::DeviceBusy),
        }
    }

    fn params(&self) -> Params {
        params_on(&self.tray, &self.setup, self.at.reported_pass())
    }

    fn start(&mut self, alloc: Global) -> Result<(), Status> {
        let Some(pass) = self.at.pass_to_start() else {
            return Err(Status::DeviceBusy);
        };
        if self.tray.is_empty() {
            self.stop();
            return Err(Status::NoDocs);
        }
        match begin_frame(alloc, &mut self.tray, &self.setup, pass) {
            Ok(frame) => {
                self.at = At::Reading(frame);
                Ok(())
            }
            Err(fault) => {
                self.stop();
                Err(Status::from(fault))
            }
        }
    }

    fn read(&mut self, buf: &mut [u8]) -> Result<usize, Status> {
        match &mut self.at {
            At::Rest(cancelled) => Err(if *cancelled {
                Status::Cancelled
            } else {
                Status::Inval
            }),
            At::Between(_) => Err(Status::Inval),
            At::Reading(frame) => {
                let pass = frame.pass();
                match read_frame(frame, &mut self.tray, &self.setup, buf) {
                    Ok(n) => Ok(n),
                    Err(status) => {
                        self.at = after(&self.setup, pass, status);
                        self.settle();
                        Err(status)
                    }
                }
            }
        }
    }

    fn cancel(&mut self) {
        match self.at {
            At::Rest(_) => {}
            At::Between(_) | At::Reading(_) => {
                self.at = At::Rest(true);
                self.settle();
            }
        }
    }

    fn at_rest(&self) -> bool {
        matches!(self.at, At::Rest(_))
    }

    fn load(&mut self, page: Source) -> Result<(), Source> {
        match self.at {
            At::Rest(_) => put_page(self.setup.scene.kind, &mut self.tray, page),
            At::Between(_) | At::Reading(_) => Err(page),
        }
    }
}
