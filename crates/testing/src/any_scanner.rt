use crate::text;
use page_picture::DeviceKind;
use page_sources::Source;
use sane_fixed::ByteOrder;
use std::alloc::Global;
use virtual_scanner::{TRAY_ROOM, VirtualScanner};

/// A scanner of any kind.
pub type AnyScanner = Box<VirtualScanner>;

fn boxed(alloc: Global, scanner: VirtualScanner) -> Option<AnyScanner> {
    Box::new(alloc, scanner).ok()
}

fn fed(alloc: Global, name: &[u8], pages: Vec<Source>, order: ByteOrder) -> Option<AnyScanner> {
    if pages.len() > TRAY_ROOM {
        return None;
    }
    let feeder = VirtualScanner::feeder(alloc, text(alloc, name)?, pages, order);
    boxed(alloc, feeder.ok()?)
}

/// A scanner of any kind and of that name, on these pages: on the last of them, if it is no feeder.
pub fn scanner(
    alloc: Global,
    kind: DeviceKind,
    name: &[u8],
    mut pages: Vec<Source>,
    order: ByteOrder,
) -> Option<AnyScanner> {
    match kind {
        DeviceKind::Feeder => fed(alloc, name, pages, order),
        DeviceKind::Flatbed | DeviceKind::Hand | DeviceKind::ThreePass => {
            let page = pages.pop()?;
            let scanner = VirtualScanner::new(alloc, kind, text(alloc, name)?, page, order);
            boxed(alloc, scanner.ok()?)
        }
    }
}
