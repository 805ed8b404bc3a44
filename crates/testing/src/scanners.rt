use crate::text;
use flatbed_dev::{Feeder, Flatbed};
use hand_dev::HandScanner;
use page_sources::Source;
use sane_fixed::ByteOrder;
use std::alloc::Global;
use threepass_dev::ThreePass;

/// A flatbed of that name on a page.
pub fn flatbed(alloc: Global, name: &[u8], page: Source, order: ByteOrder) -> Option<Flatbed> {
    Flatbed::new(alloc, text(alloc, name)?, page, order).ok()
}

/// A feeder of that name with these pages in its tray.
pub fn feeder(alloc: Global, name: &[u8], pages: Vec<Source>, order: ByteOrder) -> Option<Feeder> {
    Feeder::new(alloc, text(alloc, name)?, pages, order).ok()
}

/// A hand scanner of that name on a page.
pub fn hand_scanner(
    alloc: Global,
    name: &[u8],
    page: Source,
    order: ByteOrder,
) -> Option<HandScanner> {
    HandScanner::new(alloc, text(alloc, name)?, page, order).ok()
}

/// A three-pass scanner of that name on a page.
pub fn three_pass(alloc: Global, name: &[u8], page: Source, order: ByteOrder) -> Option<ThreePass> {
    ThreePass::new(alloc, text(alloc, name)?, page, order).ok()
}
