use page_sources::{FailingPage, MemoryPage, Source, read_page};
use std::alloc::Global;

/// The page of a file of so many dots per inch, in memory.
pub fn source(alloc: Global, file: &[u8], dpi: u32) -> Option<Source> {
    let page = read_page(alloc, file, dpi).ok()?;
    Some(Source::Memory(MemoryPage::new(page)))
}

/// The same page, of whose calls the one of that number fails, counted from 1.
pub fn failing_source(alloc: Global, file: &[u8], dpi: u32, call: u64) -> Option<Source> {
    let page = read_page(alloc, file, dpi).ok()?;
    Some(Source::Failing(FailingPage::new(page, call)))
}

/// A page of one place of that gray, at 26 dots per inch, where 1 mm is one dot.
pub fn dot(alloc: Global, gray: u8) -> Option<Source> {
    let mut file = *b"P5\n1 1\n255\n\x00";
    file[11] = gray;
    source(alloc, &file, 26)
}

/// A page for each of these grays.
pub fn dots(alloc: Global, grays: &[u8]) -> Option<Vec<Source>> {
    let mut pages = Vec::new(alloc);
    for gray in grays {
        pages.push(dot(alloc, *gray)?).ok()?;
    }
    Some(pages)
}
