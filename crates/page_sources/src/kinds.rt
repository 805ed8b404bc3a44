use crate::failing_page::FailingPage;
use crate::memory_page::MemoryPage;
use crate::pnm_page::PnmPage;
use page_picture::{ByteRows, Mode, PageSource, SampleBytes, SourceFault};
use std::fs::File;

/// The page sources that devices hold.
#[derive(Drop)]
pub enum Source {
    Memory(MemoryPage),
    Failing(FailingPage),
    /// Nothing is known of its rows, since a file tells nothing.
    Pnm(PnmPage<File>),
}

impl PageSource for Source {
    ghost use Rattle.page_sources.specs.SourceView.{source_state};

    ghost source = { source_state };

    fn size(&self) -> (u32, u32) {
        match self {
            Source::Memory(page) => page.size(),
            Source::Failing(page) => page.size(),
            Source::Pnm(page) => page.size(),
        }
    }

    fn dpi(&self) -> u32 {
        match self {
            Source::Memory(page) => page.dpi(),
            Source::Failing(page) => page.dpi(),
            Source::Pnm(page) => page.dpi(),
        }
    }

    fn failures(&self) -> u64 {
        match self {
            Source::Memory(page) => page.failures(),
            Source::Failing(page) => page.failures(),
            Source::Pnm(page) => page.failures(),
        }
    }

    fn next_row(&mut self, row: &mut [u16]) -> Result<bool, SourceFault> {
        match self {
            Source::Memory(page) => page.next_row(row),
            Source::Failing(page) => page.next_row(row),
            Source::Pnm(page) => page.next_row(row),
        }
    }

    fn rewind(&mut self) -> Result<(), SourceFault> {
        match self {
            Source::Memory(page) => page.rewind(),
            Source::Failing(page) => page.rewind(),
            Source::Pnm(page) => page.rewind(),
        }
    }
}

impl ByteRows for Source {
    fn next_bytes(
        &mut self,
        mode: Mode,
        first: u32,
        bytes: &mut [u8],
    ) -> Result<bool, SourceFault> {
        match self {
            Source::Memory(page) => page.next_bytes(mode, first, bytes),
            Source::Failing(page) => page.next_bytes(mode, first, bytes),
            Source::Pnm(page) => page.next_bytes(mode, first, bytes),
        }
    }

    fn next_channel(
        &mut self,
        which: SampleBytes,
        channel: u32,
        first: u32,
        bytes: &mut [u8],
    ) -> Result<bool, SourceFault> {
        match self {
            Source::Memory(page) => page.next_channel(which, channel, first, bytes),
            Source::Failing(page) => page.next_channel(which, channel, first, bytes),
            Source::Pnm(page) => page.next_channel(which, channel, first, bytes),
        }
    }
}
