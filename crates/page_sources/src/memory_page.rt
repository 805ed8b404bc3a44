ghost use Rattle.std.specs.Prelude.{◌≡◌};

use page_picture::{ByteRows, Mode, Page, PageSource, SampleBytes, SourceFault};
use std::marker::Model;

/// A page in memory: it never fails.
#[derive(Drop)]
pub struct MemoryPage {
    page: Page,
    given: u32,
}

impl Model for MemoryPage {
    ghost use Rattle.std.specs.Prelude.{◌≤◌, true};
    ghost use Rattle.page_picture.specs.Source.{SourceState};

    ghost Value = { SourceState };

    ghost view = { λ a. record { page = a.page; given = a.given; steady = true; infallible = true; failures = 0 } };

    ghost invariant = { λ a. a.given ≤ a.page.height };
}

impl MemoryPage {
    ghost use Rattle.std.specs.Prelude.{true};

    /// The page from its first row on.
    pub fn new(page: Page) -> Self
        ensures { result
            ≡ record { page = page; given = 0; steady = true; infallible = true; failures = 0 } }
    {
        MemoryPage { page, given: 0 }
    }
}

impl PageSource for MemoryPage {
    ghost source = { λ s. s };

    fn size(&self) -> (u32, u32) {
        let _ = self.page.dpi();
        (self.page.width(), self.page.height())
    }

    fn dpi(&self) -> u32 {
        self.page.dpi()
    }

    fn failures(&self) -> u64 {
        let _ = &self.given;
        0
    }

    fn next_row(&mut self, row: &mut [u16]) -> Result<bool, SourceFault> {
        if self.given >= self.page.height() {
            return Ok(false);
        }
        row.copy_from_slice(self.page.row(self.given));
        self.given += 1;
        Ok(true)
    }

    fn rewind(&mut self) -> Result<(), SourceFault> {
        self.given = 0;
        Ok(())
    }
}

/// A page in memory has samples of two bytes alone.
impl ByteRows for MemoryPage {
    fn next_bytes(
        &mut self,
        _mode: Mode,
        _first: u32,
        _bytes: &mut [u8],
    ) -> Result<bool, SourceFault> {
        Ok(false)
    }

    fn next_channel(
        &mut self,
        which: SampleBytes,
        _channel: u32,
        _first: u32,
        _bytes: &mut [u8],
    ) -> Result<bool, SourceFault> {
        match which {
            SampleBytes::Upper | SampleBytes::Both => Ok(false),
        }
    }
}
