ghost use Rattle.std.specs.Prelude.{◌≡◌, ◌*◌, length};
ghost use Rattle.page_picture.specs.Source.{GivesRow, Rewinds};
ghost use Rattle.page_sources.specs.Failing.{CountsCall};

use page_picture::{ByteRows, Mode, Page, PageSource, SampleBytes, SourceFault};
use std::marker::Model;

/// A page in memory of which one call of `next_row` and `rewind` fails.
#[derive(Drop)]
pub struct FailingPage {
    page: Page,
    given: u32,
    refused: u64,
    calls: u64,
    failures: u64,
}

impl Model for FailingPage {
    ghost use Rattle.std.specs.Prelude.{◌≤◌, ◌==◌, true};
    ghost use Rattle.page_sources.specs.Failing.{FailingState};

    ghost Value = { FailingState };

    ghost view = { λ a. record {
      shown = record { page = a.page; given = a.given; steady = true; infallible = a.refused == 0; failures = a.failures };
      calls = a.calls;
      refused = a.refused;
    } };

    ghost invariant = { λ a. (a.given ≤ a.page.height) × (a.failures ≤ a.calls) };
}

impl FailingPage {
    ghost use Rattle.std.specs.Prelude.{◌==◌, true, OnOk, OnErr};
    ghost use Rattle.page_picture.specs.Source.{Fails};

    /// The page from its first row on. The n-th call of `next_row` and `rewind`, counted together from 1, is refused;
    /// with 0 none is.
    pub fn new(page: Page, n: u64) -> Self
        ensures { result ≡ record {
          shown = record {
            page = page;
            given = 0;
            steady = true;
            infallible = n == 0;
            failures = 0;
          };
          calls = 0;
          refused = n;
        } }
    {
        FailingPage {
            page,
            given: 0,
            refused: n,
            calls: 0,
            failures: 0,
        }
    }

    /// Counts a call, and refuses it where it is the one.
    fn count_call(&mut self) -> Result<(), SourceFault>
        ensures counted { CountsCall self.old result self.new }
        ensures ok { OnOk result (self.new.shown ≡ self.old.shown) }
        ensures err { OnErr result (Fails self.old.shown self.new.shown) }
    {
        if self.calls < u64::MAX {
            self.calls += 1;
            if self.calls == self.refused {
                self.failures += 1;
                return Err(SourceFault);
            }
        }
        Ok(())
    }
}

impl PageSource for FailingPage {
    ghost source = { λ s. s.shown };

    fn size(&self) -> (u32, u32) {
        let _ = self.page.dpi();
        (self.page.width(), self.page.height())
    }

    fn dpi(&self) -> u32 {
        self.page.dpi()
    }

    fn failures(&self) -> u64 {
        self.failures
    }

    fn next_row(&mut self, row: &mut [u16]) -> Result<bool, SourceFault>
        requires { length row.old ≡ 3 * self.old.shown.page.width }
        ensures row { GivesRow self.old.shown result self.new.shown row.new }
        ensures counted { CountsCall self.old result self.new }
    {
        self.count_call()?;
        if self.given >= self.page.height() {
            return Ok(false);
        }
        row.copy_from_slice(self.page.row(self.given));
        self.given += 1;
        Ok(true)
    }

    fn rewind(&mut self) -> Result<(), SourceFault>
        ensures rewinds { Rewinds self.old.shown result self.new.shown }
        ensures counted { CountsCall self.old result self.new }
    {
        self.count_call()?;
        self.given = 0;
        Ok(())
    }
}

/// A page in memory has samples of two bytes alone; so these calls never count.
impl ByteRows for FailingPage {
    fn next_bytes(
        &mut self,
        _mode: Mode,
        _first: u32,
        _bytes: &mut [u8],
    ) -> Result<bool, SourceFault> {
        Ok(false)
    }

    fn next_channel(
        &mut self,
        which: SampleBytes,
        _channel: u32,
        _first: u32,
        _bytes: &mut [u8],
    ) -> Result<bool, SourceFault> {
        match which {
            SampleBytes::Upper | SampleBytes::Both => Ok(false),
        }
    }
}
