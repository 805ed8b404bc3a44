//! A page file gives the upper bytes of its rows, in gray or in color as it is, and the bytes of one channel.

ghost use Rattle.std.specs.Prelude.{◌≡◌, ◌≤◌, ◌<◌, ◌+◌, ◌*◌, ◌%◌, true, false, length, OnErr};
ghost use Rattle.page_picture.specs.Source.{GivesRowBytes, GivesChannel, byte_place, bytes_in, source_and_bytes};
ghost use Rattle.page_sources.specs.PnmState.{LosesRows};
ghost use Rattle.page_sources.specs.Inside.{HasSamplesOf};

use crate::pnm_page::PnmPage;
use crate::raster_rows::read_row_bytes;
use crate::rereadable::Rereadable;
use netpbm::{Header, PnmFormat};
use page_picture::{ByteRows, Mode, SampleBytes, SourceFault};

/// Whether the file has one sample for each place in gray, and three in color.
fn has_samples_of(header: &Header, mode: Mode) -> bool
    ensures own { result ≡ true → HasSamplesOf mode header.now }
    ensures other { result ≡ false → HasSamplesOf mode header.now → ⊥ }
{
    match (mode, header.format) {
        (Mode::Gray, PnmFormat::Pgm) | (Mode::Color, PnmFormat::Ppm) => true,
        _ => false,
    }
}

/// The place in a row of the first sample of a place.
fn first_sample(mode: Mode, place: u32) -> usize
    ensures { result ≡ byte_place mode place 0 }
{
    match mode {
        Mode::Gray => place as usize,
        Mode::Color => 3 * place as usize,
    }
}

impl<R: Rereadable + Drop> ByteRows for PnmPage<R> {
    fn next_bytes(&mut self, mode: Mode, first: u32, bytes: &mut [u8]) -> Result<bool, SourceFault>
        requires { byte_place mode first 0 + length bytes.old
            ≤ byte_place mode self.old.shown.page.width 0 }
        ensures bytes { GivesRowBytes mode first
            (source_and_bytes self.old.shown bytes.old) result
            (source_and_bytes self.new.shown bytes.new) }
        ensures lost { LosesRows result self.new }
        // As `next_row`: over a reader that keeps its bytes only where a call of the reader fails, or the rows are lost.
        ensures failed { OnErr result (self.old.shown.steady ≡ true
            → self.old.is_lost ≡ false → self.old.faults < self.new.faults) }
    {
        if self.is_lost {
            return Err(self.fail());
        }
        if self.given >= self.header.height || !has_samples_of(&self.header, mode) {
            return Ok(false);
        }
        self.is_lost = true;
        let rows = self.header.height - self.given;
        match read_row_bytes(
            &mut self.reader,
            &self.header,
            rows,
            &mut self.held,
            &mut self.bytes,
            first_sample(mode, first),
            bytes,
        ) {
            Ok(()) => {
                self.is_lost = false;
                self.given += 1;
                Ok(true)
            }
            Err(_) => Err(self.fail()),
        }
    }

    fn next_channel(
        &mut self,
        which: SampleBytes,
        channel: u32,
        first: u32,
        bytes: &mut [u8],
    ) -> Result<bool, SourceFault>
        requires channel { channel < 3 }
        requires whole { length bytes.old % bytes_in which ≡ 0 }
        requires inside { bytes_in which * first + length bytes.old
            ≤ bytes_in which * self.old.shown.page.width }
        ensures bytes { GivesChannel (record { which = which; channel = channel; first = first })
            (source_and_bytes self.old.shown bytes.old) result
            (source_and_bytes self.new.shown bytes.new) }
        ensures lost { LosesRows result self.new }
        // As `next_row`: over a reader that keeps its bytes only where a call of the reader fails, or the rows are lost.
        ensures failed { OnErr result (self.old.shown.steady ≡ true
            → self.old.is_lost ≡ false → self.old.faults < self.new.faults) }
    {
        self.give_channel(which, channel, first, bytes)
    }
}
