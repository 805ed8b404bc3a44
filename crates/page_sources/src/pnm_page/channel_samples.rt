//! A page file in color gives the bytes of one channel of its rows, where the bytes of a sample are those of its number.

ghost use Rattle.std.specs.Prelude.{◌≡◌, ◌≤◌, ◌<◌, ◌+◌, ◌*◌, ◌%◌, true, false, length, OnErr};
ghost use Rattle.page_picture.specs.Source.{GivesChannel, bytes_in, source_and_bytes};
ghost use Rattle.page_sources.specs.PnmState.{LosesRows};
ghost use Rattle.page_sources.specs.Inside.{HasChannels};

use crate::pnm_page::PnmPage;
use crate::raster_rows::read_row_thirds;
use crate::rereadable::Rereadable;
use netpbm::{Header, PnmFormat};
use page_picture::{SampleBytes, SourceFault};

/// Whether the file has three samples for each place, and the bytes of a sample are those of its number.
fn has_channels(header: &Header, which: SampleBytes) -> bool
    ensures own { result ≡ true → HasChannels which header.now }
    ensures other { result ≡ false → HasChannels which header.now → ⊥ }
{
    match (which, header.format, header.maxval) {
        (SampleBytes::Upper, PnmFormat::Ppm, 255) | (SampleBytes::Both, PnmFormat::Ppm, 65535) => {
            true
        }
        _ => false,
    }
}

impl<R: Rereadable> PnmPage<R> {
    /// Writes the bytes of one channel of the next row's samples, as `next_channel` of `ByteRows` says it.
    pub(crate) fn give_channel(
        &mut self,
        which: SampleBytes,
        channel: u32,
        first: u32,
        bytes: &mut [u8],
    ) -> Result<bool, SourceFault>
        requires channel { channel < 3 }
        requires whole { length bytes.old % bytes_in which ≡ 0 }
        requires inside { bytes_in which * first + length bytes.old
            ≤ bytes_in which * self.old.shown.page.width }
        ensures bytes { GivesChannel (record { which = which; channel = channel; first = first })
            (source_and_bytes self.old.shown bytes.old) result
            (source_and_bytes self.new.shown bytes.new) }
        ensures lost { LosesRows result self.new }
        // As `next_row`: over a reader that keeps its bytes only where a call of the reader fails, or the rows are lost.
        ensures failed { OnErr result (self.old.shown.steady ≡ true
            → self.old.is_lost ≡ false → self.old.faults < self.new.faults) }
    {
        if self.is_lost {
            return Err(self.fail());
        }
        if self.given >= self.header.height || !has_channels(&self.header, which) {
            return Ok(false);
        }
        self.is_lost = true;
        let rows = self.header.height - self.given;
        match read_row_thirds(
            &mut self.reader,
            &self.header,
            rows,
            &mut self.held,
            &mut self.bytes,
            3 * first as usize + channel as usize,
            bytes,
        ) {
            Ok(()) => {
                self.is_lost = false;
                self.given += 1;
                Ok(true)
            }
            Err(_) => Err(self.fail()),
        }
    }
}
