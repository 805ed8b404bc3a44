ghost use Rattle.std.specs.Prelude.{◌≡◌, ◌≤◌, ◌<◌, ◌+◌, ◌*◌, ◌^◌, ◌↔◌, true, false, drop, length, IfOk, IfErr, OnErr};
ghost use Rattle.page_sources.specs.KnownBytes.{FailsByReader};
ghost use Rattle.page_picture.specs.Source.{GivesRow, Rewinds};
ghost use Rattle.page_sources.specs.PnmState.{LosesRows};
ghost use Rattle.page_sources.specs.Inside.{FailsWithin, IsPageHeader, IsRaster, file_row_size, HasOpenFaultAfter, IsOfFile};

mod byte_samples;
mod channel_samples;

use crate::header_scan::HeaderScan;
use crate::open_fault::OpenFault;
use crate::page_file::PageFault;
use crate::raster_rows::{check_raster, read_row, room_size};
use crate::rereadable::Rereadable;
use netpbm::Header;
use page_picture::{PageSource, SourceFault};
use std::alloc::Global;
use std::marker::Model;

/// A page file (`P5` or `P6`), of which one row, or as many as 65,536 bytes hold, are in memory.
#[derive(Drop)]
pub struct PnmPage<R: Rereadable> {
    reader: R,
    header: Header,
    dpi: u32,
    // The place of the raster's first byte.
    start: u64,
    given: u32,
    // After a fault it is not known where the reader stands.
    is_lost: bool,
    failures: u64,
    // How many rows were read and are not given yet: the last of the room.
    held: u32,
    // Room for the bytes of one row or some.
    bytes: Vec<u8>,
}

impl<R: Rereadable> Model for PnmPage<R> {
    ghost use Rattle.std.specs.Prelude.{◌≡◌, ◌≤◌, ◌+◌, ◌*◌, true, false, drop, length};
    ghost use Rattle.page_sources.specs.PageFile.{IsDpi};
    ghost use Rattle.page_sources.specs.Inside.{IsPageHeader, IsRaster, page_shown, file_row_size, unused_bytes};
    ghost use Rattle.page_sources.specs.PnmState.{PnmState};

    ghost Value = { PnmState };

    ghost view = { λ p. record {
      shown = record {
        page = page_shown p.header p.dpi (drop p.start (R.text p.reader));
        given = p.given;
        steady = R.is_kept p.reader;
        infallible = false;
        failures = p.failures;
      };
      is_lost = p.is_lost;
      faults = R.faults p.reader;
    } };

    ghost invariant = { λ p. IsPageHeader p.header × IsDpi p.dpi
        × (p.given + p.held ≤ p.header.height)
        × (file_row_size p.header ≤ length p.bytes.items)
        × (p.held * file_row_size p.header ≤ length p.bytes.items)
        × (R.is_kept p.reader ≡ true → p.is_lost ≡ false
        → unused_bytes (file_row_size p.header) p.held p.bytes.items (R.left p.reader)
        ≡ drop (p.given * file_row_size p.header) (drop p.start (R.text p.reader)))
        × (R.is_kept p.reader ≡ true → IsRaster p.header (drop p.start (R.text p.reader))) };
}

/// No row of a page has more bytes: 16,384 places of three samples of two bytes.
const MOST_ROW: usize = 16384 * 3 * 2;

/// Reads the raster once through and goes back to its first byte. It gives room for one row or some.
fn check_file<R: Rereadable>(
    alloc: Global,
    reader: &mut R,
    header: &Header,
    start: u64,
    reads: u64,
) -> Result<Vec<u8>, OpenFault>
    requires { IsPageHeader header.now }
    ensures kept { R.is_kept reader.new ≡ R.is_kept reader.old }
    ensures text { R.text reader.new ≡ R.text reader.old }
    ensures room { IfOk result (λ bytes. file_row_size header.now ≤ length bytes.items) }
    ensures start { IfOk result (λ _. R.is_kept reader.old ≡ true
        → R.left reader.new ≡ drop start (R.text reader.old)) }
    ensures raster { IfOk result (λ _. R.is_kept reader.old ≡ true
        → IsRaster header.now (drop start (R.text reader.old))) }
    ensures worked { IfOk result (λ _. R.is_kept reader.old ≡ true
        → R.faults reader.new ≡ R.faults reader.old) }
    ensures failed { IfErr result (λ fault. fault ≡ OpenFault.Device
        → FailsWithin (R.is_kept reader.old) reads
        (R.text reader.old) (R.faults reader.old) (R.faults reader.new)) }
    ensures file { IfErr result (λ fault. IsOfFile fault) }
    ensures fault { IfErr result (λ fault. R.is_kept reader.old ≡ true
        → HasOpenFaultAfter fault header.now (drop start (R.text reader.old))) }
{
    let mut room = [0u8; MOST_ROW];
    if reader.start_from(start).is_err() {
        return Err(OpenFault::Device);
    }
    let mut reads = reads;
    check_raster(reader, header, &mut room, &mut reads)?;
    if reader.start_from(start).is_err() {
        return Err(OpenFault::Device);
    }
    // Memory is asked for last, so that its want stands in place of no other refusal.
    vec![in alloc; 0u8; room_size(header)].map_err(|_| OpenFault::Page(PageFault::NoMem))
}

impl<R: Rereadable> PnmPage<R> {
    ghost use Rattle.std.specs.Prelude.{◌≡◌, ◌↔◌, false, true, IfOk, IfErr};
    ghost use Rattle.page_sources.specs.PageFile.{TellsPage, IsDpi};
    ghost use Rattle.page_sources.specs.Opening.{HasOpenFault};

    /// Reads a page file once through, from its start, with room for one row or some, and takes it as a page of `dpi` dots per
    /// inch. It refuses as `read_page` does, or with `Device` where the reader failed or 2^40 reads were made, and then
    /// gives the reader back.
    pub fn open(alloc: Global, reader: R, dpi: u32) -> Result<Self, (OpenFault, R)>
        // The page is that of the text, where the reader keeps it.
        /// `PnmPage::open` takes exactly the page files that `read_page` takes, with the same refusals, and reads
        /// them row by row.
        /// Carried by: `found`, `fault` of `PnmPage::open`
        ensures found { IfOk result (λ source. R.is_kept reader ≡ true
            → TellsPage (R.text reader) dpi source.shown.page) }
        // It stands before its first row, without a failure.
        ensures begun { IfOk result (λ source. source.shown ≡ record {
          page = source.shown.page;
          given = 0;
          steady = R.is_kept reader;
          infallible = false;
          failures = 0;
        }) }
        ensures not_lost { IfOk result (λ source. source.is_lost ≡ false) }
        ensures fault { IfErr result (λ refused. R.is_kept reader ≡ true
            → HasOpenFault refused.0 (R.text reader) dpi) }
        /// Over a reader that keeps its bytes, it answers that it cannot be read only if a call of the reader failed, or 2^40
        /// reads do not go through the bytes twice. A row fails only then.
        /// Carried by: `device` of `PnmPage::open`; `failed` of `next_row`, `next_bytes` and `next_channel`
        ensures device { IfErr result (λ refused. refused.0 ≡ OpenFault.Device → FailsByReader
            (R.is_kept reader) (R.text reader) (R.faults reader) (R.faults refused.1)) }
        // What holds of every reader.
        ensures dots { IfOk result (λ source. source.shown.page.dpi ≡ dpi) }
        ensures bad_dots { IfErr result (λ refused. (refused.0 ≡ OpenFault.Page PageFault.BadDpi)
            ↔ ¬ IsDpi dpi) }
        ensures kept { IfErr result (λ refused. R.is_kept refused.1 ≡ R.is_kept reader) }
        ensures text { IfErr result (λ refused. R.text refused.1 ≡ R.text reader) }
    {
        if dpi < 1 || dpi > 1200 {
            return Err((OpenFault::Page(PageFault::BadDpi), reader));
        }
        let mut scan = match HeaderScan::begin(reader) {
            Ok(scan) => scan,
            Err(reader) => return Err((OpenFault::Device, reader)),
        };
        let header = match scan.page_header() {
            Ok(header) => header,
            Err(fault) => return Err((fault, scan.end().0)),
        };
        let (mut reader, start, reads) = scan.end();
        match check_file(alloc, &mut reader, &header, start, reads) {
            Ok(bytes) => Ok(PnmPage {
                reader,
                header,
                dpi,
                start,
                given: 0,
                is_lost: false,
                failures: 0,
                held: 0,
                bytes,
            }),
            Err(fault) => Err((fault, reader)),
        }
    }
}

impl<R: Rereadable> PnmPage<R> {
    ghost use Rattle.page_picture.specs.Source.{Fails};

    /// Counts a failure; the rows are lost until a rewind.
    fn fail(&mut self) -> SourceFault
        ensures fails { Fails self.old.shown self.new.shown }
        ensures lost { self.new.is_lost ≡ true }
        ensures faults { self.new.faults ≡ self.old.faults }
    {
        self.is_lost = true;
        self.failures = self.failures.saturating_add(1);
        SourceFault
    }
}

/// Over a file of the system nothing is known of the rows, and the rest holds.
/// Carried by: `PageSource` at `PnmPage`
impl<R: Rereadable + Drop> PageSource for PnmPage<R> {
    ghost source = { λ s. s.shown };

    fn size(&self) -> (u32, u32) {
        (self.header.width, self.header.height)
    }

    fn dpi(&self) -> u32 {
        self.dpi
    }

    fn failures(&self) -> u64 {
        self.failures
    }

    fn next_row(&mut self, row: &mut [u16]) -> Result<bool, SourceFault>
        requires { length row.old ≡ 3 * self.old.shown.page.width }
        ensures row { GivesRow self.old.shown result self.new.shown row.new }
        ensures lost { LosesRows result self.new }
        // Over a reader that keeps its bytes it fails only where a call of the reader does, or the rows are lost.
        ensures failed { OnErr result (self.old.shown.steady ≡ true
            → self.old.is_lost ≡ false → self.old.faults < self.new.faults) }
    {
        if self.is_lost {
            return Err(self.fail());
        }
        if self.given >= self.header.height {
            return Ok(false);
        }
        self.is_lost = true;
        let rows = self.header.height - self.given;
        match read_row(
            &mut self.reader,
            &self.header,
            rows,
            &mut self.held,
            &mut self.bytes,
            row,
        ) {
            Ok(()) => {
                self.is_lost = false;
                self.given += 1;
                Ok(true)
            }
            Err(_) => Err(self.fail()),
        }
    }

    fn rewind(&mut self) -> Result<(), SourceFault>
        ensures rewinds { Rewinds self.old.shown result self.new.shown }
        ensures lost { LosesRows result self.new }
        ensures failed { OnErr result (self.old.shown.steady ≡ true
            → self.old.faults < self.new.faults) }
    {
        self.is_lost = true;
        if self.reader.start_from(self.start).is_err() {
            return Err(self.fail());
        }
        self.is_lost = false;
        self.given = 0;
        self.held = 0;
        Ok(())
    }
}
