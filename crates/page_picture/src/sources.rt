//! Where a virtual scanner reads the rows of its page from.

ghost use Rattle.std.specs.Prelude.{◌≡◌, ◌≤◌, ◌<◌, ◌+◌, ◌*◌, ◌%◌, true, length};
ghost use Rattle.page_picture.specs.Page.{IsShaped, IsPageView};
ghost use Rattle.page_picture.specs.Source.{SourceState, GivesRow, GivesRowBytes, GivesChannel, Rewinds, byte_place, bytes_in, source_and_bytes};

use crate::scene::Mode;
use thiserror::Error;

/// A source failed to give a row or to go back to the first; its count of failures tells so.
#[derive(Clone, Copy, Debug, PartialEq, Eq, Error)]
#[error("a row of the page cannot be read")]
pub struct SourceFault;

/// A page, row by row from the top.
pub trait PageSource: Drop {
    // The page, how many rows were given since the last rewind, whether they are the page's, whether a call can fail,
    // and the failures.
    ghost source: { Self → SourceState };

    /// The columns and the rows of the page, 1 to 16,384 each. They never change.
    fn size(&self) -> (u32, u32)
        ensures value { result ≡ ((source self.now).page.width, (source self.now).page.height) }
        ensures limits { IsShaped (source self.now).page }
        // The page of a source that gives its rows is one: its samples have 16 bits.
        ensures page_view { (source self.now).steady ≡ true → IsPageView (source self.now).page };

    /// The dots per inch of the page, 1 to 1,200. They never change.
    fn dpi(&self) -> u32
        ensures value { result ≡ (source self.now).page.dpi }
        ensures limits { IsShaped (source self.now).page };

    /// How often a call failed; the count stops at `u64::MAX`.
    fn failures(&self) -> u64
        ensures { result ≡ (source self.now).failures };

    /// Writes the next row, three samples for each place; false after the last row.
    fn next_row(&mut self, row: &mut [u16]) -> Result<bool, SourceFault>
        requires { length row.old ≡ 3 * (source self.old).page.width }
        /// A page source gives its page's rows in order, from the top after a rewind, where it is steady.
        /// Carried by: `PageSource`, at `MemoryPage`, `FailingPage`, `PnmPage`, `Source`
        ///
        /// It answers a fault only where it can fail at all, which a page in memory cannot, and where its count of
        /// failures rose or stood at its greatest.
        /// Carried by: `next_row`, `rewind` of `PageSource`; `next_bytes`, `next_channel` of `ByteRows`
        ensures { GivesRow (source self.old) result (source self.new) row.new };

    /// Starts the rows anew from the top, also after a fault.
    fn rewind(&mut self) -> Result<(), SourceFault>
        /// After a fault a rewind that succeeds starts the rows anew.
        /// Carried by: `rewind` of `PageSource`
        ensures { Rewinds (source self.old) result (source self.new) };
}

/// Which bytes of a sample are given.
#[derive(Clone, Copy, Debug, PartialEq, Eq)]
pub enum SampleBytes {
    /// The upper one alone.
    Upper,
    /// Both, the upper one first.
    Both,
}

/// A page of whose rows the upper bytes of the samples may be had alone: depths 1 and 8 show no more of them. So may the
/// bytes of one channel, which are all that a pass of one color shows.
pub trait ByteRows: PageSource {
    /// Writes the upper bytes of the next row, from place `first` on: one for each place in gray, three in color. False where
    /// the page gives none of that kind, and after the last row; nothing was done then. All of them must lie within the row.
    fn next_bytes(&mut self, mode: Mode, first: u32, bytes: &mut [u8]) -> Result<bool, SourceFault>
        requires { byte_place mode first 0 + length bytes.old
            ≤ byte_place mode (Self.source self.old).page.width 0 }
        /// A page source that gives a row's upper bytes gives those of the next row's samples. One that gives none has done
        /// nothing. The clauses do not say when it gives none.
        /// Carried by: `ByteRows`, at `MemoryPage`, `FailingPage`, `PnmPage`, `Source`
        ensures { GivesRowBytes mode first
            (source_and_bytes (Self.source self.old) bytes.old) result
            (source_and_bytes (Self.source self.new) bytes.new) };

    /// Writes the bytes of one channel of the next row's samples, from place `first` on. False where the page gives none of
    /// that kind, and after the last row; nothing was done then. All of them must be whole samples that lie within the row.
    fn next_channel(
        &mut self,
        which: SampleBytes,
        channel: u32,
        first: u32,
        bytes: &mut [u8],
    ) -> Result<bool, SourceFault>
        requires channel { channel < 3 }
        requires whole { length bytes.old % bytes_in which ≡ 0 }
        requires inside { bytes_in which * first + length bytes.old
            ≤ bytes_in which * (Self.source self.old).page.width }
        /// A page source that gives the bytes of one channel gives those of the next row's samples. One that gives none has done
        /// nothing. The clauses do not say when it gives none.
        /// Carried by: `next_channel` of `ByteRows`, at `MemoryPage`, `FailingPage`, `PnmPage`, `Source`
        ensures { GivesChannel (record { which = which; channel = channel; first = first })
            (source_and_bytes (Self.source self.old) bytes.old) result
            (source_and_bytes (Self.source self.new) bytes.new) };
}
