ghost use Rattle.std.specs.Prelude.{◌≡◌, ◌≤◌, ◌<◌, ◌*◌, ◌^◌, ◌++◌, ◌+◌, [], length, drop, true, false, IfOk, IfSome, IfNone, IfErr, IsSome, OnOk, OnErr};
ghost use Rattle.netpbm.specs.HeaderReading.{after_filler, number_at, field_at, format_of};
ghost use Rattle.page_sources.specs.KnownBytes.{FailsByReader};
ghost use Rattle.page_sources.specs.PageFile.{BeginsPage};
ghost use Rattle.page_sources.specs.Inside.{rest_of, from_hand, digit_in, Finds, FindsHeader, HasHeaderLimits, header_from, IsPageHeader, HasHeaderFault, IsOfFile};

use crate::open_fault::OpenFault;
use crate::page_file::{PageFault, is_page_format};
use crate::read_fault::{MOST_READS, ReadFault};
use crate::read_room::ReadRoom;
use crate::rereadable::Rereadable;
use netpbm::{Header, PnmFormat, ends_comment, format_of, is_white};
use std::marker::Model;

/// A number, and the byte that was read after it; none at the end.
type Number = (u64, Option<u8>);

/// What the digit in hand stands for.
fn digit_in(hand: Option<u8>) -> Option<u64>
    ensures value { result ≡ digit_in hand }
    ensures limit { IfSome result (λ digit. digit < 10) }
{
    match hand {
        Some(byte) if byte.is_ascii_digit() => Some(u64::from(byte - b'0')),
        _ => None,
    }
}

/// The next byte, none at the end. A read that finds the end is not counted, and it is the last.
fn next_byte<R: Rereadable>(
    reader: &mut R,
    waiting: &mut ReadRoom,
    reads: &mut u64,
) -> Result<Option<u8>, ReadFault>
    requires few { reads.old ≤ 2 ^ 40 }
    ensures few { reads.new ≤ 2 ^ 40 }
    ensures size { length waiting.new + 4096 * reads.old ≤ length waiting.old + 4096 * reads.new }
    // Each read that is counted gave a byte.
    ensures some { IfOk result
        (λ b. IfSome b (λ _. reads.new + length waiting.old ≤ reads.old + length waiting.new + 1)) }
    ensures none { IfOk result
        (λ b. IfNone b (reads.new + length waiting.old ≤ reads.old + length waiting.new)) }
    ensures refused { OnErr result (reads.new + length waiting.old
        ≤ reads.old + length waiting.new) }
    ensures used { IfOk result (λ b. IfSome b (λ _. length waiting.new + 1 + 4096 * reads.old
        ≤ length waiting.old + 4096 * reads.new)) }
    ensures kept { R.is_kept reader.new ≡ R.is_kept reader.old }
    ensures text { R.text reader.new ≡ R.text reader.old }
    ensures ok { R.is_kept reader.old ≡ true → IfOk result (λ b. waiting.old
        ++ R.left reader.old ≡ from_hand b (waiting.new ++ R.left reader.new)) }
    ensures end { R.is_kept reader.old ≡ true
        → IfOk result (λ b. IfNone b (waiting.new ++ R.left reader.new ≡ [])) }
    ensures worked { OnOk result (R.is_kept reader.old ≡ true
        → R.faults reader.new ≡ R.faults reader.old) }
    ensures failed { OnErr result (R.is_kept reader.old ≡ true
        → reads.old < 2 ^ 40 → R.faults reader.old < R.faults reader.new) }
    ensures err { R.is_kept reader.old ≡ true
        → OnErr result (waiting.new ++ R.left reader.new ≡ waiting.old ++ R.left reader.old) }
{
    if let Some(byte) = waiting.take() {
        return Ok(Some(byte));
    }
    if *reads >= MOST_READS {
        return Err(ReadFault);
    }
    match waiting.fill(reader) {
        Ok(0) => Ok(None),
        Ok(_) => {
            *reads += 1;
            Ok(waiting.take())
        }
        Err(_) => Err(ReadFault),
    }
}

/// Reads the header of a page file byte by byte, since its comments may be of any length.
#[derive(Drop)]
pub struct HeaderScan<R: Rereadable> {
    reader: R,
    waiting: ReadRoom,
    at: u64,
    reads: u64,
}

impl<R: Rereadable> Model for HeaderScan<R> {
    ghost use Rattle.std.specs.Prelude.{◌≡◌, ◌≤◌, ◌<◌, ◌*◌, ◌^◌, ◌++◌, ◌+◌, true, drop, length};
    ghost use Rattle.page_sources.specs.Inside.{HeaderScanState};

    ghost Value = { HeaderScanState };

    ghost view = { λ s. record { kept = R.is_kept s.reader; text = R.text s.reader; at = s.at; faults = R.faults s.reader } };

    ghost invariant = { λ s. (s.reads ≤ 2 ^ 40) × (s.at + length s.waiting ≤ 4096 * s.reads) × (s.reads ≤ s.at + length s.waiting)
        × (R.is_kept s.reader ≡ true → s.at + length (s.waiting ++ R.left s.reader) ≡ length (R.text s.reader))
        × (R.is_kept s.reader ≡ true → drop s.at (R.text s.reader) ≡ s.waiting ++ R.left s.reader) };
}

impl<R: Rereadable> HeaderScan<R> {
    /// The next byte, none at the end.
    fn next(&mut self) -> Result<Option<u8>, ReadFault>
        ensures same { self.new ≡ record self.old { at = self.new.at; faults = self.new.faults } }
        ensures worked { OnOk result (self.old.kept ≡ true → self.new.faults ≡ self.old.faults) }
        ensures failed { OnErr result
            (FailsByReader self.old.kept self.old.text self.old.faults self.new.faults) }
        ensures byte { IfOk result (λ b. self.old.kept ≡ true
            → from_hand b (rest_of self.new) ≡ rest_of self.old) }
        ensures on { IfOk result (λ b. IfSome b (λ _. self.new.at ≡ self.old.at + 1)) }
        ensures limit { self.new.at ≤ 2 ^ 52 }
    {
        match next_byte(&mut self.reader, &mut self.waiting, &mut self.reads)? {
            Some(byte) => {
                self.at += 1;
                Ok(Some(byte))
            }
            None => Ok(None),
        }
    }

    /// What the first two bytes tell.
    pub fn format(&mut self) -> Result<Option<PnmFormat>, ReadFault>
        ensures same { self.new ≡ record self.old { at = self.new.at; faults = self.new.faults } }
        ensures worked { OnOk result (self.old.kept ≡ true → self.new.faults ≡ self.old.faults) }
        ensures failed { OnErr result
            (FailsByReader self.old.kept self.old.text self.old.faults self.new.faults) }
        ensures format { IfOk result (λ format. self.old.kept ≡ true
            → format ≡ format_of (rest_of self.old)) }
        ensures rest { IfOk result (λ format. self.old.kept ≡ true
            → IsSome format → rest_of self.new ≡ drop 2 (rest_of self.old)) }
    {
        let Some(first) = self.next()? else {
            return Ok(None);
        };
        let Some(second) = self.next()? else {
            return Ok(None);
        };
        Ok(format_of(&[first, second]))
    }

    /// The byte after the white space and the comments.
    fn after_filler(&mut self) -> Result<Option<u8>, ReadFault>
        ensures same { self.new ≡ record self.old { at = self.new.at; faults = self.new.faults } }
        ensures worked { OnOk result (self.old.kept ≡ true → self.new.faults ≡ self.old.faults) }
        ensures failed { OnErr result
            (FailsByReader self.old.kept self.old.text self.old.faults self.new.faults) }
        ensures byte { IfOk result (λ hand. self.old.kept ≡ true
            → from_hand hand (rest_of self.new) ≡ after_filler false (rest_of self.old)) }
    {
        let mut in_comment = false;
        for _used in 0..u64::MAX {
            match self.next()? {
                None => return Ok(None),
                Some(byte) if in_comment => in_comment = !ends_comment(byte),
                Some(byte) if is_white(byte) => {}
                Some(b'#') => in_comment = true,
                Some(byte) => return Ok(Some(byte)),
            }
        }
        Err(ReadFault)
    }

    /// A number of 1 to 10 digits from the byte in hand on.
    fn number(&mut self, hand: Option<u8>) -> Result<Option<Number>, ReadFault>
        ensures same { self.new ≡ record self.old { at = self.new.at; faults = self.new.faults } }
        ensures worked { OnOk result (self.old.kept ≡ true → self.new.faults ≡ self.old.faults) }
        ensures failed { OnErr result
            (FailsByReader self.old.kept self.old.text self.old.faults self.new.faults) }
        ensures number { IfOk result (λ found. self.old.kept ≡ true
            → Finds (number_at (from_hand hand (rest_of self.old))) found (rest_of self.new)) }
    {
        let mut value = 0u64;
        let mut hand = hand;
        for count in 0..11u32 {
            let Some(digit) = digit_in(hand) else {
                if count == 0 {
                    return Ok(None);
                }
                return Ok(Some((value, hand)));
            };
            value = value * 10 + digit;
            hand = self.next()?;
        }
        Ok(None)
    }

    /// A gap and a number from the byte in hand on.
    #[tactic(auto, unfolding(netpbm::specs::HeaderReading::field_at))]
    fn field(&mut self, hand: Option<u8>) -> Result<Option<Number>, ReadFault>
        ensures same { self.new ≡ record self.old { at = self.new.at; faults = self.new.faults } }
        ensures worked { OnOk result (self.old.kept ≡ true → self.new.faults ≡ self.old.faults) }
        ensures failed { OnErr result
            (FailsByReader self.old.kept self.old.text self.old.faults self.new.faults) }
        ensures field { IfOk result (λ found. self.old.kept ≡ true
            → Finds (field_at (from_hand hand (rest_of self.old))) found (rest_of self.new)) }
    {
        match hand {
            Some(byte) if is_white(byte) => {
                let first = self.after_filler()?;
                self.number(first)
            }
            _ => Ok(None),
        }
    }

    /// The header of a page file, behind its first two bytes, which tell the format.
    #[tactic(auto, unfolding(crate::specs::Inside::header_from, netpbm::specs::HeaderReading::end_at))]
    pub fn header(&mut self, format: PnmFormat) -> Result<Option<Header>, ReadFault>
        ensures same { self.new ≡ record self.old { at = self.new.at; faults = self.new.faults } }
        ensures worked { OnOk result (self.old.kept ≡ true → self.new.faults ≡ self.old.faults) }
        ensures failed { OnErr result
            (FailsByReader self.old.kept self.old.text self.old.faults self.new.faults) }
        ensures header { IfOk result (λ found. self.old.kept ≡ true
            → FindsHeader (header_from format (rest_of self.old)) found (rest_of self.new)) }
        ensures format { IfOk result
            (λ found. IfSome found (λ header. (header.format ≡ format) × HasHeaderLimits header)) }
    {
        let hand = self.next()?;
        let Some((width, hand)) = self.field(hand)? else {
            return Ok(None);
        };
        let Some((height, hand)) = self.field(hand)? else {
            return Ok(None);
        };
        let Some((maxval, hand)) = self.field(hand)? else {
            return Ok(None);
        };
        let is_ended = hand.is_some_and(|byte| is_white(byte));
        if is_ended
            && 1 <= width
            && width <= 65536
            && 1 <= height
            && height <= 65536
            && 1 <= maxval
            && maxval <= 65535
        {
            Ok(Some(Header {
                format,
                width: width as u32,
                height: height as u32,
                maxval: maxval as u32,
            }))
        } else {
            Ok(None)
        }
    }

    /// The header of a page and the format before it, from the start of the file on.
    pub fn page_header(&mut self) -> Result<Header, OpenFault>
        requires { self.old.at ≡ 0 }
        ensures same { self.new ≡ record self.old { at = self.new.at; faults = self.new.faults } }
        ensures worked { OnOk result (self.old.kept ≡ true → self.new.faults ≡ self.old.faults) }
        ensures failed { IfErr result (λ fault. fault ≡ OpenFault.Device
            → FailsByReader self.old.kept self.old.text self.old.faults self.new.faults) }
        ensures page { IfOk result (λ header. IsPageHeader header) }
        ensures begins { IfOk result (λ header. self.old.kept ≡ true
            → BeginsPage self.old.text header (rest_of self.new)) }
        ensures file { IfErr result (λ fault. IsOfFile fault) }
        ensures fault { IfErr result (λ fault. self.old.kept ≡ true
            → HasHeaderFault fault self.old.text) }
    {
        let Some(format) = self.format()? else {
            return Err(OpenFault::Page(PageFault::BadMagic));
        };
        if !is_page_format(Some(format)) {
            return Err(OpenFault::Page(PageFault::BadMagic));
        }
        let Some(header) = self.header(format)? else {
            return Err(OpenFault::Page(PageFault::BadHeader));
        };
        if header.width > 16384 || header.height > 16384 {
            return Err(OpenFault::Page(PageFault::BadHeader));
        }
        Ok(header)
    }

    /// A scan from the reader's first byte on; the reader comes back where it cannot go there.
    pub fn begin(mut reader: R) -> Result<Self, R>
        ensures begun { IfOk result (λ scan. scan ≡ record {
          kept = R.is_kept reader;
          text = R.text reader;
          at = 0;
          faults = scan.faults;
        }) }
        ensures worked { IfOk result (λ scan. R.is_kept reader ≡ true
            → scan.faults ≡ R.faults reader) }
        ensures failed { IfErr result (λ back. R.is_kept reader ≡ true
            → R.faults reader < R.faults back) }
        ensures kept { IfErr result (λ back. R.is_kept back ≡ R.is_kept reader) }
        ensures text { IfErr result (λ back. R.text back ≡ R.text reader) }
    {
        if reader.start_from(0).is_err() {
            return Err(reader);
        }
        Ok(HeaderScan {
            reader,
            waiting: ReadRoom::new(),
            at: 0,
            reads: 0,
        })
    }

    /// The reader, how many bytes were used, and how often the reader was read.
    pub fn end(self) -> (R, u64, u64)
        ensures kept { R.is_kept result.0 ≡ self.kept }
        ensures text { R.text result.0 ≡ self.text }
        ensures faults { R.faults result.0 ≡ self.faults }
        ensures at { result.1 ≡ self.at }
        ensures few { self.kept ≡ true → result.2 ≤ length self.text }
    {
        let HeaderScan {
            reader,
            waiting: _,
            at,
            reads,
        } = self;
        (reader, at, reads)
    }
}
