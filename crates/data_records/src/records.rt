//! Records of data bytes, in any pieces: a length word, most significant byte first, and as many bytes; the
//! length 0xFFFFFFFF ends the data, and one status byte follows.

ghost use Rattle.std.specs.Prelude.{◌≡◌, ◌<◌, ◌≤◌, ◌++◌, ◌↔◌, ℕ, List, [], length, ◌⊎◌};
ghost use Rattle.std.specs.Int.{w32, to_be_bytes};
ghost use Rattle.sane_fixed.specs.Status.{status_code};
ghost use Rattle.data_records.specs.declared.records.RecordPhase.{RecordPhase as AnyPhase};
ghost use Rattle.data_records.specs.declared.records.RecordPhase.TheVariants.{Head, Ended};
ghost use Rattle.data_records.specs.Records.{RecordsContinue, IsRecords, ReaderSteps, TellsEnd, HasEnded, Piece, AreSteps, all_used, all_given, end_record, head_phase, rest_of_body};
ghost use Rattle.data_records.specs.Laws.{RecordsEndSo};

use sane_fixed::Status;
use std::marker::Model;

/// The head of a record of `len` bytes.
pub fn record_head(len: u32) -> [u8; 4]
    requires { len < 4294967295 }
    /// A record's head and the end record are as the wire has them.
    /// Carried by: `record_head`, `record_end`
    ensures { result ≡ to_be_bytes w32 len }
{
    len.to_be_bytes()
}

/// The end of the records, and how the data ended.
pub fn record_end(status: Status) -> [u8; 5]
    ensures { result ≡ end_record (status_code status) }
{
    [255, 255, 255, 255, status.code() as u8]
}

/// Where a reader stands in the records.
#[derive(Clone, Copy, Debug, PartialEq, Eq)]
pub enum RecordPhase {
    /// Before a record's head.
    Head,
    /// Behind so many bytes of a head.
    Head1(u8),
    Head2(u8, u8),
    Head3(u8, u8, u8),
    /// In a body, of which so many bytes are left.
    Body(u32),
    /// Before the status.
    Status,
    /// Behind the status.
    Ended(u8),
}

/// What a step found.
#[derive(Clone, Copy, Debug, PartialEq, Eq)]
pub enum Step {
    /// Nothing to give out.
    More,
    /// Payload: the bytes of the piece from the first place to before the second.
    Bytes(usize, usize),
    /// The end, with its status byte.
    End(u8),
}

/// A reader of records. It stores no payload. Contracts see where it stands.
#[derive(Drop)]
pub struct RecordReader {
    phase: RecordPhase,
}

impl Model for RecordReader {
    ghost use Rattle.data_records.specs.declared.records.RecordPhase.{RecordPhase};
    ghost use Rattle.data_records.specs.Records.{IsRecordPhase};

    ghost Value = { RecordPhase };

    ghost view = { λ r. r.phase };

    ghost invariant = { λ r. IsRecordPhase r.phase };
}

// Behind the four bytes of a length.
fn behind_head(length: u32) -> RecordPhase
    ensures { result ≡ head_phase length }
{
    if length == 0 {
        RecordPhase::Head
    } else if length == u32::MAX {
        RecordPhase::Status
    } else {
        RecordPhase::Body(length)
    }
}

fn behind_body(left: u32) -> RecordPhase
    ensures { result ≡ rest_of_body left }
{
    if left == 0 {
        RecordPhase::Head
    } else {
        RecordPhase::Body(left)
    }
}

impl RecordReader {
    /// A reader before the first record.
    pub fn new() -> Self
        /// Over any pieces a reader gives the payload and the status of the records, the end only there, and uses
        /// nothing after it.
        /// Carried by: `RecordReader::new`, `step`; `records_are_read_in_any_pieces`
        ensures begins { (text payload : List ℕ) (status : ℕ)
            → RecordsContinue result text payload status ↔ IsRecords text payload status }
        ensures head { result ≡ Head }
    {
        RecordReader {
            phase: RecordPhase::Head,
        }
    }

    /// Goes on in the bytes of a piece, and says how many of them it used: at least one of a piece that is
    /// not empty, and after the end none.
    pub fn step(&mut self, piece: &[u8]) -> (usize, Step)
        ensures within { result.0 ≤ length piece.now }
        ensures uses { 0 < length piece.now → HasEnded self.old ⊎ (0 < result.0) }
        ensures goes_on { ReaderSteps self.old self.new piece.now result.0 result.1 }
        ensures tells { 0 < length piece.now → TellsEnd self.new result.1 }
        ensures ended { HasEnded self.old → (result.0 ≡ 0) × (self.new ≡ self.old) }
    {
        let Some(&first) = piece.first() else {
            return (0, Step::More);
        };
        match self.phase {
            RecordPhase::Head => {
                self.phase = RecordPhase::Head1(first);
                (1, Step::More)
            }
            RecordPhase::Head1(a) => {
                self.phase = RecordPhase::Head2(a, first);
                (1, Step::More)
            }
            RecordPhase::Head2(a, b) => {
                self.phase = RecordPhase::Head3(a, b, first);
                (1, Step::More)
            }
            RecordPhase::Head3(a, b, c) => {
                self.phase = behind_head(u32::from_be_bytes([a, b, c, first]));
                (1, Step::More)
            }
            RecordPhase::Body(left) => {
                let count = (left as usize).min(piece.len());
                self.phase = behind_body(left - count as u32);
                (count, Step::Bytes(0, count))
            }
            RecordPhase::Status => {
                self.phase = RecordPhase::Ended(first);
                (1, Step::End(first))
            }
            RecordPhase::Ended(status) => (0, Step::End(status)),
        }
    }
}

/// Over any pieces: where steps from a new reader end, the bytes they used are records, and what they gave
/// out is the payload, with that status. Steps that used records have ended so.
pub fn records_are_read_in_any_pieces()
    ensures ended { (pieces : List Piece) (status : ℕ) → AreSteps Head pieces (Ended status)
        → IsRecords (all_used pieces) (all_given pieces) status }
    ensures whole { RecordsEndSo }
{}
