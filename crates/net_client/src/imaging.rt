ghost use Rattle.std.specs.Prelude.{◌≡◌, ◌≤◌, ◌<◌, length};
ghost use Rattle.page_picture.specs.Shows.{Frame};
ghost use Rattle.frame_join.specs.FrameHistory.{JoinHistory};
ghost use Rattle.data_records.specs.Records.{HasEnded};
ghost use Rattle.net_client.specs.Inside.{HasRead, HasNotEnded, RepresentsWithin};

use data_records::{RecordReader, Step};
use frame_join::{FrameJoin, JoinFault};

/// What a piece of the data brought.
#[derive(Clone, Copy)]
pub enum PieceResult {
    /// Bytes, and more are to come.
    More,
    /// Bytes that make a fault.
    Fault(JoinFault),
    /// The end record, with its status.
    End(u8),
}

/// Reads on in the records of a frame, and the join takes what they give.
pub(crate) fn read_on(reader: &mut RecordReader, join: &mut FrameJoin, piece: &[u8]) -> PieceResult
    requires { HasEnded reader.old → ⊥ }
    ensures read { (past : JoinHistory) (frame : Frame) → RepresentsWithin past frame join.old
        → HasRead (record { reader = reader.old; past = past; frame = frame }) piece.now result
        (record { reader = reader.new; join = join.new }) }
    ensures open { HasNotEnded result reader.new }
{
    let mut at = 0;
    while at < piece.len() {
        let rest = &piece[at..];
        let (used, step) = reader.step(rest);
        match step {
            Step::More => {}
            Step::Bytes(from, to) => {
                join.feed(&rest[from..to]);
                if let Some(fault) = join.fault() {
                    return PieceResult::Fault(fault);
                }
            }
            Step::End(status) => return PieceResult::End(status),
        }
        at += used;
    }
    PieceResult::More
}
