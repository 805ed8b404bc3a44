ghost use Rattle.std.specs.Prelude.{◌≡◌, ◌≤◌, ◌<◌, ◌++◌, Some, None, length, take, drop};
ghost use Rattle.netpbm.specs.Picture.{Picture};
ghost use Rattle.netpbm.specs.Pnm.{IsWhole};
ghost use Rattle.frame_join.specs.PictureText.{IsPictureFile};
ghost use Rattle.page_picture.specs.Shows.{ShowsFrames};
ghost use Rattle.frame_join.specs.declared.join_stage.JoinFault.{JoinFault};
ghost use Rattle.frame_join.specs.FrameHistory.{JoinHistory, after_pull, IsJoined};
ghost use Rattle.frame_join.specs.FrameFile.{AllGone, GoesThrough};
ghost use Rattle.frame_join.specs.JoinStates.{Represents, IsDrained};

use crate::frame_join::FrameJoin;

/// Takes the bytes of the Netpbm file from a join. It has no state of its own: the join knows what has gone, so that
/// another goes on where this one stopped.
#[derive(Drop)]
pub struct PnmOut {
    _private: (),
}

impl PnmOut {
    /// Nothing was taken yet.
    pub fn new() -> PnmOut {
        PnmOut { _private: () }
    }

    /// Writes the next bytes of the file that may go out to the front of `buf`, and says how many. The picture's last
    /// row goes out only once the picture is whole, and nothing after a fault. It takes no memory.
    pub fn pull(&mut self, join: &mut FrameJoin, buf: &mut [u8]) -> usize
        // At most as many bytes as the buffer holds, the rest of which stays as it was.
        ensures count { result ≤ length buf.old }
        ensures rest { drop result buf.new ≡ drop result buf.old }
        // The join goes on from what was told before and what was given in all.
        /// Rows of a frame of known height go straight through; other frames are kept until the picture is whole, and
        /// nothing of them goes out before.
        /// Carried by: `gone`, `carried` of `PnmOut::pull`
        ensures carried { (past : JoinHistory) → Represents past join.old
            → Represents (after_pull (take result buf.new) past) join.new }
        /// After a fault nothing goes out.
        ensures silent { (past : JoinHistory) (fault : JoinFault)
            → Represents past join.old → past.fault ≡ Some fault → result ≡ 0 }
        // Where nothing goes out, the header and the rows have gone, or the whole file; of a frame that is kept nothing.
        ensures gone { (past : JoinHistory) → Represents past join.old → past.fault ≡ None
            → result ≡ 0 → 0 < length buf.old → AllGone past.under past.ended past.given }
        // Then, where the picture is whole, what was given in all denotes the picture that the frames show.
        /// All that was pulled then denotes that picture. Before, no front of it is whole.
        /// Carried by: `denotes`, `whole` of `PnmOut::pull`; `not_whole_before`
        ensures denotes { (past : JoinHistory)
            → Represents past join.old → IsJoined past → result ≡ 0 → 0 < length buf.old
            → (p : Picture) → ShowsFrames past.ended p → IsPictureFile past.given p }
        // Before the picture is whole, what was given in all is not.
        ensures whole { (past : JoinHistory) → Represents past join.old
            → (IsJoined past → ⊥) → IsWhole (past.given ++ take result buf.new) → ⊥ }
        // Then, where no frame is kept, the join has room for a further piece.
        ensures drained { (past : JoinHistory) → Represents past join.old
            → GoesThrough past.under → result ≡ 0 → 0 < length buf.old → IsDrained join.new }
    {
        join.pixels.pull(buf)
    }
}
