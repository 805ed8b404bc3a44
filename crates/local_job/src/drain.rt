ghost use Rattle.std.specs.Prelude.{◌≡◌, ◌<◌, true, false, None, Option, List, ℕ, length};
ghost use Rattle.std.specs.Io.KnownBytes.{Appends};
ghost use Rattle.netpbm.specs.Pnm.{IsWhole};
ghost use Rattle.frame_join.specs.FrameHistory.{JoinHistory};
ghost use Rattle.frame_join.specs.JoinStates.{Represents};
ghost use Rattle.local_job.specs.Inside.{JoinIsDrainedTo};
ghost use Rattle.scan_job.specs.FileOutputs.{StopsShort};

use crate::outlet::Outlet;
use byte_output::OutputTally;
use frame_join::{FrameJoin, PnmOut, no_file_is_endless, no_front_is_whole};

/// More than a file has bytes.
const MOST_PULLS: u64 = 1 << 40;

/// Writes all bytes of the file that may go out. Says whether the output took them; if not, what it
/// took in all is no whole file.
pub fn drain<W: Outlet>(
    join: &mut FrameJoin,
    room: &mut [u8],
    out: &mut W,
    outputs: &mut OutputTally,
) -> bool
    requires { 0 < length room.old }
    ensures room { length room.new ≡ length room.old }
    ensures becomes { (first : W) → W.Becomes first out.old → W.Becomes first out.new }
    // `first` is what the output held before the file, and `past` what the join was told and gave.
    ensures drained { result ≡ true → (first : Option (List ℕ)) (past : JoinHistory)
        → Represents past join.old → Appends first (W.contents out.old) past.given
        → JoinIsDrainedTo past first join.new (W.contents out.new) }
    ensures short { result ≡ false → (first : Option (List ℕ)) (past : JoinHistory)
        → Represents past join.old → past.fault ≡ None
        → Appends first (W.contents out.old) past.given → StopsShort first (W.contents out.new) }
    ensures failed { result ≡ false → (first : Option (List ℕ)) (past : JoinHistory)
        → Represents past join.old → past.fault ≡ None
        → Appends first (W.contents out.old) past.given → outputs.new.failed ≡ true }
{
    no_file_is_endless();
    no_front_is_whole();
    let mut pnm = PnmOut::new();
    for _i in 0..MOST_PULLS {
        let n = pnm.pull(join, room);
        if n == 0 {
            return true;
        }
        if !out.put(&room[..n], outputs) {
            return false;
        }
    }
    false
}
