ghost use Rattle.std.specs.Prelude.{◌≡◌};
ghost use Rattle.frame_join.specs.FrameHistory.{JoinHistory};
ghost use Rattle.frame_join.specs.JoinStates.{Represents};
ghost use Rattle.client_replies.specs.ReplyTurns.{page_whole, frame_joined, frame_ended};

use crate::hearing::{stop_by_answer, stop_malformed, stop_unjoined};
use crate::progress::{Next, Progress};
use frame_join::{FrameJoin, JoinFault};
use sane_fixed::Status;
use scan_job::{ItemList, Task};
use std::alloc::Global;

/// The picture of a page is whole.
fn page_whole(alloc: Global, task: Task, file: u32) -> Next
    ensures { result ≡ page_whole task file }
{
    match task {
        Task::Batch(count) => {
            if file < count {
                Next::Wait(Progress::Turning)
            } else {
                Next::Finish(ItemList::none(alloc))
            }
        }
        _ => Next::Finish(ItemList::none(alloc)),
    }
}

fn frame_joined(alloc: Global, task: Task, file: u32, joined: Result<bool, JoinFault>) -> Next
    ensures { result ≡ frame_joined task file joined }
{
    match joined {
        Ok(true) => page_whole(alloc, task, file),
        Ok(false) => Next::Wait(Progress::Starting { first: false }),
        Err(fault) => stop_unjoined(fault),
    }
}

/// The end record of a frame.
pub fn frame_ended(alloc: Global, join: &mut FrameJoin, task: Task, file: u32, status: u8) -> Next
    /// What the end of a frame makes of a job.
    ensures next { (past : JoinHistory)
        → Represents past join.old → result ≡ (frame_ended task file past status).next }
    ensures past { (past : JoinHistory) → Represents past join.old
        → Represents (frame_ended task file past status).history join.new }
{
    match Status::from_code(u32::from(status)) {
        None | Some(Status::Good) => stop_malformed(),
        Some(Status::Eof) => {
            let joined = join.end();
            frame_joined(alloc, task, file, joined)
        }
        Some(status) => stop_by_answer(status),
    }
}
