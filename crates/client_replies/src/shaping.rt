ghost use Rattle.std.specs.Prelude.{◌≡◌, IfOk, OnOk, OnErr, false};
ghost use Rattle.frame_join.specs.declared.join_stage.JoinFault.TheVariants.{NoMem as WantOfMemory};
ghost use Rattle.frame_join.specs.FrameHistory.{JoinHistory, after_begin, with_fault};
ghost use Rattle.frame_join.specs.JoinStates.{Represents};
ghost use Rattle.client_replies.specs.ClearJoins.{RepresentsClear};
ghost use Rattle.client_replies.specs.ReplyTurns.{stop_by_answer, begun_by};
ghost use Rattle.client_replies.specs.ProtocolStates.{after_params_reply, shaped_by};

use crate::hearing::{stop_by_answer, stop_malformed, stop_unjoined};
use crate::progress::{Next, Progress};
use frame_join::{FrameJoin, JoinFault};
use sane_fixed::{ByteOrder, NoMem, Params, Status};
use std::alloc::Global;
use wire_message::Reply;

/// A frame of these parameters begins.
#[tactic(auto, using(crate::proofs::Begins::begins_calmly, crate::proofs::Begins::begins_starved))]
fn begin(
    alloc: Global,
    join: &mut FrameJoin,
    port: u16,
    order: ByteOrder,
    params: &Params,
) -> Result<Next, NoMem>
    ensures next { (past : JoinHistory) → RepresentsClear past join.old → IfOk result (λ next. next
        ≡ begun_by (after_begin params.now order false past).fault port) }
    ensures begun { (past : JoinHistory) → RepresentsClear past join.old
        → OnOk result (Represents (after_begin params.now order false past) join.new) }
    ensures starved { (past : JoinHistory) → RepresentsClear past join.old
        → OnErr result (Represents (with_fault WantOfMemory past) join.new) }
{
    join.begin(alloc, params, order);
    match join.fault() {
        None => Ok(Next::Wait(Progress::Imaging {
            port,
            opened: false,
        })),
        Some(JoinFault::NoMem) => Err(NoMem),
        Some(fault) => Ok(stop_unjoined(fault)),
    }
}

/// The reply to GET_PARAMETERS.
pub fn after_params_reply(
    alloc: Global,
    join: &mut FrameJoin,
    port: u16,
    order: ByteOrder,
    reply: Reply,
) -> Result<Next, NoMem>
    /// Which parameters begin a frame.
    ensures next { (past : JoinHistory) → RepresentsClear past join.old
        → IfOk result (λ next. next ≡ (after_params_reply port order past reply).next) }
    ensures begun { (past : JoinHistory) → RepresentsClear past join.old
        → OnOk result (Represents (after_params_reply port order past reply).history join.new) }
    ensures starved { (past : JoinHistory) → RepresentsClear past join.old
        → OnErr result (Represents (with_fault WantOfMemory past) join.new) }
{
    match reply {
        Reply::GetParameters { status, params } => match status {
            Status::Good => begin(alloc, join, port, order, &params),
            status => Ok(stop_by_answer(status)),
        },
        _ => Ok(stop_malformed()),
    }
}
