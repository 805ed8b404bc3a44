//! START.

ghost use Rattle.std.specs.Prelude.{◌≡◌, ◌≢◌, [], option_map, IfOk, IfErr, length, Ok, Err};
ghost use Rattle.rand_chacha.specs.ChaCha.{ChaCha};
ghost use Rattle.dispatch.specs.Table.{seen_lease, table};
ghost use Rattle.saned_requests.specs.Holding.{seen_held, seen_session, held_by};
ghost use Rattle.saned_requests.specs.RequestAnswers.{request_context, StartsLease, StartsHeld, AnswersStart, start_reply, StartsWord, no_mem};

use crate::request_answer::RequestAnswer;
use crate::session::{DataPhase, Session};
use device_api::Device;
use dispatch::Lease;
use sane_fixed::{ByteOrder, NoMem, Status, Text};
use std::alloc::Global;
use wire_codec::Reply;

/// The empty text. It takes no memory.
pub fn no_text(alloc: Global) -> Text
    ensures { result ≡ [] }
{
    match Text::from_vec(Vec::new(alloc)) {
        Ok(text) => text,
        Err(_) => unreachable!(),
    }
}

fn start_reply(alloc: Global, status: Status, port: u16, order: ByteOrder) -> Reply
    ensures { result ≡ start_reply status port order }
{
    Reply::Start {
        status,
        port,
        order,
        resource: no_text(alloc),
    }
}

/// START of a device, where there is one: the reply, and where the frame is then.
fn start_lease<D: Device>(
    alloc: Global,
    lease: &mut Option<Lease<D>>,
    transfer: DataPhase,
    port: u16,
    word: usize,
) -> Result<(Reply, DataPhase), NoMem>
    ensures { StartsLease transfer port word (option_map (seen_lease D.state) lease.old) result
        (option_map (seen_lease D.state) lease.new) }
{
    let Some(lease) = lease else {
        let reply = start_reply(alloc, Status::Inval, 0, ByteOrder::Little);
        return Ok((reply, transfer));
    };
    let order = lease.device.order();
    if transfer != DataPhase::Quiet {
        return Ok((start_reply(alloc, Status::DeviceBusy, 0, order), transfer));
    }
    match lease.device.start(alloc) {
        Ok(()) => Ok((
            start_reply(alloc, Status::Good, port, order),
            DataPhase::Waiting(word),
        )),
        Err(status) => {
            if status == Status::NoMem {
                return Err(NoMem);
            }
            Ok((start_reply(alloc, status, 0, order), transfer))
        }
    }
}

/// START of the device that a word stands for.
fn start_held<D: Device>(
    alloc: Global,
    held: &mut [Option<Lease<D>>],
    transfer: DataPhase,
    port: u16,
    word: usize,
) -> Result<(Reply, DataPhase), NoMem>
    ensures { StartsHeld transfer port
        (seen_held D.state held.old) word result (seen_held D.state held.new) }
{
    if word < held.len() {
        start_lease(alloc, &mut held[word], transfer, port, word)
    } else {
        Ok((
            start_reply(alloc, Status::Inval, 0, ByteOrder::Little),
            transfer,
        ))
    }
}

/// START.
pub fn start<D: Device>(
    alloc: Global,
    session: &mut Session<D>,
    word: u32,
) -> Result<RequestAnswer, NoMem>
    ensures ok { IfOk result (λ said. (registry : _) (stream : ChaCha)
        → AnswersStart (request_context D.state session.old registry stream) word said
        (request_context D.state session.new registry stream)) }
    ensures err { IfErr result (λ _. (registry : _) (stream : ChaCha)
        → StartsWord (request_context D.state session.old registry stream) word
        (Err no_mem) (request_context D.state session.new registry stream)) }
{
    let (reply, transfer) = start_held(
        alloc,
        &mut session.held,
        session.transfer,
        session.port,
        word as usize,
    )?;
    session.transfer = transfer;
    Ok(RequestAnswer::One(reply))
}
