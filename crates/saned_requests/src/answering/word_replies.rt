//! Requests of a device word: what it stands for, if it stands for anything.

ghost use Rattle.std.specs.Prelude.{◌≡◌, ◌≢◌, ◌<◌, List, None, option_map, IfOk, IfErr, OnErr, length};
ghost use Rattle.rand_chacha.specs.ChaCha.{ChaCha};
ghost use Rattle.dispatch.specs.Table.{seen_lease, table};
ghost use Rattle.saned_requests.specs.Holding.{seen_held, seen_session, held_by, on_word, is_some_lease};
ghost use Rattle.saned_requests.specs.Inside.{GoesBy};
ghost use Rattle.saned_requests.specs.RequestAnswers.{data_phase_off, options_of_lease, params_reply_of, no_params, IsContextOutcome, request_context, close, cancel, options_reply, params_reply};

use crate::cancelling::cancel_word;
use crate::giving_back::give_back;
use crate::request_answer::RequestAnswer;
use crate::session::{DataPhase, Session};
use device_api::Device;
use dispatch::{Lease, Registry};
use option_desc::Descriptor;
use sane_fixed::{FrameFormat, NoMem, Params, Status};
use std::alloc::Global;
use std::mem;
use wire_codec::{Array, Reply};

impl DataPhase {
    /// After a cancel of the device that a word stands for.
    pub(crate) fn off(self, word: usize) -> DataPhase
        ensures { result ≡ data_phase_off self word }
    {
        match self {
            DataPhase::Quiet => DataPhase::Quiet,
            DataPhase::Waiting(w) => { if w == word { DataPhase::Quiet } else { self } }
            DataPhase::Streaming(w) => { if w == word { DataPhase::Ending } else { self } }
            DataPhase::Ending => DataPhase::Ending,
        }
    }
}

/// Takes out what a word stands for.
fn take_word<D: Device>(held: &mut [Option<Lease<D>>], word: usize) -> Option<Lease<D>>
    ensures lease { option_map (seen_lease D.state) result
        ≡ held_by (seen_held D.state held.old) word }
    ensures held { seen_held D.state held.new
        ≡ on_word (λ _. None) (seen_held D.state held.old) word }
{
    if word < held.len() {
        mem::replace(&mut held[word], None)
    } else {
        None
    }
}

fn is_some_lease<D: Device>(lease: &Option<Lease<D>>) -> bool
    ensures { result ≡ is_some_lease (option_map (seen_lease D.state) lease.now) }
{
    match lease {
        Some(_) => true,
        None => false,
    }
}

/// Whether a word stands for a device.
fn has_lease<D: Device>(held: &[Option<Lease<D>>], word: usize) -> bool
    ensures { result ≡ is_some_lease (held_by (seen_held D.state held.now) word) }
{
    if word < held.len() {
        is_some_lease(&held[word])
    } else {
        false
    }
}

/// CLOSE: the device is cancelled, and its lease goes back.
pub fn close<D: Device>(
    session: &mut Session<D>,
    registry: &mut Registry<D>,
    word: u32,
) -> RequestAnswer
    ensures { (stream : ChaCha)
        → IsContextOutcome (close (request_context D.state session.old registry.old stream) word)
        result (request_context D.state session.new registry.new stream) }
{
    let word = word as usize;
    let Some(lease) = take_word(&mut session.held, word) else {
        return RequestAnswer::One(Reply::Close);
    };
    session.transfer = session.transfer.off(word);
    registry.give_back(lease);
    RequestAnswer::One(Reply::Close)
}

/// CANCEL.
pub fn cancel<D: Device>(session: &mut Session<D>, word: u32) -> RequestAnswer
    ensures { GoesBy D.state (λ d. cancel d word) session.old result session.new }
{
    let word = word as usize;
    if has_lease(&session.held, word) {
        session.transfer = session.transfer.off(word);
        cancel_word(&mut session.held, word);
    }
    RequestAnswer::One(Reply::Cancel)
}

/// The descriptors of a device, where there is one.
fn options_of_lease<D: Device>(
    alloc: Global,
    lease: &Option<Lease<D>>,
) -> Result<Vec<Descriptor>, NoMem>
    ensures { IfOk result (λ all. all.items
        ≡ options_of_lease (option_map (seen_lease D.state) lease.now)) }
{
    match lease {
        None => Ok(Vec::new(alloc)),
        Some(lease) => lease.device.descriptors(alloc).map_err(|_| NoMem),
    }
}

/// What the options of a word's device are; none where the word stands for no device.
pub fn options_at<D: Device>(
    alloc: Global,
    held: &[Option<Lease<D>>],
    word: usize,
) -> Result<Vec<Descriptor>, NoMem>
    ensures { IfOk result (λ all. all.items
        ≡ options_of_lease (held_by (seen_held D.state held.now) word)) }
{
    if word < held.len() {
        options_of_lease(alloc, &held[word])
    } else {
        Ok(Vec::new(alloc))
    }
}

/// GET_OPTION_DESCRIPTORS.
pub fn options<D: Device>(
    alloc: Global,
    session: &Session<D>,
    word: u32,
) -> Result<RequestAnswer, NoMem>
    ensures { IfOk result (λ said.
        GoesBy D.state (λ d. options_reply d word) session.now said session.now) }
{
    let all = options_at(alloc, &session.held, word as usize)?;
    Ok(RequestAnswer::One(Reply::GetOptionDescriptors {
        descriptors: Array::from_vec(all),
    }))
}

/// The parameters of a device, where there is one.
fn params_of_lease<D: Device>(lease: &Option<Lease<D>>) -> Reply
    ensures { result ≡ params_reply_of (option_map (seen_lease D.state) lease.now) }
{
    match lease {
        Some(lease) => Reply::GetParameters {
            status: Status::Good,
            params: lease.device.params(),
        },
        None => Reply::GetParameters {
            status: Status::Inval,
            params: no_params(),
        },
    }
}

fn no_params() -> Params
    ensures { result ≡ no_params }
{
    Params {
        format: FrameFormat::Gray,
        last_frame: false,
        bytes_per_line: 0,
        pixels_per_line: 0,
        lines: Some(0),
        depth: 0,
    }
}

fn params_at<D: Device>(held: &[Option<Lease<D>>], word: usize) -> Reply
    ensures { result ≡ params_reply_of (held_by (seen_held D.state held.now) word) }
{
    if word < held.len() {
        params_of_lease(&held[word])
    } else {
        Reply::GetParameters {
            status: Status::Inval,
            params: no_params(),
        }
    }
}

/// GET_PARAMETERS.
pub fn params<D: Device>(session: &Session<D>, word: u32) -> RequestAnswer
    ensures { GoesBy D.state (λ d. params_reply d word) session.now result session.now }
{
    RequestAnswer::One(params_at(&session.held, word as usize))
}
