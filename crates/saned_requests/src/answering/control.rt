//! CONTROL_OPTION.

ghost use Rattle.std.specs.Prelude.{◌≡◌, [], option_map, IfOk, IfErr, OnErr, slice_get};
ghost use Rattle.device_api.specs.Options.{descriptors_of};
ghost use Rattle.device_api.specs.State.{get_answer};
ghost use Rattle.dispatch.specs.Table.{seen_lease, table};
ghost use Rattle.saned_requests.specs.Holding.{seen_held, held_by};
ghost use Rattle.saned_requests.specs.Inside.{GoesBy, StaysOrGoesBy};
ghost use Rattle.saned_requests.specs.RequestAnswers.{GivesReply, control, control_held, control_lease, control_device, set_at, asked_at, kind_of, got_reply, refused_control};
ghost use Rattle.saned_requests.specs.OptionValues.{size_of};

use crate::answering::option_values::{sent_as, value_asked};
use crate::answering::starting::no_text;
use crate::request_answer::RequestAnswer;
use crate::session::{Session, StringSize};
use device_api::Device;
use dispatch::Lease;
use option_desc::Value;
use sane_fixed::{Info, Kind, NoMem, Status};
use std::alloc::Global;
use wire_codec::{ControlAction, Reply, WireValue};

fn control_reply(alloc: Global, status: Status, info: Info, kind: Kind, value: WireValue) -> Reply
    ensures { result ≡ Reply.ControlOption status info kind value [] }
{
    Reply::ControlOption {
        status,
        info,
        kind,
        value,
        resource: no_text(alloc),
    }
}

fn refused(alloc: Global, status: Status, kind: Kind, value: WireValue) -> Reply
    ensures { result ≡ refused_control status kind value }
{
    control_reply(alloc, status, Info(0), kind, value)
}

/// The type and the size of an option; where there is no such option, the type of the request.
fn declared<D: Device>(
    alloc: Global,
    device: &D,
    option: u32,
    kind: Kind,
) -> Result<(Kind, u32), NoMem>
    ensures kind { IfOk result (λ told. told.0
        ≡ kind_of (slice_get (descriptors_of (D.state device.now).setup) option) kind) }
    ensures size { IfOk result (λ told. told.1
        ≡ size_of (slice_get (descriptors_of (D.state device.now).setup) option)) }
{
    let all = device.descriptors(alloc).map_err(|_| NoMem)?;
    match all.as_slice().get(option as usize) {
        Some(desc) => Ok((desc.kind, desc.size)),
        None => Ok((kind, 0)),
    }
}

/// GET_VALUE of a device.
fn get<D: Device>(
    alloc: Global,
    strings: StringSize,
    device: &D,
    option: u32,
    kind: Kind,
    value: WireValue,
) -> Result<Reply, NoMem>
    ensures { IfOk result (λ reply. reply ≡ got_reply strings
        (D.state device.now) option kind value (get_answer (D.state device.now) option)) }
{
    match device.get(alloc, option) {
        Ok(given) => {
            let (kind, size) = declared(alloc, device, option, kind)?;
            let sent = sent_as(alloc, strings, size, &given)?;
            Ok(control_reply(alloc, Status::Good, Info(0), kind, sent))
        }
        Err(Status::NoMem) => Err(NoMem),
        Err(status) => Ok(refused(alloc, status, kind, value)),
    }
}

/// The value that is asked of an option of a device, which is any where there is no such option, and the option's size.
fn asked_at<D: Device>(
    alloc: Global,
    device: &D,
    option: u32,
    kind: Kind,
    value: &WireValue,
) -> Result<(Option<Value>, u32), NoMem>
    ensures value { IfOk result (λ asked. asked.0
        ≡ asked_at (slice_get (descriptors_of (D.state device.now).setup) option) kind value.now) }
    ensures size { IfOk result (λ asked. asked.1
        ≡ size_of (slice_get (descriptors_of (D.state device.now).setup) option)) }
{
    let all = device.descriptors(alloc).map_err(|_| NoMem)?;
    match all.as_slice().get(option as usize) {
        Some(desc) => Ok((value_asked(alloc, desc, kind, value)?, desc.size)),
        None => Ok((Some(Value::Flag(false)), 0)),
    }
}

/// SET_VALUE of a device: to a value that is of the option's type.
fn set<D: Device>(
    alloc: Global,
    strings: StringSize,
    device: &mut D,
    option: u32,
    kind: Kind,
    value: WireValue,
) -> Result<Reply, NoMem>
    ensures { GivesReply (set_at strings (D.state device.old) option kind value
        (slice_get (descriptors_of (D.state device.old).setup) option)) result
        (D.state device.old) (D.state device.new) }
{
    let (asked, size) = asked_at(alloc, device, option, kind, &value)?;
    let Some(asked) = asked else {
        return Ok(refused(alloc, Status::Inval, kind, value));
    };
    match device.set(alloc, option, &asked) {
        Ok((given, info)) => {
            let sent = sent_as(alloc, strings, size, &given)?;
            Ok(control_reply(alloc, Status::Good, info, kind, sent))
        }
        Err(Status::NoMem) => Err(NoMem),
        Err(status) => Ok(refused(alloc, status, kind, value)),
    }
}

/// What a device answers.
fn control_device<D: Device>(
    alloc: Global,
    strings: StringSize,
    device: &mut D,
    option: u32,
    action: ControlAction,
    kind: Kind,
    value: WireValue,
) -> Result<Reply, NoMem>
    ensures { GivesReply (control_device strings (D.state device.old) option action kind value)
        result (D.state device.old) (D.state device.new) }
{
    match action {
        ControlAction::GetValue => get(alloc, strings, device, option, kind, value),
        ControlAction::SetValue => set(alloc, strings, device, option, kind, value),
    }
}

/// What the device of a word answers, if it stands for one.
fn control_lease<D: Device>(
    alloc: Global,
    strings: StringSize,
    lease: &mut Option<Lease<D>>,
    option: u32,
    action: ControlAction,
    kind: Kind,
    value: WireValue,
) -> Result<Reply, NoMem>
    ensures { GivesReply (control_lease strings
        (option_map (seen_lease D.state) lease.old) option action kind value) result
        (option_map (seen_lease D.state) lease.old) (option_map (seen_lease D.state) lease.new) }
{
    match lease {
        None => Ok(refused(alloc, Status::Inval, kind, value)),
        Some(lease) => control_device(
            alloc,
            strings,
            &mut lease.device,
            option,
            action,
            kind,
            value,
        ),
    }
}

fn control_held<D: Device>(
    alloc: Global,
    strings: StringSize,
    held: &mut [Option<Lease<D>>],
    word: usize,
    option: u32,
    action: ControlAction,
    kind: Kind,
    value: WireValue,
) -> Result<Reply, NoMem>
    ensures { GivesReply (control_held strings (seen_held D.state held.old) word
        option action kind value) result (seen_held D.state held.old) (seen_held D.state held.new) }
{
    if word < held.len() {
        control_lease(alloc, strings, &mut held[word], option, action, kind, value)
    } else {
        Ok(refused(alloc, Status::Inval, kind, value))
    }
}

/// CONTROL_OPTION. Where memory runs out nothing was done, or all of it.
pub fn control<D: Device>(
    alloc: Global,
    session: &mut Session<D>,
    word: u32,
    option: u32,
    action: ControlAction,
    kind: Kind,
    value: WireValue,
) -> Result<RequestAnswer, NoMem>
    ensures ok { IfOk result (λ said. GoesBy D.state
        (λ d. control d word option action kind value) session.old said session.new) }
    ensures err { OnErr result (StaysOrGoesBy D.state
        (λ d. (control d word option action kind value).1) session.old session.new) }
{
    let reply = control_held(
        alloc,
        session.strings,
        &mut session.held,
        word as usize,
        option,
        action,
        kind,
        value,
    )?;
    Ok(RequestAnswer::One(reply))
}
