//! One request of a session.

ghost use Rattle.std.specs.Prelude.{◌≡◌, None, IfOk, OnErr};
ghost use Rattle.rand_chacha.specs.ChaCha.{ChaCha};
ghost use Rattle.dispatch.specs.Table.{table};
ghost use Rattle.saned_requests.specs.Inside.{GoesBy};
ghost use Rattle.saned_requests.specs.RequestAnswers.{request_context, Answers, AnswersFree, AnswersAwaiting, OutOfMemoryAt, OutOfMemoryFree, with_awaited, devices_answer, first_answer, greeting};

use crate::answering::control::control;
use crate::answering::open_requests::{authorize, open};
use crate::answering::starting::start;
use crate::answering::word_replies::{cancel, close, options, params};
use crate::request_answer::RequestAnswer;
use crate::session::{AwaitedAuthorization, Session};
use device_api::Device;
use dispatch::Registry;
use md5_auth::{Challenger, Users};
use sane_fixed::{NoMem, Status};
use std::alloc::Global;
use std::mem;
use wire_codec::{Array, Reply, Request};

/// The version of this daemon: 1.0, build 3.
const VERSION: u32 = 0x01000003;

/// INIT, by the version that it names.
fn greeting(version: u32) -> RequestAnswer
    ensures { result ≡ greeting version }
{
    if version / 0x01000000 == 1 {
        RequestAnswer::One(Reply::Init {
            status: Status::Good,
            version: VERSION,
        })
    } else {
        RequestAnswer::Last(Some(Reply::Init {
            status: Status::Inval,
            version: VERSION,
        }))
    }
}

/// GET_DEVICES.
fn devices<D: Device>(alloc: Global, registry: &Registry<D>) -> Result<RequestAnswer, NoMem>
    ensures { IfOk result (λ said. said ≡ devices_answer (table D.state registry.now)) }
{
    let all = registry.list(alloc)?;
    Ok(RequestAnswer::One(Reply::GetDevices {
        status: Status::Good,
        devices: Array::from_vec(all),
    }))
}

/// A request of a session that was greeted and awaits no AUTHORIZE.
fn answer_free<D: Device>(
    alloc: Global,
    session: &mut Session<D>,
    registry: &mut Registry<D>,
    users: &Users,
    challenger: &mut Challenger,
    request: Request,
) -> Result<RequestAnswer, NoMem>
    ensures ok { IfOk result (λ said. AnswersFree users.now
        (request_context D.state session.old registry.old challenger.old) request said
        (request_context D.state session.new registry.new challenger.new)) }
    ensures err { OnErr result (OutOfMemoryFree (request_context D.state session.old registry.old
        challenger.old) request (request_context D.state session.new registry.new challenger.new)) }
{
    match request {
        Request::Init { version, user: _ } => {
            session.greeted = true;
            Ok(greeting(version))
        }
        Request::GetDevices => devices(alloc, registry),
        Request::Open { name } => open(alloc, session, registry, users, challenger, name),
        Request::Close { device } => Ok(close(session, registry, device)),
        Request::GetOptionDescriptors { device } => options(alloc, session, device),
        Request::ControlOption {
            device,
            option,
            action,
            kind,
            value,
        } => control(alloc, session, device, option, action, kind, value),
        Request::GetParameters { device } => Ok(params(session, device)),
        Request::Start { device } => start(alloc, session, device),
        Request::Cancel { device } => Ok(cancel(session, device)),
        Request::Authorize {
            resource: _,
            user: _,
            password: _,
        } => Ok(RequestAnswer::Last(None)),
        Request::Exit => Ok(RequestAnswer::Last(None)),
    }
}

/// The first request, which is INIT.
fn answer_first<D: Device>(session: &mut Session<D>, request: Request) -> RequestAnswer
    ensures { GoesBy D.state (λ d. first_answer d request) session.old result session.new }
{
    match request {
        Request::Init { version, user: _ } => {
            session.greeted = true;
            greeting(version)
        }
        _ => RequestAnswer::Last(None),
    }
}

/// A request of a session that awaits AUTHORIZE: any other one ends it.
fn answer_awaiting<D: Device>(
    alloc: Global,
    session: &mut Session<D>,
    registry: &mut Registry<D>,
    users: &Users,
    awaited: AwaitedAuthorization,
    request: Request,
) -> RequestAnswer
    requires { session.old.awaited ≡ None }
    ensures { (stream : ChaCha) → AnswersAwaiting users.now
        (with_awaited (request_context D.state session.old registry.old stream) awaited)
        awaited request result (request_context D.state session.new registry.new stream) }
{
    match request {
        Request::Authorize {
            resource,
            user,
            password,
        } => authorize(
            alloc, session, registry, users, awaited, resource, user, password,
        ),
        _ => {
            session.awaited = Some(awaited);
            RequestAnswer::Last(None)
        }
    }
}

/// Answers one request. Where memory runs out, nothing was done for it; but a challenge may have been drawn, a SET may
/// have been made, and the device of a START is at rest.
pub fn answer<D: Device>(
    alloc: Global,
    session: &mut Session<D>,
    registry: &mut Registry<D>,
    users: &Users,
    challenger: &mut Challenger,
    request: Request,
) -> Result<RequestAnswer, NoMem>
    /// The first request must be INIT.
    /// Carried by: `answer`
    ///
    /// OPEN is answered in the order of its refusals, with the challenge where a users line names the backend, and
    /// the least free of four device words.
    /// Carried by: `answer`
    ///
    /// AUTHORIZE is answered where it is awaited, and nothing else then.
    /// Carried by: `answer`
    ///
    /// GET and SET test a value's type, number and shape before the device is asked.
    /// Carried by: `answer`
    ///
    /// A string value of a GET, or of a SET that is done, is its text and a NUL. If the session has it so, zero bytes fill it up
    /// to the option's size. It is never cut.
    /// Carried by: `answer`: `sent_as`
    ///
    /// Parameters, START with its port and byte order, CANCEL and CLOSE, of the frame's word and of another, and an
    /// unknown device word are answered as defined.
    /// Carried by: `answer`: `Answers`
    ensures ok { IfOk result
        (λ said. Answers users.now (request_context D.state session.old registry.old challenger.old)
        request said (request_context D.state session.new registry.new challenger.new)) }
    /// Out of memory is answered by no reply, and what it left is said.
    /// Carried by: `err` of `answer`: `OutOfMemoryAt`
    ensures err { OnErr result (OutOfMemoryAt (request_context D.state session.old registry.old
        challenger.old) request (request_context D.state session.new registry.new challenger.new)) }
{
    if !session.greeted {
        return Ok(answer_first(session, request));
    }
    match mem::replace(&mut session.awaited, None) {
        None => answer_free(alloc, session, registry, users, challenger, request),
        Some(awaited) => Ok(answer_awaiting(alloc, session, registry, users, awaited, request)),
    }
}
