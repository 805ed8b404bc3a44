//! OPEN and AUTHORIZE.

ghost use Rattle.std.specs.Prelude.{◌≡◌, ◌<◌, ◌↔◌, None, Some, IsTrue, position, option_map, IfOk, OnErr, IfSome, length};
ghost use Rattle.rand_chacha.specs.ChaCha.{ChaCha};
ghost use Rattle.dispatch.specs.Table.{seen_lease, table};
ghost use Rattle.saned_requests.specs.Holding.{seen_held, seen_session, held_by, on_word, free_word, is_free};
ghost use Rattle.saned_requests.specs.RequestAnswers.{request_context, take_device, refusal, OpensDevice, Draws, MayOpen, Authorizes, resource_of, Yields};

use crate::answering::starting::no_text;
use crate::giving_back::give_back;
use crate::request_answer::RequestAnswer;
use crate::session::{AwaitedAuthorization, Session};
use device_api::Device;
use dispatch::{Lease, Registry, backend_of};
use md5_auth::{Challenger, Users, check};
use sane_fixed::{NoMem, Status, Text};
use std::alloc::Global;
use std::mem;
use wire_codec::Reply;

/// What stands between a backend and a challenge.
const MARK: &[u8] = b"$MD5$";

fn refusal(alloc: Global, status: Status) -> Reply
    ensures { result ≡ refusal status }
{
    Reply::Open {
        status,
        device: 0,
        resource: no_text(alloc),
    }
}

fn is_free<D>(lease: &Option<Lease<D>>) -> bool
    ensures { result ≡ is_free lease.now }
{
    match lease {
        Some(_) => false,
        None => true,
    }
}

fn free_place<D>(held: &[Option<Lease<D>>]) -> Option<usize>
    ensures { result ≡ position is_free held.now }
{
    held.iter().position(
        |lease: &Option<Lease<D>>| -> bool
            ensures { result ≡ is_free lease.now }
        { is_free(lease) },
    )
}

/// The least free word.
fn free_word<D: Device>(held: &[Option<Lease<D>>]) -> Option<usize>
    ensures word { result ≡ free_word (seen_held D.state held.now) }
    ensures within { IfSome result (λ word. word < length held.now) }
    ensures free { IfSome result (λ word. held_by (seen_held D.state held.now) word ≡ None) }
{
    let place = free_place(held);
    match place {
        Some(word) => Some(word),
        None => None,
    }
}

/// Puts a lease into a word, and gives what stood there.
fn put_word<D: Device>(
    held: &mut [Option<Lease<D>>],
    word: usize,
    lease: Lease<D>,
) -> Option<Lease<D>>
    requires { word < length held.old }
    ensures old { option_map (seen_lease D.state) result
        ≡ held_by (seen_held D.state held.old) word }
    ensures new { seen_held D.state held.new
        ≡ on_word (λ _. Some (seen_lease D.state lease)) (seen_held D.state held.old) word }
{
    mem::replace(&mut held[word], Some(lease))
}

/// Takes the device of that name for the least free word.
fn take_device<D: Device>(
    alloc: Global,
    session: &mut Session<D>,
    registry: &mut Registry<D>,
    name: &[u8],
) -> Reply
    ensures { (stream : ChaCha)
        → Yields (take_device (request_context D.state session.old registry.old stream) name.now)
        result (request_context D.state session.new registry.new stream) }
{
    let Some(word) = free_word(&session.held) else {
        return refusal(alloc, Status::Unsupported);
    };
    match registry.take(name) {
        Ok(lease) => {
            let old = put_word(&mut session.held, word, lease);
            give_back(registry, old);
            Reply::Open {
                status: Status::Good,
                device: word as u32,
                resource: no_text(alloc),
            }
        }
        Err(status) => refusal(alloc, status),
    }
}

/// `BACKEND$MD5$CHALLENGE`.
fn resource(alloc: Global, backend: &[u8], challenge: &[u8]) -> Result<Text, NoMem>
    ensures { IfOk result (λ text. text ≡ resource_of backend.now challenge.now) }
{
    let mut bytes = Vec::new(alloc);
    bytes.extend_from_slice(backend)?;
    bytes.extend_from_slice(MARK)?;
    bytes.extend_from_slice(challenge)?;
    Text::from_vec(bytes).map_err(|_| NoMem)
}

/// OPEN.
pub fn open<D: Device>(
    alloc: Global,
    session: &mut Session<D>,
    registry: &mut Registry<D>,
    users: &Users,
    challenger: &mut Challenger,
    name: Text,
) -> Result<RequestAnswer, NoMem>
    ensures ok { IfOk result (λ said. OpensDevice users.now
        (request_context D.state session.old registry.old challenger.old) name said
        (request_context D.state session.new registry.new challenger.new)) }
    ensures err { OnErr result (Draws (request_context D.state session.old registry.old
        challenger.old) (request_context D.state session.new registry.new challenger.new)) }
{
    if free_word(&session.held).is_none() {
        return Ok(RequestAnswer::One(refusal(alloc, Status::Unsupported)));
    }
    if !registry.lists(name.as_bytes()) {
        return Ok(RequestAnswer::One(refusal(alloc, Status::Inval)));
    }
    let backend = backend_of(name.as_bytes());
    if !users.needs(backend) {
        return Ok(RequestAnswer::One(take_device(alloc, session, registry, name.as_bytes())));
    }
    let challenge = challenger.next(alloc)?;
    let resource = resource(alloc, backend, challenge.as_bytes())?;
    let reply = Reply::Open {
        status: Status::Good,
        device: 0,
        resource: resource.try_clone(alloc)?,
    };
    session.awaited = Some(AwaitedAuthorization { name, resource });
    Ok(RequestAnswer::One(reply))
}

/// Whether the user may open what is awaited.
fn may_open(
    users: &Users,
    awaited: &AwaitedAuthorization,
    resource: &Text,
    user: &Text,
    password: &Text,
) -> bool
    ensures { IsTrue result ↔ MayOpen users.now awaited.now resource.now user.now password.now }
{
    resource.as_bytes() == awaited.resource.as_bytes()
        && check(
            users,
            user.as_bytes(),
            backend_of(awaited.name.as_bytes()),
            resource.as_bytes(),
            password.as_bytes(),
        )
}

/// AUTHORIZE, while it is awaited.
pub fn authorize<D: Device>(
    alloc: Global,
    session: &mut Session<D>,
    registry: &mut Registry<D>,
    users: &Users,
    awaited: AwaitedAuthorization,
    resource: Text,
    user: Text,
    password: Text,
) -> RequestAnswer
    requires { session.old.awaited ≡ None }
    ensures { (stream : ChaCha)
        → Authorizes users.now (request_context D.state session.old registry.old stream) awaited
        resource user password result (request_context D.state session.new registry.new stream) }
{
    let reply = if may_open(users, &awaited, &resource, &user, &password) {
        take_device(alloc, session, registry, awaited.name.as_bytes())
    } else {
        refusal(alloc, Status::AccessDenied)
    };
    RequestAnswer::Two(Reply::Authorize, reply)
}
