//! What may happen to a job: whether it can, and how it is done.

ghost use Rattle.std.specs.Prelude.{◌≡◌, ◌≢◌, ◌≤◌, ◌↔◌, ◌&&◌, [], min, Some, None, true, false, IsTrue, IsSome, take, drop, length, OnOk, OnErr};
ghost use Rattle.saned_core.specs.declared.session_slot.FrameState.TheVariants as frames;
ghost use Rattle.saned_core.specs.DaemonStates.{core, is_closed, replies_of, after_connected, on_session_slot, on_session, after_end_session};
ghost use Rattle.client_replies.specs.ProtocolStates.{is_running};
ghost use Rattle.event_world.specs.declared.endpoint.Image.{Image};
ghost use Rattle.event_world.specs.Endpoints.{IsCancelled, with_image_link, after_move, without_image_link, without_link};
ghost use Rattle.event_world.specs.JobEvents.{Can, Connects, Does, FeedsPiece, IsFlowing, HasImage, Happens, HeedsPiece, NeedsLink, TakesDataPiece, TakesPieceOfData, SendsRecord, TakesTurn, after_fed, without_ended_image, with_last_page, frame_state_at, image_lost, is_done, bytes_not_delivered, with_data_record, delivered_bytes, IfLinked, without_taken, with_image};

use crate::endpoint::{Endpoint, Image};
use crate::event::JobEvent;
use device_api::Device;
use net_backend::{Outcome, Task};
use saned_core::{Daemon, DataStep, Fed, FrameState, SessionId};
use std::alloc::{AllocError, Global};

/// The most bytes that one delivery moves.
pub const PIECE: usize = 4096;

/// The most bytes of a record, with its head.
const RECORD: usize = 65540;

/// Where the data connections of all sessions are accepted: nobody sees it.
const PORT: u16 = 1;

// ---- whether it can happen

fn has_image(endpoint: &Endpoint) -> bool
    ensures { IsTrue result ↔ HasImage endpoint.now.image (λ bytes. bytes ≢ []) }
{
    match &endpoint.image {
        Some(image) => !image.bytes.is_empty(),
        None => false,
    }
}

fn has_replies<D: Device>(daemon: &Daemon<D>, endpoint: &Endpoint) -> bool
    ensures { IsTrue result
        ↔ IfLinked endpoint.now.link (λ k. replies_of (core D.state daemon.now) k ≢ []) }
{
    match endpoint.link {
        Some(id) => daemon.has_replies(id),
        None => false,
    }
}

fn waits<D: Device>(daemon: &Daemon<D>, endpoint: &Endpoint) -> bool
    ensures { IsTrue result ↔ IfLinked endpoint.now.link
        (λ k. frame_state_at (core D.state daemon.now) k ≡ frames.Waiting) }
{
    match endpoint.link {
        Some(id) => daemon.frame(id) == FrameState::Waiting,
        None => false,
    }
}

fn flows<D: Device>(daemon: &Daemon<D>, endpoint: &Endpoint) -> bool
    ensures { IsTrue result
        ↔ IfLinked endpoint.now.link (λ k. IsFlowing (frame_state_at (core D.state daemon.now) k)) }
{
    match endpoint.link {
        Some(id) => matches!(daemon.frame(id), FrameState::Streaming | FrameState::Ending),
        None => false,
    }
}

/// Whether it can happen to the job now.
pub fn can<D: Device>(daemon: &Daemon<D>, endpoint: &Endpoint, job_event: JobEvent) -> bool
    ensures { IsTrue result ↔ Can (core D.state daemon.now) endpoint.now job_event }
{
    match job_event {
        JobEvent::Connect => endpoint.is_running() && !endpoint.was_connected,
        JobEvent::ToDaemon(n) => endpoint.link.is_some() && endpoint.client.has_out() && n > 0,
        JobEvent::ToClient(n) => has_replies(daemon, endpoint) && n > 0,
        JobEvent::DataConnect => endpoint.client.data_wanted().is_some() && waits(daemon, endpoint),
        JobEvent::DataTurn => endpoint.image.is_some() && flows(daemon, endpoint),
        JobEvent::DataToClient(n) => has_image(endpoint) && n > 0,
        JobEvent::LoseControl => endpoint.link.is_some(),
        JobEvent::LoseImage => endpoint.image.is_some() && endpoint.link.is_some(),
        JobEvent::Cancel => endpoint.is_running(),
    }
}

// ---- how it is done

/// The control connection is made: a session is opened for it.
fn connect<D: Device>(alloc: Global, daemon: &mut Daemon<D>, endpoint: &mut Endpoint)
    ensures { Connects 1 (is_closed (core D.state daemon.old))
        (core D.state daemon.old) endpoint.old (core D.state daemon.new) endpoint.new }
{
    endpoint.spend();
    match daemon.open_session(alloc, PORT) {
        Ok(id) => endpoint.link_to(id),
        Err(_) => endpoint.shut_out(),
    }
}

/// What became of the session in a call.
fn note(fed: Fed, endpoint: &mut Endpoint)
    ensures { endpoint.new ≡ after_fed fed endpoint.old }
{
    match fed {
        Fed::Standing => {}
        Fed::Over => endpoint.is_over = true,
        Fed::Starved => {
            endpoint.is_over = true;
            endpoint.out_of_memory = true;
        }
    }
}

/// Takes the first bytes that the client has written.
fn take_out(endpoint: &mut Endpoint, piece: &mut [u8], n: usize) -> usize
    requires { length piece.old ≡ 4096 }
    ensures within { result ≤ length piece.old }
    ensures bytes { take result piece.new ≡ delivered_bytes n endpoint.old.client.out }
    ensures post { endpoint.new ≡ record endpoint.old {
      client
          = record endpoint.old.client { out = bytes_not_delivered n endpoint.old.client.out };
    } }
{
    let most = n.min(PIECE);
    endpoint.client.take_out(&mut piece[..most])
}

/// Bytes that the client has written come to its session.
fn to_daemon<D: Device>(
    alloc: Global,
    daemon: &mut Daemon<D>,
    endpoint: &mut Endpoint,
    id: SessionId,
    n: usize,
)
    ensures { FeedsPiece id.number n
        (core D.state daemon.old) endpoint.old (core D.state daemon.new) endpoint.new }
{
    let mut piece = [0u8; PIECE];
    let count = take_out(endpoint, &mut piece, n);
    endpoint.spend();
    let fed = daemon.feed(alloc, id, &piece[..count]);
    note(fed, endpoint);
}

/// A piece comes to the client on its control connection. A job that is over ignores it.
fn hear(alloc: Global, endpoint: &mut Endpoint, piece: &[u8])
    ensures { HeedsPiece piece.now endpoint.old endpoint.new }
{
    if !endpoint.is_running() {
        return;
    }
    endpoint.client.feed_control(piece);
    endpoint.drain(alloc);
}

/// Takes the first of the replies of a session.
fn take_replies<D: Device>(
    daemon: &mut Daemon<D>,
    id: SessionId,
    piece: &mut [u8],
    n: usize,
) -> usize
    requires { length piece.old ≡ 4096 }
    ensures within { result ≤ length piece.old }
    ensures bytes { take result piece.new
        ≡ delivered_bytes n (replies_of (core D.state daemon.old) id.number) }
    ensures daemon { core D.state daemon.new ≡ without_taken id.number n (core D.state daemon.old) }
{
    let most = n.min(PIECE);
    daemon.take_reply(id, &mut piece[..most])
}

/// Replies of its session come to the client.
fn to_client<D: Device>(
    alloc: Global,
    daemon: &mut Daemon<D>,
    endpoint: &mut Endpoint,
    id: SessionId,
    n: usize,
)
    ensures daemon { core D.state daemon.new ≡ without_taken id.number n (core D.state daemon.old) }
    ensures hears { HeedsPiece (delivered_bytes n (replies_of (core D.state daemon.old) id.number))
        (after_move endpoint.old) endpoint.new }
{
    let mut piece = [0u8; PIECE];
    let count = take_replies(daemon, id, &mut piece, n);
    endpoint.spend();
    hear(alloc, endpoint, &piece[..count]);
}

/// The connection for a frame is made.
fn dial<D: Device>(alloc: Global, daemon: &mut Daemon<D>, endpoint: &mut Endpoint, id: SessionId)
    ensures daemon { core D.state daemon.new ≡ record (core D.state daemon.old) {
      slots
          = on_session_slot (on_session after_connected) id.number (core D.state daemon.old).slots;
    } }
    ensures post { endpoint.new ≡ with_image_link (after_move endpoint.old) }
{
    let _waits = daemon.data_connected(id);
    endpoint.spend();
    endpoint.dial(alloc);
}

/// A record comes onto the data connection. Where there is no memory nothing changes.
fn load(endpoint: &mut Endpoint, bytes: &[u8], is_last: bool) -> Result<(), AllocError>
    requires { IsSome endpoint.old.image }
    ensures ok { OnOk result ((image : Image) × (endpoint.old.image ≡ Some image)
        × (endpoint.new ≡ with_image (with_data_record bytes.now is_last image) endpoint.old)) }
    ensures err { OnErr result (endpoint.new ≡ endpoint.old) }
{
    if let Some(image) = &mut endpoint.image {
        image.bytes.push(bytes)?;
        image.is_last = is_last;
    }
    Ok(())
}

/// A record is sent, or the connection is lost where there is no memory for it.
fn send<D: Device>(
    daemon: &mut Daemon<D>,
    endpoint: &mut Endpoint,
    id: SessionId,
    bytes: &[u8],
    is_last: bool,
)
    requires { IsSome endpoint.old.image }
    ensures { SendsRecord id.number bytes.now is_last
        (core D.state daemon.old) endpoint.old (core D.state daemon.new) endpoint.new }
{
    endpoint.spend();
    match load(endpoint, bytes, is_last) {
        Ok(()) => {}
        Err(_) => {
            endpoint.image_out_of_memory();
            daemon.data_lost(id);
        }
    }
}

/// The daemon's turn of the data connection.
fn take_turn<D: Device>(daemon: &mut Daemon<D>, endpoint: &mut Endpoint, id: SessionId)
    requires { IsSome endpoint.old.image }
    ensures { TakesTurn id.number
        (core D.state daemon.old) endpoint.old (core D.state daemon.new) endpoint.new }
{
    let mut room = [0u8; RECORD];
    // What it wrote is never more than the room.
    match daemon.data_turn(id, &mut room) {
        DataStep::Idle => endpoint.spend(),
        DataStep::Bytes(n) => send(daemon, endpoint, id, &room[..n.min(room.len())], false),
        DataStep::Last(n) => send(daemon, endpoint, id, &room[..n.min(room.len())], true),
    }
}

fn is_done(outcome: &Outcome) -> bool
    ensures { result ≡ is_done outcome.now }
{
    match outcome {
        Outcome::Done(_) => true,
        Outcome::Running | Outcome::Ended(_, _) => false,
    }
}

/// The last page of a batch that is done with it is laid by.
fn finish(alloc: Global, endpoint: &mut Endpoint)
    ensures { endpoint.new ≡ with_last_page endpoint.old }
{
    if is_done(endpoint.client.outcome()) && endpoint.task.is_batch() {
        endpoint.lay_by(alloc);
    }
}

/// A piece comes to the client on its data connection. A job that is over ignores it.
fn see(alloc: Global, endpoint: &mut Endpoint, piece: &[u8])
    ensures { TakesDataPiece piece.now endpoint.old endpoint.new }
{
    if !endpoint.is_running() {
        return;
    }
    endpoint.client.feed_data(piece);
    endpoint.drain(alloc);
    finish(alloc, endpoint);
}

/// Takes the first bytes on the data connection.
fn take_image(endpoint: &mut Endpoint, piece: &mut [u8], n: usize) -> usize
    requires { length piece.old ≡ 4096 }
    ensures within { result ≤ length piece.old }
    ensures bytes { (image : Image)
        → endpoint.old.image ≡ Some image → take result piece.new ≡ delivered_bytes n image.bytes }
    ensures post { (image : Image) → endpoint.old.image ≡ Some image → endpoint.new
        ≡ with_image (record image { bytes = bytes_not_delivered n image.bytes }) endpoint.old }
{
    let most = n.min(PIECE);
    match &mut endpoint.image {
        Some(image) => image.bytes.take(&mut piece[..most]),
        None => 0,
    }
}

/// Behind the end record the data connection is no more.
fn close_image(endpoint: &mut Endpoint)
    ensures { endpoint.new ≡ without_ended_image endpoint.old }
{
    let is_at_end = match &endpoint.image {
        Some(image) => image.is_last && image.bytes.is_empty(),
        None => false,
    };
    if is_at_end {
        endpoint.image = None;
    }
}

/// Bytes of the data connection come to the client.
fn data_to_client(alloc: Global, endpoint: &mut Endpoint, n: usize)
    requires { IsSome endpoint.old.image }
    ensures { TakesPieceOfData n endpoint.old endpoint.new }
{
    let mut piece = [0u8; PIECE];
    let count = take_image(endpoint, &mut piece, n);
    endpoint.spend();
    see(alloc, endpoint, &piece[..count]);
    close_image(endpoint);
}

/// The control connection is lost.
fn lose_control<D: Device>(daemon: &mut Daemon<D>, endpoint: &mut Endpoint, id: SessionId)
    ensures daemon { core D.state daemon.new
        ≡ after_end_session (core D.state daemon.old) id.number }
    ensures post { endpoint.new ≡ without_link (after_move endpoint.old) }
{
    endpoint.spend();
    endpoint.lose_control();
    daemon.end_session(id);
}

/// The data connection is lost.
fn lose_image<D: Device>(daemon: &mut Daemon<D>, endpoint: &mut Endpoint, id: SessionId)
    ensures daemon { core D.state daemon.new ≡ image_lost id.number (core D.state daemon.old) }
    ensures post { endpoint.new ≡ without_image_link (after_move endpoint.old) }
{
    endpoint.spend();
    endpoint.lose_image();
    daemon.data_lost(id);
}

/// The job, which runs, is given up.
fn cancel(endpoint: &mut Endpoint)
    requires { is_running endpoint.old.client.outcome ≡ true }
    ensures { IsCancelled (after_move endpoint.old) endpoint.new }
{
    endpoint.spend();
    endpoint.cancel();
}

/// It is done to a job whose control connection stands.
fn do_linked<D: Device>(
    alloc: Global,
    daemon: &mut Daemon<D>,
    endpoint: &mut Endpoint,
    id: SessionId,
    job_event: JobEvent,
)
    requires can { Can (core D.state daemon.old) endpoint.old job_event }
    requires link { endpoint.old.link ≡ Some id }
    requires needs { NeedsLink job_event }
    ensures { Does (core D.state daemon.old) endpoint.old job_event
        (core D.state daemon.new) endpoint.new }
{
    match job_event {
        JobEvent::ToDaemon(n) => to_daemon(alloc, daemon, endpoint, id, n),
        JobEvent::ToClient(n) => to_client(alloc, daemon, endpoint, id, n),
        JobEvent::DataConnect => dial(alloc, daemon, endpoint, id),
        JobEvent::DataTurn => take_turn(daemon, endpoint, id),
        JobEvent::LoseControl => lose_control(daemon, endpoint, id),
        JobEvent::LoseImage => lose_image(daemon, endpoint, id),
        JobEvent::Connect | JobEvent::DataToClient(_) | JobEvent::Cancel => {}
    }
}

/// It is done to a job.
fn make<D: Device>(
    alloc: Global,
    daemon: &mut Daemon<D>,
    endpoint: &mut Endpoint,
    job_event: JobEvent,
)
    requires { Can (core D.state daemon.old) endpoint.old job_event }
    ensures { Does (core D.state daemon.old) endpoint.old job_event
        (core D.state daemon.new) endpoint.new }
{
    match job_event {
        JobEvent::Connect => connect(alloc, daemon, endpoint),
        JobEvent::DataToClient(n) => data_to_client(alloc, endpoint, n),
        JobEvent::Cancel => cancel(endpoint),
        job_event => {
            if let Some(id) = endpoint.link {
                do_linked(alloc, daemon, endpoint, id, job_event);
            }
        }
    }
}

/// It happens to a job, where it can.
pub fn happen<D: Device>(
    alloc: Global,
    daemon: &mut Daemon<D>,
    endpoint: &mut Endpoint,
    job_event: JobEvent,
)
    ensures { Happens (core D.state daemon.old) endpoint.old job_event
        (core D.state daemon.new) endpoint.new }
{
    if can(daemon, endpoint, job_event) {
        make(alloc, daemon, endpoint, job_event);
    }
}
