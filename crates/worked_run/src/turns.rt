//! A daemon and a client in turn, call by call: a request and its replies, and a frame.

ghost use Rattle.std.specs.Prelude.{◌≡◌, ◌≤◌, ◌++◌, List, ℕ, [], true, false, IfSome, length, take};
ghost use Rattle.scan_job.specs.declared.job.Job.{Job as JobValue};
ghost use Rattle.scan_job.specs.JobSize.{HasCount};
ghost use Rattle.client_replies.specs.ProtocolStates.{is_ended, is_running, scans};
ghost use Rattle.net_client.specs.ClientStates.{ClientState, IsNewClient};
ghost use Rattle.net_jobs.specs.JobJournal.{IsPiece};
ghost use Rattle.saned_core.specs.DaemonStates.{Core, core};
ghost use Rattle.saned_core.specs.Feeding.{Feeds};
ghost use Rattle.saned_core.specs.declared.session_slot.Fed.TheVariants.{Standing};
ghost use Rattle.saned_serve.specs.SessionActions.{AreRepliesTaken, is_end_record, written_by};
ghost use Rattle.worked_run.specs.Rounds.{GivesFile, IsDialledOnce, IsRecord, IsCallRound, said_all};
ghost use Rattle.worked_run.specs.UnderWay.{IsAtData, IsAtRest};

use device_api::Device;
use net_client::Client;
use saned_core::{Daemon, DataStep, Fed, SessionId};
use scan_job::{Outcome, Task};
use std::alloc::Global;

/// The most bytes that are written or read at once, and that a record may have here.
const PIECE: usize = 4096;

/// The room for a record.
const RECORD: usize = 65_483;

/// More turns than a small job takes.
pub(crate) const MOST_TURNS: u64 = 1 << 20;

/// Whether a task scans a page to a file; none of a batch.
pub(crate) fn is_scan(task: Task) -> Option<bool>
    ensures { IfSome result (λ scan. (scan ≡ scans task) × HasCount task) }
{
    match task {
        Task::Scan => Some(true),
        Task::List | Task::Show | Task::SetOnly => Some(false),
        Task::Batch(_) => None,
    }
}

fn has_ended(client: &Client) -> bool
    ensures { result ≡ is_ended client.now.outcome }
{
    match client.outcome() {
        Outcome::Running | Outcome::Done(_) => false,
        Outcome::Ended(_, _) => true,
    }
}

/// Two pieces of the file go out, the second of them empty; nothing of a job that scans none.
fn give_file(client: &mut Client, scan: bool, file: &mut Vec<u8>) -> bool
    ensures { result ≡ true → (bytes : List ℕ) × GivesFile scan client.old bytes client.new
        × (file.new.items ≡ file.old.items ++ bytes) }
{
    if !scan {
        return true;
    }
    if client.is_turning() {
        return false;
    }
    let mut room = [0u8; PIECE];
    let count = client.take_file(&mut room);
    if file.extend_from_slice(&room[..count]).is_err() {
        return false;
    }
    client.take_file(&mut room) == 0
}

/// The client writes all that is to go out.
fn say(client: &mut Client, room: &mut [u8]) -> Option<usize>
    requires { length room.old ≡ 4096 }
    ensures said { IfSome result (λ n. (n ≤ 4096) × (take n room.new ≡ client.old.out)
        × IsPiece client.old.out × (client.new ≡ said_all client.old)) }
    ensures room { length room.new ≡ 4096 }
{
    let count = client.take_out(room);
    if count == 0 || client.has_out() {
        return None;
    }
    Some(count)
}

/// The daemon is fed a piece, and the session stands.
fn feed<D: Device>(alloc: Global, daemon: &mut Daemon<D>, id: SessionId, piece: &[u8]) -> bool
    requires { length piece.now ≤ 4096 }
    ensures { result ≡ true → Feeds id.number
        (core D.state daemon.old) piece.now Standing (core D.state daemon.new) }
{
    match daemon.feed(alloc, id, piece) {
        Fed::Standing => true,
        Fed::Over | Fed::Starved => false,
    }
}

/// Replies are taken.
fn take_replies<D: Device>(daemon: &mut Daemon<D>, id: SessionId, room: &mut [u8]) -> usize
    requires { length room.old ≡ 4096 }
    ensures count { result ≤ 4096 }
    ensures room { length room.new ≡ 4096 }
    ensures taken { AreRepliesTaken (core D.state daemon.old) id.number 4096
        (take result room.new) (core D.state daemon.new) }
{
    daemon.take_reply(id, room)
}

/// A request and its replies.
fn ask<D: Device>(
    alloc: Global,
    daemon: &mut Daemon<D>,
    id: SessionId,
    client: &mut Client,
    scan: bool,
    file: &mut Vec<u8>,
) -> bool
    ensures { id.number ≡ 0 → result ≡ true → (bytes : List ℕ) × IsCallRound scan
        (core D.state daemon.old) client.old bytes (core D.state daemon.new) client.new
        × (file.new.items ≡ file.old.items ++ bytes) }
{
    if client.is_over() || client.is_receiving() {
        return false;
    }
    let mut room = [0u8; PIECE];
    let Some(count) = say(client, &mut room) else {
        return false;
    };
    if !feed(alloc, daemon, id, &room[..count]) {
        return false;
    }
    let told = take_replies(daemon, id, &mut room);
    if told == 0 {
        return false;
    }
    client.feed_control(&room[..told]);
    if has_ended(client) || !give_file(client, scan, file) {
        return false;
    }
    take_replies(daemon, id, &mut room) == 0
}

/// The data connection that the client wants is made.
fn dial<D: Device>(daemon: &mut Daemon<D>, id: SessionId, client: &mut Client) -> bool
    ensures { id.number ≡ 0 → result ≡ true → IsDialledOnce
        (core D.state daemon.old) client.old (core D.state daemon.new) client.new }
{
    if client.is_over() {
        return false;
    }
    let Some(_port) = client.data_wanted() else {
        return false;
    };
    client.data_opened();
    daemon.data_connected(id)
}

/// How many bytes a turn wrote, if it wrote any.
fn written(step: DataStep) -> usize
    ensures { result ≡ written_by step }
{
    match step {
        DataStep::Idle => 0,
        DataStep::Bytes(n) | DataStep::Last(n) => n,
    }
}

/// A record is taken of the daemon and by the client.
fn take_record<D: Device>(
    daemon: &mut Daemon<D>,
    id: SessionId,
    client: &mut Client,
    scan: bool,
    file: &mut Vec<u8>,
) -> Option<DataStep>
    ensures { IfSome result (λ step. id.number ≡ 0 → (bytes : List ℕ) × IsRecord scan
        (core D.state daemon.old) client.old step bytes (core D.state daemon.new) client.new
        × (file.new.items ≡ file.old.items ++ bytes)) }
{
    if !client.is_receiving() {
        return None;
    }
    let mut room = [0u8; RECORD];
    let step = daemon.data_turn(id, &mut room);
    let count = written(step);
    if count == 0 || count > PIECE {
        return None;
    }
    client.feed_data(&room[..count]);
    if !give_file(client, scan, file) {
        return None;
    }
    Some(step)
}

fn is_end(step: DataStep) -> bool
    ensures { result ≡ is_end_record step }
{
    match step {
        DataStep::Idle | DataStep::Bytes(_) => false,
        DataStep::Last(_) => true,
    }
}

/// A frame, from its data connection to its end record.
fn take_frame<D: Device>(
    daemon: &mut Daemon<D>,
    id: SessionId,
    client: &mut Client,
    scan: bool,
    file: &mut Vec<u8>,
) -> bool
    ensures { id.number ≡ 0 → result ≡ true → (job : JobValue) (start : Core)
        → scan ≡ scans job.task
        → IsAtRest false job start (core D.state daemon.old) client.old file.old.items
        → IsAtRest false job start (core D.state daemon.new) client.new file.new.items }
{
    if !dial(daemon, id, client) {
        return false;
    }
    for _turn in 0..MOST_TURNS {
        let Some(step) = take_record(daemon, id, client, scan, file) else {
            return false;
        };
        if is_end(step) {
            return true;
        }
    }
    false
}

/// The session of the job's control connection.
pub(crate) fn open_session<D: Device>(alloc: Global, daemon: &mut Daemon<D>) -> Option<SessionId>
    ensures number { IfSome result (λ id. daemon.old.opened ≡ 0 → id.number ≡ 0) }
    ensures rest { IfSome result (λ id. daemon.old.opened ≡ 0
        → (job : JobValue) (c : ClientState) → IsNewClient job c
        → IsAtRest false job (core D.state daemon.old) (core D.state daemon.new) c []) }
{
    let Ok(id) = daemon.open_session(alloc, 1) else {
        return None;
    };
    let mut room = [0u8; PIECE];
    if take_replies(daemon, id, &mut room) > 0 {
        return None;
    }
    Some(id)
}

/// A frame where the client wants its data connection, and else a request.
fn take_turn<D: Device>(
    alloc: Global,
    daemon: &mut Daemon<D>,
    id: SessionId,
    client: &mut Client,
    scan: bool,
    file: &mut Vec<u8>,
) -> bool
    ensures { id.number ≡ 0 → result ≡ true → (job : JobValue) (start : Core)
        → scan ≡ scans job.task
        → IsAtRest false job start (core D.state daemon.old) client.old file.old.items
        → IsAtRest false job start (core D.state daemon.new) client.new file.new.items }
{
    if client.data_wanted().is_some() {
        take_frame(daemon, id, client, scan, file)
    } else {
        ask(alloc, daemon, id, client, scan, file)
    }
}

/// Turns until the job is over.
pub(crate) fn run_to_end<D: Device>(
    alloc: Global,
    daemon: &mut Daemon<D>,
    id: SessionId,
    client: &mut Client,
    scan: bool,
    file: &mut Vec<u8>,
) -> bool
    ensures rests { id.number ≡ 0 → result ≡ true → (job : JobValue) (start : Core)
        → scan ≡ scans job.task
        → IsAtRest false job start (core D.state daemon.old) client.old file.old.items
        → IsAtRest false job start (core D.state daemon.new) client.new file.new.items }
    ensures over { result ≡ true → is_running client.new.outcome ≡ false }
{
    for _turn in 0..MOST_TURNS {
        if client.is_over() {
            return true;
        }
        if !take_turn(alloc, daemon, id, client, scan, file) {
            return false;
        }
    }
    false
}
