ghost use Rattle.std.specs.Prelude.{◌≡◌, ◌<◌, ◌≤◌, ◌⊎◌, if◌then◌else◌, ℕ, [], true, false, not, Some, None, Ok, List, Option, IsTrue, IfOk, IfErr, take, length};
ghost use Rattle.std.specs.Fn.{FnOnceReturnsAt};
ghost use Rattle.std.specs.Io.KnownBytes.{Appends, Consumes};
ghost use Rattle.scan_job.specs.declared.job.Job.{Job as JobValue};
ghost use Rattle.scan_job.specs.JobSize.{HasCount};
ghost use Rattle.scan_job.specs.declared.outcome.Outcome.TheVariants.{Done, Ended};
ghost use Rattle.scan_job.specs.declared.outcome.Why.TheVariants.{Sink};
ghost use Rattle.scan_job.specs.declared.report.Reports.{Reports as ReportsValue};
ghost use Rattle.scan_job.specs.Outcomes.{IfDone, IsOver, over_as};
ghost use Rattle.client_replies.specs.ProtocolStates.{is_running, is_receiving, scans, wanted_port};
ghost use Rattle.net_client.specs.ClientStates.{HasEarlyReply, IsNewClient};
ghost use Rattle.net_client.specs.ToldPorts.{port_told};
ghost use Rattle.net_jobs.specs.JobJournal.{JobMove};
ghost use Rattle.net_jobs.specs.Batches.{RefusesBatch};
ghost use Rattle.net_jobs.specs.Inside.{AreOfTurn, IfOpenLiesWithin, LiesWithin, ahead_of, left_ahead, read_ahead, StopsAs, DialsOrLoses, HearsOrLoses, IsLost, KeepsNotes, KeepsReads, KeepsWrites, MovesAll, TakesLeave, TakesOrLoses, loop_state, no_notes, notes_of, turns_to_go};
ghost use Rattle.net_jobs.specs.Inside.{CameDone, CameEnded, CameTo, FailsFor, Fills, FillsShort, HoldsNone};
ghost use Rattle.net_jobs.specs.Links.{IsTold, views_of, with_port};
ghost use Rattle.net_jobs.specs.RunPromises.{RunsJob, StopsJob, IfReports, IfStops, refused_as, seen, stream_views, streams};

use crate::calls::CallTally;
use crate::dial::Dial;
use crate::sink::{FileSink, SingleSink};
use byte_output::OutputTally;
use frame_join::{no_file_is_endless, no_front_is_whole, not_whole_before, whole_shows};
use net_client::{Client, Link};
use netpbm::no_whole_prefix;
use sane_fixed::{NoMem, Status};
use scan_job::{Job, JobFault, Outcome, Reports, Stop, Task, Why};
use std::alloc::{AllocError, Global};
use std::io::{ErrorKind, Read, Write};
use std::mem;

/// More than a file has bytes.
const MOST_PULLS: u64 = 1 << 40;

/// The most bytes that are read or written at once: a record of saned, at most 65,483 bytes, comes in one read.
const PIECE: usize = 131_072;

/// The most bytes that a client is given at once.
const MOST_GIVEN: usize = 4096;

/// A data connection, and where the bytes lie that were read of it and that its client has not taken yet.
#[derive(Drop)]
pub(crate) struct DataStream<R: Drop> {
    conn: R,
    at: usize,
    end: usize,
}

/// Room for a piece.
fn piece(alloc: Global) -> Result<Vec<u8>, AllocError>
    ensures { IfOk result (λ v. length v.items ≡ 131072) }
{
    vec![in alloc; 0u8; PIECE]
}

/// How a job that is refused ends.
pub(crate) fn stop_of_fault(fault: JobFault) -> Stop
    ensures { Ended result.status result.why ≡ refused_as fault }
{
    match fault {
        JobFault::NoMem => Stop::no_memory(),
        JobFault::TooManySettings | JobFault::TextTooLong | JobFault::BadCount => {
            Stop {
                status: Status::Inval,
                why: Why::Setting,
            }
        }
    }
}

/// Whether a task scans pages.
fn is_scanning(task: Task) -> bool
    ensures { result ≡ scans task }
{
    match task {
        Task::Scan | Task::Batch(_) => true,
        Task::List | Task::Show | Task::SetOnly => false,
    }
}

/// Writes the bytes to the control connection, and makes an interrupted write again. Says whether it took them all; a write
/// that fails, or of which nothing is taken, ends it, and then it took a proper front of them.
fn write_whole<C: Write>(control: &mut C, bytes: &[u8], tally: &mut CallTally) -> bool
    requires { tally.old.write_failed ≡ false }
    ensures whole { IsTrue result
        → Appends (C.contents control.old) (C.contents control.new) bytes.now }
    ensures front { result ≡ false → (n : ℕ) × (n < length bytes.now)
        × Appends (C.contents control.old) (C.contents control.new) (take n bytes.now) }
    ensures told { tally.new.write_failed ≡ not result }
    ensures rest { KeepsReads tally.old tally.new }
{
    let mut at = 0;
    while at < bytes.len() {
        match tally.write(control, &bytes[at..]) {
            Ok(0) => return false,
            Ok(n) => at += n,
            Err(e) if e.kind() == ErrorKind::Interrupted => {
                if !tally.take_again() {
                    return false;
                }
            }
            Err(_) => return false,
        }
    }
    true
}

/// Writes all bytes that a client has for the control connection. Says whether it took them.
fn write_out<C: Write>(
    client: &mut Client,
    control: &mut C,
    room: &mut [u8],
    tally: &mut CallTally,
) -> bool
    requires room { 0 < length room.old }
    requires up { tally.old.write_failed ≡ false }
    ensures room { length room.new ≡ length room.old }
    ensures rest { client.new ≡ record client.old { out = client.new.out } }
    ensures whole { IsTrue result
        → Appends (C.contents control.old) (C.contents control.new) client.old.out }
    ensures none { IsTrue result → client.new.out ≡ [] }
    ensures front { result ≡ false → (n : ℕ) × (n < length client.old.out)
        × Appends (C.contents control.old) (C.contents control.new) (take n client.old.out) }
    ensures told { tally.new.write_failed ≡ not result }
    ensures reads { KeepsReads tally.old tally.new }
{
    loop {
        let n = client.take_out(room);
        if n == 0 {
            return true;
        }
        if !write_whole(control, &room[..n], tally) {
            return false;
        }
    }
}

/// Reads once, and makes an interrupted read again; none where the stream fails or ends, or the reads are used up.
fn read_piece<R: Read>(stream: &mut R, piece: &mut [u8], tally: &mut CallTally) -> usize
    requires held { tally.old.loss ≡ None }
    requires room { 0 < length piece.old }
    ensures count { result ≤ length piece.old }
    ensures room { length piece.new ≡ length piece.old }
    ensures bytes { Consumes (R.remaining stream.old)
        (R.remaining stream.new) (take result piece.new) }
    ensures some { 0 < result → tally.new.loss ≡ None }
    ensures none { result ≡ 0 → IsLost tally.new.loss }
    ensures writes { KeepsWrites tally.old tally.new }
{
    while tally.take_read() {
        match tally.read(stream, piece) {
            Ok(n) => return n,
            Err(e) if e.kind() == ErrorKind::Interrupted => {}
            Err(_) => return 0,
        }
    }
    0
}

/// Reads the control connection once.
fn hear<C: Read>(client: &mut Client, control: &mut C, piece: &mut [u8], tally: &mut CallTally)
    requires room { 0 < length piece.old }
    requires few { length piece.old ≤ 4096 }
    requires running { is_running client.old.outcome ≡ true }
    requires quiet { is_receiving client.old.outcome client.old.progress ≡ false }
    requires held { tally.old.loss ≡ None }
    ensures room { length piece.new ≡ length piece.old }
    ensures heard { HearsOrLoses client.old (C.remaining control.old)
        client.new (C.remaining control.new) tally.new.loss }
    ensures writes { KeepsWrites tally.old tally.new }
{
    match read_piece(control, piece, tally) {
        0 => client.link_lost(Link::Control),
        n => client.feed_control(&piece[..n]),
    }
}

/// Reads the data connection once, where all that was read of it is taken. Says whether there are bytes to take.
fn read_on<R: Read + Drop>(
    stream: &mut DataStream<R>,
    room: &mut [u8],
    tally: &mut CallTally,
) -> bool
    requires room { 0 < length room.old }
    requires within { LiesWithin stream.old room.old }
    requires held { tally.old.loss ≡ None }
    ensures room { length room.new ≡ length room.old }
    ensures within { LiesWithin stream.new room.new }
    ensures bytes { Consumes (left_ahead R.remaining (read_ahead room.old stream.old))
        (left_ahead R.remaining (read_ahead room.new stream.new)) [] }
    ensures some { result ≡ true → stream.new.at < stream.new.end }
    ensures held { result ≡ true → tally.new.loss ≡ None }
    ensures none { result ≡ false → IsLost tally.new.loss }
    ensures writes { KeepsWrites tally.old tally.new }
{
    if stream.at < stream.end {
        return true;
    }
    stream.at = 0;
    stream.end = read_piece(&mut stream.conn, room, tally);
    stream.end > 0
}

/// Gives the client the next bytes of the data connection, and lets this go after the end record.
fn see<R: Read + Drop>(
    client: &mut Client,
    stream: DataStream<R>,
    room: &mut [u8],
    tally: &mut CallTally,
) -> Option<DataStream<R>>
    requires room { 0 < length room.old }
    requires receiving { is_receiving client.old.outcome client.old.progress ≡ true }
    requires within { LiesWithin stream room.old }
    requires held { tally.old.loss ≡ None }
    ensures room { length room.new ≡ length room.old }
    ensures within { IfOpenLiesWithin result room.new }
    ensures seen { TakesOrLoses (left_ahead R.remaining) client.old (read_ahead room.old stream)
        client.new (ahead_of result room.new) tally.new.loss }
    ensures writes { KeepsWrites tally.old tally.new }
{
    let mut stream = stream;
    if !read_on(&mut stream, room, tally) {
        client.link_lost(Link::Image);
        return None;
    }
    let n = (stream.end - stream.at).min(MOST_GIVEN);
    client.feed_data(&room[stream.at..stream.at + n]);
    stream.at += n;
    if client.is_receiving() {
        Some(stream)
    } else {
        None
    }
}

/// Makes the data connection of a frame.
fn connect<D: Dial>(
    client: &mut Client,
    dial: &mut D,
    port: u16,
    tally: &mut CallTally,
) -> Option<DataStream<D::Conn>>
    requires running { is_running client.old.outcome ≡ true }
    requires wanted { wanted_port client.old.progress ≡ Some port }
    requires held { tally.old.loss ≡ None }
    ensures asked { D.ports dial.new ≡ with_port port (D.ports dial.old) }
    ensures kept { D.prepared dial.new ≡ D.prepared dial.old }
    ensures dialled { (room : List ℕ)
        → DialsOrLoses (left_ahead D.Conn.remaining) client.old (D.coming dial.old) port
        client.new (D.coming dial.new) (ahead_of result room) tally.new.loss }
    ensures within { (room : List ℕ) → IfOpenLiesWithin result room }
    ensures writes { KeepsWrites tally.old tally.new }
{
    match tally.dial(dial, port) {
        Ok(conn) => {
            client.data_opened();
            Some(DataStream {
                conn,
                at: 0,
                end: 0,
            })
        }
        Err(_) => {
            client.link_lost(Link::Image);
            None
        }
    }
}

/// If requests were just written and the parameters of a frame are awaited, tells the dialer of that frame's port. The connection
/// may be made behind the request for the parameters, before their reply.
fn prepare<D: Dial>(client: &Client, dial: &mut D, has_asked: bool)
    ensures told { IsTold (if has_asked then port_told client.now.progress else None)
        (D.prepared dial.old) (D.prepared dial.new) }
    ensures ports { D.ports dial.new ≡ D.ports dial.old }
    ensures coming { D.coming dial.new ≡ D.coming dial.old }
{
    if !has_asked {
        return;
    }
    if let Some(port) = client.port_told() {
        dial.prepare(port);
    }
}

/// Writes what is to go out, and then makes the data connection that is wanted or reads the control connection once. Says
/// whether it read it.
fn exchange<C: Read + Write, D: Dial>(
    client: &mut Client,
    control: &mut C,
    dial: &mut D,
    stream: &mut Option<DataStream<D::Conn>>,
    ahead: &[u8],
    room: &mut [u8],
    tally: &mut CallTally,
) -> bool
    requires room { 4096 ≤ length room.old }
    requires within { IfOpenLiesWithin stream.old ahead.now }
    requires running { is_running client.old.outcome ≡ true }
    requires quiet { is_receiving client.old.outcome client.old.progress ≡ false }
    requires held { tally.old.loss ≡ None }
    requires up { tally.old.write_failed ≡ false }
    ensures room { length room.new ≡ length room.old }
    ensures within { IfOpenLiesWithin stream.new ahead.now }
    ensures moved { (moves : List JobMove) × AreOfTurn result client.new moves × MovesAll
        (views_of C.remaining C.contents D.ports D.prepared) (left_ahead D.Conn.remaining)
        (loop_state D.coming client.old control.old dial.old
        (ahead_of stream.old ahead.now) tally.old) moves
        (loop_state D.coming
        client.new control.new dial.new (ahead_of stream.new ahead.now) tally.new) }
    ensures held { is_running client.new.outcome ≡ true → tally.new.loss ≡ None }
    ensures up { is_running client.new.outcome ≡ true → tally.new.write_failed ≡ false }
    ensures turns { tally.new.turns ≡ tally.old.turns }
{
    let has_asked = client.has_out();
    if !write_out(client, control, room, tally) {
        client.link_lost(Link::Control);
        return false;
    }
    if let Some(port) = client.data_wanted() {
        *stream = connect(client, dial, port, tally);
        return false;
    }
    prepare(client, dial, has_asked);
    hear(client, control, &mut room[..MOST_GIVEN], tally);
    true
}

/// Whether to look again at what came before it was asked for. It does so in no two turns in a row, since a daemon that spoke too
/// early may have said less than a reply.
fn looks_again(client: &Client, has_looked: &mut bool) -> bool
    ensures early { result ≡ true → HasEarlyReply client.now }
    ensures once { result ≡ true → has_looked.old ≡ false }
    ensures looks { has_looked.old ≡ false → HasEarlyReply client.now → result ≡ true }
    ensures noted { has_looked.new ≡ result }
{
    let is_early = !*has_looked && client.has_early_reply();
    *has_looked = is_early;
    is_early
}

/// A turn of a job that runs: takes bytes of the data connection of its frame, looks again at what came before it was asked
/// for, or exchanges with the daemon. Says whether something came, unless the job is over.
fn go_on<C: Read + Write, D: Dial>(
    client: &mut Client,
    control: &mut C,
    dial: &mut D,
    stream: &mut Option<DataStream<D::Conn>>,
    ahead: &mut [u8],
    room: &mut [u8],
    has_looked: &mut bool,
    tally: &mut CallTally,
) -> bool
    requires ahead { 0 < length ahead.old }
    requires room { 4096 ≤ length room.old }
    requires within { IfOpenLiesWithin stream.old ahead.old }
    requires running { is_running client.old.outcome ≡ true }
    requires held { tally.old.loss ≡ None }
    requires up { tally.old.write_failed ≡ false }
    ensures ahead { length ahead.new ≡ length ahead.old }
    ensures room { length room.new ≡ length room.old }
    ensures within { IfOpenLiesWithin stream.new ahead.new }
    ensures moved { (moves : List JobMove) × AreOfTurn result client.new moves × MovesAll
        (views_of C.remaining C.contents D.ports D.prepared) (left_ahead D.Conn.remaining)
        (loop_state D.coming client.old control.old dial.old
        (ahead_of stream.old ahead.old) tally.old) moves
        (loop_state D.coming
        client.new control.new dial.new (ahead_of stream.new ahead.new) tally.new) }
    ensures held { is_running client.new.outcome ≡ true → tally.new.loss ≡ None }
    ensures up { is_running client.new.outcome ≡ true → tally.new.write_failed ≡ false }
    ensures turns { turns_to_go client.new.outcome tally.new.turns
        < turns_to_go client.old.outcome tally.old.turns }
{
    if !tally.take_turn() {
        client.link_lost(Link::Control);
        return false;
    }
    if client.is_receiving() {
        let Some(open) = stream.take() else {
            return false;
        };
        *stream = see(client, open, ahead, tally);
        return true;
    }
    if looks_again(client, has_looked) {
        client.feed_control(&[]);
        return true;
    }
    exchange(client, control, dial, stream, ahead, room, tally)
}

/// Writes all bytes of the file that may go out, but none behind the last byte of a page that another is to follow; then its
/// output is given back. Says whether all this was taken.
fn drain<T, K: FileSink<T>>(
    client: &mut Client,
    room: &mut [u8],
    to: &mut T,
    sink: &mut K,
    tally: &mut CallTally,
) -> bool
    requires { 0 < length room.old }
    ensures room { length room.new ≡ length room.old }
    ensures calls { KeepsNotes tally.old tally.new }
    ensures outcome { client.new.outcome ≡ client.old.outcome }
    ensures drained { result ≡ true
        → Fills client.old (K.state to.old sink.old) client.new (K.state to.new sink.new) }
    ensures short { result ≡ false
        → FillsShort client.old (K.state to.old sink.old) client.new (K.state to.new sink.new) }
    ensures failed { result ≡ false
        → FailsFor client.old (K.state to.old sink.old) tally.new.output.failed }
{
    no_file_is_endless();
    no_front_is_whole();
    no_whole_prefix();
    for _i in 0..MOST_PULLS {
        let number = client.file_number();
        let is_page = client.is_turning();
        let n = client.take_file(room);
        if n == 0 {
            return true;
        }
        if !sink.take(to, number, &room[..n], &mut tally.output) {
            return false;
        }
        if is_page && !client.is_turning() {
            return sink.end_file(to, &mut tally.output);
        }
    }
    false
}

/// Writes the bytes of the files of a job that scans; nothing of any other job.
fn fill<T, K: FileSink<T>>(
    client: &mut Client,
    is_scanning: bool,
    room: &mut [u8],
    to: &mut T,
    sink: &mut K,
    tally: &mut CallTally,
) -> bool
    requires { 0 < length room.old }
    ensures room { length room.new ≡ length room.old }
    ensures calls { KeepsNotes tally.old tally.new }
    ensures outcome { client.new.outcome ≡ client.old.outcome }
    ensures none { is_scanning ≡ false → (result ≡ true)
        × (client.new ≡ client.old) × (K.state to.new sink.new ≡ K.state to.old sink.old) }
    ensures drained { is_scanning ≡ true → result ≡ true
        → Fills client.old (K.state to.old sink.old) client.new (K.state to.new sink.new) }
    ensures short { result ≡ false
        → FillsShort client.old (K.state to.old sink.old) client.new (K.state to.new sink.new) }
    ensures failed { result ≡ false
        → FailsFor client.old (K.state to.old sink.old) tally.new.output.failed }
{
    if !is_scanning {
        return true;
    }
    drain(client, room, to, sink, tally)
}

/// What is to be told of a job that is over, if it is done.
fn told_of<T: Drop, F: FnOnce(&Reports) -> Result<T, NoMem> + Drop>(
    outcome: &Outcome,
    tell: F,
) -> Result<T, Stop>
    requires over { IsOver outcome.now }
    requires tell { F.IsAlwaysCallable tell }
    ensures told { IfOk result (λ told. (reports : ReportsValue) × (outcome.now ≡ Done reports)
        × FnOnceReturnsAt F.FnOnce tell reports (Ok told)) }
    ensures ended { IfErr result (λ stop. StopsAs outcome.now stop) }
{
    match outcome {
        Outcome::Done(reports) => Ok(tell(reports)?),
        Outcome::Ended(status, why) => {
            Err(Stop {
                status: *status,
                why: *why,
            })
        }
        Outcome::Running => unreachable!(),
    }
}

/// Takes leave of a daemon: writes what a job that is over sends last, where no write failed before, and gives its outcome.
fn part<C: Write>(
    client: Client,
    control: &mut C,
    room: &mut [u8],
    tally: &mut CallTally,
) -> Outcome
    requires room { 0 < length room.old }
    requires over { is_running client.outcome ≡ false }
    ensures over { IsOver result }
    ensures outcome { result ≡ client.outcome }
    ensures left { TakesLeave C.contents control.old (notes_of tally.old) client.out
        control.new (notes_of tally.new) }
{
    let mut client = client;
    if !tally.has_write_failed() {
        let _ = write_out(&mut client, control, room, tally);
    }
    client.into_outcome()
}

/// Runs a client to its end. The last bytes of the file of a job that is done go out once what is to be told of it is there.
/// What is open of the files then stays so.
fn run_client<C, D, T, K, U, F>(
    mut client: Client,
    control: &mut C,
    dial: &mut D,
    to: &mut T,
    sink: &mut K,
    is_scanning: bool,
    ahead: &mut [u8],
    room: &mut [u8],
    tally: &mut CallTally,
    tell: F,
) -> Result<(Reports, U), Stop>
where
    C: Read + Write,
    D: Dial,
    K: FileSink<T>,
    U: Drop,
    F: FnOnce(&Reports) -> Result<U, NoMem> + Drop,
    requires ahead { 0 < length ahead.old }
    requires room { 4096 ≤ length room.old }
    requires new { notes_of tally.old ≡ no_notes }
    requires tell { F.IsAlwaysCallable tell }
    ensures came { (job : JobValue) → IsNewClient job client → HasCount job.task
        → is_scanning ≡ scans job.task → HoldsNone (K.state to.old sink.old)
        → CameTo (views_of C.remaining C.contents D.ports D.prepared) job
        (seen D.coming (λ it. K.state it sink.old) (streams control.old dial.old to.old))
        (seen D.coming (λ it. K.state it sink.new) (streams control.new dial.new to.new))
        (over_as result) (notes_of tally.new) }
    // It ends for its output only where that failed.
    ensures output { (job : JobValue) → IsNewClient job client → HasCount job.task
        → is_scanning ≡ scans job.task → HoldsNone (K.state to.old sink.old)
        → IfErr result (λ stop. stop.why ≡ Sink → tally.new.output.failed ≡ true) }
    ensures told { IfOk result (λ done. FnOnceReturnsAt F.FnOnce tell done.0 (Ok done.1)) }
{
    not_whole_before();
    whole_shows();
    let mut stream = None;
    let mut has_looked = false;
    while !client.is_over() {
        let came = go_on(
            &mut client,
            control,
            dial,
            &mut stream,
            ahead,
            room,
            &mut has_looked,
            tally,
        );
        if came && !client.is_over() && !fill(&mut client, is_scanning, room, to, sink, tally) {
            return Err(Stop::failed_output());
        }
    }
    let told = told_of(client.outcome(), tell);
    if told.is_ok() && !fill(&mut client, is_scanning, room, to, sink, tally) {
        return Err(Stop::failed_output());
    }
    let outcome = part(client, control, room, tally);
    let told = told?;
    let Outcome::Done(reports) = outcome else {
        unreachable!()
    };
    Ok((reports, told))
}

/// Does a job whose files go to a sink, as `run_job_with` and `run_batch_with` do it. What is open of the files then stays so.
pub(crate) fn run_to<C, D, T, K, U, F>(
    alloc: Global,
    job: Job,
    control: &mut C,
    dial: &mut D,
    to: &mut T,
    sink: &mut K,
    outputs: &mut OutputTally,
    tell: F,
) -> Result<(Reports, U), Stop>
where
    C: Read + Write,
    D: Dial,
    K: FileSink<T>,
    U: Drop,
    F: FnOnce(&Reports) -> Result<U, NoMem> + Drop,
    requires tell { F.IsAlwaysCallable tell }
    requires count { HasCount job.task }
    requires none { HoldsNone (K.state to.old sink.old) }
    ensures done { IfReports result (CameDone
        (views_of C.remaining C.contents D.ports D.prepared) job
        (seen D.coming (λ it. K.state it sink.old) (streams control.old dial.old to.old))
        (seen D.coming (λ it. K.state it sink.new) (streams control.new dial.new to.new))) }
    // A job that is refused, or finds no memory for its buffers, touches nothing.
    ensures ended { IfErr result (λ stop. (RefusesBatch job (Ended stop.status stop.why)
        (streams control.old dial.old to.old) (streams control.new dial.new to.new)
        × (sink.new ≡ sink.old))
        ⊎ CameEnded (views_of C.remaining C.contents D.ports D.prepared) job
        (seen D.coming (λ it. K.state it sink.old) (streams control.old dial.old to.old))
        (seen D.coming (λ it. K.state it sink.new) (streams control.new dial.new to.new)) stop) }
    ensures output { IfErr result (λ stop. stop.why ≡ Sink → outputs.new.failed ≡ true) }
    ensures told { IfOk result (λ done. FnOnceReturnsAt F.FnOnce tell done.0 (Ok done.1)) }
{
    let mut ahead = piece(alloc)?;
    let mut room = piece(alloc)?;
    let is_scanning = is_scanning(job.task);
    let client = match Client::new(alloc, job) {
        Ok(client) => client,
        Err((fault, _job)) => return Err(stop_of_fault(fault)),
    };
    let mut tally = CallTally::new(mem::replace(outputs, OutputTally::new()));
    let done = run_client(
        client,
        control,
        dial,
        to,
        sink,
        is_scanning,
        ahead.as_mut_slice(),
        room.as_mut_slice(),
        &mut tally,
        tell,
    );
    *outputs = tally.into_output();
    done
}

/// Does a job as `run_job` does it, and makes of its reports what is to be told of it, by `tell`. That comes before the last
/// bytes of its file go out, so a job without memory for telling leaves no whole file. Gives the reports, what was made of them,
/// and what became of the calls on its output.
pub fn run_job_with<C, D, W, T, F>(
    alloc: Global,
    job: Job,
    control: &mut C,
    dial: &mut D,
    out: &mut W,
    outputs: &mut OutputTally,
    tell: F,
) -> Result<(Reports, T), Stop>
where
    C: Read + Write,
    D: Dial,
    W: Write,
    T: Drop,
    F: FnOnce(&Reports) -> Result<T, NoMem> + Drop,
    requires tell { F.IsAlwaysCallable tell }
    /// What `run_job_with` did is one journal of moves, each with what the client's own contracts have it make of the
    /// client, from the new client to the last. By its moves the control connection took the bytes written and gave
    /// the pieces heard, the ports were asked for, and the output took what was given.
    /// Carried by: `done`, `ended` of `run_job_with`
    ///
    /// Its moves are steps. A piece that comes has 1 to 4,096 bytes, behind each the file goes out until the client gives none,
    /// and nothing is done behind a write that failed. That holds of a job that is Done, and of one that is told as the client
    /// ended.
    /// Carried by: `done`, `ended` of `run_job_with`: `steps`
    ///
    /// Those of `run_batch_with` are such steps too, and behind the last bytes of a page's file the client turns to
    /// its next page. The files that went out by them are those of the pages that were turned and of the one under way.
    /// Carried by: `done`, `ended` of `run_batch_with`: `steps`; `StepsGive`
    ///
    /// It wrote to the control connection a front of the greeting and of what the client's rules send for the replies that it
    /// read, in their order. It wrote all of it, with CLOSE and EXIT, unless a write failed or the output ended the job.
    /// Carried by: `done`, `ended` of `run_job_with`
    ///
    /// The ports that it asked for are those that its START replies named, in their order, but for the last where the
    /// job ended before.
    /// Carried by: `done`, `ended` of `run_job_with`
    ///
    /// The dialer is told beforehand of the port that START's reply named, and of no other. It is told right behind the request
    /// for the frame's parameters, before these are told, and at most once for a frame.
    /// Carried by: `done`, `ended` of `run_job_with`: `PreparesPort` of its moves, and `PortsAreTold`
    ///
    /// Each data connection began with the records of a frame that ended, but for at most one that was let go within
    /// its frame.
    /// Carried by: `done`, `ended` of `run_job_with`
    ///
    /// A job that is Done is so by `client_replies` for these replies and frames, and each frame ended with EOF.
    ///
    /// The output of a scan that is Done took the file of the picture that the frames show; that of any other job
    /// nothing.
    ensures done { IfReports result (RunsJob
        (stream_views (views_of C.remaining C.contents D.ports D.prepared) D.coming W.contents) job
        (streams control.old dial.old out.old) (streams control.new dial.new out.new)) }
    // A job that is refused, or finds no memory for its buffers, touches no stream.
    /// Where an output failed they are steps up to the last piece that came: of its file not all went out that was
    /// given, and nothing more was done. A batch whose last output is refused as it is given back did steps alone.
    /// Carried by: `ended` of `run_job_with`, `run_batch_with`: `sunk`; `MovesStopWithin`
    ///
    /// A job that ends otherwise does so by `client_replies` for these replies and frames, or for one of five causes: a lost
    /// connection, out of memory, bytes that begin no reply, more bytes of a frame than were told, or an output that did not take
    /// its file. So a full disk is never told as a short frame.
    ///
    /// A job is lost only by a move that tells why: a write or a read failed, a stream came to its end, a dial failed, or 2^40
    /// reads or turns are used up.
    ///
    /// The output of a job that ends otherwise took no whole file.
    ///
    /// One that is refused touches no stream.
    ///
    /// The bytes that went out are those that the client gave: the files of the pages, and what was given of the one under way.
    /// More bytes went out behind that only if an output failed.
    /// Carried by: `ended` of `run_job_with`, `run_batch_with`: `gave`, `none_behind`
    ///
    /// The client's last outcome is told, unless there was no memory to tell of a job that was done, or an output failed.
    /// Carried by: `ended` of `run_job_with`, `run_batch_with`: `last_told`
    ensures ended { IfErr result (StopsJob
        (stream_views (views_of C.remaining C.contents D.ports D.prepared) D.coming W.contents) job
        (streams control.old dial.old out.old) (streams control.new dial.new out.new)) }
    /// A job ends for its output only where it is noted, by then or before, that a write to it failed.
    ensures output { IfErr result (λ stop. stop.why ≡ Sink → outputs.new.failed ≡ true) }
    ensures told { IfOk result (λ done. FnOnceReturnsAt F.FnOnce tell done.0 (Ok done.1)) }
{
    if job.task.is_batch() {
        return Err(Stop {
            status: Status::Inval,
            why: Why::Setting,
        });
    }
    run_to(
        alloc,
        job,
        control,
        dial,
        out,
        &mut SingleSink,
        outputs,
        tell,
    )
}

/// Does a job over a control connection, the data connections that are dialed, and an output, which is not flushed. A
/// connection that fails, ends or takes nothing of a write is lost, and so is one after 2^40 reads, among which an
/// interrupted call counts that is made again. A batch, which has more than one file, is refused.
///
/// The clauses on a `Write` do not tell a failed write, and this call keeps its tally to itself. So `run_job_with`, which it
/// calls with a new tally, promises that a job ends for its output only behind a failed write.
pub fn run_job<C: Read + Write, D: Dial, W: Write>(
    alloc: Global,
    job: Job,
    control: &mut C,
    dial: &mut D,
    out: &mut W,
) -> Outcome
    /// `run_job` and `run_batch` are over when they return.
    /// Carried by: `over` of `run_job`, `run_batch`
    ensures over { IsOver result }
    // As `run_job_with`.
    ensures done { IfDone result (RunsJob
        (stream_views (views_of C.remaining C.contents D.ports D.prepared) D.coming W.contents) job
        (streams control.old dial.old out.old) (streams control.new dial.new out.new)) }
    // As `run_job_with`.
    ensures ended { IfStops result (StopsJob
        (stream_views (views_of C.remaining C.contents D.ports D.prepared) D.coming W.contents) job
        (streams control.old dial.old out.old) (streams control.new dial.new out.new)) }
{
    let mut outputs = OutputTally::new();
    match run_job_with(alloc, job, control, dial, out, &mut outputs, |_| Ok(())) {
        Ok((reports, ())) => Outcome::Done(reports),
        Err(stop) => Outcome::Ended(stop.status, stop.why),
    }
}
