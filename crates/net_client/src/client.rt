ghost use Rattle.std.specs.Prelude.{◌≡◌, ◌≢◌, true, false};
ghost use Rattle.scan_job.specs.JobSize.{HasJobFault};
ghost use Rattle.client_replies.specs.ProtocolStates.{is_imaging};
ghost use Rattle.net_client.specs.ReplyPieces.{awaited_procedure};
ghost use Rattle.net_client.specs.Inside.{outcome_by, is_starting};

use crate::imaging::{PieceResult, read_on};
use crate::outbox::Outbox;
use crate::request_sending::{ask, say_farewell, say_goodbye, say_start};
use client_replies::{
    JobTarget, Link, Next, Notes, Progress, Queue, after_params_reply, frame_ended, hear,
};
use data_records::RecordReader;
use frame_join::{FrameJoin, JoinFault, PnmOut, not_whole_before};
use option_desc::{Descriptor, Value};
use sane_fixed::{DeviceInfo, NoMem, Status};
use scan_job::{ItemList, Job, JobFault, Outcome, Reports, Task, Why};
use std::alloc::Global;
use std::marker::Model;
use wire_codec::{Decoder, Procedure, Reply, WireFault};

/// One job over a control connection and the data connections of its frames.
#[derive(Drop)]
pub struct Client {
    alloc: Global,
    target: JobTarget,
    outcome: Outcome,
    progress: Progress,
    notes: Notes,
    out: Outbox,
    decoder: Decoder,
    reader: RecordReader,
    join: FrameJoin,
    file: PnmOut,
}

impl Model for Client {
    ghost use Rattle.std.specs.Prelude.{◌≡◌, ◌≤◌, true, None};
    ghost use Rattle.data_records.specs.Records.{HasEnded};
    ghost use Rattle.net_client.specs.ClientStates.{ClientState};
    ghost use Rattle.client_replies.specs.ProtocolStates.{is_imaging, is_running, turns};

    ghost Value = { ClientState };

    ghost view = { λ c. record { target = c.target; outcome = c.outcome; progress = c.progress; notes = c.notes; out = c.out.text; input = c.decoder; phase = c.reader; join = c.join } };

    // While the job runs there is room for its end, and for a START where that may come with no reply.
    // The decoder has answered no fault, and the reader is not behind the end.
    ghost invariant = { λ c. (is_running c.outcome ≡ true → 12 ≤ c.out.room) × (turns c.outcome c.progress ≡ true → 20 ≤ c.out.room) × (is_running c.outcome ≡ true → c.decoder.fault ≡ None) × (HasEnded c.reader → ⊥) × (is_running c.outcome ≡ true → is_imaging c.progress ≡ true → 20 ≤ c.out.room) };
}

impl Client {
    ghost use Rattle.std.specs.Prelude.{◌≡◌, ◌==◌, ◌≤◌, true, false, Some, [], IfOk, IfErr, if◌then◌else◌, length, take, drop, min};
    ghost use Rattle.std.specs.Prelude.{OnOk, OnErr};
    ghost use Rattle.frame_join.specs.FrameHistory.{JoinHistory};
    ghost use Rattle.frame_join.specs.JoinStates.{Represents};
    ghost use Rattle.net_client.specs.ReplyPieces.{EndsOutOfMemoryHere, EndsOutOfMemory, Heeds};
    ghost use Rattle.client_replies.specs.declared.progress.Progress.TheVariants as stages;
    ghost use Rattle.client_replies.specs.ClearJoins.{RepresentsClear};
    ghost use Rattle.client_replies.specs.ReplyTurns.{stop_unjoined};
    ghost use Rattle.client_replies.specs.ProtocolStates.{next_outcome, scans, IsWithinFrame};
    ghost use Rattle.std.specs.Prelude.{not};
    ghost use Rattle.scan_job.specs.Outcomes.{IsOver};
    ghost use Rattle.client_replies.specs.ProtocolStates.{is_ended, turns};
    ghost use Rattle.net_client.specs.ClientStates.{TakesPage, TurnsPage};
    ghost use Rattle.net_client.specs.Taking.{TakesFile};
    ghost use Rattle.client_replies.specs.ProtocolStates.{is_receiving};
    ghost use Rattle.net_client.specs.FramePieces.{TakesEndRecord, Receives};
    ghost use Rattle.std.specs.Prelude.{IfSome, IsNone};
    ghost use Rattle.wire_format.specs.Limit.{limited_format};
    ghost use Rattle.wire_format.specs.Lawful.{SpellsFront};
    ghost use Rattle.wire_message.specs.Message.{message_limit, reply};
    ghost use Rattle.wire_format.specs.Writer.{behind};
    ghost use Rattle.scan_job.specs.declared.outcome.Outcome.{Outcome as AnyOutcome};
    ghost use Rattle.net_client.specs.Sending.{optional_request_text, requests_text};
    ghost use Rattle.client_replies.specs.Asking.{request_for, goodbye, farewell};
    ghost use Rattle.client_replies.specs.ProtocolStates.{is_running, reports_of, options_shown, IsWait, heard_at, is_lost_by, wanted_port, progress_connected};
    ghost use Rattle.net_client.specs.Inside.{HearsReply, RepresentsOrOutOfMemory, StopsReading, GivesPicture, IsBehindFrame, GoesOnBy, after_out_of_memory};
    ghost use Rattle.net_client.specs.ClientStates.{HasEarlyReply, after_client_end, IsNewClient, ClientRepresents, phase_connected};
    ghost use Rattle.net_client.specs.ToldPorts.{port_told};
    ghost use Rattle.std.specs.Prelude.{IsTrue, ◌↔◌};
    ghost use Rattle.scan_job.specs.JobSize.{HasJobFault};

    fn is_running(&self) -> bool
        ensures { result ≡ is_running self.now.outcome }
    {
        match self.outcome {
            Outcome::Running => true,
            Outcome::Done(_) | Outcome::Ended(_, _) => false,
        }
    }

    /// A client of a job. A job that is refused comes back.
    pub fn new(alloc: Global, job: Job) -> Result<Client, (JobFault, Job)>
        // Nothing has happened to it yet.
        ensures fresh { IfOk result (λ c. IsNewClient job c) }
        /// A job that is too large is refused and given back.
        ensures fault { IfErr result (λ e. HasJobFault job (Some e.0)) }
        ensures back { IfErr result (λ e. e.1 ≡ job) }
    {
        if let Some(fault) = job.fault() {
            return Err((fault, job));
        }
        let Job {
            user,
            password,
            device,
            settings,
            task,
        } = job;
        let target = JobTarget {
            user,
            password,
            device,
            task,
        };
        let mut out = Outbox::new(alloc);
        if ask(alloc, &mut out, &target, 0, &Progress::Greeting).is_err() {
            let JobTarget {
                user,
                password,
                device,
                task,
            } = target;
            let job = Job {
                user,
                password,
                device,
                settings,
                task,
            };
            return Err((JobFault::NoMem, job));
        }
        Ok(Client {
            alloc,
            target,
            outcome: Outcome::Running,
            progress: Progress::Greeting,
            notes: Notes {
                word: 0,
                left: Queue::from_vec(settings),
                reports: ItemList::none(alloc),
                known: ItemList::none(alloc),
                file: 1,
            },
            out,
            decoder: Decoder::new(alloc),
            reader: RecordReader::new(),
            join: FrameJoin::new(alloc),
            file: PnmOut::new(),
        })
    }

    /// How far the job is.
    pub fn outcome(&self) -> &Outcome
        ensures { result.now ≡ self.now.outcome }
    {
        &self.outcome
    }

    /// Whether bytes for the control connection wait to be taken.
    pub fn has_out(&self) -> bool
        ensures { result ≡ not (length self.now.out == 0) }
    {
        !self.out.is_empty()
    }

    /// Whether bytes of a reply came before the request that it answers was taken.
    pub fn has_early_reply(&self) -> bool
        ensures { IsTrue result ↔ HasEarlyReply self.now }
    {
        self.has_out() && !self.decoder.is_empty()
    }

    /// The next bytes for the control connection.
    pub fn take_out(&mut self, buf: &mut [u8]) -> usize
        /// It sends the spellings of the requests that `hear` has for those replies.
        /// Carried by: `Client::take_out`, `feed_control`
        ensures count { result ≡ min (length buf.old) (length self.old.out) }
        ensures given { take result buf.new ≡ take result self.old.out }
        ensures rest { drop result buf.new ≡ drop result buf.old }
        ensures left { self.new ≡ record self.old { out = drop result self.old.out } }
    {
        self.out.take(buf)
    }

    /// The job ends so.
    fn stop(&mut self, status: Status, why: Why)
        ensures { self.new ≡ after_client_end status why self.old }
    {
        self.outcome = Outcome::Ended(status, why);
        self.progress = Progress::Over;
    }

    fn options_shown(&mut self) -> ItemList<(Descriptor, Option<Value>)>
        ensures shown { result ≡ options_shown self.old.target.task self.old.notes.known }
        ensures rest { self.new ≡ record self.old { notes = record self.old.notes { known = [] } } }
    {
        let known = self.notes.known.take_all(self.alloc);
        match self.target.task {
            Task::Show => known,
            _ => ItemList::none(self.alloc),
        }
    }

    /// The job is done, and found these devices.
    fn finish(&mut self, devices: ItemList<DeviceInfo>)
        requires { is_running self.old.outcome ≡ true }
        ensures { GoesOnBy self.old (Next.Finish devices) self.new }
    {
        let options = self.options_shown();
        let settings = self.notes.reports.take_all(self.alloc);
        self.outcome = Outcome::Done(Reports {
            settings,
            devices,
            options,
        });
        self.progress = Progress::Over;
        say_goodbye(&mut self.out, self.target.task, self.notes.word);
    }

    /// The job goes on so; false where memory ran out.
    fn settle(&mut self, next: Next) -> bool
        requires { is_running self.old.outcome ≡ true }
        ensures settled { result ≡ true → GoesOnBy self.old next self.new }
        ensures starved { result ≡ false → self.new ≡ after_out_of_memory self.old }
        ensures waits { result ≡ false → IsWait next }
    {
        match next {
            Next::Wait(progress) => {
                if ask(
                    self.alloc,
                    &mut self.out,
                    &self.target,
                    self.notes.word,
                    &progress,
                )
                .is_err()
                {
                    self.stop(Status::NoMem, Why::Memory);
                    return false;
                }
                self.progress = progress;
                true
            }
            Next::Finish(devices) => {
                self.finish(devices);
                true
            }
            Next::Stop(status, why) => {
                self.stop(status, why);
                true
            }
        }
    }

    /// Bytes of the control connection come. Each reply that is whole is heard, as long as one is waited for; the rest
    /// waits. A job that is over ignores them.
    pub fn feed_control(&mut self, piece: &[u8])
        ensures over { is_running self.old.outcome ≡ false → self.new ≡ self.old }
        /// The bytes of the control connection spell the awaited replies. They are heard one after another as `hear` says. Then
        /// more is wanted of a rest, or the job ended as malformed, or for lack of memory.
        /// Carried by: `heeds` of `Client::feed_control`: `Heeds`
        ensures heeds { is_running self.old.outcome ≡ true → (past : JoinHistory)
            → ClientRepresents past self.old → Heeds self.old past piece.now self.new }
    {
        if !self.is_running() {
            return;
        }
        if self.decoder.feed(piece).is_err() {
            self.outcome = outcome_by(WireFault::NoMem);
            self.progress = Progress::Over;
            return;
        }
        while self.is_running() {
            let Some(procedure) = awaited_procedure(&self.progress) else {
                return;
            };
            let Some(reply) = self.read(procedure) else {
                return;
            };
            if !self.hear(reply) {
                return;
            }
        }
    }

    /// The next reply, to a procedure. Where there can be none the job ends.
    fn read(&mut self, procedure: Procedure) -> Option<Reply>
        requires { is_running self.old.outcome ≡ true }
        ensures some { IfSome result (λ r. (self.new ≡ record self.old { input = self.new.input })
            × SpellsFront (limited_format message_limit
            (reply procedure)) self.old.input.rest self.new.input.rest r) }
        ensures none { IsNone result → StopsReading procedure self.old self.new }
    {
        match self.decoder.next_reply(self.alloc, procedure) {
            Ok(reply) => reply,
            Err(fault) => {
                self.outcome = outcome_by(fault);
                self.progress = Progress::Over;
                None
            }
        }
    }

    /// A reply comes; false where memory ran out.
    fn hear(&mut self, reply: Reply) -> bool
        requires { is_running self.old.outcome ≡ true }
        ensures heard { result ≡ true → (past : JoinHistory)
            → ClientRepresents past self.old → HearsReply self.old past reply self.new }
        ensures starved { result ≡ false → (past : JoinHistory)
            → ClientRepresents past self.old → EndsOutOfMemoryHere self.old past self.new }
        ensures input { self.new.input ≡ self.old.input }
    {
        let next = self.next_by(reply);
        match next {
            Ok(next) => self.settle(next),
            Err(NoMem) => {
                self.stop(Status::NoMem, Why::Memory);
                false
            }
        }
    }

    /// What a reply makes of the job, which waits for nothing then.
    fn next_by(&mut self, reply: Reply) -> Result<Next, NoMem>
        ensures next { (past : JoinHistory)
            → RepresentsClear past self.old.join → IfOk result (λ next. next
            ≡ (heard_at self.old.progress self.old.target self.old.notes past reply).turn.next) }
        ensures notes { (past : JoinHistory)
            → RepresentsClear past self.old.join → OnOk result (self.new.notes
            ≡ (heard_at self.old.progress self.old.target self.old.notes past reply).turn.notes) }
        ensures past { (past : JoinHistory) → RepresentsClear past self.old.join
            → OnOk result (Represents (heard_at self.old.progress
            self.old.target self.old.notes past reply).history self.new.join) }
        ensures starved { (past : JoinHistory) → RepresentsClear past self.old.join
            → OnErr result (RepresentsOrOutOfMemory past self.new.join) }
        ensures rest { self.new ≡ record self.old {
          progress = self.new.progress;
          notes = self.new.notes;
          join = self.new.join;
        } }
    {
        let progress = std::mem::replace(&mut self.progress, Progress::Over);
        match progress {
            Progress::Shaping { port, order } => {
                after_params_reply(self.alloc, &mut self.join, port, order, reply)
            }
            progress => hear(self.alloc, &self.target, &mut self.notes, progress, reply),
        }
    }

    /// Whether the job is done or has ended.
    pub fn is_over(&self) -> bool
        ensures { result ≡ not (is_running self.now.outcome) }
    {
        !self.is_running()
    }

    /// The outcome of a job that is over.
    pub fn into_outcome(self) -> Outcome
        requires { is_running self.outcome ≡ false }
        ensures outcome { result ≡ self.outcome }
        ensures over { IsOver result }
    {
        let Client { outcome, .. } = self;
        outcome
    }

    /// Whether the data connection of a frame is made and its end record has not come.
    pub fn is_receiving(&self) -> bool
        ensures { result ≡ is_receiving self.now.outcome self.now.progress }
    {
        match self.progress {
            Progress::Imaging { opened, .. } => self.is_running() && opened,
            _ => false,
        }
    }

    /// Bytes of the data connection come. They are records; the join takes what these give, and the end record ends the
    /// frame. What comes behind it, and where no data is wanted, is ignored.
    pub fn feed_data(&mut self, piece: &[u8])
        ensures idle { is_receiving self.old.outcome self.old.progress ≡ false
            → self.new ≡ self.old }
        /// The records of a data connection give the join their payload, and their end what `client_replies` makes of
        /// it.
        /// Carried by: `receives` of `Client::feed_data`: `Receives`
        ensures receives { is_receiving self.old.outcome self.old.progress ≡ true
            → (past : JoinHistory)
            → ClientRepresents past self.old → Receives self.old past piece.now self.new }
    {
        if !self.is_receiving() {
            return;
        }
        match read_on(&mut self.reader, &mut self.join, piece) {
            PieceResult::More => {}
            PieceResult::Fault(fault) => self.fail(fault),
            PieceResult::End(status) => {
                self.reader = RecordReader::new();
                self.end_frame(status);
            }
        }
    }

    /// The frames make no picture.
    fn fail(&mut self, fault: JoinFault)
        ensures { self.new ≡ record self.old {
          outcome = next_outcome self.old.target.task
              self.old.notes (stop_unjoined fault);
          progress = stages.Over;
        } }
    {
        match fault {
            JoinFault::Shape => self.stop(Status::IoError, Why::Malformed),
            JoinFault::Long => self.stop(Status::IoError, Why::Long),
            JoinFault::Short => self.stop(Status::IoError, Why::Short),
            JoinFault::NoMem => self.stop(Status::NoMem, Why::Memory),
        }
    }

    /// The end record of a frame comes. It takes no memory.
    fn end_frame(&mut self, status: u8)
        requires { is_receiving self.old.outcome self.old.progress ≡ true }
        ensures { (past : JoinHistory) → Represents past self.old.join → scans self.old.target.task
            ≡ true → IsWithinFrame past → TakesEndRecord self.old past status self.new }
    {
        let next = frame_ended(
            self.alloc,
            &mut self.join,
            self.target.task,
            self.notes.file,
            status,
        );
        match next {
            Next::Wait(progress) => self.wait_behind(progress),
            Next::Finish(devices) => self.finish(devices),
            Next::Stop(status, why) => self.stop(status, why),
        }
    }

    /// The client waits so behind a frame; it asks for the next one.
    fn wait_behind(&mut self, progress: Progress)
        requires { is_receiving self.old.outcome self.old.progress ≡ true }
        ensures rest { self.new ≡ record self.old { progress = progress; out = self.new.out } }
        ensures text { IsBehindFrame progress → behind self.old.out
            (optional_request_text (request_for self.old.target self.old.notes.word progress))
            ≡ Some self.new.out }
    {
        if is_starting(&progress) {
            say_start(&mut self.out, self.notes.word);
        }
        self.progress = progress;
    }

    fn is_ended(&self) -> bool
        ensures { result ≡ is_ended self.now.outcome }
    {
        match self.outcome {
            Outcome::Running | Outcome::Done(_) => false,
            Outcome::Ended(_, _) => true,
        }
    }

    /// Whether the file of a batch's page is whole and waits to be taken to its last byte.
    pub fn is_turning(&self) -> bool
        ensures { result ≡ turns self.now.outcome self.now.progress }
    {
        match self.progress {
            Progress::Turning => self.is_running(),
            _ => false,
        }
    }

    /// The number of the file, from 1, that the next byte of `take_file` is of.
    pub fn file_number(&self) -> u32
        ensures { result ≡ self.now.notes.file }
    {
        self.notes.file
    }

    /// The next bytes of the file; never of two files in one call. A job that has ended gives none. The call that gives the
    /// last byte of the file of a batch's page asks for the next page. It takes no memory.
    pub fn take_file(&mut self, buf: &mut [u8]) -> usize
        ensures count { result ≤ length buf.old }
        ensures rest { drop result buf.new ≡ drop result buf.old }
        ensures ended { is_ended self.old.outcome ≡ true → (result ≡ 0) × (self.new ≡ self.old) }
        ensures outcome { self.new.outcome ≡ self.old.outcome }
        ensures same { is_ended self.old.outcome ≡ false → turns self.old.outcome self.old.progress
            ≡ false → self.new ≡ record self.old { join = self.new.join } }
        /// The bytes that `take_file` gave, once a scan is Done and it gives 0, denote the picture that the frames
        /// show by what was replied and read.
        /// Carried by: `taken` of `Client::take_file`: `TakesFile`
        ///
        /// Before they are never a whole file.
        ///
        /// Each page of a batch likewise; the next START is asked for in the call that gives a page's last byte.
        /// Carried by: `Client::take_file`, `file_number`
        ensures taken { (past : JoinHistory) → ClientRepresents past self.old
            → TakesFile self.old past (length buf.old) (take result buf.new) self.new }
    {
        not_whole_before();
        if self.is_ended() {
            return 0;
        }
        if self.is_turning() {
            return self.take_page(buf);
        }
        self.file.pull(&mut self.join, buf)
    }

    /// The next bytes of the file of a page that is whole.
    fn take_page(&mut self, buf: &mut [u8]) -> usize
        requires { turns self.old.outcome self.old.progress ≡ true }
        ensures count { result ≤ length buf.old }
        ensures rest { drop result buf.new ≡ drop result buf.old }
        ensures outcome { self.new.outcome ≡ self.old.outcome }
        ensures page { (past : JoinHistory) → ClientRepresents past self.old
            → TakesPage self.old past (take result buf.new) self.new }
        ensures picture { (past : JoinHistory) → Represents past self.old.join
            → GivesPicture past (length buf.old) (take result buf.new) }
    {
        let count = self.file.pull(&mut self.join, buf);
        if self.join.has_given_all() {
            self.turn();
        }
        count
    }

    /// The next page.
    fn turn(&mut self)
        requires { turns self.old.outcome self.old.progress ≡ true }
        ensures { TurnsPage self.old self.new }
    {
        self.progress = Progress::Starting { first: true };
        self.join = FrameJoin::new(self.alloc);
        if self.notes.file < u32::MAX {
            self.notes.file += 1;
        }
        say_start(&mut self.out, self.notes.word);
    }

    /// The job is given up: one that runs ends so, and tells the daemon. It takes no memory.
    pub fn cancel(&mut self)
        /// A cancel ends a running job with CANCEL where a frame may be under way, and EXIT, and takes no memory.
        ///
        /// A job that is over stays so, and a call changes nothing of it but what waits to go out.
        /// Carried by: `over` of `feed_control`; `over` of `cancel`; `idle` of `feed_data`
        ensures over { is_running self.old.outcome ≡ false → self.new ≡ self.old }
        ensures ended { is_running self.old.outcome ≡ true → self.new ≡ record
            (after_client_end Status.Cancelled Why.Cancelled self.old) { out = self.new.out } }
        ensures text { is_running self.old.outcome ≡ true
            → behind self.old.out (requests_text (farewell self.old.notes.word self.old.progress))
            ≡ Some self.new.out }
        ensures serves { (past : JoinHistory)
            → ClientRepresents past self.old → ClientRepresents past self.new }
    {
        if !self.is_running() {
            return;
        }
        say_farewell(&mut self.out, self.notes.word, &self.progress);
        self.outcome = Outcome::Ended(Status::Cancelled, Why::Cancelled);
        self.progress = Progress::Over;
    }

    /// A connection is lost. That of the data counts from the wanted port to the end record.
    pub fn link_lost(&mut self, link: Link)
        /// A lost link ends a job where it counts.
        /// Carried by: `lost` of `Client::link_lost`
        ensures lost { self.new ≡ (if is_lost_by link self.old.outcome self.old.progress
            then after_client_end Status.IoError Why.Lost self.old else self.old) }
        // It stands for the same histories.
        ensures serves { (past : JoinHistory)
            → ClientRepresents past self.old → ClientRepresents past self.new }
    {
        if self.is_lost_by(link) {
            self.stop(Status::IoError, Why::Lost);
        }
    }

    fn is_lost_by(&self, link: Link) -> bool
        ensures { result ≡ is_lost_by link self.now.outcome self.now.progress }
    {
        match link {
            Link::Control => self.is_running(),
            Link::Image => self.is_running() && is_imaging(&self.progress),
        }
    }

    /// The port of the data connection that is wanted.
    pub fn data_wanted(&self) -> Option<u16>
        ensures { result ≡ wanted_port self.now.progress }
    {
        match self.progress {
            Progress::Imaging {
                port,
                opened: false,
            } => Some(port),
            _ => None,
        }
    }

    /// The port that START's reply has named, while the frame's parameters are awaited.
    pub fn port_told(&self) -> Option<u16>
        ensures { result ≡ port_told self.now.progress }
    {
        match self.progress {
            Progress::Shaping { port, .. } => Some(port),
            _ => None,
        }
    }

    /// The data connection that was wanted is made.
    pub fn data_opened(&mut self)
        ensures opened { self.new
            ≡ record self.old {
              progress = progress_connected self.old.progress;
              phase = phase_connected self.old.progress self.old.phase;
            } }
        ensures serves { (past : JoinHistory)
            → ClientRepresents past self.old → ClientRepresents past self.new }
    {
        if let Some(port) = self.data_wanted() {
            self.progress = Progress::Imaging { port, opened: true };
            self.reader = RecordReader::new();
        }
    }
}

fn is_starting(progress: &Progress) -> bool
    ensures { result ≡ is_starting progress.now }
{
    match progress {
        Progress::Starting { .. } => true,
        _ => false,
    }
}

fn is_imaging(progress: &Progress) -> bool
    ensures { result ≡ is_imaging progress.now }
{
    match progress {
        Progress::Imaging { .. } => true,
        _ => false,
    }
}

/// The procedure whose reply is waited for.
fn awaited_procedure(progress: &Progress) -> Option<Procedure>
    ensures { result ≡ awaited_procedure progress.now }
{
    match progress {
        Progress::Greeting => Some(Procedure::Init),
        Progress::Listing => Some(Procedure::GetDevices),
        Progress::Opening | Progress::Reopening => Some(Procedure::Open),
        Progress::Allowing { .. } => Some(Procedure::Authorize),
        Progress::Describing => Some(Procedure::GetOptionDescriptors),
        Progress::Putting { .. } | Progress::Getting { .. } => Some(Procedure::ControlOption),
        Progress::Starting { .. } => Some(Procedure::Start),
        Progress::Shaping { .. } => Some(Procedure::GetParameters),
        Progress::Imaging { .. } | Progress::Turning | Progress::Over => None,
    }
}

/// How a job ends by a fault of the decoder.
fn outcome_by(fault: WireFault) -> Outcome
    ensures { result ≡ outcome_by fault }
{
    match fault {
        WireFault::NoMem => Outcome::Ended(Status::NoMem, Why::Memory),
        WireFault::BadCode | WireFault::BadValue | WireFault::TooLong => {
            Outcome::Ended(Status::IoError, Why::Malformed)
        }
    }
}
