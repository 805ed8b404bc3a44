//! A world, whose calls carry what is promised.

ghost use Rattle.std.specs.Prelude.{ℕ, ◌≡◌, ◌≢◌, ◌<◌, ◌≤◌, All, IfErr, IfOk, IfSome, IsSome, None, OnOk, Some, false, map, option_map};
ghost use Rattle.device_api.specs.ScannerLimits.{HasLimits};
ghost use Rattle.dispatch.specs.RegistryFault.{AreRegistrable};
ghost use Rattle.scan_job.specs.declared.outcome.Outcome.{Outcome as AnOutcome};
ghost use Rattle.page_sources.specs.SourceView.{source_state};
ghost use Rattle.world_refines.specs.MainTheorem.{IsTrueLoad};
ghost use Rattle.event_world.specs.Worlds.{HasFaultAmong, IsInitialWorld, MayRun, Runs, seen_world};
ghost use Rattle.scan_world.specs.Histories.{History, LedTo, EachStep, and_then, begun};
ghost use Rattle.scan_world.specs.Calls.{CancelEnds, FewMoves, ForEach, ImageLossEnds, IsGoodMove, IsHeldStep, IsMoveAt, IsWorldStep, KeepsEnding, KeepsOutcome, KeepsPage, KeepsPageCount, KeepsScanFile, LossEnds, MovesFall, NoneStarved, OneHolder, OthersStay, OverStays, RunsOut, ScansStay, SessionsStay, StarvedStays, file_answered, finished_at, left_at, outcome_at, page_answered, starved_at};
ghost use Rattle.scan_world.specs.Clear.{ClearsBy, ClearsUp, SharesClear};
ghost use Rattle.scan_world.specs.Trays.{BatchIsCounted, KeepsTray};
ghost use Rattle.scan_world.specs.Promise.{MovesAreKept};

use crate::laws::what_stands_below;
use device_api::Device;
use event_world::{Event, WorldFault, parts_of};
use md5_auth::Users;
use net_backend::{Job, Outcome};
use page_picture::PageSource;
use saned_core::Daemon;
use std::alloc::Global;

/// A daemon, and the clients of at most eight jobs.
#[derive(Drop)]
pub struct World {
    inner: event_world::EventWorld<Box<dyn Device>>,
}

/// Each device tells of itself, and so that it is within its limits.
fn ask_limits<D: Device>(devices: &[D])
    ensures { All (λ device. HasLimits (D.state device)) devices.now }
{
    for device in devices {
        let _ = device.params();
    }
}

/// The page that an event brings tells its size, and so that it is within its limits.
fn ask_page(event: &Event)
    ensures { IsTrueLoad source_state event.now }
{
    if let Event::Load(_, source) = event {
        let _ = source.size();
    }
}

/// So does each of theirs.
fn ask_pages(events: &[Event])
    ensures { All (IsTrueLoad source_state) events.now }
{
    for event in events {
        ask_page(event);
    }
}

impl World {
    /// A world of these devices, users and jobs, whose daemon's challenges come from the seed: nothing has happened, and each
    /// device was reset. Where it is refused the devices come back as they were: `SameName` where two of them have one name,
    /// `TooManyDevices` above sixteen, `TooManyJobs` above eight, `BadJob` where a client refuses one, in this order; `NoMem`
    /// comes only where none of these stands.
    pub fn new(
        alloc: Global,
        devices: Vec<Box<dyn Device>>,
        users: Users,
        seed: [u8; 32],
        jobs: Vec<Job>,
    ) -> Result<World, (WorldFault, Vec<Box<dyn Device>>)>
        /// `World::new` takes and refuses what `event_world` says, and gives refused devices back as they were; to a new
        /// world led that nothing has happened.
        /// Carried by: `led`, `accepted`, `fault`, `back` of `World::new`
        ensures led { let states = map ⟦<Box<dyn Device> as Device>⟧.state devices.items in
            let h = begun states users seed jobs.items in
            IfOk result (λ w. LedTo h (seen_world ⟦<Box<dyn Device> as Device>⟧.state w.inner)) }
        // It is the new world of these devices, users and jobs.
        ensures begins { let states = map ⟦<Box<dyn Device> as Device>⟧.state devices.items in
            IfOk result (λ w. IsInitialWorld states users seed jobs.items
            (seen_world ⟦<Box<dyn Device> as Device>⟧.state w.inner)) }
        /// A job of a new world has at most 2^34 moves left, and a batch at most 2^36.
        /// Carried by: `budget` of `World::new`
        ensures budget { IfOk result (λ w. FewMoves jobs.items
            (seen_world ⟦<Box<dyn Device> as Device>⟧.state w.inner)) }
        /// No job of a new world is told as out of memory.
        /// Carried by: `fresh` of `World::new`
        ensures fresh { IfOk result (λ w. NoneStarved
            (seen_world ⟦<Box<dyn Device> as Device>⟧.state w.inner)) }
        ensures accepted { let states = map ⟦<Box<dyn Device> as Device>⟧.state devices.items in
            OnOk result (AreRegistrable states × MayRun jobs.items) }
        ensures fault { let states = map ⟦<Box<dyn Device> as Device>⟧.state devices.items in
            IfErr result (λ refused. HasFaultAmong refused.0 states jobs.items) }
        ensures back { IfErr result (λ refused. refused.1 ≡ devices) }
    {
        ask_limits(devices.as_slice());
        match parts_of(alloc, devices, jobs) {
            Ok((registry, endpoints)) => Ok(World {
                inner: event_world::EventWorld::over(
                    alloc,
                    Daemon::new(registry, users, seed),
                    endpoints,
                ),
            }),
            Err(refused) => Err(refused),
        }
    }
}

impl World {
    /// Events in this order; one that cannot happen changes nothing.
    pub fn run(&mut self, events: Vec<Event>)
        /// `run` adds its events to whatever led to the world, and does exactly these.
        /// Carried by: `led`, `runs` of `World::run`
        ensures runs { let w = seen_world ⟦<Box<dyn Device> as Device>⟧.state self.old.inner in
            let v = seen_world ⟦<Box<dyn Device> as Device>⟧.state self.new.inner in
            Runs source_state events.items w v }
        ensures led { let seen = seen_world ⟦<Box<dyn Device> as Device>⟧.state in
            let w = seen self.old.inner in
            let v = seen self.new.inner in
            (h : History) → LedTo h w → LedTo (and_then h events.items) v }
        /// A job that is over keeps its outcome, its file and its finished pages, whatever comes.
        /// Carried by: `over` of `World::run`, `World::run_all` and `jobs_end_once`
        ensures over { let w = seen_world ⟦<Box<dyn Device> as Device>⟧.state self.old.inner in
            let v = seen_world ⟦<Box<dyn Device> as Device>⟧.state self.new.inner in
            OverStays w v }
        /// A job that no event came to is as it was: its outcome, its files, whether memory ran out.
        /// Carried by: `others` of `World::run` and `jobs_end_once`
        ensures others { let w = seen_world ⟦<Box<dyn Device> as Device>⟧.state self.old.inner in
            let v = seen_world ⟦<Box<dyn Device> as Device>⟧.state self.new.inner in
            OthersStay events.items w v }
        /// Once a job is told as out of memory, it stays told so, whatever comes.
        /// Carried by: `starved` of `World::run`, `World::run_all` and `jobs_end_once`
        ensures starved { let w = seen_world ⟦<Box<dyn Device> as Device>⟧.state self.old.inner in
            let v = seen_world ⟦<Box<dyn Device> as Device>⟧.state self.new.inner in
            StarvedStays w v }
        /// No event brings moves back, and each event that can happen to a job lowers the moves of that job, where it
        /// has any left.
        /// Carried by: `moves`, `steps` of `World::run` and `jobs_end_once`: `lowers` of `IsWorldStep`
        ensures moves { let w = seen_world ⟦<Box<dyn Device> as Device>⟧.state self.old.inner in
            let v = seen_world ⟦<Box<dyn Device> as Device>⟧.state self.new.inner in
            MovesFall w v }
        /// An event that cannot happen to its job changes nothing.
        /// Carried by: `steps` of `World::run` and `jobs_end_once`: `idle` of `IsWorldStep`
        ///
        /// Memory runs out for a job only in an event of its own that can happen, and that takes memory.
        /// Carried by: `steps` of `World::run` and `jobs_end_once`: `starves` of `IsWorldStep`
        ///
        /// A page that is laid in is taken where the daemon takes it, a device is taken out where it is listed and nobody
        /// has it; and else nothing changes.
        /// Carried by: `steps` of `World::run` and `jobs_end_once`: `loads`, `unplugs` of `IsWorldStep`
        ensures steps { let w = seen_world ⟦<Box<dyn Device> as Device>⟧.state self.old.inner in
            let v = seen_world ⟦<Box<dyn Device> as Device>⟧.state self.new.inner in
            EachStep IsWorldStep events.items w v }
        /// A job that runs ends by a cancel as cancelled, wherever that stands among the events. It ends as lost by the loss of
        /// its control connection, if the event that connects it came before, and by the loss of its data connection, if that
        /// stands.
        /// Carried by: `cancel`, `loss`, `image_loss` of `World::run`; `cancel` of `jobs_end_once`
        ensures cancel { let w = seen_world ⟦<Box<dyn Device> as Device>⟧.state self.old.inner in
            let v = seen_world ⟦<Box<dyn Device> as Device>⟧.state self.new.inner in
            CancelEnds events.items w v }
        ensures loss { let seen = seen_world ⟦<Box<dyn Device> as Device>⟧.state in
            let w = seen self.old.inner in
            let v = seen self.new.inner in
            (h : History) → LedTo h w → LossEnds h events.items w v }
        ensures image_loss { let seen = seen_world ⟦<Box<dyn Device> as Device>⟧.state in
            let w = seen self.old.inner in
            let v = seen self.new.inner in
            (h : History) → LedTo h w → ImageLossEnds events.items w v }
        /// Two clients never hold one device: jobs whose sessions have a device of one name are one job.
        /// Carried by: `one_holder` of `World::run` and `World::run_all`
        ensures one_holder { let seen = seen_world ⟦<Box<dyn Device> as Device>⟧.state in
            let w = seen self.old.inner in
            let v = seen self.new.inner in
            (h : History) → LedTo h w → OneHolder v }
        /// Events of other jobs, and devices that are taken out, leave a session as it stands, with all that it has.
        /// These, and pages that are laid in, leave a device that it has within a scan as it is.
        /// Carried by: `sessions`, `scans` of `World::run`
        ensures sessions { let seen = seen_world ⟦<Box<dyn Device> as Device>⟧.state in
            let w = seen self.old.inner in
            let v = seen self.new.inner in
            (h : History) → LedTo h w → SessionsStay events.items w v }
        ensures scans { let seen = seen_world ⟦<Box<dyn Device> as Device>⟧.state in
            let w = seen self.old.inner in
            let v = seen self.new.inner in
            (h : History) → LedTo h w → ScansStay events.items w v }
        /// Within a scan the page stays: a device that a session has in front of an event and behind it, neither time
        /// at rest, has the same first page both times.
        /// Carried by: `pages` of `World::run`: `page_stays` of `IsHeldStep`
        ///
        /// A start takes the first page. When requests of a job were delivered, a device that its session had and has, and has
        /// within a scan now, has the first page that it had.
        /// Carried by: `pages` of `World::run`: `first_page` of `IsHeldStep`
        ///
        /// A session has its device until its control connection is lost, or requests are delivered to it behind its
        /// job's end, or end it. No device is listed anew, and none goes from the list but by being taken out.
        /// Carried by: `pages` of `World::run`: `holds_on`, `listed` of `IsHeldStep`
        ensures pages { let seen = seen_world ⟦<Box<dyn Device> as Device>⟧.state in
            let w = seen self.old.inner in
            let v = seen self.new.inner in
            (h : History) → LedTo h w → EachStep IsHeldStep events.items w v }
        /// If its events are next moves, one after another, a job in whose way nothing stood in front of them, and which is over
        /// behind them, is done, or is told as out of memory, or lost its connection as its next move.
        /// Carried by: `clear` of `World::run`: `ClearsBy`
        ensures clear { let w = seen_world ⟦<Box<dyn Device> as Device>⟧.state self.old.inner in
            let v = seen_world ⟦<Box<dyn Device> as Device>⟧.state self.new.inner in
            ClearsBy events.items w v }
    {
        ask_pages(events.as_slice());
        what_stands_below();
        self.inner.run(events)
    }

    /// Next moves of all jobs by turns.
    pub fn run_all(&mut self)
        /// `run_all` adds next moves alone. Each is that of a job in the world to which those before it led. They are at most as
        /// many as `moves_left` counts of all jobs, and then no job runs.
        /// Carried by: `kept` of `World::run_all`: `RunsOut`, `AreNextMoves`
        ensures kept { let w = seen_world ⟦<Box<dyn Device> as Device>⟧.state self.old.inner in
            let v = seen_world ⟦<Box<dyn Device> as Device>⟧.state self.new.inner in
            (h : History) → LedTo h w → RunsOut h w v }
        /// A job in whose way nothing stood in front of these moves is done behind them, or is told as out of memory, or lost its
        /// connection as its next move, for want of memory or at a reply that cannot be said.
        /// Carried by: `clear` of `World::run_all`: `ClearsUp`
        ///
        /// Nothing stands in a job's way under these conditions. Its device is there, and no other job names it. Its settings can
        /// be in force and name no status. Its password is allowed. No event cancels it, loses its connections, or takes its
        /// device out. A device that it scans is so that a scan ends well. No stranger did anything.
        /// Carried by: `clear` of `World::run_all`: `IsClear`
        ///
        /// Such a device cannot fail, has a picture on each page, and as a feeder a page at first and none laid in.
        /// Carried by: `clear` of `World::run_all`: `IsClear`
        ensures clear { let w = seen_world ⟦<Box<dyn Device> as Device>⟧.state self.old.inner in
            let v = seen_world ⟦<Box<dyn Device> as Device>⟧.state self.new.inner in
            ClearsUp w v }
        /// Two jobs name one device, no feeder that one of them scans, and nothing else stood in the way of either. Each comes to
        /// the same, or was answered DEVICE_BUSY, and one at most was.
        /// Carried by: `shared` of `World::run_all`: `SharesClear`
        ensures shared { let w = seen_world ⟦<Box<dyn Device> as Device>⟧.state self.old.inner in
            let v = seen_world ⟦<Box<dyn Device> as Device>⟧.state self.new.inner in
            SharesClear w v }
        ensures over { let w = seen_world ⟦<Box<dyn Device> as Device>⟧.state self.old.inner in
            let v = seen_world ⟦<Box<dyn Device> as Device>⟧.state self.new.inner in
            OverStays w v }
        ensures starved { let w = seen_world ⟦<Box<dyn Device> as Device>⟧.state self.old.inner in
            let v = seen_world ⟦<Box<dyn Device> as Device>⟧.state self.new.inner in
            StarvedStays w v }
        ensures one_holder { let seen = seen_world ⟦<Box<dyn Device> as Device>⟧.state in
            let w = seen self.old.inner in
            let v = seen self.new.inner in
            (h : History) → LedTo h w → OneHolder v }
    {
        what_stands_below();
        self.inner.run_all()
    }

    /// How far job i is; none where there is no such job.
    pub fn outcome(&self, i: usize) -> Option<&Outcome>
        ensures is { let w = seen_world ⟦<Box<dyn Device> as Device>⟧.state self.now.inner in
            option_map (λ o. o.now) result ≡ outcome_at w i }
        /// A job that is done, but for a list, got for each setting the nearest admitted value of a device that is there and has
        /// its name, with INEXACT just where it differs.
        /// Carried by: `kept` of `World::outcome`: `answered` of `JobIsDone`
        ///
        /// A show that is done tells exactly the options of its device, each with its descriptor and, if it can be read, the
        /// value in force, as the job's settings left them.
        /// Carried by: `kept` of `World::outcome`: `shown` of `JobIsDone`
        ///
        /// As a job that is done, but for a list, asked for its device, that was listed, no session had it, a job's or a
        /// stranger's, and the job was permitted: its user and password are allowed for the challenge that its session had sent,
        /// or no line of the users names its backend. Behind that its session has the device.
        /// Carried by: `kept` of `World::outcome`: `opened` of `JobIsDone`: `WasOpened`
        ///
        /// A list that is done tells the devices that were listed as the last bytes of its request were delivered: all,
        /// once, in their order.
        /// Carried by: `kept` of `World::outcome`: `listed`
        ///
        /// A job that ended otherwise names a status that is neither GOOD nor EOF, and the table of endings has its
        /// status and its why, with what explains them.
        /// Carried by: `kept` of `World::outcome`: `ended` of `OutcomeIsKept`, `IsEndingExplained`
        ///
        /// An event of the job explains an ending. But for a cancel, it came as the job ran and changed the world: those before
        /// it led to the world in front of it, and it and those behind it to the world asked. Only settings that no device can
        /// have, and memory, are told without one.
        /// Carried by: `Happened`, `Asked`, `Moment` of `IsEndingExplained`
        ///
        /// An answered status is the one that `read-return-value` says, as the job's settings put it in force, in a turn of its
        /// frame, if the job scans. Else it is explained only as follows. A job ended as too short, which is IO_ERROR, only if
        /// that says EOF.
        /// Carried by: `NamesStatus` of `IsEndingExplained`
        ///
        /// Else DEVICE_BUSY was answered only where another job's session had the device as the job asked for it, or a
        /// stranger's: one that is no job's;
        /// ACCESS_DENIED only where a line of the users names its backend, and its user and password are not allowed
        /// for the challenge that its session had sent.
        /// Carried by: `AnswerIsExplained`, `HasPassed` of `IsEndingExplained`
        ///
        /// Else INVAL was answered only if the device was not listed as the job asked for it; if settings can be in force on no
        /// device of the name, as also when a setting ended the job; or if a device, as a scan was to start, had the settings'
        /// options, which mean no picture on its page.
        /// Carried by: `AnswerIsExplained`, `IsUnforced`, `HadNoPicture` of `IsEndingExplained`
        ///
        /// Else NO_DOCS was answered only to a job that scans, if the device of its session had no page as the job asked for a
        /// start while none of its pages was finished.
        /// Carried by: `HadNoPage` of `IsEndingExplained`
        ///
        /// Else IO_ERROR was answered only to a job that scans, if a page that can fail came for its device, and the source of
        /// the first page failed as it asked for a start, or in a turn of its frame. Its session had the device, which is stopped
        /// behind the event, and the failure is counted.
        /// Carried by: `HadFailed`, `DeviceFailed` of `IsEndingExplained`
        ///
        /// In a turn the end with IO_ERROR came behind the bytes of the frame. So the end of a page that a feeder gave whole is
        /// no failure, though the feeder lets go of that page with its count.
        /// Carried by: `SendsFailure` of `HadFailed`
        ///
        /// A job ended as lost only if a connection of it that stood was lost, or if it is told as out of memory; as starved,
        /// which is NO_MEM, only if a piece came to its client; as cancelled only if it was cancelled.
        /// Carried by: `IsEndingExplained`
        ensures kept { let w = seen_world ⟦<Box<dyn Device> as Device>⟧.state self.now.inner in
            IfSome result (λ o. KeepsOutcome w i o.now) }
        /// Each job of the world has an outcome.
        ensures there { let w = seen_world ⟦<Box<dyn Device> as Device>⟧.state self.now.inner in
            ForEach w i (λ h job. IsSome result) }
        /// A job that ended did so in one of the events. It ran in the world in front of the event, and had ended so in the world
        /// behind it. What explains it is among the events up to that one.
        /// Carried by: `ended` of `World::outcome`: `EndedIn`
        ensures ended { let w = seen_world ⟦<Box<dyn Device> as Device>⟧.state self.now.inner in
            IfSome result (λ o. KeepsEnding w i o.now) }
    {
        what_stands_below();
        self.inner.outcome(i)
    }

    /// The file of job i under way, as far as it has come.
    pub fn file(&self, i: usize) -> Option<&[u8]>
        ensures is { let w = seen_world ⟦<Box<dyn Device> as Device>⟧.state self.now.inner in
            option_map (λ f. f.now) result ≡ file_answered w i }
        /// The file of a scan that is done denotes exactly the picture that the job's settings mean on a page that came for its
        /// device. That holds if all pages are steady that came for it until it was over, and changed the world. A page that is
        /// not steady takes this from the jobs of its device alone, and no later page takes it.
        /// Carried by: `kept` of `World::file`: `scanned` of `FileIsKept`
        ///
        /// The job's session had the device, at rest, as the job asked for a start while none of its pages was finished. That
        /// page is the one that the device then had first.
        /// Carried by: `kept` of `World::file`: `StartedOn` of `IsScan`
        ///
        /// No front of the file of a job that runs, that ended otherwise or that is no scan is whole. A job that does not scan has a
        /// file, which is empty.
        /// Carried by: `kept` of `World::file`: `whole`, `empty` of `FileIsKept`
        ///
        /// A file is missing only where there was no memory for it, and then the job is told as out of memory.
        /// Carried by: `missing` of `FileIsKept` and of `PageIsKept`; `file`, `pages` of `World::starved`
        ensures kept { let w = seen_world ⟦<Box<dyn Device> as Device>⟧.state self.now.inner in
            KeepsScanFile w i (file_answered w i) }
    {
        what_stands_below();
        self.inner.file(i)
    }

    /// The file of the k-th finished page of a batch, from 1: none where k is 0 or above `finished`, or a growth of that
    /// file was refused.
    pub fn file_at(&self, i: usize, k: u32) -> Option<&[u8]>
        ensures is { let w = seen_world ⟦<Box<dyn Device> as Device>⟧.state self.now.inner in
            option_map (λ f. f.now) result ≡ page_answered w i k }
        /// The file of each finished page of a batch denotes that picture too, if the pages are steady, whatever became of the
        /// job: of page k on the page that the device had first as the job asked for a start while k - 1 pages were finished.
        /// Carried by: `kept` of `World::file_at`: `PageIsKept`, `StartedOn`
        ensures kept { let w = seen_world ⟦<Box<dyn Device> as Device>⟧.state self.now.inner in
            KeepsPage w i k (option_map (λ f. f.now) result) }
        /// If only this job names the feeder, no event laid a page into it, and no stranger did anything, that is the k-th of the
        /// pages that lay in its tray as the world was made, if they are steady.
        /// Carried by: `tray` of `World::file_at`: `OwnTray`, `IsOfTray`
        ensures tray { let w = seen_world ⟦<Box<dyn Device> as Device>⟧.state self.now.inner in
            IfSome result (λ f. KeepsTray w i k f.now) }
    {
        what_stands_below();
        self.inner.file_at(i, k)
    }

    /// How many pages of a batch are finished; 0 where there is no such job.
    pub fn finished(&self, i: usize) -> u32
        ensures is { let w = seen_world ⟦<Box<dyn Device> as Device>⟧.state self.now.inner in
            result ≡ finished_at w i }
        /// A batch that is done has finished as many pages as it wanted, or fewer and at least one. With fewer, its device had no
        /// page more as it asked for a start behind just these.
        /// Carried by: `kept` of `World::finished`: `CountIsKept`
        ensures kept { let w = seen_world ⟦<Box<dyn Device> as Device>⟧.state self.now.inner in
            KeepsPageCount w i result }
        /// A batch that is done on a device that is no feeder has finished as many pages as it wanted. On such a feeder it has
        /// finished as many, or all that lay in its tray as the world was made, whichever are fewer.
        /// Carried by: `tray` of `World::finished`: `CountsPages`
        ensures tray { let w = seen_world ⟦<Box<dyn Device> as Device>⟧.state self.now.inner in
            ForEach w i (λ h job. BatchIsCounted h w i job result) }
    {
        what_stands_below();
        self.inner.finished(i)
    }

    /// Whether a growth was refused on a connection of job i, in its session or for a file of it, or strangers left it no
    /// session: no file is missing else.
    pub fn starved(&self, i: usize) -> bool
        ensures is { let w = seen_world ⟦<Box<dyn Device> as Device>⟧.state self.now.inner in
            result ≡ starved_at w i }
        ensures file { let w = seen_world ⟦<Box<dyn Device> as Device>⟧.state self.now.inner in
            ForEach w i (λ h job. result ≡ false → file_answered w i ≢ None) }
        ensures pages { let w = seen_world ⟦<Box<dyn Device> as Device>⟧.state self.now.inner in
            ForEach w i (λ h job. result ≡ false → (k : ℕ) → 0 < k → k ≤ finished_at w i
            → page_answered w i k ≢ None) }
    {
        what_stands_below();
        self.inner.starved(i)
    }

    /// The next move of job i.
    pub fn next_move(&self, i: usize) -> Option<Event>
        ensures is { let w = seen_world ⟦<Box<dyn Device> as Device>⟧.state self.now.inner in
            IsMoveAt w i result }
        /// A job has a next move just where it runs.
        /// Carried by: `kept` of `World::next_move`: `MoveIsKept`
        ///
        /// It is the loss of its control connection only if the job is told as out of memory, or if its session, as it stood in
        /// front of a delivery of the request that its client waits for, answers that with a reply that passes a limit of the
        /// wire or has no spelling.
        /// Carried by: `kept` of `World::next_move`: `loss` of `IsGoodMove`
        ensures kept { let w = seen_world ⟦<Box<dyn Device> as Device>⟧.state self.now.inner in
            ForEach w i (λ h job. IsGoodMove h w i job result) }
    {
        what_stands_below();
        self.inner.next_move(i)
    }

    /// At least as many moves as job i may still take: 0 just where it does not run, or there is no such job.
    pub fn moves_left(&self, i: usize) -> u64
        /// These calls answer exactly what `event_world` says.
        /// Carried by: `is` of `World::outcome`, `file`, `file_at`, `finished`, `starved`, `next_move`, `moves_left`
        ensures is { let w = seen_world ⟦<Box<dyn Device> as Device>⟧.state self.now.inner in
            result ≡ left_at w i }
        /// A job that runs has moves left, and any other has none.
        /// Carried by: `kept` of `World::moves_left`: `MovesAreKept`
        ensures kept { let w = seen_world ⟦<Box<dyn Device> as Device>⟧.state self.now.inner in
            ForEach w i (λ h job. (o : AnOutcome) → outcome_at w i ≡ Some o
            → MovesAreKept o result) }
    {
        what_stands_below();
        self.inner.moves_left(i)
    }
}
