//! Laws of worlds.

ghost use Rattle.std.specs.Prelude.{ℕ, ◌≡◌, ◌-◌, ◌<◌, ◌≤◌, List, Some, None, true, false, slice_get};
ghost use Rattle.page_picture.specs.Source.{SourceState};
ghost use Rattle.page_sources.specs.declared.kinds.Source.{Source};
ghost use Rattle.netpbm.specs.NoFile.{HoldsNoFile};
ghost use Rattle.scan_job.specs.declared.job.Job.{Job};
ghost use Rattle.scan_job.specs.declared.job.Task.TheVariants as tasks;
ghost use Rattle.saned_core.specs.DaemonStates.{Core};
ghost use Rattle.event_world.specs.declared.event.Event.{Event};
ghost use Rattle.event_world.specs.declared.event.JobEvent.{JobEvent};
ghost use Rattle.event_world.specs.declared.endpoint.Endpoint.{Endpoint};
ghost use Rattle.event_world.specs.JobEvents.{Can, Happens, is_done};
ghost use Rattle.event_world.specs.JobMoves.{IsNextMove, moves_left_of};
ghost use Rattle.event_world.specs.Endpoints.{finished_page};
ghost use Rattle.event_world.specs.Rounds.{HasNoMoreMoves, RestsAt};
ghost use Rattle.event_world.specs.FileInvariant.{AllFilesRepresent, FilesRepresent, IsFileOf};
ghost use Rattle.event_world.specs.Worlds.{AreNew, Leads, MayRun, Runs, WorldCore};

pub fn files_are_represented()
    /// In a new world, and behind any events, the files of each job are those of what its client was told.
    ensures new { (jobs : List Job) (endpoints : List Endpoint)
        → MayRun jobs → AreNew jobs endpoints → AllFilesRepresent endpoints }
    ensures run { (source : Source → SourceState) (events : List Event) (w v : WorldCore)
        → Runs source events w v → AllFilesRepresent w.endpoints → AllFilesRepresent v.endpoints }
{}

/// What these files tell. That of a finished page is whole, and of the picture that the page's frames show. So is that of a scan
/// that is done. No front of the file under way of a job that is not done is whole. A file is missing only after a growth was
/// refused.
pub fn files_tell()
    /// Each finished page of a batch is a whole file of the picture that the page's frames show, and so is the file
    /// of a scan that is done.
    ensures page { (p : Endpoint) (k : ℕ) (file : List ℕ)
        → FilesRepresent p → finished_page p k ≡ Some file → IsFileOf file }
    ensures scan { (p : Endpoint) (file : List ℕ) → FilesRepresent p → p.task ≡ tasks.Scan
        → is_done p.client.outcome ≡ true → p.file ≡ Some file → IsFileOf file }
    /// No front of the file under way of a job that is not done is whole. A file is missing only if the job is told as out of
    /// memory.
    ensures short { (p : Endpoint) (file : List ℕ) → FilesRepresent p
        → is_done p.client.outcome ≡ false → p.file ≡ Some file → HoldsNoFile file }
    ensures none { (p : Endpoint) → FilesRepresent p → p.file ≡ None → p.out_of_memory ≡ true }
    ensures no_page { (p : Endpoint) (k : ℕ) → FilesRepresent p
        → 0 < k → k ≤ p.finished → k ≤ 16 → finished_page p k ≡ None → p.out_of_memory ≡ true }
{}

/// What happens to a job takes one from the moves that it may still take, and no event raises them.
pub fn moves_fall()
    ensures spent { (d e : Core) (p q : Endpoint) (job_event : JobEvent)
        → Can d p job_event → Happens d p job_event e q → q.budget ≡ p.budget - 1 }
    ensures less { (d e : Core) (p q : Endpoint) (job_event : JobEvent) → 0 < moves_left_of p
        → Can d p job_event → Happens d p job_event e q → moves_left_of q < moves_left_of p }
    ensures never_more { (source : Source → SourceState) (event : Event) (w v : WorldCore)
        → Leads source event w v → HasNoMoreMoves w v }
{}

/// A job that rests behind all rounds has no next move, as long as it has moves left.
pub fn rest_is_quiet()
    ensures { (w : WorldCore) (i : ℕ) (p : Endpoint) (event : Event)
        → RestsAt w i → slice_get w.endpoints i ≡ Some p
        → IsNextMove w.daemon i p (Some event) → moves_left_of p ≡ 0 }
{}
