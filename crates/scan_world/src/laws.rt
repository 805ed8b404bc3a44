//! The laws.

ghost use Rattle.std.specs.Prelude.{List};
ghost use Rattle.page_sources.specs.SourceView.{source_state};
ghost use Rattle.event_world.specs.declared.event.Event.{Event};
ghost use Rattle.event_world.specs.Worlds.{Runs, WorldCore};
ghost use Rattle.scan_world.specs.Calls.{CancelEnds, IsWorldStep, MovesFall, OthersStay, OverStays, StarvedStays};
ghost use Rattle.scan_world.specs.Clear.{AllAreListed, ClearsBy, FeederIsClear, LinesAllow, PlainIsClear};
ghost use Rattle.scan_world.specs.Histories.{EachStep};
ghost use Rattle.scan_world.specs.Laws.{AllFollow, AllIsRight, Below};
ghost use Rattle.scan_world.specs.Shared.{ActsLeaveSessions, BusyIsByJobs, EventsAreNoActs, HoldersStandApart, LedAlone, NoneSharesAlone, AStrangerMayCome};
ghost use Rattle.scan_world.specs.Trays.{TraysAreTaken};

use strangers::{all_is_kept_among_strangers, jobs_go_on_among_strangers};
use system_model::{
    causes_are_grounded, every_history_keeps_the_invariant, marks_are_enabled, notes_are_true,
    outcomes_last, settings_mean_the_same,
};
use world_refines::{
    a_new_world_refines, a_run_refines, a_scan_is_meant, all_is_kept, losses_are_explained,
    outcomes_are_right, pages_are_meant,
};

/// What the laws below come to.
#[tactic(none)]
pub fn all_follow()
    ensures right { AllFollow }
    ensures listed { Below → AllAreListed }
    ensures taken { Below → TraysAreTaken }
    ensures clear { Below → (events : List Event) (w v : WorldCore) → ClearsBy events w v }
{}

/// The laws of the crates below.
#[tactic(none)]
pub(crate) fn what_stands_below()
    ensures { Below }
{
    all_is_kept();
    all_is_kept_among_strangers();
    jobs_go_on_among_strangers();
    a_new_world_refines();
    a_run_refines();
    outcomes_are_right();
    losses_are_explained();
    a_scan_is_meant();
    pages_are_meant();
    notes_are_true();
    every_history_keeps_the_invariant();
    marks_are_enabled();
    outcomes_last();
    causes_are_grounded();
    settings_mean_the_same();
}

/// ALL IS KEPT: what the calls of a world answer of each job is right, whatever was handed to it, in whatever order and pieces.
#[tactic(none)]
pub fn all_is_right()
    /// All of it at once, of what the calls answer of one job.
    /// Carried by: `all_is_right`: `JobIsKept`
    ensures { AllIsRight }
{
    what_stands_below();
}

/// A job that is over keeps what it shows. A job that no event came to is as it was. Moves never come back. An event of a job
/// that can happen lowers its moves, and a cancel ends a job that runs.
#[tactic(none)]
pub fn jobs_end_once()
    ensures over { (events : List Event) (w v : WorldCore)
        → Runs source_state events w v → OverStays w v }
    ensures others { (events : List Event) (w v : WorldCore)
        → Runs source_state events w v → OthersStay events w v }
    ensures starved { (events : List Event) (w v : WorldCore)
        → Runs source_state events w v → StarvedStays w v }
    ensures moves { (events : List Event) (w v : WorldCore)
        → Runs source_state events w v → MovesFall w v }
    ensures cancel { (events : List Event) (w v : WorldCore)
        → Runs source_state events w v → CancelEnds events w v }
    ensures steps { (events : List Event) (w v : WorldCore)
        → Runs source_state events w v → EachStep IsWorldStep events w v }
{}

/// A job in whose way nothing stands.
#[tactic(none)]
pub fn a_plain_job_is_clear()
    /// In a new world a job is clear that is alone on a flatbed. Its settings can be in force there and mean a picture on the
    /// page, whose source cannot fail. Its password is right, if a line of the users names its backend.
    /// Carried by: `flatbed` of `a_plain_job_is_clear`
    ///
    /// So it is on a feeder with one page at least, where this is so of each of its pages.
    /// Carried by: `feeder` of `a_plain_job_is_clear`
    ensures flatbed { PlainIsClear }
    ensures feeder { FeederIsClear }
    /// A line of the users with a job's own user, password and backend is such a one, whatever the challenge.
    /// Carried by: `line` of `a_plain_job_is_clear`: `LinesAllow`
    ensures line { LinesAllow }
{}

/// What becomes of a tray.
#[tactic(none)]
pub fn trays_are_taken()
    /// A job asks for a start while so many of its pages are finished. A feeder that only this job names, into which no event
    /// laid a page, where no stranger did anything, then has, at rest, the pages of its first tray without that many; and there
    /// were as many in it.
    ensures { TraysAreTaken }
{
    what_stands_below();
}

/// Where no event took a device out.
#[tactic(none)]
pub fn all_are_listed()
    /// In a world with a job, to which no event led that took a device out, all devices are listed, once, in their order.
    ensures { AllAreListed }
{
    what_stands_below();
}

/// Strangers among the jobs of a world.
#[tactic(none)]
pub fn strangers_act_among_jobs()
    /// Events of jobs and acts of strangers, in any order, may lead to a world, and all is promised as before. A stranger may
    /// come to any world that has a job, while a place for a session is free, and that is such a history.
    /// Carried by: `come` of `strangers_act_among_jobs`; `LedTo`
    ensures come { AStrangerMayCome }
    /// No job and no stranger have devices of one name; and whatever a stranger does, each job's session stands as it
    /// stood, with its device, its settings and the pages there.
    /// Carried by: `apart`, `leave` of `strangers_act_among_jobs`
    ensures apart { HoldersStandApart }
    ensures leave { ActsLeaveSessions }
    /// Without an act of a stranger all is as among jobs alone. What led there is a run of its events, only sessions of jobs have
    /// devices, and DEVICE_BUSY is explained by another job's session alone.
    /// Carried by: `led`, `alone`, `busy` of `strangers_act_among_jobs`
    ensures led { LedAlone }
    ensures alone { NoneSharesAlone }
    ensures busy { BusyIsByJobs }
    /// Events that are handed to a world are no acts of a stranger.
    /// Carried by: `events` of `strangers_act_among_jobs`
    ensures events { EventsAreNoActs }
{
    what_stands_below();
}
