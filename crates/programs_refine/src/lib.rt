//! What a server and the loops of jobs do over connections that hand on what they are given is the history of a world, and so the
//! promise of a world holds of them. `run_job` of `net_jobs` ensures that its moves are such steps.
#![tactic(auto)]

ghost use Rattle.programs_refine.specs.Keeping.{ProgramsKeepAll, WorldsHearInTurn, WorldsWantBeforeItFlows};
ghost use Rattle.programs_refine.specs.Programs.{ProgramsAreAWorld};

mod among_strangers;
mod led_into;
mod stopped_loops;
mod told_among;
mod worked_runs;

pub use among_strangers::{
    a_run_among_strangers_is_kept, a_stranger_may_come, programs_are_a_world_among_strangers,
    programs_keep_among_strangers, runs_are_among_strangers, strangers_complete_no_loop,
    turned_pages_are_scanned, worlds_keep_turn_among_strangers,
};
pub use led_into::{loops_lead, loops_lead_into_runs};
use scan_world::all_is_right;
pub use stopped_loops::{
    no_other_is_told_whole, one_may_be_killed, one_may_be_killed_among_strangers,
    one_may_do_anything, programs_keep_each, programs_keep_each_among_strangers,
    programs_tell_each_among_strangers, programs_tell_each_beside_any, stopped_loops_complete_none,
    the_other_is_kept, the_other_is_kept_among_strangers, the_other_is_told_among_strangers,
};
pub use told_among::{
    a_run_among_strangers_is_told, devices_are_known, none_is_told_whole,
    programs_keep_all_among_strangers,
};
pub use worked_runs::{
    a_lost_connection_may_bring_more, a_run_is_kept, a_stopped_server_is_interleaved,
    there_are_runs,
};
use world_refines::{a_new_world_refines, a_run_refines};

/// Whatever a server and any number of jobs' loops did over connections, in one order, some events of connections lead the new world
/// of that daemon and these jobs to where each job that is over has the outcome and the file that its loop has. `RunOverConnections`
/// has the premises.
#[tactic(none)]
pub fn programs_are_a_world()
    /// Whatever a server and jobs did so, some events of connections lead the new world of that daemon and these jobs to a world
    /// whose daemon is the server's, but for replies on their way to their jobs.
    /// Carried by: `programs_are_a_world`: `ComeToAWorld`, `HasDaemonOf`
    ///
    /// From there losses of control connections alone, of jobs that are connected for that if they were not, lead to a world in
    /// which each job that is over has the outcome that its loop has. Its files, of finished pages and the one under way, are
    /// what went out.
    /// Carried by: `programs_are_a_world`: `AreAWorld`, `AreLosses`, `EndsAlike`
    ensures { ProgramsAreAWorld }
{}

/// In a world of devices within their limits a job that wants the data connection of a frame has none that flows.
#[tactic(none)]
pub fn worlds_want_before_it_flows()
    /// That law asks two things of worlds. A job that wants the data connection of a frame has none that flows: in a
    /// world of devices within their limits it is so.
    ensures { WorldsWantBeforeItFlows }
{
    a_new_world_refines();
    a_run_refines();
}

/// In such a world no reply comes to a job before the request that it answers was taken.
#[tactic(none)]
pub fn worlds_hear_in_turn()
    /// And no reply comes to a job before the request that it answers was taken.
    ensures { WorldsHearInTurn }
{
    a_new_world_refines();
    a_run_refines();
}

/// THE HEADLINE, OF LOOPS OVER CONNECTIONS. A job whose loop is over has the outcome that a world promises, and what went out of
/// its file is what a world promises of a file.
#[tactic(none)]
pub fn programs_keep_all()
    /// So each job whose loop is over has what a world promises of its outcome and files, by a history that led to such a world:
    /// if it is done, the picture that its settings mean on the page of its start, as far as the pages that came are steady; else
    /// a status and a cause, and no whole file.
    /// Carried by: `programs_keep_all`: `LoopIsKept`
    ///
    /// A job that is stopped while it runs, as one that is killed between two steps of its loop, let no whole file out but those
    /// of a batch's pages that were turned. Each of these is kept.
    /// Carried by: `programs_keep_all`: `StoppedIsKept`
    ensures { ProgramsKeepAll }
{
    a_new_world_refines();
    a_run_refines();
    all_is_right();
}
