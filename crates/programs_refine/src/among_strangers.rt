//! What becomes of jobs while strangers speak to the server.

ghost use Rattle.programs_refine.specs.KeepingAmong.{ProgramsKeepAmongStrangers, StrangerComesIsARun, StrangerComesIsKept, StrangersCompleteNoLoop, TurnedPagesAreScanned, WorldsKeepTurnAmongStrangers};
ghost use Rattle.programs_refine.specs.AmongStrangers.{LoopsLeadIntoRunsAmong, ProgramsAreAWorldAmongStrangers, RunsAreAmongStrangers};

use strangers::all_is_kept_among_strangers;

#[tactic(none)]
pub fn programs_are_a_world_among_strangers()
    /// If strangers speak to the server as well, events of connections and acts of strangers, each for a session that no job has,
    /// lead to a world whose daemon is the server's, but for replies on their way. From there losses alone lead to a world in
    /// which each job that is over is as its loop has it.
    /// Carried by: `programs_are_a_world_among_strangers`: `ComeToAWorldAmong`, `HasDaemonAmong`
    ensures { ProgramsAreAWorldAmongStrangers }
{}

#[tactic(none)]
pub fn runs_are_among_strangers()
    /// A run over connections is one among strangers, in which none speaks.
    ensures over_connections { RunsAreAmongStrangers }
    /// Take acts in which the journal of a server that has served from its first session on and loops of jobs, whose batches have
    /// 1 to 16 pages, are interleaved. They are such a run if the control connections hand on among strangers, and the other end
    /// of each data connection is the daemon.
    ensures led { LoopsLeadIntoRunsAmong }
{}

/// What that law asks of worlds is so.
#[tactic(none)]
pub fn worlds_keep_turn_among_strangers()
    /// Worlds among strangers meet what that law asks: a job that wants the data connection of a frame has none that flows, and
    /// no reply comes to a job before the request that it answers was taken.
    ensures { WorldsKeepTurnAmongStrangers }
{
    all_is_kept_among_strangers();
}

/// What is promised of jobs among strangers, in the model's words, holds of what their loops come to.
#[tactic(none)]
pub fn programs_keep_among_strangers()
    /// So if strangers speak to the server, a job whose loop is over has an outcome by the model. A scan that is done has the
    /// picture of its start, if the sources of its device are steady. One that is not done has no whole file.
    /// Carried by: `programs_keep_among_strangers`: `LoopIsKeptAmong`
    ///
    /// A job that is stopped while it runs let no whole file out but of pages that were turned. Each of these is that of its
    /// start, if its sources are steady.
    /// Carried by: `programs_keep_among_strangers`: `StoppedIsKeptAmong`
    ensures { ProgramsKeepAmongStrangers }
{
    all_is_kept_among_strangers();
}

#[tactic(none)]
pub fn strangers_complete_no_loop()
    /// The smallest lie against it is refuted: that strangers made the file whole of a job that is not done.
    ensures { StrangersCompleteNoLoop }
{}

#[tactic(none)]
pub fn turned_pages_are_scanned()
    /// Each page that a loop turned is that of the start of its number, where its sources are steady, whatever became of
    /// its job.
    ensures { TurnedPagesAreScanned }
{}

#[tactic(none)]
pub fn a_stranger_may_come()
    /// There is such a run, which without strangers is none: one comes and says a byte, with which the daemon runs out
    /// of memory, and a job finds its connection lost.
    ensures { StrangerComesIsARun }
{}

#[tactic(none)]
pub fn a_run_among_strangers_is_kept()
    /// Of that run all of that is kept, over any devices of which a world is made.
    ensures { StrangerComesIsKept }
{
    programs_keep_among_strangers();
}
