//! That a loop which stops within a step takes nothing from the others.

ghost use Rattle.programs_refine.specs.BesideAnyLoops.{ProgramsTellEachBesideAny, WildIsARun};
ghost use Rattle.programs_refine.specs.KilledAlone.{KilledIsARun, KilledIsKept};
ghost use Rattle.programs_refine.specs.StoppedAmong.{KilledAmongIsARun, KilledAmongIsKept, ProgramsKeepEachAmongStrangers, StoppedLoopsCompleteNone};
ghost use Rattle.programs_refine.specs.StoppedLoops.{ProgramsKeepEach};
ghost use Rattle.programs_refine.specs.ToldOfEach.{KilledAmongIsTold, NoOtherIsToldWhole, ProgramsTellEachAmongStrangers};

use crate::{programs_keep_all, programs_keep_all_among_strangers, programs_keep_among_strangers};

#[tactic(none)]
pub fn programs_keep_each()
    /// Where the loops of some jobs stop within a step, since an output failed, or they were killed, all of that is kept
    /// of each other job.
    /// Carried by: `programs_keep_each`: `StopsWithin`, `WholeLoopsAreKept`
    ensures { ProgramsKeepEach }
{
    programs_keep_all();
}

#[tactic(none)]
pub fn one_may_be_killed()
    /// There is such a run, which with whole loops is none: a job finds its connection lost, and the loop of a second one
    /// is killed within its first step.
    ensures { KilledIsARun }
{}

#[tactic(none)]
pub fn the_other_is_kept()
    /// Of that run all of that is kept of the first job, over any devices of which a world is made.
    ensures { KilledIsKept }
{
    programs_keep_each();
}

#[tactic(none)]
pub fn programs_keep_each_among_strangers()
    /// If strangers speak to the server, and the loops of some jobs stop within a step, each other job keeps what loops among
    /// strangers keep, in the model's words.
    /// Carried by: `programs_keep_each_among_strangers`: `StopsWithin`, `WholeLoopsAreKeptAmong`
    ensures { ProgramsKeepEachAmongStrangers }
{
    programs_keep_among_strangers();
}

#[tactic(none)]
pub fn stopped_loops_complete_none()
    /// The smallest lie against it is refuted: that strangers and loops that stopped made the file whole of another
    /// job, which is not done.
    ensures { StoppedLoopsCompleteNone }
{}

#[tactic(none)]
pub fn one_may_be_killed_among_strangers()
    /// There is such a run, which with whole loops is none: a stranger says a byte, with which the daemon runs out of
    /// memory, a job finds its connection lost, and the loop of a second one is killed within its first step.
    ensures { KilledAmongIsARun }
{}

#[tactic(none)]
pub fn the_other_is_kept_among_strangers()
    /// Of that run all of that is kept of the first job, over any devices of which a world is made.
    ensures { KilledAmongIsKept }
{
    programs_keep_each_among_strangers();
}

#[tactic(none)]
pub fn programs_tell_each_among_strangers()
    /// If strangers speak to the server, and the loops of some jobs stop within a step, all that is told of loops among strangers
    /// is told of each other job, by a history of events and strangers' acts.
    /// Carried by: `programs_tell_each_among_strangers`: `StopsWithin`, `WholeLoopsAreToldAmong`
    ensures { ProgramsTellEachAmongStrangers }
{
    programs_keep_all_among_strangers();
}

#[tactic(none)]
pub fn no_other_is_told_whole()
    /// The smallest lie against that is refuted: that it told a whole file of another job, which is not done.
    ensures { NoOtherIsToldWhole }
{}

#[tactic(none)]
pub fn the_other_is_told_among_strangers()
    /// All of that is told of the first job in the run in which a second one is killed, over any devices of which a world is
    /// made.
    ensures { KilledAmongIsTold }
{
    programs_tell_each_among_strangers();
}

#[tactic(none)]
pub fn programs_tell_each_beside_any()
    /// Whatever the loops of some jobs did, such as one that has no memory for what it is to tell, all that is told of loops
    /// among strangers is told of each other job, by a history in which the sessions of those are strangers'.
    /// Carried by: `programs_tell_each_beside_any`: `LoopsLeadOrNot`, `owned_by_whole`, `WholeLoopsAreToldAmong`
    ensures { ProgramsTellEachBesideAny }
{
    programs_keep_all_among_strangers();
}

#[tactic(none)]
pub fn one_may_do_anything()
    /// There is such a run, which with loops that stop within a step is none: a job finds its connection lost, and the
    /// loop of a second one writes a byte that its client never had to write.
    ensures { WildIsARun }
{}
