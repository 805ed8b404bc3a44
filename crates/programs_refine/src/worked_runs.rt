//! That runs meet the premises of the laws: one premise more that nothing meets is refused here.

ghost use Rattle.programs_refine.specs.WorkedRuns.{LostAtOnceIsARun, LostMayBringMore, NewIsFit, StarvedIsARun, StarvedIsKept, StoppedInterleaves, StoppedIsARun};

use crate::{loops_lead_into_runs, programs_keep_all};

#[tactic(none)]
pub fn there_are_runs()
    /// There are runs that meet all of these premises. In one a job's connection is lost before it wrote anything. In the other a
    /// job writes its first request to a daemon which opens its session, is fed a byte and runs out of memory.
    ensures lost { LostAtOnceIsARun }
    ensures starved { StarvedIsARun }
    /// Such a daemon over any devices of which a world is made, and such a job, are fit.
    ensures fit { NewIsFit }
{}

#[tactic(none)]
pub fn a_lost_connection_may_bring_more()
    /// Connections that hand on so may still bring a job what its data connection was given, behind the act by which
    /// the daemon is told that it is lost.
    ensures { LostMayBringMore }
{}

#[tactic(none)]
pub fn a_run_is_kept()
    /// Of the second all of that is kept, over any devices of which a world is made.
    ensures { StarvedIsKept }
{
    programs_keep_all();
}

#[tactic(none)]
pub fn a_stopped_server_is_interleaved()
    /// The journal of a server that had no memory for a turn, and the loop of a job that finds its connection lost,
    /// interleave: so such acts lead into a run over connections.
    /// Carried by: `interleaved`, `run` of `a_stopped_server_is_interleaved`: `Interleaves`
    ensures interleaved { StoppedInterleaves }
    ensures run { StoppedIsARun }
{
    loops_lead_into_runs();
}
