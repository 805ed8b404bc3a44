//! That what the loops ensure leads into a run over connections.

ghost use Rattle.programs_refine.specs.LedInto.{BatchDoneLeads, BatchEndedLeads, BatchSunkLeads, DoneLeads, EndedLeads, LoopsLeadIntoRuns, SunkLeads};

#[tactic(none)]
pub fn loops_lead<L>()
    /// `run_job` and `run_batch` ensure a loop of that job if it is Done, or told as its client ended: from a new client on, by
    /// steps with which its files went out.
    ensures done { DoneLeads L }
    ensures ended { EndedLeads L }
    ensures batch_done { BatchDoneLeads L }
    ensures batch_ended { BatchEndedLeads L }
    /// Where an output failed it is one up to the piece at which that was.
    ensures sunk { SunkLeads L }
    ensures batch_sunk { BatchSunkLeads L }
{}

#[tactic(none)]
pub fn loops_lead_into_runs()
    /// Take acts in which the journal of a server that has served from its first session on and such loops of jobs, whose batches
    /// have 1 to 16 pages, are interleaved. They are a run if the control connections hand on, and the other end of each data
    /// connection is the daemon.
    ensures { LoopsLeadIntoRuns }
{}
