//! What a world promises of jobs, of what their loops come to while strangers speak to the server.

ghost use Rattle.programs_refine.specs.ToldAmong.{AllAreKnown, NoneIsToldWhole, ProgramsKeepAllAmongStrangers, StrangerComesIsTold};

use scan_world::all_is_right;
use strangers::all_is_kept_among_strangers;

/// THE HEADLINE, OF LOOPS AMONG STRANGERS, as a world tells it.
#[tactic(none)]
pub fn programs_keep_all_among_strangers()
    /// Each job whose loop is over has all that a world promises of its outcome and files, by a history of events and strangers'
    /// acts: if it is done, the picture that its settings mean on the page of its start, as far as the pages that came are
    /// steady; else a status, what explains it, and no whole file.
    /// Carried by: `programs_keep_all_among_strangers`: `AllLoopsAreToldAmong`, `LoopIsKept`
    ///
    /// Of a job that is stopped while it runs no whole file went out but those of a batch's pages that were turned, and
    /// each of these is kept.
    /// Carried by: `programs_keep_all_among_strangers`: `StoppedIsKept`
    ensures { ProgramsKeepAllAmongStrangers }
{
    all_is_kept_among_strangers();
    all_is_right();
}

#[tactic(none)]
pub fn none_is_told_whole()
    /// The smallest lie against that is refuted: a whole file of a job that is not done.
    ensures { NoneIsToldWhole }
{}

#[tactic(none)]
pub fn a_run_among_strangers_is_told()
    /// All of that is told of the run in which a stranger comes, over any devices of which a world is made.
    ensures { StrangerComesIsTold }
{
    programs_keep_all_among_strangers();
}

#[tactic(none)]
pub fn devices_are_known()
    /// What `programs_keep_among_strangers` asks of devices' sources, and of a job that names none of them, is met by
    /// some, whatever the devices.
    ensures { AllAreKnown }
{}
