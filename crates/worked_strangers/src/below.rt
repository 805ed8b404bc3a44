//! The laws of the crates below.

ghost use Rattle.worked_strangers.specs.Inside.{LawsBelow};

use strangers::{all_is_kept_among_strangers, jobs_go_on_among_strangers};
use system_model::{every_history_keeps_the_invariant, history_marks_are_enabled, notes_are_true};
use world_refines::{a_run_refines, a_scan_is_meant};

#[tactic(none)]
pub(crate) fn what_stands_below()
    ensures { LawsBelow }
{
    all_is_kept_among_strangers();
    jobs_go_on_among_strangers();
    a_run_refines();
    a_scan_is_meant();
    notes_are_true();
    every_history_keeps_the_invariant();
    history_marks_are_enabled();
}
