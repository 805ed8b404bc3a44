//! Worlds whose calls carry what is promised, in the words of those who hand them jobs.
#![tactic(auto)]

mod example;
mod laws;
mod lies;
mod world;

pub use event_world::{Event, WorldFault};
pub use example::{scan_beside, scan_once, scan_with_another};
pub use laws::{
    a_plain_job_is_clear, all_are_listed, all_is_right, jobs_end_once, strangers_act_among_jobs,
    trays_are_taken,
};
pub use lies::{
    a_file_is_no_lie, a_holder_is_no_lie, a_move_is_no_lie, a_refusal_is_no_lie,
    a_report_is_no_lie, a_run_is_no_lie, a_stranger_is_no_lie, an_ending_is_no_lie,
};
pub use world::World;
