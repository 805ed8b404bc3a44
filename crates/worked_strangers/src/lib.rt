//! Worked histories of a job among strangers. Sessions that no job has come to a daemon: one with garbage, one that takes the
//! job's device and is lost, one that stays. Behind what they do a job makes its moves.
#![tactic(auto)]

mod below;
mod laws;
mod scans;
mod visits;

pub use laws::a_picture_is_no_strangers;
pub use scans::{NoScan, is_busy_among_strangers, scan_among_strangers};
