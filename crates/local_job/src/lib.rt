//! A job on a scanner of this machine: its settings put, its picture scanned to a Netpbm file, or the pages of a feeder
//! each to a file of its own.
#![tactic(auto)]

mod drain;
mod frame_pieces;
mod local_batch;
mod local_stop;
mod option_showing;
mod outlet;
mod page_out;
mod pages;
mod run;
mod scan;
mod settings;

pub use byte_output::{MOST_AGAIN, OutputTally, put};
pub use local_batch::{run_local_batch, run_local_batch_with};
pub use run::{run_local, run_local_with};
