//! The outputs of a job's files, and of what is printed: bytes written to them, and what became of the calls on them.
#![tactic(auto)]

mod output;
mod tally;

pub use output::put;
pub use tally::{MOST_AGAIN, OutputTally, fails_to_write};
