//! Jobs over the net: a client's loop over a control connection, the data connections that it dials, and the outputs of
//! its files.
#![tactic(auto)]

mod calls;
mod dial;
mod lies;
mod net_batch;
mod running;
mod sink;

pub use dial::{Dial, DialFault};
pub use lies::a_told_port_is_no_lie;
pub use net_batch::{run_batch, run_batch_with};
pub use running::{run_job, run_job_with};
