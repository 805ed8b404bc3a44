//! The client of a job over the net: its value, and the loops that run it over streams.
#![tactic(auto)]

pub use net_client::{Client, Link};
pub use net_jobs::{Dial, DialFault, run_batch, run_batch_with, run_job, run_job_with};
pub use scan_job::{
    ItemList, Job, JobFault, MOST_PAGES, Outcome, Report, Reports, Shelf, ShelfFault, Task, Why,
    tells_value,
};
