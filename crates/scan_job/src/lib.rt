//! Jobs, and what becomes of them.
#![tactic(auto)]

mod job;
mod listed;
mod outcome;
mod report;
mod shelf;
mod shown;
mod stop;

pub use job::{Job, JobFault, MOST_PAGES, Task};
pub use listed::ItemList;
pub use outcome::{Outcome, Why};
pub use report::{Report, Reports};
pub use shelf::{Shelf, ShelfFault};
pub use shown::tells_value;
pub use stop::Stop;
