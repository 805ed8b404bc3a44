//! Outputs with a record of what the calls on them took. Clauses alone read the record, and no memory holds it.
#![tactic(auto)]

mod named_output;
mod recorded;
mod recorded_shelf;
mod returned_outputs;
mod taken_bytes;

pub use named_output::NamedOutput;
pub use recorded::Recorded;
pub use recorded_shelf::RecordedShelf;
