//! The records of the data connection as bytes, both ways.
#![tactic(auto)]

mod records;

pub use records::{
    RecordPhase, RecordReader, Step, record_end, record_head, records_are_read_in_any_pieces,
};
