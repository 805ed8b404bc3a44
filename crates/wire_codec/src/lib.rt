//! SANE's network messages as bytes: requests and replies both ways, and the records of the data connection.
#![tactic(auto)]

mod begun;
mod decoder;
mod message_reading;
mod word_readers;

pub use data_records::{
    RecordPhase, RecordReader, Step, record_end, record_head, records_are_read_in_any_pieces,
};
pub use decoder::Decoder;
pub use wire_message::{
    Array, ControlAction, Procedure, Reply, Request, WireFault, WireValue,
    replies_are_spelled_apart, requests_are_spelled_apart,
};
pub use wire_writing::{encode_reply, encode_request};
