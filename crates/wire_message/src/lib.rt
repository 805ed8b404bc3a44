//! SANE's network messages as values, the formats that spell them, and the laws of these.
#![tactic(auto)]

mod array;
mod laws;
mod message;
mod message_fault;
mod wire_values;

pub use array::Array;
pub use laws::{replies_are_spelled_apart, requests_are_spelled_apart};
pub use message::{ControlAction, MESSAGE_LIMIT, Procedure, Reply, Request, WireValue};
pub use message_fault::WireFault;
pub use sane_fixed::DeviceInfo;
pub use wire_values::{one_word, signed, text_in, wire_of};
