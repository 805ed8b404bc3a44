//! The model of a client of a scanner over the net, on messages: what each reply and each end of a frame makes of a job, and what
//! the job asks for (SANE Standard 1.06, the network protocol chapter). Nothing here speaks of bytes on a connection.
#![tactic(auto)]

mod asking;
mod frame_ending;
mod given_values;
mod hearing;
mod progress;
mod queue;
mod shaping;

pub use asking::request_for;
pub use frame_ending::frame_ended;
pub use given_values::{blank_value, given_like, wire_value_in};
pub use hearing::{hear, stop_unjoined};
pub use progress::{JobTarget, Link, Next, Notes, Progress};
pub use queue::Queue;
pub use shaping::after_params_reply;
