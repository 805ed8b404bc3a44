//! A client and the client of the system model are one. A client over the net makes of replies and frame data what the model
//! makes of their decoded reply.
#![tactic(auto)]

mod frame_laws;
mod lives;
mod reply_laws;

pub use frame_laws::{
    bytes_are_read_alike, frames_end_alike, pages_are_taken_alike, pages_turn_unseen,
    pieces_are_received_alike,
};
pub use lives::{
    calls_are_alike, clients_begin_alike, jobs_stop_alike, outcomes_are_alike,
    pulls_and_links_are_unseen,
};
pub use reply_laws::{pieces_are_heard_alike, replies_are_heard_alike, requests_are_alike};
