//! The loop of the scanner daemon: its sessions over connections that never wait, in turns.
#![tactic(auto)]

mod laws;
mod link;
mod link_slots;
mod pending;
mod serving;
mod sockets;

pub use laws::{
    connections_tell_their_sessions, no_device_is_held_twice, no_more_stand_than_are_counted,
    nobody_acts_for_a_session_that_left,
};
pub use serving::{ServeEnd, serve};
pub use sockets::{Got, Listeners, Socket};
