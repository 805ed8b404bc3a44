//! The core of the scanner daemon: sessions over one table of devices (SANE Standard 1.06, "Network
//! Protocol"). Bytes go in and out of it by calls; it opens no socket.
#![tactic(auto)]

mod daemon;
mod daemon_loading;
mod data;
mod feeding;
mod laws;
mod replies;
mod session_giving_back;
mod session_slot;
mod session_slots;

pub use daemon::Daemon;
pub use laws::{
    a_request_uses_bytes, one_string_size_is_kept, requests_are_answered_in_order,
    sessions_are_independent, the_limits_are_kept,
};
pub use replies::Replies;
pub use session_slot::{DataStep, Fed, FrameState, OpenFault, SessionId};
