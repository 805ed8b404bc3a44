//! One daemon and the clients of some jobs, and what may happen to them, event by event.
#![tactic(auto)]

mod devices;
mod draining;
mod endpoint;
mod event;
mod file;
mod job_events;
mod laws;
mod moves;
mod world;
mod world_fault;

pub use devices::parts_of;
pub use event::Event;
pub use laws::{files_are_represented, files_tell, moves_fall, rest_is_quiet};
pub use world::{Endpoints, EventWorld};
pub use world_fault::WorldFault;
