//! The virtual flatbed scanner, and the one to which pages are fed.
#![tactic(auto)]

mod feeder;
mod flatbed;

pub use feeder::{Feeder, FeederFault};
pub use flatbed::Flatbed;
