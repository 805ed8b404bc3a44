//! The virtual three-pass scanner.
#![tactic(auto)]

mod three_pass;

pub use three_pass::ThreePass;
