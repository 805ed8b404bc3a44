//! Texts of lines: how a text is cut into lines, and the limits that its lines keep.
#![tactic(auto)]

mod cutting;
mod laws;
mod limits;

pub use cutting::{first_line, split_once};
pub use laws::lines_are_cut;
pub use limits::{LimitFault, Limits};
