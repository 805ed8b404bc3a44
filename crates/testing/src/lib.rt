//! What several crates of tests begin with: texts, pages, scanners and jobs in memory. None is made for lack of memory, or for
//! what cannot be made of the bytes at all.
#![tactic(auto)]

mod any_scanner;
mod jobs;
mod pages;
mod scanners;
mod streams;
mod texts;

pub use any_scanner::{AnyScanner, scanner};
pub use jobs::{Over, how, job};
pub use pages::{dot, dots, failing_source, source};
pub use scanners::{feeder, flatbed, hand_scanner, three_pass};
pub use streams::joined;
pub use texts::text;
