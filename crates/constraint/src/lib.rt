//! The constraints of SANE's options: ranges and lists, and the admitted value nearest to any other.
#![tactic(auto)]

mod laws;
mod range;
mod string_list;
mod word_list;

pub use laws::{at_most_one_is_nearest, what_is_computed_is_nearest};
pub use range::Range;
pub use string_list::StringList;
pub use word_list::WordList;
