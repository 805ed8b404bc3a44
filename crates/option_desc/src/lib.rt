//! Options by their descriptors: which values fit one, which is put, and how values read and show as text.
#![tactic(auto)]

mod descriptor;
mod laws;
mod putting;
mod reading;
mod showing;
mod value;

pub use descriptor::{Constraint, Descriptor};
pub use laws::{
    at_most_one_is_put, what_is_computed_is_put, what_is_computed_is_read, what_is_shown_is_read,
};
pub use putting::{fits, put};
pub use reading::read_text;
pub use showing::show_text;
pub use value::{Value, Words};
