//! Who may use a backend: users, challenges and answers (SANE Standard 1.06, "Authorization").
#![tactic(auto)]

mod authorization;
mod challenges;
mod laws;
mod line_fault;
mod texts;
mod user_lines;
mod users;

pub use authorization::{answer, check};
pub use challenges::Challenger;
pub use laws::{an_answer_allows, one_challenge};
pub use line_fault::{LineFault, LineReason};
pub use users::{Entry, Users};
