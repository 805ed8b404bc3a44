//! A client of one job over a control connection and the data connections of its frames, as bytes in any pieces.
#![tactic(auto)]

mod client;
mod imaging;
mod outbox;
mod request_sending;

pub use client::Client;
pub use client_replies::{JobTarget, Link, Next, Notes, Progress, Queue};
pub use imaging::PieceResult;
pub use outbox::Outbox;
