//! What is answered to the requests of a session.

pub mod control;
pub mod open_requests;
pub mod option_values;
pub mod request;
pub mod starting;
pub mod word_replies;
