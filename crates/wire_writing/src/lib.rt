//! SANE's network messages written as bytes.
#![tactic(auto)]

mod reply_writing;
mod request_writing;

pub use reply_writing::encode_reply;
pub use request_writing::encode_request;
