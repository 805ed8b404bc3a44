//! Lanes of vectors: eight numbers of two bytes, or sixteen bytes, at once.
#![tactic(auto)]

pub mod bytes;
pub mod words;
