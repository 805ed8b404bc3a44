//! Tests of jobs, here and over the net, and of the frontend's library. Large values are let go by `drop`, so that the
//! proof takes them apart once, and not in each test.
#![tactic(auto)]

#[cfg(test)]
mod client;
#[cfg(test)]
mod common;
#[cfg(test)]
mod local;
#[cfg(test)]
mod outputs;
#[cfg(test)]
mod program;
#[cfg(test)]
mod streams;
