//! Tests of the daemon's core, and by it of its request context.
#![tactic(auto)]

#[cfg(test)]
mod daemon;
