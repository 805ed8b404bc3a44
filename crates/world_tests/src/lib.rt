//! Tests of the whole world: one daemon and the clients of some jobs, event by event.
#![tactic(auto)]

#[cfg(test)]
mod worlds;
