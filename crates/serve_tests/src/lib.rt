//! Tests of the serving loop, and of the library of saned.
#![tactic(auto)]

#[cfg(test)]
mod program;
#[cfg(test)]
mod serve;
