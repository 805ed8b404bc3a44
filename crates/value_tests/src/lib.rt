//! Tests of numbers, lines, options and their constraints, and authorization.
#![tactic(auto)]

#[cfg(test)]
mod auth;
#[cfg(test)]
mod constraints;
#[cfg(test)]
mod fixed;
#[cfg(test)]
mod options;
