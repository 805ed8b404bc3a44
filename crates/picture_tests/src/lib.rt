//! Tests of pages, pictures and their files, and of frames that are joined.
#![tactic(auto)]

#[cfg(test)]
mod joins;
#[cfg(test)]
mod sources;
#[cfg(test)]
mod writing;
