//! Tests of messages and records on the wire, against bytes that its profile gives.
#![tactic(auto)]

#[cfg(test)]
mod faults;
#[cfg(test)]
mod messages;
#[cfg(test)]
mod records;
#[cfg(test)]
mod replies;
#[cfg(test)]
mod requests;
