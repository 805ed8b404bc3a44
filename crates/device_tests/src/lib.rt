//! Tests of the scanners, of what they share, and of the table of devices.
#![tactic(auto)]

#[cfg(test)]
mod calls;
#[cfg(test)]
mod configs;
#[cfg(test)]
mod file_scans;
#[cfg(test)]
mod page_files;
#[cfg(test)]
mod registry;
#[cfg(test)]
mod scanners;
#[cfg(test)]
mod tables;
