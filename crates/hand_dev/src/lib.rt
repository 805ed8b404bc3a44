//! The virtual hand scanner.
#![tactic(auto)]

mod hand_scanner;

pub use hand_scanner::HandScanner;
