//! A virtual scanner of any kind: what the flatbed, the hand scanner, the three-pass scanner and the feeder share.
#![tactic(auto)]

mod at;
mod boxed_scanner;
mod scanner;
mod tray;

pub use boxed_scanner::Scanner;
pub use scanner::VirtualScanner;
pub use tray::TRAY_ROOM;
