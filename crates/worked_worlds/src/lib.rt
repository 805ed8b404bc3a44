//! Worked worlds: of each definition of the promise on the calls a run that meets it, beside the scans of `scan_world`: a list, a
//! show, a guarded device with the right and with a wrong password, a device taken out, an empty tray, and batches.
#![tactic(auto)]

mod both;
mod dots;
mod ends;
mod hand_shows;
mod lists;
mod passwords;
mod shows;
mod surely;
mod taken;
mod tray;
mod tray_dots;
mod worlds;

pub use both::scan_both_surely;
pub use dots::{a_dot_is_one_byte, scan_dots, scan_one_dot, scan_two_dots};
pub use hand_shows::{ShownOption, show_hand};
pub use lists::list_both;
pub use passwords::{scan_with_password, scan_with_wrong_password};
pub use shows::show_options;
pub use surely::{NoFile, scan_surely};
pub use taken::scan_of_taken_out;
pub use tray::{scan_no_page, scan_pages};
pub use tray_dots::scan_two_of_three;
pub use worlds::{copied, flatbed_on, one_job};
