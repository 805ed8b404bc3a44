//! Uses of scanimage's promise: words and texts are given, and of the clauses of `exit_code` and `program` alone it follows which
//! bytes, lines and exit status come.
#![tactic(auto)]

mod demo_dot;
mod given;
mod lines_told;
mod listing;
mod named_scans;

pub use demo_dot::{Printed, a_dot_is_printed, scan_dot};
pub use lines_told::{
    a_bad_second_line_is_told, a_missing_device_is_told, a_rounded_setting_is_told,
    a_stray_word_is_refused,
};
pub use listing::two_are_listed;
pub use named_scans::{a_dot_is_filed, the_second_is_printed, two_are_kept};
