//! A scanner as its callers see it: its options, its frames, and where it is in a scan.
#![tactic(auto)]

mod boxed;
mod choice;
mod device;
mod kinds;
mod laws;
mod matching;
mod scan_option;
mod setting;
mod tables;
mod values;

pub use choice::Choice;
pub use device::Device;
pub use kinds::{class_name, is_feeder, model_name};
pub use laws::{
    a_refused_start_takes_no_page, a_scanner_stays_what_it_is, a_set_changes_one_option,
    reload_tells_of_changed_descriptors, same_values_are_equal, settings_are_put_as_they_are_set,
    settings_in_force_are_allowed, what_is_set_is_read,
};
pub use sane_fixed::{DeviceInfo, has_cap};
pub use scan_option::{ScanOption, option_at, options_of};
pub use setting::set_option;
pub use tables::{descriptor, descriptors, is_active};
pub use values::{defaults, get_option, option_value, reset_setup};
