//! The text of a config, the pages that its lines name, and the scanners on them.
#![tactic(auto)]

mod config_reading;
mod config_scanners;
mod devices;
mod input_notes;
mod inputs;
mod limited_reading;
mod no_page;
mod opening;
mod recorded_inputs;
mod spelled;

pub use config_reading::{ConfigFailure, MOST_OF_CONFIG, read_config};
pub use config_scanners::{ScannerFault, scanners};
pub use devices::DeviceFault;
pub use inputs::{HostInputs, Inputs};
pub use limited_reading::text_of;
pub use no_page::{NoPage, PageSourceFault};
pub use opening::page_source;
pub use recorded_inputs::RecordedInputs;
