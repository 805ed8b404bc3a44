//! Where a scanner reads the rows of its page from: page files, a page in memory, and one that fails; and page files read whole.
#![tactic(auto)]

mod eights;
mod failing_page;
mod fitting;
mod header_scan;
mod kinds;
mod memory_page;
mod open_fault;
mod page_file;
mod pnm_page;
mod raster_rows;
mod read_fault;
mod read_room;
mod rereadable;
mod scaling;
mod third_numbers;
mod upper_rows;
mod uppers_fit;

pub use failing_page::FailingPage;
pub use kinds::Source;
pub use memory_page::MemoryPage;
pub use open_fault::OpenFault;
pub use page_file::{PageFault, read_page};
pub use pnm_page::PnmPage;
pub use rereadable::Rereadable;
