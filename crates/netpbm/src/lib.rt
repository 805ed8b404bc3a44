//! Netpbm files with a binary raster (pbm(5), pgm(5) and ppm(5)): what their texts mean, how a header is read, and
//! the numbers of a raster.
#![tactic(auto)]

mod format;
mod header;
mod laws;
mod raster;

pub use format::{Header, PnmFormat};
pub use header::{ends_comment, format_of, is_white, read_header};
pub use laws::{a_file_and_more_holds_one, file_text_denotes, no_whole_prefix, one_picture};
pub use raster::{none_above, number_at, raster_size, sample_count};
