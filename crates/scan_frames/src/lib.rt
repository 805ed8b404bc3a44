//! The frames of a scan, and how they are made row by row from a page source.
#![tactic(auto)]

mod buffers;
mod byte_bits;
mod byte_lines;
mod byte_words;
mod faults;
mod frame_rows;
mod gamma_tables;
mod gray_rows;
mod lanes;
mod laws;
mod line;
mod pass;
mod rows;
mod setup;

pub use faults::{BeginFault, ReadEnd};
pub use frame_rows::FrameRows;
pub use laws::{
    a_frame_for_each_pass, frames_show_the_picture, gamma_entries_are_bytes, lines_end_in_zeros,
};
pub use pass::{has_picture, last_pass, params, params_without};
pub use setup::{Packing, PassOrder, Setup, packing_of};
