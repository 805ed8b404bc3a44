//! Netpbm files: the pictures of scenes and of frames, written, and files read.
#![tactic(auto)]

mod plain;
mod read;

pub use frame_join::{
    FrameJoin, JoinFault, PnmOut, frame_file_is_the_writers_text, no_file_is_endless,
    no_front_is_whole, not_whole_before, shown_colors_are_accepted, shown_frame_is_accepted,
    whole_file_is_of_one_frame, whole_shows,
};
pub use plain::{PlainFault, scan_plain};
pub use read::{Picture, PnmFault, Samples, read_pnm};
