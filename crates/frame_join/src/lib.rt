//! The frames of a picture, joined to its Netpbm file.
#![tactic(auto)]

mod alone_frame;
mod frame_join;
mod header_writing;
mod join_stage;
mod kept_frame;
mod laws;
mod pixel_join;
mod planes;
mod pnm_out;

pub use frame_join::FrameJoin;
pub use join_stage::JoinFault;
pub use laws::{
    frame_file_is_the_writers_text, no_file_is_endless, no_front_is_whole, not_whole_before,
    only_pixels_are_kept, shown_colors_are_accepted, shown_frame_is_accepted,
    whole_file_is_of_one_frame, whole_shows,
};
pub use pnm_out::PnmOut;
