//! SANE's elementary types: fixed numbers and the dots of a length, texts, statuses, the kinds, units and
//! capabilities of options, what a scanner is, and the parameters of frames.
#![tactic(auto)]

mod byte_order;
mod cap;
mod device_info;
mod digits;
mod fixed;
mod frame_format;
mod info;
mod kind;
mod length;
mod no_mem;
mod params;
mod status;
mod text;
mod unit;

pub use byte_order::ByteOrder;
pub use cap::{Cap, has_cap};
pub use device_info::DeviceInfo;
pub use digits::{digit_count, value_of_digits};
pub use fixed::Fixed;
pub use frame_format::FrameFormat;
pub use info::Info;
pub use kind::Kind;
pub use length::{px, px_between};
pub use no_mem::NoMem;
pub use params::Params;
pub use status::Status;
pub use text::{Text, TextFault};
pub use unit::Unit;
