use thiserror::Error;

/// Why frames make no picture.
#[derive(Clone, Copy, Debug, PartialEq, Eq, Error)]
pub enum JoinFault {
    /// A frame that may not stand there, or whose parameters are not admitted.
    #[error("a frame does not fit a picture or the frames before it")]
    Shape = 1,
    /// More bytes than the frame has.
    #[error("a frame has too many bytes")]
    Long = 2,
    /// The frame ended before its last byte.
    #[error("a frame has too few bytes")]
    Short = 3,
    /// No memory for the frame.
    #[error("out of memory")]
    NoMem = 4,
}

const _: () = prove!(JoinFault::Shape as u32 == 1);

const _: () = prove!(JoinFault::Long as u32 == 2);

const _: () = prove!(JoinFault::Short as u32 == 3);

const _: () = prove!(JoinFault::NoMem as u32 == 4);

/// How far a join is.
#[derive(Clone, Copy, Debug, PartialEq, Eq)]
pub enum Stage {
    /// No frame came.
    Idle,
    /// In a frame whose rows go straight through.
    Under,
    /// In a frame that is kept until the picture is whole.
    Keeping,
    /// One or two of three colors came.
    Between,
    /// The picture of one frame is whole.
    Whole,
    /// The picture of three frames is whole.
    WholeColors,
    /// A fault stands.
    Failed(JoinFault),
}
