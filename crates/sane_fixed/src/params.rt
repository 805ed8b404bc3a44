use crate::frame_format::FrameFormat;

/// What is told of a frame before its bytes (SANE Standard 1.06, "sane_get_parameters").
#[derive(Clone, Copy, Debug, PartialEq, Eq)]
pub struct Params {
    pub format: FrameFormat,
    /// Whether no frame of the picture follows.
    pub last_frame: bool,
    /// The bytes of a line; those after its pixels are no part of the picture.
    pub bytes_per_line: u32,
    /// The pixels of a line.
    pub pixels_per_line: u32,
    /// The number of lines; `None` where it is not known before the frame's end.
    pub lines: Option<u32>,
    /// The bits of a sample.
    pub depth: u32,
}
