/// What a frame holds (SANE Standard 1.06, "Scan parameters").
#[derive(Clone, Copy, Debug, PartialEq, Eq)]
pub enum FrameFormat {
    /// One channel, the whole picture.
    Gray = 0,
    /// Red, green and blue side by side, the whole picture.
    Rgb = 1,
    /// The red channel of a picture that comes in three frames.
    Red = 2,
    /// The green channel.
    Green = 3,
    /// The blue channel.
    Blue = 4,
}

impl FrameFormat {
    ghost use Rattle.std.specs.Prelude.{◌≡◌, ◌≢◌, IfSome, IfNone};
    ghost use Rattle.sane_fixed.specs.declared.frame_format.FrameFormat.{FrameFormat as AnyFormat};
    ghost use Rattle.sane_fixed.specs.FrameFormat.{frame_format_code};

    /// The standard's number, 0 to 4.
    pub fn code(self) -> u32
        ensures { result ≡ frame_format_code self }
    {
        self as u32
    }

    /// The format of that number, if there is one.
    pub fn from_code(code: u32) -> Option<FrameFormat>
        ensures found { IfSome result (λ format. frame_format_code format ≡ code) }
        ensures none { IfNone result ((format : AnyFormat) → frame_format_code format ≢ code) }
    {
        match code {
            0 => Some(FrameFormat::Gray),
            1 => Some(FrameFormat::Rgb),
            2 => Some(FrameFormat::Red),
            3 => Some(FrameFormat::Green),
            4 => Some(FrameFormat::Blue),
            _ => None,
        }
    }
}
