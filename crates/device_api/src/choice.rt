use page_picture::Mode;
use sane_fixed::Status;
use scan_frames::PassOrder;

/// A text that a text option may have, by what it means.
#[derive(Clone, Copy, Debug, PartialEq, Eq)]
pub enum Choice {
    Mode(Mode),
    Passes(PassOrder),
    /// What the first read of a frame answers in place of bytes; `None` for the bytes themselves.
    ReadStatus(Option<Status>),
}

impl Choice {
    ghost use Rattle.std.specs.Prelude.{◌≡◌};
    ghost use Rattle.device_api.specs.Options.{choice_text};

    /// The text.
    pub fn text(self) -> &'static str
        ensures { result.now ≡ choice_text self }
    {
        match self {
            Choice::Mode(Mode::Gray) => "Gray",
            Choice::Mode(Mode::Color) => "Color",
            Choice::Passes(PassOrder::Rgb) => "RGB",
            Choice::Passes(PassOrder::Rbg) => "RBG",
            Choice::Passes(PassOrder::Gbr) => "GBR",
            Choice::Passes(PassOrder::Grb) => "GRB",
            Choice::Passes(PassOrder::Brg) => "BRG",
            Choice::Passes(PassOrder::Bgr) => "BGR",
            Choice::ReadStatus(None) => "Default",
            Choice::ReadStatus(Some(status)) => status.name(),
        }
    }
}
