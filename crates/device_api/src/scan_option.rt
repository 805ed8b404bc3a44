ghost use Rattle.std.specs.Prelude.{◌≡◌};
ghost use Rattle.device_api.specs.Options.{options_of, option_at};

use crate::choice::Choice;
use page_picture::{DeviceKind, Mode};
use sane_fixed::{Kind, Status, Unit};
use scan_frames::PassOrder;

/// The options of the virtual scanners (sane-test(5)).
#[derive(Clone, Copy, Debug, PartialEq, Eq)]
pub enum ScanOption {
    /// How many options there are, with this one.
    NumOptions,
    /// Gray or color.
    Mode,
    /// Bits a sample.
    Depth,
    /// Dots per inch.
    Resolution,
    /// The window on the page, in mm from its top left corner.
    TlX,
    TlY,
    BrX,
    BrY,
    /// The tone of each upper byte of a brightness.
    GammaTable,
    /// What becomes of the tones of a channel, in color at depth 8.
    RedGammaTable,
    GreenGammaTable,
    BlueGammaTable,
    /// The colors of the passes.
    ThreePassOrder,
    /// The pixels that are lost at the end of each line.
    PplLoss,
    /// How many bytes one read gives at most.
    ReadLimitSize,
    /// What the first read of a frame answers in place of bytes.
    ReadReturnValue,
    /// Whether the scanner is one for the hand.
    HandScanner,
}

const FLATBED: [ScanOption; 15] = [
    ScanOption::NumOptions,
    ScanOption::Mode,
    ScanOption::Depth,
    ScanOption::Resolution,
    ScanOption::TlX,
    ScanOption::TlY,
    ScanOption::BrX,
    ScanOption::BrY,
    ScanOption::GammaTable,
    ScanOption::PplLoss,
    ScanOption::ReadLimitSize,
    ScanOption::ReadReturnValue,
    ScanOption::RedGammaTable,
    ScanOption::GreenGammaTable,
    ScanOption::BlueGammaTable,
];

const HAND: [ScanOption; 5] = [
    ScanOption::NumOptions,
    ScanOption::Mode,
    ScanOption::Depth,
    ScanOption::Resolution,
    ScanOption::HandScanner,
];

const THREE_PASS: [ScanOption; 13] = [
    ScanOption::NumOptions,
    ScanOption::Mode,
    ScanOption::Depth,
    ScanOption::Resolution,
    ScanOption::TlX,
    ScanOption::TlY,
    ScanOption::BrX,
    ScanOption::BrY,
    ScanOption::ThreePassOrder,
    ScanOption::GammaTable,
    ScanOption::RedGammaTable,
    ScanOption::GreenGammaTable,
    ScanOption::BlueGammaTable,
];

const MODES: [Choice; 2] = [Choice::Mode(Mode::Gray), Choice::Mode(Mode::Color)];

const ORDERS: [Choice; 6] = [
    Choice::Passes(PassOrder::Rgb),
    Choice::Passes(PassOrder::Rbg),
    Choice::Passes(PassOrder::Gbr),
    Choice::Passes(PassOrder::Grb),
    Choice::Passes(PassOrder::Brg),
    Choice::Passes(PassOrder::Bgr),
];

const READ_STATUSES: [Choice; 12] = [
    Choice::ReadStatus(None),
    Choice::ReadStatus(Some(Status::Unsupported)),
    Choice::ReadStatus(Some(Status::Cancelled)),
    Choice::ReadStatus(Some(Status::DeviceBusy)),
    Choice::ReadStatus(Some(Status::Inval)),
    Choice::ReadStatus(Some(Status::Eof)),
    Choice::ReadStatus(Some(Status::Jammed)),
    Choice::ReadStatus(Some(Status::NoDocs)),
    Choice::ReadStatus(Some(Status::CoverOpen)),
    Choice::ReadStatus(Some(Status::IoError)),
    Choice::ReadStatus(Some(Status::NoMem)),
    Choice::ReadStatus(Some(Status::AccessDenied)),
];

/// The options of a kind of scanner, in the order of their numbers from 0.
pub fn options_of(kind: DeviceKind) -> &'static [ScanOption]
    ensures { result.now ≡ options_of kind }
{
    match kind {
        DeviceKind::Flatbed | DeviceKind::Feeder => &FLATBED,
        DeviceKind::Hand => &HAND,
        DeviceKind::ThreePass => &THREE_PASS,
    }
}

/// The option of a number, if there is one.
#[tactic(auto, unfolding(crate::specs::Options::option_at))]
pub fn option_at(kind: DeviceKind, n: u32) -> Option<ScanOption>
    ensures { result ≡ option_at kind n }
{
    options_of(kind).get(n as usize).copied()
}

impl ScanOption {
    ghost use Rattle.device_api.specs.Values.{bears_on_params};
    ghost use Rattle.device_api.specs.Options.{option_name, option_title, option_kind, option_unit, option_size, option_caps, choices_of};

    /// The name; the number of options has none.
    pub fn name(self) -> &'static str
        ensures { result.now ≡ option_name self }
    {
        match self {
            ScanOption::NumOptions => "",
            ScanOption::Mode => "mode",
            ScanOption::Depth => "depth",
            ScanOption::Resolution => "resolution",
            ScanOption::TlX => "tl-x",
            ScanOption::TlY => "tl-y",
            ScanOption::BrX => "br-x",
            ScanOption::BrY => "br-y",
            ScanOption::GammaTable => "gamma-table",
            ScanOption::RedGammaTable => "red-gamma-table",
            ScanOption::GreenGammaTable => "green-gamma-table",
            ScanOption::BlueGammaTable => "blue-gamma-table",
            ScanOption::ThreePassOrder => "three-pass-order",
            ScanOption::PplLoss => "ppl-loss",
            ScanOption::ReadLimitSize => "read-limit-size",
            ScanOption::ReadReturnValue => "read-return-value",
            ScanOption::HandScanner => "hand-scanner",
        }
    }

    /// The title, which is the description too.
    pub fn title(self) -> &'static str
        ensures { result.now ≡ option_title self }
    {
        match self {
            ScanOption::NumOptions => "Number of options",
            ScanOption::Mode => "Scan mode",
            ScanOption::Depth => "Bit depth",
            ScanOption::Resolution => "Scan resolution",
            ScanOption::TlX => "Top-left x",
            ScanOption::TlY => "Top-left y",
            ScanOption::BrX => "Bottom-right x",
            ScanOption::BrY => "Bottom-right y",
            ScanOption::GammaTable => "Gamma table",
            ScanOption::RedGammaTable => "Red gamma table",
            ScanOption::GreenGammaTable => "Green gamma table",
            ScanOption::BlueGammaTable => "Blue gamma table",
            ScanOption::ThreePassOrder => "Three-pass order",
            ScanOption::PplLoss => "Lost pixels per line",
            ScanOption::ReadLimitSize => "Read limit",
            ScanOption::ReadReturnValue => "Read return value",
            ScanOption::HandScanner => "Hand scanner",
        }
    }

    /// The kind of its values.
    pub fn kind(self) -> Kind
        ensures { result ≡ option_kind self }
    {
        match self {
            ScanOption::NumOptions
            | ScanOption::Depth
            | ScanOption::Resolution
            | ScanOption::GammaTable
            | ScanOption::RedGammaTable
            | ScanOption::GreenGammaTable
            | ScanOption::BlueGammaTable
            | ScanOption::PplLoss
            | ScanOption::ReadLimitSize => Kind::Int,
            ScanOption::TlX | ScanOption::TlY | ScanOption::BrX | ScanOption::BrY => Kind::Fixed,
            ScanOption::Mode | ScanOption::ThreePassOrder | ScanOption::ReadReturnValue => {
                Kind::String
            }
            ScanOption::HandScanner => Kind::Bool,
        }
    }

    /// What its numbers count.
    pub fn unit(self) -> Unit
        ensures { result ≡ option_unit self }
    {
        match self {
            ScanOption::Depth => Unit::Bit,
            ScanOption::Resolution => Unit::Dpi,
            ScanOption::TlX | ScanOption::TlY | ScanOption::BrX | ScanOption::BrY => Unit::Mm,
            ScanOption::PplLoss => Unit::Pixel,
            _ => Unit::None,
        }
    }

    /// The size of a value in bytes: 4 for each word, and for a text the longest one and its NUL.
    pub fn size(self) -> u32
        ensures { result ≡ option_size self }
    {
        match self {
            ScanOption::Mode => 6,
            ScanOption::GammaTable
            | ScanOption::RedGammaTable
            | ScanOption::GreenGammaTable
            | ScanOption::BlueGammaTable => 1024,
            ScanOption::ThreePassOrder => 4,
            ScanOption::ReadReturnValue => 26,
            _ => 4,
        }
    }

    /// What may be done with it while it is active: all but two may be read and set.
    pub fn caps(self) -> u32
        ensures { result ≡ option_caps self }
    {
        match self {
            ScanOption::NumOptions | ScanOption::HandScanner => 4,
            _ => 5,
        }
    }

    /// The texts that a text option may have, in the order of its list.
    pub fn choices(self) -> &'static [Choice]
        ensures { result.now ≡ choices_of self }
    {
        match self {
            ScanOption::Mode => &MODES,
            ScanOption::ThreePassOrder => &ORDERS,
            ScanOption::ReadReturnValue => &READ_STATUSES,
            _ => &[],
        }
    }

    /// Whether the parameters of a scan depend on it.
    pub fn bears_on_params(self) -> bool
        ensures { result ≡ bears_on_params self }
    {
        !matches!(
            self,
            ScanOption::NumOptions
                | ScanOption::GammaTable
                | ScanOption::RedGammaTable
                | ScanOption::GreenGammaTable
                | ScanOption::BlueGammaTable
                | ScanOption::ReadLimitSize
                | ScanOption::ReadReturnValue
                | ScanOption::HandScanner
        )
    }
}
