ghost use Rattle.std.specs.Prelude.{◌≡◌};
ghost use Rattle.scan_frames.specs.Line.{packing_of};

use page_picture::Scene;
use sane_fixed::{ByteOrder, Status};

/// How samples stand in the bytes of a line.
#[derive(Clone, Copy, Debug, PartialEq, Eq)]
pub enum Packing {
    Bits,
    Bytes,
    Words,
}

/// How samples of a depth of 1, 8 or 16 bits stand.
pub fn packing_of(depth: u32) -> Packing
    ensures { result ≡ packing_of depth }
{
    if depth == 16 {
        Packing::Words
    } else if depth == 8 {
        Packing::Bytes
    } else {
        Packing::Bits
    }
}

/// The colors of the passes of a three-pass scanner, in their order (sane-test(5), `three-pass-order`).
#[derive(Clone, Copy, Debug, PartialEq, Eq)]
pub enum PassOrder {
    Rgb,
    Rbg,
    Gbr,
    Grb,
    Brg,
    Bgr,
}

/// What the options of a scanner say, as a scan goes by it.
#[derive(Clone, Copy)]
pub struct Setup {
    pub scene: Scene,
    /// The order of the two bytes of a sample at depth 16.
    pub order: ByteOrder,
    /// The colors of the passes, for a three-pass scanner in color.
    pub passes: PassOrder,
    /// The pixels that are lost at the end of each line, at most 64 (sane-test(5), `ppl-loss`).
    pub loss: u32,
    /// How many bytes one read gives at most, 1 to 65,536 (sane-test(5), `read-limit-size`).
    pub limit: u32,
    /// What the first read of a frame answers in place of bytes (sane-test(5), `read-return-value`).
    pub told: Option<Status>,
}
