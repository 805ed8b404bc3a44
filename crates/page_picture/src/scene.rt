use sane_fixed::{Fixed, px, px_between};

/// The width of a hand scanner, 110 mm.
pub const HAND_WIDTH: Fixed = Fixed(110 * 65536);

/// The kinds of virtual scanner.
#[derive(Clone, Copy, Debug, PartialEq, Eq)]
pub enum DeviceKind {
    Flatbed,
    Hand,
    ThreePass,
    /// A flatbed to which pages are fed one after another.
    Feeder,
}

/// Gray has one channel, color three.
#[derive(Clone, Copy, Debug, PartialEq, Eq)]
pub enum Mode {
    Gray,
    Color,
}

/// What a picture depends on, besides the page.
///
/// **scene**: what a picture depends on besides the page: the kind of device, mode, depth, resolution, the four lengths of the
/// window, the gamma table, and a table for each of the three channels.
#[derive(Clone, Copy)]
pub struct Scene {
    pub kind: DeviceKind,
    pub mode: Mode,
    /// Bits a sample: 1, 8 or 16.
    pub depth: u32,
    /// Dots per inch of the picture, at most 1,200.
    pub resolution: u32,
    /// The window on the page, in mm from its top left corner. A hand scanner has none.
    pub tl_x: Fixed,
    pub tl_y: Fixed,
    pub br_x: Fixed,
    pub br_y: Fixed,
    /// The tone of each upper byte of a brightness, at depths 1 and 8.
    pub gamma: [u8; 256],
    /// In color at depth 8 what becomes of the tone of red, green and blue.
    pub channel_gamma: [[u8; 256]; 3],
}

impl Scene {
    ghost use Rattle.std.specs.Prelude.{◌≡◌, ◌≤◌};
    ghost use Rattle.page_picture.specs.Extent.{across, left_of, top_of};

    /// The first column of the window, in dots.
    pub fn left(&self) -> u32
        requires { self.now.resolution ≤ 1200 }
        ensures { result ≡ left_of self.now }
    {
        match self.kind {
            DeviceKind::Hand => 0,
            DeviceKind::Flatbed | DeviceKind::ThreePass | DeviceKind::Feeder => {
                px(self.tl_x, self.resolution)
            }
        }
    }

    /// The first row of the window, in dots.
    pub fn top(&self) -> u32
        requires { self.now.resolution ≤ 1200 }
        ensures { result ≡ top_of self.now }
    {
        match self.kind {
            DeviceKind::Hand => 0,
            DeviceKind::Flatbed | DeviceKind::ThreePass | DeviceKind::Feeder => {
                px(self.tl_y, self.resolution)
            }
        }
    }

    /// The dots across the picture.
    pub fn across(&self) -> u32
        requires { self.now.resolution ≤ 1200 }
        ensures { result ≡ across self.now.kind self.now }
    {
        match self.kind {
            DeviceKind::Hand => px(HAND_WIDTH, self.resolution),
            DeviceKind::Flatbed | DeviceKind::ThreePass | DeviceKind::Feeder => {
                px_between(self.tl_x, self.br_x, self.resolution)
            }
        }
    }
}
