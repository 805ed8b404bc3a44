//! What a kind of scanner tells of itself, and whether it is a feeder.

ghost use Rattle.std.specs.Prelude.{◌≡◌};
ghost use Rattle.device_api.specs.Kinds.{class_of, model_of, is_feeder};

use page_picture::DeviceKind;

/// The model that a scanner of this kind tells.
pub fn model_name(kind: DeviceKind) -> &'static [u8]
    /// The definition says what a scanner of a kind is called, and whether it is a feeder.
    /// Carried by: `model_name`, `class_name`, `is_feeder`
    ensures { result.now ≡ model_of kind }
{
    match kind {
        DeviceKind::Flatbed => b"Flatbed",
        DeviceKind::Hand => b"Hand",
        DeviceKind::ThreePass => b"ThreePass",
        DeviceKind::Feeder => b"Feeder",
    }
}

/// What sort of scanner one of this kind tells that it is.
pub fn class_name(kind: DeviceKind) -> &'static [u8]
    ensures { result.now ≡ class_of kind }
{
    match kind {
        DeviceKind::Flatbed | DeviceKind::ThreePass => b"flatbed scanner",
        DeviceKind::Hand => b"handheld scanner",
        DeviceKind::Feeder => b"sheetfed scanner",
    }
}

/// Whether pages are fed one after another.
pub fn is_feeder(kind: DeviceKind) -> bool
    ensures { result ≡ is_feeder kind }
{
    match kind {
        DeviceKind::Flatbed | DeviceKind::Hand | DeviceKind::ThreePass => false,
        DeviceKind::Feeder => true,
    }
}
