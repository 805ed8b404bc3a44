ghost use Rattle.std.specs.Prelude.{◌≡◌};
ghost use Rattle.scan_job.specs.KnownValues.{has_one_value, tells_value};

use option_desc::Descriptor;
use sane_fixed::{Cap, Kind, has_cap};

/// Whether an option of that kind and size in bytes has one value.
fn has_one_value(kind: Kind, size: u32) -> bool
    ensures { result ≡ has_one_value kind size }
{
    match kind {
        Kind::Bool | Kind::String => true,
        Kind::Int | Kind::Fixed => size == 4,
        Kind::Button | Kind::Group => false,
    }
}

/// Whether a job that shows the options reads this one's value: it is active and can be read, it has
/// one value, and it is no button and no group.
pub fn tells_value(desc: &Descriptor) -> bool
    /// Which options a job that shows them reads.
    ensures { result ≡ tells_value desc.now }
{
    !has_cap(desc.caps.0, Cap::INACTIVE)
        && has_cap(desc.caps.0, Cap::SOFT_DETECT)
        && has_one_value(desc.kind, desc.size)
}
