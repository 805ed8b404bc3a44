//! What comes to the devices of a world.

ghost use Rattle.world_refines.specs.GhostEvents.{LoadsFollow, UnplugsFollow};

/// A device is taken out just where it is listed and nobody holds it; then it is listed no more.
#[tactic(none)]
pub fn an_unplug_refines()
    ensures { UnplugsFollow }
{}

#[tactic(none)]
pub fn a_load_refines()
    /// A page is laid in just where the device is listed, at rest and has room for it; a device is taken out just
    /// where it is listed and nobody holds it.
    /// Carried by: `a_load_refines`, `an_unplug_refines`
    ensures { LoadsFollow }
{}
