//! The other calls of a daemon for one of its sessions: that session is as by the model, and each of another client stands as it
//! stood.

ghost use Rattle.daemon_refines.specs.CoreCalls.{CoreConnects, CoreEnds, CoreLoses, CoreTurns, CoreTurnsOff};

/// Its data connection is made.
#[tactic(none)]
pub fn a_core_connection_refines()
    ensures { CoreConnects }
{}

/// Its data connection is lost.
#[tactic(none)]
pub fn a_core_loss_refines()
    ensures { CoreLoses }
{}

/// A turn of a frame that streams, or was cancelled, is an action of the model.
#[tactic(none)]
pub fn a_core_turn_refines()
    ensures of_a_frame { CoreTurns }
    ensures of_a_cancelled_frame { CoreTurnsOff }
{}

/// It is ended, and all that it holds is given back.
#[tactic(none)]
pub fn a_core_end_refines()
    ensures { CoreEnds }
{}
