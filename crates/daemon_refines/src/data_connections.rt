//! The data connection of a session, and its end.

ghost use Rattle.daemon_refines.specs.DataRefinement.{ConnectsAgree, LossAgrees, ReleaseAgrees, TurnsAgree};
ghost use Rattle.daemon_refines.specs.Streams.{EndingsAgree, StreamsAgree};

/// The data connection is made as the model says.
#[tactic(none)]
pub fn a_connection_follows_the_model()
    /// A connection that is made or lost, and a session that ends, leave the devices as by the model.
    /// Carried by: `a_connection_follows_the_model`, `a_loss_follows_the_model`, `a_core_connection_refines`,
    /// `a_core_loss_refines`, `a_core_end_refines`
    ensures { ConnectsAgree }
{}

#[tactic(none)]
pub fn a_turn_follows_the_model()
    /// A turn of the data connection is an action that the model allows, and sends what that action sends. Of a device with
    /// steady sources these are the frame's own bytes, of another as many.
    /// Carried by: `a_turn_follows_the_model`, `a_stream_follows_the_model`, `a_core_turn_refines`
    ///
    /// If a page source fails by the model, at a START or a turn, the source of the device that is asked failed in that very
    /// call. It can fail, and its counts before and behind the call are the model's numbers.
    /// Carried by: `counted` of `RequestServed`, `ServesRequest`, `StreamServed`, `CoreTurned`
    ensures { TurnsAgree }
{}

/// A turn of a session's data connection is an action of the model: its record is what the action sends, and the request context behind it is
/// shown again.
#[tactic(none)]
pub fn a_stream_follows_the_model()
    ensures of_a_frame { StreamsAgree }
    ensures of_a_cancelled_frame { EndingsAgree }
{}

/// A data connection that is lost cancels its device, as by the model.
#[tactic(none)]
pub fn a_loss_follows_the_model()
    ensures { LossAgrees }
{}

/// A session that is over gives all its devices back, as by the model.
#[tactic(none)]
pub fn a_release_follows_the_model()
    ensures { ReleaseAgrees }
{}
