//! Events of a job. Where one can happen it is these steps of the model, and the world stands for what they lead to; where it cannot
//! nothing changes.

ghost use Rattle.std.specs.Prelude.{ℕ};
ghost use Rattle.event_world.specs.declared.event.JobEvent.TheVariants.{Cancel, Connect, DataConnect, DataToClient, DataTurn, LoseControl, LoseImage, ToClient, ToDaemon};
ghost use Rattle.world_refines.specs.Answering.{AnswersSome};
ghost use Rattle.world_refines.specs.ClientDeliveries.{GhostHears};
ghost use Rattle.world_refines.specs.GhostEvents.{GhostConnects, Dials, EventRefines, GivesUp, LosesControl, LosesImage, GhostTurns};
ghost use Rattle.world_refines.specs.DataDeliveries.{GhostSees};

/// A control connection is made: a session is opened for it, or, where there is none to be had, it is lost at once.
#[tactic(none)]
pub fn a_connection_refines()
    /// A control connection that is made, also where no session is to be had, is enabled transitions of the model.
    ensures { EventRefines Connect GhostConnects }
{}

/// The connection for a frame's data is made.
#[tactic(none)]
pub fn a_data_connection_refines()
    /// So is a frame's data connection, and a turn of it with its record.
    /// Carried by: `a_data_connection_refines`, `a_turn_refines`
    ensures { EventRefines DataConnect Dials }
{}

/// Some of a job's requests are delivered to the daemon. Each that is whole with them is answered, one after another, and the
/// session goes on; or one of them ends it; or it breaks off, for lack of memory or at a reply past the limits of the wire.
#[tactic(none)]
pub fn a_delivery_to_the_daemon_refines()
    /// So is a delivery of requests. Those that become whole are answered in order, each as the model answers. Then the session
    /// goes on, is over, or breaks off: for want of memory, or at a reply past the limits of the wire.
    /// Carried by: `a_delivery_to_the_daemon_refines`: `IsCutShort`
    ensures { (n : ℕ) → EventRefines (ToDaemon n) (AnswersSome n) }
{}

/// Some of the daemon's replies are delivered. What came of the reply that is due waits until it is whole, and then the client
/// hears it; or there is no memory for it, and the job ends. A job that is over lets them go by.
#[tactic(none)]
pub fn a_delivery_to_the_client_refines()
    /// So is a delivery of replies, a part of the reply that is due or the rest of it, which the client hears.
    ensures { (n : ℕ) → EventRefines (ToClient n) (GhostHears n) }
{}

/// A turn of the data connection: a record of the frame's bytes, or its end, comes onto it; or, where there is no memory for it, the
/// connection is lost.
#[tactic(none)]
pub fn a_turn_refines()
    ensures { EventRefines DataTurn GhostTurns }
{}

/// Bytes of a frame's data come to the client of its job. One that is under way reads them, and the end behind them. What it asks
/// for then goes out, and the file of a page that is whole is laid by.
#[tactic(none)]
pub fn a_data_delivery_refines()
    /// So is a delivery of a frame's data: just the bytes that its records carry are read, and its end; the file of a
    /// whole page is laid by.
    ensures { (n : ℕ) → EventRefines (DataToClient n) (GhostSees n) }
{}

/// A control connection is lost: the job ends, what its session holds is given back, and nothing is on the way to its client any more.
#[tactic(none)]
pub fn a_loss_refines()
    /// So is the loss of either connection, and a cancel.
    /// Carried by: `a_loss_refines`, `a_data_loss_refines`, `a_cancel_refines`
    ensures { EventRefines LoseControl LosesControl }
{}

/// A data connection is lost: a job that is under way ends, and its frame is cancelled.
#[tactic(none)]
pub fn a_data_loss_refines()
    ensures { EventRefines LoseImage LosesImage }
{}

/// A job is given up: it ends, and its client says farewell.
#[tactic(none)]
pub fn a_cancel_refines()
    ensures { EventRefines Cancel GivesUp }
{}
