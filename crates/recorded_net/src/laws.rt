//! What recorded connections tell of a server.

ghost use Rattle.recorded_net.specs.Carried.{SocketsCarryTheirOwn};

#[tactic(none)]
pub fn what_sockets_carry()
    /// Take a run of a server over listeners that were recorded from its begin on. What was read of each connection was fed to its
    /// session, and to no other, each byte once and in order. What a control connection took is a front of that session's replies,
    /// and what a data connection took a front of the records of its frame: all of them, unless it was lost, or the run ended
    /// before. Each session that was opened has its connection among those that were handed back.
    /// Carried by: `what_sockets_carry`: `CarryTheirOwn`, `CarriesReplies`, `CarriesFrame`
    ensures { SocketsCarryTheirOwn }
{}
