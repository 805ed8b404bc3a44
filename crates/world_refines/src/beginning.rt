//! A new world.

ghost use Rattle.world_refines.specs.NewWorlds.{NewWorldsAreAlone, NewWorldsPay, NewWorldsRefine};

/// The clients of some jobs that clients take, beside a new daemon of devices that are within their limits and true to their
/// pages, stand for a world in which nothing has happened. Each job has moves enough for all that is to come.
#[tactic(none)]
pub fn a_new_world_refines()
    /// A new world, of devices within their limits, stands for that nothing has happened.
    ensures stands { NewWorldsRefine }
    ensures pays { NewWorldsPay }
    /// No session stands there, so no stranger's.
    ensures alone { NewWorldsAreAlone }
{}
