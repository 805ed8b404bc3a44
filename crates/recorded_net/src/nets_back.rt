ghost use Rattle.std.specs.Prelude.{◌≡◌, List, [], ◌∷◌};
ghost use Rattle.std.specs.Borrow.{ftrue};
ghost use Rattle.recorded_net.specs.ListenerCalls.{ListenerCall};

use crate::asked_calls::AskedCalls;
use std::marker::Model;

/// The calls of all recorded listeners that went back, the newest first.
#[derive(Drop)]
pub struct NetsBack {
    pub ghost nets: { List (List ListenerCall) },
}

impl Model for NetsBack {
    ghost also_owns = { λ _. ftrue };
}

impl NetsBack {
    /// None went back yet.
    pub fn none() -> NetsBack
        /// Of nets, when their record begins, none went back.
        ensures { result.nets ≡ [] }
    {
        NetsBack {}
    }

    /// Listeners with these calls went back.
    pub(crate) fn note(&mut self, _asked: &AskedCalls)
        ensures { self.new.nets ≡ _asked.now.calls ∷ self.old.nets }
    {}
}
