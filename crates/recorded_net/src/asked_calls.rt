ghost use Rattle.std.specs.Prelude.{◌≡◌, List, [], ◌∷◌};
ghost use Rattle.std.specs.Borrow.{ftrue};
ghost use Rattle.recorded_net.specs.ListenerCalls.{ListenerCall};
ghost use Rattle.recorded_net.specs.ListenerCalls.ListenerCall.{AskedFor, TookBack};

use crate::made_calls::MadeCalls;
use std::marker::Model;

/// What listeners were asked, but to take a connection back.
#[derive(Clone, Copy)]
pub enum Occurrence {
    /// A control connection was asked for, and came or did not.
    Asked(bool),
    /// A data port was asked for.
    Port(Option<u16>),
    /// Connections at that port that had ended were to be forgotten.
    Forgot(u16),
    /// A data connection at that port was asked for, and came or did not.
    Dialed(u16, bool),
    /// That port was closed.
    Shut(u16),
}

/// All calls of listeners, the newest first.
#[derive(Drop)]
pub struct AskedCalls {
    pub ghost calls: { List ListenerCall },
}

impl Model for AskedCalls {
    ghost also_owns = { λ _. ftrue };
}

impl AskedCalls {
    /// Nothing was asked yet.
    pub(crate) fn none() -> AskedCalls
        ensures { result.calls ≡ [] }
    {
        AskedCalls {}
    }

    /// That was asked.
    pub(crate) fn note(&mut self, _occurrence: &Occurrence)
        ensures { self.new.calls ≡ AskedFor _occurrence.now ∷ self.old.calls }
    {}

    /// A connection with these calls was handed back.
    pub(crate) fn note_back(&mut self, _calls: &MadeCalls)
        ensures { self.new.calls ≡ TookBack _calls.now.calls ∷ self.old.calls }
    {}
}
