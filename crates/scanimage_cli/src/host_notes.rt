ghost use Rattle.std.specs.Borrow.{ftrue};
ghost use Rattle.std.specs.Prelude.{List, ℕ};

use crate::hosts::HostPoint;
use std::marker::Model;

/// A port that a data connection was asked for at.
#[derive(Drop)]
pub struct PortNote {
    pub port: u16,
}

/// A control connection that was asked for.
#[derive(Drop)]
pub struct HostNote {
    pub at: HostPoint,
    pub is_made: bool,
}

/// The ports that were asked for, the newest first, and control connections among them.
#[derive(Drop)]
pub struct HostNotes {
    pub ghost ports: { List ℕ },
}

impl Model for HostNotes {
    ghost also_owns = { λ _. ftrue };
}

impl HostNotes {
    ghost use Rattle.std.specs.Prelude.{◌≡◌, [], ◌∷◌, ◌++◌};
    ghost use Rattle.scanimage_cli.specs.Host.{host_entry};

    /// None was asked for yet.
    pub(crate) fn none() -> HostNotes
        ensures { result.ports ≡ [] }
    {
        HostNotes {}
    }

    /// A data connection was asked for.
    pub(crate) fn note_port(&mut self, _note: &PortNote)
        ensures { self.new.ports ≡ _note.now.port ∷ self.old.ports }
    {}

    /// A control connection was asked for.
    pub(crate) fn note_host(&mut self, _note: &HostNote)
        ensures { self.new.ports ≡ host_entry _note.now.at _note.now.is_made ++ self.old.ports }
    {}
}
