ghost use Rattle.std.specs.Borrow.{ftrue};
ghost use Rattle.std.specs.Prelude.{List};
ghost use Rattle.saned_cli.specs.PortsAsked.{PortAsked};

use crate::data_ports::PortRange;
use std::io::ErrorKind;
use std::marker::Model;

/// A port that was asked for, and what came of it.
#[derive(Drop)]
pub struct BindNote {
    pub port: u16,
    pub data_ports: Option<PortRange>,
    pub answer: Result<u16, ErrorKind>,
}

/// The ports that were asked for, the newest first.
#[derive(Drop)]
pub struct BindNotes {
    pub ghost asked: { List PortAsked },
}

impl Model for BindNotes {
    ghost also_owns = { λ _. ftrue };
}

impl BindNotes {
    ghost use Rattle.std.specs.Prelude.{◌≡◌, [], ◌∷◌};
    ghost use Rattle.saned_cli.specs.PortsAsked.{asked_port};

    /// None was asked for yet.
    pub(crate) fn none() -> BindNotes
        ensures { result.asked ≡ [] }
    {
        BindNotes {}
    }

    /// A port was asked for.
    pub(crate) fn note(&mut self, _note: &BindNote)
        ensures { self.new.asked
            ≡ asked_port _note.now.port _note.now.data_ports _note.now.answer ∷ self.old.asked }
    {}
}
