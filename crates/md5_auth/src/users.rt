use crate::line_fault::LineFault;
use crate::user_lines::push_line;
use sane_fixed::Text;
use std::alloc::Global;
use std::marker::Model;
use text_lines::first_line;

/// A line of a users file: a user, a backend, and the password for it.
#[derive(Drop)]
pub struct Entry {
    pub user: Text,
    pub password: Text,
    pub backend: Text,
}

/// The users of a users file. Contracts see the list of its entries.
#[derive(Drop)]
pub struct Users {
    entries: Vec<Entry>,
}

impl Model for Users {
    ghost use Rattle.std.specs.Prelude.{List};
    ghost use Rattle.md5_auth.specs.declared.users.Entry.{Entry as AnEntry};

    ghost Value = { List AnEntry };

    ghost view = { λ users. users.entries.items };
}

impl Users {
    ghost use Rattle.std.specs.Prelude.{◌≡◌, ◌↔◌, IfOk, IfErr, IsTrue};
    ghost use Rattle.md5_auth.specs.UserLines.{TellsUsers, HasLineFault};
    ghost use Rattle.md5_auth.specs.Allowed.{NamesBackend};

    /// The users of a file: at most 256 lines of at most 256 bytes, each `user:password:backend`, where
    /// user and backend are not empty, or empty. Tests one line after another.
    pub fn parse(alloc: Global, text: &[u8]) -> Result<Users, LineFault>
        /// `Users::parse` reads exactly the users files, and a refusal is that of the first refused line, for its
        /// first reason.
        /// Carried by: `found`, `fault` of `Users::parse`
        ensures found { IfOk result (λ users. TellsUsers text.now users) }
        ensures fault { IfErr result (λ fault. HasLineFault text.now fault.line fault.reason) }
    {
        let mut entries = Vec::new(alloc);
        let mut rest = text;
        let mut number = 0;
        while let Some((line, after)) = first_line(rest) {
            number += 1;
            if let Err(reason) = push_line(alloc, &mut entries, number, line) {
                return Err(LineFault {
                    line: number,
                    reason,
                });
            }
            rest = after;
        }
        Ok(Users { entries })
    }

    /// The entries, in the order of the lines.
    pub(crate) fn entries(&self) -> &[Entry]
        ensures { result.now ≡ self.now }
    {
        self.entries.as_slice()
    }

    /// Whether some line names the backend.
    pub fn needs(&self, backend: &[u8]) -> bool
        /// `needs` says whether some line names the backend.
        ensures { IsTrue result ↔ NamesBackend self.now backend.now }
    {
        self.entries
            .iter()
            .any(|entry| entry.backend.as_bytes() == backend)
    }
}
