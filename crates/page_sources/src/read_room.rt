ghost use Rattle.std.specs.Prelude.{◌≡◌, ◌≤◌, ◌++◌, ◌<◌, [], ◌∷◌, length, true, IfOk, IfSome, IfNone, OnErr};
ghost use Rattle.page_sources.specs.KnownBytes.{CountsFault};

use crate::rereadable::Rereadable;
use std::io;
use std::marker::Model;

/// Room for bytes that were read and are not used yet. Contracts see those bytes.
#[derive(Drop)]
pub struct ReadRoom {
    room: [u8; 4096],
    from: usize,
    to: usize,
}

impl Model for ReadRoom {
    ghost use Rattle.std.specs.Prelude.{List, ℕ, ◌≤◌, slice_range};

    ghost Value = { List ℕ };

    ghost view = { λ r. slice_range r.room r.from r.to };

    ghost invariant = { λ r. (r.from ≤ r.to) × (r.to ≤ 4096) };
}

impl ReadRoom {
    /// Room for 4,096 bytes, of which none wait.
    pub fn new() -> Self
        ensures { result ≡ [] }
    {
        ReadRoom {
            room: [0; 4096],
            from: 0,
            to: 0,
        }
    }

    /// Takes the first byte out.
    pub fn take(&mut self) -> Option<u8>
        ensures some { IfSome result (λ b. self.old ≡ b ∷ self.new) }
        ensures none { IfNone result ((self.old ≡ []) × (self.new ≡ [])) }
    {
        if self.from >= self.to {
            return None;
        }
        let byte = self.room[self.from];
        self.from += 1;
        Some(byte)
    }

    /// Reads once into the empty room; it stays empty at the end of the reader.
    pub fn fill<R: Rereadable>(&mut self, reader: &mut R) -> io::Result<usize>
        requires { self.old ≡ [] }
        ensures size { length self.new ≤ 4096 }
        ensures count { IfOk result (λ n. length self.new ≡ n) }
        ensures empty { OnErr result (self.new ≡ []) }
        ensures faults { R.is_kept reader.old ≡ true
            → CountsFault (R.faults reader.old) result (R.faults reader.new) }
        ensures kept { R.is_kept reader.new ≡ R.is_kept reader.old }
        ensures text { R.text reader.new ≡ R.text reader.old }
        ensures bytes { R.is_kept reader.old ≡ true
            → R.left reader.old ≡ self.new ++ R.left reader.new }
        ensures end { R.is_kept reader.old ≡ true
            → IfOk result (λ _. self.new ≡ [] → R.left reader.old ≡ []) }
    {
        self.from = 0;
        self.to = 0;
        let count = reader.read_on(&mut self.room)?;
        self.to = count;
        Ok(count)
    }
}
