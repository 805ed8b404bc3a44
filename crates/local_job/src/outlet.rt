ghost use Rattle.std.specs.Prelude.{◌≡◌, ◌<◌, ◌≤◌, ℕ, List, Option, true, false, length, take, IsTrue};
ghost use Rattle.std.specs.Io.KnownBytes.{Appends};

use byte_output::{OutputTally, put};
use std::io::Write;

/// What takes the bytes of a file.
pub trait Outlet {
    // The bytes that it holds, where they are known.
    ghost contents: { Self → Option (List ℕ) };

    // What may become of an outlet as it takes bytes.
    ghost Becomes: { Self → Self → Type 0 };

    /// Takes the bytes, and says whether it took them all; else it took a proper front of them, and that is noted.
    fn put(&mut self, bytes: &[u8], outputs: &mut OutputTally) -> bool
        ensures whole { IsTrue result → Appends (contents self.old) (contents self.new) bytes.now }
        ensures front { result ≡ false → (n : ℕ) × (n < length bytes.now)
            × Appends (contents self.old) (contents self.new) (take n bytes.now) }
        ensures failed { result ≡ false → outputs.new.failed ≡ true }
        ensures again { outputs.new.again ≤ outputs.old.again }
        ensures becomes { (first : Self) → Becomes first self.old → Becomes first self.new };
}

/// An output that is there from the start.
pub struct GivenOutput<'a, W> {
    pub out: &'a mut W,
}

impl<W: Write> Outlet for GivenOutput<'_, W> {
    ghost contents = { λ plain. W.contents plain.out.now };

    ghost Becomes = { λ first now. now.out.ghost_name ≡ first.out.ghost_name };

    fn put(&mut self, bytes: &[u8], outputs: &mut OutputTally) -> bool {
        put(&mut *self.out, bytes, outputs)
    }
}
