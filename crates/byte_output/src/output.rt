ghost use Rattle.std.specs.Prelude.{◌≡◌, ◌<◌, ◌≤◌, ℕ, true, false, length, take, IsTrue};
ghost use Rattle.std.specs.Io.KnownBytes.{Appends};

use crate::tally::OutputTally;
use std::io::{ErrorKind, Write};

/// Writes the bytes, and makes an interrupted write again as often as the tally lets it. Says whether the writer took them
/// all; one that fails or takes nothing of a write ends it, and then it took a proper front of them.
pub fn put<W: Write>(to: &mut W, bytes: &[u8], tally: &mut OutputTally) -> bool
    /// All bytes are written, or the writer took a proper front of them.
    /// Carried by: `whole`, `front` of `put`
    ensures whole { IsTrue result → Appends (W.contents to.old) (W.contents to.new) bytes.now }
    ensures front { result ≡ false → (n : ℕ) × (n < length bytes.now)
        × Appends (W.contents to.old) (W.contents to.new) (take n bytes.now) }
    /// Where not all bytes are written, that an output failed is noted; where they are, it is noted only if it was before.
    /// Carried by: `failed`, `kept` of `put`
    ensures failed { result ≡ false → tally.new.failed ≡ true }
    ensures kept { result ≡ true → tally.new.failed ≡ tally.old.failed }
    // No more writes may be made again than before.
    ensures again { tally.new.again ≤ tally.old.again }
{
    let mut at = 0;
    while at < bytes.len() {
        match tally.write(to, &bytes[at..]) {
            Ok(0) => return false,
            Ok(n) => at += n,
            Err(e) if e.kind() == ErrorKind::Interrupted => {
                if !tally.take_again() {
                    return false;
                }
            }
            Err(_) => return false,
        }
    }
    true
}
