ghost use Rattle.std.specs.Prelude.{◌≡◌, Bool, List, ℕ, Some, [], OnOk, drop, false, true};
ghost use Rattle.std.specs.Io.{ReadsAtMost};
ghost use Rattle.std.specs.Io.KnownBytes.{ReadConsumes};
ghost use Rattle.std.specs.Io.Cursor.{cursor_inner, cursor_position};
ghost use Rattle.page_sources.specs.Inside.{are_known, known_bytes};
ghost use Rattle.page_sources.specs.KnownBytes.{CountsFault};

use std::fs::File;
use std::io;
use std::io::{AsBytes, Cursor, Read, Seek, SeekFrom};

/// A reader that can be read again from any place. Where it tells its bytes and keeps them, each pass gives the same
/// bytes; `std`'s `Read` and `Seek` do not tie the two together.
pub trait Rereadable: Read + Seek {
    // Whether it tells its bytes and keeps them.
    ghost is_kept: { Self → Bool } = { λ _. false };

    // All its bytes, where it keeps them.
    ghost text: { Self → List ℕ } = { λ _. [] };

    // Those that are left to be read, where it keeps them.
    ghost left: { Self → List ℕ } = { λ _. [] };

    // How many of its calls failed or were interrupted, where it keeps its bytes.
    ghost faults: { Self → ℕ } = { λ _. 0 };

    /// Reads on, as `read`.
    fn read_on(&mut self, buf: &mut [u8]) -> io::Result<usize>
        ensures bound { ReadsAtMost result buf.new }
        ensures bytes { is_kept self.old ≡ true
            → ReadConsumes (Some (left self.old)) (Some (left self.new)) result buf.new }
        ensures faults { is_kept self.old ≡ true
            → CountsFault (faults self.old) result (faults self.new) }
        ensures kept { is_kept self.new ≡ is_kept self.old }
        ensures text { text self.new ≡ text self.old };

    /// Goes to a place, counted in bytes from the start.
    fn start_from(&mut self, place: u64) -> io::Result<()>
        ensures place { OnOk result (is_kept self.old ≡ true
            → left self.new ≡ drop place (text self.old)) }
        ensures faults { is_kept self.old ≡ true
            → CountsFault (faults self.old) result (faults self.new) }
        ensures kept { is_kept self.new ≡ is_kept self.old }
        ensures text { text self.new ≡ text self.old };
}

/// A file tells nothing: other programs may write it.
impl Rereadable for File {
    fn read_on(&mut self, buf: &mut [u8]) -> io::Result<usize> {
        self.read(buf)
    }

    fn start_from(&mut self, place: u64) -> io::Result<()> {
        self.seek(SeekFrom::Start(place))?;
        Ok(())
    }
}

/// Bytes in memory.
impl<T: AsBytes> Rereadable for Cursor<T> {
    ghost is_kept = { λ c. are_known (T.bytes (cursor_inner c)) };

    ghost text = { λ c. known_bytes (T.bytes (cursor_inner c)) };

    ghost left = { λ c. drop (cursor_position c) (known_bytes (T.bytes (cursor_inner c))) };

    fn read_on(&mut self, buf: &mut [u8]) -> io::Result<usize> {
        self.read(buf)
    }

    fn start_from(&mut self, place: u64) -> io::Result<()> {
        self.set_position(place);
        Ok(())
    }
}
