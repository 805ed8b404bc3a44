ghost use Rattle.std.specs.Prelude.{◌≡◌, [], Some};
ghost use Rattle.std.specs.Io.{WritesAtMost};
ghost use Rattle.std.specs.Io.KnownBytes.{Keeps, WriteAppends};
ghost use Rattle.recorded.specs.Names.{IsNamed};

use crate::named_output::NamedOutput;
use crate::taken_bytes::TakenBytes;
use sane_fixed::Text;
use std::io::{self, Write};

/// An output, and what its calls took since it was put here.
#[derive(Drop)]
pub struct Recorded<W> {
    writer: W,
    taken: TakenBytes,
}

impl<W> Recorded<W> {
    /// An output of which nothing is recorded yet.
    pub fn new(writer: W) -> Recorded<W>
        /// A new record of an output tells nothing.
        /// Carried by: `writer`, `taken` of `Recorded::new`
        ensures writer { result.writer ≡ writer }
        ensures taken { result.taken.text ≡ [] }
    {
        Recorded {
            writer,
            taken: TakenBytes::none(),
        }
    }

    /// The output alone.
    pub fn into_inner(self) -> W
        /// The output comes back out of its record as it is.
        ensures { result ≡ self.writer }
    {
        self.into_parts().0
    }

    /// The output alone, and the record.
    pub(crate) fn into_parts(self) -> (W, TakenBytes)
        ensures writer { result.0 ≡ self.writer }
        ensures taken { result.1 ≡ self.taken }
    {
        let Recorded { writer, taken } = self;
        (writer, taken)
    }
}

impl<W: Write> Write for Recorded<W> {
    ghost contents = { λ r. Some r.taken.text };

    fn write(&mut self, bytes: &[u8]) -> io::Result<usize>
        /// A recorded output tells what its one call on the output took.
        /// Carried by: `bytes`, `inner` of `write` of `Recorded`
        ensures bound { WritesAtMost result bytes.now }
        ensures bytes { WriteAppends
            (Some self.old.taken.text) (Some self.new.taken.text) result bytes.now }
        ensures inner { WriteAppends
            (W.contents self.old.writer) (W.contents self.new.writer) result bytes.now }
    {
        let took = self.writer.write(bytes);
        if let Ok(n) = &took {
            self.taken.note(&bytes[..*n]);
        }
        took
    }

    fn flush(&mut self) -> io::Result<()>
        ensures bytes { Keeps (Some self.old.taken.text) (Some self.new.taken.text) }
        ensures inner { Keeps (W.contents self.old.writer) (W.contents self.new.writer) }
    {
        self.writer.flush()
    }
}

impl<W: NamedOutput> NamedOutput for Recorded<W> {
    fn begin(&mut self, name: Text)
        /// A name that is recorded was told to the output.
        /// Carried by: `name`, `inner` of `begin` of `Recorded`
        ensures name { IsNamed name (Some self.old.taken.text) (Some self.new.taken.text) }
        ensures inner { IsNamed name
            (W.contents self.old.writer) (W.contents self.new.writer) }
    {
        self.taken.note_name(name.as_bytes());
        self.writer.begin(name);
    }
}
