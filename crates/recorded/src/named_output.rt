use sane_fixed::Text;
use std::io::Write;

/// An output to files that are named: what is written goes to the one that was named last, which is made at its first byte.
pub trait NamedOutput: Write {
    ghost use Rattle.recorded.specs.Names.{IsNamed};

    /// Names the file of all that is written from here on.
    fn begin(&mut self, name: Text)
        /// Behind the name of a file, an output tells the bytes that it took. It tells in front how many files were named, so
        /// that who appends names none.
        ensures { IsNamed name (Self.contents self.old) (Self.contents self.new) };
}
