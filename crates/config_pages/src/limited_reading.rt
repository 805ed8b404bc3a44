ghost use Rattle.std.specs.Prelude.{◌≡◌, IfOk, IfSome, take};

use std::alloc::Global;
use std::io::{self, Read};

/// The bytes of a text, at most so many of the first.
pub fn text_of<R: Read + Drop>(alloc: Global, reader: R, most: u64) -> io::Result<Vec<u8>>
    /// Of a text at most so many bytes are read.
    ensures { IfOk result
        (λ text. IfSome (R.remaining reader) (λ all. text.items ≡ take most all)) }
{
    let mut text = Vec::new(alloc);
    reader.take(most).read_to_end(&mut text)?;
    Ok(text)
}
