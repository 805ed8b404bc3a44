ghost use Rattle.std.specs.Prelude.{◌≡◌, IfOk};
ghost use Rattle.scanimage_cli.specs.Password.{first_line_of};

use sane_fixed::NoMem;
use std::alloc::Global;
use text_lines::first_line;

/// One byte more than the longest password of a job, with CR and LF behind it.
pub const MOST_OF_PASSWORD: u64 = 1_023 + 1 + 2;

/// The first line of a text, without what ends it: nothing where the text is empty.
fn line_of(text: &[u8]) -> &[u8]
    ensures { result.now ≡ first_line_of text.now }
{
    match first_line(text) {
        Some((line, _)) => line,
        None => &[],
    }
}

/// The password in what was read of a file, of `MOST_OF_PASSWORD` bytes at most: its first line, without the LF that ends it
/// and a CR before that. Of a line that is longer than a job's password no more is given than shows it. The only error is out of
/// memory.
pub fn password_line(alloc: Global, text: &[u8]) -> Result<Vec<u8>, NoMem>
    ensures { IfOk result (λ line. line.items ≡ first_line_of text.now) }
{
    let line = Vec::from_slice(alloc, line_of(text))?;
    Ok(line)
}
