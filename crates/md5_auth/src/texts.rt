ghost use Rattle.std.specs.Prelude.{◌≡◌, IfOk};
ghost use Rattle.sane_fixed.specs.Text.{IsText};

use sane_fixed::{NoMem, Text};
use std::alloc::Global;

/// The text of bytes without NUL, so that only memory can run out.
pub fn text_of(alloc: Global, bytes: &[u8]) -> Result<Text, NoMem>
    requires { IsText bytes.now }
    ensures { IfOk result (λ text. text ≡ bytes.now) }
{
    Text::new(alloc, bytes).map_err(|_| NoMem)
}
