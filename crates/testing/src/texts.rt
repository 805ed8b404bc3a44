use sane_fixed::Text;
use std::alloc::Global;

/// A text of these bytes.
pub fn text(alloc: Global, bytes: &[u8]) -> Option<Text> {
    Text::new(alloc, bytes).ok()
}
