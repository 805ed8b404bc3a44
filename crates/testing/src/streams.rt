use std::alloc::Global;

/// The bytes of these parts, one behind the other.
pub fn joined(alloc: Global, parts: &[&[u8]]) -> Option<Vec<u8>> {
    let mut all = Vec::new(alloc);
    for part in parts {
        all.extend_from_slice(part).ok()?;
    }
    Some(all)
}
