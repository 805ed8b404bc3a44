//! Rows of gray: the three samples of each dot are the same, so that none is summed.

ghost use Rattle.std.specs.Prelude.{◌≡◌, ◌≤◌, ◌<◌, ◌+◌, ◌*◌, ◌%◌, ℕ, true, false, length, slice_index};
ghost use Rattle.scan_frames.specs.Inside.{IsGrayDot, IsGrayRow};

/// Whether a sample is as the one beside it, or the last of its dot.
fn is_as_next(row: &[u16], dot: usize, i: usize) -> bool
    requires { 3 * dot + i + 1 < length row.now }
    ensures same { result ≡ true → (i % 3 ≡ 2 → ⊥)
        → slice_index row.now (3 * dot + i) ≡ slice_index row.now (3 * dot + i + 1) }
    ensures other { result ≡ false → (i % 3 ≡ 2 → ⊥)
        × (slice_index row.now (3 * dot + i) ≡ slice_index row.now (3 * dot + i + 1) → ⊥) }
{
    row[3 * dot + i] == row[3 * dot + i + 1] || i % 3 == 2
}

/// Whether eight dots are gray. All their samples are compared at once with those beside them, since that has no branch.
fn are_gray(row: &[u16], dot: usize) -> bool
    requires { 3 * dot + 24 < length row.now }
    ensures gray { result ≡ true → (p : ℕ) → dot ≤ p → p < dot + 8 → IsGrayDot row.now p }
    ensures other { result ≡ false → IsGrayRow row.now → ⊥ }
{
    let mut same = true;
    for i in 0..24 {
        same &= is_as_next(row, dot, i);
    }
    same
}

/// Whether all dots of a row are gray.
pub fn is_gray(row: &[u16]) -> bool
    ensures gray { result ≡ true → IsGrayRow row.now }
    ensures other { result ≡ false → IsGrayRow row.now → ⊥ }
{
    let eights = row.len().saturating_sub(1) / 24;
    for n in 0..eights {
        if !are_gray(row, 8 * n) {
            return false;
        }
    }
    for p in 8 * eights..row.len() / 3 {
        if row[3 * p] != row[3 * p + 1] || row[3 * p + 1] != row[3 * p + 2] {
            return false;
        }
    }
    true
}
