//! The fields of a line, between blanks.

ghost use Rattle.std.specs.Prelude.{◌≡◌, ◌<◌, ◌≤◌, [], ◌∷◌, length, IfSome, IfNone, option_map};
ghost use Rattle.std.specs.List.{slice_get};
ghost use Rattle.dispatch.specs.ConfigLines.{is_blank, fields_of};
ghost use Rattle.dispatch.specs.FieldCounts.{blank_count, word_length};

fn is_blank(b: u8) -> bool
    ensures { result ≡ is_blank b }
{
    b == b' ' || b == b'\t'
}

/// How many blanks stand at the front.
fn blank_count(bytes: &[u8]) -> usize
    ensures count { result ≡ blank_count bytes.now }
    ensures within { result ≤ length bytes.now }
{
    for (i, b) in bytes.iter().enumerate() {
        if !is_blank(*b) {
            return i;
        }
    }
    bytes.len()
}

/// How many bytes stand before the first blank.
fn word_length(bytes: &[u8]) -> usize
    ensures count { result ≡ word_length bytes.now }
    ensures within { result ≤ length bytes.now }
{
    for (i, b) in bytes.iter().enumerate() {
        if is_blank(*b) {
            return i;
        }
    }
    bytes.len()
}

/// The first field and what follows it. `None` where there is no field.
fn next_field(bytes: &[u8]) -> Option<(&[u8], &[u8])>
    ensures some { IfSome result (λ cut. fields_of bytes.now ≡ cut.0.now ∷ fields_of cut.1.now) }
    ensures none { IfNone result (fields_of bytes.now ≡ []) }
{
    let (_, from_word) = bytes.split_at(blank_count(bytes));
    let (word, rest) = from_word.split_at(word_length(from_word));
    if word.is_empty() {
        return None;
    }
    Some((word, rest))
}

/// The field of a line at that place, the first at 0, where there is one.
pub fn field_at(line: &[u8], place: usize) -> Option<&[u8]>
    ensures { option_map (λ field. field.now) result ≡ slice_get (fields_of line.now) place }
{
    let mut rest = line;
    for _i in 0..place {
        let (_, after) = next_field(rest)?;
        rest = after;
    }
    let (field, _) = next_field(rest)?;
    Some(field)
}
