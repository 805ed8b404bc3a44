ghost use Rattle.std.specs.Prelude.{◌≡◌, ◌<◌, ◌∷◌, [], length, Contains, IfSome, IfNone, MatchOption};
ghost use Rattle.std.specs.Str.Lines.{strip_carriage_return};
ghost use Rattle.text_lines.specs.Lines.{SplitsAtFirst, IsFirstLine, lines_of};

/// What stands before and after the first such byte, if there is one.
pub fn split_once(bytes: &[u8], byte: u8) -> Option<(&[u8], &[u8])>
    ensures found { IfSome result (λ parts. SplitsAtFirst byte bytes.now parts.0.now parts.1.now) }
    ensures none { IfNone result (¬ Contains bytes.now byte) }
{
    let at = bytes.iter().position(|b| *b == byte)?;
    Some((&bytes[..at], &bytes[at + 1..]))
}

/// The line without the one CR at its end, if it has one.
fn without_cr(line: &[u8]) -> &[u8]
    ensures { result.now ≡ strip_carriage_return line.now }
{
    match line {
        [front @ .., b'\r'] => front,
        _ => line,
    }
}

/// The first line and what follows it, without what ends the line. `None` where the text is empty.
pub fn first_line(text: &[u8]) -> Option<(&[u8], &[u8])>
    /// `first_line` gives the first line and what follows, or nothing where nothing is left.
    /// Carried by: `first_line`
    ensures found { IfSome result (λ cut. IsFirstLine text.now cut.0.now cut.1.now) }
    ensures none { IfNone result (text.now ≡ []) }
    // The same by the whole list of lines, for definitions that go on from it.
    ensures lines { MatchOption result (lines_of text.now
        ≡ []) (λ cut. lines_of text.now ≡ cut.0.now ∷ lines_of cut.1.now) }
    ensures shorter { IfSome result (λ cut. length cut.1.now < length text.now) }
{
    match split_once(text, b'\n') {
        Some((line, rest)) => Some((without_cr(line), rest)),
        None => {
            if text.is_empty() {
                None
            } else {
                Some((text, &text[text.len()..]))
            }
        }
    }
}
