//! Words, judged as their bytes come.

ghost use Rattle.std.specs.Prelude.{◌≡◌};
ghost use Rattle.wire_format.specs.Format.{Gives, one_byte};
ghost use Rattle.wire_format.specs.WordKinds.{word_of_kind, between, split_at_word, split_view, stop_of};

use crate::fault::{Fault, MissingBytes, ReadError, ReadStop};

/// The front of bytes, up to a word.
pub enum Word<'a> {
    /// A word, most significant byte first, and what stands behind it.
    Whole(u32, &'a [u8]),
    /// The least and the most of the words that begin so.
    Part(u32, u32),
}

/// The first word of the bytes, or which words they begin.
pub fn split_word(bytes: &[u8]) -> Word<'_>
    ensures { split_view result ≡ split_at_word bytes.now }
{
    match bytes {
        [a, b, c, d, rest @ ..] => Word::Whole(u32::from_be_bytes([*a, *b, *c, *d]), rest),
        [a, b, c] => Word::Part(
            u32::from_be_bytes([*a, *b, *c, 0]),
            u32::from_be_bytes([*a, *b, *c, 255]),
        ),
        [a, b] => Word::Part(
            u32::from_be_bytes([*a, *b, 0, 0]),
            u32::from_be_bytes([*a, *b, 255, 255]),
        ),
        [a] => Word::Part(
            u32::from_be_bytes([*a, 0, 0, 0]),
            u32::from_be_bytes([*a, 255, 255, 255]),
        ),
        [] => Word::Part(0, u32::MAX),
    }
}

/// One more byte, whichever.
pub fn one_more() -> ReadStop
    ensures { result ≡ ReadStop.More one_byte }
{
    ReadStop::More(MissingBytes { count: 1, least: 0 })
}

/// Why fewer bytes than a word give none, by their fault, if they have one.
pub fn part_stops(fault: Option<Fault>) -> ReadError
    ensures { result ≡ ReadError.Stop (stop_of fault) }
{
    match fault {
        Some(fault) => ReadError::Stop(ReadStop::Bad(fault)),
        None => ReadError::Stop(one_more()),
    }
}

/// A word from `low` to `high`; any other has the fault.
pub fn word_between(
    bytes: &[u8],
    low: u32,
    high: u32,
    fault: Fault,
) -> Result<(u32, &[u8]), ReadError>
    ensures { Gives (λ x. (x.0, x.1.now)) result
        ((word_of_kind (between low high fault)).read bytes.now) }
{
    match split_word(bytes) {
        Word::Whole(n, rest) => {
            if n < low || high < n {
                Err(ReadError::Stop(ReadStop::Bad(fault)))
            } else {
                Ok((n, rest))
            }
        }
        Word::Part(least, most) => {
            let outside = most < low || high < least;
            Err(part_stops(outside.then_some(fault)))
        }
    }
}
