//! Bytes, one or many.

ghost use Rattle.std.specs.Prelude.{◌≡◌};
ghost use Rattle.std.specs.List.{list_all};
ghost use Rattle.wire_format.specs.Format.{Gives, byte_between, run, is_from};

use crate::fault::{Fault, MissingBytes, ReadError, ReadStop};
use crate::word::one_more;

/// A byte from `low` to `high`; any other is `BadValue`.
pub fn byte_between(bytes: &[u8], low: u8, high: u8) -> Result<(u8, &[u8]), ReadError>
    ensures { Gives (λ x. (x.0, x.1.now)) result ((byte_between low high).read bytes.now) }
{
    match bytes {
        [b, rest @ ..] => {
            if *b < low || high < *b {
                Err(ReadError::Stop(ReadStop::Bad(Fault::BadValue)))
            } else {
                Ok((*b, rest))
            }
        }
        [] => Err(ReadError::Stop(one_more())),
    }
}

/// Whether no byte is below the least.
pub fn all_from(bytes: &[u8], least: u8) -> bool
    ensures { result ≡ list_all (is_from least) bytes.now }
{
    bytes.iter().all(|b| !(*b < least))
}

/// So many bytes, none of them below the least; the first that is below it is `BadValue`.
pub fn run(bytes: &[u8], least: u8, count: usize) -> Result<(&[u8], &[u8]), ReadError>
    ensures { Gives (λ x. (x.0.now, x.1.now)) result ((run least count).read bytes.now) }
{
    if bytes.len() < count {
        if !all_from(bytes, least) {
            return Err(ReadError::Stop(ReadStop::Bad(Fault::BadValue)));
        }
        let wanted = MissingBytes {
            count: count - bytes.len(),
            least,
        };
        return Err(ReadError::Stop(ReadStop::More(wanted)));
    }
    let (front, rest) = bytes.split_at(count);
    if all_from(front, least) {
        Ok((front, rest))
    } else {
        Err(ReadError::Stop(ReadStop::Bad(Fault::BadValue)))
    }
}
