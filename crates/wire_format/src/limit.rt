//! At most so many bytes.

ghost use Rattle.std.specs.Prelude.{◌≡◌, ◌≤◌, ◌++◌, ℕ, List, take, drop, length};
ghost use Rattle.wire_format.specs.Limit.{past_limit_error};

use crate::fault::{Fault, ReadError, ReadStop};

/// The bytes up to a limit.
pub fn front(bytes: &[u8], limit: usize) -> &[u8]
    ensures { result.now ≡ take limit bytes.now }
{
    match bytes.get(..limit) {
        Some(front) => front,
        None => bytes,
    }
}

/// How many bytes stand before the rest of them.
pub fn used_bytes(bytes: &[u8], rest: &[u8]) -> usize
    requires { (text : List ℕ) × (bytes.now ≡ text ++ rest.now) }
    ensures within { result ≤ length bytes.now }
    ensures rest { drop result bytes.now ≡ rest.now }
{
    bytes.len() - rest.len()
}

/// What an error on the bytes up to a limit is, where bytes go past it: to want more is `TooLong` there.
pub fn past_limit(error: ReadError, past: bool) -> ReadError
    ensures { result ≡ past_limit_error past error }
{
    match error {
        ReadError::Stop(ReadStop::More(_)) if past => ReadError::Stop(ReadStop::Bad(
            Fault::TooLong,
        )),
        _ => error,
    }
}
