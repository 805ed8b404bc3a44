//! The text that is written of a word or of bytes. Each function appends it, or says why there is none.

ghost use Rattle.std.specs.Prelude.{◌≡◌, ◌++◌, OnOk};
ghost use Rattle.std.specs.Int.{w32, to_be_bytes};
ghost use Rattle.std.specs.List.{list_all};
ghost use Rattle.wire_format.specs.WordKinds.{between};
ghost use Rattle.wire_format.specs.Writer.{PutsBehind, write_word, write_byte, write_run, may_run};

use crate::bytes::all_from;
use crate::fault::{Fault, WriteError};
use std::alloc::AllocError;

/// Writes any word, most significant byte first.
pub fn put_word(out: &mut Vec<u8>, n: u32) -> Result<(), AllocError>
    ensures { OnOk result (out.new.items ≡ out.old.items ++ to_be_bytes w32 n) }
{
    out.extend_from_slice(&n.to_be_bytes())?;
    Ok(())
}

/// Whether a word from `low` to `high` passes a limit: it is outside, and that is `TooLong`.
pub fn is_past(n: u32, low: u32, high: u32, fault: Fault) -> bool
    ensures { result ≡ (write_word (between low high fault) (λ n. n)).long n }
{
    (n < low || high < n) && fault == Fault::TooLong
}

/// Writes a word from `low` to `high`.
pub fn put_word_between(
    out: &mut Vec<u8>,
    n: u32,
    low: u32,
    high: u32,
    fault: Fault,
) -> Result<(), WriteError>
    ensures { PutsBehind result out.old.items out.new.items
        ((write_word (between low high fault) (λ n. n)).text n) }
{
    let _fault = fault;
    if n < low || high < n {
        return Err(WriteError::Unspelled);
    }
    put_word(out, n)?;
    Ok(())
}

/// Writes a byte from `low` to `high`.
pub fn put_byte_between(out: &mut Vec<u8>, b: u8, low: u8, high: u8) -> Result<(), WriteError>
    ensures { PutsBehind result out.old.items out.new.items ((write_byte low high).text b) }
{
    if b < low || high < b {
        return Err(WriteError::Unspelled);
    }
    out.push(b)?;
    Ok(())
}

/// Whether each byte may stand in a run.
fn may_all_run(bytes: &[u8], least: u8) -> bool
    ensures { result ≡ list_all (may_run least) bytes.now }
{
    all_from(bytes, least)
}

/// Writes a run of `count` bytes, none of them below `least`.
pub fn put_run(out: &mut Vec<u8>, bytes: &[u8], least: u8, count: usize) -> Result<(), WriteError>
    ensures { PutsBehind result out.old.items out.new.items
        ((write_run least count).text bytes.now) }
{
    if !may_all_run(bytes, least) || bytes.len() != count {
        return Err(WriteError::Unspelled);
    }
    out.extend_from_slice(bytes)?;
    Ok(())
}
