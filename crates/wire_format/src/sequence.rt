//! Values one after another.

ghost use Rattle.std.specs.Prelude.{◌≡◌, length, IfOk};
ghost use Rattle.wire_format.specs.Format.{Format, Gives, places};
ghost use Rattle.wire_format.specs.Writer.{Writer, PutsBehind, write_places};

use crate::fault::{ReadError, WriteError};
use std::alloc::Global;

/// A way to read values from the left of bytes.
pub trait Reader {
    type Value;

    ghost format: { Format Self.Value };

    /// The first value of the bytes and what stands behind it, or why there is none.
    fn read(alloc: Global, bytes: &[u8]) -> Result<(Self::Value, &[u8]), ReadError>
        ensures { Gives (λ x. (x.0, x.1.now)) result (format.read bytes.now) };
}

/// A value at each of `count` places, and what stands behind them.
pub fn places<R: Reader>(
    alloc: Global,
    count: u32,
    bytes: &[u8],
) -> Result<(Vec<R::Value>, &[u8]), ReadError>
where
    R::Value: Drop,
    ensures read { Gives (λ x. (x.0.items, x.1.now)) result
        ((places count R.format).read bytes.now) }
    ensures count { IfOk result (λ x. length x.0.items ≡ count) }
{
    let mut values = Vec::new(alloc);
    let mut rest = bytes;
    for _ in 0..count {
        let (value, behind) = R::read(alloc, rest)?;
        values.push(value)?;
        rest = behind;
    }
    Ok((values, rest))
}

/// A way to write values as bytes.
pub trait Encoder {
    type Value;

    ghost writer: { Writer Self.Value };

    /// Whether the value passes a limit.
    fn is_long(value: &Self::Value) -> bool
        ensures { result ≡ writer.long value.now };

    /// Writes the value's text behind the bytes, or says that it has none.
    fn put(out: &mut Vec<u8>, value: &Self::Value) -> Result<(), WriteError>
        ensures { PutsBehind result out.old.items out.new.items (writer.text value.now) };
}

/// Whether one of the values passes a limit.
pub fn is_any_long<E: Encoder>(values: &[E::Value]) -> bool
    ensures { result ≡ (write_places (length values.now) E.writer).long values.now }
{
    for value in values {
        if E::is_long(value) {
            return true;
        }
    }
    false
}

/// Writes the values one after another.
pub fn put_all<E: Encoder>(out: &mut Vec<u8>, values: &[E::Value]) -> Result<(), WriteError>
    ensures { PutsBehind result out.old.items out.new.items
        ((write_places (length values.now) E.writer).text values.now) }
{
    for value in values {
        E::put(out, value)?;
    }
    Ok(())
}
