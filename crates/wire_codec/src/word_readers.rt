//! Words with a meaning.

ghost use Rattle.std.specs.Prelude.{◌≡◌, ◌≤◌, IfOk};
ghost use Rattle.wire_format.specs.Format.{Gives};
ghost use Rattle.wire_format.specs.WordKinds.{word_of_kind};
ghost use Rattle.wire_message.specs.Kinds.{length_from, words_size, place, at_least, order as order_kind};
ghost use Rattle.wire_message.specs.Message.{from_to, word, up_to, signed_word, is_set, status as status_format, kind_at, unit_at, frame_at, action_at, lines_at, procedure_at};

use sane_fixed::{ByteOrder, FrameFormat, Kind, Status, Unit};
use wire_format::{Fault, ReadError, ReadStop, Word, part_stops, split_word, word_between};
use wire_message::{ControlAction, Procedure};

pub(crate) fn bad(fault: Fault) -> ReadError
    ensures { result ≡ ReadError.Stop (ReadStop.Bad fault) }
{
    ReadError::Stop(ReadStop::Bad(fault))
}

/// A word from `low` to `high`.
pub(crate) fn from_to(bytes: &[u8], low: u32, high: u32) -> Result<(u32, &[u8]), ReadError>
    ensures within { IfOk result (λ x. (low ≤ x.0) × (x.0 ≤ high)) }
    ensures read { Gives (λ x. (x.0, x.1.now)) result ((from_to low high).read bytes.now) }
{
    word_between(bytes, low, high, Fault::BadValue)
}

/// Any word.
pub(crate) fn any_word(bytes: &[u8]) -> Result<(u32, &[u8]), ReadError>
    ensures { Gives (λ x. (x.0, x.1.now)) result (word.read bytes.now) }
{
    from_to(bytes, 0, u32::MAX)
}

/// A pointer that is not NULL: what stands behind it.
pub(crate) fn pointer(bytes: &[u8]) -> Result<&[u8], ReadError>
    ensures { Gives (λ rest. (0, rest.now)) result ((from_to 0 0).read bytes.now) }
{
    let (_, rest) = from_to(bytes, 0, 0)?;
    Ok(rest)
}

/// A length or a size of at most so much.
pub(crate) fn up_to(bytes: &[u8], high: u32) -> Result<(u32, &[u8]), ReadError>
    ensures { Gives (λ x. (x.0, x.1.now)) result ((up_to high).read bytes.now) }
{
    word_between(bytes, 0, high, Fault::TooLong)
}

/// A length of at least so much, and at most 1,024.
pub(crate) fn length_from(bytes: &[u8], low: u32) -> Result<(u32, &[u8]), ReadError>
    ensures within { IfOk result (λ x. (low ≤ x.0) × (x.0 ≤ 1024)) }
    ensures read { Gives (λ x. (x.0, x.1.now)) result
        ((word_of_kind (length_from low)).read bytes.now) }
{
    match split_word(bytes) {
        Word::Whole(n, rest) => {
            if n > 1024 {
                Err(bad(Fault::TooLong))
            } else if n < low {
                Err(bad(Fault::BadValue))
            } else {
                Ok((n, rest))
            }
        }
        Word::Part(least, most) => Err(part_stops(if least > 1024 {
            Some(Fault::TooLong)
        } else if most < low {
            Some(Fault::BadValue)
        } else {
            None
        })),
    }
}

/// The size of whole words, at most 4,096 bytes.
pub(crate) fn words_size(bytes: &[u8]) -> Result<(u32, &[u8]), ReadError>
    ensures { Gives (λ x. (x.0, x.1.now)) result ((word_of_kind words_size).read bytes.now) }
{
    match split_word(bytes) {
        Word::Whole(n, rest) => {
            if n > 4096 {
                Err(bad(Fault::TooLong))
            } else if n % 4 == 0 {
                Ok((n, rest))
            } else {
                Err(bad(Fault::BadValue))
            }
        }
        Word::Part(least, _) => Err(part_stops((least > 4096).then_some(Fault::TooLong))),
    }
}

fn place_of(n: u32) -> u32
    ensures { result ≡ place n }
{
    if n < 0x8000_0000 {
        n + 0x8000_0000
    } else {
        n - 0x8000_0000
    }
}

/// A signed number that is no smaller.
pub(crate) fn at_least(bytes: &[u8], low: u32) -> Result<(u32, &[u8]), ReadError>
    ensures { Gives (λ x. (x.0, x.1.now)) result ((word_of_kind (at_least low)).read bytes.now) }
{
    match split_word(bytes) {
        Word::Whole(n, rest) => {
            if place_of(n) < place_of(low) {
                Err(bad(Fault::BadValue))
            } else {
                Ok((n, rest))
            }
        }
        Word::Part(least, most) => {
            if (least < 0x8000_0000 && 0x7fff_ffff < most) || place_of(most) >= place_of(low) {
                Err(part_stops(None))
            } else {
                Err(bad(Fault::BadValue))
            }
        }
    }
}

/// The order of the bytes of samples.
pub(crate) fn order(bytes: &[u8]) -> Result<(ByteOrder, &[u8]), ReadError>
    ensures { Gives (λ x. (x.0, x.1.now)) result ((word_of_kind order_kind).read bytes.now) }
{
    match split_word(bytes) {
        Word::Whole(0x1234, rest) => Ok((ByteOrder::Little, rest)),
        Word::Whole(0x4321, rest) => Ok((ByteOrder::Big, rest)),
        Word::Whole(_, _) => Err(bad(Fault::BadValue)),
        Word::Part(least, most) => {
            if (least <= 0x1234 && 0x1234 <= most) || (least <= 0x4321 && 0x4321 <= most) {
                Err(part_stops(None))
            } else {
                Err(bad(Fault::BadValue))
            }
        }
    }
}

/// A status.
pub(crate) fn status(bytes: &[u8]) -> Result<(Status, &[u8]), ReadError>
    ensures { Gives (λ x. (x.0, x.1.now)) result (status_format.read bytes.now) }
{
    let (n, rest) = from_to(bytes, 0, 11)?;
    let Some(status) = Status::from_code(n) else {
        unreachable!()
    };
    Ok((status, rest))
}

pub(crate) fn kind_at(n: u32) -> Kind
    ensures { result ≡ kind_at n }
{
    match n {
        0 => Kind::Bool,
        1 => Kind::Int,
        2 => Kind::Fixed,
        3 => Kind::String,
        4 => Kind::Button,
        _ => Kind::Group,
    }
}

pub(crate) fn unit_at(n: u32) -> Unit
    ensures { result ≡ unit_at n }
{
    match n {
        0 => Unit::None,
        1 => Unit::Pixel,
        2 => Unit::Bit,
        3 => Unit::Mm,
        4 => Unit::Dpi,
        5 => Unit::Percent,
        _ => Unit::Microsecond,
    }
}

pub(crate) fn frame_at(n: u32) -> FrameFormat
    ensures { result ≡ frame_at n }
{
    match n {
        0 => FrameFormat::Gray,
        1 => FrameFormat::Rgb,
        2 => FrameFormat::Red,
        3 => FrameFormat::Green,
        _ => FrameFormat::Blue,
    }
}

pub(crate) fn action_at(n: u32) -> ControlAction
    ensures { result ≡ action_at n }
{
    match n {
        0 => ControlAction::GetValue,
        _ => ControlAction::SetValue,
    }
}

pub(crate) fn is_set(n: u32) -> bool
    ensures { result ≡ is_set n }
{
    n != 0
}

pub(crate) fn lines_at(n: u32) -> Option<u32>
    ensures { result ≡ lines_at n }
{
    if n == u32::MAX { None } else { Some(n) }
}

pub(crate) fn procedure_at(n: u32) -> Procedure
    ensures { result ≡ procedure_at n }
{
    match n {
        0 => Procedure::Init,
        1 => Procedure::GetDevices,
        2 => Procedure::Open,
        3 => Procedure::Close,
        4 => Procedure::GetOptionDescriptors,
        5 => Procedure::ControlOption,
        6 => Procedure::GetParameters,
        7 => Procedure::Start,
        8 => Procedure::Cancel,
        9 => Procedure::Authorize,
        _ => Procedure::Exit,
    }
}
