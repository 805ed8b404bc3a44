//! Messages and records of a million bytes.

ghost use Rattle.std.specs.Prelude.{◌≡◌, ◌<◌, length, IfOk};

use crate::tell;
use std::alloc::{AllocError, Global};
use std::time::Instant;
use wire_codec::{Decoder, Procedure, RecordReader, Reply, Step, encode_reply, record_head};

/// The devices of the reply.
const DEVICES: u32 = 1000;

/// The bytes of each of a device's four texts, before their NUL.
const TEXT: usize = 244;

/// The bytes of a record.
const RECORD: usize = 65536;

fn put_word(bytes: &mut Vec<u8>, word: u32) -> Result<(), AllocError> {
    bytes.extend_from_slice(&word.to_be_bytes())
}

fn put_text(alloc: Global, bytes: &mut Vec<u8>) -> Result<(), AllocError> {
    let text = vec![in alloc; b'x'; TEXT]?;
    put_word(bytes, 245)?;
    bytes.extend_from_slice(text.as_slice())?;
    bytes.extend_from_slice(b"\0")
}

/// A reply to GET_DEVICES, with a NULL pointer last.
fn reply(alloc: Global) -> Result<Vec<u8>, AllocError> {
    let mut bytes = Vec::new(alloc);
    put_word(&mut bytes, 0)?;
    put_word(&mut bytes, DEVICES + 1)?;
    for _ in 0..DEVICES {
        put_word(&mut bytes, 0)?;
        for _ in 0..4 {
            put_text(alloc, &mut bytes)?;
        }
    }
    put_word(&mut bytes, 1)?;
    Ok(bytes)
}

/// A reply to GET_OPTION_DESCRIPTORS of 169 options, each with a list of 1,023 texts of one letter.
fn lists(alloc: Global) -> Result<Vec<u8>, AllocError> {
    let mut bytes = Vec::new(alloc);
    put_word(&mut bytes, 169)?;
    for _ in 0..169 {
        // The pointer, a name, a title and a description without letters, STRING, NONE, a size and capabilities.
        bytes.extend_from_slice(b"\0\0\0\0\0\0\0\x01\0\0\0\0\x01\0\0\0\0\x01\0")?;
        for word in [3, 0, 2, 5, 3, 1024] {
            put_word(&mut bytes, word)?;
        }
        for _ in 0..1023 {
            bytes.extend_from_slice(b"\0\0\0\x02x\0")?;
        }
        put_word(&mut bytes, 0)?;
    }
    Ok(bytes)
}

/// Feeds the bytes in pieces, and tries after each whether the reply is there.
fn reply_in_pieces(
    alloc: Global,
    procedure: Procedure,
    bytes: &[u8],
    piece: usize,
) -> Option<Reply> {
    let mut decoder = Decoder::new(alloc);
    let mut rest = bytes;
    for _ in 0..bytes.len() {
        let n = piece.min(rest.len());
        let (front, behind) = rest.split_at(n);
        decoder.feed(front).ok()?;
        rest = behind;
        let reply = decoder.next_reply(alloc, procedure).ok()?;
        if reply.is_some() {
            return reply;
        }
    }
    None
}

fn decode_once(
    rt: &HostRuntime,
    procedure: Procedure,
    bytes: &[u8],
    piece: usize,
) -> anyhow::Result<()> {
    let start = Instant::now(rt)?;
    let came = reply_in_pieces(rt.alloc(), procedure, bytes, piece).is_some();
    let took = start.elapsed(rt)?.as_millis();
    let count = bytes.len();
    eprintln!(rt; "{count} bytes, came: {came}, {took} ms")?;
    Ok(())
}

/// Writes the reply so often, beside copies of its bytes.
pub fn encode_often(rt: &HostRuntime, count: u32) -> anyhow::Result<()> {
    let alloc = rt.alloc();
    let bytes = reply(alloc)?;
    let Some(reply) = reply_in_pieces(alloc, Procedure::GetDevices, bytes.as_slice(), bytes.len())
    else {
        return Ok(());
    };
    let start = Instant::now(rt)?;
    let mut wrote: usize = 0;
    for _ in 0..count {
        if let Ok(text) = encode_reply(alloc, &reply) {
            wrote = wrote.saturating_add(text.len());
        }
    }
    tell(rt, "a reply written", wrote as u64, start.elapsed(rt)?)?;
    let start = Instant::now(rt)?;
    let mut copied: usize = 0;
    for _ in 0..count {
        copied = copied.saturating_add(Vec::from_slice(alloc, bytes.as_slice())?.len());
    }
    tell(rt, "its bytes copied", copied as u64, start.elapsed(rt)?)
}

fn buffer(alloc: Global) -> Result<Vec<u8>, AllocError>
    ensures { IfOk result (λ buffer. length buffer.items ≡ 65536) }
{
    vec![in alloc; b'x'; RECORD]
}

fn put_record(text: &mut Vec<u8>, payload: &[u8]) -> Result<(), AllocError>
    requires { length payload.now < 4294967295 }
{
    text.clear();
    text.extend_from_slice(&record_head(payload.len() as u32))?;
    text.extend_from_slice(payload)
}

/// Reads the payload of a record.
fn take_record(payload: &mut Vec<u8>, text: &[u8]) -> Result<(), AllocError> {
    payload.clear();
    let mut reader = RecordReader::new();
    let mut rest = text;
    for _ in 0..text.len() {
        if rest.is_empty() {
            break;
        }
        let (used, step) = reader.step(rest);
        if let Step::Bytes(from, to) = step {
            payload.extend_from_slice(&rest[from..to])?;
        }
        rest = &rest[used..];
    }
    Ok(())
}

fn copy(to: &mut Vec<u8>, from: &[u8]) -> Result<(), AllocError> {
    to.clear();
    to.extend_from_slice(from)
}

/// Writes and reads so many records, beside copies of their payload.
pub fn records(rt: &HostRuntime, count: u32) -> anyhow::Result<()> {
    let alloc = rt.alloc();
    let from = buffer(alloc)?;
    let mut text = Vec::new(alloc);
    let mut to = Vec::new(alloc);
    let all = (RECORD as u64).saturating_mul(count as u64);
    let start = Instant::now(rt)?;
    for _ in 0..count {
        put_record(&mut text, from.as_slice())?;
    }
    tell(rt, "records written", all, start.elapsed(rt)?)?;
    let start = Instant::now(rt)?;
    for _ in 0..count {
        take_record(&mut to, text.as_slice())?;
    }
    tell(rt, "records read", all, start.elapsed(rt)?)?;
    let start = Instant::now(rt)?;
    for _ in 0..count {
        copy(&mut to, from.as_slice())?;
    }
    tell(rt, "their bytes copied", all, start.elapsed(rt)?)
}

/// A list of devices that comes in pieces of that size.
pub fn decode(rt: &HostRuntime, piece: usize) -> anyhow::Result<()> {
    let bytes = reply(rt.alloc())?;
    decode_once(rt, Procedure::GetDevices, bytes.as_slice(), piece)
}

/// A reply of as many tiny strings as there may be, that comes in pieces of that size.
pub fn decode_lists(rt: &HostRuntime, piece: usize) -> anyhow::Result<()> {
    let bytes = lists(rt.alloc())?;
    decode_once(rt, Procedure::GetOptionDescriptors, bytes.as_slice(), piece)
}
