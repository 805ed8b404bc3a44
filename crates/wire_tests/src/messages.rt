//! Messages that are read byte by byte and written again.

use sane_fixed::Text;
use std::alloc::{AllocError, Global};
use std::process::Abort;
use wire_codec::*;

/// Reads the next message, a reply where a procedure is given, and writes it again.
pub fn next(
    alloc: Global,
    decoder: &mut Decoder,
    procedure: Option<Procedure>,
) -> Result<Option<Vec<u8>>, WireFault> {
    match procedure {
        None => match decoder.next_request(alloc)? {
            Some(request) => {
                let written = encode_request(alloc, &request);
                drop(request);
                Ok(Some(written?))
            }
            None => Ok(None),
        },
        Some(procedure) => match decoder.next_reply(alloc, procedure)? {
            Some(reply) => {
                let written = encode_reply(alloc, &reply);
                drop(reply);
                Ok(Some(written?))
            }
            None => Ok(None),
        },
    }
}

/// Whether bytes, one by one, are a message just when the last has come, which is written as those.
pub fn is_read(alloc: Global, procedure: Option<Procedure>, bytes: &[u8], again: &[u8]) -> bool {
    let mut decoder = Decoder::new(alloc);
    for byte in bytes {
        if next(alloc, &mut decoder, procedure) != Ok(None) || decoder.feed(&[*byte]).is_err() {
            return false;
        }
    }
    match next(alloc, &mut decoder, procedure) {
        Ok(Some(written)) => written.as_slice() == again,
        _ => false,
    }
}

pub fn text(rt: &impl Abort, alloc: Global, bytes: &[u8]) -> Text {
    Text::new(alloc, bytes).expect(rt, "a text")
}

/// A text of so many letters.
pub fn letters(rt: &impl Abort, alloc: Global, count: usize) -> Text {
    let bytes = vec![in alloc; b'a'; count].expect(rt, "memory");
    Text::from_vec(bytes).ok().expect(rt, "no NUL")
}

/// The bytes of words, and of a string of so many letters, with its NUL.
pub fn words_and_letters(alloc: Global, words: &[u32], count: u32) -> Result<Vec<u8>, AllocError> {
    let mut bytes = Vec::new(alloc);
    for word in words {
        bytes.extend_from_slice(&word.to_be_bytes())?;
    }
    bytes.extend_from_slice(&count.saturating_add(1).to_be_bytes())?;
    for _ in 0..count {
        bytes.push(b'a')?;
    }
    bytes.push(0)?;
    Ok(bytes)
}
