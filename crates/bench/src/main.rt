//! What `tests/bench` measures of the libraries; without words it does nothing. The words are
//!
//! - `open FILE DPI`: a page file is opened, which reads it once through;
//! - `scan MODE DEPTH COUNT`: so many scans of a large page go to standard output;
//! - `copy BYTES`: so many bytes do, copied from a buffer;
//! - `decode PIECE`: a reply of a million bytes comes in pieces of that size;
//! - `lists PIECE`: so does one of as many tiny strings as there may be;
//! - `encode COUNT`: the first reply is written so often;
//! - `records COUNT`: so many records are written and read;
//! - `client MODE MILLIMETRES COUNT`: so many scans, by client and daemon in one process, of a square of noise of that
//!   side, gray where the mode is. It prints how many bytes their files had.
//!
//! How fast it was, or how much there was, it tells on standard error.
#![tactic(auto)]

mod clients;
mod messages;
mod scans;

use std::env;
use std::time::Duration;

/// Tells how many bytes a microsecond, which are megabytes a second.
fn tell(rt: &HostRuntime, what: &str, bytes: u64, took: Duration) -> anyhow::Result<()> {
    let speed = bytes as u128 / took.as_micros().max(1);
    eprintln!(rt; "{what}: {speed} MB/s")?;
    Ok(())
}

/// A number of that text; 0 where it is none.
fn number(text: &str) -> u32 {
    text.parse::<u32>().unwrap_or(0)
}

/// A number of bytes.
fn size(text: &str) -> u64 {
    text.parse::<u64>().unwrap_or(0)
}

/// What two words ask for.
fn measure(rt: &HostRuntime, what: &str, word: &str) -> anyhow::Result<()> {
    match what {
        "copy" => scans::copy_often(rt, size(word)),
        "decode" => messages::decode(rt, number(word) as usize),
        "lists" => messages::decode_lists(rt, number(word) as usize),
        "encode" => messages::encode_often(rt, number(word)),
        "records" => messages::records(rt, number(word)),
        _ => Ok(()),
    }
}

/// What four words ask for.
fn measure_scans(
    rt: &HostRuntime,
    what: &str,
    mode: &str,
    length: &str,
    count: u32,
) -> anyhow::Result<()> {
    match what {
        "scan" => scans::scan_often(
            rt,
            mode.as_bytes(),
            length.parse::<i32>().unwrap_or(8),
            count,
        ),
        "client" => clients::run(rt, mode, length, count),
        _ => Ok(()),
    }
}

fn main(rt: HostRuntime) -> anyhow::Result<()> {
    let words: Vec<String> = env::args(&rt)?.collect(rt.alloc())?;
    match words.as_slice() {
        [_, what, word] => measure(&rt, what.as_str(), word.as_str()),
        [_, what, path, dpi] if what.as_str() == "open" => {
            scans::open(&rt, path.as_str(), number(dpi.as_str()))
        }
        [_, what, mode, length, count] => measure_scans(
            &rt,
            what.as_str(),
            mode.as_str(),
            length.as_str(),
            number(count.as_str()),
        ),
        _ => Ok(()),
    }
}
