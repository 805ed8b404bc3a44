//! What is done with a scanner and what it answers, so that a test is a table of calls.

use device_api::Device;
use option_desc::{Value, Words};
use sane_fixed::{Fixed, FrameFormat, Info, Params, Status};
use std::alloc::Global;
use std::process::Abort;
use testing::{source, text};

/// The number of the option `mode`, which each kind of scanner has, as the two that follow.
pub const MODE: u32 = 1;

pub const DEPTH: u32 = 2;

pub const RESOLUTION: u32 = 3;

/// The number of the option `br-x`.
pub const BR_X: u32 = 6;

/// The number of the option `br-y`.
pub const BR_Y: u32 = 7;

/// One mm as a FIXED word.
pub const MM: i32 = 65536;

/// The word of a table at place i.
#[derive(Clone, Copy)]
pub enum Fill {
    /// i.
    Places,
    /// 255 - i.
    Inverted,
    /// i / 2.
    Halves,
    /// 0 below 128, else 255.
    Steps,
}

/// A value as the tables name it.
#[derive(Clone, Copy)]
pub enum Plain {
    Flag(bool),
    Int(i32),
    /// So many 65,536ths.
    Fixed(i32),
    Text(&'static [u8]),
    /// A table of so many words.
    Table(Fill, i32),
    /// A table of 256 words, of which the one at this place is that.
    But(Fill, usize, i32),
}

fn word(fill: Fill, i: i32) -> i32 {
    match fill {
        Fill::Places => i,
        Fill::Inverted => 255i32.saturating_sub(i),
        Fill::Halves => i / 2,
        Fill::Steps if i < 128 => 0,
        Fill::Steps => 255,
    }
}

fn table(alloc: Global, fill: Fill, count: i32) -> Option<Vec<i32>> {
    let mut words = Vec::new(alloc);
    for i in 0..count {
        words.push(word(fill, i)).ok()?;
    }
    Some(words)
}

/// The value of an option that a row tells plainly.
fn value(alloc: Global, plain: Plain) -> Option<Value> {
    Some(match plain {
        Plain::Flag(flag) => Value::Flag(flag),
        Plain::Int(word) => Value::Int(word),
        Plain::Fixed(word) => Value::Fixed(Fixed(word)),
        Plain::Text(bytes) => Value::Text(text(alloc, bytes)?),
        Plain::Table(fill, count) => Value::Words(Words::from_vec(table(alloc, fill, count)?)),
        Plain::But(fill, place, word) => {
            let mut words = table(alloc, fill, 256)?;
            *words.get_mut(place)? = word;
            Value::Words(Words::from_vec(words))
        }
    })
}

/// A frame's format, whether it is the last, its bytes and pixels per line, its lines and its depth.
pub type Told = (FrameFormat, bool, u32, u32, Option<u32>, u32);

/// A call of a scanner, and what it answers.
#[derive(Clone, Copy)]
pub enum Call {
    /// Its name, model and class; all are of one vendor.
    Is(&'static [u8], &'static [u8], &'static [u8]),
    /// The option takes the value.
    Set(u32, Plain),
    /// The option is given the second value for the first, with this info.
    Gives(u32, Plain, Plain, u32),
    /// The option is not set.
    Refuses(u32, Plain, Status),
    Has(u32, Plain),
    /// The option cannot be read.
    Hides(u32),
    /// At 26 dots per inch, where a mm is one dot, a window of so many from the corner.
    Window(i32, i32),
    Tells(Told),
    Start(Result<(), Status>),
    /// One read of at most four bytes.
    Read(Result<usize, Status>),
    /// So many reads of at most seven bytes give these bytes, and the next this status.
    Frame(u32, &'static [u8], Status),
    /// A start and a frame of these bytes; whether the scanner is at rest then.
    Scan(&'static [u8], bool),
    /// The same of a whole scan of so many times these runs of a byte.
    ScanRuns(u32, &'static [(u8, usize)]),
    Cancel,
    Reset,
    AtRest(bool),
    /// A page of 26 dots per inch goes in, or not.
    Load(&'static [u8], bool),
}

fn is<D: Device>(device: &D, name: &[u8], model: &[u8], class: &[u8]) -> bool {
    let info = device.info();
    let is_virtual = info.vendor.as_bytes() == b"Virtual".as_slice();
    let is_named = info.name.as_bytes() == name && info.model.as_bytes() == model;
    is_virtual && is_named && info.class.as_bytes() == class
}

/// The option is set to the value: what is given, and the info.
pub fn set<D: Device>(
    alloc: Global,
    device: &mut D,
    n: u32,
    asked: Plain,
) -> Option<Result<(Value, Info), Status>> {
    let asked = value(alloc, asked)?;
    Some(device.set(alloc, n, &asked))
}

fn gives<D: Device>(
    alloc: Global,
    device: &mut D,
    n: u32,
    asked: Plain,
    given: Plain,
    info: u32,
) -> Option<bool> {
    let answer = set(alloc, device, n, asked)?.ok()?;
    Some(answer == (value(alloc, given)?, Info(info)))
}

fn takes_window<D: Device>(alloc: Global, device: &mut D, width: i32, height: i32) -> Option<bool> {
    for (n, asked) in [
        (RESOLUTION, Value::Int(26)),
        (BR_X, Value::Fixed(Fixed(width.saturating_mul(MM)))),
        (BR_Y, Value::Fixed(Fixed(height.saturating_mul(MM)))),
    ] {
        device.set(alloc, n, &asked).ok()?;
    }
    Some(true)
}

fn tells<D: Device>(device: &D, told: Told) -> bool {
    let (format, last_frame, bytes_per_line, pixels_per_line, lines, depth) = told;
    device.params()
        == Params {
            format,
            last_frame,
            bytes_per_line,
            pixels_per_line,
            lines,
            depth,
        }
}

/// What reads of at most seven bytes give, how many gave some, and the status that ends them.
pub fn read_all<D: Device>(alloc: Global, device: &mut D) -> Option<(Vec<u8>, u32, Status)> {
    let mut out = Vec::new(alloc);
    let mut buf = [0u8; 7];
    for reads in 0..100_000u32 {
        match device.read(&mut buf) {
            Ok(n) => out.extend_from_slice(&buf[..n]).ok()?,
            Err(status) => return Some((out, reads, status)),
        }
    }
    None
}

fn frame<D: Device>(
    alloc: Global,
    device: &mut D,
    count: u32,
    bytes: &[u8],
    status: Status,
) -> Option<bool> {
    let (got, reads, ended) = read_all(alloc, device)?;
    Some(got.as_slice() == bytes && (reads, ended) == (count, status))
}

fn scan<D: Device>(alloc: Global, device: &mut D, bytes: &[u8], rests: bool) -> Option<bool> {
    device.start(alloc).ok()?;
    let is_under_way = !device.at_rest();
    let (got, _, status) = read_all(alloc, device)?;
    let is_whole = got.as_slice() == bytes && status == Status::Eof;
    Some(is_under_way && is_whole && device.at_rest() == rests)
}

/// So many times these runs of a byte.
fn of_runs(alloc: Global, times: u32, runs: &[(u8, usize)]) -> Option<Vec<u8>> {
    let mut bytes = Vec::new(alloc);
    for _ in 0..times {
        for (byte, count) in runs {
            for _ in 0..*count {
                bytes.push(*byte).ok()?;
            }
        }
    }
    Some(bytes)
}

/// Whether a call is answered so; none for lack of memory.
fn answers<D: Device>(alloc: Global, device: &mut D, call: Call) -> Option<bool> {
    match call {
        Call::Is(name, model, class) => return Some(is(device, name, model, class)),
        Call::Set(n, asked) => return Some(set(alloc, device, n, asked)?.is_ok()),
        Call::Gives(n, asked, given, info) => return gives(alloc, device, n, asked, given, info),
        Call::Refuses(n, asked, why) => {
            return Some(set(alloc, device, n, asked)?.err() == Some(why));
        }
        Call::Has(n, wanted) => return Some(device.get(alloc, n).ok()? == value(alloc, wanted)?),
        Call::Hides(n) => return Some(device.get(alloc, n).err() == Some(Status::Inval)),
        Call::Window(width, height) => return takes_window(alloc, device, width, height),
        Call::Tells(told) => return Some(tells(device, told)),
        Call::Start(answer) => return Some(device.start(alloc) == answer),
        Call::Read(answer) => return Some(device.read(&mut [0; 4]) == answer),
        Call::Frame(count, bytes, status) => return frame(alloc, device, count, bytes, status),
        Call::Scan(bytes, rests) => return scan(alloc, device, bytes, rests),
        Call::ScanRuns(times, runs) => {
            return scan(alloc, device, &of_runs(alloc, times, runs)?, true);
        }
        Call::Cancel => device.cancel(),
        Call::Reset => device.reset(),
        Call::AtRest(is) => return Some(device.at_rest() == is),
        Call::Load(file, is) => return Some(device.load(source(alloc, file, 26)?).is_ok() == is),
    }
    Some(true)
}

/// Each call of the scanner of that name is answered so.
pub fn expect_each<D: Device>(
    rt: &impl Abort,
    alloc: Global,
    device: &mut D,
    (name, calls): (&str, &[Call]),
) {
    for (i, call) in calls.iter().enumerate() {
        if answers(alloc, device, *call) != Some(true) {
            panic!(rt; "{name}: call {i} is answered otherwise");
        }
    }
}
