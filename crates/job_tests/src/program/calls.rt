//! Each call of the frontend that takes memory, where there is enough.

use crate::common::{ONE_PLACE, job, text};
use config_pages::{Inputs, RecordedInputs, text_of};
use device_api::DeviceInfo;
use local_job::OutputTally;
use option_desc::{Constraint, Descriptor, Value};
use page_picture::DeviceKind;
use sane_fixed::{ByteOrder, Cap, Fixed, Info, Kind, Text, Unit};
use scan_job::{Report, Task};
use scanimage_cli::{
    Ending, Input, SplitFault, WordSource, config_lines, device_list, do_job, options_table,
    password_of, read_options, rounded_lines, split_words, task_of, words_of,
};
use std::alloc::Global;
use std::env::FillError;
use std::fs::File;
use std::io::{self, ErrorKind};
use std::process::Abort;
use testing::{dots, scanner};

/// The words of a line.
fn words_in(rt: &impl Abort, alloc: Global, line: &str) -> Vec<Text> {
    let mut words = Vec::new(alloc);
    for word in line.split(' ') {
        let word = text(rt, alloc, word.as_bytes());
        words.push(word).expect(rt, "memory");
    }
    words
}

/// The settings that come of a window.
const SIDES: &[(&[u8], &[u8])] = &[
    (b"resolution", b"26"),
    (b"tl-x", b"1"),
    (b"br-x", b"3"),
    (b"br-y", b"1"),
];

#[test]
fn words_of_a_command_line(rt: HostRuntime) {
    let alloc = rt.alloc();
    let line = "--config - --resolution 26 -n -l 1 -x 2 -A -y 1 --port=65535";
    let Ok(split) = split_words(alloc, words_in(&rt, alloc, line).as_slice()) else {
        panic!(&rt; "no command line")
    };
    assert!(&rt; split.settings.len() == SIDES.len());
    for ((name, value), side) in split.settings.iter().zip(SIDES) {
        assert!(&rt; (name.as_bytes(), value.as_bytes()) == *side);
    }
    let Ok(options) = read_options(alloc, split.program.as_slice()) else {
        panic!(&rt; "refused")
    };
    assert!(&rt; options.port == Some(65535) && task_of(&options) == Task::Show);
    drop((split, options));
    let mode = split_words(alloc, words_in(&rt, alloc, "--mode").as_slice());
    assert!(&rt; matches!(mode, Err(SplitFault::Bad)));
    drop(mode);
}

/// One text, on standard input and in the file `a`.
#[derive(Clone, Copy)]
struct OneText {
    text: &'static [u8],
}

impl Inputs for OneText {
    ghost use Rattle.std.specs.Prelude.{None, Some};

    type Page = File;

    ghost seen = { λ it. record {
      texts = record { standard = Some it.text.now; file = λ _. Some it.text.now };
      calls = None;
    } };

    fn standard(&mut self, alloc: Global, most: u64) -> io::Result<Vec<u8>> {
        text_of(alloc, self.text, most)
    }

    fn file(&mut self, alloc: Global, path: &[u8], most: u64) -> io::Result<Vec<u8>> {
        if path == b"a".as_slice() {
            text_of(alloc, self.text, most)
        } else {
            Err(io::Error::from(ErrorKind::NotFound))
        }
    }

    fn page(&mut self, _path: &[u8]) -> io::Result<File> {
        Err(io::Error::from(ErrorKind::NotFound))
    }
}

/// The number of each line of a config, its device's index and how many pages it has.
const LINES: &[(u32, u32, usize)] = &[(2, 0, 1), (4, 1, 2)];

/// The file that is named is read, and no other; the password is its first line.
#[test]
fn texts_that_are_named(rt: HostRuntime) {
    let alloc = rt.alloc();
    let text = b"# two\nflatbed 0 26 a.pnm\n\nfeeder 1 26 a.pnm b.pnm\n";
    let mut config = RecordedInputs::new(OneText { text });
    let text = b"first\r\nsecond\n";
    let mut secret = RecordedInputs::new(OneText { text });
    let there = testing::text(alloc, b"a");
    let Ok(lines) = config_lines(alloc, &mut config, &Some(Input::StandardInput)) else {
        panic!(&rt; "no lines")
    };
    assert!(&rt; lines.len() == LINES.len());
    for (line, told) in lines.as_slice().iter().zip(LINES) {
        assert!(&rt; (line.line, line.index, line.pages.len()) == *told);
    }
    let Ok(password) = password_of(alloc, &mut secret, &there) else {
        panic!(&rt; "no password")
    };
    assert!(&rt; password.as_bytes() == b"first".as_slice());
    let other = testing::text(alloc, b"-");
    assert!(&rt;
        matches!(
            password_of(alloc, &mut secret, &other),
            Err(Ending::CannotRead(_))
        )
    );
}

/// A length that may be set and read.
fn length(rt: &impl Abort, alloc: Global) -> Descriptor {
    Descriptor {
        name: text(rt, alloc, b"name"),
        title: text(rt, alloc, b"A title"),
        about: text(rt, alloc, b""),
        kind: Kind::Fixed,
        unit: Unit::Mm,
        size: 4,
        caps: Cap(5),
        constraint: Constraint::Free,
    }
}

/// A report of a length that was given as 1.
fn report(rt: &impl Abort, alloc: Global, asked: i32, info: u32) -> Report {
    Report {
        name: text(rt, alloc, b"name"),
        kind: Kind::Fixed,
        asked: Value::Fixed(Fixed(asked)),
        given: Value::Fixed(Fixed(65536)),
        info: Info(info),
    }
}

/// The first option of a table, their number, is not shown, and a value that was not rounded is not printed.
#[test]
fn printed_lines(rt: HostRuntime) {
    let alloc = rt.alloc();
    let info = DeviceInfo {
        name: text(&rt, alloc, b"hand:7"),
        vendor: text(&rt, alloc, b"Virtual"),
        model: text(&rt, alloc, b"Hand"),
        class: text(&rt, alloc, b"handheld scanner"),
    };
    let list = device_list(alloc, b"net:a:", &[info]).expect(&rt, "a list");
    let line = b"device `net:a:hand:7' is a Virtual Hand handheld scanner\n";
    assert!(&rt; list.as_slice() == line.as_slice());
    let (first, second) = (length(&rt, alloc), length(&rt, alloc));
    let options = [(first, None), (second, Some(Value::Fixed(Fixed(98304))))];
    let table = options_table(alloc, b"a:0", &options).expect(&rt, "a table");
    let lines = b"All options specific to device `a:0':\n    --name <fixed> [1.5]\n";
    assert!(&rt; table.as_slice() == lines.as_slice());
    drop(options);
    let reports = [report(&rt, alloc, 39322, 5), report(&rt, alloc, 65536, 4)];
    let lines = rounded_lines(alloc, &reports).expect(&rt, "lines");
    let wanted = b"scanimage: rounded value of name from 0.600006103515625 to 1\n";
    assert!(&rt; lines.as_slice() == wanted.as_slice());
    drop(reports);
}

#[test]
fn a_scan_that_is_printed(rt: HostRuntime) {
    let alloc = rt.alloc();
    let page = dots(alloc, &[10]).expect(&rt, "a page");
    let flatbed = scanner(
        alloc,
        DeviceKind::Flatbed,
        b"flatbed:0",
        page,
        ByteOrder::Big,
    );
    let mut device = flatbed.expect(&rt, "a scanner");
    let (scan, mut file) = (job(&rt, alloc, ONE_PLACE, Task::Scan), Vec::new(alloc));
    let done = do_job(
        alloc,
        &mut *device,
        &scan,
        &mut file,
        &mut OutputTally::new(),
    );
    let whole = b"P5\n# SANE data follows\n1 1\n255\n\x0a";
    assert!(&rt; done.is_ok() && file.as_slice() == whole.as_slice());
    drop((scan, done));
    drop(device);
}

/// A command line whose third word is too long.
struct LongWord;

impl WordSource for LongWord {
    fn word(&self, i: usize, _room: &mut [u8]) -> Result<usize, FillError> {
        match i {
            1 => Ok(0),
            2 => Err(FillError::TooLong),
            _ => Err(FillError::NotPresent),
        }
    }
}

#[test]
fn a_word_that_cannot_be_had(rt: HostRuntime) {
    assert!(&rt; matches!(words_of(rt.alloc(), &LongWord), Err(SplitFault::Bad)));
}
