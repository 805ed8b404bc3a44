use config_pages::{HostInputs, Inputs, scanners, text_of};
use device_api::Device;
use dispatch::parse_config;
use sane_fixed::ByteOrder;
use saned_cli::{DaemonEnding, DaemonOptions, config_lines, read_options, users_of};
use std::alloc::Global;
use std::fs::File;
use std::io::{self, ErrorKind};
use std::process::Abort;
use std::test::Fail;

/// A text on standard input, and one in a file of that name.
#[derive(Drop)]
struct Texts {
    standard: &'static [u8],
    text: &'static [u8],
}

impl Inputs for Texts {
    ghost use Rattle.std.specs.Prelude.{None, Some};

    type Page = File;

    ghost seen = { λ it. record {
      texts = record { standard = Some it.standard.now; file = λ _. Some it.text.now };
      calls = None;
    } };

    fn standard(&mut self, alloc: Global, most: u64) -> io::Result<Vec<u8>> {
        text_of(alloc, self.standard, most)
    }

    fn file(&mut self, alloc: Global, path: &[u8], most: u64) -> io::Result<Vec<u8>> {
        if path == b"file".as_slice() {
            text_of(alloc, self.text, most)
        } else {
            Err(io::Error::from(ErrorKind::NotFound))
        }
    }

    fn page(&mut self, _path: &[u8]) -> io::Result<File> {
        Err(io::Error::from(ErrorKind::NotFound))
    }
}

const TEXTS: Texts = Texts {
    standard: b"hand 3 26 a.pnm\n",
    text: b"user:pass:flatbed\n",
};

/// The options of these words behind the program's name.
fn options(rt: &impl Abort, alloc: Global, words: &[&str]) -> DaemonOptions {
    let mut all = Vec::new(alloc);
    for word in words {
        let word = String::from_str(alloc, word).expect(rt, "memory");
        all.push(word).expect(rt, "memory");
    }
    read_options(alloc, all.as_slice()).expect(rt, "options")
}

/// The config and the users that are named are read, and no other.
#[test]
fn the_files_that_are_named(rt: HostRuntime) {
    let alloc = rt.alloc();
    let mut texts = TEXTS;
    let found = options(
        &rt,
        alloc,
        &["saned", "--config=-", "--users=file", "--seed=0"],
    );
    let Ok(lines) = config_lines(alloc, &mut texts, &found) else {
        panic!(&rt; "no lines")
    };
    assert!(&rt; lines.len() == 1 && lines.as_slice().iter().all(|line| line.index == 3));
    let Ok(users) = users_of(alloc, &mut texts, &found) else {
        panic!(&rt; "no users")
    };
    assert!(&rt; users.needs(b"flatbed") && !users.needs(b"hand"));
    let other = options(
        &rt,
        alloc,
        &["saned", "--config=-", "--users=other", "--seed=0"],
    );
    let read = users_of(alloc, &mut texts, &other);
    assert!(&rt; matches!(read, Err(DaemonEnding::CannotRead(_))));
}

/// A scanner of each kind, on a page of one gray place, and a feeder with two of them.
const FOUR: &[u8] = b"threepass 7 26 hex:50350a3120310a3235350a0b\n\
    feeder 2 26 hex:50350a3120310a3235350a0b hex:50350a3120310a3235350a0c\n\
    hand 0 26 hex:50350a3120310a3235350a0d\n\
    flatbed 9 26 hex:50350a3120310a3235350a0e\n";

const NAMES: [&[u8]; 4] = [b"threepass:7", b"feeder:2", b"hand:0", b"flatbed:9"];

/// The scanners of a config are one of each line, in their order.
#[test]
fn scanners_of_the_lines(rt: HostRuntime) -> Result<(), Fail> {
    let lines = parse_config(rt.alloc(), FOUR)?;
    let mut inputs = HostInputs { rt: &rt };
    let made = scanners(rt.alloc(), &mut inputs, lines.as_slice(), ByteOrder::Big)?;
    assert!(rt; made.len() == 4);
    for (scanner, name) in made.as_slice().iter().zip(NAMES) {
        assert!(rt; scanner.info().name.as_bytes() == name && scanner.at_rest());
        assert!(rt; scanner.order() == ByteOrder::Big);
    }
    Ok(())
}

/// No more is read of a text than its limit.
#[test]
fn texts_are_read_to_their_limit(rt: HostRuntime) -> Result<(), Fail> {
    let (front, whole) = (b"ab".as_slice(), b"abc".as_slice());
    assert!(rt; text_of(rt.alloc(), whole, 2)?.as_slice() == front);
    assert!(rt; text_of(rt.alloc(), whole, 9)?.as_slice() == whole);
    Ok(())
}
