ghost use Rattle.std.specs.Prelude.{◌≡◌, OnOk, map, string_bytes};
ghost use Rattle.std.specs.Io.KnownBytes.{Appends};
ghost use Rattle.saned_cli.specs.OwnTexts.{asked_text, help_text, own_text, text_asked};

use std::io;
use std::io::Write;

/// A text that the program tells of itself, in place of serving.
#[derive(Clone, Copy, Debug, PartialEq, Eq)]
pub enum OwnText {
    /// How it is called.
    Help,
    /// Which version it is.
    Version,
}

/// Which text a word asks for.
fn text_of(word: &[u8]) -> Option<OwnText>
    ensures { result ≡ asked_text word.now }
{
    if word == b"--help".as_slice() {
        Some(OwnText::Help)
    } else if word == b"--version".as_slice() {
        Some(OwnText::Version)
    } else {
        None
    }
}

/// The text that the words of a command line ask for, of which the first is the program's name.
pub fn text_asked(words: &[String]) -> Option<OwnText>
    /// `--help` or `--version`, as the only word behind the program's name, asks for a text, and no other words do.
    ensures { result ≡ text_asked (map string_bytes words.now) }
{
    match words {
        [_, word] => text_of(word.as_bytes()),
        _ => None,
    }
}

/// Writes how the program is called.
fn write_help<W: Write>(to: &mut W) -> io::Result<()>
    ensures { OnOk result (Appends (W.contents to.old) (W.contents to.new) help_text) }
{
    to.write_all(
        b"usage: saned --config PATH [--users PATH --seed HEX64] [--port N] [--data-ports FROM-TO]\n",
    )?;
    to.write_all(
        b"             [--byte-order little|big] [--pad-strings] [--sessions N] [--idle-turns N]\n",
    )?;
    to.write_all(
        b"Serves the scanners of a config to clients on 127.0.0.1; saned(8) tells each option.\n",
    )
}

impl OwnText {
    /// Writes the text.
    pub fn tell<W: Write>(self, to: &mut W) -> io::Result<()>
        /// Just that text is written, whole, unless the writer fails.
        ensures { OnOk result (Appends (W.contents to.old) (W.contents to.new) (own_text self)) }
    {
        match self {
            OwnText::Help => write_help(to),
            OwnText::Version => to.write_all(b"saned (Jufteard) 1.0.0\n"),
        }
    }
}
