ghost use Rattle.std.specs.Prelude.{◌≡◌, IfOk, IfSome};
ghost use Rattle.scanimage_cli.specs.Words.{AreWordsOf, IsWordAt};

use crate::word_cut::SplitFault;
use sane_fixed::{Text, TextFault};
use std::alloc::Global;
use std::env::{Env, FillError};

/// Linux gives a program no longer word.
const LONGEST_WORD: usize = 131_072;

/// The words of a command line, of which the first is the program's name.
pub trait WordSource {
    ghost use Rattle.std.specs.Prelude.{IfSome, List, None, Option, ℕ};
    ghost use Rattle.std.specs.Io.{WritesAtMost};
    ghost use Rattle.scanimage_cli.specs.Words.{TellsWord};

    // The words, where they are told.
    ghost words: { Self → Option (List (List ℕ)) } = { λ _. None };

    /// Copies the word of that number to the start of the room, and gives its length.
    fn word(&self, i: usize, room: &mut [u8]) -> Result<usize, FillError>
        /// A word is the one of that number, where the words are told.
        /// Carried by: `bound`, `told` of `word` of `WordSource`
        ensures bound { WritesAtMost result room.new }
        ensures told { IfSome (words self.now) (λ all. TellsWord all i result room.new) };
}

/// Those of the process, which tell nothing.
#[derive(Drop)]
pub struct HostWords<'a> {
    pub rt: &'a HostRuntime,
}

impl WordSource for HostWords<'_> {
    fn word(&self, i: usize, room: &mut [u8]) -> Result<usize, FillError> {
        self.rt.arg(i, room)
    }
}

/// A word of the command line as a text.
fn word(alloc: Global, bytes: &[u8]) -> Result<Text, SplitFault>
    ensures { IfOk result (λ text. text ≡ bytes.now) }
{
    Text::new(alloc, bytes).map_err(|fault| match fault {
        TextFault::Nul => SplitFault::Bad,
        TextFault::NoMem => SplitFault::NoMem,
    })
}

/// The word of that number, if there is one.
fn word_at<W: WordSource>(
    alloc: Global,
    env: &W,
    i: usize,
    room: &mut [u8],
) -> Result<Option<Text>, SplitFault>
    ensures { IfOk result (λ found. IfSome (W.words env.now) (λ all. IsWordAt all i found)) }
{
    match env.word(i, room) {
        Ok(n) => Ok(Some(word(alloc, &room[..n])?)),
        Err(FillError::NotPresent) => Ok(None),
        Err(FillError::TooLong) => Err(SplitFault::Bad),
    }
}

/// The words of the command line, without the program's name. They end at the first that is not there; a word
/// that cannot be had otherwise is `Bad`.
pub fn words_of<W: WordSource>(alloc: Global, env: &W) -> Result<Vec<Text>, SplitFault>
    /// The words are all those behind the program's name, in their order, where the command line tells them.
    /// Carried by: `words_of`: `AreWordsOf`
    ensures { IfOk result (λ words. AreWordsOf (W.words env.now) words.items) }
{
    let mut words = Vec::new(alloc);
    let mut room = vec![in alloc; 0u8; LONGEST_WORD].map_err(|_| SplitFault::NoMem)?;
    for i in 1..usize::MAX {
        let text = match word_at(alloc, env, i, room.as_mut_slice())? {
            Some(text) => text,
            None => return Ok(words),
        };
        words.push(text).map_err(|_| SplitFault::NoMem)?;
    }
    // No memory holds as many words.
    Err(SplitFault::NoMem)
}
