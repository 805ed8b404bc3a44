ghost use Rattle.std.specs.Prelude.{◌≡◌, ◌≤◌, length};
ghost use Rattle.constraint.specs.NearestComputed.{closer, nearest_in_list};

use sane_fixed::NoMem;
use std::alloc::Global;
use std::marker::Model;

/// The words that an option may have, 1 to 1,023 of them (SANE Standard 1.06, "Option Descriptors").
/// Contracts see the list.
#[derive(Debug, Drop)]
pub struct WordList {
    words: Vec<i32>,
}

impl Model for WordList {
    ghost use Rattle.std.specs.Prelude.{List, ℤ, length};
    ghost use Rattle.constraint.specs.Admitted.{HasRoom};

    ghost Value = { List ℤ };

    ghost view = { λ l. l.words.items };

    ghost invariant = { λ l. HasRoom (length l.words.items) };
}

impl PartialEq for WordList {
    ghost use Rattle.std.specs.Cmp.Lexicographic.{pointwise};
    ghost use Rattle.std.specs.Ordering.{int_eq};
    ghost use Rattle.std.proofs.Common.{rules};
    ghost use Rattle.std.specs.Cmp.Rules.{comparing};

    ghost eq = { pointwise int_eq };

    ghost laws = { Prim.search (comparing, rules) };

    fn eq(&self, other: &WordList) -> bool {
        self.words == other.words
    }
}

impl Eq for WordList {
    ghost use Rattle.std.proofs.Common.{rules};
    ghost use Rattle.std.specs.Cmp.Rules.{comparing};

    ghost laws = { Prim.search (comparing, rules) };
}

/// The closer of two words, the first where they are equally close.
fn closer(word: i32, best: i32, entry: i32) -> i32
    ensures { result ≡ closer word best entry }
{
    if word.abs_diff(entry) < word.abs_diff(best) {
        entry
    } else {
        best
    }
}

/// The entry nearest to `word`, of two the first.
fn nearest_of(entries: &[i32], word: i32) -> i32
    requires { 1 ≤ length entries.now }
    ensures { result ≡ nearest_in_list entries.now word }
{
    let mut nearest = entries[0];
    for entry in entries {
        nearest = closer(word, nearest, *entry);
    }
    nearest
}

impl WordList {
    ghost use Rattle.std.specs.Prelude.{◌≡◌, ◌↔◌, ◌<◌, ◌⊎◌, map, length, vec_len, IfSome, IfOk, IsNone};
    ghost use Rattle.constraint.specs.Admitted.{HasRoom};
    ghost use Rattle.constraint.specs.Nearest.{NearestInList, PlaceByPlace, FlagsDifference};
    ghost use Rattle.constraint.specs.NearestComputed.{nearest_in_list};

    /// The list of these words; `None` where there is none, or more than 1,023.
    pub fn new(words: Vec<i32>) -> Option<WordList>
        ensures some { IfSome result (λ list. list ≡ words.items) }
        ensures none { IsNone result ↔ ((vec_len words ≡ 0) ⊎ (1023 < vec_len words)) }
    {
        if words.is_empty() || words.len() > 1023 {
            None
        } else {
            Some(WordList { words })
        }
    }

    /// The words in their order.
    pub fn as_slice(&self) -> &[i32]
        ensures value { result.now ≡ self.now }
        ensures keeps { HasRoom (length self.now) }
    {
        self.words.as_slice()
    }

    /// An equal list. The only error is out of memory.
    pub fn try_clone(&self, alloc: Global) -> Result<WordList, NoMem>
        ensures { IfOk result (λ list. list ≡ self.now) }
    {
        let words = Vec::from_slice(alloc, self.words.as_slice())?;
        Ok(WordList { words })
    }

    /// The entry nearest to `word`, of two the first listed, and whether it differs from `word`.
    pub fn nearest_word(&self, word: i32) -> (i32, bool)
        ensures nearest { NearestInList self.now word result.0 }
        ensures differs { FlagsDifference result.1 word result.0 }
        // The same as a computation, for definitions that go on from it.
        ensures value { result.0 ≡ nearest_in_list self.now word }
    {
        let nearest = nearest_of(self.words.as_slice(), word);
        (nearest, nearest != word)
    }

    /// Puts the nearest entry in each place, and says whether any differs.
    pub fn nearest_words(&self, words: &mut [i32]) -> bool
        ensures nearest { PlaceByPlace (NearestInList self.now) words.old words.new }
        ensures differs { FlagsDifference result words.old words.new }
        // The same as a computation, for definitions that go on from it.
        ensures value { words.new ≡ map (nearest_in_list self.now) words.old }
    {
        let mut differs = false;
        for word in words.iter_mut() {
            let (nearest, changed) = self.nearest_word(*word);
            *word = nearest;
            differs |= changed;
        }
        differs
    }
}
