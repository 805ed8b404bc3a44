ghost use Rattle.std.specs.Prelude.{◌≡◌, ◌<◌, ◌+◌, ◌%◌, ◌^◌, ℕ, List, IfOk, OnOk, OnErr};
ghost use Rattle.md5_auth.specs.Challenges.{word_digits, digits_from, challenge_at, HasGiven};

use crate::texts::text_of;
use rand_chacha::ChaCha20Rng;
use rand_core::SeedableRng;
use rand_core::utils::NextWord;
use sane_fixed::{NoMem, Text};
use std::alloc::Global;
use std::marker::Model;

/// Makes one challenge after another from a seed.
#[derive(Drop)]
pub struct Challenger {
    words: ChaCha20Rng,
}

impl Model for Challenger {
    ghost use Rattle.rand_chacha.specs.ChaCha.{ChaCha};

    ghost Value = { ChaCha };

    ghost view = { λ challenger. challenger.words };
}

/// The word's 8 lower-case hexadecimal digits.
fn word_digits(word: u32) -> [u8; 8]
    ensures { result ≡ word_digits word }
{
    let mut digits = [0; 8];
    let _ = hex::encode_to_slice(&word.to_be_bytes(), &mut digits);
    digits
}

/// The digits of the next four words.
fn next_digits(words: &mut ChaCha20Rng) -> [u8; 32]
    requires { words.old.word_pos < 2 ^ 68 }
    ensures value { result ≡ digits_from words.old.key words.old.stream words.old.word_pos 4 }
    ensures words { words.new ≡ record words.old { word_pos = (words.old.word_pos + 4) % 2 ^ 68 } }
{
    let mut digits = [0; 32];
    for i in 0..4 {
        let word = words.next_word();
        digits[8 * i..8 * i + 8].copy_from_slice(&word_digits(word));
    }
    digits
}

impl Challenger {
    /// The challenges of a seed, from the first on.
    pub fn new(seed: [u8; 32]) -> Self
        ensures { HasGiven seed 0 result }
    {
        Challenger {
            words: ChaCha20Rng::from_seed(seed),
        }
    }

    /// The next challenge: four words of the stream that ChaCha20 gives from the seed, each as 8
    /// lower-case hexadecimal digits. Where memory runs out nothing is lost: the same challenge is
    /// still the next one.
    pub fn next(&mut self, alloc: Global) -> Result<Text, NoMem>
        /// The k-th challenge is made of the k-th four words of the seed's stream; one that finds no memory is not
        /// lost.
        ensures text { (seed : List ℕ) (k : ℕ)
            → HasGiven seed k self.old → IfOk result (λ text. text ≡ challenge_at seed k) }
        ensures ok { (seed : List ℕ) (k : ℕ)
            → HasGiven seed k self.old → OnOk result (HasGiven seed (k + 1) self.new) }
        ensures err { OnErr result (self.new ≡ self.old) }
    {
        let place = self.words.get_word_pos();
        let digits = next_digits(&mut self.words);
        let text = text_of(alloc, &digits);
        if text.is_err() {
            self.words.set_word_pos(place);
        }
        text
    }
}
