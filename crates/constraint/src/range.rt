ghost use Rattle.std.specs.Prelude.{◌≡◌, ◌-ℤ◌};
ghost use Rattle.constraint.specs.NearestComputed.{height};

use std::marker::Model;

/// The words `min + k * quant` up to `max`, or all of `min` to `max` where `quant` is 0 (SANE Standard
/// 1.06, "Option Descriptors"). Contracts see its three words.
#[derive(Clone, Copy, Debug, PartialEq, Eq)]
pub struct Range {
    min: i32,
    max: i32,
    quant: i32,
}

impl Model for Range {
    ghost use Rattle.constraint.specs.Admitted.{Bounds, IsRange};

    ghost Value = { Bounds };

    ghost view = { λ r. record { min = r.min; max = r.max; quant = r.quant } };

    ghost inverse = { λ b. record { min = b.min; max = b.max; quant = b.quant } };

    ghost invariant = { λ r. IsRange (record { min = r.min; max = r.max; quant = r.quant }) };
}

/// How far a word lies above another, 0 where it does not.
fn height(low: i32, word: i32) -> u32
    ensures value { result ≡ height (word -ℤ low) }
{
    if word > low { word.abs_diff(low) } else { 0 }
}

impl Range {
    ghost use Rattle.std.specs.Prelude.{◌≡◌, ◌≤◌, ◌<◌, ◌^◌, ◌*◌, ◌+ℤ◌, ◌↔◌, ◌<ℤ◌, ◌⊎◌, pos, map, FitsSigned, IfSome, IsNone};
    ghost use Rattle.std.specs.Int.{w32};
    ghost use Rattle.constraint.specs.Admitted.{IsRange};
    ghost use Rattle.constraint.specs.Nearest.{NearestInRange, PlaceByPlace, FlagsDifference};
    ghost use Rattle.constraint.specs.NearestComputed.{step_of, steps_to, nearest_in_range};

    /// The range of these words; `None` where `min` is above `max` or `quant` is negative.
    pub fn new(min: i32, max: i32, quant: i32) -> Option<Range>
        ensures some { IfSome result (λ range. range
            ≡ record { min = min; max = max; quant = quant }) }
        ensures none { IsNone result ↔ ((max <ℤ min) ⊎ (quant <ℤ pos 0)) }
    {
        if min > max || quant < 0 {
            None
        } else {
            Some(Range { min, max, quant })
        }
    }

    /// The least word.
    pub fn min(&self) -> i32
        ensures value { result ≡ self.now.min }
        ensures keeps { IsRange self.now }
    {
        self.min
    }

    /// No admitted word is above it.
    pub fn max(&self) -> i32
        ensures value { result ≡ self.now.max }
        ensures keeps { IsRange self.now }
    {
        self.max
    }

    /// The distance of the admitted words, or 0 where all are admitted.
    pub fn quant(&self) -> i32
        ensures value { result ≡ self.now.quant }
        ensures keeps { IsRange self.now }
    {
        self.quant
    }

    /// The admitted word nearest to `word`, of two the greater, and whether it differs from `word`.
    pub fn nearest_word(&self, word: i32) -> (i32, bool)
        /// A range and a list give the nearest admitted word: no admitted word is closer, over all 32-bit words.
        ///
        /// Of two equally close ones a range gives the greater, and a list the one that it lists first.
        ensures nearest { NearestInRange self.now word result.0 }
        /// Each is flagged exactly where it differs from what was asked.
        /// Carried by: `differs` of `Range::nearest_word`, `WordList::nearest_word`, `StringList::match_string`
        ensures differs { FlagsDifference result.1 word result.0 }
        // The same as a computation, for definitions that go on from it.
        ensures value { result.0 ≡ nearest_in_range self.now word }
    {
        let nearest = self.nearest(word);
        (nearest, nearest != word)
    }

    fn nearest(&self, word: i32) -> i32
        ensures value { result ≡ nearest_in_range self.now word }
        ensures keeps { IsRange self.now }
    {
        (i64::from(self.min) + self.offset(word) as i64) as i32
    }

    /// How far the nearest admitted word lies above `min`.
    fn offset(&self, word: i32) -> u64
        ensures value { result ≡ steps_to self.now word * step_of self.now }
        ensures fits { FitsSigned w32 (self.now.min +ℤ pos result) }
        ensures below { result < 2 ^ 32 }
    {
        // Where `quant` is 0 all words are admitted: steps of 1.
        let step = u64::from(self.quant.unsigned_abs().max(1));
        let wanted = u64::from(height(self.min, word));
        let room = u64::from(height(self.min, self.max));
        ((2 * wanted + step) / (2 * step)).min(room / step) * step
    }

    /// Puts the nearest admitted word in each place, and says whether any differs.
    pub fn nearest_words(&self, words: &mut [i32]) -> bool
        /// A vector is given place by place.
        /// Carried by: `nearest_words`
        ensures nearest { PlaceByPlace (NearestInRange self.now) words.old words.new }
        ensures differs { FlagsDifference result words.old words.new }
        // The same as a computation, for definitions that go on from it.
        ensures value { words.new ≡ map (nearest_in_range self.now) words.old }
    {
        let mut differs = false;
        for word in words.iter_mut() {
            let (nearest, changed) = self.nearest_word(*word);
            *word = nearest;
            differs |= changed;
        }
        differs
    }
}
