//! The laws of formats. Each speaks of any format that meets the laws of reading.

ghost use Rattle.std.specs.Prelude.{◌≡◌, ◌≤◌, ◌++◌, ℕ, List, [], length, Ok, Err};
ghost use Rattle.wire_format.specs.declared.fault.Fault.{Fault as AnyFault};
ghost use Rattle.wire_format.specs.declared.fault.MissingBytes.{MissingBytes as AnyWanted};
ghost use Rattle.wire_format.specs.declared.fault.ReadStop.TheVariants.{More, Bad};
ghost use Rattle.wire_format.specs.Format.{Format, IsBytes, pure_format, fail_format, after, places, byte_between, run};
ghost use Rattle.wire_format.specs.WordKinds.{WordKind, IsKind, word_of_kind, between};
ghost use Rattle.wire_format.specs.Lawful.{SpellsFront, IsStillWaiting, still_missing, ReaderIsExact, Lawful};
ghost use Rattle.wire_format.specs.Limit.{limited_format, NeedsMore, IsNoStart, IsFirstFault};
ghost use Rattle.wire_format.specs.Laws.{WaitsWithinALimit};

use crate::fault::Fault;

/// Values with a format that meets the laws of reading. It may spell nothing.
pub trait Readable {
    ghost format: { Format Self };

    ghost reads: { ReaderIsExact format };
}

/// Values with a lawful format: one that spells something.
pub trait HasSpelling {
    ghost format: { Format Self };

    ghost lawful: { Lawful format };
}

/// Values with a lawful format behind each value of another type.
pub trait HasSpellingBehind<A> {
    ghost formats: { A → Format Self };

    ghost lawful: { (a : A) → Lawful (formats a) };
}

/// Values that a kind of words stands for.
pub trait KindOfWord: Sized {
    ghost kind: { WordKind Self };

    ghost lawful: { IsKind kind };
}

pub fn one_text_spells_one_value<A: Readable>()
    /// Each format keeps this: a value that is read is spelled, a spelling is read, whatever follows, and more is wanted only if
    /// a spelling has begun.
    /// Carried by: `ReaderIsExact`, `Lawful`, as the laws of `crates/wire_format/src/laws.rt` have them of any format
    ///
    /// One text spells at most one value.
    ensures { (text : List ℕ) (a b : A) → A.format.spells text a → A.format.spells text b → a ≡ b }
{}

pub fn no_spelling_is_a_proper_prefix<A: Readable>()
    /// No spelling is a proper prefix of another.
    ensures { (text more : List ℕ) (a b : A)
        → A.format.spells text a → A.format.spells (text ++ more) b → more ≡ [] }
{}

/// Fronts of the same bytes have the same fault.
pub fn one_fault_stands_first<A: Readable>()
    /// The fault is that of the first word or byte at which no spelling stands.
    ensures { (front rest other left : List ℕ) (f g : AnyFault) → IsBytes (front ++ rest) → front
        ++ rest ≡ other ++ left → A.format.spoils front f → A.format.spoils other g → f ≡ g }
{}

/// Nothing is a lawful format of a value that is known.
pub fn nothing_is_lawful<A>()
    ensures { (a : A) → Lawful (pure_format a) }
{}

/// A format that spells nothing meets the laws of reading.
pub fn what_is_refused_reads<A>(fault: Fault)
    ensures { ReaderIsExact (fail_format {A = A} fault) }
{}

/// One after another is a lawful format, where both are.
pub fn one_after_another_is_lawful<A: HasSpelling, B: HasSpellingBehind<A>>()
    /// Formats made of others keep these laws: one after another, at places, words and bytes between bounds, runs,
    /// and all within a limit.
    /// Carried by: `one_after_another_is_lawful`, `values_at_places_are_lawful`, `words_between_are_lawful`,
    /// `bytes_between_are_lawful`, `runs_are_lawful`, `reading_keeps_a_limit`
    ensures { Lawful (after A.format B.formats) }
{}

/// A value at each of `count` places is a lawful format.
pub fn values_at_places_are_lawful<A: HasSpelling>(count: u32)
    ensures { Lawful (places count A.format) }
{}

/// A word of a kind is a lawful format.
pub fn words_of_a_kind_are_lawful<A: KindOfWord>()
    ensures { Lawful (word_of_kind A.kind) }
{}

/// A word from `low` to `high` is a lawful format.
pub fn words_between_are_lawful(low: u32, high: u32, fault: Fault)
    requires { low ≤ high }
    ensures { Lawful (word_of_kind (between low high fault)) }
{}

/// A byte from `low` to `high` is a lawful format.
pub fn bytes_between_are_lawful(low: u8, high: u8)
    requires { low ≤ high }
    ensures { Lawful (byte_between low high) }
{}

/// A run of `count` bytes, none of them below `least`, is a lawful format.
pub fn runs_are_lawful(least: u8, count: usize)
    ensures { Lawful (run least count) }
{}

/// Reading at most `limit` bytes: the laws of reading, with what a limit makes of them.
pub fn reading_keeps_a_limit<A: Readable>(limit: usize)
    // What is read is spelled within the limit, and the rest stands behind it.
    ensures sound { (bytes rest : List ℕ) (a : A)
        → IsBytes bytes → (limited_format limit A.format).read bytes ≡ Ok (a, rest)
        → SpellsFront (limited_format limit A.format) bytes rest a }
    // What is spelled within the limit is read, whatever follows.
    ensures complete { (text rest : List ℕ) (a : A) → (limited_format limit A.format).spells text a
        → (limited_format limit A.format).read (text ++ rest) ≡ Ok (a, rest) }
    // More is wanted only within the limit, where some continuation is spelled.
    ensures more { (bytes : List ℕ) (wanted : AnyWanted)
        → IsBytes bytes → (limited_format limit A.format).read bytes ≡ Err (More wanted)
        → NeedsMore limit A.format bytes }
    // Until as many bytes as are wanted have come, nothing else is to be told, unless one is below the least.
    ensures waits { WaitsWithinALimit limit A.format }
    // A fault comes only where no front is a spelling, and the bytes are past the limit or begin none.
    ensures bad { (bytes : List ℕ) (fault : AnyFault) → (limited_format limit A.format).read bytes
        ≡ Err (Bad fault) → IsNoStart limit A.format bytes }
    // It is that of the first word or byte at which no spelling stands.
    ensures first { (bytes : List ℕ) (fault : AnyFault)
        → IsBytes bytes → (limited_format limit A.format).read bytes ≡ Err (Bad fault)
        → IsFirstFault limit A.format bytes fault }
{}
