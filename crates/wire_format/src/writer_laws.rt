//! The laws of writers: what is written is spelled, and what is refused is not.

ghost use Rattle.std.specs.Prelude.{◌≡◌, ◌≢◌, ◌↔◌, ◌≤◌, ℕ, List, true, Ok, Err};
ghost use Rattle.wire_format.specs.declared.fault.Fault.{Fault as AnyFault};
ghost use Rattle.wire_format.specs.declared.fault.Fault.TheVariants.{BadValue, TooLong};
ghost use Rattle.wire_format.specs.Format.{Format, pure_format, fail_format, after, map_format, places, byte_between, run};
ghost use Rattle.wire_format.specs.WordKinds.{WordKind, word_of_kind, between};
ghost use Rattle.wire_format.specs.Limit.{limited_format};
ghost use Rattle.wire_format.specs.Writer.{Writer, WritesFormat, encoding_or_fault, IsFirstPart, IsNumbering, write_nothing, write_none, write_after, write_by, IsMadeOf, write_places, write_word, write_byte, write_run, write_limited};

use crate::fault::Fault;

/// Values with a format and its writer.
pub trait HasWriting {
    ghost format: { Format Self };

    ghost writer: { Writer Self };

    ghost exact: { (a : Self) → WritesFormat format writer a };
}

/// Values with a format and its writer behind a part of theirs.
pub trait HasWritingBehind<A> {
    ghost part: { Self → A };

    ghost formats: { A → Format Self };

    ghost writers: { A → Writer Self };

    ghost exact: { (b : Self) → WritesFormat (formats (part b)) (writers (part b)) b };
}

/// Values that are made of others.
pub trait MadeOf<A> {
    ghost make: { A → Self };

    ghost part: { Self → A };
}

/// Values that a kind of words stands for, each with a number of its own.
pub trait NumberedKind: Sized {
    ghost kind: { WordKind Self };

    ghost number: { Self → ℕ };

    ghost exact: { IsNumbering kind number };
}

/// What a writer answers: a spelling of the value; `TooLong` exactly where a limit is passed; else
/// `BadValue`, and nothing spells the value.
pub fn what_is_written_is_spelled<A: HasWriting>()
    /// A writer writes a spelling, and tells a limit before a value that has none.
    /// Carried by: `what_is_written_is_spelled`, `writing_keeps_a_limit`
    ensures spelled { (a : A) (text : List ℕ)
        → encoding_or_fault A.writer a ≡ Ok text → A.format.spells text a }
    ensures too_long { (a : A)
        → (encoding_or_fault A.writer a ≡ Err TooLong) ↔ (A.writer.long a ≡ true) }
    ensures bad { (a : A) (fault : AnyFault) → encoding_or_fault A.writer a ≡ Err fault
        → fault ≢ TooLong → (fault ≡ BadValue) × ((text : List ℕ) → A.format.spells text a → ⊥) }
{}

/// Nothing is written of a value that is known.
pub fn nothing_is_written<A>()
    ensures { (a : A) → WritesFormat (pure_format a) write_nothing a }
{}

/// What is refused is not written.
pub fn what_is_refused_is_not_written<A>(fault: Fault)
    ensures { (a : A) → WritesFormat (fail_format fault) write_none a }
{}

/// One after another is written so, where each value's own part may stand first.
pub fn one_after_another_is_written<A: HasWriting, B: HasWritingBehind<A>>()
    ensures { (b : B) → IsFirstPart B.part A.format B.formats b
        → WritesFormat (after A.format B.formats) (write_after B.part A.writer B.writers) b }
{}

/// A value that is made of another is written as what it is made of.
pub fn what_is_made_of_another_is_written<A: HasWriting, B: MadeOf<A>>()
    ensures { (b : B) → IsMadeOf B.part A.format B.make b
        → WritesFormat (map_format B.make A.format) (write_by B.part A.writer) b }
{}

/// Values at `count` places are written so.
pub fn values_at_places_are_written<A: HasWriting>(count: u32)
    ensures { (all : List A)
        → WritesFormat (places count A.format) (write_places count A.writer) all }
{}

/// A word of a kind is written by its value's number.
pub fn words_of_a_kind_are_written<A: NumberedKind>()
    ensures { (a : A) → WritesFormat (word_of_kind A.kind) (write_word A.kind A.number) a }
{}

/// A word from `low` to `high` is written as it is.
pub fn words_between_are_written(low: u32, high: u32, fault: Fault)
    ensures { (n : ℕ) → WritesFormat (word_of_kind (between low high fault))
        (write_word (between low high fault) (λ n. n)) n }
{}

/// A byte from `low` to `high` is written as it is.
pub fn bytes_between_are_written(low: u8, high: u8)
    ensures { (b : ℕ) → WritesFormat (byte_between low high) (write_byte low high) b }
{}

/// A run of bytes is written as it is.
pub fn runs_are_written(least: u8, count: usize)
    ensures { (bytes : List ℕ) → WritesFormat (run least count) (write_run least count) bytes }
{}

/// A limit is kept by what is written; a value whose text goes past it is too long.
pub fn writing_keeps_a_limit<A: HasWriting>(limit: usize)
    ensures { (a : A)
        → WritesFormat (limited_format limit A.format) (write_limited limit A.writer) a }
{}
