//! Formats of bytes that come in pieces: which texts spell which values, and how texts are read from the left.
#![tactic(auto)]

mod bytes;
mod fault;
mod laws;
mod limit;
mod sequence;
mod word;
mod writer_laws;
mod writing;

pub use bytes::{all_from, byte_between, run};
pub use fault::{Fault, MissingBytes, ReadError, ReadStop, WriteError};
pub use laws::{
    HasSpelling, HasSpellingBehind, KindOfWord, Readable, bytes_between_are_lawful,
    no_spelling_is_a_proper_prefix, nothing_is_lawful, one_after_another_is_lawful,
    one_fault_stands_first, one_text_spells_one_value, reading_keeps_a_limit, runs_are_lawful,
    values_at_places_are_lawful, what_is_refused_reads, words_between_are_lawful,
    words_of_a_kind_are_lawful,
};
pub use limit::{front, past_limit, used_bytes};
pub use sequence::{Encoder, Reader, is_any_long, places, put_all};
pub use word::{Word, one_more, part_stops, split_word, word_between};
pub use writer_laws::{
    HasWriting, HasWritingBehind, MadeOf, NumberedKind, bytes_between_are_written,
    nothing_is_written, one_after_another_is_written, runs_are_written,
    values_at_places_are_written, what_is_made_of_another_is_written,
    what_is_refused_is_not_written, what_is_written_is_spelled, words_between_are_written,
    words_of_a_kind_are_written, writing_keeps_a_limit,
};
pub use writing::{is_past, put_byte_between, put_run, put_word, put_word_between};
