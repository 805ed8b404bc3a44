//! The words of the command line, each option with its value.

ghost use Rattle.std.specs.Prelude.{◌≡◌, ◌≢◌, ◌<◌, ◌↔◌, ◌++◌, ◌^◌, ◌∷◌, [], ℕ, Err, IfNone, IfOk, IfSome, IsTrue, None, Some, decimal, length, map, option_map, position, string_bytes};
ghost use Rattle.saned_cli.specs.OptionWords.{BeginsPlainly, is_pad_strings, is_long, words_joined, step_at_equals, with_word_step, word_step};
ghost use Rattle.text_lines.specs.Words.{is_equals};

use crate::daemon_options::DaemonOptionsFault;
use std::alloc::Global;

/// Whether a word is two dashes and a name.
fn is_long(word: &[u8]) -> bool
    ensures { result ≡ is_long word.now }
{
    matches!(word, [b'-', b'-', _, ..])
}

/// Whether a word is the flag.
pub fn is_pad_strings(word: &[u8]) -> bool
    ensures { result ≡ is_pad_strings word.now }
{
    word == b"--pad-strings".as_slice()
}

/// Where the first `=` stands.
fn place_of_equals(word: &[u8]) -> Option<usize>
    ensures place { result ≡ position is_equals word.now }
    ensures within { IfSome result (λ at. at < length word.now) }
{
    word.iter().position(|b| *b == b'=')
}

/// Whether a text begins with no sign, and with no zero but alone.
fn begins_plainly(text: &[u8]) -> bool
    ensures { IsTrue result ↔ BeginsPlainly text.now }
{
    1 <= text.len() && text[0] != b'+' && (text.len() == 1 || text[0] != b'0')
}

/// The number that a text writes: decimal digits, without a sign and without a leading zero but 0 itself.
pub fn plain_number(text: &str) -> Option<u64>
    ensures some { IfSome result (λ n. text.now ≡ decimal n) }
    ensures none { IfNone result ((n : ℕ) → n < 2 ^ 64 → text.now ≢ decimal n) }
{
    if begins_plainly(text.as_bytes()) {
        text.parse::<u64>().ok()
    } else {
        None
    }
}

/// The number that bytes write so.
pub fn plain_number_of(bytes: &[u8]) -> Option<u64>
    ensures some { IfSome result (λ n. bytes.now ≡ decimal n) }
    ensures none { IfNone result ((n : ℕ) → n < 2 ^ 64 → bytes.now ≢ decimal n) }
{
    match str::from_utf8(bytes) {
        Ok(text) => plain_number(text),
        Err(_) => None,
    }
}

fn add(alloc: Global, options: &mut Vec<String>, option: &str) -> Result<(), DaemonOptionsFault>
    ensures added { IfOk result (λ _. map string_bytes options.new.items
        ≡ map string_bytes options.old.items ++ option.now ∷ []) }
    ensures bad { result ≢ Err DaemonOptionsFault.Bad }
{
    let option = String::from_str(alloc, option)?;
    options.push(option).map_err(|_| DaemonOptionsFault::NoMem)
}

/// Takes one word in, where a name waits for its value or none does, and says what name waits then.
fn take_word<'a>(
    alloc: Global,
    options: &mut Vec<String>,
    waiting: Option<&'a str>,
    word: &'a str,
) -> Result<Option<&'a str>, DaemonOptionsFault>
    ensures taken { IfOk result (λ next. with_word_step (map string_bytes options.old.items)
        (word_step (option_map (λ name. name.now) waiting.entry) word.now)
        ≡ Some (map string_bytes options.new.items, option_map (λ name. name.now) next)) }
    ensures bad { result ≡ Err DaemonOptionsFault.Bad
        → word_step (option_map (λ name. name.now) waiting.entry) word.now ≡ None }
{
    if let Some(name) = waiting {
        if word.is_empty() {
            return Err(DaemonOptionsFault::Bad);
        }
        let option = format!(in alloc; "{name}={word}")?;
        add(alloc, options, option.as_str())?;
        return Ok(None);
    }
    if is_pad_strings(word.as_bytes()) {
        add(alloc, options, word)?;
        return Ok(None);
    }
    if !is_long(word.as_bytes()) {
        return Err(DaemonOptionsFault::Bad);
    }
    match place_of_equals(word.as_bytes()) {
        None => Ok(Some(word)),
        Some(at) if word.as_bytes()[at + 1..].is_empty() => Err(DaemonOptionsFault::Bad),
        Some(_) => {
            add(alloc, options, word)?;
            Ok(None)
        }
    }
}

/// The words as options `--NAME=VALUE` and flags. `Bad` where one stands in no option's place, and where a value is missing or empty.
pub fn words_joined(alloc: Global, words: &[String]) -> Result<Vec<String>, DaemonOptionsFault>
    ensures found { IfOk result (λ options. words_joined (map string_bytes words.now)
        ≡ Some (map string_bytes options.items)) }
    ensures bad { result ≡ Err DaemonOptionsFault.Bad
        → words_joined (map string_bytes words.now) ≡ None }
{
    let mut options = Vec::new(alloc);
    let mut waiting = None;
    for word in words {
        waiting = take_word(alloc, &mut options, waiting, word.as_str())?;
    }
    if waiting.is_none() {
        Ok(options)
    } else {
        Err(DaemonOptionsFault::Bad)
    }
}
