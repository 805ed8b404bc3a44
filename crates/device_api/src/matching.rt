ghost use Rattle.std.specs.Prelude.{◌≡◌, ◌==◌, is_some, length, filter, map};
ghost use Rattle.std.specs.List.{list_any};
ghost use Rattle.std.specs.Str.{bytes_eq};
ghost use Rattle.constraint.specs.NearestComputed.{begins_with, nearest_entry};
ghost use Rattle.device_api.specs.Options.{choice_text};

use crate::choice::Choice;

/// Whether the choice's text begins with the text, without regard to ASCII case.
fn begins_with(choice: Choice, text: &[u8]) -> bool
    ensures { result ≡ begins_with (choice_text choice) text.now }
{
    match choice.text().as_bytes().get(..text.len()) {
        Some(front) => front.eq_ignore_ascii_case(text),
        None => false,
    }
}

/// Whether the text is that of a choice.
fn is_text(choices: &[Choice], text: &[u8]) -> bool
    ensures { result ≡ list_any (λ choice. bytes_eq (choice_text choice) text.now) choices.now }
{
    for choice in choices {
        if choice.text().as_bytes() == text {
            return true;
        }
    }
    false
}

/// Of how many choices the text is the beginning.
fn beginnings(choices: &[Choice], text: &[u8]) -> usize
    ensures { result
        ≡ length (filter (λ choice. begins_with (choice_text choice) text.now) choices.now) }
{
    let mut count = 0;
    for choice in choices {
        if begins_with(*choice, text) {
            count += 1;
        }
    }
    count
}

/// Whether a list of the choices' texts has an entry that the text is matched with. It takes no memory.
pub(crate) fn is_matched(choices: &[Choice], text: &[u8]) -> bool
    ensures { result ≡ is_some (nearest_entry (map choice_text choices.now) text.now) }
{
    is_text(choices, text) || beginnings(choices, text) == 1
}
