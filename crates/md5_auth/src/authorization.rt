ghost use Rattle.std.specs.Prelude.{◌≡◌, ◌↔◌, ◌++◌, ℕ, List, None, option_map, IsTrue, IfOk, IfSome};
ghost use Rattle.sane_fixed.specs.Text.{IsText};
ghost use Rattle.md5.specs.Md5.{md5};
ghost use Rattle.md5_auth.specs.Allowed.{IsChallenge, IsAnswer, SentAllows, GivesAnswer, answer_text};
ghost use Rattle.md5_auth.specs.ChallengeReading.{challenge_of, answer_of};

use crate::texts::text_of;
use crate::users::{Entry, Users};
use md5::{Digest, Md5};
use sane_fixed::{NoMem, Text};
use std::alloc::Global;

/// What stands before a challenge, and before the digits of a digest.
const MARK: [u8; 5] = *b"$MD5$";

/// At most so many bytes of a resource are its challenge.
const LONGEST_CHALLENGE: usize = 128;

/// What follows the first `$MD5$` of a resource, of that at most 128 bytes.
fn challenge(resource: &[u8]) -> Option<&[u8]>
    ensures { option_map (λ c. c.now) result ≡ challenge_of resource.now }
{
    for start in 0..resource.len() {
        if let Some(after) = resource[start..].strip_prefix(&MARK) {
            return Some(&after[..after.len().min(LONGEST_CHALLENGE)]);
        }
    }
    None
}

/// The answer to a challenge: `$MD5$` and the digits of the digest.
fn answer_to(challenge: &[u8], password: &[u8]) -> [u8; 37]
    ensures { result ≡ answer_text (md5 (challenge.now ++ password.now)) }
{
    let mut hasher = Md5::new();
    hasher.update(challenge);
    hasher.update(password);
    let digest = hasher.finalize();
    let mut text = [0; 37];
    text[..5].copy_from_slice(&MARK);
    let _ = hex::encode_to_slice(&digest, &mut text[5..]);
    text
}

/// The answer to a resource with a password: `$MD5$` and the 32 lower-case hexadecimal digits of the
/// MD5 digest of the challenge followed by the password. `None` where the resource has no `$MD5$`.
pub fn answer(alloc: Global, resource: &[u8], password: &[u8]) -> Result<Option<Text>, NoMem>
    /// `answer` gives the digest of a resource's challenge and the password, and none exactly where the resource has
    /// no challenge.
    ensures found { IfOk result
        (λ answer. IfSome answer (λ text. IsAnswer text resource.now password.now)) }
    ensures none { (result ≡ Ok None)
        ↔ ((challenge : List ℕ) → ¬ IsChallenge resource.now challenge) }
    // The same as a computation, for definitions that go on from it.
    ensures value { IfOk result (λ answer. answer ≡ answer_of resource.now password.now) }
{
    let Some(challenge) = challenge(resource) else {
        return Ok(None);
    };
    Ok(Some(text_of(alloc, &answer_to(challenge, password))?))
}

/// Whether the entry is of the user and the backend, and its password gives this answer.
fn gives_answer(entry: &Entry, user: &[u8], backend: &[u8], challenge: &[u8], answer: &[u8]) -> bool
    ensures { IsTrue result ↔ GivesAnswer user.now backend.now challenge.now answer.now entry.now }
{
    entry.user.as_bytes() == user
        && entry.backend.as_bytes() == backend
        && answer_to(challenge, entry.password.as_bytes()).as_slice() == answer
}

/// Whether some line of the user and the backend allows them by the digest sent. Every line is
/// looked at, whichever fits. It takes no memory.
pub fn check(users: &Users, user: &[u8], backend: &[u8], resource: &[u8], answer: &[u8]) -> bool
    /// `check` is yes exactly where a line of that user and backend allows the digest that was sent.
    ensures { IsTrue result ↔ SentAllows users.now user.now backend.now resource.now answer.now }
{
    let Some(challenge) = challenge(resource) else {
        return false;
    };
    let mut allowed = false;
    for entry in users.entries() {
        if gives_answer(entry, user, backend, challenge, answer) {
            allowed = true;
        }
    }
    allowed
}
