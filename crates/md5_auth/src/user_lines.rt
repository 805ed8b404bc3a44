ghost use Rattle.std.specs.Prelude.{◌≡◌, ◌↔◌, [], All, IsTrue, IfOk, IfErr, IfSome, IfNone, OnOk, MatchOption};
ghost use Rattle.sane_fixed.specs.Text.{IsText};
ghost use Rattle.md5_auth.specs.UserLines.{IsPrintable, HasTwoColons, AreFields, AreEntryFields, IsEntryLine, IsGood, HasReason, AddsEntry};

use crate::line_fault::LineReason;
use crate::texts::text_of;
use crate::users::Entry;
use sane_fixed::NoMem;
use std::alloc::Global;
use text_lines::{Limits, split_once};

const LIMITS: Limits = Limits {
    lines: 256,
    bytes: 256,
};

/// The fields of a line.
#[derive(Clone, Copy)]
struct UserFields<'a> {
    user: &'a [u8],
    password: &'a [u8],
    backend: &'a [u8],
}

/// Whether each byte is one of 20 to 7E (hexadecimal).
fn is_printable(line: &[u8]) -> bool
    ensures { IsTrue result ↔ All IsPrintable line.now }
{
    line.iter().all(|b| 0x20 <= *b && *b <= 0x7E)
}

/// The fields of a line with exactly two colons.
fn split_fields(line: &[u8]) -> Option<UserFields<'_>>
    ensures found { IfSome result
        (λ f. AreFields line.now f.user.now f.password.now f.backend.now) }
    ensures none { IfNone result (¬ HasTwoColons line.now) }
{
    let (user, rest) = split_once(line, b':')?;
    let (password, backend) = split_once(rest, b':')?;
    if backend.contains(&b':') {
        return None;
    }
    Some(UserFields {
        user,
        password,
        backend,
    })
}

/// Tests the line of that number, and gives its fields unless it is empty.
fn tested(number: u32, line: &[u8]) -> Result<Option<UserFields<'_>>, LineReason>
    ensures good { OnOk result (IsGood number line.now) }
    ensures fields { IfOk result (λ fields. MatchOption fields (line.now
        ≡ []) (λ f. AreEntryFields line.now f.user.now f.password.now f.backend.now)) }
    ensures fault { IfErr result (λ reason. HasReason reason number line.now) }
{
    LIMITS.admit(number, line)?;
    if !is_printable(line) {
        return Err(LineReason::BadByte);
    }
    if line.is_empty() {
        return Ok(None);
    }
    let Some(fields) = split_fields(line) else {
        return Err(LineReason::Colons);
    };
    if fields.user.is_empty() || fields.backend.is_empty() {
        return Err(LineReason::EmptyField);
    }
    Ok(Some(fields))
}

/// An entry with copies of the fields.
fn copied(alloc: Global, fields: UserFields<'_>) -> Result<Entry, NoMem>
    requires user { IsText fields.user.now }
    requires password { IsText fields.password.now }
    requires backend { IsText fields.backend.now }
    ensures user { IfOk result (λ entry. entry.user ≡ fields.entry.user.now) }
    ensures password { IfOk result (λ entry. entry.password ≡ fields.entry.password.now) }
    ensures backend { IfOk result (λ entry. entry.backend ≡ fields.entry.backend.now) }
{
    Ok(Entry {
        user: text_of(alloc, fields.user)?,
        password: text_of(alloc, fields.password)?,
        backend: text_of(alloc, fields.backend)?,
    })
}

/// Reads the line of that number: its entry, or nothing where it is empty.
pub fn read_line(alloc: Global, number: u32, line: &[u8]) -> Result<Option<Entry>, LineReason>
    ensures good { OnOk result (IsGood number line.now) }
    ensures entry { IfOk result
        (λ entry. MatchOption entry (line.now ≡ []) (λ e. IsEntryLine line.now e)) }
    ensures fault { IfErr result (λ reason. HasReason reason number line.now) }
{
    let Some(fields) = tested(number, line)? else {
        return Ok(None);
    };
    Ok(Some(copied(alloc, fields)?))
}

/// Reads the line of that number, and puts its entry, if it has one, after the others.
pub fn push_line(
    alloc: Global,
    entries: &mut Vec<Entry>,
    number: u32,
    line: &[u8],
) -> Result<(), LineReason>
    ensures good { OnOk result (IsGood number line.now) }
    ensures entry { OnOk result (AddsEntry line.now entries.old.items entries.new.items) }
    ensures fault { IfErr result (λ reason. HasReason reason number line.now) }
{
    if let Some(entry) = read_line(alloc, number, line)? {
        entries.push(entry)?;
    }
    Ok(())
}
