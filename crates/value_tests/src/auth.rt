use md5_auth::{Challenger, LineFault, LineReason, Users, answer, check};
use std::alloc::{AllocError, Global};
use std::test::Fail;

/// Whether a resource with a password has that answer.
fn is_answer(alloc: Global, resource: &[u8], password: &[u8], expected: &[u8]) -> bool {
    match answer(alloc, resource, password) {
        Ok(Some(text)) => text.as_bytes() == expected,
        _ => false,
    }
}

/// The test suite of RFC 1321, appendix A.5: messages and their digests.
const DIGESTS: &[(&[u8], &[u8])] = &[
    (b"", b"$MD5$d41d8cd98f00b204e9800998ecf8427e"),
    (b"a", b"$MD5$0cc175b9c0f1b6a831c399e269772661"),
    (b"abc", b"$MD5$900150983cd24fb0d6963f7d28e17f72"),
    (b"message digest", b"$MD5$f96b697d7cb7938d525a2f31aaf161d0"),
    (
        b"abcdefghijklmnopqrstuvwxyz",
        b"$MD5$c3fcd3d76192e4007dfb496cca67e13b",
    ),
    (
        b"ABCDEFGHIJKLMNOPQRSTUVWXYZabcdefghijklmnopqrstuvwxyz0123456789",
        b"$MD5$d174ab98d277d9f5a5611c2c9f419d9f",
    ),
    (
        b"12345678901234567890123456789012345678901234567890123456789012345678901234567890",
        b"$MD5$57edf4a22be3c955ac49da2e2107b67a",
    ),
];

/// The answer that the password `bc` gives to the challenge `a`.
const RIGHT: &[u8] = b"$MD5$900150983cd24fb0d6963f7d28e17f72";

#[test]
fn answers_to_resources(rt: HostRuntime) -> Result<(), Fail> {
    for (message, digest) in DIGESTS {
        assert!(rt; is_answer(rt.alloc(), b"flatbed$MD5$", message, digest));
    }
    assert!(rt; is_answer(rt.alloc(), b"flatbed$MD5$a", b"bc", RIGHT));
    // The first mark counts: the challenge is `b$MD5$c`.
    let second = b"$MD5$ef4f5cd492ca9e59b46b17397a239743";
    assert!(rt; is_answer(rt.alloc(), b"x$MD5$b$MD5$c", b"pw", second));
    // MD5 of 128 letters and the password; no more letters count.
    let mut long = Vec::from_slice(rt.alloc(), b"flatbed$MD5$")?;
    long.extend_from_slice(&[b'a'; 128])?;
    let of_128 = b"$MD5$3c1706716898cfa4e66aa208eebe08c1";
    assert!(rt; is_answer(rt.alloc(), &long, b"pw", of_128));
    long.extend_from_slice(b"more")?;
    assert!(rt; is_answer(rt.alloc(), &long, b"pw", of_128));
    assert!(rt; answer(rt.alloc(), b"flatbed$MD5", b"bc")?.is_none());
    Ok(())
}

/// The stream of a zero key (RFC 8439, appendix A.1, test vector 1), each word highest byte first.
const OF_A_ZERO_SEED: &[&[u8]] = &[
    b"ade0b876903df1a0e56a5d4028bd8653",
    b"b819d2bd1aed8da0ccef36a8c70d778b",
    b"7c5941da8d4857513fe02477374ad8b8",
];

#[test]
fn challenges_of_a_zero_seed(rt: HostRuntime) -> Result<(), Fail> {
    let mut challenger = Challenger::new([0; 32]);
    for expected in OF_A_ZERO_SEED {
        let challenge = challenger.next(rt.alloc())?;
        assert!(rt; challenge.as_bytes() == *expected);
    }
    Ok(())
}

/// So many copies of a byte, and then another text.
fn repeated(alloc: Global, byte: u8, count: usize, last: &[u8]) -> Result<Vec<u8>, AllocError> {
    let mut text = vec![in alloc; byte; count]?;
    text.extend_from_slice(last)?;
    Ok(text)
}

/// A text of users, its first refused line, and why it is refused.
const REFUSED: &[(&[u8], u32, LineReason)] = &[
    (b"a:b", 1, LineReason::Colons),
    (b":p:flatbed", 1, LineReason::EmptyField),
    (b"a:b:c:d", 1, LineReason::Colons),
    // A comment is a line like any other.
    (b"\r\n\n# users", 3, LineReason::Colons),
    // A CR that no LF follows.
    (b"a:b:c\r", 1, LineReason::BadByte),
    // A bad byte before the colons, those before an empty field.
    (b"\t", 1, LineReason::BadByte),
    (b":::", 1, LineReason::Colons),
    // An earlier line before a later one.
    (b"a:b:c\n::\n\t", 2, LineReason::EmptyField),
];

/// A byte, how often it stands, what follows, and the line that is refused for that.
const LIMITS: &[(u8, usize, &[u8], u32, LineReason)] = &[
    (b'u', 253, b":p:\t", 1, LineReason::TooLong),
    (b'\n', 256, b"\t", 257, LineReason::TooMany),
];

#[test]
fn lines_refused(rt: HostRuntime) -> Result<(), Fail> {
    for &(text, line, reason) in REFUSED {
        let fault = Users::parse(rt.alloc(), text).err();
        assert!(rt; fault == Some(LineFault { line, reason }));
    }
    for &(byte, count, last, line, reason) in LIMITS {
        let text = repeated(rt.alloc(), byte, count, last)?;
        let fault = Users::parse(rt.alloc(), &text).err();
        assert!(rt; fault == Some(LineFault { line, reason }));
    }
    let longest = repeated(rt.alloc(), b'u', 252, b":p:b\r\n")?;
    assert!(rt; Users::parse(rt.alloc(), &longest)?.needs(b"b"));
    let most = repeated(rt.alloc(), b'\n', 255, b"a:b:c")?;
    assert!(rt; Users::parse(rt.alloc(), &most)?.needs(b"c"));
    Ok(())
}

const USERS: &[u8] = b"ann:bc:hand\nbob:bc:hand\n\nann:xy:hand\n";

/// A user, a backend, the answer that is sent to the challenge `a`, and whether it is let in.
const SENT: &[(&[u8], &[u8], &[u8], bool)] = &[
    (b"ann", b"hand", RIGHT, true),
    (b"bob", b"hand", RIGHT, true),
    // The other password of the one is none of the other's.
    (b"ann", b"hand", OTHER, true),
    (b"bob", b"hand", OTHER, false),
    (b"eve", b"hand", RIGHT, false),
    (b"ann", b"hand", b"bc", false),
];

/// The answer that the password `xy` gives to that challenge.
const OTHER: &[u8] = b"$MD5$6b6f315d621b5b0ce58a743c15f6fcaa";

#[test]
fn who_is_let_in(rt: HostRuntime) -> Result<(), Fail> {
    let users = Users::parse(rt.alloc(), USERS)?;
    assert!(rt; users.needs(b"hand") && !users.needs(b"flatbed"));
    for (user, backend, sent, is_let_in) in SENT {
        assert!(rt; check(&users, user, backend, b"x$MD5$a", sent) == *is_let_in);
    }
    // No line names the backend.
    let one = Users::parse(rt.alloc(), b"ann:bc:hand")?;
    for sent in [RIGHT, b"bc", b""] {
        assert!(rt; !check(&one, b"ann", b"flatbed", b"flatbed$MD5$a", sent));
    }
    Ok(())
}

const REASONS: &[(LineReason, &str)] = &[
    (LineReason::TooMany, "line 7: too many lines"),
    (LineReason::TooLong, "line 7: line too long"),
    (LineReason::BadByte, "line 7: bad byte"),
    (LineReason::Colons, "line 7: wrong number of fields"),
    (LineReason::EmptyField, "line 7: empty field"),
    (LineReason::NoMem, "line 7: out of memory"),
];

#[test]
fn texts_of_faults(rt: HostRuntime) -> Result<(), Fail> {
    for (reason, text) in REASONS {
        let fault = LineFault {
            line: 7,
            reason: *reason,
        };
        let printed = format!(in rt.alloc(); "{fault}")?;
        assert!(rt; printed.as_str() == *text);
    }
    Ok(())
}
