//! The system's table of sockets, as Linux tells it in `/proc/net/tcp`.

ghost use Rattle.std.specs.Prelude.{◌≡◌, ◌≢◌, ◌<◌, ◌^◌, ◌∷◌, ◌++◌, [], ℕ, List, IfNone, IfOk, IfSome, MatchOption, decimal, map};
ghost use Rattle.std.specs.Net.Addr.{ipv4_octets};
ghost use Rattle.std.specs.Net.Socket.{v4_ip, v4_port};
ghost use Rattle.saned_cli.specs.SocketTable.{IsOwner, IsOwnedBy, end_text, held_lines, is_end_among, is_had, is_socket_to, is_in_field, is_socket_between, sockets_between};
ghost use Rattle.saned_cli.specs.TableReadings.{own_end_text};
ghost use Rattle.hex.specs.Hex.{encode_upper};

use crate::daemon_words::plain_number_of;
use crate::table_fields::field_at;
use std::alloc::{AllocError, Global};
use std::net::{Ipv4Addr, SocketAddrV4};
use text_lines::first_line;

/// The places of fields in a line: the socket's own end, its peer's, the user who owns it, and the number of its inode.
const OWN_END: usize = 1;

const PEER_END: usize = 2;

const USER: usize = 7;

const INODE: usize = 9;

/// The hexadecimal digits, in capitals.
const DIGITS: &[u8; 16] = b"0123456789ABCDEF";

/// A byte in hexadecimal digits.
fn byte_digits(byte: u8) -> [u8; 2]
    ensures { result ≡ encode_upper (byte ∷ []) }
{
    [
        DIGITS[usize::from(byte / 16)],
        DIGITS[usize::from(byte % 16)],
    ]
}

/// One end of a connection as the table writes it.
pub fn end_text(end: SocketAddrV4) -> [u8; 13]
    ensures { result ≡ end_text end }
{
    let [a, b, c, d] = end.ip().octets();
    let [a1, a0] = byte_digits(a);
    let [b1, b0] = byte_digits(b);
    let [c1, c0] = byte_digits(c);
    let [d1, d0] = byte_digits(d);
    let [p3, p2] = byte_digits((end.port() / 256) as u8);
    let [p1, p0] = byte_digits((end.port() % 256) as u8);
    [d1, d0, c1, c0, b1, b0, a1, a0, b':', p3, p2, p1, p0]
}

/// 127.0.0.1 and that port as the table writes it.
pub fn own_text(port: u16) -> [u8; 13]
    ensures { result ≡ own_end_text port }
{
    end_text(SocketAddrV4::new(Ipv4Addr::LOCALHOST, port))
}

/// Whether a line is of a socket that has these ends, its own and its peer's.
fn is_socket_between(own: &[u8], peer: &[u8], line: &[u8]) -> bool
    ensures { result ≡ is_socket_between own.now peer.now line.now }
{
    field_at(line, OWN_END) == Some(own) && field_at(line, PEER_END) == Some(peer)
}

/// Whether a line is of the peer's end of a connection whose ends are `peer` and `ours`.
pub fn is_between(line: &[u8], peer: SocketAddrV4, ours: SocketAddrV4) -> bool
    /// A line is of the peer's end of a connection just where its socket has that end, and ours as its peer's.
    ensures { result ≡ is_socket_between (end_text peer) (end_text ours) line.now }
{
    is_socket_between(&end_text(peer), &end_text(ours), line)
}

/// The first line of a socket that has these ends, and the text behind it.
fn next_between<'a>(own: &[u8], peer: &[u8], text: &'a [u8]) -> Option<(&'a [u8], &'a [u8])>
    ensures { MatchOption result (sockets_between own.now peer.now text.now ≡ [])
        (λ cut. sockets_between own.now peer.now text.now
        ≡ cut.0.now ∷ sockets_between own.now peer.now cut.1.now) }
{
    let mut rest = text;
    while let Some((line, after)) = first_line(rest) {
        if is_socket_between(own, peer, line) {
            return Some((line, after));
        }
        rest = after;
    }
    None
}

/// The line of the one socket that has these ends.
fn only_between<'a>(own: &[u8], peer: &[u8], table: &'a [u8]) -> Option<&'a [u8]>
    ensures some { IfSome result (λ line. sockets_between own.now peer.now table.now
        ≡ line.now ∷ []) }
    ensures none { IfNone result ((line : List ℕ)
        → sockets_between own.now peer.now table.now ≢ line ∷ []) }
{
    let (line, rest) = next_between(own, peer, table)?;
    match next_between(own, peer, rest) {
        None => Some(line),
        Some(_) => None,
    }
}

/// The user who owns the socket of a line, where somebody has it still.
pub fn owner_in(line: &[u8]) -> Option<u32>
    ensures some { IfSome result (λ user. IsOwnedBy line.now user) }
    ensures none { IfNone result ((user : ℕ) → user < 2 ^ 32 → ¬ IsOwnedBy line.now user) }
{
    let inode = field_at(line, INODE)?;
    if inode == b"0".as_slice() {
        return None;
    }
    let user = plain_number_of(field_at(line, USER)?)?;
    u32::try_from(user).ok()
}

/// The user who owns the peer's end of a connection whose ends are `peer` and `ours`, by the system's table of sockets. `None`
/// just where the table has no line of that end or more than one, or where nobody has that socket any more.
pub fn owner_of(table: &[u8], peer: SocketAddrV4, ours: SocketAddrV4) -> Option<u32>
    /// A user owns the peer's end of a connection just where the system's table of sockets has one line for that end, of a
    /// socket that a process has, with that user.
    ensures some { IfSome result (λ user. IsOwner table.now peer ours user) }
    ensures none { IfNone result
        ((user : ℕ) → user < 2 ^ 32 → ¬ IsOwner table.now peer ours user) }
{
    let line = only_between(&end_text(peer), &end_text(ours), table)?;
    owner_in(line)
}

/// Whether some process has the socket of a line.
fn is_had(line: &[u8]) -> bool
    ensures { result ≡ is_had line.now }
{
    match field_at(line, INODE) {
        Some(inode) => inode != b"0".as_slice(),
        None => false,
    }
}

/// Whether a line is of a socket of that user which has this peer's end.
pub fn is_socket_to(peer: &[u8], user: &[u8], line: &[u8]) -> bool
    ensures { result ≡ is_socket_to peer.now user.now line.now }
{
    field_at(line, PEER_END) == Some(peer) && field_at(line, USER) == Some(user) && is_had(line)
}

fn add<'a>(lines: &mut Vec<&'a [u8]>, line: &'a [u8]) -> Result<(), AllocError>
    ensures { IfOk result (λ _. map (λ line. line.now) lines.new.items
        ≡ map (λ line. line.now) lines.old.items ++ line.now ∷ []) }
{
    lines.push(line).map_err(|_| AllocError)
}

/// The lines of such sockets.
fn held_lines<'a>(
    alloc: Global,
    peer: &[u8],
    user: &[u8],
    table: &'a [u8],
) -> Result<Vec<&'a [u8]>, AllocError>
    ensures { IfOk result (λ lines. map (λ line. line.now) lines.items
        ≡ held_lines peer.now user.now table.now) }
{
    let mut lines = Vec::new(alloc);
    let mut rest = table;
    while let Some((line, after)) = first_line(rest) {
        if is_socket_to(peer, user, line) {
            add(&mut lines, line)?;
        }
        rest = after;
    }
    Ok(lines)
}

/// The lines of the table that are of that user's sockets whose peer's end is `ours`, and which some process has.
pub fn sockets_of<'a>(
    alloc: Global,
    table: &'a [u8],
    ours: SocketAddrV4,
    user: u32,
) -> Result<Vec<&'a [u8]>, AllocError>
    /// The sockets of a user that are connected to an end of ours are those whose lines name both, and which a process has.
    ensures { IfOk result (λ lines. map (λ line. line.now) lines.items
        ≡ held_lines (end_text ours) (decimal user) table.now) }
{
    let user = format!(in alloc; "{user}")?;
    held_lines(alloc, &end_text(ours), user.as_str().as_bytes(), table)
}

pub fn has_own_end(own: &[u8], line: &[u8]) -> bool
    ensures { result ≡ is_in_field 1 own.now line.now }
{
    field_at(line, OWN_END) == Some(own)
}

/// Whether one of the lines is of a socket whose own end is that.
fn is_end_among(own: &[u8], lines: &[&[u8]]) -> bool
    ensures { result ≡ is_end_among own.now (map (λ line. line.now) lines.now) }
{
    for line in lines {
        if has_own_end(own, line) {
            return true;
        }
    }
    false
}

/// Whether one of the lines is of the socket at that end of a connection.
pub fn is_among(lines: &[&[u8]], peer: SocketAddrV4) -> bool
    /// A connection's other end is among such lines just where one of them has it as its socket's own end.
    ensures { result ≡ is_end_among (end_text peer) (map (λ line. line.now) lines.now) }
{
    is_end_among(&end_text(peer), lines)
}
