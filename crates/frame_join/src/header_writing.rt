ghost use Rattle.std.specs.Prelude.{◌≡◌, ◌≤◌, ◌+◌, ◌++◌, length, decimal, vec_len, vec_capacity};
ghost use Rattle.netpbm.specs.Pnm.{magic};
ghost use Rattle.netpbm.specs.FileText.{header_text, maxval_text};

use netpbm::{Header, PnmFormat};

/// Room for any header.
pub(crate) const HEADER_ROOM: usize = 64;

/// Adds bytes for which there is room.
fn put_text(text: &mut Vec<u8>, bytes: &[u8])
    requires { vec_len text.old + length bytes.now ≤ vec_capacity text.old }
    ensures items { text.new.items ≡ text.old.items ++ bytes.now }
    ensures len { vec_len text.new ≡ vec_len text.old + length bytes.now }
    ensures room { vec_capacity text.old ≤ vec_capacity text.new }
{
    let _ = text.extend_from_slice(bytes);
}

/// Adds the digits of a number, for which there is room.
#[tactic(auto, using(crate::proofs::HeaderLemmas::one_digit, crate::proofs::HeaderLemmas::more_digits, crate::proofs::HeaderLemmas::one_length, crate::proofs::HeaderLemmas::more_length))]
fn put_digits(text: &mut Vec<u8>, n: u32)
    requires { vec_len text.old + length (decimal n) ≤ vec_capacity text.old }
    ensures items { text.new.items ≡ text.old.items ++ decimal n }
    ensures len { vec_len text.new ≡ vec_len text.old + length (decimal n) }
    ensures room { vec_capacity text.old ≤ vec_capacity text.new }
{
    if n < 10 {
        put_text(text, &[b'0' + n as u8]);
    } else {
        put_digits(text, n / 10);
        put_text(text, &[b'0' + (n % 10) as u8]);
    }
}

/// Adds a number, of at most ten digits.
#[tactic(auto, using(crate::proofs::HeaderLemmas::few_digits))]
fn put_number(text: &mut Vec<u8>, n: u32)
    requires { vec_len text.old + 10 ≤ vec_capacity text.old }
    ensures items { text.new.items ≡ text.old.items ++ decimal n }
    ensures len { vec_len text.new ≤ vec_len text.old + 10 }
    ensures room { vec_capacity text.old ≤ vec_capacity text.new }
{
    put_digits(text, n);
}

/// What a file of the format begins with.
fn magic(format: PnmFormat) -> &'static [u8]
    ensures { result.now ≡ magic format }
{
    match format {
        PnmFormat::Pbm => b"P4",
        PnmFormat::Pgm => b"P5",
        PnmFormat::Ppm => b"P6",
    }
}

/// Adds what stands for the greatest value.
#[tactic(auto, using(crate::proofs::HeaderLemmas::last_pieces))]
fn put_maxval(text: &mut Vec<u8>, format: PnmFormat, maxval: u32)
    requires { vec_len text.old + 11 ≤ vec_capacity text.old }
    ensures items { text.new.items ≡ text.old.items ++ maxval_text format maxval }
    ensures room { vec_capacity text.old ≤ vec_capacity text.new }
{
    match format {
        PnmFormat::Pbm => {}
        PnmFormat::Pgm | PnmFormat::Ppm => {
            put_number(text, maxval);
            put_text(text, b"\n");
        }
    }
}

/// Adds the header of a file. It takes no memory.
pub(crate) fn put_header(text: &mut Vec<u8>, header: &Header)
    requires { vec_len text.old + 64 ≤ vec_capacity text.old }
    ensures items { text.new.items ≡ text.old.items ++ header_text header.now }
    ensures room { vec_capacity text.old ≤ vec_capacity text.new }
{
    put_text(text, magic(header.format));
    put_text(text, b"\n# SANE data follows\n");
    put_number(text, header.width);
    put_text(text, b" ");
    put_number(text, header.height);
    put_text(text, b"\n");
    put_maxval(text, header.format, header.maxval);
}
