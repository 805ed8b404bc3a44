ghost use Rattle.std.specs.Prelude.{◌≡◌, ◌≤◌, ◌<◌, ◌^◌, ◌++◌, ℤ, Some, unsigned_abs, length, IfSome, IfNone, IfOk, OnOk, option_map};
ghost use Rattle.std.specs.Str.Parse.{AllDigits};
ghost use Rattle.sane_fixed.specs.Decimal.{sign_text, fraction_text, magnitude_of, word_of, SpellsFixed};
ghost use Rattle.sane_fixed.specs.ExactDecimal.{is_below_zero, IsExactDecimal, fraction_digits, exact_decimal};
ghost use Rattle.sane_fixed.specs.DecimalReading.{sign_at, whole_at, fraction_in, fixed_of};

use crate::digits::{digit_count, value_of_digits};
use crate::no_mem::NoMem;
use crate::text::Text;
use std::alloc::{AllocError, Global};

/// SANE's fixed number: the word over 65536 (SANE Standard 1.06, "Fixed-point Type").
///
/// **fixed number**: SANE's SANE_Fixed: a 32-bit word that stands for the word over 65536 ("Fixed-point Type").
#[derive(Clone, Copy, Debug, PartialEq, Eq)]
pub struct Fixed(pub i32);

/// Ten to the power of a few.
fn ten_to(exponent: usize) -> u64
    requires { exponent ≤ 16 }
    ensures value { result ≡ 10 ^ exponent }
    ensures limit { result ≤ 10 ^ 16 }
    ensures some { 1 ≤ result }
{
    let mut n = 1u64;
    for i in 0..exponent {
        n *= 10;
    }
    n
}

/// Whether a `-` stands first, and what follows it.
fn sign(text: &[u8]) -> (bool, &[u8])
    ensures sign { result.0 ≡ (sign_at text.now).0 }
    ensures rest { result.1.now ≡ (sign_at text.now).1 }
{
    match text {
        [b'-', rest @ ..] => (true, rest),
        _ => (false, text),
    }
}

/// The digits before a point, and what follows.
#[tactic(auto, unfolding(crate::specs::DecimalReading::whole_at))]
fn whole(bytes: &[u8]) -> Option<(&[u8], &[u8])>
    ensures value { option_map (λ f. (f.0.now, f.1.now)) result ≡ whole_at bytes.now }
    ensures digits { IfSome result (λ f. AllDigits 10 f.0.now) }
    ensures few { IfSome result (λ f. length f.0.now ≤ 9) }
{
    let count = digit_count(bytes);
    if 1 <= count && count <= 9 {
        Some(bytes.split_at(count))
    } else {
        None
    }
}

/// The digits of a fraction.
#[tactic(auto, unfolding(crate::specs::DecimalReading::fraction_in))]
fn fraction(bytes: &[u8]) -> Option<&[u8]>
    ensures value { option_map (λ f. f.now) result ≡ fraction_in bytes.now }
    ensures digits { IfSome result (λ f. AllDigits 10 f.now) }
    ensures few { IfSome result (λ f. length f.now ≤ 16) }
{
    match bytes {
        [] => Some(bytes),
        [b, digits @ ..] => {
            let count = digits.len();
            if *b == b'.' && digit_count(digits) == count && 1 <= count && count <= 16 {
                Some(digits)
            } else {
                None
            }
        }
    }
}

/// The word of that sign, if it fits.
fn word(negative: bool, magnitude: u128) -> Option<i32>
    ensures { result ≡ word_of negative magnitude }
{
    if negative {
        if magnitude <= 2147483648 {
            Some((0 - magnitude as i64) as i32)
        } else {
            None
        }
    } else if magnitude < 2147483648 {
        Some(magnitude as i32)
    } else {
        None
    }
}

/// The magnitude in units of 1/65536, rounded.
fn magnitude(whole: &[u8], fraction: &[u8]) -> u128
    requires whole_digits { AllDigits 10 whole.now }
    requires whole_few { length whole.now ≤ 9 }
    requires fraction_digits { AllDigits 10 fraction.now }
    requires fraction_few { length fraction.now ≤ 16 }
    ensures { result ≡ magnitude_of whole.now fraction.now }
{
    let unit = u128::from(ten_to(fraction.len()));
    let whole = u128::from(value_of_digits(whole));
    let units = whole * unit + u128::from(value_of_digits(fraction));
    (2 * (units * 65536) + unit) / (2 * unit)
}

/// The fixed number that a text spells, read from the left.
#[tactic(auto, unfolding(crate::specs::DecimalReading::fixed_of))]
fn read(text: &[u8]) -> Option<Fixed>
    ensures { option_map (λ f. f.0) result ≡ fixed_of text.now }
{
    let (negative, body) = sign(text);
    let (whole, rest) = whole(body)?;
    let fraction = fraction(rest)?;
    let word = word(negative, magnitude(whole, fraction))?;
    Some(Fixed(word))
}

/// `-` for a negative number.
fn sign_before(number: Fixed) -> &'static str
    ensures { result.now ≡ sign_text (is_below_zero number.0) }
{
    if number.0 < 0 { "-" } else { "" }
}

/// Writes a point and the digits of `rest / 65536`, up to the last that is not 0; nothing where `rest` is 0.
fn push_fraction(text: &mut Vec<u8>, rest: u32) -> Result<(), AllocError>
    requires { rest < 65536 }
    ensures { OnOk result (text.new.items
        ≡ text.old.items ++ fraction_text (fraction_digits 16 rest)) }
{
    if rest == 0 {
        return Ok(());
    }
    text.push(b'.')?;
    push_digits(text, rest)
}

/// Writes the digits of `rest / 65536` up to the last that is not 0, of which there are 16 at most.
fn push_digits(text: &mut Vec<u8>, rest: u32) -> Result<(), AllocError>
    requires { rest < 65536 }
    ensures { OnOk result (text.new.items ≡ text.old.items ++ fraction_digits 16 rest) }
{
    let mut rest = rest;
    for _place in 0..16usize {
        if rest == 0 {
            return Ok(());
        }
        text.push(b'0' + (rest * 10 / 65536) as u8)?;
        rest = rest * 10 % 65536;
    }
    Ok(())
}

/// The bytes of the number's exact decimal.
fn decimal_bytes(alloc: Global, number: Fixed) -> Result<Vec<u8>, AllocError>
    ensures value { IfOk result (λ bytes. bytes.items ≡ exact_decimal number.0) }
    ensures fits { unsigned_abs number.0 ≤ 2 ^ 31 }
{
    let sign = sign_before(number);
    let magnitude = number.0.unsigned_abs();
    let whole = magnitude / 65536;
    let mut bytes = format!(in alloc; "{sign}{whole}")?.into_bytes();
    push_fraction(&mut bytes, magnitude % 65536)?;
    Ok(bytes)
}

impl Fixed {
    /// The number that a text spells: an optional `-`, 1 to 9 digits, and optionally a point and
    /// 1 to 16 digits, rounded to the nearest word, halves away from zero. `None` for any other
    /// text, and where the word does not fit.
    pub fn parse(text: &[u8]) -> Option<Fixed>
        /// `Fixed::parse` gives the word that a decimal text spells by its grammar, rounded to the nearest, halves
        /// away from zero, and `None` exactly where it spells none.
        ensures found { IfSome result (λ fixed. SpellsFixed text.now fixed.0) }
        ensures none { IfNone result ((word : ℤ) → SpellsFixed text.now word → ⊥) }
        // The same as a computation, for definitions that go on from it.
        ensures value { option_map (λ fixed. fixed.0) result ≡ fixed_of text.now }
    {
        read(text)
    }

    /// The number's exact decimal. The only error is out of memory.
    pub fn to_text(self, alloc: Global) -> Result<Text, NoMem>
        /// `Fixed::to_text` gives the exact decimal of a number, which reads as that number. It has no leading zeros but a single
        /// one before the point, no zeros last behind the point, and no point in a whole number.
        ensures exact { IfOk result (λ text. IsExactDecimal text self.0) }
        ensures reads { IfOk result (λ text. fixed_of text ≡ Some self.0) }
        // The same as a computation, for definitions that go on from it.
        ensures value { IfOk result (λ text. text ≡ exact_decimal self.0) }
    {
        let bytes = decimal_bytes(alloc, self)?;
        Ok(Text::of(bytes))
    }
}
