ghost use Rattle.std.specs.Prelude.{◌≡◌, ◌≤◌, ◌<◌, ◌^◌, length};
ghost use Rattle.std.specs.Str.Parse.{digits_value, AllDigits};
ghost use Rattle.sane_fixed.specs.Digits.{digit_count};

/// How many decimal digits stand at the front.
pub fn digit_count(bytes: &[u8]) -> usize
    ensures count { result ≡ digit_count bytes.now }
    ensures within { result ≤ length bytes.now }
{
    for (i, b) in bytes.iter().enumerate() {
        if !b.is_ascii_digit() {
            return i;
        }
    }
    bytes.len()
}

/// The number that up to sixteen decimal digits stand for.
pub fn value_of_digits(digits: &[u8]) -> u64
    requires digits { AllDigits 10 digits.now }
    requires few { length digits.now ≤ 16 }
    ensures value { result ≡ digits_value 10 digits.now }
    ensures limit { result < 10 ^ 16 }
{
    let mut n = 0u64;
    for digit in digits {
        n = n * 10 + u64::from(*digit - b'0');
    }
    n
}
