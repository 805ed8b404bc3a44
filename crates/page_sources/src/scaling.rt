ghost use Rattle.std.specs.Prelude.{ℕ, ◌≡◌, ◌≤◌, ◌<◌, ◌+◌, ◌*◌, ◌/◌, ◌^◌};

use std::marker::Model;

/// Takes numbers up to a greatest value of 1 to 65,535 as numbers up to 65,535. A division takes longer than all else that a
/// dot of a page needs, so that it is made once, and each number is multiplied.
#[derive(Drop)]
pub struct Scaling {
    maxval: u32,
    factor: u64,
}

/// A factor in parts of two bytes.
#[derive(Clone, Copy)]
pub struct Parts {
    pub upper: u16,
    pub middle: u16,
    pub lower: u16,
}

impl Model for Scaling {
    ghost Value = { ℕ };

    ghost view = { λ s. s.maxval };

    ghost invariant = { λ s. (1 ≤ s.maxval) × (s.maxval ≤ 65535)
        × (s.factor ≡ 65535 * 2 ^ 32 / s.maxval + 1) };
}

impl Scaling {
    /// For numbers up to `maxval`.
    pub fn new(maxval: u32) -> Self
        requires maxval { 1 ≤ maxval }
        requires most { maxval ≤ 65535 }
        ensures { result ≡ maxval }
    {
        let factor = (65535 << 32) / u64::from(maxval) + 1;
        Scaling { maxval, factor }
    }

    /// A number up to the greatest value as one up to 65,535.
    pub fn apply(&self, number: u32) -> u16
        requires { number ≤ self.now }
        ensures { result ≡ number * 65535 / self.now }
    {
        let product = u64::from(number) * self.factor;
        (product >> 32) as u16
    }

    /// The factor of whose products the upper part is the number up to 65,535.
    pub fn parts(&self) -> Parts
        ensures some { 1 ≤ self.now }
        ensures most { self.now ≤ 65535 }
        ensures factor { result.upper * 2 ^ 32 + result.middle * 2 ^ 16 + result.lower
            ≡ 65535 * 2 ^ 32 / self.now + 1 }
    {
        Parts {
            upper: (self.factor >> 32) as u16,
            middle: (self.factor >> 16 & 65535) as u16,
            lower: (self.factor & 65535) as u16,
        }
    }
}

/// The same for numbers of a byte each, by a factor of four bytes: eight of them are taken at once.
#[derive(Drop)]
pub struct ByteScaling {
    maxval: u32,
    upper: u16,
    lower: u16,
}

impl Model for ByteScaling {
    ghost Value = { ℕ };

    ghost view = { λ s. s.maxval };

    ghost invariant = { λ s. (1 ≤ s.maxval) × (s.maxval ≤ 255)
        × (s.upper * 2 ^ 16 + s.lower ≡ 65535 * 2 ^ 16 / s.maxval + 1) };
}

impl ByteScaling {
    /// For numbers up to `maxval`.
    pub fn new(maxval: u32) -> Self
        requires maxval { 1 ≤ maxval }
        requires most { maxval ≤ 255 }
        ensures { result ≡ maxval }
    {
        let factor = (65535 << 16) / maxval + 1;
        ByteScaling {
            maxval,
            upper: (factor >> 16) as u16,
            lower: (factor & 65535) as u16,
        }
    }

    /// A number up to the greatest value as one up to 65,535.
    #[inline(always)]
    pub fn apply(&self, number: u8) -> u16
        requires { number ≤ self.now }
        ensures { result ≡ number * 65535 / self.now }
    {
        let rest = u32::from(number) * u32::from(self.lower) >> 16;
        u16::from(number) * self.upper + rest as u16
    }
}
