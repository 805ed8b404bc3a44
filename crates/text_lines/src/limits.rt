use thiserror::Error;

/// How many lines a text may have, and how many bytes a line.
#[derive(Clone, Copy, Debug, PartialEq, Eq)]
pub struct Limits {
    pub lines: u32,
    pub bytes: usize,
}

/// Why a line is beyond the limits, in the order of the tests.
#[derive(Clone, Copy, Debug, PartialEq, Eq, Error)]
pub enum LimitFault {
    /// The text has more lines than it may have.
    #[error("too many lines")]
    TooMany = 1,
    /// The line has more bytes than a line may have.
    #[error("line too long")]
    TooLong = 2,
}

const _: () = prove!(LimitFault::TooMany as u32 == 1);

const _: () = prove!(LimitFault::TooLong as u32 == 2);

impl Limits {
    ghost use Rattle.std.specs.Prelude.{OnOk, IfErr};
    ghost use Rattle.text_lines.specs.Limits.{IsWithin, BreaksLimit};

    /// Tests the line of that number, counted from 1: first the number, then the length, which is
    /// counted without what ends the line.
    pub fn admit(&self, number: u32, line: &[u8]) -> Result<(), LimitFault>
        /// Limits on a line are tested in their order.
        ensures within { OnOk result (IsWithin self.now number line.now) }
        ensures fault { IfErr result (λ fault. BreaksLimit fault self.now number line.now) }
    {
        if number > self.lines {
            return Err(LimitFault::TooMany);
        }
        if line.len() > self.bytes {
            return Err(LimitFault::TooLong);
        }
        Ok(())
    }
}
