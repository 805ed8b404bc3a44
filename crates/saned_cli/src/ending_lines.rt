ghost use Rattle.std.specs.Prelude.{◌++◌, codes};
ghost use Rattle.saned_cli.specs.Binding.{TellsLine};
ghost use Rattle.saned_cli.specs.DaemonLines.{refusal_text};

use crate::port_line::DaemonOutput;
use byte_output::put;
use itoa::Buffer;
use std::io::Write;

/// Writes a text.
pub fn write_text<W: Write>(out: &mut DaemonOutput<W>, text: &[u8])
    ensures { TellsLine text.now out.new.tally.failed
        (W.contents out.old.to) (W.contents out.new.to) }
{
    let _ = put(&mut out.to, text, &mut out.tally);
}

/// Writes a line of two parts.
pub fn write_line<W: Write>(out: &mut DaemonOutput<W>, start: &[u8], text: &[u8])
    ensures { TellsLine (start.now ++ (text.now ++ codes "\n")) out.new.tally.failed
        (W.contents out.old.to) (W.contents out.new.to) }
{
    if !put(&mut out.to, start, &mut out.tally) {
        return;
    }
    if !put(&mut out.to, text, &mut out.tally) {
        return;
    }
    write_text(out, b"\n");
}

/// Writes that the line of that number is refused, and why.
pub fn write_refusal<W: Write>(out: &mut DaemonOutput<W>, start: &[u8], line: u32, reason: &str)
    ensures { TellsLine (refusal_text start.now line reason.now) out.new.tally.failed
        (W.contents out.old.to) (W.contents out.new.to) }
{
    let mut digits = Buffer::new();
    let digits = digits.format(line).as_bytes();
    if !put(&mut out.to, start, &mut out.tally) {
        return;
    }
    if !put(&mut out.to, digits, &mut out.tally) {
        return;
    }
    write_line(out, b": ", reason.as_bytes());
}
