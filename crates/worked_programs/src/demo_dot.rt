//! The scan of one dot that `make demo` makes.
ghost use Rattle.std.specs.Prelude.{◌≡◌, ◌≢◌, ◌++◌, ℕ, IfSome, List};
ghost use Rattle.std.specs.Process.{exit_status as code_of};
ghost use Rattle.worked_programs.specs.DemoDot.{DotIsMissed, DotIsPrinted, DotIsWritten, demo_config, demo_file, demo_words};

use crate::given::{GivenText, Nowhere};
use sane_fixed::Text;
use scanimage_cli::{JobFiles, OutputTally, Outputs, Outside, exit_code};
use std::alloc::Global;
use std::process::ExitCode;

/// What scanimage prints for the words and the config of `make demo`.
#[tactic(none)]
pub fn a_dot_is_printed()
    /// `make demo` gives scanimage a line on standard input, of a flatbed with a page of the gray dots 10 and 200. Where it ends
    /// with 0, standard output took the lines `P5`, `# SANE data follows`, `1 1`, `255`, and the byte 10. Standard error took nothing.
    /// Carried by: `well` of `a_dot_is_printed`: `DotIsPrinted`
    ensures well { DotIsPrinted }
    /// Where it has read that line and ends otherwise, it ends with 10, 65 or 9, for want of memory or since an output failed. Then
    /// standard output does not hold those bytes, nor any that begin with them.
    /// Carried by: `otherwise` of `a_dot_is_printed`: `DotIsMissed`
    ensures otherwise { DotIsMissed }
    /// By the record of `program` the calls on standard output took those bytes then, and the calls on files none.
    /// Carried by: `written` of `a_dot_is_printed`: `DotIsWritten`
    ensures written { DotIsWritten }
{}

/// What a run of the program came to: its exit status, and what standard output and standard error took.
#[derive(Drop)]
pub struct Printed {
    pub status: ExitCode,
    pub out: Vec<u8>,
    pub err: Vec<u8>,
}

/// The text of these bytes.
fn text_of(alloc: Global, bytes: &[u8]) -> Option<Text>
    ensures { IfSome result (λ text. text ≡ bytes.now) }
{
    Text::new(alloc, bytes).ok()
}

/// The words of `make demo`.
fn demo_words(alloc: Global) -> Option<Vec<Text>>
    ensures { IfSome result (λ words. words.items ≡ demo_words) }
{
    let words = [
        text_of(alloc, b"--config")?,
        text_of(alloc, b"-")?,
        text_of(alloc, b"--resolution")?,
        text_of(alloc, b"26")?,
        text_of(alloc, b"--br-x")?,
        text_of(alloc, b"1")?,
        text_of(alloc, b"--br-y")?,
        text_of(alloc, b"1")?,
    ];
    Vec::from_array(alloc, words).ok()
}

/// Runs the program of `make demo`, with its words and its config, and answers what came.
pub fn scan_dot(alloc: Global) -> Option<Printed>
    /// Where it ends with 0, it has printed those bytes.
    ensures well { IfSome result (λ printed.
        code_of printed.status ≡ 0 → printed.out.items ≡ demo_file) }
    /// Where it ends otherwise, what it printed does not begin with them.
    ensures otherwise { IfSome result (λ printed. code_of printed.status ≢ 0
        → (more : List ℕ) → printed.out.items ≢ demo_file ++ more) }
{
    let words = demo_words(alloc)?;
    let mut outside = Outside {
        inputs: GivenText {
            text: b"flatbed 0 26 hex:50350a3220310a3235350a0ac8\n",
        },
        hosts: Nowhere,
    };
    let mut outputs = Outputs {
        out: Vec::new(alloc),
        err: Vec::new(alloc),
        files: JobFiles {
            named: Nowhere,
            shelf: Nowhere,
        },
        has_begun: false,
        tally: OutputTally::new(),
        errors: OutputTally::new(),
    };
    let status = exit_code(alloc, words.as_slice(), &mut outside, &mut outputs);
    let Outputs { out, err, .. } = outputs;
    Some(Printed { status, out, err })
}
