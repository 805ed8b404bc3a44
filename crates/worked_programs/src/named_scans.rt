//! Scans of one dot by the words `-d`, `-o` and `-b`.
ghost use Rattle.worked_programs.specs.FiledDot.{DotIsFiled, DotIsUnfiled};
ghost use Rattle.worked_programs.specs.KeptPages.{TwoAreKept};
ghost use Rattle.worked_programs.specs.SecondDot.{SecondIsMissed, SecondIsPrinted};

/// The second of two flatbeds.
#[tactic(none)]
pub fn the_second_is_printed()
    /// With `-d flatbed:1` and the lines of two flatbeds it prints the file of the first dot of the second page, which is 200.
    /// Carried by: `well` of `the_second_is_printed`: `SecondIsPrinted`
    ensures well { SecondIsPrinted }
    /// Otherwise it ends with 10, 65 or 9, tells why, and has not printed that file, nor anything that begins with it.
    /// Carried by: `otherwise` of `the_second_is_printed`: `SecondIsMissed`
    ensures otherwise { SecondIsMissed }
{}

/// A file of that name.
#[tactic(none)]
pub fn a_dot_is_filed()
    /// With `-o dot.pnm` one file is named, `dot.pnm`, whose write calls took exactly the bytes that `make demo` prints. Standard
    /// output and standard error took nothing.
    /// Carried by: `well` of `a_dot_is_filed`: `DotIsFiled`
    ensures well { DotIsFiled }
    /// Otherwise it ends with 10, 65 or 9, and tells why. No file of that name took those bytes, nor any that begin with them.
    /// Carried by: `otherwise` of `a_dot_is_filed`: `DotIsUnfiled`
    ensures otherwise { DotIsUnfiled }
{}

/// A batch of two pages.
#[tactic(none)]
pub fn two_are_kept()
    /// With `-b --batch-count 2` and the line of a feeder with three pages, two files are kept on the shelf, numbers 1 and 2, of
    /// the first dots of the first two pages. Nothing else was written.
    /// Carried by: `two_are_kept`: `TwoAreKept`
    ensures { TwoAreKept }
{}
