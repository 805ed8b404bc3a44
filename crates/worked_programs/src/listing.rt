//! What scanimage prints of the words `-L`.
ghost use Rattle.worked_programs.specs.TwoListed.{TwoAreListed, TwoAreMissed};

/// The list of a flatbed and a hand scanner.
#[tactic(none)]
pub fn two_are_listed()
    /// With `-L` and the lines of a flatbed and a hand scanner, where it ends with 0, standard output took these two lines:
    /// ``device `flatbed:0' is a Virtual Flatbed flatbed scanner`` and ``device `hand:3' is a Virtual Hand handheld scanner``.
    /// Carried by: `well` of `two_are_listed`: `TwoAreListed`
    ensures well { TwoAreListed }
    /// Where it has read those lines and ends otherwise, it ends with 10, 65 or 9, and tells why.
    /// Carried by: `otherwise` of `two_are_listed`: `TwoAreMissed`
    ensures otherwise { TwoAreMissed }
{}
