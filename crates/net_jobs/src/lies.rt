//! What the promises on a job's moves refuse.

ghost use Rattle.std.specs.Prelude.{◌≡◌, ◌≢◌, [], ◌∷◌, ℕ, List, true};
ghost use Rattle.net_jobs.specs.JobJournal.{JobMove, PortsAreTold};
ghost use Rattle.net_jobs.specs.JobJournal.JobMove.{Writes, Prepares, Dials};

/// A port that is told too often, or of no request, is not told once.
pub fn a_told_port_is_no_lie()
    /// The port of each of two frames may be told, each behind its request, where a data connection was asked for between
    /// them.
    ensures met { (one other : ℕ) (asks : List ℕ) → asks ≢ [] → PortsAreTold
        (Prepares other ∷ Writes asks ∷ Dials one true ∷ Prepares one ∷ Writes asks ∷ []) }
    /// It may not be told twice with none asked for in between, though something more is asked for.
    ensures twice { (port : ℕ) (asks : List ℕ)
        → PortsAreTold (Prepares port ∷ Writes asks ∷ Prepares port ∷ Writes asks ∷ []) → ⊥ }
    /// Nor may it be told where nothing was asked for.
    ensures unasked { (port : ℕ) → PortsAreTold (Prepares port ∷ Writes [] ∷ []) → ⊥ }
{}
