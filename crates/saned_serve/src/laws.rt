//! Laws of a journal.

ghost use Rattle.std.specs.Prelude.{◌≡◌, ℕ, List, Option, [], ◌∷◌, ◌++◌, ◌<◌, None, false};
ghost use Rattle.dispatch.specs.Table.{TableInvariant};
ghost use Rattle.saned_core.specs.DaemonStates.{Core};
ghost use Rattle.saned_serve.specs.ConnectionTraces.{ConnectionTrace, trace_bytes_read, trace_bytes_written};
ghost use Rattle.saned_serve.specs.SessionActions.{SessionAction};
ghost use Rattle.saned_serve.specs.SessionActions.SessionAction.{Leaves, Opens};
ghost use Rattle.saned_serve.specs.Journal.{LoopAction, IsJournal, IsFront, DaemonRuns, most_sessions, open_sessions, projection_of};
ghost use Rattle.saned_serve.specs.Journal.LoopAction.{Of};
ghost use Rattle.saned_serve.specs.JournalSummary.{AreOpenSessions, IsInJournal, WasLeft};
ghost use Rattle.saned_serve.specs.HeldLeases.{HoldsApart};
ghost use Rattle.saned_serve.specs.Laws.{WasFedAll, NobodyActsAfterIt};

/// What the places of the actions come to, for each session of a journal. It was fed only what its control connection read, and
/// once it is left all of that. What that connection was rid of is a front of the session's replies. What its data connection was
/// rid of is a front of that one's records. Each session that was opened and does not stand was left, its control connection
/// handed back with just those calls.
pub fn connections_tell_their_sessions()
    /// So of each session: it was fed only what its connection read, and once it is left all of that. What that connection took
    /// is a front of its replies, and what its data connection took a front of that one's records. A session that does not stand
    /// was left.
    ensures fed { (journal : List LoopAction) (id : ℕ)
        → IsJournal journal → IsFront (projection_of id journal).heard
        (trace_bytes_read (projection_of id journal).control) }
    ensures all_fed { WasFedAll }
    ensures said { (journal : List LoopAction) (id : ℕ)
        → IsJournal journal → IsFront (trace_bytes_written (projection_of id journal).control)
        (projection_of id journal).said }
    ensures shown { (journal : List LoopAction) (id : ℕ)
        → IsJournal journal → IsFront (trace_bytes_written (projection_of id journal).image)
        (projection_of id journal).shown }
    ensures left { (journal : List LoopAction) (id port : ℕ) → IsJournal journal
        → IsInJournal (Of id (Opens port)) journal
        → (projection_of id journal).is_open ≡ false → WasLeft id journal }
{}

pub fn no_device_is_held_twice()
    /// Two clients never hold one device: behind every front of a journal no two device words of its sessions stand for one
    /// device, if none did before. In a new daemon none do.
    ensures new { (d : Core) → TableInvariant d.registry
        → d.slots ≡ None ∷ None ∷ None ∷ None ∷ None ∷ None ∷ None ∷ None ∷ [] → HoldsApart d }
    ensures behind { (d e : Core) (journal : List LoopAction)
        → DaemonRuns d journal e → HoldsApart d → HoldsApart e }
    ensures within { (d e : Core) (since past : List LoopAction) → DaemonRuns d (since ++ past) e
        → HoldsApart d → (mid : Core) × DaemonRuns d past mid × HoldsApart mid }
{}

pub fn nobody_acts_for_a_session_that_left()
    /// A number is one session's: behind the act that ends a session nothing is done for that number any more.
    ensures { NobodyActsAfterIt }
{}

pub fn no_more_stand_than_are_counted()
    /// No more sessions stand than a journal counts, so fewer than eight where another is opened.
    ensures counted { (journal : List LoopAction) → IsJournal journal → (numbers : List ℕ)
        × AreOpenSessions journal numbers }
    ensures few { (past : List LoopAction) (id port : ℕ) → IsJournal (Of id (Opens port) ∷ past)
        → open_sessions past < most_sessions }
{}
