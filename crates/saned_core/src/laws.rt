//! Laws of a daemon's sessions.

ghost use Rattle.std.specs.Prelude.{◌≡◌, ◌≢◌, ◌++◌, ◌<◌, ℕ, List, [], Option, Some, None, option_and_then, true, length, ◌∷◌};
ghost use Rattle.md5_auth.specs.declared.users.Entry.{Entry};
ghost use Rattle.device_api.specs.State.{DeviceState};
ghost use Rattle.wire_format.specs.Lawful.{SpellsFront};
ghost use Rattle.wire_format.specs.Limit.{limited_format};
ghost use Rattle.wire_message.specs.Message.{message_limit, request as request_format};
ghost use Rattle.wire_message.specs.declared.message.Request.{Request as AnyRequest};
ghost use Rattle.saned_requests.specs.declared.request_answer.RequestAnswer.{RequestAnswer as AnySaid};
ghost use Rattle.saned_core.specs.declared.session_slot.SessionSlot.{SessionSlot as ASlot};
ghost use Rattle.saned_core.specs.DaemonStates.{Core, session_slot_of, on_session_slot, on_session, after_connected, after_lost, after_taken, after_open_session, after_end_session};
ghost use Rattle.saned_requests.specs.RequestAnswers.{RequestContext, Answers};
ghost use Rattle.saned_core.specs.Feeding.{FedPiece, FeedProgress, AnsweredSoFar, SaysAll, session_goes_on, replies_to, Feeds};
ghost use Rattle.saned_core.specs.Turns.{Turns};
ghost use Rattle.saned_core.specs.Loading.{core_after_load};
ghost use Rattle.saned_core.specs.DaemonLimits.{HasDaemonLimits};
ghost use Rattle.saned_core.specs.StringSizes.{HasOneStringSize};
ghost use Rattle.saned_core.specs.declared.session_slot.Fed.{Fed as AFed};
ghost use Rattle.saned_core.specs.declared.session_slot.DataStep.{DataStep as ADataStep};
ghost use Rattle.page_picture.specs.Source.{SourceState};
ghost use Rattle.dispatch.specs.Table.{after_unplug};
ghost use Rattle.saned_core.specs.Laws.{OneMoreIsAnswered, SessionsAreIndependent};

/// A piece is answered request by request: before the first nothing is, and each one more is answered on the request context that
/// those before it left.
pub fn requests_are_answered_in_order()
    ensures none { (fed : FedPiece) → AnsweredSoFar fed (record {
      context = fed.context;
      rest = fed.before ++ fed.piece;
      text = [];
    }) }
    ensures more { OneMoreIsAnswered }
{}

/// A request uses bytes: so many requests of a piece end.
pub fn a_request_uses_bytes()
    ensures { (rest left : List ℕ) (q : AnyRequest)
        → SpellsFront (limited_format message_limit request_format) rest left q
        → length left < length rest }
{}

/// What is done to one session changes no other one.
pub fn sessions_are_independent()
    ensures { SessionsAreIndependent }
{}

/// A new daemon has its limits, eight places and a number for each session that no other has, and every call of it, as its
/// contract tells, leaves them. So they hold in every state.
pub fn the_limits_are_kept()
    /// In every state there are eight places, and each session's number is its own.
    ensures new { (d : Core)
        → d.slots ≡ None ∷ None ∷ None ∷ None ∷ None ∷ None ∷ None ∷ None ∷ [] → HasDaemonLimits d }
    ensures open_session { (d : Core) (port : ℕ)
        → HasDaemonLimits d → HasDaemonLimits (after_open_session d port) }
    ensures feed { (n : ℕ) (old : Core) (piece : List ℕ) (fed : AFed) (new : Core)
        → Feeds n old piece fed new → HasDaemonLimits old → HasDaemonLimits new }
    ensures data_turn { (n : ℕ) (old : Core) (step : ADataStep) (new : Core) (buf : List ℕ)
        → Turns n old step new buf → HasDaemonLimits old → HasDaemonLimits new }
    ensures data_connected { (d : Core) (n : ℕ) → HasDaemonLimits d → HasDaemonLimits
        (record d { slots = on_session_slot (on_session after_connected) n d.slots }) }
    ensures data_lost { (d : Core) (n : ℕ) → HasDaemonLimits d
        → HasDaemonLimits (record d { slots = on_session_slot (on_session after_lost) n d.slots }) }
    ensures take_reply { (d : Core) (n count : ℕ) → HasDaemonLimits d
        → HasDaemonLimits (record d { slots = on_session_slot (after_taken count) n d.slots }) }
    ensures end_session { (d : Core) (n : ℕ)
        → HasDaemonLimits d → HasDaemonLimits (after_end_session d n) }
    ensures load { (d : Core) (name : List ℕ) (source : SourceState)
        → HasDaemonLimits d → HasDaemonLimits (core_after_load d name source) }
    ensures unplug { (d : Core) (name : List ℕ) → HasDaemonLimits d
        → HasDaemonLimits (record d { registry = after_unplug d.registry name }) }
{}

/// Each session sends string values as its daemon does: a new daemon has no session, and every call of it, as its contract tells,
/// leaves it so. So it is in every state.
pub fn one_string_size_is_kept()
    ensures new { (d : Core) → d.slots ≡ None ∷ None ∷ None ∷ None ∷ None ∷ None ∷ None ∷ None ∷ []
        → HasOneStringSize d }
    ensures open_session { (d : Core) (port : ℕ)
        → HasOneStringSize d → HasOneStringSize (after_open_session d port) }
    ensures feed { (n : ℕ) (old : Core) (piece : List ℕ) (fed : AFed) (new : Core)
        → Feeds n old piece fed new → HasOneStringSize old → HasOneStringSize new }
    ensures data_turn { (n : ℕ) (old : Core) (step : ADataStep) (new : Core) (buf : List ℕ)
        → Turns n old step new buf → HasOneStringSize old → HasOneStringSize new }
    ensures data_connected { (d : Core) (n : ℕ) → HasOneStringSize d → HasOneStringSize
        (record d { slots = on_session_slot (on_session after_connected) n d.slots }) }
    ensures data_lost { (d : Core) (n : ℕ) → HasOneStringSize d → HasOneStringSize
        (record d { slots = on_session_slot (on_session after_lost) n d.slots }) }
    ensures take_reply { (d : Core) (n count : ℕ) → HasOneStringSize d
        → HasOneStringSize (record d { slots = on_session_slot (after_taken count) n d.slots }) }
    ensures end_session { (d : Core) (n : ℕ)
        → HasOneStringSize d → HasOneStringSize (after_end_session d n) }
    ensures load { (d : Core) (name : List ℕ) (source : SourceState)
        → HasOneStringSize d → HasOneStringSize (core_after_load d name source) }
    ensures unplug { (d : Core) (name : List ℕ) → HasOneStringSize d
        → HasOneStringSize (record d { registry = after_unplug d.registry name }) }
{}
