//! Requests one after another.

ghost use Rattle.daemon_refines.specs.Cores.{CoreFeeds, OpeningsRefine, RegistriesRefine};
ghost use Rattle.daemon_refines.specs.Feeds.{FeedsAgree};
ghost use Rattle.daemon_refines.specs.OtherSessions.{DevicesLeave, EndsLeave, OthersAreKept, RequestsLeave};
ghost use Rattle.daemon_refines.specs.ModelRequests.{RequestsAgree};

#[tactic(none)]
pub fn any_request_follows_the_model()
    /// Any request of a session that was greeted gets the reply that spells the model's answer, with string values as long as the
    /// session's are. The request context behind it reads as what stands behind that answer.
    ensures { RequestsAgree }
{}

/// Where a session leaves to others what they hold, those go on as they were.
#[tactic(none)]
pub fn other_sessions_are_kept()
    /// Each session of another client stands as it stood.
    /// Carried by: `other_sessions_are_kept`, `others_are_left_alone`
    ensures { OthersAreKept }
{}

/// A request, an end, and whatever becomes of a device that is held, leave so to others.
#[tactic(none)]
pub fn others_are_left_alone()
    ensures by_a_request { RequestsLeave }
    ensures by_an_end { EndsLeave }
    ensures by_a_device { DevicesLeave }
{}

/// A piece of bytes is a run of calls by the model. Behind each call the request context is shown again. A session that ends in
/// it gives back all that it holds, also where memory runs out. Others keep what they hold.
#[tactic(none)]
pub fn a_feed_follows_the_model()
    /// A piece of bytes is a run of such requests, also where the session ends in it or memory runs out.
    /// Carried by: `a_feed_follows_the_model`, `a_fed_daemon_follows_the_model`
    ensures { FeedsAgree }
{}

/// A new registry and a session that was just opened are shown.
#[tactic(none)]
pub fn the_beginning_is_shown()
    /// A new registry and a new session are read as the beginning.
    ensures registry { RegistriesRefine }
    ensures session { OpeningsRefine }
{}

/// A piece for one session of a daemon: that session runs by the model, and each of another client stands as it stood.
#[tactic(none)]
pub fn a_fed_daemon_follows_the_model()
    ensures { CoreFeeds }
{}
