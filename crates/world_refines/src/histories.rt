//! Any events, in whatever order.

ghost use Rattle.world_refines.specs.MainTheorem.{AllIsKept, EventsFollow};

/// Events one after another: what each makes of a world stands for what it does by the model, on what those before it left. Of a
/// page that is laid in the source gives its rows at each pass.
#[tactic(none)]
pub fn a_run_refines()
    /// So it is of every list of events, in whatever order those of all jobs come and in whatever pieces bytes are
    /// delivered.
    ///
    /// Their marks are enabled at each device: two clients never hold one, a start takes the page that is next, and
    /// no page is laid in within a scan.
    /// Carried by: `a_run_refines`: `marks` of `RunRefines`
    ///
    /// Where each session is an endpoint's, it is so behind them: no event of a job brings a stranger.
    /// Carried by: `a_run_refines`: `alone` of `RunRefines`
    ///
    /// If a page source fails in them by the model, it failed in one of the events and counted that. The job's session held the
    /// device in the world in front of it. In the daemon behind it, the session holds it stopped, or has given it back so; at a
    /// START, of a job under way.
    /// Carried by: `a_run_refines`: `failures` of `RunRefines`
    ///
    /// If a session breaks off at a reply, of such a job, it answered in one of the events, as it stood in the world in front,
    /// with one that cannot be said.
    /// Carried by: `a_run_refines`: `failures` of `RunRefines`
    ensures { EventsFollow }
{}

/// THE HEADLINE. From a new world on, whatever happens, in whatever order the events of all jobs come and in whatever pieces
/// bytes are delivered: the file of a scan that is done denotes exactly the picture that its settings mean on the page of its
/// first start; each finished page of a batch likewise; settings were reported as the definitions have them; a job that ends
/// otherwise has its cause; and a job has moves until it is over.
#[tactic(none)]
pub fn all_is_kept()
    /// The moves that `World::moves_left` counts suffice: it is 0 only where the job is over, and a job that rests
    /// behind `World::run_all` is over.
    /// Carried by: `all_is_kept`: `left`, `rests` of `Promises`
    ///
    /// THE HEADLINE: from a new world on, behind any list of events in which each page that is laid in is within its
    /// limits, all of this is kept.
    ///
    /// It is kept for each choice of places where page sources can fail, and of those where all are steady, that is
    /// true of devices and events.
    /// Carried by: `all_is_kept`: `HaveSourcesAt`, `AreFittingLoads`
    ///
    /// There a job that ends otherwise has a status other than GOOD and EOF. No front of its file under way is whole, nor
    /// of that of a job that runs. A file is missing only if the job is told as out of memory.
    /// Carried by: `all_is_kept`: `statuses`, `short`, `starved` of `Promises`
    ensures { AllIsKept }
{}
