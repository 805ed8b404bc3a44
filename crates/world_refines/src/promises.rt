//! What is promised of jobs, of whatever a world stands for.

ghost use Rattle.world_refines.specs.WorldPromises.{BatchesAreCounted, LossesAreExplained, NobodyIsStuck, OutcomesAreRight, PagesAreMeant, ScansAreMeant, ValuesAreReadAlike};

/// A job that runs is under way; one that is done kept its promise on its settings, on permission and on its list; one that ended
/// otherwise has its cause.
#[tactic(none)]
pub fn outcomes_are_right()
    /// A job that is done was permitted, has its settings put and reported as the definitions have them, and shows
    /// the options in force, each with its own value.
    /// Carried by: `outcomes_are_right`: `KeepsPromise`
    ///
    /// A list that is done has the devices that were listed, each told with its own name, vendor, model and class.
    /// Carried by: `outcomes_are_right`: `AreListed`
    ///
    /// A job that ended otherwise has its cause.
    /// Carried by: `outcomes_are_right`: `HasCause`
    ensures { OutcomesAreRight }
{}

#[tactic(none)]
pub fn a_scan_is_meant()
    /// The file of a scan that is done denotes exactly the picture that its settings mean on the page of its first
    /// start, where the sources of its device are steady.
    ensures { ScansAreMeant }
{}

/// Whatever became of a batch, the file of each page that it finished denotes the picture that its settings mean on the page of
/// the start of that number.
#[tactic(none)]
pub fn pages_are_meant()
    /// So does each page that a batch finished, whatever became of the batch, on that of its own start.
    ensures { PagesAreMeant }
{}

#[tactic(none)]
pub fn a_batch_is_counted()
    /// A batch that is done has finished as many pages as it wanted, or fewer and at least one, and its tray ran out.
    ensures { BatchesAreCounted }
{}

/// A job has a next move just where it runs: `World::next_move` gives one as long as it does, in every state that events reach.
#[tactic(none)]
pub fn nobody_is_stuck()
    /// A job has a next move just where it runs.
    ensures { NobodyIsStuck }
{}

/// The next move of a job that runs is the loss of its control connection only if the daemon ended its session for lack of
/// memory, or at a reply past the limits of the wire.
#[tactic(none)]
pub fn losses_are_explained()
    /// It is the loss of its control connection only where memory ran out, or where its session broke off at a reply
    /// past the limits of the wire.
    /// Carried by: `losses_are_explained`; `all_is_kept`: `losses` of `Promises`
    ensures { LossesAreExplained }
{}

#[tactic(none)]
pub fn values_are_read_alike()
    /// A client reads the same value from a reply, whether its daemon sends string values as their text or as long as their
    /// option. What is proved of a world holds with either.
    /// Carried by: `values_are_read_alike`, `all_is_kept`
    ensures { ValuesAreReadAlike }
{}
