ghost use Rattle.client_refines.specs.Calls.{CancelsAreAlike, ConnectionsAreUnseen, LossesAreAlike, NewClientsAreAlike};
ghost use Rattle.client_refines.specs.ClientLives.{ClientsBeginAlike, JobsStopAlike, OutcomesAreAlike, PullsAndLinksAreUnseen};

pub fn clients_begin_alike()
    /// A new client is read as one that has asked for nothing yet but a greeting.
    ensures { ClientsBeginAlike }
{}

pub fn jobs_stop_alike()
    /// A cancel, a loss and out of memory end a job alike.
    /// Carried by: `jobs_stop_alike`, `calls_are_alike`, `pulls_and_links_are_unseen`
    ensures { JobsStopAlike }
{}

/// A client reads as before when its file is taken, and when its image connection is made.
pub fn pulls_and_links_are_unseen()
    ensures { PullsAndLinksAreUnseen }
{}

/// The calls that hear nothing, as the client's contracts tell them: the client is made, and asks for its greeting; it is
/// cancelled, and says farewell; it loses a link that counts; its data connection is made.
pub fn calls_are_alike()
    ensures made { NewClientsAreAlike }
    ensures cancelled { CancelsAreAlike }
    ensures lost { LossesAreAlike }
    ensures connected { ConnectionsAreUnseen }
{}

/// A job is done for the client just where the client view that it reads as is done, with the same reports. It has ended just
/// where the view has, with the same status and why.
pub fn outcomes_are_alike()
    /// It is done, or has ended, just where that client view is or has, with the same reports, status and why.
    ensures { OutcomesAreAlike }
{}
