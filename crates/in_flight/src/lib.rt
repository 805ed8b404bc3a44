//! Neither end sees bytes in flight: not the replies that a daemon has given out, nor the requests that a client has written.
#![tactic(auto)]

ghost use Rattle.in_flight.specs.FreePlaces.{FewerThanEightLeaveAPlace};
ghost use Rattle.in_flight.specs.InFlight.{DataConnectionsAreAlike, DeliveriesAreUnseen, EndsAreAlike, FeedsAreAlike, FramesAreAlike, DataLossesAreAlike, NothingIsInFlight, OpensAreAlike, TakesAreUnseen, TurnsAreAlike};
ghost use Rattle.in_flight.specs.Requests.{HistoriesAreAlike, TurnedPagesAreAlike, TakenRecordsAreAlike, HeardRepliesAreAlike};

#[tactic(none)]
pub fn nothing_is_in_flight_at_first()
    /// A daemon differs from itself by no bytes.
    ensures { NothingIsInFlight }
{}

/// Replies that one daemon gives out are in flight: the other has them still, in front of those that wait in both.
#[tactic(none)]
pub fn takes_are_unseen()
    /// Replies that the one gives out are in flight, behind those that were.
    ensures { TakesAreUnseen }
{}

/// Bytes in flight are the first that the other daemon gives out, and the first does not see it.
#[tactic(none)]
pub fn deliveries_are_unseen()
    /// They are the first bytes that the other gives out, and the one does not see it.
    ensures { DeliveriesAreUnseen }
{}

/// A session that is opened gets the same number in both, and is the same.
#[tactic(none)]
pub fn opens_are_alike()
    /// One that is opened, where both have a place for it, has the same number in both. The other may keep a place
    /// for a session that is over while its replies are in flight; it has one free where fewer than eight sessions
    /// stand.
    /// Carried by: `opens_are_alike`, `fewer_than_eight_leave_a_place`
    ensures { OpensAreAlike }
{}

#[tactic(none)]
pub fn feeds_are_alike()
    /// Whatever a piece of a session's bytes does to the one it can do to the other, with the same replies. Where it
    /// runs out of memory, what is in flight of that session is dropped.
    ensures { FeedsAreAlike }
{}

#[tactic(none)]
pub fn data_connections_are_alike()
    /// A frame is at the same place in both daemons, and its data connection is made and lost alike. Each turn of the one can be
    /// a turn of the other, with the same record.
    /// Carried by: `data_connections_are_alike`, `turns_are_alike`
    ensures frame { FramesAreAlike }
    ensures made { DataConnectionsAreAlike }
    ensures lost { DataLossesAreAlike }
{}

/// What a turn of a data connection does to one daemon, it can do to the other, with the same record.
#[tactic(none)]
pub fn turns_are_alike()
    ensures { TurnsAreAlike }
{}

#[tactic(none)]
pub fn ends_are_alike()
    /// A session that is ended gives back the same in both, and nothing of it is in flight.
    ensures { EndsAreAlike }
{}

/// So a daemon has a place for one more session where fewer than eight stand, whatever waits of their replies.
#[tactic(none)]
pub fn fewer_than_eight_leave_a_place()
    ensures { FewerThanEightLeaveAPlace }
{}

#[tactic(none)]
pub fn requests_are_unseen()
    /// A client with requests in flight stands for the same histories. It makes the same of replies, of records and of a page's
    /// file that is taken. The requests stay in front of those that are to go out.
    ensures past { HistoriesAreAlike }
    ensures replies { HeardRepliesAreAlike }
    ensures records { TakenRecordsAreAlike }
    ensures pages { TurnedPagesAreAlike }
{}
