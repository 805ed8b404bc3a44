//! What a server and the loops of jobs do over connections, in one order: which other orders are as good, and what is on the way.
//! The moves of a job are of any type of which one sees what each does on the job's connections.
#![tactic(auto)]

ghost use Rattle.interleaving.specs.AmongStrangers.{AllMayComeSoonerAmong, MovesMayComeSoonerAmong, NoneSpeaksForAJob, ReadsWereWrittenAmong, StrangersSpeak, WithoutStrangers};
ghost use Rattle.interleaving.specs.AtOnce.{EachMovesAtOnce};
ghost use Rattle.interleaving.specs.Orders.{AllMayComeSooner, MovesMayComeSooner, ReadsWereWritten};
ghost use Rattle.interleaving.specs.Parts.{AnotherMayListen, HandsOnInParts, HandsOnInPartsAmong};

#[tactic(none)]
pub fn moves_may_come_sooner<M>()
    /// An act may give a job nothing, no byte and no connection. A move of the job that comes just behind such an act may come
    /// just before it.
    ensures { MovesMayComeSooner M }
{}

#[tactic(none)]
pub fn all_may_come_sooner<M>()
    /// Once the server gives a job nothing more, the job may do at once all that it will yet do. Each journal is the same, and
    /// connections hand on as before.
    ensures { AllMayComeSooner M }
{}

/// Each job may move as soon as connections allow.
#[tactic(none)]
pub fn each_moves_at_once<M>()
    /// For every such order there is another, of the same journals and over connections that hand on, in which each job moves as
    /// soon as it may: right behind its own last move, or behind an act that its move waits for.
    ensures { EachMovesAtOnce M }
{}

/// Over connections that hand on, in every order, what was read of a job's connections is a front of what was given to them.
#[tactic(none)]
pub fn reads_were_written<M>()
    /// In every such order what was read of each connection of a job is a front of what was given to it. A data connection that
    /// is not accepted yet gave nothing.
    ensures { ReadsWereWritten M }
{}

/// A session that no job has is a stranger's, to which the server may do anything.
#[tactic(none)]
pub fn orders_are_as_good_among_strangers<M>()
    /// Among strangers a move may come sooner just as it may without them.
    ensures moves { MovesMayComeSoonerAmong M }
    /// So may all moves of a job from where the server gives it nothing more on.
    ensures all { AllMayComeSoonerAmong M }
    /// A job reads of each connection a front of what was given to it, whatever strangers say.
    ensures reads { ReadsWereWrittenAmong M }
{}

#[tactic(none)]
pub fn strangers_are_apart<M>()
    /// Connections hand on without strangers just where they do so among them and each session that the server opens,
    /// feeds or gives a data connection is a job's.
    ensures without { WithoutStrangers M }
    /// There are strangers: a session that no job has is opened and fed any bytes, which is refused without them.
    ensures speak { StrangersSpeak M }
    /// The smallest lie is refuted: that the session of a job which wrote nothing is fed a byte.
    ensures refuted { NoneSpeaksForAJob M }
{}

/// That connections hand on is what is said of the control connections, and that each data connection's other end is the daemon.
#[tactic(none)]
pub fn connections_hand_on_in_parts<M>()
    /// Connections hand on in two parts: by what the control connections do, and since the other end of each data connection is
    /// the daemon.
    ensures parts { HandsOnInParts M }
    /// So it is among strangers.
    ensures among { HandsOnInPartsAmong M }
    /// The second does not follow: where another listens at the port a job takes what the daemon did not give, while
    /// the control connections hand on.
    ensures another { AnotherMayListen M }
{}
