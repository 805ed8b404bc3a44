//! The next moves of jobs.

ghost use Rattle.std.specs.Prelude.{◌≡◌, true, false, List, [], ◌∷◌, Some, None, option_map, slice_get};
ghost use Rattle.saned_core.specs.DaemonStates.{core};
ghost use Rattle.event_world.specs.declared.endpoint.Endpoint.{Endpoint};
ghost use Rattle.event_world.specs.declared.event.JobEvent.{JobEvent};
ghost use Rattle.client_replies.specs.ProtocolStates.{is_running};
ghost use Rattle.event_world.specs.JobEvents.{job_event_of};
ghost use Rattle.event_world.specs.JobMoves.{IsNext, IsNextMove, in_order, moves_left_of};
ghost use Rattle.event_world.specs.Rounds.{HasRound, HasTurn, RoundsRunOut};
ghost use Rattle.event_world.specs.Worlds.{seen_world};

use crate::endpoint::Endpoint;
use crate::event::{Event, JobEvent};
use crate::job_events::{PIECE, can};
use crate::world::EventWorld;
use device_api::Device;
use page_picture::PageSource;
use page_sources::Source;
use saned_core::Daemon;

/// The loss of a control connection whose session the daemon has ended.
fn last_move<D: Device>(daemon: &Daemon<D>, endpoint: &Endpoint) -> Option<JobEvent>
    ensures { IsNext (core D.state daemon.now) endpoint.now [] result }
{
    if endpoint.is_over && can(daemon, endpoint, JobEvent::LoseControl) {
        return Some(JobEvent::LoseControl);
    }
    None
}

/// This where it can happen, else what comes later.
fn earlier<D: Device>(
    daemon: &Daemon<D>,
    endpoint: &Endpoint,
    job_event: JobEvent,
    later: Option<JobEvent>,
) -> Option<JobEvent>
    ensures { (ms : List JobEvent) → IsNext (core D.state daemon.now) endpoint.now ms later
        → IsNext (core D.state daemon.now) endpoint.now (job_event ∷ ms) result }
{
    if can(daemon, endpoint, job_event) {
        return Some(job_event);
    }
    later
}

/// The first of its moves that can happen.
fn move_of<D: Device>(daemon: &Daemon<D>, endpoint: &Endpoint) -> Option<JobEvent>
    ensures runs { is_running endpoint.now.client.outcome ≡ true
        → IsNext (core D.state daemon.now) endpoint.now in_order result }
    ensures over { is_running endpoint.now.client.outcome ≡ false → result ≡ None }
{
    if !endpoint.is_running() {
        return None;
    }
    let next = last_move(daemon, endpoint);
    let next = earlier(daemon, endpoint, JobEvent::DataTurn, next);
    let next = earlier(daemon, endpoint, JobEvent::DataToClient(PIECE), next);
    let next = earlier(daemon, endpoint, JobEvent::DataConnect, next);
    let next = earlier(daemon, endpoint, JobEvent::ToClient(PIECE), next);
    let next = earlier(daemon, endpoint, JobEvent::ToDaemon(PIECE), next);
    earlier(daemon, endpoint, JobEvent::Connect, next)
}

/// The event that a move of job i is.
fn job_event_of(i: usize, job_event: Option<JobEvent>) -> Option<Event>
    ensures { result ≡ option_map (job_event_of i) job_event }
{
    match job_event {
        Some(job_event) => Some(job_event.of(i)),
        None => None,
    }
}

fn moves_left_of(endpoint: &Endpoint) -> u64
    ensures { result ≡ moves_left_of endpoint.now }
{
    if endpoint.is_running() {
        endpoint.budget
    } else {
        0
    }
}

impl<D: Device> EventWorld<D> {
    /// The next move of job i: the first that can happen of these: its connection is made, all bytes go to the daemon, all bytes
    /// go to the client, the data connection is made, its bytes go to the client, the daemon takes a turn of it, a control
    /// connection is lost whose session the daemon has ended. A job that does not run has none.
    pub fn next_move(&self, i: usize) -> Option<Event>
        /// `next_move` gives the first event that can happen, in the order of the moves. It gives none if none can happen, or if
        /// the job does not run.
        ensures is { (p : Endpoint) → slice_get self.now.endpoints i ≡ Some p
            → IsNextMove (core D.state self.now.daemon) i p result }
        ensures none { slice_get self.now.endpoints i ≡ None → result ≡ None }
    {
        match self.endpoint(i) {
            Some(endpoint) => job_event_of(i, move_of(&self.daemon, endpoint)),
            None => None,
        }
    }

    /// At least as many moves as job i may still take; 0 where it does not run, or there is no such job.
    pub fn moves_left(&self, i: usize) -> u64
        /// `moves_left` is at first 2^34, or 2^36 for a batch, falls by one with each event of the job that happens,
        /// and no event raises it.
        /// Carried by: `EventWorld::moves_left`; `moves_fall`
        ensures is { (p : Endpoint)
            → slice_get self.now.endpoints i ≡ Some p → result ≡ moves_left_of p }
        ensures none { slice_get self.now.endpoints i ≡ None → result ≡ 0 }
    {
        match self.endpoint(i) {
            Some(endpoint) => moves_left_of(endpoint),
            None => 0,
        }
    }

    /// The turn of job i: its next move is made, where it has one and may still take a move. Answers whether it was made.
    fn take_move(&mut self, i: usize) -> bool
        ensures { HasTurn ⟦<Source as PageSource>⟧.source i result
            (seen_world D.state self.old) (seen_world D.state self.new) }
    {
        if self.moves_left(i) == 0 {
            return false;
        }
        match self.next_move(i) {
            Some(event) => {
                self.step(event);
                true
            }
            None => false,
        }
    }

    /// A turn of each job, in their order. Answers whether a move was made.
    fn round(&mut self) -> bool
        ensures { HasRound ⟦<Source as PageSource>⟧.source result
            (seen_world D.state self.old) (seen_world D.state self.new) }
    {
        let mut goes_on = false;
        for i in 0..self.endpoints.len() {
            if self.take_move(i) {
                goes_on = true;
            }
        }
        goes_on
    }

    /// Next moves of all jobs by turns.
    pub fn run_all(&mut self)
        /// `run_all` makes next moves by turns until no job has one, or may still take one.
        /// Carried by: `EventWorld::run_all`; `rest_is_quiet`
        ensures { RoundsRunOut ⟦<Source as PageSource>⟧.source
            (seen_world D.state self.old) (seen_world D.state self.new) }
    {
        let mut goes_on = true;
        while goes_on {
            goes_on = self.round();
        }
    }
}
