//! One daemon and the clients of some jobs.

ghost use Rattle.std.specs.Prelude.{◌≡◌, ◌↔◌, Some, None, All, false, IfOk, IfErr, IfSome, IsNone, IsTrue, OnOk, min, option_and_then, option_map, slice_get};
ghost use Rattle.event_world.specs.declared.endpoint.Endpoint.{Endpoint};
ghost use Rattle.event_world.specs.Endpoints.{finished_page};
ghost use Rattle.event_world.specs.Worlds.{AreNew, AtEndpoint, HasWorldFault, IsFitJob, Leads, MayRun, Runs, seen_world};

use crate::endpoint::Endpoint;
use crate::event::{Event, JobEvent};
use crate::job_events::happen;
use crate::world_fault::WorldFault;
use device_api::Device;
use net_backend::{Job, Outcome};
use page_picture::PageSource;
use page_sources::Source;
use sane_fixed::NoMem;
use saned_core::Daemon;
use std::alloc::Global;
use std::marker::Model;

/// The most jobs of a world.
const MOST_JOBS: usize = 8;

/// A daemon, and the clients of at most eight jobs.
#[derive(Drop)]
pub struct EventWorld<D = Box<dyn Device>> {
    pub(crate) alloc: Global,
    pub(crate) daemon: Daemon<D>,
    pub(crate) endpoints: Vec<Endpoint>,
}

impl<D> Model for EventWorld<D> {
    ghost use Rattle.event_world.specs.Worlds.{WorldState};

    ghost Value = { WorldState D };

    ghost view = { λ w. record { daemon = w.daemon; endpoints = w.endpoints.items } };
}

/// An endpoint for each of some jobs.
#[derive(Drop)]
pub struct Endpoints {
    pub(crate) endpoints: Vec<Endpoint>,
}

impl Model for Endpoints {
    ghost use Rattle.std.specs.Prelude.{List};
    ghost use Rattle.event_world.specs.declared.endpoint.Endpoint.{Endpoint};

    ghost Value = { List Endpoint };

    ghost view = { λ e. e.endpoints.items };
}

/// Why no world is made for these jobs, apart from out of memory.
pub(crate) fn fault_of(jobs: &[Job]) -> Option<WorldFault>
    ensures some { IfSome result (λ f. HasWorldFault f jobs.now) }
    ensures none { IsNone result → HasWorldFault WorldFault.NoMem jobs.now }
{
    if jobs.len() > MOST_JOBS {
        return Some(WorldFault::TooManyJobs);
    }
    if !are_fit(jobs) {
        return Some(WorldFault::BadJob);
    }
    None
}

/// Whether clients take all the jobs.
fn are_fit(jobs: &[Job]) -> bool
    ensures { IsTrue result ↔ All IsFitJob jobs.now }
{
    for job in jobs {
        if !is_fit(job) {
            return false;
        }
    }
    true
}

fn is_fit(job: &Job) -> bool
    ensures { IsTrue result ↔ IsFitJob job.now }
{
    job.has_size() && job.task.has_count()
}

/// AN endpoint for each job.
pub(crate) fn endpoints_of(alloc: Global, jobs: Vec<Job>) -> Result<Vec<Endpoint>, NoMem>
    ensures { IfOk result (λ endpoints. AreNew jobs.items endpoints.items) }
{
    let mut endpoints = Vec::new(alloc);
    for job in jobs {
        let Ok(endpoint) = Endpoint::new(alloc, job) else {
            return Err(NoMem);
        };
        endpoints.push(endpoint)?;
    }
    Ok(endpoints)
}

impl<D: Device> EventWorld<D> {
    /// A daemon and these endpoints.
    pub fn over(alloc: Global, daemon: Daemon<D>, endpoints: Endpoints) -> EventWorld<D>
        ensures daemon { result.daemon ≡ daemon }
        ensures endpoints { result.endpoints ≡ endpoints }
    {
        EventWorld {
            alloc,
            daemon,
            endpoints: endpoints.endpoints,
        }
    }

    /// The clients of these jobs beside a daemon; to none of them anything has happened. Where it is refused the daemon comes
    /// back: `TooManyJobs` above eight, `BadJob` where a client refuses one; `NoMem` comes only where neither stands.
    pub fn beside_daemon(
        alloc: Global,
        daemon: Daemon<D>,
        jobs: Vec<Job>,
    ) -> Result<EventWorld<D>, (WorldFault, Daemon<D>)>
        ensures begins { IfOk result (λ w. (w.daemon ≡ daemon) × AreNew jobs.items w.endpoints) }
        ensures accepted { OnOk result (MayRun jobs.items) }
        ensures fault { IfErr result (λ e. HasWorldFault e.0 jobs.items) }
        ensures back { IfErr result (λ e. e.1 ≡ daemon) }
    {
        if let Some(fault) = fault_of(jobs.as_slice()) {
            return Err((fault, daemon));
        }
        match endpoints_of(alloc, jobs) {
            Ok(endpoints) => Ok(EventWorld {
                alloc,
                daemon,
                endpoints,
            }),
            Err(NoMem) => Err((WorldFault::NoMem, daemon)),
        }
    }

    /// Events in this order. One that cannot happen changes nothing.
    pub fn run(&mut self, events: Vec<Event>)
        /// `EventWorld::run` does to daemon and clients exactly what its events say, one after another. An event that cannot
        /// happen does nothing. One thing is not told: the data port that a session is opened with (1, by the private `connect`),
        /// which no call of a world shows.
        /// Carried by: `EventWorld::run`: `Runs`, `Happens`
        ///
        /// A delivery moves the first so many bytes, at most 4,096, of those that wait, and feeds just these to the
        /// daemon or to the client.
        ///
        /// A turn puts one record behind those on the way, or loses the connection where memory runs out.
        ///
        /// `LoseControl` takes the data connection along; a loss, a cancel, a page and a device taken out are the
        /// calls of daemon and client.
        ///
        /// No event of one job touches another's endpoint.
        ensures { Runs ⟦<Source as PageSource>⟧.source events.items
            (seen_world D.state self.old) (seen_world D.state self.new) }
    {
        for event in events {
            self.step(event);
        }
    }

    /// An event of a job.
    fn at(&mut self, i: usize, job_event: JobEvent)
        ensures { AtEndpoint (seen_world D.state self.old) i job_event
            (seen_world D.state self.new) }
    {
        if i < self.endpoints.len() {
            happen(
                self.alloc,
                &mut self.daemon,
                &mut self.endpoints[i],
                job_event,
            );
        }
    }

    /// An event.
    pub(crate) fn step(&mut self, event: Event)
        ensures { Leads ⟦<Source as PageSource>⟧.source event
            (seen_world D.state self.old) (seen_world D.state self.new) }
    {
        match event {
            Event::Connect(i) => self.at(i, JobEvent::Connect),
            Event::ToDaemon(i, n) => self.at(i, JobEvent::ToDaemon(n)),
            Event::ToClient(i, n) => self.at(i, JobEvent::ToClient(n)),
            Event::DataConnect(i) => self.at(i, JobEvent::DataConnect),
            Event::DataTurn(i) => self.at(i, JobEvent::DataTurn),
            Event::DataToClient(i, n) => self.at(i, JobEvent::DataToClient(n)),
            Event::LoseControl(i) => self.at(i, JobEvent::LoseControl),
            Event::LoseImage(i) => self.at(i, JobEvent::LoseImage),
            Event::Cancel(i) => self.at(i, JobEvent::Cancel),
            Event::Load(name, page) => {
                let _ = self.daemon.load(name.as_bytes(), page);
            }
            Event::Unplug(name) => {
                let _ = self.daemon.unplug(name.as_bytes());
            }
        }
    }

    /// The endpoint of job i.
    pub(crate) fn endpoint(&self, i: usize) -> Option<&Endpoint>
        ensures { option_map (λ p. p.now) result ≡ slice_get self.now.endpoints i }
    {
        if i >= self.endpoints.len() {
            return None;
        }
        Some(&self.endpoints[i])
    }

    /// How far job i is; none where there is no such job.
    pub fn outcome(&self, i: usize) -> Option<&Outcome>
        /// The calls tell a job's outcome, files, finished pages and whether it ran out of memory.
        /// Carried by: `EventWorld::outcome`, `file`, `file_at`, `finished`, `starved`
        ensures { option_map (λ o. o.now) result
            ≡ option_map (λ p. p.client.outcome) (slice_get self.now.endpoints i) }
    {
        match self.endpoint(i) {
            Some(endpoint) => Some(endpoint.client.outcome()),
            None => None,
        }
    }

    /// The file of job i under way, as far as it has come: that of a batch's next page is empty. None where there is no such
    /// job, or a growth of the file was refused.
    pub fn file(&self, i: usize) -> Option<&[u8]>
        ensures { option_map (λ f. f.now) result
            ≡ option_and_then (λ p. p.file) (slice_get self.now.endpoints i) }
    {
        match self.endpoint(i) {
            Some(endpoint) => endpoint.file_now(),
            None => None,
        }
    }

    /// The file of the k-th finished page of a batch, from 1. None where k is 0 or above `finished`, or a growth of that file
    /// was refused.
    pub fn file_at(&self, i: usize, k: u32) -> Option<&[u8]>
        ensures { option_map (λ f. f.now) result
            ≡ option_and_then (λ p. finished_page p k) (slice_get self.now.endpoints i) }
    {
        match self.endpoint(i) {
            Some(endpoint) => endpoint.page(k as usize),
            None => None,
        }
    }

    /// How many pages of a batch are finished, at most 16; 0 where there is no such job.
    pub fn finished(&self, i: usize) -> u32
        ensures is { (p : Endpoint)
            → slice_get self.now.endpoints i ≡ Some p → result ≡ min p.finished 16 }
        ensures none { slice_get self.now.endpoints i ≡ None → result ≡ 0 }
    {
        match self.endpoint(i) {
            Some(endpoint) => endpoint.finished.min(16) as u32,
            None => 0,
        }
    }

    /// Whether a growth was refused on a connection of job i, in its session or for a file of it, or no session was free
    /// for it.
    pub fn starved(&self, i: usize) -> bool
        ensures is { (p : Endpoint)
            → slice_get self.now.endpoints i ≡ Some p → result ≡ p.out_of_memory }
        ensures none { slice_get self.now.endpoints i ≡ None → result ≡ false }
    {
        match self.endpoint(i) {
            Some(endpoint) => endpoint.out_of_memory,
            None => false,
        }
    }
}
