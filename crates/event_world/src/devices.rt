//! Worlds made of devices and jobs.

ghost use Rattle.std.specs.Prelude.{◌≡◌, map, IfOk, IfErr, IfSome, IsNone, OnOk};
ghost use Rattle.device_api.specs.State.{DeviceState};
ghost use Rattle.dispatch.specs.RegistryFault.{AreRegistrable};
ghost use Rattle.dispatch.specs.Table.{fresh_table, table};
ghost use Rattle.event_world.specs.Worlds.{AreNew, IsInitialWorld, HasFaultAmong, MayRun, seen_world};

use crate::world::{Endpoints, EventWorld, endpoints_of, fault_of};
use crate::world_fault::WorldFault;
use device_api::Device;
use dispatch::{Registry, repeats};
use md5_auth::Users;
use net_backend::Job;
use sane_fixed::NoMem;
use saned_core::Daemon;
use std::alloc::Global;

/// The most devices of a world.
const MOST_DEVICES: usize = 16;

/// Why no world is made of these devices and jobs, apart from out of memory.
fn fault_among<D: Device>(devices: &[D], jobs: &[Job]) -> Option<WorldFault>
    ensures some { IfSome result (λ f. HasFaultAmong f (map D.state devices.now) jobs.now) }
    ensures none { IsNone result
        → HasFaultAmong WorldFault.NoMem (map D.state devices.now) jobs.now }
{
    if repeats(devices) {
        return Some(WorldFault::SameName);
    }
    if devices.len() > MOST_DEVICES {
        return Some(WorldFault::TooManyDevices);
    }
    fault_of(jobs)
}

/// What a world is made of: the table of these devices, each of them reset, and an endpoint for each job, to which nothing has
/// happened. It refuses what `EventWorld::new` refuses, and then the devices come back as they were.
pub fn parts_of<D: Device>(
    alloc: Global,
    devices: Vec<D>,
    jobs: Vec<Job>,
) -> Result<(Registry<D>, Endpoints), (WorldFault, Vec<D>)>
    /// The parts of a world, the table of its devices and the endpoints of its jobs, are made or refused so for devices of any
    /// type.
    /// Carried by: `registry`, `endpoints`, `accepted`, `fault`, `back` of `parts_of`; `EventWorld::over`
    ensures registry { IfOk result (λ parts.
        table D.state parts.0 ≡ fresh_table (map D.state devices.items)) }
    ensures endpoints { IfOk result (λ parts. AreNew jobs.items parts.1) }
    ensures accepted { OnOk result (AreRegistrable (map D.state devices.items)
        × MayRun jobs.items) }
    ensures fault { IfErr result
        (λ e. HasFaultAmong e.0 (map D.state devices.items) jobs.items) }
    ensures back { IfErr result (λ e. e.1 ≡ devices) }
{
    if let Some(fault) = fault_among(devices.as_slice(), jobs.as_slice()) {
        return Err((fault, devices));
    }
    let endpoints = match endpoints_of(alloc, jobs) {
        Ok(endpoints) => endpoints,
        Err(NoMem) => return Err((WorldFault::NoMem, devices)),
    };
    match Registry::new(alloc, devices) {
        Ok(registry) => Ok((registry, Endpoints { endpoints })),
        // The names and the number were tested above.
        Err((_, devices)) => Err((WorldFault::NoMem, devices)),
    }
}

impl EventWorld<Box<dyn Device>> {
    /// A world of these devices, users and jobs, whose daemon's challenges come from the seed: nothing has happened, and each
    /// device was reset. Where it is refused the devices come back as they were: `SameName` where two of them have one name,
    /// `TooManyDevices` above sixteen, `TooManyJobs` above eight, `BadJob` where a client refuses one, in this order; `NoMem`
    /// comes only where none of these stands.
    pub fn new(
        alloc: Global,
        devices: Vec<Box<dyn Device>>,
        users: Users,
        seed: [u8; 32],
        jobs: Vec<Job>,
    ) -> Result<EventWorld<Box<dyn Device>>, (WorldFault, Vec<Box<dyn Device>>)>
        /// `EventWorld::new` takes exactly up to sixteen devices of different names and up to eight jobs that a client
        /// takes; each device is reset, and refused ones come back as they were. Its daemon sends string values as
        /// their text, and `EventWorld::beside_daemon` takes a daemon of either kind.
        /// Carried by: `begins`, `accepted`, `fault`, `back` of `EventWorld::new`, `EventWorld::beside_daemon`
        ensures begins { IfOk result
            (λ w. IsInitialWorld (map ⟦<Box<dyn Device> as Device>⟧.state devices.items)
            users seed jobs.items (seen_world ⟦<Box<dyn Device> as Device>⟧.state w)) }
        ensures accepted { OnOk result
            (AreRegistrable (map ⟦<Box<dyn Device> as Device>⟧.state devices.items)
            × MayRun jobs.items) }
        ensures fault { IfErr result (λ e.
            HasFaultAmong e.0 (map ⟦<Box<dyn Device> as Device>⟧.state devices.items) jobs.items) }
        ensures back { IfErr result (λ e. e.1 ≡ devices) }
    {
        match parts_of(alloc, devices, jobs) {
            Ok((registry, endpoints)) => Ok(EventWorld::over(
                alloc,
                Daemon::new(registry, users, seed),
                endpoints,
            )),
            Err(refused) => Err(refused),
        }
    }
}
