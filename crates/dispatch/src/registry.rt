ghost use Rattle.std.specs.Prelude.{◌≡◌, ◌≢◌, ◌≤◌, ◌<◌, length, [], List, map, IfOk, IfErr, OnErr, OnOk, IsOk, IsTrue, is_some};
ghost use Rattle.device_api.specs.State.{after_reset, DeviceState};
ghost use Rattle.dispatch.specs.RegistryFault.{HasRegistryFault, AreRegistrable};
ghost use Rattle.dispatch.specs.Table.{fresh_table, table, seen_take, seen_unplug, seen_lease, take_answer, after_take, after_give_back, unplug_answer, after_unplug, listed_infos, without_return, load_answer, table_after_load, find_name};

use crate::table::fresh::{fill, repeats, vacant};
use crate::table::listing::listed_infos;
use crate::table::loading::load_slot;
use crate::table::place::{Lease, Place, Slot};
use crate::table::reset::reset_all;
use crate::table::slot::{awaits, find_name, put_into, take_from};
use device_api::{Device, DeviceInfo};
use page_picture::PageSource;
use page_sources::Source;
use sane_fixed::{NoMem, Status};
use std::alloc::Global;
use std::marker::Model;
use std::mem;
use thiserror::Error;

/// The devices of a daemon or a program, at most sixteen, each under its own name. A place is kept for each of them: its
/// device is in, out with a lease, or unplugged for ever.
#[derive(Drop)]
pub struct Registry<D = Box<dyn Device>> {
    places: Vec<Place<D>>,
}

impl<D> Model for Registry<D> {
    ghost use Rattle.std.specs.Prelude.{List, ◌≤◌, length};
    ghost use Rattle.dispatch.specs.declared.table.place.Place.{Place};

    ghost Value = { List (Place D) };

    ghost view = { λ r. r.places.items };

    ghost invariant = { λ r. length r.places.items ≤ 16 };
}

/// A table that is no more. Only what has it drops a lease.
#[derive(Drop)]
pub struct RetiredTable {
    _private: (),
}

/// Why devices are refused.
#[derive(Clone, Copy, Debug, PartialEq, Eq, Error)]
pub enum RegistryFault {
    /// Two devices have one name.
    #[error("same name twice")]
    SameName = 1,
    /// More than sixteen devices were handed in.
    #[error("more than 16 devices")]
    TooMany = 2,
    #[error("out of memory")]
    NoMem = 3,
}

const _: () = prove!(RegistryFault::SameName as u32 == 1);

const _: () = prove!(RegistryFault::TooMany as u32 == 2);

const _: () = prove!(RegistryFault::NoMem as u32 == 3);

impl<D: Device> Registry<D> {
    /// The devices in order, each of them reset. Refused devices are given back as they were.
    pub fn new(alloc: Global, devices: Vec<D>) -> Result<Registry<D>, (RegistryFault, Vec<D>)>
        /// A registry takes exactly up to sixteen devices of different names, resets each, and gives refused ones
        /// back as they were.
        /// Carried by: `ok`, `accepted`, `fault`, `given_back` of `Registry::new`
        ensures ok { IfOk result (λ r. table D.state r ≡ fresh_table (map D.state devices.items)) }
        ensures accepted { OnOk result (AreRegistrable (map D.state devices.items)) }
        ensures fault { IfErr result (λ e. HasRegistryFault e.0 (map D.state devices.items)) }
        ensures given_back { IfErr result (λ e. e.1 ≡ devices) }
    {
        if repeats(&devices) {
            return Err((RegistryFault::SameName, devices));
        }
        if devices.len() > 16 {
            return Err((RegistryFault::TooMany, devices));
        }
        let Ok(mut places) = vacant(alloc, &devices) else {
            return Err((RegistryFault::NoMem, devices));
        };
        let mut devices = devices;
        reset_all(&mut devices);
        fill(&mut places, devices);
        Ok(Registry { places })
    }
}

impl<D: Device> Registry<D> {
    /// Leases the device of that name, reset. Refuses: `Inval` where none is listed under it, `DeviceBusy` where it is
    /// leased; then nothing changes.
    pub fn take(&mut self, name: &[u8]) -> Result<Lease<D>, Status>
        /// `take`, `load` and `unplug` are steps of the table, and answer exactly.
        /// Carried by: `Registry::take`, `load`, `unplug`
        ensures answer { seen_take D.state result ≡ take_answer (table D.state self.old) name.now }
        ensures after { table D.state self.new ≡ after_take (table D.state self.old) name.now }
    {
        let Some(k) = find_name(&self.places, name) else {
            return Err(Status::Inval);
        };
        let Some(mut device) = take_from(&mut self.places, k) else {
            return Err(Status::DeviceBusy);
        };
        device.reset();
        Ok(Lease { device, place: k })
    }
}

impl<D: Device> Registry<D> {
    /// What the devices are, in the order in which they were handed in: leased ones too, unplugged ones
    /// not. The only error is out of memory.
    pub fn list(&self, alloc: Global) -> Result<Vec<DeviceInfo>, NoMem>
        /// `list` tells leased devices too, and unplugged ones not; `lists` says whether a name is listed.
        /// Carried by: `Registry::list`, `lists`
        ensures { IfOk result (λ infos. infos.items ≡ listed_infos (table D.state self.now)) }
    {
        listed_infos(alloc, self.places.as_slice())
    }
}

impl<D: Device> Registry<D> {
    /// The device is cancelled, and its place is in again. A lease that is not of this registry changes nothing and is dropped
    /// with its device. Such a lease is one whose place is not out, or has another name than its device.
    pub fn give_back(&mut self, lease: Lease<D>)
        /// `give_back`, the only call that takes a lease back, cancels its device and puts it into its place if the lease is of
        /// the table: that place is out and has the device's name.
        /// Carried by: `Registry::give_back`; `given_back` of `leases_are_kept`
        ///
        /// Any other lease changes nothing.
        /// Carried by: `other` of `leases_are_kept`
        ensures { table D.state self.new
            ≡ after_give_back (table D.state self.old) (seen_lease D.state lease) }
    {
        let Lease { mut device, place } = lease;
        if awaits(&self.places, place, device.info().name.as_bytes()) {
            device.cancel();
            put_into(&mut self.places, place, Slot::In(device));
        }
    }

    /// Takes the device of that name out for ever: it is listed no more. Refuses: `Inval` where none is listed under it,
    /// `DeviceBusy` where it is leased; then nothing changes.
    pub fn unplug(&mut self, name: &[u8]) -> Result<D, Status>
        ensures answer { seen_unplug D.state result
            ≡ unplug_answer (table D.state self.old) name.now }
        ensures after { table D.state self.new ≡ after_unplug (table D.state self.old) name.now }
    {
        let Some(k) = find_name(&self.places, name) else {
            return Err(Status::Inval);
        };
        let Some(device) = take_from(&mut self.places, k) else {
            return Err(Status::DeviceBusy);
        };
        put_into(&mut self.places, k, Slot::Gone);
        Ok(device)
    }
}

impl<D: Drop> Registry<D> {
    /// Drops the table and the devices that are in: for one that goes together with its leases.
    pub fn retire(self) -> RetiredTable {
        let Registry { places: _places } = self;
        RetiredTable { _private: () }
    }
}

impl RetiredTable {
    /// Drops a lease with its device, which no table waits for any more.
    pub fn drop_lease<D: Drop>(&self, lease: Lease<D>) {
        let Lease {
            device: _device,
            place: _,
        } = lease;
    }
}

impl<D: Device> Registry<D> {
    /// Puts another page into the device of that name. Refuses: `Inval` where none is listed under it; `DeviceBusy` where
    /// it is leased, is not at rest, or has no room for a page. Then the page comes back.
    pub fn load(&mut self, name: &[u8], page: Source) -> Result<(), (Status, Source)>
        ensures answer { without_return result ≡ load_answer (table D.state self.old) name.now }
        ensures after { table D.state self.new ≡ table_after_load (table D.state self.old) name.now
            (⟦<Source as PageSource>⟧.source page) }
        ensures given_back { IfErr result (λ e. e.1 ≡ page) }
    {
        let Some(k) = find_name(&self.places, name) else {
            return Err((Status::Inval, page));
        };
        load_slot(&mut self.places[k].slot, page)
    }

    /// Whether a device is listed under the name, leased or not.
    pub fn lists(&self, name: &[u8]) -> bool
        ensures { result ≡ is_some (find_name name.now (table D.state self.now)) }
    {
        let place = find_name(&self.places, name);
        match place {
            Some(_) => true,
            None => false,
        }
    }
}
