//! How the one job of a world stands.

ghost use Rattle.std.specs.Prelude.{◌≡◌, Some, true};
ghost use Rattle.device_api.specs.State.{DeviceState};
ghost use Rattle.sane_fixed.specs.declared.status.Status.TheVariants as statuses;
ghost use Rattle.scan_job.specs.declared.outcome.Outcome.TheVariants.{Done};
ghost use Rattle.scan_job.specs.declared.report.Reports.{Reports};
ghost use Rattle.event_world.specs.Worlds.{seen_world};
ghost use Rattle.scan_world.specs.Calls.{outcome_at};
ghost use Rattle.worked_worlds.specs.Inside.{IsOtherEnd};
ghost use Rattle.worked_worlds.specs.Worked.{SaysAnswered, SaysDone};

use device_api::Device;
use net_backend::{Outcome, Why};
use sane_fixed::Status;
use scan_world::World;

/// Whether it is done: then so that it is right.
pub(crate) fn is_done(world: &World) -> bool
    ensures { let w = seen_world ⟦<Box<dyn Device> as Device>⟧.state world.now.inner in
        result ≡ true → SaysDone w }
{
    match world.outcome(0) {
        Some(Outcome::Done(_)) => true,
        Some(_) | None => false,
    }
}

/// Whether it was answered ACCESS_DENIED.
pub(crate) fn was_denied(world: &World) -> bool
    ensures { let w = seen_world ⟦<Box<dyn Device> as Device>⟧.state world.now.inner in
        result ≡ true → SaysAnswered w statuses.AccessDenied }
{
    match world.outcome(0) {
        Some(Outcome::Ended(Status::AccessDenied, Why::Answer)) => true,
        Some(_) | None => false,
    }
}

/// Whether it was answered INVAL.
pub(crate) fn was_invalid(world: &World) -> bool
    ensures { let w = seen_world ⟦<Box<dyn Device> as Device>⟧.state world.now.inner in
        result ≡ true → SaysAnswered w statuses.Inval }
{
    match world.outcome(0) {
        Some(Outcome::Ended(Status::Inval, Why::Answer)) => true,
        Some(_) | None => false,
    }
}

/// Whether it was answered NO_DOCS.
pub(crate) fn had_no_docs(world: &World) -> bool
    ensures { let w = seen_world ⟦<Box<dyn Device> as Device>⟧.state world.now.inner in
        result ≡ true → SaysAnswered w statuses.NoDocs }
{
    match world.outcome(0) {
        Some(Outcome::Ended(Status::NoDocs, Why::Answer)) => true,
        Some(_) | None => false,
    }
}

/// How it ended.
#[derive(Clone, Copy, Debug, PartialEq, Eq)]
pub(crate) enum End {
    Done,
    /// It is told as out of memory.
    OutOfMemory,
    Other,
}

/// How the one job ended, or stands.
pub(crate) fn end_of(world: &World) -> End
    ensures done { let w = seen_world ⟦<Box<dyn Device> as Device>⟧.state world.now.inner in
        result ≡ End.Done → (reports : Reports) × (outcome_at w 0 ≡ Some (Done reports)) }
    ensures other { let w = seen_world ⟦<Box<dyn Device> as Device>⟧.state world.now.inner in
        result ≡ End.Other → IsOtherEnd w 0 }
{
    end_at(world, 0)
}

/// How job i ended, or stands.
pub(crate) fn end_at(world: &World, i: usize) -> End
    ensures done { let w = seen_world ⟦<Box<dyn Device> as Device>⟧.state world.now.inner in
        result ≡ End.Done → (reports : Reports) × (outcome_at w i ≡ Some (Done reports)) }
    ensures other { let w = seen_world ⟦<Box<dyn Device> as Device>⟧.state world.now.inner in
        result ≡ End.Other → IsOtherEnd w i }
{
    if world.starved(i) {
        return End::OutOfMemory;
    }
    match world.outcome(i) {
        Some(Outcome::Done(_)) => End::Done,
        Some(Outcome::Ended(Status::NoMem, Why::Memory)) => End::OutOfMemory,
        Some(_) | None => End::Other,
    }
}
