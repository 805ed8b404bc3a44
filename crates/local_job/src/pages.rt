ghost use Rattle.std.specs.Prelude.{◌≡◌, ◌≢◌, ◌<◌, ◌↔◌, true, false, Some, length, [], IfOk, IfErr, IsTrue, OnOk, OnErr};
ghost use Rattle.sane_fixed.specs.declared.status.Status.TheVariants.{Inval, NoDocs};
ghost use Rattle.scan_frames.specs.Frames.{has_picture};
ghost use Rattle.device_api.specs.State.{is_at_rest, page_of, state_at_rest, with_phase, AtRest};
ghost use Rattle.local_job.specs.ScanCauses.{ScanHasCause};
ghost use Rattle.local_job.specs.FrameReading.{IsRefusal, KeepsDevice};
ghost use Rattle.local_job.specs.LocalPages.{AreScanned, StopsAt, with_shelf};
ghost use Rattle.local_job.specs.Inside.{FilesPage, LeavesPage};
ghost use Rattle.local_job.specs.LocalStops.{stop_by_status};
ghost use Rattle.scan_job.specs.declared.outcome.Why.TheVariants.{Sink};

use crate::page_out::{PageOut, give_back};
use crate::scan::{PIECE, ROOM, scan_passes, zeros};
use byte_output::OutputTally;
use device_api::Device;
use frame_join::{FrameJoin, not_whole_before};
use sane_fixed::Status;
use scan_job::{Shelf, Stop, Why};
use std::alloc::Global;

/// Scans the page that a scanner at rest has first, to the shelf's output of that number. Says whether the shelf kept
/// the output; the page is scanned all the same. A scan that ends otherwise leaves no whole file, and what the
/// shelf says then is noted and not heeded.
fn scan_page<S: Shelf>(
    alloc: Global,
    device: &mut dyn Device,
    piece: &mut [u8],
    room: &mut [u8],
    shelf: &mut S,
    number: u32,
    outputs: &mut OutputTally,
) -> Result<bool, Stop>
    requires rest { is_at_rest (state device.old).phase ≡ true }
    requires piece { 0 < length piece.old }
    requires room { 0 < length room.old }
    ensures piece { length piece.new ≡ length piece.old }
    ensures room { length room.new ≡ length room.old }
    ensures done { IfOk result (λ is_shelved.
        FilesPage (state device.old) number is_shelved (S.stock shelf.old) (S.stock shelf.new)) }
    ensures short { OnErr result (LeavesPage number (S.stock shelf.old) (S.stock shelf.new)) }
    ensures refusal { IfErr result (λ stop. IsRefusal stop) }
    ensures refused { IfOk result (λ is_shelved. is_shelved ≡ false → outputs.new.failed ≡ true) }
    ensures output { IfErr result (λ stop. stop.why ≡ Sink → outputs.new.failed ≡ true) }
    ensures empty { IfErr result (λ stop. (state device.old).pages ≡ []
        → stop ≡ stop_by_status NoDocs) }
    ensures stays { OnErr result ((state device.old).pages ≡ []
        → state device.new ≡ with_phase (state device.old) (AtRest false)) }
    ensures silent { OnErr result ((state device.old).pages ≡ []
        → S.stock shelf.new ≡ S.stock shelf.old) }
    ensures none { IfErr result (λ stop. (state device.old).pages ≢ []
        → has_picture (state device.old).setup (page_of (state device.old)) ≡ false
        → stop ≡ stop_by_status Inval) }
    ensures cause { IfErr result (λ stop. (state device.old).pages ≢ []
        → has_picture (state device.old).setup (page_of (state device.old)) ≡ true
        → ScanHasCause stop (state device.old) (state device.new)) }
    ensures untold { OnOk result ((state device.old).setup.told ≢ Some NoDocs) }
    ensures rest { OnOk result (state device.new ≡ state_at_rest (state device.old) false) }
    ensures same { KeepsDevice (state device.old) (state device.new) }
{
    not_whole_before();
    let mut join = FrameJoin::new(alloc);
    let mut page = PageOut {
        shelf,
        number,
        out: None,
    };
    let scanned = scan_passes(alloc, device, &mut join, piece, room, &mut page, outputs);
    let PageOut {
        shelf,
        number: _,
        out,
    } = page;
    let is_shelved = give_back(shelf, out, outputs);
    match scanned {
        Ok(()) => Ok(is_shelved),
        Err(stop) => Err(stop),
    }
}

/// Whether a scan ended since there was no page.
fn is_no_page(stop: Stop) -> bool
    ensures { IsTrue result ↔ (stop ≡ stop_by_status NoDocs) }
{
    matches!(
        stop,
        Stop {
            status: Status::NoDocs,
            why: Why::Answer,
        }
    )
}

/// Scans the pages, one after another.
fn scan_each<S: Shelf>(
    alloc: Global,
    device: &mut dyn Device,
    count: u32,
    piece: &mut [u8],
    room: &mut [u8],
    shelf: &mut S,
    outputs: &mut OutputTally,
) -> Result<(), Stop>
    requires rest { is_at_rest (state device.old).phase ≡ true }
    requires piece { 0 < length piece.old }
    requires room { 0 < length room.old }
    ensures done { OnOk result
        (AreScanned count (with_shelf (state device.old) (S.stock shelf.old))
        (with_shelf (state device.new) (S.stock shelf.new))) }
    ensures stop { IfErr result
        (λ stop. StopsAt count (with_shelf (state device.old) (S.stock shelf.old))
        (with_shelf (state device.new) (S.stock shelf.new)) stop) }
    ensures refusal { IfErr result (λ stop. IsRefusal stop) }
    ensures output { IfErr result (λ stop. stop.why ≡ Sink → outputs.new.failed ≡ true) }
{
    for behind in 0..count {
        match scan_page(alloc, device, piece, room, shelf, behind + 1, outputs) {
            Ok(true) => {}
            Ok(false) => return Err(Stop::failed_output()),
            Err(stop) if behind > 0 && is_no_page(stop) => return Ok(()),
            Err(stop) => return Err(stop),
        }
    }
    Ok(())
}

/// Scans so many pages of a scanner at rest, one after another, each to the shelf's output of its number, from 1. It is
/// done before that where at least one page was scanned and none is left.
pub fn scan_pages<S: Shelf>(
    alloc: Global,
    device: &mut dyn Device,
    count: u32,
    shelf: &mut S,
    outputs: &mut OutputTally,
) -> Result<(), Stop>
    requires { is_at_rest (state device.old).phase ≡ true }
    ensures done { OnOk result
        (AreScanned count (with_shelf (state device.old) (S.stock shelf.old))
        (with_shelf (state device.new) (S.stock shelf.new))) }
    ensures stop { IfErr result
        (λ stop. StopsAt count (with_shelf (state device.old) (S.stock shelf.old))
        (with_shelf (state device.new) (S.stock shelf.new)) stop) }
    ensures refusal { IfErr result (λ stop. IsRefusal stop) }
    ensures output { IfErr result (λ stop. stop.why ≡ Sink → outputs.new.failed ≡ true) }
{
    if count == 0 {
        return Ok(());
    }
    let mut piece = zeros(alloc, PIECE)?;
    let mut room = zeros(alloc, ROOM)?;
    scan_each(alloc, device, count, &mut piece, &mut room, shelf, outputs)
}
