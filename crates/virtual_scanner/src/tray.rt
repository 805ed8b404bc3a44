//! The pages in a scanner, the first of which is scanned.

ghost use Rattle.std.specs.Prelude.{◌≡◌, ◌≢◌, ◌<◌, ◌≤◌, ◌-◌, [], map, true, false, All, IsOk, OnOk, OnErr, vec_len, vec_capacity, length};
ghost use Rattle.page_sources.specs.SourceView.{source_state};
ghost use Rattle.scan_frames.specs.Frames.{IsSetup};
ghost use Rattle.scan_frames.specs.PassReading.{BeginsPass, IsFrame};
ghost use Rattle.device_api.specs.ScannerLimits.{IsHeldPage};
ghost use Rattle.device_api.specs.Kinds.{is_feeder};
ghost use Rattle.device_api.specs.State.{held_from, left_behind, pages_with, params_in, tray_room};
ghost use Rattle.virtual_scanner.specs.Answers.{AnswersOnFirst};
ghost use Rattle.virtual_scanner.specs.First.{OfFirst, OnFirst};

use crate::at::answer_read;
use device_api::is_feeder;
use page_picture::{DeviceKind, PageSource};
use page_sources::Source;
use sane_fixed::{Params, Status};
use scan_frames::{BeginFault, FrameRows, Setup, params, params_without};
use std::alloc::Global;

/// The most pages that lie in a feeder's tray.
pub const TRAY_ROOM: usize = 16;

/// What is told of the frame of a pass over the first page.
pub fn params_on(tray: &[Source], setup: &Setup, pass: u32) -> Params
    requires { IsSetup setup.now }
    ensures { result ≡ params_in (map held_from (map source_state tray.now)) setup.now pass }
{
    match tray {
        [] => params_without(setup, pass),
        [first, ..] => params(first, setup, pass),
    }
}

/// Begins the frame of a pass over the first page.
pub fn begin_frame(
    alloc: Global,
    tray: &mut Vec<Source>,
    setup: &Setup,
    pass: u32,
) -> Result<FrameRows, BeginFault>
    requires page { 0 < vec_len tray.old }
    requires setup { IsSetup setup.now }
    ensures begins { OnFirst (λ s t. BeginsPass s setup.now pass result t)
        (map source_state tray.old.items) (map source_state tray.new.items) }
    ensures room { vec_capacity tray.new ≡ vec_capacity tray.old }
{
    FrameRows::begin(alloc, &mut tray[0], setup, pass)
}

/// Answers a read in a frame of the first page.
pub fn read_frame(
    frame: &mut FrameRows,
    tray: &mut Vec<Source>,
    setup: &Setup,
    buf: &mut [u8],
) -> Result<usize, Status>
    requires setup { IsSetup setup.now }
    requires frame { OfFirst (λ s. IsFrame s setup.now frame.old)
        (map source_state tray.old.items) }
    requires buf { 0 < length buf.old }
    ensures answers { AnswersOnFirst setup.now
        (record { frame = frame.old; pages = map source_state tray.old.items }) result
        (record { frame = frame.new; pages = map source_state tray.new.items }) buf.new }
    ensures room { vec_capacity tray.new ≡ vec_capacity tray.old }
{
    answer_read(frame, &mut tray[0], setup, buf)
}

/// Lets go of the page that was scanned, if pages are fed.
pub fn let_go(kind: DeviceKind, tray: &mut Vec<Source>)
    ensures left { tray.new.items ≡ left_behind (is_feeder kind) tray.old.items }
    ensures room { vec_capacity tray.new ≡ vec_capacity tray.old }
{
    if is_feeder(kind) && !tray.is_empty() {
        let _scanned = tray.remove(0);
    }
}

/// Lays a page behind the others of a feeder, or puts it in the place of another scanner's one. Gives it back where a
/// tray is full.
pub fn put_page(kind: DeviceKind, tray: &mut Vec<Source>, page: Source) -> Result<(), Source>
    requires reserved { is_feeder kind ≡ true → tray_room ≤ vec_capacity tray.old }
    requires one { is_feeder kind ≡ false → vec_len tray.old ≡ 1 }
    ensures limits { IsHeldPage (held_from (source_state page)) }
    ensures put { is_feeder kind ≡ false → IsOk result }
    ensures laid { vec_len tray.old < tray_room → IsOk result }
    ensures full { is_feeder kind ≡ true → tray_room ≤ vec_len tray.old → result ≡ Err page }
    ensures fits { OnOk result (is_feeder kind ≡ true → vec_len tray.old < tray_room) }
    ensures ok { OnOk result (tray.new.items ≡ pages_with (is_feeder kind) tray.old.items page) }
    ensures err { OnErr result (tray.new ≡ tray.old) }
    ensures room { vec_capacity tray.old ≤ vec_capacity tray.new }
{
    // The limits of a page.
    let _size = page.size();
    if !is_feeder(kind) {
        tray[0] = page;
        return Ok(());
    }
    if tray.len() >= TRAY_ROOM {
        return Err(page);
    }
    tray.push(page).map_err(|failed| failed.value)
}

/// Each page of a tray has the limits of a page.
pub fn see_limits(tray: &[Source])
    ensures { All IsHeldPage (map held_from (map source_state tray.now)) }
{
    for page in tray {
        let _size = page.size();
    }
}
