ghost use Rattle.std.specs.Prelude.{◌≡◌, ◌≢◌, ◌<◌, ◌⊎◌, true, false, Some, None, length, Option, List, ℕ, [], IfErr, OnOk, OnErr, IfOk};
ghost use Rattle.std.specs.Io.KnownBytes.{Appends};
ghost use Rattle.sane_fixed.specs.declared.status.Status.TheVariants.{Inval, NoDocs};
ghost use Rattle.frame_join.specs.FrameHistory.{JoinHistory, empty_history, is_accepted, is_full};
ghost use Rattle.frame_join.specs.JoinStates.{Represents};
ghost use Rattle.scan_frames.specs.Frames.{has_picture};
ghost use Rattle.device_api.specs.ScannerLimits.{HasLimits};
ghost use Rattle.device_api.specs.State.{goes_to, is_at_rest, is_reading, next_pass, page_of, params_of, state_at_rest, with_phase, AtRest, Reading};
ghost use Rattle.scan_job.specs.FileOutputs.{StopsShort};
ghost use Rattle.local_job.specs.LocalStops.{stop_by_status};
ghost use Rattle.scan_job.specs.Stops.{no_memory};
ghost use Rattle.scan_job.specs.declared.outcome.Why.TheVariants.{Sink};
ghost use Rattle.local_job.specs.FrameReading.{IsRefusal, KeepsDevice, IsScanned};
ghost use Rattle.local_job.specs.Inside.{FrameEndsAs, IfInside, IfJoined, JoinIsBetween, JoinsFrame, MeantHasCause, ScansNextPass, join_and_output, new_frame, scan_state};

use crate::drain::drain;
use crate::frame_pieces::read_frame;
use crate::local_stop::{malformed_frames, stop_by_status, stop_of_join};
use crate::outlet::{GivenOutput, Outlet};
use byte_output::OutputTally;
use device_api::Device;
use frame_join::{FrameJoin, not_whole_before, whole_shows};
use scan_frames::frames_show_the_picture;
use scan_job::Stop;
use scan_laws::a_join_takes_the_frames_of_a_scan;
use std::alloc::{AllocError, Global};
use std::io::Write;

/// The most bytes that are read at once: so many that a scan makes few calls.
pub const PIECE: usize = 65_536;

/// The most bytes that are written at once.
pub const ROOM: usize = 65_536;

/// A picture has one frame, or three.
const MOST_PASSES: u32 = 3;

/// Begins a scan, or its next pass.
fn start_pass(alloc: Global, device: &mut dyn Device) -> Result<(), Stop>
    requires { is_reading (state device.old).phase ≡ false }
    ensures some { OnOk result ((state device.old).pages ≢ []) }
    ensures picture { OnOk result (has_picture (state device.old).setup (page_of (state device.old))
        ≡ true) }
    ensures empty { IfErr result (λ stop. (state device.old).pages ≡ []
        → stop ≡ stop_by_status NoDocs) }
    ensures stays { OnErr result ((state device.old).pages ≡ []
        → state device.new ≡ with_phase (state device.old) (AtRest false)) }
    ensures none { IfErr result (λ stop. (state device.old).pages ≢ []
        → has_picture (state device.old).setup (page_of (state device.old)) ≡ false
        → stop ≡ stop_by_status Inval) }
    ensures started { OnOk result (state device.new
        ≡ with_phase (state device.old) (Reading (next_pass (state device.old).phase) 0)) }
    ensures refusal { IfErr result (λ stop. IsRefusal stop) }
    ensures output { IfErr result (λ stop. stop.why ≢ Sink) }
    ensures cause { IfErr result
        (λ stop. MeantHasCause stop (state device.old) (state device.new)) }
    ensures same { KeepsDevice (state device.old) (state device.new) }
{
    match device.start(alloc) {
        Ok(()) => Ok(()),
        Err(status) => Err(stop_by_status(status)),
    }
}

/// Begins the frame of the pass that the scanner reads.
fn begin_frame(alloc: Global, device: &dyn Device, join: &mut FrameJoin) -> Result<(), Stop>
    ensures begun { OnOk result ((past : JoinHistory) → JoinIsBetween past join.old
        → Represents (record past { under = Some (new_frame (state device.now)) }) join.new) }
    ensures limits { HasLimits (state device.now) }
    ensures refusal { IfErr result (λ stop. IsRefusal stop) }
    ensures output { IfErr result (λ stop. stop.why ≢ Sink) }
    ensures cause { IfErr result (λ stop. (past : JoinHistory) → JoinIsBetween past join.old
        → is_accepted past.ended (params_of (state device.now)) (state device.now).setup.order
        ≡ true → stop ≡ no_memory) }
{
    let params = device.params();
    join.begin(alloc, &params, device.order());
    match join.fault() {
        Some(fault) => Err(stop_of_join(fault)),
        None => Ok(()),
    }
}

/// Ends the frame, and the output takes what may go out then. Says whether the picture is whole.
fn end_frame<W: Outlet>(
    join: &mut FrameJoin,
    room: &mut [u8],
    out: &mut W,
    outputs: &mut OutputTally,
) -> Result<bool, Stop>
    requires { 0 < length room.old }
    ensures room { length room.new ≡ length room.old }
    ensures becomes { (first : W) → W.Becomes first out.old → W.Becomes first out.new }
    ensures ended { IfOk result (λ is_whole.
        IfInside (join_and_output join.old (W.contents out.old)) (λ under.
        JoinsFrame under.past under.frame is_whole under.first
        (join_and_output join.new (W.contents out.new)))) }
    ensures short { OnErr result
        (IfInside (join_and_output join.old (W.contents out.old)) (λ under.
        StopsShort under.first (W.contents out.new))) }
    ensures refusal { IfErr result (λ stop. IsRefusal stop) }
    ensures output { IfErr result (λ stop. stop.why ≡ Sink
        → IfInside (join_and_output join.old (W.contents out.old)) (λ under.
        outputs.new.failed ≡ true)) }
    // A frame that has all its bytes is not refused, and another is short.
    ensures cause { IfErr result (λ stop.
        IfInside (join_and_output join.old (W.contents out.old)) (λ under.
        FrameEndsAs (is_full under.frame) stop)) }
{
    not_whole_before();
    let is_whole = match join.end() {
        Ok(is_whole) => is_whole,
        Err(fault) => return Err(stop_of_join(fault)),
    };
    if drain(join, room, out, outputs) {
        Ok(is_whole)
    } else {
        Err(Stop::failed_output())
    }
}

/// So many bytes to read or write through.
pub fn zeros(alloc: Global, size: usize) -> Result<Vec<u8>, AllocError>
    ensures { IfOk result (λ bytes. length bytes.items ≡ size) }
{
    vec![in alloc; 0u8; size]
}

/// Reads the next pass of a scan, and the output takes what may go out. Says whether the picture is whole.
fn scan_pass<W: Outlet>(
    alloc: Global,
    device: &mut dyn Device,
    join: &mut FrameJoin,
    piece: &mut [u8],
    room: &mut [u8],
    out: &mut W,
    outputs: &mut OutputTally,
) -> Result<bool, Stop>
    requires rest { is_reading (state device.old).phase ≡ false }
    requires piece { 0 < length piece.old }
    requires room { 0 < length room.old }
    ensures piece { length piece.new ≡ length piece.old }
    ensures room { length room.new ≡ length room.old }
    ensures becomes { (first : W) → W.Becomes first out.old → W.Becomes first out.new }
    ensures scanned { IfOk result (λ is_whole.
        ScansNextPass (scan_state (state device.old) join.old (W.contents out.old)) is_whole
        (scan_state (state device.new) join.new (W.contents out.new))) }
    ensures short { OnErr result
        (IfJoined (scan_state (state device.old) join.old (W.contents out.old)) (λ first.
        StopsShort first (W.contents out.new))) }
    ensures some { OnOk result ((state device.old).pages ≢ []) }
    ensures picture { OnOk result (has_picture (state device.old).setup (page_of (state device.old))
        ≡ true) }
    ensures empty { IfErr result (λ stop. (state device.old).pages ≡ []
        → stop ≡ stop_by_status NoDocs) }
    ensures stays { OnErr result ((state device.old).pages ≡ []
        → state device.new ≡ with_phase (state device.old) (AtRest false)) }
    ensures silent { OnErr result ((state device.old).pages ≡ [] → out.new ≡ out.old) }
    ensures none { IfErr result (λ stop. (state device.old).pages ≢ []
        → has_picture (state device.old).setup (page_of (state device.old)) ≡ false
        → stop ≡ stop_by_status Inval) }
    ensures untold { OnOk result ((state device.old).setup.told ≢ Some NoDocs) }
    ensures ended { OnOk result (is_reading (state device.new).phase ≡ false) }
    ensures refusal { IfErr result (λ stop. IsRefusal stop) }
    ensures output { IfErr result (λ stop. stop.why ≡ Sink
        → IfJoined (scan_state (state device.old) join.old (W.contents out.old)) (λ first.
        outputs.new.failed ≡ true)) }
    ensures cause { IfErr result (λ stop.
        IfJoined (scan_state (state device.old) join.old (W.contents out.old)) (λ first.
        MeantHasCause stop (state device.old) (state device.new))) }
    ensures well { OnOk result (state device.new
        ≡ goes_to (state device.old) (state device.new).phase) }
    ensures same { KeepsDevice (state device.old) (state device.new) }
{
    frames_show_the_picture();
    not_whole_before();
    whole_shows();
    a_join_takes_the_frames_of_a_scan();
    start_pass(alloc, device)?;
    begin_frame(alloc, &*device, join)?;
    read_frame(device, join, piece, room, out, outputs)?;
    end_frame(join, room, out, outputs)
}

/// Reads the passes of a scan, from the first, until the picture is whole.
pub fn scan_passes<W: Outlet>(
    alloc: Global,
    device: &mut dyn Device,
    join: &mut FrameJoin,
    piece: &mut [u8],
    room: &mut [u8],
    out: &mut W,
    outputs: &mut OutputTally,
) -> Result<(), Stop>
    requires rest { is_at_rest (state device.old).phase ≡ true }
    requires join { Represents empty_history join.old }
    requires piece { 0 < length piece.old }
    requires room { 0 < length room.old }
    ensures piece { length piece.new ≡ length piece.old }
    ensures room { length room.new ≡ length room.old }
    ensures done { OnOk result ((first : Option (List ℕ)) → Appends first (W.contents out.old) []
        → IsScanned (state device.old) first (W.contents out.new)) }
    ensures short { OnErr result ((first : Option (List ℕ))
        → Appends first (W.contents out.old) [] → StopsShort first (W.contents out.new)) }
    ensures becomes { (first : W) → W.Becomes first out.old → W.Becomes first out.new }
    ensures refusal { IfErr result (λ stop. IsRefusal stop) }
    ensures output { IfErr result (λ stop. stop.why ≡ Sink → outputs.new.failed ≡ true) }
    ensures empty { IfErr result (λ stop. (state device.old).pages ≡ []
        → stop ≡ stop_by_status NoDocs) }
    ensures stays { OnErr result ((state device.old).pages ≡ []
        → state device.new ≡ with_phase (state device.old) (AtRest false)) }
    ensures silent { OnErr result ((state device.old).pages ≡ [] → out.new ≡ out.old) }
    ensures none { IfErr result (λ stop. (state device.old).pages ≢ []
        → has_picture (state device.old).setup (page_of (state device.old)) ≡ false
        → stop ≡ stop_by_status Inval) }
    ensures cause { IfErr result
        (λ stop. MeantHasCause stop (state device.old) (state device.new)) }
    ensures untold { OnOk result ((state device.old).setup.told ≢ Some NoDocs) }
    ensures rest { OnOk result (state device.new ≡ state_at_rest (state device.old) false) }
    ensures same { KeepsDevice (state device.old) (state device.new) }
{
    not_whole_before();
    for _pass in 0..MOST_PASSES {
        if scan_pass(alloc, device, join, piece, room, out, outputs)? {
            return Ok(());
        }
    }
    Err(malformed_frames())
}

/// Scans the picture that the options of a scanner at rest mean on its page, and writes its file. The
/// output is not flushed.
pub fn scan_picture<W: Write>(
    alloc: Global,
    device: &mut dyn Device,
    out: &mut W,
    outputs: &mut OutputTally,
) -> Result<(), Stop>
    requires { is_at_rest (state device.old).phase ≡ true }
    ensures done { OnOk result ((first : Option (List ℕ)) → Appends first (W.contents out.old) []
        → IsScanned (state device.old) first (W.contents out.new)) }
    ensures short { OnErr result ((first : Option (List ℕ))
        → Appends first (W.contents out.old) [] → StopsShort first (W.contents out.new)) }
    ensures refusal { IfErr result (λ stop. IsRefusal stop) }
    ensures output { IfErr result (λ stop. stop.why ≡ Sink → outputs.new.failed ≡ true) }
    ensures empty { IfErr result (λ stop. (state device.old).pages ≡ []
        → (stop ≡ no_memory) ⊎ (stop ≡ stop_by_status NoDocs)) }
    ensures none { IfErr result (λ stop. (state device.old).pages ≢ []
        → has_picture (state device.old).setup (page_of (state device.old)) ≡ false
        → (stop ≡ no_memory) ⊎ (stop ≡ stop_by_status Inval)) }
    ensures cause { IfErr result
        (λ stop. MeantHasCause stop (state device.old) (state device.new)) }
    ensures rest { OnOk result (state device.new ≡ state_at_rest (state device.old) false) }
    ensures same { KeepsDevice (state device.old) (state device.new) }
{
    not_whole_before();
    let mut piece = zeros(alloc, PIECE)?;
    let mut room = zeros(alloc, ROOM)?;
    let mut join = FrameJoin::new(alloc);
    let mut plain = GivenOutput { out };
    let scanned = scan_passes(
        alloc, device, &mut join, &mut piece, &mut room, &mut plain, outputs,
    );
    let GivenOutput { out: _ } = plain;
    scanned
}
