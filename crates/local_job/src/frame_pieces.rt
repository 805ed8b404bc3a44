ghost use Rattle.std.specs.Prelude.{◌≡◌, ◌<◌, ◌⊎◌, Some, ℕ, OnOk, OnErr, length, true};
ghost use Rattle.local_job.specs.Inside.{FrameHasCause, HasRoomForMore, HasTakenMore, IfBegun, IfInside, IsReadThrough, join_and_output};
ghost use Rattle.scan_job.specs.FileOutputs.{StopsShort};
ghost use Rattle.std.specs.Prelude.{◌≢◌, IfErr};
ghost use Rattle.sane_fixed.specs.declared.status.Status.TheVariants.{Good, NoDocs};
ghost use Rattle.device_api.specs.State.{Reading, after_pass, goes_to};
ghost use Rattle.local_job.specs.FrameReading.{IsRefusal, KeepsDevice};
ghost use Rattle.scan_job.specs.Stops.{no_memory, failed_output};
ghost use Rattle.scan_job.specs.declared.outcome.Why.TheVariants.{Sink};

use crate::drain::drain;
use crate::local_stop::{read_refused, stop_of_join};
use crate::outlet::Outlet;
use byte_output::OutputTally;
use device_api::Device;
use frame_join::{FrameJoin, not_whole_before};
use sane_fixed::Status;
use scan_job::Stop;

/// Takes the next bytes of a frame into the join, and the output takes what may go out.
fn take_piece<W: Outlet>(
    join: &mut FrameJoin,
    bytes: &[u8],
    room: &mut [u8],
    out: &mut W,
    outputs: &mut OutputTally,
) -> Result<(), Stop>
    requires { 0 < length room.old }
    ensures room { length room.new ≡ length room.old }
    ensures becomes { (first : W) → W.Becomes first out.old → W.Becomes first out.new }
    ensures taken { OnOk result
        (IfInside (join_and_output join.old (W.contents out.old)) (λ under.
        HasTakenMore under bytes.now (join_and_output join.new (W.contents out.new)))) }
    ensures short { OnErr result
        (IfInside (join_and_output join.old (W.contents out.old)) (λ under.
        StopsShort under.first (W.contents out.new))) }
    ensures refusal { IfErr result (λ stop. IsRefusal stop) }
    ensures output { IfErr result (λ stop. stop.why ≡ Sink
        → IfInside (join_and_output join.old (W.contents out.old)) (λ under.
        outputs.new.failed ≡ true)) }
    // Bytes that the frame has room for are never too many.
    ensures cause { IfErr result (λ stop.
        IfInside (join_and_output join.old (W.contents out.old)) (λ under.
        HasRoomForMore under bytes.now → (stop ≡ no_memory) ⊎ (stop ≡ failed_output))) }
{
    not_whole_before();
    join.feed(bytes);
    if let Some(fault) = join.fault() {
        return Err(stop_of_join(fault));
    }
    if drain(join, room, out, outputs) {
        Ok(())
    } else {
        Err(Stop::failed_output())
    }
}

/// Reads a frame to its end: its bytes go into the join, and the output takes what may go out.
pub fn read_frame<W: Outlet>(
    device: &mut dyn Device,
    join: &mut FrameJoin,
    piece: &mut [u8],
    room: &mut [u8],
    out: &mut W,
    outputs: &mut OutputTally,
) -> Result<(), Stop>
    requires piece { 0 < length piece.old }
    requires room { 0 < length room.old }
    requires told { (state device.old).setup.told ≢ Some Good }
    ensures room { length room.new ≡ length room.old }
    ensures becomes { (first : W) → W.Becomes first out.old → W.Becomes first out.new }
    ensures read { OnOk result
        (IfBegun (state device.old) (join_and_output join.old (W.contents out.old)) (λ pass under.
        IsReadThrough (state device.old) pass under
        (join_and_output join.new (W.contents out.new)))) }
    ensures short { OnErr result
        (IfBegun (state device.old) (join_and_output join.old (W.contents out.old)) (λ pass under.
        StopsShort under.first (W.contents out.new))) }
    ensures ended { OnOk result ((pass : ℕ)
        → (state device.old).phase ≡ Reading pass 0 → state device.new
        ≡ goes_to (state device.old) (after_pass (state device.old).setup pass)) }
    ensures refusal { IfErr result (λ stop. (pass : ℕ)
        → (state device.old).phase ≡ Reading pass 0 → IsRefusal stop) }
    // After its first byte no status is told, and before it EOF alone ends a frame.
    ensures untold { OnOk result ((pass : ℕ)
        → (state device.old).phase ≡ Reading pass 0 → (state device.old).setup.told ≢ Some NoDocs) }
    // Where the frame has room for the bytes of its pass.
    ensures cause { IfErr result (λ stop.
        IfBegun (state device.old) (join_and_output join.old (W.contents out.old))
        (FrameHasCause stop (state device.old) (state device.new))) }
    // What a read answers is never told as an output that failed.
    ensures output { IfErr result (λ stop. stop.why ≡ Sink
        → IfBegun (state device.old) (join_and_output join.old (W.contents out.old)) (λ pass under.
        outputs.new.failed ≡ true)) }
    ensures same { KeepsDevice (state device.old) (state device.new) }
{
    not_whole_before();
    loop {
        let n = match device.read(piece) {
            Ok(n) => n,
            Err(status) if status == Status::Eof => return Ok(()),
            Err(status) => return Err(read_refused(status)),
        };
        take_piece(join, &piece[..n], room, out, outputs)?;
    }
}
