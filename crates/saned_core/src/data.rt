//! The data connection of a session: records of what its device reads.

ghost use Rattle.std.specs.Prelude.{◌≡◌, ◌<◌, ◌≤◌, IfOk, IfSome, option_map, take, length};
ghost use Rattle.sane_fixed.specs.Status.{status_code};
ghost use Rattle.data_records.specs.Records.{end_record};
ghost use Rattle.saned_requests.specs.Holding.{cancelled_lease, seen_held, seen_session, with_cancelled, held_by};
ghost use Rattle.saned_core.specs.DaemonStates.{after_connected, after_lost, frame_state_of, data_phase_connected};
ghost use Rattle.saned_core.specs.Turns.{TurnsStream, WritesEndRecord};
ghost use Rattle.saned_core.specs.Inside.{ReadsWord};

use crate::session_slot::{DataStep, FrameState};
use device_api::Device;
use dispatch::Lease;
use sane_fixed::Status;
use saned_requests::{DataPhase, Session, cancel_word};
use wire_codec::{record_end, record_head};

/// The most bytes of a record.
const RECORD_LIMIT: usize = 65536;

/// What callers see of a frame.
pub fn state_of(transfer: DataPhase) -> FrameState
    ensures { result ≡ frame_state_of transfer }
{
    match transfer {
        DataPhase::Quiet => FrameState::Quiet,
        DataPhase::Waiting(_) => FrameState::Waiting,
        DataPhase::Streaming(_) => FrameState::Streaming,
        DataPhase::Ending => FrameState::Ending,
    }
}

/// A connection for what waits for one.
pub fn data_phase_connected(transfer: DataPhase) -> DataPhase
    ensures { result ≡ data_phase_connected transfer }
{
    match transfer {
        DataPhase::Waiting(word) => DataPhase::Streaming(word),
        other => other,
    }
}

/// One read of the device that a word stands for.
fn read_word<D: Device>(
    held: &mut [Option<Lease<D>>],
    word: usize,
    window: &mut [u8],
) -> Option<Result<usize, Status>>
    requires { 0 < length window.old }
    ensures reads { ReadsWord (seen_held D.state held.old) word result
        (seen_held D.state held.new) window.new }
    ensures room { IfSome result (λ answer. IfOk answer (λ n. n ≤ length window.new)) }
{
    if word >= held.len() {
        return None;
    }
    match &mut held[word] {
        Some(lease) => Some(lease.device.read(window)),
        None => None,
    }
}

/// Writes the end record.
fn put_end(buf: &mut [u8], status: Status) -> DataStep
    requires { 8 ≤ length buf.old }
    ensures { WritesEndRecord status result buf.new }
{
    buf[..5].copy_from_slice(&record_end(status));
    DataStep::Last(5)
}

/// One turn of the data connection.
pub fn turn<D: Device>(session: &mut Session<D>, buf: &mut [u8]) -> DataStep
    requires { 8 ≤ length buf.old }
    ensures { TurnsStream (seen_session D.state session.old) result
        (seen_session D.state session.new) buf.new }
{
    match session.transfer {
        DataPhase::Quiet | DataPhase::Waiting(_) => DataStep::Idle,
        DataPhase::Streaming(word) => {
            let room = (buf.len() - 4).min(RECORD_LIMIT);
            match read_word(&mut session.held, word, &mut buf[4..4 + room]) {
                None => DataStep::Idle,
                Some(Ok(n)) => {
                    buf[..4].copy_from_slice(&record_head(n as u32));
                    DataStep::Bytes(4 + n)
                }
                Some(Err(status)) => {
                    session.transfer = DataPhase::Quiet;
                    put_end(buf, status)
                }
            }
        }
        DataPhase::Ending => {
            session.transfer = DataPhase::Quiet;
            put_end(buf, Status::Cancelled)
        }
    }
}

/// The data connection is lost.
pub fn lose<D: Device>(session: &mut Session<D>)
    ensures { seen_session D.state session.new ≡ after_lost (seen_session D.state session.old) }
{
    match session.transfer {
        DataPhase::Quiet | DataPhase::Waiting(_) => {}
        DataPhase::Streaming(word) => {
            cancel_word(&mut session.held, word);
            session.transfer = DataPhase::Quiet;
        }
        DataPhase::Ending => session.transfer = DataPhase::Quiet,
    }
}
