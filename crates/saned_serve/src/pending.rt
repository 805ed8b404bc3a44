//! Bytes that wait to be written, in room that was made before.

ghost use Rattle.std.specs.Prelude.{◌≡◌, ◌≤◌, ℕ, List, [], length, drop, slice_range, vec_len, IfOk, IsTrue, ◌↔◌};
ghost use Rattle.saned_core.specs.DaemonStates.{core};
ghost use Rattle.saned_serve.specs.ConnectionTraces.{bytes_moved, MovesWithin, after_write};
ghost use Rattle.saned_serve.specs.SessionActions.{ActsOn, written_by, is_end_record};
ghost use Rattle.saned_serve.specs.SessionActions.SessionAction.{Take, Turn};

use crate::{Got, Socket};
use device_api::Device;
use saned_core::{Daemon, DataStep, SessionId};
use std::alloc::{AllocError, Global};
use std::marker::Model;

/// Contracts see the list of the bytes that wait.
#[derive(Drop)]
pub struct PendingBytes<const ROOM: usize> {
    room: Vec<u8>,
    from: usize,
    to: usize,
}

impl<const ROOM: usize> Model for PendingBytes<ROOM> {
    ghost Value = { List ℕ };

    ghost view = { λ p. slice_range p.room.items p.from p.to };

    ghost invariant = { λ p. (p.from ≤ p.to) × (p.to ≤ vec_len p.room) × (vec_len p.room ≡ ROOM) × (8 ≤ ROOM) };
}

/// How many bytes a turn wrote.
fn written(step: DataStep) -> usize
    ensures { result ≡ written_by step }
{
    match step {
        DataStep::Idle => 0,
        DataStep::Bytes(n) | DataStep::Last(n) => n,
    }
}

/// Whether a turn wrote the end record.
pub fn is_end(step: DataStep) -> bool
    ensures { result ≡ is_end_record step }
{
    match step {
        DataStep::Idle | DataStep::Bytes(_) => false,
        DataStep::Last(_) => true,
    }
}

impl<const ROOM: usize> PendingBytes<ROOM> {
    /// Room of which no bytes wait.
    pub fn new(alloc: Global) -> Result<PendingBytes<ROOM>, AllocError>
        requires { 8 ≤ ROOM }
        ensures { IfOk result (λ p. p ≡ []) }
    {
        let room = vec![in alloc; 0u8; ROOM]?;
        Ok(PendingBytes {
            room,
            from: 0,
            to: 0,
        })
    }

    /// Whether none wait.
    pub fn is_empty(&self) -> bool
        ensures { IsTrue result ↔ (self.now ≡ []) }
    {
        self.from == self.to
    }

    /// Drops those that wait.
    pub fn clear(&mut self)
        ensures { self.new ≡ [] }
    {
        self.from = 0;
        self.to = 0;
    }

    /// One write of what waits.
    pub fn write_to<S: Socket>(&mut self, conn: &mut S) -> Got
        ensures rest { self.new ≡ drop (bytes_moved result) self.old }
        ensures within { MovesWithin result (length self.old) }
        ensures told { S.history conn.new ≡ after_write result self.old (S.history conn.old) }
    {
        let got = conn.write(&self.room[self.from..self.to]);
        if let Got::Moved(n) = got {
            self.from += n;
        }
        got
    }

    /// Takes replies of a session, in place of what waits.
    pub fn take_reply<D: Device>(&mut self, daemon: &mut Daemon<D>, id: SessionId)
        ensures { ActsOn id.number (core D.state daemon.old) (Take ROOM self.new)
            (core D.state daemon.new) }
    {
        let n = daemon.take_reply(id, self.room.as_mut_slice());
        self.from = 0;
        self.to = n;
    }

    /// Takes a record of a session, in place of what waits.
    pub fn take_record<D: Device>(&mut self, daemon: &mut Daemon<D>, id: SessionId) -> DataStep
        ensures { ActsOn id.number (core D.state daemon.old) (Turn ROOM result self.new)
            (core D.state daemon.new) }
    {
        let step = daemon.data_turn(id, self.room.as_mut_slice());
        self.from = 0;
        self.to = written(step);
        step
    }
}
