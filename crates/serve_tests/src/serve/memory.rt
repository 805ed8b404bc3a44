//! Connections in memory, and listeners that keep what they are handed back.

ghost use Rattle.std.specs.Prelude.{◌≤◌, ◌≡◌, ◌+◌, vec_len};

use saned_serve::{Got, Listeners, Socket};
use std::alloc::{AllocError, Global};
use std::process::Abort;

/// A connection whose peer says all that it says beforehand, and that keeps all that it is sent.
#[derive(Drop)]
pub struct MemorySocket {
    pub script: Vec<u8>,
    /// How many bytes of its script were read.
    pub at: usize,
    /// The most that a call moves.
    pub piece: usize,
    /// How many writes, the first ones, take nothing.
    pub deaf: u64,
    /// It is lost behind its script, and once it has taken all that it takes.
    pub is_cut: bool,
    pub out: Vec<u8>,
    /// How many bytes more it takes.
    room: usize,
    ghost inside: { at ≤ vec_len script },
}

impl MemorySocket {
    /// It moves up to 65,540 bytes a call, and takes so many in all.
    pub fn new(alloc: Global, script: &[u8], room: usize) -> Result<MemorySocket, AllocError> {
        let mut all = Vec::new(alloc);
        all.extend_from_slice(script)?;
        Ok(MemorySocket {
            script: all,
            at: 0,
            piece: 65_540,
            deaf: 0,
            is_cut: false,
            out: Vec::new(alloc),
            room,
        })
    }
}

impl Socket for MemorySocket {
    fn read(&mut self, buf: &mut [u8]) -> Got {
        let n = self.piece.min(buf.len()).min(self.script.len() - self.at);
        if n == 0 {
            return if self.is_cut { Got::Lost } else { Got::Nothing };
        }
        buf[..n].copy_from_slice(&self.script[self.at..self.at + n]);
        self.at += n;
        Got::Moved(n)
    }

    fn write(&mut self, buf: &[u8]) -> Got {
        if self.deaf > 0 {
            self.deaf -= 1;
            return Got::Nothing;
        }
        let n = self.piece.min(buf.len()).min(self.room);
        if n == 0 {
            return if self.is_cut { Got::Lost } else { Got::Nothing };
        }
        if self.out.extend_from_slice(&buf[..n]).is_err() {
            return Got::Lost;
        }
        self.room -= n;
        Got::Moved(n)
    }
}

/// Clients that connect one after the other, from the last, the data connections that come, and what was handed back. A call
/// at a port that is not open is no call of the loop's, and aborts.
#[derive(Drop)]
pub struct MemoryNet<R: Abort + Drop> {
    rt: R,
    pub clients: Vec<MemorySocket>,
    pub images: Vec<MemorySocket>,
    pub accepted: u64,
    /// How often it was asked for a client, so how many turns there were while a slot was free.
    pub asked: u64,
    /// How often it was asked to forget what had ended at a port.
    pub forgotten: u64,
    /// How many data ports it has left.
    pub ports: u16,
    /// Those that are open.
    open: Vec<u16>,
    pub back: Vec<MemorySocket>,
}

impl<R: Abort + Drop> MemoryNet<R> {
    /// A net without connections, which aborts where what it hands out or takes back is not as it must be.
    pub fn new(rt: R, alloc: Global) -> MemoryNet<R> {
        MemoryNet {
            rt,
            clients: Vec::new(alloc),
            images: Vec::new(alloc),
            accepted: 0,
            asked: 0,
            forgotten: 0,
            ports: 100,
            open: Vec::new(alloc),
            back: Vec::new(alloc),
        }
    }

    /// Whether every data port was closed.
    pub fn has_closed_all(&self) -> bool {
        self.open.is_empty()
    }

    fn expect_open(&self, port: u16) {
        if !self.open.contains(&port) {
            self.rt.abort()
        }
    }

    fn count(&mut self)
        ensures accepted { self.new.accepted ≡ self.old.accepted + 1 }
        ensures back { self.new.back ≡ self.old.back }
    {
        let Some(accepted) = self.accepted.checked_add(1) else {
            self.rt.abort()
        };
        self.accepted = accepted;
    }
}

impl<R: Abort + Drop> Listeners for MemoryNet<R> {
    type Conn = MemorySocket;

    fn accept(&mut self) -> Option<MemorySocket> {
        self.asked = self.asked.saturating_add(1);
        let conn = self.clients.pop()?;
        if conn.at > 0 || conn.out.len() > 0 {
            self.rt.abort()
        }
        self.count();
        Some(conn)
    }

    /// The first port that is not open.
    fn open_data(&mut self) -> Option<u16> {
        self.ports = self.ports.checked_sub(1)?;
        let port = (40_001..40_101).find(|port| !self.open.contains(port))?;
        self.open.push(port).ok()?;
        Some(port)
    }

    fn forget_ended(&mut self, port: u16) {
        self.expect_open(port);
        self.forgotten = self.forgotten.saturating_add(1);
    }

    fn accept_data(&mut self, port: u16) -> Option<MemorySocket> {
        self.expect_open(port);
        let conn = self.images.pop()?;
        if conn.at > 0 || conn.out.len() > 0 {
            self.rt.abort()
        }
        self.count();
        Some(conn)
    }

    fn close_data(&mut self, port: u16) {
        let Some(at) = self.open.iter().position(|open| *open == port) else {
            self.rt.abort()
        };
        if at < self.open.len() {
            let _ = self.open.swap_remove(at);
        }
    }

    fn close(&mut self, conn: MemorySocket) {
        if self.back.push(conn).is_err() {
            self.rt.abort()
        }
    }
}
