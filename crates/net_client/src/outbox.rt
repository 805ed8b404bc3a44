use sane_fixed::NoMem;
use std::alloc::Global;
use std::marker::Model;

/// Bytes that are to go out, and room for more. Contracts see the bytes that have not gone, and the room.
#[derive(Drop)]
pub struct Outbox {
    bytes: Vec<u8>,
    // What stands before `start` has gone.
    start: usize,
}

impl Model for Outbox {
    ghost use Rattle.std.specs.Prelude.{◌≤◌, ◌-◌, length, drop, vec_len, vec_capacity};
    ghost use Rattle.net_client.specs.Inside.{OutboxState};

    ghost Value = { OutboxState };

    ghost view = { λ o. record { text = drop o.start o.bytes.items; room = vec_capacity o.bytes - vec_len o.bytes } };

    ghost invariant = { λ o. o.start ≤ vec_len o.bytes };
}

impl Outbox {
    ghost use Rattle.std.specs.Prelude.{◌≡◌, ◌==◌, ◌≤◌, ◌+◌, ◌++◌, [], OnOk, OnErr, length, take, drop, min};

    /// No bytes, and no room.
    pub fn new(alloc: Global) -> Outbox
        ensures { result.text ≡ [] }
    {
        Outbox {
            bytes: Vec::new(alloc),
            start: 0,
        }
    }

    /// Adds a text, and leaves so much room behind it.
    pub fn put(&mut self, text: &[u8], spare: usize) -> Result<(), NoMem>
        ensures ok { OnOk result (self.new.text ≡ self.old.text ++ text.now) }
        ensures room { OnOk result (spare ≤ self.new.room) }
        ensures err { OnErr result (self.new.text ≡ self.old.text) }
        ensures kept { OnErr result (self.old.room ≤ self.new.room) }
    {
        self.bytes.drain(..self.start);
        self.start = 0;
        self.bytes.reserve(text.len().saturating_add(spare))?;
        self.bytes.extend_from_slice(text)?;
        Ok(())
    }

    /// Adds a text for which there is room.
    pub fn add(&mut self, text: &[u8])
        requires { length text.now ≤ self.old.room }
        ensures text { self.new.text ≡ self.old.text ++ text.now }
        ensures room { self.old.room ≤ self.new.room + length text.now }
    {
        let _ = self.bytes.extend_from_slice(text);
    }

    /// Whether no bytes wait.
    pub fn is_empty(&self) -> bool
        ensures { result ≡ (length self.now.text == 0) }
    {
        self.start == self.bytes.len()
    }

    /// Moves the next bytes to the front of `buf`, and says how many.
    pub fn take(&mut self, buf: &mut [u8]) -> usize
        ensures count { result ≡ min (length buf.old) (length self.old.text) }
        ensures given { take result buf.new ≡ take result self.old.text }
        ensures rest { drop result buf.new ≡ drop result buf.old }
        ensures left { self.new.text ≡ drop result self.old.text }
        ensures room { self.old.room ≤ self.new.room }
    {
        let count = buf.len().min(self.bytes.len() - self.start);
        buf[..count].copy_from_slice(&self.bytes[self.start..self.start + count]);
        self.start += count;
        count
    }
}
