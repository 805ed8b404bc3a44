//! Outputs that fail, and a shelf of them.

use scan_job::{Shelf, ShelfFault};
use std::alloc::Global;
use std::io::{self, ErrorKind, Write};

/// What an output does that is full.
#[derive(Clone, Copy, PartialEq, Eq)]
pub enum Full {
    Fails,
    /// Then it takes all.
    FailsOnce,
    TakesNothing,
}

/// An output with room for so many bytes, which takes at most five a write. First it answers as often
/// that it was interrupted.
#[derive(Drop)]
pub struct Disk {
    pub taken: Vec<u8>,
    room: usize,
    interrupts: u32,
    full: Full,
}

impl Disk {
    pub fn new(alloc: Global, room: usize, interrupts: u32, full: Full) -> Disk {
        Disk {
            taken: Vec::new(alloc),
            room,
            interrupts,
            full,
        }
    }
}

impl Write for Disk {
    fn write(&mut self, buf: &[u8]) -> io::Result<usize> {
        if self.interrupts > 0 {
            self.interrupts -= 1;
            return Err(ErrorKind::Interrupted.into());
        }
        if self.room == 0 && self.full != Full::TakesNothing {
            if self.full == Full::FailsOnce {
                self.room = usize::MAX;
            }
            return Err(ErrorKind::StorageFull.into());
        }
        let count = buf.len().min(self.room).min(5);
        self.taken.extend_from_slice(&buf[..count])?;
        self.room -= count;
        Ok(count)
    }

    fn flush(&mut self) -> io::Result<()> {
        Ok(())
    }
}

/// A shelf that keeps what it takes back, with its number, and refuses the open and the close of these numbers. No close has the
/// number 0, nor an open.
#[derive(Drop)]
pub struct Rack {
    alloc: Global,
    pub files: Vec<(u32, Vec<u8>)>,
    pub opens: u32,
    /// The number of the output that was opened last.
    number: u32,
    /// The room of each output.
    room: usize,
    refused_open: u32,
    refused_close: usize,
}

impl Rack {
    pub fn new(alloc: Global, room: usize, refused_open: u32, refused_close: usize) -> Rack {
        Rack {
            alloc,
            files: Vec::new(alloc),
            opens: 0,
            number: 0,
            room,
            refused_open,
            refused_close,
        }
    }

    /// Whether its files are these, numbered from 1.
    pub fn holds(&self, files: &[&[u8]]) -> bool {
        let mut are_so = self.files.len() == files.len();
        for ((number, file), (k, wanted)) in self.files.iter().zip((1u32..).zip(files)) {
            are_so &= *number == k && file.as_slice() == *wanted;
        }
        are_so
    }
}

impl Shelf for Rack {
    type Out = Disk;

    fn open(&mut self, k: u32) -> Result<Disk, ShelfFault> {
        self.number = k;
        self.opens = self.opens.saturating_add(1);
        if self.opens == self.refused_open {
            return Err(ShelfFault);
        }
        Ok(Disk::new(self.alloc, self.room, 0, Full::Fails))
    }

    fn close(&mut self, out: Disk) -> Result<(), ShelfFault> {
        let Disk { taken, .. } = out;
        self.files
            .push((self.number, taken))
            .map_err(|_| ShelfFault)?;
        if self.files.len() == self.refused_close {
            return Err(ShelfFault);
        }
        Ok(())
    }
}
