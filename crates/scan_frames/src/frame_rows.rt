ghost use Rattle.std.specs.Prelude.{◌≡◌, ◌==◌, ◌<◌, length};
ghost use Rattle.scan_frames.specs.Frames.{IsSetup};
ghost use Rattle.scan_frames.specs.PassReading.{BeginsPass, IsFrame, ReadsFrame, given_in};

use crate::buffers::{Buffers, read_on, reserve};
use crate::faults::{BeginFault, ReadEnd};
use crate::pass::sides;
use crate::setup::Setup;
use page_picture::{ByteRows, PageSource};
use std::alloc::Global;
use std::marker::Model;

/// The frame of a pass that is read, made line by line from a page source: it holds one row of the page and one line.
/// Contracts see a `FrameProgress`.
#[derive(Drop)]
pub struct FrameRows {
    /// Behind a pointer, as its tables are large and a scanner is handed on by value.
    buffers: Box<Buffers>,
}

impl Model for FrameRows {
    ghost use Rattle.scan_frames.specs.PassReading.{FrameProgress};

    ghost Value = { FrameProgress };

    ghost use Rattle.scan_frames.specs.Inside.{IsLineCounted, state_of};

    ghost view = { λ f. state_of f.buffers.value };

    ghost invariant = { λ f. IsLineCounted (state_of f.buffers.value) };
}

impl FrameRows {
    /// Begins the frame of a pass, counted from 0: takes its memory, and takes the source back to its first row.
    ///
    /// # Errors
    ///
    /// `NoPicture` where the options mean no picture on the page, `NoMem`, and `SourceFailed` where the source does not
    /// go back; only then is the source changed.
    pub fn begin<S: PageSource>(
        alloc: Global,
        source: &mut S,
        setup: &Setup,
        pass: u32,
    ) -> Result<Self, BeginFault>
        requires { IsSetup setup.now }
        /// A frame is begun with a rewind, one row, one line and a column map.
        ensures { BeginsPass (S.source source.old) setup.now pass result (S.source source.new) }
    {
        let Some((_, height)) = sides(source, setup) else {
            return Err(BeginFault::NoPicture);
        };
        let Ok(buffers) = reserve(alloc, source, setup, pass, height) else {
            return Err(BeginFault::NoMem);
        };
        let Ok(buffers) = Box::new(alloc, buffers) else {
            return Err(BeginFault::NoMem);
        };
        match source.rewind() {
            Ok(()) => Ok(FrameRows { buffers }),
            Err(_) => Err(BeginFault::SourceFailed),
        }
    }

    /// Gives the next bytes of the frame: all that is left of it, but no more than the options let one read give, nor
    /// than the buffer holds. It takes no memory, and no row twice.
    ///
    /// # Errors
    ///
    /// `End` if all bytes were given. `SourceFailed` if the source does not give a row that these bytes show. Then the frame can
    /// be read no more, and nothing in the buffer counts.
    pub fn read<S: ByteRows>(
        &mut self,
        source: &mut S,
        setup: &Setup,
        buf: &mut [u8],
    ) -> Result<usize, ReadEnd>
        requires setup { IsSetup setup.now }
        requires frame { IsFrame (S.source source.old) setup.now self.old }
        requires buf { 0 < length buf.old }
        /// A read gives the next bytes of the frame, as many as are left of it, or the buffer holds, or the read
        /// limit lets, over as many lines as that takes.
        ///
        /// The end comes just where all were given, and a source's fault only where it was counted.
        ensures { ReadsFrame setup.now
            (record { source = S.source source.old; frame = self.old }) result
            (record { source = S.source source.new; frame = self.new }) buf.new }
    {
        read_on(&mut *self.buffers, source, setup, buf)
    }

    /// Whether no byte of the frame was given yet.
    pub fn is_new(&self) -> bool
        ensures { result ≡ (given_in self.now == 0) }
    {
        (*self.buffers).is_new()
    }

    /// The number of its pass, from 0.
    pub fn pass(&self) -> u32
        ensures { result ≡ self.now.pass }
    {
        (*self.buffers).pass()
    }
}
