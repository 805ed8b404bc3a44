//! A file that is read from its start, whatever its position is.

use std::io::{self, Read};
use std::os::unix::fs::FileExt;
use std::rc::Rc;

/// A reader of a file from its start.
#[derive(Drop)]
pub struct FromStart<F: FileExt> {
    pub file: Rc<F>,
    pub at: u64,
}

impl<F: FileExt> Read for FromStart<F> {
    fn read(&mut self, buf: &mut [u8]) -> io::Result<usize> {
        let read = self.file.read_at(buf, self.at)?;
        self.at = self.at.saturating_add(read as u64);
        Ok(read)
    }
}
