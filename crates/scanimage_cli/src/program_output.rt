use recorded::NamedOutput;
use sane_fixed::Text;
use std::fs::File;
use std::io::{self, ErrorKind, Write};

/// The output file of a job, which is made when the first bytes come; nothing of an older one is left then.
#[derive(Drop)]
pub struct OutputFile<'a> {
    rt: &'a HostRuntime,
    /// The name of the file that is to be made.
    unmade: Option<Text>,
    file: Option<File>,
}

/// Makes the file of that name, which is relative to the current folder.
fn made(rt: &HostRuntime, path: &Text) -> io::Result<File> {
    match std::str::from_utf8(path.as_bytes()) {
        Ok(path) => File::create(rt, path),
        Err(_) => Err(io::Error::from(ErrorKind::InvalidInput)),
    }
}

impl<'a> OutputFile<'a> {
    /// No file is named yet.
    pub fn new(rt: &'a HostRuntime) -> OutputFile<'a> {
        OutputFile {
            rt,
            unmade: None,
            file: None,
        }
    }
}

impl Write for OutputFile<'_> {
    fn write(&mut self, bytes: &[u8]) -> io::Result<usize> {
        if let Some(path) = &self.unmade {
            self.file = Some(made(self.rt, path)?);
            self.unmade = None;
        }
        match &mut self.file {
            Some(file) => file.write(bytes),
            None => Ok(0),
        }
    }

    fn flush(&mut self) -> io::Result<()> {
        match &mut self.file {
            Some(file) => file.flush(),
            None => Ok(()),
        }
    }
}

impl NamedOutput for OutputFile<'_> {
    fn begin(&mut self, name: Text) {
        self.unmade = Some(name);
        self.file = None;
    }
}
