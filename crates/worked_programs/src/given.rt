//! What is given to the program where it is run here, and outputs, shelves and hosts for those that it does not come to.
use config_pages::{Inputs, text_of};
use net_backend::{Dial, DialFault};
use recorded::NamedOutput;
use sane_fixed::Text;
use scan_job::{Shelf, ShelfFault};
use scanimage_cli::{HostPoint, Hosts};
use std::alloc::Global;
use std::fs::File;
use std::io::{self, ErrorKind, Write};
use std::net::TcpStream;

/// A text on standard input, and no file.
#[derive(Clone, Copy)]
pub(crate) struct GivenText {
    pub(crate) text: &'static [u8],
}

impl Inputs for GivenText {
    ghost use Rattle.std.specs.Prelude.{None, Some};

    type Page = File;

    ghost seen = { λ it. record {
      texts = record { standard = Some it.text.now; file = λ _. None };
      calls = None;
    } };

    fn standard(&mut self, alloc: Global, most: u64) -> io::Result<Vec<u8>> {
        text_of(alloc, self.text, most)
    }

    fn file(&mut self, _alloc: Global, _path: &[u8], _most: u64) -> io::Result<Vec<u8>> {
        Err(io::Error::from(ErrorKind::NotFound))
    }

    fn page(&mut self, _path: &[u8]) -> io::Result<File> {
        Err(io::Error::from(ErrorKind::NotFound))
    }
}

/// Nothing is written there, and nobody answers.
#[derive(Clone, Copy)]
pub(crate) struct Nowhere;

impl Write for Nowhere {
    fn write(&mut self, _bytes: &[u8]) -> io::Result<usize> {
        Err(io::Error::from(ErrorKind::StorageFull))
    }

    fn flush(&mut self) -> io::Result<()> {
        Ok(())
    }
}

impl NamedOutput for Nowhere {
    fn begin(&mut self, _name: Text) {}
}

impl Shelf for Nowhere {
    type Out = Nowhere;

    fn open(&mut self, _k: u32) -> Result<Nowhere, ShelfFault> {
        Err(ShelfFault)
    }

    fn close(&mut self, _out: Nowhere) -> Result<(), ShelfFault> {
        Err(ShelfFault)
    }
}

impl Dial for Nowhere {
    type Conn = TcpStream;

    fn dial(&mut self, _port: u16) -> Result<TcpStream, DialFault> {
        Err(DialFault)
    }
}

impl Hosts for Nowhere {
    type Control = TcpStream;

    fn control(&mut self, _at: HostPoint) -> Result<TcpStream, DialFault> {
        Err(DialFault)
    }
}
