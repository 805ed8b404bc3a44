ghost use Rattle.std.specs.Prelude.{◌≡◌, IfOk};
ghost use Rattle.scanimage_cli.specs.Inside.{file_name};

use crate::pieces::add_all;
use itoa::Buffer;
use sane_fixed::NoMem;
use scan_job::{Shelf, ShelfFault};
use std::alloc::Global;
use std::fs::File;
use std::io::Write;

/// The name of a batch's file of that number.
fn file_name(alloc: Global, number: u32) -> Result<Vec<u8>, NoMem>
    ensures { IfOk result (λ name. name.items ≡ file_name number) }
{
    let mut digits = Buffer::new();
    let number = digits.format(number).as_bytes();
    let mut name = Vec::new(alloc);
    add_all(&mut name, &[b"out", number, b".pnm"])?;
    Ok(name)
}

/// The current folder, in which the files of a batch are `out1.pnm`, `out2.pnm` and so on. Nothing of an older file of
/// that name is left.
#[derive(Drop)]
pub struct Folder<'a> {
    pub rt: &'a HostRuntime,
}

impl Shelf for Folder<'_> {
    type Out = File;

    fn open(&mut self, k: u32) -> Result<File, ShelfFault> {
        let name = file_name(self.rt.alloc(), k).map_err(|_| ShelfFault)?;
        let name = std::str::from_utf8(name.as_slice()).map_err(|_| ShelfFault)?;
        File::create(self.rt, name).map_err(|_| ShelfFault)
    }

    fn close(&mut self, mut out: File) -> Result<(), ShelfFault> {
        out.flush().map_err(|_| ShelfFault)
    }
}
