//! Scans and page files of a large page.

ghost use Rattle.std.specs.Prelude.{◌≡◌, ◌≤◌, ◌<◌, length, IfOk};

use device_api::Device;
use flatbed_dev::Flatbed;
use option_desc::Value;
use page_picture::{Page, PageSource};
use page_sources::{MemoryPage, PnmPage, Source};
use sane_fixed::{ByteOrder, Fixed, Text};
use std::alloc::{AllocError, Global};
use std::fs::File;
use std::io::{self, Write};

/// The side of a picture of 200 mm at 1,200 dots per inch.
const SIDE: u32 = 9448;

const MODE: u32 = 1;

const DEPTH: u32 = 2;

const RESOLUTION: u32 = 3;

const BR_X: u32 = 6;

const BR_Y: u32 = 7;

/// A square page of one gray.
fn page(alloc: Global, side: u32) -> Result<Page, AllocError>
    requires some { 1 ≤ side }
    requires most { side ≤ 16384 }
{
    let samples = vec![in alloc; 30000u16; side as usize * side as usize * 3]?;
    Ok(Page::new(side, side, 1200, samples))
}

/// A buffer of that size.
fn buffer(alloc: Global, size: usize) -> Result<Vec<u8>, AllocError>
    ensures { IfOk result (λ buffer. length buffer.items ≡ size) }
{
    vec![in alloc; 0u8; size]
}

/// A flatbed on such a page, set to scan all of it.
fn flatbed(alloc: Global, mode: &[u8], depth: i32) -> Option<Flatbed> {
    let page = page(alloc, SIDE).ok()?;
    let name = Text::new(alloc, b"flatbed:0").ok()?;
    let source = Source::Memory(MemoryPage::new(page));
    let mut flatbed = Flatbed::new(alloc, name, source, ByteOrder::Big).ok()?;
    let mode = Value::Text(Text::new(alloc, mode).ok()?);
    let far = Value::Fixed(Fixed(200 * 65536));
    for (n, value) in [
        (MODE, mode),
        (DEPTH, Value::Int(depth)),
        (RESOLUTION, Value::Int(1200)),
    ] {
        flatbed.set(alloc, n, &value).ok()?;
    }
    flatbed.set(alloc, BR_X, &far).ok()?;
    flatbed.set(alloc, BR_Y, &far).ok()?;
    Some(flatbed)
}

/// Writes one scan. Gives how many bytes it had.
fn scan<W: Write>(
    alloc: Global,
    device: &mut Flatbed,
    room: &mut [u8],
    out: &mut W,
) -> io::Result<u64>
    requires { 0 < length room.old }
{
    if device.start(alloc).is_err() {
        return Ok(0);
    }
    let mut total = 0u64;
    for _ in 0..1_000_000_000u64 {
        match device.read(room) {
            Ok(n) => {
                out.write_all(&room[..n])?;
                total = total.saturating_add(n as u64);
            }
            Err(_) => return Ok(total),
        }
    }
    Ok(total)
}

/// Scans so often, and tells how many bytes that were.
pub fn scan_often(rt: &HostRuntime, mode: &[u8], depth: i32, count: u32) -> anyhow::Result<()> {
    let alloc = rt.alloc();
    let Some(mut flatbed) = flatbed(alloc, mode, depth) else {
        return Ok(());
    };
    let mut room = buffer(alloc, 65536)?;
    let mut total = 0u64;
    for _ in 0..count {
        let mut out = rt.stdout();
        total = total.saturating_add(scan(alloc, &mut flatbed, room.as_mut_slice(), &mut out)?);
    }
    eprintln!(rt; "{total}")?;
    Ok(())
}

/// Copies so many bytes out of one buffer into another, and writes them.
pub fn copy_often(rt: &HostRuntime, bytes: u64) -> anyhow::Result<()> {
    let alloc = rt.alloc();
    let from = buffer(alloc, 65536)?;
    let mut to = buffer(alloc, 65536)?;
    let mut out = rt.stdout();
    for _ in 0..bytes / 65536 {
        to.as_mut_slice().copy_from_slice(from.as_slice());
        out.write_all(to.as_slice())?;
    }
    Ok(())
}

/// Opens a page file, which reads it once through, and tells how many rows it has.
pub fn open(rt: &HostRuntime, path: &str, dpi: u32) -> anyhow::Result<()> {
    let file = File::open(rt, path)?;
    let Ok(source) = PnmPage::open(rt.alloc(), file, dpi) else {
        return Ok(());
    };
    let (_, rows) = source.size();
    eprintln!(rt; "{rows}")?;
    Ok(())
}
