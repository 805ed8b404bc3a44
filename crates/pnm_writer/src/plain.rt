ghost use Rattle.std.specs.Prelude.{if◌then◌else◌, nat_lt, string_bytes, ◌≡◌, ◌≤◌, ◌<◌, ◌↔◌, ◌++◌, Some, IfOk, OnOk, IsSomeAnd, IsNone, IsErrOf};
ghost use Rattle.page_picture.specs.Extent.{extent_of, IsInside};
ghost use Rattle.page_picture.specs.Meaning.{meaning_of, sample_of, greatest_at, channels_in};
ghost use Rattle.netpbm.specs.Pnm.{Denotes};
ghost use Rattle.netpbm.specs.FileText.{concat_up_to, bits_byte, header_text, sample_text, samples_text, row_text, file_text};
ghost use Rattle.pnm_writer.specs.PnmWriting.{format_in, header_of, IsPlainFile};

use netpbm::{Header, PnmFormat};
use page_picture::{Mode, Page, Scene, extent, greatest, sample};
use std::alloc::{AllocError, Global};
use thiserror::Error;

/// Why a scene makes no file.
#[derive(Clone, Copy, Debug, PartialEq, Eq, Error)]
pub enum PlainFault {
    /// The scene means no picture on the page.
    #[error("the settings mean no picture")]
    NoPicture = 1,
    /// No memory for the file.
    #[error("out of memory")]
    NoMem = 2,
}

const _: () = prove!(PlainFault::NoPicture as u32 == 1);

const _: () = prove!(PlainFault::NoMem as u32 == 2);

impl From<AllocError> for PlainFault {
    ghost use Rattle.std.specs.Prelude.{◌≡◌};
    ghost use Rattle.pnm_writer.specs.declared.plain.PlainFault.TheVariants.{NoMem};

    ghost from_gives = { λ _ fault. fault ≡ NoMem };

    fn from(_: AllocError) -> Self {
        PlainFault::NoMem
    }
}

/// The bytes of a header.
fn header_bytes(alloc: Global, header: &Header) -> Result<String, AllocError>
    ensures { IfOk result (λ s. string_bytes s ≡ header_text header.now) }
{
    let width = header.width;
    let height = header.height;
    let maxval = header.maxval;
    match header.format {
        PnmFormat::Pbm => format!(in alloc; "P4\n# SANE data follows\n{width} {height}\n"),
        PnmFormat::Pgm => format!(in alloc;
            "P5\n# SANE data follows\n{width} {height}\n{maxval}\n"
        ),
        PnmFormat::Ppm => format!(in alloc;
            "P6\n# SANE data follows\n{width} {height}\n{maxval}\n"
        ),
    }
}

/// Adds one sample.
fn push_sample(file: &mut Vec<u8>, greatest: u32, sample: u16) -> Result<(), AllocError>
    requires { sample ≤ greatest }
    ensures { OnOk result (file.new.items ≡ file.old.items ++ sample_text greatest sample) }
{
    if greatest < 256 {
        file.push(sample as u8)?;
    } else {
        file.push((sample / 256) as u8)?;
        file.push((sample % 256) as u8)?;
    }
    Ok(())
}

fn channels(mode: Mode) -> u32
    ensures { result ≡ channels_in mode }
{
    match mode {
        Mode::Gray => 1,
        Mode::Color => 3,
    }
}

fn format_in(mode: Mode, depth: u32) -> PnmFormat
    ensures { result ≡ format_in mode depth }
{
    match mode {
        Mode::Gray if depth == 1 => PnmFormat::Pbm,
        Mode::Gray => PnmFormat::Pgm,
        Mode::Color => PnmFormat::Ppm,
    }
}

/// Adds the samples of one place.
fn push_place(
    file: &mut Vec<u8>,
    page: &Page,
    scene: &Scene,
    x: u32,
    y: u32,
) -> Result<(), AllocError>
    requires known { scene.now.resolution ≤ 1200 }
    requires inside { IsInside page.now scene.now x y }
    ensures { OnOk result (file.new.items
        ≡ file.old.items ++ concat_up_to (λ k. sample_text (greatest_at scene.now.depth)
        (sample_of page.now scene.now x y k)) (channels_in scene.now.mode)) }
{
    for k in 0..channels(scene.mode) {
        push_sample(file, greatest(scene.depth), sample(page, scene, x, y, k))?;
    }
    Ok(())
}

/// Adds the samples of one row.
fn push_row(
    file: &mut Vec<u8>,
    page: &Page,
    scene: &Scene,
    size: (u32, u32),
    y: u32,
) -> Result<(), AllocError>
    requires known { scene.now.resolution ≤ 1200 }
    requires extent { extent_of page.now scene.now ≡ Some size }
    requires row { y < size.1 }
    ensures { OnOk result (file.new.items
        ≡ file.old.items ++ samples_text (channels_in scene.now.mode)
        (greatest_at scene.now.depth) size.0 (λ x k. sample_of page.now scene.now x y k)) }
{
    for x in 0..size.0 {
        push_place(file, page, scene, x, y)?;
    }
    Ok(())
}

/// The sample of a gray picture at column `x`, or 0 past the row's end.
fn bit_at(page: &Page, scene: &Scene, size: (u32, u32), x: u32, y: u32) -> u8
    requires known { scene.now.resolution ≤ 1200 }
    requires extent { extent_of page.now scene.now ≡ Some size }
    requires row { y < size.1 }
    requires gray { scene.now.mode ≡ Mode.Gray }
    requires depth { scene.now.depth ≡ 1 }
    ensures value { result ≡ (if nat_lt x size.0 then sample_of page.now scene.now x y 0 else 0) }
    ensures limit { result ≤ 1 }
{
    if x < size.0 {
        sample(page, scene, x, y, 0) as u8
    } else {
        0
    }
}

/// The eight samples of a row from column `8 * b` on.
fn packed(page: &Page, scene: &Scene, size: (u32, u32), b: u32, y: u32) -> u8
    requires known { scene.now.resolution ≤ 1200 }
    requires extent { extent_of page.now scene.now ≡ Some size }
    requires row { y < size.1 }
    requires gray { scene.now.mode ≡ Mode.Gray }
    requires depth { scene.now.depth ≡ 1 }
    requires column { b ≤ 8192 }
    ensures { result ≡ bits_byte size.0 (λ x. sample_of page.now scene.now x y 0) b }
{
    let mut byte = 0u8;
    for j in 0..8 {
        byte = 2 * byte + bit_at(page, scene, size, 8 * b + j, y);
    }
    byte
}

/// Adds one row of bits.
fn push_bits(
    file: &mut Vec<u8>,
    page: &Page,
    scene: &Scene,
    size: (u32, u32),
    y: u32,
) -> Result<(), AllocError>
    requires known { scene.now.resolution ≤ 1200 }
    requires extent { extent_of page.now scene.now ≡ Some size }
    requires row { y < size.1 }
    requires gray { scene.now.mode ≡ Mode.Gray }
    requires depth { scene.now.depth ≡ 1 }
    ensures { OnOk result (file.new.items ≡ file.old.items
        ++ row_text PnmFormat.Pbm 1 size.0 (λ x k. sample_of page.now scene.now x y k)) }
{
    for b in 0..size.0.div_ceil(8) {
        file.push(packed(page, scene, size, b, y))?;
    }
    Ok(())
}

/// Adds one row in the format of the scene.
fn push_line(
    file: &mut Vec<u8>,
    page: &Page,
    scene: &Scene,
    size: (u32, u32),
    y: u32,
) -> Result<(), AllocError>
    requires known { scene.now.resolution ≤ 1200 }
    requires extent { extent_of page.now scene.now ≡ Some size }
    requires row { y < size.1 }
    ensures { OnOk result (file.new.items
        ≡ file.old.items ++ row_text (format_in scene.now.mode scene.now.depth)
        (greatest_at scene.now.depth) size.0 (λ x k. sample_of page.now scene.now x y k)) }
{
    match scene.mode {
        Mode::Gray if scene.depth == 1 => push_bits(file, page, scene, size, y),
        Mode::Gray | Mode::Color => push_row(file, page, scene, size, y),
    }
}

/// The Netpbm file of the picture that a scene means on a page: `P4` for bits, `P5` for grays, `P6` for colors, each
/// with the comment `# SANE data follows` in its second line. `NoPicture` where the scene means none there, `NoMem`
/// where a growth is refused.
pub fn scan_plain(alloc: Global, page: &Page, scene: &Scene) -> Result<Vec<u8>, PlainFault>
    requires { scene.now.resolution ≤ 1200 }
    // The file denotes the picture, and nothing else.
    /// The file of `scan_plain` denotes the meaning of the scene on the page, for every scene, and is the writer's
    /// text.
    /// Carried by: `found`, `text` of `scan_plain`
    ensures found { IfOk result
        (λ file. IsSomeAnd (meaning_of page.now scene.now) (Denotes file.items)) }
    // Of the texts that denote it, it is the writer's.
    ensures text { IfOk result (λ file. IsPlainFile page.now scene.now file.items) }
    /// `NoPicture` comes exactly where there is none.
    ensures none { (result ≡ Err PlainFault.NoPicture) ↔ IsNone (meaning_of page.now scene.now) }
{
    let Some(size) = extent(page, scene) else {
        return Err(PlainFault::NoPicture);
    };
    let header = Header {
        format: format_in(scene.mode, scene.depth),
        width: size.0,
        height: size.1,
        maxval: greatest(scene.depth),
    };
    let text = header_bytes(alloc, &header)?;
    let mut file = Vec::from_slice(alloc, text.as_bytes())?;
    for y in 0..size.1 {
        push_line(&mut file, page, scene, size, y)?;
    }
    Ok(file)
}
