ghost use Rattle.std.specs.Prelude.{◌≡◌, ◌≤◌, ◌<◌, ◌*◌, ◌^◌, [], ◌∷◌, ◌++◌, length, IfOk, IfErr, OnOk};
ghost use Rattle.netpbm.specs.Pnm.{Denotes, sample_in, channels_of, sample_bytes};
ghost use Rattle.netpbm.specs.FileText.{concat_up_to, samples_text};
ghost use Rattle.netpbm.specs.Raster.{raster_size, sample_count};
ghost use Rattle.pnm_writer.specs.PnmReading.{picture_of_held, HasPnmFault};

use netpbm::{
    Header, PnmFormat, format_of, none_above, number_at, raster_size, read_header, sample_count,
};
use std::alloc::{AllocError, Global};
use std::marker::Model;
use thiserror::Error;

/// Samples, which contracts see as the list of them.
#[derive(Drop, Debug)]
pub struct Samples {
    items: Vec<u16>,
}

impl Model for Samples {
    ghost use Rattle.std.specs.Prelude.{List, ℕ};

    ghost Value = { List ℕ };

    ghost view = { λ s. s.items.items };
}

impl Samples {
    ghost use Rattle.std.specs.Prelude.{◌≡◌};

    /// Takes the samples over.
    pub fn new(items: Vec<u16>) -> Self
        ensures { result ≡ items.items }
    {
        Self { items }
    }

    /// Gives the samples back.
    pub fn into_vec(self) -> Vec<u16>
        ensures { result.items ≡ self }
    {
        let Samples { items } = self;
        items
    }

    /// The samples.
    pub fn as_slice(&self) -> &[u16]
        ensures { result.now ≡ self.now }
    {
        self.items.as_slice()
    }
}

/// A picture in memory.
#[derive(Drop, Debug)]
pub struct Picture {
    /// The number of columns, 1 to 65,536.
    pub width: u32,
    /// The number of rows, 1 to 65,536.
    pub height: u32,
    /// The number of channels: 1, or 3 for red, green and blue.
    pub channels: u32,
    /// The greatest sample, 1 to 65,535.
    pub maxval: u32,
    /// The samples row by row from the top, the channels of a place side by side; in a picture of bits 1 is black.
    pub samples: Samples,
}

/// Why a text is no picture. The numbers are those of the same faults of a page.
#[derive(Clone, Copy, Debug, PartialEq, Eq, Error)]
pub enum PnmFault {
    /// Its first two bytes are not `P4`, `P5` or `P6`.
    #[error("the file is no PBM, PGM or PPM file (P4, P5, P6)")]
    BadMagic = 1,
    /// It begins with no header.
    #[error("the file begins with no header")]
    BadHeader = 2,
    /// A sample is above the greatest value that the header tells.
    #[error("a sample is above the greatest that the header tells")]
    SampleTooLarge = 3,
    /// The raster has fewer bytes than the header tells.
    #[error("the file is cut short")]
    Short = 4,
    /// Something follows the raster.
    #[error("something follows the last sample")]
    Trailing = 5,
    /// No memory for the samples.
    #[error("out of memory")]
    NoMem = 7,
}

const _: () = prove!(PnmFault::BadMagic as u32 == 1);

const _: () = prove!(PnmFault::BadHeader as u32 == 2);

const _: () = prove!(PnmFault::SampleTooLarge as u32 == 3);

const _: () = prove!(PnmFault::Short as u32 == 4);

const _: () = prove!(PnmFault::Trailing as u32 == 5);

const _: () = prove!(PnmFault::NoMem as u32 == 7);

impl From<AllocError> for PnmFault {
    ghost use Rattle.std.specs.Prelude.{◌≡◌};
    ghost use Rattle.pnm_writer.specs.declared.read.PnmFault.TheVariants.{NoMem};

    ghost from_gives = { λ _ fault. fault ≡ NoMem };

    fn from(_: AllocError) -> Self {
        PnmFault::NoMem
    }
}

fn channels(format: PnmFormat) -> u32
    ensures { result ≡ channels_of format }
{
    match format {
        PnmFormat::Pbm | PnmFormat::Pgm => 1,
        PnmFormat::Ppm => 3,
    }
}

/// The sample at a place of a raster.
fn sample_at(header: &Header, raster: &[u8], x: u32, y: u32, k: u32) -> u16
    requires width { header.now.width ≤ 65536 }
    requires height { header.now.height ≤ 65536 }
    requires size { length raster.now ≡ raster_size header.now }
    requires column { x < header.now.width }
    requires row { y < header.now.height }
    requires channel { k < channels_of header.now.format }
    ensures { result
        ≡ sample_in header.now.format header.now.width header.now.maxval raster.now x y k }
{
    let width = header.width as usize;
    let place = y as usize * width + x as usize;
    let count = sample_count(header);
    match header.format {
        PnmFormat::Pbm => {
            let byte = raster[y as usize * width.div_ceil(8) + x as usize / 8];
            u16::from(byte >> (7 - x % 8) & 1)
        }
        PnmFormat::Pgm => number_at(header.maxval, raster, place, count) as u16,
        PnmFormat::Ppm => number_at(header.maxval, raster, place * 3 + k as usize, count) as u16,
    }
}

/// Adds the samples of one place.
fn push_place(
    samples: &mut Vec<u16>,
    header: &Header,
    raster: &[u8],
    x: u32,
    y: u32,
) -> Result<(), AllocError>
    requires width { header.now.width ≤ 65536 }
    requires height { header.now.height ≤ 65536 }
    requires size { length raster.now ≡ raster_size header.now }
    requires column { x < header.now.width }
    requires row { y < header.now.height }
    ensures { OnOk result (samples.new.items ≡ samples.old.items ++ concat_up_to (λ k.
        sample_in header.now.format header.now.width header.now.maxval raster.now x y k
        ∷ []) (channels_of header.now.format)) }
{
    for k in 0..channels(header.format) {
        samples.push(sample_at(header, raster, x, y, k))?;
    }
    Ok(())
}

/// Adds the samples of one row.
fn push_row(
    samples: &mut Vec<u16>,
    header: &Header,
    raster: &[u8],
    y: u32,
) -> Result<(), AllocError>
    requires width { header.now.width ≤ 65536 }
    requires height { header.now.height ≤ 65536 }
    requires size { length raster.now ≡ raster_size header.now }
    requires row { y < header.now.height }
    ensures { OnOk result (samples.new.items
        ≡ samples.old.items ++ samples_text (channels_of header.now.format) 0 header.now.width
        (λ x k. sample_in header.now.format header.now.width header.now.maxval raster.now x y k)) }
{
    for x in 0..header.width {
        push_place(samples, header, raster, x, y)?;
    }
    Ok(())
}

/// The samples of a raster.
fn read_samples(alloc: Global, header: &Header, raster: &[u8]) -> Result<Samples, AllocError>
    requires width { header.now.width ≤ 65536 }
    requires height { header.now.height ≤ 65536 }
    requires size { length raster.now ≡ raster_size header.now }
    ensures { IfOk result (λ samples. samples
        ≡ concat_up_to (λ y. samples_text (channels_of header.now.format) 0 header.now.width
        (λ x k. sample_in header.now.format header.now.width header.now.maxval raster.now x y k))
        header.now.height) }
{
    let mut items = Vec::new(alloc);
    for y in 0..header.height {
        push_row(&mut items, header, raster, y)?;
    }
    Ok(Samples::new(items))
}

/// The picture that a whole Netpbm text (`P4`, `P5` or `P6`: pbm(5), pgm(5), ppm(5)) denotes. The first of its faults
/// is answered in the order `BadMagic`, `BadHeader`, `Short`, `Trailing`, `SampleTooLarge`; `NoMem` where a growth is
/// refused, of a text that has no fault.
pub fn read_pnm(alloc: Global, text: &[u8]) -> Result<Picture, PnmFault>
    /// `read_pnm` gives the picture that a text denotes, with exactly its samples.
    /// Carried by: `found`, `size` of `read_pnm`
    ensures found { IfOk result (λ picture. Denotes text.now (picture_of_held picture)) }
    // It holds a sample for each channel of each place, and no more.
    ensures size { IfOk result (λ picture. length picture.samples
        ≡ picture.width * picture.height * picture.channels) }
    /// Each refusal comes exactly where the text has that fault first; memory is wanted only of a text that denotes a
    /// picture.
    ensures fault { IfErr result (λ fault. HasPnmFault fault text.now) }
{
    if format_of(text).is_none() {
        return Err(PnmFault::BadMagic);
    }
    let Some((header, raster)) = read_header(text) else {
        return Err(PnmFault::BadHeader);
    };
    let size = raster_size(&header);
    if raster.len() < size {
        return Err(PnmFault::Short);
    }
    if raster.len() > size {
        return Err(PnmFault::Trailing);
    }
    match header.format {
        PnmFormat::Pbm => {}
        PnmFormat::Pgm | PnmFormat::Ppm => {
            if !none_above(header.maxval, raster, sample_count(&header)) {
                return Err(PnmFault::SampleTooLarge);
            }
        }
    }
    let samples = read_samples(alloc, &header, raster)?;
    Ok(Picture {
        width: header.width,
        height: header.height,
        channels: channels(header.format),
        maxval: header.maxval,
        samples,
    })
}
