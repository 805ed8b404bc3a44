ghost use Rattle.std.specs.Prelude.{◌≡◌, ◌≤◌, ◌<◌, ◌*◌, ◌/◌, ◌^◌, length, IfOk, IfErr, MatchBool};
ghost use Rattle.netpbm.specs.Pnm.{sample_bytes};
ghost use Rattle.netpbm.specs.Raster.{sample_count, NoneAbove};
ghost use Rattle.page_sources.specs.PageFile.{HasPageFault, TellsPage, IsPageFormat, IsDpi, BeginsPage};
ghost use Rattle.page_sources.specs.Inside.{page_number, ArePageSamples};
ghost use Rattle.page_sources.specs.PageReading.{source};

use netpbm::{
    Header, PnmFormat, format_of, none_above, number_at, raster_size, read_header, sample_count,
};
use page_picture::Page;
use std::alloc::{AllocError, Global};
use thiserror::Error;

/// Why a text is no page.
#[derive(Clone, Copy, Debug, PartialEq, Eq, Error)]
pub enum PageFault {
    /// Its first two bytes are not `P5` or `P6`.
    #[error("the page is neither a PGM file (P5) nor a PPM file (P6)")]
    BadMagic = 1,
    /// It begins with no header of a page.
    #[error("the page begins with no header, or its sides are not 1 to 16384")]
    BadHeader = 2,
    /// A sample is above the greatest value that the header tells.
    #[error("a sample of the page is above the greatest that its header tells")]
    SampleTooLarge = 3,
    /// The raster has fewer bytes than the header tells.
    #[error("the page is cut short")]
    Short = 4,
    /// Something follows the raster.
    #[error("something follows the page's last sample")]
    Trailing = 5,
    /// The dots per inch are not 1 to 1,200.
    #[error("the page's dots per inch are not 1 to 1200")]
    BadDpi = 6,
    /// No memory for the page.
    #[error("out of memory")]
    NoMem = 7,
}

const _: () = prove!(PageFault::BadMagic as u32 == 1);

const _: () = prove!(PageFault::BadHeader as u32 == 2);

const _: () = prove!(PageFault::SampleTooLarge as u32 == 3);

const _: () = prove!(PageFault::Short as u32 == 4);

const _: () = prove!(PageFault::Trailing as u32 == 5);

const _: () = prove!(PageFault::BadDpi as u32 == 6);

const _: () = prove!(PageFault::NoMem as u32 == 7);

impl From<AllocError> for PageFault {
    ghost use Rattle.std.specs.Prelude.{◌≡◌};
    ghost use Rattle.page_sources.specs.declared.page_file.PageFault.TheVariants.{NoMem};

    ghost from_gives = { λ _ fault. fault ≡ NoMem };

    fn from(_: AllocError) -> Self {
        PageFault::NoMem
    }
}

/// The place among the file's samples of the number that the page has at place `j`.
fn source(format: PnmFormat, j: usize) -> usize
    ensures { result ≡ source format j }
{
    match format {
        PnmFormat::Pbm | PnmFormat::Pgm => j / 3,
        PnmFormat::Ppm => j,
    }
}

/// A number up to `maxval` as one up to 65,535. The usual greatest values need no division.
pub fn scaled(number: u32, maxval: u32) -> u16
    requires maxval { 1 ≤ maxval }
    requires limit { number ≤ maxval }
    requires most { number < 2 ^ 16 }
    ensures { result ≡ number * 65535 / maxval }
{
    if maxval == 255 {
        (257 * number) as u16
    } else if maxval == 65535 {
        number as u16
    } else {
        (number * 65535 / maxval) as u16
    }
}

/// The page's sample at place `j`, by a raster of `count` numbers.
pub fn page_number(header: &Header, raster: &[u8], j: usize, count: usize) -> u16
    requires maxval { 1 ≤ header.now.maxval }
    requires size { length raster.now ≡ count * sample_bytes header.now.maxval }
    requires inside { source header.now.format j < count }
    requires limit { NoneAbove header.now.maxval raster.now count }
    ensures { result ≡ page_number header.now raster.now j }
{
    let number = number_at(header.maxval, raster, source(header.format, j), count);
    scaled(number, header.maxval)
}

/// The samples of the page that a raster shows.
fn page_samples(alloc: Global, header: &Header, raster: &[u8]) -> Result<Vec<u16>, AllocError>
    requires width { header.now.width ≤ 16384 }
    requires height { header.now.height ≤ 16384 }
    requires maxval { 1 ≤ header.now.maxval }
    requires size { length raster.now ≡ sample_count header.now * sample_bytes header.now.maxval }
    requires limit { NoneAbove header.now.maxval raster.now (sample_count header.now) }
    ensures { IfOk result (λ samples. ArePageSamples header.now raster.now samples.items) }
{
    let count = sample_count(header);
    let places = header.width as usize * header.height as usize * 3;
    let mut samples = Vec::new(alloc);
    for j in 0..places {
        samples.push(page_number(header, raster, j, count))?;
    }
    Ok(samples)
}

/// Whether a file of that format can be a page.
pub fn is_page_format(format: Option<PnmFormat>) -> bool
    ensures { MatchBool result (IsPageFormat format) (¬ IsPageFormat format) }
{
    match format {
        None | Some(PnmFormat::Pbm) => false,
        Some(PnmFormat::Pgm | PnmFormat::Ppm) => true,
    }
}

/// The header of a page, and the bytes after it.
fn page_header(text: &[u8], dpi: u32) -> Result<(Header, &[u8]), PageFault>
    ensures dots { IfOk result (λ _. IsDpi dpi) }
    ensures found { IfOk result (λ f. BeginsPage text.now f.0 f.1.now) }
    ensures fault { IfErr result (λ fault. HasPageFault fault text.now dpi) }
{
    if dpi < 1 || dpi > 1200 {
        return Err(PageFault::BadDpi);
    }
    if !is_page_format(format_of(text)) {
        return Err(PageFault::BadMagic);
    }
    let Some((header, raster)) = read_header(text) else {
        return Err(PageFault::BadHeader);
    };
    if header.width > 16384 || header.height > 16384 {
        return Err(PageFault::BadHeader);
    }
    Ok((header, raster))
}

/// The page that a page file (`P5` or `P6`) shows at `dpi` dots per inch. The first of its faults is answered in the
/// order `BadDpi`, `BadMagic`, `BadHeader`, `Short`, `Trailing`, `SampleTooLarge`; `NoMem` where a growth is refused.
pub fn read_page(alloc: Global, text: &[u8], dpi: u32) -> Result<Page, PageFault>
    // What is read is the page of the picture that the whole text denotes.
    /// `read_page` gives the page that the text tells.
    ensures found { IfOk result (λ page. TellsPage text.now dpi page) }
    /// Each refusal comes exactly where the text has that fault first, in the order: dots per inch, magic, header,
    /// short, trailing, sample too large. Memory is wanted only of a text that has none of them.
    ensures fault { IfErr result (λ fault. HasPageFault fault text.now dpi) }
{
    let (header, raster) = page_header(text, dpi)?;
    let size = raster_size(&header);
    if raster.len() < size {
        return Err(PageFault::Short);
    }
    if raster.len() > size {
        return Err(PageFault::Trailing);
    }
    if !none_above(header.maxval, raster, sample_count(&header)) {
        return Err(PageFault::SampleTooLarge);
    }
    let samples = page_samples(alloc, &header, raster)?;
    Ok(Page::new(header.width, header.height, dpi, samples))
}
