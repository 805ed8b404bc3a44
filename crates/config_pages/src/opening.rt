ghost use Rattle.std.specs.Prelude.{◌≡◌, IfOk, IfErr, IfSome, OnOk, true};
ghost use Rattle.page_sources.specs.SourceView.{source_state};
ghost use Rattle.config_pages.specs.InputTexts.{AsksPage, page_asked, with_calls};
ghost use Rattle.config_pages.specs.Pages.{GivesText, HasNoFilePage, HasNoPage, IsPageOfText, calls_of_page};

use crate::inputs::Inputs;
use crate::no_page::{NoPage, PageSourceFault, source_fault};
use crate::spelled::{hex_digits, hex_page};
use page_sources::{OpenFault, PnmPage, Source};
use std::alloc::Global;
use std::fs::File;

/// The page in the file of that path, relative to the current folder.
fn file_page<I: Inputs>(
    alloc: Global,
    inputs: &mut I,
    path: &[u8],
    dpi: u32,
) -> Result<PnmPage<I::Page>, PageSourceFault>
    ensures asked { OnOk result
        (AsksPage (page_asked path.now true) (I.seen inputs.old) (I.seen inputs.new)) }
    ensures found { IfOk result (λ page. IfSome ((I.seen inputs.old).texts.file path.now)
        (λ all. GivesText all dpi page.shown)) }
    ensures fault { IfErr result
        (HasNoFilePage path.now dpi (I.seen inputs.old) (I.seen inputs.new)) }
    ensures dots { IfOk result (λ page. page.shown.page.dpi ≡ dpi) }
{
    let cannot_read = PageSourceFault::NoPage(NoPage::CannotRead);
    let Ok(file) = inputs.page(path) else {
        return Err(cannot_read);
    };
    match PnmPage::open(alloc, file, dpi) {
        Ok(page) => Ok(page),
        Err((OpenFault::Device, _)) => Err(cannot_read),
        Err((OpenFault::Page(fault), _)) => Err(source_fault(fault)),
    }
}

/// The page that a config's line names, at so many dots per inch. It is `hex:` and the bytes of its file in hexadecimal, or the
/// path of its file, which is then read row by row. Other digits, or an odd number of them, are no page file.
pub fn page_source<I: Inputs<Page = File>>(
    alloc: Global,
    inputs: &mut I,
    page: &[u8],
    dpi: u32,
) -> Result<Source, PageSourceFault>
    /// A page in hexadecimal gives, from its first row on, the page of the file that the digits spell, and no file is asked for.
    /// Any other is that in the file of its path, which alone is asked for, once.
    /// Carried by: `found`, `asked` of `page_source`: `IsPageOfText`, `calls_of_page`
    ensures found { IfOk result
        (λ source. IsPageOfText (I.seen inputs.old).texts page.now dpi (source_state source)) }
    ensures asked { OnOk result
        (I.seen inputs.new ≡ with_calls (calls_of_page page.now) (I.seen inputs.old)) }
    /// Each refusal comes exactly where that file has the fault first; no bytes at all count as a bad magic. A file that is
    /// not opened cannot be read.
    ensures fault { IfErr result
        (HasNoPage page.now dpi (I.seen inputs.old) (I.seen inputs.new)) }
{
    match hex_digits(page) {
        Some(digits) => match hex_page(alloc, digits, dpi) {
            Ok(page) => Ok(Source::Memory(page)),
            Err(fault) => Err(source_fault(fault)),
        },
        None => Ok(Source::Pnm(file_page(alloc, inputs, page, dpi)?)),
    }
}
