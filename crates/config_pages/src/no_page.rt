ghost use Rattle.std.specs.Prelude.{◌≡◌};
ghost use Rattle.config_pages.specs.Texts.{source_fault};

use page_sources::PageFault;
use thiserror::Error;

/// Why a page that a config names is not there.
#[derive(Clone, Copy, Debug, PartialEq, Eq, Error)]
#[error("{text}", text = self.text())]
pub enum NoPage {
    /// Its file cannot be opened or read.
    CannotRead,
    /// It is no page file, for one of the five faults that a file can have.
    BadMagic,
    BadHeader,
    SampleTooLarge,
    Short,
    Trailing,
}

impl NoPage {
    ghost use Rattle.std.specs.Prelude.{◌≡◌};
    ghost use Rattle.config_pages.specs.Texts.{no_page_text};

    /// The text of why it is not there: a fault of the file by its number.
    pub fn text(self) -> &'static str
        ensures { result.now ≡ no_page_text self }
    {
        match self {
            NoPage::CannotRead => "cannot read page",
            NoPage::BadMagic => "page fault 1",
            NoPage::BadHeader => "page fault 2",
            NoPage::SampleTooLarge => "page fault 3",
            NoPage::Short => "page fault 4",
            NoPage::Trailing => "page fault 5",
        }
    }
}

/// Why a page has no source.
#[derive(Clone, Copy, Debug, PartialEq, Eq, Error)]
pub enum PageSourceFault {
    #[error("{0}")]
    NoPage(NoPage),
    /// The dots per inch are not 1 to 1,200, which those of a config are.
    #[error("bad dpi")]
    BadDpi,
    #[error("out of memory")]
    NoMem,
}

/// Why the page of a file with that fault has no source.
pub fn source_fault(fault: PageFault) -> PageSourceFault
    ensures { result ≡ source_fault fault }
{
    match fault {
        PageFault::BadMagic => PageSourceFault::NoPage(NoPage::BadMagic),
        PageFault::BadHeader => PageSourceFault::NoPage(NoPage::BadHeader),
        PageFault::SampleTooLarge => PageSourceFault::NoPage(NoPage::SampleTooLarge),
        PageFault::Short => PageSourceFault::NoPage(NoPage::Short),
        PageFault::Trailing => PageSourceFault::NoPage(NoPage::Trailing),
        PageFault::BadDpi => PageSourceFault::BadDpi,
        PageFault::NoMem => PageSourceFault::NoMem,
    }
}
