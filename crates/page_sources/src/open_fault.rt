use crate::page_file::PageFault;
use crate::read_fault::ReadFault;
use thiserror::Error;

/// Why a page file is not opened.
#[derive(Clone, Copy, Debug, PartialEq, Eq, Error)]
pub enum OpenFault {
    /// It shows no page.
    #[error(transparent)]
    Page(PageFault),
    /// The reader failed, or was read 2^40 times.
    #[error("the page file cannot be read")]
    Device,
}

impl From<ReadFault> for OpenFault {
    ghost use Rattle.std.specs.Prelude.{◌≡◌};
    ghost use Rattle.page_sources.specs.declared.open_fault.OpenFault.TheVariants.{Device};

    ghost from_gives = { λ _ fault. fault ≡ Device };

    fn from(_: ReadFault) -> Self {
        OpenFault::Device
    }
}

impl From<PageFault> for OpenFault {
    ghost use Rattle.std.specs.Prelude.{◌≡◌};
    ghost use Rattle.page_sources.specs.declared.open_fault.OpenFault.TheVariants.{Page};

    ghost from_gives = { λ page fault. fault ≡ Page page };

    fn from(fault: PageFault) -> Self {
        OpenFault::Page(fault)
    }
}
