ghost use Rattle.std.specs.Prelude.{◌≡◌, IfOk, IfErr, option_map};
ghost use Rattle.config_pages.specs.Pages.{hex_digits, GivesSpelled, HasSpelledFault};

use hex::FromHexError;
use page_sources::{MemoryPage, PageFault, read_page};
use std::alloc::Global;

/// The digits of a page that stands in its line.
pub fn hex_digits(page: &[u8]) -> Option<&[u8]>
    ensures { option_map (λ digits. digits.now) result ≡ hex_digits page.now }
{
    match page {
        [b'h', b'e', b'x', b':', digits @ ..] => Some(digits),
        _ => None,
    }
}

/// The page whose file the digits spell.
pub fn hex_page(alloc: Global, digits: &[u8], dpi: u32) -> Result<MemoryPage, PageFault>
    ensures found { IfOk result (λ page. GivesSpelled digits.now dpi page) }
    ensures fault { IfErr result (λ fault. HasSpelledFault fault digits.now dpi) }
{
    match hex::decode(alloc, digits) {
        Ok(file) => Ok(MemoryPage::new(read_page(alloc, &file, dpi)?)),
        Err(FromHexError::OutOfMemory) => Err(PageFault::NoMem),
        Err(_) => Err(PageFault::BadMagic),
    }
}
