ghost use Rattle.std.specs.Prelude.{◌≡◌};

use config_pages::{HostInputs, NoPage, PageSourceFault, page_source};
use page_picture::PageSource;
use std::fs;
use std::test::Fail;

/// The first row of a page of two gray places, and that there is no second.
fn only_row<S: PageSource>(source: &mut S) -> Result<[u16; 6], Fail>
    requires { (S.source source.old).page.width ≡ 2 }
{
    let mut row = [0u16; 6];
    let is_row = source.next_row(&mut row)?;
    let mut second = [0u16; 6];
    let is_second = source.next_row(&mut second)?;
    if is_row && !is_second {
        Ok(row)
    } else {
        Err(Fail::from("not one row"))
    }
}

/// A page of two places in hexadecimal, and in a file.
const PAGES: &[&[u8]] = &[
    b"hex:50350a3220310a3235350a0102",
    b"hex:50350A3220310A3235350A0102",
    b"page.pgm",
    b"./page.pgm",
];

#[test]
fn pages_in_lines_and_in_files(rt: HostRuntime) -> Result<(), Fail> {
    let mut inputs = HostInputs { rt: &rt };
    fs::write(&rt, "page.pgm", b"P5\n2 1\n255\n\x01\x02")?;
    for page in PAGES {
        let Ok(mut source) = page_source(rt.alloc(), &mut inputs, page, 26) else {
            panic!(rt; "refused: {page:?}");
        };
        assert!(rt; source.size() == (2, 1));
        assert!(rt; source.dpi() == 26);
        assert!(rt; only_row(&mut source)? == [257, 257, 257, 514, 514, 514]);
    }
    Ok(())
}

/// No such file, a folder, a page with other digits, and files with each fault.
const NO_PAGES: &[(&[u8], NoPage)] = &[
    (b"none.pgm", NoPage::CannotRead),
    (b".", NoPage::CannotRead),
    (b"HEX:50", NoPage::CannotRead),
    (b"hex:5", NoPage::BadMagic),
    (b"hex:5g", NoPage::BadMagic),
    (b"hex:", NoPage::BadMagic),
    (b"hex:50340a3120310a80", NoPage::BadMagic),
    (b"hex:50350a3020310a3235350a00", NoPage::BadHeader),
    (b"hex:50350a3120310a31300a0b", NoPage::SampleTooLarge),
    (b"hex:50350a3120310a3235350a", NoPage::Short),
    (b"hex:50350a3120310a3235350a0000", NoPage::Trailing),
    (b"short.pgm", NoPage::Short),
];

#[test]
fn pages_that_are_not_there(rt: HostRuntime) -> Result<(), Fail> {
    let mut inputs = HostInputs { rt: &rt };
    fs::write(&rt, "short.pgm", b"P5\n1 1\n255\n")?;
    for (page, why) in NO_PAGES {
        let refused = page_source(rt.alloc(), &mut inputs, page, 26).err();
        assert!(rt; refused == Some(PageSourceFault::NoPage(*why)));
    }
    for dpi in [0, 1201] {
        let refused = page_source(
            rt.alloc(),
            &mut inputs,
            b"hex:50350a3120310a3235350a00",
            dpi,
        )
        .err();
        assert!(rt; refused == Some(PageSourceFault::BadDpi));
    }
    Ok(())
}

const TEXTS: &[(NoPage, &str)] = &[
    (NoPage::CannotRead, "cannot read page"),
    (NoPage::BadMagic, "page fault 1"),
    (NoPage::BadHeader, "page fault 2"),
    (NoPage::SampleTooLarge, "page fault 3"),
    (NoPage::Short, "page fault 4"),
    (NoPage::Trailing, "page fault 5"),
];

#[test]
fn texts_of_why(rt: HostRuntime) -> Result<(), Fail> {
    for (why, text) in TEXTS {
        let told = format!(in rt.alloc(); "{why}")?;
        assert!(rt; told.as_str() == *text);
    }
    Ok(())
}
