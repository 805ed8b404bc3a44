use sane_fixed::{
    Cap, Fixed, FrameFormat, Info, Kind, NoMem, Status, Text, TextFault, Unit, px, px_between,
};
use std::test::Fail;
use text_lines::first_line;

/// Texts, and the words that they spell.
const DECIMALS: &[(&[u8], Option<Fixed>)] = &[
    (b"80.5", Some(Fixed(0x0050_8000))),
    (b"-32768", Some(Fixed(i32::MIN))),
    (b"32768", None),
    (b"32767.99999237060546875", None),
    (b"32767.9999847412109375", Some(Fixed(i32::MAX))),
    // 0.6 is nearest to 39322 / 65536.
    (b"0.6", Some(Fixed(39322))),
    // A half of a word goes away from zero.
    (b"0.00000762939453125", None),
    (b"0.0000076293945313", Some(Fixed(1))),
    (b"0.0000076293945312", Some(Fixed(0))),
    (b"-0", Some(Fixed(0))),
    (b"1.", None),
    (b".5", None),
    (b"+1", None),
    (b"--1", None),
    (b"", None),
    (b"-", None),
    (b"1 ", None),
    (b"000000001", Some(Fixed(65536))),
    (b"0000000001", None),
];

/// Words, and the texts that show them.
const EXACT: &[(i32, &[u8])] = &[
    // 0.6 mm is shown as what it is kept as.
    (39322, b"0.600006103515625"),
    (0x0050_8000, b"80.5"),
    (80 * 65536, b"80"),
    (0, b"0"),
    (-32768, b"-0.5"),
    (1, b"0.0000152587890625"),
    (i32::MAX, b"32767.9999847412109375"),
    (i32::MIN, b"-32768"),
];

#[test]
fn decimals(rt: HostRuntime) -> Result<(), NoMem> {
    for (text, word) in DECIMALS {
        assert!(rt; Fixed::parse(text) == *word);
    }
    for (word, text) in EXACT {
        assert!(rt; Fixed(*word).to_text(rt.alloc())?.as_bytes() == *text);
    }
    Ok(())
}

#[test]
fn dots_of_lengths(rt: HostRuntime) {
    let mm = 65536;
    // The default window of a flatbed, and the width of a hand scanner.
    assert!(rt; px(Fixed(80 * mm), 50) == 157 && px(Fixed(100 * mm), 50) == 196);
    assert!(rt; px(Fixed(110 * mm), 75) == 324);
    // One dot needs 26 dots per inch at 1 mm.
    assert!(rt; px(Fixed(mm), 26) == 1 && px(Fixed(mm), 25) == 0);
    assert!(rt; px_between(Fixed(i32::MAX), Fixed(i32::MIN), 1200) == 0);
    assert!(rt; px_between(Fixed(i32::MIN), Fixed(i32::MAX), 1200) == 3096188);
}

#[test]
fn texts(rt: HostRuntime) -> Result<(), Fail> {
    let text = Text::new(rt.alloc(), b"flatbed:0")?;
    assert!(rt; text.as_bytes() == b"flatbed:0".as_slice());
    assert!(rt; Text::new(rt.alloc(), b"a\0b").err() == Some(TextFault::Nul));
    let copy = text.try_clone(rt.alloc())?;
    assert!(rt; copy == text);
    Ok(())
}

const STATUSES: &[(Status, u32, &str)] = &[
    (Status::Good, 0, "SANE_STATUS_GOOD"),
    (Status::Unsupported, 1, "SANE_STATUS_UNSUPPORTED"),
    (Status::Cancelled, 2, "SANE_STATUS_CANCELLED"),
    (Status::DeviceBusy, 3, "SANE_STATUS_DEVICE_BUSY"),
    (Status::Inval, 4, "SANE_STATUS_INVAL"),
    (Status::Eof, 5, "SANE_STATUS_EOF"),
    (Status::Jammed, 6, "SANE_STATUS_JAMMED"),
    (Status::NoDocs, 7, "SANE_STATUS_NO_DOCS"),
    (Status::CoverOpen, 8, "SANE_STATUS_COVER_OPEN"),
    (Status::IoError, 9, "SANE_STATUS_IO_ERROR"),
    (Status::NoMem, 10, "SANE_STATUS_NO_MEM"),
    (Status::AccessDenied, 11, "SANE_STATUS_ACCESS_DENIED"),
];

const KINDS: &[(Kind, u32)] = &[
    (Kind::Bool, 0),
    (Kind::Int, 1),
    (Kind::Fixed, 2),
    (Kind::String, 3),
    (Kind::Button, 4),
    (Kind::Group, 5),
];

const UNITS: &[(Unit, u32)] = &[
    (Unit::None, 0),
    (Unit::Pixel, 1),
    (Unit::Bit, 2),
    (Unit::Mm, 3),
    (Unit::Dpi, 4),
    (Unit::Percent, 5),
    (Unit::Microsecond, 6),
];

const FORMATS: &[(FrameFormat, u32)] = &[
    (FrameFormat::Gray, 0),
    (FrameFormat::Rgb, 1),
    (FrameFormat::Red, 2),
    (FrameFormat::Green, 3),
    (FrameFormat::Blue, 4),
];

#[test]
fn codes_of_the_standard(rt: HostRuntime) {
    for (status, code, name) in STATUSES {
        assert!(rt; status.code() == *code && Status::from_code(*code) == Some(*status));
        assert!(rt; status.name() == *name);
    }
    for (kind, code) in KINDS {
        assert!(rt; kind.code() == *code && Kind::from_code(*code) == Some(*kind));
    }
    for (measure, code) in UNITS {
        assert!(rt; measure.code() == *code && Unit::from_code(*code) == Some(*measure));
    }
    for (format, code) in FORMATS {
        assert!(rt; format.code() == *code && FrameFormat::from_code(*code) == Some(*format));
    }
    assert!(rt; Status::from_code(12).is_none() && Kind::from_code(6).is_none());
    assert!(rt; Unit::from_code(7).is_none() && FrameFormat::from_code(5).is_none());
    assert!(rt; Cap::SOFT_SELECT == 1 && Cap::HARD_SELECT == 2 && Cap::SOFT_DETECT == 4);
    assert!(rt; Cap::EMULATED == 8 && Cap::AUTOMATIC == 16 && Cap::INACTIVE == 32);
    assert!(rt; Cap::ADVANCED == 64 && Info::INEXACT == 1);
    assert!(rt; Info::RELOAD_OPTIONS == 2 && Info::RELOAD_PARAMS == 4);
}

/// A text, its first line, and what stands behind that.
const LINES: &[(&[u8], Option<(&[u8], &[u8])>)] = &[
    (b"", None),
    (b"a", Some((b"a", b""))),
    (b"\n\nb", Some((b"", b"\nb"))),
    (b"a\r\nb\r\n", Some((b"a", b"b\r\n"))),
    // Only the one CR before LF is dropped, and at the end of the text none is.
    (b"a\r\r\nb", Some((b"a\r", b"b"))),
    (b"a\r", Some((b"a\r", b""))),
];

#[test]
fn first_lines(rt: HostRuntime) {
    for (text, cut) in LINES {
        assert!(rt; first_line(text) == *cut);
    }
}
