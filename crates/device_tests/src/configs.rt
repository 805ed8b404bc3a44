use dispatch::{ConfigFault, ConfigLine, ConfigReason, parse_config};
use page_picture::DeviceKind;
use std::alloc::{AllocError, Global};
use std::test::Fail;

const CONFIG: &[u8] =
    b"# a comment \xff\n\nflatbed 0 50 page.pgm\r\n \thand\t99  1200 \t hex:50 \n#\nthreepass 10 1 /a:b\nfeeder 3 26 a hex:50\tb";

/// A device's line, kind, index and dots per inch, its name, and its pages.
type Wanted = (
    u32,
    DeviceKind,
    u32,
    u32,
    &'static [u8],
    &'static [&'static [u8]],
);

const DEVICES: &[Wanted] = &[
    (3, DeviceKind::Flatbed, 0, 50, b"flatbed:0", &[b"page.pgm"]),
    (4, DeviceKind::Hand, 99, 1200, b"hand:99", &[b"hex:50"]),
    (6, DeviceKind::ThreePass, 10, 1, b"threepass:10", &[b"/a:b"]),
    (
        7,
        DeviceKind::Feeder,
        3,
        26,
        b"feeder:3",
        &[b"a", b"hex:50", b"b"],
    ),
];

/// Whether a line tells of that device.
fn is(alloc: Global, device: &ConfigLine, wanted: &Wanted) -> Option<bool> {
    let (line, kind, index, dpi, name, pages) = *wanted;
    let mut are_pages = device.pages.len() == pages.len();
    for (page, path) in device.pages.iter().zip(pages) {
        are_pages &= page.as_bytes() == *path;
    }
    let is_named = device.name(alloc).ok()?.as_bytes() == name;
    let told = (device.line, device.kind, device.index, device.dpi);
    Some(is_named && are_pages && told == (line, kind, index, dpi))
}

#[test]
fn devices_of_a_config(rt: HostRuntime) {
    let devices = parse_config(rt.alloc(), CONFIG).ok().expect(&rt, "devices");
    assert!(rt; devices.len() == DEVICES.len());
    for (device, wanted) in devices.iter().zip(DEVICES) {
        assert!(rt; is(rt.alloc(), device, wanted) == Some(true));
    }
}

/// Configs, the first refused line, and why it is refused.
const REFUSED: &[(&[u8], u32, ConfigReason)] = &[
    (b"\n\x1b", 2, ConfigReason::BadByte),
    // A CR that no LF follows is part of its line.
    (b"flatbed 0 50 a\r", 1, ConfigReason::BadByte),
    (b"flatbed 0 50", 1, ConfigReason::WrongFields),
    (b"flatbed 0 50 a b", 1, ConfigReason::WrongFields),
    (b" \t ", 1, ConfigReason::WrongFields),
    (b"feeder 0 50", 1, ConfigReason::WrongFields),
    (b"scanner 0 26 x", 1, ConfigReason::UnknownKind),
    (b"Flatbed 0 26 x", 1, ConfigReason::UnknownKind),
    (b"hand 100 26 x", 1, ConfigReason::BadIndex),
    (b"hand 00 26 x", 1, ConfigReason::BadIndex),
    (b"hand 1 0 x", 1, ConfigReason::BadDpi),
    (b"hand 1 1201 x", 1, ConfigReason::BadDpi),
    (b"hand 1 026 x", 1, ConfigReason::BadDpi),
    (b"hand 1 26 x\nhand 1 26 x", 2, ConfigReason::SameName),
    // Two reasons in one line.
    (b"\x1b 0 50", 1, ConfigReason::BadByte),
    (b"scanner 0 50", 1, ConfigReason::WrongFields),
    (b"scanner 100 50 a", 1, ConfigReason::UnknownKind),
    (b"hand 100 0 a", 1, ConfigReason::BadIndex),
    (b"hand 1 26 x\nhand 1 0 x", 2, ConfigReason::BadDpi),
];

fn fault_of(alloc: Global, config: &[u8]) -> Option<ConfigFault> {
    parse_config(alloc, config).err()
}

#[test]
fn lines_refused(rt: HostRuntime) {
    for &(config, line, reason) in REFUSED {
        assert!(rt; fault_of(rt.alloc(), config) == Some(ConfigFault { line, reason }));
    }
}

/// So many copies of a text, and then another.
fn repeated(alloc: Global, text: &[u8], count: usize, last: &[u8]) -> Result<Vec<u8>, AllocError> {
    let mut all = Vec::new(alloc);
    for _ in 0..count {
        all.extend_from_slice(text)?;
    }
    all.extend_from_slice(last)?;
    Ok(all)
}

/// Sixteen pages of a feeder, and devices up to the sixteenth.
const PAGES: &[u8] = b"feeder 0 26 a b c d e f g h i j k l m n o p";

const SIXTEEN: &[u8] =
    b"hand 0 1 x\nhand 1 1 x\nhand 2 1 x\nhand 3 1 x\nhand 4 1 x\nhand 5 1 x\nhand 6 1 x\nhand 7 1 x\nhand 8 1 x\nhand 9 1 x\nhand 10 1 x\nhand 11 1 x\nhand 12 1 x\nhand 13 1 x\nhand 14 1 x\nhand 15 1 x\n";

/// A text, how often it stands, what follows, and the fault of that, if there is one.
const LIMITS: &[(&[u8], usize, &[u8], Option<(u32, ConfigReason)>)] = &[
    (b"\n", 64, b"", None),
    (b"\n", 64, b"#", Some((65, ConfigReason::TooManyLines))),
    // What ends a line does not count, and its length is tested before its bytes.
    (b"#", 65_536, b"\r\n", None),
    (b"\x1b", 65_537, b"", Some((1, ConfigReason::LineTooLong))),
    (PAGES, 1, b"", None),
    (PAGES, 1, b" q", Some((1, ConfigReason::WrongFields))),
    (SIXTEEN, 1, b"", None),
    (
        SIXTEEN,
        1,
        b"hand 16 1 x",
        Some((17, ConfigReason::TooManyDevices)),
    ),
    // The name is tested before the number of devices.
    (
        SIXTEEN,
        1,
        b"hand 15 1 x",
        Some((17, ConfigReason::SameName)),
    ),
];

#[test]
fn limits_of_a_config(rt: HostRuntime) -> Result<(), Fail> {
    for &(text, count, last, fault) in LIMITS {
        let config = repeated(rt.alloc(), text, count, last)?;
        let told = fault_of(rt.alloc(), &config).map(|fault| (fault.line, fault.reason));
        assert!(rt; told == fault);
    }
    Ok(())
}
