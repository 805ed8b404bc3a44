//! Scans whose bytes are told, run to their end.

use super::*;
use worked_worlds::{
    ShownOption, scan_dots, scan_one_dot, scan_two_dots, scan_two_of_three, show_hand,
};

/// The files of a black dot, and of a white one.
const BLACK: &[u8] = b"P5\n# SANE data follows\n1 1\n255\n\x00";

const WHITE: &[u8] = b"P5\n# SANE data follows\n1 1\n255\n\xff";

/// Scans a dot of that gray, which must give this file.
fn scans_to(rt: &impl Abort, alloc: Global, gray: u8, whole: &[u8]) {
    match scan_one_dot(alloc, gray) {
        Ok(file) => assert!(rt; file.as_slice() == whole),
        Err(_) => panic!(rt; "no file"),
    }
}

/// Each gray at the ends of a byte, and one between.
#[test]
fn one_dot_is_scanned(rt: HostRuntime) {
    let alloc = rt.alloc();
    scans_to(&rt, alloc, 0, BLACK);
    scans_to(&rt, alloc, 7, SEVEN);
    scans_to(&rt, alloc, 255, WHITE);
}

#[test]
fn two_dots_are_fed(rt: HostRuntime) {
    let alloc = rt.alloc();
    match scan_dots(alloc, 7, 9) {
        Ok((first, second)) => {
            assert!(rt; first.as_slice() == SEVEN && second.as_slice() == NINE);
        }
        Err(_) => panic!(rt; "no files"),
    }
}

#[test]
fn two_of_three_dots_are_fed(rt: HostRuntime) {
    let alloc = rt.alloc();
    match scan_two_of_three(alloc, 7, 9, 11) {
        Ok((first, second)) => {
            assert!(rt; first.as_slice() == SEVEN && second.as_slice() == NINE);
        }
        Err(_) => panic!(rt; "no files"),
    }
}

#[test]
fn two_dots_are_scanned_at_once(rt: HostRuntime) {
    let alloc = rt.alloc();
    match scan_two_dots(alloc, 7, 9) {
        Ok((first, second)) => {
            assert!(rt; first.as_slice() == SEVEN && second.as_slice() == NINE);
        }
        Err(_) => panic!(rt; "no files"),
    }
}

/// Whether the option has this name, and says this.
fn says(option: &ShownOption, name: &[u8], value: &Value) -> bool {
    option.name.as_bytes() == name && option.value.as_ref() == Some(value)
}

#[test]
fn a_hand_scanner_is_shown(rt: HostRuntime) {
    let alloc = rt.alloc();
    let Ok(table) = show_hand(alloc, 7) else {
        panic!(rt; "no table");
    };
    let [count, mode, depth, resolution, hand] = table.as_slice() else {
        panic!(rt; "another number of options");
    };
    let gray = text(alloc, b"Gray").expect(&rt, "a text");
    assert!(rt; says(count, b"", &Value::Int(5)) && says(mode, b"mode", &Value::Text(gray)));
    assert!(rt; says(depth, b"depth", &Value::Int(8)));
    assert!(rt; says(resolution, b"resolution", &Value::Int(150)));
    assert!(rt; says(hand, b"hand-scanner", &Value::Flag(true)));
}
