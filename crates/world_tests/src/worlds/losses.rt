//! A scan in three passes whose connection is lost behind every forty-first byte, and the next client's scan.

use super::*;

/// A color page of two dots of 16 bits, whose channels all differ.
pub const COLORS: &[u8] = b"P6\n2 1\n65535\n\0\x01\0\x02\0\x03\0\x04\0\x05\x01\0";

/// The settings of a whole scan in three passes, blue first.
pub const PASSES: &str = "mode=Color depth=16 three-pass-order=BGR resolution=26 br-x=2 br-y=1";

/// The file of a whole scan.
pub const WHOLE: &[u8] =
    b"P6\n# SANE data follows\n2 1\n65535\n\0\x01\0\x02\0\x03\0\x04\0\x05\x01\0";

/// The three-pass scanner on that page.
pub const THREE_PASS: Scanner = Scanner {
    kind: DeviceKind::ThreePass,
    name: b"threepass:0",
    order: ByteOrder::Big,
    dpi: 26,
    pages: &[COLORS],
};

/// The job that scans it whole.
pub const SCAN: Asked = Asked {
    device: b"threepass:0",
    settings: PASSES,
    task: Task::Scan,
};

/// A byte a delivery; the first job may then be lost, and the next one finds the scanner free.
const WHOLLY: &[Step] = &[
    Step::Moves(0, EVERY, 1),
    Step::Is(0, Over::Done),
    Step::Shows(0, Shown::File(WHOLE)),
];

const LOST_THEN: &[Step] = &[
    Step::Is(0, Over::Running),
    Step::Lose(0),
    Step::Is(0, LOST),
    Step::Shows(0, Shown::NoWholeFile),
    Step::Moves(1, EVERY, AT_ONCE),
    Step::Is(1, Over::Done),
    Step::Shows(1, Shown::File(WHOLE)),
];

/// How many bytes further on the connection of the next world is lost. It is odd and no word's length, so that losses come at each
/// place of a word.
const FURTHER: u64 = 41;

#[test]
fn losses_behind_bytes(rt: HostRuntime) {
    let alloc = rt.alloc();
    let count = play(&rt, alloc, &[THREE_PASS], b"", &[SCAN], WHOLLY);
    assert!(rt; count > 1000);
    for loss in 0..count / FURTHER {
        let k = 1 + FURTHER * loss;
        let mut world = world_of(&rt, alloc, &[THREE_PASS], b"", &[SCAN, SCAN]);
        act(&rt, alloc, &mut world, Step::Moves(0, k, 1));
        act_all(&rt, alloc, &mut world, LOST_THEN);
        drop(world);
    }
}
