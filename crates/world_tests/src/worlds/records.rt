//! What has come of a file behind each record, and jobs that are cut off there.

use super::jobs::{PAIR, PAIR_FILE, ROW_BY_ROW, ROWS, ROWS_FILE, THREE_PASSES, Worked, play_one};
use super::losses::WHOLE;
use super::*;

/// Of the file of two rows the header is there, and the first row, and both.
const HEADER: Step = Step::Shows(0, Shown::Front(ROWS_FILE, 31));

const FIRST_ROW: Step = Step::Shows(0, Shown::Front(ROWS_FILE, 32));

const BOTH_ROWS: Step = Step::Shows(0, Shown::Front(ROWS_FILE, 33));

const DONE: Step = Step::Is(0, Over::Done);

/// Two records of five bytes: the last row comes with the end record, and no loss behind that takes it back.
const BY_RECORDS: &[Step] = &[
    Step::UntilData(1),
    HEADER,
    Step::UntilData(2),
    FIRST_ROW,
    Step::UntilData(2),
    FIRST_ROW,
    Step::Is(0, Over::Running),
    Step::Moves(0, 1, AT_ONCE),
    DONE,
    BOTH_ROWS,
    Step::LoseImage(0),
    Step::Lose(0),
    DONE,
    BOTH_ROWS,
];

#[test]
fn files_behind_records(rt: HostRuntime) {
    play_one(&rt, rt.alloc(), &ROW_BY_ROW, BY_RECORDS);
}

const LOSE: Step = Step::Lose(0);

const LOSE_IMAGE: Step = Step::LoseImage(0);

/// A job, its moves up to a delivery of data, what it shows then and goes on to show, what cuts it off, and how it ends.
type Cut = (Worked, Step, Shown, Step, Over);

/// Before the end record, or before its last byte, and behind the first of three frames.
const CUTS: &[Cut] = &[
    (
        ROWS,
        Step::UntilData(2),
        Shown::Front(ROWS_FILE, 32),
        LOSE,
        LOST,
    ),
    (
        ROWS,
        Step::UntilData(2),
        Shown::Front(ROWS_FILE, 32),
        LOSE_IMAGE,
        LOST,
    ),
    (
        ROW_BY_ROW,
        Step::UntilByte(15),
        Shown::Front(ROWS_FILE, 32),
        LOSE,
        LOST,
    ),
    (
        PAIR,
        Step::UntilByte(11),
        Shown::Front(PAIR_FILE, 31),
        LOSE_IMAGE,
        LOST,
    ),
    (
        THREE_PASSES,
        Step::UntilData(3),
        Shown::FrontOf(WHOLE),
        Step::Cancel(0),
        CANCELLED,
    ),
    (
        THREE_PASSES,
        Step::UntilByte(14),
        Shown::FrontOf(WHOLE),
        Step::Cancel(0),
        CANCELLED,
    ),
];

#[test]
fn cut_off_behind_records(rt: HostRuntime) {
    for (it, until, shown, by, over) in CUTS {
        let shows = Step::Shows(0, *shown);
        let running = Step::Is(0, Over::Running);
        let steps = [*until, running, shows, *by, Step::Is(0, *over), shows];
        play_one(&rt, rt.alloc(), it, &steps);
    }
}
