//! Four jobs of one world for which there may be no memory. With ample memory they are done; `tests/failing-allocations` runs
//! this test with each allocation refused in turn.

use super::jobs::{BY_HAND_FILE, DOT_FILE, LOST_DOTS_FILE, play_four};
use super::losses::WHOLE;
use super::*;

/// Whether it is done with its file, or without one where a growth was refused; or ended for lack of memory, at the client or
/// as a lost connection, and has no whole file.
pub fn is_done_or_wanting(alloc: Global, world: &EventWorld, i: usize, whole: &[u8]) -> bool {
    let file = world.file(i);
    let is_starved = world.starved(i);
    match how(world, i) {
        Some(Over::Done) => file == Some(whole) || (file.is_none() && is_starved),
        Some(Over::Ended(Status::NoMem, Why::Memory)) => !is_whole(alloc, file),
        Some(Over::Ended(Status::IoError, Why::Lost)) => is_starved && !is_whole(alloc, file),
        _ => false,
    }
}

const STEPS: &[Step] = &[
    Step::All,
    Step::Shows(0, Shown::FileIfMemory(DOT_FILE)),
    Step::Shows(1, Shown::FileIfMemory(BY_HAND_FILE)),
    Step::Shows(2, Shown::FileIfMemory(WHOLE)),
    Step::Shows(3, Shown::FileIfMemory(LOST_DOTS_FILE)),
];

#[test]
fn want_of_memory(rt: HostRuntime) {
    play_four(&rt, rt.alloc(), STEPS);
}
