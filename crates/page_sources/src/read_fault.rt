/// The most reads that opening a page file makes.
pub const MOST_READS: u64 = 1 << 40;

/// The reader failed, or was read too often.
#[derive(Clone, Copy, Debug, PartialEq, Eq)]
pub struct ReadFault;
