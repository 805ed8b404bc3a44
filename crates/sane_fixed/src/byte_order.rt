/// Which byte of a sample of two comes first.
#[derive(Clone, Copy, Debug, PartialEq, Eq)]
pub enum ByteOrder {
    /// The less significant byte first.
    Little,
    /// The more significant byte first.
    Big,
}
