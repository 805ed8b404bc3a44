use local_job::OutputTally;

/// Where the files of jobs go: that of a job that has one to the file that is named, and those of a batch to a shelf.
#[derive(Drop)]
pub struct JobFiles<N, S> {
    pub named: N,
    pub shelf: S,
}

/// All that the program writes to, and what became of the calls on it.
#[derive(Drop)]
pub struct Outputs<O, E, N, S> {
    pub out: O,
    pub err: E,
    pub files: JobFiles<N, S>,
    /// Whether a job was begun.
    pub has_begun: bool,
    /// Of the calls by which what is asked for is done.
    pub tally: OutputTally,
    /// Of those by which an ending is told.
    pub errors: OutputTally,
}
