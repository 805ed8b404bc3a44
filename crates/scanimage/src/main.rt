//! `scanimage`: lists the virtual scanners of a config or of a daemon, shows their options, and scans to Netpbm files.
#![tactic(auto)]

use config_pages::{HostInputs, RecordedInputs};
use recorded::{Recorded, RecordedShelf};
use scanimage_cli::{
    Ending, Folder, HostDial, HostWords, JobFiles, OutputFile, OutputTally, Outputs, Outside,
    RecordedHosts, program, tell_ending, words_of,
};
use std::fs::File;
use std::process::ExitCode;

/// A directory can be opened for reading, and neither be read nor written.
const ROOT: &str = "/";

fn main(rt: HostRuntime) -> ExitCode {
    // It stands in for each standard descriptor that is closed, so that no socket or file of the job becomes one.
    let _standing_in = [
        File::open(&rt, ROOT),
        File::open(&rt, ROOT),
        File::open(&rt, ROOT),
    ];
    // No call on an output, an input or a host is made past its record.
    let mut err = Recorded::new(rt.stderr());
    let words = match words_of(rt.alloc(), &HostWords { rt: &rt }) {
        Ok(words) => words,
        Err(fault) => {
            let ending = Ending::of_split(fault);
            return tell_ending(&mut err, &ending, &mut OutputTally::new());
        }
    };
    let mut outside = Outside {
        inputs: RecordedInputs::new(HostInputs { rt: &rt }),
        hosts: RecordedHosts::new(HostDial::new(&rt)),
    };
    let mut outputs = Outputs {
        out: Recorded::new(rt.stdout()),
        err,
        files: JobFiles {
            named: Recorded::new(OutputFile::new(&rt)),
            shelf: RecordedShelf::new(Folder { rt: &rt }),
        },
        has_begun: false,
        tally: OutputTally::new(),
        errors: OutputTally::new(),
    };
    program(rt.alloc(), words.as_slice(), &mut outside, &mut outputs)
}
