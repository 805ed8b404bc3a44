//! `saned`: serves the virtual scanners of a config to clients on 127.0.0.1.
#![tactic(auto)]

mod daemon_command_line;

use crate::daemon_command_line::words;
use config_pages::{HostInputs, RecordedInputs};
use saned_cli::{
    DaemonOutput, DaemonStreams, RecordedPorts, SystemPorts, daemon_program, tell_daemon_ending,
};
use std::fs::File;
use std::process::ExitCode;

/// A directory can be opened for reading, and neither be read nor written.
const ROOT: &str = "/";

fn main(rt: HostRuntime) -> ExitCode {
    // It stands in for each standard descriptor that is closed, so that no socket or file of the daemon becomes one.
    let _standing_in = [
        File::open(&rt, ROOT),
        File::open(&rt, ROOT),
        File::open(&rt, ROOT),
    ];
    // No call on an input or for a port is made past its record.
    let mut streams = DaemonStreams {
        inputs: RecordedInputs::new(HostInputs { rt: &rt }),
        ports: RecordedPorts::new(SystemPorts { rt: &rt }),
        out: DaemonOutput::new(rt.stdout()),
        err: DaemonOutput::new(rt.stderr()),
    };
    match words(&rt) {
        Ok(words) => daemon_program(rt.alloc(), &mut streams, words.as_slice()),
        Err(ending) => tell_daemon_ending(&mut streams.err, &ending),
    }
}
