ghost use Rattle.std.specs.Prelude.{IfErr};
ghost use Rattle.saned_cli.specs.DaemonEndings.{IsDaemonFailure};

use saned_cli::DaemonEnding;
use std::env;
use std::io::ErrorKind;

/// The words of the command line, the program's name first; none where one is not UTF-8.
pub fn words(rt: &HostRuntime) -> Result<Vec<String>, DaemonEnding>
    ensures failed { IfErr result IsDaemonFailure }
{
    let words = match env::args(rt) {
        Ok(words) => words,
        Err(e) if e.kind() == ErrorKind::OutOfMemory => return Err(DaemonEnding::NoMemory),
        Err(_) => return Err(DaemonEnding::BadCommandLine),
    };
    let mut all = Vec::new(rt.alloc());
    for word in words {
        all.push(word).map_err(|_| DaemonEnding::NoMemory)?;
    }
    Ok(all)
}
