//! The program from its words to its exit status.
ghost use Rattle.std.specs.Prelude.{◌≡◌, IfErr, OnErr, OnOk, true};
ghost use Rattle.std.specs.Process.{exit_status as code_of};
ghost use Rattle.scanimage_cli.specs.CallStreams.{held};
ghost use Rattle.scanimage_cli.specs.Causes.{IsCausedBy};
ghost use Rattle.scanimage_cli.specs.Ending.{IsFailure, IsOfOutput, ending_line, exit_status};
ghost use Rattle.scanimage_cli.specs.HowEnded.{EndsAs};
ghost use Rattle.scanimage_cli.specs.Printing.{TakesOrFails};
ghost use Rattle.scanimage_cli.specs.Programs.{seen_outputs, seen_outside};
ghost use Rattle.scanimage_cli.specs.RecordedOutputs.{recorded_outputs, recorded_outside, taken_outputs};
ghost use Rattle.scanimage_cli.specs.Whole.{RunsFor, RunsNoFurther};
ghost use Rattle.scanimage_cli.specs.Written.{IsWrittenFor};

use crate::ending::Ending;
use crate::hosts::Hosts;
use crate::inputs::{config_lines, password_of};
use crate::laws::what_is_carried_out_is_written;
use crate::outputs::Outputs;
use crate::outside::Outside;
use crate::planning::{Location, Plan, plan_of};
use crate::recorded_hosts::RecordedHosts;
use crate::task_here::run_task;
use crate::task_there::run_net_task;
use config_pages::{Inputs, RecordedInputs, scanners};
use dispatch::Registry;
use local_job::OutputTally;
use recorded::{NamedOutput, Recorded, RecordedShelf};
use sane_fixed::{ByteOrder, Text};
use scan_job::Shelf;
use std::alloc::Global;
use std::fs::File;
use std::io::Write;
use std::process::ExitCode;

/// The order in which the devices of this program give the two bytes of a sample; no picture depends on it.
const ORDER: ByteOrder = ByteOrder::Big;

/// Reads the config, makes the devices, and does what the words ask for.
pub fn run<I: Inputs<Page = File>, H: Hosts, O: Write, E: Write, N: NamedOutput, S: Shelf>(
    alloc: Global,
    words: &[Text],
    outside: &mut Outside<I, H>,
    outputs: &mut Outputs<O, E, N, S>,
) -> Result<(), Ending>
    /// Where what the words ask for ends well, it is done, with the config and the password that were read, and nothing else was
    /// read.
    /// Carried by: `done` of `run`: `RunsFor`, `HasRunFor`
    ensures done { OnOk result (RunsFor words.now
        (held (seen_outside I.seen H.ports) outside.old outside.new)
        (held (seen_outputs O.contents E.contents N.contents S.stock) outputs.old outputs.new)) }
    /// If it does not, no file of its own is left; an output's ending is told only if it is noted that one failed; nothing was
    /// printed on standard error; and its exit status is not 0.
    /// Carried by: `no_file`, `output`, `silent`, `failed` of `run`: `RunsNoFurther`, `LeavesNoneOf`
    ensures no_file { OnErr result (RunsNoFurther words.now
        (held (seen_outputs O.contents E.contents N.contents S.stock) outputs.old outputs.new)) }
    ensures output { IfErr result
        (λ ending. IsOfOutput ending → outputs.new.tally.failed ≡ true) }
    ensures silent { OnErr result (E.contents outputs.new.err ≡ E.contents outputs.old.err) }
    ensures failed { IfErr result IsFailure }
    /// What is told of it has its cause, by what was read, dialled and written until then.
    /// Carried by: `cause` of `run`: `IsCausedBy`, `IsCauseOf`
    ensures cause { IfErr result (IsCausedBy words.now
        (held (seen_outside I.seen H.ports) outside.old outside.new)
        (held (seen_outputs O.contents E.contents N.contents S.stock) outputs.old outputs.new)) }
{
    let plan = plan_of(alloc, words)?;
    let lines = config_lines(alloc, &mut outside.inputs, &plan.config)?;
    let devices = match scanners(alloc, &mut outside.inputs, lines.as_slice(), ORDER) {
        Ok(devices) => devices,
        Err(why) => return Err(Ending::of_device(why.line, why.fault)),
    };
    let Ok(mut registry) = Registry::new(alloc, devices) else {
        return Err(Ending::no_memory());
    };
    let password = password_of(alloc, &mut outside.inputs, &plan.password_file)?;
    let Plan { location, job, .. } = plan;
    match location {
        Location::There(remote) => {
            let hosts = &mut outside.hosts;
            run_net_task(alloc, hosts, remote, job, password, outputs)
        }
        Location::Here(device) => {
            let registry = &mut registry;
            run_task(alloc, registry, device, job, password, outputs)
        }
    }
}

/// Says on standard error how the program ends, and gives the exit status of that.
pub fn tell_ending<E: Write>(err: &mut E, ending: &Ending, errors: &mut OutputTally) -> ExitCode
    /// An ending is told by its line on standard error, unless that failed, and by its exit status.
    /// Carried by: `status`, `line` of `tell_ending`
    ensures status { code_of result ≡ exit_status ending.now }
    ensures line { TakesOrFails (E.contents err.old)
        (E.contents err.new) (ending_line ending.now) errors.new.failed }
{
    ending.tell(err, errors);
    ExitCode::from(ending.exit_status())
}

/// Does what the words of the command line ask for, notes what became of the calls on its outputs, and gives the exit status.
pub fn exit_code<I: Inputs<Page = File>, H: Hosts, O: Write, E: Write, N: NamedOutput, S: Shelf>(
    alloc: Global,
    words: &[Text],
    outside: &mut Outside<I, H>,
    outputs: &mut Outputs<O, E, N, S>,
) -> ExitCode
    /// If the exit status is 0, what the words of the command line ask for is done, on the device of that name among the scanners
    /// of the config's lines, or on a daemon of the host and port that they name, with the password in their file. Nothing else
    /// was read or dialled.
    /// Carried by: `well` of `exit_code`, `done` of `run`: `RunsFor`, `HasRunFor`
    ensures well { code_of result ≡ 0 → RunsFor words.now
        (held (seen_outside I.seen H.ports) outside.old outside.new)
        (held (seen_outputs O.contents E.contents N.contents S.stock) outputs.old outputs.new) }
    /// Any other exit status is that of an ending. Its line is told on standard error, and nothing else, unless that failed. Its
    /// cause is so, by what was read, dialled and written until then. A command line is told as bad only if its words have no
    /// plan. One that names an output comes only if it is noted that one failed. No file of what was asked for is left.
    /// Carried by: `otherwise` of `exit_code`, `output`, `cause` of `run`: `EndsAs`, `HasEndedAs`, `IsCauseOf`
    ensures otherwise { EndsAs words.now (code_of result)
        (held (seen_outside I.seen H.ports) outside.old outside.new)
        (held (seen_outputs O.contents E.contents N.contents S.stock) outputs.old outputs.new)
        outputs.new.errors }
{
    match run(alloc, words, outside, outputs) {
        Ok(()) => ExitCode::from(0),
        Err(ending) => tell_ending(&mut outputs.err, &ending, &mut outputs.errors),
    }
}

/// Does what the words ask for, with a record of all that the calls on its inputs, hosts and outputs give and take.
pub fn program<I: Inputs<Page = File>, H: Hosts, O: Write, E: Write, N: NamedOutput, S: Shelf>(
    alloc: Global,
    words: &[Text],
    outside: &mut Outside<RecordedInputs<I>, RecordedHosts<H>>,
    outputs: &mut Outputs<Recorded<O>, Recorded<E>, Recorded<N>, RecordedShelf<S>>,
) -> ExitCode
    /// If the exit status is 0, the calls on standard output, on the one file that was named and on those of a batch took what
    /// the words ask for: a scan's whole file, in the one place that they name, or one of each page of a batch. Its scanners are
    /// those of the lines of the config that was read where the words name it. Nothing else was read but the password that they
    /// name, and the page files of these lines.
    /// Carried by: `written` of `program`: `IsWrittenFor`, `IsWritten`
    ensures written { code_of result ≡ 0 → IsWrittenFor words.now
        (recorded_outside I.seen outside.old).inputs (recorded_outside I.seen outside.new).inputs
        (taken_outputs outputs.old) (taken_outputs outputs.new) }
    /// What is promised of the exit status holds of all that these calls gave and took. For a job over the net one control
    /// connection was asked for, to the host and port of the words, and data connections to the ports that its replies named, and
    /// no others.
    /// Carried by: `well`, `otherwise` of `program`: `RunsFor`, `EndsAs`
    ensures well { code_of result ≡ 0 → RunsFor words.now
        (held (recorded_outside I.seen) outside.old outside.new)
        (held recorded_outputs outputs.old outputs.new) }
    ensures otherwise { EndsAs words.now (code_of result)
        (held (recorded_outside I.seen) outside.old outside.new)
        (held recorded_outputs outputs.old outputs.new) outputs.new.errors }
{
    what_is_carried_out_is_written();
    exit_code(alloc, words, outside, outputs)
}
