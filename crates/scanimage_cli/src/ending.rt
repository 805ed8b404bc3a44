ghost use Rattle.scanimage_cli.specs.Ending.{config_line_text};
ghost use Rattle.scanimage_cli.specs.Printing.{TakesOrFails};

use crate::options::OptionsFault;
use crate::pieces::put_pieces;
use crate::word_cut::SplitFault;
use config_pages::{DeviceFault, NoPage};
use dispatch::ConfigFault;
use itoa::Buffer;
use local_job::OutputTally;
use sane_fixed::{Status, Text};
use scan_job::{Job, JobFault, Stop, Why};
use std::io::Write;

/// How the program ends where it does not end well.
#[derive(Drop)]
pub enum Ending {
    BadCommandLine,
    /// A file that the command line names cannot be read.
    CannotRead(Text),
    /// A line of the config tells of no device.
    Config(ConfigFault),
    /// The page that the config's line of that number names is not there.
    Page(u32, NoPage),
    /// What was asked for ended with this status.
    Ended(Status, Why),
}

impl Ending {
    ghost use Rattle.std.specs.Prelude.{◌≡◌};
    ghost use Rattle.scanimage_cli.specs.Ending.{ended_by, ended_by_device, ended_by_options, ended_by_split, exit_status, ending_line, JobIsRefusedAs};
    ghost use Rattle.scanimage_cli.specs.Printing.{TakesOrFails};

    /// A job stopped so.
    pub fn of(stop: Stop) -> Ending
        ensures { result ≡ ended_by stop }
    {
        Ending::Ended(stop.status, stop.why)
    }

    /// The words of the command line cannot be split.
    pub fn of_split(fault: SplitFault) -> Ending
        ensures { result ≡ ended_by_split fault }
    {
        match fault {
            SplitFault::Bad => Ending::BadCommandLine,
            SplitFault::NoMem => Ending::no_memory(),
        }
    }

    /// The program's own words are no options.
    pub fn of_options(fault: OptionsFault) -> Ending
        ensures { result ≡ ended_by_options fault }
    {
        match fault {
            OptionsFault::Bad => Ending::BadCommandLine,
            OptionsFault::NoMem => Ending::no_memory(),
        }
    }

    /// The config's line of that number has no scanner.
    pub fn of_device(line: u32, fault: DeviceFault) -> Ending
        /// A line of the config without a scanner is told by its number and why its page is not there, or as out of memory.
        ensures { result ≡ ended_by_device line fault }
    {
        match fault {
            DeviceFault::NoPage(why) => Ending::Page(line, why),
            DeviceFault::NoMem => Ending::no_memory(),
        }
    }

    /// There was no memory.
    pub fn no_memory() -> Ending
        ensures { result ≡ Ending.Ended Status.NoMem Why.Memory }
    {
        Ending::Ended(Status::NoMem, Why::Memory)
    }

    /// The output failed, or cannot be made.
    pub fn failed_output() -> Ending
        ensures { result ≡ Ending.Ended Status.IoError Why.Sink }
    {
        Ending::Ended(Status::IoError, Why::Sink)
    }

    /// A connection was lost, or cannot be made.
    pub fn ending_of_loss() -> Ending
        ensures { result ≡ Ending.Ended Status.IoError Why.Lost }
    {
        Ending::Ended(Status::IoError, Why::Lost)
    }

    /// How a job ends that is refused before anything is done for it.
    pub fn of_refused(job: &Job) -> Option<Ending>
        /// Which job is refused for its size, before a connection is tried, and the exit status of each ending.
        /// Carried by: `Ending::of_refused`, `Ending::exit_status`
        ensures { JobIsRefusedAs job.now result }
    {
        match job.fault() {
            Some(JobFault::TooManySettings | JobFault::TextTooLong | JobFault::BadCount) => {
                Some(Ending::Ended(Status::Inval, Why::Setting))
            }
            // Its size is tested here, and no memory is wanted for that.
            Some(JobFault::NoMem) | None => None,
        }
    }

    /// The exit status of the program.
    pub fn exit_status(&self) -> u8
        ensures { result ≡ exit_status self.now }
    {
        match self {
            Ending::BadCommandLine => 64,
            Ending::CannotRead(_) | Ending::Config(_) | Ending::Page(_, _) => 65,
            Ending::Ended(status, _) => status.code() as u8,
        }
    }

    /// Writes the line that says how the program ended, as far as the writer takes it.
    pub fn tell<W: Write>(&self, to: &mut W, outputs: &mut OutputTally)
        /// The line of an ending is written whole, or a front of it where the writer failed, which is noted.
        ensures { TakesOrFails (W.contents to.old)
            (W.contents to.new) (ending_line self.now) outputs.new.failed }
    {
        match self {
            Ending::BadCommandLine => {
                put_pieces(to, &[b"scanimage: bad command line\n"], outputs)
            }
            Ending::CannotRead(path) => put_pieces(
                to,
                &[b"scanimage: cannot read ", path.as_bytes(), b"\n"],
                outputs,
            ),
            Ending::Config(fault) => tell_line(to, fault.line, fault.reason.text(), outputs),
            Ending::Page(line, why) => tell_line(to, *line, why.text(), outputs),
            Ending::Ended(status, why) => {
                let status = status.name().as_bytes();
                let why = why.word().as_bytes();
                put_pieces(to, &[b"scanimage: ", status, b" (", why, b")\n"], outputs)
            }
        }
    }
}

/// Writes that a line of the config is refused.
fn tell_line<W: Write>(to: &mut W, line: u32, reason: &str, outputs: &mut OutputTally)
    ensures { TakesOrFails (W.contents to.old)
        (W.contents to.new) (config_line_text line reason.now) outputs.new.failed }
{
    let mut digits = Buffer::new();
    let line = digits.format(line).as_bytes();
    let reason = reason.as_bytes();
    put_pieces(
        to,
        &[b"scanimage: config line ", line, b": ", reason, b"\n"],
        outputs,
    );
}
