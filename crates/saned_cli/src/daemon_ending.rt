use crate::daemon_options::DaemonOptionsFault;
use crate::ending_lines::{write_line, write_refusal, write_text};
use crate::port_line::DaemonOutput;
use config_pages::{DeviceFault, NoPage};
use dispatch::ConfigFault;
use md5_auth::LineFault;
use std::io;
use std::io::{ErrorKind, Write};

/// How the program ends where it serves nobody.
#[derive(Drop)]
pub enum DaemonEnding {
    BadCommandLine,
    /// The seed is not 64 hexadecimal digits.
    BadSeed,
    /// A file that the command line names cannot be read.
    CannotRead(String),
    /// A line of the config tells of no device.
    Config(ConfigFault),
    /// The page that the config's line of that number names is not there.
    Page(u32, NoPage),
    /// A line of the users file tells of no user.
    Users(LineFault),
    /// The port cannot be had.
    CannotListen,
    NoMemory,
    /// A text of its own cannot be written.
    CannotWrite,
}

impl DaemonEnding {
    ghost use Rattle.std.specs.Prelude.{◌≡◌};
    ghost use Rattle.std.specs.IoError.{error_kind};
    ghost use Rattle.saned_cli.specs.Binding.{TellsLine};
    ghost use Rattle.saned_cli.specs.DaemonEndings.{daemon_exit_status, daemon_ended_by_device, daemon_ended_by_options};
    ghost use Rattle.saned_cli.specs.DaemonLines.{daemon_ending_line};

    /// The words of the command line are no options.
    pub fn of_options(fault: DaemonOptionsFault) -> DaemonEnding
        /// Words that are no options end the program as a bad command line, and where there was no memory for them, as that.
        ensures { result ≡ daemon_ended_by_options fault }
    {
        match fault {
            DaemonOptionsFault::Bad => DaemonEnding::BadCommandLine,
            DaemonOptionsFault::NoMem => DaemonEnding::NoMemory,
        }
    }

    /// The config's line of that number has no scanner.
    pub fn of_device(line: u32, fault: DeviceFault) -> DaemonEnding
        /// A line of the config without a scanner is told by its number and why its page is not there, or as out of memory.
        ensures { result ≡ daemon_ended_by_device line fault }
    {
        match fault {
            DeviceFault::NoPage(why) => DaemonEnding::Page(line, why),
            DeviceFault::NoMem => DaemonEnding::NoMemory,
        }
    }

    /// The port to listen at could not be had, for this.
    pub fn of_bind(fault: &io::Error) -> DaemonEnding
        /// Want of memory for the port ends the program as that, and any other refusal as a port that cannot be had.
        /// Carried by: `memory`, `port` of `DaemonEnding::of_bind`
        ensures memory { error_kind fault.now ≡ ErrorKind.OutOfMemory
            → result ≡ DaemonEnding.NoMemory }
        ensures port { ¬ (error_kind fault.now ≡ ErrorKind.OutOfMemory)
            → result ≡ DaemonEnding.CannotListen }
    {
        if fault.kind() == ErrorKind::OutOfMemory {
            DaemonEnding::NoMemory
        } else {
            DaemonEnding::CannotListen
        }
    }

    /// The exit status of the program.
    pub fn daemon_exit_status(&self) -> u8
        /// The exit status of each ending.
        ensures { result ≡ daemon_exit_status self.now }
    {
        match self {
            DaemonEnding::BadCommandLine => 64,
            DaemonEnding::BadSeed
            | DaemonEnding::CannotRead(_)
            | DaemonEnding::Config(_)
            | DaemonEnding::Page(_, _)
            | DaemonEnding::Users(_) => 65,
            DaemonEnding::CannotListen => 9,
            DaemonEnding::CannotWrite => 9,
            DaemonEnding::NoMemory => 10,
        }
    }

    /// Writes the line that says how the program ended.
    pub fn tell<W: Write>(&self, out: &mut DaemonOutput<W>)
        /// The line of each ending is written whole, or a front of it if the output fails, which is noted.
        ensures { TellsLine (daemon_ending_line self.now) out.new.tally.failed
            (W.contents out.old.to) (W.contents out.new.to) }
    {
        match self {
            DaemonEnding::BadCommandLine => write_text(out, b"saned: bad command line\n"),
            DaemonEnding::BadSeed => write_text(out, b"saned: bad seed\n"),
            DaemonEnding::CannotRead(path) => {
                write_line(out, b"saned: cannot read ", path.as_str().as_bytes())
            }
            DaemonEnding::Config(fault) => {
                write_refusal(out, b"saned: config line ", fault.line, fault.reason.text())
            }
            DaemonEnding::Page(line, why) => {
                write_refusal(out, b"saned: config line ", *line, why.text())
            }
            DaemonEnding::Users(fault) => {
                write_refusal(out, b"saned: users line ", fault.line, fault.reason.text())
            }
            DaemonEnding::CannotListen => write_text(out, b"saned: cannot listen\n"),
            DaemonEnding::NoMemory => write_text(out, b"saned: out of memory\n"),
            DaemonEnding::CannotWrite => write_text(out, b"saned: cannot write\n"),
        }
    }
}
