ghost use Rattle.std.specs.Prelude.{IfErr, IfOk, option_map};
ghost use Rattle.std.specs.Result.{result_ok};
ghost use Rattle.config_pages.specs.ConfigReading.{AreReadLines, RefusesConfig};

use dispatch::{ConfigFault, ConfigLine, parse_config};
use std::alloc::Global;
use std::io::{self, ErrorKind};

/// One byte more than a config has at most, which is 64 lines of 65,536 bytes, with CR and LF behind each.
pub const MOST_OF_CONFIG: u64 = 64 * (65_536 + 2) + 1;

/// Why there are no lines of a config.
#[derive(Clone, Copy, Debug, PartialEq, Eq)]
pub enum ConfigFailure {
    /// It cannot be opened or read.
    Unread,
    NoMem,
    /// A line of it is refused.
    Refused(ConfigFault),
}

/// The lines of a config of which that was read, of `MOST_OF_CONFIG` bytes at most.
pub fn read_config(
    alloc: Global,
    read: io::Result<Vec<u8>>,
) -> Result<Vec<ConfigLine>, ConfigFailure>
    /// The lines of a config are all that the text tells of which was read; it is refused for the first bad line of that, or
    /// since it was not read.
    /// Carried by: `lines`, `refused` of `read_config`
    ensures lines { IfOk result (λ lines. AreReadLines
        (option_map (λ text. text.items) (result_ok read)) lines.items) }
    ensures refused { IfErr result (RefusesConfig
        (option_map (λ text. text.items) (result_ok read))) }
{
    let text = match read {
        Ok(text) => text,
        Err(e) if e.kind() == ErrorKind::OutOfMemory => return Err(ConfigFailure::NoMem),
        Err(_) => return Err(ConfigFailure::Unread),
    };
    match parse_config(alloc, text.as_slice()) {
        Ok(lines) => Ok(lines),
        Err(fault) => Err(ConfigFailure::Refused(fault)),
    }
}
