ghost use Rattle.std.specs.Prelude.{IfErr, IfOk, option_map};
ghost use Rattle.std.specs.Result.{result_ok};
ghost use Rattle.config_pages.specs.ConfigReading.{AreReadLines};
ghost use Rattle.scanimage_cli.specs.Ending.{IsFailure, IsOfOutput};
ghost use Rattle.scanimage_cli.specs.Inputs.{AreLinesOf, IsPasswordIn, IsReadPassword, IsUnread, IsUnreadAt, RefusesConfigAt, RefusesNamedConfig};

use crate::ending::Ending;
use crate::password::{MOST_OF_PASSWORD, password_line};
use crate::planning::Input;
use config_pages::{ConfigFailure, Inputs, MOST_OF_CONFIG, read_config};
use dispatch::ConfigLine;
use sane_fixed::Text;
use std::alloc::Global;
use std::io::{self, ErrorKind};

/// How the program ends where what is named so is not read.
fn cannot_read(alloc: Global, name: &[u8]) -> Ending
    ensures { IsUnread name.now result }
{
    match Text::new(alloc, name) {
        Ok(name) => Ending::CannotRead(name),
        Err(_) => Ending::no_memory(),
    }
}

/// How it ends where this was what came of opening or reading it.
fn unread(alloc: Global, name: &[u8], e: &io::Error) -> Ending
    ensures { IsUnread name.now result }
{
    if e.kind() == ErrorKind::OutOfMemory {
        Ending::no_memory()
    } else {
        cannot_read(alloc, name)
    }
}

/// The lines of the config of that name, of which that was read. `CannotRead` with the name where it cannot be opened or read.
pub fn config_from(
    alloc: Global,
    name: &[u8],
    read: io::Result<Vec<u8>>,
) -> Result<Vec<ConfigLine>, Ending>
    /// The config's lines are all that the text tells of which was read, and it is refused for its first bad line, or since it
    /// cannot be read, by its name.
    /// Carried by: `lines`, `refused` of `config_from`
    ensures lines { IfOk result (λ lines. AreReadLines
        (option_map (λ text. text.items) (result_ok read)) lines.items) }
    ensures refused { IfErr result (RefusesNamedConfig name.now
        (option_map (λ text. text.items) (result_ok read))) }
{
    match read_config(alloc, read) {
        Ok(lines) => Ok(lines),
        Err(ConfigFailure::Refused(fault)) => Err(Ending::Config(fault)),
        Err(ConfigFailure::Unread) => Err(cannot_read(alloc, name)),
        Err(ConfigFailure::NoMem) => Err(Ending::no_memory()),
    }
}

/// The password of the file of that name, of which that was read. `CannotRead` with the name where it cannot be opened or
/// read, or where the password has a NUL.
pub fn password_from(alloc: Global, name: &[u8], read: io::Result<Vec<u8>>) -> Result<Text, Ending>
    /// The password is the first line of what was read of its file, and none is taken for one that cannot be read.
    /// Carried by: `line`, `refused` of `password_from`
    ensures line { IfOk result (IsReadPassword (option_map (λ text. text.items) (result_ok read))) }
    ensures refused { IfErr result (IsUnread name.now) }
{
    let text = match read {
        Ok(text) => text,
        Err(e) => return Err(unread(alloc, name, &e)),
    };
    let Ok(line) = password_line(alloc, text.as_slice()) else {
        return Err(Ending::no_memory());
    };
    match Text::from_vec(line) {
        Ok(password) => Ok(password),
        Err(_) => Err(cannot_read(alloc, name)),
    }
}

/// The lines of the config that a plan names; none where it names none.
pub fn config_lines<I: Inputs>(
    alloc: Global,
    inputs: &mut I,
    config: &Option<Input>,
) -> Result<Vec<ConfigLine>, Ending>
    /// The lines of a plan's config are those of the text that was read on standard input, or in the file that it names, and none
    /// where it names none.
    /// Carried by: `lines` of `config_lines`: `AreLinesOf`
    ensures lines { IfOk result (λ lines. AreLinesOf config.now
        (I.seen inputs.old) (I.seen inputs.new) lines.items) }
    /// A config is refused for the first bad line of that text, or since the file of that name cannot be read, or for want of
    /// memory.
    ensures refused { IfErr result
        (RefusesConfigAt config.now (I.seen inputs.old) (I.seen inputs.new)) }
    /// Neither a config nor a password that is not there is told as the failure of an output, or as a success.
    /// Carried by: `spares`, `failed` of `config_lines`, of `password_of`
    ensures spares { IfErr result (λ ending. ¬ IsOfOutput ending) }
    ensures failed { IfErr result IsFailure }
{
    match config {
        None => Ok(Vec::new(alloc)),
        Some(Input::StandardInput) => {
            let read = inputs.standard(alloc, MOST_OF_CONFIG);
            config_from(alloc, b"-", read)
        }
        Some(Input::Path(path)) => {
            let name = path.as_bytes();
            let read = inputs.file(alloc, name, MOST_OF_CONFIG);
            config_from(alloc, name, read)
        }
    }
}

/// The password in the file that a plan names; an empty one where it names none.
pub fn password_of<I: Inputs>(
    alloc: Global,
    inputs: &mut I,
    file: &Option<Text>,
) -> Result<Text, Ending>
    /// The password of a plan is the first line of what was read in the file that it names, and empty where it names none.
    /// Carried by: `password` of `password_of`: `IsPasswordIn`
    ensures password { IfOk result
        (IsPasswordIn file.now (I.seen inputs.old) (I.seen inputs.new)) }
    /// Of a password that is not taken that is told: the file of that name cannot be read, or memory ran out for it. Where no
    /// file is named none is refused.
    /// Carried by: `refused` of `password_of`
    ensures refused { IfErr result
        (IsUnreadAt file.now (I.seen inputs.old) (I.seen inputs.new)) }
    ensures spares { IfErr result (λ ending. ¬ IsOfOutput ending) }
    ensures failed { IfErr result IsFailure }
{
    match file {
        // An empty text takes no memory, and has no NUL.
        None => Text::from_vec(Vec::new(alloc)).map_err(|_| Ending::no_memory()),
        Some(path) => {
            let name = path.as_bytes();
            let read = inputs.file(alloc, name, MOST_OF_PASSWORD);
            password_from(alloc, name, read)
        }
    }
}
