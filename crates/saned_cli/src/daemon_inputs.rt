ghost use Rattle.std.specs.Prelude.{◌≡◌, IfErr, IfOk, option_map, string_bytes};
ghost use Rattle.std.specs.Result.{result_ok};
ghost use Rattle.config_pages.specs.ConfigReading.{AreReadLines};
ghost use Rattle.config_pages.specs.InputTexts.{IsConfigRead};
ghost use Rattle.saned_cli.specs.DaemonEndings.{IsDaemonFailure};
ghost use Rattle.saned_cli.specs.DaemonInputs.{AreReadUsers, AreUsersIn, IsUnreadFile, RefusesConfigIn, RefusesDaemonConfig, RefusesUsers, RefusesUsersIn, config_name};

use crate::daemon_ending::DaemonEnding;
use crate::daemon_options::DaemonOptions;
use config_pages::{ConfigFailure, Inputs, MOST_OF_CONFIG, read_config};
use dispatch::ConfigLine;
use md5_auth::Users;
use std::alloc::Global;
use std::io::{self, ErrorKind};

/// One byte more than a users file has at most, which is 256 lines of 256 bytes, with CR and LF behind each.
const MOST_OF_USERS: u64 = 256 * (256 + 2) + 1;

/// How the program ends where what is named so is not read.
fn cannot_read(alloc: Global, name: &str) -> DaemonEnding
    ensures { IsUnreadFile name.now result }
{
    match String::from_str(alloc, name) {
        Ok(name) => DaemonEnding::CannotRead(name),
        Err(_) => DaemonEnding::NoMemory,
    }
}

/// How it ends where this was what came of opening or reading it.
fn unread(alloc: Global, name: &str, e: &io::Error) -> DaemonEnding
    ensures { IsUnreadFile name.now result }
{
    if e.kind() == ErrorKind::OutOfMemory {
        DaemonEnding::NoMemory
    } else {
        cannot_read(alloc, name)
    }
}

/// The lines of the config of that name, of which that was read. `CannotRead` with the name where it cannot be opened or read.
pub fn config_from(
    alloc: Global,
    name: &str,
    read: io::Result<Vec<u8>>,
) -> Result<Vec<ConfigLine>, DaemonEnding>
    /// The config's lines are all that the text tells of which was read, and it is refused for its first bad line, or since it
    /// cannot be read, by its name.
    /// Carried by: `lines`, `refused` of `config_from`
    ensures lines { IfOk result (λ lines. AreReadLines
        (option_map (λ text. text.items) (result_ok read)) lines.items) }
    ensures refused { IfErr result (RefusesDaemonConfig name.now
        (option_map (λ text. text.items) (result_ok read))) }
{
    match read_config(alloc, read) {
        Ok(lines) => Ok(lines),
        Err(ConfigFailure::Refused(fault)) => Err(DaemonEnding::Config(fault)),
        Err(ConfigFailure::Unread) => Err(cannot_read(alloc, name)),
        Err(ConfigFailure::NoMem) => Err(DaemonEnding::NoMemory),
    }
}

/// The users of the file of that name, of which that was read. `CannotRead` with the name where it cannot be opened or read.
pub fn users_from(
    alloc: Global,
    name: &str,
    read: io::Result<Vec<u8>>,
) -> Result<Users, DaemonEnding>
    /// The users are all that the text tells of which was read; the file is refused for its first bad line, or since it cannot be
    /// read, by its name.
    /// Carried by: `users`, `refused` of `users_from`
    ensures users { IfOk result (AreReadUsers
        (option_map (λ text. text.items) (result_ok read))) }
    ensures refused { IfErr result (RefusesUsers name.now
        (option_map (λ text. text.items) (result_ok read))) }
{
    let text = match read {
        Ok(text) => text,
        Err(e) => return Err(unread(alloc, name, &e)),
    };
    match Users::parse(alloc, text.as_slice()) {
        Ok(users) => Ok(users),
        Err(fault) => Err(DaemonEnding::Users(fault)),
    }
}

/// The lines of the config that the options name, which `-` says is standard input.
pub fn config_lines<I: Inputs>(
    alloc: Global,
    inputs: &mut I,
    options: &DaemonOptions,
) -> Result<Vec<ConfigLine>, DaemonEnding>
    /// The lines of the config are those of the text that was read on standard input, or in the file that the options name.
    /// Carried by: `lines` of `config_lines`: `IsConfigRead`, `config_name`
    ensures lines { IfOk result (λ lines. IsConfigRead (config_name options.now)
        (I.seen inputs.old) (I.seen inputs.new) lines.items) }
    /// A config is refused for the first bad line of that text, or since the file of that name cannot be read, or for want of
    /// memory; and so are the users.
    /// Carried by: `refused` of `config_lines`, of `users_of`
    ensures refused { IfErr result
        (RefusesConfigIn options.now (I.seen inputs.old) (I.seen inputs.new)) }
    /// Where a config or a users file is not there, no ending has the exit status 0.
    /// Carried by: `failed` of `config_lines`, of `users_of`
    ensures failed { IfErr result IsDaemonFailure }
{
    let path = options.config.as_str();
    if path == "-" {
        config_from(alloc, path, inputs.standard(alloc, MOST_OF_CONFIG))
    } else {
        let read = inputs.file(alloc, path.as_bytes(), MOST_OF_CONFIG);
        config_from(alloc, path, read)
    }
}

/// The users in the file that the options name; none where they name none.
pub fn users_of<I: Inputs>(
    alloc: Global,
    inputs: &mut I,
    options: &DaemonOptions,
) -> Result<Users, DaemonEnding>
    /// The users are those of the text that was read in the file that the options name, and those of an empty text where they
    /// name none.
    /// Carried by: `users` of `users_of`: `AreUsersIn`
    ensures users { IfOk result
        (AreUsersIn options.now (I.seen inputs.old) (I.seen inputs.new)) }
    ensures refused { IfErr result
        (RefusesUsersIn options.now (I.seen inputs.old) (I.seen inputs.new)) }
    ensures failed { IfErr result IsDaemonFailure }
{
    match &options.users {
        None => match Users::parse(alloc, b"") {
            Ok(users) => Ok(users),
            Err(fault) => Err(DaemonEnding::Users(fault)),
        },
        Some(path) => {
            let path = path.as_str();
            let read = inputs.file(alloc, path.as_bytes(), MOST_OF_USERS);
            users_from(alloc, path, read)
        }
    }
}
