ghost use Rattle.std.specs.Prelude.{◌≡◌, ◌≢◌, ◌≤◌, ◌<◌, ◌^◌, ℕ, Option, IfErr, IfOk, map, option_map, string_bytes};
ghost use Rattle.saned_cli.specs.OptionsOfDaemon.{AreNamed, IsNumberOf, AreDaemonOptions, IsOrderOf, has_pad_strings, string_size_by};
ghost use Rattle.saned_cli.specs.OptionWords.{value_behind, option_value_of};
ghost use Rattle.saned_cli.specs.DataPorts.{ArePortsOf};
ghost use Rattle.sane_fixed.specs.declared.byte_order.ByteOrder.{ByteOrder as AnOrder};
ghost use Rattle.saned_cli.specs.declared.data_ports.PortRange.{PortRange as APortRange};

use crate::daemon_words::{is_pad_strings, plain_number, words_joined};
use crate::data_ports::{PortRange, port_range};
use clap::error::ErrorKind;
use clap::{Arg, ArgAction, ArgMatches, Command};
use sane_fixed::ByteOrder;
use saned_requests::StringSize;
use std::alloc::{AllocError, Global};
use thiserror::Error;

/// The options of the program, as saned(8) has them.
#[derive(Drop)]
pub struct DaemonOptions {
    pub config: String,
    pub users: Option<String>,
    /// There, where there are users.
    pub seed: Option<String>,
    /// 0 for any that is free.
    pub port: u16,
    /// The ports of which data ports are; none for any that are free.
    pub data_ports: Option<PortRange>,
    pub byte_order: ByteOrder,
    /// How string values are sent.
    pub strings: StringSize,
    /// After how many sessions it ends, 0 to 1,000,000,000; 0 for no such end.
    pub sessions: u64,
    /// After how many turns in a row in which nothing moved it ends, 1 to 1,000,000,000.
    pub idle_turns: u64,
}

/// Why the words of the command line are no options.
#[derive(Clone, Copy, Debug, PartialEq, Eq, Error)]
pub enum DaemonOptionsFault {
    /// A word is no option, a value is missing, empty or not within its bounds, an option stands twice, there is no config,
    /// or there are users and no seed.
    #[error("bad command line")]
    Bad = 1,
    #[error("out of memory")]
    NoMem = 2,
}

const _: () = prove!(DaemonOptionsFault::Bad as u32 == 1);

const _: () = prove!(DaemonOptionsFault::NoMem as u32 == 2);

impl From<AllocError> for DaemonOptionsFault {
    ghost use Rattle.std.specs.Prelude.{◌≡◌};
    ghost use Rattle.saned_cli.specs.declared.daemon_options.DaemonOptionsFault.TheVariants.{NoMem as Wanting};

    ghost from_gives = { λ _ fault. fault ≡ Wanting };

    fn from(_: AllocError) -> Self {
        DaemonOptionsFault::NoMem
    }
}

impl From<clap::Error> for DaemonOptionsFault {
    fn from(e: clap::Error) -> Self {
        if e.kind() == ErrorKind::OutOfMemory {
            DaemonOptionsFault::NoMem
        } else {
            DaemonOptionsFault::Bad
        }
    }
}

/// The port of SANE's daemon.
const SANE_PORT: u64 = 6566;

const MOST_PORT: u64 = 65_535;

const MOST_SESSIONS: u64 = 1_000_000_000;

const MOST_IDLE_TURNS: u64 = 1_000_000_000;

const IDLE_TURNS: u64 = 10_000_000;

fn value<'a>(alloc: Global, name: &'a str) -> Arg<'a> {
    Arg::new(alloc, name).long(name).action(ArgAction::Set)
}

fn flag<'a>(alloc: Global, name: &'a str) -> Arg<'a> {
    Arg::new(alloc, name).long(name).action(ArgAction::SetTrue)
}

/// The options that have a value.
const VALUES: &[&str] = &[
    "config",
    "users",
    "seed",
    "port",
    "data-ports",
    "byte-order",
    "sessions",
    "idle-turns",
];

/// The options as `clap` knows them. They are added in a loop, since each `Arg` that is written out has a place of its own on
/// the stack.
fn command<'a>(alloc: Global) -> Result<Command<'a>, AllocError> {
    let mut command = Command::new(alloc, "saned");
    for name in VALUES {
        command = command.arg(value(alloc, name))?;
    }
    command.arg(flag(alloc, "pad-strings"))
}

/// What `clap` reads of the words, of which the first is the program's name.
fn parse<'a>(alloc: Global, words: &'a [&'a str]) -> Result<ArgMatches<'a>, DaemonOptionsFault> {
    let found = command(alloc)?.try_get_matches_from(words)?;
    Ok(found)
}

/// The options as `clap` wants them, the program's name first.
fn as_strs<'a>(alloc: Global, options: &'a [String]) -> Result<Vec<&'a str>, DaemonOptionsFault> {
    let mut strs = Vec::new(alloc);
    strs.push("saned").map_err(|_| DaemonOptionsFault::NoMem)?;
    for option in options {
        strs.push(option.as_str())
            .map_err(|_| DaemonOptionsFault::NoMem)?;
    }
    Ok(strs)
}

/// The value, where the option begins so, with a name and `=`.
#[tactic(auto, unfolding(crate::specs::OptionWords::value_behind))]
fn value_behind<'a>(start: &[u8], option: &'a [u8]) -> Option<&'a [u8]>
    ensures { option_map (λ value. value.now) result ≡ value_behind start.now option.now }
{
    let value = option.strip_prefix(start)?;
    Some(value)
}

/// The value of the first option that begins so, with a name and `=`.
fn option_value_of<'a>(start: &[u8], options: &'a [String]) -> Option<&'a [u8]>
    ensures { option_map (λ value. value.now) result
        ≡ option_value_of start.now (map string_bytes options.now) }
{
    for option in options {
        if let Some(value) = value_behind(start, option.as_bytes()) {
            return Some(value);
        }
    }
    None
}

/// The value of the first option that begins so, where `clap` reads the same.
fn agreed<'a>(
    found: Option<&'a str>,
    start: &[u8],
    options: &[String],
) -> Result<Option<&'a str>, DaemonOptionsFault>
    ensures ok { IfOk result (λ value. option_map (λ text. text.now) value
        ≡ option_value_of start.now (map string_bytes options.now)) }
    // It is refused only where `clap` reads another one.
    ensures err { IfErr result (λ fault. (fault ≡ DaemonOptionsFault.Bad)
        × (option_map (λ text. text.now) found.entry
        ≢ option_value_of start.now (map string_bytes options.now))) }
{
    match (found, option_value_of(start, options)) {
        (None, None) => Ok(None),
        (Some(found), Some(value)) if found.as_bytes() == value => Ok(Some(found)),
        _ => Err(DaemonOptionsFault::Bad),
    }
}

fn text(alloc: Global, found: Option<&str>) -> Result<Option<String>, DaemonOptionsFault>
    ensures { IfOk result (λ text. option_map string_bytes text
        ≡ option_map (λ text. text.now) found.entry) }
{
    match found {
        Some(text) => Ok(Some(String::from_str(alloc, text)?)),
        None => Ok(None),
    }
}

fn byte_order(found: Option<&str>) -> Result<ByteOrder, DaemonOptionsFault>
    ensures ok { IfOk result (IsOrderOf (option_map (λ text. text.now) found.entry)) }
    // It is refused only where it names neither order.
    ensures err { IfErr result (λ fault. (fault ≡ DaemonOptionsFault.Bad) × ((order : AnOrder)
        → ¬ IsOrderOf (option_map (λ text. text.now) found.entry) order)) }
{
    match found {
        None | Some("little") => Ok(ByteOrder::Little),
        Some("big") => Ok(ByteOrder::Big),
        Some(_) => Err(DaemonOptionsFault::Bad),
    }
}

/// Whether the flag is among the options.
fn has_pad_strings(options: &[String]) -> bool
    ensures { result ≡ has_pad_strings (map string_bytes options.now) }
{
    for option in options {
        if is_pad_strings(option.as_bytes()) {
            return true;
        }
    }
    false
}

/// How string values are sent, where `clap` reads the same.
fn strings(found: bool, options: &[String]) -> Result<StringSize, DaemonOptionsFault>
    ensures ok { IfOk result (λ strings. strings
        ≡ string_size_by (has_pad_strings (map string_bytes options.now))) }
    // They are refused only where `clap` reads the flag otherwise.
    ensures err { IfErr result (λ fault. (fault ≡ DaemonOptionsFault.Bad)
        × (found ≢ has_pad_strings (map string_bytes options.now))) }
{
    match (found, has_pad_strings(options)) {
        (true, true) => Ok(StringSize::OfOption),
        (false, false) => Ok(StringSize::OfText),
        _ => Err(DaemonOptionsFault::Bad),
    }
}

/// The number that a text writes where there is one, and else the default. `Bad` just where the text writes none between
/// the two.
fn number(
    text: Option<&str>,
    default: u64,
    least: u64,
    most: u64,
) -> Result<u64, DaemonOptionsFault>
    requires { (least ≤ default) × (default ≤ most) }
    ensures ok { IfOk result
        (IsNumberOf least most default (option_map (λ text. text.now) text.entry)) }
    ensures err { IfErr result (λ fault. (fault ≡ DaemonOptionsFault.Bad) × ((n : ℕ) → n < 2 ^ 64
        → ¬ IsNumberOf least most default (option_map (λ text. text.now) text.entry) n)) }
{
    let Some(text) = text else {
        return Ok(default);
    };
    match plain_number(text) {
        Some(n) if n >= least && n <= most => Ok(n),
        _ => Err(DaemonOptionsFault::Bad),
    }
}

/// The ports that a text names as `FROM-TO`, none where there is no text. `Bad` just where the text names none so.
fn named_ports(text: Option<&str>) -> Result<Option<PortRange>, DaemonOptionsFault>
    ensures ok { IfOk result (ArePortsOf (option_map (λ text. text.now) text.entry)) }
    ensures err { IfErr result (λ fault. (fault ≡ DaemonOptionsFault.Bad)
        × ((ports : Option APortRange)
        → ¬ ArePortsOf (option_map (λ text. text.now) text.entry) ports)) }
{
    let Some(text) = text else {
        return Ok(None);
    };
    match port_range(text.as_bytes()) {
        Some(ports) => Ok(Some(ports)),
        None => Err(DaemonOptionsFault::Bad),
    }
}

/// What the options of the command line give, each the value that stands in it, where `clap` reads the same.
fn options_found(
    alloc: Global,
    found: &ArgMatches,
    options: &[String],
) -> Result<DaemonOptions, DaemonOptionsFault>
    ensures { IfOk result (AreNamed (map string_bytes options.now)) }
{
    let config = agreed(found.get_str("config"), b"--config=", options)?;
    let Some(config) = text(alloc, config)? else {
        return Err(DaemonOptionsFault::Bad);
    };
    let users = text(alloc, agreed(found.get_str("users"), b"--users=", options)?)?;
    let seed = text(alloc, agreed(found.get_str("seed"), b"--seed=", options)?)?;
    if users.is_some() && seed.is_none() {
        return Err(DaemonOptionsFault::Bad);
    }
    let port = agreed(found.get_str("port"), b"--port=", options)?;
    let data_ports = agreed(found.get_str("data-ports"), b"--data-ports=", options)?;
    let order = agreed(found.get_str("byte-order"), b"--byte-order=", options)?;
    let sessions = agreed(found.get_str("sessions"), b"--sessions=", options)?;
    let turns = agreed(found.get_str("idle-turns"), b"--idle-turns=", options)?;
    Ok(DaemonOptions {
        config,
        users,
        seed,
        port: number(port, SANE_PORT, 0, MOST_PORT)? as u16,
        data_ports: named_ports(data_ports)?,
        byte_order: byte_order(order)?,
        strings: strings(found.get_flag("pad-strings"), options)?,
        sessions: number(sessions, 0, 0, MOST_SESSIONS)?,
        idle_turns: number(turns, IDLE_TURNS, 1, MOST_IDLE_TURNS)?,
    })
}

/// The options that the words of the command line give, each with the value that its word has; the first word is the program's
/// name, and the word behind an option's name is its value, whatever it begins with; the flag has none. `Bad` where a word stands
/// in no option's place, where a value is missing or empty, where `clap` refuses the options or reads another value, where a
/// number is not within its bounds or has a sign or a leading zero, where data ports are no two such numbers, the first at most
/// the second, where there is no config, and where there are users and no seed; `NoMem` where there is no memory.
pub fn read_options(alloc: Global, words: &[String]) -> Result<DaemonOptions, DaemonOptionsFault>
    /// Each option of saned has the value that the words give it, or its default; numbers are within their bounds,
    /// and there is a seed where there are users.
    ///
    /// String values are as long as their option just where the flag for it is among the words, and it has no value.
    /// Carried by: `read_options`: `string_size_by`
    ///
    /// The word behind an option's name is its value, whatever it begins with, and a number is plain digits, without
    /// a sign or a leading zero.
    /// Carried by: `read_options`: `words_joined` and `IsNumberOf`
    ensures { IfOk result (AreDaemonOptions (map string_bytes words.now)) }
{
    let Some((_, words)) = words.split_first() else {
        return Err(DaemonOptionsFault::Bad);
    };
    let options = words_joined(alloc, words)?;
    let strs = as_strs(alloc, options.as_slice())?;
    let found = parse(alloc, strs.as_slice())?;
    options_found(alloc, &found, options.as_slice())
}
