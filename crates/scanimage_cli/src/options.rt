ghost use Rattle.std.specs.Prelude.{◌≡◌, ◌≢◌, ◌∷◌, Some, true, false, IfOk, IfErr, IfSome, List, ℕ, All, codes, map, option_map, decimal};
ghost use Rattle.std.specs.Str.{IsUtf8};
ghost use Rattle.clap.specs.Words.{HasMatchesOf, app_of, found_of, rule_of, takes, with_rule};
ghost use Rattle.scanimage_cli.specs.KnownOptions.{IsFoundOf, rule_named, scanimage_app, seen_option, with_options};
ghost use Rattle.scanimage_cli.specs.WordCut.{long_word};
ghost use Rattle.scanimage_cli.specs.ScanimageOptions.{value_after, program_option_value, has_flag, count_named, AreScanimageOptions, HasNoOptions, IsPort};

use crate::program_option::ProgramOption;
use clap::error::ErrorKind;
use clap::{Arg, ArgAction, ArgMatches, Command};
use sane_fixed::{NoMem, Text};
use std::alloc::{AllocError, Global};
use thiserror::Error;

/// The options of the program, as scanimage(1) has them.
#[derive(Drop)]
pub struct Options {
    pub list_devices: bool,
    pub all_options: bool,
    pub dont_scan: bool,
    pub device_name: Option<Text>,
    pub output_file: Option<Text>,
    pub config: Option<Text>,
    pub net: Option<Text>,
    /// 1 to 65,535.
    pub port: Option<u16>,
    pub dial_first: bool,
    pub user: Option<Text>,
    pub password_file: Option<Text>,
    pub batch: bool,
    /// 1 to 16.
    pub batch_count: Option<u32>,
}

/// Why the words of the program are no options.
#[derive(Clone, Copy, Debug, PartialEq, Eq, Error)]
pub enum OptionsFault {
    /// `clap` refuses them, or reads another value than the word has.
    #[error("bad command line")]
    Bad = 1,
    #[error("out of memory")]
    NoMem = 2,
}

const _: () = prove!(OptionsFault::Bad as u32 == 1);

const _: () = prove!(OptionsFault::NoMem as u32 == 2);

impl From<AllocError> for OptionsFault {
    ghost use Rattle.std.specs.Prelude.{◌≡◌};
    ghost use Rattle.scanimage_cli.specs.declared.options.OptionsFault.TheVariants.{NoMem as Wanting};

    ghost from_gives = { λ _ fault. fault ≡ Wanting };

    fn from(_: AllocError) -> Self {
        OptionsFault::NoMem
    }
}

impl From<NoMem> for OptionsFault {
    ghost use Rattle.std.specs.Prelude.{◌≡◌};
    ghost use Rattle.scanimage_cli.specs.declared.options.OptionsFault.TheVariants.{NoMem as Wanting};

    ghost from_gives = { λ _ fault. fault ≡ Wanting };

    fn from(_: NoMem) -> Self {
        OptionsFault::NoMem
    }
}

impl From<clap::Error> for OptionsFault {
    ghost use Rattle.std.specs.Prelude.{◌≡◌};
    ghost use Rattle.clap.specs.Words.{kind_of};
    ghost use Rattle.clap.specs.declared.error.kind.ErrorKind.TheVariants.{OutOfMemory};
    ghost use Rattle.scanimage_cli.specs.declared.options.OptionsFault.TheVariants.{NoMem as Wanting};

    ghost from_gives = { λ e fault. kind_of e ≡ OutOfMemory → fault ≡ Wanting };

    fn from(e: clap::Error) -> Self {
        if e.kind() == ErrorKind::OutOfMemory {
            OptionsFault::NoMem
        } else {
            OptionsFault::Bad
        }
    }
}

/// The value in `--NAME=VALUE`, where the word is that.
#[tactic(auto, unfolding(crate::specs::ScanimageOptions::value_after))]
fn value_after<'a>(option: ProgramOption, word: &'a [u8]) -> Option<&'a [u8]>
    ensures { option_map (λ value. value.now) result ≡ value_after (long_word option) word.now }
{
    let rest = word.strip_prefix(option.long_word().as_bytes())?;
    match rest {
        [b'=', value @ ..] => Some(value),
        _ => None,
    }
}

/// The value that the words give an option.
fn program_option_value<'a>(option: ProgramOption, words: &'a [Text]) -> Option<&'a [u8]>
    ensures { option_map (λ value. value.now) result ≡ program_option_value option words.now }
{
    for word in words {
        if let Some(value) = value_after(option, word.as_bytes()) {
            return Some(value);
        }
    }
    None
}

/// Whether the flag is among the words.
fn has_flag(option: ProgramOption, words: &[Text]) -> bool
    ensures { result ≡ has_flag option words.now }
{
    for word in words {
        if word.as_bytes() == option.long_word().as_bytes() {
            return true;
        }
    }
    false
}

/// What stands behind an option's name.
#[derive(Clone, Copy)]
enum OptionValue {
    /// Nothing.
    None,
    Text,
    /// 1 to 65,535.
    Port,
    /// 1 to 16.
    Count,
}

/// The options and their values.
const OPTIONS: &[(&str, OptionValue)] = &[
    ("list-devices", OptionValue::None),
    ("all-options", OptionValue::None),
    ("dont-scan", OptionValue::None),
    ("device-name", OptionValue::Text),
    ("output-file", OptionValue::Text),
    ("config", OptionValue::Text),
    ("net", OptionValue::Text),
    ("port", OptionValue::Port),
    ("dial-first", OptionValue::None),
    ("user", OptionValue::Text),
    ("password-file", OptionValue::Text),
    ("batch", OptionValue::None),
    ("batch-count", OptionValue::Count),
];

fn argument<'a>(alloc: Global, name: &'a str, value: OptionValue) -> Arg<'a>
    ensures rule { rule_of result ≡ rule_named name.entry.now value }
    ensures local { result.global ≡ false }
{
    let argument = Arg::new(alloc, name).long(name);
    match value {
        OptionValue::None => argument.action(ArgAction::SetTrue),
        OptionValue::Text => argument.action(ArgAction::Set),
        OptionValue::Port => argument
            .action(ArgAction::Set)
            .value_parser(clap::value_parser!(u16).range(1..)),
        OptionValue::Count => argument
            .action(ArgAction::Set)
            .value_parser(clap::value_parser!(u32).range(1..=16)),
    }
}

/// The command with one option more.
fn with_option<'a>(
    alloc: Global,
    command: Command<'a>,
    option: &(&'a str, OptionValue),
) -> Result<Command<'a>, AllocError>
    ensures { IfOk result (λ more. app_of more
        ≡ with_rule (app_of command.entry) (rule_named option.now.0.now option.now.1)) }
{
    let (name, value) = *option;
    command.arg(argument(alloc, name, value))
}

/// The command with these options more, which are added in a loop, since each that is written out has a place of its own on the
/// stack.
fn with_options<'a>(
    alloc: Global,
    start: Command<'a>,
    options: &[(&'a str, OptionValue)],
) -> Result<Command<'a>, AllocError>
    ensures { IfOk result (λ more. app_of more
        ≡ with_options (app_of start.entry) (map seen_option options.now)) }
{
    let mut command = start;
    for option in options {
        command = with_option(alloc, command, option)?;
    }
    Ok(command)
}

/// The options as `clap` knows them.
fn command<'a>(alloc: Global) -> Result<Command<'a>, AllocError>
    ensures { IfOk result (λ command. app_of command ≡ scanimage_app) }
{
    with_options(alloc, Command::new(alloc, "scanimage"), OPTIONS)
}

/// What `clap` reads of the words.
fn parse<'a>(alloc: Global, words: &'a [&'a str]) -> Result<ArgMatches<'a>, OptionsFault>
    ensures found { IfOk result
        (HasMatchesOf scanimage_app (map (λ word. word.now) words.entry.now)) }
    // It is bad only where `clap` does not take the words.
    ensures refused { IfErr result (λ fault.
        takes scanimage_app (map (λ word. word.now) words.entry.now) ≡ true
        → fault ≡ OptionsFault.NoMem) }
{
    let found = command(alloc)?.try_get_matches_from(words)?;
    Ok(found)
}

/// The words as `clap` wants them, the program's name first; none where one is not UTF-8.
fn as_strs<'a>(alloc: Global, words: &'a [Text]) -> Result<Vec<&'a str>, OptionsFault>
    ensures words { IfOk result (λ strs.
        map (λ word. word.now) strs.items ≡ codes "scanimage" ∷ words.entry.now) }
    ensures utf8 { IfOk result (λ _. All IsUtf8 words.entry.now) }
    ensures refused { IfErr result (λ fault. fault ≡ OptionsFault.Bad
        → ¬ All IsUtf8 words.entry.now) }
{
    let mut strs = Vec::new(alloc);
    strs.push("scanimage").map_err(|_| OptionsFault::NoMem)?;
    for word in words {
        let Ok(word) = std::str::from_utf8(word.as_bytes()) else {
            return Err(OptionsFault::Bad);
        };
        strs.push(word).map_err(|_| OptionsFault::NoMem)?;
    }
    Ok(strs)
}

/// The value that the words give an option, where `clap` reads the same.
fn agreed_value(
    alloc: Global,
    found: Option<&str>,
    option: ProgramOption,
    words: &[Text],
) -> Result<Option<Text>, OptionsFault>
    ensures ok { IfOk result (λ value. value ≡ program_option_value option words.now) }
    // It is bad only where `clap` reads another one.
    ensures err { IfErr result (λ fault. fault ≡ OptionsFault.Bad
        → option_map (λ text. text.now) found.entry ≢ program_option_value option words.now) }
{
    match (found, program_option_value(option, words)) {
        (None, None) => Ok(None),
        (Some(found), Some(value)) if found.as_bytes() == value => {
            match Text::new(alloc, value) {
                Ok(text) => Ok(Some(text)),
                Err(_) => Err(OptionsFault::NoMem),
            }
        }
        _ => Err(OptionsFault::Bad),
    }
}

/// Whether a flag is among the words, where `clap` reads the same.
fn agreed_flag(found: bool, option: ProgramOption, words: &[Text]) -> Result<bool, OptionsFault>
    ensures ok { IfOk result (λ flag. flag ≡ has_flag option words.now) }
    // It is bad only where `clap` reads the flag otherwise.
    ensures err { IfErr result
        (λ fault. (fault ≡ OptionsFault.Bad) × (found ≢ has_flag option words.now)) }
{
    if found == has_flag(option, words) {
        Ok(found)
    } else {
        Err(OptionsFault::Bad)
    }
}

/// The port, which `clap` has read as a number. It is said without leading zeros or a sign.
fn agreed_port(
    alloc: Global,
    found: Option<u16>,
    words: &[Text],
) -> Result<Option<u16>, OptionsFault>
    ensures ok { IfOk result (λ port. program_option_value ProgramOption.Port words.now
        ≡ option_map decimal port) }
    ensures range { IfOk result (λ port. IfSome port IsPort) }
    // It is bad only where the words have another port, or write it otherwise, or it is 0.
    ensures err { IfErr result (λ fault. fault ≡ OptionsFault.Bad → IfSome found IsPort
        → program_option_value ProgramOption.Port words.now ≢ option_map decimal found) }
{
    match (found, program_option_value(ProgramOption::Port, words)) {
        (None, None) => Ok(None),
        (Some(port), Some(text)) => {
            let digits = format!(in alloc; "{port}")?;
            if port > 0 && digits.as_bytes() == text {
                Ok(Some(port))
            } else {
                Err(OptionsFault::Bad)
            }
        }
        _ => Err(OptionsFault::Bad),
    }
}

/// The number of pages that a text names, 1 to 16.
fn count_named(text: &[u8]) -> Option<u32>
    ensures { result ≡ count_named text.now }
{
    match text {
        [digit @ b'1'..=b'9'] => Some(u32::from(*digit - b'0')),
        [b'1', digit @ b'0'..=b'6'] => Some(10 + u32::from(*digit - b'0')),
        _ => None,
    }
}

/// The count of a batch's pages, which `clap` has read as a number.
fn agreed_count(found: Option<u32>, words: &[Text]) -> Result<Option<u32>, OptionsFault>
    ensures ok { IfOk result
        (λ count. option_map count_named (program_option_value ProgramOption.BatchCount words.now)
        ≡ option_map (λ n. Some n) count) }
    // It is bad only where the words have another count, or write it otherwise.
    ensures err { IfErr result (λ fault. (fault ≡ OptionsFault.Bad)
        × (option_map count_named (program_option_value ProgramOption.BatchCount words.now)
        ≢ option_map (λ n. Some n) found)) }
{
    match (
        found,
        program_option_value(ProgramOption::BatchCount, words),
    ) {
        (None, None) => Ok(None),
        (Some(found), Some(text)) => match count_named(text) {
            Some(count) if count == found => Ok(Some(count)),
            _ => Err(OptionsFault::Bad),
        },
        _ => Err(OptionsFault::Bad),
    }
}

/// Each option with the value that its word has, where `clap` reads the same.
fn options_found(alloc: Global, found: &ArgMatches, words: &[Text]) -> Result<Options, OptionsFault>
    ensures read { IfOk result (λ options. All IsUtf8 words.now
        → AreScanimageOptions words.now options) }
    // It is bad only where `clap` reads otherwise, or no options are those of the words.
    ensures refused { IfErr result (λ fault. fault ≡ OptionsFault.Bad
        → IsFoundOf words.now (found_of found.now) → (options : Options)
        → AreScanimageOptions words.now options → ⊥) }
{
    let list_devices = agreed_flag(
        found.get_flag("list-devices"),
        ProgramOption::ListDevices,
        words,
    )?;
    let all_options = agreed_flag(
        found.get_flag("all-options"),
        ProgramOption::AllOptions,
        words,
    )?;
    let dont_scan = agreed_flag(found.get_flag("dont-scan"), ProgramOption::DontScan, words)?;
    let device_name = agreed_value(
        alloc,
        found.get_str("device-name"),
        ProgramOption::DeviceName,
        words,
    )?;
    let output_file = agreed_value(
        alloc,
        found.get_str("output-file"),
        ProgramOption::OutputFile,
        words,
    )?;
    let config = agreed_value(alloc, found.get_str("config"), ProgramOption::Config, words)?;
    let net = agreed_value(alloc, found.get_str("net"), ProgramOption::Net, words)?;
    let port = agreed_port(alloc, found.get_one::<u16>("port"), words)?;
    let dial_first = agreed_flag(
        found.get_flag("dial-first"),
        ProgramOption::DialFirst,
        words,
    )?;
    let user = agreed_value(alloc, found.get_str("user"), ProgramOption::User, words)?;
    let password_file = agreed_value(
        alloc,
        found.get_str("password-file"),
        ProgramOption::PasswordFile,
        words,
    )?;
    let batch = agreed_flag(found.get_flag("batch"), ProgramOption::Batch, words)?;
    let batch_count = agreed_count(found.get_one::<u32>("batch-count"), words)?;
    Ok(Options {
        list_devices,
        all_options,
        dont_scan,
        device_name,
        output_file,
        config,
        net,
        port,
        dial_first,
        user,
        password_file,
        batch,
        batch_count,
    })
}

/// The options that the program's words give, as `clap` reads them, each with the value that its word
/// has. `Bad` where `clap` refuses the words (a port that is not 1 to 65,535, a count that is not 1 to 16, a word that is not UTF-8)
/// or reads another value, and where a port or a count has leading zeros or a sign; `NoMem` where there is no memory.
pub fn read_options(alloc: Global, words: &[Text]) -> Result<Options, OptionsFault>
    /// Where `clap` reads the program's words, the options' values are those of the words, and these are the values
    /// that stand for them among the pieces of the cut.
    /// Carried by: `read` of `read_options`; `options_are_those_of_the_cut`
    ensures read { IfOk result (AreScanimageOptions words.now) }
    /// `read_options` refuses the program's own words of a command line as bad only if no options are those of these words.
    /// Carried by: `refused` of `read_options`: `HasNoOptions`
    ensures refused { IfErr result (λ fault. fault ≡ OptionsFault.Bad → HasNoOptions words.now) }
{
    let strs = as_strs(alloc, words)?;
    let found = parse(alloc, strs.as_slice())?;
    options_found(alloc, &found, words)
}
