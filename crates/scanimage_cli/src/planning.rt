//! What the words of a command line have the program do, as a plain value.
ghost use Rattle.std.specs.Prelude.{◌≡◌, [], if◌then◌else◌, IfOk, IfErr, OnOk, IsTrue, ◌↔◌, ◌≢◌, option_map};
ghost use Rattle.scanimage_cli.specs.Asked.{task_asked};
ghost use Rattle.scanimage_cli.specs.Plans.{input_named, user_or_anybody, destination_of, IsLocationOf, IsComplete, IsPlanned, IsPlanOf, IsPlanRefusal, RefusesOptions};

use crate::asked::{asked_of_net, has_config, is_right_batch, port_of, task_of};
use crate::ending::Ending;
use crate::options::{Options, read_options};
use crate::split::{Split, split_words};
use sane_fixed::{NoMem, Text};
use scan_job::Task;
use std::alloc::Global;

/// Who asks, where nobody is named.
const ANYBODY: &[u8] = b"user";

/// What is read as the config.
#[derive(Drop)]
pub enum Input {
    StandardInput,
    /// The file of that path.
    Path(Text),
}

/// Where the file of a job goes.
#[derive(Drop)]
pub enum Destination {
    StandardOutput,
    /// The file of that path.
    Path(Text),
    /// Files of the current folder, a batch's.
    Folder,
}

/// A device at a host.
#[derive(Drop)]
pub struct Remote {
    pub host: Text,
    pub port: u16,
    /// Whether a data connection is made as soon as its port is known.
    pub dial_first: bool,
    /// Its name there; nothing where devices are listed.
    pub device: Text,
}

/// Where the device is that is asked for.
#[derive(Drop)]
pub enum Location {
    /// Here: the device of that name, or the first one.
    Here(Option<Text>),
    There(Remote),
}

/// The job that is to be done, but for its device and its password.
#[derive(Drop)]
pub struct JobPlan {
    pub user: Text,
    pub settings: Vec<(Text, Text)>,
    pub task: Task,
    pub destination: Destination,
}

/// What the program is to do.
#[derive(Drop)]
pub struct Plan {
    pub config: Option<Input>,
    pub password_file: Option<Text>,
    pub location: Location,
    pub job: JobPlan,
}

fn input_named(path: Text) -> Input
    ensures { result ≡ input_named path }
{
    if path.as_bytes() == b"-".as_slice() {
        Input::StandardInput
    } else {
        Input::Path(path)
    }
}

/// What is read as the config that is named.
fn config_of(path: Option<Text>) -> Option<Input>
    ensures { result ≡ option_map input_named path }
{
    match path {
        Some(path) => Some(input_named(path)),
        None => None,
    }
}

/// A text of these bytes, which hold no NUL.
fn text(alloc: Global, bytes: &[u8]) -> Result<Text, NoMem>
    ensures { IfOk result (λ text. text ≡ bytes.now) }
{
    Text::new(alloc, bytes).map_err(|_| NoMem)
}

fn user_or_anybody(alloc: Global, user: Option<Text>) -> Result<Text, NoMem>
    ensures { IfOk result (λ text. text ≡ user_or_anybody user) }
{
    match user {
        Some(user) => Ok(user),
        None => text(alloc, ANYBODY),
    }
}

/// Where the file of a task goes.
fn destination_of(task: Task, path: Option<Text>) -> Destination
    ensures { result ≡ destination_of task path }
{
    match (task, path) {
        (Task::Batch(_), _) => Destination::Folder,
        (Task::Scan, Some(path)) => Destination::Path(path),
        (Task::Scan, None) => Destination::StandardOutput,
        (Task::List | Task::Show | Task::SetOnly, _) => Destination::StandardOutput,
    }
}

fn copied(alloc: Global, text: &Option<Text>) -> Result<Option<Text>, NoMem>
    ensures { IfOk result (λ copy. copy ≡ text.now) }
{
    match text {
        Some(text) => Ok(Some(text.try_clone(alloc)?)),
        None => Ok(None),
    }
}

/// Where the device is that the options ask for.
fn location_of(alloc: Global, options: &Options) -> Result<Location, NoMem>
    ensures { IfOk result (IsLocationOf options.now) }
{
    match asked_of_net(options) {
        Some((host, device)) => Ok(Location::There(Remote {
            host: text(alloc, host)?,
            port: port_of(options),
            dial_first: options.dial_first,
            device: text(alloc, device)?,
        })),
        None => Ok(Location::Here(copied(alloc, &options.device_name)?)),
    }
}

/// Whether what is asked of this machine has a config, and a batch has files of its own.
fn is_complete(options: &Options) -> bool
    ensures { IsTrue result ↔ IsComplete options.now }
{
    has_config(options) && is_right_batch(options)
}

/// The settings that a task puts: a list has none.
fn settings_of(alloc: Global, task: Task, settings: Vec<(Text, Text)>) -> Vec<(Text, Text)>
    ensures none { task ≡ Task.List → result.items ≡ [] }
    ensures same { task ≢ Task.List → result ≡ settings }
{
    if task == Task::List {
        Vec::new(alloc)
    } else {
        settings
    }
}

/// The plan of these options and settings.
fn planned(alloc: Global, options: Options, settings: Vec<(Text, Text)>) -> Result<Plan, NoMem>
    ensures { IfOk result (IsPlanned options settings.items) }
{
    let task = task_of(&options);
    let location = location_of(alloc, &options)?;
    let Options {
        output_file,
        config,
        user,
        password_file,
        ..
    } = options;
    let job = JobPlan {
        user: user_or_anybody(alloc, user)?,
        settings: settings_of(alloc, task, settings),
        task,
        destination: destination_of(task, output_file),
    };
    Ok(Plan {
        config: config_of(config),
        password_file,
        location,
        job,
    })
}

/// The plan of options and settings. `BadCommandLine` just where a config is missing or a batch has no files of its own, before
/// all that takes memory.
pub fn plan_by_options(
    alloc: Global,
    options: Options,
    settings: Vec<(Text, Text)>,
) -> Result<Plan, Ending>
    /// Each part of the plan is what the options say of it, and there is one just where what is asked of this machine has a
    /// config and a batch has files of its own.
    /// Carried by: `planned`, `complete`, `refused` of `plan_by_options`
    ensures planned { IfOk result (IsPlanned options settings.items) }
    ensures complete { OnOk result (IsComplete options) }
    ensures refused { IfErr result (RefusesOptions options) }
{
    if !is_complete(&options) {
        return Err(Ending::BadCommandLine);
    }
    planned(alloc, options, settings).map_err(|_| Ending::no_memory())
}

/// The plan of the words of a command line, without the program's name. `BadCommandLine` where they cannot be split, where `clap`
/// refuses the program's own, and where there is no plan of the options.
pub fn plan_of(alloc: Global, words: &[Text]) -> Result<Plan, Ending>
    /// The words of a command line alone decide the plan: the config and the password's file that are read, the device and where
    /// it is, the user, the settings in their order, the task, and where its file goes.
    /// Carried by: `planned` of `plan_of`
    ensures planned { IfOk result (IsPlanOf words.now) }
    /// If it gives none, there was no memory for it; or the command line is told as bad, and no plan is one of these words.
    /// Carried by: `refused` of `plan_of`: `IsPlanRefusal`
    ensures refused { IfErr result (IsPlanRefusal words.now) }
{
    let Split { program, settings } = match split_words(alloc, words) {
        Ok(split) => split,
        Err(fault) => return Err(Ending::of_split(fault)),
    };
    let options = match read_options(alloc, program.as_slice()) {
        Ok(options) => options,
        Err(fault) => return Err(Ending::of_options(fault)),
    };
    plan_by_options(alloc, options, settings)
}
