ghost use Rattle.std.specs.Prelude.{◌≡◌, ◌==◌, ◌&&◌, ◌<◌, IfOk, IfSome, OnOk, OnErr, Some, None, Option, if◌then◌else◌, length, map, position, slice_get};
ghost use Rattle.md5_auth.specs.ChallengeReading.{answer_of};
ghost use Rattle.option_desc.specs.Reads.{read_value};
ghost use Rattle.sane_fixed.specs.Cap.{has_cap};
ghost use Rattle.std.specs.Str.{bytes_eq};
ghost use Rattle.option_desc.specs.declared.value.Value.{Value as AnyValue};
ghost use Rattle.client_replies.specs.GivenValues.{given_like, wire_value_in};
ghost use Rattle.client_replies.specs.ReplyTurns.{stop_by_answer, stop_malformed, stop_bad_setting, if_good, after_greeting, after_init_reply, after_list_reply, after_challenge, after_admission, opened_with, after_open_reply, after_authorize_reply, element_number, puts, wants_value, next_shown, after_settings, option_number_of, puts_named, next_setting, with_no_value, after_describe_reply, after_put, given_to, of_kind, put_good, was_put, after_get_value, got_good, was_got, is_all, started_by, after_start_reply, stop_unjoined, turn_after_reply};
ghost use Rattle.scan_job.specs.KnownValues.{with_known_value};

use crate::given_values::{given_like, wire_value_in};
use crate::progress::{JobTarget, Next, Notes, Progress};
use frame_join::JoinFault;
use md5_auth::answer;
use option_desc::{Descriptor, Value, read_text};
use sane_fixed::{ByteOrder, Info, Kind, NoMem, Status, Text};
use scan_job::{ItemList, Report, Task, Why, tells_value};
use std::alloc::Global;
use wire_message::{Reply, WireValue};

pub(crate) fn stop_by_answer(status: Status) -> Next
    ensures { result ≡ stop_by_answer status }
{
    Next::Stop(status, Why::Answer)
}

pub(crate) fn stop_malformed() -> Next
    ensures { result ≡ stop_malformed }
{
    Next::Stop(Status::IoError, Why::Malformed)
}

fn stop_bad_setting() -> Next
    ensures { result ≡ stop_bad_setting }
{
    Next::Stop(Status::Inval, Why::Setting)
}

fn if_good(status: Status, next: Next) -> Next
    ensures { result ≡ if_good status next }
{
    match status {
        Status::Good => next,
        status => stop_by_answer(status),
    }
}

fn after_greeting(task: Task) -> Progress
    ensures { result ≡ after_greeting task }
{
    match task {
        Task::List => Progress::Listing,
        _ => Progress::Opening,
    }
}

/// The reply to INIT.
pub(crate) fn after_init_reply(task: Task, reply: Reply) -> Next
    ensures { result ≡ after_init_reply task reply }
{
    match reply {
        Reply::Init { status, .. } => if_good(status, Next::Wait(after_greeting(task))),
        _ => stop_malformed(),
    }
}

/// The reply to GET_DEVICES.
pub(crate) fn after_list_reply(reply: Reply) -> Next
    ensures { result ≡ after_list_reply reply }
{
    match reply {
        Reply::GetDevices { status, devices } => {
            if_good(status, Next::Finish(ItemList::from_vec(devices.into_vec())))
        }
        _ => stop_malformed(),
    }
}

fn after_challenge(alloc: Global, resource: Text, password: &Text) -> Result<Next, NoMem>
    ensures { IfOk result (λ next. next
        ≡ after_challenge resource (answer_of resource password.now)) }
{
    match answer(alloc, resource.as_bytes(), password.as_bytes())? {
        Some(answer) => Ok(Next::Wait(Progress::Allowing { resource, answer })),
        None => Ok(Next::Stop(Status::AccessDenied, Why::Plain)),
    }
}

fn after_admission(notes: &mut Notes, status: Status, word: u32) -> Next
    ensures next { result ≡ (after_admission notes.old status word).next }
    ensures notes { notes.new ≡ (after_admission notes.old status word).notes }
{
    match status {
        Status::Good => {
            notes.word = word;
            Next::Wait(Progress::Describing)
        }
        status => stop_by_answer(status),
    }
}

fn opened_with(
    alloc: Global,
    password: &Text,
    notes: &mut Notes,
    status: Status,
    word: u32,
    resource: Text,
) -> Result<Next, NoMem>
    ensures next { IfOk result (λ next. next
        ≡ (opened_with password.now notes.old status word resource).next) }
    ensures notes { OnOk result (notes.new
        ≡ (opened_with password.now notes.old status word resource).notes) }
{
    if resource.as_bytes().is_empty() {
        Ok(after_admission(notes, status, word))
    } else {
        after_challenge(alloc, resource, password)
    }
}

/// The reply to OPEN.
pub(crate) fn after_open_reply(
    alloc: Global,
    password: &Text,
    notes: &mut Notes,
    reply: Reply,
) -> Result<Next, NoMem>
    ensures next { IfOk result (λ next. next
        ≡ (after_open_reply password.now notes.old reply).next) }
    ensures notes { OnOk result (notes.new
        ≡ (after_open_reply password.now notes.old reply).notes) }
{
    match reply {
        Reply::Open {
            status,
            device,
            resource,
        } => opened_with(alloc, password, notes, status, device, resource),
        _ => Ok(stop_malformed()),
    }
}

/// The word of AUTHORIZE.
pub(crate) fn after_authorize_reply(reply: Reply) -> Next
    ensures { result ≡ after_authorize_reply reply }
{
    match reply {
        Reply::Authorize => Next::Wait(Progress::Reopening),
        _ => stop_malformed(),
    }
}

/// The place of the first option whose value is still to be asked for.
fn place_wanted(known: &[(Descriptor, Option<Value>)]) -> Option<usize>
    ensures place { result ≡ position wants_value known.now }
    ensures within { IfSome result (λ n. n < length known.now) }
{
    known
        .iter()
        .position(|option| tells_value(&option.0) && option.1.is_none())
}

/// The place of the first option of that name.
fn place_named(name: &Text, known: &[(Descriptor, Option<Value>)]) -> Option<usize>
    ensures place { result ≡ position (λ option. bytes_eq option.0.name name.now) known.now }
    ensures within { IfSome result (λ n. n < length known.now) }
{
    known
        .iter()
        .position(|option| option.0.name.as_bytes() == name.as_bytes())
}

/// An array has at most 1,024 elements.
fn element_number(place: Option<usize>) -> Option<u32>
    ensures few { result ≡ element_number place }
{
    match place {
        Some(n) if n < 1024 => Some(n as u32),
        _ => None,
    }
}

/// The next value that is asked for.
fn next_shown(alloc: Global, known: &[(Descriptor, Option<Value>)]) -> Next
    ensures { result ≡ next_shown known.now }
{
    let Some(n) = element_number(place_wanted(known)) else {
        return Next::Finish(ItemList::none(alloc));
    };
    match known.get(n as usize) {
        Some(option) => Next::Wait(Progress::Getting {
            option: n,
            kind: option.0.kind,
            size: option.0.size,
        }),
        None => Next::Finish(ItemList::none(alloc)),
    }
}

fn after_settings(alloc: Global, task: Task, known: &[(Descriptor, Option<Value>)]) -> Next
    ensures { result ≡ after_settings task known.now }
{
    match task {
        Task::List | Task::SetOnly => Next::Finish(ItemList::none(alloc)),
        Task::Show => next_shown(alloc, known),
        Task::Scan | Task::Batch(_) => Next::Wait(Progress::Starting { first: true }),
    }
}

/// Reads a setting's text as the value of an option.
fn puts(alloc: Global, name: Text, text: &Text, n: u32, desc: &Descriptor) -> Result<Next, NoMem>
    ensures { IfOk result (λ next. next
        ≡ puts name n (desc.now).kind (read_value desc.now text.now)) }
{
    match read_text(alloc, desc, text.as_bytes()) {
        Ok(asked) => Ok(Next::Wait(Progress::Putting {
            option: n,
            kind: desc.kind,
            name,
            asked,
        })),
        Err(Status::NoMem) => Err(NoMem),
        Err(_) => Ok(stop_bad_setting()),
    }
}

/// Finds the option of a setting's name and reads its text.
fn puts_named(
    alloc: Global,
    known: &[(Descriptor, Option<Value>)],
    name: Text,
    text: &Text,
) -> Result<Next, NoMem>
    ensures { IfOk result (λ next. next
        ≡ puts_named name text.now known.now (option_number_of name known.now)) }
{
    let Some(n) = element_number(place_named(&name, known)) else {
        return Ok(stop_bad_setting());
    };
    match known.get(n as usize) {
        Some(option) => Ok(puts(alloc, name, text, n, &option.0)?),
        None => Ok(stop_bad_setting()),
    }
}

/// The next setting, or what comes after them.
#[tactic(auto, unfolding(crate::specs::ReplyTurns::next_setting))]
fn next_setting(alloc: Global, task: Task, notes: &mut Notes) -> Result<Next, NoMem>
    ensures next { IfOk result (λ next. next ≡ (next_setting task notes.old).next) }
    ensures notes { OnOk result (notes.new ≡ (next_setting task notes.old).notes) }
{
    match notes.left.next() {
        None => Ok(after_settings(alloc, task, notes.known.as_slice())),
        Some((name, text)) => puts_named(alloc, notes.known.as_slice(), name, &text),
    }
}

/// Options of which no value is known.
fn with_no_values(
    alloc: Global,
    descriptors: Vec<Descriptor>,
) -> Result<ItemList<(Descriptor, Option<Value>)>, NoMem>
    ensures { IfOk result (λ known. known ≡ map with_no_value descriptors.items) }
{
    let mut known = Vec::with_capacity(alloc, descriptors.len())?;
    for descriptor in descriptors {
        known.push((descriptor, None))?;
    }
    Ok(ItemList::from_vec(known))
}

/// The descriptors.
pub(crate) fn after_describe_reply(
    alloc: Global,
    task: Task,
    notes: &mut Notes,
    reply: Reply,
) -> Result<Next, NoMem>
    ensures next { IfOk result (λ next. next ≡ (after_describe_reply task notes.old reply).next) }
    ensures notes { OnOk result (notes.new ≡ (after_describe_reply task notes.old reply).notes) }
{
    match reply {
        Reply::GetOptionDescriptors { descriptors } => {
            notes.known = with_no_values(alloc, descriptors.into_vec())?;
            next_setting(alloc, task, notes)
        }
        _ => Ok(stop_malformed()),
    }
}

fn after_put(alloc: Global, task: Task, notes: &mut Notes, info: Info) -> Result<Next, NoMem>
    ensures next { IfOk result (λ next. next ≡ (after_put task notes.old (has_cap info.0 2)).next) }
    ensures notes { OnOk result (notes.new ≡ (after_put task notes.old (has_cap info.0 2)).notes) }
{
    if info.0 / 2 % 2 == 1 {
        Ok(Next::Wait(Progress::Describing))
    } else {
        next_setting(alloc, task, notes)
    }
}

fn given_to(
    alloc: Global,
    task: Task,
    notes: &mut Notes,
    kind: Kind,
    name: Text,
    asked: Value,
    info: Info,
    given: Option<Value>,
) -> Result<Next, NoMem>
    ensures next { IfOk result (λ next. next
        ≡ (given_to task notes.old kind name asked info given).next) }
    ensures notes { OnOk result (notes.new
        ≡ (given_to task notes.old kind name asked info given).notes) }
{
    let Some(given) = given else {
        return Ok(stop_malformed());
    };
    notes.reports.add(Report {
        name,
        kind,
        asked,
        given,
        info,
    })?;
    after_put(alloc, task, notes, info)
}

/// Whether both are the same kind, of an option that has values.
fn is_of_kind(sent: Kind, given: Kind) -> bool
    ensures { (v : Option AnyValue) → of_kind sent given v ≡ (if result then v else None) }
{
    match (sent, given) {
        (Kind::Bool, Kind::Bool) => true,
        (Kind::Int, Kind::Int) => true,
        (Kind::Fixed, Kind::Fixed) => true,
        (Kind::String, Kind::String) => true,
        _ => false,
    }
}

fn given_of_kind(
    alloc: Global,
    sent: Kind,
    asked: &Value,
    given: Kind,
    value: &WireValue,
) -> Result<Option<Value>, NoMem>
    ensures { IfOk result (λ found. found ≡ of_kind sent given (given_like asked.now value.now)) }
{
    if is_of_kind(sent, given) {
        Ok(given_like(alloc, asked, value)?)
    } else {
        Ok(None)
    }
}

fn value_of_kind(
    alloc: Global,
    sent: Kind,
    given: Kind,
    value: &WireValue,
) -> Result<Option<Value>, NoMem>
    ensures { IfOk result (λ found. found ≡ of_kind sent given (wire_value_in sent value.now)) }
{
    if is_of_kind(sent, given) {
        Ok(wire_value_in(alloc, sent, value)?)
    } else {
        Ok(None)
    }
}

fn put_good(
    alloc: Global,
    task: Task,
    notes: &mut Notes,
    kind: Kind,
    name: Text,
    asked: Value,
    status: Status,
    info: Info,
    given: Kind,
    value: WireValue,
) -> Result<Next, NoMem>
    ensures next { IfOk result (λ next. next
        ≡ (put_good task notes.old kind name asked status info given value).next) }
    ensures notes { OnOk result (notes.new
        ≡ (put_good task notes.old kind name asked status info given value).notes) }
{
    match status {
        Status::Good => {
            let found = given_of_kind(alloc, kind, &asked, given, &value)?;
            Ok(given_to(alloc, task, notes, kind, name, asked, info, found)?)
        }
        status => Ok(stop_by_answer(status)),
    }
}

/// The reply to a setting's SET.
pub(crate) fn was_put(
    alloc: Global,
    task: Task,
    notes: &mut Notes,
    kind: Kind,
    name: Text,
    asked: Value,
    reply: Reply,
) -> Result<Next, NoMem>
    ensures next { IfOk result (λ next. next
        ≡ (was_put task notes.old kind name asked reply).next) }
    ensures notes { OnOk result (notes.new ≡ (was_put task notes.old kind name asked reply).notes) }
{
    match reply {
        Reply::ControlOption {
            status,
            info,
            kind: given,
            value,
            resource,
        } => {
            if resource.as_bytes().is_empty() {
                Ok(put_good(
                    alloc, task, notes, kind, name, asked, status, info, given, value,
                )?)
            } else {
                Ok(stop_malformed())
            }
        }
        _ => Ok(stop_malformed()),
    }
}

fn after_get_value(alloc: Global, notes: &mut Notes, n: u32, found: Option<Value>) -> Next
    ensures next { result ≡ (after_get_value notes.old n found).next }
    ensures notes { notes.new ≡ (after_get_value notes.old n found).notes }
{
    match found {
        Some(value) => {
            notes.known.tell(n as usize, value);
            next_shown(alloc, notes.known.as_slice())
        }
        None => stop_malformed(),
    }
}

fn got_good(
    alloc: Global,
    notes: &mut Notes,
    n: u32,
    kind: Kind,
    status: Status,
    given: Kind,
    value: WireValue,
) -> Result<Next, NoMem>
    ensures next { IfOk result (λ next. next
        ≡ (got_good notes.old n kind status given value).next) }
    ensures notes { OnOk result (notes.new ≡ (got_good notes.old n kind status given value).notes) }
{
    match status {
        Status::Good => {
            let found = value_of_kind(alloc, kind, given, &value)?;
            Ok(after_get_value(alloc, notes, n, found))
        }
        status => Ok(stop_by_answer(status)),
    }
}

/// The reply to an option's GET.
pub(crate) fn was_got(
    alloc: Global,
    notes: &mut Notes,
    n: u32,
    kind: Kind,
    reply: Reply,
) -> Result<Next, NoMem>
    ensures next { IfOk result (λ next. next ≡ (was_got notes.old n kind reply).next) }
    ensures notes { OnOk result (notes.new ≡ (was_got notes.old n kind reply).notes) }
{
    match reply {
        Reply::ControlOption {
            status,
            kind: given,
            value,
            resource,
            ..
        } => {
            if resource.as_bytes().is_empty() {
                Ok(got_good(alloc, notes, n, kind, status, given, value)?)
            } else {
                Ok(stop_malformed())
            }
        }
        _ => Ok(stop_malformed()),
    }
}

/// Whether no page is left for a batch that has one.
fn is_all(task: Task, first: bool, file: u32) -> bool
    ensures { result ≡ is_all task first file }
{
    match task {
        Task::Batch(_) => first && 1 < file,
        Task::List | Task::Show | Task::SetOnly | Task::Scan => false,
    }
}

fn started_by(alloc: Global, all: bool, status: Status, port: u16, order: ByteOrder) -> Next
    ensures { result ≡ started_by all status port order }
{
    match status {
        Status::Good => Next::Wait(Progress::Shaping { port, order }),
        Status::NoDocs => {
            if all {
                Next::Finish(ItemList::none(alloc))
            } else {
                stop_by_answer(Status::NoDocs)
            }
        }
        status => stop_by_answer(status),
    }
}

/// The reply to START.
pub(crate) fn after_start_reply(
    alloc: Global,
    task: Task,
    first: bool,
    file: u32,
    reply: Reply,
) -> Next
    ensures { result ≡ after_start_reply task first file reply }
{
    match reply {
        Reply::Start {
            status,
            port,
            order,
            resource,
        } => {
            if resource.as_bytes().is_empty() {
                started_by(alloc, is_all(task, first, file), status, port, order)
            } else {
                stop_malformed()
            }
        }
        _ => stop_malformed(),
    }
}

/// Frames that make no picture.
pub fn stop_unjoined(fault: JoinFault) -> Next
    ensures { result ≡ stop_unjoined fault }
{
    match fault {
        JoinFault::Shape => stop_malformed(),
        JoinFault::Long => Next::Stop(Status::IoError, Why::Long),
        JoinFault::Short => Next::Stop(Status::IoError, Why::Short),
        JoinFault::NoMem => Next::Stop(Status::NoMem, Why::Memory),
    }
}

/// What a reply makes of a job that does not wait for the parameters of a frame.
pub fn hear(
    alloc: Global,
    target: &JobTarget,
    notes: &mut Notes,
    progress: Progress,
    reply: Reply,
) -> Result<Next, NoMem>
    /// What each reply makes of a job over the net: an ending with its status and why, what is asked for next, what
    /// comes to be known.
    /// Carried by: `next`, `notes` of `hear`
    ensures next { IfOk result (λ next. next
        ≡ (turn_after_reply target.now progress notes.old reply).next) }
    ensures notes { OnOk result (notes.new
        ≡ (turn_after_reply target.now progress notes.old reply).notes) }
{
    match progress {
        Progress::Greeting => Ok(after_init_reply(target.task, reply)),
        Progress::Listing => Ok(after_list_reply(reply)),
        Progress::Opening | Progress::Reopening => after_open_reply(
            alloc,
            &target.password,
            notes,
            reply,
        ),
        Progress::Allowing { .. } => Ok(after_authorize_reply(reply)),
        Progress::Describing => after_describe_reply(alloc, target.task, notes, reply),
        Progress::Putting {
            kind,
            name,
            asked,
            ..
        } => was_put(alloc, target.task, notes, kind, name, asked, reply),
        Progress::Getting { option, kind, .. } => was_got(alloc, notes, option, kind, reply),
        Progress::Starting { first } => Ok(after_start_reply(
            alloc,
            target.task,
            first,
            notes.file,
            reply,
        )),
        Progress::Shaping { .. } | Progress::Imaging { .. } | Progress::Turning | Progress::Over =>
            { Ok(stop_malformed()) }
    }
}
