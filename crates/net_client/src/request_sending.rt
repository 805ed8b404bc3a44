ghost use Rattle.std.specs.Prelude.{◌≡◌, ◌≤◌, ◌+◌, ◌++◌, OnOk, OnErr, Some};
ghost use Rattle.std.specs.Int.{w32, to_be_bytes};
ghost use Rattle.wire_format.specs.Writer.{behind};
ghost use Rattle.wire_message.specs.declared.message.Request.TheVariants as requests;
ghost use Rattle.client_replies.specs.Asking.{request_for, goodbye, farewell};
ghost use Rattle.net_client.specs.Inside.{word_request};
ghost use Rattle.net_client.specs.Sending.{requests_text, optional_request_text};

use crate::outbox::Outbox;
use client_replies::{JobTarget, Progress, request_for};
use sane_fixed::NoMem;
use scan_job::Task;
use std::alloc::Global;
use wire_codec::encode_request;

/// Room for two requests of a word, and one without.
pub(crate) const SPARE: usize = 20;

/// Writes what a job asks for as it begins to wait, and leaves room for its end.
pub(crate) fn ask(
    alloc: Global,
    out: &mut Outbox,
    target: &JobTarget,
    word: u32,
    progress: &Progress,
) -> Result<(), NoMem>
    ensures text { OnOk result (behind out.old.text
        (optional_request_text (request_for target.now word progress.now)) ≡ Some out.new.text) }
    ensures room { OnOk result (20 ≤ out.new.room) }
    ensures err { OnErr result (out.new.text ≡ out.old.text) }
    ensures kept { OnErr result (out.old.room ≤ out.new.room) }
{
    match request_for(alloc, target, word, progress)? {
        Some(request) => match encode_request(alloc, &request) {
            Ok(text) => out.put(text.as_slice(), SPARE),
            Err(_) => Err(NoMem),
        },
        None => out.put(&[], SPARE),
    }
}

/// Writes a request of a code and a word.
fn add_word_request(out: &mut Outbox, code: u32, word: u32)
    requires { 8 ≤ out.old.room }
    ensures text { out.new.text ≡ out.old.text ++ word_request code word }
    ensures room { out.old.room ≤ out.new.room + 8 }
{
    out.add(&code.to_be_bytes());
    out.add(&word.to_be_bytes());
}

/// Writes the START of a batch's next page.
pub(crate) fn say_start(out: &mut Outbox, word: u32)
    requires { 8 ≤ out.old.room }
    ensures text { behind out.old.text (optional_request_text (Some (requests.Start word)))
        ≡ Some out.new.text }
    ensures room { out.old.room ≤ out.new.room + 8 }
{
    add_word_request(out, 7, word);
}

fn add_exit(out: &mut Outbox)
    requires { 4 ≤ out.old.room }
    ensures text { out.new.text ≡ out.old.text ++ to_be_bytes w32 10 }
    ensures room { out.old.room ≤ out.new.room + 4 }
{
    out.add(&10u32.to_be_bytes());
}

/// Writes what a job that is done sends last.
pub(crate) fn say_goodbye(out: &mut Outbox, task: Task, word: u32)
    requires { 12 ≤ out.old.room }
    ensures { behind out.old.text (requests_text (goodbye task word)) ≡ Some out.new.text }
{
    match task {
        Task::List => {}
        _ => add_word_request(out, 3, word),
    }
    add_exit(out);
}

/// Writes what a job that is cancelled sends last.
pub(crate) fn say_farewell(out: &mut Outbox, word: u32, progress: &Progress)
    requires { 12 ≤ out.old.room }
    ensures { behind out.old.text (requests_text (farewell word progress.now)) ≡ Some out.new.text }
{
    match progress {
        Progress::Shaping { .. } | Progress::Imaging { .. } => add_word_request(out, 8, word),
        _ => {}
    }
    add_exit(out);
}
