use super::jobs::{ASKS, COLORS, LISTED_BARE, PAGES, PUT, PUTS, SHOWS};
use super::*;

const RUNNING: Over = Over::Running;

const MALFORMED: Over = Over::Ended(Status::IoError, Why::Malformed);

/// The statuses, in the order of their codes.
const STATUSES: &[Status] = &[
    Status::Good,
    Status::Unsupported,
    Status::Cancelled,
    Status::DeviceBusy,
    Status::Inval,
    Status::Eof,
    Status::Jammed,
    Status::NoDocs,
    Status::CoverOpen,
    Status::IoError,
    Status::NoMem,
    Status::AccessDenied,
];

/// How a job ends by a reply of that status, or of a word that is none, if it is not GOOD.
fn refused_by(code: u8) -> Over {
    match STATUSES.get(code as usize) {
        Some(status) => Over::Ended(*status, Why::Answer),
        None => MALFORMED,
    }
}

/// What a job is told before a reply, and what of the reply comes.
#[derive(Clone, Copy)]
struct Told<'a> {
    settings: &'static str,
    task: Task,
    before: &'a [Comes<'a>],
    reply: &'a [Comes<'a>],
}

/// The job ends so, or is not over. One that ends says no more.
fn expect_over(rt: &impl Abort, alloc: Global, told: &Told<'_>, over: Over) {
    let mut played = Played::new(rt, alloc, told.settings, told.task);
    played.hears_all(rt, told.before, usize::MAX, usize::MAX);
    let said = (played.sent.len(), played.files.len());
    for comes in told.reply {
        played.hears(rt, *comes, usize::MAX, usize::MAX);
    }
    let is_quiet = (played.sent.len(), played.files.len()) == said;
    if over == RUNNING {
        assert!(rt; matches!(played.over(), Over::Running | Over::Done));
    } else {
        assert!(rt; played.over() == over && is_quiet);
    }
    drop(played);
}

/// A job's task and settings, what comes, how many parts of that come before a reply, and the reply, which begins with its
/// status.
type Reply = (Task, &'static str, &'static [Comes<'static>], usize);

/// The parts that are replies which begin with a status.
const REPLIES: &[Reply] = &[
    (Task::Scan, "", SCAN, 0),
    (Task::List, "", LISTED_BARE, 1),
    (Task::Scan, "", SCAN, 1),
    (Task::Scan, "", ASKS, 3),
    (Task::Scan, "", SCAN, 3),
    (Task::Scan, "", COLORS, 6),
    (Task::Batch(3), "", PAGES, 6),
    (Task::Scan, "", SCAN, 4),
    (Task::SetOnly, PUT, PUTS, 3),
    (Task::Show, "", SHOWS, 3),
];

/// Each reply with each status in the place of its own.
#[test]
fn each_reply_with_each_status(rt: HostRuntime) {
    for (task, settings, script, parts) in REPLIES {
        let own = script.get(*parts).expect(&rt, "a reply").bytes();
        let rest = own.get(4..).expect(&rt, "a rest");
        for code in 0..13u8 {
            let word = [0, 0, 0, code];
            let told = Told {
                settings: *settings,
                task: *task,
                before: script.get(..*parts).expect(&rt, "parts before it"),
                reply: &[Comes::Control(&word), Comes::Control(rest)],
            };
            // A tray that runs out ends a batch that has a page.
            let is_good = code == 0 || (*task == Task::Batch(3) && code == 7);
            let over = if is_good { RUNNING } else { refused_by(code) };
            expect_over(&rt, rt.alloc(), &told, over);
        }
    }
}

/// The reply to AUTHORIZE is a word without meaning, whatever it is; an end record says how the frame ended.
#[test]
fn words_of_no_status(rt: HostRuntime) {
    for code in 0..13u8 {
        let word = [0, 0, 0, code];
        let told = Told {
            settings: "",
            task: Task::Scan,
            before: ASKS.get(..2).expect(&rt, "parts before it"),
            reply: &[Comes::Control(&word)],
        };
        expect_over(&rt, rt.alloc(), &told, RUNNING);
        let byte = [code];
        let told = Told {
            settings: "",
            task: Task::Scan,
            before: SCAN.get(..5).expect(&rt, "parts before it"),
            reply: &[
                Comes::Data(b"\0\0\0\x01\x0a\xff\xff\xff\xff"),
                Comes::Data(&byte),
            ],
        };
        let over = match code {
            0 => MALFORMED,
            5 => RUNNING,
            code => refused_by(code),
        };
        expect_over(&rt, rt.alloc(), &told, over);
    }
}
