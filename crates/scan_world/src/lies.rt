//! Of each part of the promise, that it refuses the smallest lies.

ghost use Rattle.scan_world.specs.Clear.{BothBusyIsNoLie, NeitherIsNoLie, RefusedIsNoLie, StoppedIsNoLie, TurnedAwayIsNoLie};
ghost use Rattle.scan_world.specs.Lies.{AllowedIsNoLie, BusyIsNoLie, CancelledIsNoLie, CountIsNoLie, DeniedIsNoLie, EmptyIsNoLie, FailedIsNoLie, FewIsNoLie, FileIsNoLie, FirmIsNoLie, GivenAwayIsNoLie, GivenUpIsNoLie, GoneOnIsNoLie, HiddenIsNoLie, IdleIsNoLie, InvalIsNoLie, JammedIsNoLie, LaidIsNoLie, ListIsNoLie, LossIsNoLie, LostIsNoLie, MemoryIsNoLie, MissingIsNoLie, MovedIsNoLie, NeverHadIsNoLie, NowhereIsNoLie, PageIsNoLie, RefusedStandAside, RoundedIsNoLie, SharedIsNoLie, ShownIsNoLie, SilentIsNoLie, StarvedIsNoLie, StillRunsIsNoLie, StuckIsNoLie, SwappedIsNoLie, TornOutIsNoLie, TrayPageIsNoLie, UnchangedStandAside, UnheardIsNoLie, UnscannedIsNoLie, UnseededIsNoLie, WholeIsNoLie};
ghost use Rattle.scan_world.specs.Shared.{TakenIsNoLie, TheirPageIsNoLie};

/// The table of endings explains none that nothing stood for.
#[tactic(none)]
pub fn an_ending_is_no_lie()
    /// The table refuses the smallest lies. Take a job whose options name no status. DEVICE_BUSY is not explained if in front of
    /// its requests only its own session had its device. INVAL is not explained if that was listed, and its settings can be in
    /// force and mean a picture. ACCESS_DENIED is not explained if its password is allowed for each challenge.
    ensures busy { BusyIsNoLie }
    ensures inval { InvalIsNoLie }
    ensures denied { DeniedIsNoLie }
    /// Nor INVAL by a value of its settings where its device was never listed as it asked for it.
    ensures unheard { UnheardIsNoLie }
    /// NO_DOCS is not explained if its device had a page in front of its requests. IO_ERROR is not explained if a source of it
    /// failed in no event, or if no page that can fail came for it. Neither is explained for a job that does not scan.
    /// Carried by: `empty`, `failed`, `firm`, `unscanned` of `an_ending_is_no_lie`
    ensures empty { EmptyIsNoLie }
    ensures failed { FailedIsNoLie }
    ensures firm { FirmIsNoLie }
    ensures unscanned { UnscannedIsNoLie }
    /// Nor any status that no cause answers, as JAMMED.
    ensures jammed { JammedIsNoLie }
    /// A loss is not explained if no connection of the job that stood was lost and it is not told as out of memory. Nor is a
    /// starved client to which nothing could come, or a cancel that did not come.
    ensures lost { LostIsNoLie }
    ensures memory { MemoryIsNoLie }
    ensures cancelled { CancelledIsNoLie }
{}

/// A list that is done tells what was listed, a show what there is, and a batch has its count or ran out of pages.
#[tactic(none)]
pub fn a_report_is_no_lie()
    /// Where the same devices were listed in front of all its requests, no list is done that tells others, one of them
    /// twice, or another order.
    ensures listed { ListIsNoLie }
    /// No show is done with no options.
    ensures shown { ShownIsNoLie }
    /// No batch is done with another number of pages than its count where its device had a page in front of all its requests.
    /// Nor with fewer, where as many lay in a tray of its own at first; and no file of page k is of another page than the k-th
    /// of these.
    /// Carried by: `counted`, `few` of `a_report_is_no_lie`; `tray` of `a_file_is_no_lie`
    ensures counted { CountIsNoLie }
    ensures few { FewIsNoLie }
    /// A job that is no list is not done if it names a device that is not there, or that was not listed in front of its requests,
    /// or if its password is wrong and a line of the users names its backend.
    /// Carried by: `nowhere`, `hidden`, `allowed` of `a_report_is_no_lie`
    ensures nowhere { NowhereIsNoLie }
    ensures hidden { HiddenIsNoLie }
    ensures allowed { AllowedIsNoLie }
    /// No job but a list is done whose session never had its device.
    ensures never_had { NeverHadIsNoLie }
    /// No job is done with settings of which nothing is told. None is done whose first setting got another value than was asked
    /// for, without INEXACT.
    /// Carried by: `silent`, `rounded` of `a_report_is_no_lie`
    ensures silent { SilentIsNoLie }
    ensures rounded { RoundedIsNoLie }
{}

/// A file is of the page of its start, whole no sooner than it is done, and there.
#[tactic(none)]
pub fn a_file_is_no_lie()
    /// If the pages are steady, each file of a scan that is done denotes what the settings mean on a page that the device had
    /// first in front of one of the job's requests. The file of a batch's page k denotes one of those that it had while k - 1
    /// pages were finished.
    /// Carried by: `filed`, `paged` of `a_file_is_no_lie`
    ensures filed { FileIsNoLie }
    ensures paged { PageIsNoLie }
    /// Pages whose event changed nothing are none of those that must be steady, as those that the daemon refused for a
    /// full tray.
    /// Carried by: `unchanged`, `aside` of `a_file_is_no_lie`
    ensures unchanged { UnchangedStandAside }
    ensures aside { RefusedStandAside }
    ensures tray { TrayPageIsNoLie }
    /// No front of the file of a job that is not done is whole. Only a job that is told as out of memory may miss one.
    /// Carried by: `whole`, `missing` of `a_file_is_no_lie`
    ensures whole { WholeIsNoLie }
    ensures missing { MissingIsNoLie }
{}

/// Just the jobs that run have a move. It is no loss if nothing is wrong.
#[tactic(none)]
pub fn a_move_is_no_lie()
    /// No job that runs has no next move, and none that is done has one.
    /// Carried by: `stuck`, `moved` of `a_move_is_no_lie`
    ensures stuck { StuckIsNoLie }
    ensures moved { MovedIsNoLie }
    /// The loss of its connection is not the next move of a job that is not told as out of memory and whose session could say its
    /// reply to each delivered request.
    ensures lost { LossIsNoLie }
{}

/// A run does what its events do, and moves until no job runs are moves.
#[tactic(none)]
pub fn a_run_is_no_lie()
    /// A run does something if its one event can happen to a job that has moves left. A cancel ends its job. What `run_all` adds
    /// is never a cancel alone.
    ensures idle { IdleIsNoLie }
    ensures gone_on { GoneOnIsNoLie }
    ensures given_up { GivenUpIsNoLie }
    /// No job is told as out of memory by an event that could not happen to it, or by a cancel.
    ensures starved { StarvedIsNoLie }
    /// A page that a device has room for is not dropped, and a device that a session has is not taken out.
    /// Carried by: `laid`, `torn_out` of `a_run_is_no_lie`
    ensures laid { LaidIsNoLie }
    ensures torn_out { TornOutIsNoLie }
    /// No world draws its challenges from a generator that is in no state of a seed.
    ensures unseeded { UnseededIsNoLie }
    /// Nor does a job run behind `run_all`.
    ensures still_runs { StillRunsIsNoLie }
{}

/// A job in whose way nothing stands is not refused.
#[tactic(none)]
pub fn a_refusal_is_no_lie()
    /// A clear job that is not told as out of memory, and whose session did not break off, does not end otherwise, by next moves
    /// that are run or by `run_all`.
    /// Carried by: `stopped`, `refused`, `turned_away` of `a_refusal_is_no_lie`
    ensures stopped { StoppedIsNoLie }
    ensures refused { RefusedIsNoLie }
    ensures turned_away { TurnedAwayIsNoLie }
    /// Of two jobs that name one device, and are clear but for each other, `run_all` leaves at most one busy, and neither refused
    /// otherwise.
    /// Carried by: `both_busy`, `neither` of `a_refusal_is_no_lie`
    ensures both_busy { BothBusyIsNoLie }
    ensures neither { NeitherIsNoLie }
{}

/// No device has two holders, and none another page in mid-scan.
#[tactic(none)]
pub fn a_holder_is_no_lie()
    /// No two jobs have a device of one name, and none has another first page in mid-scan.
    ensures shared { SharedIsNoLie }
    ensures swapped { SwappedIsNoLie }
    /// No device goes from a session whose connection stands and that no request came to.
    ensures given_away { GivenAwayIsNoLie }
{}

/// No stranger's page is in a file, and none had the device of a job that is done as it asked for it.
#[tactic(none)]
pub fn a_stranger_is_no_lie()
    /// A file is no scan of a page that lay in no device at first and that no event brought, such as a stranger's. A job whose
    /// device a stranger had whenever it asked for it is done only if it is a list.
    /// Carried by: `theirs`, `taken` of `a_stranger_is_no_lie`
    ensures theirs { TheirPageIsNoLie }
    ensures taken { TakenIsNoLie }
{}
