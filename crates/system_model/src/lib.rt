//! What the system promises, said of messages: what stands, what happens, and what follows.
#![tactic(auto)]

ghost use Rattle.system_model.specs.Meant.{PicturesAreMeant};
ghost use Rattle.system_model.specs.Settings.{SettingsMeanTheSame};
ghost use Rattle.system_model.specs.AbstractSessions.{OneWordIsEnough, OthersFramesStay, WordsAreFour};
ghost use Rattle.system_model.specs.MoveRuns.{HistoryMarksAreEnabled, RunsAreBounded, RunsEnd, RunsGoOn};
ghost use Rattle.system_model.specs.Deliveries.{PiecesComplete, PiecesShowTheSame};
ghost use Rattle.system_model.specs.ModelPromises.{BatchPagesAreCounted, InitialStateIsInvariant, CausesAreGrounded, DoneIsAllowed, EndsAreCaused, EndsEnd, FreeDevicesAreUsed, HeldDevicesAreNotUsed, HistoriesKeepInvariant, ListingsAreTrue, ListsAreRight, MarksAreEnabled, NoDeadlock, NotesAreTrue, VariantIsBounded, VariantEndsAtZero, VariantDecreases, OutcomesLast, OthersKeepVariant, PagesAreRight, ScansAreRight, SettingsAreAnswered, ShowsAreRight, StepsArePaid, UsesLeave};

pub fn the_initial_state_is_invariant()
    /// The invariant holds before anything has happened, and whatever enabled transitions come, it holds.
    /// Carried by: `the_initial_state_is_invariant`, `every_history_keeps_the_invariant`
    ensures { InitialStateIsInvariant }
{}

/// Whatever enabled transitions come, the invariant holds.
pub fn every_history_keeps_the_invariant()
    ensures { HistoriesKeepInvariant }
{}

pub fn what_is_scanned_is_right()
    /// A scan that is done has the picture that its settings mean on the page of its first start; so has each
    /// finished page of a batch, whatever became of the job.
    /// Carried by: `what_is_scanned_is_right`, `what_is_finished_is_right`, `pictures_are_meant`
    ensures { ScansAreRight }
{}

/// Each page that a job finished is right, whatever became of the job.
pub fn what_is_finished_is_right()
    ensures { PagesAreRight }
{}

pub fn batch_pages_are_counted()
    /// A batch that is done has all its pages, or the tray ran out.
    ensures { BatchPagesAreCounted }
{}

/// Each setting of a job that is done is answered with the nearest admitted value.
pub fn settings_are_answered()
    /// Each setting of a job that is done is answered with the nearest admitted value.
    /// Carried by: `settings_are_answered`, `settings_mean_the_same`
    ensures { SettingsAreAnswered }
{}

pub fn what_is_done_is_allowed()
    /// A job that opened a device is done only where that was allowed.
    ensures { DoneIsAllowed }
{}

pub fn what_is_listed_is_right()
    /// A list that is done has the devices that were listed when the daemon read the request, in their order.
    /// Carried by: `what_is_listed_is_right`, `listings_are_true`
    ensures { ListsAreRight }
{}

/// What is listed are the places whose devices are listed, in their order.
pub fn listings_are_true()
    ensures { ListingsAreTrue }
{}

pub fn what_is_shown_is_right()
    /// A show that is done has the descriptors and values in force.
    ensures { ShowsAreRight }
{}

pub fn every_ending_has_its_cause()
    /// A job that ended otherwise has its cause, and each cause that the daemon's answer adds is so.
    /// Carried by: `every_ending_has_its_cause`, `causes_are_grounded`
    ensures { EndsAreCaused }
{}

pub fn what_ends_a_job()
    /// A cancel, a loss, and out of memory at the client end a job; what a client has once it is over stays.
    /// Carried by: `what_ends_a_job`, `outcomes_last`
    ensures { EndsEnd }
{}

/// What a client has once it is over stays.
pub fn outcomes_last()
    ensures { OutcomesLast }
{}

/// Each cause that the daemon's answer adds is so.
pub fn causes_are_grounded()
    ensures { CausesAreGrounded }
{}

pub fn marks_are_enabled()
    /// Two clients never hold one device, and no page changes within a scan, over every history.
    /// Carried by: `marks_are_enabled`, `history_marks_are_enabled`, `notes_are_true`
    ensures { MarksAreEnabled }
{}

pub fn clients_without_jobs_leave_others()
    /// A client without a job that uses a device leaves it listed as it was, held by nobody or by that client. The device keeps
    /// the pages that it had, without some that came first.
    /// Carried by: `clients_without_jobs_leave_others`: `HasNoJob`, `IsUsedBy`, `UseLeaves`
    ensures { UsesLeave }
{}

pub fn free_devices_are_used()
    /// It may take a device that is listed and that nobody holds, and no device that another holds.
    /// Carried by: `free_devices_are_used`, `held_devices_are_not_used`
    ensures { FreeDevicesAreUsed }
{}

/// A client without a job uses no device that another holds.
pub fn held_devices_are_not_used()
    ensures { HeldDevicesAreNotUsed }
{}

/// What is noted of a job is what its steps show.
pub fn notes_are_true()
    ensures { NotesAreTrue }
{}

/// A job that is not over has a next move, and none comes before it.
pub fn no_deadlock()
    /// A job that is not over has a next move.
    ensures { NoDeadlock }
{}

/// What a step of a running job puts on the way is taken off its moves.
pub fn steps_are_paid()
    ensures { StepsArePaid }
{}

pub fn the_variant_decreases()
    /// Each action of a running job lowers its variant, no action of another raises it, it is bounded from the
    /// beginning, and is 0 just where the job is over.
    /// Carried by: `the_variant_decreases`, `others_keep_the_variant`, `the_variant_is_bounded`,
    /// `the_variant_ends_at_zero`, `steps_are_paid`
    ensures { VariantDecreases }
{}

/// No step of another raises it.
pub fn others_keep_the_variant()
    ensures { OthersKeepVariant }
{}

/// It is 0 just where the job is over.
pub fn the_variant_ends_at_zero()
    ensures { VariantEndsAtZero }
{}

/// It is bounded from the beginning.
pub fn the_variant_is_bounded()
    ensures { VariantIsBounded }
{}

pub fn words_are_four()
    /// A session has four device words, CANCEL and CLOSE of one leave another's frame alone, and a session of a world
    /// is answered by the model for one device.
    /// Carried by: `words_are_four`, `frames_of_other_words_stay`, `one_word_is_enough`
    ensures { WordsAreFour }
{}

/// A session of a world is answered by the model for one device.
pub fn one_word_is_enough()
    ensures { OneWordIsEnough }
{}

/// The settings in force by the model are those of the devices.
pub fn settings_mean_the_same()
    ensures { SettingsMeanTheSame }
{}

/// The frames of a finished page show the picture that the job's settings mean on the page.
pub fn pictures_are_meant()
    ensures { PicturesAreMeant }
{}

/// CANCEL and CLOSE of one device word leave another's frame alone.
pub fn frames_of_other_words_stay()
    ensures { OthersFramesStay }
{}

/// Moves taken in turn are no more than the numbers of the jobs together, and while a job is under way there is one.
/// So the round robin ends with every job over.
pub fn the_round_robin_ends()
    /// Moves taken in turn end with every job over.
    ensures bounded { RunsAreBounded }
    ensures goes_on { RunsGoOn }
    ensures ends { RunsEnd }
{}

/// The marks of every history are enabled at each device.
pub fn history_marks_are_enabled()
    ensures { HistoryMarksAreEnabled }
{}

pub fn pieces_show_the_same()
    /// The pieces in which bytes are delivered change no mark.
    ensures complete { PiecesComplete }
    ensures marks { PiecesShowTheSame }
{}
