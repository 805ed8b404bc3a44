//! What a stranger's session leaves to the jobs of a world, whatever he says and however he is lost. A stranger is a session of the
//! daemon that no job has.
#![tactic(auto)]

ghost use Rattle.strangers.specs.Among.{StrangersDoAll, StrangersDoAnything, StrangersMayCome};
ghost use Rattle.strangers.specs.Busy.{BusyByItself, BusyHasHolder, BusyIsExplained, HadByStranger};
ghost use Rattle.strangers.specs.LeavingJobs.{StrangersCome, StrangersConnect, StrangersLeave, StrangersLoseData, StrangersSayAnything, StrangersTakeData, StrangersTakeReplies};
ghost use Rattle.strangers.specs.Together.{AllGoOnTogether, AllIsKeptAmongStrangers, JobsGoOn, OneHolderAmong, StrangersCompleteNoFile, StrangersKeepWorlds, ThereAreStrangers};

#[tactic(none)]
pub fn strangers_say_anything()
    /// Whatever bytes a stranger's session is fed, also where memory runs out, the jobs stand: each job's endpoint,
    /// session, replies and device are as they were.
    /// Carried by: `strangers_say_anything`: `SaysAnything`, `LeavesJobs`
    ensures { StrangersSayAnything }
{}

#[tactic(none)]
pub fn strangers_come_and_go()
    /// So they are where a data connection of his is made, where it is lost, and where he leaves or is lost himself,
    /// which gives his devices back.
    /// Carried by: `strangers_come_and_go`: `GoesOn`, `IsGone`
    ensures made { StrangersConnect }
    ensures lost { StrangersLoseData }
    ensures left { StrangersLeave }
{}

#[tactic(none)]
pub fn strangers_take_what_is_theirs()
    /// So they are where a stranger comes, and where records of his data and his replies are taken.
    /// Carried by: `strangers_take_what_is_theirs`: `HasArrived`, `GoesOn`
    ensures came { StrangersCome }
    ensures data { StrangersTakeData }
    ensures replies { StrangersTakeReplies }
{}

#[tactic(none)]
pub fn strangers_do_anything()
    /// Whatever one act a server does for any stranger, all jobs and all strangers stand behind it; no slot of another
    /// session is touched, nor a device that another holds.
    ensures one { StrangersDoAnything }
    /// So they do behind any acts for any number of strangers, and a device that a job holds is then as it was.
    ensures all { StrangersDoAll }
{}

#[tactic(none)]
pub fn strangers_may_come()
    /// In any world of jobs and strangers, whatever led there, all stand so, and strangers may come.
    ensures { StrangersMayCome }
{}

#[tactic(none)]
pub fn jobs_go_on_among_strangers()
    /// An event of a job or a device among strangers is the same steps of the model as among jobs alone. All stand behind it.
    /// Each stranger's session is as it was, with its devices and replies, except that a page may be laid into a device that he
    /// holds.
    ensures jobs { JobsGoOn }
    /// Any act of a stranger is steps of the model, each a use of a device by him. The world stands for what they lead to. No
    /// session of another is touched, nor a device that another holds.
    ensures strangers { StrangersKeepWorlds }
    /// So it is of any number of events of jobs and acts of strangers, in any order. Their steps are one history of the model,
    /// and its marks may come at each device: no two hold one, and a start takes the page that is next.
    ensures all { AllGoOnTogether }
{}

#[tactic(none)]
pub fn all_is_kept_among_strangers()
    /// From a new world on, behind any events and acts of strangers, each job keeps what it keeps among jobs alone. A scan that
    /// is done keeps its picture, if its device's sources are steady. One that is not done has no whole file, and a cause by the
    /// model. A job without moves is over.
    ensures { AllIsKeptAmongStrangers }
{}

#[tactic(none)]
pub fn strangers_complete_no_file()
    /// The smallest lie against it is refuted: that some history leads to a whole file of a job that is not done.
    ensures { StrangersCompleteNoFile }
{}

#[tactic(none)]
pub fn no_two_hold_one_device()
    /// Among jobs and strangers no two sessions hold one device, whoever they are.
    ensures { OneHolderAmong }
{}

#[tactic(none)]
pub fn busy_devices_have_a_holder()
    /// A job that found its device held found it so in front of one of its deliveries to the daemon. There a session had a device
    /// of that name that is not the job's: another job's or a stranger's.
    /// Carried by: `busy_devices_have_a_holder`: `HadInFront`, `LeasesNamed`
    ensures held { BusyHasHolder }
    /// So a job that ended with DEVICE_BUSY found another with its device so, or a setting of its own names that status.
    ensures ended { BusyIsExplained }
{}

#[tactic(none)]
pub fn strangers_may_hold_it()
    /// An example is a stranger's session that has it in front of a delivery.
    ensures { HadByStranger }
{}

#[tactic(none)]
pub fn nothing_is_busy_by_itself()
    /// The smallest lie against it is refuted: that a job of which nothing was delivered found its device held.
    ensures { BusyByItself }
{}

#[tactic(none)]
pub fn there_are_strangers()
    /// There are such histories: in any new world a stranger may come, and then a session stands that no job has.
    ensures { ThereAreStrangers }
{}
