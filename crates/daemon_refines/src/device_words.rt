//! Requests to a device word.

ghost use Rattle.daemon_refines.specs.DeviceWords.{CancelAgrees, CloseAgrees, GetAgrees, OptionsAgree, ParametersAgree, SetAgrees, SetRefuses, StartAgrees};

/// The descriptors of a device word are those of the model.
#[tactic(none)]
pub fn descriptors_follow_the_model()
    /// So for each request of a device word.
    /// Carried by: `descriptors_follow_the_model`, `a_get_follows_the_model`, `a_set_follows_the_model`,
    /// `parameters_follow_the_model`, `a_start_follows_the_model`, `a_cancel_follows_the_model`,
    /// `a_close_follows_the_model`
    ensures { OptionsAgree }
{}

/// What a GET tells is what the model tells.
#[tactic(none)]
pub fn a_get_follows_the_model()
    ensures { GetAgrees }
{}

/// A SET of a value that is one of its option's type gives what the model gives. Another one is refused, and nothing changes.
#[tactic(none)]
pub fn a_set_follows_the_model()
    /// The model has no such words: an INIT of another major ends the session, as does a first request other than INIT, and a SET
    /// whose value is not of its option's type is refused.
    /// Carried by: `a_greeting_follows_the_model`, `a_set_follows_the_model`
    ensures of_its_type { SetAgrees }
    ensures of_another { SetRefuses }
{}

/// The parameters are those of the model.
#[tactic(none)]
pub fn parameters_follow_the_model()
    ensures { ParametersAgree }
{}

/// A START answers what the model answers.
#[tactic(none)]
pub fn a_start_follows_the_model()
    ensures { StartAgrees }
{}

/// A CANCEL does what the model says.
#[tactic(none)]
pub fn a_cancel_follows_the_model()
    ensures { CancelAgrees }
{}

/// So does a CLOSE.
#[tactic(none)]
pub fn a_close_follows_the_model()
    ensures { CloseAgrees }
{}
