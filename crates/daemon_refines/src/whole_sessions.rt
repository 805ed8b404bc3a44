//! Requests to a whole session.

ghost use Rattle.daemon_refines.specs.WholeSessions.{AuthorizeAgrees, DevicesAgree, EndsAgree, InitAgrees, InitEnds, ListsAgree, OpenAgrees, OthersEnd};

/// INIT is answered as by the model. One of another major ends the session, and all that it holds is given back.
#[tactic(none)]
pub fn a_greeting_follows_the_model()
    /// So for each request: INIT, the list, OPEN, AUTHORIZE.
    /// Carried by: `a_greeting_follows_the_model`, `a_list_follows_the_model`, `an_open_follows_the_model`,
    /// `an_authorization_follows_the_model`
    ensures of_its_major { InitAgrees }
    ensures of_another { InitEnds }
{}

/// The list of devices is that of the model.
#[tactic(none)]
pub fn a_list_follows_the_model()
    ensures answer { DevicesAgree }
    ensures devices { ListsAgree }
{}

/// OPEN is answered as by the model, with all its refusals in their order.
#[tactic(none)]
pub fn an_open_follows_the_model()
    ensures { OpenAgrees }
{}

/// AUTHORIZE is answered as by the model.
#[tactic(none)]
pub fn an_authorization_follows_the_model()
    ensures { AuthorizeAgrees }
{}

/// EXIT, and AUTHORIZE that nothing asked for, end a session as the model says.
#[tactic(none)]
pub fn an_end_follows_the_model()
    /// So for what ends a session.
    /// Carried by: `an_end_follows_the_model`, `another_request_follows_the_model`, `a_release_follows_the_model`
    ensures { EndsAgree }
{}

/// So does any other request while AUTHORIZE is awaited.
#[tactic(none)]
pub fn another_request_follows_the_model()
    ensures { OthersEnd }
{}
