ghost use Rattle.client_refines.specs.PieceRefinement.{PiecesAreHeardAlike};
ghost use Rattle.client_refines.specs.Replies.{RepliesAreHeardAlike};
ghost use Rattle.client_refines.specs.RequestRefinement.{RequestsAreAlike};

/// What a reply makes of a client is what its decoded reply makes of the reading.
pub fn replies_are_heard_alike()
    /// It makes of each reply what the model makes of its decoded reply, also of replies that no daemon sends.
    /// Carried by: `replies_are_heard_alike`, `pieces_are_heard_alike`
    ensures { RepliesAreHeardAlike }
{}

/// Both ask for the same, and say goodbye alike.
pub fn requests_are_alike()
    /// Both ask for the same: what it sends in a call are the spellings of the requests that the model asks for in
    /// the same hearings, one for one.
    ensures { RequestsAreAlike }
{}

/// The replies of a piece are heard one after another, as the client's contract tells them.
pub fn pieces_are_heard_alike()
    ensures { PiecesAreHeardAlike }
{}
