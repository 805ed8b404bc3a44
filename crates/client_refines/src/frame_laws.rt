ghost use Rattle.client_refines.specs.PieceRefinement.{PagesAreTakenAlike, PiecesAreReceivedAlike};
ghost use Rattle.client_refines.specs.FrameRefinement.{BytesAreReadAlike, FramesEndAlike, PagesTurnUnseen};

pub fn bytes_are_read_alike()
    /// Bytes and the end of a frame are taken alike.
    /// Carried by: `bytes_are_read_alike`, `frames_end_alike`, `pieces_are_received_alike`
    ensures { BytesAreReadAlike }
{}

/// The end record of a frame leads to the same.
pub fn frames_end_alike()
    ensures { FramesEndAlike }
{}

/// A client that turns to the next page of a batch is read as before.
pub fn pages_turn_unseen()
    /// The START of a batch's further page goes out with the last byte of the page's file; the reading stays as it
    /// is.
    /// Carried by: `pages_turn_unseen`, `pages_are_taken_alike`
    ensures { PagesTurnUnseen }
{}

/// What a piece of a data connection makes of a client, as its contract tells it, is what bytes, an end or out of memory make of
/// the reading.
pub fn pieces_are_received_alike()
    ensures { PiecesAreReceivedAlike }
{}

/// What `take_file` makes of a client of a batch, as its contract tells it, leaves the reading as it is, and sends the START that the
/// model has asked for.
pub fn pages_are_taken_alike()
    ensures { PagesAreTakenAlike }
{}
