ghost use Rattle.std.specs.Prelude.{◌≡◌, List, [], ◌∷◌, length, take};
ghost use Rattle.std.specs.Borrow.{ftrue};
ghost use Rattle.saned_serve.specs.ConnectionTraces.{ConnectionCall, bytes_moved};
ghost use Rattle.saned_serve.specs.ConnectionTraces.ConnectionCall.{Read, Write};

use saned_serve::Got;
use std::marker::Model;

/// All calls of a connection, the newest first.
#[derive(Drop)]
pub struct MadeCalls {
    pub ghost calls: { List ConnectionCall },
}

impl Model for MadeCalls {
    ghost also_owns = { λ _. ftrue };
}

impl MadeCalls {
    /// There was none yet.
    pub(crate) fn none() -> MadeCalls
        ensures { result.calls ≡ [] }
    {
        MadeCalls {}
    }

    /// A read into such a buffer came to this.
    pub(crate) fn note_read(&mut self, _got: &Got, _buf: &[u8])
        ensures { self.new.calls ≡ Read _got.now
            (length _buf.now) (take (bytes_moved _got.now) _buf.now) ∷ self.old.calls }
    {}

    /// A write of these bytes came to this.
    pub(crate) fn note_write(&mut self, _got: &Got, _bytes: &[u8])
        ensures { self.new.calls ≡ Write _got.now _bytes.now ∷ self.old.calls }
    {}
}
