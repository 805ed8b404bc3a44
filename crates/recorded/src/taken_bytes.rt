ghost use Rattle.std.specs.Prelude.{◌≡◌, ℕ, List, [], ◌++◌};
ghost use Rattle.std.specs.Borrow.{ftrue};
ghost use Rattle.recorded.specs.Names.{named_behind};

use std::marker::Model;

/// What an output took: the bytes, and where files were named their names, and in front how many.
#[derive(Drop)]
pub struct TakenBytes {
    pub ghost text: { List ℕ },
}

impl Model for TakenBytes {
    ghost also_owns = { λ _. ftrue };
}

impl TakenBytes {
    /// Nothing was taken yet.
    pub(crate) fn none() -> TakenBytes
        ensures { result.text ≡ [] }
    {
        TakenBytes {}
    }

    /// These bytes were taken.
    pub(crate) fn note(&mut self, _bytes: &[u8])
        ensures { self.new.text ≡ self.old.text ++ _bytes.now }
    {}

    /// The file of that name was named.
    pub(crate) fn note_name(&mut self, _name: &[u8])
        ensures { self.new.text ≡ named_behind self.old.text _name.now }
    {}
}
