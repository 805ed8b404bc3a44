ghost use Rattle.std.specs.Borrow.{ftrue};
ghost use Rattle.std.specs.Prelude.{List};
ghost use Rattle.config_pages.specs.InputTexts.{InputCall};

use std::marker::Model;

/// A text that was read: of the file of a path, or of standard input; and what came, where it did not fail.
#[derive(Drop)]
pub struct TextNote<'a> {
    pub path: Option<&'a [u8]>,
    pub most: u64,
    pub gave: Option<&'a [u8]>,
}

/// A page file that was asked for.
#[derive(Drop)]
pub struct PageNote<'a> {
    pub path: &'a [u8],
    pub is_open: bool,
}

/// The calls on inputs, in their order.
#[derive(Drop)]
pub struct InputNotes {
    pub ghost calls: { List InputCall },
}

impl Model for InputNotes {
    ghost also_owns = { λ _. ftrue };
}

impl InputNotes {
    ghost use Rattle.std.specs.Prelude.{◌≡◌, [], ◌∷◌, ◌++◌};
    ghost use Rattle.config_pages.specs.Noted.{text_noted, page_noted};

    /// None was made yet.
    pub(crate) fn none() -> InputNotes
        ensures { result.calls ≡ [] }
    {
        InputNotes {}
    }

    /// This text was read.
    pub(crate) fn note_text(&mut self, _note: &TextNote<'_>)
        ensures { self.new.calls ≡ self.old.calls ++ text_noted _note.now ∷ [] }
    {}

    /// This page file was asked for.
    pub(crate) fn note_page(&mut self, _note: &PageNote<'_>)
        ensures { self.new.calls ≡ self.old.calls ++ page_noted _note.now ∷ [] }
    {}
}
