ghost use Rattle.std.specs.Prelude.{◌≡◌, ℕ, List, [], ◌++◌};
ghost use Rattle.netpbm.specs.declared.format.Header.{Header};
ghost use Rattle.netpbm.specs.Picture.{Picture, SamePicture};
ghost use Rattle.netpbm.specs.Pnm.{Denotes, IsWhole};
ghost use Rattle.netpbm.specs.NoFile.{HoldsNoFile};
ghost use Rattle.netpbm.specs.FileText.{file_text, Suits};

pub fn one_picture()
    /// A text denotes at most one picture.
    ensures { (text : List ℕ) (p q : Picture) → Denotes text p → Denotes text q → SamePicture p q }
{}

pub fn no_whole_prefix()
    /// No proper prefix of a whole text is whole.
    ensures { (front more : List ℕ) → IsWhole front → IsWhole (front ++ more) → more ≡ [] }
{}

/// Bytes in front of which a whole text stands hold one, whatever follows.
pub fn a_file_and_more_holds_one()
    /// A whole file with more bytes behind it still holds a file.
    ensures { (text more : List ℕ) → IsWhole text → HoldsNoFile (text ++ more) → ⊥ }
{}

/// The text that a writer gives for a picture under a header that suits it denotes the picture.
pub fn file_text_denotes()
    /// The writer's text of a picture denotes it.
    ensures { (h : Header) (p : Picture) → Suits h p → Denotes (file_text h p.at) p }
{}
