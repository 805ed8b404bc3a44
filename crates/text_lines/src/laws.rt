ghost use Rattle.std.specs.Prelude.{◌≡◌, ℕ, List};
ghost use Rattle.text_lines.specs.Lines.{AreLines, lines_of};

pub fn lines_are_cut()
    /// A text is cut into lines in exactly one way.
    ensures cut { (text : List ℕ) → AreLines (lines_of text) text }
    ensures one_way { (text : List ℕ) (cut : List (List ℕ))
        → AreLines cut text → cut ≡ lines_of text }
{}
