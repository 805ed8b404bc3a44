ghost use Rattle.std.specs.Prelude.{◌≡◌};
ghost use Rattle.scanimage_cli.specs.WordCut.{geometry_named};

/// The window as scanimage(1) measures it: its origin, and its extent from there, in mm.
#[derive(Clone, Copy, Debug, PartialEq, Eq)]
pub enum Geometry {
    Left,
    Top,
    Width,
    Height,
}

/// The measure that a word names: `-l`, `-t`, `-x` or `-y`.
pub fn geometry_named(word: &[u8]) -> Option<Geometry>
    ensures { result ≡ geometry_named word.now }
{
    if word == b"-l".as_slice() {
        Some(Geometry::Left)
    } else if word == b"-t".as_slice() {
        Some(Geometry::Top)
    } else if word == b"-x".as_slice() {
        Some(Geometry::Width)
    } else if word == b"-y".as_slice() {
        Some(Geometry::Height)
    } else {
        None
    }
}
