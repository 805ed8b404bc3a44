ghost use Rattle.std.specs.Prelude.{◌≡◌, ◌≢◌, ◌<◌, ◌≤◌, ◌*◌, ◌||◌, ◌++◌, None, Some, true, ◌^◌, ℕ, List, [], ◌∷◌, length, map, slice_index};
ghost use Rattle.netpbm.specs.Picture.{Picture};
ghost use Rattle.netpbm.specs.Pnm.{IsWhole};
ghost use Rattle.netpbm.specs.NoFile.{HoldsNoFile};
ghost use Rattle.netpbm.specs.FileText.{header_text, row_text, concat_up_to};
ghost use Rattle.page_picture.specs.Shows.{Frame, ShowsAlone, ShowsColors, ShowsFrames, frame_sample, channels_within};
ghost use Rattle.frame_join.specs.AloneFrame.{is_alone, lines_in, row_bytes};
ghost use Rattle.frame_join.specs.ColorPlanes.{planes_of};
ghost use Rattle.frame_join.specs.FrameFile.{header_alone, file_front, file_of, frame_height};
ghost use Rattle.frame_join.specs.FrameHistory.{JoinHistory, IsJoined, is_accepted, is_full};
ghost use Rattle.frame_join.specs.JoinStages.{is_keeping, is_between, is_colors};
ghost use Rattle.frame_join.specs.Pixels.{is_kept, pixels_of};
ghost use Rattle.frame_join.specs.JoinStates.{JoinState, Represents};
ghost use Rattle.frame_join.specs.Laws.{MostIsOfPixels, PlanesAreOfPixels, ShownColorsAreAccepted, WholeFileIsOfOneFrame, FrameFileIsTheWritersText};

/// Unless the picture is whole and all of its file was given, no front of what was given in all is a whole text.
pub fn not_whole_before()
    ensures { (past : JoinHistory) (join : JoinState) → Represents past join
        → (IsJoined past → IsWhole past.given → ⊥) → HoldsNoFile past.given }
{}

/// Where no fault stands, a proper front of what was given in all holds no whole text.
pub fn no_front_is_whole()
    /// No proper front of what went out is a whole text.
    ensures { (past : JoinHistory) (join : JoinState) (front more : List ℕ) → Represents past join
        → past.fault ≡ None → past.given ≡ front ++ more → more ≢ [] → HoldsNoFile front }
{}

/// Where no fault stands, what was given in all is less than 2^40 bytes.
pub fn no_file_is_endless()
    /// Less than 2^40 bytes go out in all.
    ensures { (past : JoinHistory) (join : JoinState)
        → Represents past join → past.fault ≡ None → length past.given < 2 ^ 40 }
{}

pub fn only_pixels_are_kept()
    /// A join holds only the bytes that show pixels of frames that are kept. It holds at most what that many rows have of the
    /// frame under way, however long its lines are told to be.
    /// Carried by: `coming`, `most`, `colors`, `size` of `only_pixels_are_kept`
    ensures coming { (past : JoinHistory) (join : JoinState) (f : Frame)
        → Represents past join → is_keeping join.pixels.stage ≡ true
        → past.under ≡ Some f → join.pixels.held ≡ (pixels_of f).payload }
    ensures most { MostIsOfPixels }
    ensures colors { PlanesAreOfPixels }
    ensures size { (f : Frame) → is_kept f.params ≡ true
        → is_full f ≡ true → length (pixels_of f).payload ≡ frame_height f * row_bytes f.params }
{}

pub fn whole_shows()
    /// A whole picture's frames show one, and frames that show a picture are accepted.
    /// Carried by: `whole_shows`, `shown_frame_is_accepted`, `shown_colors_are_accepted`
    ensures { (past : JoinHistory) (join : JoinState)
        → Represents past join → IsJoined past → (p : Picture) × ShowsFrames past.ended p }
{}

/// A frame that shows a picture alone is accepted as the first.
pub fn shown_frame_is_accepted()
    ensures { (frame : Frame) (p : Picture)
        → ShowsAlone frame p → is_accepted [] frame.params frame.order ≡ true }
{}

/// Of three frames that show a picture each is accepted after those before it.
pub fn shown_colors_are_accepted()
    ensures { ShownColorsAreAccepted }
{}

/// The file of a whole picture is that of one frame of known height; the three frames of one color each make a frame
/// that has the colors side by side.
pub fn whole_file_is_of_one_frame()
    /// The file of a whole picture is that of one frame of known height, and the header and rows that such a frame
    /// gives are those of the writer's text.
    /// Carried by: `whole_file_is_of_one_frame`, `frame_file_is_the_writers_text`
    ensures { WholeFileIsOfOneFrame }
{}

/// The header and the first rows that a frame gives for its file are those of the writer's text for its picture: the comment is
/// the second line, and the bits past a row's end are 0.
pub fn frame_file_is_the_writers_text()
    ensures { FrameFileIsTheWritersText }
{}
