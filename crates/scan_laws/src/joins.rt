ghost use Rattle.std.specs.Prelude.{◌≡◌, ◌≤◌, ◌++◌, ◌∷◌, ℕ, Bool, List, [], None, Some, Ok, true, false, slice_index};
ghost use Rattle.netpbm.specs.Picture.{Picture, SamePicture};
ghost use Rattle.netpbm.specs.Pnm.{Denotes};
ghost use Rattle.page_picture.specs.Page.{PageView, IsShaped, IsPageView};
ghost use Rattle.page_picture.specs.Meaning.{meaning_of};
ghost use Rattle.page_picture.specs.Shows.{Frame, ShowsFrames};
ghost use Rattle.scan_frames.specs.Frames.{IsSetup, frames_of, has_picture};
ghost use Rattle.scan_frames.specs.declared.setup.Setup.{Setup};
ghost use Rattle.device_api.specs.ScannerLimits.{HasLimits, IsAllowed};
ghost use Rattle.device_api.specs.State.{DeviceState, Starts, is_at_rest, steady_of};
ghost use Rattle.scan_laws.specs.ScanRuns.{ShowsOne};
ghost use Rattle.frame_join.specs.FrameFile.{AllGone};
ghost use Rattle.frame_join.specs.FrameHistory.{JoinHistory, after_begin, after_end, after_feed, with_fault};
ghost use Rattle.frame_join.specs.declared.join_stage.JoinFault.TheVariants.{Short};
ghost use Rattle.frame_join.specs.JoinStates.{JoinState, Represents};
ghost use Rattle.scan_laws.specs.Joins.{IsOpenJoin, JoinTakes, TakesAll, with_frame_begun, with_bytes};
ghost use Rattle.scan_laws.specs.Weights.{greatest_weight, weight};
ghost use Rattle.scan_laws.specs.Laws.{FrameBegins, FrameGoesOn, FrameEnds, FramesShowTheMeaning, FileDenotesTheMeaning};

pub fn a_join_takes_the_frames_of_a_scan()
    /// A join takes the frames of a scan one after another, to the whole picture.
    ensures { (setup : Setup) (page : PageView) → IsAllowed setup
        → IsShaped page → has_picture setup page ≡ true → TakesAll [] (frames_of setup page) }
{}

/// A join goes through a frame that it takes: it begins, its bytes come in whatever pieces, and it ends; and an end before
/// its first byte is short.
pub fn a_join_goes_through_a_frame()
    /// It goes through each frame in whatever pieces; an end before its first byte is short.
    ensures begin { FrameBegins }
    ensures feed { FrameGoesOn }
    ensures end { FrameEnds }
    ensures short { (ended more : List Frame) (f : Frame) (past : JoinHistory)
        → JoinTakes ended f more
        → IsOpenJoin ended (Some (with_bytes f [])) past → after_end past ≡ with_fault Short past }
{}

/// No scan gives more bytes than the greatest of a flatbed: its whole bed in color at depth 16, with 64 lost pixels a line.
pub fn no_scan_is_longer()
    /// No scan has more than 539,216,256 bytes.
    ensures { (setup : Setup) (page : PageView) → IsAllowed setup
        → has_picture setup page ≡ true → weight (frames_of setup page) ≤ greatest_weight }
{}

pub fn frames_join_to_the_meaning()
    /// The frames of a scan, joined, are the picture that its scene means on its page, and their file denotes it.
    ensures there { (setup : Setup) (page : PageView)
        → has_picture setup page ≡ false → meaning_of page setup.scene ≡ None }
    ensures shows { FramesShowTheMeaning }
    ensures file { FileDenotesTheMeaning }
{}

/// A scan in one sentence: from a start at rest that succeeds, whatever is called until the scanner rests again, the scan shows
/// the picture that the scene of that start means on the page of that start. In each pass what is told is of its frame, and what
/// reads gave of it is a front of its bytes. The end comes behind the last of them, or, if the options tell of it, in place of
/// the first.
pub fn a_scan_shows_its_first_picture()
    /// From a start at rest until the scanner rests again, whatever is called, the scan shows the picture of that
    /// start.
    ensures { (first begun : DeviceState) → HasLimits first → steady_of first ≡ true
        → is_at_rest first.phase ≡ true → Starts first (Ok tt) begun → ShowsOne first begun }
{}
