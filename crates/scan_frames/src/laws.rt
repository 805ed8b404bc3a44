ghost use Rattle.std.specs.Prelude.{◌≡◌, ◌+◌, ◌<◌, ◌≤◌, ◌^◌, ℕ, [], Some, true, length, slice_get, slice_index};
ghost use Rattle.page_picture.specs.Page.{PageView, IsPageView};
ghost use Rattle.page_picture.specs.Meaning.{picture_of};
ghost use Rattle.page_picture.specs.Shows.{ShowsFrames};
ghost use Rattle.scan_frames.specs.Frames.{IsSetup, frame_of, frames_of, has_picture, height_of, last_pass, width_of};
ghost use Rattle.scan_frames.specs.Filler.{EndsInZeros};
ghost use Rattle.scan_frames.specs.declared.setup.Setup.{Setup as SetupValue};
ghost use Rattle.scan_frames.specs.Laws.{FramesShowThePicture};

pub fn frames_show_the_picture()
    /// The frames of a scan show the picture that the options mean on the page: one frame all its channels, three
    /// frames a channel each, in each of the six orders.
    ensures { FramesShowThePicture }
{}

/// The frames of a scan are those of its passes, from 0 to the last, in their order. So what is told of a pass, and what is read
/// in it, is of the frame in that place.
pub fn a_frame_for_each_pass()
    /// The frames are those of the passes, in their order.
    ensures count { (setup : SetupValue) (page : PageView)
        → length (frames_of setup page) ≡ last_pass setup + 1 }
    ensures each { (setup : SetupValue) (page : PageView) (pass : ℕ) → pass ≤ last_pass setup →
        slice_get (frames_of setup page) pass ≡ Some (frame_of setup page pass) }
{}

pub fn lines_end_in_zeros()
    /// All that follows the pixels of a line is zero.
    ensures { (setup : SetupValue) (page : PageView) (pass : ℕ)
        → IsSetup setup → EndsInZeros setup page pass }
{}

pub fn gamma_entries_are_bytes(table: &[u8])
    /// Entries of a gamma table are bytes, as `frames_show_the_picture` wants them.
    ensures { (i : ℕ) → slice_index table.now i < 2 ^ 8 }
{}
