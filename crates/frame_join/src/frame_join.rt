ghost use Rattle.std.specs.Prelude.{◌≡◌, ◌≢◌, ◌&&◌, [], ◌≤◌, ◌+◌, ◌-◌, ◌*◌, ◌^◌, ◌↔◌, Ok, not, true, None, length};
ghost use Rattle.netpbm.specs.Picture.{Picture};
ghost use Rattle.netpbm.specs.Pnm.{IsWhole};
ghost use Rattle.frame_join.specs.PictureText.{IsPictureFile};
ghost use Rattle.page_picture.specs.Shows.{Frame, ShowsFrames};
ghost use Rattle.frame_join.specs.FrameFile.{file_of};
ghost use Rattle.frame_join.specs.FrameHistory.{JoinHistory, empty_history, after_begin, after_feed, after_end, answer_of_end, history_frames, is_full_at, IsJoined};
ghost use Rattle.frame_join.specs.AloneFrame.{most_lines};
ghost use Rattle.frame_join.specs.JoinStages.{is_keeping};
ghost use Rattle.frame_join.specs.JoinStates.{Represents, is_out_of_memory, IsDrained};

use crate::alone_frame::most_lines;
use crate::join_stage::JoinFault;
use crate::kept_frame::{is_full, is_kept, pixel_params};
use crate::pixel_join::PixelJoin;
use sane_fixed::{ByteOrder, Params};
use std::alloc::Global;
use std::marker::Model;

/// Joins the frames of a picture (SANE Standard 1.06, "sane_read") to its Netpbm file. The rows of one frame of known
/// height go straight through: of it a line is kept, and the bytes that came after it. Of a frame of unknown height, and of
/// three frames of a color each, the bytes that show pixels are kept until the picture is whole.
#[derive(Drop)]
pub struct FrameJoin {
    pub(crate) pixels: PixelJoin,
    // Of the frame that is kept: the bytes of a line, and how many bytes came.
    line: usize,
    came: usize,
}

impl Model for FrameJoin {
    ghost use Rattle.frame_join.specs.JoinStates.{JoinState};

    ghost Value = { JoinState };

    ghost use Rattle.frame_join.specs.JoinInside.{join_view, JoinInvariant};

    ghost view = { join_view };

    ghost invariant = { JoinInvariant };
}

impl FrameJoin {
    /// A join to which nothing came.
    pub fn new(alloc: Global) -> FrameJoin
        ensures { Represents empty_history result }
    {
        FrameJoin {
            pixels: PixelJoin::new(alloc),
            line: 1,
            came: 0,
        }
    }

    /// A frame begins. The fault `Shape` comes to stand inside a frame, and for a frame that does not fit. A frame fits if it is
    /// one of gray or of red, green and blue with `last_frame`, or one of three of red, green and blue once each in any order,
    /// the third alone with `last_frame`, of one width, height, depth and byte order. Its depth is 8 or 16 (in gray also 1). Its
    /// lines have 1 to 65,536 pixels, and room for these in at most 1,048,576 bytes. It has 1 to 65,536 lines, or, if it is
    /// alone, an unknown number. `NoMem` comes to stand if a growth is refused. After the whole picture, and after a fault, it
    /// changes nothing.
    ///
    /// The first frame reserves room for the header, and for one line and 4,096 bytes where its rows go straight
    /// through.
    pub fn begin(&mut self, alloc: Global, params: &Params, order: ByteOrder)
        // Whatever was told before, the join stands for that and the frame.
        /// A join takes these frames, in any pieces: one GRAY or RGB frame, of known height or not, or a RED, a GREEN and a BLUE
        /// frame in any order. It refuses every other shape.
        /// Carried by: `begin`, `feed`, `fault` of `FrameJoin`
        ensures carried { (past : JoinHistory) → Represents past self.old
            → Represents (after_begin params.now order (is_out_of_memory self.new) past) self.new }
        /// Only the first frame, and bytes that come, take memory.
        /// Carried by: `later` of `begin`, `nothing` of `feed`
        ensures later { (past : JoinHistory) → Represents past self.old
            → past.ended ≢ [] → is_out_of_memory self.new ≡ is_out_of_memory self.old }
    {
        self.pixels.begin(alloc, &pixel_params(params), order);
        if is_kept(params) {
            self.line = params.bytes_per_line as usize;
            self.came = 0;
        }
    }

    /// How many bytes of the frame that is kept may still come.
    fn room(&self) -> usize
        ensures most { result
            ≡ most_lines self.now.pixels.params.lines * self.now.line - self.now.came }
        ensures small { result + self.now.came ≤ 2 ^ 52 }
    {
        let lines = most_lines(self.pixels.params().lines);
        (lines as usize * self.line).saturating_sub(self.came)
    }

    /// Keeps those of the bytes that show pixels.
    fn keep(&mut self, bytes: &[u8])
        requires keeping { is_keeping self.old.pixels.stage ≡ true }
        requires room { length bytes.now
            ≤ most_lines self.old.pixels.params.lines * self.old.line - self.old.came }
        requires small { length bytes.now + self.old.came ≤ 2 ^ 52 }
        ensures carried { (past : JoinHistory) → Represents past self.old
            → Represents (after_feed bytes.now (is_out_of_memory self.new) past) self.new }
        ensures nothing { length bytes.now ≡ 0
            → is_out_of_memory self.new ≡ is_out_of_memory self.old }
    {
        let size = self.pixels.params().bytes_per_line as usize;
        let mut at = 0;
        while at < bytes.len() {
            let place = (self.came + at) % self.line;
            if place < size {
                let end = bytes.len().min(at + (size - place));
                self.pixels.feed(&bytes[at..end]);
                at = end;
            } else {
                at = bytes.len().min(at + (self.line - place));
            }
        }
        self.came += bytes.len();
    }

    /// Bytes of the frame come. A fault comes to stand: `Long` where they are more than the frame has, or than 65,536
    /// lines have where its lines are not known; `NoMem` where a growth is refused. Outside a frame, and after a fault,
    /// it changes nothing.
    pub fn feed(&mut self, bytes: &[u8])
        ensures carried { (past : JoinHistory) → Represents past self.old
            → Represents (after_feed bytes.now (is_out_of_memory self.new) past) self.new }
        // If a pull gave nothing before and no frame is kept, a piece of at most 4,096 bytes takes no memory.
        ensures room { IsDrained self.old
            → length bytes.now ≤ 4096 → is_out_of_memory self.new ≡ is_out_of_memory self.old }
        // No bytes take none.
        ensures nothing { length bytes.now ≡ 0
            → is_out_of_memory self.new ≡ is_out_of_memory self.old }
    {
        if !self.pixels.is_keeping() {
            self.pixels.feed(bytes);
        } else if self.room() < bytes.len() {
            self.pixels.fail(JoinFault::Long);
        } else {
            self.keep(bytes);
        }
    }

    /// Whether all bytes of the frame that is kept have come.
    fn has_all(&self) -> bool
        ensures { result ≡ is_full_at self.now.pixels.params.lines self.now.line self.now.came }
    {
        let params = Params {
            bytes_per_line: self.line as u32,
            ..self.pixels.params()
        };
        is_full(&params, self.came)
    }

    /// Whether a frame is under way that is kept, and bytes of it have not come.
    fn lacks_bytes(&self) -> bool
        ensures { result ≡ (is_keeping self.now.pixels.stage && not
            (is_full_at self.now.pixels.params.lines self.now.line self.now.came)) }
    {
        self.pixels.is_keeping() && !self.has_all()
    }

    /// The frame ends. Says whether the picture is whole, or which fault stands; `Short` comes to stand where the frame
    /// has fewer bytes than was told, or, where its lines are not known, no line or a part of one. Outside a frame, and
    /// after a fault, it changes nothing. It takes no memory.
    pub fn end(&mut self) -> Result<bool, JoinFault>
        // The join goes on from what was told before, and answers what the end of the frame comes to.
        ensures carried { (past : JoinHistory)
            → Represents past self.old → Represents (after_end past) self.new }
        ensures answer { (past : JoinHistory)
            → Represents past self.old → result ≡ answer_of_end (after_end past) }
        /// `end` is true exactly where no fault stands and the frames show a picture.
        ensures exact { (past : JoinHistory) → Represents past self.old → (result ≡ Ok true)
            ↔ ((past.fault ≡ None) × ((p : Picture) × ShowsFrames (history_frames past) p)) }
    {
        if self.lacks_bytes() {
            self.pixels.fail(JoinFault::Short);
            return Err(JoinFault::Short);
        }
        self.pixels.end()
    }

    /// Whether the picture is whole and its file has gone to the last byte.
    pub fn has_given_all(&self) -> bool
        ensures exact { (past : JoinHistory) → Represents past self.now
            → (result ≡ true) ↔ (IsJoined past × (past.given ≡ file_of past.ended)) }
        // That is exactly where what was given in all is a whole file, and it is that of the picture that the frames show.
        ensures whole { (past : JoinHistory)
            → Represents past self.now → (result ≡ true) ↔ IsWhole past.given }
        ensures denotes { (past : JoinHistory) → Represents past self.now → result ≡ true
            → (p : Picture) → ShowsFrames past.ended p → IsPictureFile past.given p }
    {
        self.pixels.has_given_all()
    }

    /// The fault that stands: the first that came to stand since the join was made.
    pub fn fault(&self) -> Option<JoinFault>
        /// `fault` tells the first fault.
        ensures { (past : JoinHistory) → Represents past self.now → result ≡ past.fault }
    {
        self.pixels.fault()
    }
}
