ghost use Rattle.std.specs.Prelude.{◌≡◌, ◌≢◌, [], ◌≤◌, ◌<◌, ◌+◌, ◌++◌, ◌-◌, ◌*◌, ◌||◌, ◌↔◌, ◌⊎◌, Ok, IfOk, true, false, None, Some, ℕ, length, slice_index, take, drop, vec_len, vec_capacity};
ghost use Rattle.netpbm.specs.Picture.{Picture};
ghost use Rattle.netpbm.specs.Pnm.{IsWhole};
ghost use Rattle.frame_join.specs.PictureText.{IsPictureFile};
ghost use Rattle.page_picture.specs.Shows.{ShowsFrames};
ghost use Rattle.frame_join.specs.AloneFrame.{AloneParts, ShapeParts, most_lines, row_bytes};
ghost use Rattle.frame_join.specs.KeptFrame.{is_unknown, is_open_ended, is_pass};
ghost use Rattle.frame_join.specs.FrameFile.{AllGone, GoesThrough, file_of};
ghost use Rattle.frame_join.specs.FrameHistory.{JoinHistory, empty_history, after_begin, after_feed, after_end, after_pull, answer_of_end, history_frames, IsJoined};
ghost use Rattle.frame_join.specs.declared.join_stage.Stage.TheVariants.{Idle, Under, Keeping, Between, Failed};
ghost use Rattle.frame_join.specs.JoinStages.{is_under, is_keeping, is_colors};
ghost use Rattle.frame_join.specs.PixelJoinStates.{PixelRepresents, is_pixel_out_of_memory, IsPixelDrained};
ghost use Rattle.frame_join.specs.declared.join_stage.JoinFault.{JoinFault};
ghost use Rattle.frame_join.specs.Inside.{can_give, is_ready, sample_at, may_go, after_samples, value_fed, under_ended, kept_ended, color_ended, value_ended, first_begun, next_begun, value_begun, accepts_next, answer_at, new_pixel_join, new_keeping_join};

use crate::alone_frame::{
    header_alone, is_alone, lines_in, most_lines, put_trimmed, put_turned, row_size,
};
use crate::header_writing::{HEADER_ROOM, put_header};
use crate::join_stage::{JoinFault, Stage};
use crate::kept_frame::{
    all_colors, is_alike, is_full, is_open_ended, is_pass_that, is_unknown, with_known_height,
};
use crate::planes::Planes;
use sane_fixed::{ByteOrder, FrameFormat, Params};
use std::alloc::{AllocError, Global};
use std::marker::Model;

/// Joins the frames of a picture to its Netpbm file. The rows of one frame of known height go straight through: of it a line
/// is kept, and the bytes that came after it. A frame of unknown height, and three frames of a color each, are kept until
/// the picture is whole, with all that came.
#[derive(Drop)]
pub struct PixelJoin {
    stage: Stage,
    params: Params,
    order: ByteOrder,
    // The header of the file, and how much of it has gone.
    head: Vec<u8>,
    headed: usize,
    // The next byte of the raster.
    row: u32,
    column: usize,
    // The lines from `row` on stand in `held` from `start` on; what stands before has gone.
    held: Vec<u8>,
    start: usize,
    // The colors that ended.
    planes: Planes,
}

impl Model for PixelJoin {
    ghost use Rattle.frame_join.specs.PixelJoinStates.{PixelJoinState};

    ghost Value = { PixelJoinState };

    ghost use Rattle.frame_join.specs.PixelInside.{pixel_view, PixelInvariant};

    ghost view = { pixel_view };

    ghost invariant = { PixelInvariant };
}

impl PixelJoin {
    /// A join to which nothing came.
    pub fn new(alloc: Global) -> PixelJoin
        ensures { PixelRepresents empty_history result }
    {
        PixelJoin {
            stage: Stage::Idle,
            params: Params {
                format: FrameFormat::Gray,
                last_frame: true,
                bytes_per_line: 1,
                pixels_per_line: 1,
                lines: Some(1),
                depth: 8,
            },
            order: ByteOrder::Little,
            head: Vec::new(alloc),
            headed: 0,
            row: 0,
            column: 0,
            held: Vec::new(alloc),
            start: 0,
            planes: Planes::new(alloc),
        }
    }

    /// Whether a row may go out: its line is held, and it is not the last of a picture that is not whole.
    fn is_ready(&self) -> bool
        ensures { result ≡ is_ready self.now }
    {
        let lines = lines_in(self.params.lines);
        let held = self.params.bytes_per_line as usize <= self.held.len() - self.start;
        self.row < lines
            && match self.stage {
                Stage::WholeColors => true,
                Stage::Whole => held,
                _ => held && self.row + 1 < lines,
            }
    }

    /// Whether a frame is under way that is kept.
    pub fn is_keeping(&self) -> bool
        ensures { result ≡ is_keeping self.now.stage }
    {
        match self.stage {
            Stage::Keeping => true,
            Stage::Idle
            | Stage::Under
            | Stage::Between
            | Stage::Whole
            | Stage::WholeColors
            | Stage::Failed(_) => false,
        }
    }

    /// What was told of the frame.
    pub fn params(&self) -> Params
        ensures { result ≡ self.now.params }
    {
        self.params
    }

    /// The fault comes to stand.
    pub fn fail(&mut self, fault: JoinFault)
        ensures { self.new ≡ record self.old { stage = Failed fault } }
    {
        self.stage = Stage::Failed(fault);
    }

    /// Whether bytes may go out at all.
    fn can_give(&self) -> bool
        ensures { result ≡ can_give self.now.stage }
    {
        match self.stage {
            Stage::Under | Stage::Whole | Stage::WholeColors => true,
            Stage::Idle | Stage::Keeping | Stage::Between | Stage::Failed(_) => false,
        }
    }

    /// Whether the picture is whole, of three frames.
    fn has_colors(&self) -> bool
        ensures { result ≡ is_colors self.now.stage }
    {
        match self.stage {
            Stage::WholeColors => true,
            Stage::Idle
            | Stage::Under
            | Stage::Keeping
            | Stage::Between
            | Stage::Whole
            | Stage::Failed(_) => false,
        }
    }

    /// Whether a row goes out as its line stands.
    fn is_straight(&self) -> bool
        ensures plain { result ≡ true → is_colors self.now.stage ≡ false }
        ensures same { result ≡ true
            → (column : ℕ) → sample_at self.now column ≡ slice_index self.now.held column }
        ensures other { result ≡ false → is_colors self.now.stage ≡ false →
            (self.now.params.depth ≡ 1)
            ⊎ ((self.now.params.depth ≡ 16) × (self.now.order ≡ ByteOrder.Little)) }
    {
        if self.has_colors() || self.params.depth == 1 {
            return false;
        }
        match self.order {
            ByteOrder::Big => true,
            ByteOrder::Little => self.params.depth != 16,
        }
    }

    /// Writes bytes of the row, which may go out, to `buf` between `at` and `end`.
    fn write_row(&self, buf: &mut [u8], at: usize, end: usize)
        requires moves { can_give self.now.stage ≡ true }
        requires head { length self.now.head ≤ self.now.headed }
        requires ready { is_ready self.now ≡ true }
        requires order { at ≤ end }
        requires room { end ≤ length buf.old }
        requires row { self.now.column + (end - at) ≤ row_bytes self.now.params }
        ensures size { length buf.new ≡ length buf.old }
        ensures rest { drop end buf.new ≡ drop end buf.old }
        ensures carried { (past : JoinHistory)
            → PixelRepresents (after_pull (take at buf.old) past) self.now
            → PixelRepresents (after_pull (take end buf.new) past)
            (after_samples (end - at) self.now) }
    {
        if self.is_straight() {
            return self.copy_row(buf, at, end);
        }
        match (self.has_colors(), self.params.depth) {
            (true, 8) => self.weave_row(buf, at, end),
            (true, _) => self.weave_words(buf, at, end),
            (false, 1) => self.trim_row(buf, at, end),
            (false, _) => self.turn_row(buf, at, end),
        }
    }

    /// The lines that are held.
    fn lines(&self) -> &[u8]
        ensures { result.now ≡ self.now.held }
    {
        &self.held[self.start..]
    }

    /// Writes bytes of the row, which stand in its line as they go out.
    fn copy_row(&self, buf: &mut [u8], at: usize, end: usize)
        requires moves { can_give self.now.stage ≡ true }
        requires head { length self.now.head ≤ self.now.headed }
        requires ready { is_ready self.now ≡ true }
        requires plain { is_colors self.now.stage ≡ false }
        requires straight { (column : ℕ)
            → sample_at self.now column ≡ slice_index self.now.held column }
        requires order { at ≤ end }
        requires room { end ≤ length buf.old }
        requires row { self.now.column + (end - at) ≤ row_bytes self.now.params }
        ensures size { length buf.new ≡ length buf.old }
        ensures rest { drop end buf.new ≡ drop end buf.old }
        ensures carried { (past : JoinHistory)
            → PixelRepresents (after_pull (take at buf.old) past) self.now
            → PixelRepresents (after_pull (take end buf.new) past)
            (after_samples (end - at) self.now) }
    {
        let (lines, column) = (self.lines(), self.column);
        for i in at..end {
            buf[i] = lines[column + (i - at)];
        }
    }

    /// Writes bytes of the row of three colors of a byte each.
    fn weave_row(&self, buf: &mut [u8], at: usize, end: usize)
        requires moves { can_give self.now.stage ≡ true }
        requires head { length self.now.head ≤ self.now.headed }
        requires ready { is_ready self.now ≡ true }
        requires colors { is_colors self.now.stage ≡ true }
        requires depth { self.now.params.depth ≡ 8 }
        requires order { at ≤ end }
        requires room { end ≤ length buf.old }
        requires row { self.now.column + (end - at) ≤ row_bytes self.now.params }
        ensures size { length buf.new ≡ length buf.old }
        ensures rest { drop end buf.new ≡ drop end buf.old }
        ensures carried { (past : JoinHistory)
            → PixelRepresents (after_pull (take at buf.old) past) self.now
            → PixelRepresents (after_pull (take end buf.new) past)
            (after_samples (end - at) self.now) }
    {
        self.planes
            .put_side(self.row, self.column, &mut buf[at..end]);
    }

    /// Writes bytes of the row of three colors of two bytes each.
    fn weave_words(&self, buf: &mut [u8], at: usize, end: usize)
        requires moves { can_give self.now.stage ≡ true }
        requires head { length self.now.head ≤ self.now.headed }
        requires ready { is_ready self.now ≡ true }
        requires colors { is_colors self.now.stage ≡ true }
        requires deep { self.now.params.depth ≡ 16 }
        requires order { at ≤ end }
        requires room { end ≤ length buf.old }
        requires row { self.now.column + (end - at) ≤ row_bytes self.now.params }
        ensures size { length buf.new ≡ length buf.old }
        ensures rest { drop end buf.new ≡ drop end buf.old }
        ensures carried { (past : JoinHistory)
            → PixelRepresents (after_pull (take at buf.old) past) self.now
            → PixelRepresents (after_pull (take end buf.new) past)
            (after_samples (end - at) self.now) }
    {
        self.planes
            .put_side_words(self.order, self.row, self.column, &mut buf[at..end]);
    }

    /// Writes bytes of the row, which stands in its line with the two bytes of each sample turned round.
    fn turn_row(&self, buf: &mut [u8], at: usize, end: usize)
        requires moves { can_give self.now.stage ≡ true }
        requires head { length self.now.head ≤ self.now.headed }
        requires ready { is_ready self.now ≡ true }
        requires plain { is_colors self.now.stage ≡ false }
        requires deep { self.now.params.depth ≡ 16 }
        requires little { self.now.order ≡ ByteOrder.Little }
        requires order { at ≤ end }
        requires room { end ≤ length buf.old }
        requires row { self.now.column + (end - at) ≤ row_bytes self.now.params }
        ensures size { length buf.new ≡ length buf.old }
        ensures rest { drop end buf.new ≡ drop end buf.old }
        ensures carried { (past : JoinHistory)
            → PixelRepresents (after_pull (take at buf.old) past) self.now
            → PixelRepresents (after_pull (take end buf.new) past)
            (after_samples (end - at) self.now) }
    {
        let row = &self.lines()[..row_size(&self.params)];
        put_turned(row, self.column, &mut buf[at..end]);
    }

    /// Writes bytes of the row of bits, which stand in its line, without the bits past its end.
    fn trim_row(&self, buf: &mut [u8], at: usize, end: usize)
        requires moves { can_give self.now.stage ≡ true }
        requires head { length self.now.head ≤ self.now.headed }
        requires ready { is_ready self.now ≡ true }
        requires plain { is_colors self.now.stage ≡ false }
        requires bits { self.now.params.depth ≡ 1 }
        requires order { at ≤ end }
        requires room { end ≤ length buf.old }
        requires row { self.now.column + (end - at) ≤ row_bytes self.now.params }
        ensures size { length buf.new ≡ length buf.old }
        ensures rest { drop end buf.new ≡ drop end buf.old }
        ensures carried { (past : JoinHistory)
            → PixelRepresents (after_pull (take at buf.old) past) self.now
            → PixelRepresents (after_pull (take end buf.new) past)
            (after_samples (end - at) self.now) }
    {
        let row = &self.lines()[..row_size(&self.params)];
        let width = self.params.pixels_per_line;
        put_trimmed(row, width, self.column, &mut buf[at..end]);
    }

    /// So many bytes of the row have gone.
    fn pass_over(&mut self, count: usize)
        requires moves { can_give self.old.stage ≡ true }
        requires ready { is_ready self.old ≡ true }
        requires row { self.old.column + count ≤ row_bytes self.old.params }
        ensures { self.new ≡ after_samples count self.old }
    {
        self.column += count;
        if self.column == row_size(&self.params) {
            self.column = 0;
            self.row += 1;
            if !self.has_colors() {
                self.start += self.params.bytes_per_line as usize;
            }
        }
    }

    /// Writes bytes that may go out to `buf` from `at` on, first of the header, then of a row, and says where it stopped. It
    /// stops at `at` only if none may go out.
    fn next_run(&mut self, buf: &mut [u8], at: usize) -> usize
        requires { at < length buf.old }
        ensures low { at ≤ result }
        ensures high { result ≤ length buf.old }
        ensures size { length buf.new ≡ length buf.old }
        ensures rest { drop result buf.new ≡ drop result buf.old }
        ensures carried { (past : JoinHistory)
            → PixelRepresents (after_pull (take at buf.old) past) self.old
            → PixelRepresents (after_pull (take result buf.new) past) self.new }
        ensures none { result ≡ at → (may_go self.old ≡ false) × (self.new ≡ self.old) }
        ensures some { at < result → may_go self.old ≡ true }
    {
        if !self.can_give() {
            return at;
        }
        if self.headed < self.head.len() {
            buf[at] = self.head[self.headed];
            self.headed += 1;
            return at + 1;
        }
        if !self.is_ready() {
            return at;
        }
        let more = (row_size(&self.params) - self.column).min(buf.len() - at);
        self.write_row(buf, at, at + more);
        self.pass_over(more);
        at + more
    }

    /// Writes the next bytes of the file that may go out to the front of `buf`, and says how many. The picture's last
    /// row goes out only once the picture is whole, and nothing after a fault. It takes no memory.
    pub fn pull(&mut self, buf: &mut [u8]) -> usize
        ensures count { result ≤ length buf.old }
        ensures rest { drop result buf.new ≡ drop result buf.old }
        // The join goes on from what was told before and what was given in all.
        ensures carried { (past : JoinHistory) → PixelRepresents past self.old
            → PixelRepresents (after_pull (take result buf.new) past) self.new }
        // After a fault nothing goes out.
        ensures silent { (past : JoinHistory) (fault : JoinFault)
            → PixelRepresents past self.old → past.fault ≡ Some fault → result ≡ 0 }
        // Where nothing goes out, the header and the rows have gone, or the whole file; of a frame that is kept nothing.
        ensures gone { (past : JoinHistory) → PixelRepresents past self.old → past.fault ≡ None
            → result ≡ 0 → 0 < length buf.old → AllGone past.under past.ended past.given }
        // Then, where the picture is whole, what was given in all denotes the picture that the frames show.
        ensures denotes { (past : JoinHistory)
            → PixelRepresents past self.old → IsJoined past → result ≡ 0 → 0 < length buf.old
            → (p : Picture) → ShowsFrames past.ended p → IsPictureFile past.given p }
        // Before the picture is whole, what was given in all is not.
        ensures whole { (past : JoinHistory) → PixelRepresents past self.old
            → (IsJoined past → ⊥) → IsWhole (past.given ++ take result buf.new) → ⊥ }
        // Then, where no frame is kept, the join has room for a further piece.
        ensures drained { (past : JoinHistory) → PixelRepresents past self.old
            → GoesThrough past.under → result ≡ 0 → 0 < length buf.old → IsPixelDrained self.new }
    {
        let mut at = 0;
        while at < buf.len() {
            let end = self.next_run(buf, at);
            if end == at {
                return at;
            }
            at = end;
        }
        at
    }

    /// The most bytes that the lines from the row on may have.
    fn rest_size(&self) -> usize
        ensures { result
            ≡ (most_lines self.now.params.lines - self.now.row) * self.now.params.bytes_per_line }
    {
        let lines = most_lines(self.params.lines).saturating_sub(self.row);
        lines as usize * self.params.bytes_per_line as usize
    }

    /// Takes the bytes of a frame, or says why not.
    fn take_in(&mut self, bytes: &[u8])
        ensures value { self.new ≡ value_fed bytes.now (is_pixel_out_of_memory self.new) self.old }
        ensures room { is_under self.old.stage ≡ true → length self.old.held + length bytes.now
            ≤ self.old.params.bytes_per_line + 4096 → is_pixel_out_of_memory self.new ≡ false }
        ensures nothing { length bytes.now ≡ 0
            → is_pixel_out_of_memory self.new ≡ is_pixel_out_of_memory self.old }
    {
        match self.stage {
            Stage::Idle | Stage::Between | Stage::Whole | Stage::WholeColors | Stage::Failed(_) =>
                {}
            Stage::Under | Stage::Keeping => {
                let room = self
                    .rest_size()
                    .saturating_sub(self.held.len() - self.start);
                if room < bytes.len() {
                    self.stage = Stage::Failed(JoinFault::Long);
                } else {
                    self.start = let_go(&mut self.held, self.start, bytes.len());
                    if self.held.extend_from_slice(bytes).is_err() {
                        self.stage = Stage::Failed(JoinFault::NoMem);
                    }
                }
            }
        }
    }

    /// Ends a frame whose rows go straight through.
    fn close_under(&mut self)
        requires { self.old.stage ≡ Under }
        ensures { self.new ≡ under_ended self.old }
    {
        if self.held.len() - self.start == self.rest_size() {
            self.stage = Stage::Whole;
        } else {
            self.stage = Stage::Failed(JoinFault::Short);
        }
    }

    /// Ends a frame that is kept.
    fn close_kept(&mut self)
        requires { self.old.stage ≡ Keeping }
        ensures { self.new ≡ kept_ended self.old }
    {
        let size = self.held.len();
        if !is_full(&self.params, size) {
            self.stage = Stage::Failed(JoinFault::Short);
        } else if is_unknown(self.params.lines) {
            self.params = with_known_height(&self.params, size);
            put_header(&mut self.head, &header_alone(&self.params));
            self.stage = Stage::Whole;
        } else {
            self.close_color();
        }
    }

    /// Ends a frame of one color, which has all its bytes.
    fn close_color(&mut self)
        requires stage { self.old.stage ≡ Keeping }
        requires color { is_unknown self.old.params.lines ≡ false }
        ensures { self.new ≡ color_ended self.old }
    {
        let params = self.params;
        self.planes
            .put(params.format, params.bytes_per_line, &mut self.held);
        if params.last_frame {
            self.params = all_colors(&params);
            put_header(&mut self.head, &header_alone(&self.params));
            self.stage = Stage::WholeColors;
        } else {
            self.stage = Stage::Between;
        }
    }

    /// Ends the frame.
    fn close(&mut self)
        ensures { self.new ≡ value_ended self.old }
    {
        match self.stage {
            Stage::Under => self.close_under(),
            Stage::Keeping => self.close_kept(),
            Stage::Idle | Stage::Between | Stage::Whole | Stage::WholeColors | Stage::Failed(_) =>
                {}
        }
    }

    /// Whether a further color may begin.
    fn accepts_next(&self, params: &Params, order: ByteOrder) -> bool
        ensures { result ≡ accepts_next self.now params.now order }
    {
        is_pass_that(self.planes.has_two(), params)
            && (!self.planes.has(params.format)
                && is_alike(&self.params, self.order, params, order))
    }

    /// Begins the first frame, or says why not.
    #[tactic(auto, using(crate::proofs::KeptLaws::first_is_kept))]
    fn open_first(&mut self, alloc: Global, params: &Params, order: ByteOrder)
        ensures { self.new
            ≡ first_begun params.now order (is_pixel_out_of_memory self.new) self.old }
    {
        let begun = if is_alone(params) {
            new_pixel_join(alloc, params, order)
        } else if is_open_ended(params) || is_pass_that(false, params) {
            new_keeping_join(alloc, params, order)
        } else {
            self.stage = Stage::Failed(JoinFault::Shape);
            return;
        };
        match begun {
            Ok(join) => *self = join,
            Err(_) => self.stage = Stage::Failed(JoinFault::NoMem),
        }
    }

    /// Begins a further color, or says why not.
    fn open_next(&mut self, params: &Params, order: ByteOrder)
        requires { self.old.stage ≡ Between }
        ensures value { self.new
            ≡ next_begun params.now order (is_pixel_out_of_memory self.new) self.old }
        ensures memory { is_pixel_out_of_memory self.new ≡ false }
    {
        if self.accepts_next(params, order) {
            self.params = *params;
            self.order = order;
            self.stage = Stage::Keeping;
        } else {
            self.stage = Stage::Failed(JoinFault::Shape);
        }
    }

    /// Begins a frame, or says why not.
    fn open(&mut self, alloc: Global, params: &Params, order: ByteOrder)
        ensures value { self.new
            ≡ value_begun params.now order (is_pixel_out_of_memory self.new) self.old }
        ensures later { self.old.stage ≢ Idle
            → is_pixel_out_of_memory self.new ≡ is_pixel_out_of_memory self.old }
    {
        match self.stage {
            Stage::Whole | Stage::WholeColors | Stage::Failed(_) => {}
            Stage::Under | Stage::Keeping => self.stage = Stage::Failed(JoinFault::Shape),
            Stage::Idle => self.open_first(alloc, params, order),
            Stage::Between => self.open_next(params, order),
        }
    }

    /// What `end` answers.
    fn answer(&self) -> Result<bool, JoinFault>
        ensures { result ≡ answer_at self.now.stage }
    {
        match self.stage {
            Stage::Idle | Stage::Under | Stage::Keeping | Stage::Between => Ok(false),
            Stage::Whole | Stage::WholeColors => Ok(true),
            Stage::Failed(fault) => Err(fault),
        }
    }

    /// A frame begins. The fault `Shape` comes to stand inside a frame, and for a frame that does not fit. A frame fits if it is
    /// one of gray or of red, green and blue with `last_frame`, or one of three of red, green and blue once each in any order,
    /// the third alone with `last_frame`, of one width, height, depth and byte order. Its depth is 8 or 16 (in gray also 1). Its
    /// lines have 1 to 65,536 pixels, and room for these in at most 1,048,576 bytes. It has 1 to 65,536 lines, or, if it is
    /// alone, an unknown number. `NoMem` comes to stand if a growth is refused. After the whole picture, and after a fault, it
    /// changes nothing.
    ///
    /// The first frame reserves room for the header, and for one line and 4,096 bytes where its rows go straight
    /// through.
    pub fn begin(&mut self, alloc: Global, params: &Params, order: ByteOrder)
        // Whatever was told before, the join stands for that and the frame.
        ensures carried { (past : JoinHistory) → PixelRepresents past self.old → PixelRepresents
            (after_begin params.now order (is_pixel_out_of_memory self.new) past) self.new }
        // Only the first frame takes memory here.
        ensures later { (past : JoinHistory) → PixelRepresents past self.old
            → past.ended ≢ [] → is_pixel_out_of_memory self.new ≡ is_pixel_out_of_memory self.old }
    {
        self.open(alloc, params, order);
    }

    /// Bytes of the frame come. A fault comes to stand: `Long` where they are more than the frame has, or than 65,536
    /// lines have where its lines are not known; `NoMem` where a growth is refused. Outside a frame, and after a fault,
    /// it changes nothing.
    pub fn feed(&mut self, bytes: &[u8])
        ensures carried { (past : JoinHistory) → PixelRepresents past self.old → PixelRepresents
            (after_feed bytes.now (is_pixel_out_of_memory self.new) past) self.new }
        // If a pull gave nothing before and no frame is kept, a piece of at most 4,096 bytes takes no memory.
        ensures room { IsPixelDrained self.old → length bytes.now ≤ 4096
            → is_pixel_out_of_memory self.new ≡ is_pixel_out_of_memory self.old }
        // No bytes take none.
        ensures nothing { length bytes.now ≡ 0
            → is_pixel_out_of_memory self.new ≡ is_pixel_out_of_memory self.old }
    {
        self.take_in(bytes);
    }

    /// The frame ends. Says whether the picture is whole, or which fault stands; `Short` comes to stand where the frame
    /// has fewer bytes than was told, or, where its lines are not known, no line or a part of one. Outside a frame, and
    /// after a fault, it changes nothing. It takes no memory.
    pub fn end(&mut self) -> Result<bool, JoinFault>
        ensures carried { (past : JoinHistory)
            → PixelRepresents past self.old → PixelRepresents (after_end past) self.new }
        ensures answer { (past : JoinHistory)
            → PixelRepresents past self.old → result ≡ answer_of_end (after_end past) }
        // True exactly where no fault stands and the frames show a picture.
        ensures exact { (past : JoinHistory) → PixelRepresents past self.old → (result ≡ Ok true)
            ↔ ((past.fault ≡ None) × ((p : Picture) × ShowsFrames (history_frames past) p)) }
    {
        self.close();
        self.answer()
    }

    /// Whether bytes of the file may go out.
    fn may_go(&self) -> bool
        ensures { result ≡ may_go self.now }
    {
        self.can_give() && (self.headed < self.head.len() || self.is_ready())
    }

    /// Whether the picture is whole and its file has gone to the last byte.
    pub fn has_given_all(&self) -> bool
        ensures exact { (past : JoinHistory) → PixelRepresents past self.now
            → (result ≡ true) ↔ (IsJoined past × (past.given ≡ file_of past.ended)) }
        // That is exactly where what was given in all is a whole file, and it is that of the picture that the frames show.
        ensures whole { (past : JoinHistory)
            → PixelRepresents past self.now → (result ≡ true) ↔ IsWhole past.given }
        ensures denotes { (past : JoinHistory) → PixelRepresents past self.now → result ≡ true
            → (p : Picture) → ShowsFrames past.ended p → IsPictureFile past.given p }
    {
        let Ok(true) = self.answer() else {
            return false;
        };
        !self.may_go()
    }

    /// The fault that stands: the first that came to stand since the join was made.
    pub fn fault(&self) -> Option<JoinFault>
        ensures { (past : JoinHistory) → PixelRepresents past self.now → result ≡ past.fault }
    {
        match self.stage {
            Stage::Failed(fault) => Some(fault),
            _ => None,
        }
    }
}

/// Lets the bytes before `start` go, which have gone, where there is no room for so many more; says where the rest begins.
#[tactic(auto, using(crate::proofs::RoomLaws::rest_copied))]
fn let_go(held: &mut Vec<u8>, start: usize, more: usize) -> usize
    requires { start ≤ vec_len held.old }
    ensures rest { drop result held.new.items ≡ drop start held.old.items }
    ensures inside { result ≤ vec_len held.new }
    ensures none { start ≡ 0 → result ≡ 0 }
    ensures room { vec_len held.old - start + more ≤ vec_capacity held.old →
        vec_len held.new + more ≤ vec_capacity held.new }
    ensures capacity { vec_capacity held.new ≡ vec_capacity held.old }
{
    if start == 0 || more <= held.capacity() - held.len() {
        return start;
    }
    let left = held.len() - start;
    held.copy_within(start.., 0);
    held.truncate(left);
    0
}

/// A join as a frame begins whose rows go straight through.
fn new_pixel_join(alloc: Global, params: &Params, order: ByteOrder) -> Result<PixelJoin, AllocError>
    requires { AloneParts params.now }
    ensures { IfOk result (λ join. join ≡ new_pixel_join params.now order) }
{
    let mut head = Vec::with_capacity(alloc, HEADER_ROOM)?;
    put_header(&mut head, &header_alone(params));
    let held = Vec::with_capacity(alloc, params.bytes_per_line as usize + 4096)?;
    Ok(PixelJoin {
        stage: Stage::Under,
        params: *params,
        order,
        head,
        headed: 0,
        row: 0,
        column: 0,
        held,
        start: 0,
        planes: Planes::new(alloc),
    })
}

/// A join in which a frame begins that is kept.
fn new_keeping_join(
    alloc: Global,
    params: &Params,
    order: ByteOrder,
) -> Result<PixelJoin, AllocError>
    requires { (is_open_ended params.now || is_pass params.now) ≡ true }
    ensures { IfOk result (λ join. join ≡ new_keeping_join params.now order) }
{
    Ok(PixelJoin {
        stage: Stage::Keeping,
        params: *params,
        order,
        head: Vec::with_capacity(alloc, HEADER_ROOM)?,
        headed: 0,
        row: 0,
        column: 0,
        held: Vec::new(alloc),
        start: 0,
        planes: Planes::new(alloc),
    })
}
