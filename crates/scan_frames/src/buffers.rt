//! The buffers of a frame, and how lines are made and given.

ghost use Rattle.std.specs.Prelude.{◌≡◌, ◌==◌, ◌≤◌, ◌<◌, ◌-◌, Ok, true, false, length, OnOk, OnErr, IfOk, MatchBool};
ghost use Rattle.scan_frames.specs.Rows.{IsWhiteBehind, StopsFailing};
ghost use Rattle.scan_frames.specs.Samples.{IsZeroFrom};
ghost use Rattle.scan_frames.specs.Frames.{IsSetup};
ghost use Rattle.scan_frames.specs.PassReading.{IsFrame, ReadsFrame, row_of};
ghost use Rattle.scan_frames.specs.Inside.{IsLineCounted, IsNewFrame, MakesLine, KeepsCount, HasLineBytes, GivesLine, GivesOfLine, MayBeMadeApart, being_read, is_frame_over, state_of};

use crate::byte_lines::byte_line;
use crate::faults::ReadEnd;
use crate::gamma_tables::color_tables;
use crate::line::make_line;
use crate::pass::bytes_per_line;
use crate::rows::see;
use crate::setup::Setup;
use page_picture::{ByteRows, ColumnMap, PageSource, SourceFault};
use sane_fixed::NoMem;
use std::alloc::{AllocError, Global};

/// The buffers of a frame, and how far it has come.
#[derive(Drop)]
pub struct Buffers {
    pass: u32,
    columns: ColumnMap,
    /// What becomes of a sample in red, green and blue at depth 8, by its upper byte.
    tables: [[u8; 256]; 3],
    height: u32,
    /// Room for a row, with a white place behind it, which all pixels off the page show.
    row: Vec<u16>,
    /// The rows that were taken.
    taken: u32,
    /// The last line that was made, as long as it is needed.
    line: Vec<u8>,
    /// The lines that were made.
    made: u32,
    /// The bytes of the last line that were not given.
    left: usize,
}

/// A white row with a place behind it.
fn white_row(alloc: Global, width: u32) -> Result<Vec<u16>, AllocError>
    requires { width ≤ 16384 }
    ensures { IfOk result (λ row. IsWhiteBehind width row.items) }
{
    vec![in alloc; u16::MAX; 3 * width as usize + 3]
}

/// A line of zeros.
fn zero_line(alloc: Global, size: usize) -> Result<Vec<u8>, AllocError>
    ensures size { IfOk result (λ line. length line.items ≡ size) }
    ensures zeros { IfOk result (λ line. IsZeroFrom 0 line.items) }
{
    vec![in alloc; 0u8; size]
}

/// Takes the memory of a frame of so many lines.
pub fn reserve<S: PageSource>(
    alloc: Global,
    source: &S,
    setup: &Setup,
    pass: u32,
    height: u32,
) -> Result<Buffers, NoMem>
    requires { IsSetup setup.now }
    ensures { IfOk result
        (λ b. IsNewFrame (S.source source.now).page setup.now pass height (state_of b)) }
{
    let (width, _) = source.size();
    let columns = ColumnMap::new(alloc, &setup.scene, width, source.dpi())?;
    let row = white_row(alloc, width)?;
    let line = zero_line(alloc, bytes_per_line(setup, pass))?;
    Ok(Buffers {
        pass,
        columns,
        tables: color_tables(&setup.scene),
        height,
        row,
        taken: 0,
        line,
        made: 0,
        left: 0,
    })
}

/// The row of the page that line `y` shows, if the page has it.
fn row_of<S: PageSource>(source: &S, setup: &Setup, y: u32) -> u64
    requires some { 1 ≤ setup.now.scene.resolution }
    requires known { setup.now.scene.resolution ≤ 1200 }
    ensures { result ≡ row_of setup.now (S.source source.now).page y }
{
    let dots = u64::from(setup.scene.top()) + u64::from(y);
    dots * u64::from(source.dpi()) / u64::from(setup.scene.resolution)
}

/// Makes the next line of the samples of the row that it shows.
fn line_of_samples<S: PageSource>(
    buffers: &mut Buffers,
    source: &mut S,
    setup: &Setup,
) -> Result<(), SourceFault>
    requires setup { IsSetup setup.now }
    requires frame { IsFrame (S.source source.old) setup.now (state_of buffers.old) }
    requires more { buffers.old.made < buffers.old.height }
    requires untaken { buffers.old.taken
        ≤ row_of setup.now (S.source source.old).page buffers.old.made }
    ensures ok { OnOk result (MakesLine (S.source source.old) setup.now
        (state_of buffers.old) (S.source source.new) (state_of buffers.new)) }
    ensures err { OnErr result (StopsFailing (S.source source.old) (S.source source.new)) }
    ensures count { OnErr result (KeepsCount (state_of buffers.old) (state_of buffers.new)) }
{
    let target = row_of(source, setup, buffers.made);
    buffers.taken = see(source, &mut buffers.row, buffers.taken, target)?;
    make_line(
        setup,
        buffers.pass,
        &buffers.tables,
        &buffers.columns,
        &buffers.row,
        &mut buffers.line,
    );
    buffers.made += 1;
    buffers.left = buffers.line.len();
    Ok(())
}

/// Makes the next line of the bytes of the row that it shows, where that is the next; false where it cannot, and then
/// nothing was done.
fn line_of_bytes<S: ByteRows>(
    buffers: &mut Buffers,
    source: &mut S,
    setup: &Setup,
) -> Result<bool, SourceFault>
    requires setup { IsSetup setup.now }
    requires frame { IsFrame (S.source source.old) setup.now (state_of buffers.old) }
    requires more { buffers.old.made < buffers.old.height }
    ensures made { result ≡ Ok true → MakesLine (S.source source.old) setup.now
        (state_of buffers.old) (S.source source.new) (state_of buffers.new) }
    ensures none { result ≡ Ok false → (S.source source.new ≡ S.source source.old)
        × (state_of buffers.new ≡ state_of buffers.old) }
    ensures err { OnErr result (StopsFailing (S.source source.old) (S.source source.new)) }
    ensures count { OnErr result (KeepsCount (state_of buffers.old) (state_of buffers.new)) }
{
    // The limits of a page.
    let _size = source.size();
    if row_of(source, setup, buffers.made) != u64::from(buffers.taken) {
        return Ok(false);
    }
    let is_made = byte_line(
        source,
        setup,
        buffers.pass,
        &buffers.tables,
        &buffers.columns,
        &mut buffers.line,
    )?;
    if !is_made {
        return Ok(false);
    }
    buffers.taken += 1;
    buffers.made += 1;
    buffers.left = buffers.line.len();
    Ok(true)
}

/// Makes the next line of the row that it shows.
fn line_of_row<S: ByteRows>(
    buffers: &mut Buffers,
    source: &mut S,
    setup: &Setup,
) -> Result<(), SourceFault>
    requires setup { IsSetup setup.now }
    requires frame { IsFrame (S.source source.old) setup.now (state_of buffers.old) }
    requires more { buffers.old.made < buffers.old.height }
    requires untaken { buffers.old.taken
        ≤ row_of setup.now (S.source source.old).page buffers.old.made }
    ensures ok { OnOk result (MakesLine (S.source source.old) setup.now
        (state_of buffers.old) (S.source source.new) (state_of buffers.new)) }
    ensures err { OnErr result (StopsFailing (S.source source.old) (S.source source.new)) }
    ensures count { OnErr result (KeepsCount (state_of buffers.old) (state_of buffers.new)) }
{
    if line_of_bytes(buffers, source, setup)? {
        return Ok(());
    }
    line_of_samples(buffers, source, setup)
}

/// Takes the last line for the next one, which shows the same row.
fn line_again<S: PageSource>(buffers: &mut Buffers, source: &S, setup: &Setup)
    requires setup { IsSetup setup.now }
    requires frame { IsFrame (S.source source.now) setup.now (state_of buffers.old) }
    requires more { buffers.old.made < buffers.old.height }
    requires begun { 0 < buffers.old.made }
    requires same { row_of setup.now (S.source source.now).page (buffers.old.made - 1)
        ≡ row_of setup.now (S.source source.now).page buffers.old.made }
    ensures { MakesLine (S.source source.now) setup.now
        (state_of buffers.old) (S.source source.now) (state_of buffers.new) }
{
    buffers.made += 1;
    buffers.left = buffers.line.len();
}

/// Makes the next line. Where the page has fewer dots per inch than the picture, a row shows in several lines.
fn next_line<S: ByteRows>(
    buffers: &mut Buffers,
    source: &mut S,
    setup: &Setup,
) -> Result<(), SourceFault>
    requires setup { IsSetup setup.now }
    requires frame { IsFrame (S.source source.old) setup.now (state_of buffers.old) }
    requires more { buffers.old.made < buffers.old.height }
    ensures ok { OnOk result (MakesLine (S.source source.old) setup.now
        (state_of buffers.old) (S.source source.new) (state_of buffers.new)) }
    ensures err { OnErr result (StopsFailing (S.source source.old) (S.source source.new)) }
    ensures count { OnErr result (KeepsCount (state_of buffers.old) (state_of buffers.new)) }
{
    let made = buffers.made;
    if made > 0 && row_of(source, setup, made - 1) == row_of(source, setup, made) {
        line_again(buffers, source, setup);
        return Ok(());
    }
    line_of_row(buffers, source, setup)
}

/// Makes the next line where no byte of the last is left.
fn make_ready<S: ByteRows>(
    buffers: &mut Buffers,
    source: &mut S,
    setup: &Setup,
) -> Result<(), SourceFault>
    requires setup { IsSetup setup.now }
    requires frame { IsFrame (S.source source.old) setup.now (state_of buffers.old) }
    requires counted { IsLineCounted (state_of buffers.old) }
    requires more { is_frame_over (state_of buffers.old) ≡ false }
    ensures ok { OnOk result (HasLineBytes (S.source source.old) setup.now
        (state_of buffers.old) (S.source source.new) (state_of buffers.new)) }
    ensures err { OnErr result (StopsFailing (S.source source.old) (S.source source.new)) }
    ensures counted { OnErr result (IsLineCounted (state_of buffers.new)) }
{
    if buffers.left > 0 {
        return Ok(());
    }
    next_line(buffers, source, setup)
}

/// Gives what is left of the last line, but no more bytes than the buffer holds.
fn give(buffers: &mut Buffers, buf: &mut [u8]) -> usize
    requires { buffers.old.left ≤ length buffers.old.line.items }
    ensures { GivesLine (state_of buffers.old) result (state_of buffers.new) buf.new }
{
    let n = buffers.left.min(buf.len());
    let start = buffers.line.len() - buffers.left;
    buf[..n].copy_from_slice(&buffers.line[start..start + n]);
    buffers.left -= n;
    n
}

/// Whether the next line may be made apart from the one that the frame keeps: its row is the next, no further line shows it,
/// and no byte stands behind its samples.
fn may_be_made_apart<S: PageSource>(buffers: &Buffers, source: &S, setup: &Setup) -> bool
    requires setup { IsSetup setup.now }
    requires more { buffers.now.made < 65536 }
    ensures { MatchBool result
        (MayBeMadeApart setup.now (S.source source.now).page (state_of buffers.now))
        (¬ MayBeMadeApart setup.now (S.source source.now).page (state_of buffers.now)) }
{
    let row = row_of(source, setup, buffers.made);
    setup.loss == 0
        && row == u64::from(buffers.taken)
        && row != row_of(source, setup, buffers.made + 1)
}

/// Gives the next line whole, made where it is given and not in the frame's own room; false where that cannot be, and then
/// nothing was done.
fn give_whole_line<S: ByteRows>(
    buffers: &mut Buffers,
    source: &mut S,
    setup: &Setup,
    buf: &mut [u8],
) -> Result<bool, SourceFault>
    requires setup { IsSetup setup.now }
    requires frame { IsFrame (S.source source.old) setup.now (state_of buffers.old) }
    requires counted { IsLineCounted (state_of buffers.old) }
    requires none_left { buffers.old.left ≡ 0 }
    requires more { buffers.old.made < buffers.old.height }
    requires room { length buffers.old.line.items ≤ length buf.old }
    ensures given { result ≡ Ok true → GivesOfLine setup.now
        (being_read (S.source source.old) buffers.old)
        (length buffers.old.line.items)
        (being_read (S.source source.new) buffers.new) buf.new }
    ensures none { result ≡ Ok false → (S.source source.new ≡ S.source source.old)
        × (state_of buffers.new ≡ state_of buffers.old) }
    ensures err { OnErr result (StopsFailing (S.source source.old) (S.source source.new)) }
    ensures counted { OnErr result (IsLineCounted (state_of buffers.new)) }
{
    // The limits of a page.
    let _size = source.size();
    if !may_be_made_apart(buffers, source, setup) {
        return Ok(false);
    }
    let is_made = byte_line(
        source,
        setup,
        buffers.pass,
        &buffers.tables,
        &buffers.columns,
        &mut buf[..buffers.line.len()],
    )?;
    if is_made {
        buffers.taken += 1;
        buffers.made += 1;
    }
    Ok(is_made)
}

/// Gives what is left of a line, or the next one where nothing is, but no more bytes than the buffer holds.
fn give_of_line<S: ByteRows>(
    buffers: &mut Buffers,
    source: &mut S,
    setup: &Setup,
    buf: &mut [u8],
) -> Result<usize, SourceFault>
    requires setup { IsSetup setup.now }
    requires frame { IsFrame (S.source source.old) setup.now (state_of buffers.old) }
    requires counted { IsLineCounted (state_of buffers.old) }
    requires more { is_frame_over (state_of buffers.old) ≡ false }
    requires buf { 0 < length buf.old }
    ensures ok { IfOk result (λ n. GivesOfLine setup.now
        (being_read (S.source source.old) buffers.old) n
        (being_read (S.source source.new) buffers.new) buf.new) }
    ensures err { OnErr result (StopsFailing (S.source source.old) (S.source source.new)) }
    ensures counted { OnErr result (IsLineCounted (state_of buffers.new)) }
{
    let size = buffers.line.len();
    if buffers.left == 0 && size <= buf.len() && give_whole_line(buffers, source, setup, buf)? {
        return Ok(size);
    }
    make_ready(buffers, source, setup)?;
    Ok(give(buffers, buf))
}

/// Whether all bytes of the frame were given.
fn is_frame_over(buffers: &Buffers) -> bool
    ensures { result ≡ is_frame_over (state_of buffers.now) }
{
    buffers.left == 0 && buffers.made == buffers.height
}

/// Gives the next bytes of a frame, line after line until the buffer is full.
pub fn read_on<S: ByteRows>(
    buffers: &mut Buffers,
    source: &mut S,
    setup: &Setup,
    buf: &mut [u8],
) -> Result<usize, ReadEnd>
    requires setup { IsSetup setup.now }
    requires frame { IsFrame (S.source source.old) setup.now (state_of buffers.old) }
    requires counted { IsLineCounted (state_of buffers.old) }
    requires buf { 0 < length buf.old }
    ensures read { ReadsFrame setup.now
        (being_read (S.source source.old) buffers.old) result
        (being_read (S.source source.new) buffers.new) buf.new }
    ensures counted { IsLineCounted (state_of buffers.new) }
{
    let most = buf.len().min(setup.limit as usize);
    let mut n = 0;
    while n < most && !is_frame_over(buffers) {
        match give_of_line(buffers, source, setup, &mut buf[n..most]) {
            Ok(given) => n += given,
            Err(_) => return Err(ReadEnd::SourceFailed),
        }
    }
    if n > 0 { Ok(n) } else { Err(ReadEnd::End) }
}

impl Buffers {
    /// Whether no line was made yet.
    pub fn is_new(&self) -> bool
        ensures { result ≡ (self.now.made == 0) }
    {
        self.made == 0
    }

    /// Which pass of the scan the frame is, from 0.
    pub fn pass(&self) -> u32
        ensures { result ≡ self.now.pass }
    {
        self.pass
    }
}
