ghost use Rattle.std.specs.Prelude.{ℕ, ◌≡◌, ◌≤◌, ◌<◌, ◌+◌, ◌-◌, ◌*◌, ◌/◌, ◌%◌, ◌^◌, ◌++◌, length, slice_index, slice_range, true, false, Ok, min, max, IfOk, IfErr, OnOk, OnErr};
ghost use Rattle.netpbm.specs.Pnm.{sample_bytes};
ghost use Rattle.netpbm.specs.Raster.{NoneAbove};
ghost use Rattle.page_sources.specs.Inside.{FailsWithin, IsPageHeader, IsRaster, ReadsRaster, ShowsRow, GivesPartOf, HasRows, TakesPart, TakesRow, TakesRowAt, TakesThirds, TellsFit, row_room, unused_bytes, row_count, row_header, file_row_size, third_byte, HasOpenFaultAfter, IsOfFile};

use crate::eights::{eight_numbers, eight_scaled, word};
use crate::fitting::all_fit;
use crate::open_fault::OpenFault;
use crate::page_file::PageFault;
use crate::read_fault::{MOST_READS, ReadFault};
use crate::rereadable::Rereadable;
use crate::scaling::{ByteScaling, Scaling};
use crate::third_numbers::{put_third_bytes, put_third_words};
use crate::upper_rows::put_upper_bytes;
use netpbm::{Header, PnmFormat, raster_size, sample_count};

/// The header of one row of a page alone.
pub fn row_header(header: &Header) -> Header
    ensures { result ≡ row_header header.now }
{
    Header {
        height: 1,
        ..*header
    }
}

/// Fills the buffer from the reader; false where the reader ends before.
fn fill<R: Rereadable>(reader: &mut R, bytes: &mut [u8], reads: &mut u64) -> Result<bool, ReadFault>
    ensures kept { R.is_kept reader.new ≡ R.is_kept reader.old }
    ensures text { R.text reader.new ≡ R.text reader.old }
    ensures full { result ≡ Ok true
        → R.is_kept reader.old ≡ true → R.left reader.old ≡ bytes.new ++ R.left reader.new }
    ensures few { OnOk result (reads.new ≤ reads.old + length bytes.new) }
    ensures worked { OnOk result (R.is_kept reader.old ≡ true
        → R.faults reader.new ≡ R.faults reader.old) }
    ensures failed { OnErr result (FailsWithin (R.is_kept reader.old) reads.old
        (R.left reader.old) (R.faults reader.old) (R.faults reader.new)) }
    ensures ended { result ≡ Ok false
        → R.is_kept reader.old ≡ true → length (R.left reader.old) < length bytes.new }
{
    let mut at = 0;
    for made in *reads..MOST_READS {
        if at >= bytes.len() {
            return Ok(true);
        }
        *reads = made + 1;
        match reader.read_on(&mut bytes[at..]) {
            Ok(0) => return Ok(false),
            Ok(count) => at += count,
            Err(_) => return Err(ReadFault),
        }
    }
    Err(ReadFault)
}

/// The bytes of as many rows as 65,536 bytes hold, at least of one, at most of all.
pub fn room_size(header: &Header) -> usize
    requires { IsPageHeader header.now }
    ensures value { result ≡ min (max (65536 / file_row_size header.now) 1)
        header.now.height * file_row_size header.now }
    ensures row { file_row_size header.now ≤ result }
{
    let size = raster_size(&row_header(header));
    let rows = (65536 / size).max(1).min(header.height as usize);
    rows * size
}

/// Sees to it that of the `rows` that are not used yet one is held, as the last `held` of `bytes` are. Where none is, it
/// reads as many as there is room for; false where the reader ends before.
fn hold_rows<R: Rereadable>(
    reader: &mut R,
    size: usize,
    rows: u32,
    held: &mut u32,
    bytes: &mut [u8],
    reads: &mut u64,
) -> Result<bool, ReadFault>
    requires size { 1 ≤ size }
    requires room { size ≤ length bytes.old }
    requires rows { 1 ≤ rows }
    requires held { held.old ≤ rows }
    requires within { held.old * size ≤ length bytes.old }
    ensures kept { R.is_kept reader.new ≡ R.is_kept reader.old }
    ensures text { R.text reader.new ≡ R.text reader.old }
    ensures some { result ≡ Ok true → 1 ≤ held.new }
    ensures most { held.new ≤ rows }
    ensures within { held.new * size ≤ length bytes.new }
    ensures same { result ≡ Ok true → R.is_kept reader.old ≡ true
        → unused_bytes size held.old bytes.old (R.left reader.old)
        ≡ unused_bytes size held.new bytes.new (R.left reader.new) }
    ensures few { result ≡ Ok true → reads.new + held.old * size ≤ reads.old + held.new * size }
    ensures worked { OnOk result
        (R.is_kept reader.old ≡ true → R.faults reader.new ≡ R.faults reader.old) }
    ensures none_held { OnErr result (held.old ≡ 0) }
    ensures failed { OnErr result
        (FailsWithin (R.is_kept reader.old) reads.old (R.left reader.old)
        (R.faults reader.old) (R.faults reader.new)) }
    ensures ended { result ≡ Ok false → R.is_kept reader.old ≡ true
        → length (unused_bytes size held.old bytes.old (R.left reader.old)) < rows * size }
{
    if *held > 0 {
        return Ok(true);
    }
    let count = (bytes.len() / size).min(rows as usize);
    let from = bytes.len() - count * size;
    if !fill(reader, &mut bytes[from..], reads)? {
        return Ok(false);
    }
    *held = count as u32;
    Ok(true)
}

/// Writes one gray as the three samples of its place.
fn put_gray(gray: u16, x: usize, row: &mut [u16])
    requires { 3 * x + 2 < length row.old }
    ensures before { (j : ℕ) → j < 3 * x → slice_index row.new j ≡ slice_index row.old j }
    ensures here { (j : ℕ) → 3 * x ≤ j → j < 3 * x + 3 → slice_index row.new j ≡ gray }
    ensures behind { (j : ℕ) → 3 * x + 3 ≤ j → slice_index row.new j ≡ slice_index row.old j }
{
    row[3 * x] = gray;
    row[3 * x + 1] = gray;
    row[3 * x + 2] = gray;
}

/// Writes the samples of a row of grays of a byte each, of which 255 is the greatest.
fn write_grays(bytes: &[u8], row: &mut [u16])
    requires { length row.old ≡ 3 * length bytes.now }
    ensures { (j : ℕ)
        → j < 3 * length bytes.now → slice_index row.new j ≡ 257 * slice_index bytes.now (j / 3) }
{
    for x in 0..bytes.len() {
        let gray = 257 * u16::from(bytes[x]);
        put_gray(gray, x, row);
    }
}

/// Writes the samples of a row of colors of a byte each, of which 255 is the greatest.
fn write_colors(bytes: &[u8], row: &mut [u16])
    requires { length row.old ≡ length bytes.now }
    ensures { (j : ℕ)
        → j < length bytes.now → slice_index row.new j ≡ 257 * slice_index bytes.now j }
{
    for j in 0..bytes.len() {
        row[j] = 257 * u16::from(bytes[j]);
    }
}

/// Writes eight samples from place `at` on.
#[inline(always)]
fn put_eight(samples: [u16; 8], at: usize, row: &mut [u16])
    requires { at + 8 ≤ length row.old }
    ensures before { (j : ℕ) → j < at → slice_index row.new j ≡ slice_index row.old j }
    ensures here { (i : ℕ) → i < 8 → slice_index row.new (at + i) ≡ slice_index samples i }
    ensures behind { (j : ℕ) → at + 8 ≤ j → slice_index row.new j ≡ slice_index row.old j }
{
    for i in 0..8 {
        row[at + i] = samples[i];
    }
}

/// Writes eight grays as the samples of their places, the first as that of place `x`.
#[inline(always)]
fn put_eight_grays(grays: [u16; 8], x: usize, row: &mut [u16])
    requires { 3 * x + 24 ≤ length row.old }
    ensures before { (j : ℕ) → j < 3 * x → slice_index row.new j ≡ slice_index row.old j }
    ensures here { (j : ℕ) → 3 * x ≤ j → j < 3 * x + 24
        → slice_index row.new j ≡ slice_index grays (j / 3 - x) }
    ensures behind { (j : ℕ) → 3 * x + 24 ≤ j → slice_index row.new j ≡ slice_index row.old j }
{
    for i in 0..8 {
        put_gray(grays[i], x + i, row);
    }
}

/// Writes the samples of a row of colors of two bytes each, whose greatest is 65,535. It writes eight at once, since turning the
/// bytes of one takes as many steps as those of eight.
fn write_words(bytes: &[u8], row: &mut [u16])
    requires { length bytes.now ≡ 2 * length row.old }
    ensures { (j : ℕ) → j < length row.old → slice_index row.new j
        ≡ 256 * slice_index bytes.now (2 * j) + slice_index bytes.now (2 * j + 1) }
{
    let eights = row.len() / 8;
    for n in 0..eights {
        put_eight(eight_numbers(bytes, 16 * n), 8 * n, row);
    }
    for j in 8 * eights..row.len() {
        row[j] = word(bytes, j);
    }
}

/// Writes the samples of a row of grays of two bytes each, of which 65,535 is the greatest; eight at once, as colors are.
fn write_wide_grays(bytes: &[u8], row: &mut [u16])
    requires { 3 * length bytes.now ≡ 2 * length row.old }
    ensures { (j : ℕ) → j < length row.old → slice_index row.new j
        ≡ 256 * slice_index bytes.now (2 * (j / 3)) + slice_index bytes.now (2 * (j / 3) + 1) }
{
    let eights = bytes.len() / 16;
    for n in 0..eights {
        put_eight_grays(eight_numbers(bytes, 16 * n), 8 * n, row);
    }
    for x in 8 * eights..bytes.len() / 2 {
        put_gray(word(bytes, x), x, row);
    }
}

/// Writes the samples of a row of grays of two bytes each; eight at once, as where 65,535 is the greatest.
fn write_gray_words(maxval: u32, bytes: &[u8], row: &mut [u16])
    requires maxval { 1 ≤ maxval }
    requires most { maxval ≤ 65535 }
    requires size { 3 * length bytes.now ≡ 2 * length row.old }
    requires limit { (x : ℕ) → 2 * x < length bytes.now
        → 256 * slice_index bytes.now (2 * x) + slice_index bytes.now (2 * x + 1) ≤ maxval }
    ensures { (j : ℕ) → j < length row.old → slice_index row.new j ≡ (256 * slice_index bytes.now
        (2 * (j / 3)) + slice_index bytes.now (2 * (j / 3) + 1)) * 65535 / maxval }
{
    let scaling = Scaling::new(maxval);
    let eights = bytes.len() / 16;
    for n in 0..eights {
        put_eight_grays(eight_scaled(&scaling, bytes, 16 * n), 8 * n, row);
    }
    for x in 8 * eights..bytes.len() / 2 {
        put_gray(scaling.apply(u32::from(word(bytes, x))), x, row);
    }
}

/// Writes the samples of a row of colors of two bytes each; eight at once, as where 65,535 is the greatest.
fn write_color_words(maxval: u32, bytes: &[u8], row: &mut [u16])
    requires maxval { 1 ≤ maxval }
    requires most { maxval ≤ 65535 }
    requires size { length bytes.now ≡ 2 * length row.old }
    requires limit { (j : ℕ) → j < length row.old
        → 256 * slice_index bytes.now (2 * j) + slice_index bytes.now (2 * j + 1) ≤ maxval }
    ensures { (j : ℕ) → j < length row.old → slice_index row.new j ≡ (256 * slice_index bytes.now
        (2 * j) + slice_index bytes.now (2 * j + 1)) * 65535 / maxval }
{
    let scaling = Scaling::new(maxval);
    let eights = row.len() / 8;
    for n in 0..eights {
        put_eight(eight_scaled(&scaling, bytes, 16 * n), 8 * n, row);
    }
    for j in 8 * eights..row.len() {
        row[j] = scaling.apply(u32::from(word(bytes, j)));
    }
}

/// Writes the samples of a row of grays of a byte each. A product takes many at once, where a table takes one by one.
fn write_scaled_grays(maxval: u32, bytes: &[u8], row: &mut [u16])
    requires maxval { 1 ≤ maxval }
    requires byte { maxval < 256 }
    requires size { length row.old ≡ 3 * length bytes.now }
    requires limit { (x : ℕ) → x < length bytes.now → slice_index bytes.now x ≤ maxval }
    ensures { (j : ℕ) → j < 3 * length bytes.now
        → slice_index row.new j ≡ slice_index bytes.now (j / 3) * 65535 / maxval }
{
    let scaling = ByteScaling::new(maxval);
    for x in 0..bytes.len() {
        let gray = scaling.apply(bytes[x]);
        put_gray(gray, x, row);
    }
}

/// Writes the samples of a row of colors of a byte each, by a product as those of grays.
fn write_scaled_colors(maxval: u32, bytes: &[u8], row: &mut [u16])
    requires maxval { 1 ≤ maxval }
    requires byte { maxval < 256 }
    requires size { length row.old ≡ length bytes.now }
    requires limit { (j : ℕ) → j < length bytes.now → slice_index bytes.now j ≤ maxval }
    ensures { (j : ℕ) → j < length bytes.now
        → slice_index row.new j ≡ slice_index bytes.now j * 65535 / maxval }
{
    let scaling = ByteScaling::new(maxval);
    for j in 0..bytes.len() {
        row[j] = scaling.apply(bytes[j]);
    }
}

/// Writes the samples that the bytes of one row show.
fn write_row(header: &Header, bytes: &[u8], row: &mut [u16])
    requires page { IsPageHeader header.now }
    requires bytes { length bytes.now ≡ file_row_size header.now }
    requires limit { NoneAbove header.now.maxval bytes.now (row_count header.now) }
    requires places { length row.old ≡ 3 * header.now.width }
    ensures { ShowsRow header.now bytes.now row.new }
{
    let maxval = header.maxval;
    match (header.format, maxval) {
        (PnmFormat::Ppm, 255) => write_colors(bytes, row),
        (PnmFormat::Ppm, 65535) => write_words(bytes, row),
        (PnmFormat::Ppm, 0..=254) => write_scaled_colors(maxval, bytes, row),
        (PnmFormat::Ppm, _) => write_color_words(maxval, bytes, row),
        (PnmFormat::Pbm | PnmFormat::Pgm, 255) => write_grays(bytes, row),
        (PnmFormat::Pbm | PnmFormat::Pgm, 65535) => write_wide_grays(bytes, row),
        (PnmFormat::Pbm | PnmFormat::Pgm, 0..=254) => write_scaled_grays(maxval, bytes, row),
        (PnmFormat::Pbm | PnmFormat::Pgm, _) => write_gray_words(maxval, bytes, row),
    }
}

/// Takes the next of the `rows` that are not used yet, of which the last `held` of `bytes` are held, and gives the place of
/// its first byte there. It fails where the file has no such row or a sample in it is above the greatest value.
fn take_row<R: Rereadable>(
    reader: &mut R,
    header: &Header,
    rows: u32,
    held: &mut u32,
    bytes: &mut [u8],
) -> Result<usize, ReadFault>
    requires page { IsPageHeader header.now }
    requires room { file_row_size header.now ≤ length bytes.old }
    requires rows { 1 ≤ rows }
    requires held { held.old ≤ rows }
    requires within { held.old * file_row_size header.now ≤ length bytes.old }
    ensures kept { R.is_kept reader.new ≡ R.is_kept reader.old }
    ensures text { R.text reader.new ≡ R.text reader.old }
    ensures held { held.new ≤ rows }
    ensures next { OnOk result (held.new + 1 ≤ rows) }
    ensures within { held.new * file_row_size header.now ≤ length bytes.new }
    ensures place { IfOk result (λ from. from + file_row_size header.now ≤ length bytes.new) }
    ensures fits { IfOk result (λ from. NoneAbove header.now.maxval
        (slice_range bytes.new from (from + file_row_size header.now)) (row_count header.now)) }
    ensures read { IfOk result (λ from. R.is_kept reader.old ≡ true → TakesRowAt header.now
        (row_room held.old bytes.old (R.left reader.old)) from
        (row_room held.new bytes.new (R.left reader.new))) }
    ensures failed { OnErr result (R.is_kept reader.old ≡ true
        → HasRows header.now rows
        (unused_bytes (file_row_size header.now) held.old bytes.old (R.left reader.old))
        → R.faults reader.old < R.faults reader.new) }
{
    let size = raster_size(&row_header(header));
    let mut reads = 0;
    if !hold_rows(reader, size, rows, held, bytes, &mut reads)? {
        return Err(ReadFault);
    }
    let from = bytes.len() - *held as usize * size;
    *held -= 1;
    let count = sample_count(&row_header(header));
    if !all_fit(header.maxval, &bytes[from..from + size], count) {
        return Err(ReadFault);
    }
    Ok(from)
}

/// Writes the samples of the next of the `rows` that are not used yet, of which the last `held` of `bytes` are held. It
/// fails where the file has no such row or a sample in it is above the greatest value.
pub fn read_row<R: Rereadable>(
    reader: &mut R,
    header: &Header,
    rows: u32,
    held: &mut u32,
    bytes: &mut [u8],
    row: &mut [u16],
) -> Result<(), ReadFault>
    requires page { IsPageHeader header.now }
    requires room { file_row_size header.now ≤ length bytes.old }
    requires rows { 1 ≤ rows }
    requires held { held.old ≤ rows }
    requires within { held.old * file_row_size header.now ≤ length bytes.old }
    requires places { length row.old ≡ 3 * header.now.width }
    ensures kept { R.is_kept reader.new ≡ R.is_kept reader.old }
    ensures text { R.text reader.new ≡ R.text reader.old }
    ensures held { held.new ≤ rows }
    ensures next { OnOk result (held.new + 1 ≤ rows) }
    ensures within { held.new * file_row_size header.now ≤ length bytes.new }
    ensures read { OnOk result (R.is_kept reader.old ≡ true → TakesRow header.now
        (row_room held.old bytes.old (R.left reader.old))
        (row_room held.new bytes.new (R.left reader.new)) row.new) }
    ensures failed { OnErr result (R.is_kept reader.old ≡ true
        → HasRows header.now rows
        (unused_bytes (file_row_size header.now) held.old bytes.old (R.left reader.old))
        → R.faults reader.old < R.faults reader.new) }
{
    let size = raster_size(&row_header(header));
    let from = take_row(reader, header, rows, held, bytes)?;
    write_row(header, &bytes[from..from + size], row);
    Ok(())
}

/// A row of so many bytes is read by itself, straight to where its bytes are wanted: to copy it takes longer than a read more.
const LONG_ROW: usize = 16384;

/// Reads the next row, whose bytes are the upper bytes of its samples, where none are held. It fails where the file has none.
fn read_straight<R: Rereadable>(
    reader: &mut R,
    header: &Header,
    rows: u32,
    at: usize,
    part: &mut [u8],
) -> Result<(), ReadFault>
    requires page { IsPageHeader header.now }
    requires bytes { header.now.maxval ≡ 255 }
    requires rows { 1 ≤ rows }
    requires size { length part.old ≡ file_row_size header.now }
    requires inside { at + length part.old ≤ row_count header.now }
    ensures kept { R.is_kept reader.new ≡ R.is_kept reader.old }
    ensures text { R.text reader.new ≡ R.text reader.old }
    ensures read { OnOk result (R.is_kept reader.old ≡ true
        → GivesPartOf header.now at (R.left reader.old) (R.left reader.new) part.new) }
    ensures failed { OnErr result (R.is_kept reader.old ≡ true
        → HasRows header.now rows (R.left reader.old)
        → R.faults reader.old < R.faults reader.new) }
{
    let mut reads = 0;
    if !fill(reader, part, &mut reads)? {
        return Err(ReadFault);
    }
    Ok(())
}

/// Writes the upper bytes of the samples that the next row's numbers show, from the `at`-th on, as `read_row` writes samples.
pub fn read_row_bytes<R: Rereadable>(
    reader: &mut R,
    header: &Header,
    rows: u32,
    held: &mut u32,
    bytes: &mut [u8],
    at: usize,
    part: &mut [u8],
) -> Result<(), ReadFault>
    requires page { IsPageHeader header.now }
    requires room { file_row_size header.now ≤ length bytes.old }
    requires rows { 1 ≤ rows }
    requires held { held.old ≤ rows }
    requires within { held.old * file_row_size header.now ≤ length bytes.old }
    requires inside { at + length part.old ≤ row_count header.now }
    ensures kept { R.is_kept reader.new ≡ R.is_kept reader.old }
    ensures text { R.text reader.new ≡ R.text reader.old }
    ensures held { held.new ≤ rows }
    ensures next { OnOk result (held.new + 1 ≤ rows) }
    ensures within { held.new * file_row_size header.now ≤ length bytes.new }
    ensures read { OnOk result (R.is_kept reader.old ≡ true → TakesPart header.now at
        (row_room held.old bytes.old (R.left reader.old))
        (row_room held.new bytes.new (R.left reader.new)) part.new) }
    ensures failed { OnErr result (R.is_kept reader.old ≡ true
        → HasRows header.now rows
        (unused_bytes (file_row_size header.now) held.old bytes.old (R.left reader.old))
        → R.faults reader.old < R.faults reader.new) }
{
    let size = raster_size(&row_header(header));
    if header.maxval == 255 && *held == 0 && size >= LONG_ROW && part.len() == size {
        return read_straight(reader, header, rows, at, part);
    }
    let from = take_row(reader, header, rows, held, bytes)?;
    put_upper_bytes(header.maxval, &bytes[from..from + size], at, part);
    Ok(())
}

/// Writes the bytes of every third of a row's numbers, from the `at`-th on.
fn put_thirds(maxval: u32, bytes: &[u8], at: usize, part: &mut [u8])
    requires few { at ≤ 65536 }
    requires whole { length part.old % sample_bytes maxval ≡ 0 }
    requires inside { sample_bytes maxval * at + 3 * length part.old
        ≤ length bytes.now + 2 * sample_bytes maxval }
    ensures { (j : ℕ) → j < length part.old
        → slice_index part.new j ≡ third_byte maxval bytes.now at j }
{
    if maxval < 256 {
        put_third_bytes(bytes, at, part);
    } else {
        put_third_words(bytes, 2 * at, part);
    }
}

/// Writes the bytes of every third of the next row's numbers, from the `at`-th on, as `read_row` writes samples.
pub fn read_row_thirds<R: Rereadable>(
    reader: &mut R,
    header: &Header,
    rows: u32,
    held: &mut u32,
    bytes: &mut [u8],
    at: usize,
    part: &mut [u8],
) -> Result<(), ReadFault>
    requires page { IsPageHeader header.now }
    requires room { file_row_size header.now ≤ length bytes.old }
    requires rows { 1 ≤ rows }
    requires held { held.old ≤ rows }
    requires within { held.old * file_row_size header.now ≤ length bytes.old }
    requires few { at ≤ 65536 }
    requires whole { length part.old % sample_bytes header.now.maxval ≡ 0 }
    requires inside { sample_bytes header.now.maxval * at + 3 * length part.old
        ≤ file_row_size header.now + 2 * sample_bytes header.now.maxval }
    ensures kept { R.is_kept reader.new ≡ R.is_kept reader.old }
    ensures text { R.text reader.new ≡ R.text reader.old }
    ensures held { held.new ≤ rows }
    ensures next { OnOk result (held.new + 1 ≤ rows) }
    ensures within { held.new * file_row_size header.now ≤ length bytes.new }
    ensures read { OnOk result (R.is_kept reader.old ≡ true → TakesThirds header.now at
        (row_room held.old bytes.old (R.left reader.old))
        (row_room held.new bytes.new (R.left reader.new)) part.new) }
    ensures failed { OnErr result (R.is_kept reader.old ≡ true
        → HasRows header.now rows
        (unused_bytes (file_row_size header.now) held.old bytes.old (R.left reader.old))
        → R.faults reader.old < R.faults reader.new) }
{
    let size = raster_size(&row_header(header));
    let from = take_row(reader, header, rows, held, bytes)?;
    put_thirds(header.maxval, &bytes[from..from + size], at, part);
    Ok(())
}

/// Reads all rows once through; false where a sample is above the greatest value.
fn check_rows<R: Rereadable>(
    reader: &mut R,
    header: &Header,
    bytes: &mut [u8],
    reads: &mut u64,
) -> Result<bool, OpenFault>
    requires page { IsPageHeader header.now }
    requires room { file_row_size header.now ≤ length bytes.old }
    ensures kept { R.is_kept reader.new ≡ R.is_kept reader.old }
    ensures text { R.text reader.new ≡ R.text reader.old }
    ensures read { IfOk result (λ _. R.is_kept reader.old ≡ true
        → ReadsRaster header.now (R.left reader.old) (R.left reader.new)) }
    ensures few { IfOk result (λ _. R.is_kept reader.old ≡ true
        → reads.new + length (R.left reader.new) ≤ reads.old + length (R.left reader.old)) }
    ensures worked { IfOk result (λ _. R.is_kept reader.old ≡ true
        → R.faults reader.new ≡ R.faults reader.old) }
    ensures failed { IfErr result (λ fault. fault ≡ OpenFault.Device
        → FailsWithin (R.is_kept reader.old) reads.old
        (R.left reader.old) (R.faults reader.old) (R.faults reader.new)) }
    ensures fits { IfOk result (λ fits. R.is_kept reader.old ≡ true
        → TellsFit fits header.now (R.left reader.old)) }
    ensures file { IfErr result (λ fault. IsOfFile fault) }
    ensures fault { IfErr result (λ fault. R.is_kept reader.old ≡ true
        → HasOpenFaultAfter fault header.now (R.left reader.old)) }
{
    let size = raster_size(&row_header(header));
    let count = sample_count(&row_header(header));
    let mut fit = true;
    let mut held = 0;
    // A read fills the room, so that the rows of a narrow page need few.
    for y in 0..header.height {
        if !hold_rows(reader, size, header.height - y, &mut held, bytes, reads)? {
            return Err(OpenFault::Page(PageFault::Short));
        }
        let from = bytes.len() - held as usize * size;
        fit &= all_fit(header.maxval, &bytes[from..from + size], count);
        held -= 1;
    }
    Ok(fit)
}

/// Reads the raster once through.
pub fn check_raster<R: Rereadable>(
    reader: &mut R,
    header: &Header,
    bytes: &mut [u8],
    reads: &mut u64,
) -> Result<(), OpenFault>
    requires page { IsPageHeader header.now }
    requires room { file_row_size header.now ≤ length bytes.old }
    ensures kept { R.is_kept reader.new ≡ R.is_kept reader.old }
    ensures text { R.text reader.new ≡ R.text reader.old }
    ensures worked { OnOk result (R.is_kept reader.old ≡ true
        → R.faults reader.new ≡ R.faults reader.old) }
    ensures failed { IfErr result (λ fault. fault ≡ OpenFault.Device
        → FailsWithin (R.is_kept reader.old) reads.old
        (R.left reader.old) (R.faults reader.old) (R.faults reader.new)) }
    ensures raster { OnOk result (R.is_kept reader.old ≡ true
        → IsRaster header.now (R.left reader.old)) }
    ensures file { IfErr result (λ fault. IsOfFile fault) }
    ensures fault { IfErr result (λ fault. R.is_kept reader.old ≡ true
        → HasOpenFaultAfter fault header.now (R.left reader.old)) }
{
    let fit = check_rows(reader, header, bytes, reads)?;
    if fill(reader, &mut [0u8; 1], reads)? {
        return Err(OpenFault::Page(PageFault::Trailing));
    }
    if !fit {
        return Err(OpenFault::Page(PageFault::SampleTooLarge));
    }
    Ok(())
}
