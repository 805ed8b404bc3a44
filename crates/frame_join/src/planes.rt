ghost use Rattle.std.specs.Prelude.{ℕ, ◌≡◌, ◌≤◌, ◌<◌, ◌+◌, ◌-◌, ◌*◌, ◌/◌, ◌%◌, ◌⊎◌, IfSome, false, is_some, length, slice_index};
ghost use Rattle.frame_join.specs.KeptFrame.{color_number};
ghost use Rattle.frame_join.specs.ColorPlanes.{no_plane, nth_plane, side_byte};
ghost use Rattle.frame_join.specs.FrameFile.{place_in};
ghost use Rattle.frame_join.specs.Inside.{no_planes, is_there, has_two, put_plane};

use crate::alone_frame::place_in;
use crate::kept_frame::color_number;
use sane_fixed::{ByteOrder, FrameFormat};
use std::alloc::Global;
use std::marker::Model;
use std::mem::swap;
use vector_lanes::words::{listed, loaded, turned};

/// One color of a picture: how many bytes a line has, and the bytes.
#[derive(Drop)]
pub(crate) struct Plane {
    line: u32,
    bytes: Vec<u8>,
}

impl Model for Plane {
    ghost use Rattle.frame_join.specs.ColorPlanes.{Plane as Shown};
    ghost use Rattle.frame_join.specs.PlaneInside.{plane_seen};

    ghost Value = { Shown };

    ghost view = { plane_seen };
}

/// Puts the bytes of three colors side by side, one of each, from place `first` on.
fn weave(red: &[u8], green: &[u8], blue: &[u8], first: usize, buf: &mut [u8])
    requires green { length green.now ≡ length red.now }
    requires blue { length blue.now ≡ length red.now }
    requires room { first + 3 * length red.now ≤ length buf.old }
    requires few { length buf.old ≤ 1048576 }
    ensures red { (k : ℕ)
        → k < length red.now → slice_index buf.new (first + 3 * k) ≡ slice_index red.now k }
    ensures green { (k : ℕ)
        → k < length red.now → slice_index buf.new (first + 3 * k + 1) ≡ slice_index green.now k }
    ensures blue { (k : ℕ)
        → k < length red.now → slice_index buf.new (first + 3 * k + 2) ≡ slice_index blue.now k }
    ensures before { (i : ℕ) → i < first → slice_index buf.new i ≡ slice_index buf.old i }
    ensures behind { (i : ℕ)
        → first + 3 * length red.now ≤ i → slice_index buf.new i ≡ slice_index buf.old i }
{
    for k in 0..red.len() {
        buf[first + 3 * k] = red[k];
        buf[first + 3 * k + 1] = green[k];
        buf[first + 3 * k + 2] = blue[k];
    }
}

/// Sample `k` of a color of two bytes each; its lower byte stands `turn` behind its place, and the upper one at the other.
fn sample_at(color: &[u8], turn: usize, k: usize) -> u16
    requires turn { turn ≤ 1 }
    requires inside { 2 * k + 1 < length color.now }
    ensures lower { result % 256 ≡ slice_index color.now (2 * k + turn) }
    ensures upper { result / 256 ≡ slice_index color.now (2 * k + (1 - turn)) }
{
    let (lower, upper) = (color[2 * k + turn], color[2 * k + (1 - turn)]);
    256 * u16::from(upper) + u16::from(lower)
}

/// The eight samples from byte `at` on.
#[inline(always)]
fn eight_at(color: &[u8], turn: usize, at: usize) -> [u16; 8]
    requires turn { turn ≤ 1 }
    requires inside { at + 16 ≤ length color.now }
    ensures lower { (i : ℕ) → i < 8 →
        slice_index result i % 256 ≡ slice_index color.now (at + 2 * i + turn) }
    ensures upper { (i : ℕ) → i < 8 →
        slice_index result i / 256 ≡ slice_index color.now (at + 2 * i + (1 - turn)) }
{
    let samples = loaded(color, at);
    if turn == 0 {
        listed(samples)
    } else {
        listed(turned(samples))
    }
}

/// Puts the two bytes of a sample of each color side by side, the lower first, from place `at` on.
#[inline(always)]
fn put_pixel(red: u16, green: u16, blue: u16, at: usize, buf: &mut [u8])
    requires room { at + 6 ≤ length buf.old }
    requires few { length buf.old ≤ 1048576 }
    ensures red { slice_index buf.new at ≡ red % 256 }
    ensures red_upper { slice_index buf.new (at + 1) ≡ red / 256 }
    ensures green { slice_index buf.new (at + 2) ≡ green % 256 }
    ensures green_upper { slice_index buf.new (at + 3) ≡ green / 256 }
    ensures blue { slice_index buf.new (at + 4) ≡ blue % 256 }
    ensures blue_upper { slice_index buf.new (at + 5) ≡ blue / 256 }
    ensures before { (i : ℕ) → i < at → slice_index buf.new i ≡ slice_index buf.old i }
    ensures behind { (i : ℕ) → at + 6 ≤ i → slice_index buf.new i ≡ slice_index buf.old i }
{
    buf[at] = (red % 256) as u8;
    buf[at + 1] = (red / 256) as u8;
    buf[at + 2] = (green % 256) as u8;
    buf[at + 3] = (green / 256) as u8;
    buf[at + 4] = (blue % 256) as u8;
    buf[at + 5] = (blue / 256) as u8;
}

/// The same of eight pixels.
#[inline(always)]
fn put_eight(reds: [u16; 8], greens: [u16; 8], blues: [u16; 8], at: usize, buf: &mut [u8])
    requires room { at + 48 ≤ length buf.old }
    requires few { length buf.old ≤ 1048576 }
    ensures red { (k : ℕ) → k < 8 →
        slice_index buf.new (at + 6 * k) ≡ slice_index reds k % 256 }
    ensures red_upper { (k : ℕ) → k < 8 →
        slice_index buf.new (at + 6 * k + 1) ≡ slice_index reds k / 256 }
    ensures green { (k : ℕ) → k < 8 →
        slice_index buf.new (at + 6 * k + 2) ≡ slice_index greens k % 256 }
    ensures green_upper { (k : ℕ) → k < 8 →
        slice_index buf.new (at + 6 * k + 3) ≡ slice_index greens k / 256 }
    ensures blue { (k : ℕ) → k < 8 →
        slice_index buf.new (at + 6 * k + 4) ≡ slice_index blues k % 256 }
    ensures blue_upper { (k : ℕ) → k < 8 →
        slice_index buf.new (at + 6 * k + 5) ≡ slice_index blues k / 256 }
    ensures before { (i : ℕ) → i < at → slice_index buf.new i ≡ slice_index buf.old i }
    ensures behind { (i : ℕ) → at + 48 ≤ i → slice_index buf.new i ≡ slice_index buf.old i }
{
    for k in 0..8 {
        put_pixel(reds[k], greens[k], blues[k], at + 6 * k, buf);
    }
}

/// Puts the samples of three colors of two bytes each side by side, from place `first` on: of each the byte `turn` behind
/// its place, and then the other. Eight pixels are put at once, since a byte alone takes as long as sixteen do.
fn weave_words(red: &[u8], green: &[u8], blue: &[u8], turn: usize, first: usize, buf: &mut [u8])
    requires turn { turn ≤ 1 }
    requires even { length red.now % 2 ≡ 0 }
    requires green { length green.now ≡ length red.now }
    requires blue { length blue.now ≡ length red.now }
    requires room { first + 3 * length red.now ≤ length buf.old }
    requires few { length buf.old ≤ 1048576 }
    ensures red { (k : ℕ) → 2 * k < length red.now →
        slice_index buf.new (first + 6 * k) ≡ slice_index red.now (2 * k + turn) }
    ensures red_other { (k : ℕ) → 2 * k < length red.now →
        slice_index buf.new (first + 6 * k + 1) ≡ slice_index red.now (2 * k + (1 - turn)) }
    ensures green { (k : ℕ) → 2 * k < length red.now →
        slice_index buf.new (first + 6 * k + 2) ≡ slice_index green.now (2 * k + turn) }
    ensures green_other { (k : ℕ) → 2 * k < length red.now →
        slice_index buf.new (first + 6 * k + 3) ≡ slice_index green.now (2 * k + (1 - turn)) }
    ensures blue { (k : ℕ) → 2 * k < length red.now →
        slice_index buf.new (first + 6 * k + 4) ≡ slice_index blue.now (2 * k + turn) }
    ensures blue_other { (k : ℕ) → 2 * k < length red.now →
        slice_index buf.new (first + 6 * k + 5) ≡ slice_index blue.now (2 * k + (1 - turn)) }
    ensures before { (i : ℕ) → i < first → slice_index buf.new i ≡ slice_index buf.old i }
    ensures behind { (i : ℕ) → first + 3 * length red.now ≤ i →
        slice_index buf.new i ≡ slice_index buf.old i }
{
    let eights = red.len() / 16;
    for n in 0..eights {
        let reds = eight_at(red, turn, 16 * n);
        let greens = eight_at(green, turn, 16 * n);
        let blues = eight_at(blue, turn, 16 * n);
        put_eight(reds, greens, blues, first + 48 * n, buf);
    }
    for k in 8 * eights..red.len() / 2 {
        let (reddish, greenish) = (sample_at(red, turn, k), sample_at(green, turn, k));
        put_pixel(
            reddish,
            greenish,
            sample_at(blue, turn, k),
            first + 6 * k,
            buf,
        );
    }
}

impl Plane {
    fn new(alloc: Global) -> Plane
        ensures { result ≡ no_plane }
    {
        Plane {
            line: 0,
            bytes: Vec::new(alloc),
        }
    }

    fn is_there(&self) -> bool
        ensures { result ≡ is_there self.now }
    {
        0 < self.line
    }

    /// The byte of that row and place; 0 past the end.
    fn byte_at(&self, y: u32, place: usize) -> u8
        requires { place < 1048576 }
        ensures { result ≡ slice_index self.now.bytes (y * self.now.line + place) }
    {
        let at = y as usize * self.line as usize + place;
        match self.bytes.get(at) {
            Some(byte) => *byte,
            None => 0,
        }
    }

    /// So many bytes of a row from a place on, if the color has them.
    fn part(&self, y: u32, place: usize, count: usize) -> Option<&[u8]>
        requires place { place ≤ 1048576 }
        requires count { count ≤ 1048576 }
        ensures size { IfSome result (λ part. length part.now ≡ count) }
        ensures bytes { IfSome result (λ part. (k : ℕ) → k < count → slice_index part.now k
            ≡ slice_index self.now.bytes (y * self.now.line + (place + k))) }
        ensures none { is_some result ≡ false
            → length self.now.bytes < y * self.now.line + (place + count) }
    {
        let start = y as usize * self.line as usize + place;
        if start + count > self.bytes.len() {
            return None;
        }
        Some(&self.bytes[start..start + count])
    }

    /// Takes the bytes of a frame, and gives back those that it had.
    fn put(&mut self, line: u32, bytes: &mut Vec<u8>)
        ensures given { bytes.new.items ≡ self.old.bytes }
        ensures value { self.new ≡ record { line = line; bytes = bytes.old.items } }
    {
        self.line = line;
        swap(&mut self.bytes, bytes);
    }
}

/// The three colors of a picture.
#[derive(Drop)]
pub(crate) struct Planes {
    red: Plane,
    green: Plane,
    blue: Plane,
}

impl Model for Planes {
    ghost use Rattle.frame_join.specs.ColorPlanes.{Planes as Shown};
    ghost use Rattle.frame_join.specs.PlanesInside.{planes_seen};

    ghost Value = { Shown };

    ghost view = { planes_seen };
}

impl Planes {
    pub(crate) fn new(alloc: Global) -> Planes
        ensures { result ≡ no_planes }
    {
        Planes {
            red: Plane::new(alloc),
            green: Plane::new(alloc),
            blue: Plane::new(alloc),
        }
    }

    /// Whether two of the colors are there.
    pub(crate) fn has_two(&self) -> bool
        ensures { result ≡ has_two self.now }
    {
        self.red.is_there() && (self.green.is_there() || self.blue.is_there())
            || self.green.is_there() && self.blue.is_there()
    }

    /// Whether the color is there.
    pub(crate) fn has(&self, color: FrameFormat) -> bool
        ensures { result ≡ is_there (nth_plane self.now (color_number color)) }
    {
        match color_number(color) {
            0 => self.red.is_there(),
            1 => self.green.is_there(),
            _ => self.blue.is_there(),
        }
    }

    /// Takes the bytes of the frame of a color, and gives back those that the color had.
    pub(crate) fn put(&mut self, color: FrameFormat, line: u32, bytes: &mut Vec<u8>)
        ensures given { bytes.new.items ≡ (nth_plane self.old (color_number color)).bytes }
        ensures value { self.new ≡ put_plane (color_number color)
            (record { line = line; bytes = bytes.old.items }) self.old }
    {
        match color_number(color) {
            0 => self.red.put(line, bytes),
            1 => self.green.put(line, bytes),
            _ => self.blue.put(line, bytes),
        }
    }

    /// Byte `place` of row `y` where the three colors of each pixel stand side by side.
    fn side_byte(&self, depth: u32, y: u32, place: usize) -> u8
        requires place { place < 1048576 }
        requires depth { (depth ≡ 8) ⊎ (depth ≡ 16) }
        ensures { result ≡ side_byte self.now depth y place }
    {
        let (color, at) = if depth == 8 {
            (place % 3, place / 3)
        } else {
            (place / 2 % 3, place / 6 * 2 + place % 2)
        };
        match color {
            0 => self.red.byte_at(y, at),
            1 => self.green.byte_at(y, at),
            _ => self.blue.byte_at(y, at),
        }
    }

    /// The same as `put_side` or `put_side_words`, byte by byte, between two places of `buf`.
    fn put_between(
        &self,
        depth: u32,
        order: ByteOrder,
        y: u32,
        from: usize,
        start: usize,
        end: usize,
        buf: &mut [u8],
    )
        requires depth { (depth ≡ 8) ⊎ (depth ≡ 16) }
        requires place { from + length buf.old ≤ 1048576 }
        requires order { start ≤ end }
        requires room { end ≤ length buf.old }
        ensures here { (i : ℕ) → start ≤ i → i < end →
            slice_index buf.new i ≡ side_byte self.now depth y (place_in order depth (from + i)) }
        ensures before { (i : ℕ) → i < start → slice_index buf.new i ≡ slice_index buf.old i }
        ensures behind { (i : ℕ) → end ≤ i → slice_index buf.new i ≡ slice_index buf.old i }
    {
        for i in start..end {
            buf[i] = self.side_byte(depth, y, place_in(order, depth, from + i));
        }
    }

    /// Puts the bytes of row `y` from place `from` on, where the three colors of each pixel stand side by side, a byte each.
    pub(crate) fn put_side(&self, y: u32, from: usize, buf: &mut [u8])
        requires place { from + length buf.old ≤ 1048576 }
        ensures { (i : ℕ)
            → i < length buf.old → slice_index buf.new i ≡ side_byte self.now 8 y (from + i) }
    {
        // What stands before the first whole pixel, and how many of these there are.
        let head = ((3 - from % 3) % 3).min(buf.len());
        let count = (buf.len() - head) / 3;
        let (place, end) = ((from + head) / 3, head + 3 * count);
        let red = self.red.part(y, place, count);
        let green = self.green.part(y, place, count);
        let blue = self.blue.part(y, place, count);
        let (Some(red), Some(green), Some(blue)) = (red, green, blue) else {
            return self.put_between(8, ByteOrder::Big, y, from, 0, buf.len(), buf);
        };
        self.put_between(8, ByteOrder::Big, y, from, 0, head, buf);
        weave(red, green, blue, head, buf);
        self.put_between(8, ByteOrder::Big, y, from, end, buf.len(), buf);
    }

    /// Puts the bytes of row `y` of the file from place `from` on. The three colors of each pixel stand side by side, two bytes
    /// each, in the order that the colors have.
    pub(crate) fn put_side_words(&self, order: ByteOrder, y: u32, from: usize, buf: &mut [u8])
        requires place { from + length buf.old ≤ 1048576 }
        ensures { (i : ℕ) → i < length buf.old →
            slice_index buf.new i ≡ side_byte self.now 16 y (place_in order 16 (from + i)) }
    {
        // What stands before the first whole pixel, and how many of these there are.
        let head = ((6 - from % 6) % 6).min(buf.len());
        let count = (buf.len() - head) / 6;
        let (place, end) = (2 * ((from + head) / 6), head + 6 * count);
        let red = self.red.part(y, place, 2 * count);
        let green = self.green.part(y, place, 2 * count);
        let blue = self.blue.part(y, place, 2 * count);
        let (Some(red), Some(green), Some(blue)) = (red, green, blue) else {
            return self.put_between(16, order, y, from, 0, buf.len(), buf);
        };
        // Of each sample the byte that goes first stands so far behind its place.
        let turn = place_in(order, 16, 0);
        self.put_between(16, order, y, from, 0, head, buf);
        weave_words(red, green, blue, turn, head, buf);
        self.put_between(16, order, y, from, end, buf.len(), buf);
    }
}
