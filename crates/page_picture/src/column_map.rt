ghost use Rattle.std.specs.Prelude.{◌≡◌, ◌≤◌, ◌<◌, ◌+◌, ℕ, Option, None, length, slice_index, IfOk, IfSome};
ghost use Rattle.page_picture.specs.Columns.{IsRun, columns_of, column_at, place_at};

use crate::scene::Scene;
use sane_fixed::NoMem;
use std::alloc::{AllocError, Global};
use std::marker::Model;

/// Which column of a page each column of a picture shows. Contracts see `Columns`.
#[derive(Drop)]
pub struct ColumnMap {
    left: u32,
    dpi: u32,
    resolution: u32,
    width: u32,
    places: Vec<u32>,
}

impl Model for ColumnMap {
    ghost use Rattle.std.specs.Prelude.{ℕ, ◌<◌, ◌≡◌, length, slice_index};
    ghost use Rattle.page_picture.specs.Columns.{Columns, place_at};

    ghost Value = { Columns };

    ghost view = { λ m. record { left = m.left; dpi = m.dpi; resolution = m.resolution; width = m.width; count = length m.places.items } };

    ghost invariant = { λ m. (x : ℕ) → x < length m.places.items → slice_index m.places.items x ≡ place_at (record { left = m.left; dpi = m.dpi; resolution = m.resolution; width = m.width; count = length m.places.items }) x };
}

/// The column of a page of `width` columns that column `x` shows, or `width` where it lies off the page.
fn place(left: u32, x: u32, dpi: u32, resolution: u32, width: u32) -> u32
    requires some { 1 ≤ resolution }
    requires dots { dpi ≤ 1200 }
    ensures { result ≡ place_at (record {
      left = left;
      dpi = dpi;
      resolution = resolution;
      width = width;
      count = 0;
    }) x }
{
    let column = (u64::from(left) + u64::from(x)) * u64::from(dpi) / u64::from(resolution);
    if column < u64::from(width) {
        column as u32
    } else {
        width
    }
}

/// The places of all columns.
fn places(
    alloc: Global,
    left: u32,
    count: u32,
    dpi: u32,
    resolution: u32,
    width: u32,
) -> Result<Vec<u32>, AllocError>
    requires some { 1 ≤ resolution }
    requires dots { dpi ≤ 1200 }
    ensures size { IfOk result (λ places. length places.items ≡ count) }
    ensures each { IfOk result (λ places. (x : ℕ)
        → x < count → slice_index places.items x ≡ place_at (record {
          left = left;
          dpi = dpi;
          resolution = resolution;
          width = width;
          count = count;
        }) x) }
{
    let mut places = vec![in alloc; 0u32; count as usize]?;
    for x in 0..count {
        places[x as usize] = place(left, x, dpi, resolution, width);
    }
    Ok(places)
}

impl ColumnMap {
    /// The columns of a scene, of a resolution from 1 to 1,200 dots per inch, on a page of `width` columns and at most 1,200
    /// dots per inch. Its memory is taken here once.
    pub fn new(alloc: Global, scene: &Scene, width: u32, dpi: u32) -> Result<Self, NoMem>
        requires some { 1 ≤ scene.now.resolution }
        requires known { scene.now.resolution ≤ 1200 }
        requires dots { dpi ≤ 1200 }
        /// `ColumnMap` has the column that each place of a line shows, and none off the page.
        /// Carried by: `ColumnMap::new`, `at`
        ensures { IfOk result (λ columns. columns ≡ columns_of scene.now width dpi) }
    {
        let left = scene.left();
        let count = scene.across();
        let resolution = scene.resolution;
        let places = places(alloc, left, count, dpi, resolution, width)?;
        Ok(ColumnMap {
            left,
            dpi,
            resolution,
            width,
            places,
        })
    }

    /// The page's column that column `x` of the picture shows; `None` where it lies off the page.
    pub fn at(&self, x: u32) -> Option<u32>
        requires { x < self.now.count }
        ensures { result ≡ column_at self.now x }
    {
        let place = self.places[x as usize];
        if place < self.width {
            Some(place)
        } else {
            None
        }
    }

    /// The page's column that the first column of the picture shows, where all its columns lie on the page one beside the
    /// other, at the page's own dots per inch.
    pub fn run(&self) -> Option<u32>
        /// It tells the first of them just where they lie on the page one beside the other, at its own dots per inch.
        ensures first { IfSome result (λ first. first ≡ self.now.left) }
        ensures run { IfSome result (λ _. IsRun self.now) }
        ensures none { result ≡ None → ¬ (IsRun self.now) }
        ensures each { IfSome result (λ first. (x : ℕ)
            → x < self.now.count → place_at self.now x ≡ first + x) }
    {
        let end = u64::from(self.left) + self.places.len() as u64;
        if self.dpi == self.resolution && self.resolution > 0 && end <= u64::from(self.width) {
            Some(self.left)
        } else {
            None
        }
    }

    /// The page's columns that all columns of the picture show, with the page's width for those off the page.
    pub fn places(&self) -> &[u32]
        ensures size { length result.now ≡ self.now.count }
        ensures each { (x : ℕ)
            → x < self.now.count → slice_index result.now x ≡ place_at self.now x }
    {
        &self.places
    }
}
