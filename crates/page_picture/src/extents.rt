ghost use Rattle.std.specs.Prelude.{◌≡◌, ◌≤◌, ◌<◌, ◌^◌, ℕ, [], slice_index, IfSome, slice_index_or};
ghost use Rattle.netpbm.specs.Picture.{IsPicture};
ghost use Rattle.page_picture.specs.Page.{IsPageView};
ghost use Rattle.page_picture.specs.Extent.{extent_on, extent_of, down, is_side, shows_depth, lines_over};
ghost use Rattle.page_picture.specs.Meaning.{picture_of};

use crate::page::Page;
use crate::scene::{DeviceKind, Mode, Scene};
use sane_fixed::px_between;

/// The lines from the top that lie on a page of `height` rows.
fn lines_on(height: u32, dpi: u32, resolution: u32) -> u32
    requires page { height ≤ 16384 }
    requires dots { dpi ≤ 1200 }
    requires some_dots { 1 ≤ dpi }
    requires known { resolution ≤ 1200 }
    ensures { result ≡ lines_over height dpi resolution }
{
    (height * resolution + (dpi - 1)) / dpi
}

/// The dots down the picture, on a page of `height` rows and `dpi` dots per inch.
fn dots_down(height: u32, dpi: u32, scene: &Scene) -> u32
    requires page { height ≤ 16384 }
    requires dots { dpi ≤ 1200 }
    requires some_dots { 1 ≤ dpi }
    requires known { scene.now.resolution ≤ 1200 }
    ensures { result ≡ down scene.now.kind height dpi scene.now }
{
    match scene.kind {
        DeviceKind::Hand => lines_on(height, dpi, scene.resolution),
        DeviceKind::Flatbed | DeviceKind::ThreePass | DeviceKind::Feeder => {
            px_between(scene.tl_y, scene.br_y, scene.resolution)
        }
    }
}

fn can_be_side(n: u32) -> bool
    ensures { result ≡ is_side n }
{
    1 <= n && n <= 65536
}

fn can_show_depth(scene: &Scene) -> bool
    ensures { result ≡ shows_depth scene.now.mode scene.now.depth }
{
    match scene.mode {
        Mode::Gray => true,
        Mode::Color => scene.depth != 1,
    }
}

/// The extent of a scene on a page of which only the height and the dots per inch are known.
pub fn extent_at(height: u32, dpi: u32, scene: &Scene) -> Option<(u32, u32)>
    requires page { height ≤ 16384 }
    requires dots { dpi ≤ 1200 }
    requires some_dots { 1 ≤ dpi }
    requires known { scene.now.resolution ≤ 1200 }
    ensures { result ≡ extent_on height dpi scene.now }
{
    let width = scene.across();
    let height = dots_down(height, dpi, scene);
    if can_show_depth(scene) && can_be_side(width) && can_be_side(height) {
        Some((width, height))
    } else {
        None
    }
}

/// Each entry of a table is a byte.
fn entries_are_bytes(table: &[u8])
    ensures { (i : ℕ) → slice_index table.now i < 2 ^ 8 }
{}

/// Each entry of three tables is a byte.
fn tables_are_bytes(tables: &[[u8; 256]; 3])
    ensures { (k i : ℕ) → slice_index (slice_index_or tables.now k []) i < 2 ^ 8 }
{
    entries_are_bytes(&tables[0][..]);
    entries_are_bytes(&tables[1][..]);
    entries_are_bytes(&tables[2][..]);
}

/// The width and the height of the picture that the scene means on the page, 1 to 65,536 each;
/// `None` where there is no such picture.
pub fn extent(page: &Page, scene: &Scene) -> Option<(u32, u32)>
    requires { scene.now.resolution ≤ 1200 }
    /// `extent` is the definition of a picture's extent, for each kind of scanner.
    ensures value { result ≡ extent_of page.now scene.now }
    // What the scene means is a picture.
    ensures picture { IfSome result (λ size. IsPicture (picture_of page.now scene.now size)) }
{
    entries_are_bytes(&scene.gamma[..]);
    tables_are_bytes(&scene.channel_gamma);
    extent_at(page.height(), page.dpi(), scene)
}
