ghost use Rattle.std.specs.Prelude.{◌≡◌, ◌≤◌, ◌<◌, ◌^◌};
ghost use Rattle.page_picture.specs.Extent.{IsInside};
ghost use Rattle.page_picture.specs.Seen.{dot_at, seen_at};
ghost use Rattle.page_picture.specs.Tone.{brightness, in_channel, tone};
ghost use Rattle.page_picture.specs.Meaning.{sample_of, channels_in, greatest_at};

use crate::page::Page;
use crate::scene::{Mode, Scene};

/// The page's sample at a dot, or white off the page.
fn dot(page: &Page, column: u64, row: u64, k: u32) -> u16
    requires { k < 3 }
    ensures { result ≡ dot_at page.now column row k }
{
    if column < u64::from(page.width()) && row < u64::from(page.height()) {
        page.at(column as u32, row as u32, k)
    } else {
        u16::MAX
    }
}

/// The page's sample that a place of the picture shows.
fn seen(page: &Page, scene: &Scene, x: u32, y: u32, k: u32) -> u16
    requires some_dots { 1 ≤ scene.now.resolution }
    requires known { scene.now.resolution ≤ 1200 }
    requires channel { k < 3 }
    ensures { result ≡ seen_at page.now scene.now x y k }
{
    let dpi = u64::from(page.dpi());
    let resolution = u64::from(scene.resolution);
    let column = (u64::from(scene.left()) + u64::from(x)) * dpi / resolution;
    let row = (u64::from(scene.top()) + u64::from(y)) * dpi / resolution;
    dot(page, column, row, k)
}

/// The brightness that the scene sees at a place.
fn light(page: &Page, scene: &Scene, x: u32, y: u32, k: u32) -> u16
    requires some_dots { 1 ≤ scene.now.resolution }
    requires known { scene.now.resolution ≤ 1200 }
    requires channel { k < channels_in scene.now.mode }
    ensures { result ≡ brightness scene.now.mode (seen_at page.now scene.now x y) k }
{
    match scene.mode {
        Mode::Gray => {
            let red = u32::from(seen(page, scene, x, y, 0));
            let green = u32::from(seen(page, scene, x, y, 1));
            let blue = u32::from(seen(page, scene, x, y, 2));
            ((299 * red + 587 * green + 114 * blue) / 1000) as u16
        }
        Mode::Color => seen(page, scene, x, y, k),
    }
}

/// The greatest sample at a depth.
pub fn greatest(depth: u32) -> u32
    ensures { result ≡ greatest_at depth }
{
    if depth == 16 {
        65535
    } else if depth == 8 {
        255
    } else {
        1
    }
}

/// What a brightness becomes at a depth of 1, 8 or 16 bits, under the tone table.
pub fn toned(depth: u32, table: &[u8; 256], light: u16) -> u16
    ensures value { result ≡ tone depth table.now light }
    ensures limit { result ≤ greatest_at depth }
{
    let entry = table[light as usize / 256];
    if depth == 16 {
        light
    } else if depth == 8 {
        u16::from(entry)
    } else if entry < 128 {
        1
    } else {
        0
    }
}

/// What a tone becomes in a channel.
pub fn in_channel(scene: &Scene, k: u32, tone: u16) -> u16
    requires channel { k < 3 }
    requires tone { tone ≤ greatest_at scene.now.depth }
    ensures value { result
        ≡ in_channel scene.now.mode scene.now.depth scene.now.channel_gamma k tone }
    ensures limit { result ≤ greatest_at scene.now.depth }
{
    match scene.mode {
        Mode::Gray => tone,
        Mode::Color => {
            if scene.depth == 8 {
                u16::from(scene.channel_gamma[k as usize][tone as usize])
            } else {
                tone
            }
        }
    }
}

/// The sample of the picture at column `x` of row `y` in channel `k`: 0 in gray, else 0 red, 1 green, 2 blue. The place must
/// lie in the picture, whose resolution is at most 1,200 dots per inch.
#[tactic(auto, unfolding(crate::specs::Meaning::sample_of))]
pub fn sample(page: &Page, scene: &Scene, x: u32, y: u32, k: u32) -> u16
    requires known { scene.now.resolution ≤ 1200 }
    requires inside { IsInside page.now scene.now x y }
    requires channel { k < channels_in scene.now.mode }
    /// `sample` is the definition of seen and tone, gray and color, depths 1, 8 and 16.
    /// Carried by: `value` of `sample`
    ensures value { result ≡ sample_of page.now scene.now x y k }
    // It is at most the greatest sample of the depth.
    ensures limit { result ≤ greatest_at scene.now.depth }
{
    let tone = toned(scene.depth, &scene.gamma, light(page, scene, x, y, k));
    in_channel(scene, k, tone)
}
