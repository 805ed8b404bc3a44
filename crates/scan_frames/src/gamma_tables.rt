//! The tables of the channels at depth 8.

ghost use Rattle.std.specs.Prelude.{◌≡◌, ◌<◌, ℕ, slice_index};
ghost use Rattle.scan_frames.specs.Tables.{AreComposed};

use page_picture::Scene;

/// A channel's table after the gamma table: one table for both.
fn composed(gamma: &[u8; 256], channel: &[u8; 256]) -> [u8; 256]
    ensures { (v : ℕ)
        → v < 256 → slice_index result v ≡ slice_index channel.now (slice_index gamma.now v) }
{
    let mut table = [0u8; 256];
    for v in 0..256 {
        table[v] = channel[gamma[v] as usize];
    }
    table
}

/// For red, green and blue, what a sample becomes at depth 8, by its upper byte. Made once for a frame, so that a sample
/// is one look-up.
pub fn color_tables(scene: &Scene) -> [[u8; 256]; 3]
    ensures { AreComposed scene.now result }
{
    let [red, green, blue] = &scene.channel_gamma;
    [
        composed(&scene.gamma, red),
        composed(&scene.gamma, green),
        composed(&scene.gamma, blue),
    ]
}
