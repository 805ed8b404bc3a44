//! Pages, scenes, and the pictures that scenes mean on pages.
#![tactic(auto)]

mod column_map;
mod extents;
mod laws;
mod page;
mod scene;
mod sources;
mod tones;

pub use column_map::ColumnMap;
pub use extents::{extent, extent_at};
pub use laws::lines_show_the_page;
pub use page::Page;
pub use scene::{DeviceKind, Mode, Scene};
pub use sources::{ByteRows, PageSource, SampleBytes, SourceFault};
pub use tones::{greatest, in_channel, sample, toned};
