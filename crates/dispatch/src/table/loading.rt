ghost use Rattle.std.specs.Prelude.{◌≡◌, ◌<◌, length, IfErr};
ghost use Rattle.page_picture.specs.Source.{SourceState};
ghost use Rattle.dispatch.specs.Table.{seen_slot, load_of, loaded_slot, without_return};

use crate::table::place::Slot;
use device_api::Device;
use page_picture::PageSource;
use page_sources::Source;
use sane_fixed::Status;

/// Another page for the device in a slot: `DeviceBusy` where it is out, is not at rest or has no room for a page.
pub fn load_slot<D: Device>(slot: &mut Slot<D>, page: Source) -> Result<(), (Status, Source)>
    ensures answer { without_return result ≡ load_of (seen_slot D.state slot.old) }
    ensures after { seen_slot D.state slot.new
        ≡ loaded_slot (seen_slot D.state slot.old) (⟦<Source as PageSource>⟧.source page) }
    ensures given_back { IfErr result (λ e. e.1 ≡ page) }
{
    match slot {
        Slot::In(device) => match device.load(page) {
            Ok(()) => Ok(()),
            Err(page) => Err((Status::DeviceBusy, page)),
        },
        _ => Err((Status::DeviceBusy, page)),
    }
}
