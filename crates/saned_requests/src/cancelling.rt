//! A device that a word stands for is cancelled.

ghost use Rattle.std.specs.Prelude.{◌≡◌, option_map};
ghost use Rattle.dispatch.specs.Table.{seen_lease};
ghost use Rattle.saned_requests.specs.Holding.{cancelled_lease, seen_held, with_cancelled};

use device_api::Device;
use dispatch::Lease;

/// Cancels a device, where there is one.
fn cancel_lease<D: Device>(word: &mut Option<Lease<D>>)
    ensures { option_map (seen_lease D.state) word.new
        ≡ cancelled_lease (option_map (seen_lease D.state) word.old) }
{
    if let Some(lease) = word {
        lease.device.cancel();
    }
}

/// Cancels the device that a word stands for.
pub fn cancel_word<D: Device>(held: &mut [Option<Lease<D>>], word: usize)
    ensures { seen_held D.state held.new ≡ with_cancelled (seen_held D.state held.old) word }
{
    if word < held.len() {
        cancel_lease(&mut held[word]);
    }
}
