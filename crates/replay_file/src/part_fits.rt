ghost use Rattle.std.specs.Prelude.{◌≤◌, length};
ghost use Rattle.std.specs.List.{AllByRecursion};
ghost use Rattle.game_orders.specs.declared.limits.TheConstants.{MAX_CLIENTS};
ghost use Rattle.replay_file.specs.PartBytes.{FitsEntry};

use game_orders::{Entry, Frame, orders_fit};

/// The numbers of an entry that code holds fit their fields. The call does nothing.
fn entry_fits(entry: &Entry)
    ensures { FitsEntry entry.now }
{
    if let Entry::Play(orders) = entry {
        orders_fit(orders);
    }
}

/// The numbers of a frame that code holds fit their fields. The call does nothing.
#[tactic(auto, using(crate::proofs::FrameLemmas::entry_fits_too))]
pub(crate) fn frame_fits(frame: &Frame)
    ensures fits { AllByRecursion FitsEntry frame.now }
    ensures few { length frame.now ≤ MAX_CLIENTS }
{
    for client in 0..frame.len() {
        let Some(entry) = frame.get(client) else {
            unreachable!()
        };
        entry_fits(entry);
    }
}
