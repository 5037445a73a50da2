ghost use Rattle.std.specs.Prelude.{◌≡◌, ◌<◌, length};
ghost use Rattle.game_tick.specs.Departures.{gone_after};
ghost use Rattle.tick_core.specs.Departures.{departed_by};

use game_model::Gone;
use game_orders::{Entry, Frame};

/// Each client whose entry is a Leave becomes gone.
pub(crate) fn apply_departures(gone: &mut Gone, f: &Frame)
    requires { length f.now ≡ length gone.old }
    ensures flags { gone.new ≡ gone_after gone.old f.now }
    ensures clients { length gone.new ≡ length gone.old }
{
    for c in 0..gone.clients() {
        if let Some(entry) = f.get(usize::from(c)) {
            apply_departure(gone, c, entry);
        }
    }
}

/// Client `c` becomes gone where its entry is a Leave.
fn apply_departure(gone: &mut Gone, c: u8, entry: &Entry)
    requires { c < length gone.old }
    ensures { gone.new ≡ departed_by gone.old c entry.now }
{
    match entry {
        Entry::Play(_) => {}
        Entry::Leave => gone.set(c, true),
    }
}
