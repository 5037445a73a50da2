ghost use Rattle.std.specs.Prelude.{◌≡◌, ◌<◌, ◌≤◌};
ghost use Rattle.game_orders.specs.declared.limits.TheConstants.{MAX_FRAMES};
ghost use Rattle.match_run.specs.Local.{frames_of, longest};

use drill_words::Scripts;
use frame_core::Columns;

/// The number of frames of a match with these columns: the greatest number of plays of one.
pub fn longest(columns: &Columns) -> u32
    ensures { result ≡ longest columns.now }
{
    let mut most: u32 = 0;
    for c in 0..columns.clients() {
        most = most.max(columns.plays(c));
    }
    most
}

/// The number of frames of a match of these scripts: that of the longest, at most `MAX_FRAMES`.
pub fn frames_of(scripts: &Scripts) -> u32
    ensures value { result ≡ frames_of scripts.now }
    ensures most { result ≤ MAX_FRAMES }
{
    let mut most: u32 = 0;
    for c in 0..scripts.clients() {
        most = most.max(scripts.plays(c).len() as u32);
    }
    most
}
