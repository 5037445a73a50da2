ghost use Rattle.std.specs.Prelude.{◌≡◌, ◌+◌, ◌<◌, ◌≤◌, ◌^◌, false, length, replicate};
ghost use Rattle.game_orders.specs.declared.limits.TheConstants.{MAX_CLIENTS};
ghost use Rattle.replay_file.specs.PartKind.{part_of};
ghost use Rattle.replay_file.specs.PartRules.{after_part, departed_in, opening};

use crate::departed::Departed;
use crate::part_kind::PartKind;
use game_orders::Frame;

/// What the next part of a replay depends on.
#[derive(Drop)]
pub struct Standing {
    /// Who had departed in the last frame.
    pub(crate) departed: Departed,
    /// How many frames there are.
    pub(crate) frames: u32,
    /// Whether the last part is a mark.
    pub(crate) marked: bool,
}

impl Standing {
    /// Before the first part of a replay of so many clients.
    pub(crate) fn opening(clients: u8) -> Standing
        requires { clients ≤ MAX_CLIENTS }
        ensures { result ≡ opening clients }
    {
        Standing {
            departed: Departed::nobody(clients),
            frames: 0,
            marked: false,
        }
    }

    /// After one more part, of this kind. The frames so far are below the greatest `u32`.
    pub(crate) fn pass(&mut self, kind: PartKind, frame: &Frame)
        requires { self.old.frames + 1 < 2 ^ 32 }
        ensures { self.new ≡ after_part self.old (part_of kind frame.now) }
    {
        match kind {
            PartKind::Frame => {
                self.departed = Departed::in_frame(frame);
                self.frames += 1;
                self.marked = false;
            }
            PartKind::Mark(_) => {
                self.marked = true;
            }
        }
    }
}
