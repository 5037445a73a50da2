ghost use Rattle.std.specs.Prelude.{◌≡◌, ◌≤◌, false, length, replicate};
ghost use Rattle.game_orders.specs.declared.limits.TheConstants.{MAX_CLIENTS};
ghost use Rattle.replay_file.specs.PartRules.{departed_in};

use crate::limits::CLIENT_ROOM;
use arrayvec::ArrayVec;
use game_orders::{Entry, Frame};
use std::marker::Model;

/// Who has departed: a flag for each client.
#[derive(Drop)]
pub struct Departed {
    held: ArrayVec<bool, CLIENT_ROOM>,
}

impl Model for Departed {
    ghost use Rattle.std.specs.Prelude.{Bool, List, ◌≤◌, length};
    ghost use Rattle.game_orders.specs.declared.limits.TheConstants.{MAX_CLIENTS};

    ghost Value = { List Bool };

    ghost view = { λ departed. departed.held.items };

    ghost invariant = { λ departed. length departed.held.items ≤ MAX_CLIENTS };
}

impl Departed {
    /// None of so many clients.
    pub(crate) fn nobody(clients: u8) -> Departed
        requires { clients ≤ MAX_CLIENTS }
        ensures { result ≡ replicate clients false }
    {
        let mut held = ArrayVec::new();
        for _client in 0..clients {
            held.push(false);
        }
        Departed { held }
    }

    /// Those who have departed in a frame.
    #[tactic(auto, using(crate::proofs::FrameLemmas::departed_more))]
    pub(crate) fn in_frame(frame: &Frame) -> Departed
        ensures { result ≡ departed_in frame.now }
    {
        let mut held = ArrayVec::new();
        for client in 0..frame.len() {
            let Some(entry) = frame.get(client) else {
                unreachable!()
            };
            held.push(!entry.is_play());
        }
        Departed { held }
    }

    /// The flags by rising client.
    pub(crate) fn as_slice(&self) -> &[bool]
        ensures value { result.now ≡ self.now }
        ensures limit { length result.now ≤ MAX_CLIENTS }
    {
        let _held = &self.held;
        self.held.as_slice()
    }
}
