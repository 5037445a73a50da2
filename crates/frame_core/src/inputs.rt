ghost use Rattle.std.specs.Prelude.{◌≡◌, ◌<◌, ◌≤◌, ℕ, List, length, Some, slice_get};
ghost use Rattle.frame_core.specs.Input.{ready_of};

use crate::input::Input;
use crate::ready::Ready;
use game_orders::{MAX_CLIENTS, MAX_FRAMES};

/// What each client of a match has for each frame: the columns of a server, or what reached a peer.
pub trait Inputs {
    ghost use Rattle.frame_core.specs.declared.input.Input.{Input};

    /// What the clients, by rising number, have for a frame.
    ghost inputs: { Self → ℕ → List Input };

    /// The number of clients, at most `MAX_CLIENTS`.
    fn client_count(&self) -> u8
        ensures each { (n : ℕ) → length (inputs self.now n) ≡ result }
        ensures most { result ≤ MAX_CLIENTS };

    /// What client `c`, which is below the number of clients, has for frame `n`. Plays stand below
    /// `MAX_FRAMES`.
    fn input(&self, c: u8, n: u32) -> Input
        requires { c < length (inputs self.now n) }
        ensures value { slice_get (inputs self.now n) c ≡ Some result }
        ensures limit { result ≡ Input.Played → n < MAX_FRAMES };
}

/// Whether frame `n` is ready: `NotYet` with the least client that has nothing for it; else `Over`
/// where no client has played it.
#[tactic(auto, using(crate::proofs::InputSteps::missing_step, crate::proofs::InputSteps::played_step, crate::proofs::InputSteps::departed_step, crate::proofs::InputSteps::end_step))]
pub fn ready_by<I: Inputs>(inputs: &I, n: u32) -> Ready
    ensures value { result ≡ ready_of (I.inputs inputs.now n) }
    ensures limit { result ≡ Ready.Yes → n < MAX_FRAMES }
{
    let mut played = false;
    for c in 0..inputs.client_count() {
        match inputs.input(c, n) {
            Input::Missing => return Ready::NotYet(c),
            Input::Played => played = true,
            Input::Departed => {}
        }
    }
    if played { Ready::Yes } else { Ready::Over }
}
