use crate::sim::Sim;
use crate::summary::Summary;
use game_orders::{Frame, PerClient};

/// The least world, of two clients: it counts its steps, and keeps whether client 0 played in the
/// last one. It is for trying what is generic over worlds, and shows what a [`Sim`] has to define.
#[derive(Debug, Drop)]
pub struct Tally {
    steps: u32,
    played: bool,
}

impl Tally {
    ghost use Rattle.std.specs.Prelude.{◌≡◌, false};

    /// The world before its first step.
    pub fn new() -> Tally
        ensures steps { result.steps ≡ 0 }
        ensures played { result.played ≡ false }
    {
        Tally {
            steps: 0,
            played: false,
        }
    }

    /// The number of steps so far.
    pub fn step_count(&self) -> u32
        ensures { result ≡ self.now.steps }
    {
        self.steps
    }
}

impl Sim for Tally {
    ghost use Rattle.std.specs.Prelude.{◌+◌, ◌*◌, [], ◌∷◌, slice_get, if◌then◌else◌, false};
    ghost use Rattle.std.specs.Option.{option_map, unwrap_or};
    ghost use Rattle.game_orders.specs.Entry.{is_play};

    ghost clients_of = { λ w. 2 };

    ghost steps = { λ w. w.steps };

    ghost after = { λ w frame. record {
      steps = w.steps + 1;
      played = unwrap_or (option_map is_play
          (slice_get frame 0)) false;
    } };

    ghost hash_of = { λ w. w.steps * 2 + (if w.played then 1 else 0) };

    ghost summary_of = { λ w. record { actors = 0; cash = 0 ∷ 0 ∷ [] } };

    fn clients(&self) -> u8 {
        2
    }

    fn step(&mut self, f: &Frame) {
        self.steps += 1;
        self.played = match f.get(0) {
            Some(entry) => entry.is_play(),
            None => false,
        };
    }

    fn hash(&self) -> u64 {
        u64::from(self.steps) * 2 + if self.played { 1 } else { 0 }
    }

    fn summary(&self) -> Summary {
        Summary {
            actors: 0,
            cash: PerClient::create(2, 0),
        }
    }
}
