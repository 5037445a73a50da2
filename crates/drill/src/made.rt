ghost use Rattle.std.specs.Prelude.{◌≡◌, ◌+◌, ◌*◌, ◌^◌, ◌<◌, ◌≤◌, ℕ, IfOk, Ok, OnOk};
ghost use Rattle.drill_words.specs.Drill.{plain_of, read_of};
ghost use Rattle.drill_words.specs.Text.{drill_text};
ghost use Rattle.drill.specs.Draft.{fresh_draft, size};
ghost use Rattle.drill.specs.MadeRound.{rising, with_round};
ghost use Rattle.drill.specs.MadeDrill.{made_drill_of};

use crate::draft::Draft;
use crate::made_limits::{MADE_CLIENTS, MADE_LAG, MADE_ROUNDS, ROUND_SIZE};
use crate::made_round::add_round;
use base::NoMemory;
use drill_words::{Drill, MAX_EVENTS};
use std::alloc::Global;

/// The made drill of a number, any `u32`: a match of [`MADE_CLIENTS`] clients with the lag
/// [`MADE_LAG`] over [`MADE_ROUNDS`] frames. The number is its seed, and that of the random words
/// by which its clients play and its network loses, repeats and delays.
///
/// The same number makes the same drill. It fails only where it is out of memory.
#[tactic(auto, unfolding(crate::specs::MadeDrill::made_drill_of))]
pub fn made_drill(alloc: Global, n: u32) -> Result<Drill, NoMemory>
    ensures { IfOk result (λ drill. plain_of drill ≡ made_drill_of n) }
{
    let mut draft = Draft::new(alloc, n);
    add_rounds(&mut draft)?;
    Ok(Drill {
        clients: MADE_CLIENTS,
        lag: MADE_LAG,
        seed: n,
        events: draft.into_events(),
    })
}

/// All rounds.
fn add_rounds(draft: &mut Draft) -> Result<(), NoMemory>
    requires { size draft.old + ROUND_SIZE * MADE_ROUNDS ≤ MAX_EVENTS }
    ensures made { OnOk result (draft.new ≡ rising with_round MADE_ROUNDS draft.old) }
    ensures few { OnOk result (size draft.new ≤ size draft.old + ROUND_SIZE * MADE_ROUNDS) }
{
    for round in 0..MADE_ROUNDS {
        add_round(draft, round)?;
    }
    Ok(())
}

/// A law of the made drills: the text of each is read as a drill, and is exactly that one.
#[tactic(auto, using(crate::proofs::MadeLemmas::made_drills_are_read))]
pub fn made_drills_are_read()
    ensures { (number : ℕ) → number < 2 ^ 32 →
        read_of (drill_text (made_drill_of number)) ≡ Ok (made_drill_of number) }
{}
