//! What the ticking thread does with the columns of the bots.
ghost use Rattle.std.specs.Prelude.{◌≡◌, ◌<◌, ◌≤◌, ◌+◌, ◌^◌, [], ◌∷◌, ◌++◌, true, ℕ, List, length};
ghost use Rattle.std.specs.Prelude.{map, OnOk};
ghost use Rattle.std.specs.List.{range_with_len};
ghost use Rattle.game_orders.specs.declared.limits.TheConstants.{MAX_CLIENTS, MAX_FRAMES};
ghost use Rattle.game_orders.specs.declared.order.Order.{Order};
ghost use Rattle.game_orders.specs.declared.entry.Entry.TheVariants.{Play};
ghost use Rattle.frame_core.specs.Column.{Column};
ghost use Rattle.drill_words.specs.Scripts.{plays_of};
ghost use Rattle.frame_table.specs.Calls.{plan_of, view_of, standing};
ghost use Rattle.match_run.specs.Feeding.{MayFeedAll, HasFedAll, HasEndedAll};
ghost use Rattle.match_run.specs.Local.{IsAll, script_column};
ghost use Rattle.match_run.specs.Passes.{IsLocalPass, KnowsAllSeen};

use base::NoMemory;
use bots::Bots;
use drill_words::Scripts;
use frame_core::Sim;
use frame_table::{FrameTable, Pass};
use game_orders::{Entry, Frame};
use std::sync::Wait;

/// Puts the play of each bot, for frame `n`, by the world before it, and gathers them in `ordered`.
/// Out of memory is its one error.
pub(crate) fn put_plays<S: Sim, B: Bots<S>, R: Wait>(
    rt: &R,
    table: &FrameTable,
    scripts: &Scripts,
    bots: &B,
    count: u8,
    sim: &S,
    pass: &mut Pass,
    n: u32,
    ordered: &mut Frame,
) -> Result<(), NoMemory>
    requires pass { IsLocalPass scripts.now table.now pass.old }
    requires knows { KnowsAllSeen scripts.now pass.old }
    requires table { length (plan_of table.now) ≡ length scripts.now + count }
    requires clients { S.clients_of sim.now ≡ length scripts.now + count }
    requires may { MayFeedAll (length scripts.now) table.now pass.old }
    requires limit { n < MAX_FRAMES }
    ensures pass { IsLocalPass scripts.now table.now pass.new }
    ensures share { (view_of pass.new).share ≡ (view_of pass.old).share }
    ensures knows { OnOk result (KnowsAllSeen scripts.now pass.new) }
    ensures ordered { OnOk result (ordered.new
        ≡ map (λ (c : ℕ). Play (B.orders_of bots.now sim.now c))
        (range_with_len (length scripts.now) count)) }
    ensures fed { OnOk result ((plays : ℕ → List (List Order)) → ((c : ℕ) → length (plays c) ≡ n) →
        HasFedAll (length scripts.now) table.now plays pass.old →
        HasFedAll (length scripts.now) table.now
        (λ c. plays c ++ B.orders_of bots.now sim.now c ∷ []) pass.new) }
{
    let first = scripts.clients();
    let _clients = sim.clients();
    ordered.clear();
    for i in 0..count {
        let c = first + i;
        let orders = bots.orders(sim, c)?;
        let _answer = table.put_play(rt, pass, c, n, orders.as_slice())?;
        ordered.push(Entry::Play(orders));
    }
    Ok(())
}

/// Lets each bot leave.
pub(crate) fn leave_all<R: Wait>(
    rt: &R,
    table: &FrameTable,
    scripts: &Scripts,
    count: u8,
    pass: &mut Pass,
)
    requires pass { IsLocalPass scripts.now table.now pass.old }
    requires knows { KnowsAllSeen scripts.now pass.old }
    requires table { length (plan_of table.now) ≡ length scripts.now + count }
    requires most { length scripts.now + count ≤ MAX_CLIENTS }
    requires may { MayFeedAll (length scripts.now) table.now pass.old }
    ensures pass { IsLocalPass scripts.now table.now pass.new }
    ensures share { (view_of pass.new).share ≡ (view_of pass.old).share }
    ensures knows { KnowsAllSeen scripts.now pass.new }
    ensures ended { (plays : ℕ → List (List Order)) →
        HasFedAll (length scripts.now) table.now plays pass.old →
        HasEndedAll (length scripts.now) table.now
        (λ c. record { plays = plays c; left = true }) pass.new }
{
    let first = scripts.clients();
    for i in 0..count {
        let _answer = table.leave(rt, pass, first + i);
    }
}

/// Looks at the column of each bot once more, which its bot has left, with a pass that has the
/// whole share. So the departure is one that this pass fixed, or that a pass fixed that was joined
/// into it.
pub(crate) fn look_again<R: Wait>(
    rt: &R,
    table: &FrameTable,
    scripts: &Scripts,
    count: u8,
    pass: &mut Pass,
)
    requires pass { IsLocalPass scripts.now table.now pass.old }
    requires share { (view_of pass.old).share ≡ 2 ^ 62 }
    requires all { (c : ℕ) → c < length scripts.now →
        IsAll (standing pass.old c) (script_column (plays_of scripts.now c)) }
    requires table { length (plan_of table.now) ≡ length scripts.now + count }
    requires most { length scripts.now + count ≤ MAX_CLIENTS }
    requires ended { (columns : ℕ → Column) ×
        HasEndedAll (length scripts.now) table.now columns pass.old }
    ensures pass { IsLocalPass scripts.now table.now pass.new }
    ensures share { (view_of pass.new).share ≡ 2 ^ 62 }
    ensures all { (c : ℕ) → c < length scripts.now →
        IsAll (standing pass.new c) (script_column (plays_of scripts.now c)) }
    ensures bots { (columns : ℕ → Column) →
        HasEndedAll (length scripts.now) table.now columns pass.old → (c : ℕ) →
        length scripts.now ≤ c → c < length (plan_of table.now) →
        IsAll (standing pass.new c) (columns c) }
{
    let first = scripts.clients();
    for i in 0..count {
        let _answer = table.leave(rt, pass, first + i);
    }
}
