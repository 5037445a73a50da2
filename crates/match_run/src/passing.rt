//! The passes of a match: how they are made, and joined back.
ghost use Rattle.std.specs.Prelude.{◌≡◌, ◌<◌, ◌≤◌, ◌+◌, ◌^◌, ◌⊎◌, ◌-◌, true, ℕ, length, All, IfOk};
ghost use Rattle.game_orders.specs.declared.limits.TheConstants.{MAX_CLIENTS};
ghost use Rattle.drill_words.specs.Scripts.{plays_of};
ghost use Rattle.frame_table.specs.Calls.{plan_of, view_of, standing};
ghost use Rattle.match_run.specs.Feeding.{HasEndedAll};
ghost use Rattle.frame_core.specs.Column.{Column};
ghost use Rattle.match_run.specs.Local.{IsAll, script_column};
ghost use Rattle.match_run.specs.Passes.{IsLocalPass, IsClientPass, IsUnused, AreUnused, AreFrom};
ghost use Rattle.match_run.specs.Passes.{OneFeeds, match_plan, rights_of, script_plan, shares_of};

use crate::client_pass::ClientPass;
use base::{List, NoMemory};
use drill_words::Scripts;
use frame_table::{FrameTable, Pass, Plan, Planned};
use std::alloc::Global;

/// The table of the scripts' clients, each column planned as its script has it, and of so many
/// bots, whose columns are free; and its first pass.
pub(crate) fn planned_table(
    alloc: Global,
    scripts: &Scripts,
    bots: u8,
) -> Result<(FrameTable, Pass), NoMemory>
    requires { length scripts.now + bots ≤ MAX_CLIENTS }
    ensures plan { IfOk result (λ made. plan_of made.0 ≡ match_plan scripts.now bots) }
    ensures pass { IfOk result (λ made. IsUnused made.0 made.1) }
    ensures share { IfOk result (λ made. (view_of made.1).share ≡ 2 ^ 62) }
    ensures rights { IfOk result (λ made. rights_of (view_of made.1).marks ≡ bots) }
    ensures feeds { IfOk result (λ made. (c : ℕ) → length scripts.now ≤ c →
        c < length scripts.now + bots → (standing made.1 c).feeds ≡ true) }
{
    let plan = plan_of(alloc, scripts, bots)?;
    let (table, pass) = FrameTable::create(alloc, scripts.clients() + bots, plan)?;
    Ok((table, pass))
}

/// The plan that has each script's client play its script, and leaves the bots free.
fn plan_of(alloc: Global, scripts: &Scripts, bots: u8) -> Result<Plan, NoMemory>
    ensures { IfOk result (λ plan. plan ≡ match_plan scripts.now bots) }
{
    let mut each = scripts_plan(alloc, scripts)?;
    for _bot in 0..bots {
        each.push(Planned::Free)?;
    }
    Ok(Plan::new(each))
}

/// The plan that has each script's client play its script.
fn scripts_plan(alloc: Global, scripts: &Scripts) -> Result<List<Planned>, NoMemory>
    ensures { IfOk result (λ each. each ≡ script_plan scripts.now) }
{
    let mut each = List::new(alloc);
    for c in 0..scripts.clients() {
        each.push(Planned::Plays(scripts.plays(c).copy(alloc)?))?;
    }
    Ok(each)
}

/// A pass for each of the clients from `first` to before `end`, split off one after another: at
/// most `MAX_CLIENTS`. Each split hands one right to add plays over, while there is one.
pub(crate) fn split_passes(
    alloc: Global,
    table: &FrameTable,
    pass: &mut Pass,
    first: u8,
    end: u8,
) -> Result<Vec<ClientPass>, NoMemory>
    requires unused { IsUnused table.now pass.old }
    requires order { first ≤ end }
    requires most { end ≤ MAX_CLIENTS }
    requires share { 2 ^ 40 ≤ (view_of pass.old).share }
    ensures unused { IfOk result (λ passes.
        IsUnused table.now pass.new × AreUnused table.now passes.items) }
    ensures clients { IfOk result (λ passes. AreFrom first passes.items) }
    ensures count { IfOk result (λ passes. length passes.items ≡ end - first) }
    ensures shares { IfOk result (λ passes.
        (view_of pass.new).share + shares_of passes.items ≡ (view_of pass.old).share) }
    ensures least { IfOk result (λ passes. (k : ℕ) →
        2 ^ (k + (end - first)) ≤ (view_of pass.old).share → 2 ^ k ≤ (view_of pass.new).share) }
    ensures rights { IfOk result (λ passes. rights_of (view_of pass.new).marks
        ≡ rights_of (view_of pass.old).marks - (end - first)) }
    ensures feeds { IfOk result (λ passes. (c : ℕ) → (standing pass.old c).feeds ≡ true →
        ((standing pass.new c).feeds ≡ true) ⊎ OneFeeds passes.items c) }
{
    let mut passes = Vec::new(alloc);
    for client in first..end {
        let pass = table.split(pass);
        passes.push(ClientPass { client, pass })?;
    }
    Ok(passes)
}

/// Joins passes back with which nothing was done. Then the pass may add plays wherever one of them
/// may.
pub(crate) fn join_unused(table: &FrameTable, pass: &mut Pass, passes: Vec<ClientPass>)
    requires unused { IsUnused table.now pass.old }
    requires passes { AreUnused table.now passes.items }
    ensures unused { IsUnused table.now pass.new }
    ensures share { (view_of pass.new).share ≡ (view_of pass.old).share + shares_of passes.items }
    ensures feeds { (c : ℕ) → c < length (plan_of table.now) → OneFeeds passes.items c →
        (standing pass.new c).feeds ≡ true }
{
    let mut left = passes;
    while let Some(own) = left.pop() {
        let ClientPass {
            client: _,
            pass: other,
        } = own;
        table.join(pass, other);
    }
}

/// Joins the clients' passes into the pass, which has seen and knows each whole script's column,
/// and knows of each bot's departure. The other passes fixed none of these.
pub(crate) fn join_passes(
    table: &FrameTable,
    scripts: &Scripts,
    pass: &mut Pass,
    passes: Vec<ClientPass>,
)
    requires pass { IsLocalPass scripts.now table.now pass.old }
    requires all { (c : ℕ) → c < length scripts.now →
        IsAll (standing pass.old c) (script_column (plays_of scripts.now c)) }
    requires passes { All (λ f. IsClientPass scripts.now table.now f) passes.items }
    ensures pass { IsLocalPass scripts.now table.now pass.new }
    ensures all { (c : ℕ) → c < length scripts.now →
        IsAll (standing pass.new c) (script_column (plays_of scripts.now c)) }
    ensures share { (view_of pass.new).share
        ≡ (view_of pass.old).share + shares_of passes.items }
    ensures ended { (columns : ℕ → Column) →
        HasEndedAll (length scripts.now) table.now columns pass.old →
        HasEndedAll (length scripts.now) table.now columns pass.new }
{
    let _clients = scripts.clients();
    let mut left = passes;
    while let Some(own) = left.pop() {
        let ClientPass {
            client: _,
            pass: other,
        } = own;
        table.join(pass, other);
    }
}
