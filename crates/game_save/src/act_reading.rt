ghost use Rattle.std.specs.Prelude.{◌≡◌, ◌≤◌, ◌<◌, true, [], ◌∷◌, ◌++◌, length, is_some, IfOk};
ghost use Rattle.std.specs.List.{All};
ghost use Rattle.rule_traits.specs.declared.kind.Kind.{Kind as KindPlain};
ghost use Rattle.rule_traits.specs.Rules.{moves};
ghost use Rattle.activities.specs.declared.queue.TheConstants.{MAX_ACTIVITIES};
ghost use Rattle.game_model.specs.declared.limits.TheConstants.{MAX_WAITS};
ghost use Rattle.game_model.specs.declared.map.Map.{Map as MapPlain};
ghost use Rattle.game_model.specs.Grid.{IsOn};
ghost use Rattle.game_model.specs.Kinds.{gathers, load_delay_in, unload_delay_in};
ghost use Rattle.game_model.specs.ValidWorld.{IsActivityOf};
ghost use Rattle.game_save.specs.Fields.{each_after, Reads};
ghost use Rattle.game_save.specs.ActorReading.{activity_in, acts_in, attack_in, next_act};
ghost use Rattle.game_save.specs.ActorReading.{cell_in, deliver_in, harvest_in, move_in};
ghost use Rattle.game_save.specs.ActorReading.{tagged_in, waits_in};

use crate::kinds::{gathers, load_delay, timer_end, unload_delay};
use crate::save_cursor::SaveCursor;
use crate::save_fault::SaveFault;
use activities::{Activity, MAX_ACTIVITIES, Queue};
use game_model::{MAX_WAITS, Map};
use rule_traits::Kind;
use world_units::CPos;

/// Reads a cell of the map.
#[tactic(auto, unfolding(crate::specs::ActorReading::cell_in))]
fn read_cell(c: &mut SaveCursor<'_>, map: &Map) -> Result<CPos, SaveFault>
    ensures reads { Reads (cell_in map.now) c.old c.new result }
    ensures on { IfOk result (IsOn map.now.width map.now.height) }
{
    let x = c.u8_in(0, u64::from(map.width))?;
    let y = c.u8_in(0, u64::from(map.height))?;
    Ok(CPos { x, y })
}

/// Reads the steps in a row that an activity has waited.
fn read_waits(c: &mut SaveCursor<'_>) -> Result<u8, SaveFault>
    ensures reads { Reads waits_in c.old c.new result }
    ensures few { IfOk result (λ waits. waits < MAX_WAITS) }
{
    c.u8_in(0, u64::from(MAX_WAITS))
}

/// Reads a move after its tag.
#[tactic(auto, unfolding(crate::specs::ActorReading::move_in))]
fn read_move(c: &mut SaveCursor<'_>, map: &Map) -> Result<Activity, SaveFault>
    ensures reads { Reads (move_in map.now) c.old c.new result }
    ensures valid { IfOk result (λ act. (kind : KindPlain) → moves kind ≡ true
        → IsActivityOf map.now kind act) }
{
    let goal = read_cell(c, map)?;
    let waits = read_waits(c)?;
    Ok(Activity::Move { goal, waits })
}

/// Reads an attack after its tag.
#[tactic(auto, unfolding(crate::specs::ActorReading::attack_in))]
fn read_attack(c: &mut SaveCursor<'_>) -> Result<Activity, SaveFault>
    ensures reads { Reads attack_in c.old c.new result }
    ensures valid { IfOk result (λ act. (map : MapPlain) (kind : KindPlain) →
        is_some kind.armament ≡ true → IsActivityOf map kind act) }
{
    let target = c.read_u32()?;
    let waits = read_waits(c)?;
    Ok(Activity::Attack { target, waits })
}

/// Reads a harvest after its tag, by an actor of a kind that gathers.
#[tactic(auto, unfolding(crate::specs::ActorReading::harvest_in))]
fn read_harvest(c: &mut SaveCursor<'_>, map: &Map, kind: &Kind) -> Result<Activity, SaveFault>
    requires { gathers kind.now ≡ true }
    ensures reads { Reads (harvest_in map.now (load_delay_in kind.now.harvester)) c.old c.new
        result }
    ensures valid { IfOk result (IsActivityOf map.now kind.now) }
{
    let cell = read_cell(c, map)?;
    let timer = c.u16_in(0, timer_end(load_delay(kind)))?;
    let waits = read_waits(c)?;
    Ok(Activity::Harvest { cell, timer, waits })
}

/// Reads a delivery after its tag, by an actor of a kind that gathers.
#[tactic(auto, unfolding(crate::specs::ActorReading::deliver_in))]
fn read_deliver(c: &mut SaveCursor<'_>, map: &Map, kind: &Kind) -> Result<Activity, SaveFault>
    requires { gathers kind.now ≡ true }
    ensures reads { Reads (deliver_in map.now (unload_delay_in kind.now.harvester)) c.old c.new
        result }
    ensures valid { IfOk result (IsActivityOf map.now kind.now) }
{
    let home = read_cell(c, map)?;
    let timer = c.u16_in(0, timer_end(unload_delay(kind)))?;
    let waits = read_waits(c)?;
    Ok(Activity::Deliver { home, timer, waits })
}

/// Reads the activity with this tag, or answers this fault where the kind can't have one.
#[tactic(auto, unfolding(crate::specs::ActorReading::tagged_in))]
fn read_tagged(
    c: &mut SaveCursor<'_>,
    map: &Map,
    kind: &Kind,
    fault: SaveFault,
    tag: u8,
) -> Result<Activity, SaveFault>
    ensures reads { Reads (tagged_in map.now kind.now fault tag) c.old c.new result }
    ensures valid { IfOk result (IsActivityOf map.now kind.now) }
{
    if tag == 1 && kind.moves() {
        return read_move(c, map);
    }
    if tag == 2 && kind.armament.is_some() {
        return read_attack(c);
    }
    if tag == 3 && gathers(kind) {
        return read_harvest(c, map, kind);
    }
    if tag == 4 && gathers(kind) {
        return read_deliver(c, map, kind);
    }
    Err(fault)
}

/// Reads an activity of an actor of the kind, its tag first.
#[tactic(auto, unfolding(crate::specs::ActorReading::activity_in))]
fn read_activity(c: &mut SaveCursor<'_>, map: &Map, kind: &Kind) -> Result<Activity, SaveFault>
    ensures reads { Reads (activity_in map.now kind.now) c.old c.new result }
    ensures valid { IfOk result (IsActivityOf map.now kind.now) }
{
    let at = c.place();
    let tag = c.read_u8()?;
    read_tagged(c, map, kind, SaveFault::BadWorld { at }, tag)
}

/// Adds an activity last, for which there is room.
fn add_act(acts: &mut Queue, act: Activity)
    requires { length acts.old < MAX_ACTIVITIES }
    ensures { acts.new ≡ acts.old ++ act ∷ [] }
{
    let _added = acts.append(act);
}

/// Reads so many activities, at most [`MAX_ACTIVITIES`], one after the other.
fn read_each_act(
    c: &mut SaveCursor<'_>,
    map: &Map,
    kind: &Kind,
    count: u8,
) -> Result<Queue, SaveFault>
    requires { count ≤ MAX_ACTIVITIES }
    ensures reads { Reads (each_after (next_act map.now kind.now) [] count) c.old c.new result }
    ensures count { IfOk result (λ acts. length acts ≡ count) }
    ensures valid { IfOk result (All (IsActivityOf map.now kind.now)) }
{
    let mut acts = Queue::empty();
    for _ in 0..count {
        let act = read_activity(c, map, kind)?;
        add_act(&mut acts, act);
    }
    Ok(acts)
}

/// Reads the activities of an actor of the kind: how many, and each.
#[tactic(auto, unfolding(crate::specs::ActorReading::acts_in))]
pub(crate) fn read_acts(c: &mut SaveCursor<'_>, map: &Map, kind: &Kind) -> Result<Queue, SaveFault>
    ensures reads { Reads (acts_in map.now kind.now) c.old c.new result }
    ensures count { IfOk result (λ acts. length acts ≤ MAX_ACTIVITIES) }
    ensures valid { IfOk result (All (IsActivityOf map.now kind.now)) }
{
    let count = c.u8_in(0, MAX_ACTIVITIES as u64 + 1)?;
    read_each_act(c, map, kind, count)
}
