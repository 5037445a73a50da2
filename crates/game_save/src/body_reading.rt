ghost use Rattle.std.specs.Prelude.{◌≡◌, ◌+◌, true, IfOk, IfSome};
ghost use Rattle.rule_traits.specs.Rules.{moves};
ghost use Rattle.game_model.specs.ValidWorld.{IsBodyOf, IsHealthOf, IsLegOf};
ghost use Rattle.game_save.specs.Fields.{Reads};
ghost use Rattle.game_save.specs.ActorReading.{body_in, leg_flags, leg_in, way_in};
ghost use Rattle.game_save.specs.ReadSave.{setup_with};

use crate::act_reading::read_acts;
use crate::build_reading::read_builds;
use crate::kinds::{health_end, leg_flags, load_end, reload_end};
use crate::save_cursor::SaveCursor;
use crate::save_fault::SaveFault;
use game_model::{Body, Leg, Map};
use rule_traits::{Kind, Rules};
use world_units::{DIRECTIONS, WAngle, leg_length};

/// Reads the direction of a leg and the units gone, of an actor of a kind that moves.
#[tactic(auto, unfolding(crate::specs::ActorReading::way_in))]
fn read_way(c: &mut SaveCursor<'_>, kind: &Kind) -> Result<Option<Leg>, SaveFault>
    requires { moves kind.now ≡ true }
    ensures reads { Reads way_in c.old c.new result }
    ensures valid { IfOk result (λ leg. IfSome leg (IsLegOf kind.now)) }
{
    let dir = c.u8_in(0, u64::from(DIRECTIONS))?;
    let progress = c.u32_in(0, u64::from(leg_length(dir)))?;
    Ok(Some(Leg { dir, progress }))
}

/// Reads a leg, or none, of an actor of the kind.
#[tactic(auto, unfolding(crate::specs::ActorReading::leg_in))]
fn read_leg(c: &mut SaveCursor<'_>, kind: &Kind) -> Result<Option<Leg>, SaveFault>
    ensures reads { Reads (leg_in kind.now) c.old c.new result }
    ensures valid { IfOk result (λ leg. IfSome leg (IsLegOf kind.now)) }
{
    let flag = c.u8_in(0, leg_flags(kind))?;
    if flag == 0 {
        return Ok(None);
    }
    read_way(c, kind)
}

/// Reads the body of an actor of the kind, after its owner and its facing.
#[tactic(auto, unfolding(crate::specs::ActorReading::body_in))]
pub(crate) fn read_body(
    c: &mut SaveCursor<'_>,
    rules: &Rules,
    map: &Map,
    kind: &Kind,
    owner: u8,
    facing: WAngle,
) -> Result<Body, SaveFault>
    ensures reads { Reads (body_in (setup_with rules.now map.now) kind.now owner facing)
        c.old c.new result }
    ensures same { IfOk result (λ body. (body.owner ≡ owner) × (body.facing ≡ facing)) }
    ensures valid { IfOk result (IsBodyOf (setup_with rules.now map.now) kind.now) }
    ensures healthy { IfOk result (λ body. IsHealthOf body.health kind.now) }
{
    let leg = read_leg(c, kind)?;
    let health = c.u32_in(1, health_end(kind))?;
    let load = c.u16_in(0, load_end(kind))?;
    let reload = c.u16_in(0, reload_end(kind))?;
    let acts = read_acts(c, map, kind)?;
    let builds = read_builds(c, rules, kind)?;
    Ok(Body {
        owner,
        facing,
        leg,
        health,
        load,
        reload,
        acts,
        builds,
    })
}
