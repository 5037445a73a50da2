ghost use Rattle.std.specs.Prelude.{◌≡◌, ◌≤◌, ◌<◌, [], ◌∷◌, ◌++◌, true, length, is_some, IfOk};
ghost use Rattle.std.specs.List.{All};
ghost use Rattle.rule_traits.specs.declared.kind.Kind.{Kind as KindPlain};
ghost use Rattle.game_model.specs.declared.limits.TheConstants.{MAX_BUILDS};
ghost use Rattle.game_model.specs.ValidWorld.{IsBuildOf};
ghost use Rattle.game_save.specs.Fields.{each_after, Reads};
ghost use Rattle.game_save.specs.ActorReading.{build_counts, build_in, builds_in, next_build};
ghost use Rattle.game_save.specs.ActorReading.{IsProductOf};

use crate::kinds::{build_counts, is_unit, left_end};
use crate::save_cursor::SaveCursor;
use crate::save_fault::SaveFault;
use game_model::{Build, Builds};
use rule_traits::{Kind, Rules};

/// Reads a build: the number of a unit, and the turns that are left.
#[tactic(auto, unfolding(crate::specs::ActorReading::build_in))]
fn read_build(c: &mut SaveCursor<'_>, rules: &Rules) -> Result<Build, SaveFault>
    ensures reads { Reads (build_in rules.now) c.old c.new result }
    ensures valid { IfOk result (IsProductOf rules.now) }
{
    let at = c.place();
    let number = c.read_u16()?;
    let Some(product) = rules.get(number) else {
        return Err(SaveFault::BadWorld { at });
    };
    if !is_unit(product) {
        return Err(SaveFault::BadWorld { at });
    }
    let left = c.u16_in(0, left_end(product))?;
    Ok(Build { kind: number, left })
}

/// Adds a build last, for which there is room.
fn add_build(builds: &mut Builds, build: Build)
    requires { length builds.old < MAX_BUILDS }
    ensures { builds.new ≡ builds.old ++ build ∷ [] }
{
    let _added = builds.try_push(build);
}

/// Reads so many builds, at most [`MAX_BUILDS`](game_model::MAX_BUILDS), one after the other.
fn read_each_build(c: &mut SaveCursor<'_>, rules: &Rules, count: u8) -> Result<Builds, SaveFault>
    requires { count ≤ MAX_BUILDS }
    ensures reads { Reads (each_after (next_build rules.now) [] count) c.old c.new result }
    ensures count { IfOk result (λ builds. length builds ≡ count) }
    ensures valid { IfOk result (All (IsProductOf rules.now)) }
{
    let mut builds = Builds::empty();
    for _ in 0..count {
        let build = read_build(c, rules)?;
        add_build(&mut builds, build);
    }
    Ok(builds)
}

/// Reads the builds of an actor of the kind: how many, and each.
#[tactic(auto, unfolding(crate::specs::ActorReading::builds_in))]
pub(crate) fn read_builds(
    c: &mut SaveCursor<'_>,
    rules: &Rules,
    kind: &Kind,
) -> Result<Builds, SaveFault>
    ensures reads { Reads (builds_in rules.now kind.now) c.old c.new result }
    ensures count { IfOk result (λ builds. length builds ≤ MAX_BUILDS) }
    ensures valid { IfOk result (All (IsBuildOf rules.now kind.now)) }
{
    let count = c.u8_in(0, build_counts(kind))?;
    read_each_build(c, rules, count)
}
