//! The lines of heads, actors and cells.
ghost use Rattle.std.specs.Prelude.{◌≡◌, ◌++◌, string_bytes, OnOk};
ghost use Rattle.std.specs.List.{flat_map};
ghost use Rattle.world_text.specs.WorldText.{activity_line, actor_line, actor_text};
ghost use Rattle.world_text.specs.WorldText.{at_cell_text, build_line, cash_line, counts_text};
ghost use Rattle.world_text.specs.WorldText.{gone_line, head_text, leg_text, named_text, ore_line};
ghost use Rattle.world_text.specs.WorldText.{place_text, spaced_flag, spaced_number, turns_line};
ghost use Rattle.world_text.specs.WorldText.{waits_text, world_end};

use activities::Activity;
use base::NoMemory;
use game_model::{Actor, Body, Build, Head, Leg};
use std::fmt::Write;
use world_units::CPos;

/// Adds the lines of all of a world but its actors and its ore.
pub(crate) fn add_head(text: &mut String, head: &Head) -> Result<(), NoMemory>
    ensures { OnOk result (string_bytes text.new ≡ string_bytes text.old ++ head_text head.now) }
{
    add_turns(text, head)?;
    add_cash(text, head.cash.as_slice())?;
    add_gone(text, head.gone.as_slice())
}

/// Adds the first line of a world.
#[tactic(auto, unfolding(crate::specs::WorldText::turns_line))]
fn add_turns(text: &mut String, head: &Head) -> Result<(), NoMemory>
    ensures { OnOk result (string_bytes text.new ≡ string_bytes text.old ++ turns_line head.now) }
{
    let (tick, seed, drawn) = (head.tick, head.seed, head.drawn);
    let (next, pace) = (head.next_id, head.pace);
    writeln!(
        text,
        "world tick {tick} seed {seed} drawn {drawn} next {next} pace {pace}"
    )
}

/// Adds the line of the cash of each client.
#[tactic(auto, unfolding(crate::specs::WorldText::cash_line))]
fn add_cash(text: &mut String, each: &[u32]) -> Result<(), NoMemory>
    ensures { OnOk result (string_bytes text.new ≡ string_bytes text.old ++ cash_line each.now) }
{
    write!(text, "cash")?;
    add_numbers(text, each)?;
    writeln!(text)
}

/// Adds each number after a space.
fn add_numbers(text: &mut String, each: &[u32]) -> Result<(), NoMemory>
    ensures { OnOk result
        (string_bytes text.new ≡ string_bytes text.old ++ flat_map spaced_number each.now) }
{
    for number in each {
        write!(text, " {number}")?;
    }
    Ok(())
}

/// Adds the line of the departure flags.
#[tactic(auto, unfolding(crate::specs::WorldText::gone_line))]
fn add_gone(text: &mut String, each: &[bool]) -> Result<(), NoMemory>
    ensures { OnOk result (string_bytes text.new ≡ string_bytes text.old ++ gone_line each.now) }
{
    write!(text, "gone")?;
    add_flags(text, each)?;
    writeln!(text)
}

/// Adds each departure flag after a space.
fn add_flags(text: &mut String, each: &[bool]) -> Result<(), NoMemory>
    ensures { OnOk result
        (string_bytes text.new ≡ string_bytes text.old ++ flat_map spaced_flag each.now) }
{
    for flag in each {
        add_flag(text, *flag)?;
    }
    Ok(())
}

/// Adds a departure flag after a space.
fn add_flag(text: &mut String, gone: bool) -> Result<(), NoMemory>
    ensures { OnOk result (string_bytes text.new ≡ string_bytes text.old ++ spaced_flag gone) }
{
    if gone {
        write!(text, " 1")
    } else {
        write!(text, " 0")
    }
}

/// Adds the lines of an actor: its own, and one for each activity and each build.
pub(crate) fn add_actor(text: &mut String, a: &Actor) -> Result<(), NoMemory>
    ensures { OnOk result (string_bytes text.new ≡ string_bytes text.old ++ actor_text a.now) }
{
    add_actor_line(text, a)?;
    add_activities(text, a.body.acts.as_slice())?;
    add_builds(text, a.body.builds.as_slice())
}

/// Adds the first line of an actor.
fn add_actor_line(text: &mut String, a: &Actor) -> Result<(), NoMemory>
    ensures { OnOk result (string_bytes text.new ≡ string_bytes text.old ++ actor_line a.now) }
{
    add_name(text, a)?;
    add_place(text, a.cell, a.body.facing.units())?;
    add_leg(text, a.body.leg)?;
    add_counts(text, &a.body)
}

/// Adds what an actor is and whose.
#[tactic(auto, unfolding(crate::specs::WorldText::named_text))]
fn add_name(text: &mut String, a: &Actor) -> Result<(), NoMemory>
    ensures { OnOk result (string_bytes text.new ≡ string_bytes text.old ++ named_text a.now) }
{
    let (id, kind, owner) = (a.id, a.kind, a.body.owner);
    write!(text, "actor {id} kind {kind} owner {owner}")
}

/// Adds where an actor stands, and the word before its leg.
#[tactic(auto, unfolding(crate::specs::WorldText::place_text))]
fn add_place(text: &mut String, cell: CPos, facing: u16) -> Result<(), NoMemory>
    ensures { OnOk result
        (string_bytes text.new ≡ string_bytes text.old ++ place_text cell facing) }
{
    let (x, y) = (cell.x, cell.y);
    write!(text, " cell {x},{y} facing {facing} leg ")
}

/// Adds the other numbers of an actor.
#[tactic(auto, unfolding(crate::specs::WorldText::counts_text))]
fn add_counts(text: &mut String, body: &Body) -> Result<(), NoMemory>
    ensures { OnOk result (string_bytes text.new ≡ string_bytes text.old ++ counts_text body.now) }
{
    let (health, load, reload) = (body.health, body.load, body.reload);
    writeln!(text, " health {health} load {load} reload {reload}")
}

/// Adds a leg.
fn add_leg(text: &mut String, leg: Option<Leg>) -> Result<(), NoMemory>
    ensures { OnOk result (string_bytes text.new ≡ string_bytes text.old ++ leg_text leg) }
{
    match leg {
        Some(leg) => {
            let (dir, progress) = (leg.dir, leg.progress);
            write!(text, "{dir}:{progress}")
        }
        None => write!(text, "none"),
    }
}

/// Adds the line of each activity.
fn add_activities(text: &mut String, acts: &[Activity]) -> Result<(), NoMemory>
    ensures { OnOk result
        (string_bytes text.new ≡ string_bytes text.old ++ flat_map activity_line acts.now) }
{
    for act in acts {
        add_activity(text, act)?;
    }
    Ok(())
}

/// Adds the line of an activity.
fn add_activity(text: &mut String, act: &Activity) -> Result<(), NoMemory>
    ensures { OnOk result
        (string_bytes text.new ≡ string_bytes text.old ++ activity_line act.now) }
{
    match act {
        Activity::Move { goal, waits } => {
            add_at_cell(text, "move", *goal)?;
            add_waits(text, *waits)
        }
        Activity::Attack { target, waits } => {
            write!(text, "act attack {target}")?;
            add_waits(text, *waits)
        }
        Activity::Harvest { cell, timer, waits } => {
            add_at_cell(text, "harvest", *cell)?;
            write!(text, " timer {timer}")?;
            add_waits(text, *waits)
        }
        Activity::Deliver { home, timer, waits } => {
            add_at_cell(text, "deliver", *home)?;
            write!(text, " timer {timer}")?;
            add_waits(text, *waits)
        }
    }
}

/// Adds the word of an activity and its cell.
#[tactic(auto, unfolding(crate::specs::WorldText::at_cell_text))]
fn add_at_cell(text: &mut String, word: &str, cell: CPos) -> Result<(), NoMemory>
    ensures { OnOk result
        (string_bytes text.new ≡ string_bytes text.old ++ at_cell_text word.now cell) }
{
    let (x, y) = (cell.x, cell.y);
    write!(text, "act {word} {x},{y}")
}

/// Adds the end of the line of an activity.
#[tactic(auto, unfolding(crate::specs::WorldText::waits_text))]
fn add_waits(text: &mut String, waits: u8) -> Result<(), NoMemory>
    ensures { OnOk result (string_bytes text.new ≡ string_bytes text.old ++ waits_text waits) }
{
    writeln!(text, " waits {waits}")
}

/// Adds the line of each build.
fn add_builds(text: &mut String, builds: &[Build]) -> Result<(), NoMemory>
    ensures { OnOk result
        (string_bytes text.new ≡ string_bytes text.old ++ flat_map build_line builds.now) }
{
    for build in builds {
        add_build(text, build)?;
    }
    Ok(())
}

/// Adds the line of a build.
#[tactic(auto, unfolding(crate::specs::WorldText::build_line))]
fn add_build(text: &mut String, build: &Build) -> Result<(), NoMemory>
    ensures { OnOk result (string_bytes text.new ≡ string_bytes text.old ++ build_line build.now) }
{
    let (kind, left) = (build.kind, build.left);
    writeln!(text, "build kind {kind} left {left}")
}

/// Adds the line of a cell with ore.
#[tactic(auto, unfolding(crate::specs::WorldText::ore_line))]
pub(crate) fn add_ore(
    text: &mut String,
    column: usize,
    row: usize,
    bales: u8,
) -> Result<(), NoMemory>
    ensures { OnOk result
        (string_bytes text.new ≡ string_bytes text.old ++ ore_line column row bales) }
{
    writeln!(text, "ore {column},{row} {bales}")
}

/// Adds the last line of a world.
#[tactic(auto, unfolding(crate::specs::WorldText::world_end))]
pub(crate) fn add_end(text: &mut String) -> Result<(), NoMemory>
    ensures { OnOk result (string_bytes text.new ≡ string_bytes text.old ++ world_end) }
{
    writeln!(text, "end world")
}
