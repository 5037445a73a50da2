use activities::Activity;
use base::NoMemory;
use game_model::{Actor, Build, Leg, World};
use std::alloc::Global;

/// A world, field by field: its head, each actor with its activities and builds, each cell with
/// ore.
pub fn world_fields(alloc: Global, world: &World) -> Result<String, NoMemory> {
    let mut text = String::new(alloc);
    write_head(&mut text, world)?;
    for actor in world.actors.as_slice() {
        write_actor(&mut text, actor)?;
    }
    write_ore(&mut text, world)?;
    text.push_str("end world\n")?;
    Ok(text)
}

/// The fields that are no lists of actors or cells.
fn write_head(text: &mut String, world: &World) -> Result<(), NoMemory> {
    let (tick, seed, drawn) = (world.tick, world.seed, world.drawn);
    let (next, pace) = (world.next_id, world.pace);
    writeln!(
        text,
        "world tick {tick} seed {seed} drawn {drawn} next {next} pace {pace}"
    )?;
    text.push_str("cash")?;
    for cash in world.cash.as_slice() {
        write!(text, " {cash}")?;
    }
    text.push_str("\ngone")?;
    for gone in world.gone.as_slice() {
        text.push_str(if *gone { " 1" } else { " 0" })?;
    }
    text.push('\n')?;
    Ok(())
}

/// An actor, then a line for each of its activities and builds.
fn write_actor(text: &mut String, actor: &Actor) -> Result<(), NoMemory> {
    let (id, kind) = (actor.id, actor.kind);
    let (x, y) = (actor.cell.x, actor.cell.y);
    let body = &actor.body;
    let (owner, facing) = (body.owner, body.facing.units());
    write!(
        text,
        "actor {id} kind {kind} owner {owner} cell {x},{y} facing {facing} leg "
    )?;
    write_leg(text, &body.leg)?;
    let (health, load, reload) = (body.health, body.load, body.reload);
    writeln!(text, " health {health} load {load} reload {reload}")?;
    for act in body.acts.as_slice() {
        write_act(text, act)?;
    }
    for build in body.builds.as_slice() {
        write_build(text, build)?;
    }
    Ok(())
}

/// A leg, if there is one.
fn write_leg(text: &mut String, leg: &Option<Leg>) -> Result<(), NoMemory> {
    match leg {
        Some(leg) => {
            let (dir, progress) = (leg.dir, leg.progress);
            write!(text, "{dir}:{progress}")?;
        }
        None => text.push_str("none")?,
    }
    Ok(())
}

/// A line for an activity.
fn write_act(text: &mut String, act: &Activity) -> Result<(), NoMemory> {
    match act {
        Activity::Move { goal, waits } => {
            let (x, y) = (goal.x, goal.y);
            writeln!(text, "act move {x},{y} waits {waits}")?;
        }
        Activity::Attack { target, waits } => {
            writeln!(text, "act attack {target} waits {waits}")?;
        }
        Activity::Harvest { cell, timer, waits } => {
            let (x, y) = (cell.x, cell.y);
            writeln!(text, "act harvest {x},{y} timer {timer} waits {waits}")?;
        }
        Activity::Deliver { home, timer, waits } => {
            let (x, y) = (home.x, home.y);
            writeln!(text, "act deliver {x},{y} timer {timer} waits {waits}")?;
        }
    }
    Ok(())
}

/// A line for a build.
fn write_build(text: &mut String, build: &Build) -> Result<(), NoMemory> {
    let (kind, left) = (build.kind, build.left);
    writeln!(text, "build {kind} left {left}")?;
    Ok(())
}

/// A line for each cell with ore, row by row.
fn write_ore(text: &mut String, world: &World) -> Result<(), NoMemory> {
    let width = usize::from(world.ore.width());
    for (place, ore) in world.ore.as_slice().iter().enumerate() {
        if *ore > 0 && width > 0 {
            let (x, y) = (place % width, place / width);
            writeln!(text, "ore {x},{y} {ore}")?;
        }
    }
    Ok(())
}
