//! The lines of differences.
ghost use Rattle.std.specs.Prelude.{◌≡◌, ◌++◌, codes, string_bytes, OnOk};
ghost use Rattle.std.specs.List.{flat_map};
ghost use Rattle.compare_command.specs.Difference.{Differs, OnlyFirst, OnlySecond, values_of};
ghost use Rattle.compare_command.specs.Lines.{activity_word, both, build_word, cell_word};
ghost use Rattle.compare_command.specs.Lines.{comma_word, comma_words, field_word, flag_word};
ghost use Rattle.compare_command.specs.Lines.{last_lines};
ghost use Rattle.compare_command.specs.Lines.{line_of, subject_words, values_words};
ghost use Rattle.compare_command.specs.JoinedWords.{number_word, place_word, timer_word};
ghost use Rattle.compare_command.specs.JoinedWords.{waits_word};
ghost use Rattle.drill_words.specs.Hash.{hash_digits};
ghost use Rattle.world_text.specs.WorldText.{leg_text};

use crate::entry_words::add_entries;
use crate::joined_words::{add_number, add_place};
use crate::subject::{Field, Subject};
use crate::values::Values;
use activities::Activity;
use base::NoMemory;
use drill::{add_end_line, add_hash};
use game_model::{Build, Leg};
use std::fmt::Write;
use world_units::CPos;

/// Adds the line of two values that differ.
#[tactic(auto, unfolding(crate::specs::Lines::line_of))]
pub(crate) fn add_difference(
    text: &mut String,
    of: Subject,
    values: Values<'_>,
) -> Result<(), NoMemory>
    ensures { OnOk result
        (string_bytes text.new ≡ string_bytes text.old ++ line_of (Differs of (values_of values.entry))) }
{
    add_subject(text, of)?;
    write!(text, " ")?;
    add_values(text, values)?;
    writeln!(text)
}

/// Adds the line of an actor that the first file alone has.
#[tactic(auto, unfolding(crate::specs::Lines::line_of))]
pub(crate) fn add_only_first(text: &mut String, id: u32) -> Result<(), NoMemory>
    ensures { OnOk result
        (string_bytes text.new ≡ string_bytes text.old ++ line_of (OnlyFirst id)) }
{
    writeln!(text, "actor {id} only first")
}

/// Adds the line of an actor that the second file alone has.
#[tactic(auto, unfolding(crate::specs::Lines::line_of))]
pub(crate) fn add_only_second(text: &mut String, id: u32) -> Result<(), NoMemory>
    ensures { OnOk result
        (string_bytes text.new ≡ string_bytes text.old ++ line_of (OnlySecond id)) }
{
    writeln!(text, "actor {id} only second")
}

/// Adds the last lines: how many differences there are, and `end`.
#[tactic(auto, unfolding(crate::specs::Lines::last_lines))]
pub(crate) fn add_last(text: &mut String, count: u64) -> Result<(), NoMemory>
    ensures { OnOk result
        (string_bytes text.new ≡ string_bytes text.old ++ last_lines count) }
{
    writeln!(text, "differences {count}")?;
    add_end_line(text)
}

/// Adds what differs, in words.
#[tactic(auto, unfolding(crate::specs::Lines::subject_words))]
fn add_subject(text: &mut String, of: Subject) -> Result<(), NoMemory>
    ensures { OnOk result
        (string_bytes text.new ≡ string_bytes text.old ++ subject_words of) }
{
    match of {
        Subject::Frames => write!(text, "frames"),
        Subject::Tick => write!(text, "tick"),
        Subject::Seed => write!(text, "seed"),
        Subject::Drawn => write!(text, "drawn"),
        Subject::Next => write!(text, "next"),
        Subject::Pace => write!(text, "pace"),
        Subject::Clients => write!(text, "clients"),
        Subject::Cash(client) => write!(text, "cash {client}"),
        Subject::Gone(client) => write!(text, "gone {client}"),
        Subject::Actor(id, field) => {
            write!(text, "actor {id} ")?;
            add_field(text, field)
        }
        Subject::Ore(column, row) => write!(text, "ore {column},{row}"),
        Subject::Entry(frame, client) => write!(text, "frame {frame} client {client}"),
        Subject::Mark(frames) => write!(text, "mark {frames}"),
    }
}

/// Adds the word of an actor's field.
#[tactic(auto, unfolding(crate::specs::Lines::field_word))]
fn add_field(text: &mut String, field: Field) -> Result<(), NoMemory>
    ensures { OnOk result
        (string_bytes text.new ≡ string_bytes text.old ++ field_word field) }
{
    match field {
        Field::Kind => write!(text, "kind"),
        Field::Owner => write!(text, "owner"),
        Field::Cell => write!(text, "cell"),
        Field::Facing => write!(text, "facing"),
        Field::Leg => write!(text, "leg"),
        Field::Health => write!(text, "health"),
        Field::Load => write!(text, "load"),
        Field::Reload => write!(text, "reload"),
        Field::Acts => write!(text, "acts"),
        Field::Builds => write!(text, "builds"),
    }
}

/// Adds two values with a space between them.
#[tactic(auto, unfolding(crate::specs::Lines::values_words))]
fn add_values(text: &mut String, values: Values<'_>) -> Result<(), NoMemory>
    ensures { OnOk result
        (string_bytes text.new ≡ string_bytes text.old ++ values_words (values_of values.entry)) }
{
    match values {
        Values::Numbers(a, b) => write!(text, "{a} {b}"),
        Values::Flags(a, b) => add_flags(text, a, b),
        Values::Cells(a, b) => add_cells(text, a, b),
        Values::Legs(a, b) => add_legs(text, a, b),
        Values::Acts(a, b) => add_both_acts(text, a, b),
        Values::Builds(a, b) => add_both_builds(text, a, b),
        Values::Entries(a, b) => add_entries(text, a, b),
        Values::Hashes(a, b) => add_hashes(text, a, b),
    }
}

/// Adds two flags.
fn add_flags(text: &mut String, a: bool, b: bool) -> Result<(), NoMemory>
    ensures { OnOk result
        (string_bytes text.new ≡ string_bytes text.old ++ both (flag_word a) (flag_word b)) }
{
    add_flag(text, a)?;
    write!(text, " ")?;
    add_flag(text, b)
}

/// Adds a flag.
fn add_flag(text: &mut String, flag: bool) -> Result<(), NoMemory>
    ensures { OnOk result
        (string_bytes text.new ≡ string_bytes text.old ++ flag_word flag) }
{
    if flag {
        write!(text, "1")
    } else {
        write!(text, "0")
    }
}

/// Adds two cells.
fn add_cells(text: &mut String, a: CPos, b: CPos) -> Result<(), NoMemory>
    ensures { OnOk result
        (string_bytes text.new ≡ string_bytes text.old ++ both (cell_word a) (cell_word b)) }
{
    add_cell(text, a)?;
    write!(text, " ")?;
    add_cell(text, b)
}

/// Adds a cell.
#[tactic(auto, unfolding(crate::specs::Lines::cell_word))]
fn add_cell(text: &mut String, cell: CPos) -> Result<(), NoMemory>
    ensures { OnOk result
        (string_bytes text.new ≡ string_bytes text.old ++ cell_word cell) }
{
    let (x, y) = (cell.x, cell.y);
    write!(text, "{x},{y}")
}

/// Adds two legs.
fn add_legs(text: &mut String, a: Option<Leg>, b: Option<Leg>) -> Result<(), NoMemory>
    ensures { OnOk result
        (string_bytes text.new ≡ string_bytes text.old ++ both (leg_text a) (leg_text b)) }
{
    add_leg(text, a)?;
    write!(text, " ")?;
    add_leg(text, b)
}

/// Adds a leg.
fn add_leg(text: &mut String, leg: Option<Leg>) -> Result<(), NoMemory>
    ensures { OnOk result
        (string_bytes text.new ≡ string_bytes text.old ++ leg_text leg) }
{
    match leg {
        Some(leg) => {
            let (dir, progress) = (leg.dir, leg.progress);
            write!(text, "{dir}:{progress}")
        }
        None => write!(text, "none"),
    }
}

/// Adds what two actors are to do.
fn add_both_acts(text: &mut String, a: &[Activity], b: &[Activity]) -> Result<(), NoMemory>
    ensures { OnOk result
        (string_bytes text.new ≡ string_bytes text.old ++ both (comma_words activity_word a.now)
        (comma_words activity_word b.now)) }
{
    add_acts(text, a)?;
    write!(text, " ")?;
    add_acts(text, b)
}

/// Adds what an actor is to do.
fn add_acts(text: &mut String, acts: &[Activity]) -> Result<(), NoMemory>
    ensures { OnOk result
        (string_bytes text.new ≡ string_bytes text.old ++ comma_words activity_word acts.now) }
{
    let Some((act, more)) = acts.split_first() else {
        return write!(text, "-");
    };
    add_act(text, act)?;
    add_more_acts(text, more)
}

/// Adds each activity after a comma.
fn add_more_acts(text: &mut String, acts: &[Activity]) -> Result<(), NoMemory>
    ensures { OnOk result (string_bytes text.new
        ≡ string_bytes text.old ++ flat_map (comma_word activity_word) acts.now) }
{
    for act in acts {
        write!(text, ",")?;
        add_act(text, act)?;
    }
    Ok(())
}

/// Adds an activity.
#[tactic(auto, using(crate::proofs::WordLemmas::act_words))]
fn add_act(text: &mut String, act: &Activity) -> Result<(), NoMemory>
    ensures { OnOk result
        (string_bytes text.new ≡ string_bytes text.old ++ activity_word act.now) }
{
    match act {
        Activity::Move { goal, waits } => add_move(text, *goal, *waits),
        Activity::Attack { target, waits } => add_attack(text, *target, *waits),
        Activity::Harvest { cell, timer, waits } => {
            add_loading(text, "harvest", *cell, *timer, *waits)
        }
        Activity::Deliver { home, timer, waits } => {
            add_loading(text, "deliver", *home, *timer, *waits)
        }
    }
}

/// Adds a move.
fn add_move(text: &mut String, goal: CPos, waits: u8) -> Result<(), NoMemory>
    ensures { OnOk result (string_bytes text.new ≡ string_bytes text.old
        ++ (codes "move" ++ (place_word goal ++ waits_word waits))) }
{
    write!(text, "move")?;
    add_place(text, goal)?;
    add_waits(text, waits)
}

/// Adds an attack.
fn add_attack(text: &mut String, target: u32, waits: u8) -> Result<(), NoMemory>
    ensures { OnOk result (string_bytes text.new ≡ string_bytes text.old
        ++ (codes "attack" ++ (number_word target ++ waits_word waits))) }
{
    write!(text, "attack")?;
    add_number(text, target)?;
    add_waits(text, waits)
}

/// Adds an activity of loading or unloading, of this word.
fn add_loading(
    text: &mut String,
    word: &str,
    cell: CPos,
    timer: u16,
    waits: u8,
) -> Result<(), NoMemory>
    ensures { OnOk result (string_bytes text.new ≡ string_bytes text.old
        ++ (word.now ++ (place_word cell ++ (timer_word timer ++ waits_word waits)))) }
{
    text.push_str(word)?;
    add_place(text, cell)?;
    add_timer(text, timer)?;
    add_waits(text, waits)
}

/// Adds the turns so far of the load or unload at work.
fn add_timer(text: &mut String, timer: u16) -> Result<(), NoMemory>
    ensures { OnOk result (string_bytes text.new ≡ string_bytes text.old ++ timer_word timer) }
{
    text.push_str(":timer")?;
    add_number(text, u32::from(timer))
}

/// Adds how often an actor has waited.
fn add_waits(text: &mut String, waits: u8) -> Result<(), NoMemory>
    ensures { OnOk result (string_bytes text.new ≡ string_bytes text.old ++ waits_word waits) }
{
    text.push_str(":waits")?;
    add_number(text, u32::from(waits))
}

/// Adds what two actors are to build.
fn add_both_builds(text: &mut String, a: &[Build], b: &[Build]) -> Result<(), NoMemory>
    ensures { OnOk result
        (string_bytes text.new ≡ string_bytes text.old ++ both (comma_words build_word a.now)
        (comma_words build_word b.now)) }
{
    add_builds(text, a)?;
    write!(text, " ")?;
    add_builds(text, b)
}

/// Adds what an actor is to build.
fn add_builds(text: &mut String, builds: &[Build]) -> Result<(), NoMemory>
    ensures { OnOk result
        (string_bytes text.new ≡ string_bytes text.old ++ comma_words build_word builds.now) }
{
    let Some((build, more)) = builds.split_first() else {
        return write!(text, "-");
    };
    add_build(text, build)?;
    add_more_builds(text, more)
}

/// Adds each build after a comma.
fn add_more_builds(text: &mut String, builds: &[Build]) -> Result<(), NoMemory>
    ensures { OnOk result (string_bytes text.new
        ≡ string_bytes text.old ++ flat_map (comma_word build_word) builds.now) }
{
    for build in builds {
        write!(text, ",")?;
        add_build(text, build)?;
    }
    Ok(())
}

/// Adds a build.
#[tactic(auto, unfolding(crate::specs::Lines::build_word))]
fn add_build(text: &mut String, build: &Build) -> Result<(), NoMemory>
    ensures { OnOk result
        (string_bytes text.new ≡ string_bytes text.old ++ build_word build.now) }
{
    let (kind, left) = (build.kind, build.left);
    write!(text, "{kind}:{left}")
}

/// Adds two hashes.
fn add_hashes(text: &mut String, a: u64, b: u64) -> Result<(), NoMemory>
    ensures { OnOk result
        (string_bytes text.new ≡ string_bytes text.old ++ both (hash_digits a) (hash_digits b)) }
{
    add_hash(text, a)?;
    write!(text, " ")?;
    add_hash(text, b)
}
