ghost use Rattle.std.specs.Prelude.{◌≡◌, ◌++◌, ◌∷◌, [], ℕ, Ok, string_bytes, IfOk};
ghost use Rattle.drill.specs.MadeDrill.{made_drill_of};
ghost use Rattle.drill_words.specs.Drill.{plain_of};
ghost use Rattle.command_words.specs.RequestPlain.{Make};
ghost use Rattle.command_answers.specs.Given.{given_contents};
ghost use Rattle.command_answers.specs.Stop.{ReturnsStep};
ghost use Rattle.game_io.specs.Files.{Files};
ghost use Rattle.replay_commands.specs.Matches.{game_match};
ghost use Rattle.rule_commands.specs.SampleSetup.{sample_setup};
ghost use Rattle.match_commands.specs.Made.{closing_of, made_line, made_text, make_step};
ghost use Rattle.match_commands.specs.Made.{sample_step};
ghost use Rattle.match_commands.specs.Request.{IsFaultless};

use base::NoMemory;
use command_answers::{GivenFiles, Stop};
use drill::{closing_lines, made_drill, run_without_report};
use drill_words::Drill;
use map_grid::SAMPLE_MAP;
use rule_commands::read_maker;
use rule_traits::SAMPLE_RULES;
use std::alloc::Global;
use std::fmt::Write;
use tick_core::GameMaker;

/// The texts of the sample, as if they had been read from files.
fn sample_files(alloc: Global) -> Result<GivenFiles, NoMemory>
    ensures rules { IfOk result (λ given.
        (given_contents given).rules ≡ SAMPLE_RULES.now ∷ []) }
    ensures map_file { IfOk result (λ given.
        (given_contents given).map_file ≡ Some SAMPLE_MAP.now) }
{
    let mut rules = Vec::new(alloc);
    rules.push(SAMPLE_RULES.as_bytes().to_vec(alloc)?)?;
    Ok(GivenFiles {
        rules,
        map_file: Some(SAMPLE_MAP.as_bytes().to_vec(alloc)?),
    })
}

/// A maker of worlds over the sample rules and the sample map.
fn sample_maker(alloc: Global) -> Result<GameMaker, Stop<'static>>
    ensures { ReturnsStep result (λ maker. maker) sample_step }
{
    let given = sample_files(alloc)?;
    read_maker(alloc, &["sample rules"], Some("sample map"), &given)
}

/// The end of the report of a drill over the maker's rules and map.
fn closing_text(alloc: Global, maker: &GameMaker, drill: &Drill) -> Result<String, NoMemory>
    ensures { IfOk result (λ text. string_bytes text
        ≡ closing_of (game_match maker.now (plain_of drill.now)) drill.now.events) }
{
    let left = run_without_report(alloc, drill, maker)?;
    closing_lines(alloc, &left)
}

/// The line with this number of events, and the end of a report after it.
#[tactic(auto, unfolding(crate::specs::Made::made_line))]
fn counted_text(alloc: Global, events: usize, closing: &str) -> Result<String, NoMemory>
    ensures { IfOk result (λ text. string_bytes text ≡ made_line events ++ closing.now) }
{
    let mut text = String::new(alloc);
    writeln!(text, "made {events} events")?;
    text.push_str(closing)?;
    Ok(text)
}

/// The text of the command `make` over the maker's rules and map.
fn made_text(alloc: Global, maker: &GameMaker, number: u32) -> Result<String, NoMemory>
    ensures { IfOk result
        (λ text. string_bytes text ≡ made_text maker.now (made_drill_of number)) }
{
    let drill = made_drill(alloc, number)?;
    let closing = closing_text(alloc, maker, &drill)?;
    counted_text(alloc, drill.events.len(), closing.as_str())
}

/// The text of the command `make`: how many events the made drill of this number has, and the end
/// of its report.
pub(crate) fn make_text(alloc: Global, number: u32) -> Result<Vec<u8>, Stop<'static>>
    ensures { ReturnsStep result (λ text. text.items) (make_step number) }
{
    let maker = sample_maker(alloc)?;
    let text = made_text(alloc, &maker, number)?;
    Ok(text.into_bytes())
}

/// A law of the command `make`: its text is that of the made drill over the values of the sample,
/// and no file that there is can make it refused.
#[tactic(auto, using(crate::proofs::SampleLemmas::make_is, crate::proofs::SampleLemmas::made_matches_are_accepted))]
pub fn made_matches_are_accepted()
    ensures text { (number : ℕ) →
        make_step number ≡ Ok (made_text sample_setup (made_drill_of number)) }
    ensures faultless { (number : ℕ) (files : Files) → IsFaultless (Make number) files }
{}
