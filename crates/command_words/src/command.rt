ghost use Rattle.std.specs.Prelude.{◌≡◌, IfOk, false};
ghost use Rattle.command_words.specs.Commands.{bare_app, played_app, drill_app, yaml_app};
ghost use Rattle.command_words.specs.Commands.{check_app, routed_app, ends_app, route_app};
ghost use Rattle.command_words.specs.Commands.{make_app, local_app, replay_app, migrate_app};
ghost use Rattle.command_words.specs.Commands.{hosted_app, timed_app, clocked_app, bound_app};
ghost use Rattle.command_words.specs.Commands.{recorded_app, serve_app, play_app};
ghost use Rattle.command_words.specs.Commands.{dialed_app, manned_app, quiet_app, flag_named};
ghost use Rattle.command_words.specs.Commands.{first_app, asking_app, playing_app, linked_app};
ghost use Rattle.command_words.specs.Commands.{framed_app, save_app, continue_app, view_app};
ghost use Rattle.command_words.specs.Commands.{ranged_app, worlds_app, compare_app, datagrams_app};
ghost use Rattle.command_words.specs.Commands.{replaying_app, saving_app, showing_app, lockstep_app};
ghost use Rattle.command_words.specs.Commands.{option_named, required_option, required_number};
ghost use Rattle.command_words.specs.Commands.{file_names, number_option, within};
ghost use Rattle.command_words.specs.Follows.{Follows};
ghost use Rattle.clap.specs.Simple.{App, app_of, with_rule, with_subcommand};
ghost use Rattle.clap.specs.Walk.{Rule, rule_of};

use crate::{MAX_BOTS, MAX_SECONDS};
use base::NoMemory;
use clap::builder::ValueParser;
use clap::{Arg, ArgAction, Command};
use game_orders::{MAX_CLIENTS, MAX_FRAMES, MAX_LAG};
use std::alloc::Global;

/// The command of the program itself, with its subcommands.
#[tactic(auto, unfolding(crate::specs::Commands::lockstep_app))]
pub(crate) fn lockstep_command<'a>(alloc: Global) -> Result<Command<'a>, NoMemory>
    ensures { IfOk result (λ command. app_of command ≡ lockstep_app) }
{
    let command = with_command(showing_commands(alloc), compare_command(alloc));
    with_command(command, datagrams_command(alloc))
}

/// The command of the program with the subcommands that show worlds of a replay, too.
#[tactic(auto, unfolding(crate::specs::Commands::showing_app))]
fn showing_commands<'a>(alloc: Global) -> Result<Command<'a>, NoMemory>
    ensures { IfOk result (Follows showing_app) }
{
    let command = with_command(saving_commands(alloc), view_command(alloc));
    with_command(command, worlds_command(alloc))
}

/// The command of the program with the subcommands that write a save and go on from it, too.
#[tactic(auto, unfolding(crate::specs::Commands::saving_app))]
fn saving_commands<'a>(alloc: Global) -> Result<Command<'a>, NoMemory>
    ensures { IfOk result (Follows saving_app) }
{
    let command = with_command(replaying_commands(alloc), save_command(alloc));
    with_command(command, continue_command(alloc))
}

/// The command of the program with the subcommands that run a replay, too.
#[tactic(auto, unfolding(crate::specs::Commands::replaying_app))]
fn replaying_commands<'a>(alloc: Global) -> Result<Command<'a>, NoMemory>
    ensures { IfOk result (Follows replaying_app) }
{
    let command = with_command(linked_commands(alloc), replay_command(alloc));
    with_command(command, migrate_command(alloc))
}

/// The command of the program with the subcommands over links, too.
#[tactic(auto, unfolding(crate::specs::Commands::linked_app))]
fn linked_commands<'a>(alloc: Global) -> Result<Command<'a>, NoMemory>
    ensures { IfOk result (Follows linked_app) }
{
    let command = with_command(playing_commands(alloc), serve_command(alloc));
    with_command(command, play_command(alloc))
}

/// The command of the program with the subcommands that play made matches and scripts, too.
#[tactic(auto, unfolding(crate::specs::Commands::playing_app))]
fn playing_commands<'a>(alloc: Global) -> Result<Command<'a>, NoMemory>
    ensures { IfOk result (Follows playing_app) }
{
    let command = with_command(asking_commands(alloc), make_command(alloc));
    with_command(command, local_command(alloc))
}

/// The command of the program with the subcommands that only ask about rules and maps, too.
#[tactic(auto, unfolding(crate::specs::Commands::asking_app))]
fn asking_commands<'a>(alloc: Global) -> Result<Command<'a>, NoMemory>
    ensures { IfOk result (Follows asking_app) }
{
    let command = with_command(first_commands(alloc), check_command(alloc));
    with_command(command, route_command(alloc))
}

/// The command of the program with its first subcommands.
#[tactic(auto, unfolding(crate::specs::Commands::first_app))]
fn first_commands<'a>(alloc: Global) -> Result<Command<'a>, NoMemory>
    ensures { IfOk result (Follows first_app) }
{
    let command = with_command(Ok(bare_command(alloc)), drill_command(alloc));
    with_command(command, yaml_command(alloc))
}

/// The command with one more subcommand, if both were made.
fn with_command<'a>(
    command: Result<Command<'a>, NoMemory>,
    added: Result<Command<'a>, NoMemory>,
) -> Result<Command<'a>, NoMemory>
    ensures { (app sub : App) → IfOk command.entry (Follows app) → IfOk added.entry (Follows sub)
        → IfOk result (Follows (with_subcommand app sub.top)) }
{
    command?.subcommand(added?)
}

/// The command with one more argument, if it was made.
fn with_arg<'a>(
    command: Result<Command<'a>, NoMemory>,
    arg: Arg<'a>,
) -> Result<Command<'a>, NoMemory>
    ensures { (app : App) (rule : Rule) → IfOk command.entry (Follows app) → rule_of arg.entry ≡ rule
        → arg.entry.global ≡ false → IfOk result (Follows (with_rule app rule)) }
{
    command?.arg(arg)
}

/// A command that one of its subcommands must follow. It has no subcommand and no option for help
/// or the version.
#[tactic(auto, unfolding(crate::specs::Commands::bare_app))]
fn bare_command<'a>(alloc: Global) -> Command<'a>
    ensures { Follows bare_app result }
{
    Command::new(alloc, "lockstep")
        .disable_help_flag(true)
        .disable_help_subcommand(true)
        .disable_version_flag(true)
        .subcommand_required(true)
}

#[tactic(auto, unfolding(crate::specs::Commands::drill_app))]
fn drill_command<'a>(alloc: Global) -> Result<Command<'a>, NoMemory>
    ensures { IfOk result (Follows drill_app) }
{
    let command = with_arg(
        played_command(alloc, "drill", "script"),
        option_named(alloc, "record"),
    );
    with_arg(command, file_names(alloc))
}

/// A command that plays a match over the file of this option, and a map, if one is named, so far.
#[tactic(auto, unfolding(crate::specs::Commands::played_app))]
fn played_command<'a>(
    alloc: Global,
    command: &'a str,
    option: &'a str,
) -> Result<Command<'a>, NoMemory>
    ensures { IfOk result (Follows (played_app command.entry.now option.entry.now)) }
{
    let command = with_arg(
        Ok(Command::new(alloc, command)),
        required_option(alloc, option),
    );
    with_arg(command, option_named(alloc, "map"))
}

#[tactic(auto, unfolding(crate::specs::Commands::yaml_app))]
fn yaml_command<'a>(alloc: Global) -> Result<Command<'a>, NoMemory>
    ensures { IfOk result (Follows yaml_app) }
{
    Command::new(alloc, "yaml").arg(file_names(alloc))
}

#[tactic(auto, unfolding(crate::specs::Commands::check_app))]
fn check_command<'a>(alloc: Global) -> Result<Command<'a>, NoMemory>
    ensures { IfOk result (Follows check_app) }
{
    let command = with_arg(Ok(Command::new(alloc, "check")), option_named(alloc, "map"));
    with_arg(command, file_names(alloc))
}

#[tactic(auto, unfolding(crate::specs::Commands::route_app))]
fn route_command<'a>(alloc: Global) -> Result<Command<'a>, NoMemory>
    ensures { IfOk result (Follows route_app) }
{
    with_arg(route_with_cells(alloc), file_names(alloc))
}

/// `route` with all its options.
#[tactic(auto, unfolding(crate::specs::Commands::ends_app))]
fn route_with_cells<'a>(alloc: Global) -> Result<Command<'a>, NoMemory>
    ensures { IfOk result (Follows ends_app) }
{
    let command = with_arg(routed_command(alloc), required_option(alloc, "from"));
    with_arg(command, required_option(alloc, "to"))
}

/// `route` with its first options: what walks on which map.
#[tactic(auto, unfolding(crate::specs::Commands::routed_app))]
fn routed_command<'a>(alloc: Global) -> Result<Command<'a>, NoMemory>
    ensures { IfOk result (Follows routed_app) }
{
    let command = with_arg(
        Ok(Command::new(alloc, "route")),
        required_option(alloc, "map"),
    );
    with_arg(command, required_option(alloc, "kind"))
}

#[tactic(auto, unfolding(crate::specs::Commands::local_app))]
fn local_command<'a>(alloc: Global) -> Result<Command<'a>, NoMemory>
    ensures { IfOk result (Follows local_app) }
{
    let command = with_arg(
        played_command(alloc, "local", "script"),
        number_option(alloc, "bots", 0, u32::from(MAX_BOTS)),
    );
    with_arg(command, file_names(alloc))
}

#[tactic(auto, unfolding(crate::specs::Commands::serve_app))]
fn serve_command<'a>(alloc: Global) -> Result<Command<'a>, NoMemory>
    ensures { IfOk result (Follows serve_app) }
{
    with_arg(recorded_command(alloc), file_names(alloc))
}

/// `serve` with all its options.
#[tactic(auto, unfolding(crate::specs::Commands::recorded_app))]
fn recorded_command<'a>(alloc: Global) -> Result<Command<'a>, NoMemory>
    ensures { IfOk result (Follows recorded_app) }
{
    let command = with_arg(bound_command(alloc), option_named(alloc, "record"));
    with_arg(command, option_named(alloc, "map"))
}

/// `serve` without the files that it names.
#[tactic(auto, unfolding(crate::specs::Commands::bound_app))]
fn bound_command<'a>(alloc: Global) -> Result<Command<'a>, NoMemory>
    ensures { IfOk result (Follows bound_app) }
{
    let command = with_arg(clocked_command(alloc), flag_named(alloc, "quiet"));
    with_arg(command, option_named(alloc, "udp-ports"))
}

/// `serve` with all its numbers.
#[tactic(auto, unfolding(crate::specs::Commands::clocked_app))]
fn clocked_command<'a>(alloc: Global) -> Result<Command<'a>, NoMemory>
    ensures { IfOk result (Follows clocked_app) }
{
    let command = with_arg(
        serve_with_numbers(alloc),
        number_option(alloc, "patience", 1, MAX_SECONDS),
    );
    with_arg(command, number_option(alloc, "lobby", 1, MAX_SECONDS))
}

/// `serve` with the numbers of the match.
#[tactic(auto, unfolding(crate::specs::Commands::timed_app))]
fn serve_with_numbers<'a>(alloc: Global) -> Result<Command<'a>, NoMemory>
    ensures { IfOk result (Follows timed_app) }
{
    let command = with_arg(
        hosted_command(alloc),
        number_option(alloc, "lag", 1, u32::from(MAX_LAG)),
    );
    with_arg(command, number_option(alloc, "seed", 0, u32::MAX))
}

/// `serve` with its first options: where, and to how many clients.
#[tactic(auto, unfolding(crate::specs::Commands::hosted_app))]
fn hosted_command<'a>(alloc: Global) -> Result<Command<'a>, NoMemory>
    ensures { IfOk result (Follows hosted_app) }
{
    let command = with_arg(
        Ok(Command::new(alloc, "serve")),
        required_option(alloc, "at"),
    );
    with_arg(
        command,
        required_number(alloc, "clients", 1, u32::from(MAX_CLIENTS)),
    )
}

#[tactic(auto, unfolding(crate::specs::Commands::play_app))]
fn play_command<'a>(alloc: Global) -> Result<Command<'a>, NoMemory>
    ensures { IfOk result (Follows play_app) }
{
    with_arg(quiet_command(alloc), file_names(alloc))
}

/// `play` with all its options.
#[tactic(auto, unfolding(crate::specs::Commands::quiet_app))]
fn quiet_command<'a>(alloc: Global) -> Result<Command<'a>, NoMemory>
    ensures { IfOk result (Follows quiet_app) }
{
    let command = with_arg(manned_command(alloc), flag_named(alloc, "quiet"));
    with_arg(command, option_named(alloc, "map"))
}

/// `play` with all that says where and who plays.
#[tactic(auto, unfolding(crate::specs::Commands::manned_app))]
fn manned_command<'a>(alloc: Global) -> Result<Command<'a>, NoMemory>
    ensures { IfOk result (Follows manned_app) }
{
    let command = with_arg(dialed_command(alloc), flag_named(alloc, "bot"));
    with_arg(command, number_option(alloc, "frames", 0, MAX_FRAMES))
}

/// `play` with its first options: where, and by which script.
#[tactic(auto, unfolding(crate::specs::Commands::dialed_app))]
fn dialed_command<'a>(alloc: Global) -> Result<Command<'a>, NoMemory>
    ensures { IfOk result (Follows dialed_app) }
{
    let command = with_arg(
        Ok(Command::new(alloc, "play")),
        required_option(alloc, "at"),
    );
    with_arg(command, option_named(alloc, "script"))
}

#[tactic(auto, unfolding(crate::specs::Commands::replay_app))]
fn replay_command<'a>(alloc: Global) -> Result<Command<'a>, NoMemory>
    ensures { IfOk result (Follows replay_app) }
{
    with_arg(played_command(alloc, "replay", "file"), file_names(alloc))
}

#[tactic(auto, unfolding(crate::specs::Commands::migrate_app))]
fn migrate_command<'a>(alloc: Global) -> Result<Command<'a>, NoMemory>
    ensures { IfOk result (Follows migrate_app) }
{
    let command = with_arg(
        played_command(alloc, "migrate", "file"),
        required_option(alloc, "to"),
    );
    with_arg(command, file_names(alloc))
}

#[tactic(auto, unfolding(crate::specs::Commands::save_app))]
fn save_command<'a>(alloc: Global) -> Result<Command<'a>, NoMemory>
    ensures { IfOk result (Follows save_app) }
{
    let command = with_arg(framed_command(alloc), required_option(alloc, "to"));
    with_arg(command, file_names(alloc))
}

/// `save` with its first options: which replay, and after how many frames.
#[tactic(auto, unfolding(crate::specs::Commands::framed_app))]
fn framed_command<'a>(alloc: Global) -> Result<Command<'a>, NoMemory>
    ensures { IfOk result (Follows framed_app) }
{
    with_arg(
        played_command(alloc, "save", "file"),
        required_number(alloc, "frames", 0, u32::MAX),
    )
}

#[tactic(auto, unfolding(crate::specs::Commands::continue_app))]
fn continue_command<'a>(alloc: Global) -> Result<Command<'a>, NoMemory>
    ensures { IfOk result (Follows continue_app) }
{
    let command = with_arg(
        played_command(alloc, "continue", "file"),
        required_option(alloc, "save"),
    );
    with_arg(command, file_names(alloc))
}

#[tactic(auto, unfolding(crate::specs::Commands::view_app))]
fn view_command<'a>(alloc: Global) -> Result<Command<'a>, NoMemory>
    ensures { IfOk result (Follows view_app) }
{
    let command = with_arg(
        played_command(alloc, "view", "file"),
        required_number(alloc, "client", 0, u32::MAX),
    );
    with_arg(command, file_names(alloc))
}

#[tactic(auto, unfolding(crate::specs::Commands::worlds_app))]
fn worlds_command<'a>(alloc: Global) -> Result<Command<'a>, NoMemory>
    ensures { IfOk result (Follows worlds_app) }
{
    let command = with_arg(
        ranged_command(alloc),
        number_option(alloc, "every", 1, u32::MAX),
    );
    with_arg(command, file_names(alloc))
}

/// `worlds` with its first options: of which replay, from where and how far.
#[tactic(auto, unfolding(crate::specs::Commands::ranged_app))]
fn ranged_command<'a>(alloc: Global) -> Result<Command<'a>, NoMemory>
    ensures { IfOk result (Follows ranged_app) }
{
    let command = with_arg(
        played_command(alloc, "worlds", "file"),
        number_option(alloc, "from", 0, u32::MAX),
    );
    with_arg(command, number_option(alloc, "to", 0, u32::MAX))
}

#[tactic(auto, unfolding(crate::specs::Commands::compare_app))]
fn compare_command<'a>(alloc: Global) -> Result<Command<'a>, NoMemory>
    ensures { IfOk result (Follows compare_app) }
{
    let command = with_arg(
        played_command(alloc, "compare", "file"),
        required_option(alloc, "with"),
    );
    with_arg(command, file_names(alloc))
}

#[tactic(auto, unfolding(crate::specs::Commands::datagrams_app))]
fn datagrams_command<'a>(alloc: Global) -> Result<Command<'a>, NoMemory>
    ensures { IfOk result (Follows datagrams_app) }
{
    Command::new(alloc, "datagrams").arg(required_option(alloc, "script"))
}

#[tactic(auto, unfolding(crate::specs::Commands::make_app))]
fn make_command<'a>(alloc: Global) -> Result<Command<'a>, NoMemory>
    ensures { IfOk result (Follows make_app) }
{
    Command::new(alloc, "make").arg(required_number(alloc, "number", 0, u32::MAX))
}

/// `--NAME VALUE`, which may be left out.
fn option_named<'a>(alloc: Global, name: &'a str) -> Arg<'a>
    ensures rule { rule_of result ≡ option_named name.entry.now }
    ensures local { result.global ≡ false }
{
    Arg::new(alloc, name).long(name)
}

/// `--NAME` alone, which may be left out.
fn flag_named<'a>(alloc: Global, name: &'a str) -> Arg<'a>
    ensures rule { rule_of result ≡ flag_named name.entry.now }
    ensures local { result.global ≡ false }
{
    option_named(alloc, name).action(ArgAction::SetTrue)
}

/// `--NAME VALUE`, which is required.
fn required_option<'a>(alloc: Global, name: &'a str) -> Arg<'a>
    ensures rule { rule_of result ≡ required_option name.entry.now }
    ensures local { result.global ≡ false }
{
    Arg::new(alloc, name).long(name).required(true)
}

/// `--NAME N`, which may be left out: a number that `clap`'s parser of `u32` takes, within these
/// bounds.
fn number_option<'a>(alloc: Global, name: &'a str, least: u32, most: u32) -> Arg<'a>
    ensures rule { rule_of result ≡ number_option name.entry.now least most }
    ensures local { result.global ≡ false }
{
    within(option_named(alloc, name), least, most)
}

/// The same, where it is required.
fn required_number<'a>(alloc: Global, name: &'a str, least: u32, most: u32) -> Arg<'a>
    ensures rule { rule_of result ≡ required_number name.entry.now least most }
    ensures local { result.global ≡ false }
{
    within(required_option(alloc, name), least, most)
}

/// The argument whose value is a number that `clap`'s parser of `u32` takes, within these bounds.
fn within<'a>(arg: Arg<'a>, least: u32, most: u32) -> Arg<'a>
    ensures rule { rule_of result ≡ within least most (rule_of arg.entry) }
    ensures global { result.global ≡ arg.entry.global }
{
    arg.value_parser(ValueParser::signed(i64::from(least), i64::from(most)))
}

/// The positional arguments: any number of them, each a use of its own.
fn file_names<'a>(alloc: Global) -> Arg<'a>
    ensures rule { rule_of result ≡ file_names }
    ensures local { result.global ≡ false }
{
    Arg::new(alloc, "names").action(ArgAction::Append)
}
