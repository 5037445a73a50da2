//! The text of a game's world, printed.
ghost use Rattle.std.specs.Prelude.{◌≡◌, ◌<◌};
ghost use Rattle.std.specs.List.{flat_map};
ghost use Rattle.world_text.specs.Printing.{state_of, Prints};
ghost use Rattle.world_text.specs.WorldText.{actor_text, head_text, world_end, world_text};
ghost use Rattle.world_text.specs.WorldText.{ore_at, ore_from, ore_text};

use crate::lines::{add_actor, add_end, add_head, add_ore};
use crate::printer::Printer;
use game_io::Sink;
use game_model::{Actor, Head, Ore};
use tick_core::Game;

/// Prints the text of a game's world: a line for its counts, one for the cash and one for the
/// departure flags of the clients, the lines of each actor by rising id, one for each cell with
/// ore, row by row, and `end world`. Beside the world it takes no more memory than the printer has.
pub fn print_world<K: Sink>(printer: &mut Printer, game: &Game, out: &mut K)
    ensures { Prints
        (state_of printer.old (K.state out.old)) (state_of printer.new (K.state out.new))
        (world_text game.now.world) }
{
    print_head(printer, game.head(), out);
    print_actors(printer, game, out);
    print_ore(printer, game.ore(), out);
    print_end(printer, out);
}

/// Prints the lines of all of a world but its actors and its ore.
fn print_head<K: Sink>(printer: &mut Printer, head: &Head, out: &mut K)
    ensures { Prints
        (state_of printer.old (K.state out.old)) (state_of printer.new (K.state out.new))
        (head_text head.now) }
{
    printer.line.clear();
    let written = add_head(&mut printer.line, head);
    printer.print_line(written, out);
}

/// Prints the lines of each actor.
fn print_actors<K: Sink>(printer: &mut Printer, game: &Game, out: &mut K)
    ensures { Prints
        (state_of printer.old (K.state out.old)) (state_of printer.new (K.state out.new))
        (flat_map actor_text game.now.world.actors) }
{
    for i in 0..game.actor_count() {
        let Some(actor) = game.actor_at(i) else {
            unreachable!()
        };
        print_actor(printer, actor, out);
    }
}

/// Prints the lines of an actor.
fn print_actor<K: Sink>(printer: &mut Printer, actor: &Actor, out: &mut K)
    ensures { Prints
        (state_of printer.old (K.state out.old)) (state_of printer.new (K.state out.new))
        (actor_text actor.now) }
{
    printer.line.clear();
    let written = add_actor(&mut printer.line, actor);
    printer.print_line(written, out);
}

/// Prints the line of each cell with ore.
fn print_ore<K: Sink>(printer: &mut Printer, ore: &Ore, out: &mut K)
    ensures { Prints
        (state_of printer.old (K.state out.old)) (state_of printer.new (K.state out.new))
        (ore_text ore.now) }
{
    let width = usize::from(ore.width());
    let cells = ore.as_slice();
    if width > 0 {
        print_cells(printer, width, cells, out);
    }
}

/// Prints the line of each of all cells that has ore, in a map of this width.
fn print_cells<K: Sink>(printer: &mut Printer, width: usize, cells: &[u8], out: &mut K)
    requires { 0 < width }
    ensures { Prints
        (state_of printer.old (K.state out.old)) (state_of printer.new (K.state out.new))
        (ore_from width 0 cells.now) }
{
    for (place, bales) in cells.iter().enumerate() {
        print_cell(printer, width, place, *bales, out);
    }
}

/// Prints the line of the cell at a place of a map of this width, if the cell has ore.
fn print_cell<K: Sink>(printer: &mut Printer, width: usize, place: usize, bales: u8, out: &mut K)
    requires { 0 < width }
    ensures { Prints
        (state_of printer.old (K.state out.old)) (state_of printer.new (K.state out.new))
        (ore_at width place bales) }
{
    if bales == 0 {
        return;
    }
    printer.line.clear();
    let written = add_ore(&mut printer.line, place % width, place / width, bales);
    printer.print_line(written, out);
}

/// Prints the last line of a world.
fn print_end<K: Sink>(printer: &mut Printer, out: &mut K)
    ensures { Prints
        (state_of printer.old (K.state out.old)) (state_of printer.new (K.state out.new))
        world_end }
{
    printer.line.clear();
    let written = add_end(&mut printer.line);
    printer.print_line(written, out);
}
