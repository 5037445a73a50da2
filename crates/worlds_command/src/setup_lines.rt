//! The lines of the kinds and of the map.
ghost use Rattle.std.specs.Prelude.{◌≡◌, ◌<◌, ◌++◌, string_bytes, OnOk};
ghost use Rattle.game_model.specs.Kinds.{speed_in};
ghost use Rattle.world_text.specs.Printing.{state_of, Prints};
ghost use Rattle.worlds_command.specs.SetupLines.{kind_head, kind_line, kind_lines, letter_at};
ghost use Rattle.worlds_command.specs.SetupLines.{letter_of, letters_from, map_line, map_lines};
ghost use Rattle.worlds_command.specs.SetupLines.{row_line, rows_from, setup_lines};
ghost use Rattle.worlds_command.specs.SetupLines.{building_text};

use base::NoMemory;
use game_io::Sink;
use game_model::{Terrain, Tiles};
use rule_traits::{Kind, Mobile};
use std::fmt::Write;
use tick_core::GameMaker;
use world_text::Printer;
use world_units::CPos;

/// Prints the lines of the kinds and of the map.
pub(crate) fn print_setup<K: Sink>(printer: &mut Printer, maker: &GameMaker, out: &mut K)
    ensures { Prints
        (state_of printer.old (K.state out.old)) (state_of printer.new (K.state out.new))
        (setup_lines maker.now) }
{
    print_kinds(printer, maker.rules().kinds(), out);
    print_map(printer, &maker.map().terrain, out);
}

/// Prints the lines of the kinds, by their numbers.
fn print_kinds<K: Sink>(printer: &mut Printer, kinds: &[Kind], out: &mut K)
    ensures { Prints
        (state_of printer.old (K.state out.old)) (state_of printer.new (K.state out.new))
        (kind_lines 0 kinds.now) }
{
    for (number, kind) in kinds.iter().enumerate() {
        print_kind(printer, number, kind, out);
    }
}

/// Prints the line of a kind.
fn print_kind<K: Sink>(printer: &mut Printer, number: usize, kind: &Kind, out: &mut K)
    ensures { Prints
        (state_of printer.old (K.state out.old)) (state_of printer.new (K.state out.new))
        (kind_line number kind.now) }
{
    print_kind_head(printer, number, kind, out);
    printer.print(kind.name.as_str(), out);
    printer.print("\n", out);
}

/// Prints the line of a kind but its name.
fn print_kind_head<K: Sink>(printer: &mut Printer, number: usize, kind: &Kind, out: &mut K)
    ensures { Prints
        (state_of printer.old (K.state out.old)) (state_of printer.new (K.state out.new))
        (kind_head number kind.now) }
{
    printer.line.clear();
    let written = add_kind_head(&mut printer.line, number, kind);
    printer.print_line(written, out);
}

/// Adds the line of a kind but its name.
#[tactic(auto, unfolding(crate::specs::SetupLines::kind_head))]
fn add_kind_head(text: &mut String, number: usize, kind: &Kind) -> Result<(), NoMemory>
    ensures { OnOk result
        (string_bytes text.new ≡ string_bytes text.old ++ kind_head number kind.now) }
{
    let (health, speed) = (kind.hp(), speed_in(&kind.mobile));
    write!(
        text,
        "kind {number} health {health} speed {speed} building "
    )?;
    add_building(text, kind.building)?;
    write!(text, " name ")
}

/// The units that a kind moves in a turn: 0 without `Mobile`.
fn speed_in(mobile: &Option<Mobile>) -> u32
    ensures { result ≡ speed_in mobile.now }
{
    match mobile {
        Some(mobile) => mobile.speed,
        None => 0,
    }
}

/// Adds whether a kind is a building.
fn add_building(text: &mut String, building: bool) -> Result<(), NoMemory>
    ensures { OnOk result
        (string_bytes text.new ≡ string_bytes text.old ++ building_text building) }
{
    if building {
        write!(text, "1")
    } else {
        write!(text, "0")
    }
}

/// Prints the lines of a map: its size and its rows.
fn print_map<K: Sink>(printer: &mut Printer, tiles: &Tiles, out: &mut K)
    ensures { Prints
        (state_of printer.old (K.state out.old)) (state_of printer.new (K.state out.new))
        (map_lines tiles.now) }
{
    print_size(printer, tiles.width(), tiles.height(), out);
    print_rows(printer, tiles, out);
}

/// Prints the line of a map's size.
fn print_size<K: Sink>(printer: &mut Printer, width: u8, height: u8, out: &mut K)
    ensures { Prints
        (state_of printer.old (K.state out.old)) (state_of printer.new (K.state out.new))
        (map_line width height) }
{
    printer.line.clear();
    let written = add_size(&mut printer.line, width, height);
    printer.print_line(written, out);
}

/// Adds the line of a map's size.
#[tactic(auto, unfolding(crate::specs::SetupLines::map_line))]
fn add_size(text: &mut String, width: u8, height: u8) -> Result<(), NoMemory>
    ensures { OnOk result
        (string_bytes text.new ≡ string_bytes text.old ++ map_line width height) }
{
    writeln!(text, "map {width} {height}")
}

/// Prints the line of each row.
fn print_rows<K: Sink>(printer: &mut Printer, tiles: &Tiles, out: &mut K)
    ensures { Prints
        (state_of printer.old (K.state out.old)) (state_of printer.new (K.state out.new))
        (rows_from tiles.now tiles.now.width 0 tiles.now.height) }
{
    for row in 0..tiles.height() {
        print_row(printer, tiles, row, out);
    }
}

/// Prints the line of a row.
fn print_row<K: Sink>(printer: &mut Printer, tiles: &Tiles, row: u8, out: &mut K)
    requires { row < tiles.now.height }
    ensures { Prints
        (state_of printer.old (K.state out.old)) (state_of printer.new (K.state out.new))
        (row_line tiles.now tiles.now.width row) }
{
    printer.line.clear();
    let written = add_row(&mut printer.line, tiles, row);
    printer.print_line(written, out);
}

/// Adds the line of a row.
#[tactic(auto, unfolding(crate::specs::SetupLines::row_line))]
fn add_row(text: &mut String, tiles: &Tiles, row: u8) -> Result<(), NoMemory>
    requires { row < tiles.now.height }
    ensures { OnOk result
        (string_bytes text.new ≡ string_bytes text.old ++ row_line tiles.now tiles.now.width row) }
{
    write!(text, "row ")?;
    add_letters(text, tiles, row)?;
    writeln!(text)
}

/// Adds the letters of the cells of a row.
fn add_letters(text: &mut String, tiles: &Tiles, row: u8) -> Result<(), NoMemory>
    requires { row < tiles.now.height }
    ensures { OnOk result (string_bytes text.new
        ≡ string_bytes text.old ++ letters_from tiles.now row 0 tiles.now.width) }
{
    for column in 0..tiles.width() {
        text.push(letter_at(tiles, row, column))?;
    }
    Ok(())
}

/// The letter of a cell of a map.
fn letter_at(tiles: &Tiles, row: u8, column: u8) -> char
    requires row { row < tiles.now.height }
    requires column { column < tiles.now.width }
    ensures value { result ≡ letter_at tiles.now row column }
    ensures ascii { result < 128 }
{
    letter_of(tiles.get(CPos { x: column, y: row }))
}

/// The letter of a terrain.
fn letter_of(terrain: Terrain) -> char
    ensures value { result ≡ letter_of terrain }
    ensures ascii { result < 128 }
{
    match terrain {
        Terrain::Clear => '.',
        Terrain::Road => '=',
        Terrain::Rough => 'r',
        Terrain::Water => '~',
        Terrain::Rock => 'X',
    }
}
