ghost use Rattle.std.specs.Prelude.{◌≡◌, ◌++◌, ◌<◌, string_bytes, IfOk, OnOk};
ghost use Rattle.game_model.specs.Grid.{IsOn};
ghost use Rattle.shroud.specs.Grids.{flag_of};
ghost use Rattle.view_command.specs.ViewText.{letter_of, row_line, rows_to, view_lines};

use base::NoMemory;
use drill::add_end_line;
use shroud::Shroud;
use std::alloc::Global;
use std::fmt::Write;
use world_units::CPos;

/// The letter of a cell.
fn letter(seen: bool, explored: bool) -> &'static str
    ensures { result.now ≡ letter_of seen explored }
{
    if seen {
        "o"
    } else if explored {
        "."
    } else {
        "#"
    }
}

/// Adds the letter of a cell.
fn add_letter(text: &mut String, shroud: &Shroud, client: u8, cell: CPos) -> Result<(), NoMemory>
    requires client { client < shroud.now.clients }
    requires cell { IsOn shroud.now.width shroud.now.height cell }
    ensures { OnOk result (string_bytes text.new ≡ string_bytes text.old
        ++ letter_of (flag_of shroud.now.seen client cell)
        (flag_of shroud.now.explored client cell)) }
{
    let seen = shroud.seen(client, cell);
    let explored = shroud.explored(client, cell);
    text.push_str(letter(seen, explored))
}

/// Adds the line of a row.
#[tactic(auto, using(crate::proofs::ViewTextLemmas::more_letters, crate::proofs::ViewTextLemmas::ends_row))]
fn add_row(text: &mut String, shroud: &Shroud, client: u8, width: u8, y: u8) -> Result<(), NoMemory>
    requires client { client < shroud.now.clients }
    requires width { width ≡ shroud.now.width }
    requires row { y < shroud.now.height }
    ensures { OnOk result (string_bytes text.new ≡ string_bytes text.old
        ++ row_line (flag_of shroud.now.seen client) (flag_of shroud.now.explored client) width y) }
{
    for x in 0..width {
        add_letter(text, shroud, client, CPos { x, y })?;
    }
    text.push_str("\n")
}

/// Adds a line for each row of the map.
#[tactic(auto, using(crate::proofs::ViewTextLemmas::more_rows))]
fn add_rows(
    text: &mut String,
    shroud: &Shroud,
    client: u8,
    width: u8,
    height: u8,
) -> Result<(), NoMemory>
    requires client { client < shroud.now.clients }
    requires width { width ≡ shroud.now.width }
    requires height { height ≡ shroud.now.height }
    ensures { OnOk result (string_bytes text.new ≡ string_bytes text.old ++ rows_to
        (flag_of shroud.now.seen client) (flag_of shroud.now.explored client) width height) }
{
    for y in 0..height {
        add_row(text, shroud, client, width, y)?;
    }
    Ok(())
}

/// The lines of a client's view, by a shroud over a map of this size, after so many frames.
#[tactic(auto, unfolding(crate::specs::ViewText::view_line))]
pub(crate) fn shown_text(
    alloc: Global,
    shroud: &Shroud,
    client: u8,
    frames: u32,
    width: u8,
    height: u8,
) -> Result<String, NoMemory>
    requires client { client < shroud.now.clients }
    requires width { width ≡ shroud.now.width }
    requires height { height ≡ shroud.now.height }
    ensures { IfOk result (λ text. string_bytes text ≡ view_lines
        (flag_of shroud.now.seen client) (flag_of shroud.now.explored client)
        client frames width height) }
{
    let mut text = String::new(alloc);
    writeln!(text, "view {client} frames {frames}")?;
    add_rows(&mut text, shroud, client, width, height)?;
    add_end_line(&mut text)?;
    Ok(text)
}
