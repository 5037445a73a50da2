ghost use Rattle.std.specs.Prelude.{◌≡◌, ◌<◌, ◌≤◌, ◌+◌, ◌++◌, ◌∷◌, [], length, IfOk, IfErr, OnOk};
ghost use Rattle.std.specs.Prelude.{MatchOption, None};
ghost use Rattle.yaml_lines.specs.Built.{parsed};
ghost use Rattle.yaml_lines.specs.Grown.{flat_grown, height};
ghost use Rattle.base.specs.Lines.{lines_of};
ghost use Rattle.yaml_lines.specs.Kept.{kept_of, kept_lines, line_fault, allowed_after};
ghost use Rattle.yaml_lines.specs.Kept.{first_line_fault, IsLineFault};
ghost use Rattle.yaml_lines.specs.Limits.{nodes_in, IsLowForest};
ghost use Rattle.yaml_lines.specs.Readable.{AllReadable};
ghost use Rattle.yaml_lines.specs.declared.TheConstants.{MAX_LINES};
ghost use Rattle.yaml_lines.specs.Reading.{words_of};
ghost use Rattle.yaml_lines.specs.Trees.{trees_of, flat};

use crate::fault::LineFault;
use crate::forest::Forest;
use crate::grow;
use crate::growing::Growing;
use crate::line::read_line;
use crate::origin::{Origin, whole_text};
use crate::place::Place;
use std::alloc::Global;

/// The first line, without its LF, and the bytes after it. Nothing where no bytes are left.
#[tactic(auto, using(crate::proofs::LineSteps::line_steps))]
fn next_line(bytes: &[u8]) -> Option<(&[u8], &[u8])>
    ensures { MatchOption result (bytes.now ≡ [])
        (λ parts. (lines_of bytes.now ≡ parts.0.now ∷ lines_of parts.1.now) × (length parts.1.now < length bytes.now)) }
{
    for (at, byte) in bytes.iter().enumerate() {
        if *byte == b'\n' {
            return Some((&bytes[..at], &bytes[at + 1..]));
        }
    }
    if bytes.is_empty() {
        None
    } else {
        Some((bytes, &[]))
    }
}

/// Reads a line, and adds its node where it is kept.
#[tactic(auto, unfolding(crate::specs::Kept::line_fault))]
fn add_line(
    alloc: Global,
    grown: &mut Growing,
    place: Place,
    origin: Origin<'_>,
    line: &[u8],
) -> Result<(), LineFault>
    ensures sound { OnOk result (line_fault place (height grown.old) line.now ≡ None) }
    ensures added { OnOk result (flat_grown grown.new ≡ flat_grown grown.old ++ kept_of place (words_of line.now)) }
    ensures level { OnOk result (height grown.new ≡ allowed_after (height grown.old) (words_of line.now)) }
    ensures fault { IfErr result (λ fault. IsLineFault fault (line_fault place (height grown.old) line.now)) }
{
    match read_line(alloc, place, grown.open.len(), origin, line)? {
        Some(found) => Ok(grow::add(alloc, grown, place, found)?),
        None => Ok(()),
    }
}

/// Reads a file: its kept lines as a forest, or its first line fault. `file` is the file's number,
/// which each place has; its lines are numbered from 1. The forest has at most `MAX_LINES` nodes,
/// and none below level `MAX_LEVELS - 1`.
///
/// The fault is that of the earliest line that has one. In one line the order is: `TooManyLines`,
/// `NotUtf8`, `LineTooLong`, each also where the line isn't kept, then `BadIndent` and `TooDeep`.
/// `NoMemory` means out of memory, and may come in place of any answer.
pub fn parse(alloc: Global, file: u16, bytes: &[u8]) -> Result<Forest, LineFault>
    ensures sound { OnOk result (first_line_fault file bytes.now ≡ None) }
    ensures done { IfOk result (λ forest. parsed file bytes.now ≡ Ok (trees_of forest)) }
    ensures reads { IfOk result (λ forest. flat 0 (trees_of forest) ≡ kept_lines file bytes.now) }
    ensures readable { IfOk result (λ forest. AllReadable (flat 0 (trees_of forest))) }
    ensures nodes { IfOk result (λ forest. nodes_in forest ≤ MAX_LINES) }
    ensures low { IfOk result IsLowForest }
    ensures fault { IfErr result (λ fault. IsLineFault fault (first_line_fault file bytes.now)) }
{
    let whole = whole_text(alloc, bytes)?;
    let origin = Origin {
        whole: whole.as_ref(),
        start: 0,
    };
    let mut grown = grow::start(alloc);
    let mut rest = bytes;
    let mut line = 1;
    while let Some((text, after)) = next_line(rest) {
        let place = Place { file, line };
        add_line(alloc, &mut grown, place, origin.of_rest(bytes, rest), text)?;
        line += 1;
        rest = after;
    }
    let forest = grow::finish(grown)?;
    Ok(forest)
}
