ghost use Rattle.std.specs.Prelude.{◌≡◌, ℕ, ◌+◌, ◌++◌, ◌∷◌, [], length, IfOk, OnOk};
ghost use Rattle.yaml_lines.specs.Kept.{kept_lines};
ghost use Rattle.yaml_lines.specs.Printed.{escape, printed_value, printed_text, tabs, printed};
ghost use Rattle.yaml_lines.specs.Readable.{AllReadable, said};
ghost use Rattle.yaml_lines.specs.Trees.{trees_of, flat};

use crate::blanks;
use crate::forest::Forest;
use base::NoMemory;
use std::alloc::Global;

/// Writes a text with a backslash before each `#`.
fn write_escaped(out: &mut Vec<u8>, text: &[u8]) -> Result<(), NoMemory>
    ensures { OnOk result (out.new.items ≡ out.old.items ++ escape text.now) }
{
    for byte in text {
        if *byte == b'#' {
            out.push(b'\\')?;
        }
        out.push(*byte)?;
    }
    Ok(())
}

/// Writes a value after a space, with the backslashes that keep blanks at its ends. An empty value
/// is left out.
fn write_value(out: &mut Vec<u8>, value: &[u8]) -> Result<(), NoMemory>
    ensures { OnOk result (out.new.items ≡ out.old.items ++ printed_value value.now) }
{
    if value.is_empty() {
        return Ok(());
    }
    out.push(b' ')?;
    if blanks::begins_blank(value) {
        out.push(b'\\')?;
    }
    write_escaped(out, value)?;
    if blanks::ends_blank(value) {
        out.push(b'\\')?;
    }
    Ok(())
}

/// Writes one line.
fn write_line(out: &mut Vec<u8>, indent: &[u8], key: &[u8], value: &[u8]) -> Result<(), NoMemory>
    ensures { OnOk result (out.new.items ≡ out.old.items ++ ((indent.now ++ printed_text key.now value.now) ++ 10 ∷ [])) }
{
    out.extend_from_slice(indent)?;
    write_escaped(out, key)?;
    out.push(b':')?;
    write_value(out, value)?;
    out.push(b'\n')?;
    Ok(())
}

/// Writes the lines of all nodes. The indent has one tab a level, and is the same afterwards.
#[tactic(auto, using(crate::proofs::PrintSteps::print_steps))]
fn write_forest(out: &mut Vec<u8>, indent: &mut Vec<u8>, forest: &Forest) -> Result<(), NoMemory>
    requires { indent.old.items ≡ tabs (length indent.old.items) }
    ensures written { OnOk result (out.new.items ≡ out.old.items ++ printed (flat (length indent.old.items) (trees_of forest.now))) }
    ensures indent { OnOk result (indent.new.items ≡ indent.old.items) }
{
    for node in &forest.nodes {
        write_line(
            out,
            indent.as_slice(),
            node.key.as_str().as_bytes(),
            node.value.as_str().as_bytes(),
        )?;
        indent.push(b'\t')?;
        write_forest(out, indent, &node.children)?;
        indent.pop();
    }
    Ok(())
}

/// Writes a forest as lines: each node in preorder with one tab a level, its key, a colon and its
/// value. Where the keys and values came out of lines, the lines have the same levels, keys and
/// values when they are read again. It fails only where memory runs out.
#[tactic(auto, using(crate::proofs::ReadAgain::read_again))]
pub fn print(alloc: Global, forest: &Forest) -> Result<Vec<u8>, NoMemory>
    ensures written { IfOk result (λ bytes. bytes.items ≡ printed (flat 0 (trees_of forest.now))) }
    ensures read_again { IfOk result (λ bytes. AllReadable (flat 0 (trees_of forest.now)) → (file : ℕ) → said (kept_lines file bytes.items) ≡ said (flat 0 (trees_of forest.now))) }
{
    let mut out = Vec::new(alloc);
    let mut indent = Vec::new(alloc);
    write_forest(&mut out, &mut indent, forest)?;
    Ok(out)
}
