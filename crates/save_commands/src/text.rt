ghost use Rattle.std.specs.Prelude.{◌≡◌, string_bytes, IfOk};
ghost use Rattle.save_commands.specs.Saves.{saved_lines};

use base::NoMemory;
use drill::add_end_line;
use std::alloc::Global;
use std::fmt::Write;

/// The lines of a save of so many bytes after so many frames.
#[tactic(auto, unfolding(crate::specs::Saves::saved_line))]
pub(crate) fn saved_text(alloc: Global, frames: u32, bytes: usize) -> Result<String, NoMemory>
    ensures { IfOk result (λ text. string_bytes text ≡ saved_lines frames bytes) }
{
    let mut text = String::new(alloc);
    writeln!(text, "saved frames {frames} bytes {bytes}")?;
    add_end_line(&mut text)?;
    Ok(text)
}
