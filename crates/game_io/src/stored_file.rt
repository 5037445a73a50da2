ghost use Rattle.std.specs.Prelude.{ℕ, List, Option};
ghost use Rattle.std.specs.Option.{option_map};
ghost use Rattle.std.specs.String.{string_bytes};
ghost use Rattle.game_io.specs.PlannedFiles.{NamedFile};

use std::marker::Model;

/// A file of a memory disk: its bytes, or that there is no such file any more.
#[derive(Drop)]
pub struct StoredFile {
    pub(crate) name: String,
    pub(crate) content: Option<Vec<u8>>,
}

impl Model for StoredFile {
    ghost Value = { NamedFile };

    ghost view = { λ f. record {
      name = string_bytes f.name;
      content = option_map (λ bytes. bytes.items) f.content;
    } };
}
