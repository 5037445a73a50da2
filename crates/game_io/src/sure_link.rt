ghost use Rattle.std.specs.Prelude.{◌≡◌, None, Some};
ghost use Rattle.game_io.specs.NetState.{TakenBack, taken_back};

use crate::source::Source;
use crate::sure_source::SureSource;
use std::marker::Model;

/// A link that never fails, as it was taken back. Its sink keeps nothing.
#[derive(Drop)]
pub struct SureLink {
    pub(crate) input: SureSource,
}

impl Model for SureLink {
    ghost Value = { TakenBack };

    ghost view = { λ link. taken_back (record { left = Some link.input; faults = 0 })
        (record { written = None; faults = 0 }) };
}

impl SureLink {
    /// How often its halves have failed.
    pub(crate) fn faults(&self) -> u64
        ensures { result ≡ self.now.faults }
    {
        self.input.faults()
    }
}
