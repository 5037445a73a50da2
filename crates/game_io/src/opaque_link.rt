ghost use Rattle.std.specs.Prelude.{None};
ghost use Rattle.game_io.specs.NetState.{TakenBack};

use std::marker::Model;

/// How often the halves of an opaque link had failed together as it was taken back.
#[derive(Drop)]
pub struct OpaqueLink {
    pub(crate) faults: u64,
}

impl Model for OpaqueLink {
    ghost Value = { TakenBack };

    ghost view = { λ link. record { left = None; written = None; faults = link.faults } };
}
