ghost use Rattle.game_io.specs.NetState.{TakenBack, taken_back};
ghost use Rattle.game_io.specs.PlannedBytes.{sink_state, source_state};

use crate::mem_sink::MemSink;
use crate::mem_source::MemSource;
use std::marker::Model;

/// The halves of a link in memory that was taken back.
#[derive(Drop)]
pub struct MemLink {
    pub(crate) input: MemSource,
    pub(crate) output: MemSink,
}

impl Model for MemLink {
    ghost Value = { TakenBack };

    ghost view = { λ link. taken_back (source_state link.input) (sink_state link.output) };
}
