ghost use Rattle.std.specs.Prelude.{◌≡◌};
ghost use Rattle.game_io.specs.PlannedLinks.{PlannedLink, empty_link, halves_of};

use crate::failing_call::FailingCall;
use crate::mem_sink::MemSink;
use crate::mem_source::MemSource;
use std::alloc::Global;
use std::marker::Model;

/// A link that is still to come: the bytes of its source, and the calls of both halves that are to
/// fail.
#[derive(Drop)]
pub struct ComingLink {
    pub(crate) bytes: Vec<u8>,
    pub(crate) takes: Vec<FailingCall>,
    pub(crate) puts: Vec<FailingCall>,
}

impl Model for ComingLink {
    ghost Value = { PlannedLink };

    ghost view = { λ link. record {
      bytes = link.bytes.items;
      takes = link.takes.items;
      puts = link.puts.items;
    } };
}

impl ComingLink {
    /// A link without bytes, of which no call is to fail.
    pub(crate) fn empty(alloc: Global) -> Self
        ensures { result ≡ empty_link }
    {
        ComingLink {
            bytes: Vec::new(alloc),
            takes: Vec::new(alloc),
            puts: Vec::new(alloc),
        }
    }

    /// Its halves.
    pub(crate) fn into_halves(self, alloc: Global) -> (MemSource, MemSink)
        ensures { record { input = result.0; output = result.1 } ≡ halves_of self }
    {
        let ComingLink { bytes, takes, puts } = self;
        (MemSource::new(bytes, takes), MemSink::new(alloc, puts))
    }
}
