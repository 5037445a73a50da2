ghost use Rattle.std.specs.Prelude.{◌≡◌, ◌<◌, ◌++◌, ◌∷◌, [], length, drop, None, Some, OnOk, OnErr};
ghost use Rattle.game_io.specs.declared.net.TheConstants.{MAX_LINKS};
ghost use Rattle.game_io.specs.NetState.{next_bytes};
ghost use Rattle.game_io.specs.PlannedLinks.{SureLinks};

use crate::failed::Failed;
use crate::net::{LINKS_ROOM, Net};
use crate::sure_link::SureLink;
use crate::sure_sink::SureSink;
use crate::sure_source::SureSource;
use arrayvec::ArrayVec;
use base::NoMemory;
use std::alloc::Global;
use std::collections::VecDeque;
use std::marker::Model;

/// Links in memory that never fail, and a net that never fails: all counts of faults are always 0.
/// The sinks keep no bytes. It looks at no address.
#[derive(Drop)]
pub struct SureNet {
    alloc: Global,
    coming: VecDeque<SureSource>,
    given: ArrayVec<Option<SureLink>, LINKS_ROOM>,
}

impl Model for SureNet {
    ghost Value = { SureLinks };

    ghost view = { λ n. record { coming = n.coming.items; given = n.given.items } };
}

impl SureNet {
    /// No links.
    pub fn new(alloc: Global) -> Self
        ensures { result ≡ record { coming = []; given = [] } }
    {
        SureNet {
            alloc,
            coming: VecDeque::new(alloc),
            given: ArrayVec::new(),
        }
    }

    /// One link more that is to come, after the others, by the bytes of its source. It fails only
    /// where it is out of memory, and then nothing changes.
    pub fn add(&mut self, bytes: Vec<u8>) -> Result<(), NoMemory>
        ensures ok { OnOk result (self.new.coming ≡ self.old.coming ++ bytes.items ∷ []) }
        ensures err { OnErr result (self.new.coming ≡ self.old.coming) }
        ensures given { self.new.given ≡ self.old.given }
    {
        self.coming.push_back(SureSource::new(bytes))?;
        Ok(())
    }

    /// The source of the next link to come, or one without bytes.
    fn next(&mut self) -> SureSource
        requires { length self.old.given < MAX_LINKS }
        ensures source { result ≡ next_bytes self.old.coming }
        ensures coming { self.new.coming ≡ drop 1 self.old.coming }
        ensures given { self.new.given ≡ self.old.given ++ None ∷ [] }
    {
        self.given.push(None);
        match self.coming.pop_front() {
            Some(source) => source,
            None => SureSource::new(Vec::new(self.alloc)),
        }
    }
}

impl Net for SureNet {
    type In = SureSource;

    type Out = SureSink;

    ghost state = { λ n. record { coming = Some n.coming; given = n.given; faults = 0 } };

    fn faults(&self) -> u64 {
        0
    }

    fn links(&self) -> u32 {
        self.given.len() as u32
    }

    fn listen(&mut self, _at: &str) -> Result<(), Failed> {
        Ok(())
    }

    fn accept(&mut self) -> Result<(SureSource, SureSink), Failed> {
        Ok((self.next(), SureSink))
    }

    fn dial(&mut self, _at: &str) -> Result<(SureSource, SureSink), Failed> {
        Ok((self.next(), SureSink))
    }

    fn take_back(&mut self, i: u32, input: SureSource, _output: SureSink) {
        self.given.as_mut_slice()[i as usize] = Some(SureLink { input });
    }

    fn link_faults(&self, i: u32) -> u64 {
        match self.given.as_slice().get(i as usize) {
            Some(Some(link)) => link.faults(),
            _ => 0,
        }
    }
}
