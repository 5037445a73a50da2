ghost use Rattle.std.specs.Prelude.{◌≡◌, ◌+◌, ◌<◌, ◌≤◌, length, IfOk};
ghost use Rattle.game_model.specs.Grid.{IsOn};
ghost use Rattle.shroud.specs.Grids.{flag_of};
ghost use Rattle.shroud.specs.ShroudState.{shrouded, updated};

use crate::lends_actors::LendsActors;
use crate::tally::Tally;
use base::NoMemory;
use game_model::{MAX_ACTORS, World};
use rule_traits::Rules;
use std::alloc::Global;
use std::marker::Model;
use std::rc::Rc;
use world_units::CPos;

/// What each client of a match sees and has explored, over the rules and the map of the match.
pub struct Shroud {
    tally: Tally,
    touched: u64,
}

// By hand, so that what drops one needs no proof of how its parts are dropped.
impl Drop for Shroud {
    fn drop(self) {
        let Self {
            tally: _,
            touched: _,
        } = self;
    }
}

impl Model for Shroud {
    ghost use Rattle.std.specs.Prelude.{◌≡◌, []};
    ghost use Rattle.shroud.specs.ShroudState.{ShroudState};
    ghost use Rattle.shroud.specs.Tally.{shroud_of};

    ghost Value = { ShroudState };

    ghost view = { λ s. shroud_of s.tally s.touched };

    ghost invariant = { λ s. s.tally.lists.fresh ≡ [] };
}

impl Shroud {
    /// Nothing is seen, nothing explored, and no actor counted: of a map `w` cells wide and `h`
    /// cells high, in a match of so many clients over these rules. All memory that updates want is
    /// taken here; out of memory is the only error.
    pub fn create(
        alloc: Global,
        rules: Rc<Rules>,
        w: u8,
        h: u8,
        clients: u8,
    ) -> Result<Shroud, NoMemory>
        ensures { IfOk result (λ shroud. shroud ≡ shrouded rules.value w h clients) }
    {
        Ok(Shroud {
            tally: Tally::create(alloc, rules, w, h, clients)?,
            touched: 0,
        })
    }

    /// Follows the match to this world, which has at most [`MAX_ACTORS`] actors: then each client
    /// sees what its living actors see, and has explored this and what it had explored before.
    /// Cells outside the map and owners that are no clients count for nobody. It takes no memory.
    /// An actor that is unchanged since the last update is not counted anew, where both worlds
    /// have their actors by rising id.
    pub fn update(&mut self, world: &World)
        requires { length world.now.actors ≤ MAX_ACTORS }
        ensures follows { self.new ≡ updated self.old world.now.actors self.new.touched }
        ensures least { self.old.touched ≤ self.new.touched }
        ensures most { self.new.touched ≤ self.old.touched + length world.now.actors }
    {
        self.update_from(world);
    }

    /// The same by the actors that a game, or whatever else lends them, has now. Nothing is copied.
    pub fn update_from<A: LendsActors>(&mut self, actors: &A)
        requires { length (A.actors_of actors.now) ≤ MAX_ACTORS }
        ensures follows { self.new ≡ updated self.old (A.actors_of actors.now) self.new.touched }
        ensures least { self.old.touched ≤ self.new.touched }
        ensures most { self.new.touched ≤ self.old.touched + length (A.actors_of actors.now) }
    {
        let anew = self.tally.follow_all(actors);
        self.touched = self.touched.saturating_add(anew as u64);
    }

    /// Whether a client sees a cell of the map now.
    #[tactic(auto, using(crate::proofs::GridsLemmas::flag_is))]
    pub fn seen(&self, c: u8, p: CPos) -> bool
        requires client { c < self.now.clients }
        requires cell { IsOn self.now.width self.now.height p }
        ensures { result ≡ flag_of self.now.seen c p }
    {
        let _touched = self.touched;
        self.tally.spot(c, p).count > 0
    }

    /// Whether a client ever saw a cell of the map: in one of the updates so far.
    #[tactic(auto, using(crate::proofs::GridsLemmas::flag_is))]
    pub fn explored(&self, c: u8, p: CPos) -> bool
        requires client { c < self.now.clients }
        requires cell { IsOn self.now.width self.now.height p }
        ensures { result ≡ flag_of self.now.explored c p }
    {
        let _touched = self.touched;
        self.tally.spot(c, p).explored
    }

    /// The number of columns of the map.
    pub fn width(&self) -> u8
        ensures { result ≡ self.now.width }
    {
        let _touched = self.touched;
        self.tally.width()
    }

    /// The number of rows of the map.
    pub fn height(&self) -> u8
        ensures { result ≡ self.now.height }
    {
        let _touched = self.touched;
        self.tally.height()
    }

    /// The number of clients.
    pub fn clients(&self) -> u8
        ensures { result ≡ self.now.clients }
    {
        let _touched = self.touched;
        self.tally.clients()
    }

    /// How many actors were counted anew so far, in all updates. It stays at the greatest `u64`.
    pub fn touched(&self) -> u64
        ensures { result ≡ self.now.touched }
    {
        let _tally = &self.tally;
        self.touched
    }
}
