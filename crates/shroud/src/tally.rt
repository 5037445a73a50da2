ghost use Rattle.std.specs.Prelude.{◌≡◌, ◌*◌, ◌<◌, ◌≤◌, [], ◌∷◌, ◌++◌};
ghost use Rattle.std.specs.Prelude.{drop, length, replicate, slice_get, Some, IfOk, IfSome, IsTrue};
ghost use Rattle.shroud.specs.Discs.{IsDisc};
ghost use Rattle.game_model.specs.Grid.{IsOn};
ghost use Rattle.shroud.specs.Spots.{dark, place_in, spot_at, AreChanged};
ghost use Rattle.shroud.specs.Tally.{any_views, no_place, views_at, IsFollowed, IsTally};
ghost use Rattle.shroud.specs.Viewers.{disc_seen, viewers_of};

use crate::disc::Disc;
use crate::lends_actors::LendsActors;
use crate::spot::Spot;
use crate::spots::Spots;
use crate::viewer::Viewer;
use crate::viewers::Viewers;
use base::NoMemory;
use game_model::MAX_ACTORS;
use rule_traits::Rules;
use std::alloc::Global;
use std::marker::Model;
use std::rc::Rc;
use world_units::CPos;

/// One more actor sees a cell.
const ONE_MORE: u16 = 1;

/// One actor less sees it. Counts change modulo 2^16.
const ONE_LESS: u16 = 65_535;

/// How many of the kept actors see each cell of each client, and which cells were ever seen.
#[derive(Drop)]
pub(crate) struct Tally {
    rules: Rc<Rules>,
    spots: Spots,
    viewers: Viewers,
}

impl Model for Tally {
    ghost use Rattle.shroud.specs.Tally.{TallyState, IsTally};

    ghost Value = { TallyState };

    ghost view = { λ t. record { rules = t.rules.value; spots = t.spots; lists = t.viewers } };

    ghost invariant = { λ t. IsTally (record {
      rules = t.rules.value;
      spots = t.spots;
      lists = t.viewers;
    }) };
}

/// The disc of the cells that an actor sees for a client. `None` exactly where it sees none: it
/// lives no more, its kind has no `RevealsShroud`, or its owner is none of so many clients.
fn disc_seen(rules: &Rules, clients: u8, v: &Viewer) -> Option<Disc>
    ensures value { result ≡ disc_seen rules.now clients v.now }
    ensures disc { IfSome result IsDisc }
{
    if v.owner >= clients || !v.alive {
        return None;
    }
    let reveals = rules.get(v.kind)?.reveals?;
    Some(Disc::of(v.cell, reveals.range))
}

/// Changes the count of the cells that an actor sees, by so many modulo 2^16, for the client that
/// owns it. An actor of no client sees for nobody.
fn count(rules: &Rules, spots: &mut Spots, v: &Viewer, by: u16)
    ensures changes { AreChanged by
        (λ place. views_at rules.now spots.old.width spots.old.height place v.now)
        spots.old.cells spots.new.cells }
    ensures same { spots.new ≡ (record spots.old { cells = spots.new.cells }) }
{
    let Some(disc) = disc_seen(rules, spots.clients(), v) else {
        return;
    };
    spots.change(v.owner, &disc, by);
}

impl Tally {
    /// Of no actors. All memory that is ever wanted is taken here; out of memory is the only error.
    #[tactic(auto, using(crate::proofs::TallyLemmas::made_tally))]
    pub(crate) fn create(
        alloc: Global,
        rules: Rc<Rules>,
        w: u8,
        h: u8,
        clients: u8,
    ) -> Result<Tally, NoMemory>
        ensures { IfOk result (λ tally. tally ≡ (record {
          rules = rules.value;
          spots = record {
            width = w;
            height = h;
            clients = clients;
            cells = replicate ((clients * h) * w) dark;
          };
          lists = record { left = []; fresh = [] };
        })) }
    {
        Ok(Tally {
            rules,
            spots: Spots::create(alloc, w, h, clients)?,
            viewers: Viewers::create(alloc)?,
        })
    }

    /// The number of columns.
    pub(crate) fn width(&self) -> u8
        ensures { result ≡ self.now.spots.width }
    {
        let _rules = &self.rules;
        self.spots.width()
    }

    /// The number of rows.
    pub(crate) fn height(&self) -> u8
        ensures { result ≡ self.now.spots.height }
    {
        let _rules = &self.rules;
        self.spots.height()
    }

    /// The number of clients.
    pub(crate) fn clients(&self) -> u8
        ensures { result ≡ self.now.spots.clients }
    {
        let _rules = &self.rules;
        self.spots.clients()
    }

    /// What is kept of a client's cell.
    pub(crate) fn spot(&self, client: u8, p: CPos) -> Spot
        requires client { client < self.now.spots.clients }
        requires cell { IsOn self.now.spots.width self.now.spots.height p }
        ensures { result ≡ spot_at self.now.spots.cells
            (place_in self.now.spots.width self.now.spots.height client p) }
    {
        self.spots.get(client, p)
    }

    /// The first of those that are left. `None` exactly where none is.
    fn first(&self) -> Option<Viewer>
        ensures { result ≡ slice_get self.now.lists.left 0 }
    {
        let _spots = &self.spots;
        self.viewers.first()
    }

    /// Whether the first of those that are left is this actor, unchanged.
    fn begins_with(&self, v: &Viewer) -> bool
        ensures { IsTrue result → slice_get self.now.lists.left 0 ≡ Some v.now }
    {
        match self.first() {
            Some(first) => first.is_same(v),
            None => false,
        }
    }

    /// Takes the first of those that are left out: it is counted no more.
    fn take_first_out(&mut self, first: &Viewer)
        requires { slice_get self.old.lists.left 0 ≡ Some first.now }
        ensures lists { self.new.lists
            ≡ (record self.old.lists { left = drop 1 self.old.lists.left }) }
        ensures follows { IsFollowed no_place self.old self.new }
    {
        count(&self.rules, &mut self.spots, first, ONE_LESS);
        self.viewers.pass();
    }

    /// Takes out those that are left up to the first whose id is not below this one.
    fn take_out_below(&mut self, id: u32)
        ensures fresh { self.new.lists.fresh ≡ self.old.lists.fresh }
        ensures follows { IsFollowed no_place self.old self.new }
    {
        while let Some(first) = self.first() {
            if first.id >= id {
                return;
            }
            self.take_first_out(&first);
        }
    }

    /// Counts an actor of this update.
    fn put_in(&mut self, v: &Viewer)
        requires { length self.old.lists.fresh < MAX_ACTORS }
        ensures lists { self.new.lists
            ≡ (record self.old.lists { fresh = self.old.lists.fresh ++ v.now ∷ [] }) }
        ensures follows { IsFollowed (λ place. any_views self.old place (v.now ∷ []))
            self.old self.new }
    {
        count(&self.rules, &mut self.spots, v, ONE_MORE);
        self.viewers.push(*v);
    }

    /// Keeps the first of those that are left, which stays counted, as an actor of this update.
    fn keep_first(&mut self, first: &Viewer)
        requires first { slice_get self.old.lists.left 0 ≡ Some first.now }
        requires room { length self.old.lists.fresh < MAX_ACTORS }
        ensures lists { self.new.lists ≡ (record {
          left = drop 1 self.old.lists.left;
          fresh = self.old.lists.fresh ++ first.now ∷ [];
        }) }
        ensures follows { IsFollowed (λ place. any_views self.old place (first.now ∷ []))
            self.old self.new }
    {
        self.viewers.pass();
        self.viewers.push(*first);
    }

    /// Puts an actor in, or keeps it where it is the first that is left. True where it is counted
    /// anew, and false where it is unchanged.
    fn put_or_keep(&mut self, v: &Viewer) -> bool
        requires { length self.old.lists.fresh < MAX_ACTORS }
        ensures fresh { self.new.lists.fresh ≡ self.old.lists.fresh ++ v.now ∷ [] }
        ensures follows { IsFollowed (λ place. any_views self.old place (v.now ∷ []))
            self.old self.new }
    {
        if self.begins_with(v) {
            self.keep_first(v);
            false
        } else {
            self.put_in(v);
            true
        }
    }

    /// Goes on with an actor of this update. True where it is counted anew, and false where it is
    /// unchanged.
    fn follow(&mut self, v: &Viewer) -> bool
        requires { length self.old.lists.fresh < MAX_ACTORS }
        ensures fresh { self.new.lists.fresh ≡ self.old.lists.fresh ++ v.now ∷ [] }
        ensures follows { IsFollowed (λ place. any_views self.old place (v.now ∷ []))
            self.old self.new }
    {
        self.take_out_below(v.id);
        self.put_or_keep(v)
    }

    /// Takes out all that are left.
    fn take_all_out(&mut self)
        ensures fresh { self.new.lists.fresh ≡ self.old.lists.fresh }
        ensures left { self.new.lists.left ≡ [] }
        ensures follows { IsFollowed no_place self.old self.new }
    {
        while let Some(first) = self.first() {
            self.take_first_out(&first);
        }
    }

    /// Ends an update that left none.
    fn turn(&mut self)
        requires { self.old.lists.left ≡ [] }
        ensures lists { self.new.lists ≡ (record { left = self.old.lists.fresh; fresh = [] }) }
        ensures follows { IsFollowed no_place self.old self.new }
        ensures tally { IsTally self.new }
    {
        self.viewers.turn();
    }

    /// Counts these actors beside those of the last update that are unchanged, and returns how many
    /// of them were counted anew.
    fn follow_each<A: LendsActors>(&mut self, actors: &A) -> usize
        requires between { self.old.lists.fresh ≡ [] }
        requires few { length (A.actors_of actors.now) ≤ MAX_ACTORS }
        ensures fresh { self.new.lists.fresh ≡ viewers_of (A.actors_of actors.now) }
        ensures follows { IsFollowed
            (λ place. any_views self.old place (viewers_of (A.actors_of actors.now)))
            self.old self.new }
        ensures anew { result ≤ length (A.actors_of actors.now) }
    {
        let mut anew = 0;
        for i in 0..actors.actor_count() {
            let Some(actor) = actors.actor_at(i) else {
                unreachable!()
            };
            anew += usize::from(self.follow(&Viewer::of(actor)));
        }
        anew
    }

    /// What holds of every tally. The call does nothing.
    fn known(&self)
        ensures { IsTally self.now }
    {
        let _spots = &self.spots;
    }

    /// Counts these actors in place of those of the last update, and returns how many of them were
    /// counted anew. Of the others nothing has changed.
    pub(crate) fn follow_all<A: LendsActors>(&mut self, actors: &A) -> usize
        requires between { self.old.lists.fresh ≡ [] }
        requires few { length (A.actors_of actors.now) ≤ MAX_ACTORS }
        ensures lists { self.new.lists ≡ (record {
          left = viewers_of (A.actors_of actors.now);
          fresh = [];
        }) }
        ensures follows { IsFollowed
            (λ place. any_views self.old place (viewers_of (A.actors_of actors.now)))
            self.old self.new }
        ensures was { IsTally self.old }
        ensures tally { IsTally self.new }
        ensures anew { result ≤ length (A.actors_of actors.now) }
    {
        self.known();
        let anew = self.follow_each(actors);
        self.take_all_out();
        self.turn();
        anew
    }
}
