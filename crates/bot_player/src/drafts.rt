ghost use Rattle.std.specs.Prelude.{◌≡◌, ◌<◌, ◌≤◌, ◌↔◌, [], ◌++◌, length, map, option_to_list};
ghost use Rattle.std.specs.Prelude.{IsTrue};
ghost use Rattle.std.specs.List.{list_any};
ghost use Rattle.bot_player.specs.Drafts.{is_attack, ordered, seeing};

use crate::draft::Draft;
use crate::survey::Enemy;
use arrayvec::ArrayVec;
use game_orders::{MAX_ORDERS, Orders};
use std::marker::Model;

/// The room for drafts.
const DRAFTS: usize = MAX_ORDERS as usize;

/// The drafts of a bot's orders for one frame: at most [`MAX_ORDERS`], held in place.
#[derive(Drop)]
pub(crate) struct Drafts {
    held: ArrayVec<Draft, DRAFTS>,
}

impl Model for Drafts {
    ghost use Rattle.std.specs.Prelude.{List, ◌≤◌, length};
    ghost use Rattle.game_orders.specs.declared.limits.TheConstants.{MAX_ORDERS};
    ghost use Rattle.bot_player.specs.declared.draft.Draft.{Draft};

    ghost Value = { List Draft };

    ghost view = { λ d. d.held.items };

    ghost invariant = { λ d. length d.held.items ≤ MAX_ORDERS };
}

/// Shows an enemy to all these drafts.
fn show_each(drafts: &mut [Draft], enemy: Enemy)
    ensures { drafts.new ≡ map (seeing enemy) drafts.old }
{
    for i in 0..drafts.len() {
        drafts[i] = drafts[i].seeing(enemy);
    }
}

impl Drafts {
    /// None.
    pub(crate) fn empty() -> Drafts
        ensures { result ≡ [] }
    {
        Drafts {
            held: ArrayVec::new(),
        }
    }

    /// Whether there are [`MAX_ORDERS`].
    pub(crate) fn is_full(&self) -> bool
        ensures { IsTrue result ↔ (MAX_ORDERS ≤ length self.now) }
    {
        let _held = &self.held;
        self.held.len() >= DRAFTS
    }

    /// Adds a draft last, if there is one. There is room for it.
    pub(crate) fn add(&mut self, draft: Option<Draft>)
        requires { length self.old < MAX_ORDERS }
        ensures added { self.new ≡ self.old ++ option_to_list draft }
        ensures limit { length self.new ≤ MAX_ORDERS }
    {
        if let Some(draft) = draft {
            self.held.push(draft);
        }
    }

    /// Whether one of them is to attack.
    pub(crate) fn have_attack(&self) -> bool
        ensures { result ≡ list_any is_attack self.now }
    {
        self.held.as_slice().iter().any(|draft| draft.is_attack())
    }

    /// Shows an enemy to all drafts: each attack is on the nearest that was shown.
    pub(crate) fn show(&mut self, enemy: Enemy)
        ensures { self.new ≡ map (seeing enemy) self.old }
    {
        show_each(self.held.as_mut_slice(), enemy);
    }

    /// Their orders.
    pub(crate) fn orders(&self) -> Orders
        ensures { result ≡ map ordered self.now }
    {
        let mut orders = Orders::empty();
        for draft in self.held.as_slice() {
            orders.push(draft.order());
        }
        orders
    }
}
