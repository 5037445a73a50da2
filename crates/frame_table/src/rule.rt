//! The rule of the shared columns, and the kinds of step under it.
use crate::plan::Plan;
use crate::view::View;
use atomic_table::{Join, Play, Split, TableRule};
use frame_core::Columns;

/// What holds of the words, the slots and all passes between any two steps.
pub struct Rule;

impl TableRule<Option<Columns>, View, Plan> for Rule {
    ghost use Rattle.frame_table.specs.Rule.{IsKept};
    ghost use Rattle.frame_table.specs.Passes.{first_view};

    ghost holds = { IsKept };

    ghost first = { first_view };
}

/// A load of a column's word.
pub struct Loading;

impl Play<Option<Columns>, View> for Loading {
    ghost use Rattle.frame_table.specs.Steps.{Loads};

    ghost then = { Loads };
}

/// A try to take a column's lock.
pub struct Taking;

impl Play<Option<Columns>, View> for Taking {
    ghost use Rattle.frame_table.specs.Steps.{Takes};

    ghost then = { Takes };
}

/// A column's new word, with which its lock is given back.
pub struct Publishing;

impl Play<Option<Columns>, View> for Publishing {
    ghost use Rattle.frame_table.specs.Steps.{Publishes};

    ghost then = { Publishes };
}

/// A column's lock is given back, and nothing was done.
pub struct GivingBack;

impl Play<Option<Columns>, View> for GivingBack {
    ghost use Rattle.frame_table.specs.Steps.{GivesBack};

    ghost then = { GivesBack };
}

/// Two passes that were joined are compared.
pub struct Meeting;

impl Play<Option<Columns>, View> for Meeting {
    ghost use Rattle.frame_table.specs.Steps.{Meets};

    ghost then = { Meets };
}

/// A pass is cut in two, or two are made one.
pub struct Halves;

impl Split<View> for Halves {
    ghost use Rattle.frame_table.specs.Passes.{kept_view, given_view};

    ghost left = { kept_view };

    ghost right = { given_view };
}

impl Join<View> for Halves {
    ghost use Rattle.frame_table.specs.Passes.{joined_view, spent_view};

    ghost both = { joined_view };

    ghost spent = { spent_view };
}
