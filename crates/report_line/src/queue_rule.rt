//! The rule of the queue, and the kinds of step under it.
use crate::heard::Heard;
use crate::known::Known;
use crossbeam_queue::protocol::{Join, Lesson, Outcome, Protocol, Split};

/// What each end pushed is what was popped of it, and then what the queue holds of it.
pub struct HeardInOrder;

impl Protocol<Heard, Known> for HeardInOrder {
    ghost use Rattle.report_line.specs.Rule.{IsReportQueue, new_receiver};

    ghost holds = { IsReportQueue };

    ghost first = { new_receiver };
}

/// An end pushed a report.
pub struct Pushed;

impl Outcome<Heard, Known> for Pushed {
    ghost use Rattle.std.specs.Prelude.{◌≡◌};
    ghost use Rattle.report_line.specs.Rule.{after_push};

    ghost then = { λ old report new. new ≡ after_push old report };
}

/// The receiver popped a report, or the queue was empty.
pub struct Popped;

impl Outcome<Heard, Known> for Popped {
    ghost use Rattle.std.specs.Prelude.{◌≡◌};
    ghost use Rattle.report_line.specs.Rule.{after_pop};

    ghost then = { λ old report new. new ≡ after_pop old report };
}

impl Lesson<Heard, Known> for Popped {
    ghost use Rattle.report_line.specs.Rule.{HasHeardAll};

    ghost fact = { HasHeardAll };
}

/// One more end is made, or an end is joined to the receiver.
pub struct Ends;

impl Split<Known> for Ends {
    ghost use Rattle.report_line.specs.Rule.{with_end, new_end};

    ghost left = { with_end };

    ghost right = { new_end };
}

impl Join<Known> for Ends {
    ghost use Rattle.report_line.specs.Rule.{after_join, spent};

    ghost both = { after_join };

    ghost spent = { spent };
}
