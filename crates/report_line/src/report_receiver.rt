ghost use Rattle.std.specs.Prelude.{◌≡◌, true};
ghost use Rattle.std.specs.Arc.{arc_value};
ghost use Rattle.crossbeam_queue.specs.SegTies.{IsSegPassOf};

use crate::heard::Heard;
use crate::known::Known;
use crate::line::Line;
use crossbeam_queue::SegPass;
use std::sync::Arc;

/// The one that hears what the ends of its queue push. Contracts see it as the list of what it
/// heard, with the lists that the ends pushed that were joined to it (`specs/Reports.antt`).
#[derive(Drop)]
pub struct ReportReceiver {
    pub(crate) line: Arc<Line>,
    pub(crate) pass: SegPass<Heard, Known>,
    ghost of_line: { IsSegPassOf (arc_value line).queue pass },
    ghost hears: { pass.me.view.client.hears ≡ true },
}
