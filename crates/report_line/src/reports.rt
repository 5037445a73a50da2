ghost use Rattle.std.specs.Prelude.{◌≡◌, true};
ghost use Rattle.std.specs.Arc.{arc_value};
ghost use Rattle.crossbeam_queue.specs.SegTies.{IsSegPassOf};

use crate::heard::Heard;
use crate::known::Known;
use crate::line::Line;
use crossbeam_queue::SegPass;
use std::sync::Arc;

/// One thread's end of the queue of reports. Contracts see it as the list of what it pushed, with
/// its number among the ends of its queue (`specs/Reports.antt`).
#[derive(Drop)]
pub struct Reports {
    pub(crate) line: Arc<Line>,
    pub(crate) pass: SegPass<Heard, Known>,
    ghost of_line: { IsSegPassOf (arc_value line).queue pass },
    ghost pushes: { pass.me.view.client.pushes ≡ true },
}
