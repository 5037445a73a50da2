use crate::heard::Heard;
use crate::known::Known;
use crate::queue_rule::HeardInOrder;
use crossbeam_queue::RuledSegQueue;

/// The queue of reports, which the ends and the receiver share.
pub struct Line {
    pub(crate) queue: RuledSegQueue<Heard, Known, HeardInOrder>,
}

impl Drop for Line {
    fn drop(self) {
        let Line { queue } = self;
        queue.destroy();
    }
}
