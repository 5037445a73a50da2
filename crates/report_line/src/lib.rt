//! The queue by which reports go from the threads of links to the thread that ticks.
//!
//! [`report_queue`] makes a queue with so many ends and one [`ReportReceiver`]. Each thread of a
//! link owns an end, [`Reports`], and pushes to it; the ticking thread owns the receiver, which
//! pops. Once the other threads have ended, their ends are joined to the receiver. If all of them
//! were joined, and the queue is then found empty, what was heard is what the ends pushed: nothing
//! is lost, doubled or made up, and the reports of each end come in their order
//! (`specs/Reports.antt`). The crate stands on `crossbeam_queue`.
#![tactic(auto)]

mod heard;
mod known;
mod law;
mod line;
mod queue_rule;
mod report_ends;
mod report_receiver;
mod reporting;
mod reports;

pub use heard::Heard;
pub use law::reports_of_each_client_are_heard;
pub use report_ends::ReportEnds;
pub use report_receiver::ReportReceiver;
pub use reporting::report_queue;
pub use reports::Reports;
