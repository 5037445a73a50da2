use crate::report_receiver::ReportReceiver;
use crate::reports::Reports;
use base::List;

/// A queue of reports.
#[derive(Drop)]
pub struct ReportEnds {
    /// Its ends by number: one for each thread that pushes.
    pub ends: List<Reports>,
    /// The one that pops, for the thread that hears.
    pub receiver: ReportReceiver,
}
