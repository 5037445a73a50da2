ghost use Rattle.command_answers.specs.ScriptStop.{IsDrillStop};

use crate::stop::Stop;
use drill_words::DrillFault;

/// Refuses a faulty drill or script, whose file has this name.
pub fn drill_stop<'a>(name: &'a str, fault: &DrillFault) -> Stop<'a>
    ensures { IsDrillStop name.now fault.now result }
{
    match fault {
        DrillFault::BadWord { .. }
        | DrillFault::BadNumber { .. }
        | DrillFault::NoSuchClient { .. }
        | DrillFault::TooManyOrders { .. }
        | DrillFault::TooManyEvents { .. } => Stop::Refused {
            name,
            place: u64::from(fault.line()),
            cause: fault.cause(),
        },
        DrillFault::NoMemory => Stop::NoMemory,
    }
}
