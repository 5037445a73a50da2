ghost use Rattle.std.specs.Prelude.{◌≡◌, length};

use crate::planned::Planned;
use base::List;
use std::marker::Model;

/// What is planned for each client's column, by rising number.
#[derive(Drop)]
pub struct Plan {
    each: List<Planned>,
}

impl Model for Plan {
    ghost use Rattle.std.specs.Prelude.{List as Elements};
    ghost use Rattle.frame_table.specs.declared.planned.Planned.{Planned};

    ghost Value = { Elements Planned };

    ghost view = { λ plan. plan.each };
}

impl Plan {
    /// The plan of these columns.
    pub fn new(each: List<Planned>) -> Plan
        ensures { result ≡ each }
    {
        Plan { each }
    }
}
