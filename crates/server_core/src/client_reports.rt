ghost use Rattle.std.specs.Prelude.{◌≡◌, ◌<◌, [], OnOk, OnErr};
ghost use Rattle.server_core.specs.Board.{report_at, with_report};
ghost use Rattle.server_core.specs.Alarm.{alarm_here, alarm_of};

use crate::alarm::Alarm;
use base::NoMemory;
use game_orders::MAX_FRAMES;
use std::alloc::Global;
use std::marker::Model;

/// The hashes that one client reported, by frame. A report takes constant time on the average, also
/// where frames come in any order: each place of the list is made once.
#[derive(Drop)]
pub(crate) struct ClientReports {
    held: Vec<Option<u64>>,
}

impl Model for ClientReports {
    ghost use Rattle.std.specs.Prelude.{List, Option, ℕ, ◌≤◌, length};
    ghost use Rattle.game_orders.specs.declared.limits.TheConstants.{MAX_FRAMES};

    ghost Value = { List (Option ℕ) };

    ghost view = { λ reports. reports.held.items };

    ghost invariant = { λ reports. length reports.held.items ≤ MAX_FRAMES };
}

impl ClientReports {
    /// No reports.
    pub(crate) fn new(alloc: Global) -> ClientReports
        ensures { result ≡ [] }
    {
        ClientReports {
            held: Vec::new(alloc),
        }
    }

    /// The hash that is kept for frame `n`.
    pub(crate) fn at(&self, n: u32) -> Option<u64>
        ensures { result ≡ report_at self.now n }
    {
        self.held.as_slice().get(n as usize).copied().flatten()
    }

    /// Keeps a hash for frame `n`.
    pub(crate) fn keep(&mut self, n: u32, h: u64) -> Result<(), NoMemory>
        requires { n < MAX_FRAMES }
        ensures kept { OnOk result (self.new ≡ with_report self.old n h) }
        ensures err { OnErr result (self.new ≡ self.old) }
    {
        let room = n as usize + 1;
        if self.held.len() < room {
            self.held.resize(room, None)?;
        }
        self.held[n as usize] = Some(h);
        Ok(())
    }

    /// The least frame at which the kept hash differs from the wanted one, with both.
    pub(crate) fn alarm(&self, wanted: &[u64]) -> Option<Alarm>
        ensures { result ≡ alarm_of self.now wanted.now }
    {
        let count = self.held.len().min(wanted.len());
        for n in 0..count {
            let found = alarm_at(n as u32, self.held[n], wanted[n]);
            if found.is_some() {
                return found;
            }
        }
        None
    }
}

/// The alarm at one frame, if a hash is kept there that differs from the wanted one.
fn alarm_at(frame: u32, got: Option<u64>, want: u64) -> Option<Alarm>
    ensures { result ≡ alarm_here frame got want None }
{
    let got = got?;
    if got == want {
        return None;
    }
    Some(Alarm { frame, got, want })
}
