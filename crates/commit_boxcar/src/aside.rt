//! Requests that are set aside while others are written.
ghost use Rattle.std.specs.Prelude.{◌≡◌, ◌≤◌, length, take};

use crate::room::MOST;
use std::marker::Model;
use trail_files::MonitorRecord;

/// At most 64 requests. Contracts see their list.
#[derive(Drop)]
pub(crate) struct Aside {
    requests: [MonitorRecord; 64],
    count: usize,
}

impl Model for Aside {
    ghost use Rattle.std.specs.Prelude.{◌≡◌, ◌≤◌, List, length, take};
    ghost use Rattle.trail_files.specs.declared.monitor_record.MonitorRecord.{MonitorRecord};

    ghost Value = { List MonitorRecord };

    ghost view = { λ a. take a.count a.requests };

    ghost invariant = { λ a. (a.count ≤ 64) × (length a.requests ≡ 64) };
}

impl Aside {
    /// A copy of these.
    pub(crate) fn new(requests: &[MonitorRecord]) -> Aside
        requires { length requests.now ≤ 64 }
        ensures { result ≡ requests.now }
    {
        let count = requests.len();
        let mut kept = [MonitorRecord::Start(0); MOST];
        kept[..count].copy_from_slice(requests);
        Aside {
            requests: kept,
            count,
        }
    }

    /// The requests in their order.
    pub(crate) fn requests(&self) -> &[MonitorRecord]
        ensures { result.now ≡ self.now }
    {
        &self.requests[..self.count]
    }
}
