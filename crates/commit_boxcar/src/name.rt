//! What the name of a run carries of the monitor trail.
use audit_writer::DeviceRun;
use std::marker::Brand;

/// A run's name, with what the run has found on the monitor trail. The monitor's device is number 0.
pub trait MonitorRun<D>: DeviceRun<D> {
    ghost use Rattle.std.specs.Prelude.{List};
    ghost use Rattle.trail_files.specs.declared.monitor_record.MonitorRecord.{MonitorRecord};

    /// The records of earlier runs, and this run's start.
    ghost before: { List MonitorRecord };
}

impl<D> MonitorRun<D> for Brand {
    ghost use Rattle.std.specs.Prelude.{[]};

    ghost before = { [] };
}
