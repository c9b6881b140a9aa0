//! What the name of a node's run carries.
use chronicle::Run;
use node_machine::Part;
use std::marker::Brand;

/// A run's name, with what is the same in all of the run's states.
pub trait NodeRun: Run<Part> {
    ghost use Rattle.std.specs.Prelude.{ℕ};
    ghost use Rattle.trail_files.specs.declared.rules.Rules.{Rules};
    ghost use Rattle.node_machine.specs.Opening.{Found};

    /// What the run has found of its devices.
    ghost found: { Found };

    /// What the records of the trail with this number keep to.
    ghost rules: { ℕ → Rules };

    /// How often calls of the device with this number had failed when the run began.
    ghost faults: { ℕ → ℕ };

    /// What has to be so of the device with this number for anything to be said of its content.
    ghost premise: { ℕ → Type 0 };

    /// The name of the ledger in which each act of the run is paid for with one token.
    ghost acts: { ℕ };
}

/// A run's name, with the run's devices.
pub trait DeviceRun<D>: NodeRun {
    ghost use Rattle.std.specs.Prelude.{ℕ, Option};

    /// The device with this number, as it was handed in: 0 is the monitor trail's, 1 to 4 are those of the other trails, 4 + n is that of volume
    /// n, and 12 + n that of its dumps.
    ghost devices: { ℕ → Option D };
}

impl NodeRun for Brand {
    ghost use Rattle.std.specs.Prelude.{[]};
    ghost use Rattle.audit_writer.specs.Names.{nothing_found};

    ghost found = { nothing_found };

    ghost rules = { λ _. record { roll = 0; trail = 0; discs = []; files = [] } };

    ghost faults = { λ _. 0 };

    ghost premise = { λ _. Unit {0} };

    ghost acts = { 0 };
}

impl<D> DeviceRun<D> for Brand {
    ghost use Rattle.std.specs.Prelude.{None};

    ghost devices = { λ _. None };
}
