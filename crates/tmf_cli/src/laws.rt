//! Laws above the law of the output.
ghost use Rattle.std.specs.Prelude.{ℕ, ◌≡◌};
ghost use Rattle.tmf_cli.specs.Counts.{CountsLaw};
ghost use Rattle.tmf_cli.specs.Faultless.{FaultlessLaw};
ghost use Rattle.tmf_cli.specs.Headline.{CallHeadline};
ghost use Rattle.tmf_cli.specs.OneOutput.{OneOutput};
ghost use Rattle.tmf_lines.specs.Report.{node_device_name};
ghost use Rattle.tmf_model.specs.Config.{IsValidConfig};
ghost use Rattle.volume_recovery.specs.VolumeFormat.{IsNodeDevice};

use disk_model::Disk;
use single_law::one_run_law;
use tmf_model::Config;

/// Where no device fails, and no line tells of a limit or of want of memory, the output of a script whose runs are single, with a valid configuration, is one function of it, apart from the positions that control points,
/// dumps and rollforwards tell: two outputs of one that formats first are otherwise the same, whatever devices there are and whatever they held. A law over two calls, in the words of their
/// clause `told`; the clause `one_output` of `tmf` says it of one call against any other.
pub fn one_output_law<D: Disk>(config: &Config)
    requires valid { IsValidConfig config.now }
    ensures { OneOutput D.held D.faults config.now }
{
    one_run_law();
}

/// The headline of a row of actions that were carried out, from any node on: behind the last format, what stands is what stood with the commits that the lines acknowledge, each at its
/// place, and some or none of those that they leave in doubt, and the map is the fold of the script's transactions over them. The clause `headline` of `tmf` says it of a call, however it ends.
pub fn headline_law<D: Disk>(config: &Config)
    ensures { CallHeadline D.held D.faults config.now }
{}

/// Where it is known what the devices may stand for, or the first action is a format, and no device fails, no line tells of a fault: each action is carried out, or is refused for what the node
/// and its devices are; and each attempt and item of a run ends as it was to, or by another attempt, a limit, or want of memory.
pub fn faultless_law<D: Disk>(config: &Config)
    ensures { FaultlessLaw D.held D.faults config.now }
{}

/// The lines of a row of actions of a valid script, from any node on, tell of no device more often than a call of it has failed. The clause `counts` of `tmf` says it of a call, however it ends.
pub fn counts_law<D: Disk>(config: &Config)
    ensures { CountsLaw D.held D.faults config.now }
{}

/// No two devices of a valid configuration are printed by one name, so a line that prints the name of one of them names no other one.
pub fn names_law(config: &Config)
    requires valid { IsValidConfig config.now }
    ensures { (a b : ℕ) → IsNodeDevice config.now a → IsNodeDevice config.now b → node_device_name config.now a ≡ node_device_name config.now b → a ≡ b }
{}
