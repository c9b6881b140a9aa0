//! The countdown of a bay, which cuts an action off where its line has `kill`.
ghost use Rattle.std.specs.Prelude.{◌≡◌, ◌≢◌, ◌≤◌, ℕ, None, Err, IfErr, IfOk};
ghost use Rattle.disk_model.specs.Devices.{AreImages, DevicesTell, RoseAt};
ghost use Rattle.disk_model.specs.Held.{Held};
ghost use Rattle.rollforward.specs.Newest.{HasFailedOn};
ghost use Rattle.rollforward.specs.Rolls.{IsRollDevice};
ghost use Rattle.tmf_model.specs.Config.{IsDeclared, IsValidConfig};
ghost use Rattle.volume_recovery.specs.VolumeAnswers.{RecoversWithVolumes};
ghost use Rattle.volume_recovery.specs.VolumeLoop.{IsUsed};
ghost use Rattle.tmf_cli.specs.BetweenActions.{LeavesBay};
ghost use Rattle.tmf_cli.specs.Countdown.{IsOff, IsOn, Switches};
ghost use Rattle.tmf_cli.specs.Rolling.{RollsBay};

use disk_model::{Bay, Disk};
use rollforward::{RollError, roll_forward};
use std::alloc::Global;
use tmf_model::Config;
use volume_recovery::volumes::recover;
use volume_recovery::{RecoverError, Recovered};

/// Switches the countdown on, where an action is to be cut off behind so many calls.
pub fn arm<D: Disk>(bay: &mut Bay<D>, kill: Option<u64>)
    ensures switches { Switches bay.old bay.new }
    ensures armed { kill ≢ None → IsOn bay.new }
    ensures whole { kill ≡ None → bay.new ≡ bay.old }
{
    if let Some(calls) = kill {
        bay.arm(calls);
    }
}

/// Recovers the devices. Where `kill` names a number of calls, so many go to the devices, and each later one of the recovery is cut.
pub fn recover_within<D: Disk>(
    alloc: Global,
    bay: &mut Bay<D>,
    config: &Config,
    kill: Option<u64>,
) -> Result<Recovered, RecoverError>
    requires valid { IsValidConfig config.now }
    requires off { IsOff bay.old }
    ensures recovered { DevicesTell D.tells bay.old → (images : ℕ → Held) × AreImages D.held bay.old images × RecoversWithVolumes D.held config.now images result bay.new }
    ensures begun { IfOk result (λ recovered. 1 ≤ recovered.epoch) }
    ensures keeps { LeavesBay D.Disk config.now (kill ≡ None) bay.old bay.new }
    ensures cause { (number : ℕ) → result ≡ Err (RecoverError.Failed number) → IsUsed config.now number × RoseAt D.faults bay.old bay.new number }
{
    arm(bay, kill);
    let recovered = recover(alloc, bay, config);
    bay.disarm();
    recovered
}

/// Rolls a volume forward. Where `kill` names a number of calls, so many go to the devices, and each later one of the rollforward is cut.
pub fn roll_within<D: Disk>(
    alloc: Global,
    bay: &mut Bay<D>,
    config: &Config,
    volume: u8,
    kill: Option<u64>,
) -> Result<u64, RollError>
    requires valid { IsValidConfig config.now }
    requires declared { IsDeclared config.now.volumes volume }
    requires off { IsOff bay.old }
    ensures rolled { DevicesTell D.tells bay.old → RollsBay D.held config.now volume result bay.old bay.new }
    ensures keeps { LeavesBay D.Disk config.now (kill ≡ None) bay.old bay.new }
    ensures cause { IfErr result (HasFailedOn D.faults (IsRollDevice config.now volume) bay.old bay.new) }
{
    arm(bay, kill);
    let rolled = roll_forward(alloc, bay, config, volume);
    bay.disarm();
    rolled
}
