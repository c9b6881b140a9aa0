//! The newest dump of a lost volume.
ghost use Rattle.std.specs.Prelude.{◌≡◌, ◌≢◌, ◌⊎◌, ◌≤◌, ℕ, true, false, Err, IsTrue, IfOk, IfErr, MatchResult};
ghost use Rattle.disk_model.specs.Devices.{AreHeld, DevicesTell, RoseAt};
ghost use Rattle.disk_model.specs.Frame.{IsLater};
ghost use Rattle.disk_model.specs.Held.{Held, Rose};
ghost use Rattle.tmf_model.specs.Config.{IsDeclared, IsValidConfig, IsWithin};
ghost use Rattle.tmf_model.specs.declared.config.Config.{Config};
ghost use Rattle.keyed_file.specs.LabelFormat.{IsDumpLabel};
ghost use Rattle.volume_recovery.specs.VolumeNode.{dump_device, volume_device};
ghost use Rattle.rollforward.specs.DumpLabels.{IsDumpLabelOf, TellsDumpLabel};
ghost use Rattle.rollforward.specs.Newest.{HasFailed, IsNewestDump, IsPlain, ReadsVolume, TellsNoDump, TellsState};

use crate::dump_label::{DumpFault, read_dump_label};
use crate::errors::RollError;
use block_cache::{AttachFault, Blocks};
use disk_model::{Bay, Disk};
use keyed_file::DumpLabel;
use std::alloc::Global;
use tmf_model::Config;
use trail_files::Damage;

/// The device before that of the first volume.
pub(crate) const BEFORE_VOLUMES: u8 = 4;

/// The device before that of the first volume's dumps.
pub(crate) const BEFORE_DUMPS: u8 = 12;

/// What a volume's device has in its label's place.
#[derive(Clone, Copy, Debug, PartialEq, Eq)]
pub enum LabelState {
    /// No label stands.
    Lost,
    /// The volume's label.
    Spelled,
    /// Bytes that are no label of the volume.
    Damaged(Damage),
}

/// The device that a refused opening hands back, which goes to the one that lent it.
fn handed_back<D, E: Copy>(refused: (D, E)) -> D
    ensures { result ≡ refused.0 }
{
    let (device, _) = refused;
    device
}

/// What a volume's device has in its label's place. It writes nothing.
fn label_state<D: Disk>(
    alloc: Global,
    device: &mut D,
    config: &Config,
    volume: u8,
) -> Result<LabelState, AttachFault>
    requires valid { IsValidConfig config.now × IsDeclared config.now.volumes volume }
    ensures told { IsTrue (D.tells device.old) → IfOk result (TellsState config.now volume (D.held device.old)) }
    ensures err { IfErr result (λ e. ((e ≡ AttachFault.Failed) × Rose (D.faults device.old) (D.faults device.new)) ⊎ (e ≡ AttachFault.NoMemory)) }
    ensures same { D.held device.new ≡ D.held device.old }
    ensures keeps { IsLater D.Disk device.old device.new }
{
    match Blocks::<&mut D>::attach(alloc, device, config, volume, 1) {
        Err(refused) => {
            let fault = refused.1;
            let _device = handed_back(refused);
            match fault {
                AttachFault::Lost => Ok(LabelState::Lost),
                AttachFault::Damaged(damage) => Ok(LabelState::Damaged(damage)),
                AttachFault::Failed => Err(AttachFault::Failed),
                AttachFault::NoMemory => Err(AttachFault::NoMemory),
            }
        }
        Ok(opened) => {
            let _device = opened.into_device();
            Ok(LabelState::Spelled)
        }
    }
}

/// Whether the label is spelled.
fn is_spelled(state: LabelState) -> bool
    ensures yes { result ≡ true → state ≡ LabelState.Spelled }
    ensures no { result ≡ false → state ≢ LabelState.Spelled }
{
    matches!(state, LabelState::Spelled)
}

/// What the volume with this number has in its label's place.
fn label_at<D: Disk>(
    alloc: Global,
    bay: &mut Bay<D>,
    config: &Config,
    volume: u8,
) -> Result<LabelState, RollError>
    requires valid { IsValidConfig config.now × IsDeclared config.now.volumes volume }
    ensures told { (images : ℕ → Held) → DevicesTell D.tells bay.old → AreHeld D.held bay.old images → IfOk result (TellsState config.now volume (images (volume_device volume))) }
    ensures plain { IfErr result IsPlain }
    ensures reads { ReadsVolume D.Disk volume bay.old bay.new }
    ensures cause { IfErr result (HasFailed D.faults volume bay.old bay.new) }
{
    let number = BEFORE_VOLUMES + volume;
    match label_state(alloc, bay.device(number), config, volume) {
        Ok(state) => Ok(state),
        Err(AttachFault::Failed) => Err(RollError::Failed(number)),
        Err(_) => Err(RollError::NoMemory),
    }
}

/// The label of the dump of the volume with this number.
fn dump_label_at<D: Disk>(bay: &mut Bay<D>, volume: u8) -> Result<DumpLabel, DumpFault>
    requires { IsWithin 1 8 volume }
    ensures told { (images : ℕ → Held) → DevicesTell D.tells bay.old → AreHeld D.held bay.old images
        → MatchResult result (IsDumpLabelOf volume (images (dump_device volume))) (TellsDumpLabel volume (images (dump_device volume))) }
    ensures valid { IfOk result IsDumpLabel }
    ensures reads { ReadsVolume D.Disk volume bay.old bay.new }
    ensures cause { IfErr result (λ e. e ≡ DumpFault.Failed → RoseAt D.faults bay.old bay.new (dump_device volume)) }
{
    read_dump_label(bay.device(BEFORE_DUMPS + volume), volume)
}

/// What a volume that has no spelled label, and the label of its dump, come to: the first that keeps a rollforward from its dump.
fn answer(
    volume: u8,
    state: LabelState,
    found: Result<DumpLabel, DumpFault>,
) -> Result<DumpLabel, RollError>
    requires volume { volume ≤ 8 }
    requires unspelled { state ≢ LabelState.Spelled }
    ensures told { (config : Config) (images : ℕ → Held) → TellsState config volume (images (volume_device volume)) state
        → MatchResult found (IsDumpLabelOf volume (images (dump_device volume))) (TellsDumpLabel volume (images (dump_device volume)))
        → MatchResult result (IsNewestDump config volume images) (TellsNoDump config volume images) }
    ensures valid { IfOk found IsDumpLabel → IfOk result IsDumpLabel }
    ensures cause { (number : ℕ) → result ≡ Err (RollError.Failed number) → (number ≡ dump_device volume) × (found ≡ Err DumpFault.Failed) }
{
    match found {
        Err(DumpFault::Missing) => Err(RollError::NoDump),
        Err(DumpFault::Failed) => Err(RollError::Failed(BEFORE_DUMPS + volume)),
        Err(DumpFault::Damaged(own)) => match state {
            LabelState::Damaged(damage) => Err(RollError::Damaged(BEFORE_VOLUMES + volume, damage)),
            _ => Err(RollError::Damaged(BEFORE_DUMPS + volume, own)),
        },
        Ok(label) => match state {
            LabelState::Damaged(damage) => Err(RollError::Damaged(BEFORE_VOLUMES + volume, damage)),
            _ => Ok(label),
        },
    }
}

/// The label of the dump of a volume that is lost: that of the selected slot, which names the newest sealed one. The dump's body is not looked at.
/// Where there is no such label the first reason is told: the volume's label is spelled; no dump label stands; the volume's label is damaged, or
/// that of the dump. It writes nothing.
pub fn newest_dump<D: Disk>(
    alloc: Global,
    bay: &mut Bay<D>,
    config: &Config,
    volume: u8,
) -> Result<DumpLabel, RollError>
    requires valid { IsValidConfig config.now }
    requires declared { IsDeclared config.now.volumes volume }
    ensures told { (images : ℕ → Held) → DevicesTell D.tells bay.old → AreHeld D.held bay.old images
        → MatchResult result (IsNewestDump config.now volume images) (TellsNoDump config.now volume images) }
    ensures valid { IfOk result IsDumpLabel }
    ensures reads { ReadsVolume D.Disk volume bay.old bay.new }
    ensures cause { IfErr result (HasFailed D.faults volume bay.old bay.new) }
{
    let state = label_at(alloc, bay, config, volume)?;
    if is_spelled(state) {
        return Err(RollError::NotLost);
    }
    let found = dump_label_at(bay, volume);
    answer(volume, state, found)
}
