//! The recovery of a node from what its devices hold, its volumes among them.
ghost use Rattle.std.specs.Prelude.{◌≡◌, ◌≢◌, ◌+◌, ◌-◌, ◌<◌, ◌≤◌, ◌^◌, ◌++◌, ◌∷◌, [], ℕ, List, length, slice_get, Some, Err, IsTrue, IfOk, IfErr, OnOk, MatchResult};
ghost use Rattle.disk_model.specs.Devices.{AreHeld, AreImages, AreLater, DevicesTell, FuseRestarts, RoseAt, held_at};
ghost use Rattle.disk_model.specs.Held.{Held};
ghost use Rattle.disk_model.specs.declared.fuse.Fuse.{Fuse};
ghost use Rattle.tmf_model.specs.Config.{IsDeclared, IsValidConfig, IsWithin};
ghost use Rattle.tmf_model.specs.declared.config.Volume.{Volume};
ghost use Rattle.trail_files.specs.declared.audit_record.AuditRecord.{AuditRecord};
ghost use Rattle.trail_files.specs.declared.damage.Damage.{Damage};
ghost use Rattle.trail_files.specs.declared.monitor_record.MonitorRecord.{MonitorRecord};
ghost use Rattle.trail_files.specs.AuditRecord.{audit_format};
ghost use Rattle.trail_files.specs.MonitorRecord.{monitor_format};
ghost use Rattle.trail_files.specs.StandsFor.{IsNumber};
ghost use Rattle.trail_files.specs.Holds.{Keeps};
ghost use Rattle.trail_files.specs.Text.{Spells};
ghost use Rattle.trail_files.specs.Trail.{IsWritable};
ghost use Rattle.trail_replay.specs.Reading.{HasCommits};
ghost use Rattle.trail_replay.specs.Rules.{rules_of};
ghost use Rattle.volume_restore.specs.Found.{AreFoundFor, FitsNode};
ghost use Rattle.volume_recovery.specs.MonitorDevice.{HasResting, IsOpenedOn, first_tells, in_bay};
ghost use Rattle.volume_recovery.specs.Node.{AreAtRest, SpellUpTo};
ghost use Rattle.trail_replay.specs.Texts.{IsFirstDamage};
ghost use Rattle.volume_recovery.specs.Recovery.{TellsDamage};
ghost use Rattle.volume_recovery.specs.VolumeAnswers.{IsRefusalWithVolumes, RecoversWithVolumes, SpellTrails};
ghost use Rattle.volume_recovery.specs.VolumePrepared.{IsPrepared};
ghost use Rattle.volume_recovery.specs.VolumeLoop.{AreFound, AreHeldBelow, AreHeldBut, AreLows, AreRecovered, AreRecoveredFrom, AreRecovering, AreSettled, AreSettledFrom, AreTurnedDown, HasFailed, IsInspected, IsPlain, IsUsed, Notes, ReadsBay, TellsFull, TellsTrail, TellsVolumes, WritesBay};

use super::devices::{BEFORE_VOLUMES, inspect_at, low_of, recover_at, take_trail};
use super::laws::{recovered_law, recovering_law};
use crate::errors::RecoverError;
use crate::monitor::read_records;
use crate::monitor_device::MonitorDevice;
use crate::recovery::{Recovered, following_epoch, start_monitor};
use block_cache::{Blocks, resting_law};
use disk_model::{Bay, Disk};
use std::alloc::Global;
use tmf_model::{Config, Sequence};
use trail_files::{AuditRecord, MonitorRecord, Trail, TrailPhase};
use trail_replay::{Commits, MONITOR, commits, handed_back, rules_of_monitor};
use volume_restore::{Inspected, NodeChanges, spelled_volume_law};

/// Puts an item behind the others.
fn push_on<T: Copy>(items: &mut Vec<T>, item: T) -> Result<(), RecoverError>
    ensures ok { OnOk result (items.new.items ≡ items.old.items ++ item ∷ []) }
    ensures err { IfErr result (λ e. e ≡ RecoverError.NoMemory) }
{
    match items.push(item) {
        Ok(()) => Ok(()),
        Err(_) => Err(RecoverError::NoMemory),
    }
}

/// The low position of each volume, by rising number.
fn read_lows<D: Disk>(
    alloc: Global,
    bay: &mut Bay<D>,
    config: &Config,
) -> Result<Vec<u64>, RecoverError>
    requires { IsValidConfig config.now }
    ensures lows { (images : ℕ → Held) → DevicesTell D.tells bay.old → AreHeld D.held bay.old images → IfOk result (λ lows. AreLows config.now images (length config.now.volumes) lows.items) }
    ensures count { IfOk result (λ lows. length lows.items ≡ length config.now.volumes) }
    ensures within { IfOk result (λ lows. (n low : ℕ) → slice_get lows.items n ≡ Some low → IsWithin 1 4611686018427387904 low) }
    ensures plain { IfErr result IsPlain }
    ensures reads { ReadsBay D.Disk config.now bay.old bay.new }
    ensures cause { IfErr result (HasFailed D.faults config.now bay.old bay.new) }
{
    let count = config.volumes.len() as u8;
    let mut lows = Vec::new(alloc);
    let mut volume = 0;
    while volume < count {
        volume += 1;
        let low = low_of(alloc, bay, config, volume)?;
        push_on(&mut lows, low)?;
    }
    Ok(lows)
}

/// Takes in what each trail of the configuration says.
fn take_trails<D: Disk>(
    alloc: Global,
    bay: &mut Bay<D>,
    config: &Config,
    commits: &Commits,
    changes: &mut NodeChanges,
) -> Result<(), RecoverError>
    requires valid { IsValidConfig config.now }
    requires fits { FitsNode config.now changes.old }
    ensures taken { (images : ℕ → Held) (list : List MonitorRecord) (audit : ℕ → List AuditRecord) → DevicesTell D.tells bay.old → AreHeld D.held bay.old images → SpellTrails config.now images list audit
        → HasCommits list commits.now → OnOk result ((volume low : ℕ) (line : Volume) → IsNumber config.now.volumes volume line → AreFoundFor config.now volume low [] list changes.old
        → AreFoundFor config.now volume low (audit line.trail) list changes.new) }
    ensures fits { FitsNode config.now changes.new }
    ensures told { (images : ℕ → Held) → DevicesTell D.tells bay.old → AreHeld D.held bay.old images → OnOk result (SpellUpTo config.now images (length config.now.trails)) }
    ensures refused { (images : ℕ → Held) (list : List MonitorRecord) → DevicesTell D.tells bay.old → AreHeld D.held bay.old images → Spells monitor_format (images 0) list → IfErr result (TellsTrail config.now images) }
    ensures first { (images : ℕ → Held) (device : ℕ) (damage : Damage) → DevicesTell D.tells bay.old → AreHeld D.held bay.old images
        → IsFirstDamage config.now images device damage → 0 < device → MatchResult result (λ _. ⊥) (TellsDamage device damage) }
    ensures reads { ReadsBay D.Disk config.now bay.old bay.new }
    ensures cause { IfErr result (HasFailed D.faults config.now bay.old bay.new) }
{
    let count = config.trails.len() as u8;
    let mut trail = 0;
    while trail < count {
        trail += 1;
        match take_trail(alloc, bay, config, trail, commits, changes) {
            Ok(()) => {}
            Err(fault) => return Err(RecoverError::at(trail, fault)),
        }
    }
    Ok(())
}

/// The transactions that these records commit.
fn committed_by(alloc: Global, records: &[MonitorRecord]) -> Result<Commits, RecoverError>
    ensures ok { IfOk result (HasCommits records.now) }
    ensures err { IfErr result (λ e. e ≡ RecoverError.NoMemory) }
{
    match commits(alloc, records) {
        Ok(committed) => Ok(committed),
        Err(_) => Err(RecoverError::NoMemory),
    }
}

/// Nothing found, with these low positions.
fn nothing_found(alloc: Global, config: &Config, lows: &[u64]) -> Result<NodeChanges, RecoverError>
    requires count { length lows.now ≡ length config.now.volumes }
    requires within { (n low : ℕ) → slice_get lows.now n ≡ Some low → IsWithin 1 4611686018427387904 low }
    ensures fits { IfOk result (FitsNode config.now) }
    ensures none { IfOk result (λ changes. (volume low : ℕ) (list : List MonitorRecord) → 1 ≤ volume → slice_get lows.now (volume - 1) ≡ Some low → AreFoundFor config.now volume low [] list changes) }
    ensures err { IfErr result (λ e. e ≡ RecoverError.NoMemory) }
{
    match NodeChanges::new(alloc, config, lows) {
        Ok(changes) => Ok(changes),
        Err(_) => Err(RecoverError::NoMemory),
    }
}

/// What the trails say of the keys of the node's files, and of the positions of its discs, with the transactions that these records commit.
fn read_changes<D: Disk>(
    alloc: Global,
    bay: &mut Bay<D>,
    config: &Config,
    records: &[MonitorRecord],
) -> Result<NodeChanges, RecoverError>
    requires { IsValidConfig config.now }
    ensures found { (images : ℕ → Held) (audit : ℕ → List AuditRecord) → DevicesTell D.tells bay.old → AreHeld D.held bay.old images → SpellTrails config.now images records.now audit
        → IfOk result (AreFound config.now images audit records.now) }
    ensures fits { IfOk result (FitsNode config.now) }
    ensures told { (images : ℕ → Held) → DevicesTell D.tells bay.old → AreHeld D.held bay.old images → OnOk result (SpellUpTo config.now images (length config.now.trails)) }
    ensures refused { (images : ℕ → Held) → DevicesTell D.tells bay.old → AreHeld D.held bay.old images → Spells monitor_format (images 0) records.now → IfErr result (TellsTrail config.now images) }
    ensures reads { ReadsBay D.Disk config.now bay.old bay.new }
    ensures cause { IfErr result (HasFailed D.faults config.now bay.old bay.new) }
{
    let lows = read_lows(alloc, bay, config)?;
    let committed = committed_by(alloc, records)?;
    let mut changes = nothing_found(alloc, config, &lows)?;
    take_trails(alloc, bay, config, &committed, &mut changes)?;
    Ok(changes)
}

/// Notes a volume that is lost behind the others, and refuses one of which a block would hold too much.
fn note_inspected(lost: &mut Vec<u8>, volume: u8, inspected: Inspected) -> Result<(), RecoverError>
    requires { volume ≤ 8 }
    ensures ok { OnOk result (Notes volume inspected lost.old.items lost.new.items) }
    ensures err { IfErr result (TellsFull volume inspected) }
{
    match inspected {
        Inspected::Lost => push_on(lost, volume),
        Inspected::Ready => Ok(()),
        Inspected::Full(damage) => Err(RecoverError::Damaged(BEFORE_VOLUMES + volume, damage)),
    }
}

/// Inspects each volume but the last, and answers which are lost. The first volume that is wrong is told: one that is damaged, or of which a block
/// would hold too much.
fn inspect_volumes<D: Disk>(
    alloc: Global,
    bay: &mut Bay<D>,
    config: &Config,
    changes: &NodeChanges,
) -> Result<Vec<u8>, RecoverError>
    requires valid { IsValidConfig config.now }
    requires fits { FitsNode config.now changes.now }
    ensures told { (images : ℕ → Held) → DevicesTell D.tells bay.old → AreHeld D.held bay.old images
        → MatchResult result (λ lost. IsInspected config.now images changes.now (length config.now.volumes - 1) lost.items) (TellsVolumes config.now images changes.now) }
    ensures reads { ReadsBay D.Disk config.now bay.old bay.new }
    ensures cause { IfErr result (HasFailed D.faults config.now bay.old bay.new) }
{
    let last = config.volumes.len() as u8;
    let mut lost = Vec::new(alloc);
    let mut volume = 0;
    while volume + 1 < last {
        volume += 1;
        let inspected = inspect_at(alloc, bay, config, volume, changes)?;
        note_inspected(&mut lost, volume, inspected)?;
    }
    Ok(lost)
}

/// Recovers the last volume, which was not inspected, and notes it where it is lost. What is wrong of it is told before anything is written.
fn recover_last<D: Disk>(
    alloc: Global,
    bay: &mut Bay<D>,
    config: &Config,
    last: u8,
    changes: &NodeChanges,
    lost: &mut Vec<u8>,
) -> Result<(), RecoverError>
    requires valid { IsValidConfig config.now × IsDeclared config.now.volumes last × (last ≡ length config.now.volumes) }
    requires fits { FitsNode config.now changes.now }
    ensures every { (images : ℕ → Held) (list : List MonitorRecord) (audit : ℕ → List AuditRecord) → DevicesTell D.tells bay.old → AreHeld D.held bay.old images → AreAtRest images
        → AreFound config.now images audit list changes.now → AreRecovering D.held config.now images list audit bay.new }
    ensures whole { (images : ℕ → Held) (list : List MonitorRecord) (audit : ℕ → List AuditRecord) → DevicesTell D.tells bay.old → AreHeld D.held bay.old images → AreAtRest images
        → AreFound config.now images audit list changes.now → OnOk result (AreRecoveredFrom D.held config.now images list audit last bay.new) }
    ensures settled { (images : ℕ → Held) → DevicesTell D.tells bay.old → AreHeld D.held bay.old images → AreAtRest images
        → OnOk result (AreSettledFrom D.held config.now images last bay.new) }
    ensures held { (images : ℕ → Held) → AreHeld D.held bay.old images → AreHeldBelow D.held config.now last images bay.new }
    ensures told { (images : ℕ → Held) → DevicesTell D.tells bay.old → AreHeld D.held bay.old images → IsInspected config.now images changes.now (last - 1) lost.old.items
        → MatchResult result (λ _. IsInspected config.now images changes.now last lost.new.items) (AreTurnedDown D.held config.now images changes.now bay.new) }
    ensures writes { WritesBay D.Disk config.now bay.old bay.new }
    ensures cause { IfErr result (HasFailed D.faults config.now bay.old bay.new) }
{
    resting_law();
    Blocks::<D>::at_rest();
    let found = recover_at(alloc, bay, config, last, changes, false)?;
    if found { Ok(()) } else { push_on(lost, last) }
}

/// Recovers each volume that is not lost, from the last to the first. All but the last were inspected, and these are lost of them; the last is noted
/// behind them, where it is lost.
fn recover_volumes<D: Disk>(
    alloc: Global,
    bay: &mut Bay<D>,
    config: &Config,
    changes: &NodeChanges,
    lost: &mut Vec<u8>,
) -> Result<(), RecoverError>
    requires valid { IsValidConfig config.now }
    requires fits { FitsNode config.now changes.now }
    ensures every { (images : ℕ → Held) (list : List MonitorRecord) (audit : ℕ → List AuditRecord) → DevicesTell D.tells bay.old → AreHeld D.held bay.old images → AreAtRest images
        → AreFound config.now images audit list changes.now → AreRecovering D.held config.now images list audit bay.new }
    ensures whole { (images : ℕ → Held) (list : List MonitorRecord) (audit : ℕ → List AuditRecord) → DevicesTell D.tells bay.old → AreHeld D.held bay.old images → AreAtRest images
        → AreFound config.now images audit list changes.now → OnOk result (AreRecovered D.held config.now images list audit (length config.now.volumes) bay.new) }
    ensures settled { (images : ℕ → Held) → DevicesTell D.tells bay.old → AreHeld D.held bay.old images → AreAtRest images
        → OnOk result (AreSettled D.held config.now images (length config.now.volumes) bay.new) }
    ensures held { (images : ℕ → Held) → AreHeld D.held bay.old images → AreHeldBut D.held (length config.now.volumes) images bay.new }
    ensures told { (images : ℕ → Held) (list : List MonitorRecord) (audit : ℕ → List AuditRecord) → DevicesTell D.tells bay.old → AreHeld D.held bay.old images → AreAtRest images
        → AreFound config.now images audit list changes.now → IsInspected config.now images changes.now (length config.now.volumes - 1) lost.old.items
        → MatchResult result (λ _. IsInspected config.now images changes.now (length config.now.volumes) lost.new.items) (AreTurnedDown D.held config.now images changes.now bay.new) }
    ensures writes { WritesBay D.Disk config.now bay.old bay.new }
    ensures cause { IfErr result (HasFailed D.faults config.now bay.old bay.new) }
{
    resting_law();
    spelled_volume_law();
    Blocks::<D>::at_rest();
    let last = config.volumes.len() as u8;
    if last == 0 {
        return Ok(());
    }
    recover_last(alloc, bay, config, last, changes, lost)?;
    let mut volume = last;
    while volume > 1 {
        volume -= 1;
        recover_at(alloc, bay, config, volume, changes, true)?;
    }
    Ok(())
}

/// What a recovery has read before it writes.
#[derive(Drop)]
struct Prepared {
    /// The records of the monitor trail.
    records: Vec<MonitorRecord>,
    /// What the trails say of the volumes.
    changes: NodeChanges,
    /// Of the volumes but the last the numbers of those that are lost, in rising order.
    lost: Vec<u8>,
    /// The epoch that begins.
    epoch: u32,
}

/// Reads each trail behind the monitor trail, whose records are these, and each volume but the last, and writes nothing.
fn read_node<D: Disk>(
    alloc: Global,
    bay: &mut Bay<D>,
    config: &Config,
    records: Vec<MonitorRecord>,
) -> Result<Prepared, RecoverError>
    requires { IsValidConfig config.now }
    ensures told { (images : ℕ → Held) → DevicesTell D.tells bay.old → AreHeld D.held bay.old images → AreAtRest images → Spells monitor_format (images 0) records.items
        → MatchResult result (IsPrepared config.now images) (IsRefusalWithVolumes config.now images) }
    ensures fits { IfOk result (λ prepared. FitsNode config.now prepared.changes) }
    ensures begun { IfOk result (λ prepared. 1 ≤ prepared.epoch) }
    ensures reads { ReadsBay D.Disk config.now bay.old bay.new }
    ensures cause { IfErr result (HasFailed D.faults config.now bay.old bay.new) }
{
    let changes = read_changes(alloc, bay, config, &records)?;
    let epoch = following_epoch(&records)?;
    let lost = inspect_volumes(alloc, bay, config, &changes)?;
    Ok(Prepared {
        records,
        changes,
        lost,
        epoch,
    })
}

/// The records of the monitor trail, which is open.
fn read_monitor<D: Disk>(
    alloc: Global,
    monitor: &mut Trail<MonitorDevice<'_, D>, MonitorRecord>,
) -> Result<Vec<MonitorRecord>, RecoverError>
    ensures told { (image : Held) (is : IsOpenedOn D.Disk image monitor.old) → IsTrue (first_tells D.tells monitor.old.device.bay.now) → MatchResult result (λ records. records.items ≡ is.list) IsPlain }
    ensures holds { (list : List MonitorRecord) → HasResting D.Disk monitor.old list → HasResting D.Disk monitor.new list }
    ensures keeps { Keeps (in_bay D.Disk) monitor.old monitor.new }
    ensures same { held_at D.held monitor.new.device.bay.now 0 ≡ held_at D.held monitor.old.device.bay.now 0 }
    ensures phase { monitor.new.phase ≡ monitor.old.phase }
    ensures cause { (number : ℕ) → result ≡ Err (RecoverError.Failed number) → (number ≡ 0) × RoseAt D.faults monitor.old.device.bay.now monitor.new.device.bay.now number }
{
    match read_records(alloc, monitor) {
        Ok(records) => Ok(records),
        Err(fault) => Err(RecoverError::at(MONITOR, fault)),
    }
}

/// Recovers a node whose devices are images that a crash has left, over its monitor trail, which is open.
fn recover_opened<D: Disk>(
    alloc: Global,
    monitor: &mut Trail<MonitorDevice<'_, D>, MonitorRecord>,
    config: &Config,
) -> Result<Recovered, RecoverError>
    requires valid { IsValidConfig config.now }
    requires ready { monitor.old.phase ≡ TrailPhase.Ready }
    requires writable { IsWritable (in_bay D.Disk).tells (in_bay D.Disk).held monitor.old }
    ensures recovered { (images : ℕ → Held) → DevicesTell D.tells monitor.old.device.bay.now → AreHeld D.held monitor.old.device.bay.now images → AreAtRest images
        → length monitor.old.device.bay.now ≡ 21 → IsOpenedOn D.Disk (images 0) monitor.old → RecoversWithVolumes D.held config.now images result monitor.new.device.bay.now }
    ensures begun { IfOk result (λ recovered. 1 ≤ recovered.epoch) }
    ensures writes { WritesBay D.Disk config.now monitor.old.device.bay.now monitor.new.device.bay.now }
    ensures cause { IfErr result (HasFailed D.faults config.now monitor.old.device.bay.now monitor.new.device.bay.now) }
    ensures same_bay { monitor.new.device.bay.ghost_name ≡ monitor.old.device.bay.ghost_name }
{
    recovering_law();
    recovered_law();
    resting_law();
    spelled_volume_law();
    Blocks::<D>::at_rest();
    Trail::<D, AuditRecord>::every_image();
    Trail::<D, MonitorRecord>::every_image();
    Trail::<D, AuditRecord>::one_spelling();
    Trail::<D, MonitorRecord>::one_spelling();
    let records = read_monitor(alloc, monitor)?;
    let mut prepared = read_node(alloc, &mut *monitor.device().bay, config, records)?;
    recover_volumes(
        alloc,
        &mut *monitor.device().bay,
        config,
        &prepared.changes,
        &mut prepared.lost,
    )?;
    start_monitor(monitor, prepared.epoch)?;
    Ok(Recovered {
        records: Sequence::new(prepared.records),
        lost: Sequence::new(prepared.lost),
        epoch: prepared.epoch,
    })
}

/// Recovers a node whose devices are images that a crash has left.
fn recover_images<D: Disk>(
    alloc: Global,
    bay: &mut Bay<D>,
    config: &Config,
) -> Result<Recovered, RecoverError>
    requires { IsValidConfig config.now }
    ensures recovered { (images : ℕ → Held) → DevicesTell D.tells bay.old → AreHeld D.held bay.old images → AreAtRest images → length bay.old ≡ 21
        → RecoversWithVolumes D.held config.now images result bay.new }
    ensures begun { IfOk result (λ recovered. 1 ≤ recovered.epoch) }
    ensures writes { WritesBay D.Disk config.now bay.old bay.new }
    ensures cause { IfErr result (HasFailed D.faults config.now bay.old bay.new) }
{
    recovering_law();
    recovered_law();
    resting_law();
    spelled_volume_law();
    Blocks::<D>::at_rest();
    Trail::<D, AuditRecord>::every_image();
    Trail::<D, MonitorRecord>::every_image();
    Trail::<D, AuditRecord>::one_spelling();
    Trail::<D, MonitorRecord>::one_spelling();
    let device = MonitorDevice::new(bay);
    let rules = rules_of_monitor(alloc, config.roll);
    match Trail::<MonitorDevice<'_, D>, MonitorRecord>::attach(alloc, device, rules) {
        Err(refused) => {
            let fault = refused.1;
            let MonitorDevice { bay: _bay } = handed_back(refused);
            Err(RecoverError::at(MONITOR, fault))
        }
        Ok(opened) => {
            let mut monitor = opened;
            let recovered = recover_opened(alloc, &mut monitor, config);
            let MonitorDevice { bay: _bay } = monitor.into_device();
            recovered
        }
    }
}

/// Recovers a node: it restarts the devices; reads the monitor trail, each other trail, and each volume; then writes each volume that is not
/// lost, so that its blocks have the recovered map and its label the next position; and last lands the Start of the next epoch. All damage
/// is told before anything is written, and so is a block that would hold too much, before damage of a later volume. A call that was refused,
/// or stopped, can be made again.
pub fn recover<D: Disk>(
    alloc: Global,
    bay: &mut Bay<D>,
    config: &Config,
) -> Result<Recovered, RecoverError>
    requires { IsValidConfig config.now }
    // The images are those that the restart has made.
    ensures recovered { DevicesTell D.tells bay.old → (images : ℕ → Held) × AreImages D.held bay.old images × RecoversWithVolumes D.held config.now images result bay.new }
    // On any device: no Start begins epoch 0.
    ensures begun { IfOk result (λ recovered. 1 ≤ recovered.epoch) }
    // A device that is no trail or volume of the configuration is as the restart has left it.
    ensures others { (number : ℕ) (before after : Fuse D) → ¬ IsUsed config.now number → slice_get bay.old number ≡ Some before → slice_get bay.new number ≡ Some after
        → FuseRestarts D.Disk before after }
    ensures keeps { AreLater D.Disk bay.old bay.new }
    ensures cause { (number : ℕ) → result ≡ Err (RecoverError.Failed number) → IsUsed config.now number × RoseAt D.faults bay.old bay.new number }
{
    bay.restart();
    recover_images(alloc, bay, config)
}
