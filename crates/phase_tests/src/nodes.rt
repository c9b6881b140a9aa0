//! The nodes that the tests run: their scripts, their devices, and what a recovery finds.
ghost use Rattle.std.specs.Prelude.{IfOk};
ghost use Rattle.tmf_model.specs.Config.{IsValidConfig};
ghost use Rattle.tmf_model.specs.Script.{IsValidScript};

use disk_model::{Bay, Disk, MemDisk};
use node_run::{Gate, Outcome, PhaseError, Told, run_phase};
use std::alloc::Global;
use std::sync::Wait;
use std::test::Fail;
use std::thread::Threads;
use tmf_model::{Action, Config, Key, Script, Sequence, Transid, Value};
use tmf_script::parse;
use volume_recovery::volumes;

/// How many devices a bay has.
pub const DEVICES: u8 = 21;

/// Two trails A and B, with the volumes $D and $E, on which lie the files F and G.
pub const HEAD: &[u8] =
    b"trail A\ntrail B\nvolume $D A\nvolume $E B\nfile F $D 4\nfile G $E 4\ncar 4 2\nroll 4096\n";

/// One trail, with one volume, on which lies one file.
pub const ONE_FILE: &[u8] = b"trail AUX1\nvolume $DATA1 AUX1\nfile ACCT $DATA1 4\n";

/// Lets every worker go on.
#[derive(Drop)]
pub struct Free;

impl Gate for Free {
    fn pass(&self, worker: u16, ordinal: u16, op: u8) {
        let _ = (worker, ordinal, op);
    }

    fn answered(&self, worker: u16, ordinal: u16) {
        let _ = (worker, ordinal);
    }
}

/// The script with this head, whose one action is the run of these workers.
pub fn script(alloc: Global, head: &[u8], workers: &[u8]) -> Result<Script, Fail>
    ensures { IfOk result IsValidScript }
{
    let mut text = Vec::new(alloc);
    text.extend_from_slice(head)?;
    text.extend_from_slice(b"run\n")?;
    text.extend_from_slice(workers)?;
    text.extend_from_slice(b"end\n")?;
    match parse(alloc, &text) {
        Ok(script) => Ok(script),
        Err(_) => Err(Fail::new("no script was read")),
    }
}

/// 21 devices in memory, with nothing on them.
pub fn disks(alloc: Global) -> Result<Vec<MemDisk>, Fail> {
    chosen_disks(alloc, 0)
}

/// 21 devices in memory, with nothing on them, of which a restart leaves what this choice picks.
pub fn chosen_disks(alloc: Global, choice: u64) -> Result<Vec<MemDisk>, Fail> {
    let mut disks = Vec::new(alloc);
    for _ in 0..DEVICES {
        disks.push(MemDisk::new(alloc, choice, &[])?)?;
    }
    Ok(disks)
}

/// A bay of these devices, on which a node is formatted.
pub fn formatted<D: Disk + Drop>(
    alloc: Global,
    config: &Config,
    disks: Vec<D>,
) -> Result<Bay<D>, Fail>
    requires { IsValidConfig config.now }
{
    let Ok(mut bay) = Bay::new(alloc, disks) else {
        return Err(Fail::new("no bay was made"));
    };
    if volumes::format_node(alloc, &mut bay, config).is_err() {
        return Err(Fail::new("no node was made"));
    }
    Ok(bay)
}

/// The script's first action, which is a run, at the first epoch.
pub fn ran<R: Threads + Wait + Sync, G: Gate + Sync, D: Disk + Send + Drop>(
    rt: &R,
    alloc: Global,
    script: &Script,
    gate: &G,
    bay: Bay<D>,
) -> Result<(Result<Sequence<Outcome>, PhaseError>, Bay<D>), Fail>
    requires { IsValidScript script.now }
{
    match script.actions.as_slice().split_first() {
        Some((Action::Run(phase), _)) => {
            Ok(run_phase(rt, alloc, &script.config, 1, phase, gate, bay))
        }
        _ => Err(Fail::new("the script has no run")),
    }
}

/// A run that begins.
pub fn begun<R: Threads + Wait + Sync, G: Gate + Sync, D: Disk + Send + Drop>(
    rt: &R,
    alloc: Global,
    script: &Script,
    gate: &G,
    bay: Bay<D>,
) -> Result<(Sequence<Outcome>, Bay<D>), Fail>
    requires { IsValidScript script.now }
{
    let (result, bay) = ran(rt, alloc, script, gate, bay)?;
    let Ok(outcomes) = result else {
        return Err(Fail::new("no run began"));
    };
    Ok((outcomes, bay))
}

/// A run that begins and of whose items each is done.
pub fn done<R: Threads + Wait + Sync, G: Gate + Sync, D: Disk + Send + Drop>(
    rt: &R,
    alloc: Global,
    script: &Script,
    gate: &G,
    bay: Bay<D>,
) -> Result<(Sequence<Outcome>, Bay<D>), Fail>
    requires { IsValidScript script.now }
{
    let (outcomes, bay) = begun(rt, alloc, script, gate, bay)?;
    if are_done(outcomes.as_slice()) {
        Ok((outcomes, bay))
    } else {
        Err(Fail::new("an item was not done"))
    }
}

/// Whether each of these items was carried out.
pub fn are_done(outcomes: &[Outcome]) -> bool {
    for outcome in outcomes {
        match outcome.told {
            Told::Committed { .. } | Told::Controlled { .. } | Told::Dumped { .. } => {}
            _ => return false,
        }
    }
    true
}

/// The first attempt at an item, in the first epoch.
pub fn first_of(worker: u16, ordinal: u16) -> Transid {
    Transid {
        epoch: 1,
        worker,
        ordinal,
        attempt: 1,
    }
}

/// Whether the outcome is that this attempt was committed at this place, and has read nothing.
pub fn is_committed(outcome: Option<&Outcome>, tx: Transid, place: u64) -> bool {
    let Some(outcome) = outcome else {
        return false;
    };
    match &outcome.told {
        Told::Committed { place: at, reads } => {
            outcome.tx == tx && *at == place && reads.is_empty()
        }
        _ => false,
    }
}

/// Whether the outcome is this item's control point of the first volume, with this low position.
pub fn is_controlled(outcome: Option<&Outcome>, tx: Transid, low: u64) -> bool {
    let Some(outcome) = outcome else {
        return false;
    };
    match outcome.told {
        Told::Controlled { volume, low: at } => outcome.tx == tx && volume == 1 && at == low,
        _ => false,
    }
}

/// The records of a file that the configuration has.
pub fn entries<D: Disk>(
    alloc: Global,
    bay: &mut Bay<D>,
    config: &Config,
    file: u8,
) -> Result<Vec<(Key, Value)>, Fail>
    requires { IsValidConfig config.now }
{
    if file < 1 || config.files.len() < file as usize {
        return Err(Fail::new("there is no such file"));
    }
    match volumes::list_file(alloc, bay, config, file) {
        Ok(entries) => Ok(entries),
        Err(_) => Err(Fail::new("no file was listed")),
    }
}

/// The records of a file as one text.
pub fn listed<D: Disk>(
    alloc: Global,
    bay: &mut Bay<D>,
    config: &Config,
    file: u8,
) -> Result<String, Fail>
    requires { IsValidConfig config.now }
{
    let mut text = String::new(alloc);
    let entries = entries(alloc, bay, config, file)?;
    for (key, value) in entries.iter() {
        text.push_str(key.as_str())?;
        text.push_str("=")?;
        text.push_str(value.as_str())?;
        text.push_str(" ")?;
    }
    Ok(text)
}

/// How many records the monitor trail has behind a recovery that goes through.
pub fn recovered<D: Disk>(alloc: Global, bay: &mut Bay<D>, config: &Config) -> Result<usize, Fail>
    requires { IsValidConfig config.now }
{
    match volumes::recover(alloc, bay, config) {
        Ok(recovered) => Ok(recovered.records.len()),
        Err(_) => Err(Fail::new("the node was not recovered")),
    }
}
