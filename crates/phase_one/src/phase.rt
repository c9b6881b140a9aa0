//! Phase one, disc by disc.
ghost use Rattle.std.specs.Prelude.{◌≡◌, ◌==◌, [], true, IfErr, IfOk, MatchResult, OnOk};
ghost use Rattle.std.specs.List.{find, list_any};
ghost use Rattle.std.specs.Option.{option_copied};
ghost use Rattle.chronicle.specs.Seats.{Knows};
ghost use Rattle.node_machine.specs.Monitor.{IsFlushed};
ghost use Rattle.node_machine.specs.Node.{node};
ghost use Rattle.node_machine.specs.Trail.{trail_of};
ghost use Rattle.node_machine.specs.declared.event.By.TheVariants.{Attempt};
ghost use Rattle.audit_writer.specs.Locked.{HasFailed};
ghost use Rattle.audit_writer.specs.declared.lock.FlushRefused.TheVariants as refusal;
ghost use Rattle.txn_states.specs.Txn.{AreFlushed, HasStepped};
ghost use Rattle.disc_process.specs.Disc.{AreTrails};
ghost use Rattle.disc_lock.specs.Locks.{number_of};
ghost use Rattle.phase_one.specs.Stopped.{HasDisc, HaveDiscs, IsStopped, stopped_from};

use audit_writer::{AuditWriter, DeviceRun, FlushRefused};
use disc_lock::DiscProcess;
use disc_process::{Handover, land};
use disk_model::Disk;
use std::sync::Wait;
use txn_states::{Ending, Flushed};

/// Why phase one was stopped.
#[derive(Clone, Copy, Debug, PartialEq, Eq)]
pub enum Stopped {
    /// The device with this number failed.
    Failed(u8),
    NoMemory,
}

/// What the refusal at a disc is to phase one.
fn stopped_from(refused: FlushRefused) -> Stopped
    ensures { result ≡ stopped_from refused }
{
    match refused {
        FlushRefused::Failed(device) => Stopped::Failed(device),
        FlushRefused::NoMemory => Stopped::NoMemory,
    }
}

/// The disc of the volume with this number, if there is one.
fn disc_of<'b, 'a, D: Disk, J: DeviceRun<D>>(
    discs: &'b [DiscProcess<'a, D, J>],
    number: u8,
) -> Option<&'b DiscProcess<'a, D, J>>
    ensures { option_copied result ≡ find (λ p. number_of p == number) discs.now }
{
    discs.iter().find(|disc| disc.number() == number)
}

/// The disc of the volume with this number, which there is.
fn disc_at<'b, 'a, D: Disk, J: DeviceRun<D>>(
    discs: &'b [DiscProcess<'a, D, J>],
    number: u8,
) -> &'b DiscProcess<'a, D, J>
    requires { HasDisc discs.now number }
    ensures { number_of result.now ≡ number }
{
    match disc_of(discs, number) {
        Some(disc) => disc,
        None => unreachable!(),
    }
}

/// Phase one at one disc, in its turn of landing. The disc's lock is held while the transaction closes, and not while its audit lands.
fn flush_at<'a, R: Wait, D: Disk, J: DeviceRun<D>>(
    rt: &R,
    tx: &mut Ending<'a, J>,
    number: u8,
    discs: &[DiscProcess<'a, D, J>],
    trails: &[AuditWriter<'a, D, J>],
) -> Result<(), FlushRefused>
    requires enlisted { list_any (λ d. d == number) tx.old.discs ≡ true }
    requires disc { HasDisc discs.now number }
    requires trails { AreTrails (J.found).config trails.now }
    ensures flushed { OnOk result (IsFlushed (Knows node J.opening tx.new.seat) tx.old.tx number) }
    ensures refused { IfErr result (HasFailed (trail_of (J.found).config number) (Attempt tx.old.tx) tx.old.seat tx.new.seat) }
    ensures txn { HasStepped J.opening tx.old [] tx.new }
{
    let disc = disc_at(discs, number);
    let _turn = disc.landing(rt);
    let mut handover = close_at(rt, tx, disc)?;
    if let Err(refused) = land(rt, &mut handover, tx, trails) {
        return Err(refused);
    }
    settle_at(rt, disc, &mut handover);
    Ok(())
}

/// The transaction closes at a disc, in one hold of its lock.
fn close_at<'a, R: Wait, D: Disk, J: DeviceRun<D>>(
    rt: &R,
    tx: &mut Ending<'a, J>,
    disc: &DiscProcess<'a, D, J>,
) -> Result<Handover<'a, J>, FlushRefused>
    requires { list_any (λ d. d == number_of disc.now) tx.old.discs ≡ true }
    ensures handed { IfOk result (λ h. (h.tx ≡ tx.old.tx) × (h.disc ≡ number_of disc.now)) }
    ensures refused { IfErr result (λ why. why ≡ refusal.NoMemory) }
    ensures txn { HasStepped J.opening tx.old [] tx.new }
{
    match disc.lock(rt).close_handing(tx) {
        Ok(handover) => Ok(handover),
        Err(_) => Err(FlushRefused::NoMemory),
    }
}

/// The disc hears that its audit has landed.
fn settle_at<'a, R: Wait, D: Disk, J: DeviceRun<D>>(
    rt: &R,
    disc: &DiscProcess<'a, D, J>,
    handover: &mut Handover<'a, J>,
)
    requires { handover.old.disc ≡ number_of disc.now }
{
    disc.lock(rt).settle(handover);
}

/// Ends what a transaction asks for at each disc that it has enlisted, in the order in which it has enlisted them, and lands their audit.
/// Where a disc's trail fails, or memory runs out, the transaction is handed back, to be backed out.
pub fn run<'a, R: Wait, D: Disk, J: DeviceRun<D>>(
    rt: &R,
    tx: Ending<'a, J>,
    discs: &[DiscProcess<'a, D, J>],
    trails: &[AuditWriter<'a, D, J>],
) -> Result<Flushed<'a, J>, (Ending<'a, J>, Stopped)>
    requires discs { HaveDiscs discs.now tx.discs }
    requires trails { AreTrails (J.found).config trails.now }
    ensures flushed { IfOk result (AreFlushed J.opening) }
    ensures txn { MatchResult result (λ flushed. HasStepped J.opening tx.entry [] flushed) (λ refused. HasStepped J.opening tx.entry [] refused.0) }
    ensures stopped { IfErr result (λ refused. IsStopped (J.found).config tx.entry refused.0 refused.1) }
{
    let mut ending = tx;
    let count = ending.discs().len();
    for index in 0..count {
        let number = ending.discs()[index];
        match flush_at(rt, &mut ending, number, discs, trails) {
            Ok(()) => {}
            Err(refused) => return Err((ending, stopped_from(refused))),
        }
    }
    Ok(ending.flushed())
}
