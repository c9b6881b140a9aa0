//! The body of a dump, read block by block.
ghost use Rattle.std.specs.Prelude.{◌≡◌, ◌≤◌, ◌<◌, ◌+◌, ◌^◌, true, Some, IsTrue, IsSome, IfOk, IfErr, OnOk, length};
ghost use Rattle.disk_model.specs.Frame.{IsLater};
ghost use Rattle.disk_model.specs.Held.{Rose};
ghost use Rattle.tmf_model.specs.Config.{IsWithin};
ghost use Rattle.keyed_file.specs.declared.block.TheConstants.{BLOCK_BYTES};
ghost use Rattle.keyed_file.specs.Block.{IsBlock};
ghost use Rattle.keyed_file.specs.BlockFormat.{is_at_home};
ghost use Rattle.rollforward.specs.Body.{AreHomes, AreInPlace, AreSpelledIn, IsReadFrom, TellsAbsent, TellsFrom, TellsRow, bytes_in};

use disk_model::Disk;
use keyed_file::{BLOCK_BYTES, Block, BlockFault, Home, spelling_length_law};
use std::alloc::Global;
use trail_files::{Damage, DamageKind};
use volume_restore::VolumeFault;

/// How a body is damaged at an offset.
fn damage(body: u8, at: u64) -> VolumeFault
    ensures { result ≡ VolumeFault.Damaged (record { file = body; at = at; kind = DamageKind.BadBlock }) }
{
    VolumeFault::Damaged(Damage {
        file: u32::from(body),
        at,
        kind: DamageKind::BadBlock,
    })
}

/// The block of a place, which stands at an offset of a body. It writes nothing.
fn read_block<D: Disk>(
    alloc: Global,
    device: &mut D,
    body: u8,
    at: u64,
    home: Home,
) -> Result<Block, VolumeFault>
    requires blocks { IsWithin 1 256 home.blocks }
    requires near { at < 2 ^ 63 }
    ensures read { IsTrue (D.tells device.old) → IfOk result (IsReadFrom home at (bytes_in (D.held device.old body))) }
    ensures valid { IfOk result (λ block. IsBlock block × (is_at_home (Some home) block ≡ true)) }
    ensures fault { IsTrue (D.tells device.old) → at ≤ length (bytes_in (D.held device.old body)) → IfErr result (TellsFrom body home at (bytes_in (D.held device.old body))) }
    ensures same { D.held device.new ≡ D.held device.old }
    ensures keeps { IsLater D.Disk device.old device.new }
    ensures cause { IfErr result (λ e. e ≡ VolumeFault.Failed → Rose (D.faults device.old) (D.faults device.new)) }
{
    spelling_length_law();
    let mut bytes = [0; BLOCK_BYTES];
    let Ok(count) = device.read(u32::from(body), at, &mut bytes) else {
        return Err(VolumeFault::Failed);
    };
    if count < BLOCK_BYTES {
        return Err(damage(body, at + count as u64));
    }
    match Block::decode_at(alloc, home, &bytes) {
        Ok(block) => Ok(block),
        Err(BlockFault::Bad(bad)) => Err(damage(body, at + u64::from(bad.at))),
        Err(BlockFault::NoMemory) => Err(VolumeFault::NoMemory),
    }
}

/// Tells a body that is not there. It writes nothing.
fn find_body<D: Disk>(device: &mut D, body: u8) -> Result<(), VolumeFault>
    ensures there { IsTrue (D.tells device.old) → OnOk result (IsSome (D.held device.old body)) }
    ensures fault { IsTrue (D.tells device.old) → IfErr result (TellsAbsent body (D.held device.old body)) }
    ensures same { D.held device.new ≡ D.held device.old }
    ensures keeps { IsLater D.Disk device.old device.new }
    ensures cause { IfErr result (λ e. e ≡ VolumeFault.Failed → Rose (D.faults device.old) (D.faults device.new)) }
{
    match device.length(u32::from(body)) {
        Ok(Some(_)) => Ok(()),
        Ok(None) => Err(damage(body, 0)),
        Err(_) => Err(VolumeFault::Failed),
    }
}

/// The blocks of these places, which stand one behind the other in a body. The first damage is told. It writes nothing.
pub fn read_body<D: Disk>(
    alloc: Global,
    device: &mut D,
    body: u8,
    homes: &[Home],
) -> Result<Vec<Block>, VolumeFault>
    requires homes { AreHomes homes.now }
    requires few { length homes.now ≤ 4096 }
    ensures spelled { IsTrue (D.tells device.old) → IfOk result (λ blocks. AreSpelledIn homes.now (D.held device.old body) blocks.items) }
    ensures places { IfOk result (λ blocks. AreInPlace homes.now blocks.items) }
    ensures fault { IsTrue (D.tells device.old) → IfErr result (TellsRow body homes.now (D.held device.old body)) }
    ensures same { D.held device.new ≡ D.held device.old }
    ensures keeps { IsLater D.Disk device.old device.new }
    ensures cause { IfErr result (λ e. e ≡ VolumeFault.Failed → Rose (D.faults device.old) (D.faults device.new)) }
{
    find_body(device, body)?;
    let Ok(mut blocks) = Vec::with_capacity(alloc, homes.len()) else {
        return Err(VolumeFault::NoMemory);
    };
    let mut at = 0;
    for home in homes {
        blocks.push_reserved(read_block(alloc, device, body, at, *home)?);
        at += BLOCK_BYTES as u64;
    }
    Ok(blocks)
}
