//! What no clause says: that the calls succeed where there is memory and no call of the device fails, and that body and label meet on the device.
ghost use Rattle.std.specs.Prelude.{◌≡◌, None, IfOk, IsSome, OnErr, OnOk};
ghost use Rattle.tmf_model.specs.Config.{IsWithin};

use disk_model::{Disk, DiskFault, MemDisk};
use keyed_file::BLOCK_BYTES;
use online_dump::DumpFile;
use std::alloc::Global;
use std::test::Fail;

/// The dump device of volume 1.
fn opened(alloc: Global, device: MemDisk) -> Result<DumpFile<MemDisk>, Fail>
    ensures { IfOk result (λ file. (file.volume ≡ 1) × (file.next ≡ None)) }
{
    match DumpFile::attach(alloc, device, 1) {
        Ok(file) => Ok(file),
        Err(_) => Err(Fail::new("no dump device was opened")),
    }
}

/// Writes the body of a dump, of a block of this byte and one of zeros, and its label.
fn write_dump<D: Disk>(file: &mut DumpFile<D>, byte: u8, start: u64) -> Result<(), DiskFault>
    requires volume { file.old.volume ≡ 1 }
    requires none { file.old.next ≡ None }
    requires start { IsWithin 1 100 start }
    ensures written { OnOk result ((file.new.volume ≡ 1) × IsSome file.new.next) }
{
    file.begin_body()?;
    file.put_block(&[byte; BLOCK_BYTES])?;
    file.put_block(&[0; BLOCK_BYTES])?;
    file.finish_body()?;
    file.write_label(start)
}

/// Seals the dump whose label is written.
fn seal<D: Disk>(file: &mut DumpFile<D>) -> Result<(), DiskFault>
    requires next { IsSome file.old.next }
    ensures sealed { OnOk result ((file.new.volume ≡ file.old.volume) × (file.new.next ≡ None)) }
    ensures again { OnErr result (file.new.next ≡ file.old.next) }
{
    file.seal()
}

/// Whether the file is a body of a block of this byte and one of zeros.
fn is_body(device: &MemDisk, file: u32, byte: u8) -> bool {
    match device.bytes(file) {
        Some(bytes) => {
            bytes.len() == 2 * BLOCK_BYTES
                && bytes.iter().take(BLOCK_BYTES).all(|b| *b == byte)
                && bytes.iter().skip(BLOCK_BYTES).all(|b| *b == 0)
        }
        None => false,
    }
}

/// Puts a row of bytes in at an offset.
fn put_in(bytes: &mut [u8], at: usize, row: &[u8]) {
    for (place, &byte) in bytes.iter_mut().skip(at).zip(row) {
        *place = byte;
    }
}

#[test]
fn the_second_dump_follows_the_first(rt: HostRuntime) -> Result<(), Fail> {
    let alloc = rt.alloc();
    // The last call of the second seal: the sync of its selector.
    let Ok(device) = MemDisk::new(alloc, 0, &[16]) else {
        return Err(Fail::new("no device was made"));
    };
    let mut file = opened(alloc, device)?;
    assert!(rt; file.rest().is_none());
    assert!(rt; write_dump(&mut file, 7, 5).is_ok());
    assert!(rt; seal(&mut file).is_ok());
    assert!(rt; file.rest() == Some(5));
    assert!(rt; write_dump(&mut file, 8, 9).is_ok());
    assert!(rt; seal(&mut file).is_err());
    assert!(rt; file.rest() == Some(5));
    assert!(rt; seal(&mut file).is_ok());
    let device = file.into_device();
    assert!(rt; is_body(&device, 2, 7) && is_body(&device, 3, 8));
    let mut label = [0; 768];
    put_in(&mut label, 0, &[1, 1]);
    put_in(&mut label, 256, &[1, 1, 2]);
    put_in(&mut label, 271, &[5, 0, 0, 0, 0, 0, 0, 0, 1]);
    put_in(&mut label, 512, &[1, 1, 3]);
    put_in(&mut label, 527, &[9, 0, 0, 0, 0, 0, 0, 0, 2]);
    assert!(rt; device.bytes(1) == Some(label.as_slice()));
    let file = opened(alloc, device)?;
    assert!(rt; file.rest() == Some(9));
    Ok(())
}
