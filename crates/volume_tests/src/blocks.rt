//! What no clause says: labels and pairs that are written by hand as bytes, and device calls that fail one by one.
ghost use Rattle.std.specs.Prelude.{◌≡◌, ◌<◌, ◌≤◌, ◌∷◌, [], ℕ, length, IfOk, IsTrue, OnOk, None, Some, true};
ghost use Rattle.tmf_model.specs.Config.{HasValidFiles, IsValidConfig, IsWithin};
ghost use Rattle.block_cache.specs.Created.{AreAllFiles};
ghost use Rattle.keyed_file.specs.BlockFormat.{is_at_home};
ghost use Rattle.keyed_file.specs.Volume.{blocks_of, files_on};
ghost use Rattle.block_cache.specs.declared.pair.PairPhase.TheVariants.{Settled};
ghost use Rattle.block_cache.specs.Blocks.{OnlyReads, SameLabel};
ghost use Rattle.block_cache.specs.Cache.{entry_at};
ghost use Rattle.block_cache.specs.Changes.{IsChange, change_home};
ghost use Rattle.block_cache.specs.Rewrite.{IsCalm};
ghost use Rattle.block_cache.specs.Shows.{NamesSlot};

use block_cache::{
    AttachFault, BlockFault, BlockNo, Blocks, Change, FileContents, change_block, change_volume,
    create_volume, move_low, read_file, take_block,
};
use disk_model::{Disk, MemDisk};
use keyed_file::{BLOCK_BYTES, Block, Home, Label};
use std::alloc::Global;
use std::test::Fail;
use tmf_model::{Config, FileLine, Key, Name, Sequence, Value, Volume};
use trail_files::{Damage, DamageKind};

/// The trail A with the volume $D, on which lie these files.
fn config_of(alloc: Global, files: Vec<FileLine>) -> Result<Config, Fail>
    requires files { HasValidFiles ((record { name = 36 ∷ 68 ∷ []; trail = 1 }) ∷ []) files.items }
    ensures valid { IfOk result IsValidConfig }
    ensures volumes { IfOk result (λ config. length config.volumes ≡ 1) }
    ensures files { IfOk result (λ config. config.files ≡ files.items) }
{
    let Ok(trail) = Name::new(b"A") else {
        return Err(Fail::new("no trail is named"));
    };
    let Ok(volume) = Name::new(b"$D") else {
        return Err(Fail::new("no volume is named"));
    };
    let volumes = vec![in alloc;
        Volume {
            name: volume,
            trail: 1
        },
    ]?;
    Ok(Config {
        trails: Sequence::new(vec![in alloc; trail]?),
        volumes: Sequence::new(volumes),
        files: Sequence::new(files),
        cache: 64,
        car_count: 64,
        car_holds: 0,
        roll: 256,
        steps: 1000,
    })
}

/// A file of the volume $D, with a name of one letter.
fn file_line(name: u8, blocks: u16) -> Result<FileLine, Fail>
    ensures value { IfOk result (λ line. line ≡ record { name = name ∷ []; volume = 1; blocks = blocks }) }
{
    let Ok(name) = Name::new(&[name]) else {
        return Err(Fail::new("no file is named"));
    };
    Ok(FileLine {
        name,
        volume: 1,
        blocks,
    })
}

/// The trail A with the volume $D, on which lies the file F of 16 blocks.
fn config(alloc: Global) -> Result<Config, Fail>
    ensures valid { IfOk result IsValidConfig }
    ensures volumes { IfOk result (λ config. length config.volumes ≡ 1) }
    ensures files { IfOk result (λ config. files_on 1 1 config.files ≡ (1, 16) ∷ []) }
{
    let files = vec![in alloc; file_line(b'F', 16)?]?;
    config_of(alloc, files)
}

/// The trail A with the volume $D, on which lie the files F of 2 blocks and G of one.
fn two_files(alloc: Global) -> Result<Config, Fail>
    ensures valid { IfOk result IsValidConfig }
    ensures volumes { IfOk result (λ config. length config.volumes ≡ 1) }
    ensures files { IfOk result (λ config. files_on 1 1 config.files ≡ (1, 2) ∷ (2, 1) ∷ []) }
{
    let files = vec![in alloc; file_line(b'F', 2)?, file_line(b'G', 1)?]?;
    config_of(alloc, files)
}

/// Puts a row of bytes in at an offset.
fn put_in(bytes: &mut [u8], at: usize, row: &[u8]) {
    for (place, &byte) in bytes.iter_mut().skip(at).zip(row) {
        *place = byte;
    }
}

/// The block of a file with this number and one record: a key of one byte that lives there, and a value of one byte.
fn block_bytes(file: u8, number: u8, value: u8) -> [u8; BLOCK_BYTES]
    requires { number < 16 }
{
    let mut bytes = [0; BLOCK_BYTES];
    put_in(&mut bytes, 0, &[1, 0, file, 0, 0, number]);
    put_in(&mut bytes, 15, &[1, 0, 1]);
    put_in(&mut bytes, 128, &[1, 1]);
    put_in(&mut bytes, 136, &[b'0' + number]);
    put_in(&mut bytes, 152, &[value]);
    bytes
}

/// A label's file whose gate is open and whose selector names slot 1: there the low position is 5, and 3 in slot 0.
fn label_bytes() -> [u8; 768] {
    let mut bytes = [0; 768];
    put_in(&mut bytes, 0, &[1, 1]);
    put_in(&mut bytes, 256, &[1, 1, 1, 1]);
    put_in(&mut bytes, 271, &[3, 1, 0, 0, 16]);
    put_in(&mut bytes, 512, &[1, 1, 1, 1]);
    put_in(&mut bytes, 527, &[5, 1, 0, 0, 16]);
    bytes
}

/// A device with this label file, and with the data file of 16 blocks: each has the value `a` in slot 0 and `b` in slot 1, and
/// block 3's selector alone names slot 1. Its calls with these numbers fail.
fn disk(alloc: Global, label: &[u8], choice: u64, fails: &[u64]) -> Result<MemDisk, Fail> {
    let mut selectors = [0; 256];
    put_in(&mut selectors, 3, &[1]);
    let mut file = Vec::new(alloc);
    file.extend_from_slice(&selectors)?;
    for number in 0..16 {
        file.extend_from_slice(&block_bytes(1, number, b'a'))?;
        file.extend_from_slice(&block_bytes(1, number, b'b'))?;
    }
    let mut text = Vec::new(alloc);
    text.extend_from_slice(label)?;
    match MemDisk::from_files(alloc, vec![in alloc; (1, text), (2, file)]?, choice, fails) {
        Ok(disk) => Ok(disk),
        Err(_) => Err(Fail::new("no device was made")),
    }
}

/// The volume's blocks, under a cache of so many.
fn attached(alloc: Global, disk: MemDisk, cache: u32) -> Result<Blocks<MemDisk>, Fail>
    requires { 1 ≤ cache }
    ensures files { IfOk result (λ b. blocks_of b.label.files 1 ≡ 16) }
    ensures empty { IfOk result (λ b. (file number : ℕ) → entry_at b.cache file number ≡ None) }
    ensures calm { IfOk result (λ b. IsCalm b.cache) }
    ensures settled { IfOk result (λ b. b.label_phase ≡ Settled) }
{
    let config = config(alloc)?;
    match Blocks::attach(alloc, disk, &config, 1, cache) {
        Ok(blocks) => Ok(blocks),
        Err(_) => Err(Fail::new("not attached")),
    }
}

/// The value of a block's one key.
fn read_in(blocks: &mut Blocks<MemDisk>, file: u8, number: u8) -> Result<Option<Value>, BlockFault>
    requires block { number < blocks_of blocks.old.label.files file }
    requires number { number < 16 }
    requires calm { IsCalm blocks.old.cache }
    ensures label { SameLabel blocks.old blocks.new }
    ensures calm { IsCalm blocks.new.cache }
{
    let n = BlockNo {
        file,
        number: u16::from(number),
    };
    if blocks.crowded(n).is_some() {
        return Err(BlockFault::NoMemory);
    }
    blocks.load(n)?;
    let Ok(key) = Key::new(&[b'0' + number]) else {
        return Ok(None);
    };
    Ok(blocks.get(n).get(&key))
}

/// The value of the one key of a block of file 1.
fn read(blocks: &mut Blocks<MemDisk>, number: u8) -> Result<Option<Value>, BlockFault>
    requires files { blocks_of blocks.old.label.files 1 ≡ 16 }
    requires number { number < 16 }
    requires calm { IsCalm blocks.old.cache }
    ensures label { SameLabel blocks.old blocks.new }
    ensures calm { IsCalm blocks.new.cache }
{
    read_in(blocks, 1, number)
}

/// The content of a block of a file of so many, with this value, read from bytes.
fn content(alloc: Global, file: u8, number: u8, blocks: u16, value: u8) -> Result<Block, BlockFault>
    requires number { number < 16 }
    requires blocks { IsWithin 1 256 blocks }
    ensures home { IfOk result (λ block. is_at_home (Some (record { file = file; number = number; blocks = blocks })) block ≡ true) }
{
    let home = Home {
        file,
        number: u16::from(number),
        blocks,
    };
    match Block::decode_at(alloc, home, &block_bytes(file, number, value)) {
        Ok(block) => Ok(block),
        Err(_) => Err(BlockFault::NoMemory),
    }
}

/// Puts another value of a block's one key, and draws it.
fn change(
    alloc: Global,
    blocks: &mut Blocks<MemDisk>,
    number: u8,
    value: u8,
) -> Result<(), BlockFault>
    requires files { blocks_of blocks.old.label.files 1 ≡ 16 }
    requires number { number < 16 }
    requires calm { IsCalm blocks.old.cache }
    ensures label { SameLabel blocks.old blocks.new }
    ensures calm { OnOk result (IsCalm blocks.new.cache) }
{
    let block = content(alloc, 1, number, 16, value)?;
    let n = BlockNo {
        file: 1,
        number: u16::from(number),
    };
    if blocks.crowded(n).is_some() {
        return Err(BlockFault::NoMemory);
    }
    blocks.load(n)?;
    blocks.put_block(n, block);
    blocks.draw_body(n)?;
    blocks.draw_select(n)?;
    Ok(())
}

/// Another content of a block, with the slot that its selector names.
fn change_of<D: Disk>(
    alloc: Global,
    blocks: &mut Blocks<D>,
    home: Home,
    content: Block,
) -> Result<Change, BlockFault>
    requires block { home.number < home.blocks }
    requires few { home.blocks ≤ 256 }
    requires blocks { home.blocks ≡ blocks_of blocks.old.label.files home.file }
    requires home { is_at_home (Some home) content ≡ true }
    ensures file { IfOk result (λ change. (change.n.file ≡ home.file) × (change.n.number ≡ home.number)) }
    ensures change { IfOk result (IsChange blocks.old.label.files) }
    ensures named { IsTrue (D.tells blocks.old.device) → IfOk result (λ change. NamesSlot (change_home blocks.old.label.files change) change.slot (D.held blocks.old.device)) }
    ensures cache { blocks.new.cache ≡ blocks.old.cache }
    ensures reads { OnlyReads D.Disk blocks.old blocks.new }
{
    blocks.always();
    let Ok(mut bytes) = vec![in alloc; 0; 256 + 2 * usize::from(home.blocks) * BLOCK_BYTES] else {
        return Err(BlockFault::NoMemory);
    };
    let Ok(mut block) = Block::empty(alloc, 0, 0) else {
        return Err(BlockFault::NoMemory);
    };
    blocks.read_file(home, &mut bytes[..])?;
    let n = BlockNo {
        file: home.file,
        number: home.number,
    };
    match take_block(alloc, home, &bytes[..], &mut block) {
        Ok(slot) => Ok(Change { n, slot, content }),
        Err(_) => Err(BlockFault::NoMemory),
    }
}

/// Gives a block of file 1 another value without a reading into the cache.
fn give(
    alloc: Global,
    blocks: &mut Blocks<MemDisk>,
    number: u8,
    value: u8,
) -> Result<(), BlockFault>
    requires files { blocks_of blocks.old.label.files 1 ≡ 16 }
    requires number { number < 16 }
    requires empty { (file number : ℕ) → entry_at blocks.old.cache file number ≡ None }
    requires calm { IsCalm blocks.old.cache }
    requires settled { blocks.old.label_phase ≡ Settled }
    ensures label { SameLabel blocks.old blocks.new }
    ensures calm { OnOk result (IsCalm blocks.new.cache) }
{
    let home = Home {
        file: 1,
        number: u16::from(number),
        blocks: 16,
    };
    let block = content(alloc, 1, number, 16, value)?;
    let change = change_of(alloc, blocks, home, block)?;
    change_block(blocks, change)?;
    Ok(())
}

/// What an attach answers: the low position, or a fault.
fn attach_answer(alloc: Global, disk: MemDisk) -> Result<Result<u64, AttachFault>, Fail> {
    let config = config(alloc)?;
    match Blocks::attach(alloc, disk, &config, 1, 2) {
        Ok(blocks) => Ok(Ok(blocks.low())),
        Err((_, fault)) => Ok(Err(fault)),
    }
}

/// Where a label's file is damaged.
fn damaged(at: u64) -> Result<u64, AttachFault> {
    Err(AttachFault::Damaged(Damage {
        file: 1,
        at,
        kind: DamageKind::BadLabel,
    }))
}

#[test]
fn a_label_is_lost_or_damaged_at_its_first_byte(rt: HostRuntime) -> Result<(), Fail> {
    let alloc = rt.alloc();
    let table: [(usize, u8, Result<u64, AttachFault>); 19] = [
        (0, 0, Err(AttachFault::Lost)),
        (0, 255, Err(AttachFault::Lost)),
        (1, 0, Ok(3)),
        (1, 2, Ok(3)),
        (2, 9, Ok(5)),
        (256, 9, Ok(5)),
        (512, 2, damaged(512)),
        (513, 2, damaged(513)),
        (514, 2, damaged(514)),
        (515, 2, damaged(515)),
        (519, 1, damaged(519)),
        (520, 0x41, damaged(520)),
        (527, 0, damaged(520)),
        (527, 9, Ok(9)),
        (528, 2, damaged(528)),
        (529, 1, damaged(529)),
        (531, 17, damaged(531)),
        (531, 0, damaged(530)),
        (767, 1, damaged(767)),
    ];
    for (at, byte, want) in table {
        let mut label = label_bytes();
        put_in(&mut label, at, &[byte]);
        let found = attach_answer(alloc, disk(alloc, &label, 0, &[])?)?;
        assert!(rt; found == want);
    }
    let mut short = [0; 767];
    put_in(&mut short, 0, &label_bytes());
    let found = attach_answer(alloc, disk(alloc, &short, 0, &[])?)?;
    assert!(rt; found == damaged(767));
    let found = attach_answer(alloc, MemDisk::new(alloc, 0, &[])?)?;
    assert!(rt; found == Err(AttachFault::Lost));
    let found = attach_answer(alloc, disk(alloc, &label_bytes(), 0, &[0])?)?;
    assert!(rt; found == Err(AttachFault::Failed));
    Ok(())
}

#[test]
fn the_selected_slots_are_read(rt: HostRuntime) -> Result<(), Fail> {
    let alloc = rt.alloc();
    let mut blocks = attached(alloc, disk(alloc, &label_bytes(), 0, &[])?, 2)?;
    assert!(rt; blocks.low() == 5);
    assert!(rt; read(&mut blocks, 2) == Ok(Value::new(b"a").ok()));
    assert!(rt; read(&mut blocks, 3) == Ok(Value::new(b"b").ok()));
    assert!(rt; read(&mut blocks, 15) == Ok(Value::new(b"a").ok()));
    Ok(())
}

#[test]
fn a_data_file_is_read_in_one_piece(rt: HostRuntime) -> Result<(), Fail> {
    let alloc = rt.alloc();
    let mut disk = disk(alloc, &label_bytes(), 0, &[])?;
    let mut bytes = vec![in alloc; 0; 131328]?;
    let home = Home {
        file: 1,
        number: 3,
        blocks: 16,
    };
    let other = Home { number: 4, ..home };
    let lost = Home { file: 2, ..home };
    let Ok(mut block) = Block::empty(alloc, 0, 0) else {
        return Err(Fail::new("no block was made"));
    };
    assert!(rt; read_file(&mut disk, home, &mut bytes[..]) == Ok(()));
    assert!(rt; take_block(alloc, home, &bytes[..], &mut block) == Ok(1));
    assert!(rt; block.get(&Key::new(b"3")?) == Value::new(b"b").ok());
    assert!(rt; take_block(alloc, other, &bytes[..], &mut block) == Ok(0));
    assert!(rt; block.get(&Key::new(b"4")?) == Value::new(b"a").ok());
    bytes[33024] = 2;
    let damage = Damage {
        file: 2,
        at: 33024,
        kind: DamageKind::BadBlock,
    };
    let taken = take_block(alloc, other, &bytes[..], &mut block);
    assert!(rt; taken == Err(BlockFault::Damaged(damage)));
    let damage = Damage {
        file: 3,
        at: 0,
        ..damage
    };
    assert!(rt; read_file(&mut disk, lost, &mut bytes[..]) == Err(BlockFault::Damaged(damage)));
    Ok(())
}

#[test]
fn the_least_recently_used_clean_block_leaves(rt: HostRuntime) -> Result<(), Fail> {
    let alloc = rt.alloc();
    let mut blocks = attached(alloc, disk(alloc, &label_bytes(), 0, &[10])?, 2)?;
    assert!(rt; read(&mut blocks, 0).is_ok());
    assert!(rt; read(&mut blocks, 1).is_ok());
    assert!(rt; read(&mut blocks, 0).is_ok());
    assert!(rt; read(&mut blocks, 2).is_ok());
    assert!(rt; read(&mut blocks, 0).is_ok());
    assert!(rt; read(&mut blocks, 1) == Err(BlockFault::Failed));
    Ok(())
}

/// Draws a block and moves the low position while a call fails, and tells whether an image of the device has of each pair the old
/// or the new content, the new one where a call was whole, and the old one where its selector was not reached.
fn stopped_at(alloc: Global, choice: u64, fail: u64) -> Result<bool, Fail> {
    let mut blocks = attached(alloc, disk(alloc, &label_bytes(), choice, &[fail])?, 2)?;
    let drawn = give(alloc, &mut blocks, 3, b'c');
    let moved = match drawn {
        Ok(()) => move_low(&mut blocks, 9).is_ok(),
        Err(_) => false,
    };
    let mut disk = blocks.into_device();
    disk.restart();
    let mut again = attached(alloc, disk, 2)?;
    let low = again.low();
    let found = read(&mut again, 3);
    let old = found == Ok(Value::new(b"b").ok());
    let new = found == Ok(Value::new(b"c").ok());
    let other = read(&mut again, 4) == Ok(Value::new(b"a").ok());
    Ok(
        (new || (old && drawn.is_err()))
            && (low == 9 || (low == 5 && !moved))
            && (low == 5 || drawn.is_ok())
            && (fail > 3 || old)
            && (fail > 7 || low == 5)
            && other,
    )
}

#[test]
fn a_stop_leaves_the_old_or_the_new(rt: HostRuntime) -> Result<(), Fail> {
    for choice in [0, 1, 5] {
        for fail in 1..10 {
            assert!(rt; stopped_at(rt.alloc(), choice, fail)?);
        }
    }
    Ok(())
}

/// The next number of a row that looks like chance.
fn next_number(seed: u32) -> u32 {
    seed.wrapping_mul(1664525).wrapping_add(1013904223)
}

#[test]
fn a_small_cache_reads_as_plain_blocks(rt: HostRuntime) -> Result<(), Fail> {
    let alloc = rt.alloc();
    let mut blocks = attached(alloc, disk(alloc, &label_bytes(), 0, &[])?, 2)?;
    let mut plain = [b'a'; 16];
    plain[3] = b'b';
    let mut seed = 1;
    for _ in 0..200 {
        seed = next_number(seed);
        let number = ((seed >> 16) % 16) as u8;
        let value = b'c' + ((seed >> 24) % 16) as u8;
        if seed >> 31 == 1 {
            match change(alloc, &mut blocks, number, value) {
                Ok(()) => plain[usize::from(number)] = value,
                Err(_) => return Err(Fail::new("no block was changed")),
            }
        }
        let found = read(&mut blocks, number);
        assert!(rt; found == Ok(Value::new(&[plain[usize::from(number)]]).ok()));
    }
    Ok(())
}

/// Has a block in a cache that is not crowded, and puts another value into it. It tells which block is to be drawn first, if one is.
fn put_value(
    alloc: Global,
    blocks: &mut Blocks<MemDisk>,
    number: u8,
    value: u8,
) -> Result<Option<BlockNo>, BlockFault>
    requires files { blocks_of blocks.old.label.files 1 ≡ 16 }
    requires number { number < 16 }
    ensures label { SameLabel blocks.old blocks.new }
{
    let n = BlockNo {
        file: 1,
        number: u16::from(number),
    };
    match blocks.crowded(n) {
        Some(other) => return Ok(Some(other)),
        None => {}
    }
    let block = content(alloc, 1, number, 16, value)?;
    blocks.load(n)?;
    blocks.put_block(n, block);
    Ok(None)
}

#[test]
fn a_crowded_cache_tells_its_least_recently_used_block(rt: HostRuntime) -> Result<(), Fail> {
    let alloc = rt.alloc();
    let mut blocks = attached(alloc, disk(alloc, &label_bytes(), 0, &[])?, 2)?;
    assert!(rt; put_value(alloc, &mut blocks, 5, b'x') == Ok(None));
    assert!(rt; put_value(alloc, &mut blocks, 4, b'y') == Ok(None));
    let five = BlockNo { file: 1, number: 5 };
    let four = BlockNo { file: 1, number: 4 };
    assert!(rt; blocks.dirty() == Some(four));
    assert!(rt; put_value(alloc, &mut blocks, 6, b'z') == Ok(Some(five)));
    assert!(rt; put_value(alloc, &mut blocks, 5, b'z') == Ok(None));
    assert!(rt; put_value(alloc, &mut blocks, 6, b'z') == Ok(Some(four)));
    Ok(())
}

/// Where block 9 is wrong, as it is read of a file that ends so, and whose block 5 is wrong at its version or not.
fn short_answer(
    alloc: Global,
    length: usize,
    wrong: bool,
) -> Result<Result<Option<Value>, BlockFault>, Fail> {
    let mut file = Vec::new(alloc);
    file.extend_from_slice(&[0; 256])?;
    for number in 0..16 {
        let mut bytes = block_bytes(1, number, b'a');
        if wrong && number == 5 {
            put_in(&mut bytes, 0, &[2]);
        }
        file.extend_from_slice(&bytes)?;
        file.extend_from_slice(&bytes)?;
    }
    file.truncate(length);
    let mut text = Vec::new(alloc);
    text.extend_from_slice(&label_bytes())?;
    match MemDisk::from_files(alloc, vec![in alloc; (1, text), (2, file)]?, 0, &[]) {
        Ok(disk) => {
            let mut blocks = attached(alloc, disk, 2)?;
            Ok(read(&mut blocks, 9))
        }
        Err(_) => Err(Fail::new("no device was made")),
    }
}

/// Where a data file is damaged.
fn bad_block(at: u64) -> Result<Option<Value>, BlockFault> {
    Err(BlockFault::Damaged(Damage {
        file: 2,
        at,
        kind: DamageKind::BadBlock,
    }))
}

#[test]
fn a_short_file_is_wrong_first_at_a_block(rt: HostRuntime) -> Result<(), Fail> {
    let alloc = rt.alloc();
    let table: [(usize, bool, Result<Option<Value>, BlockFault>); 6] = [
        (131328, false, Ok(Value::new(b"a").ok())),
        (131328, true, Ok(Value::new(b"a").ok())),
        (131327, false, bad_block(131327)),
        (131327, true, bad_block(41216)),
        (45312, true, bad_block(41216)),
        (45311, true, bad_block(45311)),
    ];
    for (length, wrong, want) in table {
        let found = short_answer(alloc, length, wrong)?;
        assert!(rt; found == want);
    }
    Ok(())
}

/// What the two files F and G are given: this value in each block.
fn given(alloc: Global, value: u8) -> Result<Vec<FileContents>, Fail>
    ensures all { IfOk result (λ given. AreAllFiles ((1, 2) ∷ (2, 1) ∷ []) given.items) }
{
    let Ok(first) = content(alloc, 1, 0, 2, value) else {
        return Err(Fail::new("no block was made"));
    };
    let Ok(second) = content(alloc, 1, 1, 2, value) else {
        return Err(Fail::new("no block was made"));
    };
    let Ok(third) = content(alloc, 2, 0, 1, value) else {
        return Err(Fail::new("no block was made"));
    };
    let file = FileContents {
        file: 1,
        blocks: Sequence::new(vec![in alloc; first, second]?),
    };
    let other = FileContents {
        file: 2,
        blocks: Sequence::new(vec![in alloc; third]?),
    };
    Ok(vec![in alloc; file, other]?)
}

/// A device with the volume of the files F and G, whose low position is 7 and each of whose blocks has the value `z`. Its call with
/// this number fails.
fn standing(alloc: Global, choice: u64, fail: u64) -> Result<MemDisk, Fail> {
    let mut bytes = [0; 768];
    put_in(&mut bytes, 0, &[1]);
    put_in(&mut bytes, 256, &[1, 1, 1, 2]);
    put_in(&mut bytes, 271, &[7, 1, 0, 0, 2, 2, 0, 0, 1]);
    let mut label = Vec::new(alloc);
    label.extend_from_slice(&bytes)?;
    let mut first = Vec::new(alloc);
    first.extend_from_slice(&[0; 256])?;
    for number in 0..2 {
        first.extend_from_slice(&block_bytes(1, number, b'z'))?;
        first.extend_from_slice(&block_bytes(1, number, b'z'))?;
    }
    let mut second = Vec::new(alloc);
    second.extend_from_slice(&[0; 256])?;
    second.extend_from_slice(&block_bytes(2, 0, b'z'))?;
    second.extend_from_slice(&block_bytes(2, 0, b'z'))?;
    let files = vec![in alloc; (1, label), (2, first), (3, second)]?;
    match MemDisk::from_files(alloc, files, choice, &[fail]) {
        Ok(disk) => Ok(disk),
        Err(_) => Err(Fail::new("no device was made")),
    }
}

/// The blocks of the volume of the files F and G, or the device with the fault that `attach` answers.
fn opened(
    alloc: Global,
    disk: MemDisk,
) -> Result<Result<Blocks<MemDisk>, (MemDisk, AttachFault)>, Fail>
    ensures files { IfOk result (λ r. IfOk r (λ b. b.label.files ≡ (1, 2) ∷ (2, 1) ∷ [])) }
    ensures empty { IfOk result (λ r. IfOk r (λ b. (file number : ℕ) → entry_at b.cache file number ≡ None)) }
    ensures calm { IfOk result (λ r. IfOk r (λ b. IsCalm b.cache)) }
    ensures settled { IfOk result (λ r. IfOk r (λ b. b.label_phase ≡ Settled)) }
{
    let config = two_files(alloc)?;
    Ok(Blocks::attach(alloc, disk, &config, 1, 2))
}

/// Makes the volume anew, with the low position 1 and the value `a` in each block, and tells whether it is done.
fn make_anew(alloc: Global, disk: &mut MemDisk) -> Result<bool, Fail> {
    let config = two_files(alloc)?;
    let Ok(label) = Label::of_volume(alloc, &config, 1, 1) else {
        return Err(Fail::new("no label was made"));
    };
    let mut room = Vec::new(alloc);
    room.extend_from_slice(&[0; BLOCK_BYTES])?;
    let contents = given(alloc, b'a')?;
    Ok(create_volume(disk, &label, contents.as_slice(), &mut room).is_ok())
}

/// Gives the second block of F and the block of G the value `b`, and then the label the low position 9, and tells whether it is done.
fn change_two<D: Disk>(alloc: Global, blocks: &mut Blocks<D>) -> Result<bool, Fail>
    requires files { blocks.old.label.files ≡ (1, 2) ∷ (2, 1) ∷ [] }
    requires empty { (file number : ℕ) → entry_at blocks.old.cache file number ≡ None }
    requires calm { IsCalm blocks.old.cache }
    requires settled { blocks.old.label_phase ≡ Settled }
{
    let Ok(second) = content(alloc, 1, 1, 2, b'b') else {
        return Err(Fail::new("no block was made"));
    };
    let Ok(third) = content(alloc, 2, 0, 1, b'b') else {
        return Err(Fail::new("no block was made"));
    };
    let home = Home {
        file: 1,
        number: 1,
        blocks: 2,
    };
    let other = Home {
        file: 2,
        number: 0,
        blocks: 1,
    };
    let Ok(first) = change_of(alloc, blocks, home, second) else {
        return Ok(false);
    };
    let Ok(next) = change_of(alloc, blocks, other, third) else {
        return Ok(false);
    };
    let row = vec![in alloc; first, next]?;
    Ok(change_volume(blocks, row, 9).is_ok())
}

/// Changes two blocks of the volume and its low position, and tells whether it is done.
fn rewrite(alloc: Global, disk: MemDisk) -> Result<(MemDisk, bool), Fail> {
    match opened(alloc, disk)? {
        Ok(mut blocks) => {
            let done = change_two(alloc, &mut blocks)?;
            Ok((blocks.into_device(), done))
        }
        Err((disk, _)) => Ok((disk, false)),
    }
}

/// How many of the three blocks have this value.
fn count_of(blocks: &mut Blocks<MemDisk>, value: u8) -> u8
    requires files { blocks.old.label.files ≡ (1, 2) ∷ (2, 1) ∷ [] }
    requires calm { IsCalm blocks.old.cache }
    ensures few { result ≤ 3 }
    ensures files { blocks.new.label.files ≡ (1, 2) ∷ (2, 1) ∷ [] }
    ensures calm { IsCalm blocks.new.cache }
{
    let want = Ok(Value::new(&[value]).ok());
    let first = read_in(blocks, 1, 0) == want;
    let second = read_in(blocks, 1, 1) == want;
    let third = read_in(blocks, 2, 0) == want;
    u8::from(first) + u8::from(second) + u8::from(third)
}

/// Whether the volume shows what it may, where it was made anew so far, and rewritten so far.
fn shows_whole(blocks: &mut Blocks<MemDisk>, made: bool, rewritten: bool) -> bool
    requires files { blocks.old.label.files ≡ (1, 2) ∷ (2, 1) ∷ [] }
    requires calm { IsCalm blocks.old.cache }
{
    let low = blocks.low();
    let old = count_of(blocks, b'z');
    let new = count_of(blocks, b'a');
    let next = count_of(blocks, b'b');
    match low {
        7 => !made && old == 3,
        1 => !rewritten && new + next == 3 && (made || next == 0),
        9 => made && new == 1 && next == 2,
        _ => false,
    }
}

/// Makes a volume anew over another one and rewrites it while a call fails, and tells whether an image of the device shows what it may.
fn stopped_volume(alloc: Global, choice: u64, fail: u64) -> Result<bool, Fail> {
    let mut disk = standing(alloc, choice, fail)?;
    let made = make_anew(alloc, &mut disk)?;
    let (mut disk, rewritten) = if made {
        rewrite(alloc, disk)?
    } else {
        (disk, false)
    };
    disk.restart();
    match opened(alloc, disk)? {
        Ok(mut blocks) => {
            let shows = shows_whole(&mut blocks, made, rewritten);
            Ok(shows && rewritten == (fail > 32))
        }
        Err((_, fault)) => Ok(!made && fault == AttachFault::Lost),
    }
}

#[test]
fn a_stop_leaves_a_volume_whole_or_lost(rt: HostRuntime) -> Result<(), Fail> {
    for choice in [0, 1, 5] {
        for fail in 0..33 {
            assert!(rt; stopped_volume(rt.alloc(), choice, fail)?);
        }
        assert!(rt; stopped_volume(rt.alloc(), choice, 99)?);
    }
    Ok(())
}
