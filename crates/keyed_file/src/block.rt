//! Blocks: the records of one block of a file.
ghost use Rattle.std.specs.Prelude.{◌≡◌, ◌≤◌, ◌<◌, [], true, None, Some, IfOk, IfErr, OnOk, OnErr, MatchResult, length, is_ok, bytes_eq, if◌then◌else◌, vec_capacity, ℕ, List};
ghost use Rattle.std.specs.List.{IsDistinct};
ghost use Rattle.tmf_model.specs.Config.{IsWithin};
ghost use Rattle.keyed_file.specs.Block.{KeyedBlock, IsBlock, CanTake, has_room, value_at};
ghost use Rattle.keyed_file.specs.BlockFormat.{HasHome, bad_block, block_text, is_at_home, record_row};
ghost use Rattle.keyed_file.specs.Fault.{IsBlockFault};
ghost use Rattle.keyed_file.specs.Row.{bad_row, row_at};
ghost use Rattle.keyed_file.specs.Search.{with_record};

use crate::block_bytes::{
    HEAD_BYTES, Head, RECORDS, head_fault, head_in, read_records, records_fault, write_head,
    write_records,
};
use crate::fault::{BadBlock, BlockFault, Full, NoMemory};
use crate::home::Home;
use crate::search::{count_new, has_kept, set_record, value_in};
use std::alloc::Global;
use std::marker::Model;
use tmf_model::{Key, Value};

/// The bytes of a block.
pub const BLOCK_BYTES: usize = 4096;

/// One block of a file: its records in rising order of their keys, at most 62, and how many of its disc's
/// changes it holds. It has room for 62 records from the start.
#[derive(Drop)]
pub struct Block {
    file: u8,
    number: u16,
    position: u64,
    records: Vec<(Key, Value)>,
}

impl Model for Block {
    ghost use Rattle.std.specs.Prelude.{◌≤◌, vec_capacity};
    ghost use Rattle.keyed_file.specs.Block.{KeyedBlock, IsBlock};

    ghost Value = { KeyedBlock };

    ghost view = { λ b. record {
      file = b.file;
      number = b.number;
      position = b.position;
      records = b.records.items;
    } };

    ghost invariant = { λ b. (62 ≤ vec_capacity b.records) × IsBlock (record {
      file = b.file;
      number = b.number;
      position = b.position;
      records = b.records.items;
    }) };
}

impl Block {
    /// The block of this file and number without a record, with the position 0.
    pub fn empty(alloc: Global, file: u8, number: u16) -> Result<Block, NoMemory>
        ensures value { IfOk result (λ block. block
            ≡ record { file = file; number = number; position = 0; records = [] }) }
        ensures valid { IfOk result IsBlock }
    {
        match Vec::with_capacity(alloc, usize::from(RECORDS)) {
            Ok(records) => Ok(Block {
                file,
                number,
                position: 0,
                records,
            }),
            Err(_) => Err(NoMemory),
        }
    }

    /// The block that the bytes spell, or the first offset that is wrong. It takes any file, number and position.
    pub fn decode(alloc: Global, bytes: &[u8]) -> Result<Block, BlockFault>
        requires { length bytes.now ≡ BLOCK_BYTES }
        ensures valid { IfOk result IsBlock }
        ensures spelled { IfOk result (λ block. bytes.now ≡ block_text block) }
        ensures only { (block : KeyedBlock) → IsBlock block → bytes.now ≡ block_text block
            → MatchResult result (λ found. found ≡ block) (λ fault. fault ≡ BlockFault.NoMemory) }
        ensures fine { IfOk result (λ _. bad_block None bytes.now ≡ None) }
        ensures cause { IfErr result (IsBlockFault (bad_block None bytes.now)) }
    {
        read_block(alloc, None, bytes)
    }

    /// The same, where the block's file, its number and the blocks of its keys have to be those of a place too.
    pub fn decode_at(alloc: Global, home: Home, bytes: &[u8]) -> Result<Block, BlockFault>
        requires bytes { length bytes.now ≡ BLOCK_BYTES }
        requires blocks { IsWithin 1 256 home.blocks }
        ensures valid { IfOk result IsBlock }
        ensures home { IfOk result (λ block. is_at_home (Some home) block ≡ true) }
        ensures spelled { IfOk result (λ block. bytes.now ≡ block_text block) }
        ensures only { (block : KeyedBlock) → IsBlock block → is_at_home (Some home) block ≡ true
            → bytes.now ≡ block_text block
            → MatchResult result (λ found. found ≡ block) (λ fault. fault ≡ BlockFault.NoMemory) }
        ensures fine { IfOk result (λ _. bad_block (Some home) bytes.now ≡ None) }
        ensures cause { IfErr result (IsBlockFault (bad_block (Some home) bytes.now)) }
    {
        read_block(alloc, Some(home), bytes)
    }

    /// Makes it the block that `decode` gives, or tells the first offset that is wrong. A refused call changes nothing.
    pub fn refill(&mut self, bytes: &[u8]) -> Result<(), BadBlock>
        requires { length bytes.now ≡ BLOCK_BYTES }
        ensures valid { OnOk result (IsBlock self.new) }
        ensures spelled { OnOk result (bytes.now ≡ block_text self.new) }
        ensures only { (block : KeyedBlock) → IsBlock block → bytes.now ≡ block_text block
            → MatchResult result (λ _. self.new ≡ block) (λ _. ⊥) }
        ensures fine { OnOk result (bad_block None bytes.now ≡ None) }
        ensures cause { IfErr result (λ fault. bad_block None bytes.now ≡ Some fault.at) }
        ensures err { OnErr result (self.new ≡ self.old) }
    {
        self.read_again(None, bytes)
    }

    /// Makes it the block that `decode_at` gives, or tells the first offset that is wrong. A refused call changes nothing.
    pub fn refill_at(&mut self, home: Home, bytes: &[u8]) -> Result<(), BadBlock>
        requires bytes { length bytes.now ≡ BLOCK_BYTES }
        requires blocks { IsWithin 1 256 home.blocks }
        ensures valid { OnOk result (IsBlock self.new) }
        ensures home { OnOk result (is_at_home (Some home) self.new ≡ true) }
        ensures spelled { OnOk result (bytes.now ≡ block_text self.new) }
        ensures only { (block : KeyedBlock) → IsBlock block → is_at_home (Some home) block ≡ true
            → bytes.now ≡ block_text block → MatchResult result (λ _. self.new ≡ block) (λ _. ⊥) }
        ensures fine { OnOk result (bad_block (Some home) bytes.now ≡ None) }
        ensures cause { IfErr result (λ fault. bad_block (Some home) bytes.now ≡ Some fault.at) }
        ensures err { OnErr result (self.new ≡ self.old) }
    {
        self.read_again(Some(home), bytes)
    }

    /// Makes it the block that the bytes spell, at home where it has to be, or tells the first offset that is wrong.
    fn read_again(&mut self, home: Option<Home>, bytes: &[u8]) -> Result<(), BadBlock>
        requires bytes { length bytes.now ≡ BLOCK_BYTES }
        requires home { HasHome home }
        ensures valid { OnOk result (IsBlock self.new) }
        ensures home { OnOk result (is_at_home home self.new ≡ true) }
        ensures spelled { OnOk result (bytes.now ≡ block_text self.new) }
        ensures only { (block : KeyedBlock) → IsBlock block → is_at_home home block ≡ true
            → bytes.now ≡ block_text block → MatchResult result (λ _. self.new ≡ block) (λ _. ⊥) }
        ensures fine { OnOk result (bad_block home bytes.now ≡ None) }
        ensures cause { IfErr result (λ fault. bad_block home bytes.now ≡ Some fault.at) }
        ensures err { OnErr result (self.new ≡ self.old) }
    {
        match block_fault(home, bytes) {
            Some(at) => Err(BadBlock { at }),
            None => {
                self.take(home, bytes);
                Ok(())
            }
        }
    }

    /// Makes it the block that bytes with nothing wrong spell at a place.
    pub fn take_at(&mut self, home: Home, bytes: &[u8])
        requires bytes { length bytes.now ≡ BLOCK_BYTES }
        requires blocks { IsWithin 1 256 home.blocks }
        requires fine { bad_block (Some home) bytes.now ≡ None }
        ensures valid { IsBlock self.new }
        ensures home { is_at_home (Some home) self.new ≡ true }
        ensures spelled { bytes.now ≡ block_text self.new }
        ensures only { (block : KeyedBlock) → IsBlock block → is_at_home (Some home) block ≡ true
            → bytes.now ≡ block_text block → self.new ≡ block }
    {
        self.take(Some(home), bytes);
    }

    /// Makes it the block that bytes with nothing wrong spell, at home where it has to be.
    fn take(&mut self, home: Option<Home>, bytes: &[u8])
        requires bytes { length bytes.now ≡ BLOCK_BYTES }
        requires home { HasHome home }
        requires fine { bad_block home bytes.now ≡ None }
        ensures valid { IsBlock self.new }
        ensures home { is_at_home home self.new ≡ true }
        ensures spelled { bytes.now ≡ block_text self.new }
        ensures only { (block : KeyedBlock) → IsBlock block → is_at_home home block ≡ true
            → bytes.now ≡ block_text block → self.new ≡ block }
    {
        let head = head_in(bytes);
        let (_, slots) = bytes.split_at(HEAD_BYTES);
        self.records.clear();
        take_records(home, head.count, slots, &mut self.records);
        self.file = head.file;
        self.number = head.number;
        self.position = head.position;
    }

    /// Makes it the block that `empty` gives, in the room that it has.
    pub fn clear(&mut self, file: u8, number: u16)
        ensures value { self.new ≡ record { file = file; number = number; position = 0; records = [] } }
        ensures valid { IsBlock self.new }
    {
        self.records.clear();
        self.file = file;
        self.number = number;
        self.position = 0;
    }

    /// Writes the block's spelling, which `decode` reads as this block again.
    pub fn encode(&self, into: &mut [u8])
        requires { length into.old ≡ BLOCK_BYTES }
        ensures spelled { into.new ≡ block_text self.now }
        ensures valid { IsBlock self.now }
    {
        let (head, slots) = into.split_at_mut(HEAD_BYTES);
        let fields = Head {
            file: self.file,
            number: self.number,
            position: self.position,
            count: self.records.len() as u16,
        };
        write_head(fields, head);
        write_records(self.records.as_slice(), slots);
    }

    /// The file's number.
    pub fn file(&self) -> u8
        ensures { result ≡ self.now.file }
    {
        self.file
    }

    /// The block's number in its file, from 0.
    pub fn number(&self) -> u16
        ensures { result ≡ self.now.number }
    {
        self.number
    }

    /// How many of its disc's changes the block holds.
    pub fn position(&self) -> u64
        ensures { result ≡ self.now.position }
    {
        self.position
    }

    /// The records in rising order of their keys.
    pub fn records(&self) -> &[(Key, Value)]
        ensures records { result.now ≡ self.now.records }
        ensures valid { IsBlock self.now }
    {
        self.records.as_slice()
    }

    /// The value at the key, if there is one.
    pub fn get(&self, key: &Key) -> Option<Value>
        ensures value { result ≡ value_at self.now key.now }
        ensures valid { IsBlock self.now }
    {
        value_in(self.records.as_slice(), key)
    }

    /// Whether the key has room beside the kept keys, none of which stands there twice: it is present or kept,
    /// or fewer than 62 keys are present or kept.
    pub fn room(&self, key: &Key, kept: &[Key]) -> Result<(), Full>
        requires { IsDistinct bytes_eq kept.now }
        ensures exact { is_ok result ≡ has_room self.now kept.now key.now }
        ensures valid { IsBlock self.now }
    {
        let records = self.records.as_slice();
        if value_in(records, key).is_some() || has_kept(kept, key) {
            return Ok(());
        }
        let left = usize::from(RECORDS) - records.len();
        if count_new(records, kept) < left {
            Ok(())
        } else {
            Err(Full)
        }
    }

    /// Sets the value at the key, or takes its record away, and the position.
    pub fn set(&mut self, key: &Key, value: Option<Value>, position: u64)
        requires { CanTake self.old.records key.now value }
        ensures records { self.new.records ≡ with_record key.now value self.old.records }
        ensures content { (at : List ℕ)
            → value_at self.new at ≡ (if bytes_eq at key.now then value else value_at self.old at) }
        ensures position { self.new.position ≡ position }
        ensures file { self.new.file ≡ self.old.file }
        ensures number { self.new.number ≡ self.old.number }
        ensures valid { IsBlock self.new }
    {
        set_record(&mut self.records, key, value);
        self.position = position;
    }
}

/// The first offset that is wrong in bytes that are to be a block, at home where it has to be.
pub fn block_fault(home: Option<Home>, bytes: &[u8]) -> Option<u16>
    requires bytes { length bytes.now ≡ BLOCK_BYTES }
    requires home { HasHome home }
    ensures { result ≡ bad_block home bytes.now }
{
    if let Some(at) = head_fault(home, bytes) {
        return Some(at);
    }
    let (_, slots) = bytes.split_at(HEAD_BYTES);
    records_fault(home, head_in(bytes).count, slots)
}

/// Reads the records of a block that has nothing wrong.
fn take_records(home: Option<Home>, count: u16, slots: &[u8], records: &mut Vec<(Key, Value)>)
    requires home { HasHome home }
    requires few { count ≤ 62 }
    requires slots { length slots.now ≡ 3968 }
    requires empty { records.old.items ≡ [] }
    requires room { 62 ≤ vec_capacity records.old }
    requires fine { bad_row (record_row home) 128 [] count slots.now ≡ None }
    ensures value { records.new.items ≡ row_at (record_row home) count slots.now }
    ensures room { vec_capacity records.new ≡ vec_capacity records.old }
{
    match read_records(home, count, slots, records) {
        Ok(()) => {}
        Err(_) => unreachable!(),
    }
}

/// The block that the bytes spell, at home where it has to be, or the first offset that is wrong.
fn read_block(alloc: Global, home: Option<Home>, bytes: &[u8]) -> Result<Block, BlockFault>
    requires bytes { length bytes.now ≡ BLOCK_BYTES }
    requires home { HasHome home }
    ensures valid { IfOk result IsBlock }
    ensures home { IfOk result (λ block. is_at_home home block ≡ true) }
    ensures spelled { IfOk result (λ block. bytes.now ≡ block_text block) }
    ensures only { (block : KeyedBlock) → IsBlock block → is_at_home home block ≡ true
        → bytes.now ≡ block_text block
        → MatchResult result (λ found. found ≡ block) (λ fault. fault ≡ BlockFault.NoMemory) }
    ensures fine { IfOk result (λ _. bad_block home bytes.now ≡ None) }
    ensures cause { IfErr result (IsBlockFault (bad_block home bytes.now)) }
{
    if let Some(at) = head_fault(home, bytes) {
        return Err(BlockFault::Bad(BadBlock { at }));
    }
    let mut records = match Vec::with_capacity(alloc, usize::from(RECORDS)) {
        Ok(records) => records,
        Err(_) => return Err(BlockFault::NoMemory),
    };
    let head = head_in(bytes);
    let (_, slots) = bytes.split_at(HEAD_BYTES);
    match read_records(home, head.count, slots, &mut records) {
        Ok(()) => Ok(Block {
            file: head.file,
            number: head.number,
            position: head.position,
            records,
        }),
        Err(at) => Err(BlockFault::Bad(BadBlock { at })),
    }
}
