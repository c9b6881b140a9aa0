//! The blocks of a volume: pairs of slots on its device, and a cache over them.
ghost use Rattle.std.specs.Prelude.{◌≡◌, ◌≢◌, ◌⊎◌, ◌<◌, ◌≤◌, ◌+◌, ◌-◌, ◌∷◌, [], ℕ, Option, None, Some, true, false, IsTrue, OnOk, OnErr, IfSome, IfNone, IfOk, IfErr, IsOk, IsSome, MatchResult, length, slice_get, is_some, vec_len, ⊤};
ghost use Rattle.disk_model.specs.Frame.{IsLater, WorksOn};
ghost use Rattle.disk_model.specs.Held.{HasCause, Rose, IsThere, Elsewhere};
ghost use Rattle.trail_files.specs.Put.{Put, Left};
ghost use Rattle.keyed_file.specs.Block.{CanTake, IsBlock};
ghost use Rattle.keyed_file.specs.BlockFormat.{block_text, is_at_home};
ghost use Rattle.keyed_file.specs.Search.{with_record};
ghost use Rattle.tmf_model.specs.Place.{block_of};
ghost use Rattle.keyed_file.specs.LabelFormat.{IsLabel, label_text};
ghost use Rattle.tmf_model.specs.Config.{IsDeclared, IsValidConfig, IsWithin};
ghost use Rattle.keyed_file.specs.Layout.{block_pair, data_length, label_length, label_pair, slot_at};
ghost use Rattle.keyed_file.specs.Volume.{Contents, blocks_of, label_of};

use crate::cache::Cache;
use crate::data_file::read_file;
use crate::fault::{AttachFault, BlockFault};
use crate::label_file::read_label;
use crate::number::{BlockNo, blocks_in, frames_for};
use crate::pair::{PairPhase, put};
use crate::reading::read_block;
use disk_model::{Disk, DiskFault};
use keyed_file::{BLOCK_BYTES, Block, Home, Label, spelling_length_law};
use std::alloc::Global;
use std::marker::Model;
use tmf_model::{Config, Key, Value};

/// The number of the label's file. The data file of a file has the number of the file behind it.
const LABEL_FILE: u32 = 1;

/// Where the label's selector stands.
const LABEL_SELECTOR: u64 = 1;

/// How many bytes stand in front of a data file's slots, and in front of a label file's.
pub const SELECTORS: u64 = 256;

/// The bytes of a label's slot.
const LABEL_BYTES: usize = 256;

/// The low position of a new volume.
const FIRST_POSITION: u64 = 1;

/// The blocks of one volume.
#[derive(Drop)]
pub struct Blocks<D: Disk> {
    device: Box<D>,
    label: Label,
    label_slot: u8,
    label_phase: PairPhase,
    next_low: u64,
    cache: Cache,
    // Room for the bytes of one block.
    room: Vec<u8>,
}

impl<D: Disk> Model for Blocks<D> {
    ghost use Rattle.std.specs.Prelude.{◌≡◌, vec_len};
    ghost use Rattle.keyed_file.specs.declared.block.TheConstants.{BLOCK_BYTES};
    ghost use Rattle.block_cache.specs.Blocks.{View, IsBlocks};

    ghost Value = { View D };

    ghost view = { λ b. record { device = b.device.value; label = b.label; label_slot = b.label_slot; label_phase = b.label_phase; next_low = b.next_low; cache = b.cache } };

    ghost invariant = { λ b. (vec_len b.room ≡ BLOCK_BYTES)
        × IsBlocks D.tells D.held (record { device = b.device.value; label = b.label; label_slot = b.label_slot; label_phase = b.label_phase; next_low = b.next_low; cache = b.cache }) };
}

/// Where a slot of a block stands in its data file.
pub fn slot_offset(number: u16, slot: u8) -> u64
    requires slot { slot < 2 }
    requires number { number < 256 }
    ensures at { (file : ℕ) → result ≡ slot_at (block_pair file number) slot }
    ensures small { result < 4611686018427387904 }
{
    SELECTORS + (2 * u64::from(number) + u64::from(slot)) * BLOCK_BYTES as u64
}

/// Writes a block's content into a slot of its pair and syncs it.
fn write_content<D: Disk>(
    device: &mut D,
    n: BlockNo,
    slot: u8,
    content: &Block,
    room: &mut Vec<u8>,
) -> Result<(), DiskFault>
    requires slot { slot < 2 }
    requires number { n.number < 256 }
    requires room { vec_len room.old ≡ BLOCK_BYTES }
    requires there { IsTrue (D.tells device.old) → IsThere (D.held device.old) (1 + n.file) (λ f. slot_at (block_pair n.file n.number) slot ≤ length f.bytes) }
    ensures room { vec_len room.new ≡ BLOCK_BYTES }
    ensures device { D.is_same device.old device.new }
    ensures tells { D.tells device.new ≡ D.tells device.old }
    ensures others { IsTrue (D.tells device.old) → Elsewhere (1 + n.file) (D.held device.old) (D.held device.new) }
    ensures ok { IsTrue (D.tells device.old) → OnOk result (Put (1 + n.file) (D.held device.old) (D.held device.new) (slot_at (block_pair n.file n.number) slot) (block_text content.now)) }
    ensures err { IsTrue (D.tells device.old) → OnErr result (Left (1 + n.file) (D.held device.old) (D.held device.new) (slot_at (block_pair n.file n.number) slot) (block_text content.now)) }
    ensures long { length (block_text content.now) ≡ BLOCK_BYTES }
    ensures valid { IsBlock content.now }
    ensures cause { HasCause (D.faults device.old) (D.faults device.new) result }
{
    let bytes = &mut room[..];
    content.encode(bytes);
    put(
        device,
        u32::from(n.file) + 1,
        slot_offset(n.number, slot),
        bytes,
    )
}

/// Names a slot of a block's pair by its selector, and syncs it.
fn write_selector<D: Disk>(device: &mut D, n: BlockNo, slot: u8) -> Result<(), DiskFault>
    requires { IsTrue (D.tells device.old) → IsThere (D.held device.old) (1 + n.file) (λ f. n.number ≤ length f.bytes) }
    ensures device { D.is_same device.old device.new }
    ensures tells { D.tells device.new ≡ D.tells device.old }
    ensures others { IsTrue (D.tells device.old) → Elsewhere (1 + n.file) (D.held device.old) (D.held device.new) }
    ensures ok { IsTrue (D.tells device.old) → OnOk result (Put (1 + n.file) (D.held device.old) (D.held device.new) n.number (slot ∷ [])) }
    ensures err { IsTrue (D.tells device.old) → OnErr result (Left (1 + n.file) (D.held device.old) (D.held device.new) n.number (slot ∷ [])) }
    ensures cause { HasCause (D.faults device.old) (D.faults device.new) result }
{
    put(device, u32::from(n.file) + 1, u64::from(n.number), &[slot])
}

/// Writes a label into a slot of its pair and syncs it.
fn write_label<D: Disk>(
    device: &mut D,
    slot: u8,
    label: &Label,
    room: &mut Vec<u8>,
) -> Result<(), DiskFault>
    requires slot { slot < 2 }
    requires label { IsLabel label.now }
    requires room { vec_len room.old ≡ BLOCK_BYTES }
    requires there { IsTrue (D.tells device.old) → IsThere (D.held device.old) 1 (λ f. slot_at label_pair slot ≤ length f.bytes) }
    ensures room { vec_len room.new ≡ BLOCK_BYTES }
    ensures device { D.is_same device.old device.new }
    ensures tells { D.tells device.new ≡ D.tells device.old }
    ensures others { IsTrue (D.tells device.old) → Elsewhere 1 (D.held device.old) (D.held device.new) }
    ensures ok { IsTrue (D.tells device.old) → OnOk result (Put 1 (D.held device.old) (D.held device.new) (slot_at label_pair slot) (label_text label.now)) }
    ensures err { IsTrue (D.tells device.old) → OnErr result (Left 1 (D.held device.old) (D.held device.new) (slot_at label_pair slot) (label_text label.now)) }
    ensures long { length (label_text label.now) ≡ 256 }
    ensures cause { HasCause (D.faults device.old) (D.faults device.new) result }
{
    let bytes = &mut room[..LABEL_BYTES];
    label.encode(bytes);
    put(
        device,
        LABEL_FILE,
        SELECTORS + u64::from(slot) * LABEL_BYTES as u64,
        bytes,
    )
}

impl<D: Disk> Blocks<D> {
    ghost use Rattle.block_cache.specs.Blocks.{View, Holds, IsBlocks, InCache, IfCached, IsLoaded, OnlyReads, SameLabel, WritesLabel, MayShow, MayShowContents, content_in, home_of, is_changed, is_half_drawn, with_content, with_low};
    ghost use Rattle.keyed_file.specs.declared.label.Label.{Label};
    ghost use Rattle.keyed_file.specs.Layout.{selected_by};
    ghost use Rattle.block_cache.specs.Shown.{byte_at, shown_in, shown_low};
    ghost use Rattle.block_cache.specs.Damage.{BlockCause, TellsBlock, bad_data_in};
    ghost use Rattle.block_cache.specs.OnePiece.{AreFileBytes};
    ghost use Rattle.block_cache.specs.Shows.{NamesSlot, SpellsContent};
    ghost use Rattle.block_cache.specs.Drawn.{EndsDraw, KeepsOthers};
    ghost use Rattle.disk_model.specs.Held.{Held, Leaves};
    ghost use Rattle.block_cache.specs.LabelDamage.{TellsAttach};
    ghost use Rattle.block_cache.specs.Opened.{IsOpened, StandsOpened};
    ghost use Rattle.keyed_file.specs.Volume.{SpellsVolume};
    ghost use Rattle.block_cache.specs.Rest.{KeepsRest};
    ghost use Rattle.block_cache.specs.Volume.{RestsFor};
    ghost use Rattle.block_cache.specs.Cache.{IsPlaced, KeepsFrames, Loads, Replaces, Serves, SetsEntry, entry_at, frame_at, is_dirty, is_settled, place_of, victim_of};
    ghost use Rattle.block_cache.specs.declared.frame.Frame.{Frame};

    /// The blocks of a volume of a configuration. None of them is in the cache, which has room for `cache` blocks, or for all that the
    /// volume has if they are fewer. Later calls take no memory.
    pub fn attach(
        alloc: Global,
        mut device: D,
        config: &Config,
        volume: u8,
        cache: u32,
    ) -> Result<Blocks<D>, (D, AttachFault)>
        requires config { IsValidConfig config.now }
        requires volume { IsDeclared config.now.volumes volume }
        requires cache { 1 ≤ cache }
        ensures keeps { MatchResult result (λ b. IsLater D.Disk device b.device)
            (λ e. IsLater D.Disk device e.0) }
        ensures same { MatchResult result (λ b. D.held b.device ≡ D.held device)
            (λ e. D.held e.0 ≡ D.held device) }
        ensures opened { IfOk result (IsOpened D.tells D.held config.now volume cache) }
        ensures stands { IsTrue (D.tells device) → IfOk result (StandsOpened D.held (label_of config.now volume 1)) }
        ensures fault { IsTrue (D.tells device) → IfErr result (λ e. TellsAttach (label_of config.now volume 1) (D.held device) e.1) }
        ensures cause { IfErr result (λ e. e.1 ≡ AttachFault.Failed → Rose (D.faults device) (D.faults e.0)) }
    {
        Self::at_rest();
        let Ok(wanted) = Label::of_volume(alloc, config, volume, FIRST_POSITION) else {
            return Err((device, AttachFault::NoMemory));
        };
        match read_label(alloc, &wanted, &mut device) {
            Ok((label, slot)) => {
                let frames = frames_for(&label, cache);
                Self::open(alloc, device, label, slot, frames)
            }
            Err(fault) => Err((device, fault)),
        }
    }

    /// The blocks of a volume with this label, which stands in this slot of its pair. None of them is in the cache. Later calls take
    /// no memory.
    fn open(
        alloc: Global,
        device: D,
        label: Label,
        slot: u8,
        frames: u16,
    ) -> Result<Blocks<D>, (D, AttachFault)>
        requires label { IsLabel label }
        requires slot { slot < 2 }
        requires frames { IsWithin 1 4096 frames }
        requires there { IsTrue (D.tells device) → IsThere (D.held device) 1 (λ f. label_length ≤ length f.bytes) }
        ensures device { IfOk result (λ b. b.device ≡ device) }
        ensures label { IfOk result (λ b. (b.label ≡ label) × (b.label_slot ≡ slot) × (b.label_phase ≡ PairPhase.Settled)) }
        ensures empty { IfOk result (λ b. (file number : ℕ) → entry_at b.cache file number ≡ None) }
        ensures count { IfOk result (λ b. length b.cache.frames ≡ frames) }
        ensures valid { IfOk result (IsBlocks D.tells D.held) }
        ensures err { IfErr result (λ e. (e.0 ≡ device) × (e.1 ≡ AttachFault.NoMemory)) }
    {
        let Ok(cache) = Cache::new(alloc, frames) else {
            return Err((device, AttachFault::NoMemory));
        };
        let Ok(room) = vec![in alloc; 0; BLOCK_BYTES] else {
            return Err((device, AttachFault::NoMemory));
        };
        let next_low = label.low;
        match Box::new(alloc, device) {
            Ok(device) => Ok(Blocks {
                device,
                label,
                label_slot: slot,
                label_phase: PairPhase::Settled,
                next_low,
                cache,
                room,
            }),
            Err(failed) => Err((failed.value, AttachFault::NoMemory)),
        }
    }

    /// The frame of a block that is in the cache.
    fn frame_of(&self, n: BlockNo) -> u16
        requires { InCache self.now.cache n.file n.number (λ f. ⊤) }
        ensures within { result < length self.now.cache.frames }
        ensures frame { IfCached self.now.cache n.file n.number (λ f. slice_get self.now.cache.frames result ≡ Some f) }
        ensures place { frame_at self.now.cache (place_of n.file n.number) ≡ Some result }
        ensures valid { IsBlocks D.tells D.held self.now }
    {
        match self.cache.find(n) {
            Some(frame) => frame,
            None => unreachable!(),
        }
    }

    /// Has a block in the cache, and counts it as used just now. Where it was not there it is read into the frame that gives way.
    pub fn load(&mut self, n: BlockNo) -> Result<(), BlockFault>
        requires block { n.number < blocks_of self.old.label.files n.file }
        requires room { entry_at self.old.cache n.file n.number ≡ None → IsSome (victim_of self.old.cache) }
        ensures holds { (landed next : Contents) → IsTrue (D.tells self.old.device) → Holds D.held self.old landed next → Holds D.held self.new landed next }
        ensures loaded { OnOk result (IsLoaded self.old.cache self.new.cache n.file n.number) }
        ensures content { (landed next : Contents) → IsTrue (D.tells self.old.device) → Holds D.held self.old landed next
            → OnOk result (IfCached self.new.cache n.file n.number (λ f. f.block ≡ content_in (entry_at self.old.cache n.file n.number) (landed n.file n.number))) }
        ensures damage { IsTrue (D.tells self.old.device) → MatchResult result
            (λ _. entry_at self.old.cache n.file n.number ≡ None → bad_data_in (home_of self.old n.file n.number) (D.held self.old.device (1 + n.file)) ≡ None)
            (TellsBlock (home_of self.old n.file n.number) (D.held self.old.device)) }
        ensures shows { IsTrue (D.tells self.old.device) → OnOk result (entry_at self.old.cache n.file n.number ≡ None
            → IfCached self.new.cache n.file n.number (λ f. SpellsContent (home_of self.old n.file n.number) f.block (D.held self.old.device))) }
        ensures cache_err { OnErr result (self.new.cache ≡ self.old.cache) }
        ensures missed { OnErr result (entry_at self.old.cache n.file n.number ≡ None) }
        ensures reads { OnlyReads D.Disk self.old self.new }
        ensures cause { IfErr result (BlockCause (D.faults self.old.device) (D.faults self.new.device)) }
    {
        match self.cache.find(n) {
            Some(frame) => {
                self.cache.touch(frame);
                Ok(())
            }
            None => {
                let home = Home {
                    file: n.file,
                    number: n.number,
                    blocks: blocks_in(self.label.files.as_slice(), n.file),
                };
                let slot = read_block(&mut *self.device, home, &mut self.room)?;
                self.cache.replace(home, slot, self.room.as_slice());
                Ok(())
            }
        }
    }

    /// Reads the data file of a block as far as its blocks reach, by one call of the device. It passes over the cache.
    pub fn read_file(&mut self, home: Home, bytes: &mut [u8]) -> Result<(), BlockFault>
        requires blocks { IsWithin 1 256 home.blocks }
        requires room { length bytes.old ≡ data_length home.blocks }
        ensures room { length bytes.new ≡ data_length home.blocks }
        ensures told { IsTrue (D.tells self.old.device) → MatchResult result (λ _. AreFileBytes home (D.held self.old.device) bytes.new) (TellsBlock home (D.held self.old.device)) }
        ensures holds { (landed next : Contents) → Holds D.held self.old landed next → Holds D.held self.new landed next }
        ensures cache { self.new.cache ≡ self.old.cache }
        ensures reads { OnlyReads D.Disk self.old self.new }
        ensures cause { IfErr result (BlockCause (D.faults self.old.device) (D.faults self.new.device)) }
    {
        read_file(&mut *self.device, home, bytes)
    }

    /// The content of a block that is in the cache: what was last put, or else what its selected slot spells.
    pub fn get(&self, n: BlockNo) -> &Block
        requires { InCache self.now.cache n.file n.number (λ f. ⊤) }
        ensures content { IfCached self.now.cache n.file n.number (λ f. result.now ≡ f.block) }
        ensures valid { IsBlocks D.tells D.held self.now }
    {
        &self.cache.frame(self.frame_of(n)).block
    }

    /// Puts another content into a block that is in the cache: it is to be drawn.
    pub fn put_block(&mut self, n: BlockNo, content: Block)
        requires cached { InCache self.old.cache n.file n.number (λ f. ⊤) }
        requires home { is_at_home (Some (record { file = n.file; number = n.number; blocks = blocks_of self.old.label.files n.file })) content ≡ true }
        ensures holds { (landed next : Contents) → Holds D.held self.old landed next → Holds D.held self.new landed next }
        ensures cache { IfCached self.old.cache n.file n.number (λ f. SetsEntry self.old.cache self.new.cache n.file n.number (record f { block = content; dirty = true })) }
        ensures frames { KeepsFrames self.old.cache self.new.cache }
        ensures label { SameLabel self.old self.new }
        ensures device { self.new.device ≡ self.old.device }
        ensures valid { IsBlocks D.tells D.held self.new }
    {
        let frame = self.frame_of(n);
        self.cache.put(frame, content);
    }

    /// Has a block that is not in the cache there with this content, which is to be drawn. Nothing is read: the slot that its selector names is
    /// told.
    pub fn place(&mut self, n: BlockNo, slot: u8, content: Block)
        requires block { n.number < blocks_of self.old.label.files n.file }
        requires room { IsSome (victim_of self.old.cache) }
        requires home { is_at_home (Some (home_of self.old n.file n.number)) content ≡ true }
        requires uncached { entry_at self.old.cache n.file n.number ≡ None }
        requires slot { slot < 2 }
        requires named { IsTrue (D.tells self.old.device) → NamesSlot (home_of self.old n.file n.number) slot (D.held self.old.device) }
        ensures holds { (landed next : Contents) → IsTrue (D.tells self.old.device) → Holds D.held self.old landed next → Holds D.held self.new landed next }
        ensures placed { (f : Frame) × Replaces self.old.cache self.new.cache n.file n.number f × IsPlaced slot content f }
        ensures serves { Serves self.old.cache self.new.cache n.file n.number }
        ensures label { SameLabel self.old self.new }
        ensures device { self.new.device ≡ self.old.device }
        ensures valid { IsBlocks D.tells D.held self.new }
    {
        self.cache.place(n, slot, content);
    }

    /// Makes a change in a block that is in the cache: it is to be drawn.
    pub fn set(&mut self, n: BlockNo, key: &Key, value: Option<Value>, position: u64)
        requires cached { InCache self.old.cache n.file n.number (λ f. CanTake f.block.records key.now value) }
        requires home { block_of key.now (blocks_of self.old.label.files n.file) ≡ n.number }
        ensures holds { (landed next : Contents) → Holds D.held self.old landed next → Holds D.held self.new landed next }
        ensures cache { IfCached self.old.cache n.file n.number (λ f. SetsEntry self.old.cache self.new.cache n.file n.number
            (record f { block = record f.block { records = with_record key.now value f.block.records; position = position }; dirty = true })) }
        ensures frames { KeepsFrames self.old.cache self.new.cache }
        ensures label { SameLabel self.old self.new }
        ensures device { self.new.device ≡ self.old.device }
        ensures valid { IsBlocks D.tells D.held self.new }
    {
        let frame = self.frame_of(n);
        self.cache.set(frame, key, value, position);
    }

    /// Writes a dirty block's content into the idle slot of its pair and syncs it. The block is then half drawn: every image
    /// still has the content that landed last.
    pub fn draw_body(&mut self, n: BlockNo) -> Result<(), DiskFault>
        requires { InCache self.old.cache n.file n.number (λ f. (f.dirty ≡ true) × (f.phase ≡ PairPhase.Settled)) }
        ensures drawn { (landed next : Contents) → IsTrue (D.tells self.old.device) → Holds D.held self.old landed next
            → OnOk result (IfCached self.old.cache n.file n.number (λ f. Holds D.held self.new landed (with_content next n.file n.number f.block))) }
        ensures err { (landed next : Contents) → IsTrue (D.tells self.old.device) → Holds D.held self.old landed next
            → OnErr result (Holds D.held self.new landed next) }
        ensures rests { IsTrue (D.tells self.old.device) → OnOk result (KeepsRest self.old.label (D.held self.old.device) (D.held self.new.device)) }
        ensures cache { OnOk result (IfCached self.old.cache n.file n.number (λ f. SetsEntry self.old.cache self.new.cache n.file n.number (record f { dirty = false; phase = PairPhase.Written }))) }
        ensures cache_err { OnErr result (self.new.cache ≡ self.old.cache) }
        ensures frame { KeepsOthers D.Disk self.old self.new n.file n.number }
        ensures works { WorksOn D.Disk self.old.device self.new.device result }
    {
        let frame = self.frame_of(n);
        let from = self.cache.frame(frame);
        let slot = from.slot;
        write_content(&mut *self.device, n, 1 - slot, &from.block, &mut self.room)?;
        self.cache.mark(frame, false, PairPhase::Written, slot);
        Ok(())
    }

    /// Whether a block's next content is written, and its selector has not named it yet.
    pub fn half_drawn(&self, n: BlockNo) -> bool
        requires { n.number < blocks_of self.now.label.files n.file }
        ensures { result ≡ is_half_drawn (entry_at self.now.cache n.file n.number) }
    {
        match self.cache.find(n) {
            Some(frame) => self.cache.frame(frame).phase != PairPhase::Settled,
            None => false,
        }
    }

    /// Whether a block was put since its content was written last.
    pub fn is_changed(&self, n: BlockNo) -> bool
        requires { n.number < blocks_of self.now.label.files n.file }
        ensures { result ≡ is_changed (entry_at self.now.cache n.file n.number) }
    {
        match self.cache.find(n) {
            Some(frame) => self.cache.frame(frame).dirty,
            None => false,
        }
    }

    /// The block that is to be drawn before this one can be loaded: the least recently used one, where no frame gives way.
    pub fn crowded(&self, n: BlockNo) -> Option<BlockNo>
        requires { n.number < blocks_of self.now.label.files n.file }
        ensures none { IfNone result (entry_at self.now.cache n.file n.number ≡ None → IsSome (victim_of self.now.cache)) }
        ensures some { IfSome result (λ m. InCache self.now.cache m.file m.number (λ f. is_dirty f ≡ true)) }
        ensures exact { IfSome result (λ m. (entry_at self.now.cache n.file n.number ≡ None) × (victim_of self.now.cache ≡ None) × (frame_at self.now.cache (place_of m.file m.number) ≡ slice_get self.now.cache.order 0)) }
        ensures valid { IsBlocks D.tells D.held self.now }
    {
        if self.cache.find(n).is_some() {
            return None;
        }
        let place = self.cache.crowded()?;
        Some(BlockNo {
            file: (place / 256) as u8,
            number: place % 256,
        })
    }

    /// The first block, in the order of the files and of their blocks, that is to be drawn, or whose draw is to be ended.
    pub fn dirty(&self) -> Option<BlockNo>
        ensures some { IfSome result (λ n. InCache self.now.cache n.file n.number (λ f. is_dirty f ≡ true)) }
        ensures least { (file number : ℕ) → InCache self.now.cache file number (λ f. is_dirty f ≡ true)
            → IfSome result (λ n. place_of n.file n.number ≤ place_of file number) × IsSome result }
        ensures valid { IsBlocks D.tells D.held self.now }
    {
        let place = self.cache.first_dirty()?;
        Some(BlockNo {
            file: (place / 256) as u8,
            number: place % 256,
        })
    }

    /// Names a half-drawn block's next content by its selector, and syncs it: it has then landed. After a fault an image has the
    /// content that landed before or this one, and the next call tries again.
    pub fn draw_select(&mut self, n: BlockNo) -> Result<(), DiskFault>
        requires { InCache self.old.cache n.file n.number (λ f. is_settled f.phase ≡ false) }
        ensures drawn { (landed next : Contents) → IsTrue (D.tells self.old.device) → Holds D.held self.old landed next
            → OnOk result (Holds D.held self.new (with_content landed n.file n.number (next n.file n.number)) next) }
        ensures err { (landed next : Contents) → IsTrue (D.tells self.old.device) → Holds D.held self.old landed next
            → OnErr result (Holds D.held self.new landed next) }
        ensures reads { IsTrue (D.tells self.old.device) → OnOk result (EndsDraw D.held self.old self.new n.file n.number) }
        ensures cache { OnOk result (IfCached self.old.cache n.file n.number (λ f. SetsEntry self.old.cache self.new.cache n.file n.number (record f { phase = PairPhase.Settled; slot = 1 - f.slot }))) }
        ensures cache_err { OnErr result (IfCached self.old.cache n.file n.number (λ f. SetsEntry self.old.cache self.new.cache n.file n.number (record f { phase = PairPhase.Offered }))) }
        ensures frame { KeepsOthers D.Disk self.old self.new n.file n.number }
        ensures works { WorksOn D.Disk self.old.device self.new.device result }
    {
        let frame = self.frame_of(n);
        let from = self.cache.frame(frame);
        let slot = from.slot;
        let dirty = from.dirty;
        match write_selector(&mut *self.device, n, 1 - slot) {
            Ok(()) => {
                self.cache.mark(frame, dirty, PairPhase::Settled, 1 - slot);
                Ok(())
            }
            Err(fault) => {
                self.cache.mark(frame, dirty, PairPhase::Offered, slot);
                Err(fault)
            }
        }
    }

    /// What each image of a volume's blocks spells: a volume that has of each block the content that landed last, or the one under
    /// way where its selector was offered; the same of the low position.
    pub fn every_image()
        ensures volume { (view : View D) (landed next : Contents) (image : Held) → IsLabel view.label → IsWithin 1 4611686018427387904 view.next_low
            → Holds D.held view landed next → Leaves (D.held view.device) image
            → SpellsVolume (with_low view.label (shown_low image view)) image (shown_in image view landed next) }
        ensures contents { (view : View D) (landed next : Contents) (image : Held) → IsLabel view.label → IsWithin 1 4611686018427387904 view.next_low
            → Holds D.held view landed next → Leaves (D.held view.device) image
            → MayShowContents view landed next (shown_in image view landed next) }
        ensures low { (view : View D) (image : Held)
            → MayShow view.label_phase view.label.low view.next_low (shown_low image view) }
    {}

    /// What holds of the blocks of each volume.
    pub fn always(&self)
        ensures { IsBlocks D.tells D.held self.now }
    {
        let _label = &self.label;
    }

    /// The low position that has landed.
    pub fn low(&self) -> u64
        ensures { result ≡ self.now.label.low }
    {
        self.label.low
    }

    /// Writes a label with this low position into the idle slot of the label's pair and syncs it. Every image still has the label
    /// that landed last.
    pub fn low_body(&mut self, low: u64) -> Result<(), DiskFault>
        requires low { IsWithin 1 4611686018427387904 low }
        requires settled { self.old.label_phase ≡ PairPhase.Settled }
        ensures holds { (landed next : Contents) → IsTrue (D.tells self.old.device) → Holds D.held self.old landed next → Holds D.held self.new landed next }
        ensures rests { IsTrue (D.tells self.old.device) → OnOk result (KeepsRest self.old.label (D.held self.old.device) (D.held self.new.device)) }
        ensures phase { OnOk result ((self.new.label_phase ≡ PairPhase.Written) × (self.new.next_low ≡ low)) }
        ensures phase_err { OnErr result (self.new.label_phase ≡ PairPhase.Settled) }
        ensures label { (self.new.label ≡ self.old.label) × (self.new.label_slot ≡ self.old.label_slot) }
        ensures frame { WritesLabel D.Disk self.old self.new }
        ensures works { WorksOn D.Disk self.old.device self.new.device result }
    {
        let landed = self.label.low;
        self.label.low = low;
        let written = write_label(
            &mut *self.device,
            1 - self.label_slot,
            &self.label,
            &mut self.room,
        );
        self.label.low = landed;
        match written {
            Ok(()) => {
                self.next_low = low;
                self.label_phase = PairPhase::Written;
                Ok(())
            }
            Err(fault) => Err(fault),
        }
    }

    /// Names the label that was written last by its selector, and syncs it: it has then landed. After a fault an image has the
    /// label that landed before or this one, and the next call tries again.
    pub fn low_select(&mut self) -> Result<(), DiskFault>
        requires { is_settled self.old.label_phase ≡ false }
        ensures holds { (landed next : Contents) → IsTrue (D.tells self.old.device) → Holds D.held self.old landed next → Holds D.held self.new landed next }
        ensures rests { IsTrue (D.tells self.old.device) → OnOk result (KeepsRest self.old.label (D.held self.old.device) (D.held self.new.device)) }
        ensures label { OnOk result ((self.new.label ≡ with_low self.old.label self.old.next_low) × (self.new.label_phase ≡ PairPhase.Settled)) }
        ensures label_err { OnErr result ((self.new.label ≡ self.old.label) × (self.new.label_phase ≡ PairPhase.Offered)) }
        ensures next_low { self.new.next_low ≡ self.old.next_low }
        ensures frame { WritesLabel D.Disk self.old self.new }
        ensures works { WorksOn D.Disk self.old.device self.new.device result }
    {
        let other = 1 - self.label_slot;
        match put(&mut *self.device, LABEL_FILE, LABEL_SELECTOR, &[other]) {
            Ok(()) => {
                self.label.low = self.next_low;
                self.label_slot = other;
                self.label_phase = PairPhase::Settled;
                Ok(())
            }
            Err(fault) => {
                self.label_phase = PairPhase::Offered;
                Err(fault)
            }
        }
    }

    /// The device of the volume.
    pub fn into_device(self) -> D
        ensures { result ≡ self.device }
    {
        let Blocks { device, .. } = self;
        Box::into_inner(device)
    }

    /// What holds of a device at rest that spells a volume: it holds its contents, and so does each image of it.
    pub fn at_rest()
        ensures holds { (view : View D) (contents : Contents) → SpellsVolume view.label (D.held view.device) contents → RestsFor view.label (D.held view.device)
            → view.label_phase ≡ PairPhase.Settled → view.label_slot ≡ selected_by (byte_at (D.held view.device 1) 1)
            → ((file number : ℕ) → number < 256 → entry_at view.cache file number ≡ None) → Holds D.held view contents contents }
        ensures image { (label : Label) (held image : Held) (contents : Contents) → SpellsVolume label held contents → RestsFor label held → Leaves held image
            → SpellsVolume label image contents }
    {
        spelling_length_law();
    }
}
