//! A bounded cache of blocks: frames in the order of their last use, and a table that says which frame has which block.
ghost use Rattle.std.specs.Prelude.{◌≡◌, ◌≢◌, ◌<◌, ◌≤◌, ◌+◌, ◌*◌, ◌↔◌, ℕ, true, false, length, slice_get, slice_set, None, Some, IfOk, IfSome, IfNone, IsSome, IsTrue, OnOk, OnErr, MatchOption, find, reverse, option_map};
ghost use Rattle.keyed_file.specs.Block.{CanTake, KeyedBlock, IsBlock};
ghost use Rattle.keyed_file.specs.Search.{with_record};
ghost use Rattle.tmf_model.specs.Config.{IsWithin};
ghost use Rattle.keyed_file.specs.declared.block.TheConstants.{BLOCK_BYTES};
ghost use Rattle.keyed_file.specs.BlockFormat.{bad_block};
ghost use Rattle.block_cache.specs.Cache.{CacheView, IsCache, IsFrame, Evicts, IsTaken, Replaces, Serves, SetsEntry, IsPlaced, entry_at, frame_at, is_clean, is_dirty, place_of, used_last, victim_of};
ghost use Rattle.block_cache.specs.declared.frame.Frame.{Frame};

use crate::frame::Frame;
use crate::number::BlockNo;
use crate::pair::PairPhase;
use keyed_file::{BadBlock, Block, Home, NoMemory};
use lru::LruCache;
use std::alloc::Global;
use std::marker::Model;
use std::num::NonZeroUsize;
use tmf_model::{Key, Value};

/// The places of a volume's blocks: 256 for each file, by its number from 0 to 16.
const PLACES: usize = 4352;

/// The frames of a volume's cache.
#[derive(Drop)]
pub struct Cache {
    table: Vec<Option<u16>>,
    frames: Vec<Frame>,
    order: LruCache<u16, ()>,
}

impl Model for Cache {
    ghost use Rattle.std.specs.Map.{keys_of};
    ghost use Rattle.std.specs.Prelude.{reverse};
    ghost use Rattle.block_cache.specs.Cache.{CacheView, IsCache};

    ghost Value = { CacheView };

    ghost view = { λ c. record { table = c.table.items; frames = c.frames.items; order = keys_of (reverse c.order.entries) } };

    ghost invariant = { λ c. IsCache (record { table = c.table.items; frames = c.frames.items; order = keys_of (reverse c.order.entries) }) };
}

/// The place of a block among those of its volume.
fn place_of_block(n: BlockNo) -> u16
    requires file { n.file ≤ 16 }
    requires number { n.number < 256 }
    ensures { result ≡ place_of n.file n.number }
{
    u16::from(n.file) * 256 + n.number
}

/// Whether a frame's block need not be drawn.
fn is_clean(frames: &[Frame], frame: u16) -> bool
    ensures { result ≡ is_clean frames.now frame }
{
    match frames.get(usize::from(frame)) {
        Some(f) => !f.dirty && f.phase == PairPhase::Settled,
        None => false,
    }
}

/// The least recently used frame whose block need not be drawn.
fn oldest_clean(order: &LruCache<u16, ()>, frames: &[Frame]) -> Option<u16>
    ensures { result ≡ option_map (λ e. e.0) (find (λ e. is_clean frames.now e.0) (reverse order.now.entries)) }
{
    for (frame, _) in order.iter().rev() {
        if is_clean(frames, *frame) {
            return Some(*frame);
        }
    }
    None
}

/// A frame without a block.
fn free_frame(alloc: Global) -> Result<Frame, NoMemory>
    ensures { IfOk result (λ f. (f.place ≡ None) × (f.dirty ≡ false) × (f.phase ≡ PairPhase.Settled) × (f.slot ≡ 0)) }
{
    let block = Block::empty(alloc, 0, 0)?;
    Ok(Frame {
        place: None,
        block,
        dirty: false,
        phase: PairPhase::Settled,
        slot: 0,
    })
}

impl Cache {
    /// A cache of so many frames, none of which has a block. Later calls take no memory.
    pub fn new(alloc: Global, count: u16) -> Result<Cache, NoMemory>
        requires { IsWithin 1 4096 count }
        ensures empty { IfOk result (λ c. (file number : ℕ) → entry_at c file number ≡ None) }
        ensures count { IfOk result (λ c. length c.frames ≡ count) }
        ensures valid { IfOk result IsCache }
    {
        let Ok(table) = vec![in alloc; None; PLACES] else {
            return Err(NoMemory);
        };
        let Ok(mut frames) = Vec::with_capacity(alloc, usize::from(count)) else {
            return Err(NoMemory);
        };
        let Some(capacity) = NonZeroUsize::new(usize::from(count)) else {
            unreachable!()
        };
        let Ok(mut order) = LruCache::new(alloc, capacity) else {
            return Err(NoMemory);
        };
        for frame in 0..count {
            frames.push_reserved(free_frame(alloc)?);
            let Ok(_) = order.put(frame, ()) else {
                return Err(NoMemory);
            };
        }
        Ok(Cache {
            table,
            frames,
            order,
        })
    }

    /// The frame of a block, if it is in the cache.
    pub fn find(&self, n: BlockNo) -> Option<u16>
        requires file { n.file ≤ 16 }
        requires number { n.number < 256 }
        ensures frame { result ≡ frame_at self.now (place_of n.file n.number) }
        ensures within { IfSome result (λ frame. frame < length self.now.frames) }
        ensures valid { IsCache self.now }
    {
        self.table[usize::from(place_of_block(n))]
    }

    /// A frame.
    pub fn frame(&self, frame: u16) -> &Frame
        requires { frame < length self.now.frames }
        ensures frame { slice_get self.now.frames frame ≡ Some result.now }
        ensures fits { IsFrame result.now }
        ensures valid { IsCache self.now }
    {
        &self.frames[usize::from(frame)]
    }

    /// The frame was used just now.
    pub fn touch(&mut self, frame: u16)
        requires { frame < length self.old.frames }
        ensures table { self.new.table ≡ self.old.table }
        ensures frames { self.new.frames ≡ self.old.frames }
        ensures order { self.new.order ≡ used_last frame self.old.order }
        ensures valid { IsCache self.new }
    {
        self.order.promote(&frame);
    }

    /// Says how a frame's pair stands, and whether its block is to be drawn.
    pub fn mark(&mut self, frame: u16, dirty: bool, phase: PairPhase, slot: u8)
        requires within { frame < length self.old.frames }
        requires held { IfSome (slice_get self.old.frames frame) (λ f. IsSome f.place) }
        requires slot { slot < 2 }
        ensures frames { (f : Frame) → slice_get self.old.frames frame ≡ Some f
            → self.new.frames ≡ slice_set self.old.frames frame (record f { dirty = dirty; phase = phase; slot = slot }) }
        ensures table { self.new.table ≡ self.old.table }
        ensures order { self.new.order ≡ self.old.order }
        ensures valid { IsCache self.new }
    {
        let place = &mut self.frames[usize::from(frame)];
        place.dirty = dirty;
        place.phase = phase;
        place.slot = slot;
    }

    /// The frame that gives way to another block: the least recently used one of those whose block need not be drawn.
    pub fn victim(&self) -> Option<u16>
        ensures { result ≡ victim_of self.now }
    {
        oldest_clean(&self.order, &self.frames)
    }

    /// The place of the least recently used block, where no frame gives way.
    pub fn crowded(&self) -> Option<u16>
        ensures none { IfNone result (IsSome (victim_of self.now)) }
        ensures some { IfSome result (λ place. (place < 4352) × (victim_of self.now ≡ None) × (frame : ℕ) × (frame_at self.now place ≡ Some frame) × (is_clean self.now.frames frame ≡ false) × (slice_get self.now.order 0 ≡ Some frame)) }
    {
        if self.victim().is_some() {
            return None;
        }
        match self.order.peek_lru() {
            Some((frame, _)) => self.frames[usize::from(*frame)].place,
            None => None,
        }
    }

    /// Takes a block that need not be drawn out of its frame.
    pub fn evict(&mut self, frame: u16)
        requires within { frame < length self.old.frames }
        requires clean { is_clean self.old.frames frame ≡ true }
        ensures entries { Evicts self.old self.new }
        ensures frame { IfSome (slice_get self.old.frames frame) (λ f. slice_get self.new.frames frame ≡ Some (record f { place = None })) }
        ensures others { (place : ℕ) → frame_at self.old place ≡ None → frame_at self.new place ≡ None }
        ensures kept { (place : ℕ) → frame_at self.old place ≢ Some frame → frame_at self.new place ≡ frame_at self.old place }
        ensures count { length self.new.frames ≡ length self.old.frames }
        ensures order { self.new.order ≡ self.old.order }
        ensures valid { IsCache self.new }
    {
        let f = &mut self.frames[usize::from(frame)];
        let place = f.place;
        f.place = None;
        if let Some(place) = place {
            self.table[usize::from(place)] = None;
        }
    }

    /// Gives a block that is not in the cache a frame that has none: the block that bytes with nothing wrong spell.
    pub fn take(&mut self, frame: u16, home: Home, slot: u8, bytes: &[u8])
        requires within { frame < length self.old.frames }
        requires free { IfSome (slice_get self.old.frames frame) (λ f. (f.place ≡ None) × (is_dirty f ≡ false)) }
        requires file { home.file ≤ 16 }
        requires number { home.number < 256 }
        requires blocks { IsWithin 1 256 home.blocks }
        requires slot { slot < 2 }
        requires missing { frame_at self.old (place_of home.file home.number) ≡ None }
        requires bytes { length bytes.now ≡ BLOCK_BYTES }
        requires fine { bad_block (Some home) bytes.now ≡ None }
        ensures entry { (f : Frame) × SetsEntry self.old self.new home.file home.number f × IsTaken home slot bytes.now f }
        ensures at { frame_at self.new (place_of home.file home.number) ≡ Some frame }
        ensures kept { (place : ℕ) → place ≢ place_of home.file home.number → frame_at self.new place ≡ frame_at self.old place }
        ensures order { self.new.order ≡ self.old.order }
        ensures count { length self.new.frames ≡ length self.old.frames }
        ensures valid { IsCache self.new }
    {
        let place = place_of_block(BlockNo {
            file: home.file,
            number: home.number,
        });
        let f = &mut self.frames[usize::from(frame)];
        f.block.take_at(home, bytes);
        f.place = Some(place);
        f.slot = slot;
        self.table[usize::from(place)] = Some(frame);
    }

    /// Gives a block that is not in the cache the frame that gives way: the block that bytes with nothing wrong spell.
    pub fn replace(&mut self, home: Home, slot: u8, bytes: &[u8])
        requires room { IsSome (victim_of self.old) }
        requires file { home.file ≤ 16 }
        requires number { home.number < 256 }
        requires blocks { IsWithin 1 256 home.blocks }
        requires slot { slot < 2 }
        requires missing { frame_at self.old (place_of home.file home.number) ≡ None }
        requires bytes { length bytes.now ≡ BLOCK_BYTES }
        requires fine { bad_block (Some home) bytes.now ≡ None }
        ensures entry { (f : Frame) × Replaces self.old self.new home.file home.number f × IsTaken home slot bytes.now f }
        ensures serves { Serves self.old self.new home.file home.number }
        ensures valid { IsCache self.new }
    {
        match self.victim() {
            Some(frame) => {
                self.evict(frame);
                self.take(frame, home, slot, bytes);
                self.touch(frame);
            }
            None => unreachable!(),
        }
    }

    /// Gives a frame that has no block one that is not in the cache, with a content that is to be drawn.
    fn fill(&mut self, frame: u16, n: BlockNo, slot: u8, content: Block)
        requires within { frame < length self.old.frames }
        requires free { IfSome (slice_get self.old.frames frame) (λ f. (f.place ≡ None) × (is_dirty f ≡ false)) }
        requires file { n.file ≤ 16 }
        requires number { n.number < 256 }
        requires slot { slot < 2 }
        requires missing { frame_at self.old (place_of n.file n.number) ≡ None }
        ensures entry { (f : Frame) × SetsEntry self.old self.new n.file n.number f × IsPlaced slot content f }
        ensures at { frame_at self.new (place_of n.file n.number) ≡ Some frame }
        ensures kept { (place : ℕ) → place ≢ place_of n.file n.number → frame_at self.new place ≡ frame_at self.old place }
        ensures order { self.new.order ≡ self.old.order }
        ensures count { length self.new.frames ≡ length self.old.frames }
        ensures valid { IsCache self.new }
    {
        let place = place_of_block(n);
        let f = &mut self.frames[usize::from(frame)];
        f.block = content;
        f.place = Some(place);
        f.dirty = true;
        f.slot = slot;
        self.table[usize::from(place)] = Some(frame);
    }

    /// Gives a block that is not in the cache the frame that gives way, with a content that is to be drawn.
    pub fn place(&mut self, n: BlockNo, slot: u8, content: Block)
        requires room { IsSome (victim_of self.old) }
        requires file { n.file ≤ 16 }
        requires number { n.number < 256 }
        requires slot { slot < 2 }
        requires missing { frame_at self.old (place_of n.file n.number) ≡ None }
        ensures entry { (f : Frame) × Replaces self.old self.new n.file n.number f × IsPlaced slot content f }
        ensures serves { Serves self.old self.new n.file n.number }
        ensures valid { IsCache self.new }
    {
        match self.victim() {
            Some(frame) => {
                self.evict(frame);
                self.fill(frame, n, slot, content);
                self.touch(frame);
            }
            None => unreachable!(),
        }
    }

    /// Puts another content into a frame that has a block: it is to be drawn.
    pub fn put(&mut self, frame: u16, content: Block)
        requires within { frame < length self.old.frames }
        requires held { IfSome (slice_get self.old.frames frame) (λ f. IsSome f.place) }
        ensures frames { (f : Frame) → slice_get self.old.frames frame ≡ Some f
            → self.new.frames ≡ slice_set self.old.frames frame (record f { block = content; dirty = true }) }
        ensures table { self.new.table ≡ self.old.table }
        ensures order { self.new.order ≡ self.old.order }
        ensures valid { IsCache self.new }
    {
        let place = &mut self.frames[usize::from(frame)];
        place.block = content;
        place.dirty = true;
    }

    /// Makes a change in the block of a frame: it is to be drawn.
    pub fn set(&mut self, frame: u16, key: &Key, value: Option<Value>, position: u64)
        requires within { frame < length self.old.frames }
        requires held { IfSome (slice_get self.old.frames frame) (λ f. IsSome f.place × CanTake f.block.records key.now value) }
        ensures frames { (f : Frame) → slice_get self.old.frames frame ≡ Some f
            → self.new.frames ≡ slice_set self.old.frames frame (record f { block = record f.block { records = with_record key.now value f.block.records; position = position }; dirty = true }) }
        ensures table { self.new.table ≡ self.old.table }
        ensures order { self.new.order ≡ self.old.order }
        ensures valid { IsCache self.new }
    {
        let place = &mut self.frames[usize::from(frame)];
        place.block.set(key, value, position);
        place.dirty = true;
    }

    /// The place of the first block that is to be drawn, or whose draw is to be ended.
    pub fn first_dirty(&self) -> Option<u16>
        ensures some { IfSome result (λ place. (frame : ℕ) × (frame_at self.now place ≡ Some frame) × (is_clean self.now.frames frame ≡ false)) }
        ensures within { IfSome result (λ place. place < 4352) }
        ensures least { (place frame : ℕ) → frame_at self.now place ≡ Some frame → is_clean self.now.frames frame ≡ false → IfSome result (λ found. found ≤ place) × IsSome result }
        ensures valid { IsCache self.now }
    {
        for (place, entry) in self.table.iter().enumerate() {
            if let Some(frame) = entry {
                if !is_clean(&self.frames, *frame) {
                    return Some(place as u16);
                }
            }
        }
        None
    }
}
