//! Laws of the spellings: each value has its own, none begins another, and a table finds nothing wrong exactly in
//! the spellings.
ghost use Rattle.std.specs.Prelude.{◌≡◌, ◌<◌, ◌≤◌, ◌++◌, [], true, None, Some, ℕ, List, length, slice_index};
ghost use Rattle.keyed_file.specs.declared.dump_label.DumpLabel.{DumpLabel};
ghost use Rattle.keyed_file.specs.declared.label.Label.{Label};
ghost use Rattle.keyed_file.specs.Block.{KeyedBlock, IsBlock, CanTake, has_room, taken_keys};
ghost use Rattle.keyed_file.specs.BlockFormat.{bad_block, block_at, block_text};
ghost use Rattle.keyed_file.specs.LabelFormat.{IsDumpLabel, IsLabel, bad_dump_label, bad_label, dump_at, dump_text, label_at, label_text};

use crate::block::BLOCK_BYTES;

/// The spelling of a block begins that of no other, and nothing stands behind it in its own.
pub fn block_spelling_law()
    ensures prefix { (a b : KeyedBlock) (rest : List ℕ) → IsBlock a → IsBlock b
        → block_text b ≡ block_text a ++ rest → (b ≡ a) × (rest ≡ []) }
    ensures spelled { (block : KeyedBlock) → IsBlock block → bad_block None (block_text block) ≡ None }
    ensures read { (bytes : List ℕ) → length bytes ≡ BLOCK_BYTES
        → ((i : ℕ) → slice_index bytes i < 256) → bad_block None bytes ≡ None
        → IsBlock (block_at None bytes) × (bytes ≡ block_text (block_at None bytes)) }
{}

/// The same of the labels of volumes.
pub fn label_spelling_law()
    ensures prefix { (a b : Label) (rest : List ℕ) → IsLabel a → IsLabel b
        → label_text b ≡ label_text a ++ rest → (b ≡ a) × (rest ≡ []) }
    ensures spelled { (label : Label) → IsLabel label → bad_label (label_text label) ≡ None }
    ensures read { (bytes : List ℕ) → length bytes ≡ 256
        → ((i : ℕ) → slice_index bytes i < 256) → bad_label bytes ≡ None
        → IsLabel (label_at bytes) × (bytes ≡ label_text (label_at bytes)) }
{}

/// The same of the labels of dumps.
pub fn dump_label_spelling_law()
    ensures prefix { (a b : DumpLabel) (rest : List ℕ) → IsDumpLabel a → IsDumpLabel b
        → dump_text b ≡ dump_text a ++ rest → (b ≡ a) × (rest ≡ []) }
    ensures spelled { (label : DumpLabel) → IsDumpLabel label
        → bad_dump_label (dump_text label) ≡ None }
    ensures read { (bytes : List ℕ) → length bytes ≡ 256
        → ((i : ℕ) → slice_index bytes i < 256) → bad_dump_label bytes ≡ None
        → IsDumpLabel (dump_at bytes) × (bytes ≡ dump_text (dump_at bytes)) }
{}

/// What `room` answers is what `set` asks: where at most 62 keys are present or kept, a key that has room can be set.
pub fn block_room_law()
    ensures { (block : KeyedBlock) (kept : List (List ℕ)) (key value : List ℕ)
        → length (taken_keys block kept) ≤ 62 → has_room block kept key ≡ true
        → CanTake block.records key (Some value) }
{}

/// Each block and each volume's label has one length.
pub fn spelling_length_law()
    ensures block { (block : KeyedBlock) → IsBlock block → length (block_text block) ≡ BLOCK_BYTES }
    ensures label { (label : Label) → IsLabel label → length (label_text label) ≡ 256 }
{}
