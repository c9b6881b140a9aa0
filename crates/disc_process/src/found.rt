//! What a step comes to in its block.
ghost use Rattle.std.specs.Prelude.{◌≡◌, bytes_eq};
ghost use Rattle.std.specs.List.{IsDistinct};
ghost use Rattle.keyed_file.specs.Block.{IsBlock};
ghost use Rattle.node_machine.specs.Disc.{is_lock};
ghost use Rattle.disc_process.specs.Found.{found_in, is_put, is_still};

use keyed_file::Block;
use tmf_model::{Key, Op, Reason, Step, Value, apply};

/// What a step comes to.
#[derive(Clone, Copy)]
pub enum Found {
    /// It changes the value, from the first to the second.
    Change(Option<Value>, Option<Value>),
    /// It reads this value.
    Value(Option<Value>),
    /// Its key has no room.
    Full,
    /// Its key has room, and its block has none.
    Crowded,
    /// Its operation has no value here.
    Refused(Reason),
}

/// Whether the operation needs room for its key.
pub fn is_put(op: &Op) -> bool
    ensures { result ≡ is_put op.now }
{
    matches!(op, Op::Put(_))
}

/// Whether the operation locks a whole file.
pub fn is_lock(op: &Op) -> bool
    ensures { result ≡ is_lock op.now }
{
    matches!(op, Op::Lock)
}

/// Whether the operation leaves the value as it is.
fn is_still(op: &Op) -> bool
    ensures { result ≡ is_still op.now }
{
    matches!(op, Op::Read | Op::Lock)
}

/// What the step comes to in its block, beside the keys of the block that are held by writing.
pub fn found_in(block: &Block, kept: &[Key], step: &Step) -> Found
    requires { IsDistinct bytes_eq kept.now }
    ensures found { result ≡ found_in block.now kept.now step.now }
    ensures valid { IsBlock block.now }
{
    if is_put(&step.op) && block.room(&step.key, kept).is_err() {
        return Found::Full;
    }
    let before = block.get(&step.key);
    if is_put(&step.op) && before.is_none() && block.records().len() >= 62 {
        return Found::Crowded;
    }
    match apply(&step.op, before.as_ref()) {
        Err(reason) => Found::Refused(reason),
        Ok(after) => {
            if is_still(&step.op) {
                Found::Value(after)
            } else {
                Found::Change(before, after)
            }
        }
    }
}
