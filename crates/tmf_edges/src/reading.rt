//! Reading a source to its end, or to a limit.
ghost use Rattle.std.specs.Prelude.{◌≡◌, ◌≤◌, ◌<◌, length, take, drop, vec_len, IsTrue, IfOk, OnErr, Err};
ghost use Rattle.disk_model.specs.Held.{Rose};
ghost use Rattle.tmf_edges.specs.Moves.{DropsPart};
ghost use Rattle.tmf_edges.specs.declared.reading.ReadFault.TheVariants.{Failed, NoMemory};

use crate::source::{Source, SourceFault};
use std::alloc::{AllocError, Global};

/// How many bytes are asked for at once, at most.
const PORTION: usize = 4096;

/// Why a source was not read to its end.
#[derive(Clone, Copy, Debug, PartialEq, Eq)]
pub enum ReadFault {
    /// The source failed.
    Failed,
    /// There is no memory for the bytes.
    NoMemory,
}

impl From<SourceFault> for ReadFault {
    ghost from_gives = { λ _ fault. fault ≡ Failed };

    fn from(_fault: SourceFault) -> ReadFault {
        ReadFault::Failed
    }
}

impl From<AllocError> for ReadFault {
    ghost from_gives = { λ _ fault. fault ≡ NoMemory };

    fn from(_error: AllocError) -> ReadFault {
        ReadFault::NoMemory
    }
}

/// The bytes of the source up to its end, or the first `limit` of them. No byte is taken past the limit.
pub fn read_to_limit<S: Source>(
    alloc: Global,
    source: &mut S,
    limit: usize,
) -> Result<Vec<u8>, ReadFault>
    ensures tells { S.tells source.new ≡ S.tells source.old }
    ensures within { IfOk result (λ bytes. vec_len bytes ≤ limit) }
    ensures told { IsTrue (S.tells source.old) → IfOk result (λ bytes. bytes.items ≡ take limit (S.rest source.old)) }
    ensures rest { IsTrue (S.tells source.old) → IfOk result (λ bytes. S.rest source.new ≡ drop (vec_len bytes) (S.rest source.old)) }
    ensures err { IsTrue (S.tells source.old) → OnErr result (DropsPart limit (S.rest source.old) (S.rest source.new)) }
    ensures later { S.faults source.old ≤ S.faults source.new }
    ensures cause { result ≡ Err ReadFault.Failed → Rose (S.faults source.old) (S.faults source.new) }
{
    let mut bytes = Vec::new(alloc);
    let mut portion = [0; PORTION];
    while bytes.len() < limit {
        let wanted = PORTION.min(limit - bytes.len());
        let count = source.take(&mut portion[..wanted])?;
        if count == 0 {
            return Ok(bytes);
        }
        bytes.extend_from_slice(&portion[..count])?;
    }
    Ok(bytes)
}

#[cfg(test)]
mod tests;
