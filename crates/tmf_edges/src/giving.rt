//! Giving a piece whole, however short a sink's answers are.
ghost use Rattle.std.specs.Prelude.{◌≡◌, ◌++◌, IsTrue, OnOk, OnErr};
ghost use Rattle.disk_model.specs.Held.{HasCause};
ghost use Rattle.tmf_edges.specs.Moves.{AppendsPart};

use crate::sink::{Sink, SinkFault};

/// Gives the sink all of a piece. After an error it took some of the piece, and not all.
pub fn give_all<K: Sink>(sink: &mut K, piece: &[u8]) -> Result<(), SinkFault>
    ensures tells { K.tells sink.new ≡ K.tells sink.old }
    ensures told { IsTrue (K.tells sink.old) → OnOk result (K.given sink.new ≡ K.given sink.old ++ piece.now) }
    ensures err { IsTrue (K.tells sink.old) → OnErr result (AppendsPart (K.given sink.old) (K.given sink.new) piece.now) }
    ensures cause { HasCause (K.faults sink.old) (K.faults sink.new) result }
{
    let mut at = 0;
    while at < piece.len() {
        at += sink.give(&piece[at..])?;
    }
    Ok(())
}

#[cfg(test)]
mod tests;
