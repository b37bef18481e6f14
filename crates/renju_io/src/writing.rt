//! Texts of any length, written in pieces.
//!
//! No write is asked for more than a limit, nor for an empty piece, and none after one that failed.
ghost use Rattle.std.specs.Prelude.{OnOk, OnErr};
ghost use Rattle.renju_io.specs.Faults.{HasRisen, HasStayed, HasNotFallen};
ghost use Rattle.renju_io.specs.Asked.{IsAsked, IsAskedAtMost, piece_count};
ghost use Rattle.renju_io.specs.Told.{CutAfter, Takes, TakesPart};

use crate::{Failed, MAX_PIECE_BYTES, Sink};

/// Writes a text in pieces of at most `MAX_PIECE_BYTES` bytes, up to the first write that fails. An empty text asks
/// for no write.
pub fn write_text<O: Sink>(sink: &mut O, text: &[u8]) -> Result<(), Failed>
    ensures whole { OnOk result (Takes (O.written sink.old) text.now (O.written sink.new)) }
    ensures part { OnErr result (TakesPart (O.written sink.old) text.now (O.written sink.new)) }
    ensures stopped { OnErr result (CutAfter O.written O.faults sink.old sink.new) }
    ensures failed { OnErr result (HasRisen (O.faults sink.old) (O.faults sink.new)) }
    ensures uncounted { OnOk result (HasStayed (O.faults sink.old) (O.faults sink.new)) }
    ensures counted { HasNotFallen (O.faults sink.old) (O.faults sink.new) }
    ensures writes { OnOk result (IsAsked (piece_count text.now) (O.asked sink.old) (O.asked sink.new)) }
    ensures few_writes { IsAskedAtMost (piece_count text.now) (O.asked sink.old) (O.asked sink.new) }
{
    for piece in text.chunks(MAX_PIECE_BYTES) {
        sink.write(piece)?;
    }
    Ok(())
}
