//! Texts that come from a stream, piece by piece.
ghost use Rattle.std.specs.Prelude.{◌++◌, [], List, ℕ, OnOk};
ghost use Rattle.iloc_text.specs.Streams.{ReadsText};

use crate::fault::InputFault;
use iloc_ops::{MAX_INPUT, NoMemory};
use std::alloc::Global;
use std::io::Read;

/// How many bytes are asked for at a time, at most.
pub(crate) const PIECE: usize = 32_768;

/// Takes the pieces of a text, one after another.
pub(crate) trait TakePieces {
    // From the first state to the second one it took this text.
    ghost took: { Self → List ℕ → Self → Type 0 };

    /// Takes the next piece.
    fn take(&mut self, alloc: Global, piece: &[u8]) -> Result<(), NoMemory>
        ensures { (start : Self) (text : List ℕ) → took start text self.old →
            OnOk result (took start (text ++ piece.now) self.new) };

    // At first it took none.
    ghost took_none: { (start : Self) → took start [] start };
}

impl TakePieces for Vec<u8> {
    ghost use Rattle.std.specs.Prelude.{◌≡◌, ◌++◌};
    ghost use Rattle.std.proofs.Common.{sym, append-nil};

    ghost took = { λ start text now. now.items ≡ start.items ++ text };

    fn take(&mut self, _: Global, piece: &[u8]) -> Result<(), NoMemory> {
        Ok(self.extend_from_slice(piece)?)
    }

    ghost took_none = { λ start. sym (append-nil start.items) };
}

/// Hands over all that comes: until the end, or until 16,777,217 bytes have come. Any error of a read ends it.
pub(crate) fn read_pieces<R: Read, P: TakePieces>(
    alloc: Global,
    stream: &mut R,
    taker: &mut P,
) -> Result<(), InputFault>
    ensures { OnOk result ((text : List ℕ) ×
        ReadsText (R.remaining stream.old) (R.remaining stream.new) text × P.took taker.old text taker.new) }
{
    let mut piece = [0; PIECE];
    let mut left = MAX_INPUT + 1;
    while left > 0 {
        let room = PIECE.min(left);
        let Ok(count) = stream.read(&mut piece[..room]) else {
            return Err(InputFault::ReadFailed);
        };
        if count == 0 {
            return Ok(());
        }
        taker.take(alloc, &piece[..count])?;
        left -= count;
    }
    Ok(())
}
