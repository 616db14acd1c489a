//! What words of the collector say.

ghost use Rattle.std.specs.Prelude.{◌≡◌};
ghost use Rattle.gc_worker.specs.Readers.{live_said};
ghost use Rattle.gc_worker.specs.Steps.Turned.{epoch_said};

use space_map::{AreaWord, GateWord};

/// The epoch that a word of the gate says, or 0.
pub fn epoch_said(gate: u64) -> u32
    ensures { result ≡ epoch_said 0 gate }
{
    match GateWord::read(gate) {
        Some(gate) => gate.epoch,
        None => 0,
    }
}

/// The words that were copied in an epoch, by the word TRACED and that of the area of its space, where it is traced.
pub fn live_said(epoch: u32, traced: u64, area: u64) -> Option<u64>
    ensures { result ≡ live_said epoch traced area }
{
    if traced != u64::from(epoch) + 1 {
        return None;
    }
    Some(u64::from(AreaWord::read(area)?.front))
}
