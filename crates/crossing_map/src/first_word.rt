ghost use Rattle.std.specs.Prelude.{◌≡◌, ◌≤◌, IfSome};
ghost use Rattle.heap_words.specs.Decoded.{decode};
ghost use Rattle.crossing_map.specs.FirstWord.{size_met};
ghost use Rattle.heap_state.specs.Memory.Walk.{met_word};

use record_layout::{read, read_busy, read_forward};

/// The number of words of a record, by the length that its first word says: its header, the forward in its place, or the word of
/// the worker that copies it. None where the word is none of these.
pub fn record_size(word: u64) -> Option<u32>
    ensures met { result ≡ size_met (met_word (decode word)) }
    ensures short { IfSome result (λ size. size ≤ 4096) }
{
    if let Some(header) = read(word) {
        return Some(u32::from(header.len) + 1);
    }
    if let Some(forward) = read_forward(word) {
        return Some(u32::from(forward.len) + 1);
    }
    Some(u32::from(read_busy(word)?.len) + 1)
}
