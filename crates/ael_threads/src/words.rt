//! The words of a heap once all its workers are back.

ghost use Rattle.std.specs.Prelude.{◌≡◌, ◌<◌, ℕ, List, length, IfOk};
ghost use Rattle.std.specs.Slots.{slots_items, slots_len, IsFull};
ghost use mathlib.Core.Option.{some};
ghost use lib.ListN.{get_elem?};

use atomic_table::Closed;
use std::alloc::{AllocError, Global};
use std::marker::Model;

/// The words of a heap that was closed. Contracts see them as a list.
pub struct Words {
    pub(crate) closed: Closed<u8, Global>,
}

impl Model for Words {
    ghost use Rattle.std.specs.Prelude.{◌≡◌, ℕ, List};
    ghost use Rattle.std.specs.Slots.{slots_items, slots_len, IsFull};

    ghost Value = { List ℕ };

    ghost view = { λ w. slots_items w.closed.words };

    ghost invariant = { λ w. IsFull w.closed.words × (slots_len w.closed.slots ≡ 0) };
}

impl Words {
    /// How many there are.
    pub fn len(&self) -> usize
        ensures { result ≡ length self.now }
    {
        self.closed.words.len()
    }

    /// The word at this place, which is below their number.
    pub fn word(&self, place: usize) -> u64
        requires { place < length self.now }
        ensures { get_elem? self.now place ≡ some result }
    {
        self.closed.word(place)
    }

    /// All of them, in order.
    pub fn to_vec(&self, alloc: Global) -> Result<Vec<u64>, AllocError>
        ensures { IfOk result (λ words. words.items ≡ self.now) }
    {
        let mut words = Vec::with_capacity(alloc, self.len())?;
        for place in 0..self.len() {
            words.push_reserved(self.word(place));
        }
        Ok(words)
    }
}

impl Drop for Words {
    fn drop(self) {
        let Words { closed } = self;
        closed.free();
    }
}
