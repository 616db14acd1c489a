//! The heap that a dump tells of.

ghost use Rattle.std.specs.Prelude.{◌≡◌, length};
ghost use Rattle.space_map.specs.Spaces.{IsPageCount};
ghost use Rattle.space_map.specs.Table.{table_length};

use heap_words::Word;
use plain_state::{Identity, REGISTERS, Value};
use record_layout::{Header, read, read_busy, read_forward};
use space_map::{PAGE_WORDS, Spaces};

/// What a dump tells: how the spaces lie, the registers of each mutator, what each worker keeps, and the words of the table.
#[derive(Drop)]
pub struct ToldHeap<'t> {
    pub spaces: Spaces,
    pub registers: &'t [[u64; REGISTERS]],
    pub kept: &'t [(u64, u64)],
    pub words: &'t [u64],
    pub ghost counted: { IsPageCount spaces.pages },
    pub ghost whole: { length words.now ≡ table_length spaces.pages },
}

/// The parts of a space that hold records: its copies lie from `start` to `front`, and its new records from `low` to `end`.
#[derive(Clone, Copy)]
pub struct Extent {
    pub start: u32,
    pub front: u32,
    pub low: u32,
    pub end: u32,
}

/// The identity of the record with this header.
pub fn identity_of(header: &Header) -> Identity
    ensures { result ≡ record { mutator = header.now.mutator; serial = header.now.serial } }
{
    Identity {
        mutator: header.mutator,
        serial: header.serial,
    }
}

impl<'t> ToldHeap<'t> {
    ghost use Rattle.std.specs.Prelude.{◌<◌, ◌≤◌, ◌*◌, ◌↔◌, IsTrue};
    ghost use Rattle.heap_words.specs.Decoded.{decode};
    ghost use Rattle.record_layout.specs.Layout.{header_in};
    ghost use Rattle.heap_state.specs.Meaning.Denotes.{named_in, own_header_in};
    ghost use Rattle.heap_state.specs.Meaning.Represents.{IsBusy, IsCopying, IsInOrder, IsWalkedSpace, denoted_in_dump};
    ghost use Rattle.heap_audit.specs.Told.{MayHaveEmptied, dump_told, extent_of};

    /// The epoch.
    pub fn epoch(&self) -> u32
        ensures { result ≡ (dump_told self.now).table.gate.epoch }
    {
        (self.words[self.spaces.gate_place()] % (1 << 32)) as u32
    }

    /// Whether the epoch is not traced yet.
    pub fn is_copying(&self) -> bool
        ensures { IsTrue result ↔ IsCopying (dump_told self.now).table }
    {
        self.words[self.spaces.traced_place()] != u64::from(self.epoch()) + 1
    }

    /// Whether the walk over the chain of copied cells may have emptied cells: the epoch is not traced yet, and its turn is taken.
    pub fn may_have_emptied(&self) -> bool
        ensures { IsTrue result ↔ MayHaveEmptied (dump_told self.now).table }
    {
        self.is_copying()
            && self.words[self.spaces.weak_turn_place()] == u64::from(self.epoch()) + 1
    }

    /// Whether the records of a space are the heap's.
    pub fn is_walked(&self, space: u8) -> bool
        requires { space < 2 }
        ensures { IsTrue result ↔ IsWalkedSpace (dump_told self.now).table space }
    {
        space == self.spaces.to_space(self.epoch()) || self.is_copying()
    }

    /// How many pages of a space are in use.
    pub fn size(&self, space: u8) -> u64
        requires { space < 2 }
        ensures { result ≡ (dump_told self.now).table.in_use space }
    {
        self.words[self.spaces.size_place(space)]
    }

    /// How many words of a space lie below FRONT.
    pub fn front(&self, space: u8) -> u32
        requires { space < 2 }
        ensures { result ≡ ((dump_told self.now).table.area space).front }
    {
        (self.words[self.spaces.area_place(space)] % (1 << 18)) as u32
    }

    /// How many words of a space lie below LOW.
    pub fn low(&self, space: u8) -> u32
        requires { space < 2 }
        ensures { result ≡ ((dump_told self.now).table.area space).low }
    {
        (self.words[self.spaces.area_place(space)] / (1 << 18) % (1 << 18)) as u32
    }

    /// Where the parts of a space lie that is in order.
    pub fn extent(&self, space: u8) -> Extent
        requires one_of_two { space < 2 }
        requires ordered { IsInOrder (dump_told self.now).table space }
        ensures extent { result ≡ extent_of (dump_told self.now).table space }
        ensures copies { result.start ≤ result.front }
        ensures new { result.low ≤ result.end }
        ensures ends { result.end ≤ 128 * self.now.spaces.pages }
        ensures front_ends { result.front ≤ 128 * self.now.spaces.pages }
    {
        self.spaces.known();
        let start = self.spaces.space_start(space);
        Extent {
            start,
            front: start + self.front(space),
            low: start + self.low(space),
            end: start + PAGE_WORDS * self.size(space) as u32,
        }
    }

    /// The word at an address, or 0 if the heap has none there.
    pub fn word(&self, address: u32) -> u64
        ensures { result ≡ (dump_told self.now).table.heap address }
    {
        self.spaces.known();
        if address >= PAGE_WORDS * (self.spaces.board_page() + 1) {
            return 0;
        }
        self.words[self.spaces.word_place(address)]
    }

    /// Whether this word names a worker that should keep the header of a record that begins with it.
    pub fn is_busy(word: u64) -> bool
        ensures { IsTrue result ↔ IsBusy (decode word) }
    {
        read_busy(word).is_some()
    }

    /// The header of a record that begins with this word: in its place, or kept by the worker that the word names.
    pub fn own_header(&self, word: u64) -> Option<Header>
        ensures { result ≡ header_in (own_header_in (dump_told self.now).kept (decode word)) }
    {
        let Some(busy) = read_busy(word) else {
            return read(word);
        };
        let worker = usize::from(busy.worker);
        if worker >= self.kept.len() {
            return None;
        }
        read(self.kept[worker].0)
    }

    /// The identity of a record that begins with this word.
    fn named(&self, word: u64) -> Option<Identity>
        ensures { result ≡ named_in (dump_told self.now).table.heap (dump_told self.now).kept (decode word) }
    {
        let header = match read_forward(word) {
            Some(forward) => read(self.word(forward.addr))?,
            None => self.own_header(word)?,
        };
        Some(identity_of(&header))
    }

    /// The value that a word denotes.
    #[tactic(auto, unfolding(heap_state::specs::Meaning::Denotes::denoted_in))]
    pub fn denoted(&self, word: u64) -> Option<Value>
        ensures { result ≡ denoted_in_dump (dump_told self.now) word }
    {
        if let Some(number) = Word(word).as_number() {
            return Some(Value::Number(number));
        }
        let address = Word(word).as_pointer()?;
        let identity = self.named(self.word(address))?;
        Some(Value::Reference(identity))
    }
}
