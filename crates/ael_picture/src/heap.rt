//! The heap of a dump, by its words.

ghost use Rattle.std.specs.Prelude.{◌<◌};

use crate::class::Class;
use dump_text::Dump;
use heap_words::{Kind, Tag, Word};
use plain_state::NoMemory;
use record_layout::{Header, read, read_busy, read_forward};
use space_map::{AreaWord, GateWord, PAGE_WORDS, Spaces};
use std::alloc::Global;

/// The words of the board.
pub const BOARD_WORDS: u32 = plain_state::BOARD_WORDS as u32;

/// A dump, with the layout of its heap and its epoch.
#[derive(Drop)]
pub struct Heap<'a> {
    pub spaces: Spaces,
    pub epoch: u32,
    pub dump: &'a Dump,
}

/// What a word stands for, and where the record begins that has it.
#[derive(Clone, Copy)]
pub struct Meaning {
    pub class: Class,
    pub owner: u32,
}

/// A record, or what stands in its place.
#[derive(Clone, Copy)]
pub struct Found {
    pub class: Class,
    pub len: u32,
    pub kind: Kind,
}

impl<'a> Heap<'a> {
    /// The word at a place of the table; 0 if there is none.
    pub fn shared(&self, place: usize) -> u64 {
        match self.dump.words.get(place) {
            Some(word) => *word,
            None => 0,
        }
    }

    /// The word at an address.
    pub fn word(&self, addr: u32) -> u64 {
        self.shared(self.spaces.word_place(0).saturating_add(addr as usize))
    }

    /// The address of the board's first word.
    pub fn board(&self) -> u32 {
        PAGE_WORDS * (2 * self.spaces.pages())
    }

    /// The gate.
    pub fn gate(&self) -> Option<GateWord> {
        GateWord::read(self.shared(self.spaces.gate_place()))
    }

    /// Whether all copying of the epoch is done.
    pub fn is_traced(&self) -> bool {
        self.shared(self.spaces.traced_place()) == u64::from(self.epoch) + 1
    }

    /// The address of a space's first word.
    pub fn start(&self, space: u8) -> u32 {
        if space < 2 {
            self.spaces.space_start(space)
        } else {
            0
        }
    }

    /// The room that a space has.
    pub fn area(&self, space: u8) -> Option<AreaWord> {
        if space < 2 {
            AreaWord::read(self.shared(self.spaces.area_place(space)))
        } else {
            None
        }
    }

    /// The pages of a space that are in use, or the one of the board.
    pub fn in_use(&self, space: u8) -> u32 {
        if space < 2 {
            let size = self.shared(self.spaces.size_place(space));
            size.min(u64::from(self.spaces.pages())) as u32
        } else {
            1
        }
    }

    /// What begins at an address.
    pub fn found(&self, addr: u32) -> Option<Found> {
        let word = self.word(addr);
        if let Some(header) = read(word) {
            return Some(Found {
                class: Class::Header,
                len: u32::from(header.len),
                kind: header.kind,
            });
        }
        if let Some(forward) = read_forward(word) {
            return Some(Found {
                class: if self.is_traced() {
                    Class::Faded
                } else {
                    Class::Forward
                },
                len: u32::from(forward.len),
                kind: Kind::Fields,
            });
        }
        let busy = read_busy(word)?;
        Some(Found {
            class: Class::Busy,
            len: u32::from(busy.len),
            kind: Kind::Fields,
        })
    }

    /// The header of the record that begins at an address, or began there before it was copied. While it is being copied, a
    /// worker keeps the header.
    pub fn header(&self, addr: u32) -> Option<Header> {
        let word = self.word(addr);
        if let Some(header) = read(word) {
            return Some(header);
        }
        if let Some(forward) = read_forward(word) {
            return read(self.word(forward.addr));
        }
        let busy = read_busy(word)?;
        let kept = self.dump.kept.get(usize::from(busy.worker))?;
        read(kept.header)
    }

    /// What a tagged word stands for: a number, or a pointer into the space that records are copied to or into the other one.
    pub fn tagged(&self, word: u64) -> Class {
        match Word(word).tag() {
            Tag::Number => Class::Number,
            _ => match Word(word).as_pointer() {
                Some(addr) if self.spaces.in_space(addr, self.spaces.to_space(self.epoch)) => {
                    Class::New
                }
                _ => Class::Old,
            },
        }
    }

    /// At most how many of the words behind a record's header are tagged: all of a record of fields, and of a mixed one the count
    /// and the fields, and of a cell the target.
    fn tagged_words(&self, addr: u32, kind: Kind) -> u64 {
        match kind {
            Kind::Fields => u64::MAX,
            Kind::Raw => 0,
            Kind::Mixed => {
                let count = Word(self.word(addr.saturating_add(1))).as_number();
                count.unwrap_or(0).saturating_add(1)
            }
            Kind::Weak => 1,
        }
    }

    /// Notes the words of what begins at an address, and answers how many follow the first.
    fn mark(&self, words: &mut Vec<Meaning>, addr: u32) -> u32 {
        let Some(found) = self.found(addr) else {
            return 0;
        };
        set(words, addr, found.class, addr);
        if found.class == Class::Header {
            let tagged = self.tagged_words(addr, found.kind);
            for i in 0..found.len {
                let at = addr.saturating_add(i).saturating_add(1);
                let class = if u64::from(i) < tagged {
                    self.tagged(self.word(at))
                } else {
                    Class::Raw
                };
                set(words, at, class, addr);
            }
        }
        found.len
    }

    /// Notes the words of the records from one address to another.
    fn walk(&self, words: &mut Vec<Meaning>, from: u32, to: u32) {
        let mut at = from;
        for _ in from..to {
            if at >= to {
                return;
            }
            at = self.mark(words, at).saturating_add(at).saturating_add(1);
        }
    }

    /// Notes the words of the records that a space has at its two ends.
    fn mark_space(&self, words: &mut Vec<Meaning>, space: u8)
        requires { space < 2 }
    {
        let Some(area) = self.area(space) else {
            return;
        };
        let start = self.spaces.space_start(space);
        let end = start.saturating_add(self.in_use(space).saturating_mul(PAGE_WORDS));
        self.walk(words, start, start.saturating_add(area.front));
        self.walk(words, start.saturating_add(area.low), end);
    }

    /// What each word of both spaces stands for.
    pub fn words(&self, alloc: Global) -> Result<Vec<Meaning>, NoMemory> {
        let free = Meaning {
            class: Class::Free,
            owner: 0,
        };
        let mut words = vec![in alloc; free; self.board() as usize]?;
        self.mark_space(&mut words, 0);
        self.mark_space(&mut words, 1);
        Ok(words)
    }
}

/// Notes what a word stands for, if there is such a word.
fn set(words: &mut Vec<Meaning>, at: u32, class: Class, owner: u32) {
    if let Some(slot) = words.get_mut(at as usize) {
        *slot = Meaning { class, owner };
    }
}

/// What the word at an address stands for.
pub fn meaning_at(words: &[Meaning], addr: u32) -> Meaning {
    match words.get(addr as usize) {
        Some(meaning) => *meaning,
        None => Meaning {
            class: Class::Free,
            owner: 0,
        },
    }
}
