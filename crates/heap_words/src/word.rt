ghost use Rattle.std.specs.Prelude.{◌≡◌, ℕ, ◌^◌, ◌<◌, ◌↔◌, IsSome, IfSome};
ghost use Rattle.heap_words.specs.Word.{number_word, pointer_word, tag_of};
ghost use Rattle.heap_words.specs.Decoded.{NumberWord, PointerWord, copy_in, decode, number_in, pointer_in};

use crate::tag::Tag;

/// How many numbers there are, which is one more than the greatest.
pub const NUMBERS: u64 = 1 << 62;

const TAG_WIDTH: u32 = 2;

const TAG_MASK: u64 = 0b11;

const POINTER_TAG: u64 = 1;

/// The lowest four bits of a record's first word: the tag, then the kind of a header, or of what stands in place of one.
pub const FORM_MASK: u64 = 0b1111;

/// These bits of a forward.
pub const FORWARD: u64 = 0b0011;

/// Where the address of the copy stands in a forward.
pub const ADDRESS_AT: u32 = 16;

/// A tagged word: what a register, the board or a record of kind `Fields` holds.
#[derive(Clone, Copy, Debug, PartialEq, Eq)]
pub struct Word(pub u64);

impl Word {
    pub fn number(n: u64) -> Word
        requires { n < NUMBERS }
        ensures word { result.0 ≡ number_word n }
        ensures reads_back { decode result.0 ≡ NumberWord n }
    {
        Word(n << TAG_WIDTH)
    }

    /// A pointer to the record whose header stands at this address.
    pub fn pointer(address: u32) -> Word
        ensures word { result.0 ≡ pointer_word address }
        ensures reads_back { decode result.0 ≡ PointerWord address }
    {
        Word(u64::from(address) << TAG_WIDTH | POINTER_TAG)
    }

    pub fn as_number(self) -> Option<u64>
        ensures decoded { result ≡ number_in (decode self.0) }
        ensures only_numbers { IsSome result ↔ (tag_of self.0 ≡ Tag.Number) }
        ensures one_spelling { IfSome result (λ n. self.0 ≡ number_word n) }
        ensures in_range { IfSome result (λ n. n < NUMBERS) }
    {
        match self.tag() {
            Tag::Number => Some(self.0 >> TAG_WIDTH),
            _ => None,
        }
    }

    /// The address that the word points to, where none of the bits above it is set.
    pub fn as_pointer(self) -> Option<u32>
        ensures decoded { result ≡ pointer_in (decode self.0) }
        ensures only_pointers { IsSome result ↔ ((tag_of self.0 ≡ Tag.Pointer) × (self.0 < 2 ^ 34)) }
        ensures one_spelling { IfSome result (λ address. self.0 ≡ pointer_word address) }
    {
        match self.tag() {
            Tag::Pointer => u32::try_from(self.0 >> TAG_WIDTH).ok(),
            _ => None,
        }
    }

    /// The address of the copy, if the word is a forward.
    pub fn as_forward(self) -> Option<u32>
        ensures { result ≡ copy_in (decode self.0) }
    {
        let word = self.0;
        if word & FORM_MASK != FORWARD {
            return None;
        }
        u32::try_from(word >> ADDRESS_AT).ok()
    }

    pub fn tag(self) -> Tag
        ensures { result ≡ tag_of self.0 }
    {
        match self.0 & TAG_MASK {
            0 => Tag::Number,
            1 => Tag::Pointer,
            2 => Tag::Header,
            _ => Tag::Forward,
        }
    }
}
