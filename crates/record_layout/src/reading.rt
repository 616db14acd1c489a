ghost use Rattle.std.specs.Prelude.{◌≡◌, ℕ, ◌^◌, ◌<◌, ◌↔◌, IsSome, IfSome};
ghost use Rattle.std.specs.Int.{bit_at};
ghost use Rattle.heap_words.specs.Word.{tag_of};
ghost use Rattle.heap_words.specs.Decoded.{decode, encode, kind_spelled};
ghost use Rattle.record_layout.specs.Layout.{header_says, forward_says, busy_says, header_in, forward_in, busy_in};

use crate::bits::{
    BUSY, KIND_AT, KIND_MASK, LEN_AT, LEN_MASK, MUTATOR_AT, SERIAL_AT, SERIAL_MASK, WORKER_AT,
};
use crate::busy::Busy;
use crate::forward::Forward;
use crate::header::Header;
use heap_words::{FORM_MASK, Kind, Tag, Word};

/// The header that this word is, if it is one.
#[inline(always)]
pub fn read(w: u64) -> Option<Header>
    ensures decoded { result ≡ header_in (decode w) }
    ensures only_headers { IsSome result ↔ (tag_of w ≡ Tag.Header) }
    ensures one_spelling { IfSome result (λ h. w ≡ encode (header_says h)) }
{
    match Word(w).tag() {
        Tag::Header => Some(Header {
            kind: kind_of(w >> KIND_AT & KIND_MASK),
            len: (w >> LEN_AT & LEN_MASK) as u16,
            serial: w >> SERIAL_AT & SERIAL_MASK,
            mutator: (w >> MUTATOR_AT) as u8,
        }),
        _ => None,
    }
}

/// The forward that this word is, if it is one.
pub fn read_forward(w: u64) -> Option<Forward>
    ensures decoded { result ≡ forward_in (decode w) }
    ensures only_forwards { IsSome result
        ↔ ((tag_of w ≡ Tag.Forward) × (bit_at w 2 ≡ 0) × (bit_at w 3 ≡ 0) × (w < 2 ^ 48)) }
    ensures one_spelling { IfSome result (λ f. w ≡ encode (forward_says f)) }
{
    let addr = Word(w).as_forward()?;
    Some(Forward {
        len: (w >> LEN_AT & LEN_MASK) as u16,
        addr,
    })
}

/// What this word says in place of a header that a worker has taken, if it is such a word.
pub fn read_busy(w: u64) -> Option<Busy>
    ensures decoded { result ≡ busy_in (decode w) }
    ensures only_busy { IsSome result
        ↔ ((tag_of w ≡ Tag.Forward) × (bit_at w 2 ≡ 1) × (bit_at w 3 ≡ 0) × (w < 2 ^ 24)) }
    ensures one_spelling { IfSome result (λ b. w ≡ encode (busy_says b)) }
{
    if w & FORM_MASK != BUSY {
        return None;
    }
    Some(Busy {
        len: (w >> LEN_AT & LEN_MASK) as u16,
        worker: u8::try_from(w >> WORKER_AT).ok()?,
    })
}

/// The kind that these bits of a header spell.
fn kind_of(bits: u64) -> Kind
    ensures { result ≡ kind_spelled bits }
{
    match bits {
        0 => Kind::Fields,
        1 => Kind::Raw,
        2 => Kind::Mixed,
        _ => Kind::Weak,
    }
}
