ghost use Rattle.std.specs.Prelude.{◌≡◌, Some};
ghost use Rattle.heap_words.specs.Word.{kind_code, tag_of};
ghost use Rattle.heap_words.specs.Decoded.{decode, encode};
ghost use Rattle.record_layout.specs.Layout.{header_says, forward_says, busy_says, header_in, forward_in, busy_in};

use crate::bits::{BUSY, HEADER, KIND_AT, LEN_AT, MUTATOR_AT, SERIAL_AT, WORKER_AT};
use crate::busy::Busy;
use crate::forward::Forward;
use crate::header::Header;
use heap_words::{ADDRESS_AT, FORWARD, Kind, Tag};

/// The word of a header.
pub fn pack(h: &Header) -> u64
    ensures word { result ≡ encode (header_says h.now) }
    ensures reads_back { header_in (decode result) ≡ Some h.now }
    ensures tag { tag_of result ≡ Tag.Header }
{
    let Header {
        kind,
        len,
        serial,
        mutator,
    } = *h;
    HEADER
        | kind_bits(kind) << KIND_AT
        | u64::from(len) << LEN_AT
        | serial << SERIAL_AT
        | u64::from(mutator) << MUTATOR_AT
}

/// The word of a forward.
pub fn pack_forward(f: &Forward) -> u64
    ensures word { result ≡ encode (forward_says f.now) }
    ensures reads_back { forward_in (decode result) ≡ Some f.now }
    ensures tag { tag_of result ≡ Tag.Forward }
{
    let Forward { len, addr } = *f;
    FORWARD | u64::from(len) << LEN_AT | u64::from(addr) << ADDRESS_AT
}

/// The word in place of a header that a worker has taken.
pub fn pack_busy(b: &Busy) -> u64
    ensures word { result ≡ encode (busy_says b.now) }
    ensures reads_back { busy_in (decode result) ≡ Some b.now }
    ensures tag { tag_of result ≡ Tag.Forward }
{
    let Busy { len, worker } = *b;
    BUSY | u64::from(len) << LEN_AT | u64::from(worker) << WORKER_AT
}

fn kind_bits(kind: Kind) -> u64
    ensures { result ≡ kind_code kind }
{
    match kind {
        Kind::Fields => 0,
        Kind::Raw => 1,
        Kind::Mixed => 2,
        Kind::Weak => 3,
    }
}
