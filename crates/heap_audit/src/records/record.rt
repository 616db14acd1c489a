//! Whether a record shows the plain record of its identity.

ghost use Rattle.std.specs.Prelude.{◌*◌, ◌≡◌, ◌<◌, ◌≤◌, ◌+◌, ◌^◌, ◌↔◌, Contains, IfNone, IfSome, IsTrue, length};
ghost use Rattle.heap_words.specs.Decoded.{HeaderWord};
ghost use Rattle.plain_state.specs.Layout.{size_of, values_at, word_of_value, words_behind};
ghost use Rattle.space_map.specs.Spaces.{past_heaps};
ghost use Rattle.heap_state.specs.Invariant.Ghost.{header_kind};
ghost use Rattle.heap_state.specs.Meaning.Represents.{HeadShows, IsInHeap, MustOwn, own_header};
ghost use Rattle.heap_state.specs.Meaning.Values.{CountShows};
ghost use Rattle.heap_state.specs.Memory.Walk.{walk_in};
ghost use Rattle.heap_audit.specs.Copied.{AreCopied};
ghost use Rattle.heap_audit.specs.Firsts.{TellsFirst};
ghost use Rattle.heap_audit.specs.Records.{IsCount, IsShownByHead, OwnersOfHeap, ValueShows, WordOfRecordShows};
ghost use Rattle.heap_audit.specs.Told.{dump_told};
ghost use Rattle.heap_audit.specs.Walks.{AreWalks, walked};

use crate::places::showing::shows;
use crate::records::cell::target_shows;
use crate::records::copied_records::CopiedRecords;
use crate::records::owners::Owners;
use crate::told_heap::{ToldHeap, identity_of};
use crate::walks::{RecordAt, Walks};
use heap_words::{Kind as HeaderKind, Word};
use plain_machine::{PlainRecord, PlainState};
use plain_state::{Kind, Value};
use record_layout::Header;

/// The kind that the header of a record of this kind has.
fn header_kind(kind: Kind) -> HeaderKind
    ensures { result ≡ header_kind kind }
{
    match kind {
        Kind::Fields => HeaderKind::Fields,
        Kind::Raw => HeaderKind::Raw,
        Kind::Mixed(_) => HeaderKind::Mixed,
        Kind::Weak => HeaderKind::Weak,
    }
}

/// The word at which the values of a record of this kind begin.
fn values_at(kind: Kind) -> u32
    ensures { result ≡ values_at kind }
{
    match kind {
        Kind::Fields | Kind::Raw | Kind::Weak => 1,
        Kind::Mixed(_) => 2,
    }
}

/// How many words of a record of this kind stand behind its values.
fn words_behind(kind: Kind) -> u32
    ensures { result ≡ words_behind kind }
{
    match kind {
        Kind::Fields | Kind::Raw | Kind::Mixed(_) => 0,
        Kind::Weak => 1,
    }
}

/// Whether a plain record takes so many words, with its header.
fn has_size(plain: &PlainRecord, size: u32) -> bool
    ensures { IsTrue result ↔ (size_of plain.now ≡ size) }
{
    let around = values_at(plain.kind()) + words_behind(plain.kind());
    around <= size && plain.len() == (size - around) as usize
}

/// Whether the word behind a header is the count of a plain record's fields, if the record is mixed.
fn count_shows(kind: Kind, word: u64) -> bool
    ensures shows { IsTrue result ↔ CountShows kind (λ x. word) 0 }
    ensures fits { IsCount kind }
{
    match kind {
        Kind::Mixed(count) => word == Word::number(u64::from(count)).0,
        Kind::Fields | Kind::Raw | Kind::Weak => true,
    }
}

/// Whether a word shows value `x` of a plain record.
fn value_shows(heap: &ToldHeap, walks: &Walks, wanted: &PlainRecord, x: usize, word: u64) -> bool
    requires walks { AreWalks (dump_told heap.now) walks.now }
    ensures { IsTrue result ↔ ValueShows (dump_told heap.now) wanted.now x word }
{
    let Some(value) = wanted.word(x as u64) else {
        return true;
    };
    if wanted.is_field(x) {
        return shows(heap, walks, word, value);
    }
    wanted.is_cell() || Value::Number(word) == value
}

/// The plain record that a record shows by its first word, which has this own header.
fn shown_by_head<'p>(
    heap: &ToldHeap,
    plain: &'p PlainState,
    owners: &Owners,
    found: RecordAt,
    header: &Header,
) -> Option<&'p PlainRecord>
    requires walked { IsInHeap (dump_told heap.now) (walked found) }
    requires owned { own_header (dump_told heap.now) found.at ≡ HeaderWord header.now.kind header.now.len header.now.serial header.now.mutator }
    requires owners { OwnersOfHeap (dump_told heap.now) owners.now }
    ensures shows { IfSome result (λ r. IsShownByHead (dump_told heap.now) plain.now (walked found) r.now × HeadShows (dump_told heap.now) plain.now (walked found)) }
    ensures else_not { IfNone result (HeadShows (dump_told heap.now) plain.now (walked found) → ⊥) }
{
    let wanted = plain.record(identity_of(header))?;
    let is_alike = header_kind(wanted.kind()) == header.kind
        && has_size(wanted, found.size)
        && found.size == u32::from(header.len) + 1;
    let is_first = match owners.first(header) {
        Some(first) => found.at <= first,
        None => true,
    };
    if is_alike && is_first {
        Some(wanted)
    } else {
        None
    }
}

/// The first value of a plain record that doesn't show in a record's words.
fn wrong_value(heap: &ToldHeap, walks: &Walks, wanted: &PlainRecord, at: u32) -> Option<u32>
    requires walks { AreWalks (dump_told heap.now) walks.now }
    requires short { length wanted.now.values < 2 ^ 16 }
    requires low { at < 2 * past_heaps }
    ensures first { TellsFirst (λ x. ValueShows (dump_told heap.now) wanted.now x ((dump_told heap.now).table.heap (at + word_of_value wanted.now.kind x))) result }
    ensures there { IfSome result (λ x. x < length wanted.now.values) }
{
    let first = at + values_at(wanted.kind());
    for x in 0..wanted.len() {
        if !value_shows(heap, walks, wanted, x, heap.word(first + x as u32)) {
            return Some(x as u32);
        }
    }
    None
}

/// Whether a record should have a header of its own. `now` says that it is in the epoch's space.
fn must_own(heap: &ToldHeap, found: RecordAt, now: bool) -> bool
    requires now { IsTrue now ↔ Contains (walk_in (dump_told heap.now).table (dump_told heap.now).kept) (walked found) }
    ensures { IsTrue result ↔ MustOwn (dump_told heap.now) (walked found) }
{
    now || ToldHeap::is_busy(heap.word(found.at))
}

/// The first word of a record, counted from its first, by which it doesn't show what it should. `now` says that it is in the epoch's space.
pub fn wrong_word(
    heap: &ToldHeap,
    walks: &Walks,
    owners: &Owners,
    copied: &CopiedRecords,
    plain: &PlainState,
    found: RecordAt,
    now: bool,
) -> Option<u32>
    requires walks { AreWalks (dump_told heap.now) walks.now }
    requires owners { OwnersOfHeap (dump_told heap.now) owners.now }
    requires copied { AreCopied (dump_told heap.now) copied.now }
    requires walked { IsInHeap (dump_told heap.now) (walked found) }
    requires now { IsTrue now ↔ Contains (walk_in (dump_told heap.now).table (dump_told heap.now).kept) (walked found) }
    requires low { found.at < 2 * past_heaps }
    ensures first { TellsFirst (WordOfRecordShows (dump_told heap.now) plain.now (walked found)) result }
    ensures short { IfSome result (λ i. i ≤ 4096) }
{
    let Some(header) = heap.own_header(heap.word(found.at)) else {
        return if must_own(heap, found, now) {
            Some(0)
        } else {
            None
        };
    };
    let Some(wanted) = shown_by_head(heap, plain, owners, found, &header) else {
        return Some(0);
    };
    if !count_shows(wanted.kind(), heap.word(found.at + 1)) {
        return Some(1);
    }
    if !target_shows(heap, walks, copied, wanted, found) {
        return Some(1);
    }
    let x = wrong_value(heap, walks, wanted, found.at)?;
    Some(x + values_at(wanted.kind()))
}
