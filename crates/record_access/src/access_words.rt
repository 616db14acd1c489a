//! What an access makes of the words that it reads, and where it goes on.

ghost use Rattle.std.specs.Prelude.{◌≡◌, ◌+◌, ◌^◌, ◌<◌, ℕ};
ghost use Rattle.heap_words.specs.Word.{number_word};
ghost use Rattle.plain_state.specs.declared.sizes.TheConstants.{BOARD_WORDS};
ghost use Rattle.plain_state.specs.Holding.{may_hold};
ghost use Rattle.heap_state.specs.Meaning.Loaded.{FitsRole, word_held};
ghost use Rattle.record_access.specs.Access as access;
ghost use Rattle.record_access.specs.StoredWord as stored;
ghost use Rattle.record_access.specs.Seen.{IsValueWord, value_seen};

use crate::access_stage::AccessStage;
use crate::accessed::Accessed;
use crate::board_access::{BoardSwap, BoardUse};
use crate::field_access::{FieldAccess, FieldUse, Role};
use atom_store::Turn;
use heap_words::Word;
use plain_state::End;
use space_map::Spaces;

/// The role of a value of a mixed record with so many fields.
pub fn role_by_count(count: u64, value: u32) -> Role
    ensures { result ≡ access.role_by_count count value }
{
    if u64::from(value) < count {
        Role::Field
    } else {
        Role::Number
    }
}

/// The value of a record whose values begin at this word, where this one has this role.
pub fn field(at: u32, first: u32, role: Role, value: u32) -> FieldAccess
    requires { value + first < 2 ^ 32 }
    ensures { result ≡ access.field_of at first role value }
{
    FieldAccess {
        at,
        first,
        word: value + first,
        role,
    }
}

/// The length of a record is told: a register gets it.
#[inline(always)]
pub fn tells_length(into: u8, len: u16) -> Turn<Accessed>
    ensures { result ≡ Turn.Finished (Accessed.Brings into (number_word len)) }
{
    let length = Word::number(u64::from(len));
    Turn::Finished(Accessed::Brings(into, length.0))
}

/// The word that a register gets of one that was loaded.
pub fn held(role: Role, word: u64) -> u64
    requires { FitsRole (access.role_of role) word }
    ensures { result ≡ word_held (access.role_of role) word }
{
    match role {
        Role::Field | Role::Target => word,
        Role::Number => Word::number(word).0,
    }
}

/// What stands in a record for a register's word, but for a pointer that it may not hold.
#[tactic(auto, using(crate::proofs::Read::word_of_value_seen))]
pub fn stored(role: Role, new: u64) -> Option<u64>
    requires { IsValueWord new }
    ensures { (x : ℕ) → result ≡ stored.word_if_held role (may_hold (access.kind_of role) x (value_seen new)) }
{
    match role {
        Role::Field => Some(new),
        Role::Number => Word(new).as_number(),
        Role::Target => None,
    }
}

/// An access goes on at a value's word; if that is the target of a cell, once the epoch is traced.
#[inline(always)]
pub fn goes_on_at(role: Role) -> Turn<Accessed>
    ensures { result ≡ stored.goes_on_at role }
{
    match role {
        Role::Field | Role::Number => Turn::More,
        Role::Target => Turn::Finished(Accessed::Awaits),
    }
}

/// An access goes on, or ends since a number may not be replaced by a pointer.
#[inline(always)]
pub fn goes_on_if(goes: bool) -> Turn<Accessed>
    ensures { result ≡ stored.goes_on_if goes }
{
    if goes {
        Turn::More
    } else {
        Turn::Finished(Accessed::Fails(End::IntoRaw))
    }
}

pub fn using_field(f: FieldAccess, usage: FieldUse) -> AccessStage
    ensures { result ≡ access.uses_field f usage }
{
    match usage {
        FieldUse::Loads(into) => AccessStage::LoadsField(f, into),
        FieldUse::Stores(new) => AccessStage::StoresField(f, new),
        FieldUse::Compares(e) => AccessStage::LoadsForCas(f, e),
    }
}

pub fn using_board(word: u32, usage: BoardUse) -> AccessStage
    ensures { result ≡ access.uses_board word usage }
{
    match usage {
        BoardUse::Loads(into) => AccessStage::LoadsBoard(word, into),
        BoardUse::Stores(new) => AccessStage::StoresBoard(word, new),
        BoardUse::Swaps(into, new) => AccessStage::LoadsForSwap(BoardSwap { word, into, new }),
    }
}

/// The address of a word of the board.
pub fn on_board(spaces: Spaces, word: u32) -> u32
    requires { word < BOARD_WORDS }
    ensures { result ≡ access.board_at spaces word }
{
    spaces.first_word(spaces.board_page()) + word
}
