//! The access to a value of a record whose header was read.

ghost use Rattle.std.specs.Prelude.{◌≡◌, ◌+◌, ◌^◌, ◌<◌, ◌≤◌, Err, false, ℕ};
ghost use Rattle.heap_words.specs.Decoded.{decode, number_in};
ghost use Rattle.record_access.specs.Access.{FitsMixedUse, FitsRecordUse, IsHeapAddress, at_stage, by_kind, counted_by, counting, field_at, field_of, goes_by, goes_to_field, is_target, kind_of, loading, may_store, read_count, storing, to_field, turn_by, used_by, valued};
ghost use Rattle.record_access.specs.StoredWord.{goes_on_if};
ghost use Rattle.plain_state.specs.Holding.{in_record, may_hold};
ghost use Rattle.record_access.specs.Seen.{IsValueWord, value_seen};

use crate::access::Access;
use crate::access_stage::AccessStage;
use crate::access_words::{
    field, goes_on_at, goes_on_if, role_by_count, stored, tells_length, using_field,
};
use crate::accessed::Accessed;
use crate::field_access::{FieldAccess, FieldExchange, FieldUse, Role};
use crate::mixed_access::MixedAccess;
use crate::record_access::{RecordAccess, RecordUse};
use atom_store::Turn;
use heap_words::{Kind, Word};
use plain_state::End;
use record_layout::Header;

impl Access {
    /// A record is used by its header's kind. The count of a mixed one and the link of a cell are no values.
    #[inline(always)]
    pub(super) fn use_record(&mut self, r: RecordAccess, header: Header) -> Turn<Accessed>
        requires in_heap { IsHeapAddress self.old.spaces.pages r.at }
        requires fits { FitsRecordUse r.usage }
        ensures state { self.new ≡ goes_by self.old (by_kind r header.kind header.len) }
        ensures tells { result ≡ turn_by (by_kind r header.kind header.len) }
    {
        match header.kind {
            Kind::Fields => self.use_words(r, Role::Field, header.len),
            Kind::Raw => self.use_words(r, Role::Number, header.len),
            Kind::Mixed => self.use_mixed(r, header.len.saturating_sub(1)),
            Kind::Weak => self.use_cell(r, header.len.saturating_sub(1)),
        }
    }

    /// The values of the record begin behind its header, and all have this role.
    #[inline(always)]
    fn use_words(&mut self, r: RecordAccess, role: Role, len: u16) -> Turn<Accessed>
        requires stored { is_target role ≡ false }
        requires in_heap { IsHeapAddress self.old.spaces.pages r.at }
        requires fits { FitsRecordUse r.usage }
        requires short { len ≤ 4095 }
        ensures state { self.new ≡ goes_by self.old (used_by r role len r.usage) }
        ensures tells { result ≡ turn_by (used_by r role len r.usage) }
    {
        match r.usage {
            RecordUse::TellsLength(into) => tells_length(into, len),
            RecordUse::Loads(into) => self.load(r, role, len, into),
            RecordUse::Stores(new) => self.store(r, role, len, FieldUse::Stores(new), new),
            RecordUse::Compares(e) => self.exchange(r, role, len, e),
        }
    }

    #[inline(always)]
    fn load(&mut self, r: RecordAccess, role: Role, len: u16, into: u8) -> Turn<Accessed>
        requires in_heap { IsHeapAddress self.old.spaces.pages r.at }
        requires short { len ≤ 4095 }
        ensures state { self.new ≡ goes_by self.old (loading (field_of r.at 1 role r.value) into (in_record len r.value)) }
        ensures tells { result ≡ turn_by (loading (field_of r.at 1 role r.value) into (in_record len r.value)) }
    {
        self.spaces.known();
        if r.value >= u64::from(len) {
            return Turn::Finished(Accessed::Fails(End::OutOfRange));
        }
        self.go_to_field(field(r.at, 1, role, r.value as u32), FieldUse::Loads(into))
    }

    #[inline(always)]
    fn store(
        &mut self,
        r: RecordAccess,
        role: Role,
        len: u16,
        usage: FieldUse,
        new: u64,
    ) -> Turn<Accessed>
        requires stored { is_target role ≡ false }
        requires in_heap { IsHeapAddress self.old.spaces.pages r.at }
        requires short { len ≤ 4095 }
        requires is_value { IsValueWord new }
        ensures state { self.new ≡ goes_by self.old (storing (field_of r.at 1 role r.value) usage (may_store role new (in_record len r.value))) }
        ensures tells { result ≡ turn_by (storing (field_of r.at 1 role r.value) usage (may_store role new (in_record len r.value))) }
    {
        self.spaces.known();
        if r.value >= u64::from(len) {
            return Turn::Finished(Accessed::Fails(End::OutOfRange));
        }
        goes_on_if(self.store_in(field(r.at, 1, role, r.value as u32), usage, new))
    }

    #[inline(always)]
    fn exchange(
        &mut self,
        r: RecordAccess,
        role: Role,
        len: u16,
        e: FieldExchange,
    ) -> Turn<Accessed>
        requires stored { is_target role ≡ false }
        requires in_heap { IsHeapAddress self.old.spaces.pages r.at }
        requires short { len ≤ 4095 }
        requires is_value { IsValueWord e.new }
        ensures state { self.new ≡ goes_by self.old (storing (field_of r.at 1 role r.value) (FieldUse.Compares e) (may_store role e.new (in_record len r.value))) }
        ensures tells { result ≡ turn_by (storing (field_of r.at 1 role r.value) (FieldUse.Compares e) (may_store role e.new (in_record len r.value))) }
    {
        self.spaces.known();
        if r.value >= u64::from(len) {
            return Turn::Finished(Accessed::Fails(End::OutOfRange));
        }
        goes_on_if(self.exchange_apart(field(r.at, 1, role, r.value as u32), e))
    }

    /// An exchange stands apart for its size, as does what mixed records alone need: the rest of an access is then small enough to be
    /// inlined. Both only say whether they go on: what is handed back in memory would be kept there at each step of an access.
    #[inline(never)]
    fn exchange_apart(&mut self, f: FieldAccess, e: FieldExchange) -> bool
        requires stored { is_target f.role ≡ false }
        requires in_heap { field_at f < 2 ^ 32 }
        requires behind { (0 < f.first) × (f.first ≤ f.word) }
        requires is_value { IsValueWord e.new }
        ensures state { (x : ℕ) → self.new ≡ goes_by self.old (storing f (FieldUse.Compares e) (may_hold (kind_of f.role) x (value_seen e.new))) }
        ensures tells { (x : ℕ) → goes_on_if result ≡ turn_by (storing f (FieldUse.Compares e) (may_hold (kind_of f.role) x (value_seen e.new))) }
    {
        self.store_in(f, FieldUse::Compares(e), e.new)
    }

    /// A mixed record has the value or not by its header; what role it has the count says, which stands behind that.
    #[inline(always)]
    fn use_mixed(&mut self, r: RecordAccess, len: u16) -> Turn<Accessed>
        requires in_heap { IsHeapAddress self.old.spaces.pages r.at }
        requires short { len ≤ 4095 }
        ensures state { self.new ≡ goes_by self.old (counted_by r len r.usage) }
        ensures tells { result ≡ turn_by (counted_by r len r.usage) }
    {
        match r.usage {
            RecordUse::TellsLength(into) => tells_length(into, len),
            RecordUse::Loads(into) => self.go_to_count(r, len, FieldUse::Loads(into)),
            RecordUse::Stores(new) => self.go_to_count(r, len, FieldUse::Stores(new)),
            RecordUse::Compares(e) => self.go_to_count(r, len, FieldUse::Compares(e)),
        }
    }

    /// A cell has the value or not by its header, and it is loaded, but not replaced.
    #[inline(always)]
    fn use_cell(&mut self, r: RecordAccess, len: u16) -> Turn<Accessed>
        requires in_heap { IsHeapAddress self.old.spaces.pages r.at }
        requires short { len ≤ 4095 }
        ensures state { self.new ≡ goes_by self.old (used_by r Role.Target len r.usage) }
        ensures tells { result ≡ turn_by (used_by r Role.Target len r.usage) }
    {
        match r.usage {
            RecordUse::TellsLength(into) => tells_length(into, len),
            RecordUse::Loads(into) => self.load(r, Role::Target, len, into),
            RecordUse::Stores(_) | RecordUse::Compares(_) => {
                Turn::Finished(Accessed::Fails(refusal(r.value, len)))
            }
        }
    }

    /// A count on the header's own page needs no other look.
    #[inline(always)]
    fn go_to_count(&mut self, r: RecordAccess, len: u16, usage: FieldUse) -> Turn<Accessed>
        requires in_heap { IsHeapAddress self.old.spaces.pages r.at }
        requires short { len ≤ 4095 }
        ensures state { self.new ≡ goes_by self.old (counting r.at usage (in_record len r.value)) }
        ensures tells { result ≡ turn_by (counting r.at usage (in_record len r.value)) }
    {
        let spaces = self.spaces;
        spaces.known();
        if r.value >= u64::from(len) {
            return Turn::Finished(Accessed::Fails(End::OutOfRange));
        }
        let m = MixedAccess {
            at: r.at,
            value: r.value as u32,
            usage,
        };
        if spaces.page_of(m.at) == spaces.page_of(m.at + 1) {
            self.go_to(AccessStage::LoadsCount(m))
        } else {
            self.go_to(AccessStage::LooksAtCount(m))
        }
    }

    /// A count's word was read. What is no number can't be there.
    #[inline(always)]
    pub(super) fn read_count(&mut self, m: MixedAccess, word: u64) -> Turn<Accessed>
        requires in_heap { IsHeapAddress self.old.spaces.pages (m.at + (m.value + 2)) }
        requires fits { FitsMixedUse m.usage }
        ensures state { self.new ≡ goes_by self.old (read_count m (number_in (decode word))) }
        ensures tells { result ≡ turn_by (read_count m (number_in (decode word))) }
    {
        goes_on_if(self.read_count_apart(m, word))
    }

    #[inline(never)]
    fn read_count_apart(&mut self, m: MixedAccess, word: u64) -> bool
        requires in_heap { IsHeapAddress self.old.spaces.pages (m.at + (m.value + 2)) }
        requires fits { FitsMixedUse m.usage }
        ensures state { self.new ≡ goes_by self.old (read_count m (number_in (decode word))) }
        ensures tells { goes_on_if result ≡ turn_by (read_count m (number_in (decode word))) }
    {
        match Word(word).as_number() {
            Some(count) => self.use_value(m, role_by_count(count, m.value)),
            None => {
                self.go_to(AccessStage::LoadsCount(m));
                true
            }
        }
    }

    /// The values of a mixed record begin behind its count.
    #[inline(always)]
    fn use_value(&mut self, m: MixedAccess, role: Role) -> bool
        requires stored { is_target role ≡ false }
        requires in_heap { IsHeapAddress self.old.spaces.pages (m.at + (m.value + 2)) }
        requires fits { FitsMixedUse m.usage }
        ensures state { self.new ≡ goes_by self.old (valued m role m.usage) }
        ensures tells { goes_on_if result ≡ turn_by (valued m role m.usage) }
    {
        self.spaces.known();
        let f = field(m.at, 2, role, m.value);
        match m.usage {
            FieldUse::Loads(_) => {
                self.go_to_field(f, m.usage);
                true
            }
            FieldUse::Stores(new) => self.store_in(f, m.usage, new),
            FieldUse::Compares(e) => self.store_in(f, m.usage, e.new),
        }
    }

    /// A register's word is stored there, if it may be. It says whether the access goes on.
    #[tactic(auto, using(crate::proofs::StoredWords::stores_held, crate::proofs::StoredWords::fails_unheld))]
    #[inline(always)]
    fn store_in(&mut self, f: FieldAccess, usage: FieldUse, new: u64) -> bool
        requires stored { is_target f.role ≡ false }
        requires in_heap { field_at f < 2 ^ 32 }
        requires behind { (0 < f.first) × (f.first ≤ f.word) }
        requires is_value { IsValueWord new }
        ensures state { (x : ℕ) → self.new ≡ goes_by self.old (storing f usage (may_hold (kind_of f.role) x (value_seen new))) }
        ensures tells { (x : ℕ) → goes_on_if result ≡ turn_by (storing f usage (may_hold (kind_of f.role) x (value_seen new))) }
    {
        match stored(f.role, new) {
            Some(word) => {
                self.go_to_field(f, usage.with_new(word));
                true
            }
            None => false,
        }
    }

    /// A field on the page of the word that was read last needs no other look.
    #[inline(always)]
    fn go_to_field(&mut self, f: FieldAccess, usage: FieldUse) -> Turn<Accessed>
        requires in_heap { field_at f < 2 ^ 32 }
        requires behind { (0 < f.first) × (f.first ≤ f.word) }
        ensures state { self.new ≡ at_stage self.old (goes_to_field f usage) }
        ensures tells { result ≡ turn_by (to_field usage f) }
    {
        let spaces = self.spaces;
        if spaces.page_of(f.at + (f.first - 1)) == spaces.page_of(f.at + f.word) {
            self.stage = using_field(f, usage);
        } else {
            self.stage = AccessStage::LooksAtField(f, usage);
        }
        goes_on_at(f.role)
    }
}

/// The end of a mutator that replaces a value of a cell which has so many.
fn refusal(value: u64, len: u16) -> End
    ensures { (new : ℕ) → Err result ≡ may_store Role.Target new (in_record len value) }
{
    if value < u64::from(len) {
        End::WeakCell
    } else {
        End::OutOfRange
    }
}
