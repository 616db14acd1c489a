mod values;

ghost use Rattle.std.specs.Prelude.{◌≡◌, ◌≢◌, ◌^◌, ◌<◌, ℕ, IsTrue};
ghost use Rattle.atom_store.specs.Step.{place_in};
ghost use Rattle.heap_words.specs.Decoded.{decode};
ghost use Rattle.space_map.specs.Spaces.{page_of};
ghost use Rattle.space_map.specs.Table.{table_length};
ghost use Rattle.record_access.specs.Access.{FitsRecordUse, IsHeapAddress, IsSoundAccess, AccessTakes, advances_at, at_stage, compared, field_at, goes_by, is_at_target, left, looked, read_header, role_of, taken, told, turn_by, uses_field, wanted, writes_on};
ghost use Rattle.heap_state.specs.Meaning.Loaded.{FitsRole};

use crate::access_stage::AccessStage;
use crate::access_words::{held, on_board, using_board, using_field};
use crate::accessed::Accessed;
use crate::board_access::BoardSwap;
use crate::field_access::{FieldAccess, FieldExchange, FieldUse};
use crate::record_access::RecordAccess;
use atom_store::{Reply, Step, Turn};
use heap_words::Word;
use mmu_model::{Protection, check};
use record_layout::read;
use space_map::Spaces;

/// The access that one instruction makes to a record or to the board.
#[derive(Clone, Copy)]
pub struct Access {
    pub spaces: Spaces,
    pub epoch: u32,
    pub stage: AccessStage,
}

impl Access {
    /// The next step.
    #[inline(always)]
    pub fn want(&self) -> Step
        requires { IsSoundAccess self.now }
        ensures wanted { result ≡ wanted self.now }
        ensures in_table { place_in result < table_length self.now.spaces.pages }
    {
        let spaces = self.spaces;
        spaces.known();
        match self.stage {
            AccessStage::LooksAtRecord(r) => Step::Load(spaces.page_place(spaces.page_of(r.at))),
            AccessStage::LoadsHeader(r) => Step::Load(spaces.word_place(r.at)),
            AccessStage::LooksAtCount(m) => {
                Step::Load(spaces.page_place(spaces.page_of(m.at + 1)))
            }
            AccessStage::LoadsCount(m) => Step::Load(spaces.word_place(m.at + 1)),
            AccessStage::LooksAtField(f, _) => {
                Step::Load(spaces.page_place(spaces.page_of(f.at + f.word)))
            }
            AccessStage::LoadsField(f, _) => Step::Load(spaces.word_place(f.at + f.word)),
            AccessStage::StoresField(f, new) => {
                Step::Store(spaces.word_place(f.at + f.word), new)
            }
            AccessStage::LoadsForCas(f, _) => Step::Load(spaces.word_place(f.at + f.word)),
            AccessStage::ExchangesField(f, e, old) => {
                Step::Exchange(spaces.word_place(f.at + f.word), old, e.new)
            }
            AccessStage::LooksAtBoard(_) => Step::Load(spaces.page_place(spaces.board_page())),
            AccessStage::LoadsBoard(x, _) => Step::Load(spaces.word_place(on_board(spaces, x))),
            AccessStage::StoresBoard(x, new) => {
                Step::Store(spaces.word_place(on_board(spaces, x)), new)
            }
            AccessStage::LoadsForSwap(s) => {
                Step::Load(spaces.word_place(on_board(spaces, s.word)))
            }
            AccessStage::SwapsBoard(s, old) => {
                Step::Exchange(spaces.word_place(on_board(spaces, s.word)), old, s.new)
            }
        }
    }

    /// Whether it loads the target of a cell.
    pub fn is_at_target(&self) -> bool
        ensures { result ≡ is_at_target self.now.stage }
    {
        match self.stage {
            AccessStage::LooksAtField(f, _) | AccessStage::LoadsField(f, _) => f.role.is_target(),
            _ => false,
        }
    }

    /// The page on which it writes a word next, if it does.
    pub fn page_written(&self) -> Option<u32>
        requires { IsSoundAccess self.now }
        ensures { result ≡ writes_on self.now.spaces self.now.stage }
    {
        let spaces = self.spaces;
        spaces.known();
        match self.stage {
            AccessStage::StoresField(f, _) | AccessStage::ExchangesField(f, _, _) => {
                Some(spaces.page_of(f.at + f.word))
            }
            AccessStage::StoresBoard(..) | AccessStage::SwapsBoard(..) => Some(spaces.board_page()),
            _ => None,
        }
    }

    /// Takes the reply to it.
    #[inline(always)]
    pub fn take(&mut self, reply: Reply) -> Turn<Accessed>
        requires sound { IsSoundAccess self.old }
        requires takes { AccessTakes self.old.stage reply }
        ensures state { self.new ≡ taken self.old reply }
        ensures tells { result ≡ told self.old reply }
        ensures lowers { result ≡ Turn.More → IsTrue (advances_at self.old.stage reply) → left self.new < left self.old }
    {
        match reply {
            Reply::Value(word) => self.read(word),
            Reply::Won | Reply::Lost(_) | Reply::Done => self.hear(reply),
        }
    }

    /// Takes the word that was loaded.
    #[inline(always)]
    fn read(&mut self, word: u64) -> Turn<Accessed>
        requires sound { IsSoundAccess self.old }
        requires takes { AccessTakes self.old.stage (Reply.Value word) }
        ensures state { self.new ≡ taken self.old (Reply.Value word) }
        ensures tells { result ≡ told self.old (Reply.Value word) }
        ensures lowers { result ≡ Turn.More → IsTrue (advances_at self.old.stage (Reply.Value word)) → left self.new < left self.old }
    {
        let spaces = self.spaces;
        spaces.known();
        match self.stage {
            AccessStage::LooksAtRecord(r) => {
                self.look(spaces.page_of(r.at), word, AccessStage::LoadsHeader(r))
            }
            AccessStage::LoadsHeader(r) => self.read_header(r, word),
            AccessStage::LooksAtCount(m) => {
                self.look(spaces.page_of(m.at + 1), word, AccessStage::LoadsCount(m))
            }
            AccessStage::LoadsCount(m) => self.read_count(m, word),
            AccessStage::LooksAtField(f, usage) => self.look_at_field(f, usage, word),
            AccessStage::LoadsField(f, into) => {
                Turn::Finished(Accessed::Brings(into, held(f.role, word)))
            }
            AccessStage::LoadsForCas(f, e) => self.compare(f, e, word),
            AccessStage::LooksAtBoard(b) => {
                self.look(spaces.board_page(), word, using_board(b.word, b.usage))
            }
            AccessStage::LoadsBoard(_, into) => Turn::Finished(Accessed::Brings(into, word)),
            AccessStage::LoadsForSwap(s) => self.swap(s, word),
            AccessStage::StoresField(..)
            | AccessStage::ExchangesField(..)
            | AccessStage::StoresBoard(..)
            | AccessStage::SwapsBoard(..) => Turn::More,
        }
    }

    /// Takes what became of a store or an exchange.
    #[inline(always)]
    fn hear(&mut self, reply: Reply) -> Turn<Accessed>
        requires sound { IsSoundAccess self.old }
        requires takes { AccessTakes self.old.stage reply }
        requires no_word { (word : ℕ) → reply ≢ Reply.Value word }
        ensures state { self.new ≡ taken self.old reply }
        ensures tells { result ≡ told self.old reply }
        ensures lowers { result ≡ Turn.More → IsTrue (advances_at self.old.stage reply) → left self.new < left self.old }
    {
        match (self.stage, reply) {
            (AccessStage::StoresField(..) | AccessStage::StoresBoard(..), Reply::Done) => {
                Turn::Finished(Accessed::Stored)
            }
            (AccessStage::ExchangesField(_, e, _), Reply::Won) => {
                Turn::Finished(Accessed::Brings(e.into, Word::number(1).0))
            }
            (AccessStage::ExchangesField(f, e, _), Reply::Lost(_)) => {
                self.go_to(AccessStage::LoadsForCas(f, e))
            }
            (AccessStage::SwapsBoard(s, old), Reply::Won) => {
                Turn::Finished(Accessed::Brings(s.into, old))
            }
            (AccessStage::SwapsBoard(s, _), Reply::Lost(_)) => {
                self.go_to(AccessStage::LoadsForSwap(s))
            }
            _ => Turn::More,
        }
    }

    /// A field was read that is to be exchanged, if it is what is expected.
    #[inline(always)]
    fn compare(&mut self, f: FieldAccess, e: FieldExchange, word: u64) -> Turn<Accessed>
        requires fits { FitsRole (role_of f.role) word }
        ensures state { self.new ≡ goes_by self.old (compared f e word) }
        ensures tells { result ≡ turn_by (compared f e word) }
    {
        if held(f.role, word) == e.expected {
            self.go_to(AccessStage::ExchangesField(f, e, word))
        } else {
            Turn::Finished(Accessed::Brings(e.into, Word::number(0).0))
        }
    }

    /// The word of a field's page was read. It stands apart, as does `swap`, also where it is inlined, so that the room of the stage that
    /// it builds is cleared only here, and not at each step of an access.
    #[inline(always)]
    fn look_at_field(&mut self, f: FieldAccess, usage: FieldUse, word: u64) -> Turn<Accessed>
        requires { field_at f < 2 ^ 32 }
        ensures state { self.new ≡ goes_by self.old (looked (page_of (field_at f)) self.old.epoch word (uses_field f usage)) }
        ensures tells { result ≡ turn_by (looked (page_of (field_at f)) self.old.epoch word (uses_field f usage)) }
    {
        let page = self.spaces.page_of(f.at + f.word);
        self.look(page, word, using_field(f, usage))
    }

    #[inline(always)]
    fn swap(&mut self, s: BoardSwap, old: u64) -> Turn<Accessed>
        ensures state { self.new ≡ at_stage self.old (AccessStage.SwapsBoard s old) }
        ensures tells { result ≡ Turn.More }
    {
        self.go_to(AccessStage::SwapsBoard(s, old))
    }

    /// A page's word was read: the access goes on there, if the page is open.
    #[inline(always)]
    fn look(&mut self, page: u32, word: u64, next: AccessStage) -> Turn<Accessed>
        ensures state { self.new ≡ goes_by self.old (looked page self.old.epoch word next) }
        ensures tells { result ≡ turn_by (looked page self.old.epoch word next) }
    {
        match check(page, word, self.epoch) {
            Protection::Allowed => self.go_to(next),
            Protection::Fault(page) => Turn::Finished(Accessed::Faults(page)),
        }
    }

    /// A header's word was read. What is no header can't be there.
    #[tactic(auto, using(crate::proofs::Read::headers_are_read, crate::proofs::Read::others_are_not_read))]
    #[inline(always)]
    fn read_header(&mut self, r: RecordAccess, word: u64) -> Turn<Accessed>
        requires in_heap { IsHeapAddress self.old.spaces.pages r.at }
        requires fits { FitsRecordUse r.usage }
        ensures state { self.new ≡ goes_by self.old (read_header r (decode word)) }
        ensures tells { result ≡ turn_by (read_header r (decode word)) }
    {
        match read(word) {
            Some(header) => self.use_record(r, header),
            None => self.go_to(AccessStage::LoadsHeader(r)),
        }
    }

    #[inline(always)]
    fn go_to(&mut self, stage: AccessStage) -> Turn<Accessed>
        ensures state { self.new ≡ at_stage self.old stage }
        ensures tells { result ≡ Turn.More }
    {
        self.stage = stage;
        Turn::More
    }
}
