mod on_words;

ghost use Rattle.std.specs.Prelude.{◌≡◌, ◌+◌, ◌*◌, ◌^◌, ◌<◌, ◌≤◌, Some, IsTrue};
ghost use Rattle.atom_store.specs.Step.{place_in};
ghost use Rattle.record_layout.specs.declared.header.Header.{Header};
ghost use Rattle.space_map.specs.AreaWord.{AreaFits, decode_area};
ghost use Rattle.space_map.specs.Spaces.{to_space};
ghost use Rattle.space_map.specs.Table.{Area, Size, place_of, table_length, whole_length};
ghost use Rattle.alloc_end.specs.Place.{begun, wanted, taken, told, left, advances, size_of, pages_for, words_for, kept_room, looked_at_area, area_after, shortage, readies, cleared, writes_on, after_opening, placed, at_stage, first_claimed, stores_first};
ghost use Rattle.alloc_end.specs.Soundness.{RunLiesInSpaces, HasRoomToMark, HoldsFields, HoldsTargetAndLink, IsSoundPlacing, IsPlacingGoing, FitsPlaceStage, AreaHoldsClaim};

use crate::allocated::Allocated;
use crate::fitting::Fitting;
use crate::new_pages::NewPages;
use crate::place_stage::PlaceStage;
use crate::run::Run;
use crate::shortage::Shortage;
use atom_store::{Reply, Step, Turn};
use heap_words::{Kind, Word};
use record_layout::{Header, pack};
use space_map::{AreaWord, PAGE_WORDS, PageWord, SaveWord, Spaces};
use std::marker::Model;

/// The allocation of one record, by a running mutator.
#[derive(Clone, Copy)]
pub struct Place {
    spaces: Spaces,
    run: Run,
    header: Header,
    fields: u16,
    epoch: u32,
    snap: u32,
    target: u64,
    stage: PlaceStage,
}

impl Model for Place {
    ghost use Rattle.alloc_end.specs.Place.{Placing};
    ghost use Rattle.alloc_end.specs.Soundness.{IsSoundPlacing};

    ghost Value = { Placing };

    ghost view = { λ p. record { layout = p.spaces; run = p.run; header = p.header; fields = p.fields; epoch = p.epoch; snap = p.snap; target = p.target; stage = p.stage } };

    ghost invariant = { λ p. IsSoundPlacing (record { layout = p.spaces; run = p.run; header = p.header; fields = p.fields; epoch = p.epoch; snap = p.snap; target = p.target; stage = p.stage }) };

    ghost inverse = { λ p. record { spaces = p.layout; run = p.run; header = p.header; fields = p.fields; epoch = p.epoch; snap = p.snap; target = p.target; stage = p.stage } };
}

impl Place {
    /// The allocation of a record with this header, if it is mixed with so many fields, and if it is a cell with this word as
    /// its target, by a mutator of this epoch that has this run, and saw so many checkpoints begun.
    pub fn new(
        spaces: Spaces,
        run: Run,
        header: Header,
        epoch: u32,
        fields: u16,
        snap: u32,
        target: u64,
    ) -> Place
        requires in_spaces { RunLiesInSpaces spaces.pages run }
        requires holds { HoldsFields header fields }
        requires cell { HoldsTargetAndLink header }
        requires room { HasRoomToMark spaces snap }
        ensures { result ≡ begun spaces run header epoch fields snap target }
    {
        spaces.known();
        let stage = if run.at + size(header) <= run.end {
            first_store(header.kind)
        } else {
            PlaceStage::LoadsTraced
        };
        Place {
            spaces,
            run,
            header,
            fields,
            epoch,
            snap,
            target,
            stage,
        }
    }

    /// The run: after the result, what is left of it for the next record.
    pub fn run(&self) -> Run
        ensures { result ≡ self.now.run }
    {
        self.run
    }

    /// The next step.
    #[inline(always)]
    pub fn want(&self) -> Step
        requires { IsPlacingGoing self.now.stage }
        ensures wanted { wanted self.now ≡ Some result }
        ensures in_table { place_in result < whole_length self.now.layout }
    {
        let spaces = self.spaces;
        match self.stage {
            PlaceStage::LoadsTraced => Step::Load(spaces.traced_place()),
            PlaceStage::LoadsSize(_) => Step::Load(self.size_place()),
            PlaceStage::LoadsArea(_, _) => Step::Load(self.area_place()),
            PlaceStage::ExchangesArea(fitting) => Step::Exchange(
                self.area_place(),
                fitting.area.pack(),
                claimed(spaces, self.header, fitting).pack(),
            ),
            PlaceStage::StoresZero(new) => Step::Store(spaces.word_place(new.next), 0),
            PlaceStage::StoresNew(new) => {
                Step::Store(spaces.save_place(new.next), SaveWord::New(self.snap).pack())
            }
            PlaceStage::OpensPage(new) => {
                Step::Store(
                    spaces.page_place(new.next),
                    PageWord::Open(self.epoch).pack(),
                )
            }
            PlaceStage::StoresCount => Step::Store(
                spaces.word_place(self.run.at + 1),
                Word::number(u64::from(self.fields)).0,
            ),
            PlaceStage::StoresTarget => {
                Step::Store(spaces.word_place(self.run.at + 1), self.target)
            }
            PlaceStage::StoresLink => Step::Store(spaces.word_place(self.run.at + 2), 0),
            PlaceStage::StoresHeader => {
                Step::Store(spaces.word_place(self.run.at), pack(&self.header))
            }
            PlaceStage::Ended(_) => unreachable!(),
        }
    }

    /// The page on which it writes a word of its record next, if it does.
    pub fn page_written(&self) -> Option<u32>
        ensures { result ≡ writes_on self.now self.now.stage }
    {
        let spaces = self.spaces;
        spaces.known();
        match self.stage {
            PlaceStage::StoresCount | PlaceStage::StoresTarget => {
                Some(spaces.page_of(self.run.at + 1))
            }
            PlaceStage::StoresLink => Some(spaces.page_of(self.run.at + 2)),
            PlaceStage::StoresHeader => Some(spaces.page_of(self.run.at)),
            _ => None,
        }
    }

    /// Takes the reply to it.
    #[inline(always)]
    pub fn take(&mut self, reply: Reply) -> Turn<Allocated>
        requires going { IsPlacingGoing self.old.stage }
        requires allowed { IsSoundPlacing (taken self.old reply) }
        ensures state { self.new ≡ taken self.old reply }
        ensures tells { result ≡ told self.new }
        ensures lowers { IsTrue (advances self.old reply) → left self.new < left self.old }
    {
        match (self.stage, reply) {
            (PlaceStage::LoadsTraced, Reply::Value(word)) => {
                self.stage = PlaceStage::LoadsSize(word == u64::from(self.epoch) + 1);
                Turn::More
            }
            (PlaceStage::LoadsSize(traced), Reply::Value(word)) => {
                self.spaces.known();
                self.stage = PlaceStage::LoadsArea(traced, word as u32);
                Turn::More
            }
            (PlaceStage::LoadsArea(traced, size), Reply::Value(word)) => {
                self.look_at_area(traced, size, word)
            }
            (PlaceStage::ExchangesArea(fitting), Reply::Won) => self.claim(fitting),
            (PlaceStage::ExchangesArea(_), Reply::Lost(_)) => {
                self.stage = PlaceStage::LoadsTraced;
                Turn::More
            }
            (PlaceStage::StoresZero(new), Reply::Done) => self.clear(new),
            (PlaceStage::StoresNew(new), Reply::Done) => {
                self.stage = PlaceStage::OpensPage(new);
                Turn::More
            }
            (PlaceStage::OpensPage(new), Reply::Done) => self.open(new),
            (PlaceStage::StoresTarget, Reply::Done) => {
                self.stage = PlaceStage::StoresLink;
                Turn::More
            }
            (PlaceStage::StoresCount | PlaceStage::StoresLink, Reply::Done) => {
                self.stage = PlaceStage::StoresHeader;
                Turn::More
            }
            (PlaceStage::StoresHeader, Reply::Done) => self.place(),
            _ => Turn::More,
        }
    }

    #[inline(always)]
    fn look_at_area(&mut self, traced: bool, size: u32, word: u64) -> Turn<Allocated>
        requires { IsSoundPlacing (at_stage self.old (looked_at_area self.old traced size (decode_area word))) }
        ensures state { self.new ≡ at_stage self.old (looked_at_area self.old traced size (decode_area word)) }
        ensures tells { result ≡ told self.new }
    {
        let Some(area) = AreaWord::read(word) else {
            self.stage = PlaceStage::LoadsArea(traced, size);
            return Turn::More;
        };
        let owed = if traced { 0 } else { area.owed };
        let room = area.low.saturating_sub(area.front);
        let asked = pages(self.header);
        if PAGE_WORDS * asked + owed <= room {
            self.stage = PlaceStage::ExchangesArea(Fitting { traced, area });
            return Turn::More;
        }
        let live = area.front;
        self.end(Allocated::Full(Shortage {
            asked,
            room,
            owed,
            traced,
            live,
            size,
        }))
    }

    fn claim(&mut self, fitting: Fitting) -> Turn<Allocated>
        requires { AreaHoldsClaim self.old.layout.pages (words_for self.old.header) fitting }
        ensures state { self.new ≡ at_stage self.old (PlaceStage.StoresZero (record { first = first_claimed self.old fitting; next = first_claimed self.old fitting })) }
        ensures tells { result ≡ told self.new }
    {
        self.spaces.known();
        let start = self.spaces.space_start(self.spaces.to_space(self.epoch));
        let first = start + (fitting.area.low - PAGE_WORDS * pages(self.header));
        self.stage = PlaceStage::StoresZero(NewPages { first, next: first });
        Turn::More
    }

    fn clear(&mut self, new: NewPages) -> Turn<Allocated>
        requires { FitsPlaceStage self.old.layout.pages (pages_for (size_of self.old.header)) self.old.snap self.old.run self.old.header (PlaceStage.StoresZero new) }
        ensures state { self.new ≡ at_stage self.old (cleared (words_for self.old.header) self.old.snap new) }
        ensures tells { result ≡ told self.new }
    {
        self.spaces.known();
        let NewPages { first, next } = new;
        self.stage = if next + 1 < first + PAGE_WORDS * pages(self.header) {
            PlaceStage::StoresZero(NewPages {
                first,
                next: next + 1,
            })
        } else {
            let next = self.spaces.page_of(first);
            readies(self.snap, NewPages { first, next })
        };
        Turn::More
    }

    fn open(&mut self, new: NewPages) -> Turn<Allocated>
        requires { FitsPlaceStage self.old.layout.pages (pages_for (size_of self.old.header)) self.old.snap self.old.run self.old.header (PlaceStage.OpensPage new) }
        ensures state { self.new ≡ after_opening self.old new }
        ensures tells { result ≡ told self.new }
    {
        self.spaces.known();
        let NewPages { first, next } = new;
        let asked = pages(self.header);
        if next + 1 < self.spaces.page_of(first) + asked {
            let next = next + 1;
            self.stage = readies(self.snap, NewPages { first, next });
        } else {
            self.run = Run {
                at: first,
                end: first + PAGE_WORDS * asked,
            };
            self.stage = first_store(self.header.kind);
        }
        Turn::More
    }

    fn place(&mut self) -> Turn<Allocated>
        requires { self.old.run.at + size_of self.old.header ≤ self.old.run.end }
        ensures state { self.new ≡ placed self.old }
        ensures tells { result ≡ told self.new }
    {
        self.spaces.known();
        let at = self.run.at;
        let outcome = Allocated::Placed(at);
        self.run.at = at + size(self.header);
        self.stage = PlaceStage::Ended(outcome);
        Turn::Finished(outcome)
    }

    fn end(&mut self, outcome: Allocated) -> Turn<Allocated>
        ensures state { self.new ≡ at_stage self.old (PlaceStage.Ended outcome) }
        ensures tells { result ≡ told self.new }
    {
        self.stage = PlaceStage::Ended(outcome);
        Turn::Finished(outcome)
    }

    fn size_place(&self) -> usize
        ensures place { result ≡ place_of self.now.layout.pages (Size (to_space self.now.epoch)) }
        ensures in_table { result < table_length self.now.layout.pages }
    {
        self.spaces.size_place(self.spaces.to_space(self.epoch))
    }

    fn area_place(&self) -> usize
        ensures place { result ≡ place_of self.now.layout.pages (Area (to_space self.now.epoch)) }
        ensures in_table { result < table_length self.now.layout.pages }
    {
        self.spaces.area_place(self.spaces.to_space(self.epoch))
    }
}

/// The area after the claim of the pages that the record needs.
fn claimed(spaces: Spaces, header: Header, fitting: Fitting) -> AreaWord
    requires { AreaHoldsClaim spaces.pages (words_for header) fitting }
    ensures area { result ≡ area_after (words_for header) fitting }
    ensures fits { AreaFits result }
{
    spaces.known();
    AreaWord {
        front: fitting.area.front,
        low: fitting.area.low - PAGE_WORDS * pages(header),
        owed: if fitting.traced { 0 } else { fitting.area.owed },
    }
}

/// The pages that a record with this header needs.
fn pages(header: Header) -> u32
    ensures pages { result ≡ pages_for (size_of header) }
    ensures in_range { result ≤ 64 }
{
    size(header).div_ceil(PAGE_WORDS)
}

/// What is done for a page whose words are cleared: it is opened, but first marked as new, if a checkpoint was begun.
fn readies(snap: u32, new: NewPages) -> PlaceStage
    ensures { result ≡ readies snap new }
{
    match snap {
        0 => PlaceStage::OpensPage(new),
        _ => PlaceStage::StoresNew(new),
    }
}

/// The first store of a record into the run.
fn first_store(kind: Kind) -> PlaceStage
    ensures { result ≡ stores_first kind }
{
    match kind {
        Kind::Mixed => PlaceStage::StoresCount,
        Kind::Weak => PlaceStage::StoresTarget,
        Kind::Fields | Kind::Raw => PlaceStage::StoresHeader,
    }
}

fn size(header: Header) -> u32
    ensures size { result ≡ size_of header }
    ensures in_range { result ≤ 4096 }
{
    u32::from(header.len) + 1
}
