mod on_words;

ghost use Rattle.std.specs.Prelude.{◌≡◌, ◌≢◌, ◌+◌, ◌*◌, ◌^◌, ◌<◌, ◌≤◌, ℕ, Some, IsTrue};
ghost use Rattle.atom_store.specs.declared.reply.Reply.TheVariants.{Value, Done, Won, Lost};
ghost use Rattle.atom_store.specs.Step.{place_in};
ghost use Rattle.heap_words.specs.Decoded.{decode};
ghost use Rattle.heap_words.specs.Word.{busy_word, forward_word};
ghost use Rattle.space_map.specs.Spaces.{past_heaps};
ghost use Rattle.space_map.specs.declared.spaces.TheConstants.{LAST_WORKER};
ghost use Rattle.space_map.specs.AreaWord.{AreaFits, decode_area};
ghost use Rattle.space_map.specs.Table.{table_length};
ghost use Rattle.forwarding.specs.Evacuation.{IsGoing, area_past, begun, front_of, is_cell, size_of, wanted};
ghost use Rattle.forwarding.specs.Keeping.{address_reserved, header_kept, kept_word, reserved_word};
ghost use Rattle.forwarding.specs.Left.{advances, left};
ghost use Rattle.forwarding.specs.Soundness.{IsSound, HasReserved, AreaHoldsCopy};
ghost use Rattle.forwarding.specs.Taken.{by_area, by_first_word, by_other_area, copied, crossed, first_page, published, reserved_at, stage_after, taken, told};

use crate::evac_stage::EvacStage;
use crate::kept_header::KeptHeader;
use crate::loaded_word::LoadedWord;
use crate::reserved::Reserved;
use crate::to::To;
use atom_store::{Reply, Step, Turn};
use heap_words::Kind;
use record_layout::{Busy, Forward, pack_busy, pack_forward, read, read_forward};
use space_map::{AreaWord, PAGE_WORDS, Spaces, crossed};
use std::marker::Model;

/// The number of a cell's link among its words: header, target, link.
const LINK: u32 = 2;

/// The copy of the record at an address of the old space of an epoch, by one worker.
#[derive(Clone, Copy)]
pub struct Evac {
    spaces: Spaces,
    addr: u32,
    epoch: u32,
    worker: u8,
    stage: EvacStage,
}

impl Model for Evac {
    ghost use Rattle.forwarding.specs.Evacuation.{Evacuation};
    ghost use Rattle.forwarding.specs.Soundness.{IsSound};

    ghost Value = { Evacuation };

    ghost view = { λ v. record { layout = v.spaces; addr = v.addr; epoch = v.epoch; worker = v.worker; stage = v.stage } };

    ghost invariant = { λ v. IsSound (record { layout = v.spaces; addr = v.addr; epoch = v.epoch; worker = v.worker; stage = v.stage }) };

    ghost inverse = { λ v. record { spaces = v.layout; addr = v.addr; epoch = v.epoch; worker = v.worker; stage = v.stage } };
}

impl Evac {
    /// The copy of the record at an address, which is to lie in the space that isn't the epoch's.
    pub fn new(spaces: Spaces, addr: u32, epoch: u32, worker: u8) -> Evac
        requires addr { addr < 128 * spaces.pages }
        requires worker { worker ≤ LAST_WORKER }
        ensures { result ≡ begun spaces addr epoch worker }
    {
        spaces.known();
        Evac {
            spaces,
            addr,
            epoch,
            worker,
            stage: EvacStage::LoadsHeader,
        }
    }

    /// The next step.
    #[inline(always)]
    pub fn want(&self) -> Step
        requires { IsGoing self.now.stage }
        ensures wanted { wanted self.now ≡ Some result }
        ensures in_table { place_in result < table_length self.now.layout.pages }
    {
        let spaces = self.spaces;
        match self.stage {
            EvacStage::LoadsHeader => Step::Load(spaces.word_place(self.addr)),
            EvacStage::TakesHeader(kept) => Step::Exchange(
                spaces.word_place(self.addr),
                kept.word,
                busy(kept, self.worker),
            ),
            EvacStage::LoadsArea(_) => Step::Load(spaces.area_place(spaces.to_space(self.epoch))),
            EvacStage::Announces(kept, area) => Step::Store(
                spaces.announce_place(self.worker),
                u64::from(front(spaces, self.epoch, kept, area)) + 1,
            ),
            EvacStage::Reserves(kept, area) => Step::Exchange(
                spaces.area_place(spaces.to_space(self.epoch)),
                area.pack(),
                past(kept, area).pack(),
            ),
            EvacStage::StoresHeader(r) => Step::Store(spaces.word_place(r.to), r.kept.word),
            EvacStage::LoadsWord(_, i) => Step::Load(spaces.word_place(self.addr + i)),
            EvacStage::StoresWord(r, w) => Step::Store(spaces.word_place(r.to + w.number), w.word),
            EvacStage::StoresCross(r, page) => Step::Store(
                spaces.cross_place(page),
                u64::from(r.to),
            ),
            EvacStage::StoresForward(r) => Step::Store(spaces.word_place(self.addr), forward(r)),
            EvacStage::LoadsWeak(_) => Step::Load(spaces.weak_place()),
            EvacStage::StoresLink(to, head) => Step::Store(spaces.word_place(to + LINK), head),
            EvacStage::TakesWeak(to, head) => Step::Exchange(
                spaces.weak_place(),
                head,
                u64::from(to) + 1,
            ),
            EvacStage::Clears(_) => Step::Store(spaces.announce_place(self.worker), 0),
            EvacStage::Ended(_) => unreachable!(),
        }
    }

    /// Takes the reply to it.
    #[inline(always)]
    pub fn take(&mut self, reply: Reply) -> Turn<To>
        requires going { IsGoing self.old.stage }
        requires sound { IsSound (taken self.old reply) }
        ensures state { self.new ≡ taken self.old reply }
        ensures told { result ≡ told (taken self.old reply).stage }
        ensures lowers { IsTrue (advances self.old.stage reply) → left self.new < left self.old }
    {
        match reply {
            Reply::Value(word) => self.has_loaded(word),
            Reply::Done => self.has_stored(),
            Reply::Won | Reply::Lost(_) => self.has_exchanged(reply),
        }
    }

    /// Takes the word that was loaded.
    fn has_loaded(&mut self, word: u64) -> Turn<To>
        requires going { IsGoing self.old.stage }
        requires sound { IsSound (taken self.old (Value word)) }
        ensures state { self.new ≡ taken self.old (Value word) }
        ensures told { result ≡ told (taken self.old (Value word)).stage }
        ensures lowers { IsTrue (advances self.old.stage (Value word)) → left self.new < left self.old }
    {
        match self.stage {
            EvacStage::LoadsHeader => self.reads_header(word),
            EvacStage::LoadsArea(kept) => self.reads_area(kept, word),
            EvacStage::LoadsWord(r, number) => {
                self.goes_to(EvacStage::StoresWord(r, LoadedWord { number, word }))
            }
            EvacStage::LoadsWeak(to) => self.goes_to(EvacStage::StoresLink(to, word)),
            _ => Turn::More,
        }
    }

    /// Goes on from a store.
    fn has_stored(&mut self) -> Turn<To>
        requires going { IsGoing self.old.stage }
        requires sound { IsSound (taken self.old Done) }
        ensures state { self.new ≡ taken self.old Done }
        ensures told { result ≡ told (taken self.old Done).stage }
        ensures lowers { IsTrue (advances self.old.stage Done) → left self.new < left self.old }
    {
        match self.stage {
            EvacStage::Announces(kept, area) => self.goes_to(EvacStage::Reserves(kept, area)),
            EvacStage::StoresHeader(r) => self.has_copied(r, 1),
            EvacStage::StoresWord(r, w) => self.has_copied(r, w.number + 1),
            EvacStage::StoresCross(r, page) => self.has_crossed(r, page + 1),
            EvacStage::StoresForward(r) => self.has_published(r),
            EvacStage::StoresLink(to, head) => self.goes_to(EvacStage::TakesWeak(to, head)),
            EvacStage::Clears(to) => self.ends(to),
            _ => Turn::More,
        }
    }

    /// Takes what became of an exchange.
    fn has_exchanged(&mut self, reply: Reply) -> Turn<To>
        requires going { IsGoing self.old.stage }
        requires sound { IsSound (taken self.old reply) }
        requires no_word { (word : ℕ) → reply ≢ Value word }
        requires no_store { reply ≢ Done }
        ensures state { self.new ≡ taken self.old reply }
        ensures told { result ≡ told (taken self.old reply).stage }
        ensures lowers { IsTrue (advances self.old.stage reply) → left self.new < left self.old }
    {
        match (self.stage, reply) {
            (EvacStage::TakesHeader(kept), Reply::Won) => self.goes_to(EvacStage::LoadsArea(kept)),
            (EvacStage::TakesHeader(_), Reply::Lost(_)) => self.goes_to(EvacStage::LoadsHeader),
            (EvacStage::Reserves(kept, area), Reply::Won) => self.has_reserved(kept, area),
            (EvacStage::Reserves(kept, area), Reply::Lost(word)) => {
                self.reads_other_area(kept, area, word)
            }
            (EvacStage::TakesWeak(to, _), Reply::Won) => self.goes_to(EvacStage::Clears(to)),
            (EvacStage::TakesWeak(to, _), Reply::Lost(_)) => self.goes_to(EvacStage::LoadsWeak(to)),
            _ => Turn::More,
        }
    }

    /// The header that the worker keeps, and the address that it has reserved and one more; 0 for none.
    pub fn kept(&self) -> (u64, u64)
        ensures header { result.0 ≡ kept_word (header_kept self.now.stage) }
        ensures place { result.1 ≡ reserved_word (address_reserved self.now.stage) }
    {
        match self.stage {
            EvacStage::LoadsArea(kept)
            | EvacStage::Announces(kept, _)
            | EvacStage::Reserves(kept, _) => (kept.word, 0),
            EvacStage::StoresHeader(r)
            | EvacStage::LoadsWord(r, _)
            | EvacStage::StoresWord(r, _)
            | EvacStage::StoresCross(r, _)
            | EvacStage::StoresForward(r) => (r.kept.word, u64::from(r.to) + 1),
            EvacStage::LoadsHeader
            | EvacStage::TakesHeader(_)
            | EvacStage::LoadsWeak(_)
            | EvacStage::StoresLink(..)
            | EvacStage::TakesWeak(..)
            | EvacStage::Clears(_)
            | EvacStage::Ended(_) => (0, 0),
        }
    }

    fn goes_to(&mut self, stage: EvacStage) -> Turn<To>
        requires going { IsGoing stage }
        requires sound { IsSound (record self.old { stage = stage }) }
        ensures state { self.new ≡ record self.old { stage = stage } }
        ensures told { result ≡ Turn.More }
    {
        self.stage = stage;
        Turn::More
    }

    fn ends(&mut self, to: u32) -> Turn<To>
        requires { to < 2 ^ 32 }
        ensures state { self.new ≡ record self.old { stage = EvacStage.Ended to } }
        ensures told { result ≡ Turn.Finished (record { 0 = to }) }
    {
        self.stage = EvacStage::Ended(to);
        Turn::Finished(To(to))
    }

    /// A forward leads to the copy, a header is to be taken, and what another worker has taken is looked at again.
    fn reads_header(&mut self, word: u64) -> Turn<To>
        requires { IsSound (record self.old { stage = by_first_word word (decode word) }) }
        ensures state { self.new ≡ record self.old { stage = by_first_word word (decode word) } }
        ensures told { result ≡ told (by_first_word word (decode word)) }
    {
        if let Some(forward) = read_forward(word) {
            return self.ends(forward.addr);
        }
        match read(word) {
            Some(header) => self.goes_to(EvacStage::TakesHeader(KeptHeader {
                word,
                kind: header.kind,
                len: header.len,
            })),
            None => self.goes_to(EvacStage::LoadsHeader),
        }
    }

    fn reads_area(&mut self, kept: KeptHeader, word: u64) -> Turn<To>
        requires { IsSound (record self.old { stage = by_area kept (decode_area word) }) }
        ensures state { self.new ≡ record self.old { stage = by_area kept (decode_area word) } }
        ensures told { result ≡ Turn.More }
    {
        match AreaWord::read(word) {
            Some(area) => self.goes_to(EvacStage::Announces(kept, area)),
            None => self.goes_to(EvacStage::LoadsArea(kept)),
        }
    }

    /// Another FRONT is announced first, before the exchange is tried again.
    fn reads_other_area(&mut self, kept: KeptHeader, area: AreaWord, word: u64) -> Turn<To>
        requires { IsSound (record self.old { stage = by_other_area kept area (decode_area word) }) }
        ensures state { self.new ≡ record self.old { stage = by_other_area kept area (decode_area word) } }
        ensures told { result ≡ Turn.More }
    {
        let Some(other) = AreaWord::read(word) else {
            return self.goes_to(EvacStage::Reserves(kept, area));
        };
        if other.front == area.front {
            self.goes_to(EvacStage::Reserves(kept, other))
        } else {
            self.goes_to(EvacStage::Announces(kept, other))
        }
    }

    fn has_reserved(&mut self, kept: KeptHeader, area: AreaWord) -> Turn<To>
        requires room { AreaHoldsCopy self.old.layout.pages (size_of kept) area }
        requires sound { IsSound (record self.old { stage = EvacStage.StoresHeader (reserved_at self.old.layout self.old.epoch kept area) }) }
        ensures state { self.new ≡ record self.old { stage = EvacStage.StoresHeader (reserved_at self.old.layout self.old.epoch kept area) } }
        ensures told { result ≡ Turn.More }
    {
        let to = front(self.spaces, self.epoch, kept, area);
        self.stage = EvacStage::StoresHeader(Reserved { kept, to });
        Turn::More
    }

    fn has_copied(&mut self, r: Reserved, count: u32) -> Turn<To>
        requires room { HasReserved self.old.layout.pages self.old.addr r }
        requires sound { IsSound (record self.old { stage = copied r count }) }
        ensures state { self.new ≡ record self.old { stage = copied r count } }
        ensures told { result ≡ Turn.More }
    {
        self.spaces.known();
        if count < size(r.kept) {
            self.goes_to(EvacStage::LoadsWord(r, count))
        } else {
            let (first, _) = crossed(r.to, size(r.kept));
            self.has_crossed(r, first)
        }
    }

    fn has_crossed(&mut self, r: Reserved, page: u32) -> Turn<To>
        requires room { HasReserved self.old.layout.pages self.old.addr r }
        requires near { page ≤ 2 * self.old.layout.pages }
        requires sound { IsSound (record self.old { stage = crossed r page }) }
        ensures state { self.new ≡ record self.old { stage = crossed r page } }
        ensures told { result ≡ Turn.More }
    {
        self.spaces.known();
        if PAGE_WORDS * page < r.to + size(r.kept) {
            self.goes_to(EvacStage::StoresCross(r, page))
        } else {
            self.goes_to(EvacStage::StoresForward(r))
        }
    }

    /// The copy of a cell is linked next.
    fn has_published(&mut self, r: Reserved) -> Turn<To>
        requires { IsSound (record self.old { stage = published r }) }
        ensures state { self.new ≡ record self.old { stage = published r } }
        ensures told { result ≡ Turn.More }
    {
        if is_cell(r.kept) {
            self.goes_to(EvacStage::LoadsWeak(r.to))
        } else {
            self.goes_to(EvacStage::Clears(r.to))
        }
    }
}

/// The address of FRONT.
fn front(spaces: Spaces, epoch: u32, kept: KeptHeader, area: AreaWord) -> u32
    requires { AreaHoldsCopy spaces.pages (size_of kept) area }
    ensures front { result ≡ front_of spaces epoch area }
    ensures in_range { result < 2 * past_heaps }
{
    spaces.known();
    spaces.space_start(spaces.to_space(epoch)) + area.front
}

/// The area once the copy has its room.
fn past(kept: KeptHeader, area: AreaWord) -> AreaWord
    requires { (size_of kept ≤ area.owed) × (area.front + size_of kept ≤ area.low) × AreaFits area }
    ensures area { result ≡ area_past (size_of kept) area }
    ensures fits { AreaFits result }
{
    AreaWord {
        front: area.front + size(kept),
        low: area.low,
        owed: area.owed - size(kept),
    }
}

fn size(kept: KeptHeader) -> u32
    ensures { result ≡ size_of kept }
{
    u32::from(kept.len) + 1
}

fn is_cell(kept: KeptHeader) -> bool
    ensures { result ≡ is_cell kept }
{
    match kept.kind {
        Kind::Weak => kept.len == 2,
        Kind::Fields | Kind::Raw | Kind::Mixed => false,
    }
}

fn busy(kept: KeptHeader, worker: u8) -> u64
    requires { kept.len ≤ 4095 }
    ensures { result ≡ busy_word kept.len worker }
{
    pack_busy(&Busy {
        len: kept.len,
        worker,
    })
}

fn forward(r: Reserved) -> u64
    requires { r.kept.len ≤ 4095 }
    ensures { result ≡ forward_word r.kept.len r.to }
{
    pack_forward(&Forward {
        len: r.kept.len,
        addr: r.to,
    })
}
