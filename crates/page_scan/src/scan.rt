mod on_words;

ghost use Rattle.std.specs.Prelude.{◌*◌, ◌≡◌, ◌+◌, ◌^◌, ◌<◌, ◌≤◌, Some, IsTrue, ◌≢◌, ℕ, max};
ghost use Rattle.atom_store.specs.Step.{place_in};
ghost use Rattle.heap_words.specs.Decoded.{PointerWord, decode};
ghost use Rattle.space_map.specs.AreaWord.{decode_area};
ghost use Rattle.space_map.specs.Spaces.{board_page, first_word, past_heaps, to_space};
ghost use Rattle.space_map.specs.Table.{table_length};
ghost use Rattle.page_scan.specs.Left.{advances, left};
ghost use Rattle.page_scan.specs.Scanning.{HasStep, IsAsking, address_of, begun, wanted};
ghost use Rattle.page_scan.specs.Soundness.{IsHeadedOn, IsOnPage, IsSound};
ghost use Rattle.page_scan.specs.Taken.{answered, by_area, by_count, by_header, by_kind, by_word, goes_on_at, passes_word, taken, told};

use crate::asked::Asked;
use crate::ending::Ending;
use crate::headed_record::HeadedRecord;
use crate::scan_stage::ScanStage;
use crate::scanned::Scanned;
use crate::scanned_record::ScannedRecord;
use crate::spot::Spot;
use atom_store::{Reply, Step, Turn};
use heap_words::{Kind, Word};
use plain_state::BOARD_WORDS;
use record_layout::read;
use space_map::{AreaWord, PAGE_WORDS, Spaces};
use std::marker::Model;

/// The scan of a page in an epoch, by the worker that has claimed it.
#[derive(Clone, Copy)]
pub struct Scan {
    spaces: Spaces,
    page: u32,
    epoch: u32,
    in_place: bool,
    stage: ScanStage,
}

impl Model for Scan {
    ghost use Rattle.page_scan.specs.Scanning.{Scanning};
    ghost use Rattle.page_scan.specs.Soundness.{IsSound};

    ghost Value = { Scanning };

    ghost view = { λ v. record { layout = v.spaces; page = v.page; epoch = v.epoch; in_place = v.in_place; stage = v.stage } };

    ghost invariant = { λ v. IsSound (record { layout = v.spaces; page = v.page; epoch = v.epoch; in_place = v.in_place; stage = v.stage }) };

    ghost inverse = { λ v. record { spaces = v.layout; page = v.page; epoch = v.epoch; in_place = v.in_place; stage = v.stage } };
}

impl Scan {
    /// The scan of a page, or of the board. In place says that the page was claimed as the filling page.
    pub fn new(spaces: Spaces, page: u32, epoch: u32, in_place: bool) -> Scan
        requires { page ≤ board_page spaces.pages }
        ensures { result ≡ begun spaces page epoch in_place }
    {
        spaces.known();
        let stage = if page == spaces.board_page() {
            ScanStage::LoadsWord(Spot::OnBoard(spaces.first_word(page)))
        } else {
            ScanStage::LoadsCross
        };
        Scan {
            spaces,
            page,
            epoch,
            in_place,
            stage,
        }
    }

    /// The page.
    pub fn page(&self) -> u32
        ensures { result ≡ self.now.page }
    {
        self.page
    }

    /// The next step.
    #[inline(always)]
    pub fn want(&self) -> Step
        requires { HasStep self.now.stage }
        ensures wanted { wanted self.now ≡ Some result }
        ensures in_table { place_in result < table_length self.now.layout.pages }
    {
        let spaces = self.spaces;
        match self.stage {
            ScanStage::LoadsCross => Step::Load(spaces.cross_place(self.page)),
            ScanStage::LoadsFirst(at) => Step::Load(spaces.word_place(at)),
            ScanStage::LoadsCount(h) => Step::Load(spaces.word_place(h.at + 1)),
            ScanStage::LoadsWord(spot) => Step::Load(spaces.word_place(address(spot))),
            ScanStage::StoresCopy(asked, to) => {
                Step::Store(spaces.word_place(address(asked.spot)), Word::pointer(to).0)
            }
            ScanStage::LoadsFront(_) => {
                Step::Load(spaces.area_place(spaces.to_space(self.epoch)))
            }
            ScanStage::LoadsNext(r) => Step::Load(spaces.word_place(r.next)),
            ScanStage::Asks(_) | ScanStage::Ended(_) => unreachable!(),
        }
    }

    /// Takes the reply to it.
    #[inline(always)]
    pub fn take(&mut self, reply: Reply) -> Turn<Scanned>
        requires going { HasStep self.old.stage }
        requires sound { IsSound (taken self.old reply) }
        ensures state { self.new ≡ taken self.old reply }
        ensures told { result ≡ told (taken self.old reply).stage }
        ensures lowers { IsTrue (advances self.old.stage reply) → left self.new < left self.old }
    {
        match reply {
            Reply::Value(word) => self.has_loaded(word),
            Reply::Done | Reply::Won | Reply::Lost(_) => self.has_stored(reply),
        }
    }

    /// Takes the word that was loaded.
    #[inline(always)]
    fn has_loaded(&mut self, word: u64) -> Turn<Scanned>
        requires going { HasStep self.old.stage }
        requires sound { IsSound (taken self.old (Reply.Value word)) }
        ensures state { self.new ≡ taken self.old (Reply.Value word) }
        ensures told { result ≡ told (taken self.old (Reply.Value word)).stage }
        ensures lowers { IsTrue (advances self.old.stage (Reply.Value word)) → left self.new < left self.old }
    {
        match self.stage {
            ScanStage::LoadsCross => self.goes_to(ScanStage::LoadsFirst(word as u32)),
            ScanStage::LoadsFirst(at) => self.reads_header(at, ScanStage::LoadsFirst(at), word),
            ScanStage::LoadsCount(h) => self.reads_count(h, word),
            ScanStage::LoadsWord(spot) => self.reads_word(spot, word),
            ScanStage::LoadsFront(r) => self.reads_area(r, word),
            ScanStage::LoadsNext(r) => self.reads_header(r.next, ScanStage::LoadsNext(r), word),
            ScanStage::StoresCopy(..) | ScanStage::Asks(_) | ScanStage::Ended(_) => Turn::More,
        }
    }

    /// Goes on from a store.
    #[inline(always)]
    fn has_stored(&mut self, reply: Reply) -> Turn<Scanned>
        requires going { HasStep self.old.stage }
        requires sound { IsSound (taken self.old reply) }
        requires no_word { (word : ℕ) → reply ≢ Reply.Value word }
        ensures state { self.new ≡ taken self.old reply }
        ensures told { result ≡ told (taken self.old reply).stage }
        ensures lowers { IsTrue (advances self.old.stage reply) → left self.new < left self.old }
    {
        match (self.stage, reply) {
            (ScanStage::StoresCopy(asked, _), Reply::Done) => self.passes(asked.spot),
            _ => Turn::More,
        }
    }

    /// Takes the address of the copy that it asked for.
    pub fn answer(&mut self, to: u32)
        requires { IsAsking self.old.stage }
        ensures { self.new ≡ answered self.old to }
    {
        match self.stage {
            ScanStage::Asks(asked) => self.stage = ScanStage::StoresCopy(asked, to),
            _ => unreachable!(),
        }
    }

    fn goes_to(&mut self, stage: ScanStage) -> Turn<Scanned>
        requires going { HasStep stage }
        requires sound { IsSound (record self.old { stage = stage }) }
        ensures state { self.new ≡ record self.old { stage = stage } }
        ensures told { result ≡ Turn.More }
    {
        self.stage = stage;
        Turn::More
    }

    fn asks(&mut self, asked: Asked) -> Turn<Scanned>
        requires { IsSound (record self.old { stage = ScanStage.Asks asked }) }
        ensures state { self.new ≡ record self.old { stage = ScanStage.Asks asked } }
        ensures told { result ≡ told (ScanStage.Asks asked) }
    {
        self.stage = ScanStage::Asks(asked);
        Turn::Finished(Scanned::Ask(asked.old))
    }

    fn ends(&mut self, ending: Ending) -> Turn<Scanned>
        requires { IsSound (record self.old { stage = ScanStage.Ended ending }) }
        ensures state { self.new ≡ record self.old { stage = ScanStage.Ended ending } }
        ensures told { result ≡ told (ScanStage.Ended ending) }
    {
        self.stage = ScanStage::Ended(ending);
        Turn::Finished(Scanned::Ended {
            at_front: ending.at_front,
        })
    }

    /// A word of the board, or a field: what is no pointer is passed.
    #[inline(always)]
    fn reads_word(&mut self, spot: Spot, word: u64) -> Turn<Scanned>
        requires on_page { IsOnPage self.old.layout.pages self.old.page spot }
        requires sound { IsSound (record self.old { stage = by_word self.old.layout self.old.page self.old.epoch self.old.in_place spot (decode word) }) }
        ensures state { self.new ≡ record self.old { stage = by_word self.old.layout self.old.page self.old.epoch self.old.in_place spot (decode word) } }
        ensures told { result ≡ told (by_word self.old.layout self.old.page self.old.epoch self.old.in_place spot (decode word)) }
    {
        match Word(word).as_pointer() {
            Some(address) => self.reads_pointer(spot, address),
            None => self.passes(spot),
        }
    }

    /// A pointer into the old space is asked about.
    #[inline(always)]
    fn reads_pointer(&mut self, spot: Spot, address: u32) -> Turn<Scanned>
        requires on_page { IsOnPage self.old.layout.pages self.old.page spot }
        requires sound { IsSound (record self.old { stage = by_word self.old.layout self.old.page self.old.epoch self.old.in_place spot (PointerWord address) }) }
        ensures state { self.new ≡ record self.old { stage = by_word self.old.layout self.old.page self.old.epoch self.old.in_place spot (PointerWord address) } }
        ensures told { result ≡ told (by_word self.old.layout self.old.page self.old.epoch self.old.in_place spot (PointerWord address)) }
    {
        let old_space = 1 - self.spaces.to_space(self.epoch);
        if self.spaces.in_space(address, old_space) {
            self.asks(Asked { spot, old: address })
        } else {
            self.passes(spot)
        }
    }

    /// A header. Another word can't be there, and is loaded again at the stage given.
    #[inline(always)]
    fn reads_header(&mut self, at: u32, stage: ScanStage, word: u64) -> Turn<Scanned>
        requires going { HasStep stage }
        requires at { at < past_heaps }
        requires sound { IsSound (record self.old { stage = by_header self.old.page self.old.in_place at stage (decode word) }) }
        ensures state { self.new ≡ record self.old { stage = by_header self.old.page self.old.in_place at stage (decode word) } }
        ensures told { result ≡ told (by_header self.old.page self.old.in_place at stage (decode word)) }
    {
        match read(word) {
            Some(header) => self.goes_by_kind(at, header.kind, header.len),
            None => self.goes_to(stage),
        }
    }

    /// By its header a record is entered, but that a mixed one's count is read first.
    fn goes_by_kind(&mut self, at: u32, kind: Kind, len: u16) -> Turn<Scanned>
        requires at { at < past_heaps }
        requires sound { IsSound (record self.old { stage = by_kind self.old.page self.old.in_place at kind (len + 1) }) }
        ensures state { self.new ≡ record self.old { stage = by_kind self.old.page self.old.in_place at kind (len + 1) } }
        ensures told { result ≡ told (by_kind self.old.page self.old.in_place at kind (len + 1)) }
    {
        let size = u32::from(len) + 1;
        let next = at + size;
        match kind {
            Kind::Fields => self.enters(
                ScannedRecord {
                    at,
                    fields_end: next,
                    next,
                },
                1,
            ),
            Kind::Raw | Kind::Weak => self.enters(
                ScannedRecord {
                    at,
                    fields_end: at + 1,
                    next,
                },
                1,
            ),
            Kind::Mixed => self.goes_to(ScanStage::LoadsCount(HeadedRecord { at, size })),
        }
    }

    /// A mixed record's count of fields. Another word can't be there, and is loaded again.
    #[inline(always)]
    fn reads_count(&mut self, h: HeadedRecord, word: u64) -> Turn<Scanned>
        requires on_page { IsHeadedOn self.old.layout.pages self.old.page h }
        requires sound { IsSound (record self.old { stage = by_count self.old.page self.old.in_place h (decode word) }) }
        ensures state { self.new ≡ record self.old { stage = by_count self.old.page self.old.in_place h (decode word) } }
        ensures told { result ≡ told (by_count self.old.page self.old.in_place h (decode word)) }
    {
        match Word(word).as_number() {
            Some(count) if count + 2 <= u64::from(h.size) => self.enters(
                ScannedRecord {
                    at: h.at,
                    fields_end: h.at + 2 + count as u32,
                    next: h.at + h.size,
                },
                2,
            ),
            _ => self.goes_to(ScanStage::LoadsCount(h)),
        }
    }

    /// In place, the scan ends where the next record would be at FRONT.
    #[inline(always)]
    fn reads_area(&mut self, r: ScannedRecord, word: u64) -> Turn<Scanned>
        requires at { r.next < 2 * past_heaps }
        requires sound { IsSound (record self.old { stage = by_area self.old.layout self.old.epoch r (decode_area word) }) }
        ensures state { self.new ≡ record self.old { stage = by_area self.old.layout self.old.epoch r (decode_area word) } }
        ensures told { result ≡ told (by_area self.old.layout self.old.epoch r (decode_area word)) }
    {
        self.spaces.known();
        let start = self.spaces.space_start(self.spaces.to_space(self.epoch));
        match AreaWord::read(word) {
            Some(area) if start + area.front == r.next => self.ends(Ending {
                cursor: r.next,
                at_front: true,
            }),
            Some(_) => self.goes_to(ScanStage::LoadsNext(r)),
            None => self.goes_to(ScanStage::LoadsFront(r)),
        }
    }

    /// The word at a spot is passed.
    fn passes(&mut self, spot: Spot) -> Turn<Scanned>
        requires on_page { IsOnPage self.old.layout.pages self.old.page spot }
        requires sound { IsSound (record self.old { stage = passes_word self.old.page self.old.in_place spot }) }
        ensures state { self.new ≡ record self.old { stage = passes_word self.old.page self.old.in_place spot } }
        ensures told { result ≡ told (passes_word self.old.page self.old.in_place spot) }
    {
        match spot {
            Spot::OnBoard(x) => self.passes_on_board(x),
            Spot::InRecord(r, x) => self.goes_on(r, x + 1),
        }
    }

    fn passes_on_board(&mut self, x: u32) -> Turn<Scanned>
        requires on_page { IsOnPage self.old.layout.pages self.old.page (Spot.OnBoard x) }
        requires sound { IsSound (record self.old { stage = passes_word self.old.page self.old.in_place (Spot.OnBoard x) }) }
        ensures state { self.new ≡ record self.old { stage = passes_word self.old.page self.old.in_place (Spot.OnBoard x) } }
        ensures told { result ≡ told (passes_word self.old.page self.old.in_place (Spot.OnBoard x)) }
    {
        self.spaces.known();
        let end = self.spaces.first_word(self.page) + BOARD_WORDS as u32;
        let cursor = x + 1;
        if cursor < end {
            self.goes_to(ScanStage::LoadsWord(Spot::OnBoard(cursor)))
        } else {
            self.ends(Ending {
                cursor,
                at_front: false,
            })
        }
    }

    /// A record whose fields begin at this word of it is entered at the first that lies on the page.
    fn enters(&mut self, r: ScannedRecord, first: u32) -> Turn<Scanned>
        requires at { r.at + first < 2 ^ 32 }
        requires sound { IsSound (record self.old { stage = goes_on_at self.old.page self.old.in_place r (max (r.at + first) (first_word self.old.page)) }) }
        ensures state { self.new ≡ record self.old { stage = goes_on_at self.old.page self.old.in_place r (max (r.at + first) (first_word self.old.page)) } }
        ensures told { result ≡ told (goes_on_at self.old.page self.old.in_place r (max (r.at + first) (first_word self.old.page))) }
    {
        self.spaces.known();
        let page = self.spaces.first_word(self.page);
        self.goes_on(r, page.max(r.at + first))
    }

    /// At a word of a record: a field on the page is loaded. Behind the fields the next record is, unless it begins behind the
    /// page.
    fn goes_on(&mut self, r: ScannedRecord, x: u32) -> Turn<Scanned>
        requires sound { IsSound (record self.old { stage = goes_on_at self.old.page self.old.in_place r x }) }
        ensures state { self.new ≡ record self.old { stage = goes_on_at self.old.page self.old.in_place r x } }
        ensures told { result ≡ told (goes_on_at self.old.page self.old.in_place r x) }
    {
        self.spaces.known();
        let end = self.spaces.first_word(self.page) + PAGE_WORDS;
        let in_fields = x < r.fields_end;
        let cursor = if in_fields { x } else { r.next };
        if cursor >= end {
            return self.ends(Ending {
                cursor,
                at_front: false,
            });
        }
        if in_fields {
            self.goes_to(ScanStage::LoadsWord(Spot::InRecord(r, x)))
        } else if self.in_place {
            self.goes_to(ScanStage::LoadsFront(r))
        } else {
            self.goes_to(ScanStage::LoadsNext(r))
        }
    }
}

fn address(spot: Spot) -> u32
    ensures { result ≡ address_of spot }
{
    match spot {
        Spot::OnBoard(x) | Spot::InRecord(_, x) => x,
    }
}
