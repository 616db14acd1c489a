//! The step of a scan, made on words at hand.

ghost use Rattle.std.specs.Prelude.{◌≡◌};
ghost use Rattle.atom_store.specs.Acts.{MakesStep, after_next_step};
ghost use Rattle.atom_store.specs.Step.{HasItsWord};
ghost use Rattle.page_scan.specs.Scanning.{HasStep, wanted};
ghost use Rattle.page_scan.specs.Soundness.{IsSound};
ghost use Rattle.page_scan.specs.Taken.{scan_machine};

use super::{Scan, address};
use crate::scan_stage::ScanStage;
use crate::scanned::Scanned;
use atom_store::{PlainAtoms, Turn};
use heap_words::Word;

impl Scan {
    /// Makes its next step on these words, and takes the reply to it. It is the same as `take` of the reply to `want`, but chooses by the
    /// stage once.
    #[inline(always)]
    pub fn step(&mut self, on: &mut PlainAtoms) -> Turn<Scanned>
        requires going { HasStep self.old.stage }
        requires word { HasItsWord on.old (wanted self.old) }
        requires sound { IsSound (after_next_step scan_machine self.old on.old) }
        ensures state { self.new ≡ after_next_step scan_machine self.old on.old }
        ensures step { MakesStep scan_machine self.old on.old on.new result }
    {
        let spaces = self.spaces;
        match self.stage {
            ScanStage::LoadsCross => {
                let word = on.load(spaces.cross_place(self.page));
                self.goes_to(ScanStage::LoadsFirst(word as u32))
            }
            ScanStage::LoadsFirst(at) => {
                let word = on.load(spaces.word_place(at));
                self.reads_header(at, ScanStage::LoadsFirst(at), word)
            }
            ScanStage::LoadsCount(h) => {
                let word = on.load(spaces.word_place(h.at + 1));
                self.reads_count(h, word)
            }
            ScanStage::LoadsWord(spot) => {
                let word = on.load(spaces.word_place(address(spot)));
                self.reads_word(spot, word)
            }
            ScanStage::StoresCopy(asked, to) => {
                on.store(spaces.word_place(address(asked.spot)), Word::pointer(to).0);
                self.passes(asked.spot)
            }
            ScanStage::LoadsFront(r) => {
                let word = on.load(spaces.area_place(spaces.to_space(self.epoch)));
                self.reads_area(r, word)
            }
            ScanStage::LoadsNext(r) => {
                let word = on.load(spaces.word_place(r.next));
                self.reads_header(r.next, ScanStage::LoadsNext(r), word)
            }
            ScanStage::Asks(_) | ScanStage::Ended(_) => unreachable!(),
        }
    }
}
