//! The step of a copy, made on words at hand.

ghost use Rattle.std.specs.Prelude.{◌≡◌};
ghost use Rattle.atom_store.specs.Acts.{MakesStep, after_next_step};
ghost use Rattle.atom_store.specs.Step.{HasItsWord};
ghost use Rattle.forwarding.specs.Evacuation.{IsGoing, wanted};
ghost use Rattle.forwarding.specs.Soundness.{IsSound};
ghost use Rattle.forwarding.specs.Taken.{evac_machine};

use super::{Evac, LINK, busy, forward, front, past};
use crate::evac_stage::EvacStage;
use crate::kept_header::KeptHeader;
use crate::loaded_word::LoadedWord;
use crate::to::To;
use atom_store::{Atoms, PlainAtoms, Reply, Step, Turn};
use space_map::AreaWord;

impl Evac {
    /// Makes its next step on these words, and takes the reply to it. It is the same as `take` of the reply to `want`, but chooses by the
    /// stage once.
    #[inline(always)]
    pub fn step(&mut self, on: &mut PlainAtoms) -> Turn<To>
        requires going { IsGoing self.old.stage }
        requires word { HasItsWord on.old (wanted self.old) }
        requires sound { IsSound (after_next_step evac_machine self.old on.old) }
        ensures state { self.new ≡ after_next_step evac_machine self.old on.old }
        ensures step { MakesStep evac_machine self.old on.old on.new result }
    {
        let spaces = self.spaces;
        match self.stage {
            EvacStage::LoadsHeader => self.reads_header(on.load(spaces.word_place(self.addr))),
            EvacStage::TakesHeader(kept) => self.take_header(kept, on),
            EvacStage::LoadsArea(kept) => {
                let word = on.load(spaces.area_place(spaces.to_space(self.epoch)));
                self.reads_area(kept, word)
            }
            EvacStage::Announces(kept, area) => {
                let to = front(spaces, self.epoch, kept, area);
                on.store(spaces.announce_place(self.worker), u64::from(to) + 1);
                self.goes_to(EvacStage::Reserves(kept, area))
            }
            EvacStage::Reserves(kept, area) => self.reserve(kept, area, on),
            EvacStage::StoresHeader(r) => {
                on.store(spaces.word_place(r.to), r.kept.word);
                self.has_copied(r, 1)
            }
            EvacStage::LoadsWord(r, number) => {
                let word = on.load(spaces.word_place(self.addr + number));
                self.goes_to(EvacStage::StoresWord(r, LoadedWord { number, word }))
            }
            EvacStage::StoresWord(r, w) => {
                on.store(spaces.word_place(r.to + w.number), w.word);
                self.has_copied(r, w.number + 1)
            }
            EvacStage::StoresCross(r, page) => {
                on.store(spaces.cross_place(page), u64::from(r.to));
                self.has_crossed(r, page + 1)
            }
            EvacStage::StoresForward(r) => {
                on.store(spaces.word_place(self.addr), forward(r));
                self.has_published(r)
            }
            EvacStage::LoadsWeak(to) => {
                let head = on.load(spaces.weak_place());
                self.goes_to(EvacStage::StoresLink(to, head))
            }
            EvacStage::StoresLink(to, head) => {
                on.store(spaces.word_place(to + LINK), head);
                self.goes_to(EvacStage::TakesWeak(to, head))
            }
            EvacStage::TakesWeak(to, head) => self.take_weak(to, head, on),
            EvacStage::Clears(to) => {
                on.store(spaces.announce_place(self.worker), 0);
                self.ends(to)
            }
            EvacStage::Ended(_) => unreachable!(),
        }
    }

    /// Exchanges the header that was read for the sign that this worker copies.
    #[inline(always)]
    fn take_header(&mut self, kept: KeptHeader, on: &mut PlainAtoms) -> Turn<To>
        requires at { self.old.stage ≡ EvacStage.TakesHeader kept }
        requires word { HasItsWord on.old (wanted self.old) }
        requires sound { IsSound (after_next_step evac_machine self.old on.old) }
        ensures state { self.new ≡ after_next_step evac_machine self.old on.old }
        ensures step { MakesStep evac_machine self.old on.old on.new result }
    {
        let busy = busy(kept, self.worker);
        let step = Step::Exchange(self.spaces.word_place(self.addr), kept.word, busy);
        match on.act(step) {
            Reply::Won => self.goes_to(EvacStage::LoadsArea(kept)),
            _ => self.goes_to(EvacStage::LoadsHeader),
        }
    }

    /// Exchanges the area for the one behind the room of the copy.
    #[inline(always)]
    fn reserve(&mut self, kept: KeptHeader, area: AreaWord, on: &mut PlainAtoms) -> Turn<To>
        requires at { self.old.stage ≡ EvacStage.Reserves kept area }
        requires word { HasItsWord on.old (wanted self.old) }
        requires sound { IsSound (after_next_step evac_machine self.old on.old) }
        ensures state { self.new ≡ after_next_step evac_machine self.old on.old }
        ensures step { MakesStep evac_machine self.old on.old on.new result }
    {
        let spaces = self.spaces;
        let place = spaces.area_place(spaces.to_space(self.epoch));
        match on.act(Step::Exchange(place, area.pack(), past(kept, area).pack())) {
            Reply::Lost(word) => self.reads_other_area(kept, area, word),
            _ => self.has_reserved(kept, area),
        }
    }

    /// Exchanges the head of the chain for the copy of a cell.
    #[inline(always)]
    fn take_weak(&mut self, to: u32, head: u64, on: &mut PlainAtoms) -> Turn<To>
        requires at { self.old.stage ≡ EvacStage.TakesWeak to head }
        requires word { HasItsWord on.old (wanted self.old) }
        requires sound { IsSound (after_next_step evac_machine self.old on.old) }
        ensures state { self.new ≡ after_next_step evac_machine self.old on.old }
        ensures step { MakesStep evac_machine self.old on.old on.new result }
    {
        let step = Step::Exchange(self.spaces.weak_place(), head, u64::from(to) + 1);
        match on.act(step) {
            Reply::Won => self.goes_to(EvacStage::Clears(to)),
            _ => self.goes_to(EvacStage::LoadsWeak(to)),
        }
    }
}
