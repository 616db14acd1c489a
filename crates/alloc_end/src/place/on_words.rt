//! The step of an allocation, made on words at hand.

ghost use Rattle.std.specs.Prelude.{◌≡◌};
ghost use Rattle.atom_store.specs.Acts.{MakesStep, after_next_step};
ghost use Rattle.atom_store.specs.Step.{HasItsWord};
ghost use Rattle.atom_store.specs.declared.turn.Turn.TheVariants.{More};
ghost use Rattle.alloc_end.specs.Place.{at_stage, place_machine, wanted};
ghost use Rattle.alloc_end.specs.Soundness.{IsPlacingGoing, IsSoundPlacing};

use super::{Place, claimed};
use crate::allocated::Allocated;
use crate::place_stage::PlaceStage;
use atom_store::{Atoms, PlainAtoms, Reply, Step, Turn};
use heap_words::Word;
use record_layout::pack;
use space_map::{PageWord, SaveWord};

impl Place {
    /// Makes its next step on these words, and takes the reply to it. It is the same as `take` of the reply to `want`, but chooses by the
    /// stage once.
    #[inline(always)]
    pub fn step(&mut self, on: &mut PlainAtoms) -> Turn<Allocated>
        requires going { IsPlacingGoing self.old.stage }
        requires word { HasItsWord on.old (wanted self.old) }
        requires sound { IsSoundPlacing (after_next_step place_machine self.old on.old) }
        ensures state { self.new ≡ after_next_step place_machine self.old on.old }
        ensures step { MakesStep place_machine self.old on.old on.new result }
    {
        let spaces = self.spaces;
        match self.stage {
            PlaceStage::LoadsTraced => {
                let word = on.load(spaces.traced_place());
                self.goes_to(PlaceStage::LoadsSize(word == u64::from(self.epoch) + 1))
            }
            PlaceStage::LoadsSize(traced) => {
                let word = on.load(self.size_place());
                self.spaces.known();
                self.goes_to(PlaceStage::LoadsArea(traced, word as u32))
            }
            PlaceStage::LoadsArea(traced, size) => {
                let word = on.load(self.area_place());
                self.look_at_area(traced, size, word)
            }
            PlaceStage::ExchangesArea(fitting) => {
                let old = fitting.area.pack();
                let new = claimed(spaces, self.header, fitting).pack();
                match on.act(Step::Exchange(self.area_place(), old, new)) {
                    Reply::Won => self.claim(fitting),
                    Reply::Lost(_) => self.goes_to(PlaceStage::LoadsTraced),
                    Reply::Value(_) | Reply::Done => unreachable!(),
                }
            }
            PlaceStage::StoresZero(new) => {
                on.store(spaces.word_place(new.next), 0);
                self.clear(new)
            }
            PlaceStage::StoresNew(new) => {
                on.store(spaces.save_place(new.next), SaveWord::New(self.snap).pack());
                self.goes_to(PlaceStage::OpensPage(new))
            }
            PlaceStage::OpensPage(new) => {
                on.store(
                    spaces.page_place(new.next),
                    PageWord::Open(self.epoch).pack(),
                );
                self.open(new)
            }
            PlaceStage::StoresCount => {
                on.store(
                    spaces.word_place(self.run.at + 1),
                    Word::number(u64::from(self.fields)).0,
                );
                self.goes_to(PlaceStage::StoresHeader)
            }
            PlaceStage::StoresTarget => {
                on.store(spaces.word_place(self.run.at + 1), self.target);
                self.goes_to(PlaceStage::StoresLink)
            }
            PlaceStage::StoresLink => {
                on.store(spaces.word_place(self.run.at + 2), 0);
                self.goes_to(PlaceStage::StoresHeader)
            }
            PlaceStage::StoresHeader => {
                on.store(spaces.word_place(self.run.at), pack(&self.header));
                self.place()
            }
            PlaceStage::Ended(_) => unreachable!(),
        }
    }

    #[inline(always)]
    fn goes_to(&mut self, stage: PlaceStage) -> Turn<Allocated>
        requires { IsSoundPlacing (at_stage self.old stage) }
        ensures state { self.new ≡ at_stage self.old stage }
        ensures tells { result ≡ More }
    {
        self.stage = stage;
        Turn::More
    }
}
