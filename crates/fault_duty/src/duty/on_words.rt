//! The step of a round, made on words at hand.

ghost use Rattle.std.specs.Prelude.{◌≡◌, IsSome};
ghost use Rattle.atom_store.specs.Acts.{MakesStep, after_next_step};
ghost use Rattle.atom_store.specs.Runs.{words_then};
ghost use Rattle.atom_store.specs.Step.{HasItsWord};
ghost use Rattle.fault_duty.specs.Duty.{duty_machine, wanted};
ghost use Rattle.fault_duty.specs.Soundness.{IsClaiming, IsRoundGoing, IsSoundRound, IsWalking};

use super::Duty;
use crate::duty_stage::DutyStage;
use crate::round_end::RoundEnd;
use atom_store::{Atoms, PlainAtoms, Reply, Step, Turn};

impl Duty {
    /// Makes its next step on these words, and takes the reply to it. It is the same as `take` of the reply to `want`, but chooses by the
    /// stage once.
    #[inline(always)]
    pub fn step(&mut self, on: &mut PlainAtoms) -> Turn<RoundEnd>
        requires going { IsRoundGoing self.old.stage }
        requires word { HasItsWord on.old (wanted self.old) }
        requires sound { IsSoundRound (after_next_step duty_machine self.old on.old) }
        ensures state { self.new ≡ after_next_step duty_machine self.old on.old }
        ensures step { MakesStep duty_machine self.old on.old on.new result }
    {
        let spaces = self.spaces;
        match self.stage {
            DutyStage::LoadsGate => self.look_at_gate(on.load(spaces.gate_place())),
            DutyStage::LoadsTraced(hindrance) => self.look_at_traced(
                hindrance,
                on.load(spaces.traced_place()),
            ),
            DutyStage::LoadsWanted(seen, page) => self.look_at_wanted(
                seen,
                page,
                on.load(spaces.page_place(page)),
            ),
            DutyStage::LoadsFrontFor(seen, wanted) => self.find_front_for(
                seen,
                wanted,
                on.load(self.area_place()),
            ),
            DutyStage::LoadsFront(seen) => self.find_front(seen, on.load(self.area_place())),
            DutyStage::LoadsPage(choice, page) => self.look_at_page(
                choice,
                page,
                on.load(spaces.page_place(page)),
            ),
            DutyStage::Claims(_) => self.step_claim(on),
            DutyStage::EndGate(traced) => self.end_at_gate(traced, on.load(spaces.gate_place())),
            DutyStage::EndArea(traced) => self.end_at_area(traced, on.load(self.area_place())),
            DutyStage::EndPage(look, page) => self.end_at_page(
                look,
                page,
                on.load(spaces.page_place(page)),
            ),
            DutyStage::EndFilling(look) => self.end_at_filling(
                look,
                on.load(spaces.page_place(spaces.page_of(look.front))),
            ),
            DutyStage::EndAreaAgain(look, filling) => self.end_at_area_again(
                look,
                filling,
                on.load(self.area_place()),
            ),
            DutyStage::Walks(..) => self.step_walk(on),
            DutyStage::Traces(traced) => self.exchange_traced(traced, on),
            DutyStage::Ended(_) => unreachable!(),
        }
        self.tell()
    }

    /// Makes the next step of its claim, by what that wants and takes.
    #[inline(always)]
    fn step_claim(&mut self, on: &mut PlainAtoms)
        requires claiming { IsClaiming self.old.stage }
        requires word { HasItsWord on.old (wanted self.old) }
        ensures state { self.new ≡ after_next_step duty_machine self.old on.old }
        ensures words { on.new ≡ words_then (wanted self.old) on.old }
        ensures steps { IsSome (wanted self.old) }
    {
        let DutyStage::Claims(claim) = &self.stage else {
            unreachable!();
        };
        let reply = on.act(claim.want());
        self.go_on_claiming(reply);
    }

    /// Makes the next step of its walk, by what that wants and takes.
    #[inline(always)]
    fn step_walk(&mut self, on: &mut PlainAtoms)
        requires walking { IsWalking self.old.stage }
        requires word { HasItsWord on.old (wanted self.old) }
        requires sound { IsSoundRound (after_next_step duty_machine self.old on.old) }
        ensures state { self.new ≡ after_next_step duty_machine self.old on.old }
        ensures words { on.new ≡ words_then (wanted self.old) on.old }
        ensures steps { IsSome (wanted self.old) }
    {
        let DutyStage::Walks(_, walk) = &self.stage else {
            unreachable!();
        };
        let reply = on.act(walk.want());
        self.go_on_walking(reply);
    }

    /// Exchanges TRACED, from the word that was read to its epoch plus 1.
    #[inline(always)]
    fn exchange_traced(&mut self, traced: u64, on: &mut PlainAtoms)
        requires at { self.old.stage ≡ DutyStage.Traces traced }
        requires word { HasItsWord on.old (wanted self.old) }
        ensures state { self.new ≡ after_next_step duty_machine self.old on.old }
        ensures words { on.new ≡ words_then (wanted self.old) on.old }
        ensures steps { IsSome (wanted self.old) }
    {
        let step = Step::Exchange(
            self.spaces.traced_place(),
            traced,
            u64::from(self.epoch) + 1,
        );
        match on.act(step) {
            Reply::Won => self.end(RoundEnd::Marked),
            Reply::Lost(word) => self.end(RoundEnd::NothingNow(word)),
            Reply::Value(_) | Reply::Done => unreachable!(),
        }
    }
}
