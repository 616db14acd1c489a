//! The end of the copied area, once no page is left to choose, and then the walk over the chain of cells.

ghost use Rattle.std.specs.Prelude.{◌≡◌, ◌≤◌};
ghost use Rattle.space_map.specs.AreaWord.{decode_area};
ghost use Rattle.space_map.specs.GateWord.{decode_gate};
ghost use Rattle.space_map.specs.PageWord.{decode_page};
ghost use Rattle.space_map.specs.Spaces.{board_page};
ghost use Rattle.fault_duty.specs.Duty as round;
ghost use Rattle.fault_duty.specs.Duty.{taken, at_stage};
ghost use Rattle.fault_duty.specs.Soundness.{IsSoundRound, IsWalking};

use super::{Duty, is_full};
use crate::duty_stage::DutyStage;
use crate::end_look::EndLook;
use crate::page_state::PageState;
use crate::round_end::RoundEnd;
use atom_store::{Reply, Turn};
use cell_walk::{Walk, WalkEnd};
use space_map::{AreaWord, GateWord, PAGE_WORDS, PageWord};

impl Duty {
    #[inline(always)]
    pub(super) fn end_at_gate(&mut self, traced: u64, word: u64)
        requires { IsSoundRound (at_stage self.old (round.ended_gate self.old traced word (decode_gate word))) }
        ensures { self.new ≡ at_stage self.old (round.ended_gate self.old traced word (decode_gate word)) }
    {
        match GateWord::read(word) {
            Some(gate) if gate.epoch == self.epoch && gate.behind == 0 => {
                self.go_to(DutyStage::EndArea(traced))
            }
            Some(_) => self.end(RoundEnd::NothingNow(word)),
            None => self.go_to(DutyStage::EndGate(traced)),
        }
    }

    #[inline(always)]
    pub(super) fn end_at_area(&mut self, traced: u64, word: u64)
        requires { IsSoundRound (at_stage self.old (round.ended_area self.old traced (decode_area word))) }
        ensures { self.new ≡ at_stage self.old (round.ended_area self.old traced (decode_area word)) }
    {
        let Some(area) = AreaWord::read(word) else {
            return self.go_to(DutyStage::EndArea(traced));
        };
        let front = self.front_of(area);
        let board = self.spaces.board_page();
        self.go_to(DutyStage::EndPage(EndLook { traced, front }, board))
    }

    #[inline(always)]
    pub(super) fn end_at_page(&mut self, look: EndLook, page: u32, word: u64)
        requires page { page ≤ board_page self.old.layout.pages }
        requires allowed { IsSoundRound (at_stage self.old (round.ended_page self.old look page word)) }
        ensures { self.new ≡ at_stage self.old (round.ended_page self.old look page word) }
    {
        if word != PageWord::Open(self.epoch).pack() {
            return self.end(RoundEnd::NothingNow(word));
        }
        let next = self.page_after(page);
        if is_full(look.front, next) {
            self.go_to(DutyStage::EndPage(look, next))
        } else if look.front % PAGE_WORDS == 0 {
            self.go_to(DutyStage::EndAreaAgain(look, PageWord::Open(self.epoch)))
        } else {
            self.go_to(DutyStage::EndFilling(look))
        }
    }

    #[inline(always)]
    pub(super) fn end_at_filling(&mut self, look: EndLook, word: u64)
        requires { IsSoundRound (at_stage self.old (round.looked_at_filling self.old look word (decode_page word))) }
        ensures { self.new ≡ at_stage self.old (round.looked_at_filling self.old look word (decode_page word)) }
    {
        let Some(says) = PageWord::read(word) else {
            return self.go_to(DutyStage::EndFilling(look));
        };
        match self.state_of(says) {
            PageState::Scanned => self.end(RoundEnd::NothingNow(word)),
            PageState::Opened | PageState::Waits | PageState::Past => {
                self.go_to(DutyStage::EndAreaAgain(look, says))
            }
        }
    }

    #[inline(always)]
    pub(super) fn end_at_area_again(&mut self, look: EndLook, filling: PageWord, word: u64)
        requires { IsSoundRound (at_stage self.old (round.ended_area_again self.old look filling word (decode_area word))) }
        ensures { self.new ≡ at_stage self.old (round.ended_area_again self.old look filling word (decode_area word)) }
    {
        let Some(area) = AreaWord::read(word) else {
            return self.go_to(DutyStage::EndAreaAgain(look, filling));
        };
        if self.front_of(area) != look.front {
            return self.end(RoundEnd::NothingNow(word));
        }
        match self.state_of(filling) {
            PageState::Opened => {
                let walk = Walk::new(self.spaces, self.epoch);
                self.go_to(DutyStage::Walks(look.traced, walk))
            }
            _ => self.claim(self.spaces.page_of(look.front), filling, true),
        }
    }

    /// Once all cells are passed, TRACED is to be exchanged. Another worker's turn ends the round.
    #[inline(always)]
    pub(super) fn go_on_walking(&mut self, reply: Reply)
        requires walking { IsWalking self.old.stage }
        requires allowed { IsSoundRound (taken self.old reply) }
        ensures { self.new ≡ taken self.old reply }
    {
        let DutyStage::Walks(traced, walk) = &mut self.stage else {
            unreachable!();
        };
        match walk.take(reply) {
            Turn::More => {}
            Turn::Finished(WalkEnd::Passed) => self.stage = DutyStage::Traces(*traced),
            Turn::Finished(WalkEnd::Another(word)) => {
                self.stage = DutyStage::Ended(RoundEnd::NothingNow(word))
            }
        }
    }
}
