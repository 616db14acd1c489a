//! The choice of a page, from the first look at the gate to its claim.

ghost use Rattle.std.specs.Prelude.{◌≡◌, ◌≤◌};
ghost use Rattle.space_map.specs.AreaWord.{decode_area};
ghost use Rattle.space_map.specs.GateWord.{decode_gate};
ghost use Rattle.space_map.specs.PageWord.{decode_page};
ghost use Rattle.space_map.specs.Spaces.{board_page};
ghost use Rattle.fault_duty.specs.Duty as round;
ghost use Rattle.fault_duty.specs.Duty.{taken, told, at_stage};
ghost use Rattle.fault_duty.specs.Soundness.{IsSoundRound, IsClaiming};

use super::{Duty, is_full};
use crate::caller::Caller;
use crate::choice::Choice;
use crate::duty_stage::DutyStage;
use crate::findings::Findings;
use crate::page_state::PageState;
use crate::round_end::RoundEnd;
use crate::wanted_page::WantedPage;
use atom_store::{Reply, Turn};
use page_slots::{Claim, Claimed};
use space_map::{AreaWord, GateWord, PageWord};

impl Duty {
    #[inline(always)]
    pub(super) fn look_at_gate(&mut self, word: u64)
        requires { IsSoundRound (round.looked_at_gate self.old word (decode_gate word)) }
        ensures { self.new ≡ round.looked_at_gate self.old word (decode_gate word) }
    {
        let Some(gate) = GateWord::read(word) else {
            return self.go_to(DutyStage::LoadsGate);
        };
        let hindrance = if gate.behind == 0 { None } else { Some(word) };
        match self.caller {
            Caller::Scans(mutators) if gate.left == mutators => self.end(RoundEnd::AllLeft(word)),
            Caller::Scans(_) => {
                self.epoch = gate.epoch;
                self.stage = DutyStage::LoadsTraced(hindrance);
            }
            _ if gate.epoch == self.epoch => self.go_to(DutyStage::LoadsTraced(hindrance)),
            _ => self.end(RoundEnd::NothingNow(word)),
        }
    }

    #[inline(always)]
    pub(super) fn look_at_traced(&mut self, hindrance: Option<u64>, word: u64)
        requires { IsSoundRound (at_stage self.old (round.looked_at_traced self.old hindrance word)) }
        ensures { self.new ≡ at_stage self.old (round.looked_at_traced self.old hindrance word) }
    {
        if word == u64::from(self.epoch) + 1 {
            return self.end(RoundEnd::Traced);
        }
        let seen = Findings {
            traced: word,
            hindrance,
        };
        match self.caller {
            Caller::Faulted(page) => self.go_to(DutyStage::LoadsWanted(seen, page)),
            Caller::Allocates | Caller::Scans(_) => self.go_to(DutyStage::LoadsFront(seen)),
        }
    }

    #[inline(always)]
    pub(super) fn look_at_wanted(&mut self, seen: Findings, page: u32, word: u64)
        requires { IsSoundRound (at_stage self.old (round.looked_at_wanted self.old seen page word (decode_page word))) }
        ensures { self.new ≡ at_stage self.old (round.looked_at_wanted self.old seen page word (decode_page word)) }
    {
        let Some(says) = PageWord::read(word) else {
            return self.go_to(DutyStage::LoadsWanted(seen, page));
        };
        match self.state_of(says) {
            PageState::Opened | PageState::Scanned => self.end(RoundEnd::NothingNow(word)),
            PageState::Waits | PageState::Past => self.want_page(seen, WantedPage { page, says }),
        }
    }

    /// Claims the page that is wanted, or looks first whether it is full: the board always is.
    #[inline(always)]
    fn want_page(&mut self, seen: Findings, wanted: WantedPage)
        requires { IsSoundRound (at_stage self.old (round.wanted_one self.old seen wanted)) }
        ensures { self.new ≡ at_stage self.old (round.wanted_one self.old seen wanted) }
    {
        if wanted.page == self.spaces.board_page() {
            self.claim(wanted.page, wanted.says, false)
        } else {
            self.go_to(DutyStage::LoadsFrontFor(seen, wanted))
        }
    }

    #[inline(always)]
    pub(super) fn find_front_for(&mut self, seen: Findings, wanted: WantedPage, word: u64)
        requires page { wanted.page ≤ board_page self.old.layout.pages }
        requires allowed { IsSoundRound (at_stage self.old (round.found_front_for self.old seen wanted (decode_area word))) }
        ensures { self.new ≡ at_stage self.old (round.found_front_for self.old seen wanted (decode_area word)) }
    {
        let Some(area) = AreaWord::read(word) else {
            return self.go_to(DutyStage::LoadsFrontFor(seen, wanted));
        };
        if is_full(self.front_of(area), wanted.page) {
            self.claim(wanted.page, wanted.says, false)
        } else {
            self.go_to(DutyStage::LoadsFront(seen))
        }
    }

    #[inline(always)]
    pub(super) fn find_front(&mut self, seen: Findings, word: u64)
        requires { IsSoundRound (at_stage self.old (round.found_front self.old seen (decode_area word))) }
        ensures { self.new ≡ at_stage self.old (round.found_front self.old seen (decode_area word)) }
    {
        let Some(area) = AreaWord::read(word) else {
            return self.go_to(DutyStage::LoadsFront(seen));
        };
        let front = self.front_of(area);
        let board = self.spaces.board_page();
        self.go_to(DutyStage::LoadsPage(Choice { seen, front }, board));
    }

    #[inline(always)]
    pub(super) fn look_at_page(&mut self, choice: Choice, page: u32, word: u64)
        requires page { page ≤ board_page self.old.layout.pages }
        requires allowed { IsSoundRound (at_stage self.old (round.looked_at_page self.old choice page word (decode_page word))) }
        ensures { self.new ≡ at_stage self.old (round.looked_at_page self.old choice page word (decode_page word)) }
    {
        let Some(says) = PageWord::read(word) else {
            return self.go_to(DutyStage::LoadsPage(choice, page));
        };
        match self.state_of(says) {
            PageState::Opened => self.pass(choice, page),
            PageState::Scanned => {
                let seen = Findings {
                    traced: choice.seen.traced,
                    hindrance: Some(word),
                };
                let front = choice.front;
                self.pass(Choice { seen, front }, page)
            }
            PageState::Waits => self.claim(page, says, false),
            PageState::Past => self.end(RoundEnd::NothingNow(word)),
        }
    }

    /// Goes on behind a page that is not to be claimed.
    fn pass(&mut self, choice: Choice, page: u32)
        requires page { page ≤ board_page self.old.layout.pages }
        requires allowed { IsSoundRound (at_stage self.old (round.passed_page self.old choice page)) }
        ensures { self.new ≡ at_stage self.old (round.passed_page self.old choice page) }
    {
        let next = self.page_after(page);
        if is_full(choice.front, next) {
            return self.go_to(DutyStage::LoadsPage(choice, next));
        }
        match choice.seen.hindrance {
            Some(word) => self.end(RoundEnd::NothingNow(word)),
            None => self.go_to(DutyStage::EndGate(choice.seen.traced)),
        }
    }

    /// Claims a page whose word says this, if that is of an earlier epoch.
    pub(super) fn claim(&mut self, page: u32, says: PageWord, in_place: bool)
        requires { IsSoundRound (at_stage self.old (round.claim_by_state self.old page says in_place (round.state_of says self.old.epoch))) }
        ensures { self.new ≡ at_stage self.old (round.claim_by_state self.old page says in_place (round.state_of says self.old.epoch)) }
    {
        if self.state_of(says) != PageState::Waits {
            return self.end(RoundEnd::NothingNow(says.pack()));
        }
        let claim = Claim::new(self.spaces, page, self.epoch, self.worker, says, in_place);
        self.go_to(DutyStage::Claims(claim))
    }

    #[inline(always)]
    pub(super) fn go_on_claiming(&mut self, reply: Reply)
        requires { IsClaiming self.old.stage }
        ensures { self.new ≡ taken self.old reply }
    {
        let DutyStage::Claims(claim) = &mut self.stage else {
            unreachable!();
        };
        if let Turn::Finished(claimed) = claim.take(reply) {
            let outcome = round_end(claim, claimed);
            self.stage = DutyStage::Ended(outcome);
        }
    }
}

/// What a round comes to by its claim.
fn round_end(claim: &Claim, claimed: Claimed) -> RoundEnd
    ensures { result ≡ round.claim_comes_to claim.now claimed }
{
    match claimed {
        Claimed::Won if claim.is_in_place() => RoundEnd::ScanInPlace(claim.page()),
        Claimed::Won => RoundEnd::ScanPage(claim.page()),
        Claimed::Taken(word) => RoundEnd::NothingNow(word),
    }
}
