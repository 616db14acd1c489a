ghost use Rattle.std.specs.Prelude.{◌≡◌, ◌≢◌, ℕ, ◌+◌, ◌*◌, ◌<◌, ◌≤◌, Some, IsTrue};
ghost use Rattle.atom_store.specs.Step.{place_in};
ghost use Rattle.atom_store.specs.declared.turn.Turn.TheVariants.{More, Finished};
ghost use Rattle.space_map.specs.declared.spaces.TheConstants.{LAST_WORKER, MOST_PAGES};
ghost use Rattle.space_map.specs.AreaWord.{decode_area, part_end};
ghost use Rattle.space_map.specs.GateWord.{decode_gate};
ghost use Rattle.space_map.specs.PageWord.{decode_page, PageFits};
ghost use Rattle.space_map.specs.Spaces.{board_page, to_space};
ghost use Rattle.space_map.specs.Table.{Area, place_of, table_length};
ghost use Rattle.fault_duty.specs.Duty as round;
ghost use Rattle.fault_duty.specs.Duty.{begun, caller_for, wanted, taken, told, left, advances, at_stage};
ghost use Rattle.fault_duty.specs.Soundness.{FitsCaller, IsSoundRound, IsRoundGoing, FitsDutyStage, FitsFront, IsChoice, IsClaiming, IsOwnClaim, IsWalking};

mod choosing;
mod ending;
mod on_words;

use crate::caller::Caller;
use crate::duty_stage::DutyStage;
use crate::page_state::PageState;
use crate::round_end::RoundEnd;
use atom_store::{Reply, Step, Turn};
use space_map::{AreaWord, PAGE_WORDS, PageWord, Spaces};
use std::marker::Model;

/// One round of what is to be done for the tracing of an epoch.
#[derive(Clone, Copy)]
pub struct Duty {
    spaces: Spaces,
    caller: Caller,
    epoch: u32,
    worker: u8,
    stage: DutyStage,
}

impl Model for Duty {
    ghost use Rattle.fault_duty.specs.Duty.{Round};
    ghost use Rattle.fault_duty.specs.Soundness.{IsSoundRound};

    ghost Value = { Round };

    ghost view = { λ d. record { layout = d.spaces; caller = d.caller; epoch = d.epoch; worker = d.worker; stage = d.stage } };

    ghost invariant = { λ d. IsSoundRound (record { layout = d.spaces; caller = d.caller; epoch = d.epoch; worker = d.worker; stage = d.stage }) };

    ghost inverse = { λ d. record { spaces = d.layout; caller = d.caller; epoch = d.epoch; worker = d.worker; stage = d.stage } };
}

impl Duty {
    /// The round of a mutator of this epoch that faulted on a page, or lacks room.
    pub fn new(spaces: Spaces, page: Option<u32>, epoch: u32, worker: u8) -> Duty
        requires page { FitsCaller spaces.pages (caller_for page) }
        requires worker { worker ≤ LAST_WORKER }
        ensures { result ≡ begun spaces (caller_for page) epoch worker }
    {
        let caller = match page {
            Some(page) => Caller::Faulted(page),
            None => Caller::Allocates,
        };
        Duty::begin(spaces, caller, epoch, worker)
    }

    /// The round of a scanner beside so many mutators.
    pub fn scanner(spaces: Spaces, worker: u8, mutators: u8) -> Duty
        requires { worker ≤ LAST_WORKER }
        ensures { result ≡ begun spaces (Caller.Scans mutators) 0 worker }
    {
        Duty::begin(spaces, Caller::Scans(mutators), 0, worker)
    }

    fn begin(spaces: Spaces, caller: Caller, epoch: u32, worker: u8) -> Duty
        requires caller { FitsCaller spaces.pages caller }
        requires worker { worker ≤ LAST_WORKER }
        ensures { result ≡ begun spaces caller epoch worker }
    {
        spaces.known();
        Duty {
            spaces,
            caller,
            epoch,
            worker,
            stage: DutyStage::LoadsGate,
        }
    }

    /// The round begins anew, with the look at the gate.
    pub fn begin_anew(&mut self)
        ensures { self.new ≡ begun self.old.layout self.old.caller 0 self.old.worker }
    {
        self.epoch = 0;
        self.stage = DutyStage::LoadsGate;
    }

    /// Whether it is about to make its first step, with which a round begins.
    pub fn is_first(&self) -> bool
        ensures { result ≡ round.is_first self.now.stage }
    {
        matches!(self.stage, DutyStage::LoadsGate)
    }

    /// The epoch that the round is for.
    pub fn epoch(&self) -> u32
        ensures { result ≡ self.now.epoch }
    {
        self.epoch
    }

    /// The next step.
    #[inline(always)]
    pub fn want(&self) -> Step
        requires { IsRoundGoing self.now.stage }
        ensures wanted { wanted self.now ≡ Some result }
        ensures in_table { place_in result < table_length self.now.layout.pages }
    {
        let spaces = self.spaces;
        match self.stage {
            DutyStage::LoadsGate | DutyStage::EndGate(_) => Step::Load(spaces.gate_place()),
            DutyStage::LoadsTraced(_) => Step::Load(spaces.traced_place()),
            DutyStage::LoadsWanted(_, page)
            | DutyStage::LoadsPage(_, page)
            | DutyStage::EndPage(_, page) => Step::Load(spaces.page_place(page)),
            DutyStage::LoadsFrontFor(..)
            | DutyStage::LoadsFront(_)
            | DutyStage::EndArea(_)
            | DutyStage::EndAreaAgain(..) => Step::Load(self.area_place()),
            DutyStage::Claims(claim) => claim.want(),
            DutyStage::EndFilling(look) => Step::Load(spaces.page_place(spaces.page_of(
                look.front,
            ))),
            DutyStage::Walks(_, walk) => walk.want(),
            DutyStage::Traces(traced) => Step::Exchange(
                spaces.traced_place(),
                traced,
                u64::from(self.epoch) + 1,
            ),
            DutyStage::Ended(_) => unreachable!(),
        }
    }

    fn area_place(&self) -> usize
        ensures place { result ≡ place_of self.now.layout.pages (Area (to_space self.now.epoch)) }
        ensures in_table { result < table_length self.now.layout.pages }
    {
        self.spaces.area_place(self.spaces.to_space(self.epoch))
    }

    /// Takes the reply to it.
    #[inline(always)]
    pub fn take(&mut self, reply: Reply) -> Turn<RoundEnd>
        requires going { IsRoundGoing self.old.stage }
        requires allowed { IsSoundRound (taken self.old reply) }
        ensures state { self.new ≡ taken self.old reply }
        ensures tells { result ≡ told self.new }
        ensures lowers { IsTrue (advances self.old reply) → left self.new < left self.old }
    {
        self.spaces.known();
        self.go_on(reply);
        self.tell()
    }

    #[inline(always)]
    fn go_on(&mut self, reply: Reply)
        requires { IsSoundRound (taken self.old reply) }
        ensures { self.new ≡ taken self.old reply }
    {
        match reply {
            Reply::Value(word) => self.read(word),
            Reply::Won | Reply::Lost(_) | Reply::Done => self.hear(reply),
        }
    }

    /// Takes the word that was loaded.
    #[inline(always)]
    fn read(&mut self, word: u64)
        requires { IsSoundRound (taken self.old (Reply.Value word)) }
        ensures { self.new ≡ taken self.old (Reply.Value word) }
    {
        match self.stage {
            DutyStage::LoadsGate => self.look_at_gate(word),
            DutyStage::LoadsTraced(hindrance) => self.look_at_traced(hindrance, word),
            DutyStage::LoadsWanted(seen, page) => self.look_at_wanted(seen, page, word),
            DutyStage::LoadsFrontFor(seen, wanted) => self.find_front_for(seen, wanted, word),
            DutyStage::LoadsFront(seen) => self.find_front(seen, word),
            DutyStage::LoadsPage(choice, page) => self.look_at_page(choice, page, word),
            DutyStage::Claims(_) => self.go_on_claiming(Reply::Value(word)),
            DutyStage::EndGate(traced) => self.end_at_gate(traced, word),
            DutyStage::EndArea(traced) => self.end_at_area(traced, word),
            DutyStage::EndPage(look, page) => self.end_at_page(look, page, word),
            DutyStage::EndFilling(look) => self.end_at_filling(look, word),
            DutyStage::EndAreaAgain(look, filling) => self.end_at_area_again(look, filling, word),
            DutyStage::Walks(..) => self.go_on_walking(Reply::Value(word)),
            DutyStage::Traces(_) | DutyStage::Ended(_) => {}
        }
    }

    /// Takes what became of an exchange or a store.
    #[inline(always)]
    fn hear(&mut self, reply: Reply)
        requires other { (word : ℕ) → reply ≢ Reply.Value word }
        requires allowed { IsSoundRound (taken self.old reply) }
        ensures { self.new ≡ taken self.old reply }
    {
        match self.stage {
            DutyStage::Claims(_) => self.go_on_claiming(reply),
            DutyStage::Walks(..) => self.go_on_walking(reply),
            DutyStage::Traces(_) => match reply {
                Reply::Won => self.end(RoundEnd::Marked),
                Reply::Lost(word) => self.end(RoundEnd::NothingNow(word)),
                Reply::Value(_) | Reply::Done => {}
            },
            _ => {}
        }
    }

    /// What it tells of itself at this stage.
    #[inline(always)]
    fn tell(&self) -> Turn<RoundEnd>
        ensures { result ≡ told self.now }
    {
        match self.stage {
            DutyStage::Ended(outcome) => Turn::Finished(outcome),
            _ => Turn::More,
        }
    }

    /// Goes on to a stage that has a next step.
    fn go_to(&mut self, stage: DutyStage)
        requires fits { FitsDutyStage self.old stage }
        requires going { IsRoundGoing stage }
        ensures { self.new ≡ at_stage self.old stage }
    {
        self.stage = stage;
    }

    fn end(&mut self, outcome: RoundEnd)
        ensures { self.new ≡ at_stage self.old (DutyStage.Ended outcome) }
    {
        self.stage = DutyStage::Ended(outcome);
    }

    // ---- pages, in the epoch of the round

    fn state_of(&self, says: PageWord) -> PageState
        ensures { result ≡ round.state_of says self.now.epoch }
    {
        let (found, same) = match says {
            PageWord::Unset => return PageState::Waits,
            PageWord::Open(found) => (found, PageState::Opened),
            PageWord::Scanning(found, _) => (found, PageState::Scanned),
        };
        if found == self.epoch {
            same
        } else if self.epoch < found {
            PageState::Past
        } else {
            PageState::Waits
        }
    }

    /// The page after this one in the order of the choice: the board, then the space's pages upward.
    fn page_after(&self, page: u32) -> u32
        requires { page ≤ board_page self.now.layout.pages }
        ensures page { result ≡ round.page_after self.now page }
        ensures in_range { result ≤ 2 * MOST_PAGES + 1 }
    {
        let spaces = self.spaces;
        spaces.known();
        if page == spaces.board_page() {
            spaces.page_of(spaces.space_start(spaces.to_space(self.epoch)))
        } else {
            page + 1
        }
    }

    /// The address of FRONT.
    fn front_of(&self, area: AreaWord) -> u32
        requires { area.front < part_end }
        ensures { result ≡ round.front_of self.now area }
    {
        self.spaces.known();
        self.spaces.space_start(self.spaces.to_space(self.epoch)) + area.front
    }
}

/// Whether the page lies wholly below FRONT.
fn is_full(front: u32, page: u32) -> bool
    requires { page ≤ 2 * MOST_PAGES + 1 }
    ensures { result ≡ round.is_full front page }
{
    PAGE_WORDS * (page + 1) <= front
}
