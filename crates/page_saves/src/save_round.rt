ghost use Rattle.std.specs.Prelude.{◌≡◌, ◌≢◌, ◌+◌, ◌*◌, ◌^◌, ◌<◌, ◌≤◌, Some, IsSome, IsTrue, true};
ghost use Rattle.atom_store.specs.Step.{place_in};
ghost use Rattle.space_map.specs.declared.spaces.TheConstants.{LAST_WORKER, MOST_PAGES};
ghost use Rattle.space_map.specs.GateWord.{decode_gate};
ghost use Rattle.space_map.specs.SaveWord.{decode_save, number_of};
ghost use Rattle.space_map.specs.Spaces.{board_page};
ghost use Rattle.space_map.specs.Table.{whole_length};
ghost use Rattle.page_saves.specs.SaveRound as round;
ghost use Rattle.page_saves.specs.SaveRound.{begun_by_mutator, begun_by_scanner, wanted, taken, told, left, left_at, advances, at_stage, number_in, pages_left, to_page};
ghost use Rattle.page_saves.specs.SoundRound.{FitsSaveRoundStage, IsRoundPage, IsRoundSaving, IsSaveRoundGoing};

use crate::save::Save;
use crate::save_caller::SaveCaller;
use crate::save_end::SaveEnd;
use crate::save_round_end::SaveRoundEnd;
use crate::save_round_stage::SaveRoundStage;
use crate::save_state::SaveState;
use atom_store::{Reply, Step, Turn};
use space_map::{GateWord, PageWord, SaveWord, Spaces};
use std::marker::Model;

/// One round for the checkpoint that runs: a page is saved, or the checkpoint is marked as done.
#[derive(Clone, Copy)]
pub struct SaveRound {
    spaces: Spaces,
    caller: SaveCaller,
    epoch: u32,
    number: u32,
    worker: u8,
    stage: SaveRoundStage,
}

impl Model for SaveRound {
    ghost use Rattle.page_saves.specs.SaveRound.{SavingRound};
    ghost use Rattle.page_saves.specs.SoundRound.{IsSoundSaveRound};

    ghost Value = { SavingRound };

    ghost view = { λ r. record { layout = r.spaces; caller = r.caller; epoch = r.epoch; number = r.number; worker = r.worker; stage = r.stage } };

    ghost invariant = { λ r. IsSoundSaveRound (record { layout = r.spaces; caller = r.caller; epoch = r.epoch; number = r.number; worker = r.worker; stage = r.stage }) };

    ghost inverse = { λ r. record { spaces = r.layout; caller = r.caller; epoch = r.epoch; number = r.number; worker = r.worker; stage = r.stage } };
}

impl SaveRound {
    /// The round of a mutator that runs, in its epoch.
    pub fn of_mutator(spaces: Spaces, epoch: u32, worker: u8) -> SaveRound
        requires room { spaces.checkpoints ≡ true }
        requires worker { worker ≤ LAST_WORKER }
        ensures { result ≡ begun_by_mutator spaces epoch worker }
    {
        spaces.known();
        SaveRound {
            spaces,
            caller: SaveCaller::Mutates,
            epoch,
            number: 0,
            worker,
            stage: SaveRoundStage::LoadsSnap,
        }
    }

    /// The round of a scanner beside so many mutators.
    pub fn of_scanner(spaces: Spaces, mutators: u8, worker: u8) -> SaveRound
        requires room { spaces.checkpoints ≡ true }
        requires worker { worker ≤ LAST_WORKER }
        ensures { result ≡ begun_by_scanner spaces mutators worker }
    {
        spaces.known();
        SaveRound {
            spaces,
            caller: SaveCaller::Scans(mutators),
            epoch: 0,
            number: 0,
            worker,
            stage: SaveRoundStage::LoadsGate,
        }
    }

    /// The epoch that the round is for.
    pub fn epoch(&self) -> u32
        ensures { result ≡ self.now.epoch }
    {
        self.epoch
    }

    /// The number of the last checkpoint that was begun, once that is read.
    pub fn number(&self) -> u32
        ensures { result ≡ self.now.number }
    {
        self.number
    }

    /// The next step.
    #[inline(always)]
    pub fn want(&self) -> Step
        requires { IsSaveRoundGoing self.now.stage }
        ensures wanted { wanted self.now ≡ Some result }
        ensures in_table { place_in result < whole_length self.now.layout }
    {
        let spaces = self.spaces;
        match self.stage {
            SaveRoundStage::LoadsGate | SaveRoundStage::LoadsGateAgain => {
                Step::Load(spaces.gate_place())
            }
            SaveRoundStage::LoadsSnap => Step::Load(spaces.snap_place()),
            SaveRoundStage::LoadsDone => Step::Load(spaces.last_saved_place()),
            SaveRoundStage::LoadsPage(page, _) => Step::Load(spaces.page_place(page)),
            SaveRoundStage::LoadsSave(page, _) => Step::Load(spaces.save_place(page)),
            SaveRoundStage::Saves(save) => save.want(),
            SaveRoundStage::ExchangesDone => Step::Exchange(
                spaces.last_saved_place(),
                u64::from(self.number.saturating_sub(1)),
                u64::from(self.number),
            ),
            SaveRoundStage::Ended(_) => unreachable!(),
        }
    }

    /// Takes the reply to it.
    #[inline(always)]
    pub fn take(&mut self, reply: Reply) -> Turn<SaveRoundEnd>
        requires { IsSaveRoundGoing self.old.stage }
        ensures state { self.new ≡ taken self.old reply }
        ensures tells { result ≡ told self.new }
        ensures lowers { IsTrue (advances self.old reply) → left self.new < left self.old }
    {
        self.spaces.known();
        match (self.stage, reply) {
            (SaveRoundStage::LoadsGate, Reply::Value(word)) => self.look_at_gate(word),
            (SaveRoundStage::LoadsSnap, Reply::Value(word)) => self.look_at_snap(word),
            (SaveRoundStage::LoadsDone, Reply::Value(word)) => self.look_at_done(word),
            (SaveRoundStage::LoadsGateAgain, Reply::Value(word)) => self.look_at_gate_again(word),
            (SaveRoundStage::LoadsPage(page, busy), Reply::Value(word)) => {
                self.look_at_page(page, busy, word)
            }
            (SaveRoundStage::LoadsSave(page, busy), Reply::Value(word)) => {
                self.look_at_save(page, busy, word)
            }
            (SaveRoundStage::Saves(_), _) => self.go_on_saving(reply),
            (SaveRoundStage::ExchangesDone, Reply::Won) => self.end(SaveRoundEnd::Marked),
            (SaveRoundStage::ExchangesDone, Reply::Lost(word)) => self.end_for_now(word),
            _ => Turn::More,
        }
    }

    #[inline(always)]
    fn look_at_gate(&mut self, word: u64) -> Turn<SaveRoundEnd>
        ensures state { self.new ≡ round.looked_at_gate self.old word (decode_gate word) }
        ensures tells { result ≡ told self.new }
    {
        let Some(gate) = GateWord::read(word) else {
            return self.go_to(SaveRoundStage::LoadsGate);
        };
        match self.caller {
            SaveCaller::Scans(mutators) if gate.left == mutators => self.end_for_now(word),
            SaveCaller::Scans(_) | SaveCaller::Mutates => {
                self.epoch = gate.epoch;
                self.stage = SaveRoundStage::LoadsSnap;
                Turn::More
            }
        }
    }

    #[inline(always)]
    fn look_at_snap(&mut self, word: u64) -> Turn<SaveRoundEnd>
        ensures state { self.new ≡ round.found_snap self.old (number_in word) }
        ensures tells { result ≡ told self.new }
    {
        let Ok(number) = u32::try_from(word) else {
            return self.go_to(SaveRoundStage::LoadsSnap);
        };
        self.number = number;
        self.stage = SaveRoundStage::LoadsDone;
        Turn::More
    }

    #[inline(always)]
    fn look_at_done(&mut self, word: u64) -> Turn<SaveRoundEnd>
        ensures state { self.new ≡ at_stage self.old (round.found_done self.old (number_in word)) }
        ensures tells { result ≡ told self.new }
    {
        let Ok(done) = u32::try_from(word) else {
            return self.go_to(SaveRoundStage::LoadsDone);
        };
        if done == self.number {
            return self.end(SaveRoundEnd::NoneRuns(done));
        }
        match self.caller {
            SaveCaller::Mutates => self.go_to_board(),
            SaveCaller::Scans(_) => self.go_to(SaveRoundStage::LoadsGateAgain),
        }
    }

    #[inline(always)]
    fn look_at_gate_again(&mut self, word: u64) -> Turn<SaveRoundEnd>
        ensures state { self.new ≡ at_stage self.old (round.looked_at_gate_again self.old word (decode_gate word)) }
        ensures tells { result ≡ told self.new }
    {
        match GateWord::read(word) {
            Some(gate) if gate.epoch == self.epoch => self.go_to_board(),
            Some(_) => self.end_for_now(word),
            None => self.go_to(SaveRoundStage::LoadsGateAgain),
        }
    }

    #[inline(always)]
    fn look_at_page(&mut self, page: u32, busy: Option<u64>, word: u64) -> Turn<SaveRoundEnd>
        requires { IsRoundPage self.old page }
        ensures state { self.new ≡ at_stage self.old (round.looked_at_page self.old page busy word) }
        ensures tells { result ≡ told self.new }
        ensures lowers { left self.new < left_at self.old (SaveRoundStage.LoadsPage page busy) }
    {
        if word == PageWord::Open(self.epoch).pack() {
            self.go_to(SaveRoundStage::LoadsSave(page, busy))
        } else {
            self.pass(page, busy)
        }
    }

    #[inline(always)]
    fn look_at_save(&mut self, page: u32, busy: Option<u64>, word: u64) -> Turn<SaveRoundEnd>
        requires { IsRoundPage self.old page }
        ensures state { self.new ≡ at_stage self.old (round.looked_at_save self.old page busy word (decode_save word)) }
        ensures tells { result ≡ told self.new }
        ensures lowers { IsSome (decode_save word) → left self.new < left_at self.old (SaveRoundStage.LoadsSave page busy) }
    {
        let Some(says) = SaveWord::read(word) else {
            return self.go_to(SaveRoundStage::LoadsSave(page, busy));
        };
        match SaveState::of(says, self.number) {
            SaveState::Waits => self.save(page, says),
            SaveState::Copying => self.pass(page, Some(word)),
            SaveState::Kept => self.pass(page, busy),
            SaveState::Past => self.end_for_now(word),
        }
    }

    /// Saves the page, of which this was said.
    #[tactic(auto, using(crate::proofs::PageOrder::pages_left_gt))]
    fn save(&mut self, page: u32, says: SaveWord) -> Turn<SaveRoundEnd>
        requires page { IsRoundPage self.old page }
        requires earlier { number_of says < self.old.number }
        ensures state { self.new ≡ at_stage self.old (round.looked_by self.old page None 0 says SaveState.Waits) }
        ensures tells { result ≡ told self.new }
        ensures lowers { left self.new + 1 < 2 * pages_left self.old page + 130 }
    {
        let save = Save::new(self.spaces, page, says, self.number, self.worker);
        self.go_to(SaveRoundStage::Saves(save))
    }

    #[inline(always)]
    fn go_on_saving(&mut self, reply: Reply) -> Turn<SaveRoundEnd>
        requires { IsRoundSaving self.old.stage }
        ensures state { self.new ≡ taken self.old reply }
        ensures tells { result ≡ told self.new }
    {
        let SaveRoundStage::Saves(save) = &mut self.stage else {
            unreachable!();
        };
        if let Turn::Finished(saved) = save.take(reply) {
            let outcome = round_end(saved);
            self.stage = SaveRoundStage::Ended(outcome);
            return Turn::Finished(outcome);
        }
        Turn::More
    }

    /// Begins to look at the pages, the board first.
    fn go_to_board(&mut self) -> Turn<SaveRoundEnd>
        ensures state { self.new ≡ at_stage self.old (round.first_page self.old) }
        ensures tells { result ≡ told self.new }
    {
        let board = self.spaces.board_page();
        self.go_to(SaveRoundStage::LoadsPage(board, None))
    }

    /// Goes on behind a page that is not to be saved.
    #[inline(always)]
    #[tactic(auto, using(crate::proofs::PageOrder::further, crate::proofs::PageOrder::pages_left_gt))]
    fn pass(&mut self, page: u32, busy: Option<u64>) -> Turn<SaveRoundEnd>
        requires { IsRoundPage self.old page }
        ensures state { self.new ≡ at_stage self.old (round.passed_page self.old page busy) }
        ensures tells { result ≡ told self.new }
        ensures lowers { left self.new + 1 < 2 * pages_left self.old page + 130 }
    {
        self.spaces.known();
        let next = self.page_after(page);
        if next < self.first_page() + self.spaces.pages() {
            return self.go_to(SaveRoundStage::LoadsPage(next, busy));
        }
        match busy {
            Some(word) => self.end_for_now(word),
            None => self.go_to(SaveRoundStage::ExchangesDone),
        }
    }

    /// The page after this one in the order of the round: the board, then the space's pages upward.
    fn page_after(&self, page: u32) -> u32
        requires { page ≤ board_page self.now.layout.pages }
        ensures page { result ≡ round.page_after self.now page }
        ensures in_range { result ≤ 2 * MOST_PAGES + 1 }
    {
        self.spaces.known();
        if page == self.spaces.board_page() {
            self.first_page()
        } else {
            page + 1
        }
    }

    /// The first page of the space that is copied into.
    fn first_page(&self) -> u32
        ensures page { result ≡ to_page self.now }
        ensures in_range { result ≤ 2 * MOST_PAGES }
    {
        let spaces = self.spaces;
        spaces.known();
        spaces.page_of(spaces.space_start(spaces.to_space(self.epoch)))
    }

    /// Goes on to a stage that has a next step.
    #[inline(always)]
    fn go_to(&mut self, stage: SaveRoundStage) -> Turn<SaveRoundEnd>
        requires fits { FitsSaveRoundStage self.old stage }
        requires going { IsSaveRoundGoing stage }
        ensures state { self.new ≡ at_stage self.old stage }
        ensures more { result ≡ Turn.More }
    {
        self.stage = stage;
        Turn::More
    }

    fn end_for_now(&mut self, word: u64) -> Turn<SaveRoundEnd>
        ensures state { self.new ≡ at_stage self.old (SaveRoundStage.Ended (SaveRoundEnd.NothingNow word)) }
        ensures tells { result ≡ told self.new }
    {
        self.end(SaveRoundEnd::NothingNow(word))
    }

    fn end(&mut self, outcome: SaveRoundEnd) -> Turn<SaveRoundEnd>
        ensures state { self.new ≡ at_stage self.old (SaveRoundStage.Ended outcome) }
        ensures tells { result ≡ told self.new }
    {
        self.stage = SaveRoundStage::Ended(outcome);
        Turn::Finished(outcome)
    }
}

/// What a round comes to by its save.
fn round_end(saved: SaveEnd) -> SaveRoundEnd
    ensures { result ≡ round.save_comes_to saved }
{
    match saved {
        SaveEnd::Saved => SaveRoundEnd::Saved,
        SaveEnd::Taken(word) => SaveRoundEnd::NothingNow(word),
    }
}
