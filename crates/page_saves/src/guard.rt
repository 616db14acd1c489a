ghost use Rattle.std.specs.Prelude.{◌≡◌, ◌<◌, ◌≤◌, Some, IsTrue, true};
ghost use Rattle.atom_store.specs.Step.{place_in};
ghost use Rattle.space_map.specs.declared.spaces.TheConstants.{LAST_WORKER};
ghost use Rattle.space_map.specs.SaveWord.{decode_save, number_of};
ghost use Rattle.space_map.specs.Spaces.{board_page};
ghost use Rattle.space_map.specs.Table.{whole_length};
ghost use Rattle.page_saves.specs.Guard.{begun, wanted, taken, told, left, advances, looked, looked_by};
ghost use Rattle.page_saves.specs.SoundGuard.{IsGuardGoing, IsGuardSaving};

use crate::guard_stage::GuardStage;
use crate::may_write::MayWrite;
use crate::save::Save;
use crate::save_end::SaveEnd;
use crate::save_state::SaveState;
use atom_store::{Reply, Step, Turn};
use space_map::{SaveWord, Spaces};
use std::marker::Model;

/// The look at what is said of an open page, before a word of it is written while a checkpoint runs.
#[derive(Clone, Copy)]
pub struct Guard {
    spaces: Spaces,
    page: u32,
    number: u32,
    worker: u8,
    stage: GuardStage,
}

impl Model for Guard {
    ghost use Rattle.page_saves.specs.Guard.{Guarding};
    ghost use Rattle.page_saves.specs.SoundGuard.{IsSoundGuard};

    ghost Value = { Guarding };

    ghost view = { λ g. record { layout = g.spaces; page = g.page; number = g.number; worker = g.worker; stage = g.stage } };

    ghost invariant = { λ g. IsSoundGuard (record { layout = g.spaces; page = g.page; number = g.number; worker = g.worker; stage = g.stage }) };

    ghost inverse = { λ g. record { spaces = g.layout; page = g.page; number = g.number; worker = g.worker; stage = g.stage } };
}

impl Guard {
    /// The look before a word of this page is written while the checkpoint of this number runs.
    pub fn new(spaces: Spaces, page: u32, number: u32, worker: u8) -> Guard
        requires room { spaces.checkpoints ≡ true }
        requires page { page ≤ board_page spaces.pages }
        requires worker { worker ≤ LAST_WORKER }
        ensures { result ≡ begun spaces page number worker }
    {
        spaces.known();
        Guard {
            spaces,
            page,
            number,
            worker,
            stage: GuardStage::Looks,
        }
    }

    pub fn page(&self) -> u32
        ensures { result ≡ self.now.page }
    {
        self.page
    }

    /// The next step.
    #[inline(always)]
    pub fn want(&self) -> Step
        requires { IsGuardGoing self.now.stage }
        ensures wanted { wanted self.now ≡ Some result }
        ensures in_table { place_in result < whole_length self.now.layout }
    {
        match self.stage {
            GuardStage::Looks => Step::Load(self.spaces.save_place(self.page)),
            GuardStage::Saves(save) => save.want(),
            GuardStage::Ended(_) => unreachable!(),
        }
    }

    /// Takes the reply to it.
    #[inline(always)]
    pub fn take(&mut self, reply: Reply) -> Turn<MayWrite>
        requires { IsGuardGoing self.old.stage }
        ensures state { self.new ≡ taken self.old reply }
        ensures tells { result ≡ told self.new }
        ensures lowers { IsTrue (advances self.old reply) → left self.new < left self.old }
    {
        match (self.stage, reply) {
            (GuardStage::Looks, Reply::Value(word)) => self.look(word),
            (GuardStage::Saves(_), _) => self.go_on_saving(reply),
            _ => Turn::More,
        }
    }

    #[inline(always)]
    fn look(&mut self, word: u64) -> Turn<MayWrite>
        ensures state { self.new ≡ record self.old { stage = looked self.old (decode_save word) } }
        ensures tells { result ≡ told self.new }
    {
        let Some(says) = SaveWord::read(word) else {
            return self.look_again();
        };
        match SaveState::of(says, self.number) {
            SaveState::Waits => self.save(says),
            SaveState::Kept => self.end(),
            SaveState::Copying | SaveState::Past => self.look_again(),
        }
    }

    /// Saves the page, of which this was said.
    fn save(&mut self, says: SaveWord) -> Turn<MayWrite>
        requires { number_of says < self.old.number }
        ensures state { self.new ≡ record self.old { stage = looked_by self.old says SaveState.Waits } }
        ensures tells { result ≡ told self.new }
    {
        let save = Save::new(self.spaces, self.page, says, self.number, self.worker);
        self.stage = GuardStage::Saves(save);
        Turn::More
    }

    #[inline(always)]
    fn go_on_saving(&mut self, reply: Reply) -> Turn<MayWrite>
        requires { IsGuardSaving self.old.stage }
        ensures state { self.new ≡ taken self.old reply }
        ensures tells { result ≡ told self.new }
    {
        let GuardStage::Saves(save) = &mut self.stage else {
            unreachable!();
        };
        match save.take(reply) {
            Turn::More => Turn::More,
            Turn::Finished(SaveEnd::Saved) => {
                self.stage = GuardStage::Ended(MayWrite);
                Turn::Finished(MayWrite)
            }
            Turn::Finished(SaveEnd::Taken(_)) => {
                self.stage = GuardStage::Looks;
                Turn::More
            }
        }
    }

    fn look_again(&mut self) -> Turn<MayWrite>
        ensures state { self.new ≡ record self.old { stage = GuardStage.Looks } }
        ensures tells { result ≡ told self.new }
    {
        self.stage = GuardStage::Looks;
        Turn::More
    }

    fn end(&mut self) -> Turn<MayWrite>
        ensures state { self.new ≡ record self.old { stage = GuardStage.Ended (record {}) } }
        ensures tells { result ≡ told self.new }
    {
        self.stage = GuardStage::Ended(MayWrite);
        Turn::Finished(MayWrite)
    }
}
