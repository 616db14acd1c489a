ghost use Rattle.std.specs.Prelude.{◌≡◌, ◌<◌, ◌≤◌, Some, IsTrue, true};
ghost use Rattle.atom_store.specs.Step.{place_in};
ghost use Rattle.space_map.specs.declared.spaces.TheConstants.{LAST_WORKER, PAGE_WORDS};
ghost use Rattle.space_map.specs.SaveWord.{number_of};
ghost use Rattle.space_map.specs.Spaces.{board_page};
ghost use Rattle.space_map.specs.Table.{whole_length};
ghost use Rattle.page_saves.specs.Save.{begun, wanted, taken, told, left, advances, word_of_page, after_word};
ghost use Rattle.page_saves.specs.SoundSave.{IsSaveGoing, FitsSaveStage};

use crate::save_end::SaveEnd;
use crate::save_stage::SaveStage;
use atom_store::{Reply, Step, Turn};
use space_map::{PAGE_WORDS, SaveWord, Spaces};
use std::marker::Model;

/// The save of a page, for one checkpoint by one worker.
#[derive(Clone, Copy)]
pub struct Save {
    spaces: Spaces,
    page: u32,
    found: SaveWord,
    number: u32,
    worker: u8,
    stage: SaveStage,
}

impl Model for Save {
    ghost use Rattle.page_saves.specs.Save.{PageSaving};
    ghost use Rattle.page_saves.specs.SoundSave.{IsSoundSave};

    ghost Value = { PageSaving };

    ghost view = { λ s. record { layout = s.spaces; page = s.page; found = s.found; number = s.number; worker = s.worker; stage = s.stage } };

    ghost invariant = { λ s. IsSoundSave (record { layout = s.spaces; page = s.page; found = s.found; number = s.number; worker = s.worker; stage = s.stage }) };

    ghost inverse = { λ s. record { spaces = s.layout; page = s.page; found = s.found; number = s.number; worker = s.worker; stage = s.stage } };
}

impl Save {
    /// The save of a page, of which this was said when that was read, for the checkpoint of this number.
    pub fn new(spaces: Spaces, page: u32, found: SaveWord, number: u32, worker: u8) -> Save
        requires room { spaces.checkpoints ≡ true }
        requires page { page ≤ board_page spaces.pages }
        requires earlier { number_of found < number }
        requires worker { worker ≤ LAST_WORKER }
        ensures { result ≡ begun spaces page found number worker }
    {
        spaces.known();
        Save {
            spaces,
            page,
            found,
            number,
            worker,
            stage: SaveStage::Exchanges,
        }
    }

    pub fn page(&self) -> u32
        ensures { result ≡ self.now.page }
    {
        self.page
    }

    /// The next step.
    #[inline(always)]
    pub fn want(&self) -> Step
        requires { IsSaveGoing self.now.stage }
        ensures wanted { wanted self.now ≡ Some result }
        ensures in_table { place_in result < whole_length self.now.layout }
    {
        let spaces = self.spaces;
        match self.stage {
            SaveStage::Exchanges => Step::Exchange(
                spaces.save_place(self.page),
                self.found.pack(),
                SaveWord::Saving(self.number, self.worker).pack(),
            ),
            SaveStage::LoadsWord(i) => Step::Load(spaces.word_place(self.word(i))),
            SaveStage::StoresImage(i, word) => {
                Step::Store(spaces.image_place(self.word(i)), word)
            }
            SaveStage::StoresSaved => Step::Store(
                spaces.save_place(self.page),
                SaveWord::Saved(self.number).pack(),
            ),
            SaveStage::Ended(_) => unreachable!(),
        }
    }

    /// The address of this word of the page.
    fn word(&self, i: u32) -> u32
        requires { i < PAGE_WORDS }
        ensures { result ≡ word_of_page self.now.page i }
    {
        self.spaces.known();
        self.spaces.first_word(self.page) + i
    }

    /// Takes the reply to it.
    #[inline(always)]
    pub fn take(&mut self, reply: Reply) -> Turn<SaveEnd>
        requires { IsSaveGoing self.old.stage }
        ensures state { self.new ≡ taken self.old reply }
        ensures tells { result ≡ told self.new }
        ensures lowers { IsTrue (advances self.old reply) → left self.new < left self.old }
    {
        match (self.stage, reply) {
            (SaveStage::Exchanges, Reply::Won) => self.go_to(SaveStage::LoadsWord(0)),
            (SaveStage::Exchanges, Reply::Lost(word)) => self.end(SaveEnd::Taken(word)),
            (SaveStage::LoadsWord(i), Reply::Value(word)) => {
                self.go_to(SaveStage::StoresImage(i, word))
            }
            (SaveStage::StoresImage(i, _), Reply::Done) => self.go_behind(i),
            (SaveStage::StoresSaved, Reply::Done) => self.end(SaveEnd::Saved),
            _ => Turn::More,
        }
    }

    /// Goes on behind this word of the page, which is saved.
    #[inline(always)]
    fn go_behind(&mut self, i: u32) -> Turn<SaveEnd>
        requires { i < PAGE_WORDS }
        ensures state { self.new ≡ record self.old { stage = after_word i } }
        ensures tells { result ≡ told self.new }
    {
        if i + 1 < PAGE_WORDS {
            self.go_to(SaveStage::LoadsWord(i + 1))
        } else {
            self.go_to(SaveStage::StoresSaved)
        }
    }

    /// Goes on to a stage that has a next step.
    #[inline(always)]
    fn go_to(&mut self, stage: SaveStage) -> Turn<SaveEnd>
        requires fits { FitsSaveStage stage }
        requires going { IsSaveGoing stage }
        ensures state { self.new ≡ record self.old { stage = stage } }
        ensures more { result ≡ Turn.More }
    {
        self.stage = stage;
        Turn::More
    }

    fn end(&mut self, outcome: SaveEnd) -> Turn<SaveEnd>
        ensures state { self.new ≡ record self.old { stage = SaveStage.Ended outcome } }
        ensures tells { result ≡ told self.new }
    {
        self.stage = SaveStage::Ended(outcome);
        Turn::Finished(outcome)
    }
}
