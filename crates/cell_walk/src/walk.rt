ghost use Rattle.std.specs.Prelude.{◌≡◌, ◌+◌, ◌*◌, ◌^◌, ◌<◌, ◌≤◌, Some, IsTrue};
ghost use Rattle.atom_store.specs.Step.{place_in};
ghost use Rattle.heap_words.specs.Decoded.{PointerWord, decode};
ghost use Rattle.space_map.specs.Table.{table_length};
ghost use Rattle.cell_walk.specs.Left.{advances, left};
ghost use Rattle.cell_walk.specs.Soundness.{IsSound};
ghost use Rattle.cell_walk.specs.Taken.{along, by_target, by_turn, replacement, taken, told};
ghost use Rattle.cell_walk.specs.Walking.{IsGoing, begun, most_cells, wanted};

use crate::linked_cell::LinkedCell;
use crate::walk_end::WalkEnd;
use crate::walk_stage::WalkStage;
use atom_store::{Reply, Step, Turn};
use heap_words::Word;
use space_map::{PAGE_WORDS, Spaces};
use std::marker::Model;

/// The number of words of a cell: its header, its target and its link.
const CELL_WORDS: u32 = 3;

/// The walk over the cells that were linked in an epoch, by one worker.
#[derive(Clone, Copy)]
pub struct Walk {
    spaces: Spaces,
    epoch: u32,
    stage: WalkStage,
}

impl Model for Walk {
    ghost use Rattle.cell_walk.specs.Walking.{Walking};
    ghost use Rattle.cell_walk.specs.Soundness.{IsSound};

    ghost Value = { Walking };

    ghost view = { λ v. record { layout = v.spaces; epoch = v.epoch; stage = v.stage } };

    ghost invariant = { λ v. IsSound (record { layout = v.spaces; epoch = v.epoch; stage = v.stage }) };

    ghost inverse = { λ v. record { spaces = v.layout; epoch = v.epoch; stage = v.stage } };
}

impl Walk {
    /// The walk of an epoch in which all else is done.
    pub fn new(spaces: Spaces, epoch: u32) -> Walk
        ensures { result ≡ begun spaces epoch }
    {
        spaces.known();
        Walk {
            spaces,
            epoch,
            stage: WalkStage::LoadsTurn,
        }
    }

    /// The next step.
    #[inline(always)]
    pub fn want(&self) -> Step
        requires { IsGoing self.now.stage }
        ensures wanted { wanted self.now ≡ Some result }
        ensures in_table { place_in result < table_length self.now.layout.pages }
    {
        let spaces = self.spaces;
        match self.stage {
            WalkStage::LoadsTurn => Step::Load(spaces.weak_turn_place()),
            WalkStage::TakesTurn(found) => Step::Exchange(
                spaces.weak_turn_place(),
                found,
                u64::from(self.epoch) + 1,
            ),
            WalkStage::LoadsWeak => Step::Load(spaces.weak_place()),
            WalkStage::LoadsTarget(cell) => Step::Load(spaces.word_place(cell.at + 1)),
            WalkStage::LoadsTargetHeader(_, old) => Step::Load(spaces.word_place(old)),
            WalkStage::StoresTarget(cell, word) => {
                Step::Store(spaces.word_place(cell.at + 1), word)
            }
            WalkStage::LoadsLink(cell) => Step::Load(spaces.word_place(cell.at + 2)),
            WalkStage::Ended(_) => unreachable!(),
        }
    }

    /// Takes the reply to it.
    #[inline(always)]
    pub fn take(&mut self, reply: Reply) -> Turn<WalkEnd>
        requires going { IsGoing self.old.stage }
        requires sound { IsSound (taken self.old reply) }
        ensures state { self.new ≡ taken self.old reply }
        ensures told { result ≡ told (taken self.old reply).stage }
        ensures lowers { IsTrue (advances self.old.stage reply) → left self.new < left self.old }
    {
        match (self.stage, reply) {
            (WalkStage::LoadsTurn, Reply::Value(word)) => self.reads_turn(word),
            (WalkStage::TakesTurn(_), Reply::Won) => self.goes_to(WalkStage::LoadsWeak),
            (WalkStage::TakesTurn(_), Reply::Lost(word)) => self.ends(WalkEnd::Another(word)),
            (WalkStage::LoadsWeak, Reply::Value(link)) => {
                self.goes_along(most_cells(self.spaces), link)
            }
            (WalkStage::LoadsTarget(cell), Reply::Value(word)) => self.reads_target(cell, word),
            (WalkStage::LoadsTargetHeader(cell, _), Reply::Value(word)) => {
                self.goes_to(WalkStage::StoresTarget(cell, replacement(word)))
            }
            (WalkStage::StoresTarget(cell, _), Reply::Done) => {
                self.goes_to(WalkStage::LoadsLink(cell))
            }
            (WalkStage::LoadsLink(cell), Reply::Value(link)) => {
                self.goes_along(cell.most - 1, link)
            }
            _ => Turn::More,
        }
    }

    fn goes_to(&mut self, stage: WalkStage) -> Turn<WalkEnd>
        requires going { IsGoing stage }
        requires sound { IsSound (record self.old { stage = stage }) }
        ensures state { self.new ≡ record self.old { stage = stage } }
        ensures told { result ≡ Turn.More }
    {
        self.stage = stage;
        Turn::More
    }

    fn ends(&mut self, end: WalkEnd) -> Turn<WalkEnd>
        ensures state { self.new ≡ record self.old { stage = WalkStage.Ended end } }
        ensures told { result ≡ Turn.Finished end }
    {
        self.stage = WalkStage::Ended(end);
        Turn::Finished(end)
    }

    /// Who sleeps through a flip may find the word of a later epoch, which is another's too.
    fn reads_turn(&mut self, word: u64) -> Turn<WalkEnd>
        ensures state { self.new ≡ record self.old { stage = by_turn self.old.epoch word } }
        ensures told { result ≡ told (by_turn self.old.epoch word) }
    {
        if word > u64::from(self.epoch) {
            self.ends(WalkEnd::Another(word))
        } else {
            self.goes_to(WalkStage::TakesTurn(word))
        }
    }

    /// Along a link, or from the word of the cell that was linked last, to the next cell.
    fn goes_along(&mut self, most: u32, link: u64) -> Turn<WalkEnd>
        requires { IsSound (record self.old { stage = along most link }) }
        ensures state { self.new ≡ record self.old { stage = along most link } }
        ensures told { result ≡ told (along most link) }
    {
        if link == 0 || most == 0 {
            return self.ends(WalkEnd::Passed);
        }
        self.goes_to(WalkStage::LoadsTarget(LinkedCell {
            at: (link - 1) as u32,
            most,
        }))
    }

    /// A target that is no pointer stays.
    fn reads_target(&mut self, cell: LinkedCell, word: u64) -> Turn<WalkEnd>
        requires { IsSound (record self.old { stage = by_target self.old.layout self.old.epoch cell (decode word) }) }
        ensures state { self.new ≡ record self.old { stage = by_target self.old.layout self.old.epoch cell (decode word) } }
        ensures told { result ≡ Turn.More }
    {
        match Word(word).as_pointer() {
            Some(address) => self.reads_pointer(cell, address),
            None => self.goes_to(WalkStage::LoadsLink(cell)),
        }
    }

    /// One that leads into the old space is replaced, by what stands there.
    fn reads_pointer(&mut self, cell: LinkedCell, address: u32) -> Turn<WalkEnd>
        requires { IsSound (record self.old { stage = by_target self.old.layout self.old.epoch cell (PointerWord address) }) }
        ensures state { self.new ≡ record self.old { stage = by_target self.old.layout self.old.epoch cell (PointerWord address) } }
        ensures told { result ≡ Turn.More }
    {
        let old_space = 1 - self.spaces.to_space(self.epoch);
        if self.spaces.in_space(address, old_space) {
            self.goes_to(WalkStage::LoadsTargetHeader(cell, address))
        } else {
            self.goes_to(WalkStage::LoadsLink(cell))
        }
    }
}

/// How many cells a space holds.
fn most_cells(spaces: Spaces) -> u32
    ensures { result ≡ most_cells spaces.pages }
{
    spaces.known();
    PAGE_WORDS * spaces.pages() / CELL_WORDS
}

/// What a target becomes that leads to an old record with this first word: where no forward is, nothing else leads there.
fn replacement(word: u64) -> u64
    ensures { result ≡ replacement (decode word) }
{
    match Word(word).as_forward() {
        Some(address) => Word::pointer(address).0,
        None => Word::number(0).0,
    }
}
