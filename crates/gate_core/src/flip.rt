ghost use Rattle.std.specs.Prelude.{◌≡◌, ◌+◌, ◌*◌, ◌^◌, ◌<◌, ◌≤◌, Some, IsTrue};
ghost use Rattle.atom_store.specs.Step.{place_in};
ghost use Rattle.space_map.specs.AreaWord.{AreaFits, decode_area, part_end};
ghost use Rattle.space_map.specs.GateWord.{decode_gate};
ghost use Rattle.space_map.specs.declared.spaces.TheConstants.{MOST_PAGES, PAGE_WORDS};
ghost use Rattle.gate_core.specs.Flip.{begun, wanted, taken, told, left, advances, is_still, gate_flipped, next_size, used_in, area_reset, looked, read_area};
ghost use Rattle.gate_core.specs.Soundness.{IsFlippingGoing, IsSoundFlipping, FitsFlipStage, IsSizeWithin, MayFlip};
ghost use Rattle.space_map.specs.Table.{table_length};

use crate::flip_stage::FlipStage;
use crate::flipped::Flipped;
use crate::reset::Reset;
use atom_store::{Reply, Step, Turn};
use space_map::{AreaWord, GateWord, PAGE_WORDS, Spaces};
use std::marker::Model;

/// The flip out of one epoch, by the mutator that requested it.
#[derive(Clone, Copy)]
pub struct Flip {
    spaces: Spaces,
    epoch: u32,
    asked: u32,
    seen: bool,
    stage: FlipStage,
}

impl Model for Flip {
    ghost use Rattle.gate_core.specs.Flip.{Flipping};
    ghost use Rattle.gate_core.specs.Soundness.{IsSoundFlipping};

    ghost Value = { Flipping };

    ghost view = { λ f. record { layout = f.spaces; epoch = f.epoch; asked = f.asked; seen = f.seen; stage = f.stage } };

    ghost invariant = { λ f. IsSoundFlipping (record { layout = f.spaces; epoch = f.epoch; asked = f.asked; seen = f.seen; stage = f.stage }) };

    ghost inverse = { λ f. record { spaces = f.layout; epoch = f.epoch; asked = f.asked; seen = f.seen; stage = f.stage } };
}

impl Flip {
    /// The flip of a mutator of this epoch, which asks for so many pages, and has seen another flip since its instruction began
    /// or not.
    pub fn new(spaces: Spaces, epoch: u32, asked: u32, seen: bool) -> Flip
        requires { epoch + 1 < 2 ^ 32 }
        ensures { result ≡ begun spaces epoch asked seen }
    {
        spaces.known();
        Flip {
            spaces,
            epoch,
            asked,
            seen,
            stage: FlipStage::LoadsGate,
        }
    }

    /// The pages that the flipper asks for.
    pub fn asked(&self) -> u32
        ensures { result ≡ self.now.asked }
    {
        self.asked
    }

    /// The next step.
    #[inline(always)]
    pub fn want(&self) -> Step
        requires { IsFlippingGoing self.now.stage }
        ensures wanted { wanted self.now ≡ Some result }
        ensures in_table { place_in result < table_length self.now.layout.pages }
    {
        let spaces = self.spaces;
        match self.stage {
            FlipStage::LoadsGate => Step::Load(spaces.gate_place()),
            FlipStage::LoadsSize(_) => Step::Load(spaces.size_place(spaces.to_space(self.epoch))),
            FlipStage::LoadsArea(_, _) => {
                Step::Load(spaces.area_place(spaces.to_space(self.epoch)))
            }
            FlipStage::StoresSize(reset) => Step::Store(
                spaces.size_place(spaces.to_space(self.epoch + 1)),
                u64::from(reset.next),
            ),
            FlipStage::StoresArea(reset) => Step::Store(
                spaces.area_place(spaces.to_space(self.epoch + 1)),
                empty_area(reset.next, reset.used).pack(),
            ),
            FlipStage::ResetsWeak(_) => Step::Store(spaces.weak_place(), 0),
            FlipStage::Exchanges(reset) => Step::Exchange(
                spaces.gate_place(),
                reset.gate.pack(),
                flipped(reset.gate).pack(),
            ),
            FlipStage::Ended(_) => unreachable!(),
        }
    }

    /// Takes the reply to it.
    #[inline(always)]
    pub fn take(&mut self, reply: Reply) -> Turn<Flipped>
        requires going { IsFlippingGoing self.old.stage }
        requires allowed { IsSoundFlipping (taken self.old reply) }
        ensures state { self.new ≡ taken self.old reply }
        ensures tells { result ≡ told self.new }
        ensures lowers { IsTrue (advances self.old reply) → left self.new < left self.old }
    {
        match (self.stage, reply) {
            (FlipStage::LoadsGate, Reply::Value(word)) => self.read_gate(word),
            (FlipStage::LoadsSize(gate), Reply::Value(word)) => {
                self.stage = FlipStage::LoadsArea(gate, word as u32);
                Turn::More
            }
            (FlipStage::LoadsArea(gate, size), Reply::Value(word)) => {
                self.read_area(gate, size, word)
            }
            (FlipStage::StoresSize(reset), Reply::Done) => {
                self.stage = FlipStage::StoresArea(reset);
                Turn::More
            }
            (FlipStage::StoresArea(reset), Reply::Done) => {
                self.stage = FlipStage::ResetsWeak(reset);
                Turn::More
            }
            (FlipStage::ResetsWeak(reset), Reply::Done) => {
                self.stage = FlipStage::Exchanges(reset);
                Turn::More
            }
            (FlipStage::Exchanges(_), Reply::Won) => self.end(Flipped::Went(self.asked)),
            (FlipStage::Exchanges(_), Reply::Lost(_)) => {
                self.stage = FlipStage::LoadsGate;
                Turn::More
            }
            _ => Turn::More,
        }
    }

    #[inline(always)]
    fn read_gate(&mut self, word: u64) -> Turn<Flipped>
        requires { FitsFlipStage self.old.layout.pages self.old.seen (looked word (decode_gate word)) }
        ensures state { self.new ≡ record self.old { stage = looked word (decode_gate word) } }
        ensures tells { result ≡ told self.new }
    {
        match GateWord::read(word) {
            Some(gate) if gate.running == 0 && gate.behind == 0 => {
                self.stage = FlipStage::LoadsSize(gate);
                Turn::More
            }
            Some(_) => self.end(Flipped::NotYet(word)),
            None => {
                self.stage = FlipStage::LoadsGate;
                Turn::More
            }
        }
    }

    #[inline(always)]
    fn read_area(&mut self, gate: GateWord, size: u32, word: u64) -> Turn<Flipped>
        requires size { IsSizeWithin self.old.layout.pages size }
        requires fits { FitsFlipStage self.old.layout.pages self.old.seen (read_area self.old.layout.pages self.old.seen gate size (decode_area word)) }
        ensures state { self.new ≡ record self.old { stage = read_area self.old.layout.pages self.old.seen gate size (decode_area word) } }
        ensures tells { result ≡ told self.new }
    {
        self.stage = match AreaWord::read(word) {
            Some(area) => FlipStage::StoresSize(Reset {
                gate,
                size,
                next: next_size(self.spaces, self.seen, size, area.front),
                used: used(size, area),
            }),
            None => FlipStage::LoadsArea(gate, size),
        };
        Turn::More
    }

    fn end(&mut self, outcome: Flipped) -> Turn<Flipped>
        ensures state { self.new ≡ record self.old { stage = FlipStage.Ended outcome } }
        ensures tells { result ≡ told self.new }
    {
        self.stage = FlipStage::Ended(outcome);
        Turn::Finished(outcome)
    }
}

/// The pages of the other space that are in use from now on. A space grows if it has copied more than half of its words, and if
/// a flip wasn't enough.
fn next_size(spaces: Spaces, seen: bool, size: u32, copied: u32) -> u32
    requires size { IsSizeWithin spaces.pages size }
    requires copied { copied < part_end }
    ensures { result ≡ next_size spaces.pages seen size copied }
{
    let pages = spaces.pages();
    if seen || PAGE_WORDS * size < 2 * copied {
        pages.min(2 * size)
    } else {
        size
    }
}

/// The words in use: those that are not between FRONT and LOW.
fn used(size: u32, area: AreaWord) -> u32
    requires { size ≤ MOST_PAGES }
    ensures { result ≡ used_in size area }
{
    let room = area.low.saturating_sub(area.front);
    (PAGE_WORDS * size).saturating_sub(room)
}

/// The area of the space that is going to be copied into.
fn empty_area(next: u32, used: u32) -> AreaWord
    requires next { next ≤ MOST_PAGES }
    requires used { used ≤ PAGE_WORDS * MOST_PAGES }
    ensures area { result ≡ area_reset next used }
    ensures fits { AreaFits result }
{
    AreaWord {
        front: 0,
        low: PAGE_WORDS * next,
        owed: used,
    }
}

/// The gate of the next epoch: all that are live are behind, and no flip is requested any more.
fn flipped(gate: GateWord) -> GateWord
    requires { MayFlip gate }
    ensures gate { result ≡ gate_flipped gate }
    ensures fits { result.left < 2 ^ 5 }
{
    GateWord {
        epoch: gate.epoch + 1,
        behind: gate.live,
        request: false,
        ..gate
    }
}
