ghost use Rattle.std.specs.Prelude.{◌≡◌, ◌<◌, ◌≤◌, Some, IsTrue};
ghost use Rattle.atom_store.specs.Step.{place_in};
ghost use Rattle.space_map.specs.Spaces.{board_page};
ghost use Rattle.page_slots.specs.Open.{begun, wanted, taken, told, left, advances};
ghost use Rattle.page_slots.specs.Soundness.{IsOpeningGoing};
ghost use Rattle.space_map.specs.Table.{table_length};

use crate::open_stage::OpenStage;
use crate::opened::Opened;
use atom_store::{Reply, Step, Turn};
use space_map::{PageWord, Spaces};
use std::marker::Model;

/// The opening of a page to mutators in one epoch.
#[derive(Clone, Copy)]
pub struct Open {
    spaces: Spaces,
    page: u32,
    epoch: u32,
    stage: OpenStage,
}

impl Model for Open {
    ghost use Rattle.page_slots.specs.Open.{Opening};
    ghost use Rattle.page_slots.specs.Soundness.{IsSoundOpening};

    ghost Value = { Opening };

    ghost view = { λ o. record { layout = o.spaces; page = o.page; epoch = o.epoch; stage = o.stage } };

    ghost invariant = { λ o. IsSoundOpening (record { layout = o.spaces; page = o.page; epoch = o.epoch; stage = o.stage }) };

    ghost inverse = { λ o. record { spaces = o.layout; page = o.page; epoch = o.epoch; stage = o.stage } };
}

impl Open {
    pub fn new(spaces: Spaces, page: u32, epoch: u32) -> Open
        requires { page ≤ board_page spaces.pages }
        ensures { result ≡ begun spaces page epoch }
    {
        spaces.known();
        Open {
            spaces,
            page,
            epoch,
            stage: OpenStage::StoresOpen,
        }
    }

    /// The next step.
    #[inline(always)]
    pub fn want(&self) -> Step
        requires { IsOpeningGoing self.now.stage }
        ensures wanted { wanted self.now ≡ Some result }
        ensures in_table { place_in result < table_length self.now.layout.pages }
    {
        match self.stage {
            OpenStage::StoresOpen => Step::Store(
                self.spaces.page_place(self.page),
                PageWord::Open(self.epoch).pack(),
            ),
            OpenStage::Ended(_) => unreachable!(),
        }
    }

    /// Takes the reply to it.
    #[inline(always)]
    pub fn take(&mut self, reply: Reply) -> Turn<Opened>
        requires { IsOpeningGoing self.old.stage }
        ensures state { self.new ≡ taken self.old reply }
        ensures tells { result ≡ told self.new }
        ensures lowers { IsTrue (advances self.old reply) → left self.new < left self.old }
    {
        match (self.stage, reply) {
            (OpenStage::StoresOpen, Reply::Done) => {
                self.stage = OpenStage::Ended(Opened);
                Turn::Finished(Opened)
            }
            _ => Turn::More,
        }
    }
}
