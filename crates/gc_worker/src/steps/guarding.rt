//! The look whether a page is saved, before a word is written there while a checkpoint is in progress.

ghost use Rattle.std.specs.Prelude.{◌≡◌, ◌≢◌, ◌≤◌, true};
ghost use Rattle.space_map.specs.declared.spaces.TheConstants.{LAST_WORKER};
ghost use Rattle.space_map.specs.Spaces.{board_page};
ghost use Rattle.page_saves.specs.Guard.{begun};
ghost use Rattle.gc_worker.specs.declared.stage.Stage.TheVariants.{Accesses, Guards, Places};
ghost use Rattle.gc_worker.specs.Workers.Fits.{FitsStage, Takes};
ghost use Rattle.gc_worker.specs.Workers.Held.{at_stage};
ghost use Rattle.gc_worker.specs.Steps.Stepped.{IsAtAccess, IsGuarding, IsPlacing, IsSound, uncounted};
ghost use Rattle.gc_worker.specs.Steps.Turned.{guarded_at, guards_access, guards_place, turned, writes};

use crate::stage::Stage;
use crate::stage::write::Write;
use crate::state::State;
use alloc_end::Place;
use atom_store::{Reply, Turn};
use page_saves::Guard;
use record_access::Access;

impl State {
    /// An access that writes a word next looks first whether the page is saved.
    #[inline(never)]
    fn guard_access(&mut self, access: Access)
        requires at { self.old.stage ≡ Accesses access }
        requires fits { FitsStage self.old (guards_access self.old access) }
        requires progress { self.old.running ≢ 0 }
        ensures { self.new ≡ at_stage self.old (guards_access self.old access) }
    {
        if let Some(page) = access.page_written() {
            self.stage = self.guarding(page, Write::OfAccess(access));
        }
    }

    /// The access at hand does so. It stands apart, so that it is copied only here, and not at each step of an access.
    #[inline(never)]
    pub fn guard_at_access(&mut self)
        requires at { IsAtAccess self.old.stage }
        requires fits { FitsStage self.old (guarded_at self.old self.old.stage) }
        requires progress { self.old.running ≢ 0 }
        ensures { self.new ≡ at_stage self.old (guarded_at self.old self.old.stage) }
    {
        let Stage::Accesses(access) = self.stage else {
            unreachable!()
        };
        self.guard_access(access);
    }

    /// An allocation that writes a word of its record next does so too.
    #[inline(never)]
    fn guard_place(&mut self, place: Place)
        requires at { self.old.stage ≡ Places place }
        requires fits { FitsStage self.old (guards_place self.old place) }
        requires progress { self.old.running ≢ 0 }
        ensures { self.new ≡ at_stage self.old (guards_place self.old place) }
    {
        if let Some(page) = place.page_written() {
            self.stage = self.guarding(page, Write::OfPlace(place));
        }
    }

    /// The allocation at hand does so.
    #[inline(never)]
    pub fn guard_at_place(&mut self)
        requires at { IsPlacing self.old.stage }
        requires fits { FitsStage self.old (guarded_at self.old self.old.stage) }
        requires progress { self.old.running ≢ 0 }
        ensures { self.new ≡ at_stage self.old (guarded_at self.old self.old.stage) }
    {
        let Stage::Places(place) = &self.stage else {
            unreachable!()
        };
        let place = *place;
        self.guard_place(place);
    }

    /// The look at this page, before this is written.
    fn guarding(&self, page: u32, write: Write) -> Stage
        requires room { self.now.layout.checkpoints ≡ true }
        requires page { page ≤ board_page self.now.layout.pages }
        requires worker { self.now.number ≤ LAST_WORKER }
        ensures { result ≡ Guards (begun self.now.layout page self.now.running self.now.number) write }
    {
        Stage::Guards(
            Guard::new(self.spaces, page, self.running, self.number),
            write,
        )
    }

    /// A step of the look.
    #[inline(never)]
    pub fn guard(&mut self, reply: Reply)
        requires at { IsGuarding self.old.stage }
        requires fits { IsSound self.old }
        requires takes { Takes self.old reply }
        requires after { IsSound (turned self.old reply) }
        ensures { self.new ≡ uncounted (turned self.old reply) }
    {
        let Stage::Guards(guard, write) = &mut self.stage else {
            unreachable!()
        };
        let write = *write;
        if let Turn::Finished(_) = guard.take(reply) {
            self.stage = writing(write);
        }
    }
}

/// What writes goes on.
fn writing(write: Write) -> Stage
    ensures { result ≡ writes write }
{
    match write {
        Write::OfAccess(access) => Stage::Accesses(access),
        Write::OfPlace(place) => Stage::Places(place),
    }
}
