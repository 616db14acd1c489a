//! Accesses, and the duty: rounds, scans, copies and openings of pages.

ghost use Rattle.std.specs.Prelude.{◌≡◌, ◌≤◌, true};
ghost use Rattle.space_map.specs.Spaces.{board_page};
ghost use Rattle.space_map.specs.declared.spaces.TheConstants.{LAST_WORKER};
ghost use Rattle.record_access.specs.declared.access_stage.AccessStage.{AccessStage};
ghost use Rattle.gc_worker.specs.Workers.Fits.{FitsStage, IsAccessing, Takes};
ghost use Rattle.gc_worker.specs.Workers.Held.{at_stage};
ghost use Rattle.gc_worker.specs.Steps.Stepped.{HasNoEffect, IsAtAccess, IsCopyAsked, IsEvacuating, IsOpening, IsAtScan, IsForCheckpoint, IsServing, IsSound, MayBeginAnew, back_at, served_in, stepped_by, uncounted};
ghost use Rattle.gc_worker.specs.Steps.Turned.{accessed_at, back_from, evacuated_at, goes_back, scanned_at, scans, serves_target, told, told_access, told_round, traced_by, turned};

use crate::stage::Stage;
use crate::stage::back::Back;
use crate::stage::goal::Goal;
use crate::state::State;
use crate::steps::stepped::Stepped;
use atom_store::{Reply, Turn};
use fault_duty::{Duty, RoundEnd};
use forwarding::{Evac, To};
use page_scan::{Scan, Scanned};
use page_slots::Open;
use record_access::{Access, Accessed};

impl State {
    /// A step of an access.
    #[inline(always)]
    pub fn access(&mut self, reply: Reply) -> Stepped
        requires at { IsAtAccess self.old.stage }
        requires fits { IsSound self.old }
        requires takes { Takes self.old reply }
        requires after { IsSound (turned self.old reply) }
        ensures state { self.new ≡ uncounted (turned self.old reply) }
        ensures tells { result ≡ stepped_by self.old.number (told self.old reply) }
    {
        let Stage::Accesses(access) = &mut self.stage else {
            unreachable!()
        };
        match access.take(reply) {
            Turn::More => {
                if self.running != 0 {
                    self.guard_at_access();
                }
                Stepped::Moved
            }
            Turn::Finished(accessed) => self.has_accessed(accessed),
        }
    }

    /// What an access comes to. It is small enough to be put into its caller without `#[inline(always)]`. With it the compiler would not put
    /// the access itself into its caller, since that would grow very large.
    #[inline]
    fn has_accessed(&mut self, accessed: Accessed) -> Stepped
        requires at { IsAtAccess self.old.stage }
        requires calls { (stage : AccessStage) × IsAccessing self.old.account self.old.registers self.old.task stage }
        requires fits { FitsStage (accessed_at self.old self.old.stage accessed) (accessed_at self.old self.old.stage accessed).stage }
        ensures state { self.new ≡ uncounted (accessed_at self.old self.old.stage accessed) }
        ensures tells { result ≡ stepped_by self.old.number (told_access self.old.task (Turn.Finished accessed)) }
    {
        match accessed {
            Accessed::Brings(into, word) => {
                self.stage = Stage::Looks;
                self.load(into, word)
            }
            Accessed::Stored => {
                self.stage = Stage::Looks;
                self.go_on()
            }
            Accessed::Faults(_) | Accessed::Awaits | Accessed::Fails(_) => {
                self.has_accessed_apart(accessed)
            }
        }
    }

    /// What an access comes to that has no effect. It stands apart, so that the room of the stages that it may begin is cleared only here,
    /// and not at each step of an access.
    #[inline(never)]
    fn has_accessed_apart(&mut self, accessed: Accessed) -> Stepped
        requires at { IsAtAccess self.old.stage }
        requires no_effect { HasNoEffect accessed }
        requires calls { (stage : AccessStage) × IsAccessing self.old.account self.old.registers self.old.task stage }
        requires fits { FitsStage (accessed_at self.old self.old.stage accessed) (accessed_at self.old self.old.stage accessed).stage }
        ensures state { self.new ≡ uncounted (accessed_at self.old self.old.stage accessed) }
        ensures tells { result ≡ stepped_by self.old.number (told_access self.old.task (Turn.Finished accessed)) }
    {
        match accessed {
            Accessed::Faults(page) => {
                self.serve_for(page);
                Stepped::Moved
            }
            Accessed::Awaits => {
                self.await_traced();
                Stepped::Moved
            }
            Accessed::Fails(why) => self.end_with(why),
            Accessed::Brings(..) | Accessed::Stored => unreachable!(),
        }
    }

    /// A round is made for the page at which the access failed.
    fn serve_for(&mut self, page: u32)
        requires at { IsAtAccess self.old.stage }
        requires fits { FitsStage (accessed_at self.old self.old.stage (Accessed.Faults page)) (accessed_at self.old self.old.stage (Accessed.Faults page)).stage }
        ensures { self.new ≡ uncounted (accessed_at self.old self.old.stage (Accessed.Faults page)) }
    {
        let Stage::Accesses(access) = self.stage else {
            unreachable!()
        };
        let duty = Duty::new(self.spaces, Some(page), self.epoch, self.number);
        let back = if access.is_at_target() {
            Back::ToTarget(access)
        } else {
            Back::ToAccess(access)
        };
        self.stage = Stage::Serves(duty, back);
    }

    /// The target of a cell is loaded once the epoch is traced.
    fn await_traced(&mut self)
        requires at { IsAtAccess self.old.stage }
        requires fits { FitsStage (accessed_at self.old self.old.stage Accessed.Awaits) (accessed_at self.old self.old.stage Accessed.Awaits).stage }
        ensures { self.new ≡ uncounted (accessed_at self.old self.old.stage Accessed.Awaits) }
    {
        let Stage::Accesses(access) = self.stage else {
            unreachable!()
        };
        self.serve_target(access);
    }

    /// A round of the duty begins, before the target of a cell is loaded.
    fn serve_target(&mut self, access: Access)
        requires { self.old.number ≤ LAST_WORKER }
        ensures { self.new ≡ at_stage self.old (serves_target self.old access) }
    {
        let duty = Duty::new(self.spaces, None, self.epoch, self.number);
        self.stage = Stage::Serves(duty, Back::ToTarget(access));
    }

    /// A step of a round.
    #[tactic(auto, using(crate::proofs::Words::Read::served_after, crate::proofs::Words::Read::served_fits))]
    #[inline(always)]
    pub fn serve(&mut self, reply: Reply) -> Stepped
        requires at { IsServing self.old.stage }
        requires fits { IsSound self.old }
        requires takes { Takes self.old reply }
        requires after { IsSound (turned self.old reply) }
        ensures state { self.new ≡ uncounted (turned self.old reply) }
        ensures tells { result ≡ stepped_by self.old.number (told self.old reply) }
    {
        let Stage::Serves(duty, _) = &mut self.stage else {
            unreachable!()
        };
        match duty.take(reply) {
            Turn::More => Stepped::Moved,
            Turn::Finished(end) => {
                let epoch = duty.epoch();
                self.has_served(epoch, end)
            }
        }
    }

    /// What a round of an epoch comes to.
    #[inline(always)]
    pub fn has_served(&mut self, epoch: u32, end: RoundEnd) -> Stepped
        requires at { IsServing self.old.stage }
        requires round { MayBeginAnew self.old.layout self.old.mutators self.old.number self.old.stage }
        requires fits { FitsStage (served_in self.old epoch (back_at self.old.stage) end) (served_in self.old epoch (back_at self.old.stage) end).stage }
        ensures state { self.new ≡ served_in self.old epoch (back_at self.old.stage) end }
        ensures tells { result ≡ stepped_by self.old.number (told_round (Turn.Finished end)) }
    {
        match end {
            RoundEnd::ScanPage(page) => self.scan_page(epoch, page, false),
            RoundEnd::ScanInPlace(page) => self.scan_page(epoch, page, true),
            RoundEnd::Marked => {
                self.go_back(epoch);
                return Stepped::Traced;
            }
            RoundEnd::NothingNow(_) => self.go_back(epoch),
            RoundEnd::Traced => self.has_found_traced(epoch),
            RoundEnd::AllLeft(_) => self.stage = Stage::Gone,
        }
        Stepped::Moved
    }

    /// A page was claimed: its scan begins, in the epoch of the round.
    #[inline(always)]
    fn scan_page(&mut self, epoch: u32, page: u32, in_place: bool)
        requires at { IsServing self.old.stage }
        requires page { page ≤ board_page self.old.layout.pages }
        ensures { self.new ≡ scans (record self.old { epoch = epoch }) page in_place (back_at self.old.stage) }
    {
        let Stage::Serves(_, back) = self.stage else {
            unreachable!()
        };
        self.epoch = epoch;
        let scan = Scan::new(self.spaces, page, epoch, in_place);
        self.stage = Stage::Scans(scan, back);
    }

    /// The epoch is traced: who loads the target of a cell does so.
    #[tactic(auto, using(crate::proofs::Workers::Fitting::traced_without, crate::proofs::Workers::Fitting::fits_without))]
    fn has_found_traced(&mut self, epoch: u32)
        requires at { IsServing self.old.stage }
        requires round { MayBeginAnew self.old.layout self.old.mutators self.old.number self.old.stage }
        requires fits { let x = record self.old { epoch = epoch } in FitsStage (traced_by x (back_at self.old.stage)) (traced_by x (back_at self.old.stage)).stage }
        ensures { self.new ≡ traced_by (record self.old { epoch = epoch }) (back_at self.old.stage) }
    {
        let Stage::Serves(_, back) = self.stage else {
            unreachable!()
        };
        match back {
            Back::ToTarget(access) => {
                self.epoch = epoch;
                self.stage = Stage::Accesses(access);
            }
            Back::ToAccess(_) | Back::ToPlace => self.go_back(epoch),
            Back::ToSnap | Back::ToScanner => {
                if self.spaces.has_checkpoints() {
                    self.go_on_traced(epoch);
                } else {
                    self.go_back(epoch);
                }
            }
        }
    }

    /// The epoch is traced, and there are checkpoints: who begins one goes on, and a scanner helps with one.
    #[inline(never)]
    fn go_on_traced(&mut self, epoch: u32)
        requires room { self.old.layout.checkpoints ≡ true }
        requires helps { IsForCheckpoint (back_at self.old.stage) }
        requires at { IsServing self.old.stage }
        requires round { MayBeginAnew self.old.layout self.old.mutators self.old.number self.old.stage }
        requires fits { let x = record self.old { epoch = epoch } in FitsStage (traced_by x (back_at self.old.stage)) (traced_by x (back_at self.old.stage)).stage }
        ensures { self.new ≡ traced_by (record self.old { epoch = epoch }) (back_at self.old.stage) }
    {
        let Stage::Serves(_, back) = self.stage else {
            unreachable!()
        };
        match back {
            Back::ToSnap => {
                self.epoch = epoch;
                self.checkpoint(Goal::ForSnap);
            }
            Back::ToScanner => {
                self.epoch = epoch;
                self.checkpoint(Goal::ForScanner);
            }
            Back::ToAccess(_) | Back::ToTarget(_) | Back::ToPlace => unreachable!(),
        }
    }

    /// The worker goes on where it was before the round, in this epoch.
    ///
    /// It has the arms of `return_to` itself: if it hands on to that, each step of a run takes two machine instructions more.
    #[tactic(auto, using(crate::proofs::Workers::Fitting::fits_before))]
    fn go_back(&mut self, epoch: u32)
        requires at { IsServing self.old.stage }
        requires round { MayBeginAnew self.old.layout self.old.mutators self.old.number self.old.stage }
        requires fits { FitsStage (back_from (record self.old { epoch = epoch }) (back_at self.old.stage)) (goes_back (record self.old { epoch = epoch }) (back_at self.old.stage)) }
        ensures { self.new ≡ back_from (record self.old { epoch = epoch }) (back_at self.old.stage) }
    {
        self.epoch = epoch;
        let Stage::Serves(_, back) = self.stage else {
            unreachable!()
        };
        match back {
            Back::ToAccess(access) => self.stage = Stage::Accesses(access),
            Back::ToTarget(access) => self.serve_target(access),
            Back::ToPlace => self.begin_placing(),
            Back::ToSnap => self.serve_snap(),
            Back::ToScanner => self.begin_next_round(),
        }
    }

    /// A scanner's next round begins in the place of the one before: it writes only what differs.
    #[tactic(auto, using(crate::proofs::Workers::BeginningAnew::goes_anew))]
    fn begin_next_round(&mut self)
        requires at { IsServing self.old.stage }
        requires back { back_at self.old.stage ≡ Back.ToScanner }
        requires round { MayBeginAnew self.old.layout self.old.mutators self.old.number self.old.stage }
        ensures { self.new ≡ back_from self.old Back.ToScanner }
    {
        let Stage::Serves(duty, _) = &mut self.stage else {
            unreachable!()
        };
        duty.begin_anew();
    }

    /// The worker goes on where it was before the round.
    #[tactic(auto, using(crate::proofs::Workers::Fitting::fits_before))]
    fn return_to(&mut self, back: Back)
        requires { FitsStage (back_from self.old back) (goes_back self.old back) }
        ensures { self.new ≡ back_from self.old back }
    {
        match back {
            Back::ToAccess(access) => self.stage = Stage::Accesses(access),
            Back::ToTarget(access) => self.serve_target(access),
            Back::ToPlace => self.begin_placing(),
            Back::ToSnap => self.serve_snap(),
            Back::ToScanner => {
                let duty = Duty::scanner(self.spaces, self.number, self.mutators);
                self.stage = Stage::Serves(duty, Back::ToScanner);
            }
        }
    }

    /// A step of a scan.
    #[inline(always)]
    pub fn scan(&mut self, reply: Reply)
        requires at { IsAtScan self.old.stage }
        requires fits { IsSound self.old }
        requires takes { Takes self.old reply }
        requires after { IsSound (turned self.old reply) }
        ensures { self.new ≡ uncounted (turned self.old reply) }
    {
        let Stage::Scans(scan, _) = &mut self.stage else {
            unreachable!()
        };
        if let Turn::Finished(scanned) = scan.take(reply) {
            self.has_scanned(scanned);
        }
    }

    /// What a scan comes to. It stands apart, so that the room of the stages that it begins is cleared only here, and not at each step of
    /// a scan.
    #[inline(never)]
    pub fn has_scanned(&mut self, scanned: Scanned)
        requires at { IsAtScan self.old.stage }
        requires fits { FitsStage (scanned_at self.old self.old.stage scanned) (scanned_at self.old self.old.stage scanned).stage }
        ensures { self.new ≡ scanned_at self.old self.old.stage scanned }
    {
        let Stage::Scans(scan, back) = &self.stage else {
            unreachable!()
        };
        self.stage = match scanned {
            Scanned::Ask(old) => {
                let evac = Evac::new(self.spaces, old, self.epoch, self.number);
                Stage::Evacuates(evac, *scan, *back)
            }
            Scanned::Ended { .. } => {
                let open = Open::new(self.spaces, scan.page(), self.epoch);
                Stage::Opens(open, *scan, *back)
            }
        };
    }

    /// A step of a copy for a scan.
    #[inline(always)]
    pub fn evacuate(&mut self, reply: Reply)
        requires at { IsEvacuating self.old.stage }
        requires fits { IsSound self.old }
        requires takes { Takes self.old reply }
        requires after { IsSound (turned self.old reply) }
        ensures { self.new ≡ uncounted (turned self.old reply) }
    {
        let Stage::Evacuates(evac, _, _) = &mut self.stage else {
            unreachable!()
        };
        if let Turn::Finished(to) = evac.take(reply) {
            self.has_evacuated(to);
        }
    }

    /// The record is copied: the scan goes on with the address of the copy. It stands apart as `has_scanned` does.
    #[inline(never)]
    pub fn has_evacuated(&mut self, to: To)
        requires at { IsCopyAsked self.old.stage }
        requires fits { FitsStage (evacuated_at self.old self.old.stage to) (evacuated_at self.old self.old.stage to).stage }
        ensures { self.new ≡ evacuated_at self.old self.old.stage to }
    {
        let Stage::Evacuates(_, scan, back) = &mut self.stage else {
            unreachable!()
        };
        scan.answer(to.0);
        self.stage = Stage::Scans(*scan, *back);
    }

    /// A step of the opening of a page that was scanned.
    #[inline(always)]
    pub fn open(&mut self, reply: Reply)
        requires at { IsOpening self.old.stage }
        requires fits { IsSound self.old }
        requires takes { Takes self.old reply }
        requires after { IsSound (turned self.old reply) }
        ensures { self.new ≡ uncounted (turned self.old reply) }
    {
        let before = self.stage;
        let Stage::Opens(open, _, back) = &mut self.stage else {
            unreachable!()
        };
        if let Turn::Finished(_) = open.take(reply) {
            let back = *back;
            self.stage = before;
            self.return_to(back);
        }
    }
}
