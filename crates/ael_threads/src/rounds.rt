//! Rounds of a scanner's duty.

ghost use Rattle.std.specs.Prelude.{◌≡◌, ◌||◌, true};
ghost use Rattle.gc_worker.specs.declared.stage.Stage.TheVariants.{Gone};
ghost use Rattle.gc_worker.specs.Steps.AtRest.{is_at_rest};
ghost use Rattle.gc_worker.specs.Steps.Wanted.{wanted};
ghost use Rattle.ael_threads.specs.ActsInRow.{GoesRound, MakesRound, MakesRounds, round_told};
ghost use Rattle.ael_threads.specs.Calls.{StaysSilent};
ghost use Rattle.ael_threads.specs.Rounds.{is_write};
ghost use Rattle.ael_threads.specs.Seats.{Seated};

use crate::calls::ACTS;
use crate::scanner::Scanner;
use crate::shared::Shared;
use atom_store::Step;
use crossbeam_utils::Backoff;
use gc_worker::Stepped;
use std::sync::Wait;

/// What a round came to.
#[derive(Clone, Copy, Debug, PartialEq, Eq)]
pub enum Round {
    /// An act of the round was to write a word, as to claim a page: it stored it, or tried to exchange it.
    Worked,
    /// No act of the round was to write a word. So it is too of the round which finds that all mutators have left.
    Nothing,
    /// The scanner was gone before the round, since all mutators have left.
    Gone,
}

/// What a round came to, by its last act.
fn round_by(last: &Stepped, has_written: bool) -> Round
    ensures { result ≡ round_told last.now has_written }
{
    match last {
        Stepped::Idle => Round::Gone,
        _ if has_written => Round::Worked,
        _ => Round::Nothing,
    }
}

impl Scanner {
    /// Makes the acts of a round, or those that are left of it: a page is scanned, if there is one to scan. It may wait for another worker
    /// that copies a record. After it nobody waits for this scanner.
    pub fn round<R: Wait>(&mut self, rt: &R, h: &Shared) -> Round
        requires table { self.old.seated.table ≡ h.now.table.shared.table_id }
        ensures table { self.new.seated.table ≡ self.old.seated.table }
        ensures acts { MakesRound result self.old self.new }
        ensures rests { is_at_rest self.new.seated.worker ≡ true }
        ensures gone { result ≡ Round.Gone → self.new.seated.worker.stage ≡ Gone }
        ensures nothing { result ≡ Round.Nothing → self.new.seated.knows.claims ≡ self.old.seated.knows.claims }
        ensures quiet { (a : Seated) → StaysSilent a self.old.seated → StaysSilent a self.new.seated }
    {
        let mut has_written = false;
        let backoff = Backoff::new();
        for _ in rt.forever() {
            if let Some(round) = self.goes_round(h, &mut has_written) {
                return round;
            }
            backoff.snooze();
        }
        unreachable!()
    }

    /// Makes some acts of a round, and tells what it came to, if it has ended.
    fn goes_round(&mut self, h: &Shared, has_written: &mut bool) -> Option<Round>
        requires table { self.old.seated.table ≡ h.now.table.shared.table_id }
        ensures table { self.new.seated.table ≡ self.old.seated.table }
        ensures acts { GoesRound has_written.old has_written.new result self.old self.new }
    {
        for _ in 0..ACTS {
            *has_written = self.writes(*has_written);
            let stepped = self.act(h);
            if self.rests() {
                return Some(round_by(&stepped, *has_written));
            }
        }
        None
    }

    /// Whether a word was written, or its next step is to write one.
    fn writes(&self, has_written: bool) -> bool
        ensures { result ≡ (is_write (wanted self.now.seated.worker) || has_written) }
    {
        match self.caller.worker.want() {
            Some(Step::Load(_)) | None => has_written,
            Some(_) => true,
        }
    }

    /// Makes rounds until all mutators have left, or until it is told to stop: it is asked after each round, and may be begun again. After a
    /// round with nothing to do it backs off. It answers what the last round came to: if that is not `Gone`, it was told to stop.
    ///
    /// The question may be a load, as `|| stop.load(Ordering::SeqCst)`. No clause says what a load of an `AtomicBool` answers.
    pub fn scans<R: Wait, F: FnMut() -> bool>(&mut self, rt: &R, h: &Shared, mut stop: F) -> Round
        requires table { self.old.seated.table ≡ h.now.table.shared.table_id }
        requires may_ask { F.IsAlwaysCallable stop }
        ensures table { self.new.seated.table ≡ self.old.seated.table }
        ensures rounds { MakesRounds (λ f told g. F.step f told g) stop result self.old self.new }
        ensures rests { is_at_rest self.new.seated.worker ≡ true }
        ensures gone { result ≡ Round.Gone → self.new.seated.worker.stage ≡ Gone }
        ensures quiet { (a : Seated) → StaysSilent a self.old.seated → StaysSilent a self.new.seated }
    {
        let backoff = Backoff::new();
        for _ in rt.forever() {
            let round = self.round(rt, h);
            match round {
                Round::Worked => backoff.reset(),
                Round::Nothing => backoff.snooze(),
                Round::Gone => return round,
            }
            if stop() {
                return round;
            }
        }
        unreachable!()
    }
}
