//! How the clerks read the text, on threads.

ghost use Rattle.std.specs.Prelude.{◌≡◌, ◌+◌, ◌<◌, ◌≤◌, IfErr, OnOk, length};
ghost use Rattle.std.specs.List.{AllByRecursion};
ghost use Rattle.std.specs.Thread.{IsSync};
ghost use Rattle.space_map.specs.declared.spaces.TheConstants.{MOST_MUTATORS};
ghost use Rattle.gc_worker.specs.declared.stage.Stage.TheVariants.{Gone};
ghost use Rattle.ael_threads.specs.Histories.{Each};
ghost use Rattle.ael_threads.specs.Readers.{SeatedScanner};
ghost use Rattle.concordance_text.specs.declared.part.Part.{Part};
ghost use Rattle.concordance_text.specs.Parts.{IsNumbered, mentions_of_part};
ghost use Rattle.concordance.specs.Full.{WasFullFor};
ghost use Rattle.concordance.specs.Working.{AreReady, HasWorked, HaveWorked, IsReady, IsShort, MayAllBeTakenIn, MayAllWork, MayBeTakenIn, MayWork, WasFullForOne};

use crate::clerk::{Clerk, Full};
use crate::first_and_rest::join_first;
use crate::job::Job;
use ael_threads::Scanner;
use concordance_text::Part;
use gc_worker::Stepped;
use std::marker::Sync;
use std::sync::Wait;
use std::sync::atomic::Ordering;
use std::thread::{Threads, for_each_mut};

/// Lets these clerks, numbered from this one on, read the parts of the text, each its own. If the heap was full for one of them, it tells the
/// pages asked for and the room.
///
/// Each but the last is on a thread of its own. One whose thread can't be started comes after those with higher numbers, so the first one,
/// which waits for the others, comes last.
pub(crate) fn read_all<R: Threads + Wait + Sync>(
    job: &Job<R>,
    from: u8,
    parts: &[Part<'_>],
    clerks: &mut [Clerk<'_>],
) -> Result<(), Full>
    requires few { from + length clerks.old ≤ MOST_MUTATORS }
    requires parts { length parts.now ≡ length clerks.old }
    requires numbered { AllByRecursion IsNumbered parts.now }
    requires short { AllByRecursion IsShort parts.now }
    requires ready { AreReady job.now from clerks.old }
    ensures as_many { length clerks.new ≡ length clerks.old }
    ensures left { MayAllBeTakenIn job.now from clerks.new }
    ensures worked { OnOk result (HaveWorked job.now from parts.now clerks.new) }
    ensures full { IfErr result (λ full. WasFullForOne job.now from parts.now full.asked full.room) }
{
    let Some((part, others)) = parts.split_first() else {
        return Ok(());
    };
    if others.is_empty() {
        return works(job, from, *part, &mut clerks[0]);
    }
    let (one, more) = join_first(
        job.rt,
        clerks,
        &|clerk: &mut Clerk<'_>| -> Result<(), Full>
            requires { MayWork job.now from part.now clerk.now }
            ensures left { MayBeTakenIn job.entry.now from clerk.exit.now }
            ensures worked { OnOk result (HasWorked job.entry.now from part.entry.now clerk.exit.now) }
            ensures full { IfErr result (λ full. WasFullFor job.entry.now.plan from (mentions_of_part part.entry.now) full.asked full.room) }
        { works(job, from, *part, clerk) },
        &|rest: &mut [Clerk<'_>]| -> Result<(), Full>
            requires { IsSync R.row × MayAllWork job.now (from + 1) others.now rest.now }
            ensures as_many { length rest.exit.now ≡ length rest.entry.now }
            ensures left { MayAllBeTakenIn job.entry.now (from + 1) rest.exit.now }
            ensures worked { OnOk result (HaveWorked job.entry.now (from + 1) others.entry.now rest.exit.now) }
            ensures full { IfErr result (λ full. WasFullForOne job.entry.now (from + 1) others.entry.now full.asked full.room) }
        { read_all(job, from + 1, others, rest) },
    );
    one.and(more)
}

/// A clerk reads its part of the text, and counts as one that has left, unless it is the first.
fn works<R: Wait>(
    job: &Job<R>,
    number: u8,
    part: Part<'_>,
    clerk: &mut Clerk<'_>,
) -> Result<(), Full>
    requires few { number < MOST_MUTATORS }
    requires numbered { IsNumbered part }
    requires short { IsShort part }
    requires ready { IsReady job.now number clerk.old }
    ensures left { MayBeTakenIn job.now number clerk.new }
    ensures worked { OnOk result (HasWorked job.now number part.entry clerk.new) }
    ensures full { IfErr result (λ full. WasFullFor job.now.plan number (mentions_of_part part.entry) full.asked full.room) }
{
    let done = reads(job, number, part, clerk);
    if number != 0 {
        job.left.fetch_add(1, Ordering::SeqCst);
    }
    done
}

/// A clerk reads its part of the text, puts what it noted on the board, and leaves. The first stays until the others have left, unless the
/// heap is full for it.
fn reads<R: Wait>(
    job: &Job<R>,
    number: u8,
    part: Part<'_>,
    clerk: &mut Clerk<'_>,
) -> Result<(), Full>
    requires few { number < MOST_MUTATORS }
    requires numbered { IsNumbered part }
    requires short { IsShort part }
    requires ready { IsReady job.now number clerk.old }
    ensures left { MayBeTakenIn job.now number clerk.new }
    ensures worked { OnOk result (HasWorked job.now number part.entry clerk.new) }
    ensures full { IfErr result (λ full. WasFullFor job.now.plan number (mentions_of_part part.entry) full.asked full.room) }
{
    if let Err(full) = clerk.read(job.rt, part) {
        clerk.leave(job.rt);
        return Err(full);
    }
    clerk.puts_notes(job.rt, number);
    if number == 0 {
        clerk.stands_by(job.rt, job.left, job.others);
    } else {
        clerk.leave(job.rt);
    }
    Ok(())
}

/// Lets the scanners scan until all clerks have left.
pub(crate) fn scan_all<R: Threads + Wait + Sync>(job: &Job<R>, scanners: &mut [Scanner])
    requires table { Each (λ (s : SeatedScanner). s.seated.table ≡ job.now.table) scanners.old }
    ensures gone { Each (λ (s : SeatedScanner). (s.seated.table ≡ job.now.table) × (s.seated.worker.stage ≡ Gone)) scanners.new }
{
    let threads = scanners.len().max(1);
    for_each_mut(
        job.rt,
        scanners,
        threads,
        &|_, scanner: &mut Scanner|
            requires { scanner.now.seated.table ≡ job.now.table }
            ensures { (scanner.exit.now.seated.table ≡ job.entry.now.table) × (scanner.exit.now.seated.worker.stage ≡ Gone) }
        { scans(job, scanner) },
    );
}

/// A scanner scans until all clerks have left.
fn scans<R: Wait>(job: &Job<R>, scanner: &mut Scanner)
    requires { scanner.old.seated.table ≡ job.now.table }
    ensures gone { (scanner.new.seated.table ≡ job.now.table) × (scanner.new.seated.worker.stage ≡ Gone) }
{
    for _ in job.rt.forever() {
        if let Stepped::Idle = scanner.act(job.heap) {
            return;
        }
    }
}
