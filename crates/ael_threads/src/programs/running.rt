//! A program run on threads, one for each worker.

ghost use Rattle.std.specs.Prelude.{◌≡◌, ◌+◌, ◌<◌, ◌≤◌, ◌↔◌, ℕ, length, vec_len, IfOk, IsErrOf, IsTrue, not};
ghost use Rattle.std.specs.Thread.{IsSync};
ghost use Rattle.space_map.specs.declared.spaces.TheConstants.{MOST_MUTATORS, MOST_SCANNERS};
ghost use Rattle.space_map.specs.Table.{whole_length};
ghost use Rattle.gc_worker.specs.Config.{has_sizes};
ghost use Rattle.gc_worker.specs.declared.config.TheConstants.{MOST_TURNS};
ghost use Rattle.ael_threads.specs.Histories.{Each};
ghost use Rattle.ael_threads.specs.Runs.Outputs.{HasEnd, IsToldOnClose, Runs};
ghost use Rattle.ael_threads.specs.Readers.{SeatedScanner};
ghost use Rattle.ael_threads.specs.Runs.Running.{AreReady, AreScanning, Executing, HasRun, ScannerIsGone, HaveRun, HaveScanned, RunsAsScanner};
ghost use Rattle.ael_threads.specs.Seats.{Seated};

use crate::mutator::Mutator;
use crate::opening::Seats;
use crate::pace::Pace;
use crate::programs::job::Job;
use crate::programs::outputs::{Outputs, RunError, all_kept, all_printed, all_registers};
use crate::scanner::Scanner;
use crate::shared::Shared;
use crate::view::Plan;
use gc_worker::{Config, epoch_said, live_said};
use mutator_asm::Program;
use space_map::Spaces;
use std::alloc::Global;
use std::marker::Sync;
use std::sync::Wait;
use std::thread::{Threads, for_each_mut, join_mut};

/// Runs a program on a heap of its own: each mutator executes its section on a thread of its own, and so do the scanners. The mutators
/// are started in order, and then the scanners; workers for which no thread is to be had are run after others, on a thread of theirs.
///
/// `BadPages` comes exactly for fewer than `FEWEST_PAGES` at first, for fewer in all than at first, or for more than `MOST_PAGES`.
/// `NoMemory` may come before the first step and after the last one.
/// A mutator executes at most `turns` instructions, which are at most 10,000,000; there are at most `MOST_SCANNERS` scanners. It returns once
/// all workers have left, each mutator with its end; that this ever comes is not promised.
pub fn run<R: Threads + Wait + Sync, P: Pace>(
    rt: &R,
    alloc: Global,
    program: &Program,
    turns: u32,
    config: &Config,
    pace: &P,
) -> Result<Outputs, RunError>
    requires turns { turns ≤ MOST_TURNS }
    requires scanners { config.now.scanners ≤ MOST_SCANNERS }
    ensures bad_pages { IsErrOf result RunError.BadPages ↔ IsTrue (not (has_sizes config.now)) }
    ensures runs { IfOk result (λ told. Runs program.now.code turns config.now told) }
{
    let Ok(plan) = Plan::new(program.code.len() as u8, config, true) else {
        return Err(RunError::BadPages);
    };
    let (heap, mut seats) = Shared::open_by(alloc, &plan)?;
    let job = Job {
        heap: &heap,
        program,
        turns,
        rt,
        pace,
    };
    let scanners = seats.scanners.as_mut_slice();
    let mutators = seats.mutators.as_mut_slice();
    run_workers(&job, 0, scanners, mutators);
    tell(alloc, plan.spaces, heap, seats)
}

/// Runs these mutators, numbered from this one on, and then the scanners, each on a thread of its own.
fn run_workers<R: Threads + Wait + Sync, P: Pace>(
    job: &Job<R, P>,
    from: u8,
    scanners: &mut [Scanner],
    mutators: &mut [Mutator],
)
    requires few { from + length mutators.old ≤ MOST_MUTATORS }
    requires mutators { AreReady job.now from mutators.old }
    requires scanners { AreScanning job.now job.now.plan.mutators scanners.old }
    ensures mutators { HaveRun job.now from mutators.new }
    ensures scanners { HaveScanned job.now job.now.plan.mutators scanners.new }
    ensures as_many { (length mutators.new ≡ length mutators.old) × (length scanners.new ≡ length scanners.old) }
{
    let Some((first, rest)) = mutators.split_first_mut() else {
        run_scanners(job, scanners);
        return;
    };
    join_mut(
        job.rt,
        &mut ||
            requires { IsSync R.row × IsSync P.row × (from + 1 + length rest.now ≤ MOST_MUTATORS) × AreReady job.now (from + 1) rest.now × AreScanning job.now job.now.plan.mutators scanners.now }
            ensures mutators { HaveRun job.entry.now (from + 1) rest.exit.now }
            ensures scanners { HaveScanned job.entry.now job.entry.now.plan.mutators scanners.exit.now }
            ensures as_many { (length rest.exit.now ≡ length rest.entry.now) × (length scanners.exit.now ≡ length scanners.entry.now) }
        { run_workers(job, from + 1, scanners, rest) },
        &mut ||
            requires { (from < MOST_MUTATORS) × Executing job.now from 0 first.now }
            ensures { HasRun job.entry.now from first.exit.now }
        { first.runs(job, from) },
    );
}

/// Runs these scanners, if any, each on a thread of its own.
fn run_scanners<R: Threads + Wait + Sync, P: Pace>(job: &Job<R, P>, scanners: &mut [Scanner])
    requires { Each (λ (s : SeatedScanner). s.seated.table ≡ job.now.table) scanners.old }
    ensures scanned { (from : ℕ) → AreScanning job.now from scanners.old → HaveScanned job.now from scanners.new }
    ensures as_many { length scanners.new ≡ length scanners.old }
{
    let threads = scanners.len().max(1);
    for_each_mut(
        job.rt,
        scanners,
        threads,
        &|_, scanner: &mut Scanner|
            requires { scanner.now.seated.table ≡ job.now.table }
            ensures { (k : ℕ) → RunsAsScanner job.entry.now k scanner.entry.now.seated → ScannerIsGone job.entry.now k scanner.exit.now.seated }
        { scanner.runs(job) },
    );
}

/// What is told of a heap all of whose workers have left.
fn tell(alloc: Global, spaces: Spaces, heap: Shared, seats: Seats) -> Result<Outputs, RunError>
    requires some { 0 < vec_len seats.mutators }
    requires mutators { Each (λ (m : Seated). m.table ≡ heap.table.shared.table_id) seats.mutators.items }
    requires scanners { Each (λ (s : SeatedScanner). s.seated.table ≡ heap.table.shared.table_id) seats.scanners.items }
    requires ended { Each HasEnd seats.mutators.items }
    requires layout { spaces ≡ heap.table.shared.key.spaces }
    requires words { heap.table.shared.table_id.words ≡ whole_length heap.table.shared.key.spaces }
    ensures told { IfOk result (IsToldOnClose heap.table.shared.key seats.mutators.items seats.scanners.items) }
    ensures no_bad_pages { IsErrOf result RunError.BadPages → ⊥ }
{
    let mutators = all_printed(alloc, &seats.mutators)?;
    let regs = all_registers(alloc, &seats.mutators)?;
    let kept = all_kept(alloc, &seats)?;
    let words = heap.close(seats);
    let cycles = epoch_said(words.word(spaces.gate_place()));
    let area = words.word(spaces.area_place(spaces.to_space(cycles)));
    let live = live_said(cycles, words.word(spaces.traced_place()), area);
    Ok(Outputs {
        spaces,
        mutators,
        cycles,
        live,
        regs,
        kept,
        words,
    })
}
