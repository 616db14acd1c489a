//! How the concordance of a text is made.

ghost use Rattle.std.specs.Prelude.{◌≡◌, ◌<◌, ◌≤◌, ◌^◌, ◌↔◌, ℕ, List, flat_map, length, vec_len, IfOk, IsErrOf, IsTrue, false};
ghost use Rattle.std.specs.List.{AllByRecursion};
ghost use Rattle.std.specs.Thread.{IsSync};
ghost use Rattle.space_map.specs.declared.spaces.TheConstants.{MOST_MUTATORS, MOST_SCANNERS};
ghost use Rattle.space_map.specs.Spaces.{is_size};
ghost use Rattle.gc_worker.specs.declared.stage.Stage.TheVariants.{Gone};
ghost use Rattle.ael_threads.specs.Histories.{Each};
ghost use Rattle.ael_threads.specs.Opened.{plan_without_printing};
ghost use Rattle.ael_threads.specs.Readers.{SeatedScanner};
ghost use Rattle.ael_threads.specs.Seats.{new_callers};
ghost use Rattle.concordance_text.specs.declared.part.Part.{Part};
ghost use Rattle.concordance_text.specs.MayBeFull.{MayBeFull};
ghost use Rattle.concordance_text.specs.Parts.{AreInLineOrder, IsNumbered, mentions_of_part};
ghost use Rattle.concordance_text.specs.Rows.{AreRowsOf, IsConcordanceOf, rows_of};
ghost use Rattle.concordance_text.specs.Words.{HasShortWords, IsFirstTooLong};
ghost use Rattle.concordance.specs.Making.{AreDealt, HasAllNotes};
ghost use Rattle.concordance.specs.Working.{AreReady, HaveWorked, MayAllBeTakenIn, SharedHeap, WasFullForOne, shared_heap};

use crate::clerk::{Clerk, Full};
use crate::error::ConcordError;
use crate::job::Job;
use crate::running::{read_all, scan_all};
use ael_threads::{Mutator, Scanner, Seats, Shared};
use concordance_text::{Part, WordMap, first_too_long, parts, told};
use gc_worker::{Config, OpenError};
use std::alloc::{AllocError, Global};
use std::marker::Sync;
use std::sync::Wait;
use std::sync::atomic::AtomicU64;
use std::thread::{Threads, join_mut};

/// The concordance of a text: each word once, in the order of bytes, with the numbers of its lines. So many clerks make it on a heap of
/// their own, as many of them at once as threads can be had.
///
/// The text has at most 1,048,576 bytes, and all pages of a space are in use from the beginning. `WordTooLong` comes exactly for a text that
/// has a word of more than 64 letters, with the first line that has one; `NoMemory` may come to any other text. `HeapFull` comes only if a
/// space has fewer than four pages for each word of the text plus two, and no more heap words than the room that is told plus what the text's
/// rows need. It tells at most two pages that were asked for, and the room, which is less. If the heap is full for one of several clerks, one
/// makes the whole on a new heap of the same size, and only what this one finds is told. No clerk begins a checkpoint, so the heap has no room
/// for one. That the call returns is not promised, since clerks wait for one another.
pub fn concord<R: Threads + Wait + Sync>(
    rt: &R,
    alloc: Global,
    text: &[u8],
    clerks: u8,
    config: &Config,
) -> Result<Vec<u8>, ConcordError>
    requires short { length text.now ≤ 2 ^ 20 }
    requires some { 1 ≤ clerks }
    requires few { clerks ≤ MOST_MUTATORS }
    requires pages { IsTrue (is_size config.now.pages) }
    requires limit { config.now.limit ≡ config.now.pages }
    requires scanners { config.now.scanners ≤ MOST_SCANNERS }
    requires snap { config.now.snap ≡ false }
    ensures too_long { (line : ℕ) → IsErrOf result (ConcordError.WordTooLong line) ↔ IsFirstTooLong text.now line }
    ensures told { IfOk result (λ told. IsConcordanceOf text.now told.items) }
    ensures full { (asked room : ℕ) → IsErrOf result (ConcordError.HeapFull asked room) → MayBeFull config.now.pages text.now asked room }
{
    if let Some(line) = first_too_long(text) {
        return Err(ConcordError::WordTooLong { line });
    }
    match make(rt, alloc, text, clerks, config) {
        Err(error) if clerks > 1 && is_full(error) => make(rt, alloc, text, 1, config),
        made => made,
    }
}

/// Whether the heap was full.
fn is_full(error: ConcordError) -> bool
    ensures { IsTrue result ↔ ((asked : ℕ) × (room : ℕ) × (error ≡ ConcordError.HeapFull asked room)) }
{
    matches!(error, ConcordError::HeapFull { .. })
}

/// The concordance, made on a new heap by so many clerks. All memory of the heap and of its clerks is taken before a thread is started: who
/// found none later would leave the others waiting.
fn make<R: Threads + Wait + Sync>(
    rt: &R,
    alloc: Global,
    text: &[u8],
    clerks: u8,
    config: &Config,
) -> Result<Vec<u8>, ConcordError>
    requires short { length text.now ≤ 2 ^ 20 }
    requires words { HasShortWords text.now }
    requires some { 1 ≤ clerks }
    requires few { clerks ≤ MOST_MUTATORS }
    requires pages { IsTrue (is_size config.now.pages) }
    requires limit { config.now.limit ≡ config.now.pages }
    requires scanners { config.now.scanners ≤ MOST_SCANNERS }
    ensures told { IfOk result (λ told. IsConcordanceOf text.now told.items) }
    ensures short { (line : ℕ) → IsErrOf result (ConcordError.WordTooLong line) → ⊥ }
    ensures full { clerks ≡ 1 → (asked room : ℕ) → IsErrOf result (ConcordError.HeapFull asked room) → MayBeFull config.now.pages text.now asked room }
{
    let (heap, seats) = open(alloc, clerks, config)?;
    let Seats {
        mutators,
        mut scanners,
    } = seats;
    let mut all = seat(alloc, &heap, mutators)?;
    let left = AtomicU64::new(0);
    let job = Job {
        rt,
        heap: &heap,
        left: &left,
        others: u64::from(clerks) - 1,
    };
    let parts = parts(text, usize::from(clerks));
    let words = words_of(
        &job,
        alloc,
        parts.as_slice(),
        scanners.as_mut_slice(),
        &mut all,
    )?;
    Ok(told(alloc, &words)?)
}

/// A new heap of so many mutators.
fn open(alloc: Global, clerks: u8, config: &Config) -> Result<(Shared, Seats), ConcordError>
    requires some { 1 ≤ clerks }
    requires few { clerks ≤ MOST_MUTATORS }
    requires pages { IsTrue (is_size config.now.pages) }
    requires limit { config.now.limit ≡ config.now.pages }
    requires scanners { config.now.scanners ≤ MOST_SCANNERS }
    ensures plan { IfOk result (λ o. o.0.table.shared.key ≡ plan_without_printing clerks config.now) }
    ensures mutators { IfOk result (λ o. o.1.mutators.items ≡ new_callers o.0.table.shared.table_id (plan_without_printing clerks config.now) 0 clerks) }
    ensures scanners { IfOk result (λ o. Each (λ (s : SeatedScanner). s.seated.table ≡ o.0.table.shared.table_id) o.1.scanners.items) }
    ensures memory { (e : ConcordError) → IsErrOf result e → e ≡ ConcordError.NoMemory }
{
    match Shared::open_without_printing(alloc, clerks, config) {
        Ok(opened) => Ok(opened),
        Err(OpenError::NoMemory) => Err(ConcordError::NoMemory),
        Err(OpenError::BadPages) => unreachable!("a space may have so many pages"),
    }
}

/// A clerk for each of these mutators.
fn seat<'h>(
    alloc: Global,
    heap: &'h Shared,
    mut mutators: Vec<Mutator>,
) -> Result<Vec<Clerk<'h>>, AllocError>
    requires { mutators.items ≡ new_callers heap.now.table.shared.table_id heap.now.table.shared.key 0 heap.now.table.shared.key.mutators }
    ensures many { IfOk result (λ clerks. length clerks.items ≡ heap.now.table.shared.key.mutators) }
    ensures ready { IfOk result (λ clerks. AreReady (shared_heap heap.now.table.shared.table_id heap.now.table.shared.key) 0 clerks.items) }
{
    let mut clerks = Vec::with_capacity(alloc, mutators.len())?;
    while let Some(mutator) = mutators.pop() {
        clerks.push_reserved(Clerk::new(heap, mutator));
    }
    clerks.reverse();
    Ok(clerks)
}

/// The words of all parts, as the clerks note them while the scanners scan, until these find that all clerks have left.
fn words_of<R: Threads + Wait + Sync>(
    job: &Job<R>,
    alloc: Global,
    parts: &[Part<'_>],
    scanners: &mut [Scanner],
    clerks: &mut Vec<Clerk<'_>>,
) -> Result<WordMap, ConcordError>
    requires dealt { AreDealt job.now parts.now clerks.old.items }
    requires scanners { Each (λ (s : SeatedScanner). s.seated.table ≡ job.now.table) scanners.old }
    ensures scanned { Each (λ (s : SeatedScanner). (s.seated.table ≡ job.now.table) × (s.seated.worker.stage ≡ Gone)) scanners.new }
    ensures rows { IfOk result (λ words. AreRowsOf (flat_map mentions_of_part parts.now) (rows_of words)) }
    ensures short { (line : ℕ) → IsErrOf result (ConcordError.WordTooLong line) → ⊥ }
    ensures full { (asked room : ℕ) → IsErrOf result (ConcordError.HeapFull asked room) → WasFullForOne job.now 0 parts.now asked room }
{
    let ((), words) = join_mut(
        job.rt,
        &mut ||
            requires { IsSync R.row × Each (λ (s : SeatedScanner). s.seated.table ≡ job.now.table) scanners.now }
            ensures { Each (λ (s : SeatedScanner). (s.seated.table ≡ job.entry.now.table) × (s.seated.worker.stage ≡ Gone)) scanners.exit.now }
        { scan_all(job, scanners) },
        &mut ||
            requires { IsSync R.row × AreDealt job.now parts.now clerks.now.items }
            ensures rows { IfOk result (λ words. AreRowsOf (flat_map mentions_of_part parts.entry.now) (rows_of words)) }
            ensures short { (line : ℕ) → IsErrOf result (ConcordError.WordTooLong line) → ⊥ }
            ensures full { (asked room : ℕ) → IsErrOf result (ConcordError.HeapFull asked room) → WasFullForOne job.entry.now 0 parts.entry.now asked room }
        { noted(job, alloc, parts, clerks) },
    );
    words
}

/// All that the clerks noted, once each but the first has left. The first one, which takes in the others, leaves whatever came of it.
fn noted<R: Threads + Wait + Sync>(
    job: &Job<R>,
    alloc: Global,
    parts: &[Part<'_>],
    clerks: &mut Vec<Clerk<'_>>,
) -> Result<WordMap, ConcordError>
    requires { AreDealt job.now parts.now clerks.old.items }
    ensures rows { IfOk result (λ words. AreRowsOf (flat_map mentions_of_part parts.now) (rows_of words)) }
    ensures short { (line : ℕ) → IsErrOf result (ConcordError.WordTooLong line) → ⊥ }
    ensures full { (asked room : ℕ) → IsErrOf result (ConcordError.HeapFull asked room) → WasFullForOne job.now 0 parts.now asked room }
{
    let read = read_all(job, 0, parts, clerks.as_mut_slice());
    let mut first = joined(clerks);
    let gathered = match read {
        Ok(()) => gathered(job, alloc, parts, &mut first),
        Err(Full { asked, room }) => Err(ConcordError::HeapFull { asked, room }),
    };
    first.leave(job.rt);
    gathered
}

/// What the first clerk gathers, which has taken in the others.
fn gathered<R: Wait>(
    job: &Job<R>,
    alloc: Global,
    parts: &[Part<'_>],
    first: &mut Clerk<'_>,
) -> Result<WordMap, ConcordError>
    requires has { HasAllNotes parts.now first.old }
    requires few { length parts.now ≤ MOST_MUTATORS }
    requires numbered { AllByRecursion IsNumbered parts.now }
    requires in_order { AreInLineOrder parts.now }
    ensures rows { IfOk result (λ words. AreRowsOf (flat_map mentions_of_part parts.now) (rows_of words)) }
    ensures memory { (e : ConcordError) → IsErrOf result e → e ≡ ConcordError.NoMemory }
{
    let mut words = WordMap::new(alloc);
    first.gather(job.rt, alloc, parts, &mut words)?;
    Ok(words)
}

/// The first clerk, which has taken in all others.
fn joined<'h>(clerks: &mut Vec<Clerk<'h>>) -> Clerk<'h>
    requires some { 0 < vec_len clerks.old }
    requires left { (w : SharedHeap) × MayAllBeTakenIn w 0 clerks.old.items }
    ensures { (w : SharedHeap) (parts : List Part) → length clerks.old.items ≡ w.plan.mutators → HaveWorked w 0 parts clerks.old.items → HasAllNotes parts result }
{
    let mut first = clerks.remove(0);
    while let Some(other) = clerks.pop() {
        first.absorb(other);
    }
    first
}
