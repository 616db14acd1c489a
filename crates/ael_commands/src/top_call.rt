//! The top call, which `main` calls with the real ends.

ghost use Rattle.ael_jobs.specs.Calls.Audits.{AuditEnds, SaysYesToTrueOutputs};
ghost use Rattle.ael_jobs.specs.Calls.Call.{call_of};
ghost use Rattle.ael_jobs.specs.Calls.Concordance.{ConcordEnds, LargeHeapsSuffice, PrintsConcordance};
ghost use Rattle.ael_jobs.specs.Calls.Headline.{IsAlwaysTheSame, CallIsAnswered, HeadlineHolds, IsComplete, PrintsListing, PrintsPlainly};

use crate::answering::answer;
use ael_jobs::{Sink, Source, finish, read_words};
use std::alloc::Global;
use std::marker::Sync;
use std::sync::Wait;
use std::thread::Threads;

/// Runs the command that the words after the program's name ask for, and answers the exit status.
/// It reads `src`, writes the output to `out`, and a line to `err` where the status has one.
pub fn ael<R: Threads + Wait + Sync, S: Source, O: Sink, E: Sink>(
    rt: &R,
    alloc: Global,
    words: &[String],
    src: &mut S,
    out: &mut O,
    err: &mut E,
) -> u8
    ensures headline { CallIsAnswered (call_of S.Source O.Sink E.Sink words.now src.old src.new out.old out.new err.old err.new result) }
    ensures complete { IsComplete (call_of S.Source O.Sink E.Sink words.now src.old src.new out.old out.new err.old err.new result) }
    ensures prints { PrintsPlainly (call_of S.Source O.Sink E.Sink words.now src.old src.new out.old out.new err.old err.new result) }
    ensures lists { PrintsListing (call_of S.Source O.Sink E.Sink words.now src.old src.new out.old out.new err.old err.new result) }
    ensures always_the_same { IsAlwaysTheSame (call_of S.Source O.Sink E.Sink words.now src.old src.new out.old out.new err.old err.new result) }
    ensures concords { PrintsConcordance (call_of S.Source O.Sink E.Sink words.now src.old src.new out.old out.new err.old err.new result) }
    ensures concord_ends { ConcordEnds (call_of S.Source O.Sink E.Sink words.now src.old src.new out.old out.new err.old err.new result) }
    ensures large_heaps_suffice { LargeHeapsSuffice (call_of S.Source O.Sink E.Sink words.now src.old src.new out.old out.new err.old err.new result) }
    ensures audits { AuditEnds (call_of S.Source O.Sink E.Sink words.now src.old src.new out.old out.new err.old err.new result) }
    ensures says_yes { SaysYesToTrueOutputs (call_of S.Source O.Sink E.Sink words.now src.old src.new out.old out.new err.old err.new result) }
{
    whole_call(rt, alloc, words, src, out, err)
}

/// The same, with all of it in one clause.
fn whole_call<R: Threads + Wait + Sync, S: Source, O: Sink, E: Sink>(
    rt: &R,
    alloc: Global,
    words: &[String],
    src: &mut S,
    out: &mut O,
    err: &mut E,
) -> u8
    ensures { HeadlineHolds (call_of S.Source O.Sink E.Sink words.now src.old src.new out.old out.new err.old err.new result) }
{
    let answer = answer(rt, alloc, read_words(alloc, words), src);
    finish(&answer, out, err)
}
