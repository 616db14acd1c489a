//! The call that waits for nobody, and how every call ends.

ghost use Rattle.std.specs.Prelude.{◌≡◌, IfSome, List, None, ℕ, map, string_bytes, true};
ghost use Rattle.ael_jobs.specs.Calls.Answer.{IsAnswerTo};
ghost use Rattle.ael_jobs.specs.Calls.Call.{call_of, call_with};
ghost use Rattle.ael_jobs.specs.Calls.Emits.{IsEmitted};
ghost use Rattle.ael_jobs.specs.Streams.Ends.{Drawn, filled};
ghost use Rattle.ael_jobs.specs.Calls.Headline.{HeadlineHolds, IsOutOfMemory};
ghost use Rattle.ael_jobs.specs.Arguments.Jobs.{is_waiting};
ghost use Rattle.ael_jobs.specs.Arguments.Words.{job_of};

use crate::answer::Answer;
use crate::answering::answer_still;
use crate::arguments::words::read_words;
use crate::streams::sink::Sink;
use crate::streams::source::Source;
use crate::streams::writing::emit;
use concordance_text::one_concordance;
use mutator_asm::{never_both, one_program};
use plain_heap::alone_mutators_are_independent;
use program_text::listing_is_a_text;
use std::alloc::Global;

/// All of `ael` but for jobs that wait for other threads, for which it answers `None` and has done
/// nothing, unless there was no memory to read the words.
pub fn ael_still<S: Source, O: Sink, E: Sink>(
    alloc: Global,
    words: &[String],
    src: &mut S,
    out: &mut O,
    err: &mut E,
) -> Option<u8>
    ensures holds { IfSome result (λ code. HeadlineHolds (call_of S.Source O.Sink E.Sink words.now src.old src.new out.old out.new err.old err.new code)) }
    ensures none_only_for_what_waits { result ≡ None → is_waiting (job_of (map string_bytes words.now)) ≡ true }
    ensures some_for_what_waits_only_without_memory { is_waiting (job_of (map string_bytes words.now)) ≡ true
        → IfSome result (λ code. IsOutOfMemory (call_of S.Source O.Sink E.Sink words.now src.old src.new out.old out.new err.old err.new code)) }
    ensures nothing_done { result ≡ None → (src.new ≡ src.old) × (out.new ≡ out.old) × (err.new ≡ err.old) }
{
    match read_words(alloc, words) {
        Ok(job) if job.waits() => None,
        asked => Some(finish(&answer_still(alloc, asked, src), out, err)),
    }
}

/// Writes an answer, and tells how that went.
pub fn finish<O: Sink, E: Sink>(answer: &Answer, out: &mut O, err: &mut E) -> u8
    ensures emitted { IsEmitted answer.now.output.items answer.now.status (filled O.Sink out.old out.new) (filled E.Sink err.old err.new) result }
    ensures holds { (words : List (List ℕ)) (source : Drawn) → IsAnswerTo (job_of words) source answer.now.output.items answer.now.status
        → HeadlineHolds (call_with words source (filled O.Sink out.old out.new) (filled E.Sink err.old err.new) result) }
{
    // The theorems that the proof takes.
    one_program();
    never_both();
    listing_is_a_text();
    alone_mutators_are_independent();
    one_concordance();

    emit(answer, out, err).code()
}
