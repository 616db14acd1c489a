//! What is kept of the order of a run.

ghost use Rattle.std.specs.Prelude.{◌≡◌, ◌++◌, List, OnOk};
ghost use Rattle.std.specs.Option.{option_to_list};
ghost use Rattle.plain_heap.specs.declared.mark.Mark.{Mark};
ghost use Rattle.gc_worker.specs.Plain.Marks.{mark_of};
ghost use Rattle.ael_jobs.specs.Runs.Noted.{HasNoted};

use gc_core::{Stepped, mark};
use plain_heap::Mark;
use std::alloc::AllocError;

/// The marks of the steps so far, if they are kept.
#[derive(Drop)]
pub struct Notes {
    pub marks: Vec<Mark>,
    pub kept: bool,
}

impl Notes {
    /// Adds the mark of a step of which this is told, if it has one and marks are kept. If none are kept, an instruction is passed over in
    /// the loop of the run.
    #[inline(always)]
    pub fn note(&mut self, told: Stepped) -> Result<(), AllocError>
        ensures kept { self.new.kept ≡ self.old.kept }
        ensures noted { (order : List Mark) → HasNoted self.old order → OnOk result (HasNoted self.new (order ++ option_to_list (mark_of told))) }
    {
        match told {
            Stepped::Effect(_) if !self.kept => Ok(()),
            _ => self.keep(told),
        }
    }

    /// Hands on a copy of what is told, which the loop would have to keep in memory otherwise.
    #[inline(always)]
    fn keep(&mut self, told: Stepped) -> Result<(), AllocError>
        ensures kept { self.new.kept ≡ self.old.kept }
        ensures noted { (order : List Mark) → HasNoted self.old order → OnOk result (HasNoted self.new (order ++ option_to_list (mark_of told))) }
    {
        self.keep_apart(told)
    }

    #[inline(never)]
    fn keep_apart(&mut self, told: Stepped) -> Result<(), AllocError>
        ensures kept { self.new.kept ≡ self.old.kept }
        ensures noted { (order : List Mark) → HasNoted self.old order → OnOk result (HasNoted self.new (order ++ option_to_list (mark_of told))) }
    {
        if self.kept
            && let Some(mark) = mark(told)
        {
            self.marks.push(mark)?;
        }
        Ok(())
    }
}
