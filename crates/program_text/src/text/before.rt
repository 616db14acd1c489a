//! How much stands before a line.

ghost use Rattle.std.specs.Prelude.{◌≡◌, ◌+◌, ◌<◌, ◌^◌, [], length};
ghost use Rattle.program_text.specs.Labels.{before_of, and_line};
ghost use Rattle.program_text.specs.Read.{line_view};
ghost use Rattle.mutator_asm.specs.Text.{items_on};

use crate::text::line::Line;

/// How much stands before a line.
#[derive(Clone, Copy)]
pub struct Before {
    /// The sections that were begun.
    pub sections: usize,
    /// The lines since the last of them began.
    pub lines: usize,
    /// The instructions.
    pub instrs: usize,
    /// The items of the schedule.
    pub items: usize,
}

impl Before {
    /// Before the first line.
    #[tactic(auto, unfolding(crate::specs::Labels::before_of))]
    pub fn first() -> Before
        ensures { result ≡ before_of [] }
    {
        Before {
            sections: 0,
            lines: 0,
            instrs: 0,
            items: 0,
        }
    }

    /// Before the line after this one.
    pub fn and(self, line: &Line) -> Before
        requires sections { self.sections + 1 < 2 ^ 64 }
        requires lines { self.lines + 1 < 2 ^ 64 }
        requires instrs { self.instrs + 1 < 2 ^ 64 }
        requires items { self.items + length (items_on (line_view line.now)) < 2 ^ 64 }
        ensures { result ≡ and_line self (line_view line.now) }
    {
        Before {
            sections: self.sections + usize::from(line.begins()),
            lines: if line.begins() { 0 } else { self.lines + 1 },
            instrs: self.instrs + usize::from(line.counts()),
            items: self.items + line.items().len(),
        }
    }
}
