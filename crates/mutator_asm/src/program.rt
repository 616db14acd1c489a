//! A program.

ghost use Rattle.mutator_asm.specs.Listing.{listing};
ghost use Rattle.mutator_asm.specs.Program.{IsWellFormed};
ghost use Rattle.mutator_asm.specs.Text.{IsText};

use crate::code::Code;
use crate::instr::Instr;
use crate::schedule::Schedule;

/// What a text means: the instructions of each mutator, and a schedule of the workers' steps, empty
/// where the text names none. Registers, numbers, jump targets and counts are those that a text can
/// hold, and the program's listing is a text of it.
#[derive(Debug, Drop)]
pub struct Program {
    pub code: Code,
    pub schedule: Schedule,
    pub ghost well_formed: { IsWellFormed code schedule },
    pub ghost listed: { IsText (listing code schedule) code schedule },
}

impl Program {
    ghost use Rattle.std.specs.Prelude.{◌≡◌, IsTrue, IfSome};
    ghost use Rattle.mutator_asm.specs.Program.{instr_at, is_valid};

    /// The program of these instructions and this schedule, which are those of some text.
    pub fn new(code: Code, schedule: Schedule) -> Program
        requires { IsWellFormed code schedule }
        ensures code { result.code ≡ code }
        ensures schedule { result.schedule ≡ schedule }
    {
        Program { code, schedule }
    }

    /// The instruction of a number in a mutator's section, both counted from 0; `None` where there is
    /// none.
    pub fn instr(&self, mutator: u8, counter: u64) -> Option<Instr>
        ensures exact { result ≡ instr_at self.now.code mutator counter }
        ensures valid { IfSome result (λ i. IsTrue (is_valid i)) }
    {
        self.code.instr(mutator, counter)
    }
}
