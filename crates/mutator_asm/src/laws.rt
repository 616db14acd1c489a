//! What holds of all texts and programs. Each function here does nothing: its contract is what is proved.

ghost use Rattle.mutator_asm.specs.Theorems.{MeansOneProgram, HasOneFault, HasNoFault, EachTextIsRead, FetchesInstrs, FetchesEarly};

/// A text means at most one program.
pub fn one_program()
    ensures { MeansOneProgram }
{}

/// A text has at most one fault.
pub fn one_fault()
    ensures { HasOneFault }
{}

/// No text means a program and has a fault.
pub fn never_both()
    ensures { HasNoFault }
{}

/// Each text means a program or has a fault.
pub fn some_reading()
    ensures { EachTextIsRead }
{}

/// An instruction that a program holds has registers and numbers of the language, and a number below
/// 65,536 in its section.
pub fn fetched_instr()
    ensures sound { FetchesInstrs }
    ensures early { FetchesEarly }
{}
