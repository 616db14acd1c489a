//! What a load may answer, by what the worker is about; the row that is read is one of the table.

ghost use Rattle.heap_laws.specs.Answers.{OldHeadersAreRead, CopiesAreThere, ScansAreAnswered, WalksAreAnswered, ChainsAreAnswered, PassagesFit, AreasAreRead};
ghost use Rattle.heap_laws.specs.Fields.Held.{SameWords};

/// What stands in the place of an old record's header, and where the words of a copy are.
pub fn copies_are_answered()
    ensures headers { OldHeadersAreRead }
    ensures places { CopiesAreThere }
{}

/// The crossing, the headers and the fields of a page that is scanned.
pub fn scans_are_answered()
    ensures { ScansAreAnswered }
{}

/// WEAK, and of a cell that a walk has come to the record to which its target leads, and its link.
pub fn walks_are_answered()
    ensures head { ChainsAreAnswered }
    ensures cell { WalksAreAnswered }
{}

/// The gate that a passage reads, and the one that it makes of it.
pub fn gates_are_answered()
    ensures { PassagesFit }
{}

/// The area words, also those that a worker of an epoch that is past reads.
pub fn areas_are_answered()
    ensures { AreasAreRead }
{}

/// Equal words stand for equal values where a mutator may hold them.
pub fn words_are_compared()
    ensures { SameWords }
{}
