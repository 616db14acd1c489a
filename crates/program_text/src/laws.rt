//! What holds of all listings. The function does nothing: its contract is what is proved.

ghost use Rattle.mutator_asm.specs.Theorems.{MeansWellFormed, ListsText, ReadsBack, ListsNoFault};

/// A program is well formed exactly where some text means it; its listing is such a text. The listing
/// means the program that was listed and no other, and has no fault: `assemble` gives that program
/// again, or answers want of memory.
pub fn listing_is_a_text()
    ensures well_formed { MeansWellFormed }
    ensures text { ListsText }
    ensures reads_back { ReadsBack }
    ensures no_fault { ListsNoFault }
{}
