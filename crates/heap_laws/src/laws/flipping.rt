//! The flip, which begins a cycle, and the registers that each stopped mutator then forwards.

ghost use Rattle.heap_laws.specs.Flipping.Reset.{FindingStillKeeps, ReadingSizeKeeps, ReadingUsedKeeps, StoringAreaKeeps, ClearingWeakKeeps};
ghost use Rattle.heap_laws.specs.Flipping.Sizes.{SizesAreStored};
ghost use Rattle.heap_laws.specs.Flipping.Flip.{FlippingKeeps};
ghost use Rattle.heap_laws.specs.Flipping.Registers.{PassingRegisterKeeps, AskingForRegisterKeeps, ForwardingRegisterKeeps};

/// The steps of a flipper before the flip.
pub fn flips_are_made_ready()
    ensures still { FindingStillKeeps }
    ensures size { ReadingSizeKeeps }
    ensures used { ReadingUsedKeeps }
    ensures area { StoringAreaKeeps }
    ensures weak { ClearingWeakKeeps }
{}

/// The store of the other space's size.
pub fn sizes_are_stored()
    ensures { SizesAreStored }
{}

/// The exchange of the gate by the flipper.
pub fn epochs_are_flipped()
    ensures { FlippingKeeps }
{}

/// The registers of a mutator that is behind, one by one.
pub fn registers_are_forwarded()
    ensures passed { PassingRegisterKeeps }
    ensures asked { AskingForRegisterKeeps }
    ensures forwarded { ForwardingRegisterKeeps }
{}
