//! Steps of a mutator that are steps of the plain machine, and what its loads may read.

ghost use Rattle.heap_laws.specs.Fields.Effects.{MutatorsAreShown, RegistersHold, HeadersSay, AccessesAreValues, TargetsAreValues, BoardWordsAreValues};
ghost use Rattle.heap_laws.specs.Fields.Words.{AccessesAreAllowed, WordsAreLoaded, BoardIsLoaded, HeadersAreRead, RegistersAreHeld, NumbersAreHeld};
ghost use Rattle.heap_laws.specs.Fields.Held.{GoesOnSo};
ghost use Rattle.heap_laws.specs.Fields.Stores.{MutatorsLearn, MutatorsStep, MutatorsStore, MutatorsStoreOnBoard, MutatorsSnap, MutatorsEnd, MutatorsFindNoRoom};

/// What a mutator loads leads into the epoch's space, to a record that nobody writes, and it may hold it in a register. Where
/// a register leads, a record's own header stands, and an access to one of its words is what a load or store needs.
pub fn words_are_loaded()
    ensures accesses { AccessesAreAllowed }
    ensures words { WordsAreLoaded }
    ensures board { BoardIsLoaded }
    ensures headers { HeadersAreRead }
    ensures registers { RegistersAreHeld }
    ensures numbers { NumbersAreHeld }
{}

/// What a mutator's registers, the headers that they lead to and the words that it accesses are to the plain machine.
pub fn mutators_are_shown()
    ensures mutators { MutatorsAreShown }
    ensures registers { RegistersHold }
    ensures headers { HeadersSay }
    ensures accesses { AccessesAreValues }
    ensures targets { TargetsAreValues }
    ensures board { BoardWordsAreValues }
{}

/// A running mutator learns something, and the plain mutator makes no step; and what it may so become goes on.
pub fn mutators_learn()
    ensures learns { MutatorsLearn }
    ensures goes_on { GoesOnSo }
{}

/// A step of a running mutator that stores nothing: the plain mutator makes it too.
pub fn mutators_step()
    ensures { MutatorsStep }
{}

/// A store in a record, whose page is open: the plain heap changes at that word.
pub fn mutators_store()
    ensures { MutatorsStore }
{}

/// A store on the open board: the plain board changes at that word. An exchange there is a load and this store.
pub fn mutators_store_on_board()
    ensures { MutatorsStoreOnBoard }
{}

/// A checkpoint is begun, and no row changes: the plain heap keeps its board and its records.
pub fn mutators_snap()
    ensures { MutatorsSnap }
{}

/// A running mutator gets an end; and the end for want of room, where AREA shows too little of it and nothing is owed any more.
pub fn mutators_end()
    ensures ends { MutatorsEnd }
    ensures full { MutatorsFindNoRoom }
{}
