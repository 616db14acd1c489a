//! What holds of all tables and configurations. Each function here does nothing: its contract is what is proved.

ghost use Rattle.std.specs.Prelude.{ℕ};
ghost use Rattle.heap_state.specs.Theorems.Rows.{ReadsRows, SpellsShared, StoresGate, StoresTraced, StoresArea, StoresWeak, StoresWeakTurn, StoresSize, StoresPage, StoresCross, StoresHeapWord, StoresAnnounce, StoresBeside, StoresEntry, WritesTables, MemoryFollows};
ghost use Rattle.heap_state.specs.Theorems.Saves.{WritesWholeTables, WordsReadAreFrozen, CheckpointsAreSaid};
ghost use Rattle.heap_state.specs.Theorems.Workers.{ChangesAt, SumsByTerms, TeamsByWorkers, FramesOfWorkers};
ghost use Rattle.heap_state.specs.Theorems.Standing.{StandingIsSound, RepresentedStands, RepresentedStandsInCycle, QuietStandsStill};
ghost use Rattle.heap_state.specs.Theorems.Examples.{IsWorkedOut, IsWorkedOutFlipped, IsWorkedOutRequested, IsWorkedOutSaving, TellsBroken, TellsBrokenSaves};

/// A load of a row's place reads what the decoded table has there.
pub fn rows_are_read()
    ensures rows { ReadsRows }
    ensures spelled { SpellsShared }
{}

/// A store in a row of the table is a change of one part of what the table says, and the table stays one that can be read. Of
/// checkpoints the decoded table shows nothing.
pub fn rows_change_alone()
    ensures gate { StoresGate }
    ensures traced { StoresTraced }
    ensures area { StoresArea }
    ensures weak { StoresWeak }
    ensures weak_turn { StoresWeakTurn }
    ensures size { StoresSize }
    ensures page { StoresPage }
    ensures cross { StoresCross }
    ensures heap_word { StoresHeapWord }
    ensures announce { StoresAnnounce }
    ensures beside { StoresBeside }
    ensures entry { StoresEntry }
    ensures written { WritesTables }
    ensures whole { WritesWholeTables }
{}

/// The words that are read of the last checkpoint are those of then. So, if what is kept of checkpoints stands and the heap of then
/// shows what the plain heap has kept, the words of the table say that checkpoint.
pub fn checkpoints_are_said()
    ensures read { WordsReadAreFrozen }
    ensures said { CheckpointsAreSaid }
{}

/// What the epoch sees of the table after the store of an area word, after that of the old space's size, and after a flip. Its
/// spaces are of whole pages and lie apart.
pub fn memory_follows_table()
    ensures { MemoryFollows }
{}

/// A function of numbers that is changed at one place, a sum over it, and a team of which one worker changes.
pub fn one_place_changes_alone()
    ensures functions { (f : ℕ → ℕ) (place x : ℕ) → ChangesAt f place x }
    ensures sums { SumsByTerms }
    ensures teams { TeamsByWorkers }
    ensures frames { FramesOfWorkers }
{}

/// A configuration that keeps the invariant of the proofs keeps the one by words and workers alone, and represents the plain
/// state that it shows.
pub fn what_stands_is_sound()
    ensures { StandingIsSound }
{}

/// A configuration that keeps the invariant of the proofs, and stands for one plain state, stands for each that it represents:
/// what is proved of all that it stands for is so of all that it represents. What a cycle keeps it keeps for each of them.
pub fn what_is_represented_stands()
    ensures stands { RepresentedStands }
    ensures in_cycle { RepresentedStandsInCycle }
{}

/// Where all is quiet only who scans the filling page can copy; where the epoch is traced nobody scans, copies or writes.
pub fn what_is_quiet_stands_still()
    ensures { QuietStandsStill }
{}

/// A small configuration, worked out by hand, keeps the invariant and represents the plain state that it should.
pub fn worked_configuration_stands()
    ensures { IsWorkedOut }
{}

/// Another, right after a flip, does too: its mutator is behind, and it has made one raw record that is still to be copied.
pub fn flipped_configuration_stands()
    ensures { IsWorkedOutFlipped }
{}

/// So does one whose mutator has begun a checkpoint and has still to clear the request.
pub fn requested_configuration_stands()
    ensures { IsWorkedOutRequested }
{}

/// In one that is in the midst of a checkpoint, what each step keeps of checkpoints stands, and what the plain heap has kept of then
/// is shown. Three with words that break a rule don't stand, whatever the heap of then and the workers are.
pub fn checkpoint_in_progress_stands()
    ensures stands { IsWorkedOutSaving }
    ensures broken { TellsBrokenSaves }
{}

/// With a forward to a wrong place no plain state is represented; and neither an open page that leads to an old record, nor a
/// reserve that is one word too small, nor a mutator that runs though the request is its own keeps the invariant.
pub fn broken_configurations_are_told()
    ensures { TellsBroken }
{}
